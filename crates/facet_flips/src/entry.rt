//! The whole list with the facets inserted.
use crate::frame::{Frame, frame_of};
use crate::local::Local;
use crate::missing::missing_triangles;
use crate::sheets::{Sheets, Span, sheets_of};
use crate::stop::{Stop, or_stop};
use geo_laws::{Face, FacetTriangles, Points, Tet, TetList};
use std::alloc::Global;
use tet_ports::{Items, NoMemory};

/// A list, and for each tetrahedron of the old list that facets cross, in order, the place of a
/// triangle that one of its edges passes.
#[derive(Drop)]
pub struct FlippedList {
    pub rows: TetList,
    pub crossed_by: Items<usize>,
}

/// The triangles of a facet section (sheet) by the corners of the crossed tetrahedra.
fn faces_of(
    alloc: Global,
    sheets: &Sheets,
    span: &Span,
    frame: &Frame,
) -> Result<Items<Face>, Stop> {
    let mut faces = Items::new(alloc);
    for i in span.first..span.past.min(sheets.missing.len()) {
        let t = sheets.missing.at(i);
        faces.push(or_stop(frame.face(t.a, t.b, t.c))?)?;
    }
    Ok(faces)
}

/// Inserts all facets.
fn put_all(alloc: Global, sheets: &Sheets, frame: &Frame, local: &mut Local) -> Result<(), Stop> {
    for i in 0..sheets.all.len() {
        let faces = faces_of(alloc, sheets, &sheets.all.get(i).span, frame)?;
        local.put_in(alloc, faces.as_slice())?;
    }
    Ok(())
}

/// The tetrahedra that are left in the end, in order.
fn rows_of(alloc: Global, frame: &Frame, local: &Local) -> Result<TetList, Stop> {
    let mut rows = TetList::new(alloc);
    for slot in local.slots.as_slice() {
        if slot.is_live {
            rows.push(or_stop(frame.row(&slot.corners))?)?;
        }
    }
    rows.keep_distinct();
    Ok(rows)
}

/// Adds the rows from place `from` on that are less than `row`, and answers the place of the next.
fn add_before(rows: &TetList, from: usize, row: Tet, whole: &mut TetList) -> Result<usize, Stop> {
    for i in from..rows.len() {
        let next = rows.at(i);
        if row < next {
            return Ok(i);
        }
        whole.push(next)?;
    }
    Ok(rows.len())
}

/// The merge of two ordered lists.
fn merged(alloc: Global, kept: &TetList, added: &TetList) -> Result<TetList, Stop> {
    let mut whole = TetList::new(alloc);
    let mut place = 0;
    for i in 0..kept.len() {
        let row = kept.at(i);
        place = add_before(added, place, row, &mut whole)?;
        whole.push(row)?;
    }
    for i in place..added.len() {
        whole.push(added.at(i))?;
    }
    Ok(whole)
}

/// The tetrahedra that the flips make of the crossed ones, in order.
fn flipped_rows(
    alloc: Global,
    points: &Points,
    sheets: &Sheets,
    crossed: &TetList,
) -> Result<TetList, Stop> {
    let frame = frame_of(alloc, points.len(), crossed)?;
    let mut local = frame.slots_of(alloc, points, crossed)?;
    put_all(alloc, sheets, &frame, &mut local)?;
    rows_of(alloc, &frame, &local)
}

/// The tetrahedra that no facet crosses, and those that the flips make of the others.
fn flipped(
    alloc: Global,
    points: &Points,
    list: &TetList,
    triangles: &FacetTriangles,
) -> Result<FlippedList, Stop> {
    let missing = missing_triangles(alloc, list, triangles)?;
    let sheets = sheets_of(alloc, points, missing)?;
    let parted = sheets.part(alloc, points, list)?;
    let added = flipped_rows(alloc, points, &sheets, &parted.crossed)?;
    let rows = merged(alloc, &parted.kept, &added)?;
    Ok(FlippedList {
        rows,
        crossed_by: parted.crossed_by,
    })
}

/// A list with the faces of all facets in place of a Delaunay list, or `None` where the flips do
/// not reach one. The facets are inserted one after another: for each facet that crosses
/// tetrahedra, the points above its plane are lifted further and further, and tetrahedra are
/// flipped as they cease to be locally convex. The result has no contract. Source: Shewchuk,
/// Updating and Constructing Constrained Delaunay and Constrained Regular Triangulations by Flips
/// (2003).
pub fn candidate(
    alloc: Global,
    points: &Points,
    list: &TetList,
    triangles: &FacetTriangles,
) -> Result<Option<FlippedList>, NoMemory> {
    match flipped(alloc, points, list, triangles) {
        Ok(made) => Ok(Some(made)),
        Err(Stop::GivesUp) => Ok(None),
        Err(Stop::NoMemory) => Err(NoMemory),
    }
}

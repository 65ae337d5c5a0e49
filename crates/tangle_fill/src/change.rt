//! The difference of a candidate list from the Delaunay list, and the tetrahedra near it.
ghost use Rattle.std.specs.Prelude.{◌≡◌, false, IsTrue, IfOk, IfSome, OnOk, All, Contains};
ghost use Rattle.sign_predicates.specs.Orientation.{IsPositive};
ghost use Rattle.geo_laws.specs.Delaunay.{numbers, IsOn, IsArranged};
ghost use Rattle.constrained_laws.specs.Constrained.{IsCornerOfSome};
ghost use Rattle.tangle_fill.specs.Fill.{as_oriented};
ghost use Rattle.tangle_fill.specs.Indexed.{IsIndexed};
ghost use Rattle.tangle_fill.specs.Removed.{IsRemoved};
ghost use Rattle.tangle_fill.specs.Accept.{IsRow, AreArrangedRows};
ghost use Rattle.tangle_fill.specs.Change.{IsRest, KeepsMarks, MarksOnly, IsMarkedRow, IsMarkedFace, HasNoMarkedFace, IsPutApart, HoldsNearRows, IsChange};
ghost use Rattle.geo_laws.specs.Marks.{is_marked};

use crate::admit::{is_arranged, is_row};
use crate::growth::Growth;
use geo_laws::{Face, FacetTriangle, FacetTriangles, Points, Tet, TetList};
use std::alloc::Global;
use tet_ports::NoMemory;

/// Whether the corners are points of the list.
fn is_on(points: &Points, row: Tet) -> bool
    ensures { IsTrue result → IsOn points.now row }
{
    let count = points.len();
    (row.a as usize) < count
        && (row.b as usize) < count
        && (row.c as usize) < count
        && (row.d as usize) < count
}

/// Whether the row's corners are points of the list, its tetrahedron is positive, and it is in the
/// least even arrangement.
fn is_any_row(points: &Points, row: Tet) -> bool
    ensures { IsTrue result → IsRow points.now row }
{
    if is_on(points, row) {
        is_row(points, row)
    } else {
        false
    }
}

/// Whether each row is positive, on the points and in the least even arrangement.
fn are_rows(points: &Points, rows: &TetList) -> bool
    ensures { IsTrue result → AreArrangedRows points.now rows.now }
{
    for i in 0..rows.len() {
        if !is_any_row(points, rows.at(i)) {
            return false;
        }
    }
    true
}

/// The first place from `from` on at which the list's row is not less than `row`, or the list's
/// length.
fn place_from(list: &TetList, from: usize, row: Tet) -> usize {
    for k in from..list.len() {
        if list.at(k) >= row {
            return k;
        }
    }
    list.len()
}

/// Whether the list has the row at the place.
fn is_at(list: &TetList, place: usize, row: Tet) -> bool
    ensures { IsTrue result → Contains list.now row }
{
    if place >= list.len() {
        return false;
    }
    list.at(place) == row
}

/// The rows of the list that are not in the other one, by one pass over both, which are in order.
fn rest_of(alloc: Global, list: &TetList, other: &TetList) -> Result<TetList, NoMemory>
    ensures { IfOk result (IsRest list.now other.now) }
{
    let mut rest = TetList::new(alloc);
    let mut place = 0;
    for i in 0..list.len() {
        let row = list.at(i);
        place = place_from(other, place, row);
        if !is_at(other, place, row) {
            rest.push(row)?;
        }
    }
    Ok(rest)
}

/// The tetrahedra, indexed by the sides of faces on which they lie.
fn indexed(alloc: Global, rows: &TetList) -> Result<Growth, NoMemory>
    ensures rows { IfOk result (λ growth. growth.rows ≡ rows.now) }
    ensures indexed { IfOk result IsIndexed }
{
    let mut growth = Growth::with_room(alloc, rows.len())?;
    for i in 0..rows.len() {
        growth.put(rows.at(i))?;
    }
    Ok(growth)
}

/// Marks a point.
fn mark(marks: &mut Vec<bool>, number: u32) -> Result<(), NoMemory>
    ensures marked { OnOk result (IsTrue (is_marked marks.new.items number)) }
    ensures kept { OnOk result (KeepsMarks marks.old.items marks.new.items) }
    ensures only { OnOk result (MarksOnly (λ i. i ≡ number) marks.old.items marks.new.items) }
{
    let place = number as usize;
    if marks.len() <= place {
        marks.resize(place + 1, false)?;
    }
    marks[place] = true;
    Ok(())
}

/// Marks the corners of the tetrahedron.
fn mark_row(marks: &mut Vec<bool>, row: Tet) -> Result<(), NoMemory>
    ensures marked { OnOk result (IsMarkedRow marks.new.items row) }
    ensures kept { OnOk result (KeepsMarks marks.old.items marks.new.items) }
    ensures only { OnOk result
        (MarksOnly (Contains (numbers row)) marks.old.items marks.new.items) }
{
    mark(marks, row.a)?;
    mark(marks, row.b)?;
    mark(marks, row.c)?;
    mark(marks, row.d)?;
    Ok(())
}

/// Marks the corners of all tetrahedra.
pub(crate) fn mark_rows(marks: &mut Vec<bool>, rows: &TetList) -> Result<(), NoMemory>
    ensures marked { OnOk result (All (IsMarkedRow marks.new.items) rows.now) }
    ensures kept { OnOk result (KeepsMarks marks.old.items marks.new.items) }
    ensures only { OnOk result
        (MarksOnly (IsCornerOfSome rows.now) marks.old.items marks.new.items) }
{
    for i in 0..rows.len() {
        mark_row(marks, rows.at(i))?;
    }
    Ok(())
}

/// Marks the corners of the triangles, so that the tetrahedra with these as faces count as near.
fn mark_triangles(marks: &mut Vec<bool>, triangles: &FacetTriangles) -> Result<(), NoMemory>
    ensures { OnOk result (KeepsMarks marks.old.items marks.new.items) }
{
    for i in 0..triangles.len() {
        let FacetTriangle { a, b, c, .. } = triangles.at(i);
        mark(marks, a)?;
        mark(marks, b)?;
        mark(marks, c)?;
    }
    Ok(())
}

/// Marks the corners of the added tetrahedra, of the removed ones and of the triangles, among
/// `count` points.
fn marks_of(
    alloc: Global,
    count: usize,
    added: &TetList,
    removed: &TetList,
    triangles: &FacetTriangles,
) -> Result<Vec<bool>, NoMemory>
    ensures added { IfOk result (λ marks. All (IsMarkedRow marks.items) added.now) }
    ensures removed { IfOk result (λ marks. All (IsMarkedRow marks.items) removed.now) }
{
    let mut marks = Vec::new(alloc);
    marks.resize(count, false)?;
    mark_rows(&mut marks, added)?;
    mark_rows(&mut marks, removed)?;
    mark_triangles(&mut marks, triangles)?;
    Ok(marks)
}

/// Whether the point is marked.
fn is_marked(marks: &[bool], number: u32) -> bool
    ensures { result ≡ is_marked marks.now number }
{
    let place = number as usize;
    place < marks.len() && marks[place]
}

/// Whether all corners of the face are marked.
pub(crate) fn is_marked_face(marks: &[bool], f: Face) -> bool
    ensures { result ≡ false → ¬ IsMarkedFace marks.now (as_oriented f) }
{
    is_marked(marks, f.a) && is_marked(marks, f.b) && is_marked(marks, f.c)
}

/// Whether three corners of the tetrahedron are marked; if not, no face of it has all corners
/// marked.
fn has_three(marks: &[bool], row: Tet) -> bool
    ensures { result ≡ false → HasNoMarkedFace marks.now row }
{
    let a = is_marked(marks, row.a);
    let b = is_marked(marks, row.b);
    let c = is_marked(marks, row.c);
    let d = is_marked(marks, row.d);
    u8::from(a) + u8::from(b) + u8::from(c) + u8::from(d) > 2
}

/// Appends a tetrahedron, and answers whether its row is in the least even arrangement and no other
/// lies with it on one side of a face.
fn put_near(near: &mut Growth, row: Tet) -> Result<bool, NoMemory>
    requires indexed { IsIndexed near.old }
    requires arranged { All IsArranged near.old.rows }
    ensures { IfOk result (λ apart. IsTrue apart → IsPutApart near.old near.new row) }
{
    if !is_arranged(row) {
        return Ok(false);
    }
    near.put_apart(row)
}

/// The tetrahedra with three marked corners, with room for `likely` of them; None where two lie on
/// one side of a face, or a row is not in the least even arrangement.
fn near_of(
    alloc: Global,
    marks: &[bool],
    rows: &TetList,
    likely: usize,
) -> Result<Option<Growth>, NoMemory>
    ensures { IfOk result (λ found. IfSome found (HoldsNearRows marks.now rows.now)) }
{
    let mut near = Growth::with_room(alloc, likely)?;
    for i in 0..rows.len() {
        let row = rows.at(i);
        if has_three(marks, row) {
            if !put_near(&mut near, row)? {
                return Ok(None);
            }
        }
    }
    Ok(Some(near))
}

/// A candidate beside a Delaunay list: its tetrahedra, those added and those removed, marks for the
/// corners of these and of the facet triangles, and the tetrahedra near the change, which have a
/// face with marked corners.
#[derive(Drop)]
pub(crate) struct Change {
    pub(crate) rows: TetList,
    pub(crate) added: TetList,
    pub(crate) removed: Growth,
    pub(crate) marks: Vec<bool>,
    pub(crate) near: Growth,
}

/// The difference of a candidate, in order, from a Delaunay list; None where an added tetrahedron
/// is not positive, not on the points or its row not in the least even arrangement, or two
/// tetrahedra near the change lie on one side of a face.
pub(crate) fn change_of(
    alloc: Global,
    points: &Points,
    list: &TetList,
    triangles: &FacetTriangles,
    rows: TetList,
) -> Result<Option<Change>, NoMemory>
    ensures change { IfOk result (λ found. IfSome found (IsChange points.now list.now)) }
    ensures rows { IfOk result (λ found. IfSome found (λ change. change.rows ≡ rows)) }
{
    let added = rest_of(alloc, &rows, list)?;
    if !are_rows(points, &added) {
        return Ok(None);
    }
    let rest = rest_of(alloc, list, &rows)?;
    let marks = marks_of(alloc, points.len(), &added, &rest, triangles)?;
    let likely = added.len().saturating_add(rest.len()).saturating_mul(2);
    let Some(near) = near_of(alloc, &marks, &rows, likely.min(rows.len()))? else {
        return Ok(None);
    };
    let removed = indexed(alloc, &rest)?;
    Ok(Some(Change {
        rows,
        added,
        removed,
        marks,
        near,
    }))
}

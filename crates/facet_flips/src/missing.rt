//! The facet triangles that are no faces of a list.
use geo_laws::{Face, FacetTriangle, FacetTriangles, Tet, TetList, row_faces};
use incidence::FaceTable;
use std::alloc::Global;
use tet_ports::{Items, NoMemory};

/// Facet triangles, and the place of each among all.
#[derive(Drop)]
pub(crate) struct Missing {
    pub(crate) triangles: FacetTriangles,
    pub(crate) places: Items<usize>,
}

/// Whether a facet triangle begins at a corner of the tetrahedron. Without one, no face of the
/// tetrahedron is a facet triangle.
fn begins_at(table: &FaceTable, row: Tet) -> bool {
    table.has_first(row.a)
        || table.has_first(row.b)
        || table.has_first(row.c)
        || table.has_first(row.d)
}

/// Adds the faces of the tetrahedron that are facet triangles.
fn add_faces(table: &FaceTable, row: Tet, listed: &mut Items<Face>) -> Result<(), NoMemory> {
    for face in row_faces(row) {
        if table.has(face) {
            listed.push(face)?;
        }
    }
    Ok(())
}

/// The faces of the list that are facet triangles, in order.
fn listed_faces(
    alloc: Global,
    list: &TetList,
    triangles: &FacetTriangles,
) -> Result<Items<Face>, NoMemory> {
    let table = FaceTable::of_triangles(alloc, triangles)?;
    let mut listed = Items::new(alloc);
    for i in 0..list.len() {
        let row = list.at(i);
        if begins_at(&table, row) {
            add_faces(&table, row, &mut listed)?;
        }
    }
    listed.keep_distinct();
    Ok(listed)
}

/// Whether the triangle, whose corners ascend, is found among faces in order.
fn is_listed(listed: &Items<Face>, t: FacetTriangle) -> bool {
    let FacetTriangle { facet: _, a, b, c } = t;
    matches!(listed.as_slice().binary_search(&Face { a, b, c }), Ok(_))
}

/// The triangles that are no faces of the list.
pub(crate) fn missing_triangles(
    alloc: Global,
    list: &TetList,
    triangles: &FacetTriangles,
) -> Result<Missing, NoMemory> {
    let listed = listed_faces(alloc, list, triangles)?;
    let mut missing = Missing {
        triangles: FacetTriangles::new(alloc),
        places: Items::new(alloc),
    };
    for i in 0..triangles.len() {
        let t = triangles.at(i);
        if !is_listed(&listed, t) {
            missing.triangles.push(t)?;
            missing.places.push(i)?;
        }
    }
    Ok(missing)
}

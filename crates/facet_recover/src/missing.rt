//! The missing subfaces: the facet triangles that are no faces of the list.
ghost use Rattle.std.specs.Prelude.{◌≡◌, ◌↔◌, ◌⊎◌, ◌<◌, ℕ, true, false, List, length, Contains, IfOk};
ghost use Rattle.geo_laws.specs.Faces.{row_faces, faces_of_rows};
ghost use Rattle.geo_laws.specs.declared.tetrahedra.Tet.{Tet as Row};
ghost use Rattle.incidence.specs.Chains.{face_at};
ghost use Rattle.facet_recover.specs.Missing.{AreMissing, AreListed};
ghost use Rattle.geo_laws.specs.Marks.{is_marked};

use geo_laws::{FacetTriangles, Tet, TetList, face_of};
use incidence::FaceTable;
use std::alloc::Global;
use tet_ports::NoMemory;

/// Whether a facet triangle begins at a corner of the tetrahedron. Without one, no face of the
/// tetrahedron is a facet triangle.
fn begins_at(table: &FaceTable, tet: Tet) -> bool
    ensures { result ≡ false → (k : ℕ) → k < length table.now
        → ¬ Contains (row_faces tet) (face_at table.now k) }
{
    if table.has_first(tet.a) {
        return true;
    }
    if table.has_first(tet.b) {
        return true;
    }
    if table.has_first(tet.c) {
        return true;
    }
    table.has_first(tet.d)
}

/// Marks the triangles that are faces of the tetrahedron, by their places. Most tetrahedra have no
/// corner that is the first corner of a triangle.
fn mark_faces(table: &FaceTable, tet: Tet, marks: &mut [bool])
    requires { length marks.old ≡ length table.now }
    ensures long { length marks.new ≡ length marks.old }
    ensures marked { (k : ℕ) → k < length table.now → (is_marked marks.new k ≡ true)
        ↔ ((is_marked marks.old k ≡ true) ⊎ Contains (row_faces tet) (face_at table.now k)) }
{
    if !begins_at(table, tet) {
        return;
    }
    let Tet { a, b, c, d } = tet;
    table.mark(face_of(b, c, d), marks);
    table.mark(face_of(a, c, d), marks);
    table.mark(face_of(a, b, d), marks);
    table.mark(face_of(a, b, c), marks);
}

/// Marks the triangles that are faces of the list. None is marked before.
fn mark_all_faces(table: &FaceTable, list: &TetList, marks: &mut [bool])
    requires long { length marks.old ≡ length table.now }
    requires clear { (k : ℕ) → is_marked marks.old k ≡ false }
    ensures long { length marks.new ≡ length marks.old }
    ensures marked { (k : ℕ) → k < length table.now → (is_marked marks.new k ≡ true)
        ↔ Contains (faces_of_rows list.now) (face_at table.now k) }
{
    for i in 0..list.len() {
        mark_faces(table, list.at(i), marks);
    }
}

/// A mark for each triangle: whether it is a face of the list.
pub fn listed_triangles(
    alloc: Global,
    list: &TetList,
    triangles: &FacetTriangles,
) -> Result<Vec<bool>, NoMemory>
    ensures { IfOk result (λ marks. AreListed triangles.now list.now marks.items) }
{
    let table = FaceTable::of_triangles(alloc, triangles)?;
    let mut marks = Vec::new(alloc);
    marks.resize(triangles.len(), false)?;
    mark_all_faces(&table, list, &mut marks);
    Ok(marks)
}

/// The triangles without a mark: the missing ones, where the faces of a list are marked.
fn unmarked(
    alloc: Global,
    triangles: &FacetTriangles,
    listed: &[bool],
) -> Result<FacetTriangles, NoMemory>
    requires { length listed.now ≡ length triangles.now }
    ensures { IfOk result (λ missing. (rows : List Row)
        → AreListed triangles.now rows listed.now → AreMissing triangles.now rows missing) }
{
    let mut missing = FacetTriangles::new(alloc);
    for i in 0..triangles.len() {
        if !listed[i] {
            missing.push(triangles.at(i))?;
        }
    }
    Ok(missing)
}

/// The triangles that are no faces of the list. Where the list is properly met, only these can
/// cross its tetrahedra.
pub(crate) fn missing_triangles(
    alloc: Global,
    list: &TetList,
    triangles: &FacetTriangles,
) -> Result<FacetTriangles, NoMemory>
    ensures { IfOk result (AreMissing triangles.now list.now) }
{
    let listed = listed_triangles(alloc, list, triangles)?;
    unmarked(alloc, triangles, &listed)
}

//! The faces of tetrahedra with the markers of their facets.
ghost use Rattle.std.specs.Prelude.{◌≡◌, ◌<◌, pos, if◌then◌else◌, length, All, AllPairs, HoldsAt};
ghost use Rattle.std.specs.Prelude.{IfOk, IsSome, IsTrue, IsFalse};
ghost use Rattle.incidence.specs.HalfFaces.{used};
ghost use Rattle.incidence.specs.Uses.{AreUsesOf, IsRunStart, FollowsLike};
ghost use Rattle.mesh_files.specs.FaceRows.{AreFaceRowsOf, AreTrianglesMetByFaces, AreFacetsThere, IsFaceRowOf};
ghost use Rattle.mesh_files.specs.FaceRows.{corners_of, is_on_hull, marker_or_1};
ghost use Rattle.mesh_files.specs.FacetFaces.{FacetFaceBefore, IsTriangleIn, IsRowOrNone};

use crate::facet_faces::{FacetFaces, facet_faces, first_facet};
use geo_laws::{Complex, Face, FacetTriangles, Points, TetList};
use incidence::{Uses, use_at, uses_of};
use std::alloc::Global;
use tet_ports::{Items, NoMemory};

/// A face of a mesh with its marker. Its corners are places in a list of points, from 0, ascending.
#[derive(Clone, Copy, Debug, PartialEq, Eq)]
pub struct FaceRow {
    pub a: u32,
    pub b: u32,
    pub c: u32,
    pub marker: i64,
}

/// A list of faces with their markers.
pub type FaceRows = Items<FaceRow>;

/// A list of tetrahedra, their points, and the complex that marks their faces, with the triangles
/// of its facets.
#[derive(Clone, Copy)]
pub struct MarkedList<'a> {
    pub points: &'a Points,
    pub list: &'a TetList,
    pub complex: &'a Complex,
    pub triangles: &'a FacetTriangles,
}

/// The faces of tetrahedra, each once, ascending, with their markers. The marker is that of the
/// first facet in which the face lies, by its place in the complex, and 1 where that facet has
/// none. A face in no facet has 1 where only one tetrahedron has it, so that it is on the hull of
/// the mesh, and 0 elsewhere. Without `all` there are only the faces on the hull and those that lie
/// in facets. The only refusal is out of memory. Only tests call it.
pub fn face_rows(
    alloc: Global,
    points: &Points,
    list: &TetList,
    complex: &Complex,
    triangles: &FacetTriangles,
    all: bool,
) -> Result<FaceRows, NoMemory>
    requires met { AreTrianglesMetByFaces points.now triangles.now list.now }
    requires facets { AreFacetsThere triangles.now complex.now }
    ensures { IfOk result (λ found. AreFaceRowsOf points.now list.now complex.now triangles.now
        all found) }
{
    let uses = uses_of(alloc, list)?;
    let mesh = MarkedList {
        points,
        list,
        complex,
        triangles,
    };
    used_faces(alloc, &mesh, &uses, all)
}

/// As `face_rows`, from the uses of the faces.
pub fn used_faces(
    alloc: Global,
    mesh: &MarkedList<'_>,
    uses: &Uses,
    all: bool,
) -> Result<FaceRows, NoMemory>
    requires met { AreTrianglesMetByFaces mesh.now.points.now mesh.now.triangles.now
        mesh.now.list.now }
    requires facets { AreFacetsThere mesh.now.triangles.now mesh.now.complex.now }
    requires uses { AreUsesOf mesh.now.list.now uses.now }
    ensures { IfOk result (λ found. AreFaceRowsOf mesh.now.points.now mesh.now.list.now
        mesh.now.complex.now mesh.now.triangles.now all found) }
{
    let MarkedList { list, complex, .. } = *mesh;
    let facets = facet_faces(alloc, mesh.triangles)?;
    let mut found = FaceRows::with_capacity(alloc, face_room(uses, all))?;
    for at in 0..uses.len() {
        if is_first(list, uses, at) {
            if let Some(row) = row_at(list, uses, complex, &facets, all, at) {
                found.push(row)?;
            }
        }
    }
    Ok(found)
}

/// The number of faces for which memory is asked at once: most faces of a mesh have two uses, and
/// few are on its hull.
fn face_room(uses: &Uses, all: bool) -> usize {
    if all {
        uses.len() / 2 + uses.len() / 16
    } else {
        0
    }
}

/// A face with a marker.
fn marked(face: Face, marker: i64) -> FaceRow
    ensures corners { corners_of result ≡ face }
    ensures marker { result.marker ≡ marker }
{
    let Face { a, b, c } = face;
    FaceRow { a, b, c, marker }
}

/// A face with the marker of the facet at this place, from 0, and 1 where that has none.
fn in_facet(face: Face, complex: &Complex, facet: u32) -> FaceRow
    requires { facet < length complex.now.facets }
    ensures corners { corners_of result ≡ face }
    ensures marker { HoldsAt (λ f. result.marker ≡ marker_or_1 f.marker) complex.now.facets facet }
{
    match complex.facet(facet).marker {
        Some(marker) => marked(face, marker),
        None => marked(face, 1),
    }
}

/// A face with the marker of those in no facet: 1 on the hull, else 0.
pub(crate) fn in_no_facet(face: Face, on_hull: bool) -> FaceRow
    ensures corners { corners_of result ≡ face }
    ensures marker { result.marker ≡ (if on_hull then pos 1 else pos 0) }
{
    marked(face, if on_hull { 1 } else { 0 })
}

/// The face whose first use is at a place, with its marker, if it is asked for.
#[inline(always)]
pub(crate) fn row_at(
    list: &TetList,
    uses: &Uses,
    complex: &Complex,
    facets: &FacetFaces,
    all: bool,
    at: usize,
) -> Option<FaceRow>
    requires uses { AreUsesOf list.now uses.now }
    requires there { at < length uses.now }
    requires run { IsRunStart (used list.now uses.now) at at }
    requires ascending { AllPairs FacetFaceBefore facets.now }
    requires facets { All (λ x. x.facet < length complex.now.facets) facets.now }
    ensures row { HoldsAt (λ u. IsRowOrNone (IsFaceRowOf
        (IsTriangleIn facets.now) complex.now.facets list.now all u.face) result)
        (used list.now uses.now) at }
    ensures asked { IsTrue all → IsSome result }
{
    let face = use_at(uses, at, list).face;
    if let Some(facet) = first_facet(facets, face) {
        return Some(in_facet(face, complex, facet));
    }
    let on_hull = is_of_one_row(list, uses, at);
    if all || on_hull {
        return Some(in_no_facet(face, on_hull));
    }
    None
}

/// Whether the use at a place is the first one of its face.
pub(crate) fn is_first(list: &TetList, uses: &Uses, at: usize) -> bool
    requires uses { AreUsesOf list.now uses.now }
    requires there { at < length uses.now }
    ensures first { IsTrue result → IsRunStart (used list.now uses.now) at at }
    ensures later { IsFalse result → FollowsLike (used list.now uses.now) at }
    ensures marked { HoldsAt (λ u. result ≡ u.first) uses.now at }
{
    uses.at(at).first
}

/// Whether only one tetrahedron has the face whose first use is at a place.
fn is_of_one_row(list: &TetList, uses: &Uses, at: usize) -> bool
    requires uses { AreUsesOf list.now uses.now }
    requires there { at < length uses.now }
    requires run { IsRunStart (used list.now uses.now) at at }
    ensures { HoldsAt (λ u. result ≡ is_on_hull list.now u.face) (used list.now uses.now) at }
{
    let count = uses.len();
    if at + 1 < count {
        return uses.at(at + 1).first;
    }
    true
}

//! Tetrahedra that are not locally Delaunay across a face that is not listed.

ghost use Rattle.std.specs.Prelude.{◌≡◌, ◌↔◌, ◌<◌, ℕ, IsTrue, All, length, map};
ghost use Rattle.geo_laws.specs.Delaunay.{IsOn};
ghost use Rattle.incidence.specs.Pairs.{pairs_of, IsAcrossWithin, AreAllWithin};
ghost use Rattle.mesh_check.specs.Corners.{face_in, face_listed};
ghost use Rattle.mesh_check.specs.Defects.{IsSameSide, IsBent};
ghost use Rattle.mesh_check.specs.FaceSets.{HasExactly};
ghost use Rattle.mesh_check.specs.Searches.{IsLeastOf, IsLeastPair};
ghost use Rattle.mesh_check.specs.Bending.{IsBentOnce, IsBentFrom, IsBentAcross, MeetsBent};

use crate::face_set::{FaceSet, entry_in, face_in, has, point_in};
use crate::same_side::least_of;
use crate::sphere::is_inside_sphere;
use geo_laws::{Points, Tet, TetList, corners_of};
use incidence::{Across, Pairs};
use mesh_files::FaceRows;

/// The number of corners of a tetrahedron.
const CORNERS: u8 = 4;

/// The points and the tetrahedra of a mesh, and the set of its listed faces.
#[derive(Clone, Copy)]
pub(crate) struct Bending<'a> {
    pub(crate) points: &'a Points,
    pub(crate) list: &'a TetList,
    pub(crate) listed: &'a FaceSet,
}

/// Whether the face of `s` opposite its corner `p` is the face of `t` opposite its corner `q`.
fn is_shared(s: Tet, t: Tet, p: u8, q: u8) -> bool
    ensures { IsTrue result ↔ (face_in s p ≡ face_in t q) }
{
    face_in(s, p) == face_in(t, q)
}

/// Whether `s` and `t` share an unlisted face, opposite the corners `p` and `q`, and `q` is
/// strictly inside the circumsphere of `s`.
fn is_bent_at(mesh: Bending, s: Tet, t: Tet, p: u8, q: u8) -> bool
    requires s { IsOn mesh.points.now s }
    requires t { IsOn mesh.points.now t }
    ensures { IsTrue result ↔ IsBentOnce mesh.entry.points.now mesh.entry.listed.now s t p q }
{
    if !is_shared(s, t, p, q) {
        return false;
    }
    let face = face_in(s, p);
    if has(mesh.listed, face) {
        return false;
    }
    let point = mesh.points.at(point_in(t, q) as usize);
    is_inside_sphere(corners_of(mesh.points, s), point)
}

/// The first corner of `t` opposite a shared unlisted face across which the two are not locally
/// Delaunay.
fn bent_corner(mesh: Bending, s: Tet, t: Tet, p: u8) -> Option<u8>
    requires s { IsOn mesh.points.now s }
    requires t { IsOn mesh.points.now t }
    ensures { IsLeastOf
        (λ q. (q < 4) × IsBentOnce mesh.entry.points.now mesh.entry.listed.now s t p q) result }
{
    for q in 0..CORNERS {
        if is_bent_at(mesh, s, t, p, q) {
            return Some(q);
        }
    }
    None
}

/// The first corner of `s` across whose opposite face `s` and `t` are not locally Delaunay.
fn first_bent_corner(mesh: Bending, s: Tet, t: Tet) -> Option<u8>
    requires s { IsOn mesh.points.now s }
    requires t { IsOn mesh.points.now t }
    ensures { IsLeastOf
        (λ p. (p < 4) × IsBentFrom mesh.entry.points.now mesh.entry.listed.now s t p) result }
{
    for p in 0..CORNERS {
        if bent_corner(mesh, s, t, p).is_some() {
            return Some(p);
        }
    }
    None
}

/// The tetrahedron across the face opposite a corner of the one at `place`, where it comes later
/// and the two are not locally Delaunay across that face.
fn bent_across(mesh: Bending, place: usize, across: Across, corner: u8) -> Option<usize>
    requires place { place < length mesh.list.now }
    requires rows { All (IsOn mesh.points.now) mesh.list.now }
    requires within { IsAcrossWithin (length mesh.list.now) across }
    ensures { IsLeastOf (IsBentAcross mesh.entry.points.now mesh.entry.listed.now
        mesh.entry.list.now place across corner) result }
{
    let two = entry_in(across, corner)?;
    if two <= place {
        return None;
    }
    let (s, t) = (mesh.list.at(place), mesh.list.at(two));
    if first_bent_corner(mesh, s, t).is_some() {
        Some(two)
    } else {
        None
    }
}

/// The first later tetrahedron with which the one at `place` is not locally Delaunay across an
/// unlisted face.
fn first_bent_with(mesh: Bending, place: usize, across: Across) -> Option<usize>
    requires place { place < length mesh.list.now }
    requires rows { All (IsOn mesh.points.now) mesh.list.now }
    requires within { IsAcrossWithin (length mesh.list.now) across }
    ensures { IsLeastOf (MeetsBent mesh.entry.points.now mesh.entry.listed.now mesh.entry.list.now
        place across 4) result }
{
    let mut least = None;
    for corner in 0..CORNERS {
        least = least_of(least, bent_across(mesh, place, across, corner));
    }
    least
}

/// The first two tetrahedra that are not locally Delaunay across an unlisted face, where no two lie
/// on one side of a face.
pub(crate) fn first_bent(mesh: Bending, pairs: &Pairs, faces: &FaceRows) -> Option<(usize, usize)>
    requires rows { All (IsOn mesh.points.now) mesh.list.now }
    requires apart { (i j : ℕ) → ¬ IsSameSide mesh.points.now mesh.list.now i j }
    requires pairs { pairs.now ≡ pairs_of mesh.list.now }
    requires within { AreAllWithin (length pairs.now) pairs.now }
    requires listed { HasExactly mesh.listed.now (map face_listed faces.now) }
    ensures { IsLeastPair (IsBent mesh.entry.points.now mesh.entry.list.now faces.now) result }
{
    for i in 0..mesh.list.len() {
        let across = pairs.at(i);
        if let Some(two) = first_bent_with(mesh, i, across) {
            return Some((i, two));
        }
    }
    None
}

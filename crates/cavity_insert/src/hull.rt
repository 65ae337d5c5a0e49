//! The faces of the hull of a mesh, read from its ghosts.
ghost use Rattle.std.specs.Prelude.{◌≡◌, ℕ, ◌-◌, ◌^◌, ◌<◌, List, Some, None, length, slice_set};
ghost use Rattle.std.specs.Prelude.{IfOk, OnOk, IsErrOf, MatchOption};
ghost use Rattle.geo_laws.specs.Delaunay.{all_numbers, delaunay_rows, AreCoplanar};
ghost use Rattle.geo_laws.specs.Delaunay.{HasDistinctPoints, IsDelaunayList};
ghost use Rattle.geo_laws.specs.Faces.{face_of, AreHullFacesOf};
ghost use Rattle.geo_laws.specs.declared.faces.Face.{Face as HullFace};
ghost use Rattle.geo_laws.specs.declared.tetrahedra.Tet.{Tet as Row};
ghost use Rattle.mesh_arena.specs.Mesh.{corner_list, IsLive};
ghost use Rattle.point_locate.specs.Place.{row_corners};
ghost use Rattle.mesh_laws.specs.Living.{face_off, IsDelaunayMesh};
ghost use Rattle.cavity_insert.specs.Hull.{ascending, IsOverFace, AreFacesBelow};

use crate::meshing::{BuildFault, Built, mesh_from};
use crate::rows::slot_rows;
use geo_laws::{Face, Points, TetList, face_of};
use mesh_arena::{Arena, Corner, Slot, SlotCorners};
use point_locate::{Shape, shape_of};
use std::alloc::Global;
use std::marker::Brand;
use std::sync::ledger::Blank;
use tet_ports::{Items, NoMemory};

/// A list of faces.
pub type Faces = Items<Face>;

/// A Delaunay list, and the faces of its hull, ascending.
#[derive(Drop)]
pub struct HulledList {
    pub rows: TetList,
    pub hull: Faces,
}

/// As `delaunay`, with the faces of the hull: those that only one tetrahedron has. They are read
/// from the mesh's ghosts, which costs far less than a search among all faces.
pub fn delaunay_with_hull(alloc: Global, points: &Points) -> Result<HulledList, BuildFault>
    requires distinct { HasDistinctPoints points.now }
    requires few { length points.now < 2 ^ 32 - 1 }
    ensures rows { IfOk result (λ made. made.rows ≡ delaunay_rows points.now) }
    ensures list { IfOk result (λ made. IsDelaunayList points.now made.rows) }
    ensures hull { IfOk result (λ made. AreHullFacesOf made.rows made.hull) }
    ensures not_flat { OnOk result (¬ AreCoplanar points.now) }
    ensures flat { IsErrOf result BuildFault.Flat → AreCoplanar points.now }
{
    let Built { arena, last } = mesh_from::<Brand>(alloc, points, Blank::new(1))?;
    let hull = hull_of(alloc, &arena, points, last)?;
    let found = slot_rows(alloc, &arena)?;
    // The arena is freed before the list is made, so that less memory is taken at once.
    arena.let_go();
    let rows = found.into_list(alloc)?;
    Ok(HulledList { rows, hull })
}

/// The faces of the hull of a mesh, ascending. The slot is a live one.
pub(crate) fn hull_of(
    alloc: Global,
    arena: &Arena,
    points: &Points,
    last: Slot,
) -> Result<Faces, NoMemory>
    requires mesh { IsDelaunayMesh arena.now.slots points.now (all_numbers points.now) }
    requires live { IsLive arena.now.slots last.index }
    ensures { IfOk result
        (λ faces. (rows : List Row) → IsDelaunayList points.now rows → AreHullFacesOf rows faces) }
{
    // The contract of `tet` shows that the arena has a mesh, since it has this slot.
    let _ = arena.tet(last);
    let mut faces = ghost_faces(alloc, arena, points)?;
    faces.keep_distinct();
    Ok(faces)
}

/// The faces under the ghosts, in the order of the slots.
fn ghost_faces(alloc: Global, arena: &Arena, points: &Points) -> Result<Faces, NoMemory>
    requires { IsDelaunayMesh arena.now.slots points.now (all_numbers points.now) }
    ensures { IfOk result
        (λ faces. AreFacesBelow arena.now.slots points.now faces (length arena.now.slots)) }
{
    let mut faces = Faces::new(alloc);
    for i in 0..arena.slots() {
        if let Some(face) = face_at(arena, points, i) {
            faces.push(face)?;
        }
    }
    Ok(faces)
}

/// The face under the ghost at a place; None where the slot is free or a tetrahedron.
fn face_at(arena: &Arena, _points: &Points, i: usize) -> Option<Face>
    requires mesh { IsDelaunayMesh arena.now.slots _points.now (all_numbers _points.now) }
    requires inside { i < length arena.now.slots }
    ensures { MatchOption result ((f : HullFace) → ¬ IsOverFace arena.now.slots _points.now i f)
        (IsOverFace arena.now.slots _points.now i) }
{
    let s = arena.slot(i)?;
    face_under(arena.tet(s))
}

/// The face under a ghost, by its corners; None for the corners of a tetrahedron.
fn face_under(t: SlotCorners) -> Option<Face>
    ensures finite { (r : Row) → corner_list t ≡ row_corners r → result ≡ None }
    ensures infinite { (r : Row) (k : ℕ) → k < 4
        → corner_list t ≡ slice_set (row_corners r) k Corner.Ghost
        → result ≡ Some (ascending (face_off r k)) }
{
    let SlotCorners { a, b, c, d } = t;
    match shape_of(t) {
        Shape::Row(_) => None,
        Shape::Ghost(0) => Some(face_between(b, d, c)),
        Shape::Ghost(1) => Some(face_between(a, c, d)),
        Shape::Ghost(2) => Some(face_between(a, d, b)),
        Shape::Ghost(_) => Some(face_between(a, b, c)),
    }
}

/// The face of three corners that are points.
fn face_between(a: Corner, b: Corner, c: Corner) -> Face
    ensures { (i j k : ℕ) → a ≡ Corner.Point i → b ≡ Corner.Point j → c ≡ Corner.Point k
        → result ≡ face_of i j k }
{
    face_of(number_of(a), number_of(b), number_of(c))
}

/// The number of a corner that is a point.
fn number_of(corner: Corner) -> u32
    ensures { (i : ℕ) → corner ≡ Corner.Point i → result ≡ i }
{
    match corner {
        Corner::Point(number) => number,
        Corner::Ghost => 0,
    }
}

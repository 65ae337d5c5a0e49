//! The test whether two points are the ends of an edge of a Delaunay mesh.
//!
//! A walk leads to the one and round it to the other; where it fails, all slots are scanned.
ghost use Rattle.std.specs.Prelude.{◌≡◌, ◌≢◌, ℕ, ◌<◌, ◌≤ℤ◌, ◌↔◌, pos, length, IsTrue, IfSome};
ghost use Rattle.std.specs.Prelude.{MatchOption, slice_index_or};
ghost use Rattle.sign_predicates.specs.Orientation.{side, opposite_face};
ghost use Rattle.geo_laws.specs.Delaunay.{numbers, all_numbers};
ghost use Rattle.mesh_arena.specs.Mesh.{corner_list, IsLive};
ghost use Rattle.point_locate.specs.Place.{row_corners, AreOn, IsAt};
ghost use Rattle.mesh_laws.specs.Living.{IsDelaunayMesh};
ghost use Rattle.cavity_insert.specs.Living.{IsDelaunaySide, HasBoth};
ghost use Rattle.cavity_insert.specs.Sides.{TellsCone};

use crate::insert::point_at;
use crate::meshing::has_corner;
use geo_laws::{Points, Tet};
use mesh_arena::{Arena, Slot, SlotCorners};
use point_locate::{Shape, row_points, shape_of};
use sign_predicates::{Corners, GridPoint, Sign, beyond};

/// Whether the corners are those of a tetrahedron, and both points are among them.
fn has_corners(t: SlotCorners, a: u32, b: u32) -> bool
    ensures { IsTrue result ↔ HasBoth (corner_list t) a b }
{
    match shape_of(t) {
        Shape::Row(row) => has_corner(row, a) && has_corner(row, b),
        Shape::Ghost(_) => false,
    }
}

/// Whether the slot at a place is a tetrahedron with both points as corners.
fn slot_has_corners(arena: &Arena, i: usize, a: u32, b: u32) -> bool
    requires { i < length arena.now.slots }
    ensures { IsTrue result ↔ IsAt arena.now.slots (λ cs. HasBoth cs a b) i }
{
    match arena.slot(i) {
        Some(s) => has_corners(arena.tet(s), a, b),
        None => false,
    }
}

/// Whether the two points are the ends of an edge, by a scan of all slots.
pub(crate) fn side_by_scan(arena: &Arena, points: &Points, a: u32, b: u32) -> bool
    requires mesh { IsDelaunayMesh arena.now.slots points.now (all_numbers points.now) }
    requires differ { a ≢ b }
    ensures { IsTrue result ↔ IsDelaunaySide points.now a b }
{
    for i in 0..arena.slots() {
        if slot_has_corners(arena, i, a, b) {
            return true;
        }
    }
    false
}

// One step of the walk to the point `a` and round it to the point `b`, by the corners of a slot.
#[derive(Clone, Copy)]
pub(crate) enum WalkStep {
    // The slot is a tetrahedron with the corner `a`, and `b` lies in its closed cone from `a`:
    // whether `b` is a corner too.
    Answer(bool),
    // The walk goes on through this face.
    Through(u8),
    // The walk goes on through no face.
    Lost,
}

// A face of a tetrahedron that `p` is strictly beyond, other than the one opposite the corner `a`.
fn face_towards(at: &Corners, row: Tet, a: u32, p: GridPoint) -> Option<u8>
    ensures { MatchOption result ((k : ℕ) → k < 4 → slice_index_or (numbers row) k a ≢ a
        → pos 0 ≤ℤ side (opposite_face at.now k) p) (λ k. k < 4) }
{
    let numbers = [row.a, row.b, row.c, row.d];
    for k in 0..4u8 {
        if numbers[k as usize] != a && matches!(beyond(*at, k, p), Sign::Above) {
            return Some(k);
        }
    }
    None
}

// The step at a tetrahedron: towards `a` from one without that corner, round `a` from one with it.
fn row_step(points: &Points, row: Tet, a: u32, b: u32) -> WalkStep
    requires corners { AreOn points.now (row_corners row) }
    requires inside { (a < length points.now) × (b < length points.now) }
    ensures { TellsCone points.now (row_corners row) a b result }
{
    let is_there = has_corner(row, a);
    let goal = if is_there { b } else { a };
    let p = point_at(points, goal);
    if let Some(face) = face_towards(&row_points(points, row), row, a, p) {
        return WalkStep::Through(face);
    }
    if is_there {
        WalkStep::Answer(has_corner(row, b))
    } else {
        WalkStep::Lost
    }
}

// The step at a slot: from a ghost through its hull face.
fn step_at(points: &Points, t: SlotCorners, a: u32, b: u32) -> WalkStep
    requires corners { AreOn points.now (corner_list t) }
    requires inside { (a < length points.now) × (b < length points.now) }
    ensures { TellsCone points.now (corner_list t) a b result }
{
    match shape_of(t) {
        Shape::Row(row) => row_step(points, row, a, b),
        Shape::Ghost(face) => WalkStep::Through(face),
    }
}

/// Whether the two points are the ends of an edge, by a walk from a live slot: from a tetrahedron
/// without the corner `a` through a face that this point is strictly beyond, and from one with it
/// through a face at `a` that `b` is strictly beyond. The tetrahedron where the walk ends has `b`
/// in its closed cone from `a`, and in this cone only its own edges from `a` are edges of the mesh.
/// None where the walk leads nowhere or takes more steps than there are slots; each other answer is
/// right.
///
/// Source: the visibility walk (Devillers, Pion and Teillaud, 2002), and its rule applied to the
/// tetrahedra round a point.
pub(crate) fn side_by_walk(
    arena: &Arena,
    points: &Points,
    start: Slot,
    a: u32,
    b: u32,
) -> Option<bool>
    requires mesh { IsDelaunayMesh arena.now.slots points.now (all_numbers points.now) }
    requires start { IsLive arena.now.slots start.index }
    requires inside { (a < length points.now) × (b < length points.now) }
    requires differ { a ≢ b }
    ensures { IfSome result (λ is. IsTrue is ↔ IsDelaunaySide points.now a b) }
{
    let mut at = start;
    for _ in 0..arena.slots() {
        match step_at(points, arena.tet(at), a, b) {
            WalkStep::Answer(answer) => return Some(answer),
            WalkStep::Through(face) => match arena.neighbor(at, face) {
                Some(next) => at = next,
                None => break,
            },
            WalkStep::Lost => break,
        }
    }
    None
}

//! The test whether a slot of an arena is in the conflict zone of a new point.
//!
//! The zone is the tetrahedra that do not have the point outside of their circumsphere, and the
//! ghosts of the hull faces that it sees.
ghost use Rattle.std.specs.Prelude.{◌≡◌, ◌+◌, ◌<◌, ◌↔◌, IsTrue};
ghost use Rattle.mesh_arena.specs.Mesh.{IsLive, corner_list};
ghost use Rattle.point_locate.specs.Place.{AreCornersOn, AreOn, row_corners, placed};
ghost use Rattle.cavity_insert.specs.PointZone.{zone_for, IsInZone};
ghost use Rattle.mesh_laws.specs.Rule.{IsTakenRow, IsSeen, IsInnerTaken, IsTaken};

use crate::steps::Steps;
use crate::zone::Zone;
use geo_laws::{Points, Tet, numbers_of};
use mesh_arena::{Arena, Slot, SlotCorners};
use point_locate::{Shape, placed, row_points, shape_of};
use sign_predicates::{GridPoint, Sign, orient, outside};
use std::marker::Model;
use std::sync::ledger::Ledger;

// Whether a tetrahedron is in conflict with the point: it does not have the point outside of its
// circumsphere.
#[inline(always)]
fn row_conflicts(points: &Points, row: Tet, p: GridPoint, number: u32) -> bool
    requires { AreOn points.now (row_corners row) }
    ensures { IsTrue result ↔ IsTakenRow points.now p number (row_corners row) }
{
    !outside(row_points(points, row), numbers_of(row), p, number)
}

// Whether the corners are those of a tetrahedron in conflict with the point.
fn corners_conflict(points: &Points, t: SlotCorners, p: GridPoint, number: u32) -> bool
    requires { AreOn points.now (corner_list t) }
    ensures { IsTrue result ↔ IsTakenRow points.now p number (corner_list t) }
{
    match shape_of(t) {
        Shape::Row(row) => row_conflicts(points, row, p, number),
        Shape::Ghost(_) => false,
    }
}

// Whether a tetrahedron in conflict with the point is across a face.
fn inner_conflicts(
    arena: &Arena,
    points: &Points,
    s: Slot,
    face: u8,
    p: GridPoint,
    number: u32,
) -> bool
    requires live { IsLive arena.now.slots s.index }
    requires face { face < 4 }
    requires corners { AreCornersOn arena.now.slots points.now }
    ensures { IsTrue result ↔ IsInnerTaken arena.now.slots points.now p number s.index face }
{
    match arena.across(s, face) {
        Some(inner) => corners_conflict(points, arena.tet(inner.slot), p, number),
        None => false,
    }
}

// Whether the point sees the hull face of a ghost that has the point at infinity in `place`.
fn is_seen(arena: &Arena, points: &Points, s: Slot, place: u8, p: GridPoint, number: u32) -> bool
    requires live { IsLive arena.now.slots s.index }
    requires place { place < 4 }
    requires corners { AreCornersOn arena.now.slots points.now }
    ensures { IsTrue result ↔ IsSeen arena.now.slots points.now p number s.index place }
{
    let at = placed(points, p, arena.tet(s));
    match orient(at.a, at.b, at.c, at.d) {
        Sign::Above => true,
        Sign::Zero => inner_conflicts(arena, points, s, place, p, number),
        Sign::Below => false,
    }
}

// Whether a live slot is in the conflict zone.
#[inline(always)]
fn slot_conflicts(arena: &Arena, points: &Points, s: Slot, p: GridPoint, number: u32) -> bool
    requires live { IsLive arena.now.slots s.index }
    requires corners { AreCornersOn arena.now.slots points.now }
    ensures { IsTrue result ↔ IsTaken arena.now.slots points.now p number s.index }
{
    let t = arena.tet(s);
    match shape_of(t) {
        Shape::Row(row) => row_conflicts(points, row, p, number),
        Shape::Ghost(place) => is_seen(arena, points, s, place, p, number),
    }
}

/// Whether a live slot is in the conflict zone of the new point: a tetrahedron that does not have
/// the point outside of its circumsphere, ties decided by the points' numbers; or a ghost whose
/// hull face the point is strictly beyond, or on whose hull face's plane it lies where the
/// tetrahedron on the inner side is in conflict with it. One step is counted. No memory is taken.
/// The corners are places in `points`, from 0, and coordinates are in grid units.
///
/// Source: incremental insertion (Bowyer 1981, Watson 1981), with ghosts over the hull.
#[inline(always)]
pub fn test_slot<L: Ledger>(
    arena: &Arena,
    points: &Points,
    s: Slot,
    p: GridPoint,
    number: u32,
    steps: &mut Steps<L>,
) -> bool
    requires live { IsLive arena.now.slots s.index }
    requires corners { AreCornersOn arena.now.slots points.now }
    ensures value { IsTrue result ↔ IsTaken arena.now.slots points.now p number s.index }
    ensures step { steps.new ≡ steps.old + 1 }
{
    steps.tick();
    slot_conflicts(arena, points, s, p, number)
}

/// A mesh whose corners are places in a list of points, and a new point with its number, which need
/// be none of these. Contracts see the slots of the mesh, the list, the point and the number.
#[derive(Drop)]
pub(crate) struct PointZone<'a> {
    arena: &'a Arena,
    points: &'a Points,
    p: GridPoint,
    number: u32,
}

impl<'a> Model for PointZone<'a> {
    ghost use Rattle.cavity_insert.specs.PointZone.{PointZoneValue, zone_for as zone_of};
    ghost use Rattle.point_locate.specs.Place.{AreCornersOn as AreOnPoints};

    ghost Value = { PointZoneValue };

    ghost view = { λ z. zone_of z.arena.now.slots z.points.now z.p z.number };

    ghost invariant = { λ z. AreOnPoints z.arena.now.slots z.points.now };
}

impl<'a> PointZone<'a> {
    pub(crate) fn new(arena: &'a Arena, points: &'a Points, p: GridPoint, number: u32) -> Self
        requires { AreCornersOn arena.now.slots points.now }
        ensures { result ≡ zone_for arena.now.slots points.now p number }
    {
        PointZone {
            arena,
            points,
            p,
            number,
        }
    }
}

impl<'a> Zone for PointZone<'a> {
    ghost slots = { λ z. z.slots };

    ghost takes = { IsInZone };

    fn arena(&self) -> &Arena {
        self.arena
    }

    fn test(&self, s: Slot) -> bool {
        slot_conflicts(self.arena, self.points, s, self.p, self.number)
    }
}

//! The test whether a slot of a mesh of lifted points is in the conflict zone of a further point.
//!
//! The zone is the tetrahedra that do not have the point outside, and the ghosts of the hull faces
//! that it sees.
ghost use Rattle.std.specs.Prelude.{◌≡◌, ◌<◌, ◌↔◌, ℕ, List, IsTrue, length};
ghost use Rattle.mesh_arena.specs.Mesh.{IsLive, corner_list};
ghost use Rattle.point_locate.specs.Place.{row_corners, placed, IsAt, AreOn};
ghost use Rattle.sign_predicates.specs.Orientation.{volume};
ghost use Rattle.sign_predicates.specs.Sign.{IsSignOf};
ghost use Rattle.geo_laws.specs.Delaunay.{point};
ghost use Rattle.mesh_laws.specs.LowestRule.{IsLowestTakenRow, IsLowestSeen, IsLowestInnerTaken, IsLowestTaken};
ghost use Rattle.cavity_insert.specs.Insert.{IsReadyFor};
ghost use Rattle.cavity_insert.specs.Lift.{IsRowFor};
ghost use Rattle.cavity_insert.specs.Search.{search_for};

use crate::insert::point_at;
use crate::lift::Lift;
use crate::zone::Zone;
use geo_laws::Tet;
use mesh_arena::{Arena, Slot, SlotCorners};
use point_locate::{Shape, placed, shape_of};
use sign_predicates::{Sign, orient};
use std::marker::Model;

/// Whether a tetrahedron does not have the point outside.
#[inline(always)]
fn row_conflicts<H: Lift>(lift: &H, row: Tet, number: u32) -> bool
    requires { IsRowFor (H.points lift.now) row number }
    ensures { IsTrue result ↔ IsLowestTakenRow (H.heights lift.now) (H.points lift.now) number
        (row_corners row) }
{
    !lift.is_outside(row, number)
}

/// Whether the slot is a tetrahedron that does not have the point outside.
fn slot_holds<H: Lift>(arena: &Arena, lift: &H, s: Slot, number: u32) -> bool
    requires live { IsLive arena.now.slots s.index }
    requires ready { (ms : List ℕ) × IsReadyFor (H.heights lift.now) arena.now.slots
        (H.points lift.now) ms number }
    ensures { IsTrue result ↔ IsAt arena.now.slots
        (IsLowestTakenRow (H.heights lift.now) (H.points lift.now) number) s.index }
{
    match shape_of(arena.tet(s)) {
        Shape::Row(row) => row_conflicts(lift, row, number),
        Shape::Ghost(_) => false,
    }
}

/// Whether a tetrahedron that does not have the point outside is across a face.
fn inner_conflicts<H: Lift>(arena: &Arena, lift: &H, s: Slot, face: u8, number: u32) -> bool
    requires live { IsLive arena.now.slots s.index }
    requires face { face < 4 }
    requires ready { (ms : List ℕ) × IsReadyFor (H.heights lift.now) arena.now.slots
        (H.points lift.now) ms number }
    ensures { IsTrue result ↔ IsLowestInnerTaken (H.heights lift.now) arena.now.slots
        (H.points lift.now) number s.index face }
{
    match arena.across(s, face) {
        Some(inner) => slot_holds(arena, lift, inner.slot, number),
        None => false,
    }
}

/// The orient3d sign of a ghost's corners with the point in place of the one at infinity.
fn ghost_sign<H: Lift>(lift: &H, t: SlotCorners, number: u32) -> Sign
    requires on { AreOn (H.points lift.now) (corner_list t) }
    requires inside { number < length (H.points lift.now) }
    ensures { IsSignOf result
        (volume (placed (H.points lift.now) (point (H.points lift.now) number) t)) }
{
    let points = lift.points();
    let at = placed(points, point_at(points, number), t);
    orient(at.a, at.b, at.c, at.d)
}

/// Whether the point sees the hull face of a ghost that has the point at infinity in `place`.
fn is_seen<H: Lift>(arena: &Arena, lift: &H, s: Slot, place: u8, number: u32) -> bool
    requires live { IsLive arena.now.slots s.index }
    requires place { place < 4 }
    requires ready { (ms : List ℕ) × IsReadyFor (H.heights lift.now) arena.now.slots
        (H.points lift.now) ms number }
    ensures { IsTrue result ↔ IsLowestSeen (H.heights lift.now) arena.now.slots (H.points lift.now)
        number s.index place }
{
    match ghost_sign(lift, arena.tet(s), number) {
        Sign::Above => true,
        Sign::Zero => inner_conflicts(arena, lift, s, place, number),
        Sign::Below => false,
    }
}

/// Whether a live slot that is a ghost is in the conflict zone. The function stays out of the fast
/// loop of insphere tests.
#[inline(never)]
fn ghost_conflicts<H: Lift>(arena: &Arena, lift: &H, s: Slot, number: u32) -> bool
    requires live { IsLive arena.now.slots s.index }
    requires ready { (ms : List ℕ) × IsReadyFor (H.heights lift.now) arena.now.slots
        (H.points lift.now) ms number }
    ensures { IsTrue result ↔ IsLowestTaken (H.heights lift.now) arena.now.slots (H.points lift.now)
        number s.index }
{
    match shape_of(arena.tet(s)) {
        Shape::Row(row) => row_conflicts(lift, row, number),
        Shape::Ghost(place) => is_seen(arena, lift, s, place, number),
    }
}

/// Whether a live slot is in the conflict zone of the point with this number: a tetrahedron that
/// does not have the point outside, ties decided by the points' numbers; or a ghost whose hull face
/// the point is strictly beyond, or on whose hull face's plane it lies where the tetrahedron on the
/// inner side is in conflict with it.
#[inline(always)]
fn is_taken<H: Lift>(arena: &Arena, lift: &H, s: Slot, number: u32) -> bool
    requires live { IsLive arena.now.slots s.index }
    requires ready { (ms : List ℕ) × IsReadyFor (H.heights lift.now) arena.now.slots
        (H.points lift.now) ms number }
    ensures { IsTrue result ↔ IsLowestTaken (H.heights lift.now) arena.now.slots (H.points lift.now)
        number s.index }
{
    match arena.tetrahedron(s) {
        Some(numbers) => {
            let [a, b, c, d] = numbers;
            row_conflicts(lift, Tet { a, b, c, d }, number)
        }
        None => ghost_conflicts(arena, lift, s, number),
    }
}

/// A mesh of some lifted points of a list, and the number of a further point. Contracts see the
/// slots of the mesh, the points with their heights, and the number.
#[derive(Drop)]
pub(crate) struct Search<'a, H: Lift> {
    arena: &'a Arena,
    lift: &'a H,
    number: u32,
}

impl<'a, H: Lift> Model for Search<'a, H> {
    ghost use Rattle.std.specs.Prelude.{List, ℕ};
    ghost use Rattle.cavity_insert.specs.Search.{SearchValue, search_for as search_of};
    ghost use Rattle.cavity_insert.specs.Insert.{IsReadyFor as IsReadyOn};

    ghost Value = { SearchValue H };

    ghost view = { λ s. search_of s.arena.now.slots s.lift.now s.number };

    ghost invariant = { λ s. (ms : List ℕ)
        × IsReadyOn (H.heights s.lift.now) s.arena.now.slots (H.points s.lift.now) ms s.number };
}

impl<'a, H: Lift> Search<'a, H> {
    pub(crate) fn new(arena: &'a Arena, lift: &'a H, number: u32) -> Self
        requires { (ms : List ℕ) × IsReadyFor (H.heights lift.now) arena.now.slots
            (H.points lift.now) ms number }
        ensures { result ≡ search_for arena.now.slots lift.now number }
    {
        Search {
            arena,
            lift,
            number,
        }
    }
}

impl<'a, H: Lift> Zone for Search<'a, H> {
    ghost slots = { λ s. s.slots };

    ghost takes = { λ s. IsLowestTaken (H.heights s.lift) s.slots (H.points s.lift) s.p };

    fn arena(&self) -> &Arena {
        self.arena
    }

    #[inline(always)]
    fn test(&self, s: Slot) -> bool {
        is_taken(self.arena, self.lift, s, self.number)
    }
}

//! Corners and slots, and the lists of them that surgery takes.
ghost use Rattle.std.specs.Prelude.{◌<◌, ◌↔◌, IsTrue};
ghost use Rattle.mesh_arena.specs.StarLinks.{CornerValue, Has, AreFourPlaces};

use tet_ports::Items;

/// A corner of a slot: a point by its number, or the point at infinity, which makes the slot a hull
/// ghost.
#[derive(Clone, Copy, Debug, PartialEq, Eq)]
pub enum Corner {
    Point(u32),
    Ghost,
}

/// The corners of a slot, in their places.
#[derive(Clone, Copy, Debug, PartialEq, Eq)]
pub struct SlotCorners {
    pub a: Corner,
    pub b: Corner,
    pub c: Corner,
    pub d: Corner,
}

/// The name of a slot: its place in the arena, from 0.
#[derive(Clone, Copy, Debug, PartialEq, Eq)]
pub struct Slot {
    pub index: u32,
}

/// A face of a slot: the one opposite its corner in the place `face`, from 0.
#[derive(Clone, Copy, Debug, PartialEq, Eq)]
pub struct RimFace {
    pub slot: Slot,
    pub face: u8,
}

/// The slots that a new point removes.
pub type Cavity = Items<Slot>;

/// The faces round a cavity, each named by the live slot outside.
pub type Rim = Items<RimFace>;

// Whether x is one of the corners off this place.
#[inline(always)]
pub(crate) fn has_corner(corners: &[Corner; 4], off: u8, x: Corner) -> bool
    ensures { IsTrue result ↔ Has corners.now off x }
{
    for m in 0..4u8 {
        if m != off && corners[m as usize] == x {
            return true;
        }
    }
    false
}

// Whether the corners off the one place are corners off the other.
#[inline(always)]
pub(crate) fn covers(a: &[Corner; 4], i: u8, b: &[Corner; 4], j: u8) -> bool
    ensures { IsTrue result ↔ ((x : CornerValue) → Has a.now i x → Has b.now j x) }
{
    for m in 0..4u8 {
        if m != i && !has_corner(b, j, a[m as usize]) {
            return false;
        }
    }
    true
}

// The three other places. Seen from within a slot the corners in them turn the same way, whichever
// the one place is.
pub(crate) fn other_places(place: u8) -> (u8, u8, u8)
    requires { place < 4 }
    ensures { AreFourPlaces place result.0 result.1 result.2 }
{
    (place ^ 1, place ^ 2, place ^ 3)
}

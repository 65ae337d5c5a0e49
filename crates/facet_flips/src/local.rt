//! The crossed tetrahedra while facets are inserted: slots with the neighbors of each, and lists of
//! the tetrahedra at each corner. Corners have numbers of their own, in the order of the points.
ghost use Rattle.std.specs.Prelude.{◌<◌, IfSome, IfOk};

use crate::circuit::{Plane, Spot, side_of};
use crate::heap::Waiting;
use crate::stop::{Stop, or_stop};

/// The corners of a tetrahedron above and below the plane of a facet: a bit for each place.
#[derive(Clone, Copy)]
pub(crate) struct Sides {
    above: u8,
    below: u8,
}

/// Sides that are not known, and not asked for.
pub(crate) const NO_SIDES: Sides = Sides { above: 0, below: 0 };

impl Sides {
    /// Whether corners lie above, and others below, beside those whose bits are left out.
    pub(crate) fn are_parted(self, left_out: u8) -> bool {
        self.above & !left_out != 0 && self.below & !left_out != 0
    }
}

/// The bit of the corner at a place of a row.
pub(crate) fn bit_at(place: usize) -> u8 {
    match place {
        0 => 1,
        1 => 2,
        2 => 4,
        _ => 8,
    }
}

/// A tetrahedron: its corners, the neighbor across the face opposite each, the next slot in the
/// list of each corner, the last facet in whose cavity it was found, the sides of its corners then,
/// and whether it is still there.
#[derive(Clone, Copy)]
pub(crate) struct Slot {
    pub(crate) corners: [u32; 4],
    pub(crate) across: [Option<u32>; 4],
    pub(crate) next: [Option<u32>; 4],
    stamp: u32,
    sides: Sides,
    pub(crate) is_live: bool,
}

impl Slot {
    /// The neighbor across the face opposite a corner.
    pub(crate) fn across_from(&self, corner: u32) -> Option<u32> {
        let i = place_of(&self.corners, corner)?;
        self.across[i]
    }

    /// The corner opposite the face with the other tetrahedron across.
    pub(crate) fn corner_towards(&self, other: u32) -> Option<u32> {
        for i in 0..4 {
            if self.across[i] == Some(other) {
                return Some(self.corners[i]);
            }
        }
        None
    }
}

/// A corner: its place, the first slot in its list, and its side of the plane of the last facet for
/// which that was asked.
#[derive(Clone, Copy)]
pub(crate) struct Corner {
    pub(crate) spot: Spot,
    pub(crate) head: Option<u32>,
    side: i128,
    stamp: u32,
}

/// The corner at a place, with no rows yet.
pub(crate) fn corner_at(spot: Spot) -> Corner {
    Corner {
        spot,
        head: None,
        side: 0,
        stamp: 0,
    }
}

/// The tetrahedra, their corners, the plane of the facet that is inserted and its number, from 1,
/// the queued flips, how many flips are left, and whether the vectors between corners are short,
/// and whether they are near.
#[derive(Drop)]
pub(crate) struct Local {
    pub(crate) slots: Vec<Slot>,
    pub(crate) corners: Vec<Corner>,
    pub(crate) plane: Plane,
    pub(crate) stamp: u32,
    pub(crate) waiting: Waiting,
    pub(crate) flips_left: usize,
    pub(crate) is_short: bool,
    pub(crate) is_near: bool,
}

/// The place of a corner in a tetrahedron, from 0.
pub(crate) fn place_of(corners: &[u32; 4], corner: u32) -> Option<usize>
    ensures { IfSome result (λ i. i < 4) }
{
    for i in 0..4 {
        if corners[i] == corner {
            return Some(i);
        }
    }
    None
}

/// As `place_of`; the flips end where the corner is missing.
pub(crate) fn place_or_stop(corners: &[u32; 4], corner: u32) -> Result<usize, Stop>
    ensures { IfOk result (λ i. i < 4) }
{
    match place_of(corners, corner) {
        Some(i) => Ok(i),
        None => Err(Stop::GivesUp),
    }
}

/// The corners of the face opposite a corner of a tetrahedron, so that the corner is on its
/// positive side.
pub(crate) fn face_opposite(corners: &[u32; 4], i: usize) -> [u32; 3] {
    let [a, b, c, d] = *corners;
    match i {
        0 => [b, d, c],
        1 => [a, c, d],
        2 => [a, d, b],
        _ => [a, b, c],
    }
}

impl Local {
    /// The slot with this number.
    pub(crate) fn slot(&self, t: u32) -> Option<Slot> {
        self.slots.get(t as usize).copied()
    }

    /// The place of a corner.
    pub(crate) fn spot(&self, corner: u32) -> Option<Spot> {
        Some(self.corners.get(corner as usize)?.spot)
    }

    /// The first slot in the list of a corner.
    pub(crate) fn head(&self, corner: u32) -> Option<u32> {
        self.corners.get(corner as usize)?.head
    }

    /// The side of the facet's plane on which a corner lies.
    pub(crate) fn side(&self, corner: u32) -> Option<i128> {
        let found = self.corners.get(corner as usize)?;
        if found.stamp == self.stamp {
            Some(found.side)
        } else {
            Some(side_of(self.is_short, &self.plane, found.spot))
        }
    }

    /// Notes the side of a corner.
    pub(crate) fn note_side(&mut self, corner: u32) {
        let place = corner as usize;
        if place < self.corners.len() && self.corners[place].stamp != self.stamp {
            let side = side_of(self.is_short, &self.plane, self.corners[place].spot);
            self.corners[place].side = side;
            self.corners[place].stamp = self.stamp;
        }
    }

    /// The neighbor of a tetrahedron across the face opposite a corner.
    pub(crate) fn across(&self, t: u32, corner: u32) -> Option<u32> {
        self.slots.get(t as usize)?.across_from(corner)
    }

    /// The sides of the corners of a row.
    fn sides_at(&self, corners: &[u32; 4]) -> Sides {
        let mut sides = NO_SIDES;
        for i in 0..4 {
            let side = self.side(corners[i]).unwrap_or(0);
            if side > 0 {
                sides.above |= bit_at(i);
            } else if side < 0 {
                sides.below |= bit_at(i);
            }
        }
        sides
    }

    /// The sides of the corners of a tetrahedron, which are noted where it was found in the cavity.
    pub(crate) fn sides_of(&self, slot: &Slot) -> Sides {
        if slot.stamp == self.stamp {
            slot.sides
        } else {
            self.sides_at(&slot.corners)
        }
    }

    /// The sides of the corners of a tetrahedron with another corner at a place.
    pub(crate) fn sides_with(&self, slot: &Slot, place: usize, corner: u32) -> Sides {
        let bit = bit_at(place);
        let Sides { above, below } = self.sides_of(slot);
        let side = self.side(corner).unwrap_or(0);
        Sides {
            above: if side > 0 { above | bit } else { above & !bit },
            below: if side < 0 { below | bit } else { below & !bit },
        }
    }

    /// Adds a tetrahedron, and enters it in the lists of its corners.
    pub(crate) fn add(
        &mut self,
        corners: [u32; 4],
        across: [Option<u32>; 4],
        sides: Sides,
    ) -> Result<u32, Stop> {
        let t = or_stop(u32::try_from(self.slots.len()).ok())?;
        let mut next = [None; 4];
        for i in 0..4 {
            let place = corners[i] as usize;
            if place < self.corners.len() {
                next[i] = self.corners[place].head;
                self.corners[place].head = Some(t);
            }
        }
        self.slots.push(Slot {
            corners,
            across,
            next,
            stamp: self.stamp,
            sides,
            is_live: true,
        })?;
        Ok(t)
    }

    /// Sets the neighbor of a tetrahedron across the face opposite a corner.
    pub(crate) fn put_across(&mut self, t: u32, corner: u32, other: Option<u32>) {
        let place = t as usize;
        if place < self.slots.len() {
            let slot = &mut self.slots[place];
            if let Some(i) = place_of(&slot.corners, corner) {
                slot.across[i] = other;
            }
        }
    }

    /// Replaces an old neighbor of a tetrahedron, if there is this tetrahedron, by a new one.
    pub(crate) fn replace_across(&mut self, t: Option<u32>, old: u32, new: u32) {
        let Some(t) = t else { return };
        let place = t as usize;
        if place < self.slots.len() {
            let slot = &mut self.slots[place];
            for i in 0..4 {
                if slot.across[i] == Some(old) {
                    slot.across[i] = Some(new);
                }
            }
        }
    }

    /// Whether the tetrahedron is still there.
    pub(crate) fn is_live(&self, t: u32) -> bool {
        match self.slots.get(t as usize) {
            Some(slot) => slot.is_live,
            None => false,
        }
    }

    /// Removes a tetrahedron.
    pub(crate) fn remove(&mut self, t: u32) {
        let place = t as usize;
        if place < self.slots.len() {
            self.slots[place].is_live = false;
        }
    }

    /// Notes that the tetrahedron is in the cavity of the facet, with the sides of its corners, and
    /// answers whether this is new.
    pub(crate) fn enter(&mut self, t: u32) -> bool {
        let place = t as usize;
        if place >= self.slots.len() || self.slots[place].stamp == self.stamp {
            return false;
        }
        let corners = self.slots[place].corners;
        for corner in corners {
            self.note_side(corner);
        }
        let sides = self.sides_at(&corners);
        if place < self.slots.len() {
            self.slots[place].stamp = self.stamp;
            self.slots[place].sides = sides;
        }
        true
    }
}

//! Faces that are to be flipped, and the flips.
use crate::circuit::{Kind, Spot, circuit_of, kind_of, sum_of, weight_of};
use crate::local::{Local, Slot, bit_at, face_opposite, place_or_stop};
use crate::order::{Event, Flip, lead_of};
use crate::stop::{Stop, or_stop};
use crate::wide::rank_of;

/// The two corners of a face beside one of it.
fn beside(face: [u32; 3], apex: u32) -> (u32, u32) {
    let [a, b, c] = face;
    if apex == a {
        (b, c)
    } else if apex == b {
        (a, c)
    } else {
        (a, b)
    }
}

/// A face between two tetrahedra: the tetrahedra by their slots, the numbers of the five corners in
/// the order of the coefficients, and the corner of the face opposite which one further tetrahedron
/// is across both, if there is one.
#[derive(Clone, Copy)]
struct Joint {
    row: u32,
    across: u32,
    numbers: [u32; 5],
    apex: Option<u32>,
}

/// A tetrahedron across the faces of two others opposite a common corner of both, and the place of
/// that corner in the first of them.
#[derive(Clone, Copy)]
struct Third {
    row: u32,
    place: usize,
}

/// The third tetrahedron round the edge of the face between two, which is opposite the corner at a
/// place of the first of them.
fn third_of(slot: &Slot, beyond: &Slot, place: usize) -> Option<Third> {
    for i in 0..4 {
        if i == place {
            continue;
        }
        if let Some(row) = slot.across[i] {
            if beyond.across_from(slot.corners[i]) == Some(row) {
                return Some(Third { row, place: i });
            }
        }
    }
    None
}

/// Whether a number is between two others.
fn is_between(number: u32, one: u32, other: u32) -> bool {
    (one < number) == (number < other)
}

impl Local {
    /// The corner of a tetrahedron opposite the face with the other tetrahedron across.
    fn corner_towards(&self, t: u32, other: u32) -> Option<u32> {
        self.slots.get(t as usize)?.corner_towards(other)
    }

    /// The places of five corners.
    fn spots_at(&self, numbers: &[u32; 5]) -> Option<[Spot; 5]> {
        let [a, b, c, d, e] = *numbers;
        let (a, b, c) = (self.spot(a)?, self.spot(b)?, self.spot(c)?);
        Some([a, b, c, self.spot(d)?, self.spot(e)?])
    }

    /// The sides of five corners.
    fn heights_of(&self, numbers: &[u32; 5]) -> Option<[i128; 5]> {
        let [a, b, c, d, e] = *numbers;
        let (a, b, c) = (self.side(a)?, self.side(b)?, self.side(c)?);
        Some([a, b, c, self.side(d)?, self.side(e)?])
    }

    /// Whether the further tetrahedra of a flip are there, beside the two on both sides of a face.
    /// Where they are missing, the flip that makes them tests this face again.
    fn is_ready(&self, row: u32, across: u32, numbers: &[u32; 5], kind: Kind) -> bool {
        let [_, _, _, own, opposite] = *numbers;
        match kind {
            Kind::Two => true,
            Kind::Three { apex } => {
                let third = self.across(row, apex);
                third.is_some() && third == self.across(across, apex)
            }
            Kind::Four { apex } => match (self.across(row, apex), self.across(across, apex)) {
                (Some(third), Some(fourth)) => {
                    self.across(third, own) == Some(fourth)
                        && self.across(fourth, opposite) == Some(third)
                }
                _ => false,
            },
            Kind::Never => false,
        }
    }

    /// The face of a tetrahedron opposite a corner; `None` where it is never flipped, or is not the
    /// one that stands for its flip. Three tetrahedra round an edge, which has to pass the facet's
    /// plane, are flipped together, and of their three faces that between the first and the last of
    /// the slots stands for the flip.
    fn joint(&self, row: u32, own: u32) -> Result<Option<Joint>, Stop> {
        let Some(slot) = self.slots.get(row as usize) else {
            return Err(Stop::GivesUp)
        };
        let place = place_or_stop(&slot.corners, own)?;
        let sides = self.sides_of(slot);
        let Some(across) = slot.across[place] else {
            return Ok(None)
        };
        if !sides.are_parted(bit_at(place)) {
            return Ok(None);
        }
        let Some(beyond) = self.slots.get(across as usize) else {
            return Err(Stop::GivesUp)
        };
        let mut apex = None;
        if let Some(third) = third_of(slot, beyond, place) {
            let is_parted = sides.are_parted(bit_at(place) | bit_at(third.place));
            if !is_parted || !is_between(third.row, row, across) {
                return Ok(None);
            }
            let Some(corner) = slot.corners.get(third.place) else {
                return Err(Stop::GivesUp)
            };
            apex = Some(*corner);
        }
        let opposite = or_stop(beyond.corner_towards(row))?;
        let [a, b, c] = face_opposite(&slot.corners, place);
        Ok(Some(Joint {
            row,
            across,
            numbers: [a, b, c, own, opposite],
            apex,
        }))
    }

    /// Whether the further tetrahedra of a flip of the face are there.
    fn is_open(&self, joint: &Joint, kind: Kind) -> bool {
        match kind {
            Kind::Three { apex } => joint.apex == Some(apex),
            _ => self.is_ready(joint.row, joint.across, &joint.numbers, kind),
        }
    }

    /// The flip of a face; `None` where there is none.
    fn event(&self, joint: &Joint) -> Result<Option<Event>, Stop> {
        let numbers = joint.numbers;
        let spots = or_stop(self.spots_at(&numbers))?;
        let Some(circuit) = circuit_of(&spots, self.is_short, joint.apex.is_none()) else {
            return Ok(None);
        };
        let [a, b, c, _, _] = numbers;
        let kind = kind_of(&[a, b, c], &circuit);
        if !self.is_open(joint, kind) {
            return Ok(None);
        }
        let Some(weight) = weight_of(&circuit, &or_stop(self.heights_of(&numbers))?) else {
            return Ok(None)
        };
        let sum = or_stop(sum_of(self.is_near, &circuit, &spots))?;
        Ok(Some(Event {
            flip: Flip {
                row: joint.row,
                across: joint.across,
                kind,
                numbers,
            },
            rank: rank_of(sum, weight),
            circuit,
            lead: lead_of(&numbers, &circuit),
            sum,
            weight,
        }))
    }

    /// Queues the face of a tetrahedron opposite a corner, where it is to be flipped.
    pub(crate) fn look(&mut self, row: u32, own: u32) -> Result<(), Stop> {
        let Some(joint) = self.joint(row, own)? else {
            return Ok(())
        };
        if let Some(event) = self.event(&joint)? {
            self.waiting.push(event)?;
        }
        Ok(())
    }

    /// Whether the face of the flip is still there.
    fn stands(&self, e: &Flip) -> bool {
        let own = e.numbers[3];
        self.is_live(e.row) && self.is_live(e.across) && self.across(e.row, own) == Some(e.across)
    }

    /// Adds a tetrahedron with the corner `new` in place of the corner `gone`. The new corner lies
    /// beyond the face opposite the corner `own`, where `mate` is across, so that the tetrahedron
    /// stays positive.
    fn swing(&mut self, row: u32, mate: u32, own: u32, gone: u32, new: u32) -> Result<u32, Stop> {
        let Some(slot) = self.slots.get(row as usize) else {
            return Err(Stop::GivesUp)
        };
        let i = place_or_stop(&slot.corners, gone)?;
        let j = place_or_stop(&slot.corners, own)?;
        let sides = self.sides_with(slot, i, new);
        let beside = slot.across[i];
        let beyond = self.across(mate, gone);
        let mut corners = slot.corners;
        corners[i] = new;
        let mut across = [None; 4];
        across[i] = beside;
        across[j] = beyond;
        let made = self.add(corners, across, sides)?;
        self.replace_across(beside, row, made);
        self.replace_across(beyond, mate, made);
        Ok(made)
    }

    /// Links two new tetrahedra, each at the face opposite the corner given after it.
    fn join(&mut self, one: u32, corner: u32, other: u32, opposite: u32) {
        self.put_across(one, corner, Some(other));
        self.put_across(other, opposite, Some(one));
    }

    /// Links a new tetrahedron to the neighbor of an old one, at the face of the new one opposite
    /// the corner `apex`, which is that of the old one opposite the corner `gone`.
    fn take_over(&mut self, made: u32, apex: u32, old: u32, gone: u32) {
        let beyond = self.across(old, gone);
        self.put_across(made, apex, beyond);
        self.replace_across(beyond, old, made);
    }

    /// Tests the faces opposite two corners.
    fn look_twice(&mut self, t: u32, one: u32, other: u32) -> Result<(), Stop> {
        self.look(t, one)?;
        self.look(t, other)
    }

    /// 2-3 flip: three tetrahedra, round the segment between the corners off the face, for two.
    fn flip_two(&mut self, e: &Flip) -> Result<(), Stop> {
        let [a, b, c, own, new] = e.numbers;
        let at_a = self.swing(e.row, e.across, own, a, new)?;
        let at_b = self.swing(e.row, e.across, own, b, new)?;
        let at_c = self.swing(e.row, e.across, own, c, new)?;
        self.join(at_a, b, at_b, a);
        self.join(at_a, c, at_c, a);
        self.join(at_b, c, at_c, b);
        self.remove(e.row);
        self.remove(e.across);
        self.look_twice(at_a, own, new)?;
        self.look_twice(at_b, own, new)?;
        self.look_twice(at_c, own, new)
    }

    /// 3-2 flip: two tetrahedra for three round an edge of the face.
    fn flip_three(&mut self, e: &Flip, apex: u32) -> Result<(), Stop> {
        let [a, b, c, own, new] = e.numbers;
        let (p, q) = beside([a, b, c], apex);
        let third = or_stop(self.across(e.row, apex))?;
        let at_p = self.swing(e.row, e.across, own, p, new)?;
        let at_q = self.swing(e.row, e.across, own, q, new)?;
        self.take_over(at_p, apex, third, p);
        self.take_over(at_q, apex, third, q);
        self.join(at_p, q, at_q, p);
        self.remove(e.row);
        self.remove(e.across);
        self.remove(third);
        self.look(at_p, apex)?;
        self.look(at_q, apex)?;
        self.look_twice(at_p, own, new)?;
        self.look_twice(at_q, own, new)
    }

    /// 4-4 flip: four tetrahedra for four round an edge that becomes the other diagonal. Between
    /// the new tetrahedra are faces of other circuits than the flipped one.
    fn flip_four(&mut self, e: &Flip, apex: u32) -> Result<(), Stop> {
        let [a, b, c, own, new] = e.numbers;
        let (p, q) = beside([a, b, c], apex);
        let third = or_stop(self.across(e.row, apex))?;
        let fourth = or_stop(self.across(e.across, apex))?;
        let other = or_stop(self.corner_towards(third, e.row))?;
        let at_p = self.swing(e.row, e.across, own, p, new)?;
        let at_q = self.swing(e.row, e.across, own, q, new)?;
        let far_p = self.swing(third, fourth, own, p, new)?;
        let far_q = self.swing(third, fourth, own, q, new)?;
        self.join(at_p, q, at_q, p);
        self.join(far_p, q, far_q, p);
        self.join(at_p, apex, far_p, other);
        self.join(at_q, apex, far_q, other);
        for old in [e.row, e.across, third, fourth] {
            self.remove(old);
        }
        self.look_twice(at_p, q, apex)?;
        self.look(at_q, apex)?;
        self.look(far_p, q)?;
        self.look_twice(at_p, own, new)?;
        self.look_twice(at_q, own, new)?;
        self.look_twice(far_p, own, new)?;
        self.look_twice(far_q, own, new)
    }

    /// Flips a face, where it is still there.
    fn flip(&mut self, e: &Flip) -> Result<(), Stop> {
        if !self.stands(e) {
            return Ok(());
        }
        if self.flips_left == 0 || !self.is_ready(e.row, e.across, &e.numbers, e.kind) {
            return Err(Stop::GivesUp);
        }
        self.flips_left -= 1;
        match e.kind {
            Kind::Two => self.flip_two(e),
            Kind::Three { apex } => self.flip_three(e, apex),
            Kind::Four { apex } => self.flip_four(e, apex),
            Kind::Never => Ok(()),
        }
    }

    /// Flips the queued faces until none is left.
    pub(crate) fn flip_all(&mut self) -> Result<(), Stop> {
        for _ in 0..usize::MAX {
            let Some(flip) = self.waiting.take() else {
                return Ok(())
            };
            self.flip(&flip)?;
        }
        Err(Stop::GivesUp)
    }
}

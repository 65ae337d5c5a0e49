//! The cavity of a facet, the tetrahedra that it crosses, and the flips that insert the facet.
use crate::circuit::{Spot, plane_of, volume_over};
use crate::local::{Local, Slot, bit_at, face_opposite, place_of, place_or_stop};
use crate::stop::{Stop, or_stop};
use geo_laws::Face;
use std::alloc::Global;

/// The reflection of a triangle's first corner in the midpoint of the opposite edge.
fn ahead_of(a: Spot, b: Spot, c: Spot) -> Spot {
    Spot {
        x: b.x.wrapping_add(c.x).wrapping_sub(a.x),
        y: b.y.wrapping_add(c.y).wrapping_sub(a.y),
        z: b.z.wrapping_add(c.z).wrapping_sub(a.z),
    }
}

impl Local {
    /// Whether the point is on the inner side of the face opposite the tetrahedron's corner at a
    /// place, or on that face's plane.
    fn is_within(&self, slot: &Slot, place: usize, p: Spot) -> Option<bool> {
        let [a, b, c] = face_opposite(&slot.corners, place);
        let (a, b, c) = (self.spot(a)?, self.spot(b)?, self.spot(c)?);
        Some(volume_over(self.is_short, a, b, c, p) >= 0)
    }

    /// Whether the segment from a corner of the tetrahedron to a point goes into the tetrahedron.
    fn leads_into(&self, slot: &Slot, corner: usize, ahead: Spot) -> Result<bool, Stop> {
        for i in 0..4 {
            if i != corner && !or_stop(self.is_within(slot, i, ahead))? {
                return Ok(false);
            }
        }
        Ok(true)
    }

    /// The tetrahedron at the first corner of a triangle into which the triangle goes; `None` where
    /// the triangle is a face, which goes into no tetrahedron that its plane parts.
    fn seed(&self, t: Face) -> Result<Option<u32>, Stop> {
        let (a, b, c) = (self.spot(t.a), self.spot(t.b), self.spot(t.c));
        let ahead = ahead_of(or_stop(a)?, or_stop(b)?, or_stop(c)?);
        let mut next = self.head(t.a);
        for _ in 0..self.slots.len() {
            let Some(row) = next else { break };
            let Some(slot) = self.slots.get(row as usize) else {
                break
            };
            let place = place_or_stop(&slot.corners, t.a)?;
            next = slot.next[place];
            if !slot.is_live {
                continue;
            }
            if has_corner(slot, t.b) && has_corner(slot, t.c) {
                return Ok(None);
            }
            if self.sides_of(slot).are_parted(0) && self.leads_into(slot, place, ahead)? {
                return Ok(Some(row));
            }
        }
        Err(Stop::GivesUp)
    }

    /// Goes from a tetrahedron of the cavity to its neighbors across the faces that the facet
    /// parts.
    fn spread(&mut self, row: u32, queue: &mut Vec<u32>) -> Result<(), Stop> {
        let slot = or_stop(self.slot(row))?;
        let sides = self.sides_of(&slot);
        for i in 0..4 {
            if !sides.are_parted(bit_at(i)) {
                continue;
            }
            let across = or_stop(slot.across[i])?;
            if self.enter(across) {
                queue.push(across)?;
            }
            if row < across {
                self.look(row, slot.corners[i])?;
            }
        }
        Ok(())
    }

    /// Flood fill: finds all tetrahedra of the cavity round a first one.
    fn flood(&mut self, seed: u32, queue: &mut Vec<u32>) -> Result<(), Stop> {
        queue.clear();
        if self.enter(seed) {
            queue.push(seed)?;
        }
        for i in 0..self.slots.len() {
            let Some(row) = queue.get(i).copied() else {
                break
            };
            self.spread(row, queue)?;
        }
        Ok(())
    }

    /// Finds the cavity of a facet, given by its triangles.
    fn open(&mut self, triangles: &[Face], queue: &mut Vec<u32>) -> Result<(), Stop> {
        for t in triangles {
            if let Some(seed) = self.seed(*t)? {
                self.flood(seed, queue)?;
            }
        }
        Ok(())
    }

    /// Inserts a facet, given by its triangles.
    pub(crate) fn put_in(&mut self, alloc: Global, triangles: &[Face]) -> Result<(), Stop> {
        let Some(t) = triangles.first() else {
            return Ok(())
        };
        let (a, b, c) = (self.spot(t.a), self.spot(t.b), self.spot(t.c));
        self.plane = plane_of(or_stop(a)?, or_stop(b)?, or_stop(c)?);
        self.stamp = self.stamp.wrapping_add(1);
        self.waiting.clear();
        let mut queue = Vec::new(alloc);
        self.open(triangles, &mut queue)?;
        self.flip_all()
    }
}

fn has_corner(slot: &Slot, corner: u32) -> bool {
    place_of(&slot.corners, corner).is_some()
}

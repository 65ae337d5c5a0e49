//! The points that were proposed, by the tetrahedra of their conflict regions.
use crate::buckets::is_less;
use crate::region::Region;
use geo_laws::Points;
use mesh_parts::{Spot, distance, grid_point};
use std::alloc::Global;
use tet_ports::NoMemory;

/// The most proposed points at one tetrahedron that are looked at.
const MOST: u32 = 4096;

/// A proposed point with the square of its distance to the nearest point of the mesh.
#[derive(Clone, Copy)]
struct Kept {
    spot: Spot,
    square: u64,
}

/// A proposed point at a tetrahedron, and the one there before it.
#[derive(Clone, Copy)]
struct Chained {
    point: u32,
    next: Option<u32>,
}

/// The proposed points, and for each tetrahedron the chain of those in whose region it is.
#[derive(Drop)]
pub(crate) struct Taken {
    kept: Vec<Kept>,
    chained: Vec<Chained>,
    heads: Vec<Option<u32>>,
}

/// Whether a point at a distance from the mesh with this square is too near to a proposed one:
/// nearer than four fifths of its own distance, or two fifths of that of the other.
fn is_too_near(kept: &Kept, p: Spot, square: u64) -> bool {
    let between = distance(kept.spot, p);
    is_less(between, 4, square) || is_less(between, 2, kept.square)
}

impl Taken {
    /// No proposed point, in a mesh with so many tetrahedra.
    pub(crate) fn new(alloc: Global, cells: usize) -> Result<Self, NoMemory> {
        let mut heads = Vec::new(alloc);
        heads.resize(cells, None)?;
        Ok(Taken {
            kept: Vec::new(alloc),
            chained: Vec::new(alloc),
            heads,
        })
    }

    /// How many points are proposed.
    pub(crate) fn count(&self) -> usize {
        self.kept.len()
    }

    /// The first of the chain of a tetrahedron.
    fn head(&self, t: u32) -> Option<u32> {
        self.heads.get(t as usize).copied().flatten()
    }

    /// Whether a tetrahedron is in the region of a proposed point.
    pub(crate) fn has(&self, t: u32) -> bool {
        self.head(t).is_some()
    }

    /// Whether a point is too near to a proposed one in whose region a tetrahedron is.
    fn is_locked_at(&self, t: u32, p: Spot, square: u64) -> bool {
        let mut at = self.head(t);
        for _ in 0..MOST {
            let Some(place) = at else { return false };
            let Some(chained) = self.chained.get(place as usize) else {
                return false;
            };
            if let Some(kept) = self.kept.get(chained.point as usize) {
                if is_too_near(kept, p, square) {
                    return true;
                }
            }
            at = chained.next;
        }
        false
    }

    /// Whether a point is too near to a proposed one whose region meets its own.
    pub(crate) fn is_locked(&self, region: &Region, p: Spot) -> bool {
        for t in region.cells.as_slice() {
            if self.is_locked_at(*t, p, region.nearest) {
                return true;
            }
        }
        false
    }

    /// Puts a point into the chain of a tetrahedron.
    fn chain(&mut self, t: u32, point: u32) -> Result<(), NoMemory> {
        let place = t as usize;
        let Ok(last) = u32::try_from(self.chained.len()) else {
            return Err(NoMemory);
        };
        if place < self.heads.len() {
            let next = self.heads[place];
            self.heads[place] = Some(last);
            self.chained.push(Chained { point, next })?;
        }
        Ok(())
    }

    /// Proposes a point with this region.
    pub(crate) fn put(&mut self, region: &Region, p: Spot) -> Result<(), NoMemory> {
        let Ok(point) = u32::try_from(self.kept.len()) else {
            return Err(NoMemory);
        };
        self.kept.push(Kept {
            spot: p,
            square: region.nearest,
        })?;
        for t in region.cells.as_slice() {
            self.chain(*t, point)?;
        }
        Ok(())
    }

    /// The proposed points, in the order of the proposals.
    pub(crate) fn points(&self, alloc: Global) -> Result<Points, NoMemory> {
        let mut points = Points::new(alloc);
        for kept in self.kept.as_slice() {
            if let Some(p) = grid_point(kept.spot) {
                points.push(p)?;
            }
        }
        Ok(points)
    }
}

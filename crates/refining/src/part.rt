//! The part of a model in which points are added or replaced.

use complex_mesh::ComplexMesh;
use geo_laws::Points;
use sign_predicates::GridPoint;
use std::alloc::Global;
use tet_ports::NoMemory;

/// The part of a model in which points are added or replaced in a round: all of it, or one of four
/// quarters by two planes through the middle, so that where the mesh of a round is refused, other
/// quarters get their points.
#[derive(Clone, Copy)]
pub(crate) struct Part {
    /// The first two coordinates of the middle.
    middle: (i32, i32),
    quarter: Option<u32>,
}

/// The middle of two coordinates.
fn between(low: i32, high: i32) -> i32 {
    (low / 2).wrapping_add(high / 2)
}

/// The first two coordinates of the middle of the box of some points.
fn middle_of(points: &Points) -> (i32, i32) {
    let (mut left, mut right) = (i32::MAX, i32::MIN);
    let (mut near, mut far) = (i32::MAX, i32::MIN);
    for p in points.as_slice() {
        left = left.min(p.x);
        right = right.max(p.x);
        near = near.min(p.y);
        far = far.max(p.y);
    }
    (between(left, right), between(near, far))
}

impl Part {
    /// All of the model with these points.
    pub(crate) fn whole(points: &Points) -> Part {
        Part {
            middle: middle_of(points),
            quarter: None,
        }
    }

    /// Whether this is all of the model.
    pub(crate) fn is_whole(&self) -> bool {
        self.quarter.is_none()
    }

    /// The next part: the quarters follow the whole model, which follows the last of them.
    pub(crate) fn next(&self) -> Part {
        let quarter = match self.quarter {
            None => Some(0),
            Some(quarter) if quarter < 3 => Some(quarter.wrapping_add(1)),
            Some(_) => None,
        };
        Part {
            middle: self.middle,
            quarter,
        }
    }

    /// The part after a round whose mesh was made: the whole model follows itself.
    pub(crate) fn after_mesh(&self) -> Part {
        match self.quarter {
            None => Part {
                middle: self.middle,
                quarter: None,
            },
            Some(_) => self.next(),
        }
    }

    /// Whether a point is in the part.
    fn has(&self, p: GridPoint) -> bool {
        let (x, y) = self.middle;
        let place = match (p.x > x, p.y > y) {
            (false, false) => 0,
            (true, false) => 1,
            (false, true) => 2,
            (true, true) => 3,
        };
        match self.quarter {
            Some(quarter) => quarter == place,
            None => true,
        }
    }

    /// The points of a mesh from `known` on, which are those of protection, and behind them the
    /// proposed points in the part.
    pub(crate) fn with_protection(
        &self,
        alloc: Global,
        mesh: &ComplexMesh,
        known: usize,
        proposed: &Points,
    ) -> Result<Points, NoMemory> {
        let mut all = Points::new(alloc);
        all.extend_from_slice(mesh.points.as_slice().get(known..).unwrap_or(&[]))?;
        for p in proposed.as_slice() {
            if self.has(*p) {
                all.push(*p)?;
            }
        }
        Ok(all)
    }

    /// The proposed points in the part, and behind them the points of a mesh from `own` on that are
    /// not in it.
    pub(crate) fn exchanged(
        &self,
        alloc: Global,
        mesh: &ComplexMesh,
        own: usize,
        proposed: &Points,
    ) -> Result<Points, NoMemory> {
        let mut all = self.with_protection(alloc, mesh, usize::MAX, proposed)?;
        for p in mesh.points.as_slice().get(own..).unwrap_or(&[]) {
            if !self.has(*p) {
                all.push(*p)?;
            }
        }
        Ok(all)
    }
}

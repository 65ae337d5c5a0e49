//! Points by the cubes of space in which they lie, to find those near to a place.
use geo_laws::Points;
use mesh_parts::{Spot, distance, floored, grid_point, spot_of};
use std::alloc::Global;
use tet_ports::NoMemory;

/// The most points of one chain that are looked at.
const MOST: u32 = 4096;

/// A point with the next one in its chain: one of the mesh, or a proposed one with the square of
/// its distance to the nearest point of the mesh.
#[derive(Clone, Copy)]
struct Kept {
    spot: Spot,
    proposed: Option<u64>,
    next: Option<u32>,
}

/// What is near to a place: the square of the distance to the nearest point of the mesh, that to
/// the nearest proposed point, and whether one of these keeps the place free.
#[derive(Clone, Copy)]
struct Near {
    mesh: u64,
    proposed: u64,
    is_kept_free: bool,
}

/// What becomes of a point.
#[derive(Clone, Copy, PartialEq, Eq)]
pub(crate) enum Answer {
    /// It is proposed.
    Taken,
    /// It is too near to a proposed point.
    Locked,
    /// It is too near to a point of the mesh, or there is no such point.
    Refused,
}

/// Points of the mesh, and proposed ones behind them, in chains by cubes of space.
#[derive(Drop)]
pub(crate) struct Buckets {
    kept: Vec<Kept>,
    heads: Vec<Option<u32>>,
    side: i64,
    own: usize,
}

/// Whether one length is less than so many fifths of another, by their squares.
pub(crate) fn is_less(one: u64, fifths: u128, other: u64) -> bool {
    let part = fifths.wrapping_mul(fifths);
    u128::from(one).wrapping_mul(25) < u128::from(other).wrapping_mul(part)
}

impl Near {
    /// Notes a point.
    fn note(&mut self, kept: &Kept, p: Spot) {
        let square = distance(kept.spot, p);
        match kept.proposed {
            None => self.mesh = self.mesh.min(square),
            Some(own) => {
                self.proposed = self.proposed.min(square);
                self.is_kept_free = self.is_kept_free || is_less(square, 2, own);
            }
        }
    }
}

/// The chain of a cube, by a hash of its coordinates.
fn chain_of(cube: Spot, chains: usize) -> usize {
    let x = cube.x.cast_unsigned().wrapping_mul(0x9E37_79B9_7F4A_7C15);
    let y = cube.y.cast_unsigned().wrapping_mul(0xC2B2_AE3D_27D4_EB4F);
    let z = cube.z.cast_unsigned().wrapping_mul(0x1656_67B1_9E37_79F9);
    let mixed = (x ^ y ^ z) / (1 << 20);
    mixed.checked_rem(chains as u64).unwrap_or(0) as usize
}

impl Buckets {
    /// The points of the mesh, in cubes with this side, with chains for some more.
    pub(crate) fn new(
        alloc: Global,
        spots: &[Spot],
        more: usize,
        side: i64,
    ) -> Result<Self, NoMemory> {
        let mut heads = Vec::new(alloc);
        heads.resize(spots.len().saturating_add(more).saturating_add(64), None)?;
        let mut buckets = Buckets {
            kept: Vec::new(alloc),
            heads,
            side: side.max(1),
            own: spots.len(),
        };
        for spot in spots {
            buckets.push(*spot, None)?;
        }
        Ok(buckets)
    }

    /// The cube that has a point.
    fn cube_of(&self, s: Spot) -> Spot {
        Spot {
            x: floored(s.x, self.side),
            y: floored(s.y, self.side),
            z: floored(s.z, self.side),
        }
    }

    /// Appends a point.
    fn push(&mut self, spot: Spot, proposed: Option<u64>) -> Result<(), NoMemory> {
        let Ok(place) = u32::try_from(self.kept.len()) else {
            return Err(NoMemory);
        };
        let chain = chain_of(self.cube_of(spot), self.heads.len());
        let mut next = None;
        if chain < self.heads.len() {
            next = self.heads[chain];
            self.heads[chain] = Some(place);
        }
        self.kept.push(Kept {
            spot,
            proposed,
            next,
        })?;
        Ok(())
    }

    /// Notes the points in the chain of a cube.
    fn note_chain(&self, cube: Spot, p: Spot, near: &mut Near) {
        let chain = chain_of(cube, self.heads.len());
        let mut at = self.heads.get(chain).copied().flatten();
        for _ in 0..MOST {
            let Some(place) = at else { break };
            let Some(kept) = self.kept.get(place as usize) else {
                break
            };
            near.note(kept, p);
            at = kept.next;
        }
    }

    /// What is near to a place, of the points in its cube and those about it. Distances are at most
    /// the side of a cube.
    fn near(&self, p: Spot) -> Near {
        let cube = self.cube_of(p);
        let side = self.side.unsigned_abs();
        let mut near = Near {
            mesh: side.wrapping_mul(side),
            proposed: u64::MAX,
            is_kept_free: false,
        };
        for i in 0..27 {
            let about = Spot {
                x: i % 3,
                y: i / 3 % 3,
                z: i / 9,
            };
            let corner = cube.from(Spot { x: 1, y: 1, z: 1 });
            self.note_chain(corner.plus(about), p, &mut near);
        }
        near
    }

    /// Proposes a point of the grid that keeps from the points of the mesh a distance with this
    /// square, from the proposed ones four fifths of its distance from the mesh, and two fifths of
    /// theirs.
    pub(crate) fn take(&mut self, p: Spot, least: u64) -> Result<Answer, NoMemory> {
        let near = self.near(p);
        if grid_point(p).is_none() || near.mesh < least.max(1) {
            return Ok(Answer::Refused);
        }
        if near.is_kept_free || is_less(near.proposed, 4, near.mesh) {
            return Ok(Answer::Locked);
        }
        self.push(p, Some(near.mesh))?;
        Ok(Answer::Taken)
    }

    /// Proposes a point of the grid that keeps from all points a distance with this square.
    pub(crate) fn put(&mut self, p: Spot, least: u64) -> Result<(), NoMemory> {
        let near = self.near(p);
        if grid_point(p).is_some() && near.mesh.min(near.proposed) >= least.max(1) {
            self.push(p, Some(near.mesh))?;
        }
        Ok(())
    }

    /// Adds points that are proposed already to those of the mesh. No other is proposed before.
    pub(crate) fn add_known(&mut self, points: &Points) -> Result<(), NoMemory> {
        for p in points.as_slice() {
            self.push(spot_of(*p), None)?;
        }
        self.own = self.kept.len();
        Ok(())
    }

    /// Appends the proposed points, in the order of the proposals.
    pub(crate) fn append_proposed(&self, points: &mut Points) -> Result<(), NoMemory> {
        for kept in self.kept.get(self.own..).unwrap_or(&[]) {
            if let Some(p) = grid_point(kept.spot) {
                points.push(p)?;
            }
        }
        Ok(())
    }
}

//! The tetrahedra that are to be split for their shape or their volume.
use crate::floors::{UNKNOWN, floors_of};
use geo_laws::Side;
use mesh_parts::{Cell, Field, cube_root, distance, grid_point, volume};
use sign_predicates::Corners;
use std::alloc::Global;
use tet_ports::NoMemory;
use tet_shapes::{Ratio, is_slim_at};

/// The squares of the shortest edge of a tetrahedron and of the floor at it: a new point is to keep
/// nearly the one, or a part of the other, from the points near it.
#[derive(Clone, Copy, PartialEq, Eq, PartialOrd, Ord)]
pub(crate) struct Lengths {
    pub(crate) shortest: u64,
    pub(crate) floor: u64,
}

/// A tetrahedron that is to be split. Those with the largest circumspheres come first.
#[derive(Clone, Copy, PartialEq, Eq, PartialOrd, Ord)]
pub(crate) struct Asked {
    rank: u64,
    pub(crate) place: u32,
    pub(crate) lengths: Lengths,
    /// Whether the volume is over the bound.
    pub(crate) is_over: bool,
    /// Whether the volume is well over the bound.
    pub(crate) is_large: bool,
}

/// The shortest edges of a tetrahedron: the square of the shortest one, and of the shortest one
/// that is not between parts that meet at less than 60 degrees.
#[derive(Clone, Copy)]
struct Shortest {
    all: u64,
    free: u64,
    side: Option<Side>,
}

impl Shortest {
    /// Notes an edge.
    fn note(&mut self, field: &Field, side: Side) {
        let Some((a, b)) = field.mesh.ends_of(side) else {
            return;
        };
        let square = distance(a, b);
        if square < self.all {
            self.all = square;
            self.side = Some(side);
        }
        let parts = &field.parts;
        if square < self.free && !field.meet(parts.at(side.a), parts.at(side.b)) {
            self.free = square;
        }
    }
}

/// The shortest edges of a tetrahedron.
fn shortest_of(field: &Field, cell: &Cell) -> Shortest {
    let mut shortest = Shortest {
        all: u64::MAX,
        free: u64::MAX,
        side: None,
    };
    for side in cell.edges() {
        shortest.note(field, side);
    }
    if shortest.free == u64::MAX {
        shortest.free = shortest.all;
    }
    shortest
}

/// The lower floor of the ends of an edge, as a square.
fn floor_at(floors: &[u64], side: Option<Side>) -> u64 {
    let Some(side) = side else { return u64::MAX };
    let first = floors.get(side.a as usize).copied().unwrap_or(UNKNOWN);
    let second = floors.get(side.b as usize).copied().unwrap_or(UNKNOWN);
    let floor = first.min(second).min(UNKNOWN);
    floor.wrapping_mul(floor)
}

/// The corners of a tetrahedron.
fn corners_of(field: &Field, t: u32) -> Option<Corners> {
    let [a, b, c, d] = field.mesh.corners(t)?;
    Some(Corners {
        a: grid_point(a)?,
        b: grid_point(b)?,
        c: grid_point(c)?,
        d: grid_point(d)?,
    })
}

/// Whether the ratio of the circumradius of a tetrahedron to its shortest edge is over the bound.
fn is_slim(field: &Field, t: u32, ratio: Ratio) -> bool {
    match corners_of(field, t) {
        Some(corners) if ratio.over <= 1 << 20 && ratio.under <= 1 << 20 => {
            is_slim_at(corners, ratio)
        }
        _ => false,
    }
}

/// The square of a number.
fn squared(x: u32) -> u128 {
    u128::from(x).wrapping_mul(u128::from(x))
}

/// Whether the ratio of a circumradius to an edge is over the bound, by their squares.
fn is_over(radius: u64, edge: u64, ratio: Ratio) -> bool {
    let radius = u128::from(radius).wrapping_mul(squared(ratio.under));
    radius > u128::from(edge).wrapping_mul(squared(ratio.over))
}

/// Finds the tetrahedra to be split.
#[derive(Clone, Copy)]
struct Search<'a> {
    field: &'a Field<'a>,
    floors: &'a [u64],
    ratio: Ratio,
}

impl<'a> Search<'a> {
    /// Whether a slim tetrahedron is so for another reason than two parts that meet at less than 60
    /// degrees.
    fn is_free(&self, cell: &Cell, radius: u64, shortest: &Shortest) -> bool {
        (shortest.free == shortest.all || is_over(radius, shortest.free, self.ratio))
            && !self.field.is_in_fold(&cell.corners)
    }

    /// The tetrahedron among those to be split.
    fn asked(&self, t: u32) -> Option<Asked> {
        let cell = self.field.mesh.cell(t)?;
        let [a, b, c, d] = self.field.mesh.corners(t)?;
        let most = self.field.mesh.most(t);
        let volume = volume(a, b, c, d);
        let is_over = volume > most;
        if !is_over && !is_slim(self.field, t, self.ratio) {
            return None;
        }
        let shortest = shortest_of(self.field, &cell);
        let radius = match self.field.sphere(t) {
            Some(sphere) => sphere.squared,
            None => u64::MAX,
        };
        if !is_over && !self.is_free(&cell, radius, &shortest) {
            return None;
        }
        let bound = if is_over {
            half_squared(most)
        } else {
            u64::MAX
        };
        Some(Asked {
            rank: u64::MAX.wrapping_sub(radius),
            place: t,
            lengths: Lengths {
                shortest: shortest.free.min(bound),
                floor: floor_at(self.floors, shortest.side),
            },
            is_over,
            is_large: volume > most.saturating_add(most / 5),
        })
    }
}

/// The square of half the side of a cube with a sixth of this volume.
fn half_squared(most: i128) -> u64 {
    let half = cube_root(most / 48).unsigned_abs();
    half.wrapping_mul(half)
}

/// The tetrahedra that are to be split, those with the largest circumspheres first.
pub(crate) fn asked_of(
    alloc: Global,
    field: &Field,
    ratio: Ratio,
    own: usize,
) -> Result<Vec<Asked>, NoMemory> {
    let floors = floors_of(alloc, field, own)?;
    let search = Search {
        field,
        floors: floors.as_slice(),
        ratio,
    };
    let mut all = Vec::new(alloc);
    for i in 0..field.mesh.cells.len() {
        let Ok(place) = u32::try_from(i) else { break };
        if let Some(asked) = search.asked(place) {
            all.push(asked)?;
        }
    }
    all.sort_unstable();
    Ok(all)
}

//! The points that a mesh is to get so that no tetrahedron is over its greatest volume, whatever
//! its shape.
use crate::buckets::Buckets;
use crate::fill::{Far, Spacing, fill};
use crate::splits::Splits;
use geo_laws::Points;
use mesh_parts::{Cell, Mesh, circumsphere, cube_root, distance, volume};
use std::alloc::Global;
use tet_ports::NoMemory;

/// Each coordinate of a proposed point is a multiple of `2^halvings` grid units; and whether points
/// may be put on segments and in facets.
#[derive(Clone, Copy)]
pub(crate) struct VolumeAim {
    pub(crate) halvings: u32,
    pub(crate) splits_boundary: bool,
}

/// How many times its bound a tetrahedron has that is filled.
const FAR: i128 = 8;

/// The logarithm to base 2 of the most six-fold volumes of a fill: about five times the most points
/// that it proposes.
const MOST_FILLED: u32 = 23;

/// Greatest six-fold volumes that are alike: those from `least` up to twice that.
#[derive(Clone, Copy)]
struct Level {
    least: i128,
}

impl Level {
    /// Whether a greatest six-fold volume is of this level.
    fn has(self, most: i128) -> bool {
        self.least <= most && most / 2 < self.least.max(1)
    }

    /// Twice the least volume of the level, above which the next one is.
    fn end(self) -> i128 {
        self.least.max(1).saturating_mul(2)
    }
}

/// A tetrahedron over its bound: its place, and the square of the distance that a point for it is
/// to keep from others. Those with the largest circumsphere come first.
#[derive(Clone, Copy, PartialEq, Eq, PartialOrd, Ord)]
struct Large {
    rank: u64,
    place: u32,
    least: u64,
}

/// Tetrahedra over their bounds, those far over them, and the sum of the six-fold volumes of these.
#[derive(Drop)]
struct Larges {
    all: Vec<Large>,
    far: Vec<Far>,
    filled: i128,
}

/// The least square of an edge's length, or a bound where that is less.
fn least_edge(mesh: &Mesh, cell: &Cell, bound: u64) -> u64 {
    let mut least = bound;
    for side in cell.edges() {
        if let Some((a, b)) = mesh.ends_of(side) {
            least = least.min(distance(a, b));
        }
    }
    least
}

/// The tetrahedron among those over their bounds. A point for it is to keep from others nearly the
/// length of its shortest edge, or half the side of a cube with the greatest volume.
fn large_at(mesh: &Mesh, place: u32, half: i64) -> Option<Large> {
    let cell = mesh.cell(place)?;
    let square = half.unsigned_abs().wrapping_mul(half.unsigned_abs());
    let least = least_edge(mesh, &cell, square);
    let radius = match circumsphere(&mesh.corners(place)?) {
        Some(sphere) => sphere.squared,
        None => u64::MAX,
    };
    Some(Large {
        rank: u64::MAX.wrapping_sub(radius),
        place,
        least: least.wrapping_sub(least / 10),
    })
}

/// Six times the volume of a tetrahedron.
fn volume_of(mesh: &Mesh, place: u32) -> Option<i128> {
    let [a, b, c, d] = mesh.corners(place)?;
    Some(volume(a, b, c, d))
}

impl Larges {
    /// Appends a tetrahedron where its bound is of the level, and it is over that.
    fn note(&mut self, mesh: &Mesh, place: u32, level: Level) -> Result<(), NoMemory> {
        let most = mesh.most(place);
        if !level.has(most) {
            return Ok(());
        }
        let volume = volume_of(mesh, place).unwrap_or(0);
        if volume <= most {
            return Ok(());
        }
        if let Some(large) = large_at(mesh, place, cube_root(most / 48)) {
            self.all.push(large)?;
        }
        if volume > most.saturating_mul(FAR) {
            self.far.push(Far { place, volume })?;
            self.filled = self.filled.saturating_add(volume);
        }
        Ok(())
    }
}

/// The tetrahedra over their bounds of a level, those with the largest circumspheres first.
fn larges_of(alloc: Global, mesh: &Mesh, level: Level) -> Result<Larges, NoMemory> {
    let mut larges = Larges {
        all: Vec::new(alloc),
        far: Vec::new(alloc),
        filled: 0,
    };
    for i in 0..mesh.cells.len() {
        let Ok(place) = u32::try_from(i) else { break };
        larges.note(mesh, place, level)?;
    }
    larges.all.sort_unstable();
    Ok(larges)
}

/// The six-fold volume for which a mesh is filled: the least of the level, or more where too many
/// points would be proposed at once.
fn filled_to(level: Level, larges: &Larges) -> i128 {
    level.least.max(larges.filled >> MOST_FILLED).max(1)
}

/// The points of the mesh in cubes of about the distance of the points of a fill for a six-fold
/// volume.
fn buckets_for(
    alloc: Global,
    mesh: &Mesh,
    larges: &Larges,
    most: i128,
) -> Result<Buckets, NoMemory> {
    let more = usize::try_from(larges.filled.checked_div(most).unwrap_or(0) / 4).unwrap_or(0);
    let side = cube_root(most.saturating_mul(2));
    Buckets::new(alloc, &mesh.spots, more, side)
}

/// The points of the mesh with those of `known`, which are proposed already, and those of a fill of
/// the tetrahedra of a level.
fn filled_buckets(
    alloc: Global,
    mesh: &Mesh,
    level: Level,
    larges: &Larges,
    known: &Points,
    aim: &VolumeAim,
) -> Result<Buckets, NoMemory> {
    let most = filled_to(level, larges);
    let mut buckets = buckets_for(alloc, mesh, larges, most)?;
    buckets.add_known(known)?;
    if aim.splits_boundary {
        if let Some(spacing) = Spacing::new(most, aim.halvings) {
            fill(alloc, mesh, &larges.far, &spacing, &mut buckets)?;
        }
    }
    Ok(buckets)
}

/// Whether a tetrahedron of the mesh is far over its bound, so that it is filled.
pub(crate) fn has_far(mesh: &Mesh) -> bool {
    for i in 0..mesh.cells.len() {
        let Ok(place) = u32::try_from(i) else { break };
        let volume = volume_of(mesh, place).unwrap_or(0);
        if volume > mesh.most(place).saturating_mul(FAR) {
            return true;
        }
    }
    false
}

/// Appends the points that the tetrahedra of a level are to get.
fn propose_level(
    alloc: Global,
    mesh: &Mesh,
    level: Level,
    aim: &VolumeAim,
    points: &mut Points,
) -> Result<(), NoMemory> {
    let larges = larges_of(alloc, mesh, level)?;
    let mut splits = Splits {
        mesh,
        halvings: aim.halvings,
        splits_boundary: aim.splits_boundary,
        buckets: filled_buckets(alloc, mesh, level, &larges, points, aim)?,
    };
    for large in larges.all.as_slice() {
        splits.split(large.place, large.least)?;
    }
    splits.buckets.append_proposed(points)
}

/// The level of the least bound from `from` on that a tetrahedron is over.
fn next_level(mesh: &Mesh, from: i128) -> Option<Level> {
    let mut next = None;
    let mut below = i128::MAX;
    for i in 0..mesh.cells.len() {
        let Ok(place) = u32::try_from(i) else { break };
        let least = mesh.most(place);
        if from <= least && least < below && volume_of(mesh, place).unwrap_or(0) > least {
            next = Some(Level { least });
            below = least;
        }
    }
    next
}

/// The most levels, each of which begins at twice the one before or above that.
const LEVELS: u32 = 128;

/// Points that a mesh is to get so that no tetrahedron is over its greatest volume: for those with
/// the least ones first. Where all tetrahedra are within their volumes there are none.
pub(crate) fn propose_volumes(
    alloc: Global,
    mesh: &Mesh,
    aim: &VolumeAim,
) -> Result<Points, NoMemory> {
    let mut points = Points::new(alloc);
    let mut from = 0;
    for _ in 0..LEVELS {
        let Some(level) = next_level(mesh, from) else {
            break
        };
        propose_level(alloc, mesh, level, aim, &mut points)?;
        from = level.end();
    }
    Ok(points)
}

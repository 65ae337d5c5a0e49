//! Points on the segments of a complex by which each subsegment is an edge of the Delaunay mesh of
//! all points, as far as it comes.

ghost use Rattle.std.specs.Prelude.{◌≡◌, ◌≤◌, ◌<◌, ◌^◌, length, All, IfOk, IfSome};
ghost use Rattle.geo_laws.specs.Complex.{facets, HasCornersOf};
ghost use Rattle.geo_laws.specs.Delaunay.{HasDistinctPoints};
ghost use Rattle.geo_laws.specs.Facet.{IsFlat};
ghost use Rattle.run_steps.specs.Meshing.{IsMeshableBound};
ghost use Rattle.segment_protect.specs.Spots.{HasTwoEnds};

use crate::behind::with_points;
use cavity_insert::{BuildFault, delaunay};
use command_words::Options;
use facet_plane::check_flat;
use geo_laws::{Complex, Piece, Pieces, Points, Segments, Tet, TetList};
use merged_facets::{merge_facets, merged_segments};
use mesh_parts::{Rung, Spot, grid_point, spot_of};
use plc_files::segments;
use run_steps::Bound;
use segment_protect::pieces;
use sign_predicates::GridPoint;
use std::alloc::Global;
use std::collections::HashSet;
use std::mem;
use tet_ports::NoMemory;

/// The segments of a complex that are meshed: those of all facets where these are kept apart, else
/// those of the merged ones.
fn meshed_segments(
    alloc: Global,
    keep_facets: bool,
    points: &Points,
    complex: &Complex,
) -> Result<Segments, NoMemory>
    requires corners { HasCornersOf points.now complex.now }
    requires flat { All (IsFlat points.now) (facets complex.now) }
    requires distinct { HasDistinctPoints points.now }
    ensures { IfOk result (All (HasTwoEnds (length points.now))) }
{
    if keep_facets {
        return segments(alloc, complex);
    }
    let merging = merge_facets(alloc, points, complex)?;
    merged_segments(alloc, complex, &merging)
}

/// The subsegments of a complex, or none where a facet is not flat.
fn subsegments(alloc: Global, options: &Options, bound: &Bound) -> Result<Option<Pieces>, NoMemory>
    requires { IsMeshableBound options.now bound.now }
{
    let points = &bound.table.points;
    let Ok(()) = check_flat(points, &bound.complex) else {
        return Ok(None);
    };
    let segments = meshed_segments(alloc, options.keep_facets, points, &bound.complex)?;
    Ok(Some(pieces(alloc, points, &segments)?))
}

/// The ends of an edge by their numbers, the lesser one first.
fn ends_of(a: u32, b: u32) -> (u32, u32) {
    (a.min(b), a.max(b))
}

/// The ends of the subsegments.
fn ends_in(alloc: Global, parts: &Pieces) -> Result<HashSet<(u32, u32)>, NoMemory> {
    let mut ends = HashSet::new(alloc);
    for part in parts.as_slice() {
        ends.insert(ends_of(part.a, part.b))?;
    }
    Ok(ends)
}

/// Notes the edges of a tetrahedron that are among the wanted ones.
fn note_edges(
    wanted: &HashSet<(u32, u32)>,
    found: &mut HashSet<(u32, u32)>,
    row: Tet,
) -> Result<(), NoMemory> {
    let Tet { a, b, c, d } = row;
    for (one, two) in [(a, b), (a, c), (a, d), (b, c), (b, d), (c, d)] {
        let ends = ends_of(one, two);
        if wanted.contains(&ends) {
            found.insert(ends)?;
        }
    }
    Ok(())
}

/// The ends of the subsegments that are edges of the tetrahedra.
fn edges_among(
    alloc: Global,
    parts: &Pieces,
    rows: &TetList,
) -> Result<HashSet<(u32, u32)>, NoMemory> {
    let wanted = ends_in(alloc, parts)?;
    let mut found = HashSet::new(alloc);
    for row in rows.as_slice() {
        note_edges(&wanted, &mut found, *row)?;
    }
    Ok(found)
}

/// The Delaunay mesh of the points of a complex and others behind them, or none where two of all
/// are equal, they lie in one plane, or there are too many.
fn mesh_behind(
    alloc: Global,
    points: &Points,
    more: &Points,
    most: usize,
) -> Result<Option<TetList>, NoMemory>
    requires { most ≤ 2 ^ 30 }
{
    let Ok(all) = with_points(alloc, points, more, 0, most) else {
        return Ok(None);
    };
    match delaunay(alloc, &all) {
        Ok(rows) => Ok(Some(rows)),
        Err(BuildFault::NoMemory) => Err(NoMemory),
        Err(BuildFault::Flat) => Ok(None),
    }
}

/// The subsegments of a complex while they are split.
#[derive(Drop)]
struct Splitting<'a> {
    own: &'a Points,
    /// Each coordinate of a point that is added is a multiple of `2^halvings` grid units.
    halvings: u32,
    added: Points,
    parts: Pieces,
}

impl<'a> Splitting<'a> {
    /// The point with a number: those of the complex come first, then the added ones.
    fn at(&self, number: u32) -> Option<Spot> {
        let place = number as usize;
        let own = self.own.as_slice();
        let p = match own.get(place) {
            Some(p) => p,
            None => self.added.as_slice().get(place.wrapping_sub(own.len()))?,
        };
        Some(spot_of(*p))
    }

    /// Where a subsegment is split: at the power of two nearest to half its length from an end that
    /// is a point of the complex where the other one is none, so that subsegments that meet there
    /// are split at equal distances; else at the lattice point nearest to the middle.
    fn place(&self, part: Piece) -> Option<GridPoint> {
        let rung = Rung::new(self.at(part.a)?, self.at(part.b)?, self.halvings)?;
        let own = self.own.len();
        let place = match ((part.a as usize) < own, (part.b as usize) < own) {
            (true, false) => rung.shell(false),
            (false, true) => rung.shell(true),
            _ => rung.middle(),
        };
        match place {
            Some(place) => grid_point(place),
            None if rung.count > 1 => grid_point(rung.at(rung.count / 2)),
            None => None,
        }
    }

    /// Puts a subsegment that is missing in two halves, where it can be split, and else as it is.
    fn put(&mut self, part: Piece, is_missing: bool) -> Result<(), NoMemory> {
        let place = if is_missing { self.place(part) } else { None };
        let number = self.own.len().wrapping_add(self.added.len());
        let (Some(place), Ok(middle)) = (place, u32::try_from(number)) else {
            return self.parts.push(part);
        };
        self.added.push(place)?;
        self.parts.push(Piece { b: middle, ..part })?;
        self.parts.push(Piece { a: middle, ..part })
    }

    /// Splits the subsegments that are no edges of the tetrahedra, and answers whether any was.
    fn split(&mut self, alloc: Global, rows: &TetList) -> Result<bool, NoMemory> {
        let found = edges_among(alloc, &self.parts, rows)?;
        let before = self.added.len();
        let parts = mem::replace(&mut self.parts, Pieces::new(alloc));
        for part in parts.as_slice() {
            self.put(*part, !found.contains(&ends_of(part.a, part.b)))?;
        }
        Ok(self.added.len() > before)
    }
}

/// The most rounds in which subsegments are split.
const ROUNDS: u32 = 40;

/// Points on the segments of a complex, whose coordinates are multiples of `2^halvings` grid units:
/// in each round the subsegments that are no edges of the Delaunay mesh of all points are split,
/// until none is missing or none can be split. There are at most `most` points in all, and none
/// where a facet is not flat. The function has no contract: the points are tested before they are
/// meshed.
///
/// Source: splitting of missing subsegments, in concentric shells round the points of the complex
/// (Ruppert, 1995; Shewchuk, 2002).
pub(crate) fn conforming_points(
    alloc: Global,
    options: &Options,
    bound: &Bound,
    halvings: u32,
    most: usize,
) -> Result<Points, NoMemory>
    requires bound { IsMeshableBound options.now bound.now }
    requires most { most ≤ 2 ^ 30 }
{
    let own = &bound.table.points;
    let mut splitting = Splitting {
        own,
        halvings,
        added: Points::new(alloc),
        parts: match subsegments(alloc, options, bound)? {
            Some(parts) => parts,
            None => return Ok(Points::new(alloc)),
        },
    };
    for _ in 0..ROUNDS {
        let Some(rows) = mesh_behind(alloc, own, &splitting.added, most)? else {
            break;
        };
        if !splitting.split(alloc, &rows)? {
            break;
        }
    }
    Ok(splitting.added)
}

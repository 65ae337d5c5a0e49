//! Whether two segments that cross once coordinates are rounded are apart in the file.

ghost use Rattle.std.specs.Prelude.{◌≡◌, ◌≢◌, ◌<◌, ◌↔◌, true, length, IfOk};
ghost use Rattle.geo_laws.specs.Delaunay.{point};
ghost use Rattle.tetfit_run.specs.Apart.{crossing_help, end_place, ends_in_file, AreApart, ArePlaced, AreSegmentsMet};

use crate::places::file_point;
use geo_laws::{Piece, Points, Side};
use grid_coords::{DecimalPoint, DecimalPoints};
use mesh_check::{CheckFault, centered_points};
use run_steps::Numbering;
use simplex_meets::segments_met;
use std::alloc::Global;
use tet_ports::NoMemory;

/// The ends of two segments as the file has them, where all four are points of the file.
fn ends_in_file(
    alloc: Global,
    points: &[DecimalPoint],
    by: &Numbering,
    one: Piece,
    two: Piece,
) -> Result<Option<DecimalPoints>, NoMemory>
    ensures { IfOk result (λ found. found ≡ ends_in_file points.now by.now one two) }
{
    let (Some(a), Some(b)) = (file_point(points, by, one.a), file_point(points, by, one.b)) else {
        return Ok(None);
    };
    let (Some(c), Some(d)) = (file_point(points, by, two.a), file_point(points, by, two.b)) else {
        return Ok(None);
    };
    let mut ends = DecimalPoints::with_capacity(alloc, 4)?;
    ends.push(*a)?;
    ends.push(*b)?;
    ends.push(*c)?;
    ends.push(*d)?;
    Ok(Some(ends))
}

/// The place of an end of the second segment.
fn end_place(one: Piece, n: u32, own: u32) -> u32
    ensures { result ≡ end_place one n own }
{
    if n == one.a {
        0
    } else if n == one.b {
        1
    } else {
        own
    }
}

/// Whether the ends of the segment are different points.
fn has_length(placed: &Points, s: Side) -> bool
    requires a_on { s.a < length placed.now }
    requires b_on { s.b < length placed.now }
    ensures { (result ≡ true) ↔ (point placed.now s.a ≢ point placed.now s.b) }
{
    placed.at(s.a as usize) != placed.at(s.b as usize)
}

/// Whether the two segments, whose ends are placed so, have no common point but a common end.
fn are_met(one: Piece, two: Piece, placed: &Points) -> bool
    requires { length placed.now ≡ 4 }
    ensures { (result ≡ true) ↔ AreSegmentsMet one two placed.now }
{
    let s = Side { a: 0, b: 1 };
    let t = Side {
        a: end_place(one, two.a, 2),
        b: end_place(one, two.b, 3),
    };
    has_length(placed, s) && has_length(placed, t) && segments_met(placed, s, t)
}

/// Whether the two segments do not cross in the file; false where an end is an added point, or
/// where the ends are on no grid of 2^29 units to each side of their middle.
pub(crate) fn are_apart(
    alloc: Global,
    points: &[DecimalPoint],
    by: &Numbering,
    one: Piece,
    two: Piece,
) -> Result<bool, NoMemory>
    ensures { IfOk result (λ apart. (apart ≡ true) ↔ AreApart points.now by.now one two) }
{
    let Some(ends) = ends_in_file(alloc, points, by, one, two)? else {
        return Ok(false);
    };
    match centered_points(alloc, &ends) {
        Ok(placed) => Ok(are_met(one, two, &placed)),
        Err(CheckFault::NoMemory) => Err(NoMemory),
        Err(_) => Ok(false),
    }
}

/// The advice on two segments that cross once coordinates are rounded.
pub(crate) fn crossing_help(apart: bool) -> &'static [u8]
    ensures { result.now ≡ crossing_help apart }
{
    if apart {
        b"tetfit: they do not cross in the file, rounding made them: \
          move them apart, or try coarser coordinates by --unit=U\n"
    } else {
        b"tetfit: give both segments the point at which they cross, \
          or where the last digits alone make them cross, try coarser coordinates by --unit=U\n"
    }
}

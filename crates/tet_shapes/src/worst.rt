//! The worst tetrahedra of a list: one with the least dihedral angle, and one with the greatest
//! ratio of the circumradius to the shortest edge.
ghost use Rattle.std.specs.Prelude.{◌≡◌, ◌≤◌, ◌<◌, ◌+◌, ◌-◌, true, false, min, All, IfSome};
ghost use Rattle.geo_laws.specs.Delaunay.{IsOn};
ghost use Rattle.tet_shapes.specs.Shape.{IsFine};
ghost use Rattle.tet_shapes.specs.Worst.{is_below_degrees, is_over_doubled};
ghost use Rattle.tet_shapes.specs.Worst.{IsGreatestRatioOver, IsLeastAngleBelow};

use crate::angle::{is_flat_at, squared_cosine};
use crate::shape::{Ratio, is_slim_at};
use geo_laws::{Points, TetList, corners_of};
use sign_predicates::Corners;

/// The least dihedral angle of the tetrahedra of a list.
#[derive(Clone, Copy, Debug, PartialEq, Eq)]
pub struct LeastAngle {
    /// The angle in whole degrees, rounded down.
    pub degrees: u32,
    /// The place in the list, from 0, of a tetrahedron that has this angle.
    pub place: usize,
}

/// The greatest ratio of the circumradius to the shortest edge among the tetrahedra of a list, by
/// the doublings of another ratio.
#[derive(Clone, Copy, Debug, PartialEq, Eq)]
pub struct GreatestRatio {
    /// The greatest number of doublings with which the other ratio is still exceeded.
    pub doublings: u32,
    /// The place in the list, from 0, of a tetrahedron that exceeds it.
    pub place: usize,
}

/// The most degrees, up to `most`, below which the tetrahedron has no dihedral angle.
fn degrees_of(t: &Corners, most: u32) -> u32
    requires { most ≤ 30 }
    ensures most { result ≤ most }
    ensures none { is_below_degrees result t.now ≡ false }
    ensures one { result < most → is_below_degrees (result + 1) t.now ≡ true }
{
    let mut degrees = most;
    while degrees > 0 && is_flat_at(*t, squared_cosine(degrees)) {
        degrees -= 1;
    }
    degrees
}

/// The least dihedral angle of the tetrahedra of a list, where one is below `most` degrees; more
/// than 30 count as 30.
pub fn least_angle(points: &Points, rows: &TetList, most: u32) -> Option<LeastAngle>
    requires { All (IsOn points.now) rows.now }
    ensures { IsLeastAngleBelow (min most 30) points.now rows.now result }
{
    let aim = most.min(30);
    let mut least = aim;
    let mut place = 0usize;
    for i in 0..rows.len() {
        let degrees = degrees_of(&corners_of(points, rows.at(i)), least);
        if degrees < least {
            least = degrees;
            place = i;
        }
    }
    if least < aim {
        Some(LeastAngle {
            degrees: least,
            place,
        })
    } else {
        None
    }
}

/// Whether the circumradius is over the ratio times `2^doublings` times the shortest edge, with at
/// most 20 doublings, by which the numerator is at most 2^20.
fn is_over_doubled(t: &Corners, ratio: Ratio, doublings: u32) -> bool
    requires { IsFine ratio }
    ensures { result ≡ is_over_doubled ratio doublings t.now }
{
    if doublings > 20 {
        return false;
    }
    let over = u64::from(ratio.over) * 2_u64.pow(doublings);
    if over > 1 << 20 {
        return false;
    }
    let under = ratio.under;
    is_slim_at(
        *t,
        Ratio {
            over: over as u32,
            under,
        },
    )
}

/// The least number of doublings, from `least` on, with which the tetrahedron is not over the
/// ratio.
fn doublings_of(t: &Corners, ratio: Ratio, least: u32) -> u32
    requires fine { IsFine ratio }
    requires least { least ≤ 21 }
    ensures least { least ≤ result }
    ensures most { result ≤ 21 }
    ensures none { is_over_doubled ratio result t.now ≡ false }
    ensures one { least < result → is_over_doubled ratio (result - 1) t.now ≡ true }
{
    for doublings in least..21 {
        if !is_over_doubled(t, ratio, doublings) {
            return doublings;
        }
    }
    21
}

/// The greatest ratio of the circumradius to the shortest edge among the tetrahedra of a list, by
/// the doublings of `ratio`, where one is over `ratio`.
pub fn greatest_ratio(points: &Points, rows: &TetList, ratio: Ratio) -> Option<GreatestRatio>
    requires on { All (IsOn points.now) rows.now }
    requires fine { IsFine ratio }
    ensures greatest { IsGreatestRatioOver ratio points.now rows.now result }
    ensures few { IfSome result (λ greatest. greatest.doublings ≤ 20) }
{
    let mut passed = 0u32;
    let mut place = 0usize;
    for i in 0..rows.len() {
        let doublings = doublings_of(&corners_of(points, rows.at(i)), ratio, passed);
        if doublings > passed {
            passed = doublings;
            place = i;
        }
    }
    if passed == 0 {
        None
    } else {
        Some(GreatestRatio {
            doublings: passed - 1,
            place,
        })
    }
}

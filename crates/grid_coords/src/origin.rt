//! The point from which the coordinates of a model are measured.

ghost use Rattle.std.specs.Prelude.{◌≡◌, ◌≤◌, ◌*◌, ◌^◌, ℕ, unsigned_abs, nat_le, IfSome};
ghost use Rattle.std.specs.Int.{int_min, int_max};
ghost use Rattle.grid_coords.specs.Origins.{most_whole, clamped, whole, whole_point, lower, higher};
ghost use Rattle.grid_coords.specs.Origins.{low_corner, high_corner, middle, middle_point, reach};
ghost use Rattle.grid_coords.specs.Origins.{origin_of, most_near, IsNear, IsSmallPoint};

use crate::DecimalPoint;
use crate::rounding::round_to;
use tet_text::Decimal;

/// The greatest size of an origin's coordinate, also in units of the finest grid that it has.
const MOST: u64 = 100_000_000_000_000_000;

/// A point with whole coordinates, in the unit of the text.
#[derive(Clone, Copy, Debug, PartialEq, Eq)]
pub struct WholePoint {
    pub x: i64,
    pub y: i64,
    pub z: i64,
}

/// The number, or the nearest one whose size is at most 10^17.
fn clamped(value: i128) -> i64
    ensures value { result ≡ clamped value }
    ensures small { unsigned_abs result ≤ most_whole }
{
    if value > 100_000_000_000_000_000 {
        return 100_000_000_000_000_000;
    }
    if value < -100_000_000_000_000_000 {
        return -100_000_000_000_000_000;
    }
    value as i64
}

/// The whole number nearest to a coordinate.
fn whole(d: &Decimal) -> i64
    ensures value { result ≡ whole d.now }
    ensures small { unsigned_abs result ≤ most_whole }
{
    clamped(round_to(d, 0).value)
}

/// The whole numbers nearest to the coordinates of a point.
fn whole_point(p: &DecimalPoint) -> WholePoint
    ensures value { result ≡ whole_point p.now }
    ensures small { IsSmallPoint result }
{
    WholePoint {
        x: whole(&p.x),
        y: whole(&p.y),
        z: whole(&p.z),
    }
}

/// The lesser number.
fn lesser(a: i64, b: i64) -> i64
    ensures value { result ≡ int_min a b }
    ensures small { (most : ℕ) → unsigned_abs a ≤ most → unsigned_abs b ≤ most
        → unsigned_abs result ≤ most }
{
    if b < a { b } else { a }
}

/// The greater number.
fn greater(a: i64, b: i64) -> i64
    ensures value { result ≡ int_max a b }
    ensures small { (most : ℕ) → unsigned_abs a ≤ most → unsigned_abs b ≤ most
        → unsigned_abs result ≤ most }
{
    if b < a { a } else { b }
}

/// The lesser coordinates of both points.
fn lower(a: WholePoint, b: WholePoint) -> WholePoint
    requires a_small { IsSmallPoint a }
    requires b_small { IsSmallPoint b }
    ensures value { result ≡ lower a b }
    ensures small { IsSmallPoint result }
{
    WholePoint {
        x: lesser(a.x, b.x),
        y: lesser(a.y, b.y),
        z: lesser(a.z, b.z),
    }
}

/// The greater coordinates of both points.
fn higher(a: WholePoint, b: WholePoint) -> WholePoint
    requires a_small { IsSmallPoint a }
    requires b_small { IsSmallPoint b }
    ensures value { result ≡ higher a b }
    ensures small { IsSmallPoint result }
{
    WholePoint {
        x: greater(a.x, b.x),
        y: greater(a.y, b.y),
        z: greater(a.z, b.z),
    }
}

/// A box, by its corners of least and of greatest coordinates.
#[derive(Clone, Copy)]
struct Extent {
    low: WholePoint,
    high: WholePoint,
}

/// The box of a point and the points of a list.
fn extent_of(first: WholePoint, points: &[DecimalPoint]) -> Extent
    requires { IsSmallPoint first }
    ensures low { result.low ≡ low_corner first points.now }
    ensures high { result.high ≡ high_corner first points.now }
    ensures low_small { IsSmallPoint result.low }
    ensures high_small { IsSmallPoint result.high }
{
    let mut low = first;
    let mut high = first;
    for p in points {
        let place = whole_point(p);
        low = lower(low, place);
        high = higher(high, place);
    }
    Extent { low, high }
}

/// Half the sum, rounded toward zero.
fn middle(a: i64, b: i64) -> i64
    requires a_small { unsigned_abs a ≤ most_whole }
    requires b_small { unsigned_abs b ≤ most_whole }
    ensures value { result ≡ middle a b }
    ensures small { unsigned_abs result ≤ most_whole }
{
    (a + b) / 2
}

/// The point halfway between two points, in whole numbers.
fn middle_point(a: WholePoint, b: WholePoint) -> WholePoint
    requires a_small { IsSmallPoint a }
    requires b_small { IsSmallPoint b }
    ensures value { result ≡ middle_point a b }
    ensures small { IsSmallPoint result }
{
    WholePoint {
        x: middle(a.x, b.x),
        y: middle(a.y, b.y),
        z: middle(a.z, b.z),
    }
}

/// The greatest size of a coordinate.
fn reach(w: WholePoint) -> u64
    requires { IsSmallPoint w }
    ensures value { result ≡ reach w }
    ensures small { result ≤ most_whole }
{
    w.x.unsigned_abs()
        .max(w.y.unsigned_abs().max(w.z.unsigned_abs()))
}

/// The point from which the coordinates of points are measured: the middle of their box in whole
/// numbers, with coordinates of at most 10^17 in size. None where that is zero, and for no points.
pub fn origin_of(points: &[DecimalPoint]) -> Option<WholePoint>
    ensures value { result ≡ origin_of points.now }
    ensures small { IfSome result IsSmallPoint }
{
    if points.is_empty() {
        return None;
    }
    let first = whole_point(&points[0]);
    let extent = extent_of(first, points);
    let middle = middle_point(extent.low, extent.high);
    if reach(middle) == 0 {
        return None;
    }
    Some(middle)
}

/// Whether each coordinate of the origin is at most 10^17 units of 10^-`decimals`.
fn is_near(decimals: u32, reach: u64) -> bool
    requires fine { decimals ≤ 17 }
    requires small { reach ≤ most_whole }
    ensures { result ≡ nat_le (reach * 10 ^ decimals) most_whole }
{
    u128::from(reach) * 10u128.pow(decimals) <= u128::from(MOST)
}

/// The most decimals, up to this number, with which each coordinate of the origin is at most 10^17
/// units of 10^-decimals.
pub fn most_near(w: WholePoint, most: u32) -> u32
    requires small { IsSmallPoint w }
    requires fine { most ≤ 17 }
    ensures value { result ≡ most_near w most }
    ensures near { IsNear result w }
{
    let reach = reach(w);
    let mut decimals = most;
    while decimals > 0 && !is_near(decimals, reach) {
        decimals -= 1;
    }
    decimals
}

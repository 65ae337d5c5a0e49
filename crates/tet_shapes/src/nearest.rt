//! The point of a list that is nearest to a segment.
ghost use Rattle.std.specs.Prelude.{◌≡◌, ◌≢◌, ◌<◌, ◌≤◌, ◌^◌, ◌*◌, ◌*ℤ◌, ◌≤ℤ◌, unsigned_abs, length};
ghost use Rattle.std.specs.Prelude.{pos, int_le, true, false, IfSome};
ghost use Rattle.sign_predicates.specs.Orientation.{cross};
ghost use Rattle.sign_predicates.specs.Point.{from_to};
ghost use Rattle.sign_predicates.specs.Sphere.{square_length};
ghost use Rattle.geo_laws.specs.Segment.{along};
ghost use Rattle.tet_shapes.specs.Nearest.{gap, whole, IsNear, IsNearest, IsWithin};

use crate::vector::{cross, dot, scalar_product, square_length};
use geo_laws::{Piece, Points};
use grid_coords::Grid;
use sign_predicates::{GridPoint, from_to};

/// The point of a list that is nearest to a segment, and how near it is.
#[derive(Clone, Copy, Debug, PartialEq, Eq)]
pub struct Near {
    /// The place of the point in the list, from 0.
    pub point: u32,
    /// A distance that the point's is at most, in units of the grid's last decimal.
    pub units: u32,
}

/// The product of two squares of lengths.
fn product(a: i64, b: i64) -> i128
    requires a_small { unsigned_abs a ≤ 3 * 2 ^ 60 }
    requires b_small { unsigned_abs b ≤ 3 * 2 ^ 60 }
    ensures { result ≡ a *ℤ b }
{
    i128::from(a) * i128::from(b)
}

/// The square of the distance of a point from the end `c` of the segment from `a` to `b`, times
/// that of the segment's length.
fn end_gap(a: GridPoint, b: GridPoint, c: GridPoint, p: GridPoint) -> i128
    ensures { result ≡ whole a b *ℤ whole c p }
{
    let whole = square_length(from_to(a, b));
    let own = square_length(from_to(c, p));
    product(whole, own)
}

/// The square of the distance of a point from the line through `a` and `b`, times that of the
/// length between these.
fn side_gap(a: GridPoint, b: GridPoint, p: GridPoint) -> i128
    ensures { result ≡ square_length (cross (from_to a b) (from_to a p)) }
{
    let normal = cross(from_to(a, b), from_to(a, p));
    dot(normal, normal)
}

/// Whether a point is nearer to `a` than to all others of the segment from `a` to `b`.
fn is_before(a: GridPoint, b: GridPoint, p: GridPoint) -> bool
    ensures { result ≡ int_le (along a b p) (pos 0) }
{
    scalar_product(from_to(a, b), from_to(a, p)) <= 0
}

/// The square of the distance of a point from the segment from `a` to `b`, times that of the
/// segment's length.
#[tactic(auto, unfolding(crate::specs::Nearest::gap))]
fn gap(a: GridPoint, b: GridPoint, p: GridPoint) -> i128
    ensures { result ≡ gap a b p }
{
    if is_before(a, b, p) {
        end_gap(a, b, a, p)
    } else if is_before(b, a, p) {
        end_gap(a, b, b, p)
    } else {
        side_gap(a, b, p)
    }
}

/// Whether a point with this gap is no end of a segment, and nearer to it than one with the gap
/// `least`.
fn is_nearer(s: Piece, place: usize, own: i128, least: i128) -> bool
    ensures yes { result ≡ true → (place ≢ s.a) × (place ≢ s.b) }
    ensures no { result ≡ false → place ≢ s.a → place ≢ s.b → least ≤ℤ own }
    ensures less { result ≡ true → own ≤ℤ least }
{
    place != s.a as usize && place != s.b as usize && own < least
}

/// The first point of a list that is nearest to a segment, of those that are not its ends.
fn nearest_to(points: &Points, s: Piece) -> Option<usize>
    requires a_on { s.a < length points.now }
    requires b_on { s.b < length points.now }
    ensures { IfSome result (IsNearest points.now s) }
{
    let a = points.at(s.a as usize);
    let b = points.at(s.b as usize);
    let mut nearest = None;
    let mut least = i128::MAX;
    for i in 0..points.len() {
        let own = gap(a, b, points.at(i));
        if is_nearer(s, i, own, least) {
            least = own;
            nearest = Some(i);
        }
    }
    nearest
}

/// The square of a number of parts of a unit.
fn squared(parts: u64) -> u64
    requires { parts ≤ 2 ^ 31 }
    ensures value { result ≡ parts * parts }
    ensures small { result ≤ 2 ^ 62 }
{
    parts * parts
}

/// The square of a distance of so many parts of a unit, times that of a segment's length.
fn reach_of(whole: i64, square: u64) -> i128
    requires whole_small { unsigned_abs whole ≤ 3 * 2 ^ 60 }
    requires square_small { square ≤ 2 ^ 62 }
    ensures { result ≡ whole *ℤ pos square }
{
    whole as i128 * square as i128
}

/// Whether a point with this gap is at most so many units away from a segment whose length has the
/// square `whole`; never over 2^31 parts of a unit.
fn is_within(halvings: u32, whole: i64, gap: i128, units: u32) -> bool
    requires { unsigned_abs whole ≤ 3 * 2 ^ 60 }
    ensures { result ≡ true → IsWithin halvings whole gap units }
{
    if halvings > 18 {
        return false;
    }
    let parts = u64::from(units) * 2_u64.pow(halvings);
    if parts > 1 << 31 {
        return false;
    }
    gap <= reach_of(whole, squared(parts))
}

/// A number of units that a point with this gap is at most away from a segment whose length has the
/// square `whole`: the least one, or the next.
fn units_of(halvings: u32, whole: i64, gap: i128) -> Option<u32>
    requires { unsigned_abs whole ≤ 3 * 2 ^ 60 }
    ensures { IfSome result (IsWithin halvings whole gap) }
{
    let square = gap
        .unsigned_abs()
        .checked_div(u128::from(whole.unsigned_abs()))?;
    let parts = u64::try_from(square).ok()?.isqrt();
    let least = u32::try_from(parts.checked_shr(halvings)?).ok()?;
    for units in least..least.saturating_add(2) {
        if is_within(halvings, whole, gap, units) {
            return Some(units);
        }
    }
    None
}

/// The point of a list on a grid that is nearest to a segment, of those that are not its ends, and
/// how near it is; None where there is no other point, or where the segment is not one of the list.
pub fn near_of(grid: Grid, points: &Points, s: Piece) -> Option<Near>
    ensures { IfSome result (IsNear grid points.now s) }
{
    if s.a as usize >= points.len() || s.b as usize >= points.len() {
        return None;
    }
    let (a, b) = (points.at(s.a as usize), points.at(s.b as usize));
    let place = nearest_to(points, s)?;
    if place > u32::MAX as usize {
        return None;
    }
    let whole = square_length(from_to(a, b));
    let units = units_of(grid.halvings, whole, gap(a, b, points.at(place)))?;
    Some(Near {
        point: place as u32,
        units,
    })
}

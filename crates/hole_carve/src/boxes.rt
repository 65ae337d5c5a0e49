//! Whether a point is outside of the box of a tetrahedron, which costs less than the exact test,
//! and a box round a point.
ghost use Rattle.std.specs.Prelude.{◌≡◌, ◌⊎◌, ◌≤◌, ◌^◌, ◌*ℤ◌, ◌≤ℤ◌, ◌<ℤ◌, pos, unsigned_abs, IsTrue};
ghost use Rattle.sign_predicates.specs.Point.{IsNear};
ghost use Rattle.box_tree.specs.Bounds.{HoldsQuotient, HoldsRational};
ghost use Rattle.sign_predicates.specs.Orientation.{IsPositive, InClosed};
ghost use Rattle.hole_carve.specs.Boxes.{AreBelowOrAbove};

use box_tree::{Bounds, Interval};
use sign_predicates::{Corners, RatPoint};

/// A coordinate of the grid times a denominator.
fn scaled(a: i32, w: i64) -> i64
    requires a_small { unsigned_abs a ≤ 2 ^ 29 }
    requires w_small { unsigned_abs w ≤ 1000000 }
    ensures { result ≡ a *ℤ w }
{
    a as i64 * w
}

/// Whether four numbers are all less than another one, or all greater.
fn are_apart(a: i64, b: i64, c: i64, d: i64, x: i64) -> bool
    ensures { IsTrue result → AreBelowOrAbove a b c d x }
{
    a < x && b < x && c < x && d < x || x < a && x < b && x < c && x < d
}

/// Whether `x / w` is outside of the interval of four coordinates.
fn are_apart_over(a: i32, b: i32, c: i32, d: i32, x: i64, w: i64) -> bool
    requires a_small { unsigned_abs a ≤ 2 ^ 29 }
    requires b_small { unsigned_abs b ≤ 2 ^ 29 }
    requires c_small { unsigned_abs c ≤ 2 ^ 29 }
    requires d_small { unsigned_abs d ≤ 2 ^ 29 }
    requires w_small { unsigned_abs w ≤ 1000000 }
    ensures { IsTrue result → AreBelowOrAbove (a *ℤ w) (b *ℤ w) (c *ℤ w) (d *ℤ w) x }
{
    are_apart(scaled(a, w), scaled(b, w), scaled(c, w), scaled(d, w), x)
}

/// Whether the point lies outside of the box of a tetrahedron.
pub(crate) fn is_off_box(t: &Corners, x: RatPoint) -> bool
    requires { IsPositive t.now }
    ensures { IsTrue result → ¬ InClosed t.now x }
{
    if are_apart_over(t.a.x, t.b.x, t.c.x, t.d.x, x.x, x.w) {
        return true;
    }
    if are_apart_over(t.a.y, t.b.y, t.c.y, t.d.y, x.y, x.w) {
        return true;
    }
    are_apart_over(t.a.z, t.b.z, t.c.z, t.d.z, x.z, x.w)
}

/// An interval of whole numbers round `x` millionths.
fn round_millionths(x: i64) -> Interval
    requires { unsigned_abs x ≤ 536870913000000 }
    ensures low { (result.low *ℤ pos 1000000) ≤ℤ x }
    ensures high { x ≤ℤ (result.high *ℤ pos 1000000) }
{
    let low = ((x + 536870913000000) as u64 / 1000000) as i32 - 536870913;
    Interval { low, high: low + 1 }
}

/// An interval of whole numbers round `x` over `w`.
fn round_quotient(x: i64, w: i64) -> Interval
    requires w_is { (w ≡ pos 1) ⊎ (w ≡ pos 1000000) }
    requires near { IsNear w x }
    ensures { HoldsQuotient result x w }
{
    if w == 1 {
        return Interval {
            low: x as i32,
            high: x as i32,
        };
    }
    round_millionths(x)
}

/// A box round a point, whose denominator is above 0.
pub(crate) fn box_round(x: RatPoint) -> Bounds
    ensures holds { HoldsRational result x }
    ensures weight { pos 0 <ℤ x.w }
{
    Bounds {
        x: round_quotient(x.x, x.w),
        y: round_quotient(x.y, x.w),
        z: round_quotient(x.z, x.w),
    }
}

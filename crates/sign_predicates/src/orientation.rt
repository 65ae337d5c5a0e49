//! On which side of a plane a point lies.
ghost use Rattle.std.specs.Prelude.{◌≡◌, ◌<◌, ◌*◌, ◌^◌, ◌≤◌, ◌-ℤ◌, ◌*ℤ◌, neg_ℤ, unsigned_abs, pos, IsTrue, ◌↔◌};
ghost use Rattle.sign_predicates.specs.Orientation.{orient, orient_rational, side, opposite_face, StrictlyInside, InClosed};
ghost use Rattle.sign_predicates.specs.Sign.{IsSignOf};

use crate::sign::{least_sign, sign_of};
use crate::vector::{det, det_with, from_to};
use crate::{Corners, GridPoint, Hold, RatPoint, Sign};

/// Six times the signed volume of the tetrahedron `a b c d`.
#[inline]
pub(crate) fn orient_sum(a: GridPoint, b: GridPoint, c: GridPoint, d: GridPoint) -> i128
    ensures { result ≡ orient a b c d }
{
    det(from_to(a, b), from_to(a, c), from_to(a, d))
}

/// The orientation of four points, the sign of `det(b - a, c - a, d - a)`: on which side of the
/// plane through `a`, `b` and `c` the point `d` lies. Where it is `Above`, the tetrahedron `a b c
/// d` is positive: seen from `d`, the points `a`, `b` and `c` go round counterclockwise in
/// right-handed coordinates.
#[inline]
pub fn orient(a: GridPoint, b: GridPoint, c: GridPoint, d: GridPoint) -> Sign
    ensures { IsSignOf result (orient a b c d) }
{
    sign_of(orient_sum(a, b, c, d))
}

/// Whether four points lie in one plane.
#[inline]
pub fn coplanar(a: GridPoint, b: GridPoint, c: GridPoint, d: GridPoint) -> bool
    ensures { IsTrue result ↔ (orient a b c d ≡ pos 0) }
{
    matches!(orient(a, b, c, d), Sign::Zero)
}

/// Where `p` lies against the face opposite the corner in this place of the positive tetrahedron
/// `t`, from 0: `Above` where it is strictly beyond that face, `Zero` where it is on its plane,
/// `Below` where it is on the corner's side.
#[inline]
pub fn beyond(t: Corners, corner: u8, p: GridPoint) -> Sign
    requires { corner < 4 }
    ensures { IsSignOf result (neg_ℤ (side (opposite_face t corner) p)) }
{
    match corner {
        0 => orient(t.b, t.c, t.d, p),
        1 => orient(t.a, t.d, t.c, p),
        2 => orient(t.a, t.b, t.d, p),
        _ => orient(t.a, t.c, t.b, p),
    }
}

/// The coordinate of a rational point, or of one near the grid, less that of a grid point, times
/// the denominator, which is at most a million.
#[inline]
pub fn scaled_difference(a: i32, x: i64, w: i64) -> i64
    requires a_small { unsigned_abs a ≤ 2 ^ 29 }
    requires w_small { unsigned_abs w ≤ 1000000 }
    requires x_small { unsigned_abs x ≤ 536870913 * unsigned_abs w }
    ensures value { result ≡ x -ℤ a *ℤ w }
    ensures size { unsigned_abs result ≤ 2 ^ 50 }
{
    x - a as i64 * w
}

/// `w` times six times the signed volume of the tetrahedron `a b c x`. With coordinates of `x` up
/// to `(2^29 + 1) * w` and `w` up to `10^6`, the scaled differences are below `2^50`, the minors at
/// most `2^61`, and the sum below `2^113`.
#[inline]
fn orient_rat_sum(a: GridPoint, b: GridPoint, c: GridPoint, x: RatPoint) -> i128
    ensures { result ≡ orient_rational a b c x }
{
    det_with(
        from_to(a, b),
        from_to(a, c),
        scaled_difference(a.x, x.x, x.w),
        scaled_difference(a.y, x.y, x.w),
        scaled_difference(a.z, x.z, x.w),
    )
}

/// On which side of the plane through `a`, `b` and `c` the rational point `x` lies, as `orient` for
/// a grid point. The sum is that of `orient` times `w`. It stays within 128 bits: `w` is at most
/// `10^6` and the coordinates of `x` at most `(2^29 + 1) * w` in size, so that the sum is below
/// `2^113`.
#[inline]
pub fn orient_rat(a: GridPoint, b: GridPoint, c: GridPoint, x: RatPoint) -> Sign
    ensures { IsSignOf result (orient_rational a b c x) }
{
    sign_of(orient_rat_sum(a, b, c, x))
}

/// How the positive tetrahedron `t` holds the rational point `x`: strictly inside all four faces,
/// outside one of them, or neither.
#[inline]
pub fn in_tet(t: Corners, x: RatPoint) -> Hold
    ensures inside { (result ≡ Hold.Inside) ↔ StrictlyInside t x }
    ensures outside { (result ≡ Hold.Outside) ↔ ¬ InClosed t x }
{
    let a = orient_rat(t.b, t.d, t.c, x);
    if matches!(a, Sign::Below) {
        return Hold::Outside;
    }
    let b = orient_rat(t.a, t.c, t.d, x);
    if matches!(b, Sign::Below) {
        return Hold::Outside;
    }
    let c = orient_rat(t.a, t.d, t.b, x);
    if matches!(c, Sign::Below) {
        return Hold::Outside;
    }
    match least_sign(
        least_sign(a, b),
        least_sign(c, orient_rat(t.a, t.b, t.c, x)),
    ) {
        Sign::Below => Hold::Outside,
        Sign::Zero => Hold::Touching,
        Sign::Above => Hold::Inside,
    }
}

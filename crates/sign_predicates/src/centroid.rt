//! Signs at the centroid of a tetrahedron, which is taken four times over: the sum of the corners.
ghost use Rattle.std.specs.Prelude.{◌≡◌, ◌^◌, ◌≤◌, ◌+ℤ◌, ◌-ℤ◌, ◌*ℤ◌, unsigned_abs, pos};
ghost use Rattle.sign_predicates.specs.Orientation.{orient_rational, normal};
ghost use Rattle.sign_predicates.specs.Meeting.{triangle_of};
ghost use Rattle.sign_predicates.specs.Turns.{turn};
ghost use Rattle.sign_predicates.specs.Centroid.{centroid, turn_rational, IsFirstSignOf};
ghost use Rattle.sign_predicates.specs.Sign.{IsSignOf};

use crate::meeting::turn;
use crate::sign::sign_of;
use crate::vector::{Normal, cross, det_with, first_sign, from_to, triple};
use crate::{Corners, GridPoint, Sign};

/// A coordinate of the sum of four points, less four times that of another.
#[inline]
fn four_times(a: i32, p: i32, q: i32, r: i32, s: i32) -> i64
    requires a_small { unsigned_abs a ≤ 2 ^ 29 }
    requires p_small { unsigned_abs p ≤ 2 ^ 29 }
    requires q_small { unsigned_abs q ≤ 2 ^ 29 }
    requires r_small { unsigned_abs r ≤ 2 ^ 29 }
    requires s_small { unsigned_abs s ≤ 2 ^ 29 }
    ensures value { result ≡ p +ℤ q +ℤ r +ℤ s -ℤ a *ℤ pos 4 }
    ensures size { unsigned_abs result ≤ 2 ^ 32 }
{
    p as i64 + q as i64 + r as i64 + s as i64 - a as i64 * 4
}

/// Four times six times the signed volume of the tetrahedron of three points and the centroid.
#[inline]
fn orient_centroid_sum(a: GridPoint, b: GridPoint, c: GridPoint, t: &Corners) -> i128
    ensures { result ≡ orient_rational a b c (centroid t.now) }
{
    let p = t.a;
    let q = t.b;
    let r = t.c;
    let s = t.d;
    det_with(
        from_to(a, b),
        from_to(a, c),
        four_times(a.x, p.x, q.x, r.x, s.x),
        four_times(a.y, p.y, q.y, r.y, s.y),
        four_times(a.z, p.z, q.z, r.z, s.z),
    )
}

/// On which side of the plane through `a`, `b` and `c` the centroid of `t` lies. The sum is that of
/// `orient` four times over, below `2^78` in size.
#[inline]
pub fn orient_centroid(a: GridPoint, b: GridPoint, c: GridPoint, t: &Corners) -> Sign
    ensures { IsSignOf result (orient_rational a b c (centroid t.now)) }
{
    sign_of(orient_centroid_sum(a, b, c, t))
}

/// Twice the area of the triangle of `q`, `r` and the centroid, four times over, with its sign as
/// seen against the direction `n`, times the length of `n`.
#[inline]
fn turn_centroid_sum(n: Normal, q: GridPoint, r: GridPoint, t: &Corners) -> i128
    ensures { result ≡ turn_rational n q r (centroid t.now) }
{
    let i = t.a;
    let j = t.b;
    let k = t.c;
    let l = t.d;
    triple(
        n,
        from_to(q, r),
        four_times(q.x, i.x, j.x, k.x, l.x),
        four_times(q.y, i.y, j.y, k.y, l.y),
        four_times(q.z, i.z, j.z, k.z, l.z),
    )
}

/// Which way from `q` over `r` to the centroid of `t` turns, as seen against the normal of the
/// triangle `a b c`: `Above` where it turns counterclockwise. The sum is at most `3 * 2^124` in
/// size.
#[inline]
pub fn turn_centroid(
    a: GridPoint,
    b: GridPoint,
    c: GridPoint,
    q: GridPoint,
    r: GridPoint,
    t: &Corners,
) -> Sign
    ensures { IsSignOf result (turn_rational (normal (triangle_of a b c)) q r (centroid t.now)) }
{
    sign_of(turn_centroid_sum(cross(from_to(a, b), from_to(a, c)), q, r, t))
}

/// Which way from `q` over `r` to `p` turns, as seen against the normal of the triangle `a b c`.
#[inline]
pub fn turn_sign(
    a: GridPoint,
    b: GridPoint,
    c: GridPoint,
    q: GridPoint,
    r: GridPoint,
    p: GridPoint,
) -> Sign
    ensures { IsSignOf result (turn (normal (triangle_of a b c)) q r p) }
{
    sign_of(turn(cross(from_to(a, b), from_to(a, c)), q, r, p))
}

/// The sign of the first coordinate of the triangle's normal that is not 0, or of the last one.
#[inline]
pub fn normal_sign(a: GridPoint, b: GridPoint, c: GridPoint) -> Sign
    ensures { IsFirstSignOf result (normal (triangle_of a b c)) }
{
    first_sign(cross(from_to(a, b), from_to(a, c)))
}

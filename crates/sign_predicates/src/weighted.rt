//! The sphere test of weighted points, with ties by the points' numbers.
ghost use Rattle.std.specs.Prelude.{◌≡◌, ◌*◌, ◌^◌, ◌≤◌, ◌+ℤ◌, ◌-ℤ◌, ◌*ℤ◌, unsigned_abs};
ghost use Rattle.sign_predicates.specs.Sphere.{square_length, HaveOneSign, AreHeights, total_size};
ghost use Rattle.sign_predicates.specs.Weighted.{IsWeight, AreWeights, in_weighted_sphere};
ghost use Rattle.sign_predicates.specs.Weighted.{weighted_sum, is_outside_weighted};

use crate::sign::{is_below, vanishes};
use crate::sphere::{Heights, sum_of_four};
use crate::volumes::wide_volumes;
use crate::{Corners, GridPoint, Numbers, Vector, from_to, wins_tie};

/// The weights of a tetrahedron's corners, in squares of grid units. Each is at most `2^46` in
/// size.
#[derive(Clone, Copy, Debug, PartialEq, Eq)]
pub struct FourWeights {
    pub a: i64,
    pub b: i64,
    pub c: i64,
    pub d: i64,
}

/// The sum of three squares and the difference of two weights.
fn raised_squares(x: i32, y: i32, z: i32, own: i64, other: i64) -> i64
    requires x_small { unsigned_abs x ≤ 2 ^ 30 }
    requires y_small { unsigned_abs y ≤ 2 ^ 30 }
    requires z_small { unsigned_abs z ≤ 2 ^ 30 }
    requires own_small { IsWeight own }
    requires other_small { IsWeight other }
    ensures value { result ≡ x *ℤ x +ℤ y *ℤ y +ℤ z *ℤ z -ℤ own +ℤ other }
    ensures size { unsigned_abs result ≤ 7 * 2 ^ 59 }
{
    x as i64 * x as i64 + y as i64 * y as i64 + z as i64 * z as i64 - own + other
}

/// How much higher a corner is lifted than a point: the squared length of the vector between them,
/// less the weight of the corner, and the weight of the point.
fn rise(v: Vector, own: i64, other: i64) -> i64
    requires own_small { IsWeight own }
    requires other_small { IsWeight other }
    ensures value { result ≡ square_length v -ℤ own +ℤ other }
    ensures size { unsigned_abs result ≤ 7 * 2 ^ 59 }
{
    raised_squares(v.x, v.y, v.z, own, other)
}

/// The sizes of four heights together.
fn total_size(h: Heights) -> u64
    requires { AreHeights h }
    ensures { result ≡ total_size h }
{
    h.a.unsigned_abs() + h.b.unsigned_abs() + h.c.unsigned_abs() + h.d.unsigned_abs()
}

/// A number of the sign of the sum at the vectors from the point to the corners.
fn weighted_sum(a: Vector, b: Vector, c: Vector, d: Vector, w: FourWeights, own: i64) -> i128
    requires weights { AreWeights w }
    requires weight { IsWeight own }
    ensures { HaveOneSign result (weighted_sum a b c d w own) }
{
    let h = Heights {
        a: rise(a, w.a, own),
        b: rise(b, w.b, own),
        c: rise(c, w.c, own),
        d: rise(d, w.d, own),
    };
    sum_of_four(h, total_size(h), wide_volumes(a, b, c, d))
}

/// A number whose sign says where the weighted point `p` lies: below 0 outside of the sphere that
/// is orthogonal to the corners, 0 on it.
fn in_weighted_sphere(t: Corners, w: FourWeights, p: GridPoint, pw: i64) -> i128
    requires weights { AreWeights w }
    requires weight { IsWeight pw }
    ensures { HaveOneSign result (in_weighted_sphere t w p pw) }
{
    weighted_sum(
        from_to(p, t.a),
        from_to(p, t.b),
        from_to(p, t.c),
        from_to(p, t.d),
        w,
        pw,
    )
}

/// Whether `p`, with the number `m` and the weight `pw`, is weighted outside of the positive
/// tetrahedron `t`, whose corners have the numbers `n` and the weights `w`: it is above the plane
/// through the corners, where each point is lifted by its squared length less its weight. On that
/// plane the points decide by rising number, as for `outside`. The five numbers differ, and the
/// weights are at most `2^46` in size. It takes no memory.
///
/// Source: power diagrams (Aurenhammer 1987), regular triangulations (Edelsbrunner and Shah 1996).
pub fn outside_weighted(
    t: Corners,
    w: FourWeights,
    n: Numbers,
    p: GridPoint,
    pw: i64,
    m: u32,
) -> bool
    requires weights { AreWeights w }
    requires weight { IsWeight pw }
    ensures { result ≡ is_outside_weighted t w n p pw m }
{
    let sum = in_weighted_sphere(t, w, p, pw);
    if vanishes(sum) {
        return wins_tie(&t, n, p, m);
    }
    is_below(sum)
}

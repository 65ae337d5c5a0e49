//! Whether a point is outside of the sphere through the corners of a positive tetrahedron.
ghost use Rattle.std.specs.Prelude.{◌≡◌, ◌*◌, ◌^◌, ◌≤◌, ◌+ℤ◌, ◌-ℤ◌, ◌*ℤ◌, unsigned_abs};
ghost use Rattle.sign_predicates.specs.Sphere.{in_sphere, least_of, wins_tie, is_outside};
ghost use Rattle.sign_predicates.specs.Sphere.{IsTieBySides, HaveOneSign, in_parts, squares, AreGridSquares};
ghost use Rattle.sign_predicates.specs.Sphere.{AreHeights, total_size, lifted_sum};
ghost use Rattle.sign_predicates.specs.Volumes.{AreWideVolumes};
ghost use Rattle.sign_predicates.specs.Vector.{IsShort, sphere_sum};

use crate::sign::{is_above, is_below, vanishes};
use crate::vector::{Vector, are_short, from_to, square_length};
use crate::volumes::{WideVolumes, short_volumes, wide_volumes};
use crate::{Corners, GridPoint, Numbers};

/// It is above each number of a point.
const NO_NUMBER: u64 = 1 << 32;

/// Four products with alternating signs. A height is a square, or a square and two weights, and a
/// factor a determinant of short vectors, or a part of one. The sum is at most `84 * 2^120` in
/// size.
#[inline]
pub(crate) fn short_sum_of_four(
    a: i64,
    p: i64,
    b: i64,
    q: i64,
    c: i64,
    r: i64,
    d: i64,
    s: i64,
) -> i128
    requires a_small { unsigned_abs a ≤ 7 * 2 ^ 59 }
    requires b_small { unsigned_abs b ≤ 7 * 2 ^ 59 }
    requires c_small { unsigned_abs c ≤ 7 * 2 ^ 59 }
    requires d_small { unsigned_abs d ≤ 7 * 2 ^ 59 }
    requires p_small { unsigned_abs p ≤ 3 * 2 ^ 61 }
    requires q_small { unsigned_abs q ≤ 3 * 2 ^ 61 }
    requires r_small { unsigned_abs r ≤ 3 * 2 ^ 61 }
    requires s_small { unsigned_abs s ≤ 3 * 2 ^ 61 }
    ensures value { result ≡ a *ℤ p -ℤ b *ℤ q +ℤ c *ℤ r -ℤ d *ℤ s }
    ensures size { unsigned_abs result ≤ 84 * 2 ^ 120 }
{
    a as i128 * p as i128 - b as i128 * q as i128 + c as i128 * r as i128 - d as i128 * s as i128
}

/// A determinant in two parts, `high * 2^48 + low`, where the low part has 48 bits and no sign.
#[derive(Clone, Copy)]
struct TwoParts {
    high: i64,
    low: i64,
}

/// The determinant in two parts.
#[inline(always)]
fn split(p: i128) -> TwoParts
    requires { unsigned_abs p ≤ 3 * 2 ^ 91 }
    ensures value { in_parts result.high result.low ≡ p }
    ensures high { unsigned_abs result.high ≤ 3 * 2 ^ 61 }
    ensures low { unsigned_abs result.low ≤ 2 ^ 48 }
{
    let high = p >> 48;
    TwoParts {
        high: high as i64,
        low: (p - high * (1 << 48)) as i64,
    }
}

/// A number of the sign of `high * 2^48 + low`.
#[inline(always)]
fn folded(high: i128, low: i128) -> i128
    requires high_small { unsigned_abs high ≤ 84 * 2 ^ 120 }
    requires low_small { unsigned_abs low ≤ 84 * 2 ^ 120 }
    ensures { HaveOneSign result (in_parts high low) }
{
    let carry = low >> 48;
    let above = high + carry;
    if vanishes(above) {
        low - carry * (1 << 48)
    } else {
        above
    }
}

/// How much higher each corner of a tetrahedron is lifted than a point.
#[derive(Clone, Copy)]
pub(crate) struct Heights {
    pub(crate) a: i64,
    pub(crate) b: i64,
    pub(crate) c: i64,
    pub(crate) d: i64,
}

/// A number of the sign of the products of heights and determinants, with alternating signs. Their
/// sum takes up to 157 bits, and is made in two parts.
#[inline(never)]
fn sum_in_parts(h: Heights, v: WideVolumes) -> i128
    requires heights { AreHeights h }
    requires volumes { AreWideVolumes v }
    ensures { HaveOneSign result (lifted_sum h v) }
{
    let p = split(v.a);
    let q = split(v.b);
    let r = split(v.c);
    let s = split(v.d);
    let high = short_sum_of_four(h.a, p.high, h.b, q.high, h.c, r.high, h.d, s.high);
    let low = short_sum_of_four(h.a, p.low, h.b, q.low, h.c, r.low, h.d, s.low);
    folded(high, low)
}

/// A number of the sign of the products of heights and determinants, with alternating signs, where
/// the heights are at most `reach` together. The lower part of their sum is at most `2^48 * reach`,
/// so that the upper part has the sign where it is over `reach`.
#[inline]
pub(crate) fn sum_of_four(h: Heights, reach: u64, v: WideVolumes) -> i128
    requires heights { AreHeights h }
    requires reach { total_size h ≤ reach }
    requires volumes { AreWideVolumes v }
    ensures { HaveOneSign result (lifted_sum h v) }
{
    let p = split(v.a);
    let q = split(v.b);
    let r = split(v.c);
    let s = split(v.d);
    let high = short_sum_of_four(h.a, p.high, h.b, q.high, h.c, r.high, h.d, s.high);
    if high.unsigned_abs() > u128::from(reach) {
        return high;
    }
    sum_in_parts(h, v)
}

/// The squares of the lengths of four vectors.
#[inline(always)]
fn squares_of(a: Vector, b: Vector, c: Vector, d: Vector) -> Heights
    ensures value { result ≡ squares a b c d }
    ensures size { AreGridSquares result }
{
    Heights {
        a: square_length(a),
        b: square_length(b),
        c: square_length(c),
        d: square_length(d),
    }
}

/// The sum of four squares of lengths.
#[inline(always)]
fn total_of(h: Heights) -> u64
    requires { AreGridSquares h }
    ensures { result ≡ total_size h }
{
    h.a as u64 + h.b as u64 + h.c as u64 + h.d as u64
}

/// The sphere's sum at short vectors.
#[inline(always)]
fn short_sphere_sum(a: Vector, b: Vector, c: Vector, d: Vector) -> i128
    requires a_short { IsShort a }
    requires b_short { IsShort b }
    requires c_short { IsShort c }
    requires d_short { IsShort d }
    ensures { result ≡ sphere_sum a b c d }
{
    let s = squares_of(a, b, c, d);
    let v = short_volumes(a, b, c, d);
    short_sum_of_four(s.a, v.a, s.b, v.b, s.c, v.c, s.d, v.d)
}

/// A number of the sign of the sphere's sum at any vectors, with its determinants in 128 bits.
#[inline(always)]
fn long_sphere_sum(a: Vector, b: Vector, c: Vector, d: Vector) -> i128
    ensures { HaveOneSign result (sphere_sum a b c d) }
{
    let s = squares_of(a, b, c, d);
    sum_of_four(s, total_of(s), wide_volumes(a, b, c, d))
}

/// A number of the sign of the sphere's sum at the vectors from the point to the corners. Where
/// they are short, its determinants fit 64 bits.
#[inline(always)]
fn sphere_sum(a: Vector, b: Vector, c: Vector, d: Vector) -> i128
    ensures { HaveOneSign result (sphere_sum a b c d) }
{
    if are_short(a, b, c, d) {
        short_sphere_sum(a, b, c, d)
    } else {
        long_sphere_sum(a, b, c, d)
    }
}

/// A number whose sign says where `e` lies: below 0 outside of the sphere, 0 on it.
#[inline(always)]
pub(crate) fn in_sphere(t: Corners, e: GridPoint) -> i128
    ensures { HaveOneSign result (in_sphere t e) }
{
    sphere_sum(
        from_to(e, t.a),
        from_to(e, t.b),
        from_to(e, t.c),
        from_to(e, t.d),
    )
}

/// The lesser of the two numbers, or the second where the first doesn't count.
#[inline]
fn least_of(counts: bool, number: u64, least: u64) -> u64
    ensures { result ≡ least_of counts number least }
{
    if counts && number < least {
        number
    } else {
        least
    }
}

/// Whether a point on the sphere is outside, by the rule of `outside`: the least number for outside
/// against the least one for inside. `a` is above 0 where the point is on the first corner's side
/// of the face opposite that corner, and below 0 where it is beyond; so the next three.
#[inline(always)]
pub(crate) fn wins_by_sides(a: i128, b: i128, c: i128, d: i128, n: Numbers, m: u32) -> bool
    ensures { IsTieBySides result a b c d n m }
{
    let across = least_of(is_below(d), n.d as u64, m as u64);
    let across = least_of(is_below(c), n.c as u64, across);
    let across = least_of(is_below(b), n.b as u64, across);
    let across = least_of(is_below(a), n.a as u64, across);
    let alongside = least_of(is_above(d), n.d as u64, NO_NUMBER);
    let alongside = least_of(is_above(c), n.c as u64, alongside);
    let alongside = least_of(is_above(b), n.b as u64, alongside);
    let alongside = least_of(is_above(a), n.a as u64, alongside);
    across < alongside
}

/// Whether a point on the sphere through the corners of the positive tetrahedron `t` is outside, by
/// the rule of `outside`: the least number for outside against the least one for inside.
pub fn wins_tie(t: &Corners, n: Numbers, p: GridPoint, m: u32) -> bool
    ensures { result ≡ wins_tie t.now n p m }
{
    let v = wide_volumes(
        from_to(p, t.a),
        from_to(p, t.b),
        from_to(p, t.c),
        from_to(p, t.d),
    );
    wins_by_sides(v.a, -v.b, v.c, -v.d, n, m)
}

/// As `wins_tie`, with the corners by value, so that they have to lie in memory only in a tie.
#[inline(never)]
fn wins_tie_at(t: Corners, n: Numbers, p: GridPoint, m: u32) -> bool
    ensures { result ≡ wins_tie t n p m }
{
    wins_tie(&t, n, p, m)
}

/// Whether `p`, with the number `m`, is outside of the positive tetrahedron `t`, whose corners have
/// the numbers `n`. The five numbers differ. Outside is strictly outside of the sphere through the
/// corners. On the sphere the points decide by rising number: `p` itself for outside; a corner for
/// outside where `p` is strictly beyond the face opposite that corner, against it where `p` is
/// strictly on the corner's side of that face, and not at all where `p` lies on that face's plane.
/// It is the rule of points lifted by heights that differ by indicators, and so the Delaunay
/// tetrahedra of any points are determined.
#[inline(always)]
pub fn outside(t: Corners, n: Numbers, p: GridPoint, m: u32) -> bool
    ensures { result ≡ is_outside t n p m }
{
    let Corners { a, b, c, d } = t;
    let sum = in_sphere(Corners { a, b, c, d }, p);
    if vanishes(sum) {
        return wins_tie_at(Corners { a, b, c, d }, n, p, m);
    }
    is_below(sum)
}

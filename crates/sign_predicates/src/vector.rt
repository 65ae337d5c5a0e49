//! Vectors between points of the grid, and the exact products of them that the predicates sum.
ghost use Rattle.std.specs.Prelude.{◌≡◌, ◌+◌, ◌*◌, ◌^◌, ◌<◌, ◌≤◌, ◌+ℤ◌, ◌-ℤ◌, ◌*ℤ◌, unsigned_abs, IsTrue, ◌↔◌, pos, ◌≤ℤ◌};
ghost use Rattle.sign_predicates.specs.Point.{from_to};
ghost use Rattle.sign_predicates.specs.Orientation.{det, dot, cross};
ghost use Rattle.sign_predicates.specs.Turns.{IsZeroVector};
ghost use Rattle.sign_predicates.specs.Centroid.{IsFirstSignOf};
ghost use Rattle.sign_predicates.specs.Sphere.{square_length};
ghost use Rattle.sign_predicates.specs.Vector.{IsShort, det_of_two, minor};

use crate::sign::sign_of;
use crate::{GridPoint, Sign};
use std::marker::Model;

/// The vector from one grid point to another. Each coordinate is at most `2^30` in size.
#[derive(Clone, Copy)]
pub struct Vector {
    pub x: i32,
    pub y: i32,
    pub z: i32,
}

impl Model for Vector {
    ghost use Rattle.sign_predicates.specs.Point.{Point};
    ghost use Rattle.sign_predicates.specs.Vector.{IsGridVector};

    ghost Value = { Point };

    ghost view = { λ v. record { x = v.x; y = v.y; z = v.z } };

    ghost invariant = { λ v. IsGridVector (record { x = v.x; y = v.y; z = v.z }) };

    ghost inverse = { λ v. record { x = v.x; y = v.y; z = v.z } };
}

/// The vector from `a` to `b`.
#[inline]
pub fn from_to(a: GridPoint, b: GridPoint) -> Vector
    ensures { result ≡ from_to a b }
{
    Vector {
        x: b.x - a.x,
        y: b.y - a.y,
        z: b.z - a.z,
    }
}

/// The bits of a coordinate raised by `2^20`.
#[inline(always)]
fn raised(x: i32) -> u32
    requires { unsigned_abs x ≤ 2 ^ 30 }
    ensures { result < 2 ^ 21 → unsigned_abs x ≤ 2 ^ 20 }
{
    (x + (1 << 20)).cast_unsigned()
}

/// The bits of the coordinates, each raised by `2^20`: those from `-2^20` to below `2^20` have at
/// most 21 bits.
#[inline(always)]
fn raised_bits(v: Vector) -> u32
    ensures { result < 2 ^ 21 → IsShort v }
{
    raised(v.x) | raised(v.y) | raised(v.z)
}

/// Whether the coordinates of all four are from `-2^20` to below `2^20`.
#[inline(always)]
pub(crate) fn are_short(a: Vector, b: Vector, c: Vector, d: Vector) -> bool
    ensures a { IsTrue result → IsShort a }
    ensures b { IsTrue result → IsShort b }
    ensures c { IsTrue result → IsShort c }
    ensures d { IsTrue result → IsShort d }
{
    raised_bits(a) | raised_bits(b) | raised_bits(c) | raised_bits(d) < 1 << 21
}

/// The determinant of the rows `a b` and `c d`.
#[inline]
fn det_of_two(a: i32, b: i32, c: i32, d: i32) -> i64
    requires a_small { unsigned_abs a ≤ 2 ^ 30 }
    requires b_small { unsigned_abs b ≤ 2 ^ 30 }
    requires c_small { unsigned_abs c ≤ 2 ^ 30 }
    requires d_small { unsigned_abs d ≤ 2 ^ 30 }
    ensures value { result ≡ det_of_two a b c d }
    ensures size { unsigned_abs result ≤ 2 ^ 61 }
    ensures short { unsigned_abs a ≤ 2 ^ 20 → unsigned_abs b ≤ 2 ^ 20 → unsigned_abs c ≤ 2 ^ 20
        → unsigned_abs d ≤ 2 ^ 20 → unsigned_abs result ≤ 2 ^ 41 }
{
    a as i64 * d as i64 - b as i64 * c as i64
}

/// The minor of the first two coordinates.
#[inline]
pub(crate) fn minor(u: Vector, v: Vector) -> i64
    ensures value { result ≡ minor u v }
    ensures size { unsigned_abs result ≤ 2 ^ 61 }
    ensures short { IsShort u → IsShort v → unsigned_abs result ≤ 2 ^ 41 }
{
    det_of_two(u.x, u.y, v.x, v.y)
}

/// The sum of three squares.
#[inline]
pub(crate) fn sum_of_squares(x: i32, y: i32, z: i32) -> i64
    requires x_small { unsigned_abs x ≤ 2 ^ 30 }
    requires y_small { unsigned_abs y ≤ 2 ^ 30 }
    requires z_small { unsigned_abs z ≤ 2 ^ 30 }
    ensures value { result ≡ x *ℤ x +ℤ y *ℤ y +ℤ z *ℤ z }
    ensures size { unsigned_abs result ≤ 3 * 2 ^ 60 }
{
    x as i64 * x as i64 + y as i64 * y as i64 + z as i64 * z as i64
}

/// The square of the vector's length.
#[inline]
pub(crate) fn square_length(v: Vector) -> i64
    ensures value { result ≡ square_length v }
    ensures size { unsigned_abs result ≤ 3 * 2 ^ 60 }
    ensures above { pos 0 ≤ℤ result }
{
    sum_of_squares(v.x, v.y, v.z)
}

/// Three products of a minor and a number, with alternating signs.
#[inline]
fn sum_of_three(a: i64, x: i64, b: i64, y: i64, c: i64, z: i64) -> i128
    requires a_small { unsigned_abs a ≤ 2 ^ 61 }
    requires b_small { unsigned_abs b ≤ 2 ^ 61 }
    requires c_small { unsigned_abs c ≤ 2 ^ 61 }
    requires x_small { unsigned_abs x ≤ 2 ^ 50 }
    requires y_small { unsigned_abs y ≤ 2 ^ 50 }
    requires z_small { unsigned_abs z ≤ 2 ^ 50 }
    ensures value { result ≡ a *ℤ x -ℤ b *ℤ y +ℤ c *ℤ z }
    ensures size { unsigned_abs result
        ≤ 2 ^ 61 * (unsigned_abs x + unsigned_abs y + unsigned_abs z) }
{
    a as i128 * x as i128 - b as i128 * y as i128 + c as i128 * z as i128
}

/// The determinant of `u`, `v` and the vector `(x, y, z)`.
#[inline]
pub(crate) fn det_with(u: Vector, v: Vector, x: i64, y: i64, z: i64) -> i128
    requires x_small { unsigned_abs x ≤ 2 ^ 50 }
    requires y_small { unsigned_abs y ≤ 2 ^ 50 }
    requires z_small { unsigned_abs z ≤ 2 ^ 50 }
    ensures { result ≡ det u v (record { x = x; y = y; z = z }) }
{
    sum_of_three(
        det_of_two(u.y, u.z, v.y, v.z),
        x,
        det_of_two(u.x, u.z, v.x, v.z),
        y,
        det_of_two(u.x, u.y, v.x, v.y),
        z,
    )
}

/// The determinant of three vectors.
#[inline]
pub(crate) fn det(u: Vector, v: Vector, w: Vector) -> i128
    ensures { result ≡ det u v w }
{
    det_with(u, v, w.x as i64, w.y as i64, w.z as i64)
}

/// The determinant of three vectors, by the minors of each two of them.
#[inline]
pub(crate) fn det_of_minors(u: Vector, v: Vector, w: Vector, vw: i64, uw: i64, uv: i64) -> i128
    requires vw_is { vw ≡ minor v w }
    requires uw_is { uw ≡ minor u w }
    requires uv_is { uv ≡ minor u v }
    requires vw_small { unsigned_abs vw ≤ 2 ^ 61 }
    requires uw_small { unsigned_abs uw ≤ 2 ^ 61 }
    requires uv_small { unsigned_abs uv ≤ 2 ^ 61 }
    ensures value { result ≡ det u v w }
    ensures size { unsigned_abs result ≤ 3 * 2 ^ 91 }
{
    sum_of_three(vw, u.z as i64, uw, v.z as i64, uv, w.z as i64)
}

/// Three products of a minor and a number, with alternating signs, in 64 bits.
#[inline]
fn short_sum_of_three(a: i64, x: i64, b: i64, y: i64, c: i64, z: i64) -> i64
    requires a_small { unsigned_abs a ≤ 2 ^ 41 }
    requires b_small { unsigned_abs b ≤ 2 ^ 41 }
    requires c_small { unsigned_abs c ≤ 2 ^ 41 }
    requires x_small { unsigned_abs x ≤ 2 ^ 20 }
    requires y_small { unsigned_abs y ≤ 2 ^ 20 }
    requires z_small { unsigned_abs z ≤ 2 ^ 20 }
    ensures value { result ≡ a *ℤ x -ℤ b *ℤ y +ℤ c *ℤ z }
    ensures size { unsigned_abs result ≤ 3 * 2 ^ 61 }
{
    a * x - b * y + c * z
}

/// The determinant of three short vectors, by the minors of each two of them.
#[inline]
pub(crate) fn short_det_of_minors(u: Vector, v: Vector, w: Vector, vw: i64, uw: i64, uv: i64) -> i64
    requires u_short { IsShort u }
    requires v_short { IsShort v }
    requires w_short { IsShort w }
    requires vw_is { vw ≡ minor v w }
    requires uw_is { uw ≡ minor u w }
    requires uv_is { uv ≡ minor u v }
    requires vw_small { unsigned_abs vw ≤ 2 ^ 41 }
    requires uw_small { unsigned_abs uw ≤ 2 ^ 41 }
    requires uv_small { unsigned_abs uv ≤ 2 ^ 41 }
    ensures value { result ≡ det u v w }
    ensures size { unsigned_abs result ≤ 3 * 2 ^ 61 }
{
    short_sum_of_three(vw, u.z as i64, uw, v.z as i64, uv, w.z as i64)
}

/// A vector at right angles to two others, their cross product. Each coordinate is at most `2^61`
/// in size.
#[derive(Clone, Copy)]
pub(crate) struct Normal {
    pub(crate) x: i64,
    pub(crate) y: i64,
    pub(crate) z: i64,
}

impl Model for Normal {
    ghost use Rattle.sign_predicates.specs.Point.{Point};
    ghost use Rattle.sign_predicates.specs.Vector.{IsSmallNormal};

    ghost Value = { Point };

    ghost view = { λ v. record { x = v.x; y = v.y; z = v.z } };

    ghost invariant = { λ v. IsSmallNormal (record { x = v.x; y = v.y; z = v.z }) };

    ghost inverse = { λ v. record { x = v.x; y = v.y; z = v.z } };
}

/// The cross product.
#[inline]
pub(crate) fn cross(u: Vector, v: Vector) -> Normal
    ensures { result ≡ cross u v }
{
    Normal {
        x: det_of_two(u.y, u.z, v.y, v.z),
        y: det_of_two(u.z, u.x, v.z, v.x),
        z: det_of_two(u.x, u.y, v.x, v.y),
    }
}

/// Whether all coordinates are 0: the two vectors were parallel.
#[inline]
pub(crate) fn is_zero(n: Normal) -> bool
    ensures { IsTrue result ↔ IsZeroVector n }
{
    n.x == 0 && n.y == 0 && n.z == 0
}

/// The sum of three products.
#[inline]
fn sum_of_products(a: i64, x: i64, b: i64, y: i64, c: i64, z: i64) -> i128
    requires a_small { unsigned_abs a ≤ 2 ^ 61 }
    requires b_small { unsigned_abs b ≤ 2 ^ 61 }
    requires c_small { unsigned_abs c ≤ 2 ^ 61 }
    requires x_small { unsigned_abs x ≤ 2 ^ 61 }
    requires y_small { unsigned_abs y ≤ 2 ^ 61 }
    requires z_small { unsigned_abs z ≤ 2 ^ 61 }
    ensures { result ≡ a *ℤ x +ℤ b *ℤ y +ℤ c *ℤ z }
{
    a as i128 * x as i128 + b as i128 * y as i128 + c as i128 * z as i128
}

/// The scalar product of two cross products. It is at most `3 * 2^122` in size.
#[inline]
pub(crate) fn dot_normals(n: Normal, m: Normal) -> i128
    ensures { result ≡ dot n m }
{
    sum_of_products(n.x, m.x, n.y, m.y, n.z, m.z)
}

/// The scalar product.
#[inline]
pub(crate) fn dot(u: Vector, v: Vector) -> i128
    ensures { result ≡ dot u v }
{
    sum_of_products(
        u.x as i64, v.x as i64, u.y as i64, v.y as i64, u.z as i64, v.z as i64,
    )
}

/// The determinant of three vectors, of which the first may be a normal and the last four times as
/// long as one between grid points.
#[inline]
fn triple_of(n: i64, o: i64, p: i64, u: i64, v: i64, w: i64, x: i64, y: i64, z: i64) -> i128
    requires n_small { unsigned_abs n ≤ 2 ^ 61 }
    requires o_small { unsigned_abs o ≤ 2 ^ 61 }
    requires p_small { unsigned_abs p ≤ 2 ^ 61 }
    requires u_small { unsigned_abs u ≤ 2 ^ 30 }
    requires v_small { unsigned_abs v ≤ 2 ^ 30 }
    requires w_small { unsigned_abs w ≤ 2 ^ 30 }
    requires x_small { unsigned_abs x ≤ 2 ^ 32 }
    requires y_small { unsigned_abs y ≤ 2 ^ 32 }
    requires z_small { unsigned_abs z ≤ 2 ^ 32 }
    ensures { result ≡ n *ℤ (v *ℤ z -ℤ w *ℤ y) +ℤ o *ℤ (w *ℤ x -ℤ u *ℤ z)
        +ℤ p *ℤ (u *ℤ y -ℤ v *ℤ x) }
{
    n as i128 * (v as i128 * z as i128 - w as i128 * y as i128)
        + o as i128 * (w as i128 * x as i128 - u as i128 * z as i128)
        + p as i128 * (u as i128 * y as i128 - v as i128 * x as i128)
}

/// The scalar product of a normal and the cross product of two vectors, of which the second may be
/// four times as long as one between grid points. It is at most `3 * 2^124` in size.
#[inline]
pub(crate) fn triple(n: Normal, u: Vector, x: i64, y: i64, z: i64) -> i128
    requires x_small { unsigned_abs x ≤ 2 ^ 32 }
    requires y_small { unsigned_abs y ≤ 2 ^ 32 }
    requires z_small { unsigned_abs z ≤ 2 ^ 32 }
    ensures { result ≡ dot n (cross u (record { x = x; y = y; z = z })) }
{
    triple_of(n.x, n.y, n.z, u.x as i64, u.y as i64, u.z as i64, x, y, z)
}

/// The sign of the first number that is not 0, or of the last one.
#[inline]
fn first_of(x: i64, y: i64, z: i64) -> Sign
    requires x_small { unsigned_abs x ≤ 2 ^ 61 }
    requires y_small { unsigned_abs y ≤ 2 ^ 61 }
    requires z_small { unsigned_abs z ≤ 2 ^ 61 }
    ensures { IsFirstSignOf result (record { x = x; y = y; z = z }) }
{
    if x != 0 {
        sign_of(x as i128)
    } else if y != 0 {
        sign_of(y as i128)
    } else {
        sign_of(z as i128)
    }
}

/// The sign of the first coordinate that is not 0, or of the last one.
#[inline]
pub(crate) fn first_sign(n: Normal) -> Sign
    ensures { IsFirstSignOf result n }
{
    first_of(n.x, n.y, n.z)
}

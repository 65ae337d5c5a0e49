//! Exact sums of products of vectors between points of the grid.
ghost use Rattle.std.specs.Prelude.{◌≡◌, ◌*◌, ◌^◌, ◌≤◌, ◌+ℤ◌, ◌-ℤ◌, ◌*ℤ◌, unsigned_abs};
ghost use Rattle.sign_predicates.specs.Orientation.{det, cross, dot};
ghost use Rattle.sign_predicates.specs.Sphere.{square_length};
ghost use Rattle.sign_predicates.specs.Vector.{det_of_two};
ghost use Rattle.sign_predicates.specs.Reach.{combined};

use sign_predicates::Vector;
use std::marker::Model;

/// A vector at right angles to two others, their cross product. Each coordinate is at most `2^61`
/// in size.
#[derive(Clone, Copy)]
pub(crate) struct Normal {
    pub(crate) x: i64,
    pub(crate) y: i64,
    pub(crate) z: i64,
}

impl Model for Normal {
    ghost use Rattle.sign_predicates.specs.Point.{Point};
    ghost use Rattle.tet_shapes.specs.Vector.{IsSmallNormal};

    ghost Value = { Point };

    ghost view = { λ v. record { x = v.x; y = v.y; z = v.z } };

    ghost invariant = { λ v. IsSmallNormal (record { x = v.x; y = v.y; z = v.z }) };

    ghost inverse = { λ v. record { x = v.x; y = v.y; z = v.z } };
}

/// A vector between two points as a longer one.
#[inline]
pub(crate) fn normal_of(v: Vector) -> Normal
    ensures { result ≡ v }
{
    Normal {
        x: i64::from(v.x),
        y: i64::from(v.y),
        z: i64::from(v.z),
    }
}

/// The determinant of the rows `a b` and `c d`.
#[inline]
fn det_of_two(a: i32, b: i32, c: i32, d: i32) -> i64
    requires a_small { unsigned_abs a ≤ 2 ^ 30 }
    requires b_small { unsigned_abs b ≤ 2 ^ 30 }
    requires c_small { unsigned_abs c ≤ 2 ^ 30 }
    requires d_small { unsigned_abs d ≤ 2 ^ 30 }
    ensures value { result ≡ det_of_two a b c d }
    ensures size { unsigned_abs result ≤ 2 ^ 61 }
{
    a as i64 * d as i64 - b as i64 * c as i64
}

/// The cross product.
#[inline]
pub(crate) fn cross(u: Vector, v: Vector) -> Normal
    ensures { result ≡ cross u v }
{
    Normal {
        x: det_of_two(u.y, u.z, v.y, v.z),
        y: det_of_two(u.z, u.x, v.z, v.x),
        z: det_of_two(u.x, u.y, v.x, v.y),
    }
}

/// The sum of three squares.
#[inline]
fn sum_of_squares(x: i32, y: i32, z: i32) -> i64
    requires x_small { unsigned_abs x ≤ 2 ^ 30 }
    requires y_small { unsigned_abs y ≤ 2 ^ 30 }
    requires z_small { unsigned_abs z ≤ 2 ^ 30 }
    ensures value { result ≡ x *ℤ x +ℤ y *ℤ y +ℤ z *ℤ z }
    ensures size { unsigned_abs result ≤ 3 * 2 ^ 60 }
{
    x as i64 * x as i64 + y as i64 * y as i64 + z as i64 * z as i64
}

/// The square of the vector's length.
#[inline]
pub(crate) fn square_length(v: Vector) -> i64
    ensures value { result ≡ square_length v }
    ensures size { unsigned_abs result ≤ 3 * 2 ^ 60 }
{
    sum_of_squares(v.x, v.y, v.z)
}

/// Three products of a square and a coordinate of a cross product, with alternating signs.
#[inline]
pub(crate) fn combined(k: i64, x: i64, m: i64, y: i64, n: i64, z: i64) -> i128
    requires k_small { unsigned_abs k ≤ 3 * 2 ^ 60 }
    requires m_small { unsigned_abs m ≤ 3 * 2 ^ 60 }
    requires n_small { unsigned_abs n ≤ 3 * 2 ^ 60 }
    requires x_small { unsigned_abs x ≤ 2 ^ 61 }
    requires y_small { unsigned_abs y ≤ 2 ^ 61 }
    requires z_small { unsigned_abs z ≤ 2 ^ 61 }
    ensures value { result ≡ combined k x m y n z }
    ensures size { unsigned_abs result ≤ 9 * 2 ^ 121 }
{
    k as i128 * x as i128 - m as i128 * y as i128 + n as i128 * z as i128
}

/// Three products of a coordinate of a cross product, or of a vector, and one of a vector.
#[inline]
fn sum_of_products(a: i64, x: i64, b: i64, y: i64, c: i64, z: i64) -> i128
    requires a_small { unsigned_abs a ≤ 2 ^ 61 }
    requires b_small { unsigned_abs b ≤ 2 ^ 61 }
    requires c_small { unsigned_abs c ≤ 2 ^ 61 }
    requires x_small { unsigned_abs x ≤ 2 ^ 30 }
    requires y_small { unsigned_abs y ≤ 2 ^ 30 }
    requires z_small { unsigned_abs z ≤ 2 ^ 30 }
    ensures value { result ≡ a *ℤ x +ℤ b *ℤ y +ℤ c *ℤ z }
    ensures size { unsigned_abs result ≤ 3 * 2 ^ 91 }
{
    a as i128 * x as i128 + b as i128 * y as i128 + c as i128 * z as i128
}

/// The determinant of three vectors.
#[inline]
pub(crate) fn det(u: Vector, v: Vector, w: Vector) -> i128
    ensures value { result ≡ det u v w }
    ensures size { unsigned_abs result ≤ 3 * 2 ^ 91 }
{
    let n = cross(v, w);
    sum_of_products(n.x, u.x as i64, n.y, u.y as i64, n.z, u.z as i64)
}

/// The scalar product of two vectors.
#[inline]
pub(crate) fn scalar_product(u: Vector, v: Vector) -> i128
    ensures { result ≡ dot u v }
{
    sum_of_products(
        u.x as i64, v.x as i64, u.y as i64, v.y as i64, u.z as i64, v.z as i64,
    )
}

/// Three products of coordinates of cross products.
#[inline]
fn sum_of_long_products(a: i64, x: i64, b: i64, y: i64, c: i64, z: i64) -> i128
    requires a_small { unsigned_abs a ≤ 2 ^ 61 }
    requires b_small { unsigned_abs b ≤ 2 ^ 61 }
    requires c_small { unsigned_abs c ≤ 2 ^ 61 }
    requires x_small { unsigned_abs x ≤ 2 ^ 61 }
    requires y_small { unsigned_abs y ≤ 2 ^ 61 }
    requires z_small { unsigned_abs z ≤ 2 ^ 61 }
    ensures value { result ≡ a *ℤ x +ℤ b *ℤ y +ℤ c *ℤ z }
    ensures size { unsigned_abs result ≤ 3 * 2 ^ 122 }
{
    a as i128 * x as i128 + b as i128 * y as i128 + c as i128 * z as i128
}

/// The scalar product of two cross products.
#[inline]
pub(crate) fn dot(m: Normal, n: Normal) -> i128
    ensures value { result ≡ dot m n }
    ensures size { unsigned_abs result ≤ 3 * 2 ^ 122 }
{
    sum_of_long_products(m.x, n.x, m.y, n.y, m.z, n.z)
}

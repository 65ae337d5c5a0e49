//! Whether a tetrahedron is slim or large.
ghost use Rattle.std.specs.Prelude.{◌≡◌, ◌+◌, ◌*◌, ◌^◌, ◌≤◌, pos, ◌+ℤ◌, ◌*ℤ◌, unsigned_abs, nat_lt, IsTrue};
ghost use Rattle.sign_predicates.specs.Point.{from_to};
ghost use Rattle.sign_predicates.specs.Orientation.{volume};
ghost use Rattle.sign_predicates.specs.Sphere.{square_length};
ghost use Rattle.sign_predicates.specs.Reach.{pull};
ghost use Rattle.geo_laws.specs.Delaunay.{corners, IsOn};
ghost use Rattle.tet_shapes.specs.Wide.{wide_value};
ghost use Rattle.tet_shapes.specs.Sizes.{square_sum, AreAtMost};
ghost use Rattle.tet_shapes.specs.Shape.{IsFine, shortest_square, is_slim, is_large};

use crate::vector::{combined, cross, det, square_length};
use crate::wide::{Wide, is_over, plus, product, times};
use geo_laws::{Points, Tet, corners_of};
use sign_predicates::{Corners, GridPoint, Vector, from_to};

/// The ratio `over / under`.
#[derive(Clone, Copy, Debug, PartialEq, Eq)]
pub struct Ratio {
    pub over: u32,
    pub under: u32,
}

/// The sizes of the coordinates of a vector.
#[derive(Clone, Copy)]
struct Sizes {
    x: u128,
    y: u128,
    z: u128,
}

/// The sizes of three coordinates, whose squares are theirs.
#[inline]
fn sizes_of(x: i128, y: i128, z: i128) -> Sizes
    requires x_small { unsigned_abs x ≤ 9 * 2 ^ 121 }
    requires y_small { unsigned_abs y ≤ 9 * 2 ^ 121 }
    requires z_small { unsigned_abs z ≤ 9 * 2 ^ 121 }
    ensures value { pos (square_sum result) ≡ x *ℤ x +ℤ y *ℤ y +ℤ z *ℤ z }
    ensures size { AreAtMost (9 * 2 ^ 121) result }
{
    Sizes {
        x: x.unsigned_abs(),
        y: y.unsigned_abs(),
        z: z.unsigned_abs(),
    }
}

/// The sizes of the coordinates of the vector to the center of the sphere through the corners,
/// times twice the volume.
#[inline]
fn center_sizes(b: Vector, c: Vector, d: Vector) -> Sizes
    ensures value { pos (square_sum result) ≡ square_length (pull b c d) }
    ensures size { AreAtMost (9 * 2 ^ 121) result }
{
    let (k, m, n) = (square_length(b), square_length(c), square_length(d));
    let (u, v, w) = (cross(c, d), cross(b, d), cross(b, c));
    sizes_of(
        combined(k, u.x, m, v.x, n, w.x),
        combined(k, u.y, m, v.y, n, w.y),
        combined(k, u.z, m, v.z, n, w.z),
    )
}

/// The sum of the squares.
#[inline]
fn sum_of_squares(n: Sizes) -> Wide
    requires { AreAtMost (9 * 2 ^ 121) n }
    ensures value { wide_value result ≡ square_sum n }
    ensures size { wide_value result ≤ 243 * 2 ^ 242 }
{
    plus(
        plus(product(n.x, n.x), product(n.y, n.y)),
        product(n.z, n.z),
    )
}

/// The square of the distance of two points.
#[inline]
fn square_between(a: GridPoint, b: GridPoint) -> u64
    ensures value { pos result ≡ square_length (from_to a b) }
    ensures size { result ≤ 3 * 2 ^ 60 }
{
    square_length(from_to(a, b)).unsigned_abs()
}

/// The square of the length of the shortest edge.
#[inline]
fn shortest_square(t: &Corners) -> u64
    ensures value { pos result ≡ shortest_square t.now }
    ensures size { result ≤ 3 * 2 ^ 60 }
{
    square_between(t.a, t.b)
        .min(square_between(t.a, t.c))
        .min(square_between(t.a, t.d))
        .min(square_between(t.b, t.c))
        .min(square_between(t.b, t.d))
        .min(square_between(t.c, t.d))
}

/// `exceeds`, where all products fit into 128 bits.
#[inline]
fn exceeds_short(n: Sizes, volume: u128, shortest: u64, bound: Ratio) -> bool
    requires center { AreAtMost (2 ^ 53) n }
    requires volume { volume ≤ 2 ^ 38 }
    requires shortest { shortest ≤ 2 ^ 26 }
    requires over { bound.over ≤ 2 ^ 10 }
    requires under { bound.under ≤ 2 ^ 10 }
    ensures { result ≡ nat_lt (4 * (bound.over * bound.over) * (volume * volume) * shortest)
        (bound.under * bound.under * square_sum n) }
{
    let over = bound.over as u128 * bound.over as u128;
    let under = bound.under as u128 * bound.under as u128;
    4 * over * (volume * volume) * (shortest as u128) < under * (n.x * n.x + n.y * n.y + n.z * n.z)
}

/// `exceeds`, with products of 384 bits.
fn exceeds_wide(n: Sizes, volume: u128, shortest: u64, bound: Ratio) -> bool
    requires center { AreAtMost (9 * 2 ^ 121) n }
    requires volume { volume ≤ 3 * 2 ^ 91 }
    requires shortest { shortest ≤ 3 * 2 ^ 60 }
    requires bound { IsFine bound }
    ensures { result ≡ nat_lt (4 * (bound.over * bound.over) * (volume * volume) * shortest)
        (bound.under * bound.under * square_sum n) }
{
    let twice = 2 * volume;
    let over = bound.over as u128 * bound.over as u128;
    let under = bound.under as u128 * bound.under as u128;
    is_over(
        times(sum_of_squares(n), under),
        times(product(twice, twice), over * shortest as u128),
    )
}

/// Whether all sizes are at most this.
#[inline]
fn are_at_most(n: Sizes, most: u128) -> bool
    ensures { IsTrue result → AreAtMost most n }
{
    n.x <= most && n.y <= most && n.z <= most
}

/// Whether the square of the radius is over the square of the ratio times that of the shortest
/// edge, where the vector of these sizes over twice the volume leads to the center.
#[inline]
fn exceeds(n: Sizes, volume: u128, shortest: u64, bound: Ratio) -> bool
    requires center { AreAtMost (9 * 2 ^ 121) n }
    requires volume { volume ≤ 3 * 2 ^ 91 }
    requires shortest { shortest ≤ 3 * 2 ^ 60 }
    requires bound { IsFine bound }
    ensures { result ≡ nat_lt (4 * (bound.over * bound.over) * (volume * volume) * shortest)
        (bound.under * bound.under * square_sum n) }
{
    if are_at_most(n, 1 << 53)
        && volume <= 1 << 38
        && shortest <= 1 << 26
        && bound.over <= 1 << 10
        && bound.under <= 1 << 10
    {
        exceeds_short(n, volume, shortest, bound)
    } else {
        exceeds_wide(n, volume, shortest, bound)
    }
}

/// Whether the tetrahedron with these corners is slim, as `is_slim`.
pub fn is_slim_at(t: Corners, bound: Ratio) -> bool
    requires { IsFine bound }
    ensures { result ≡ is_slim bound t }
{
    let b = from_to(t.a, t.b);
    let c = from_to(t.a, t.c);
    let d = from_to(t.a, t.d);
    exceeds(
        center_sizes(b, c, d),
        det(b, c, d).unsigned_abs(),
        shortest_square(&t),
        bound,
    )
}

/// Whether a tetrahedron is slim: the radius of the sphere through its corners over its shortest
/// edge is over the bound.
pub fn is_slim(points: &Points, row: Tet, bound: Ratio) -> bool
    requires on { IsOn points.now row }
    requires fine { IsFine bound }
    ensures { result ≡ is_slim bound (corners points.now row) }
{
    is_slim_at(corners_of(points, row), bound)
}

/// Six times the volume of a positive tetrahedron, in cubes of grid units.
fn six_times(t: Corners) -> i128
    ensures { result ≡ volume t }
{
    det(from_to(t.a, t.b), from_to(t.a, t.c), from_to(t.a, t.d))
}

/// Whether a tetrahedron is large: six times its volume, in cubes of grid units, is over the bound.
pub fn is_large(points: &Points, row: Tet, most: u128) -> bool
    requires { IsOn points.now row }
    ensures { result ≡ is_large (pos most) (corners points.now row) }
{
    let volume = six_times(corners_of(points, row));
    volume > 0 && most < volume.unsigned_abs()
}

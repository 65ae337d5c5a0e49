//! How far from a corner of a tetrahedron the points in the sphere through its corners can be.
ghost use Rattle.std.specs.Prelude.{◌≡◌, ◌+◌, ◌*◌, ◌^◌, ◌<◌, ◌≤◌, unsigned_abs, IfSome};
ghost use Rattle.std.specs.Prelude.{MatchOption};
ghost use Rattle.sign_predicates.specs.Orientation.{IsPositive};
ghost use Rattle.sign_predicates.specs.Reach.{combined, pull, sizes, reach_of, IsReach};

use crate::Corners;
use crate::vector::{Vector, cross, det, from_to, square_length};

/// Three products of a square and a coordinate of a cross product, with alternating signs.
#[inline]
fn combined(k: i64, x: i64, m: i64, y: i64, n: i64, z: i64) -> i128
    requires k_small { unsigned_abs k ≤ 3 * 2 ^ 60 }
    requires m_small { unsigned_abs m ≤ 3 * 2 ^ 60 }
    requires n_small { unsigned_abs n ≤ 3 * 2 ^ 60 }
    requires x_small { unsigned_abs x ≤ 2 ^ 61 }
    requires y_small { unsigned_abs y ≤ 2 ^ 61 }
    requires z_small { unsigned_abs z ≤ 2 ^ 61 }
    ensures value { result ≡ combined k x m y n z }
    ensures size { unsigned_abs result ≤ 9 * 2 ^ 121 }
{
    k as i128 * x as i128 - m as i128 * y as i128 + n as i128 * z as i128
}

/// The sizes of the coordinates of the pull together.
fn pull_size(b: Vector, c: Vector, d: Vector) -> u128
    ensures { result ≡ sizes (pull b c d) }
{
    let (k, m, n) = (square_length(b), square_length(c), square_length(d));
    let (u, v, w) = (cross(c, d), cross(b, d), cross(b, c));
    combined(k, u.x, m, v.x, n, w.x).unsigned_abs()
        + combined(k, u.y, m, v.y, n, w.y).unsigned_abs()
        + combined(k, u.z, m, v.z, n, w.z).unsigned_abs()
}

/// The width of the grid.
const WIDTH: u128 = 1 << 30;

/// How far along an axis a point can at most be from the corner `a` of a positive tetrahedron where
/// it is in the sphere through the corners, or on it, in grid units: no more than twice the
/// sphere's diameter. None where that is more than the width of the grid.
pub fn sphere_reach(t: Corners) -> Option<u32>
    requires { IsPositive t }
    ensures reach { IfSome result (IsReach t) }
    ensures value { MatchOption result (2 ^ 30 < reach_of t) (λ reach. reach ≡ reach_of t) }
    ensures small { IfSome result (λ reach. reach ≤ 2 ^ 30) }
{
    let b = from_to(t.a, t.b);
    let c = from_to(t.a, t.c);
    let d = from_to(t.a, t.d);
    let volume = det(b, c, d).unsigned_abs();
    let reach = pull_size(b, c, d) / volume;
    if reach > WIDTH {
        return None;
    }
    Some(reach as u32)
}

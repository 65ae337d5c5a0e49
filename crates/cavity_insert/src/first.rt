//! The first tetrahedron: four points that do not lie in one plane, with the least numbers.
ghost use Rattle.std.specs.Prelude.{◌≡◌, ℕ, ◌-◌, ◌<◌, ◌≤◌, ◌^◌, ◌↔◌, ◌-ℤ◌, ◌*ℤ◌, pos, unsigned_abs};
ghost use Rattle.std.specs.Prelude.{IsTrue, IsNone, IfSome, length, MatchOption};
ghost use Rattle.sign_predicates.specs.Orientation.{orient, IsPositive};
ghost use Rattle.geo_laws.specs.Delaunay.{point, corners, HasDistinctPoints, AreCoplanar, IsOn};
ghost use Rattle.geo_laws.specs.Delaunay.{IsArranged};
ghost use Rattle.cavity_insert.specs.First.{IsOnLine};

use geo_laws::{Points, Tet};
use sign_predicates::{GridPoint, Sign, orient};

/// Four points that do not lie in one plane, as a positive tetrahedron with its row in the least
/// even arrangement: the four whose ascending numbers are the least. None exactly where all points
/// lie in one plane.
pub(crate) fn first_row(points: &Points) -> Option<Tet>
    requires distinct { HasDistinctPoints points.now }
    requires few { length points.now < 2 ^ 32 - 1 }
    ensures on { IfSome result (IsOn points.now) }
    ensures positive { IfSome result (λ t. IsPositive (corners points.now t)) }
    ensures arranged { IfSome result IsArranged }
    ensures flat { IsNone result → AreCoplanar points.now }
{
    if points.len() < 4 {
        return None;
    }
    let c = off_line(points)?;
    off_plane(points, c)
}

/// The least number of a point that is not on the line through the first two.
fn off_line(points: &Points) -> Option<u32>
    requires some { 2 ≤ length points.now }
    requires few { length points.now < 2 ^ 32 - 1 }
    ensures { MatchOption result
        ((i : ℕ) → i < length points.now
        → IsOnLine (point points.now 0) (point points.now 1) (point points.now i))
        (λ c. (1 < c) × (c < length points.now)
        × ¬ IsOnLine (point points.now 0) (point points.now 1) (point points.now c)) }
{
    let (a, b) = (points.at(0), points.at(1));
    for c in 2..points.len() as u32 {
        if !is_on_line(a, b, points.at(c as usize)) {
            return Some(c);
        }
    }
    None
}

/// The positive tetrahedron of the first two points, the point `c` and the next one that is not in
/// the plane of these three.
fn off_plane(points: &Points, c: u32) -> Option<Tet>
    requires inside { (1 < c) × (c < length points.now) }
    requires few { length points.now < 2 ^ 32 - 1 }
    ensures on { IfSome result (IsOn points.now) }
    ensures positive { IfSome result (λ t. IsPositive (corners points.now t)) }
    ensures arranged { IfSome result IsArranged }
    ensures flat { IsNone result → (i : ℕ) → i < length points.now
        → orient (point points.now 0) (point points.now 1) (point points.now c) (point points.now i)
        ≡ pos 0 }
{
    let (p, q, r) = (points.at(0), points.at(1), points.at(c as usize));
    for d in 2..points.len() as u32 {
        match orient(p, q, r, points.at(d as usize)) {
            Sign::Above => return Some(Tet { a: 0, b: 1, c, d }),
            Sign::Below => return Some(Tet {
                a: 0,
                b: 1,
                c: d,
                d: c,
            }),
            Sign::Zero => {}
        }
    }
    None
}

/// Whether the three points lie on one line: the cross product of two of their differences is zero.
fn is_on_line(a: GridPoint, b: GridPoint, c: GridPoint) -> bool
    ensures { IsTrue result ↔ IsOnLine a b c }
{
    let ux = difference(a.x, b.x);
    let uy = difference(a.y, b.y);
    let uz = difference(a.z, b.z);
    let vx = difference(a.x, c.x);
    let vy = difference(a.y, c.y);
    let vz = difference(a.z, c.z);
    has_no_minor(ux, uy, vx, vy) && has_no_minor(ux, uz, vx, vz) && has_no_minor(uy, uz, vy, vz)
}

/// The difference of two coordinates.
fn difference(from: i32, to: i32) -> i32
    requires from_small { unsigned_abs from ≤ 2 ^ 29 }
    requires to_small { unsigned_abs to ≤ 2 ^ 29 }
    ensures value { result ≡ to -ℤ from }
    ensures size { unsigned_abs result ≤ 2 ^ 30 }
{
    to - from
}

/// Whether the determinant of the rows `a b` and `c d` is zero.
fn has_no_minor(a: i32, b: i32, c: i32, d: i32) -> bool
    requires a_small { unsigned_abs a ≤ 2 ^ 30 }
    requires b_small { unsigned_abs b ≤ 2 ^ 30 }
    requires c_small { unsigned_abs c ≤ 2 ^ 30 }
    requires d_small { unsigned_abs d ≤ 2 ^ 30 }
    ensures { IsTrue result ↔ (a *ℤ d ≡ b *ℤ c) }
{
    a as i64 * d as i64 == b as i64 * c as i64
}

//! Circuits of five corners: how the height of one over the other four depends on their heights.
//! The five points are the three corners of a face, the corner of its tetrahedron opposite the
//! face, and the one across it, in this order.
//!
//! The coordinates of the grid are at most `2^29` in size, so those of a vector between two of its
//! points are at most `2^30`. Minors are then at most `2^61`, squares of distances `3 * 2^60`, and
//! volumes `3 * 2^91`; a point twice as far away gives minors up to `2^62` and volumes up to
//! `3 * 2^92`. The coefficients of a circuit and the sides of a plane are volumes. A sum of four
//! coefficients times squares is below `2^157`, and one of five coefficients times sides below
//! `2^188`: these have 256 bits where the points are not near enough for fewer.
use crate::wide::{Wide, minus, plus, product, widened};

/// A point by its differences from a base point, over the common power of two.
#[derive(Clone, Copy)]
pub(crate) struct Spot {
    pub(crate) x: i64,
    pub(crate) y: i64,
    pub(crate) z: i64,
}

/// A plane by its normal and a point of it.
#[derive(Clone, Copy)]
pub(crate) struct Plane {
    pub(crate) normal: Spot,
    pub(crate) corner: Spot,
}

/// The kind of a flip by the tetrahedra that it replaces, or none: two with a common face; those
/// and a third round an edge of the face; those and two more round an edge that lies in one plane
/// with the corners on both sides. The kind names the corner of the face opposite the edge.
#[derive(Clone, Copy)]
pub(crate) enum Kind {
    Two,
    Three { apex: u32 },
    Four { apex: u32 },
    Never,
}

/// Which of three corners have a property.
#[derive(Clone, Copy)]
enum Which {
    No,
    One(u32),
    Several,
}

/// The vector to the first from the second.
fn from_to(a: Spot, b: Spot) -> Spot {
    Spot {
        x: a.x.wrapping_sub(b.x),
        y: a.y.wrapping_sub(b.y),
        z: a.z.wrapping_sub(b.z),
    }
}

/// The coordinates of short vectors are below this, and not below its negative.
pub(crate) const SHORT: i64 = 1 << 19;

/// The coordinates of near vectors are below this, and not below its negative. Four coefficients
/// times squares of distances are then below `2^127` in sum.
pub(crate) const NEAR: i64 = 1 << 24;

/// A number that is below a power of two exactly where all coordinates are, and are not below its
/// negative.
pub(crate) fn reach_of(v: Spot) -> i64 {
    (v.x ^ v.x >> 63) | (v.y ^ v.y >> 63) | (v.z ^ v.z >> 63)
}

fn times(x: i64, y: i64) -> i128 {
    i128::from(x).wrapping_mul(i128::from(y))
}

/// The minor of the first two coordinates.
fn minor(u: Spot, v: Spot) -> i64 {
    u.x.wrapping_mul(v.y).wrapping_sub(u.y.wrapping_mul(v.x))
}

/// A volume by three last coordinates and the minors opposite them, the second taken away. It fits
/// 64 bits where all vectors are short.
fn volume(is_short: bool, z: (i64, i64, i64), minors: (i64, i64, i64)) -> i128 {
    if is_short {
        let ends = z
            .0
            .wrapping_mul(minors.0)
            .wrapping_add(z.2.wrapping_mul(minors.2));
        i128::from(ends.wrapping_sub(z.1.wrapping_mul(minors.1)))
    } else {
        let ends = times(z.0, minors.0).wrapping_add(times(z.2, minors.2));
        ends.wrapping_sub(times(z.1, minors.1))
    }
}

/// How the sum that says whether the corner across is outside depends on the heights of the five;
/// the sum of the coefficients is 0. `None` where those of the face are to be no more than 0, and
/// one is.
pub(crate) fn circuit_of(
    corners: &[Spot; 5],
    is_short: bool,
    is_convex: bool,
) -> Option<[i128; 5]> {
    let across = corners[4];
    let (a, b) = (from_to(corners[0], across), from_to(corners[1], across));
    let (c, d) = (from_to(corners[2], across), from_to(corners[3], across));
    let is_short = is_short || reach_of(a) | reach_of(b) | reach_of(c) | reach_of(d) < SHORT;
    let (bc, bd, cd) = (minor(b, c), minor(b, d), minor(c, d));
    let first = volume(is_short, (b.z, c.z, d.z), (cd, bd, bc)).wrapping_neg();
    if is_convex && first > 0 {
        return None;
    }
    let (ac, ad) = (minor(a, c), minor(a, d));
    let second = volume(is_short, (a.z, c.z, d.z), (cd, ad, ac));
    if is_convex && second > 0 {
        return None;
    }
    let ab = minor(a, b);
    let third = volume(is_short, (a.z, b.z, d.z), (bd, ad, ab)).wrapping_neg();
    if is_convex && third > 0 {
        return None;
    }
    let own = volume(is_short, (a.z, b.z, c.z), (bc, ac, ab));
    let face = first.wrapping_add(second).wrapping_add(third);
    let sum = face.wrapping_add(own);
    Some([first, second, third, own, sum.wrapping_neg()])
}

/// Orient3d of `p` against the plane through `a`, `b` and `c`, as a volume. It fits 64 bits also
/// where the point is twice as far away as short vectors lead.
pub(crate) fn volume_over(is_short: bool, a: Spot, b: Spot, c: Spot, p: Spot) -> i128 {
    let (u, v, w) = (from_to(b, a), from_to(c, a), from_to(p, a));
    let minors = (minor(v, w), minor(u, w), minor(u, v));
    volume(is_short, (u.z, v.z, w.z), minors)
}

/// Whether the segment between two points meets the closed triangle, where it meets the triangle's
/// plane between the two.
pub(crate) fn is_passed(is_short: bool, way: (Spot, Spot), triangle: &[Spot; 3]) -> bool {
    let (from, to) = way;
    let (u, a) = (from_to(to, from), from_to(triangle[0], from));
    let (b, c) = (from_to(triangle[1], from), from_to(triangle[2], from));
    let (ua, ub, uc) = (minor(u, a), minor(u, b), minor(u, c));
    let x = volume(is_short, (u.z, a.z, b.z), (minor(a, b), ub, ua));
    let y = volume(is_short, (u.z, b.z, c.z), (minor(b, c), uc, ub));
    if (x > 0 && y < 0) || (x < 0 && y > 0) {
        return false;
    }
    let z = volume(is_short, (u.z, c.z, a.z), (minor(c, a), ua, uc));
    (x <= 0 && y <= 0 && z <= 0) || (x >= 0 && y >= 0 && z >= 0)
}

/// The corners of a face for which `holds` is set.
fn the_one(face: &[u32; 3], holds: (bool, bool, bool)) -> Which {
    match holds {
        (false, false, false) => Which::No,
        (true, false, false) => Which::One(face[0]),
        (false, true, false) => Which::One(face[1]),
        (false, false, true) => Which::One(face[2]),
        _ => Which::Several,
    }
}

/// The kind of flip by the signs of the three coefficients of the face.
pub(crate) fn kind_of(face: &[u32; 3], circuit: &[i128; 5]) -> Kind {
    let (a, b, c) = (circuit[0], circuit[1], circuit[2]);
    if a < 0 && b < 0 && c < 0 {
        return Kind::Two;
    }
    let above = the_one(face, (a > 0, b > 0, c > 0));
    let flat = the_one(face, (a == 0, b == 0, c == 0));
    match (above, flat) {
        (Which::One(apex), Which::No) => Kind::Three { apex },
        (Which::No, Which::One(apex)) => Kind::Four { apex },
        _ => Kind::Never,
    }
}

/// The plane through three points.
pub(crate) fn plane_of(a: Spot, b: Spot, c: Spot) -> Plane {
    let (u, v) = (from_to(b, a), from_to(c, a));
    let area = |p: i64, q: i64, r: i64, s: i64| p.wrapping_mul(s).wrapping_sub(q.wrapping_mul(r));
    Plane {
        normal: Spot {
            x: area(u.y, u.z, v.y, v.z),
            y: area(u.z, u.x, v.z, v.x),
            z: area(u.x, u.y, v.x, v.y),
        },
        corner: a,
    }
}

/// The side of the plane on which a point lies: above 0 where the normal points. It fits 64 bits
/// where vectors between the points are short.
pub(crate) fn side_of(is_short: bool, plane: &Plane, p: Spot) -> i128 {
    let v = from_to(p, plane.corner);
    let n = plane.normal;
    if is_short {
        let two = n.x.wrapping_mul(v.x).wrapping_add(n.y.wrapping_mul(v.y));
        return i128::from(two.wrapping_add(n.z.wrapping_mul(v.z)));
    }
    times(n.x, v.x)
        .wrapping_add(times(n.y, v.y))
        .wrapping_add(times(n.z, v.z))
}

/// The square of the distance.
fn square(a: Spot, b: Spot) -> i128 {
    let v = from_to(a, b);
    let sum = v
        .x
        .wrapping_mul(v.x)
        .wrapping_add(v.y.wrapping_mul(v.y))
        .wrapping_add(v.z.wrapping_mul(v.z));
    i128::from(sum)
}

/// The coefficients times the squares of the distances from the corner across, where the corners
/// are near one another.
fn near_sum(circuit: &[i128; 5], corners: &[Spot; 5]) -> i128 {
    let mut sum = 0i128;
    for i in 0..4 {
        sum = sum.wrapping_add(circuit[i].wrapping_mul(square(corners[i], corners[4])));
    }
    sum
}

/// A sum as the total of its terms above 0 less that of its terms below 0.
struct Totals {
    above: Wide,
    below: Wide,
}

/// The coefficients times those of five numbers that are above 0.
fn long_totals(circuit: &[i128; 5], numbers: &[i128; 5]) -> Totals {
    let (mut above, mut below) = (widened(0), widened(0));
    for i in 0..5 {
        let number = numbers[i].max(0).unsigned_abs();
        let part = product(circuit[i].unsigned_abs(), number);
        if circuit[i] < 0 {
            below = plus(below, part);
        } else {
            above = plus(above, part);
        }
    }
    Totals { above, below }
}

/// The coefficients times the squares of the distances from the corner across, in 256 bits; `None`
/// where that is below 0.
fn far_sum(circuit: &[i128; 5], corners: &[Spot; 5]) -> Option<Wide> {
    let [a, b, c, d, across] = *corners;
    let (a, b) = (square(a, across), square(b, across));
    let (c, d) = (square(c, across), square(d, across));
    let Totals { above, below } = long_totals(circuit, &[a, b, c, d, 0]);
    if above < below {
        return None;
    }
    Some(minus(above, below))
}

/// The coefficients times the squares of the distances from the corner across; `None` where that is
/// below 0: the corner across is inside the sphere through the others.
pub(crate) fn sum_of(is_near: bool, circuit: &[i128; 5], corners: &[Spot; 5]) -> Option<Wide> {
    if is_near {
        let sum = near_sum(circuit, corners);
        (sum >= 0).then_some(widened(sum.unsigned_abs()))
    } else {
        far_sum(circuit, corners)
    }
}

/// A product of 128 bits, where the side has at most 60 bits and the coefficient 64.
fn short_product(coefficient: i128, side: i128) -> Option<i128> {
    if side >> 60 != 0 {
        return None;
    }
    let side = i64::try_from(side).ok()?;
    let coefficient = i64::try_from(coefficient).ok()?;
    Some(times(coefficient, side))
}

/// Minus the coefficients times the sides of the points above the plane, where all is short.
fn short_weight(circuit: &[i128; 5], sides: &[i128; 5]) -> Option<i128> {
    let mut sum = 0i128;
    for i in 0..5 {
        if sides[i] > 0 {
            sum = sum.wrapping_sub(short_product(circuit[i], sides[i])?);
        }
    }
    Some(sum)
}

/// Minus the coefficients times the sides of the points above the plane, in 256 bits; `None` where
/// that is not above 0.
fn long_weight(circuit: &[i128; 5], sides: &[i128; 5]) -> Option<Wide> {
    let Totals { above, below } = long_totals(circuit, sides);
    if below <= above {
        return None;
    }
    Some(minus(below, above))
}

/// How fast the sum falls as the points above the plane rise: minus the coefficients times their
/// sides. `None` where it does not fall.
pub(crate) fn weight_of(circuit: &[i128; 5], sides: &[i128; 5]) -> Option<Wide> {
    match short_weight(circuit, sides) {
        Some(weight) if weight > 0 => Some(widened(weight.unsigned_abs())),
        Some(_) => None,
        None => long_weight(circuit, sides),
    }
}

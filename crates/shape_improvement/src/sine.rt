//! The least angle of a tetrahedron by the square of a sine.
use mesh_parts::Spot;
use tet_shapes::Ratio;

/// The square of the sine of a right angle.
pub(crate) const RIGHT: u64 = 1 << 30;

/// The square of the sine of an angle with this squared cosine and a little more, so that angles
/// that are rounded down are not below it; 0 where there is no such angle.
pub(crate) fn aimed_sine(cosine: Option<Ratio>) -> u64 {
    let Some(cosine) = cosine else { return 0 };
    let under = u64::from(cosine.under);
    let rest = under.saturating_sub(u64::from(cosine.over));
    let sine = RIGHT.wrapping_mul(rest).checked_div(under).unwrap_or(0);
    sine.wrapping_add(RIGHT / 1600)
}

/// The vector shifted down to 15 bits.
fn shortened(n: Spot) -> Spot {
    n.over_power(n.bits_above(15))
}

/// The scalar product of two vectors of 15 bits.
fn product(u: Spot, v: Spot) -> u64 {
    let plane = u.x.wrapping_mul(v.x).wrapping_add(u.y.wrapping_mul(v.y));
    plane.wrapping_add(u.z.wrapping_mul(v.z)).unsigned_abs()
}

/// The square of the sine of the angle of two vectors of 15 bits.
fn sine_of(u: Spot, v: Spot) -> u64 {
    let cosine = product(u, v);
    let lengths = product(u, u).wrapping_mul(product(v, v));
    let square = cosine.wrapping_mul(cosine).checked_div(lengths / RIGHT);
    RIGHT.saturating_sub(square.unwrap_or(RIGHT))
}

/// The square of the sine of the angle of two vectors of 15 bits, unless it is left out.
fn sine_unless(u: Spot, v: Spot, is_left_out: bool) -> u64 {
    if is_left_out { RIGHT } else { sine_of(u, v) }
}

/// Whether the square of the sine of the angle of two vectors of 15 bits, as `sine_of` has it, is
/// over `least`, or the angle is left out.
fn is_over(u: Spot, v: Spot, least: u64, is_left_out: bool) -> bool {
    if is_left_out {
        return true;
    }
    let cosine = product(u, v);
    let lengths = product(u, u).wrapping_mul(product(v, v)) / RIGHT;
    let most = RIGHT.saturating_sub(least);
    cosine.wrapping_mul(cosine) < most.wrapping_mul(lengths)
}

/// Whether a tetrahedron is positive and the square of the sine of each dihedral angle is over
/// `least`, those between two of the walls left out. The normals of the faces, each into the
/// tetrahedron, have the sum 0.
pub(crate) fn has_sine_over(s: &[Spot; 4], walls: [bool; 4], least: u64) -> bool {
    let [p, q, r, t] = walls;
    let (u, v, w) = (s[1].from(s[0]), s[2].from(s[0]), s[3].from(s[0]));
    let last = u.cross(v);
    if last.dot(w) <= 0 {
        return false;
    }
    let (second, third) = (v.cross(w), w.cross(u));
    let (b, c, d) = (shortened(second), shortened(third), shortened(last));
    if !is_over(b, d, least, q && t) || !is_over(c, d, least, r && t) {
        return false;
    }
    let a = shortened(second.plus(third).plus(last).by(-1));
    is_over(a, d, least, p && t)
        && is_over(b, c, least, q && r)
        && is_over(a, b, least, p && q)
        && is_over(a, c, least, p && r)
}

/// The least square of the sine of a dihedral angle of a tetrahedron, those between two of the
/// walls left out. It stands for how well shaped the tetrahedron is. The normals of the faces, each
/// into the tetrahedron, have the sum 0.
pub(crate) fn least_sine(s: &[Spot; 4], walls: [bool; 4]) -> u64 {
    let [p, q, r, t] = walls;
    let (u, v, w) = (s[1].from(s[0]), s[2].from(s[0]), s[3].from(s[0]));
    let (second, third, last) = (v.cross(w), w.cross(u), u.cross(v));
    let a = shortened(second.plus(third).plus(last).by(-1));
    let (b, c, d) = (shortened(second), shortened(third), shortened(last));
    sine_unless(a, b, p && q)
        .min(sine_unless(a, c, p && r))
        .min(sine_unless(a, d, p && t))
        .min(sine_unless(b, c, q && r))
        .min(sine_unless(b, d, q && t))
        .min(sine_unless(c, d, r && t))
}

//! Circumspheres of tetrahedra and equatorial spheres of triangles, with centers rounded to the
//! grid.
use crate::spot::{Spot, distance, times};

/// A sphere by its center, rounded to the grid, and the square of the distance from there to a
/// corner.
#[derive(Clone, Copy)]
pub struct Sphere {
    pub center: Spot,
    pub squared: u64,
}

impl Sphere {
    /// Whether a point is inside.
    pub fn has(&self, p: Spot) -> bool {
        distance(p, self.center) < self.squared
    }
}

/// A divisor above 0 with its 32 leading bits, or all where it has fewer.
#[derive(Clone, Copy)]
struct Divisor {
    whole: u128,
    leading: u64,
    /// How many bits are behind the leading ones.
    behind: u32,
}

impl Divisor {
    /// The divisor with this value.
    fn new(d: i128) -> Divisor {
        let whole = d.unsigned_abs();
        let behind = 96_u32.saturating_sub(whole.leading_zeros());
        Divisor {
            whole,
            leading: u64::try_from(whole.wrapping_shr(behind)).unwrap_or(0),
            behind,
        }
    }

    /// The nearest whole number to a quotient, where it is at most `2^30` in size. A quotient by
    /// the leading bits is not less, and below `2^31` it is at most one more.
    fn near_quotient(&self, n: i128) -> Option<i64> {
        let raised = n.unsigned_abs().wrapping_add(self.whole / 2);
        let high = u64::try_from(raised.wrapping_shr(self.behind)).ok()?;
        let most = high.checked_div(self.leading)?;
        let is_over = u128::from(most).wrapping_mul(self.whole) > raised;
        let q = most.wrapping_sub(u64::from(is_over));
        if q > 1 << 30 {
            return None;
        }
        let q = q as i64;
        Some(if n < 0 { q.wrapping_neg() } else { q })
    }
}

/// The sphere through a corner whose center is three numbers over a divisor above 0 away.
fn sphere_at(corner: Spot, x: i128, y: i128, z: i128, d: i128) -> Option<Sphere> {
    let divisor = Divisor::new(d);
    let offset = Spot {
        x: divisor.near_quotient(x)?,
        y: divisor.near_quotient(y)?,
        z: divisor.near_quotient(z)?,
    };
    Some(Sphere {
        center: corner.plus(offset),
        squared: offset.squared(),
    })
}

/// The squares of three lengths.
#[derive(Clone, Copy)]
struct Squares {
    b: i64,
    c: i64,
    d: i64,
}

impl Squares {
    /// The sum of the products with three coordinates of cross products. Each square is at most `3
    /// * 2^60` and each coordinate at most `2^61`, so the sum is below `2^125`.
    fn weigh(self, x: i64, y: i64, z: i64) -> i128 {
        let plane = times(self.b, x).wrapping_add(times(self.c, y));
        plane.wrapping_add(times(self.d, z))
    }
}

/// The vector to the center of a circumsphere from the first corner, as three numbers over a
/// divisor.
#[derive(Clone, Copy)]
struct Quotient {
    x: i128,
    y: i128,
    z: i128,
    divisor: i128,
}

/// The vector to the center of the circumsphere of a positive tetrahedron. The center is `a + N /
/// (2 det)` with `N = |B|^2 (C x D) + |C|^2 (D x B) + |D|^2 (B x C)`, where `B`, `C` and `D` are
/// the vectors from `a`.
fn to_center(corners: &[Spot; 4]) -> Option<Quotient> {
    let [a, b, c, d] = *corners;
    let (b, c, d) = (b.from(a), c.from(a), d.from(a));
    let (cd, db, bc) = (c.cross(d), d.cross(b), b.cross(c));
    let squares = Squares {
        b: b.squared().cast_signed(),
        c: c.squared().cast_signed(),
        d: d.squared().cast_signed(),
    };
    let divisor = bc.dot(d).wrapping_mul(2);
    if divisor <= 0 {
        return None;
    }
    Some(Quotient {
        x: squares.weigh(cd.x, db.x, bc.x),
        y: squares.weigh(cd.y, db.y, bc.y),
        z: squares.weigh(cd.z, db.z, bc.z),
        divisor,
    })
}

/// The circumsphere of a positive tetrahedron, where its center is near.
pub fn circumsphere(corners: &[Spot; 4]) -> Option<Sphere> {
    let Quotient { x, y, z, divisor } = to_center(corners)?;
    sphere_at(corners[0], x, y, z, divisor)
}

/// The center of the circumsphere of a positive tetrahedron, or, where it is not near, a far point
/// in its direction.
pub fn center_of(corners: &[Spot; 4]) -> Option<Spot> {
    let Quotient { x, y, z, divisor } = to_center(corners)?;
    let greatest = x.wrapping_abs().max(y.wrapping_abs()).max(z.wrapping_abs());
    let least = greatest / (1 << 30);
    let divisor = divisor.max(least.wrapping_add(1));
    Some(sphere_at(corners[0], x, y, z, divisor)?.center)
}

/// The smallest sphere through the corners of a triangle, where its center is near. The center is
/// `a + s B + t C` with `s = |C|^2 (|B|^2 - B C) / d`, `t = |B|^2 (|C|^2 - B C) / d` and `d = 2
/// (|B|^2 |C|^2 - (B C)^2)`. The shares `s` and `t` are rounded to 24 bits behind the point, and
/// computed from vectors that are shifted down to 20 bits.
pub fn equator(corners: &[Spot; 3]) -> Option<Sphere> {
    let [a, b, c] = *corners;
    let (u, v) = (b.from(a), c.from(a));
    let power = u.bits_above(20).max(v.bits_above(20));
    let (b, c) = (u.over_power(power), v.over_power(power));
    let (bb, cc, bc) = (b.dot(b), c.dot(c), b.dot(c));
    let d = bb.wrapping_mul(cc).wrapping_sub(bc.wrapping_mul(bc));
    let share = |n: i128| n.wrapping_mul(1 << 23).checked_div(d);
    let s = share(cc.wrapping_mul(bb.wrapping_sub(bc)))?;
    let t = share(bb.wrapping_mul(cc.wrapping_sub(bc)))?;
    let along = |x: i64, y: i64| {
        let first = s.wrapping_mul(i128::from(x));
        first.wrapping_add(t.wrapping_mul(i128::from(y)))
    };
    sphere_at(
        a,
        along(u.x, v.x),
        along(u.y, v.y),
        along(u.z, v.z),
        1 << 24,
    )
}

/// The center of the smallest sphere through the corners of a triangle, or, where it is not near, a
/// far point in its direction: from `a` along `|C|^2 (|B|^2 - B C) B + |B|^2 (|C|^2 - B C) C`.
pub fn center_in_plane(corners: &[Spot; 3]) -> Option<Spot> {
    if let Some(sphere) = equator(corners) {
        return Some(sphere.center);
    }
    let [a, b, c] = *corners;
    let (u, v) = (b.from(a), c.from(a));
    let power = u.bits_above(20).max(v.bits_above(20));
    let (b, c) = (u.over_power(power), v.over_power(power));
    let (bb, cc, bc) = (b.dot(b), c.dot(c), b.dot(c));
    let s = cc.wrapping_mul(bb.wrapping_sub(bc));
    let t = bb.wrapping_mul(cc.wrapping_sub(bc));
    let along = |x: i64, y: i64| {
        let first = s.wrapping_mul(i128::from(x));
        first.wrapping_add(t.wrapping_mul(i128::from(y)))
    };
    let (x, y, z) = (along(u.x, v.x), along(u.y, v.y), along(u.z, v.z));
    let greatest = x.wrapping_abs().max(y.wrapping_abs()).max(z.wrapping_abs());
    let divisor = (greatest / (1 << 30)).wrapping_add(1);
    Some(sphere_at(a, x, y, z, divisor)?.center)
}

//! Points of the grid in 64 bits, and products of vectors between them.
//!
//! The coordinates of the grid are at most `2^29` in size, so those of a vector between two of its
//! points are at most `2^30`, those of a cross product `2^61`, and a volume `3 * 2^91`. A center of
//! a sphere is kept where it is at most `2^30` from a corner in each coordinate: a vector from
//! there to a point of the grid has coordinates up to `2^31`, and the square of its length is below
//! `2^64`. Products wrap, since nothing rests on a number that is too large.
use sign_predicates::GridPoint;

/// A point or a vector, in grid units.
#[derive(Clone, Copy)]
pub struct Spot {
    pub x: i64,
    pub y: i64,
    pub z: i64,
}

/// The point with its coordinates as they are.
pub fn spot_of(p: GridPoint) -> Spot {
    Spot {
        x: i64::from(p.x),
        y: i64::from(p.y),
        z: i64::from(p.z),
    }
}

/// The point of the grid, where the coordinates are on it.
pub fn grid_point(s: Spot) -> Option<GridPoint> {
    let limit = 1 << 29;
    if s.x.unsigned_abs() > limit || s.y.unsigned_abs() > limit || s.z.unsigned_abs() > limit {
        return None;
    }
    Some(GridPoint {
        x: s.x as i32,
        y: s.y as i32,
        z: s.z as i32,
    })
}

/// The product in 128 bits.
pub fn times(x: i64, y: i64) -> i128 {
    i128::from(x).wrapping_mul(i128::from(y))
}

/// A quotient by a number above 0, rounded down; 0 where the divisor is 0.
pub fn floored(n: i64, d: i64) -> i64 {
    n.checked_div_euclid(d).unwrap_or(0)
}

/// The whole number nearest to a quotient, 0 where the divisor is 0.
pub fn rounded(n: i128, d: i128) -> i128 {
    let half = d.wrapping_abs() / 2;
    let raised = if n < 0 {
        n.wrapping_sub(half)
    } else {
        n.wrapping_add(half)
    };
    raised.checked_div(d).unwrap_or(0)
}

/// The nearest multiple of `2^halvings`.
fn on_step(x: i64, halvings: u32) -> i64 {
    let step = 1_i64.wrapping_shl(halvings);
    x.wrapping_add(step / 2) & step.wrapping_neg()
}

impl Spot {
    /// The vector to this point from another.
    pub fn from(self, o: Spot) -> Spot {
        Spot {
            x: self.x.wrapping_sub(o.x),
            y: self.y.wrapping_sub(o.y),
            z: self.z.wrapping_sub(o.z),
        }
    }

    /// The sum of both.
    pub fn plus(self, o: Spot) -> Spot {
        Spot {
            x: self.x.wrapping_add(o.x),
            y: self.y.wrapping_add(o.y),
            z: self.z.wrapping_add(o.z),
        }
    }

    /// A multiple of the vector.
    pub fn by(self, k: i64) -> Spot {
        Spot {
            x: self.x.wrapping_mul(k),
            y: self.y.wrapping_mul(k),
            z: self.z.wrapping_mul(k),
        }
    }

    /// The vector over a power of two, rounded down.
    pub fn over_power(self, power: u32) -> Spot {
        Spot {
            x: self.x.wrapping_shr(power),
            y: self.y.wrapping_shr(power),
            z: self.z.wrapping_shr(power),
        }
    }

    /// The cross product.
    pub fn cross(self, o: Spot) -> Spot {
        Spot {
            x: minor((self.y, self.z), (o.y, o.z)),
            y: minor((self.z, self.x), (o.z, o.x)),
            z: minor((self.x, self.y), (o.x, o.y)),
        }
    }

    /// The scalar product.
    pub fn dot(self, o: Spot) -> i128 {
        let plane = times(self.x, o.x).wrapping_add(times(self.y, o.y));
        plane.wrapping_add(times(self.z, o.z))
    }

    /// The square of the length, of a vector with coordinates up to `2^31`.
    pub fn squared(self) -> u64 {
        let x = self.x.unsigned_abs();
        let y = self.y.unsigned_abs();
        let z = self.z.unsigned_abs();
        let plane = x.wrapping_mul(x).wrapping_add(y.wrapping_mul(y));
        plane.wrapping_add(z.wrapping_mul(z))
    }

    /// How many bits the largest coordinate has above this many.
    pub fn bits_above(self, kept: u32) -> u32 {
        let reach = self.x.unsigned_abs() | self.y.unsigned_abs() | self.z.unsigned_abs();
        64_u32
            .saturating_sub(reach.leading_zeros())
            .saturating_sub(kept)
    }

    /// The nearest point whose coordinates are multiples of `2^halvings`.
    pub fn on_lattice(self, halvings: u32) -> Spot {
        Spot {
            x: on_step(self.x, halvings),
            y: on_step(self.y, halvings),
            z: on_step(self.z, halvings),
        }
    }

    /// Whether all coordinates are multiples of `2^halvings`.
    pub(crate) fn is_on_lattice(self, halvings: u32) -> bool {
        let step = 1_i64.wrapping_shl(halvings);
        (self.x | self.y | self.z) & step.wrapping_sub(1) == 0
    }
}

/// The minor of two vectors in a plane.
fn minor(u: (i64, i64), v: (i64, i64)) -> i64 {
    u.0.wrapping_mul(v.1).wrapping_sub(u.1.wrapping_mul(v.0))
}

/// The square of the distance.
pub fn distance(a: Spot, b: Spot) -> u64 {
    a.from(b).squared()
}

/// Six times the volume of a tetrahedron, above 0 where the last corner is on the positive side of
/// the first three.
pub fn volume(a: Spot, b: Spot, c: Spot, d: Spot) -> i128 {
    b.from(a).cross(c.from(a)).dot(d.from(a))
}

/// Whether a point is inside the sphere that has the segment as its diameter.
pub fn is_in_diametral(a: Spot, b: Spot, p: Spot) -> bool {
    a.from(p).dot(b.from(p)) < 0
}

/// The scalar product of two vectors of 20 bits.
fn product(u: Spot, v: Spot) -> i64 {
    let plane = u.x.wrapping_mul(v.x).wrapping_add(u.y.wrapping_mul(v.y));
    plane.wrapping_add(u.z.wrapping_mul(v.z))
}

/// Whether the angle of two vectors is sharp: the square of its cosine is over `1 / under`.
fn is_within(u: Spot, v: Spot, under: i128) -> bool {
    let u = u.over_power(u.bits_above(20));
    let v = v.over_power(v.bits_above(20));
    let cosine = product(u, v);
    let lengths = times(product(u, u), product(v, v));
    cosine > 0 && times(cosine, cosine).wrapping_mul(under) > lengths
}

/// Whether two vectors are at less than 60 degrees.
pub(crate) fn is_within_60(u: Spot, v: Spot) -> bool {
    is_within(u, v, 4)
}

/// Whether two vectors are at less than about 75 degrees, with a cosine over the root of 1/15.
pub(crate) fn is_within_75(u: Spot, v: Spot) -> bool {
    is_within(u, v, 15)
}

/// The cube root, rounded down, of a number below `2^96`.
pub fn cube_root(v: i128) -> i64 {
    let mut root = 0_i64;
    let mut bit = 1_i64 << 31;
    for _ in 0..32 {
        let next = root | bit;
        if times(next, next).wrapping_mul(i128::from(next)) <= v {
            root = next;
        }
        bit /= 2;
    }
    root
}

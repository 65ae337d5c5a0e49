//! The plane of a facet, and the lattice points in it and on subsegments.
use crate::basis::{basis_of, primitive};
use crate::spot::{Spot, rounded, times};

/// The axis that is left out where a facet is drawn in two coordinates.
#[derive(Clone, Copy)]
enum Axis {
    X,
    Y,
    Z,
}

/// The axis in whose direction a vector is longest.
fn axis_of(n: Spot) -> Axis {
    let (x, y, z) = (n.x.unsigned_abs(), n.y.unsigned_abs(), n.z.unsigned_abs());
    if x >= y && x >= z {
        Axis::X
    } else if y >= z {
        Axis::Y
    } else {
        Axis::Z
    }
}

/// A vector in a plane.
#[derive(Clone, Copy)]
struct Flat {
    x: i64,
    y: i64,
}

impl Axis {
    /// The two other coordinates.
    fn drawn(self, s: Spot) -> Flat {
        match self {
            Axis::X => Flat { x: s.y, y: s.z },
            Axis::Y => Flat { x: s.z, y: s.x },
            Axis::Z => Flat { x: s.x, y: s.y },
        }
    }
}

/// The minor of two vectors in the plane.
fn minor(u: Flat, v: Flat) -> i128 {
    times(u.x, v.y).wrapping_sub(times(u.y, v.x))
}

/// The plane of a facet: a corner, the primitive normal shifted down to 31 bits, the axis left out,
/// and a reduced basis of the whole vectors in the plane.
#[derive(Clone, Copy)]
pub struct Plane {
    pub corner: Spot,
    normal: Spot,
    axis: Axis,
    first: Spot,
    second: Spot,
}

/// Two vectors of a plane, at 60 degrees.
#[derive(Clone, Copy)]
pub struct Sixty {
    pub u: Spot,
    pub v: Spot,
}

/// The vector or its negative, so that its first coordinate that is not 0 is above 0.
fn upward(n: Spot) -> Spot {
    let is_down = n.x < 0 || n.x == 0 && (n.y < 0 || n.y == 0 && n.z < 0);
    if is_down { n.by(-1) } else { n }
}

/// A vector with this direction and length, shifted down to 31 bits before.
fn with_length(v: Spot, length: i64) -> Spot {
    let v = v.over_power(v.bits_above(31));
    let own = i128::from(v.squared().isqrt());
    let scaled = |x: i64| {
        let scaled = times(x, length).checked_div(own).unwrap_or(0);
        i64::try_from(scaled).unwrap_or(0)
    };
    Spot {
        x: scaled(v.x),
        y: scaled(v.y),
        z: scaled(v.z),
    }
}

impl Plane {
    /// The plane through a point, at right angles to a vector that is not 0.
    pub(crate) fn new(corner: Spot, across: Spot) -> Option<Plane> {
        let (n, g) = primitive(upward(across));
        if g == 0 {
            return None;
        }
        let (first, second) = basis_of(n)?;
        Some(Plane {
            corner,
            normal: n.over_power(n.bits_above(31)),
            axis: axis_of(n),
            first,
            second,
        })
    }

    /// The point of the lattice of the plane in steps of `2^halvings` that is near to a point of
    /// the plane. A point off the plane is moved along the axis left out.
    pub fn nearest(&self, p: Spot, halvings: u32) -> Spot {
        let w = self.axis.drawn(p.from(self.corner));
        let u = self.axis.drawn(self.first);
        let v = self.axis.drawn(self.second);
        let whole = minor(u, v).wrapping_shl(halvings);
        let i = rounded(minor(w, v), whole);
        let j = rounded(minor(u, w), whole);
        let part = |x: i64, y: i64| {
            let first = i.wrapping_mul(i128::from(x));
            let steps = first.wrapping_add(j.wrapping_mul(i128::from(y)));
            i64::try_from(steps.wrapping_shl(halvings)).unwrap_or(1 << 40)
        };
        self.corner.plus(Spot {
            x: part(self.first.x, self.second.x),
            y: part(self.first.y, self.second.y),
            z: part(self.first.z, self.second.z),
        })
    }

    /// On which side of the line from `a` to `b` a point of the plane lies: above 0, below 0 or 0.
    pub fn side(&self, a: Spot, b: Spot, p: Spot) -> i128 {
        minor(self.axis.drawn(b.from(a)), self.axis.drawn(p.from(a)))
    }

    /// Two vectors of this length at 60 degrees, the first along the shortest lattice vector.
    pub fn triangular(&self, length: i64) -> Sixty {
        let first = self.first.over_power(self.first.bits_above(30));
        let u = with_length(first, length);
        let w = with_length(self.normal.cross(first), length);
        let part = |x: i64, y: i64| {
            let high = rounded(times(y, 887), 1024);
            (x / 2).wrapping_add(i64::try_from(high).unwrap_or(0))
        };
        Sixty {
            u,
            v: Spot {
                x: part(u.x, w.x),
                y: part(u.y, w.y),
                z: part(u.z, w.z),
            },
        }
    }

    /// How often the two vectors lead from the corner to a point of the plane, rounded down.
    pub fn steps_to(&self, p: Spot, along: &Sixty) -> Option<(i64, i64)> {
        let w = self.axis.drawn(p.from(self.corner));
        let (u, v) = (self.axis.drawn(along.u), self.axis.drawn(along.v));
        let whole = minor(u, v);
        let i = minor(w, v).checked_div_euclid(whole)?;
        let j = minor(u, w).checked_div_euclid(whole)?;
        Some((i64::try_from(i).ok()?, i64::try_from(j).ok()?))
    }

    /// How many parallelograms with these sides have twice the area of a triangle, rounded down.
    pub fn parallelograms(&self, s: &[Spot; 3], along: &Sixty) -> i128 {
        let [a, b, c] = *s;
        let whole = minor(self.axis.drawn(along.u), self.axis.drawn(along.v));
        let quotient = self.side(a, b, c).checked_div(whole);
        quotient.unwrap_or(0).wrapping_abs()
    }
}

/// The fewest steps of a piece of a subsegment that is split.
const FEWEST: u64 = 4;

/// The lattice points of a subsegment: the first end, the step to the next one, and the number of
/// steps to the other end.
#[derive(Clone, Copy)]
pub struct Rung {
    from: Spot,
    step: Spot,
    pub count: u64,
}

impl Rung {
    /// The lattice points of the segment in steps of `2^halvings`, where both ends are such points.
    pub fn new(a: Spot, b: Spot, halvings: u32) -> Option<Rung> {
        if !a.is_on_lattice(halvings) || !b.is_on_lattice(halvings) {
            return None;
        }
        let (step, count) = primitive(b.from(a));
        Some(Rung {
            from: a,
            step: step.by(1_i64.wrapping_shl(halvings)),
            count: count.wrapping_shr(halvings),
        })
    }

    /// The most pieces into which the segment may be split.
    pub fn most_pieces(&self) -> u64 {
        self.count / FEWEST
    }

    /// The lattice point at this many steps.
    pub fn at(&self, k: u64) -> Spot {
        let k = i64::try_from(k).unwrap_or(0);
        self.from.plus(self.step.by(k))
    }

    /// The lattice point nearest to the middle, where there are enough of them.
    pub fn middle(&self) -> Option<Spot> {
        if self.most_pieces() < 2 {
            return None;
        }
        Some(self.at(self.count / 2))
    }

    /// The lattice point at the power of two nearest to half the length from the first end, or from
    /// the second one, where there are enough of them.
    pub fn shell(&self, is_from_second: bool) -> Option<Spot> {
        if self.most_pieces() < 2 {
            return None;
        }
        let step = self.step.dot(self.step);
        let count = i128::from(self.count);
        let square = step.wrapping_mul(count).wrapping_mul(count) / 4;
        let steps = shell_square(square).checked_div(step)?;
        let steps = u64::try_from(steps).ok()?.isqrt();
        let k = steps.max(1).min(self.count.saturating_sub(1));
        let k = if is_from_second {
            self.count.saturating_sub(k)
        } else {
            k
        };
        Some(self.at(k))
    }
}

/// The square of the power of two nearest to a length with this square, by the logarithm.
fn shell_square(square: i128) -> i128 {
    let bits = 128_u32.saturating_sub(square.leading_zeros());
    1_i128.wrapping_shl(bits / 2 * 2)
}

//! A basis of the whole vectors at right angles to a primitive vector.
//!
//! The vectors `v` with `n v = 0` have the basis `(ny, -nx, 0) / g` and `(-nz u, -nz v, g)` with `u
//! nx + v ny = g`, the greatest common divisor of `nx` and `ny`. The second is brought near to the
//! first by whole multiples of it, so that its coordinates are at most those of `n`, which are at
//! most `2^61`, and then the basis is reduced (Gauss): squares of lengths are below `2^125`.
use crate::spot::{Spot, rounded, times};

/// The most steps of Euclid's algorithm and of a reduction, more than 64 bits need.
const STEPS: u32 = 200;

/// The greatest common divisor.
fn divisor(x: u64, y: u64) -> u64 {
    let mut a = x;
    let mut b = y;
    for _ in 0..STEPS {
        let Some(rest) = a.checked_rem(b) else { break };
        a = b;
        b = rest;
    }
    a
}

/// A vector over the greatest common divisor of its coordinates, and that divisor.
pub(crate) fn primitive(v: Spot) -> (Spot, u64) {
    let (x, y, z) = (v.x.unsigned_abs(), v.y.unsigned_abs(), v.z.unsigned_abs());
    let g = divisor(x, divisor(y, z));
    let by = i64::try_from(g).unwrap_or(0);
    let over = |x: i64| x.checked_div(by).unwrap_or(0);
    let step = Spot {
        x: over(v.x),
        y: over(v.y),
        z: over(v.z),
    };
    (step, g)
}

/// A remainder of Euclid's algorithm as a sum of the two numbers.
#[derive(Clone, Copy)]
struct Remainder {
    value: i64,
    x: i64,
    y: i64,
}

/// The greatest common divisor of `x` and `y`, up to its sign, as a sum of multiples of them.
fn bezout(x: i64, y: i64) -> Remainder {
    let mut last = Remainder {
        value: x,
        x: 1,
        y: 0,
    };
    let mut next = Remainder {
        value: y,
        x: 0,
        y: 1,
    };
    for _ in 0..STEPS {
        let Some(q) = last.value.checked_div(next.value) else {
            break
        };
        let rest = Remainder {
            value: last.value.wrapping_sub(q.wrapping_mul(next.value)),
            x: last.x.wrapping_sub(q.wrapping_mul(next.x)),
            y: last.y.wrapping_sub(q.wrapping_mul(next.y)),
        };
        last = next;
        next = rest;
    }
    last
}

/// A vector with coordinates of 128 bits.
#[derive(Clone, Copy)]
struct Wide {
    x: i128,
    y: i128,
    z: i128,
}

impl Wide {
    /// The scalar product.
    fn dot(self, o: Wide) -> i128 {
        let plane = self
            .x
            .wrapping_mul(o.x)
            .wrapping_add(self.y.wrapping_mul(o.y));
        plane.wrapping_add(self.z.wrapping_mul(o.z))
    }

    /// The vector less a multiple of another.
    fn less(self, k: i128, o: Wide) -> Wide {
        Wide {
            x: self.x.wrapping_sub(k.wrapping_mul(o.x)),
            y: self.y.wrapping_sub(k.wrapping_mul(o.y)),
            z: self.z.wrapping_sub(k.wrapping_mul(o.z)),
        }
    }

    /// The vector in 64 bits.
    fn narrowed(self) -> Option<Spot> {
        match (
            i64::try_from(self.x),
            i64::try_from(self.y),
            i64::try_from(self.z),
        ) {
            (Ok(x), Ok(y), Ok(z)) => Some(Spot { x, y, z }),
            _ => None,
        }
    }
}

/// Two vectors that span a plane.
#[derive(Clone, Copy)]
struct Pair {
    first: Wide,
    second: Wide,
}

/// The basis before its reduction, for a vector that is not along the last axis.
fn first_basis(n: Spot) -> Pair {
    let g = bezout(n.x, n.y);
    let over = |x: i64| i128::from(x.checked_div(g.value).unwrap_or(0));
    let first = Wide {
        x: over(n.y),
        y: over(n.x).wrapping_neg(),
        z: 0,
    };
    let steep = Wide {
        x: times(n.z, g.x).wrapping_neg(),
        y: times(n.z, g.y).wrapping_neg(),
        z: i128::from(g.value),
    };
    let k = if first.x.unsigned_abs() >= first.y.unsigned_abs() {
        rounded(steep.x, first.x)
    } else {
        rounded(steep.y, first.y)
    };
    Pair {
        first,
        second: steep.less(k, first),
    }
}

/// The basis of the same vectors with the two shortest.
fn reduced(pair: Pair) -> Pair {
    let Pair { first, second } = pair;
    let mut short = first;
    let mut long = second;
    for _ in 0..STEPS {
        if short.dot(short) > long.dot(long) {
            let other = short;
            short = long;
            long = other;
        }
        let k = rounded(short.dot(long), short.dot(short));
        if k == 0 {
            break;
        }
        long = long.less(k, short);
    }
    Pair {
        first: short,
        second: long,
    }
}

/// A reduced basis of the whole vectors at right angles to a primitive vector.
pub(crate) fn basis_of(n: Spot) -> Option<(Spot, Spot)> {
    if n.x == 0 && n.y == 0 {
        let first = Spot { x: 1, y: 0, z: 0 };
        return Some((first, Spot { x: 0, y: 1, z: 0 }));
    }
    let Pair { first, second } = reduced(first_basis(n));
    Some((first.narrowed()?, second.narrowed()?))
}

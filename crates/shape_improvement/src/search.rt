//! The places at which a point is tried.
use crate::dice::Dice;
use mesh_parts::{Sphere, Spot, distance, times};

/// How many places are tried for a point.
pub(crate) const TRIES: u32 = 24;

/// How many places are tried for a point where few tetrahedra are to be bettered.
pub(crate) const MANY: u32 = 192;

/// A place with the least square of a sine there.
#[derive(Clone, Copy)]
pub(crate) struct Best {
    pub(crate) spot: Spot,
    pub(crate) sine: u64,
    pub(crate) is_found: bool,
}

/// What the places for a point of the inside or of a facet are found by.
#[derive(Clone, Copy)]
pub(crate) struct Search {
    /// The place of the point.
    pub(crate) from: Spot,
    /// The length of its shortest edge.
    pub(crate) length: i64,
    /// The mean of the circumcenters of its star.
    pub(crate) mean: Spot,
    /// The normal of the face opposite the point in a tetrahedron that is to be bettered, with the
    /// length.
    pub(crate) normal: Spot,
    /// The circumsphere of this tetrahedron, where the point is across one of its faces.
    pub(crate) across: Option<Sphere>,
}

/// A share of a number, in 128 bits on the way.
fn share(x: i64, over: i64, under: i128) -> i64 {
    let quotient = times(x, over).checked_div(under).unwrap_or(0);
    i64::try_from(quotient).unwrap_or(0)
}

/// The vector with this length.
pub(crate) fn with_length(v: Spot, length: i64) -> Spot {
    let v = v.over_power(v.bits_above(30));
    let own = i128::from(v.squared().isqrt());
    Spot {
        x: share(v.x, length, own),
        y: share(v.y, length, own),
        z: share(v.z, length, own),
    }
}

/// The vector times a number of hundredths.
fn hundredths(v: Spot, k: i64) -> Spot {
    Spot {
        x: share(v.x, k, 100),
        y: share(v.y, k, 100),
        z: share(v.z, k, 100),
    }
}

/// The radius of a sphere, rounded down.
pub(crate) fn radius_of(sphere: Sphere) -> i64 {
    i64::try_from(sphere.squared.isqrt()).unwrap_or(0)
}

/// How far from the best place others are tried.
fn reach_at(length: i64, k: u32) -> i64 {
    let eighths = match k % TRIES / 6 {
        0 => 3,
        1 => 2,
        _ => 1,
    };
    share(length, eighths, 8)
}

impl Search {
    /// A place for the point, the `k`-th.
    pub(crate) fn wish(&self, dice: &mut Dice, best: &Best, k: u32) -> Spot {
        if let Some(sphere) = self.across {
            return self.wish_in(sphere, dice, best, k);
        }
        let by = match k {
            0 => return self.mean,
            1 => 15,
            2 => -15,
            3 => 30,
            4 => -30,
            _ => return dice.near(best.spot, reach_at(self.length, k)),
        };
        self.from.plus(hundredths(self.normal, by))
    }

    /// A place in a sphere, the `k`-th: on the way from the point to the center, or near to it.
    fn wish_in(&self, sphere: Sphere, dice: &mut Dice, best: &Best, k: u32) -> Spot {
        if best.is_found {
            return dice.near(best.spot, reach_at(self.length, k));
        }
        let out = with_length(self.from.from(sphere.center), radius_of(sphere));
        let by = match k % 4 {
            0 => 97,
            1 => 85,
            2 => 73,
            _ => 61,
        };
        let p = sphere.center.plus(hundredths(out, by));
        if k < 4 {
            p
        } else {
            dice.near(p, share(self.length, 2, 5))
        }
    }

    /// Whether a place is well inside the sphere, if there is one.
    pub(crate) fn is_inside(&self, p: Spot) -> bool {
        match self.across {
            Some(sphere) => {
                let most = sphere.squared.wrapping_sub(sphere.squared / 32);
                distance(p, sphere.center) <= most
            }
            None => true,
        }
    }
}

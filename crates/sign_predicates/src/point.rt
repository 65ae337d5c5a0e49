//! Points of the grid and rational points.
ghost use Rattle.std.specs.Prelude.{◌≡◌};
ghost use Rattle.sign_predicates.specs.Point.{as_rational};

use std::marker::Model;

/// A point of the grid, in grid units. Each coordinate is at most `2^29` in size.
#[derive(Clone, Copy, Debug, PartialEq, Eq)]
pub struct GridPoint {
    pub x: i32,
    pub y: i32,
    pub z: i32,
}

impl Model for GridPoint {
    ghost use Rattle.sign_predicates.specs.Point.{Point, IsOnGrid};

    ghost Value = { Point };

    ghost view = { λ p. record { x = p.x; y = p.y; z = p.z } };

    ghost invariant = { λ p. IsOnGrid (record { x = p.x; y = p.y; z = p.z }) };

    ghost inverse = { λ p. record { x = p.x; y = p.y; z = p.z } };
}

/// The rational point `(x/w, y/w, z/w)`, in grid units. `w` is 1 or `10^6`, and each of `x`, `y`
/// and `z` is at most `(2^29 + 1) * w` in size.
#[derive(Clone, Copy, Debug, PartialEq, Eq)]
pub struct RatPoint {
    pub x: i64,
    pub y: i64,
    pub z: i64,
    pub w: i64,
}

impl Model for RatPoint {
    ghost use Rattle.sign_predicates.specs.Point.{RationalPoint, IsNearGrid};

    ghost Value = { RationalPoint };

    ghost view = { λ p. record { x = p.x; y = p.y; z = p.z; w = p.w } };

    ghost invariant = { λ p. IsNearGrid (record { x = p.x; y = p.y; z = p.z; w = p.w }) };

    ghost inverse = { λ p. record { x = p.x; y = p.y; z = p.z; w = p.w } };
}

impl RatPoint {
    /// The grid point, over the denominator 1.
    #[inline]
    pub fn of(p: GridPoint) -> Self
        ensures { result ≡ as_rational p }
    {
        RatPoint {
            x: p.x as i64,
            y: p.y as i64,
            z: p.z as i64,
            w: 1,
        }
    }
}

//! The grid point halfway between two others.

ghost use Rattle.std.specs.Prelude.{◌≡◌, ◌≤◌, ◌+ℤ◌, ℤ, unsigned_abs, MatchOption};
ghost use Rattle.grid_coords.specs.Midpoint.{IsMidpoint, HasNoMidpoint};

use sign_predicates::GridPoint;

/// Half the sum, or None where it is odd.
fn half_sum(a: i32, b: i32) -> Option<i32>
    requires a_small { unsigned_abs a ≤ 536870912 }
    requires b_small { unsigned_abs b ≤ 536870912 }
    ensures { MatchOption result ((h : ℤ) → ¬ (h +ℤ h ≡ a +ℤ b))
        (λ h. (h +ℤ h ≡ a +ℤ b) × (unsigned_abs h ≤ 536870912)) }
{
    let sum = a + b;
    if sum % 2 != 0 {
        return None;
    }
    Some(sum / 2)
}

/// The point halfway between the two, or None exactly where a coordinate's sum is odd.
pub fn midpoint(a: GridPoint, b: GridPoint) -> Option<GridPoint>
    ensures { MatchOption result (HasNoMidpoint a b) (IsMidpoint a b) }
{
    let x = half_sum(a.x, b.x)?;
    let y = half_sum(a.y, b.y)?;
    let z = half_sum(a.z, b.z)?;
    Some(GridPoint { x, y, z })
}

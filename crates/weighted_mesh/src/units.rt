//! A weight in squares of grid units.

ghost use Rattle.std.specs.Prelude.{◌≡◌, ◌≤◌, ◌*◌, ◌^◌, IfSome};
ghost use Rattle.tet_text.specs.Decimals.{signed};
ghost use Rattle.grid_coords.specs.Rounding.{rounded};
ghost use Rattle.sign_predicates.specs.Weighted.{IsWeight};
ghost use Rattle.weighted_mesh.specs.Weights.{weight_units};

use grid_coords::{Grid, round_to, units_within};
use tet_text::Decimal;

/// The greatest size of a weight in squares of grid units, 2^46.
const MOST_WEIGHT: u64 = 1 << 46;

/// The number rounded to twice the grid's decimals, halves away from zero.
fn rounded_twice(grid: &Grid, d: &Decimal) -> Decimal
    ensures { result ≡ rounded (2 * grid.now.decimals) d.now }
{
    round_to(d, grid.decimals.saturating_mul(2).min(d.scale))
}

/// The size with its sign.
fn signed(negative: bool, size: u64) -> i64
    requires { size ≤ 2 ^ 46 }
    ensures value { result ≡ signed negative size }
    ensures small { IsWeight result }
{
    let size = size as i64;
    if negative { -size } else { size }
}

/// The weight in squares of grid units, which are 1 / (10^(2 `decimals`) × 4^`halvings`). It is
/// first rounded to twice the grid's decimals, halves away from zero. None where it is then over
/// 2^46 in size.
pub(crate) fn to_weight(grid: &Grid, d: &Decimal) -> Option<i64>
    requires { grid.now.halvings ≤ 18 }
    ensures value { result ≡ weight_units grid.now d.now }
    ensures small { IfSome result IsWeight }
{
    let rounded = rounded_twice(grid, d);
    let decimals = 2 * u64::from(grid.decimals);
    match units_within(&rounded, decimals, 2 * grid.halvings, MOST_WEIGHT) {
        Some(size) => Some(signed(rounded.value < 0, size)),
        None => None,
    }
}

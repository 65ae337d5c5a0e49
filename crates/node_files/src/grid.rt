//! Sizes in the units of a grid on which they are whole.

ghost use Rattle.std.specs.Prelude.{◌≡◌, ◌≤◌, ◌*◌, ◌^◌};
ghost use Rattle.grid_coords.specs.Units.{limit, if_at_most};
ghost use Rattle.node_files.specs.Terms.{terms_of};
ghost use Rattle.node_files.specs.LeastGrid.{units_on};

use crate::terms::terms_of;
use grid_coords::Grid;
use tet_text::Decimal;

/// The greatest size of a grid coordinate, 2^29.
const LIMIT: u64 = 536_870_912;

/// The number times `base`^`steps`, or None where that is over the limit.
fn raised(number: u128, base: u32, steps: u64) -> Option<u64>
    requires base_small { base ≤ 5 }
    requires base_some { 2 ≤ base }
    ensures { result ≡ if_at_most limit (number * base ^ steps) }
{
    if number == 0 {
        return Some(0);
    }
    let mut product = number;
    for _ in 0..steps {
        if product > u128::from(LIMIT) {
            return None;
        }
        product *= u128::from(base);
    }
    if product > u128::from(LIMIT) {
        return None;
    }
    Some(product as u64)
}

/// The number times 5^`by_five` and 2^`by_two`, or None where that is over the limit.
fn raised_twice(number: u128, by_five: u64, by_two: u64) -> Option<u64>
    ensures { result ≡ if_at_most limit (number * 5 ^ by_five * 2 ^ by_two) }
{
    let fives = raised(number, 5, by_five)?;
    raised(u128::from(fives), 2, by_two)
}

/// The size of the number in units of the grid, or None where that is over the limit.
#[tactic(auto, unfolding(crate::specs::LeastGrid::units_on))]
pub(crate) fn units_on(grid: &Grid, d: &Decimal) -> Option<u64>
    ensures { result ≡ if_at_most limit (units_on grid.now d.now) }
{
    let terms = terms_of(d);
    let halved = u64::from(grid.decimals) + u64::from(grid.halvings);
    raised_twice(
        terms.numerator,
        u64::from(grid.decimals.saturating_sub(terms.fives)),
        halved.saturating_sub(u64::from(terms.twos)),
    )
}

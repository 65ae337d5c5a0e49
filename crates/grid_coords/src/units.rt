//! Sizes in the units of a grid.

ghost use Rattle.std.specs.Prelude.{◌≡◌, ◌≤◌, ◌*◌, ◌^◌, IfSome};
ghost use Rattle.grid_coords.specs.Units.{if_at_most, units};

use tet_text::Decimal;

/// The greatest size of a grid coordinate, 2^29.
pub(crate) const LIMIT: u64 = 536_870_912;

/// The number times `base`^`steps`, or None where that is over `most`.
fn raised(number: u128, base: u32, steps: u64, most: u64) -> Option<u64>
    requires base_small { base ≤ 10 }
    requires base_some { 2 ≤ base }
    ensures { result ≡ if_at_most most (number * base ^ steps) }
{
    if number == 0 {
        return Some(0);
    }
    let mut product = number;
    for _ in 0..steps {
        if product > u128::from(most) {
            return None;
        }
        product *= u128::from(base);
    }
    if product > u128::from(most) {
        return None;
    }
    Some(product as u64)
}

/// The number times 2^`steps`, or None where that is over `most`.
fn doubled(number: u64, steps: u32, most: u64) -> Option<u64>
    ensures { result ≡ if_at_most most (number * 2 ^ steps) }
{
    if steps > 63 {
        return raised(u128::from(number), 2, u64::from(steps), most);
    }
    let product = u128::from(number) * (1 << steps);
    if product > u128::from(most) {
        return None;
    }
    Some(product as u64)
}

/// The size of the number in units of 1 / (10^`decimals` × 2^`halvings`), or None where that is
/// over `most`.
pub fn units_within(d: &Decimal, decimals: u64, halvings: u32, most: u64) -> Option<u64>
    ensures { result ≡ if_at_most most (units decimals halvings d.now) }
{
    let steps = decimals.saturating_sub(u64::from(d.scale));
    let tens = raised(d.value.unsigned_abs(), 10, steps, most)?;
    doubled(tens, halvings, most)
}

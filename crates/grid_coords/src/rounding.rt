//! Rounding.

ghost use Rattle.std.specs.Prelude.{◌≡◌, ◌≤◌, ◌<◌, ◌*◌, ◌^◌, pos};
ghost use Rattle.tet_text.specs.Decimals.{IsDecimal, signed};
ghost use Rattle.grid_coords.specs.Rounding.{nearest_whole, rounded};

use tet_text::{Decimal, without_trailing_zeros};

/// As `nearest`, in 64 bits.
fn nearest_narrow(number: u64, steps: u32) -> u64
    requires few { steps ≤ 18 }
    requires some { 0 < steps }
    requires small { number < 2 ^ 62 }
    ensures { result ≡ nearest_whole number steps }
{
    let unit = 10u64.pow(steps);
    (2 * number + unit) / (2 * unit)
}

/// The whole number nearest to `number` / 10^`steps`, and the larger of two.
fn nearest(number: u128, steps: u32) -> u128
    requires some { 0 < steps }
    requires small { number < 10 ^ 36 }
    ensures value { result ≡ nearest_whole number steps }
    ensures small { result < 10 ^ 36 }
{
    if steps > 36 {
        return 0;
    }
    if steps <= 18 && number < 1 << 62 {
        return u128::from(nearest_narrow(number as u64, steps));
    }
    let unit = 10u128.pow(steps);
    (2 * number + unit) / (2 * unit)
}

pub(crate) fn signed(negative: bool, size: u128) -> i128
    requires { size < 10 ^ 36 }
    ensures { result ≡ signed negative size }
{
    let size = size as i128;
    if negative { -size } else { size }
}

/// The number rounded to `decimals` decimals, halves away from zero. A number with no more decimals
/// than that is left as it is; else at least one digit goes, so that at most 10^35 is left.
#[tactic(auto, using(tet_text::proofs::Scaling::lowest_is_decimal, tet_text::proofs::Scaling::signed_is_decimal), unfolding(crate::specs::Rounding::rounded))]
pub fn round_to(d: &Decimal, decimals: u32) -> Decimal
    ensures { result ≡ rounded decimals d.now }
{
    if d.scale <= decimals {
        return *d;
    }
    let size = nearest(d.value.unsigned_abs(), d.scale - decimals);
    let (size, scale) = without_trailing_zeros(size, decimals);
    let value = signed(d.value < 0, size);
    Decimal { value, scale }
}

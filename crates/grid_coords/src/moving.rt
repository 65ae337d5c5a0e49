//! Coordinates less those of an origin.

ghost use Rattle.std.specs.Prelude.{◌≡◌, ◌≤◌, ◌*◌, ◌^◌, pos, ◌*ℤ◌, unsigned_abs};
ghost use Rattle.grid_coords.specs.Origins.{moved};
ghost use Rattle.grid_coords.specs.Rounding.{rounded};

use crate::rounding::{round_to, signed};
use tet_text::{Decimal, without_trailing_zeros};

/// 10^36
const LIMIT: u128 = 1_000_000_000_000_000_000_000_000_000_000_000_000;

/// A whole number in units of 10^-`steps`.
pub(crate) fn tens_of(w: i64, steps: u32) -> i128
    requires fine { steps ≤ 35 }
    requires near { unsigned_abs w * 10 ^ steps ≤ 10 ^ 35 }
    ensures value { result ≡ w *ℤ pos (10 ^ steps) }
    ensures small { unsigned_abs result ≤ 10 ^ 35 }
{
    let tens = 10u128.pow(steps) as i128;
    i128::from(w) * tens
}

/// The number less a whole number; a number that would have more than 36 digits then stays.
fn moved(w: i64, d: &Decimal) -> Decimal
    requires fine { d.now.scale ≤ 23 }
    requires near { unsigned_abs w * 10 ^ d.now.scale ≤ 10 ^ 23 }
    ensures { result ≡ moved w d.now }
{
    let n = d.value - tens_of(w, d.scale);
    if n.unsigned_abs() >= LIMIT {
        return *d;
    }
    let (size, scale) = without_trailing_zeros(n.unsigned_abs(), d.scale);
    let value = signed(n < 0, size);
    Decimal { value, scale }
}

/// The number rounded to `decimals` decimals, less a whole number.
pub fn moved_rounded(w: i64, decimals: u32, d: &Decimal) -> Decimal
    requires fine { decimals ≤ 23 }
    requires near { unsigned_abs w * 10 ^ decimals ≤ 10 ^ 23 }
    ensures { result ≡ moved w (rounded decimals d.now) }
{
    moved(w, &round_to(d, decimals))
}

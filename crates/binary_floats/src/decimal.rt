//! The decimal of a float.

ghost use Rattle.std.specs.Prelude.{◌≡◌, ◌<◌, ◌≤◌, ◌+◌, ◌*◌, ◌-◌, ◌^◌, IfSome, pos};
ghost use Rattle.std.specs.Option.{option_map};
ghost use Rattle.tet_text.specs.Decimals.{IsDecimal, below_limit, lowest, signed, with_sign};
ghost use Rattle.binary_floats.specs.Floats.{step_count, float_exponent, float_steps};
ghost use Rattle.binary_floats.specs.Shortest.{shortest, float_decimal};

use crate::place::shortest;
use crate::steps::{count_of, exponent_of, is_negative, steps_of};
use tet_text::{Decimal, without_trailing_zeros};

/// 10^36
const LIMIT: u128 = 1_000_000_000_000_000_000_000_000_000_000_000_000;

/// The size / 10^`scale` with its sign.
#[tactic(auto, using(tet_text::proofs::Scaling::signed_is_decimal))]
fn signed(negative: bool, size: u128, scale: u32) -> Decimal
    requires { IsDecimal (record { value = pos size; scale = scale }) }
    ensures { result ≡ with_sign negative (size, scale) }
{
    let size = size as i128;
    let value = if negative { -size } else { size };
    Decimal { value, scale }
}

/// The size of a float from 2^23 on, where it is below 10^36.
fn whole_size(bits: u32) -> Option<u128>
    requires { (150 ≤ float_exponent bits) × (float_exponent bits < 255) }
    ensures value { result ≡ below_limit (step_count bits * 2 ^ (float_exponent bits - 150)) }
    ensures bound { IfSome result (λ n. n < 10 ^ 36) }
{
    let size = u128::from(count_of(bits)) * 2_u128.pow(exponent_of(bits) - 150);
    if size < LIMIT { Some(size) } else { None }
}

/// The size of a float below 2^23, and how many of its digits stand behind the point.
fn size_in_parts(bits: u32) -> Option<(u128, u32)>
    requires { float_exponent bits < 150 }
    ensures value { result ≡ shortest (float_steps bits) }
    ensures bound { IfSome result (λ d. d.0 ≤ 2 ^ 100 + 1) }
{
    let steps = steps_of(bits);
    if steps.count == 0 {
        return Some((0, 0));
    }
    shortest(&steps)
}

/// The shortest decimal of the binary float of 32 bits with the given bits; None where the float is
/// infinite or no number, or 10^36 or more in size.
///
/// The shortest decimal has the fewest digits behind the point that read back as the float, where
/// reading rounds to the nearest float, and on a middle to the even one. Of several such decimals
/// it is the nearest, and of two that are equally near the even one. A float that is whole is
/// itself.
pub fn float_decimal(bits: u32) -> Option<Decimal>
    ensures { result ≡ float_decimal bits }
{
    let negative = is_negative(bits);
    let exponent = exponent_of(bits);
    if exponent >= 255 {
        return None;
    }
    if exponent >= 150 {
        let size = whole_size(bits)?;
        return Some(signed(negative, size, 0));
    }
    let (number, places) = size_in_parts(bits)?;
    let (size, scale) = without_trailing_zeros(number, places);
    Some(signed(negative, size, scale))
}

//! Decimals, exactly.

ghost use Rattle.std.specs.Prelude.{◌≡◌, IfOk, ◌≤◌, ◌<◌, ◌*◌, ◌^◌, ◌++◌, length, IfSome, pos};
ghost use Rattle.std.specs.Option.{ok_or};
ghost use Rattle.tet_text.specs.Numbers.{number_of};
ghost use Rattle.tet_text.specs.Decimals.{IsDecimal, below_limit, scaled_of, lowest, signed, with_sign, steps_of, parts_of, decimal_of, IsNumberOf};
ghost use Rattle.tet_text.specs.Faults.{not_a_number};

use crate::cuts::{cut_exponent, cut_point};
use crate::digits::{cut_sign, digits_after, read_digits};
use crate::numbers::no_number;
use crate::{Field, TextFault};
use std::marker::Model;

/// 10^35
const TENTH_OF_LIMIT: u128 = 100_000_000_000_000_000_000_000_000_000_000_000;

/// The number `value` / 10^`scale`. Its size is below 10^36, and its fraction has no trailing zero:
/// `scale` is 0, or `value` is no multiple of 10.
#[derive(Clone, Copy, Debug, PartialEq, Eq)]
pub struct Decimal {
    pub value: i128,
    pub scale: u32,
}

impl Model for Decimal {
    ghost use Rattle.tet_text.specs.Decimals.{Scaled, IsDecimal};

    ghost Value = { Scaled };

    ghost view = { λ d. record { value = d.value; scale = d.scale } };

    ghost invariant = { λ d. IsDecimal (record { value = d.value; scale = d.scale }) };

    ghost inverse = { λ d. record { value = d.value; scale = d.scale } };
}

/// The number times 10^`by`, or None where that is 10^36 or more.
fn raised(number: u128, by: u32) -> Option<u128>
    requires { number < 10 ^ 36 }
    ensures value { result ≡ below_limit (number * 10 ^ by) }
    ensures small { IfSome result (λ n. n < 10 ^ 36) }
{
    let mut product = number;
    for _ in 0..by {
        if product >= TENTH_OF_LIMIT {
            return None;
        }
        product *= 10;
    }
    Some(product)
}

/// The number / 10^`scale` with no trailing zero in its fraction: what is left of the number, and
/// of the scale.
pub fn lowest(number: u128, scale: u64) -> (u128, u64)
    ensures value { result ≡ lowest number scale }
    ensures shorter { result.1 ≤ scale }
{
    let mut value = number;
    let mut left = scale;
    while left > 0 && value % 10 == 0 {
        value /= 10;
        left -= 1;
    }
    (value, left)
}

/// As `lowest`, for a scale of 32 bits.
pub fn without_trailing_zeros(number: u128, scale: u32) -> (u128, u32)
    ensures { result ≡ lowest number scale }
{
    let (value, left) = lowest(number, u64::from(scale));
    (value, left as u32)
}

/// The number times 10^`raise` / 10^`lower`, or None where that is 10^36 or more.
#[tactic(auto, using(crate::proofs::Scaling::scaled_up, crate::proofs::Scaling::scaled_down, crate::proofs::Scaling::whole_is_decimal, crate::proofs::Scaling::lowest_is_decimal))]
fn scaled(number: u128, raise: u32, lower: u32) -> Option<(u128, u32)>
    requires { number < 10 ^ 36 }
    ensures value { result ≡ scaled_of number raise lower }
    ensures is_decimal { IfSome result (λ d. IsDecimal (record { value = pos d.0; scale = d.1 })) }
{
    if raise > lower {
        return Some((raised(number, raise - lower)?, 0));
    }
    Some(without_trailing_zeros(number, lower - raise))
}

/// The digits before the point and after it, as one number; from 1 to 36 digits.
#[tactic(auto, using(crate::proofs::Numerals::number_of_fits, crate::proofs::Numerals::tens_le, crate::proofs::Numerals::digits_from_joined))]
fn both_digits(whole: &[u8], fraction: &[u8]) -> Option<u128>
    ensures value { result ≡ number_of 36 (whole.now ++ fraction.now) }
    ensures small { IfSome result (λ n. n < 10 ^ 36) }
    ensures short { IfSome result (λ _. length fraction.now ≤ 36) }
{
    let count = whole.len().saturating_add(fraction.len());
    if count == 0 || count > 36 {
        return None;
    }
    digits_after(digits_after(0, whole)?, fraction)
}

/// By how many tens the exponent raises the number, and by how many it lowers it.
fn exponent_steps(exponent: &[u8]) -> Option<(u32, u32)>
    ensures value { result ≡ steps_of exponent.now }
    ensures small { IfSome result (λ s. (s.0 < 1000) × (s.1 < 1000)) }
{
    let (falls, unsigned) = cut_sign(exponent);
    let size = read_digits(unsigned, 3)? as u32;
    Some(if falls { (0, size) } else { (size, 0) })
}

fn signed(negative: bool, size: u128) -> i128
    requires { size < 10 ^ 36 }
    ensures { result ≡ signed negative size }
{
    let size = size as i128;
    if negative { -size } else { size }
}

/// The number / 10^`decimals`, with its sign.
#[tactic(auto, using(crate::proofs::Scaling::signed_is_decimal, crate::proofs::Scaling::lowest_is_decimal, crate::proofs::Scaling::lowest_le))]
pub(crate) fn short_decimal(negative: bool, number: u64, decimals: u32) -> Decimal
    requires { number < 10 ^ 19 }
    ensures { result ≡ with_sign negative (lowest number decimals) }
{
    let (size, scale) = without_trailing_zeros(u128::from(number), decimals);
    let value = signed(negative, size);
    Decimal { value, scale }
}

/// The decimal that a text writes, as `read_decimal` reads it of a field; None where it writes
/// none.
#[tactic(auto, using(crate::proofs::Scaling::signed_is_decimal), unfolding(crate::specs::Decimals::decimal_of_parts))]
pub fn decimal_in(text: &[u8]) -> Option<Decimal>
    ensures { result ≡ decimal_of text.now }
{
    let (negative, unsigned) = cut_sign(text);
    let (mantissa, exponent) = cut_exponent(unsigned);
    let (whole, fraction) = cut_point(mantissa);
    let digits = both_digits(whole, fraction)?;
    let (raise, lower) = exponent_steps(exponent)?;
    let (size, scale) = scaled(digits, raise, fraction.len() as u32 + lower)?;
    let value = signed(negative, size);
    Some(Decimal { value, scale })
}

/// The decimal that the field writes: 1 to 36 digits with at most one point, perhaps a sign before
/// them, and perhaps an exponent of 1 to 3 digits behind them; NotANumber where the field is not of
/// that form, or its size is 10^36 or more.
pub fn read_decimal(field: &Field) -> Result<Decimal, TextFault>
    ensures value { result ≡ ok_or (decimal_of field.now.text.now) (not_a_number field.now.line) }

    // It is the number that the text writes.
    ensures exact { IfOk result (IsNumberOf (parts_of field.now.text.now)) }
{
    decimal_in(field.bytes()).ok_or(no_number(field))
}

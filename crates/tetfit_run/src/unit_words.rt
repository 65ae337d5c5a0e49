//! Reads the unit to whose multiples coordinates are rounded.

ghost use Rattle.std.specs.Prelude.{◌≡◌, ◌≤◌, ◌<◌, ◌^◌, length, position, unsigned_abs, IfSome, IsTrue};
ghost use Rattle.command_words.specs.Meaning.{IsUnit};
ghost use Rattle.tet_text.specs.Decimals.{Scaled};
ghost use Rattle.tetfit_run.specs.Words.{decimals_of_unit, fit_unit, is_bad, is_bad_unit};
ghost use Rattle.tetfit_run.specs.Words.{is_unit_number, more_than_one, unit_in};

use crate::goal::is_bad_bound;
use crate::kinds::UNIT;
use crate::request::is_unit;
use tet_ports::Words;
use tet_text::{Decimal, decimal_in};

/// Whether the number has from one to three digits, without zeros at its ends, is above 0, and has
/// at most 20 decimals.
fn is_unit_number(number: &Decimal) -> bool
    ensures value { result ≡ is_unit_number number.now }
    ensures most { IsTrue result → unsigned_abs number.now.value ≤ 999 }
    ensures fine { IsTrue result → number.now.scale ≤ 20 }
{
    number.value > 0 && number.value.unsigned_abs() <= 999 && number.scale <= 20
}

/// The unit that the word gives.
fn unit_in(word: &[u8]) -> Option<Decimal>
    ensures value { result ≡ unit_in word.now }
    ensures most { IfSome result (λ (u : Scaled). unsigned_abs u.value ≤ 999) }
    ensures fine { IfSome result (λ (u : Scaled). u.scale ≤ 20) }
{
    if !is_unit(word) {
        return None;
    }
    let number = decimal_in(&word[UNIT.len()..])?;
    if is_unit_number(&number) {
        Some(number)
    } else {
        None
    }
}

/// The last unit that a word gives.
pub(crate) fn fit_unit(words: &Words) -> Option<Decimal>
    ensures value { result ≡ fit_unit words.now }
    ensures most { IfSome result (λ (u : Scaled). unsigned_abs u.value ≤ 999) }
    ensures fine { IfSome result (λ (u : Scaled). u.scale ≤ 20) }
{
    let mut last = None;
    for word in words.as_slice() {
        last = unit_in(word.as_slice()).or(last);
    }
    last
}

/// How many decimals are tried where a unit is given, or else this number.
pub(crate) fn decimals_of_unit(unit: Option<Decimal>, decimals: Option<u32>) -> Option<u32>
    requires unit { IfSome unit (λ (u : Scaled). u.scale ≤ 20) }
    requires decimals { IfSome decimals (λ m. m ≤ 20) }
    ensures value { result ≡ decimals_of_unit unit decimals }
    ensures few { IfSome result (λ m. m ≤ 20) }
{
    match unit {
        None => decimals,
        Some(unit) => Some(unit.scale),
    }
}

/// The unit, where it is more than one of its last decimal, which the decimals alone ask for.
pub(crate) fn more_than_one(unit: Option<Decimal>) -> Option<Decimal>
    requires most { IfSome unit (λ (u : Scaled). unsigned_abs u.value ≤ 999) }
    requires fine { IfSome unit (λ (u : Scaled). u.scale ≤ 20) }
    ensures value { result ≡ more_than_one unit }
    ensures unit { IfSome result IsUnit }
{
    let unit = unit?;
    if unit.value.unsigned_abs() > 1 {
        Some(unit)
    } else {
        None
    }
}

fn is_bad_unit(word: &[u8]) -> bool
    ensures { result ≡ is_bad_unit word.now }
{
    is_unit(word) && unit_in(word).is_none()
}

/// Whether the word gives a bound or a unit in a form that is none.
fn is_bad(word: &[u8]) -> bool
    ensures { result ≡ is_bad word.now }
{
    is_bad_bound(word) || is_bad_unit(word)
}

/// The first word that gives a bound or a unit in a form that is none, by its place from 0.
pub(crate) fn bad_word(words: &Words) -> Option<usize>
    ensures value { result ≡ position is_bad words.now }
    ensures there { IfSome result (λ i. i < 2 ^ 63) }
{
    words
        .as_slice()
        .iter()
        .position(|word| is_bad(word.as_slice()))
}

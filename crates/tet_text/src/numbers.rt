//! Counts and whole numbers.

ghost use Rattle.std.specs.Prelude.{◌≡◌, ◌<◌, ◌^◌, IfSome, IfOk};
ghost use Rattle.std.specs.Option.{ok_or};
ghost use Rattle.tet_text.specs.Numbers.{count_of, whole_of};
ghost use Rattle.tet_text.specs.Faults.{not_a_number};

use crate::digits::{cut_sign, read_digits};
use crate::{Field, TextFault, TextKind};

/// The fault of a field that is not the number that is wanted.
pub(crate) fn no_number(field: &Field) -> TextFault
    ensures { result ≡ not_a_number field.now.line }
{
    TextFault {
        line: field.line,
        kind: TextKind::NotANumber,
    }
}

fn count(text: &[u8]) -> Option<u64>
    ensures value { result ≡ count_of text.now }
    ensures small { IfSome result (λ n. n < 10 ^ 18) }
{
    let number = read_digits(text, 18)?;
    Some(number as u64)
}

fn whole(text: &[u8]) -> Option<i64>
    ensures { result ≡ whole_of text.now }
{
    let (negative, unsigned) = cut_sign(text);
    let number = read_digits(unsigned, 18)? as i64;
    Some(if negative { -number } else { number })
}

/// The count that the field writes with 1 to 18 digits; NotANumber where it is not of that form.
pub fn read_count(field: &Field) -> Result<u64, TextFault>
    ensures value { result ≡ ok_or (count_of field.now.text.now) (not_a_number field.now.line) }
    ensures small { IfOk result (λ n. n < 10 ^ 18) }
{
    count(field.bytes()).ok_or(no_number(field))
}

/// The whole number that the field writes with 1 to 18 digits and perhaps a sign before them;
/// NotANumber where it is not of that form.
pub fn read_whole(field: &Field) -> Result<i64, TextFault>
    ensures { result ≡ ok_or (whole_of field.now.text.now) (not_a_number field.now.line) }
{
    whole(field.bytes()).ok_or(no_number(field))
}

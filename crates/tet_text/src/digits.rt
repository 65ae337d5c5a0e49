//! Digits, and the sign before them.

ghost use Rattle.std.specs.Prelude.{◌≡◌, ◌≤◌, ◌<◌, ◌+◌, ◌*◌, ◌^◌, Some, None, length, IfSome};
ghost use Rattle.std.specs.Str.Parse.{starts_with_minus, without_leading_sign};
ghost use Rattle.tet_text.specs.Numbers.{number_of, digits_from};

/// The number that the digits write behind those of `before`, or None where a byte is no digit.
pub(crate) fn digits_after(before: u128, text: &[u8]) -> Option<u128>
    requires { (before + 1) * 10 ^ length text.now ≤ 10 ^ 36 }
    ensures value { result ≡ digits_from before text.now }
    ensures room { IfSome result (λ n. n + 1 ≤ (before + 1) * 10 ^ length text.now) }
{
    let mut number = before;
    for byte in text {
        if !byte.is_ascii_digit() {
            return None;
        }
        number = number * 10 + u128::from(*byte - b'0');
    }
    Some(number)
}

/// The number that the digits write, of which there are 1 to `most`; None where the text is not of
/// that form.
#[tactic(auto, using(crate::proofs::Numerals::number_of_fits, crate::proofs::Numerals::number_of_nothing, crate::proofs::Numerals::number_of_many, crate::proofs::Numerals::tens_le))]
pub fn read_digits(text: &[u8], most: usize) -> Option<u128>
    requires { most ≤ 36 }
    ensures value { result ≡ number_of most text.now }
    ensures small { IfSome result (λ n. n < 10 ^ most) }
{
    if text.is_empty() || text.len() > most {
        return None;
    }
    digits_after(0, text)
}

/// Whether a minus stands first, and the bytes behind the sign, if there is one.
pub(crate) fn cut_sign(text: &[u8]) -> (bool, &[u8])
    ensures minus { result.0 ≡ starts_with_minus text.now }
    ensures rest { result.1.now ≡ without_leading_sign text.now }
{
    match text {
        [b'-', rest @ ..] => (true, rest),
        [b'+', rest @ ..] => (false, rest),
        _ => (false, text),
    }
}

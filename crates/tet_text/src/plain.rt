//! Digits with at most one point, in 64 bits.

ghost use Rattle.std.specs.Prelude.{◌≡◌, ◌==◌, ◌≤◌, ◌<◌, ◌+◌, ◌-◌, ◌*◌, ◌^◌, Some, length, take, IfSome, true};
ghost use Rattle.std.specs.List.{list_all, prefix_len};
ghost use Rattle.tet_text.specs.Lines.{is_no_blank};
ghost use Rattle.tet_text.specs.Numbers.{digits_from};
ghost use Rattle.tet_text.specs.PlainTexts.{IsPlain, IsPlainField};

use crate::cuts::is_blank;
use crate::digits::cut_sign;

/// How many bytes a number of 64 bits is read from at most.
const MOST_BYTES: usize = 19;

/// The number that the leading digits write behind those of `before`, and how many they are.
fn leading_digits(before: u64, text: &[u8]) -> (u64, usize)
    requires { (before + 1) * 10 ^ length text.now ≤ 10 ^ 19 }
    ensures value { digits_from before (take result.1 text.now) ≡ Some result.0 }
    ensures within { result.1 ≤ length text.now }
    ensures room { (result.0 + 1) * 10 ^ (length text.now - result.1)
        ≤ (before + 1) * 10 ^ length text.now }
{
    let mut number = before;
    let mut count = 0;
    while count < text.len() && text[count].is_ascii_digit() {
        number = number * 10 + u64::from(text[count] - b'0');
        count += 1;
    }
    (number, count)
}

/// The number that the bytes begin with, how many of its digits stand behind the point, and how
/// many bytes it has: digits with at most one point. None where no digit is there.
fn plain_prefix(bytes: &[u8]) -> Option<(u64, u32, usize)>
    requires { length bytes.now ≤ 19 }
    ensures plain { IfSome result (λ d. IsPlain (take d.2 bytes.now) d.0 d.1) }
    ensures no_blank { IfSome result (λ d. list_all is_no_blank (take d.2 bytes.now) ≡ true) }
    ensures within { IfSome result (λ d. (0 < d.2) × (d.2 ≤ length bytes.now)) }
    ensures small { IfSome result (λ d. d.0 < 10 ^ 19) }
{
    let (whole, place) = leading_digits(0, bytes);
    if place == bytes.len() || bytes[place] != b'.' {
        return if place == 0 {
            None
        } else {
            Some((whole, 0, place))
        };
    }
    let fraction = &bytes[place + 1..];
    let (number, decimals) = leading_digits(whole, fraction);
    if place + decimals == 0 {
        return None;
    }
    Some((number, decimals as u32, place + 1 + decimals))
}

fn first_bytes(bytes: &[u8]) -> &[u8]
    ensures prefix { result.now ≡ take 19 bytes.now }
    ensures few { length result.now ≤ 19 }
{
    if bytes.len() > MOST_BYTES {
        return &bytes[..MOST_BYTES];
    }
    bytes
}

/// Whether no byte is there, or a blank.
fn ends_field(bytes: &[u8]) -> bool
    ensures { result ≡ (prefix_len is_no_blank bytes.now == 0) }
{
    match bytes {
        [] => true,
        [byte, ..] => is_blank(*byte),
    }
}

/// The decimal of the first field, where it has at most `MOST_BYTES` bytes behind its sign, which
/// are digits and at most one point: its sign, its digits, how many of them stand behind the point,
/// and the bytes behind the field. Else None.
pub(crate) fn plain_field(bytes: &[u8]) -> Option<(bool, u64, u32, &[u8])>
    ensures { IfSome result (λ d. IsPlainField bytes.now d.0 d.1 d.2 d.3.now) }
{
    let (negative, unsigned) = cut_sign(bytes);
    let (number, decimals, count) = plain_prefix(first_bytes(unsigned))?;
    let rest = &unsigned[count..];
    if !ends_field(rest) {
        return None;
    }
    Some((negative, number, decimals, rest))
}

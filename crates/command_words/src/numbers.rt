//! The numbers of the command line.

ghost use Rattle.std.specs.Prelude.{◌≡◌, ◌<◌, ◌≤◌, IfSome, length, not, position};
ghost use Rattle.std.specs.Char.{is_ascii_digit};
ghost use Rattle.command_words.specs.Words.{digit_count, last_number, number_at_front, number_in, sample_words};

use tet_ports::Words;
use tet_text::read_digits;

/// The front of the long word that bounds the halvings of the grid.
pub(crate) const HALVINGS: &[u8] = b"--halvings=";

/// The most halvings of the grid that the words of `tetgen` ask for.
pub(crate) const MOST_HALVINGS: u32 = 12;

/// The front of the long word that rounds coordinates.
pub(crate) const DECIMALS: &[u8] = b"--decimals=";

/// The most decimals to which coordinates are rounded.
pub(crate) const MOST_DECIMALS: u32 = 20;

/// The front of the long word that asks for the sample.
pub(crate) const SAMPLE: &[u8] = b"--sample=";

/// The most points of the sample.
pub(crate) const MOST_SAMPLE: u32 = 10_000;

fn first_no_digit(text: &[u8]) -> Option<usize>
    ensures value { result ≡ position (λ byte. not (is_ascii_digit byte)) text.now }
    ensures bound { IfSome result (λ i. i < length text.now) }
{
    text.iter().position(|byte| !byte.is_ascii_digit())
}

/// How many digits stand at the front.
pub(crate) fn digit_count(text: &[u8]) -> usize
    ensures value { result ≡ digit_count text.now }
    ensures bound { result ≤ length text.now }
{
    first_no_digit(text).unwrap_or(text.len())
}

/// The number that all digits at the front write, where there are 1 to 9 of them and it is at most
/// `most`.
pub(crate) fn number_at_front(most: u32, text: &[u8]) -> Option<u32>
    ensures value { result ≡ number_at_front most text.now }
    ensures bound { IfSome result (λ n. n ≤ most) }
{
    let number = read_digits(&text[..digit_count(text)], 9)?;
    if number <= u128::from(most) {
        Some(number as u32)
    } else {
        None
    }
}

/// The number of a long word with this front.
fn number_in(front: &[u8], most: u32, word: &[u8]) -> Option<u32>
    ensures value { result ≡ number_in front.now most word.now }
    ensures bound { IfSome result (λ n. n ≤ most) }
{
    number_at_front(most, word.strip_prefix(front)?)
}

/// The number of the last long word with this front.
pub(crate) fn last_number(front: &[u8], most: u32, words: &Words) -> Option<u32>
    ensures value { result ≡ last_number front.now most words.now }
    ensures bound { IfSome result (λ n. n ≤ most) }
{
    let mut last = None;
    for word in words.as_slice() {
        last = number_in(front, most, word.as_slice()).or(last);
    }
    last
}

/// The number of points of the sample, where the words ask for it.
pub(crate) fn sample_of(words: &Words) -> Option<u32>
    ensures value { result ≡ sample_words words.now }
    ensures bound { IfSome result (λ n. n ≤ 10000) }
{
    last_number(SAMPLE, MOST_SAMPLE, words)
}

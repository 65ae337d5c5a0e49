//! Where words are against their grammar.

ghost use Rattle.std.specs.Prelude.{◌≡◌, ◌≤◌, ◌<◌, false, length, drop};
ghost use Rattle.command_words.specs.Grammar.{are_at_odds, is_no_check, are_not_weighted, bad_word_from, cluster_fault, is_of_complex, names_complex, long_fault, number_fault, switches_fault, word_fault, words_fault_within};

use crate::budget::budget_at_front;
use crate::grammar::{is_cluster, is_long, is_name, is_named, is_switched, name_of};
use crate::names::extension_of;
use crate::numbers::{
    DECIMALS, HALVINGS, MOST_DECIMALS, MOST_SAMPLE, SAMPLE, digit_count, number_at_front, sample_of,
};
use crate::options::{Extension, is_letter};
use tet_ports::Words;

/// The first fault of the words, which may ask for at most `halvings` halvings: the number of the
/// word and the place in it, both counted from 1.
pub(crate) fn words_fault(halvings: u32, words: &Words) -> Option<(usize, usize)>
    ensures { result ≡ words_fault_within halvings words.now }
{
    if let Some(fault) = bad_word(halvings, words) {
        return Some(fault);
    }
    if is_named(words) == sample_of(words).is_some() {
        return Some((words.len() + 1, 1));
    }
    if are_at_odds(words) {
        Some((words.len() + 1, 2))
    } else {
        None
    }
}

/// Whether the extension is that of a complex.
fn is_of_complex(extension: Option<Extension>) -> bool
    ensures { result ≡ is_of_complex extension }
{
    match extension {
        None | Some(Extension::Node) => false,
        Some(Extension::Poly | Extension::Smesh | Extension::Off | Extension::Stl) => true,
    }
}

/// Whether the words ask for a complex.
fn names_complex(words: &Words) -> bool
    ensures { result ≡ names_complex words.now }
{
    is_switched(words, b'p')
        || sample_of(words).is_some()
        || is_of_complex(extension_of(name_of(words)))
}

/// Whether the words have r without C, C without r, or these with a complex.
fn is_no_check(words: &Words) -> bool
    ensures { result ≡ is_no_check words.now }
{
    if is_switched(words, b'r') {
        !is_switched(words, b'C') || names_complex(words)
    } else {
        is_switched(words, b'C')
    }
}

/// Whether the words have w with r or with a complex.
fn are_not_weighted(words: &Words) -> bool
    ensures { result ≡ are_not_weighted words.now }
{
    is_switched(words, b'w') && (is_switched(words, b'r') || names_complex(words))
}

/// Whether the words have switches that do not go together.
fn are_at_odds(words: &Words) -> bool
    ensures { result ≡ are_at_odds words.now }
{
    is_no_check(words) || are_not_weighted(words)
}

/// The first bad word and the place in it.
fn bad_word(halvings: u32, words: &Words) -> Option<(usize, usize)>
    ensures { result ≡ bad_word_from halvings 1 false words.now }
{
    let mut named = false;
    for (i, word) in words.as_slice().iter().enumerate() {
        let bytes = word.as_slice();
        if named && is_name(bytes) {
            return Some((i + 1, 1));
        }
        if let Some(place) = word_fault(halvings, bytes) {
            return Some((i + 1, place));
        }
        named = named || is_name(bytes);
    }
    None
}

/// The place of the fault of a word by itself, counted from 1.
fn word_fault(halvings: u32, word: &[u8]) -> Option<usize>
    ensures { result ≡ word_fault halvings word.now }
{
    if word.is_empty() {
        Some(1)
    } else if is_long(word) {
        long_fault(halvings, word)
    } else if is_cluster(word) {
        cluster_fault(word)
    } else {
        None
    }
}

/// The place of the first fault of a word that begins with one hyphen.
fn cluster_fault(word: &[u8]) -> Option<usize>
    requires { 0 < length word.now }
    ensures { result ≡ cluster_fault word.now }
{
    if word.len() == 1 {
        Some(2)
    } else {
        switches_fault(&word[1..])
    }
}

/// The place of the first fault of the switches that stand from place 2 on.
fn switches_fault(switches: &[u8]) -> Option<usize>
    ensures { result ≡ switches_fault false 2 switches.now }
{
    let mut numbered = false;
    for (i, byte) in switches.iter().enumerate() {
        if numbered && byte.is_ascii_digit() {
            continue;
        }
        numbered = *byte == b'S';
        if numbered {
            if budget_at_front(&switches[i + 1..]).is_none() {
                return Some(i + 3);
            }
        } else if !is_letter(*byte) {
            return Some(i + 2);
        }
    }
    None
}

/// The place of the fault of a long word, where this text stands behind its front, from this place
/// on.
fn number_fault(place: usize, most: u32, text: &[u8]) -> Option<usize>
    requires { place ≤ 12 }
    ensures { result ≡ number_fault place most text.now }
{
    if number_at_front(most, text).is_none() {
        return Some(place);
    }
    let count = digit_count(text);
    if count < text.len() {
        Some(count + place)
    } else {
        None
    }
}

/// The place of the fault of a word that begins with two hyphens.
fn long_fault(halvings: u32, word: &[u8]) -> Option<usize>
    ensures { result ≡ long_fault halvings word.now }
{
    if word.starts_with(HALVINGS) {
        number_fault(HALVINGS.len() + 1, halvings, &word[HALVINGS.len()..])
    } else if word.starts_with(DECIMALS) {
        number_fault(DECIMALS.len() + 1, MOST_DECIMALS, &word[DECIMALS.len()..])
    } else if word.starts_with(SAMPLE) {
        number_fault(SAMPLE.len() + 1, MOST_SAMPLE, &word[SAMPLE.len()..])
    } else {
        Some(3)
    }
}

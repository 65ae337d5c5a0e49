//! The three kinds of words.

ghost use Rattle.std.specs.Str.{bytes_eq};
ghost use Rattle.std.specs.Prelude.{◌≡◌, ◌<◌, IsTrue, length};
ghost use Rattle.command_words.specs.Words.{has_word, has_hyphen, is_cluster, is_long, is_name, is_named, has_switch, is_switched, name_of};

use tet_ports::Words;

fn has_hyphen(word: &[u8]) -> bool
    ensures { result ≡ has_hyphen word.now }
{
    word.starts_with(b"-")
}

/// Whether the word begins with two hyphens.
pub(crate) fn is_long(word: &[u8]) -> bool
    ensures { result ≡ is_long word.now }
{
    word.starts_with(b"--")
}

/// Whether the word begins with one hyphen.
pub(crate) fn is_cluster(word: &[u8]) -> bool
    ensures value { result ≡ is_cluster word.now }
    ensures bound { IsTrue result → 0 < length word.now }
{
    word.starts_with(b"-") && !is_long(word)
}

/// Whether the word is not empty and begins with no hyphen.
pub(crate) fn is_name(word: &[u8]) -> bool
    ensures { result ≡ is_name word.now }
{
    !word.is_empty() && !has_hyphen(word)
}

/// Whether there is a name among the words.
pub(crate) fn is_named(words: &Words) -> bool
    ensures { result ≡ is_named words.now }
{
    words.as_slice().iter().any(|word| is_name(word.as_slice()))
}

/// Whether the word is a cluster and has the letter.
fn has_switch(word: &[u8], letter: u8) -> bool
    ensures { result ≡ has_switch word.now letter }
{
    is_cluster(word) && word.contains(&letter)
}

/// Whether the letter is in a cluster of the words.
pub(crate) fn is_switched(words: &Words, letter: u8) -> bool
    ensures { result ≡ is_switched words.now letter }
{
    words
        .as_slice()
        .iter()
        .any(|word| has_switch(word.as_slice(), letter))
}

/// The first name among the words, or the empty one.
pub(crate) fn name_of(words: &Words) -> &[u8]
    ensures { result.now ≡ name_of words.now }
{
    for word in words.as_slice() {
        if is_name(word.as_slice()) {
            return word.as_slice();
        }
    }
    b""
}

/// Whether the word is this one.
pub fn is_word(word: &[u8], wanted: &[u8]) -> bool
    ensures { result ≡ bytes_eq word.now wanted.now }
{
    word == wanted
}

/// Whether this word is among the words.
pub fn has_word(words: &Words, wanted: &[u8]) -> bool
    ensures { result ≡ has_word words.now wanted.now }
{
    words
        .as_slice()
        .iter()
        .any(|word| is_word(word.as_slice(), wanted))
}

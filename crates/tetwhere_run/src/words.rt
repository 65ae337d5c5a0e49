//! The words of the program that finds points in a mesh: the base of the mesh's files, and the
//! name of a list of queries.
ghost use Rattle.std.specs.Prelude.{◌≡◌, ◌<◌, ◌&&◌, None, length};
ghost use Rattle.command_words.specs.Words.{is_name};
ghost use Rattle.tetwhere_run.specs.Words.{is_named_at, bad_word};

use tet_ports::Words;

/// Whether a word is a name: it is not empty and begins with no hyphen.
fn is_name(word: &[u8]) -> bool
    ensures { result ≡ is_name word.now }
{
    !word.is_empty() && !word.starts_with(b"-")
}

/// Whether the word at place `i`, from 0, is a name.
fn is_named(words: &Words, i: usize) -> bool
    ensures { result ≡ is_named_at words.now i }
{
    i < words.len() && is_name(words.word(i).as_slice())
}

/// The first bad word, counted from 1, where the words are not exactly two names; its place is its
/// first byte. With too few words it is the one behind the last.
pub fn bad_word(words: &Words) -> Option<usize>
    ensures fault { result ≡ bad_word words.now }
    ensures two { result ≡ None → length words.now ≡ 2 }
{
    if !is_named(words, 0) {
        return Some(1);
    }
    if !is_named(words, 1) {
        return Some(2);
    }
    if words.len() > 2 {
        return Some(3);
    }
    None
}

//! The words of a check, and the mesh that they name.

ghost use Rattle.std.specs.Prelude.{◌≡◌};
ghost use Rattle.command_words.specs.Words.{name_of};
ghost use Rattle.tetfit_run.specs.Checks.{asks_quiet, check_base, check_fault, cut_end, goes_with_check, is_quiet, mesh_base};

use crate::kinds::is_name;
use crate::request::is_check;
use command_words::is_word;
use tet_ports::Words;

/// Whether the word asks for no summary.
fn is_quiet(word: &[u8]) -> bool
    ensures { result ≡ is_quiet word.now }
{
    is_word(word, b"-Q")
}

/// Whether the words ask for no summary.
pub(crate) fn asks_quiet(words: &Words) -> bool
    ensures { result ≡ asks_quiet words.now }
{
    words
        .as_slice()
        .iter()
        .any(|word| is_quiet(word.as_slice()))
}

/// Whether the word goes with `-rC`, where `named` says that a name stands before it.
fn goes_with_check(named: bool, word: &[u8]) -> bool
    ensures { result ≡ goes_with_check named word.now }
{
    is_check(word) || is_quiet(word) || (is_name(word) && !named)
}

/// The first word that does not go with `-rC` and the place behind its last byte, or, where there
/// is no name, the place behind the last word; both are counted from 1.
pub(crate) fn check_fault(words: &Words) -> Option<(usize, usize)>
    ensures { result ≡ check_fault words.now }
{
    let mut named = false;
    for (i, word) in words.as_slice().iter().enumerate() {
        let bytes = word.as_slice();
        if !goes_with_check(named, bytes) {
            return Some((i + 1, bytes.len() + 1));
        }
        named = named || is_name(bytes);
    }
    if named {
        None
    } else {
        Some((words.len() + 1, 1))
    }
}

/// The first name among the words, or the empty one.
pub(crate) fn name_of(words: &Words) -> &[u8]
    ensures { result.now ≡ name_of words.now }
{
    for word in words.as_slice() {
        if is_name(word.as_slice()) {
            return word.as_slice();
        }
    }
    b""
}

/// The name without an extension at its end.
fn cut_end<'a>(extension: &[u8], name: &'a [u8]) -> &'a [u8]
    ensures { result.now ≡ cut_end extension.now name.now }
{
    &name[..name.len().saturating_sub(extension.len())]
}

/// The name of a mesh without the extension of one of its files.
fn mesh_base(name: &[u8]) -> &[u8]
    ensures { result.now ≡ mesh_base name.now }
{
    if name.ends_with(b".node") {
        cut_end(b".node", name)
    } else if name.ends_with(b".ele") {
        cut_end(b".ele", name)
    } else if name.ends_with(b".face") {
        cut_end(b".face", name)
    } else if name.ends_with(b".neigh") {
        cut_end(b".neigh", name)
    } else {
        name
    }
}

/// The base of the files that the words name: the name, without the extension of one of the files.
pub(crate) fn check_base(words: &Words) -> &[u8]
    ensures { result.now ≡ check_base words.now }
{
    mesh_base(name_of(words))
}

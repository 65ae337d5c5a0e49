//! The line on a word that is not understood.

ghost use Rattle.std.specs.Prelude.{◌≡◌, ◌++◌, OnOk, IfOk};
ghost use Rattle.tetfit_run.specs.Texts.{letter_at, reason_line, refused_check_line, refused_line, word_told};

use crate::kinds::{byte_at, is_cluster};
use crate::reason::{Reason, why_no_check, why_not};
use std::alloc::Global;
use tet_ports::{Bytes, NoMemory, Words};

/// Appends the letter at this place of a cluster, from 1; nothing for another word.
fn put_letter(word: &[u8], place: usize, line: &mut Bytes) -> Result<(), NoMemory>
    ensures { OnOk result (line.new ≡ line.old ++ letter_at word.now place) }
{
    let i = place.saturating_sub(1);
    if is_cluster(word) && i < word.len() {
        line.push(byte_at(word, i))?;
        line.extend_from_slice(b": ")?;
    }
    Ok(())
}

/// Appends the word, and the letter in it.
fn put_word(words: &Words, word: usize, place: usize, line: &mut Bytes) -> Result<(), NoMemory>
    ensures { OnOk result (line.new ≡ line.old ++ word_told words.now word place) }
{
    let i = word.saturating_sub(1);
    if i < words.len() {
        let bytes = words.word(i).as_slice();
        line.extend_from_slice(bytes)?;
        line.extend_from_slice(b": ")?;
        put_letter(bytes, place, line)?;
    }
    Ok(())
}

/// The line for a reason: the word, its letter that is not understood, and why.
fn reason_line(
    alloc: Global,
    words: &Words,
    word: usize,
    place: usize,
    reason: Reason,
) -> Result<Bytes, NoMemory>
    ensures { IfOk result (λ line. line ≡ reason_line words.now word place reason) }
{
    let mut line = Bytes::from_slice(alloc, b"tetfit: ")?;
    put_word(words, word, place, &mut line)?;
    line.extend_from_slice(reason.text())?;
    line.extend_from_slice(b"\n")?;
    Ok(line)
}

/// The line on the fault that `read_options` reports: the word, its letter that is not understood,
/// and why.
pub fn refused_line(
    alloc: Global,
    words: &Words,
    word: usize,
    place: usize,
) -> Result<Bytes, NoMemory>
    ensures { IfOk result (λ line. line ≡ refused_line words.now word place) }
{
    reason_line(alloc, words, word, place, why_not(words, word, place))
}

/// The line on the fault that `check_fault` reports: the word, and why it does not go with `-rC`.
pub fn refused_check_line(
    alloc: Global,
    words: &Words,
    word: usize,
    place: usize,
) -> Result<Bytes, NoMemory>
    ensures { IfOk result (λ line. line ≡ refused_check_line words.now word place) }
{
    reason_line(alloc, words, word, place, why_no_check(words, word))
}

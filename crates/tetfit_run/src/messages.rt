//! The lines in which `tetfit` reports each refusal.

ghost use Rattle.std.specs.Prelude.{◌≡◌, ◌++◌, IfOk, OnOk};
ghost use Rattle.tet_ports.specs.Seen.{sink_seen};
ghost use Rattle.tetfit_run.specs.Words.{others, request_of};
ghost use Rattle.tetgen_run.specs.Ends.{IsToldAs};
ghost use Rattle.tetfit_run.specs.Messages.{check_message, fit_message, help_line, hint_in, line_of, mesh_message};

use crate::request::{Request, other_words, request_of};
use crate::told::{refused_check_line, refused_line};
use mesh_check::put_message;
use run_steps::{LimitKind, Numbering, Status, message, put_unwritten};
use std::alloc::Global;
use tet_ports::{Bytes, NoMemory, Sink, Words};
use tetgen_run::Stop;

/// The message for out of memory, whose report needs no memory.
const OUT_OF_MEMORY: &[u8] = b"tetfit: out of memory\n";

/// The message that the summary could not be written.
const SUMMARY_FAILED: &[u8] = b"tetfit: summary: write failed\n";

/// The program's name, as a line begins.
const NAME: &[u8] = b"tetfit: ";

/// Appends a line on what would help, where something does.
fn append_help(line: &mut Bytes, help: &[u8]) -> Result<(), NoMemory>
    ensures { OnOk result (line.new ≡ line.old ++ help_line help.now) }
{
    if help.is_empty() {
        return Ok(());
    }
    line.append(NAME)?;
    line.append(help)?;
    line.append(b"\n")
}

/// The line of a refusal, from all words of the command, `-V` included. A point off the grid and
/// points in one plane are reported in the lines that follow.
fn line_of(
    alloc: Global,
    words: &Words,
    by: &Option<Numbering>,
    status: &Status,
) -> Result<Bytes, NoMemory>
    ensures { IfOk result (λ line. line ≡ line_of (others words.now) by.now status.now) }
{
    match status {
        Status::Usage { word, place } => {
            let plain = other_words(alloc, words)?;
            refused_line(alloc, &plain, *word, *place)
        }
        Status::Limit {
            what: LimitKind::Grid { line: _ },
        } => Ok(Bytes::new(alloc)),
        Status::Flat => Ok(Bytes::new(alloc)),
        _ => message(alloc, NAME, by, status),
    }
}

/// Appends the lines on the model, where the refusal has them.
fn append_hint(line: &mut Bytes, hint: &[u8], status: &Status) -> Result<(), NoMemory>
    ensures { OnOk result (line.new ≡ line.old ++ hint_in hint.now status.now) }
{
    if status.has_hint() {
        line.append(hint)?;
    }
    Ok(())
}

/// The line of a refusal of a check, from all words of the command, `-V` included.
fn check_message(
    alloc: Global,
    words: &Words,
    by: &Option<Numbering>,
    status: &Status,
) -> Result<Bytes, NoMemory>
    ensures { IfOk result (λ line. line ≡ check_message (others words.now) by.now status.now) }
{
    match status {
        Status::Usage { word, place } => {
            let plain = other_words(alloc, words)?;
            refused_check_line(alloc, &plain, *word, *place)
        }
        _ => message(alloc, NAME, by, status),
    }
}

/// The message of a refusal of a mesh, with the lines on the model that follow it.
fn mesh_message(
    alloc: Global,
    words: &Words,
    hint: &[u8],
    by: &Option<Numbering>,
    status: &Status,
) -> Result<Bytes, NoMemory>
    ensures { IfOk result
        (λ line. line ≡ mesh_message (others words.now) hint.now by.now status.now) }
{
    let mut line = line_of(alloc, words, by, status)?;
    append_hint(&mut line, hint, status)?;
    append_help(&mut line, status.help())?;
    Ok(line)
}

/// The message of a refusal.
fn fit_message(
    alloc: Global,
    words: &Words,
    hint: &[u8],
    by: &Option<Numbering>,
    status: &Status,
) -> Result<Bytes, NoMemory>
    ensures { IfOk result
        (λ line. line ≡ fit_message (request_of words.now) (others words.now)
        hint.now by.now status.now) }
{
    match request_of(words) {
        Request::Check => check_message(alloc, words, by, status),
        Request::Page | Request::Version | Request::Mesh => {
            mesh_message(alloc, words, hint, by, status)
        }
    }
}

/// Writes the message of a stop, with the lines on the model, and answers its status; out of memory
/// where there is no memory for the message.
pub(crate) fn tell<E: Sink>(
    alloc: Global,
    words: &Words,
    hint: &[u8],
    stop: Stop,
    err: &mut E,
) -> Status
    ensures { IsToldAs (fit_message (request_of words.now) (others words.now) hint.now) stop
        (sink_seen E.state err.old err.new) result }
{
    match &stop {
        Stop::Refused { status, numbering } => {
            match fit_message(alloc, words, hint, numbering, status) {
                Ok(line) => put_message(line.as_slice(), err),
                Err(_) => {
                    put_message(OUT_OF_MEMORY, err);
                    return Status::NoMemory;
                }
            }
        }
        Stop::Unwritten(text) => put_unwritten(NAME, &text.name, err),
        Stop::Unsummed => put_message(SUMMARY_FAILED, err),
        Stop::NoMemory => put_message(OUT_OF_MEMORY, err),
    }
    stop.status()
}

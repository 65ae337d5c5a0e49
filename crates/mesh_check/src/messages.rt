//! The lines in which the programs report refusals.

ghost use Rattle.std.specs.Prelude.{◌≡◌, ◌++◌, IfOk, OnOk};
ghost use Rattle.std.specs.Fmt.{decimal};
ghost use Rattle.mesh_check.specs.Messages.{line, kind_text, file_message, usage_message, text_message};
ghost use Rattle.tet_ports.specs.Seen.{sink_seen, IsMessagePut};

use itoa::Buffer;
use std::alloc::Global;
use tet_ports::{Bytes, Name, NoMemory, Sink};
use tet_text::{TextFault, TextKind};

/// A line that begins with the program's name, as `program` has it.
pub fn line(alloc: Global, program: &[u8], text: &[u8]) -> Result<Bytes, NoMemory>
    ensures { IfOk result (λ made. made ≡ line program.now text.now) }
{
    let mut made = Bytes::from_slice(alloc, program)?;
    made.append(text)?;
    made.append(b"\n")?;
    Ok(made)
}

/// A line on a file: its name and a text.
pub fn file_message(
    alloc: Global,
    program: &[u8],
    name: &Name,
    told: &[u8],
) -> Result<Bytes, NoMemory>
    ensures { IfOk result (λ line. line ≡ file_message program.now name.now told.now) }
{
    let mut text = Bytes::from_slice(alloc, name.as_slice())?;
    text.append(b": ")?;
    text.append(told)?;
    line(alloc, program, text.as_slice())
}

/// A line on a word that is not understood: its number and the place in it, both from 1.
pub fn usage_message(
    alloc: Global,
    program: &[u8],
    word: usize,
    place: usize,
) -> Result<Bytes, NoMemory>
    ensures { IfOk result (λ line. line ≡ usage_message program.now word place) }
{
    let mut text = Bytes::from_slice(alloc, b"word ")?;
    append_number(&mut text, word)?;
    text.append(b", place ")?;
    append_number(&mut text, place)?;
    text.append(b": not understood")?;
    line(alloc, program, text.as_slice())
}

/// A line on a file that is not in its grammar.
pub fn text_message(
    alloc: Global,
    program: &[u8],
    name: &Name,
    fault: TextFault,
) -> Result<Bytes, NoMemory>
    ensures { IfOk result (λ line. line ≡ text_message program.now name.now fault) }
{
    let mut text = Bytes::from_slice(alloc, name.as_slice())?;
    text.append(b": line ")?;
    append_number(&mut text, fault.line)?;
    text.append(b": ")?;
    text.append(kind_text(fault.kind))?;
    line(alloc, program, text.as_slice())
}

fn kind_text(kind: TextKind) -> &'static [u8]
    ensures { result.now ≡ kind_text kind }
{
    match kind {
        TextKind::Ended => b"too few",
        TextKind::NotANumber => b"not a number",
        TextKind::Extra => b"too many",
        TextKind::BadCount => b"bad count",
        TextKind::BadIndex => b"bad number",
    }
}

/// Appends a number.
pub fn append_number(text: &mut Bytes, n: usize) -> Result<(), NoMemory>
    ensures { OnOk result (text.new ≡ text.old ++ decimal n) }
{
    let mut buffer = Buffer::new();
    text.append(buffer.format(n).as_bytes())
}

/// Writes a message; a failure changes nothing.
pub fn put_message<E: Sink>(message: &[u8], err: &mut E)
    ensures { IsMessagePut message.now (sink_seen E.state err.old err.new) }
{
    let _ = err.put(message);
}

//! Whole streams, read and written a block at a time.

ghost use Rattle.std.specs.Prelude.{◌≡◌, ◌<◌, ◌≤◌, ◌+◌, ℕ, length, take, IfErr, IfOk, IfSome, IsErrOf, OnErr, OnOk};
ghost use Rattle.std.specs.Io.{ReadsAtMost, WritesAtMost};
ghost use Rattle.std.specs.Io.KnownBytes.{Appends, Consumes, IsAtEnd, Keeps};
ghost use Rattle.tet_ports.specs.Faults.{IfTooLarge};
ghost use Rattle.tet_ports.specs.declared.folder.FetchFault.TheVariants.{Missing};

use crate::{Bytes, FetchFault, NoMemory};
use std::alloc::Global;
use std::io;
use std::io::{Read, Write};

/// The most bytes that one read is asked for.
const BLOCK: usize = 1 << 16;

/// All bytes that a reader gives until it ends, where they are at most `most`. Refused: a reader
/// with more, with the first `most + 1` of them; a read that fails, but for one that a signal
/// interrupts, which is tried again.
pub fn read_whole<R: Read>(alloc: Global, reader: &mut R, most: usize) -> Result<Bytes, FetchFault>
    ensures whole { IfOk result (λ bytes. IfSome (R.remaining reader.old) (λ told. bytes ≡ told)) }
    ensures bounded { IfOk result (λ bytes. length bytes ≤ most) }
    ensures too_large { IfErr result
        (λ fault. IfTooLarge fault (λ taken. length taken ≡ most + 1)) }
    ensures first { IfErr result
        (λ fault. IfTooLarge fault (Consumes (R.remaining reader.old) (R.remaining reader.new))) }
    ensures present { ¬ IsErrOf result Missing }
{
    let mut block = block_of_zeros(alloc)?;
    read_blocks(alloc, reader, block.as_mut_slice(), most)
}

fn block_of_zeros(alloc: Global) -> Result<Vec<u8>, NoMemory>
    ensures { IfOk result (λ block. 0 < length block.items) }
{
    let mut block = Vec::new(alloc);
    block.resize(BLOCK, 0)?;
    Ok(block)
}

fn read_blocks<R: Read>(
    alloc: Global,
    reader: &mut R,
    block: &mut [u8],
    most: usize,
) -> Result<Bytes, FetchFault>
    requires { 0 < length block.old }
    ensures whole { IfOk result (λ bytes. IfSome (R.remaining reader.old) (λ told. bytes ≡ told)) }
    ensures bounded { IfOk result (λ bytes. length bytes ≤ most) }
    ensures too_large { IfErr result
        (λ fault. IfTooLarge fault (λ taken. length taken ≡ most + 1)) }
    ensures first { IfErr result
        (λ fault. IfTooLarge fault (Consumes (R.remaining reader.old) (R.remaining reader.new))) }
    ensures present { ¬ IsErrOf result Missing }
{
    let mut text = Bytes::new(alloc);
    while text.len() <= most {
        let room = (most - text.len()).min(block.len() - 1) + 1;
        let count = match read_some(reader, &mut block[..room]) {
            Ok(count) => count,
            Err(_) => return Err(FetchFault::Failed),
        };
        if count == 0 {
            return Ok(text);
        }
        text.append(&block[..count])?;
    }
    Err(FetchFault::TooLarge { taken: text })
}

/// A fault of a read or a write, but that a signal interrupts it.
fn unless_interrupted(fault: io::Error) -> io::Result<()> {
    if fault.kind() == io::ErrorKind::Interrupted {
        return Ok(());
    }
    Err(fault)
}

/// One read, tried again where a signal interrupts it.
fn read_some<R: Read>(reader: &mut R, buf: &mut [u8]) -> io::Result<usize>
    ensures bound { ReadsAtMost result buf.new }
    ensures ok { IfOk result (λ n. Consumes (R.remaining reader.old) (R.remaining reader.new)
        (take n buf.new)) }
    ensures end { IfOk result (λ n. n ≡ 0 → 0 < length buf.old → IsAtEnd (R.remaining reader.new)) }
{
    for _ in 0..u64::MAX {
        match reader.read(buf) {
            Ok(count) => return Ok(count),
            Err(fault) => unless_interrupted(fault)?,
        }
    }
    Err(io::Error::from(io::ErrorKind::Interrupted))
}

/// Writes all bytes and flushes. Where a write fails a prefix of them is written; a write that a
/// signal interrupts is tried again.
pub fn write_whole<W: Write>(writer: &mut W, bytes: &[u8]) -> io::Result<()>
    ensures whole { OnOk result (Appends (W.contents writer.old)
        (W.contents writer.new) bytes.now) }
    ensures partly { OnErr result
        ((kept : ℕ) × Appends (W.contents writer.old) (W.contents writer.new)
        (take kept bytes.now)) }
{
    let mut written = 0;
    while written < bytes.len() {
        let count = write_some(writer, &bytes[written..])?;
        if count == 0 {
            return Err(io::Error::from(io::ErrorKind::WriteZero));
        }
        written += count;
    }
    writer.flush()
}

/// One write, tried again where a signal interrupts it.
fn write_some<W: Write>(writer: &mut W, bytes: &[u8]) -> io::Result<usize>
    ensures bound { WritesAtMost result bytes.now }
    ensures ok { IfOk result (λ n. Appends (W.contents writer.old) (W.contents writer.new)
        (take n bytes.now)) }
    ensures err { OnErr result (Keeps (W.contents writer.old) (W.contents writer.new)) }
{
    for _ in 0..u64::MAX {
        match writer.write(bytes) {
            Ok(count) => return Ok(count),
            Err(fault) => unless_interrupted(fault)?,
        }
    }
    Err(io::Error::from(io::ErrorKind::Interrupted))
}

//! The end of a run: the stores of its outputs, their summary, and the message of a stop.

ghost use Rattle.std.specs.Prelude.{◌≡◌, ◌≤◌, ◌⊎◌, IsErrOf, Err};
ghost use Rattle.tet_ports.specs.Seen.{IsMessagePut, folder_seen, sink_seen};
ghost use Rattle.tetgen_run.specs.Ends.{FinishesSo, IsSummed, IsToldAs};
ghost use Rattle.tetgen_run.specs.Run.{tetgen_message};

use crate::stop::Stop;
use mesh_check::put_message;
use run_steps::{Outputs, Status, message, put_unwritten, store_all, text_of};
use std::alloc::Global;
use tet_ports::{Bytes, Folder, PutFault, Sink};

/// The beginning of each line.
const NAME: &[u8] = b"tetgen: ";

/// The message for out of memory, whose report needs no memory.
const OUT_OF_MEMORY: &[u8] = b"tetgen: out of memory\n";

/// The message that the summary could not be written.
const SUMMARY_FAILED: &[u8] = b"tetgen: summary: write failed\n";

/// Stores the files of outputs, in their order, and then writes their summary, where there is one.
pub fn finish<F: Folder, O: Sink>(
    alloc: Global,
    outputs: Outputs,
    folder: &mut F,
    out: &mut O,
) -> Result<(), Stop>
    ensures finish { FinishesSo outputs (folder_seen F.state folder.old folder.new)
        (sink_seen O.state out.old out.new) result }
    ensures unread { (F.state folder.new).read_faults ≡ (F.state folder.old).read_faults }
    ensures misses { (F.state folder.new).misses ≡ (F.state folder.old).misses }
{
    let Outputs {
        texts,
        report,
        tetrahedra: _,
    } = outputs;
    let text = text_of(alloc, report)?;
    store_all(texts.in_order(alloc)?, folder)?;
    sum_up(text, out)
}

/// Writes the summary, where there is one.
pub(crate) fn sum_up<O: Sink>(summary: Option<Bytes>, out: &mut O) -> Result<(), Stop>
    ensures { IsSummed summary (sink_seen O.state out.old out.new) result }
{
    let Some(line) = summary else {
        return Ok(());
    };
    match out.put(line.as_slice()) {
        Ok(()) => Ok(()),
        Err(PutFault::Failed) => Err(Stop::Unsummed),
        Err(PutFault::NoMemory) => Err(Stop::NoMemory),
    }
}

/// Writes the message of a stop, and answers its status; out of memory where there is no memory for
/// the message.
pub(crate) fn tell<E: Sink>(alloc: Global, stop: Stop, err: &mut E) -> Status
    ensures { IsToldAs tetgen_message stop
        (sink_seen E.state err.old err.new) result }
{
    match &stop {
        Stop::Refused { status, numbering } => match message(alloc, NAME, numbering, status) {
            Ok(line) => put_message(line.as_slice(), err),
            Err(_) => {
                put_message(OUT_OF_MEMORY, err);
                return Status::NoMemory;
            }
        },
        Stop::Unwritten(text) => put_unwritten(NAME, &text.name, err),
        Stop::Unsummed => put_message(SUMMARY_FAILED, err),
        Stop::NoMemory => put_message(OUT_OF_MEMORY, err),
    }
    stop.status()
}

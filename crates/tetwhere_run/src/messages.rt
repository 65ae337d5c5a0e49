//! The line that reports each refusal.

ghost use Rattle.std.specs.Prelude.{◌≡◌, IfOk};
ghost use Rattle.tetwhere_run.specs.Messages.{query_fault_message, query_message_of};

use crate::status::WhereStatus;
use mesh_check::{
    CheckFault, MOST_BYTES, MOST_POINTS, append_number, defect_text, file_message, line,
    text_message, usage_message,
};
use std::alloc::Global;
use tet_ports::{Bytes, NoMemory};

/// The program's name, as a line begins.
const NAME: &[u8] = b"tetwhere: ";

/// The message for out of memory, whose report needs no memory.
pub const OUT_OF_MEMORY: &[u8] = b"tetwhere: out of memory\n";

/// The message that the lines could not be written.
pub const WRITE_FAILED: &[u8] = b"tetwhere: answers: write failed\n";

/// The line that reports a refusal.
pub fn message(alloc: Global, status: &WhereStatus) -> Result<Bytes, NoMemory>
    ensures { IfOk result (λ line. line ≡ query_message_of status.now) }
{
    match status {
        WhereStatus::Done => Ok(Bytes::new(alloc)),
        WhereStatus::Usage { word, place } => usage_message(alloc, NAME, *word, *place),
        WhereStatus::Refused { fault } => query_fault_message(alloc, fault),
        WhereStatus::WriteFault => line(alloc, NAME, b"answers: write failed"),
    }
}

/// The line that reports a refusal of the files.
fn query_fault_message(alloc: Global, fault: &CheckFault) -> Result<Bytes, NoMemory>
    ensures { IfOk result (λ line. line ≡ query_fault_message fault.now) }
{
    match fault {
        CheckFault::Missing { name } => file_message(alloc, NAME, name, b"not found"),
        CheckFault::ReadFault { name } => file_message(alloc, NAME, name, b"read failed"),
        CheckFault::TooLong { name } => {
            let mut text = Bytes::from_slice(alloc, b"over ")?;
            append_number(&mut text, MOST_BYTES)?;
            text.append(b" bytes")?;
            file_message(alloc, NAME, name, text.as_slice())
        }
        CheckFault::BadText { name, fault } => text_message(alloc, NAME, name, *fault),
        CheckFault::TooMany { count } => {
            let mut text = Bytes::new(alloc);
            append_number(&mut text, *count as usize)?;
            text.append(b" points, at most ")?;
            append_number(&mut text, MOST_POINTS as usize)?;
            line(alloc, NAME, text.as_slice())
        }
        CheckFault::OffGrid { line: place } => {
            let mut text = Bytes::from_slice(alloc, b"line ")?;
            append_number(&mut text, *place)?;
            text.append(b": coordinate off the grid")?;
            line(alloc, NAME, text.as_slice())
        }
        CheckFault::Unsound { defect, first } => {
            let told = defect_text(alloc, *first, *defect)?;
            line(alloc, NAME, told.as_slice())
        }
        CheckFault::NoMemory => line(alloc, NAME, b"out of memory"),
    }
}

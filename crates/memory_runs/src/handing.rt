//! How the texts of a run are handed over.

ghost use Rattle.std.specs.Prelude.{◌≡◌, ◌<◌, ◌+◌, IfErr, IfOk, OnErr, OnOk, length, take};
ghost use Rattle.memory_runs.specs.Runs.{AreTextsOf, IsTextsFault};
ghost use Rattle.memory_runs.specs.Texts.{IsShort};

use crate::ran::{Joined, Ran, join};
use crate::texts::Slice;
use std::alloc::Global;
use tet_ports::NoMemory;

/// Why the texts of a run are not handed over.
#[derive(Clone, Copy, Debug, PartialEq, Eq)]
pub enum RunFault {
    /// There is too little room for the lengths or for the bytes of the texts; how many bytes they
    /// have.
    NoRoom { count: usize },
    /// Out of memory.
    NoMemory,
}

impl From<NoMemory> for RunFault {
    ghost use Rattle.std.specs.Prelude.{◌≡◌};
    ghost use Rattle.memory_runs.specs.declared.handing.RunFault.TheVariants.{NoMemory as OutOfMemory};

    ghost from_gives = { λ _ fault. fault ≡ OutOfMemory };

    fn from(_: NoMemory) -> RunFault {
        RunFault::NoMemory
    }
}

/// A run whose texts are handed over: its exit status, and how many bytes the texts have.
#[derive(Clone, Copy, Debug, PartialEq, Eq)]
pub struct HandedOver {
    pub code: u8,
    pub count: usize,
}

/// Writes the lengths and the bytes to the front of what the caller gave, and answers how many the
/// bytes are. On a refusal nothing is written.
fn write_texts(made: &Joined, lengths: &mut [usize], room: &mut [u8]) -> Result<usize, RunFault>
    ensures lengths { OnOk result
        (take (length made.now.lengths.items) lengths.new ≡ made.now.lengths.items) }
    ensures bytes { IfOk result (λ count. take count room.new ≡ made.now.bytes) }
    ensures fault { IfErr result (IsShort made.now.lengths.items made.now.bytes
        (length lengths.old) (length room.old)) }
    ensures lengths_kept { OnErr result (lengths.new ≡ lengths.old) }
    ensures room_kept { OnErr result (room.new ≡ room.old) }
{
    let count = made.bytes.len();
    let length = made.lengths.len();
    if length > lengths.len() || count > room.len() {
        return Err(RunFault::NoRoom { count });
    }
    lengths[..length].copy_from_slice(made.lengths.as_slice());
    room[..count].copy_from_slice(made.bytes.as_slice());
    Ok(count)
}

/// Hands over the texts of a run, as `tetgen_into` says.
pub(crate) fn hand_over(
    alloc: Global,
    ran: &Ran,
    wanted: &[Slice<'_>],
    lengths: &mut [usize],
    room: &mut [u8],
) -> Result<HandedOver, RunFault>
    ensures texts { IfOk result (λ made. AreTextsOf ran.now wanted.now
        (take (length wanted.now + 2) lengths.new) (take made.count room.new) made.code) }
    ensures code { IfOk result (λ made. (made.code < 20) × ¬ made.code ≡ 10) }
    ensures fault { IfErr result
        (IsTextsFault ran.now wanted.now (length lengths.old) (length room.old)) }
    ensures lengths_kept { OnErr result (lengths.new ≡ lengths.old) }
    ensures room_kept { OnErr result (room.new ≡ room.old) }
{
    let code = ran.status.code();
    if code == 10 {
        return Err(RunFault::NoMemory);
    }
    let made = join(alloc, ran, wanted)?;
    match write_texts(&made, lengths, room) {
        Ok(count) => Ok(HandedOver { code, count }),
        Err(fault) => Err(fault),
    }
}

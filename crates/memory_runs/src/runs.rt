//! Calls that run a program on words and files of the caller.

ghost use Rattle.std.specs.Prelude.{◌≡◌, ◌<◌, ◌+◌, IfErr, IfOk, OnErr, length, take};
ghost use Rattle.memory_runs.specs.Runs.{IsHandedOver, IsRunFault, IsTetfitRun, IsTetgenRun};

use crate::handing::{HandedOver, RunFault, hand_over};
use crate::ran::{tetfit_over, tetgen_over};
use crate::texts::{Task, folder_of, words_of};
use std::alloc::Global;

/// Runs `tetgen` on the words of a task, over a folder that has its files alone, and hands over
/// what it leaves: its lines, its messages, and each wanted file that is there, one behind another
/// to the front of `room`, and the length of each to the front of `lengths`, `usize::MAX` for a
/// file that is not there. A refusal of the run is no fault: its exit status is answered, and its
/// message.
///
/// Refusals, with nothing written: `NoRoom`, `lengths` has less than two more items than there are
/// wanted files, or `room` is shorter than the texts; `NoMemory`, also where the run itself is out
/// of memory.
pub fn tetgen_into(
    alloc: Global,
    task: &Task<'_>,
    lengths: &mut [usize],
    room: &mut [u8],
) -> Result<HandedOver, RunFault>
    ensures run { IfOk result (λ made. IsHandedOver IsTetgenRun task.now
        (take (length task.now.wanted.now + 2) lengths.new) (take made.count room.new) made.code) }
    ensures code { IfOk result (λ made. (made.code < 20) × ¬ made.code ≡ 10) }
    ensures fault { IfErr result
        (IsRunFault IsTetgenRun task.now (length lengths.old) (length room.old)) }
    ensures lengths_kept { OnErr result (lengths.new ≡ lengths.old) }
    ensures room_kept { OnErr result (room.new ≡ room.old) }
{
    let words = words_of(alloc, task.words)?;
    let folder = folder_of(alloc, task.files)?;
    let ran = tetgen_over(alloc, &words, folder);
    hand_over(alloc, &ran, task.wanted, lengths, room)
}

/// Runs `tetfit` on the words of a task, and hands over what it leaves, as `tetgen_into` does of
/// `tetgen`. With the word `-V` the stages are among the messages.
///
/// Refusals: as of `tetgen_into`.
pub fn tetfit_into(
    alloc: Global,
    task: &Task<'_>,
    lengths: &mut [usize],
    room: &mut [u8],
) -> Result<HandedOver, RunFault>
    ensures run { IfOk result (λ made. IsHandedOver IsTetfitRun task.now
        (take (length task.now.wanted.now + 2) lengths.new) (take made.count room.new) made.code) }
    ensures code { IfOk result (λ made. (made.code < 20) × ¬ made.code ≡ 10) }
    ensures fault { IfErr result
        (IsRunFault IsTetfitRun task.now (length lengths.old) (length room.old)) }
    ensures lengths_kept { OnErr result (lengths.new ≡ lengths.old) }
    ensures room_kept { OnErr result (room.new ≡ room.old) }
{
    let words = words_of(alloc, task.words)?;
    let folder = folder_of(alloc, task.files)?;
    let ran = tetfit_over(alloc, &words, folder);
    hand_over(alloc, &ran, task.wanted, lengths, room)
}

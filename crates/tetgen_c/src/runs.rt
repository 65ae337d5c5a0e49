//! Runs of the programs over texts in memory, for C.

ghost use Rattle.std.specs.Prelude.{◌≡◌, ◌⊎◌, ◌+◌, pos, length, take};
ghost use Rattle.memory_runs.specs.Runs.{IsTetfitRun, IsTetgenRun, LacksSpace};
ghost use Rattle.tetgen_c.specs.Statuses.{HasRun, IsAnswered};

use memory_runs::{HandedOver, RunFault, Task, tetfit_into, tetgen_into};
use std::alloc::Global;

/// The status of a run over texts, with the number of bytes of its texts written to `count`: 20
/// where there is no room for them, and 10, with the number 0, out of memory.
fn answer(told: Result<HandedOver, RunFault>, count: &mut usize) -> i32
    ensures { IsAnswered told count.new result }
{
    match told {
        Ok(HandedOver { code, count: made }) => {
            *count = made;
            i32::from(code)
        }
        Err(RunFault::NoRoom { count: wanted }) => {
            *count = wanted;
            20
        }
        Err(RunFault::NoMemory) => {
            *count = 0;
            10
        }
    }
}

/// Runs `tetgen` on the words of a task, over a folder that has its files alone, and answers its
/// exit status. What it leaves is at the front of `room`, and `count` is how many bytes that are:
/// its lines, its messages, and each wanted file that is there, one behind another; the length of
/// each is at the front of `lengths`, the largest number for a file that is not there. On 10, out
/// of memory, and on 20, too little room, nothing is written but `count`: 0, or how many bytes the
/// texts have.
#[unsafe(no_mangle)]
pub extern "C" fn tetgen_run(
    alloc: Global,
    task: &Task<'_>,
    lengths: &mut [usize],
    room: &mut [u8],
    count: &mut usize,
) -> i32
    ensures run { ¬ result ≡ pos 10 → ¬ result ≡ pos 20
        → HasRun IsTetgenRun task.now (take (length task.now.wanted.now + 2) lengths.new)
        (take count.new room.new) result }
    ensures space { result ≡ pos 20
        → LacksSpace IsTetgenRun task.now (length lengths.old) (length room.old) count.new }
    ensures lengths_kept { (result ≡ pos 10) ⊎ (result ≡ pos 20) → lengths.new ≡ lengths.old }
    ensures room_kept { (result ≡ pos 10) ⊎ (result ≡ pos 20) → room.new ≡ room.old }
{
    answer(tetgen_into(alloc, task, lengths, room), count)
}

/// Runs `tetfit` on the words of a task, and answers as `tetgen_run` does of `tetgen`. With the
/// word `-V` the stages are among the messages.
#[unsafe(no_mangle)]
pub extern "C" fn tetfit_run(
    alloc: Global,
    task: &Task<'_>,
    lengths: &mut [usize],
    room: &mut [u8],
    count: &mut usize,
) -> i32
    ensures run { ¬ result ≡ pos 10 → ¬ result ≡ pos 20
        → HasRun IsTetfitRun task.now (take (length task.now.wanted.now + 2) lengths.new)
        (take count.new room.new) result }
    ensures space { result ≡ pos 20
        → LacksSpace IsTetfitRun task.now (length lengths.old) (length room.old) count.new }
    ensures lengths_kept { (result ≡ pos 10) ⊎ (result ≡ pos 20) → lengths.new ≡ lengths.old }
    ensures room_kept { (result ≡ pos 10) ⊎ (result ≡ pos 20) → room.new ≡ room.old }
{
    answer(tetfit_into(alloc, task, lengths, room), count)
}

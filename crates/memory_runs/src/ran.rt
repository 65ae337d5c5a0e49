//! Runs of the programs over a folder and two streams in memory.

ghost use Rattle.std.specs.Prelude.{◌≡◌, map, IfOk};
ghost use Rattle.memory_runs.specs.Runs.{IsTetfitRun, IsTetgenRun, RunsTo};
ghost use Rattle.memory_runs.specs.Texts.{joined, no_bytes, length_of, texts_left};

use crate::texts::Slice;
use run_steps::Status;
use std::alloc::Global;
use tet_ports::{Bytes, MemFolder, MemSink, Name, NoMemory, Words};
use tetfit_run::run_fit;
use tetgen_run::run_tetgen;

/// A folder and two streams in memory: the lines go to `out`, and the messages to `err`.
#[derive(Drop)]
pub(crate) struct Memory {
    pub(crate) folder: MemFolder,
    pub(crate) out: MemSink,
    pub(crate) err: MemSink,
}

/// The folder, with two streams to which nothing was put.
fn memory_with(alloc: Global, folder: MemFolder) -> Memory
    ensures folder { result.folder ≡ folder }
    ensures out { result.out ≡ no_bytes }
    ensures err { result.err ≡ no_bytes }
{
    Memory {
        folder,
        out: MemSink::new(alloc),
        err: MemSink::new(alloc),
    }
}

/// A run that has ended: its status, and what it leaves.
#[derive(Drop)]
pub(crate) struct Ran {
    pub(crate) status: Status,
    pub(crate) memory: Memory,
}

/// The run of `tetgen` over a folder and two streams in memory.
pub(crate) fn tetgen_over(alloc: Global, words: &Words, folder: MemFolder) -> Ran
    ensures { RunsTo IsTetgenRun words.now folder result }
{
    let mut memory = memory_with(alloc, folder);
    let status = run_tetgen(
        alloc,
        words,
        &mut memory.folder,
        &mut memory.out,
        &mut memory.err,
    );
    Ran { status, memory }
}

/// The run of `tetfit` over a folder and two streams in memory.
pub(crate) fn tetfit_over(alloc: Global, words: &Words, folder: MemFolder) -> Ran
    ensures { RunsTo IsTetfitRun words.now folder result }
{
    let mut memory = memory_with(alloc, folder);
    let status = run_fit(
        alloc,
        words,
        &mut memory.folder,
        &mut memory.out,
        &mut memory.err,
    );
    Ran { status, memory }
}

/// Texts, one behind another: the length of each, and `usize::MAX` for one that is not there.
#[derive(Drop)]
pub(crate) struct Joined {
    pub(crate) lengths: Vec<usize>,
    pub(crate) bytes: Bytes,
}

/// The lines and the messages of a run, and those of these files that its folder has.
pub(crate) fn join(alloc: Global, ran: &Ran, wanted: &[Slice<'_>]) -> Result<Joined, NoMemory>
    ensures lengths { IfOk result (λ made. made.lengths.items
        ≡ map length_of (texts_left ran.now wanted.now)) }
    ensures bytes { IfOk result (λ made. made.bytes ≡ joined (texts_left ran.now wanted.now)) }
{
    let mut lengths = Vec::with_capacity(alloc, 2)?;
    let mut bytes = Bytes::new(alloc);
    lengths.push(ran.memory.out.bytes().len())?;
    bytes.append(ran.memory.out.bytes().as_slice())?;
    lengths.push(ran.memory.err.bytes().len())?;
    bytes.append(ran.memory.err.bytes().as_slice())?;
    for slice in wanted {
        let name = Name::from_slice(alloc, slice.bytes)?;
        match ran.memory.folder.get(&name) {
            Some(text) => {
                lengths.push(text.len())?;
                bytes.append(text.as_slice())?;
            }
            None => lengths.push(usize::MAX)?,
        }
    }
    Ok(Joined { lengths, bytes })
}

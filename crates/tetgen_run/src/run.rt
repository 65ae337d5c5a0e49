//! The run of the program: from its words to the files of a mesh.

ghost use Rattle.std.specs.Prelude.{◌≡◌, ◌≤◌, ◌⊎◌, IsErrOf, Err};
ghost use Rattle.tetgen_run.specs.Run.{IsAnswer, IsAnswerWithin, IsComplete, IsCompleteWithin, IsLeft, IsLeftWithin, IsTold, IsToldWithin};
ghost use Rattle.tetgen_run.specs.Steps.{ChecksSo, EndsSo};
ghost use Rattle.node_files.specs.Limits.{AreIndexable};
ghost use Rattle.tet_ports.specs.Seen.{folder_seen, sink_seen};

use crate::ends::{finish, sum_up, tell};
use crate::stop::Stop;
use command_words::{Options, read_words};
use mesh_check::{check_files, sound_line};
use node_files::Limits;
use run_steps::{Status, bind_input, mesh_outputs, numbering_of, read_input};
use std::alloc::Global;
use tet_ports::{Folder, Sink, Words};

/// Reads the words, fetches the input that they name, stores the files of its mesh that the words
/// ask for, and puts the summary to `out`. On every answer but Done it puts one message to `err`; a
/// failure there changes no status.
///
/// Nothing is stored before all texts are made.
pub fn run_tetgen<F: Folder, O: Sink, E: Sink>(
    alloc: Global,
    words: &Words,
    folder: &mut F,
    out: &mut O,
    err: &mut E,
) -> Status
    ensures answer { IsAnswer words.now (folder_seen F.state folder.old folder.new)
        (sink_seen O.state out.old out.new) result }
    ensures complete { IsComplete words.now (folder_seen F.state folder.old folder.new)
        (sink_seen O.state out.old out.new) result }
    ensures left { IsLeft words.now (folder_seen F.state folder.old folder.new)
        (sink_seen O.state out.old out.new) result }
    ensures told { IsTold words.now (folder_seen F.state folder.old folder.new)
        (sink_seen E.state err.old err.new) result }
{
    run_within(alloc, Limits::tetgen(), words, folder, out, err)
}

/// As `run_tetgen`, with these limits for an input that is meshed. A mesh that is checked has
/// limits of its own.
pub fn run_within<F: Folder, O: Sink, E: Sink>(
    alloc: Global,
    limits: Limits,
    words: &Words,
    folder: &mut F,
    out: &mut O,
    err: &mut E,
) -> Status
    requires { AreIndexable limits }
    ensures answer { IsAnswerWithin limits words.now (folder_seen F.state folder.old folder.new)
        (sink_seen O.state out.old out.new) result }
    ensures complete { IsCompleteWithin limits words.now (folder_seen F.state folder.old folder.new)
        (sink_seen O.state out.old out.new) result }
    ensures left { IsLeftWithin limits words.now (folder_seen F.state folder.old folder.new)
        (sink_seen O.state out.old out.new) result }
    ensures told { IsToldWithin limits words.now (folder_seen F.state folder.old folder.new)
        (sink_seen E.state err.old err.new) result }
{
    match run(alloc, limits, words, folder, out) {
        Ok(()) => Status::Done,
        Err(stop) => tell(alloc, stop, err),
    }
}

/// The run without its message.
fn run<F: Folder, O: Sink>(
    alloc: Global,
    limits: Limits,
    words: &Words,
    folder: &mut F,
    out: &mut O,
) -> Result<(), Stop>
    requires { AreIndexable limits }
    ensures { EndsSo limits words.now (folder_seen F.state folder.old folder.new)
        (sink_seen O.state out.old out.new) result }
{
    let options = read_words(alloc, words)?;
    if options.check {
        return check(alloc, &options, folder, out);
    }
    let input = read_input(alloc, limits, &options, folder)?;
    let bound = bind_input(alloc, limits, &options, input)?;
    let numbering = numbering_of(alloc, &bound.table)?;
    let outputs = match mesh_outputs(alloc, &options, bound) {
        Ok(outputs) => outputs,
        Err(status) => {
            return Err(Stop::Refused {
                status,
                numbering: Some(numbering),
            });
        }
    };
    finish(alloc, outputs, folder, out)
}

/// Checks a mesh: it stores nothing, and writes one line on a sound mesh.
fn check<F: Folder, O: Sink>(
    alloc: Global,
    options: &Options,
    folder: &mut F,
    out: &mut O,
) -> Result<(), Stop>
    ensures { ChecksSo options.now (folder_seen F.state folder.old folder.new)
        (sink_seen O.state out.old out.new) result }
{
    let count = check_files(alloc, &options.base, options.decimals, folder)?;
    if options.quiet {
        return Ok(());
    }
    let line = sound_line(alloc, count)?;
    sum_up(Some(line), out)
}

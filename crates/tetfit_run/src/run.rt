//! The run of the program: from its words to the files of a mesh.

ghost use Rattle.std.specs.Prelude.{◌≡◌, []};
ghost use Rattle.tet_ports.specs.Seen.{folder_seen, sink_seen};
ghost use Rattle.tetgen_run.specs.Ends.{EndsWith, answer_of};
ghost use Rattle.tetfit_run.specs.Outputs.{OutputsOfFit};
ghost use Rattle.tetfit_run.specs.Stages.{AreStagesPut};
ghost use Rattle.tetfit_run.specs.Run.{IsFitAnswer, IsFitComplete, IsKnown, IsFitLeft, IsFitTold};

use crate::messages::tell;
use crate::outputs::outputs_of;
use crate::stages::{READS, STORES, Stages, says_stages};
use run_steps::Status;
use std::alloc::Global;
use tet_ports::{Bytes, Folder, Sink, Words};
use tetgen_run::{Stop, finish};

/// Meshes the model that the words name, with the most decimals at which the grid does not refuse
/// it, and stores the files that the words ask for; or checks the mesh that they name, and puts a
/// line on a sound one to `out`; or puts the page or the version there. On every answer but Done it
/// puts one message to `err`, and before it the stages where `-V` asks for them; a failure there
/// changes no status.
///
/// Nothing is stored before all texts are made.
pub fn run_fit<F: Folder, O: Sink, E: Sink>(
    alloc: Global,
    words: &Words,
    folder: &mut F,
    out: &mut O,
    err: &mut E,
) -> Status
    ensures answer { IsFitAnswer words.now (folder_seen F.state folder.old folder.new)
        (sink_seen O.state out.old out.new) result }
    ensures complete { IsFitComplete words.now (folder_seen F.state folder.old folder.new)
        (sink_seen O.state out.old out.new) result }
    ensures left { IsFitLeft words.now (folder_seen F.state folder.old folder.new)
        (sink_seen O.state out.old out.new) result }
    ensures told { IsFitTold words.now (folder_seen F.state folder.old folder.new)
        (sink_seen E.state err.old err.new) result }
{
    let mut hint = Bytes::new(alloc);
    match run(alloc, words, folder, out, err, &mut hint) {
        Ok(()) => Status::Done,
        Err(stop) => tell(alloc, words, hint.as_slice(), stop, err),
    }
}

/// The run without its message; a stop carries the lines on the model for that message.
fn run<F: Folder, O: Sink, E: Sink>(
    alloc: Global,
    words: &Words,
    folder: &mut F,
    out: &mut O,
    err: &mut E,
    hint: &mut Bytes,
) -> Result<(), Stop>
    requires { hint.old ≡ [] }
    ensures ends { EndsWith
        (OutputsOfFit words.now (folder_seen F.state folder.old folder.new))
        (IsKnown words.now (folder_seen F.state folder.old folder.new) hint.new)
        (folder_seen F.state folder.old folder.new)
        (sink_seen O.state out.old out.new) result }
    ensures stages { AreStagesPut words.now (answer_of result)
        (sink_seen E.state err.old err.new) }
{
    let mut stages = Stages::new(err, says_stages(words));
    stages.say(READS);
    let outputs = outputs_of(alloc, words, folder, hint, &mut stages)?;
    stages.say(STORES);
    finish(alloc, outputs, folder, out)
}

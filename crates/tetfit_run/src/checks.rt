//! The check of a mesh that is there, and its outputs.

ghost use Rattle.std.specs.Prelude.{◌≡◌, false, IfOk, IfErr, Ok};
ghost use Rattle.tet_ports.specs.Seen.{IsOnlyRead, folder_seen};
ghost use Rattle.tetfit_run.specs.Checks.{OutputsOfCheck, checked_outputs, reported};
ghost use Rattle.tetfit_run.specs.Words.{others};
ghost use Rattle.tetgen_run.specs.Ends.{StopsSo};
ghost use Rattle.run_steps.specs.Statuses.{names_points};

use crate::check_words::{asks_quiet, check_base, check_fault};
use crate::request::other_words;
use mesh_check::{check_far_files, sound_line};
use run_steps::{NamedTexts, Outputs, Report, Status, Texts};
use std::alloc::Global;
use tet_ports::{Folder, Name, NoMemory, Words};
use tetgen_run::Stop;

/// Outputs without files, with this report.
pub(crate) fn reported(alloc: Global, report: Option<Report>) -> Outputs
    ensures { result ≡ reported report }
{
    Outputs {
        texts: Texts {
            node: None,
            ele: None,
            face: None,
            edge: None,
            neigh: None,
            whole: NamedTexts::new(alloc),
        },
        report,
        tetrahedra: 0,
    }
}

/// The outputs of a check of a sound mesh with `count` tetrahedra: no files, and its line, unless
/// `quiet` is set.
fn checked_outputs(alloc: Global, quiet: bool, count: usize) -> Result<Outputs, NoMemory>
    ensures { IfOk result (λ outputs. outputs ≡ checked_outputs quiet count) }
{
    if quiet {
        return Ok(reported(alloc, None));
    }
    let line = sound_line(alloc, count)?;
    Ok(reported(alloc, Some(Report::Text(line))))
}

/// Checks the mesh that words without `-V` name, as `check_far_files` does; its outputs are the
/// line on a sound mesh. `Usage` exactly where another word than `-rC`, `-Q` and one name is among
/// them, or no name, with the first such word.
fn checked_mesh<F: Folder>(alloc: Global, words: &Words, folder: &mut F) -> Result<Outputs, Stop>
    ensures made { IfOk result (λ outputs. OutputsOfCheck words.now
        (folder_seen F.state folder.old folder.new) (Ok outputs)) }
    ensures stopped { IfErr result (StopsSo
        (OutputsOfCheck words.now (folder_seen F.state folder.old folder.new))
        (λ status by. names_points status ≡ false)) }
    ensures only_read { IsOnlyRead (folder_seen F.state folder.old folder.new) }
{
    if let Some((word, place)) = check_fault(words) {
        return Err(Stop::from(Status::Usage { word, place }));
    }
    let base = Name::from_slice(alloc, check_base(words))?;
    let count = check_far_files(alloc, &base, folder)?;
    Ok(checked_outputs(alloc, asks_quiet(words), count)?)
}

/// The outputs of the check that the words ask for.
pub(crate) fn outputs_of_check<F: Folder>(
    alloc: Global,
    words: &Words,
    folder: &mut F,
) -> Result<Outputs, Stop>
    ensures made { IfOk result (λ outputs. OutputsOfCheck (others words.now)
        (folder_seen F.state folder.old folder.new) (Ok outputs)) }
    ensures stopped { IfErr result (StopsSo (OutputsOfCheck (others words.now)
        (folder_seen F.state folder.old folder.new)) (λ status by. names_points status ≡ false)) }
    ensures only_read { IsOnlyRead (folder_seen F.state folder.old folder.new) }
{
    let all = other_words(alloc, words)?;
    checked_mesh(alloc, &all, folder)
}

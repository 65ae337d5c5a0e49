//! The outputs that the words of the command ask for.

ghost use Rattle.std.specs.Prelude.{◌≡◌, ◌≤◌, ℕ, [], true, false, IfOk, IfErr, IfSome, Ok, Err, Some};
ghost use Rattle.command_words.specs.Meaning.{AreInRange};
ghost use Rattle.command_words.specs.declared.fault.WordsFault.TheVariants.{Usage};
ghost use Rattle.refining.specs.Goals.{IsFineGoal};
ghost use Rattle.refining.specs.Outputs.{RefinedMeshed};
ghost use Rattle.grid_coords.specs.Origins.{IsNear};
ghost use Rattle.tetfit_run.specs.Measured.{IsInPlaceOf, most_tried, origin_in, tried};
ghost use Rattle.tetfit_run.specs.Trial.{AreInTriedRange};
ghost use Rattle.tetfit_run.specs.Trying.{AreTriable, IsFitted, IsRefused, at_decimals};
ghost use Rattle.tetfit_run.specs.Words.{IsPlainRequest, IsRefinable, fit_fault, others, request_of};
ghost use Rattle.run_steps.specs.Reading.{IsSound};
ghost use Rattle.tet_ports.specs.Seen.{IsOnlyRead, folder_seen};
ghost use Rattle.tetgen_run.specs.Ends.{StopsSo};
ghost use Rattle.tetfit_run.specs.Outputs.{FitWordsAnswer, IsFinalBy, IsFittedTo, MadeBy};
ghost use Rattle.tetfit_run.specs.Opening.{is_empty};
ghost use Rattle.tetfit_run.specs.Outputs.{OutputsOfFit, OutputsOfWanted, Says, fit_limits};
ghost use Rattle.tetfit_run.specs.Outputs.{fitted_told, outputs_at, said, wanted_from};
ghost use Rattle.tetfit_run.specs.Run.{IsKnown, IsKnownOf, IsUnfitted, TellsEmpty};
ghost use Rattle.tetfit_run.specs.Stages.{SeesRounds};

use crate::checks::{outputs_of_check, reported};
use crate::conforming::conformed_outputs;
use crate::copies::with_origin;
use crate::fitting::{Fitted, Refused, fit_input};
use crate::grids::refined_decimals;
use crate::hints::{hint_of, moved_text};
use crate::limits::fit_limits;
use crate::model::{Model, read_model};
use crate::opening::{is_empty, opening_of};
use crate::page::{PAGE, VERSION};
use crate::refined::refined_at;
use crate::request::{Request, other_words, request_of};
use crate::trying::Unfitted;
use crate::wanted::{Wanted, read_wanted};
use command_words::{Options, WordsFault};
use refining::{Goal, Watch};
use run_steps::{Input, Outputs, Report, Status};
use std::alloc::Global;
use tet_ports::{Bytes, Folder, Name, NoMemory, Words};
use tetgen_run::Stop;

/// Outputs without files, whose text is written in place of the summary.
fn said(alloc: Global, text: &[u8]) -> Result<Outputs, NoMemory>
    ensures { IfOk result (λ outputs. outputs ≡ said text.now) }
{
    let text = Bytes::from_slice(alloc, text)?;
    Ok(reported(alloc, Some(Report::Text(text))))
}

/// The report of a mesh with the number of decimals in its summary, and with lines behind it.
fn fitted_told(report: Report, decimals: u32, more: Bytes) -> Report
    ensures { result ≡ fitted_told decimals more report }
{
    match report {
        Report::Mesh {
            mut summary,
            notes: _,
        } => {
            summary.decimals = Some(decimals as usize);
            Report::Mesh {
                summary,
                notes: more,
            }
        }
        Report::Text(text) => Report::Text(text),
    }
}

/// The outputs of a fitted mesh, with its number of decimals in the summary, and with lines behind
/// it.
fn outputs_at(fitted: Fitted, more: Bytes) -> Outputs
    ensures { result ≡ outputs_at fitted.decimals more fitted.outputs }
{
    let Fitted { decimals, outputs } = fitted;
    let Outputs {
        texts,
        report,
        tetrahedra,
    } = outputs;
    match report {
        None => Outputs {
            texts,
            report: None,
            tetrahedra,
        },
        Some(report) => Outputs {
            texts,
            report: Some(fitted_told(report, decimals, more)),
            tetrahedra,
        },
    }
}

/// The outputs of the refined mesh at so many or fewer decimals: those that leave halvings of the
/// grid to added points, or else all, and all where a number is given.
fn refined_within<W: Watch>(
    alloc: Global,
    options: &Options,
    input: &Input,
    decimals: u32,
    goal: &Goal,
    watch: &mut W,
) -> Result<Fitted, NoMemory>
    requires input { IsSound input.now }
    requires ranges { (m : ℕ) → m ≤ decimals → AreInTriedRange (at_decimals m options.now) }
    requires complex { options.now.piecewise ≡ true }
    requires fine { IsFineGoal goal.now }
    ensures few { IfOk result
        (λ final. IsInPlaceOf options.now.decimals decimals final.decimals) }
    ensures outputs { IfOk result (λ final. RefinedMeshed goal.now fit_limits
        (at_decimals final.decimals options.now)
        (tried (at_decimals final.decimals options.now) input.now) (Ok final.outputs)) }
    ensures shown { SeesRounds W.shown watch.old watch.new }
{
    let points = input.nodes.decimals.as_slice();
    let fine = refined_decimals(options, points, decimals);
    match refined_at(alloc, options, input, fine, goal, watch) {
        Ok(outputs) => Ok(Fitted {
            decimals: fine,
            outputs,
        }),
        Err(_) => match refined_at(alloc, options, input, decimals, goal, watch) {
            Ok(outputs) => Ok(Fitted { decimals, outputs }),
            Err(_) => Err(NoMemory),
        },
    }
}

/// The outputs in the end, and the decimals: those that are fitted, or, where tetrahedra are
/// bounded, those of the refined mesh.
fn final_outputs<W: Watch>(
    alloc: Global,
    wanted: &Wanted,
    input: &Input,
    fitted: Fitted,
    watch: &mut W,
) -> Result<Fitted, NoMemory>
    requires input { IsSound input.now }
    requires ranges { (m : ℕ) → m ≤ fitted.decimals
        → AreInTriedRange (at_decimals m wanted.now.options) }
    requires refinable { IsRefinable wanted.now }
    ensures outputs { IfOk result (λ final. IsFinalBy wanted.now.goal wanted.now.options
        input.now fitted.decimals fitted.outputs final.decimals final.outputs) }
    ensures shown { SeesRounds W.shown watch.old watch.new }
{
    let decimals = fitted.decimals;
    match &wanted.goal {
        None => Ok(fitted),
        Some(goal) => {
            drop(fitted);
            refined_within(alloc, &wanted.options, input, decimals, goal, watch)
        }
    }
}

/// The outputs of a fitted mesh with tetrahedra, or of the refined one, with the line that says by
/// how much rounding moved coordinates.
fn told_outputs<W: Watch>(
    alloc: Global,
    wanted: &Wanted,
    input: &Input,
    fitted: Fitted,
    watch: &mut W,
) -> Result<Outputs, NoMemory>
    requires input { IsSound input.now }
    requires ranges { AreTriable wanted.now.options input.now }
    requires refinable { IsRefinable wanted.now }
    requires fitted { IsFitted fit_limits wanted.now.options input.now fitted.decimals
        (Ok fitted.outputs) }
    requires some { is_empty fitted.outputs ≡ false }
    ensures made { IfOk result (λ outputs. IsFittedTo wanted.now input.now (Ok outputs)) }
    ensures shown { SeesRounds W.shown watch.old watch.new }
{
    let last = final_outputs(alloc, wanted, input, fitted, watch)?;
    let more = moved_text(
        alloc,
        &wanted.options,
        last.decimals,
        input.nodes.decimals.as_slice(),
    )?;
    Ok(outputs_at(last, more))
}

/// The refusal of a fitted mesh without a tetrahedron, with the line that says why.
fn empty_stop(
    alloc: Global,
    options: &Options,
    input: &Input,
    decimals: u32,
    hint: &mut Bytes,
) -> Stop
    requires input { IsSound input.now }
    requires ranges { AreInTriedRange (at_decimals decimals options.now) }
    ensures { TellsEmpty options.now input.now decimals hint.new result }
{
    match opening_of(alloc, fit_limits(), options, input, decimals) {
        Ok(line) => {
            *hint = line;
            Stop::Refused {
                status: Status::Empty,
                numbering: None,
            }
        }
        Err(_) => Stop::NoMemory,
    }
}

/// The outputs of a fitted mesh, or its refusal where it has no tetrahedron.
fn filled_outputs<W: Watch>(
    alloc: Global,
    wanted: &Wanted,
    model: &Model,
    fitted: Fitted,
    hint: &mut Bytes,
    watch: &mut W,
) -> Result<Outputs, Stop>
    requires input { IsSound model.now.input }
    requires ranges { AreTriable wanted.now.options model.now.input }
    requires refinable { IsRefinable wanted.now }
    requires fitted { IsFitted fit_limits wanted.now.options model.now.input fitted.decimals
        (Ok fitted.outputs) }
    ensures made { IfOk result
        (λ outputs. IsFittedTo wanted.now model.now.input (Ok outputs)) }
    ensures stopped { IfErr result (IsUnfitted wanted.now.options model.now hint.new) }
    ensures shown { SeesRounds W.shown watch.old watch.new }
{
    if is_empty(&fitted.outputs) {
        let options = &wanted.options;
        return Err(empty_stop(alloc, options, &model.input, fitted.decimals, hint));
    }
    Ok(told_outputs(alloc, wanted, &model.input, fitted, watch)?)
}

/// The outputs of a refused model with points on its segments, where tetrahedra are bounded and it
/// has a mesh with them, or its refusal with the lines that follow its message.
fn refused_outputs<W: Watch>(
    alloc: Global,
    wanted: &Wanted,
    model: &Model,
    refused: Refused,
    hint: &mut Bytes,
    watch: &mut W,
) -> Result<Outputs, Stop>
    requires input { IsSound model.now.input }
    requires origin { wanted.now.options.origin ≡ origin_in model.now.input }
    requires ranges { AreTriable wanted.now.options model.now.input }
    requires refinable { IsRefinable wanted.now }
    requires refused { IsRefused fit_limits wanted.now.options model.now.input refused }
    ensures made { IfOk result
        (λ outputs. IsFittedTo wanted.now model.now.input (Ok outputs)) }
    ensures stopped { IfErr result (IsUnfitted wanted.now.options model.now hint.new) }
    ensures shown { SeesRounds W.shown watch.old watch.new }
{
    let input = &model.input;
    if let Some(last) = conformed_outputs(alloc, wanted, input, &refused, watch)? {
        let more = moved_text(
            alloc,
            &wanted.options,
            last.decimals,
            input.nodes.decimals.as_slice(),
        )?;
        return Ok(outputs_at(last, more));
    }
    *hint = hint_of(alloc, fit_limits(), &wanted.options, model, &refused)?;
    let Unfitted { status, numbering } = refused.end;
    Err(Stop::Refused { status, numbering })
}

/// The outputs of a model with the most decimals at which the grid does not refuse it, or the
/// refusal with the lines that follow its message.
fn fitted_outputs<W: Watch>(
    alloc: Global,
    wanted: &Wanted,
    model: &Model,
    hint: &mut Bytes,
    watch: &mut W,
) -> Result<Outputs, Stop>
    requires input { IsSound model.now.input }
    requires origin { wanted.now.options.origin ≡ origin_in model.now.input }
    requires ranges { AreTriable wanted.now.options model.now.input }
    requires refinable { IsRefinable wanted.now }
    ensures made { IfOk result
        (λ outputs. IsFittedTo wanted.now model.now.input (Ok outputs)) }
    ensures stopped { IfErr result (IsUnfitted wanted.now.options model.now hint.new) }
    ensures shown { SeesRounds W.shown watch.old watch.new }
{
    let options = &wanted.options;
    match fit_input(alloc, fit_limits(), options, &model.input) {
        Ok(fitted) => filled_outputs(alloc, wanted, model, fitted, hint, watch),
        Err(refused) => refused_outputs(alloc, wanted, model, refused, hint, watch),
    }
}

/// What is wanted, with coordinates measured from the origin of the model.
fn wanted_from(alloc: Global, wanted: &Wanted, model: &Model) -> Result<Wanted, NoMemory>
    requires ranges { AreInRange wanted.now.options }
    requires origin { model.now.origin ≡ origin_in model.now.input }
    requires near { IfSome model.now.origin (IsNear (most_tried model.now.input)) }
    ensures value { IfOk result (λ made. made ≡ wanted_from model.now.input wanted.now) }
    ensures ranges { IfOk result (λ made. AreTriable made.options model.now.input) }
{
    Ok(Wanted {
        name: Name::from_slice(alloc, wanted.name.as_slice())?,
        options: with_origin(alloc, &wanted.options, model.origin)?,
        goal: wanted.goal,
    })
}

/// The outputs of the model that the options name.
fn outputs_of_wanted<F: Folder, W: Watch>(
    alloc: Global,
    wanted: &Wanted,
    folder: &mut F,
    hint: &mut Bytes,
    watch: &mut W,
) -> Result<Outputs, Stop>
    requires ranges { AreInRange wanted.now.options }
    requires plain { IsPlainRequest wanted.now.options }
    requires refinable { IsRefinable wanted.now }
    requires none { hint.old ≡ [] }
    ensures made { IfOk result (λ outputs. OutputsOfWanted wanted.now
        (folder_seen F.state folder.old folder.new) (Ok outputs)) }
    ensures stopped { IfErr result (StopsSo
        (OutputsOfWanted wanted.now
        (folder_seen F.state folder.old folder.new))
        (IsKnownOf wanted.now.name wanted.now.options
        (folder_seen F.state folder.old folder.new) hint.new)) }
    ensures only_read { IsOnlyRead (folder_seen F.state folder.old folder.new) }
    ensures shown { SeesRounds W.shown watch.old watch.new }
{
    let options = &wanted.options;
    let model = read_model(alloc, fit_limits(), &wanted.name, options, folder, hint)?;
    let placed = wanted_from(alloc, wanted, &model)?;
    fitted_outputs(alloc, &placed, &model, hint, watch)
}

/// The options and the goal of the words, without those that ask for the stages.
fn fit_wanted(alloc: Global, words: &Words) -> Result<Wanted, WordsFault>
    ensures understood { IfOk result
        (λ wanted. FitWordsAnswer (others words.now) (Ok wanted)) }
    ensures usage { (word place : ℕ) → result ≡ Err (Usage word place)
        → fit_fault (others words.now) ≡ Some (word, place) }
    ensures ranges { IfOk result (λ wanted. AreInRange wanted.options) }
    ensures plain { IfOk result (λ wanted. IsPlainRequest wanted.options) }
    ensures refinable { IfOk result IsRefinable }
{
    let all = other_words(alloc, words)?;
    read_wanted(alloc, &all)
}

/// The outputs that the words ask for: the page, the version, those of a check, or those of the
/// model that they name.
/// `watch` is shown the rounds in which points are added.
pub(crate) fn outputs_of<F: Folder, W: Watch>(
    alloc: Global,
    words: &Words,
    folder: &mut F,
    hint: &mut Bytes,
    watch: &mut W,
) -> Result<Outputs, Stop>
    requires { hint.old ≡ [] }
    ensures made { IfOk result (λ outputs. OutputsOfFit words.now
        (folder_seen F.state folder.old folder.new) (Ok outputs)) }
    ensures stopped { IfErr result (StopsSo
        (OutputsOfFit words.now (folder_seen F.state folder.old folder.new))
        (IsKnown words.now (folder_seen F.state folder.old folder.new) hint.new)) }
    ensures only_read { IsOnlyRead (folder_seen F.state folder.old folder.new) }
    ensures shown { SeesRounds W.shown watch.old watch.new }
{
    match request_of(words) {
        Request::Page => Ok(said(alloc, PAGE)?),
        Request::Version => Ok(said(alloc, VERSION)?),
        Request::Check => outputs_of_check(alloc, words, folder),
        Request::Mesh => {
            let wanted = fit_wanted(alloc, words)?;
            outputs_of_wanted(alloc, &wanted, folder, hint, watch)
        }
    }
}

//! One try: the outputs of an input at a number of decimals.

ghost use Rattle.std.specs.Prelude.{◌≡◌, ◌≤◌, Some, IfErr, IfOk};
ghost use Rattle.node_files.specs.Limits.{AreIndexable};
ghost use Rattle.run_steps.specs.Meshing.{IsMeshableBound};
ghost use Rattle.run_steps.specs.Reading.{IsSound};
ghost use Rattle.tetfit_run.specs.Measured.{MeshedTried, tried};
ghost use Rattle.tetfit_run.specs.Trial.{AreInTriedRange};
ghost use Rattle.tetfit_run.specs.Trying.{answer_in, AnswerAt, MadeAnswer};
ghost use Rattle.tetfit_run.specs.Trying.{at_decimals, IsNumbered, IsNumberedAt};

use crate::copies::{at_decimals, tried_nodes};
use crate::trial::Trial;
use command_words::Options;
use node_files::{Limits, NodeText};
use run_steps::{Bound, Input, Numbering, Outputs, Status, mesh_outputs, numbering_of};
use std::alloc::Global;
use tet_ports::NoMemory;

/// How an input is refused.
#[derive(Drop)]
pub struct Unfitted {
    pub status: Status,
    /// The numbers of the input's points, where they are on their grid.
    pub numbering: Option<Numbering>,
}

impl From<Status> for Unfitted {
    ghost use Rattle.std.specs.Prelude.{◌≡◌, None};

    ghost from_gives = { λ status end. end ≡ record { status = status; numbering = None } };

    fn from(status: Status) -> Unfitted {
        Unfitted {
            status,
            numbering: None,
        }
    }
}

impl From<NoMemory> for Unfitted {
    ghost use Rattle.std.specs.Prelude.{◌≡◌, None};
    ghost use Rattle.run_steps.specs.declared.status.Status.TheVariants.{NoMemory as OutOfMemory};

    ghost from_gives = { λ _ end. end ≡ record { status = OutOfMemory; numbering = None } };

    fn from(_: NoMemory) -> Unfitted {
        Unfitted::from(Status::NoMemory)
    }
}

/// The outputs of an input, with the coordinates rounded to `decimals` decimals, and measured from
/// the origin of the options, where these have one. It refuses as the steps `bind_input` and
/// `mesh_outputs` do.
pub(crate) fn outputs_at(
    alloc: Global,
    limits: Limits,
    options: &Options,
    input: &Input,
    decimals: u32,
) -> Result<Outputs, Unfitted>
    requires limits { AreIndexable limits }
    requires input { IsSound input.now }
    requires ranges { AreInTriedRange (at_decimals decimals options.now) }
    ensures answer { AnswerAt limits options.now input.now decimals (answer_in result) }
    ensures numbered { IfErr result (IsNumberedAt limits options.now input.now decimals) }
{
    let options = at_decimals(alloc, options, decimals)?;
    let nodes = tried_nodes(alloc, &options, &input.nodes)?;
    let rounded = Trial::new(limits, &options, input);
    outputs_with(alloc, &rounded, nodes)
}

/// The outputs of a trial; `nodes` is a copy of its points as they are tried.
pub(crate) fn outputs_with(
    alloc: Global,
    trial: &Trial,
    nodes: NodeText,
) -> Result<Outputs, Unfitted>
    requires { nodes ≡ (tried trial.now.options trial.now.input).nodes }
    ensures answer { MeshedTried trial.now.limits trial.now.options trial.now.input
        (answer_in result) }
    ensures numbered { IfErr result (λ end. IsNumbered trial.now.limits
        trial.now.options trial.now.input end.status end.numbering) }
{
    let bound = trial.bind(alloc, nodes)?;
    let numbering = numbering_of(alloc, &bound.table)?;
    outputs_of(alloc, trial.options, bound, numbering)
}

/// The outputs of points and a complex on their grid; a refusal carries the points' numbers.
fn outputs_of(
    alloc: Global,
    options: &Options,
    bound: Bound,
    numbering: Numbering,
) -> Result<Outputs, Unfitted>
    requires { IsMeshableBound options.now bound }
    ensures answer { MadeAnswer options.now bound (answer_in result) }
    ensures numbered { IfErr result (λ end. end.numbering ≡ Some numbering) }
{
    match mesh_outputs(alloc, options, bound) {
        Ok(outputs) => Ok(outputs),
        Err(status) => Err(Unfitted {
            status,
            numbering: Some(numbering),
        }),
    }
}

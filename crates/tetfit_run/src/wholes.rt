//! The segment on which a missing subsegment lies.

ghost use Rattle.std.specs.Prelude.{◌≡◌, ◌≢◌, ◌≤◌, IfOk, IsSome, Some};
ghost use Rattle.run_steps.specs.declared.status.Status.TheVariants.{NoMemory as Wanting};
ghost use Rattle.geo_laws.specs.declared.complex.Piece.{Piece as APiece};
ghost use Rattle.tetfit_run.specs.Hints.{missing_in, HasPoints, IsHalvedAfter, IsHalvedPartOf};
ghost use Rattle.tetfit_run.specs.Hints.{IsMissing};

use crate::copies::{tried_nodes, with_budget};
use crate::trial::Trial;
use crate::trying::outputs_with;
use geo_laws::Piece;
use run_steps::Status;
use std::alloc::Global;
use tet_ports::NoMemory;

/// The subsegment for which a run is refused that is out of memory or lacks one.
fn missing_in(status: &Status) -> Result<Piece, NoMemory>
    requires { status.now ≢ Wanting → IsSome (missing_in status.now) }
    ensures { IfOk result (λ p. missing_in status.now ≡ Some p) }
{
    match status {
        Status::GridEnd { piece } => Ok(*piece),
        Status::BudgetEnd { made: _, piece } => Ok(*piece),
        Status::NoMemory => Err(NoMemory),
        _ => unreachable!(),
    }
}

/// The subsegment that is missing once `added` points are added, and that the next point halves.
/// Meshing again with no more points ends at it, or out of memory.
fn halved_after(alloc: Global, trial: &Trial, added: usize) -> Result<Piece, NoMemory>
    requires few { added ≤ 100000 }
    requires halved { (before : APiece) × IsHalvedAfter trial.now.limits
        trial.now.options trial.now.input added before }
    ensures { IfOk result (IsHalvedAfter trial.now.limits trial.now.options
        trial.now.input added) }
{
    let options = with_budget(alloc, trial.options, added as u32)?;
    let nodes = tried_nodes(alloc, &options, &trial.input.nodes)?;
    let halved = Trial::new(trial.limits, &options, trial.input);
    match outputs_with(alloc, &halved, nodes) {
        Ok(_) => unreachable!(),
        Err(end) => missing_in(&end.status),
    }
}

/// The segment of a model with `count` points that holds a missing subsegment: the one before it
/// was halved by the point that is its later end, and so on down to one that was never halved.
pub(crate) fn whole_of(
    alloc: Global,
    trial: &Trial,
    count: usize,
    piece: Piece,
) -> Result<Piece, NoMemory>
    requires few { trial.now.options.budget ≤ 100000 }
    requires points { HasPoints trial.now.limits trial.now.options trial.now.input count }
    requires missing { IsMissing trial.now.limits trial.now.options trial.now.input piece }
    ensures { IfOk result (IsHalvedPartOf trial.now.limits trial.now.options trial.now.input
        count piece.halvings piece) }
{
    let mut whole = piece;
    let mut left = piece.halvings;
    while left > 0 {
        let added = (whole.a.max(whole.b) as usize).saturating_sub(count);
        let before = halved_after(alloc, trial, added)?;
        whole = before;
        left -= 1;
    }
    Ok(whole)
}

//! The outputs of a refused model with points on its segments.

ghost use Rattle.std.specs.Prelude.{◌≡◌, true, IfOk, IfSome};
ghost use Rattle.run_steps.specs.Reading.{IsSound};
ghost use Rattle.tetfit_run.specs.Measured.{origin_in};
ghost use Rattle.tetfit_run.specs.Outputs.{IsConformedBy, IsOffSomeGrid, fit_limits};
ghost use Rattle.tetfit_run.specs.Stages.{SeesRounds};
ghost use Rattle.tetfit_run.specs.Trying.{AreTriable, IsRefused};
ghost use Rattle.tetfit_run.specs.Words.{IsRefinable};

use crate::fitting::{Fitted, Refused, is_of_grid};
use crate::grids::{first_tried, refined_decimals};
use crate::opening::is_empty;
use crate::refined::conformed_at;
use crate::wanted::Wanted;
use command_words::Options;
use refining::Watch;
use run_steps::Input;
use std::alloc::Global;
use tet_ports::NoMemory;

/// Whether the grid refuses an input at some number of decimals, which is refused in the end.
fn is_off_some_grid(options: &Options, input: &Input, refused: &Refused) -> bool
    requires input { IsSound input.now }
    requires origin { options.now.origin ≡ origin_in input.now }
    requires ranges { AreTriable options.now input.now }
    requires refused { IsRefused fit_limits options.now input.now refused.now }
    ensures { result ≡ true → IsOffSomeGrid options.now input.now }
{
    let first = first_tried(options, input.nodes.decimals.as_slice());
    if refused.decimals < first {
        return true;
    }
    is_of_grid(&refused.end.status)
}

/// The outputs of a mesh with a tetrahedron, at the decimals that leave halvings of the grid to
/// added points, or that are given, of an input that is refused, and at some number of decimals by
/// the grid: points on its segments are the first that are added. There are none where tetrahedra
/// are not bounded.
pub(crate) fn conformed_outputs<W: Watch>(
    alloc: Global,
    wanted: &Wanted,
    input: &Input,
    refused: &Refused,
    watch: &mut W,
) -> Result<Option<Fitted>, NoMemory>
    requires input { IsSound input.now }
    requires origin { wanted.now.options.origin ≡ origin_in input.now }
    requires ranges { AreTriable wanted.now.options input.now }
    requires refinable { IsRefinable wanted.now }
    requires refused { IsRefused fit_limits wanted.now.options input.now refused.now }
    ensures made { IfOk result (λ made. IfSome made (λ final. IsConformedBy wanted.now.goal
        wanted.now.options input.now final.decimals final.outputs)) }
    ensures shown { SeesRounds W.shown watch.old watch.new }
{
    let options = &wanted.options;
    let Some(goal) = &wanted.goal else {
        return Ok(None);
    };
    if !is_off_some_grid(options, input, refused) {
        return Ok(None);
    }
    let points = input.nodes.decimals.as_slice();
    let first = first_tried(options, points);
    let decimals = refined_decimals(options, points, first);
    match conformed_at(alloc, options, input, decimals, goal, watch)? {
        Some(outputs) if !is_empty(&outputs) => Ok(Some(Fitted { decimals, outputs })),
        _ => Ok(None),
    }
}

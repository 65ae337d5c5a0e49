//! The search for the finest rounding of a model that can be meshed, from the most decimals
//! downward, or at a number that is given.

ghost use Rattle.std.specs.Prelude.{◌≡◌, ◌≤◌, ◌<◌, true, false, IsTrue, IfErr, IfOk, Ok};
ghost use Rattle.node_files.specs.Limits.{AreIndexable};
ghost use Rattle.run_steps.specs.Reading.{IsSound};
ghost use Rattle.tetfit_run.specs.Measured.{origin_in};
ghost use Rattle.tetfit_run.specs.Trying.{is_of_grid, AreTriable, IsFitted, IsRefused};

use crate::grids::{first_tried, last_tried, next_tried};
use crate::trying::{Unfitted, outputs_at};
use command_words::Options;
use node_files::Limits;
use run_steps::{Input, LimitKind, Outputs, Status};
use std::alloc::Global;

/// The outputs of an input, and the number of decimals to which its coordinates were rounded.
#[derive(Drop)]
pub struct Fitted {
    pub decimals: u32,
    pub outputs: Outputs,
}

/// The refusal of an input, and the number of decimals at which it is refused.
#[derive(Drop)]
pub struct Refused {
    pub decimals: u32,
    pub end: Unfitted,
}

/// Whether the refusal is one of the grid: a point is off the grid, or a subsegment has no midpoint
/// on it.
pub(crate) fn is_of_grid(status: &Status) -> bool
    ensures { result ≡ is_of_grid status.now }
{
    match status {
        Status::Limit {
            what: LimitKind::Grid { .. },
        } => true,
        Status::GridEnd { .. } => true,
        _ => false,
    }
}

/// Whether fewer decimals are tried after this refusal, where `last` is the last number.
fn goes_on(last: u32, decimals: u32, status: &Status) -> bool
    ensures on { IsTrue result → (last < decimals) × (is_of_grid status.now ≡ true) }
    ensures off { result ≡ false → is_of_grid status.now ≡ true → decimals ≤ last }
{
    decimals > last && is_of_grid(status)
}

/// The outputs of the input at the greatest number of decimals at which the grid does not refuse
/// it, of those from the first one that is tried (`first_tried`) down to the last (`last_tried`):
/// the number that the options give, where they give one. It refuses as the steps `bind_input` and
/// `mesh_outputs` do at that number, or at the last where the grid refuses at each.
pub fn fit_input(
    alloc: Global,
    limits: Limits,
    options: &Options,
    input: &Input,
) -> Result<Fitted, Refused>
    requires limits { AreIndexable limits }
    requires input { IsSound input.now }
    requires origin { options.now.origin ≡ origin_in input.now }
    requires ranges { AreTriable options.now input.now }
    ensures fitted { IfOk result (λ fitted. IsFitted limits options.now input.now
        fitted.decimals (Ok fitted.outputs)) }
    ensures refused { IfErr result (IsRefused limits options.now input.now) }
{
    let points = input.nodes.decimals.as_slice();
    let mut decimals = first_tried(options, points);
    let last = last_tried(options, decimals);
    loop {
        match outputs_at(alloc, limits, options, input, decimals) {
            Ok(outputs) => return Ok(Fitted { decimals, outputs }),
            Err(end) => {
                if !goes_on(last, decimals, &end.status) {
                    return Err(Refused { decimals, end });
                }
            }
        }
        decimals = next_tried(options.origin, points, decimals, limits.grid);
    }
}

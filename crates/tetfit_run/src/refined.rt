//! The outputs of a model whose mesh is refined.

ghost use Rattle.std.specs.Prelude.{◌≡◌, ◌≤◌, true, IfOk, IfSome, Ok};
ghost use Rattle.run_steps.specs.Meshing.{IsMeshableBound};
ghost use Rattle.run_steps.specs.Reading.{IsSound};
ghost use Rattle.refining.specs.Goals.{IsFineGoal};
ghost use Rattle.refining.specs.Outputs.{ConformingMeshed, RefinedAnswer, RefinedMade};
ghost use Rattle.refining.specs.Outputs.{RefinedMeshed};
ghost use Rattle.tet_shapes.specs.Shape.{IsFine};
ghost use Rattle.tetfit_run.specs.Measured.{tried};
ghost use Rattle.tetfit_run.specs.Outputs.{fit_limits};
ghost use Rattle.tetfit_run.specs.Refined.{BoundedTried};
ghost use Rattle.tetfit_run.specs.Stages.{SeesRounds};
ghost use Rattle.tetfit_run.specs.Trial.{AreInTriedRange};
ghost use Rattle.tetfit_run.specs.Trying.{at_decimals};

use crate::copies::{at_decimals, tried_nodes};
use crate::limits::fit_limits;
use crate::trial::Trial;
use command_words::Options;
use grid_coords::Grid;
use refining::{
    Bounds, Goal, Quality, ShapeBounds, Watch, conforming_outputs, refined_outputs, shape_bounds,
};
use run_steps::{Bound, Input, Outputs, Status};
use std::alloc::Global;
use tet_ports::NoMemory;

/// How often protection may halve a segment of a refined mesh: two to six times, so that eight
/// halvings are left to added points, where the grid has as many.
fn halvings_left(grid: Grid) -> u32 {
    let spare = grid.halvings.saturating_sub(8);
    spare.max(2).min(6).min(grid.halvings)
}

/// The most rounds in which points are added.
const ROUNDS: u32 = 40;

/// The most points of protection that words can ask for; below it the number bounds all points that
/// are added.
const MOST_PROTECTION: u32 = 100_000;

/// The most points that are added to a mesh.
fn most_added(options: &Options) -> usize {
    if options.budget < MOST_PROTECTION {
        options.budget as usize
    } else {
        fit_limits().points
    }
}

/// The bounds of the rounds on a grid.
fn bounds_on<'a>(grid: Grid, options: &Options, shapes: &'a ShapeBounds) -> Bounds<'a>
    ensures { result.shapes.now ≡ shapes.now }
{
    Bounds {
        shapes,
        halvings: halvings_left(grid),
        rounds: ROUNDS,
        added: most_added(options),
        most: fit_limits().points,
    }
}

/// The outputs of points and a complex on their grid, with the mesh refined while a tetrahedron is
/// over a bound, and points added on segments and in facets or not; `watch` is shown the rounds.
fn refined_towards<W: Watch>(
    alloc: Global,
    options: &Options,
    bound: Bound,
    shapes: &ShapeBounds,
    splits_boundary: bool,
    watch: &mut W,
) -> Result<Outputs, Status>
    requires bound { IsMeshableBound options.now bound }
    requires complex { options.now.piecewise ≡ true }
    requires fine { IfSome shapes.now.ratio IsFine }
    ensures made { RefinedMade shapes.now options.now bound result }
    ensures shown { SeesRounds W.shown watch.old watch.new }
{
    let bounds = bounds_on(bound.table.grid, options, shapes);
    let mut quality = Quality::new(shapes, splits_boundary);
    refined_outputs(alloc, options, bound, &bounds, &mut quality, watch)
}

/// As `refined_towards`, of a complex that has no mesh without further points: the outputs of one
/// with points on its segments, where it has one.
fn conformed_towards<W: Watch>(
    alloc: Global,
    options: &Options,
    bound: Bound,
    shapes: &ShapeBounds,
    splits_boundary: bool,
    watch: &mut W,
) -> Result<Option<Outputs>, NoMemory>
    requires bound { IsMeshableBound options.now bound }
    requires fine { IfSome shapes.now.ratio IsFine }
    ensures made { IfOk result (λ made. IfSome made
        (λ outputs. RefinedAnswer shapes.now options.now bound (Ok outputs))) }
    ensures shown { SeesRounds W.shown watch.old watch.new }
{
    let bounds = bounds_on(bound.table.grid, options, shapes);
    let mut quality = Quality::new(shapes, splits_boundary);
    conforming_outputs(alloc, options, bound, &bounds, &mut quality, watch)
}

/// A complex on its grid, and the bounds on its tetrahedra.
#[derive(Drop)]
struct Bounded {
    bound: Bound,
    shapes: ShapeBounds,
}

/// The points and the complex of an input on their grid, as it is tried with options, and the
/// bounds of the goal and of regions. It refuses as `bind_input` does, or when out of memory.
fn bind_tried(
    alloc: Global,
    options: &Options,
    input: &Input,
    goal: &Goal,
) -> Result<Bounded, Status>
    requires input { IsSound input.now }
    requires ranges { AreInTriedRange options.now }
    requires fine { IsFineGoal goal.now }
    ensures answer { BoundedTried goal.now options.now input.now result }
    ensures meshable { IfOk result (λ made. IsMeshableBound options.now made.bound) }
    ensures fine { IfOk result (λ made. IfSome made.shapes.ratio IsFine) }
{
    let nodes = tried_nodes(alloc, options, &input.nodes)?;
    let of_regions = input.complex.limits(alloc)?;
    let rounded = Trial::new(fit_limits(), options, input);
    let bound = rounded.bind(alloc, nodes)?;
    let shapes = shape_bounds(alloc, &bound, goal, of_regions.as_slice())?;
    Ok(Bounded { bound, shapes })
}

/// The outputs of a complex rounded to `decimals` decimals, with the mesh refined while a
/// tetrahedron is over a bound of the goal, or over the volume limit of its region; `watch` is
/// shown the rounds. It refuses as `bind_input` and `mesh_outputs` do, or when out of memory.
pub(crate) fn refined_at<W: Watch>(
    alloc: Global,
    options: &Options,
    input: &Input,
    decimals: u32,
    goal: &Goal,
    watch: &mut W,
) -> Result<Outputs, Status>
    requires input { IsSound input.now }
    requires ranges { AreInTriedRange (at_decimals decimals options.now) }
    requires complex { options.now.piecewise ≡ true }
    requires fine { IsFineGoal goal.now }
    ensures made { RefinedMeshed goal.now fit_limits (at_decimals decimals options.now)
        (tried (at_decimals decimals options.now) input.now) result }
    ensures shown { SeesRounds W.shown watch.old watch.new }
{
    let options = at_decimals(alloc, options, decimals)?;
    let Bounded { bound, shapes } = bind_tried(alloc, &options, input, goal)?;
    refined_towards(alloc, &options, bound, &shapes, goal.splits_boundary, watch)
}

/// As `refined_at`, of a complex that has no mesh without further points: the outputs of one with
/// points on its segments, where it has one. It refuses only when out of memory.
pub(crate) fn conformed_at<W: Watch>(
    alloc: Global,
    options: &Options,
    input: &Input,
    decimals: u32,
    goal: &Goal,
    watch: &mut W,
) -> Result<Option<Outputs>, NoMemory>
    requires input { IsSound input.now }
    requires ranges { AreInTriedRange (at_decimals decimals options.now) }
    requires fine { IsFineGoal goal.now }
    ensures made { IfOk result (λ made. IfSome made
        (ConformingMeshed goal.now fit_limits (at_decimals decimals options.now)
        (tried (at_decimals decimals options.now) input.now))) }
    ensures shown { SeesRounds W.shown watch.old watch.new }
{
    let options = at_decimals(alloc, options, decimals)?;
    match bind_tried(alloc, &options, input, goal) {
        Ok(Bounded { bound, shapes }) => {
            conformed_towards(alloc, &options, bound, &shapes, goal.splits_boundary, watch)
        }
        Err(_) => Ok(None),
    }
}

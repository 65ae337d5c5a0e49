//! The points of a refused model on their grid, with those that are added on its segments.

ghost use Rattle.std.specs.Prelude.{◌≡◌, IfOk};
ghost use Rattle.complex_mesh.specs.declared.fault.MeshFault.TheVariants.{NoMemory as Wanting};
ghost use Rattle.refining.specs.Rounds.{IsPrintable};
ghost use Rattle.run_steps.specs.Meshing.{IsMeshableBound};
ghost use Rattle.tetfit_run.specs.Placed.{HasCrossing, HasCrossingOn, IsPlaced, IsPlacedOn};

use crate::copies::tried_nodes;
use crate::trial::Trial;
use command_words::Options;
use complex_mesh::MeshFault;
use geo_laws::Points;
use refining::Frame;
use run_steps::{Bound, Status, protected_points};
use std::alloc::Global;
use tet_ports::NoMemory;

/// The points of a model on their grid and, behind them, those that are added on its segments.
#[derive(Drop)]
pub struct Placed {
    pub frame: Frame,
    pub points: Points,
}

/// The lack of memory, which the fault is.
fn lack_of_memory(fault: MeshFault) -> NoMemory
    requires { fault ≡ Wanting }
{
    match fault {
        MeshFault::NoMemory => NoMemory,
        _ => unreachable!(),
    }
}

/// The points of a model on its grid, whose parts cross once points are added on its segments.
fn placed_on(alloc: Global, options: &Options, bound: &Bound) -> Result<Placed, NoMemory>
    requires meshable { IsMeshableBound options.now bound.now }
    requires crossing { HasCrossingOn options.now bound.now }
    ensures placed { IfOk result (IsPlacedOn options.now bound.now) }
    ensures printable { IfOk result (λ placed. IsPrintable placed.frame) }
{
    match protected_points(alloc, options, bound) {
        Ok(points) => {
            let frame = Frame {
                grid: bound.table.grid,
                origin: options.origin,
            };
            Ok(Placed { frame, points })
        }
        Err(fault) => Err(lack_of_memory(fault)),
    }
}

/// The points of a model whose parts cross once points are added on its segments; the model is put
/// on its grid again.
pub(crate) fn placed_of(alloc: Global, trial: &Trial) -> Result<Placed, NoMemory>
    requires { HasCrossing trial.now.limits trial.now.options trial.now.input }
    ensures placed { IfOk result
        (IsPlaced trial.now.limits trial.now.options trial.now.input) }
    ensures printable { IfOk result (λ placed. IsPrintable placed.frame) }
{
    let nodes = tried_nodes(alloc, trial.options, &trial.input.nodes)?;
    match trial.bind(alloc, nodes) {
        Ok(bound) => placed_on(alloc, trial.options, &bound),
        Err(Status::NoMemory) => Err(NoMemory),
        Err(_) => unreachable!(),
    }
}

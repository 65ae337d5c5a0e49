//! Points with more decimals than words may ask for: they are rounded before they are put on their
//! grid.

ghost use Rattle.std.specs.Prelude.{◌≡◌, ◌≤◌, ◌<◌, map, None, Some, IfOk, IfSome};
ghost use Rattle.node_files.specs.Limits.{AreIndexable};
ghost use Rattle.node_files.specs.Settling.{rounded_point};
ghost use Rattle.run_steps.specs.Meshing.{BoundAnswer, IsMeshableBound};
ghost use Rattle.run_steps.specs.Reading.{IsSound};
ghost use Rattle.tetfit_run.specs.Trial.{rounded_nodes, AreInTriedRange};

use crate::copies::without_decimals;
use command_words::Options;
use grid_coords::{DecimalPoint, DecimalPoints};
use node_files::{Limits, NodeText, rounded_point};
use plc_files::PlcText;
use run_steps::{Bound, Status, bind_nodes};
use std::alloc::Global;
use tet_ports::NoMemory;

/// The most decimals that words may ask for.
const MOST_OF_WORDS: u32 = 20;

/// The number of decimals of the options, where words may not ask for so many.
pub(crate) fn decimals_over(options: &Options) -> Option<u32>
    ensures over { IfSome result (λ m. (options.now.decimals ≡ Some m) × (20 < m)) }
    ensures within { result ≡ None → IfSome options.now.decimals (λ m. m ≤ 20) }
{
    match options.decimals {
        Some(m) => { if m > MOST_OF_WORDS { Some(m) } else { None } }
        None => None,
    }
}

fn each_rounded(alloc: Global, m: u32, points: &[DecimalPoint]) -> Result<DecimalPoints, NoMemory>
    ensures { IfOk result (λ made. made ≡ map (rounded_point m) points.now) }
{
    let mut made = DecimalPoints::with_capacity(alloc, points.len())?;
    for p in points {
        made.push(rounded_point(m, p))?;
    }
    Ok(made)
}

/// The point list with its coordinates rounded to `m` decimals.
fn rounded_nodes(alloc: Global, m: u32, nodes: NodeText) -> Result<NodeText, NoMemory>
    ensures { IfOk result (λ made. made ≡ rounded_nodes m nodes) }
{
    let mut made = nodes;
    made.decimals = each_rounded(alloc, m, made.decimals.as_slice())?;
    Ok(made)
}

/// Binds points and a complex to their grid, as `bind_nodes` does, with more decimals than words
/// may ask for: coordinates are rounded first, and stay as they are then.
pub(crate) fn bind_rounded(
    alloc: Global,
    limits: Limits,
    options: &Options,
    m: u32,
    nodes: NodeText,
    complex: &PlcText,
) -> Result<Bound, Status>
    requires limits { AreIndexable limits }
    requires input { IsSound (record { nodes = nodes; complex = complex.now }) }
    requires ranges { AreInTriedRange options.now }
    requires decimals { options.now.decimals ≡ Some m }
    requires over { 20 < m }
    ensures answer { BoundAnswer limits options.now
        (record { nodes = nodes; complex = complex.now }) result }
    ensures meshable { IfOk result (IsMeshableBound options.now) }
{
    let options = without_decimals(alloc, options)?;
    let rounded = rounded_nodes(alloc, m, nodes)?;
    bind_nodes(alloc, limits, &options, rounded, complex)
}

//! The weights of a point list.

ghost use Rattle.std.specs.Prelude.{◌≡◌, ◌≤◌, ◌<◌, length, All, IfOk};
ghost use Rattle.node_files.specs.Writing.{IsNodeTable};
ghost use Rattle.sign_predicates.specs.Weighted.{IsWeight};
ghost use Rattle.weighted_mesh.specs.Weights.{weight_in, weight_of, ReadsWeights};

use crate::Weights;
use crate::units::to_weight;
use crate::weight_fault::WeightFault;
use grid_coords::Grid;
use node_files::NodeTable;
use std::alloc::Global;
use tet_text::{TextFault, TextKind, decimal_in};

/// The weight that the text writes; `line` is its line, for a fault.
fn weight_in(grid: &Grid, line: usize, text: &[u8]) -> Result<i64, WeightFault>
    requires { grid.now.halvings ≤ 18 }
    ensures value { result ≡ weight_in grid.now line text.now }
    ensures small { IfOk result IsWeight }
{
    let Some(d) = decimal_in(text) else {
        return Err(WeightFault::Text(TextFault {
            line,
            kind: TextKind::NotANumber,
        }));
    };
    match to_weight(grid, &d) {
        Some(weight) => Ok(weight),
        None => Err(WeightFault::TooHeavy { line }),
    }
}

/// The weight of the listed point at this place.
fn weight_of(table: &NodeTable, i: usize) -> Result<i64, WeightFault>
    requires table { IsNodeTable table.now }
    requires decimals { length table.now.decimals ≡ length table.now.listed }
    requires inside { i < length table.now.listed }
    ensures value { result ≡ weight_of table.now i }
    ensures small { IfOk result IsWeight }
{
    if table.attribute_count == 0 {
        return Ok(0);
    }
    let line = table.decimals.at(i).line;
    let attributes = table.attributes.as_slice();
    let first = &attributes[i * table.attribute_count as usize];
    weight_in(&table.grid, line, first.as_slice())
}

/// The weights of all listed points of a table, in squares of grid units: the first attribute of
/// each, and 0 where the points have no attributes. A weight is rounded to twice the grid's
/// decimals, halves away from zero. The refusal is that of the first such point: Text with
/// NotANumber where its first attribute is no decimal, TooHeavy where its weight is over 2^46 in
/// size. A point that is folded onto another one has its weight read too.
pub fn read_weights(alloc: Global, table: &NodeTable) -> Result<Weights, WeightFault>
    requires table { IsNodeTable table.now }
    requires decimals { length table.now.decimals ≡ length table.now.listed }
    ensures value { ReadsWeights table.now result }
    ensures each { IfOk result (λ weights. length weights ≡ length table.now.listed) }
    ensures small { IfOk result (All IsWeight) }
{
    let mut weights = Weights::with_capacity(alloc, table.listed.len())?;
    for i in 0..table.listed.len() {
        let weight = weight_of(table, i)?;
        weights.push(weight)?;
    }
    Ok(weights)
}

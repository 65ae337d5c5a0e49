//! Points on a grid.

ghost use Rattle.std.specs.Prelude.{◌≡◌, ◌≤◌, ◌<◌, map, All, IfOk, length};
ghost use Rattle.grid_coords.specs.Units.{IsPointOnGrid, grid_point};
ghost use Rattle.geo_laws.specs.Delaunay.{HasDistinctPoints};
ghost use Rattle.node_files.specs.Limits.{AreIndexable};
ghost use Rattle.node_files.specs.Node.{IsNodeText};
ghost use Rattle.node_files.specs.Settling.{rounded_points, Settles};
ghost use Rattle.node_files.specs.Writing.{IsNodeTable};

use crate::folding::{Folding, fold_points};
use crate::rounding::each_rounded;
use crate::{GridOptions, Limits, NodeFault, NodeTable, NodeText};
use geo_laws::Points;
use grid_coords::{DecimalPoint, DecimalPoints, Grid, choose_grid, to_grid};
use std::alloc::Global;
use tet_ports::NoMemory;

fn rounded_points(
    alloc: Global,
    decimals: Option<u32>,
    points: DecimalPoints,
) -> Result<DecimalPoints, NoMemory>
    ensures { IfOk result (λ list. list ≡ rounded_points decimals points) }
{
    match decimals {
        Some(decimals) => each_rounded(alloc, decimals, points.as_slice()),
        None => Ok(points),
    }
}

fn grid_points(alloc: Global, grid: &Grid, points: &[DecimalPoint]) -> Result<Points, NoMemory>
    requires { All (IsPointOnGrid grid.now) points.now }
    ensures { IfOk result (λ list. list ≡ map (grid_point grid.now) points.now) }
{
    let mut list = Points::with_capacity(alloc, points.len())?;
    for p in points {
        list.push(to_grid(grid, p))?;
    }
    Ok(list)
}

/// The points of a list on a grid, each rounded first where the options have decimals. TooMany
/// where there are more than the limits allow; then Range where a coordinate is too large for a
/// grid, with the line of the first such point. Points that are equal on the grid are folded.
pub fn settle(
    alloc: Global,
    limits: Limits,
    text: NodeText,
    options: &GridOptions,
) -> Result<NodeTable, NodeFault>
    requires { AreIndexable limits }
    ensures outcome { Settles limits text options.now result }
    ensures table { IsNodeText text → IfOk result IsNodeTable }
    ensures few { IfOk result (λ table. length table.listed ≤ limits.points) }
    ensures distinct { IfOk result (λ table. HasDistinctPoints table.points) }
{
    let count = text.decimals.len();
    if count > limits.points {
        return Err(NodeFault::TooMany {
            count: count as u64,
            most: limits.points,
        });
    }
    let decimals = rounded_points(alloc, options.decimals, text.decimals)?;
    let grid = choose_grid(&decimals, options.halvings, limits.grid)?;
    let listed = grid_points(alloc, &grid, decimals.as_slice())?;
    let Folding {
        points,
        names,
        folded,
    } = fold_points(alloc, &listed)?;
    Ok(NodeTable {
        first: text.first,
        attribute_count: text.attribute_count,
        flag: text.flag,
        decimals,
        attributes: text.attributes,
        markers: text.markers,
        grid,
        listed,
        points,
        names,
        folded,
    })
}

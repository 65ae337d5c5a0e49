//! The points of a mesh on their least grid.

ghost use Rattle.std.specs.Prelude.{◌≡◌, ◌≤◌, ◌<◌, ◌-◌, ◌^◌, map, All, IfOk, length};
ghost use Rattle.grid_coords.specs.Units.{limit};
ghost use Rattle.node_files.specs.LeastGrid.{point_on, IsPointInUnits};
ghost use Rattle.node_files.specs.SettlingLeast.{SettlesLeast};

use crate::GridFault;
use crate::least::{least_grid, to_least_grid};
use crate::rounding::each_rounded;
use geo_laws::Points;
use grid_coords::{DecimalPoint, DecimalPoints, Grid};
use std::alloc::Global;
use tet_ports::NoMemory;

/// The points in units of a grid on which all have whole coordinates, at most 2^29 in size.
pub fn grid_points(alloc: Global, grid: &Grid, points: &[DecimalPoint]) -> Result<Points, NoMemory>
    requires { All (IsPointInUnits grid.now) points.now }
    ensures { IfOk result (λ list. list ≡ map (point_on grid.now) points.now) }
{
    let mut list = Points::with_capacity(alloc, points.len())?;
    for p in points {
        list.push(to_least_grid(grid, p))?;
    }
    Ok(list)
}

/// The points on their least grid.
fn on_least_grid(alloc: Global, points: &DecimalPoints, wide: u64) -> Result<Points, GridFault>
    requires { wide ≤ limit }
    ensures outcome { SettlesLeast wide points.now None (length points.now) result }
    ensures count { IfOk result (λ list. length list ≡ length points.now) }
{
    let grid = least_grid(points, wide)?;
    let list = grid_points(alloc, &grid, points.as_slice())?;
    Ok(list)
}

/// The points of a mesh on their least grid, each rounded first where `decimals` are given. TooMany
/// exactly where there are more than `most_points`; then Range exactly where a coordinate is over
/// `wide` units in size on that grid, with the line of the first such point.
pub fn settle_least(
    alloc: Global,
    points: &DecimalPoints,
    decimals: Option<u32>,
    most_points: u64,
    wide: u64,
) -> Result<Points, GridFault>
    requires points { most_points < 2 ^ 32 - 1 }
    requires wide { wide ≤ limit }
    ensures outcome { SettlesLeast wide points.now decimals most_points result }
    ensures count { IfOk result (λ list. length list ≡ length points.now) }
    ensures few { IfOk result (λ list. length list ≤ most_points) }
{
    let count = points.len() as u64;
    if count > most_points {
        return Err(GridFault::TooMany { count });
    }
    match decimals {
        Some(decimals) => {
            let rounded = each_rounded(alloc, decimals, points.as_slice())?;
            on_least_grid(alloc, &rounded, wide)
        }
        None => on_least_grid(alloc, points, wide),
    }
}

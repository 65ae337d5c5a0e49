//! Decimal points on a grid.

ghost use Rattle.std.specs.Prelude.{◌≡◌, ◌≤◌, ◌<◌, pos, unsigned_abs};
ghost use Rattle.tet_text.specs.Decimals.{signed};
ghost use Rattle.grid_coords.specs.Units.{limit, capped, units, IsDecimalOnGrid, IsPointOnGrid, grid_coordinate, grid_point, rational_coordinate, rational_point};

use crate::rounding::round_to;
use crate::units::{LIMIT, units_within};
use crate::{DecimalPoint, Grid};
use sign_predicates::{GridPoint, RatPoint};
use tet_text::Decimal;

/// How many parts of a grid unit a rational coordinate counts.
const PARTS: u64 = 1_000_000;

fn to_coordinate(grid: &Grid, d: &Decimal) -> i32
    requires { IsDecimalOnGrid grid.now d.now }
    ensures value { result ≡ grid_coordinate grid.now d.now }
    ensures size { unsigned_abs result ≤ limit }
{
    let decimals = u64::from(grid.decimals);
    let size = units_within(d, decimals, grid.halvings, LIMIT).unwrap_or(0) as i32;
    if d.value < 0 { -size } else { size }
}

/// The point in grid units, where its coordinates are whole numbers of them, at most 2^29 in size.
pub fn to_grid(grid: &Grid, p: &DecimalPoint) -> GridPoint
    requires { IsPointOnGrid grid.now p.now }
    ensures { result ≡ grid_point grid.now p.now }
{
    GridPoint {
        x: to_coordinate(grid, &p.x),
        y: to_coordinate(grid, &p.y),
        z: to_coordinate(grid, &p.z),
    }
}

/// The size of the number in parts of a unit, at most 2^29 + 1 units.
fn parts_of(d: &Decimal, decimals: u64, halvings: u32) -> i64
    ensures value { result ≡ pos (capped (units decimals halvings d.now)) }
    ensures size { unsigned_abs result ≤ 536870913000000 }
{
    units_within(d, decimals, halvings, LIMIT * PARTS).unwrap_or((LIMIT + 1) * PARTS) as i64
}

fn to_parts(grid: &Grid, d: &Decimal) -> i64
    ensures value { result ≡ rational_coordinate grid.now d.now }
    ensures size { unsigned_abs result ≤ 536870913000000 }
{
    let rounded = round_to(d, grid.decimals.saturating_add(6).min(d.scale));
    let size = parts_of(&rounded, u64::from(grid.decimals) + 6, grid.halvings);
    if rounded.value < 0 { -size } else { size }
}

/// The point over the denominator 10^6 of grid units. Each coordinate is first rounded to six
/// decimals more than the grid has, halves away from zero; a coordinate that is then over 2^29 grid
/// units in size becomes 2^29 + 1 with its sign.
pub fn to_rat(grid: &Grid, p: &DecimalPoint) -> RatPoint
    ensures { result ≡ rational_point grid.now p.now }
{
    RatPoint {
        x: to_parts(grid, &p.x),
        y: to_parts(grid, &p.y),
        z: to_parts(grid, &p.z),
        w: 1_000_000,
    }
}

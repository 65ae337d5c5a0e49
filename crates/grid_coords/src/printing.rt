//! Grid coordinates as text.

ghost use Rattle.std.specs.Prelude.{◌≡◌, ◌≤◌, ◌<◌, ◌+◌, ◌*◌, ◌^◌, ◌++◌, OnOk, OnErr};
ghost use Rattle.tet_text.specs.Decimals.{lowest};
ghost use Rattle.std.specs.Prelude.{unsigned_abs, ℤ, pos, ◌*ℤ◌};
ghost use Rattle.grid_coords.specs.Origins.{decimal_from, parts_from, text_from};
ghost use Rattle.grid_coords.specs.Units.{decimal_of_units, grid_text, IsNumberAt};

use crate::Grid;
use crate::moving::tens_of;
use tet_ports::{Bytes, NoMemory};
use tet_text::{lowest, print_scaled};

fn with_fives(size: u32, halvings: u32) -> u128
    requires { halvings ≤ 18 }
    ensures value { result ≡ size * 5 ^ halvings }
    ensures small { result ≤ 2 ^ 32 * 5 ^ 18 }
{
    u128::from(size) * 5u128.pow(halvings)
}

/// Appends a grid coordinate as an exact decimal, with no trailing zero in the fraction.
pub fn print_grid(grid: &Grid, coordinate: i32, out: &mut Bytes) -> Result<(), NoMemory>
    requires { grid.now.halvings ≤ 18 }
    ensures ok { OnOk result (out.new ≡ out.old ++ grid_text grid.now coordinate) }
    ensures err { OnErr result (out.new ≡ out.old) }

    // The decimal is exactly `coordinate` grid units.
    ensures exact { IsNumberAt grid.now coordinate (decimal_of_units grid.now coordinate) }
{
    let size = with_fives(coordinate.unsigned_abs(), grid.halvings);
    let scale = u64::from(grid.decimals) + u64::from(grid.halvings);
    let (size, scale) = lowest(size, scale);
    print_scaled(coordinate < 0, size, scale, out)
}

/// The coordinate times 5^`halvings`.
fn fives_of(coordinate: i32, halvings: u32) -> i128
    requires { halvings ≤ 18 }
    ensures value { result ≡ coordinate *ℤ pos (5 ^ halvings) }
    ensures small { unsigned_abs result ≤ 2 ^ 32 * 5 ^ 18 }
{
    let fives = 5u128.pow(halvings) as i128;
    i128::from(coordinate) * fives
}

/// The coordinate and a whole number in units of 1 / 10^(`decimals` + `halvings`).
fn parts_from(w: i64, grid: &Grid, coordinate: i32) -> i128
    requires halvings { grid.now.halvings ≤ 18 }
    requires fine { grid.now.decimals ≤ 17 }
    requires near { unsigned_abs w * 10 ^ grid.now.decimals ≤ 10 ^ 17 }
    ensures value { result ≡ parts_from w grid.now coordinate }
    ensures small { unsigned_abs result < 10 ^ 36 }
{
    fives_of(coordinate, grid.halvings) + tens_of(w, grid.decimals + grid.halvings)
}

/// Appends the sum of a grid coordinate and a whole number as an exact decimal, with no trailing
/// zero in the fraction.
pub fn print_from(w: i64, grid: &Grid, coordinate: i32, out: &mut Bytes) -> Result<(), NoMemory>
    requires halvings { grid.now.halvings ≤ 18 }
    requires fine { grid.now.decimals ≤ 17 }
    requires near { unsigned_abs w * 10 ^ grid.now.decimals ≤ 10 ^ 17 }
    ensures ok { OnOk result (out.new ≡ out.old ++ text_from w grid.now coordinate) }
    ensures err { OnErr result (out.new ≡ out.old) }
{
    let parts = parts_from(w, grid, coordinate);
    let scale = u64::from(grid.decimals) + u64::from(grid.halvings);
    let (size, scale) = lowest(parts.unsigned_abs(), scale);
    print_scaled(parts < 0, size, scale, out)
}

//! Points whose coordinates are rounded.

ghost use Rattle.std.specs.Prelude.{◌≡◌, map, IfOk};
ghost use Rattle.grid_coords.specs.Origins.{CanMeasure};
ghost use Rattle.node_files.specs.Settling.{measured_from, rounded_point};

use grid_coords::{DecimalPoint, DecimalPoints, WholePoint, moved_rounded, round_to};
use std::alloc::Global;
use tet_ports::NoMemory;

/// The point with each coordinate rounded to `decimals` decimals.
pub fn rounded_point(decimals: u32, p: &DecimalPoint) -> DecimalPoint
    ensures { result ≡ rounded_point decimals p.now }
{
    DecimalPoint {
        x: round_to(&p.x, decimals),
        y: round_to(&p.y, decimals),
        z: round_to(&p.z, decimals),
        line: p.line,
    }
}

/// The points, each with its coordinates rounded to `decimals` decimals.
pub(crate) fn each_rounded(
    alloc: Global,
    decimals: u32,
    points: &[DecimalPoint],
) -> Result<DecimalPoints, NoMemory>
    ensures { IfOk result (λ list. list ≡ map (rounded_point decimals) points.now) }
{
    let mut list = DecimalPoints::with_capacity(alloc, points.len())?;
    for p in points {
        list.push(rounded_point(decimals, p))?;
    }
    Ok(list)
}

/// The point with each coordinate rounded to `decimals` decimals, less that of the origin.
pub fn measured_from(w: WholePoint, decimals: u32, p: &DecimalPoint) -> DecimalPoint
    requires { CanMeasure decimals w }
    ensures { result ≡ measured_from w decimals p.now }
{
    DecimalPoint {
        x: moved_rounded(w.x, decimals, &p.x),
        y: moved_rounded(w.y, decimals, &p.y),
        z: moved_rounded(w.z, decimals, &p.z),
        line: p.line,
    }
}

/// The points, each with its coordinates rounded to `decimals` decimals, less those of the origin.
pub fn each_measured_from(
    alloc: Global,
    w: WholePoint,
    decimals: u32,
    points: &[DecimalPoint],
) -> Result<DecimalPoints, NoMemory>
    requires { CanMeasure decimals w }
    ensures { IfOk result (λ list. list ≡ map (measured_from w decimals) points.now) }
{
    let mut list = DecimalPoints::with_capacity(alloc, points.len())?;
    for p in points {
        list.push(measured_from(w, decimals, p))?;
    }
    Ok(list)
}

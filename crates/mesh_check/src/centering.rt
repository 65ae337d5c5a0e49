//! The points of a mesh measured from the middle of their box, on their least grid.

ghost use Rattle.std.specs.Prelude.{◌≡◌, ◌∷◌, [], IfOk, length};
ghost use Rattle.grid_coords.specs.Units.{limit};
ghost use Rattle.mesh_check.specs.Steps.{AndThen};
ghost use Rattle.mesh_check.specs.Centering.{CenteredAnswer, MovedAnswer, PlacedAnswer};

use crate::checking::MOST_POINTS;
use crate::fault::CheckFault;
use crate::moving::moved_point_within;
use geo_laws::Points;
use grid_coords::{DecimalPoint, DecimalPoints, WholePoint, origin_of};
use node_files::{GridFault, settle_least};
use std::alloc::Global;

/// The greatest size of a coordinate, in units of the points' least grid: 2^29.
const FAR_GRID: u64 = 536_870_912;

/// The points less an origin, exactly. `OffGrid` with the line of the first point that has a
/// coordinate of over 36 digits then; or out of memory.
pub fn moved_points(
    alloc: Global,
    w: WholePoint,
    points: &[DecimalPoint],
) -> Result<DecimalPoints, CheckFault>
    ensures answer { MovedAnswer w points.now result }
    ensures count { IfOk result (λ list. length list ≡ length points.now) }
{
    let mut list = DecimalPoints::with_capacity(alloc, points.len())?;
    for p in points {
        match moved_point_within(w, p) {
            Some(moved) => list.push(moved)?,
            None => return Err(CheckFault::OffGrid { line: p.line }),
        }
    }
    Ok(list)
}

/// The points on their least grid, where no coordinate is over 2^29 units in size.
fn placed(alloc: Global, points: &DecimalPoints) -> Result<Points, CheckFault>
    ensures answer { PlacedAnswer points.now result }
    ensures count { IfOk result (λ list. length list ≡ length points.now) }
{
    match settle_least(alloc, points, None, MOST_POINTS, FAR_GRID) {
        Ok(list) => Ok(list),
        Err(GridFault::TooMany { count }) => Err(CheckFault::TooMany { count }),
        Err(GridFault::Range { line }) => Err(CheckFault::OffGrid { line }),
        Err(GridFault::NoMemory) => Err(CheckFault::NoMemory),
    }
}

/// The points measured from the middle of their box, exactly, on their least grid. It refuses with
/// the first in this order: a coordinate that has over 36 digits less that of the middle, with
/// `OffGrid`; over 120,000 points; a coordinate over 2^29 units of the least grid, with `OffGrid`;
/// or when out of memory.
pub fn centered_points(alloc: Global, points: &DecimalPoints) -> Result<Points, CheckFault>
    ensures answer { AndThen (CenteredAnswer points.now) PlacedAnswer result }
    ensures count { IfOk result (λ list. length list ≡ length points.now) }
{
    match origin_of(points.as_slice()) {
        Some(w) => {
            let moved = moved_points(alloc, w, points.as_slice())?;
            placed(alloc, &moved)
        }
        None => placed(alloc, points),
    }
}

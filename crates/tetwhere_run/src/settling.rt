//! The points of a mesh on their least grid, and the test that its tetrahedra are positively
//! oriented.

ghost use Rattle.std.specs.Prelude.{◌≡◌, ◌≤◌, length, All, IfOk};
ghost use Rattle.mesh_files.specs.ReadRows.{AreCornersBelow};
ghost use Rattle.tetwhere_run.specs.Locating.{SettledAnswer, PositiveAnswer};

use crate::halvings::few_halvings;
use crate::reading::WhereText;
use geo_laws::Points;
use grid_coords::{DecimalPoints, Grid, Range};
use mesh_check::{CheckFault, Defect, MOST_POINTS, first_not_positive};
use node_files::{grid_points, least_grid};
use std::alloc::Global;

/// The greatest size of a coordinate of a mesh, in units of the points' least grid: that of
/// `tetfit`.
pub(crate) const GRID: u64 = 536_870_912;

/// The least grid of a mesh's points, and these points on it.
#[derive(Drop)]
pub struct Settled {
    pub grid: Grid,
    pub points: Points,
}

/// The points on their least grid.
#[tactic(auto, using(crate::proofs::Factors::least_halvings))]
pub(crate) fn settle(alloc: Global, decimals: &DecimalPoints) -> Result<Settled, CheckFault>
    ensures answer { SettledAnswer decimals.now result }
    ensures count { IfOk result (λ settled. length settled.points ≡ length decimals.now) }
    ensures halvings { IfOk result (λ settled. settled.grid.halvings ≤ 64) }
{
    let count = decimals.len() as u64;
    if count > MOST_POINTS {
        return Err(CheckFault::TooMany { count });
    }
    match least_grid(decimals, GRID) {
        Ok(grid) => {
            few_halvings(decimals.as_slice());
            let points = grid_points(alloc, &grid, decimals.as_slice())?;
            Ok(Settled { grid, points })
        }
        Err(Range { line }) => Err(CheckFault::OffGrid { line }),
    }
}

/// Refuses with the first tetrahedron that is not positively oriented.
pub(crate) fn want_positive(text: &WhereText, settled: &Settled) -> Result<(), CheckFault>
    requires count { length settled.now.points ≡ length text.now.nodes.decimals }
    requires there { All (AreCornersBelow (length text.now.nodes.decimals)) text.now.rows }
    ensures { PositiveAnswer text.now settled.now result }
{
    match first_not_positive(&settled.points, &text.rows) {
        Some(row) => Err(CheckFault::Unsound {
            defect: Defect::NotPositive { row },
            first: text.nodes.first,
        }),
        None => Ok(()),
    }
}

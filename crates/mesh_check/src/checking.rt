//! The check of the files of a mesh.

ghost use Rattle.std.specs.Prelude.{◌≡◌, ◌≤◌, length, All, IfOk};
ghost use Rattle.mesh_files.specs.ReadRows.{AreCornersBelow};
ghost use Rattle.mesh_check.specs.Checking.{LeastGridAnswer, VerdictAnswer, TextChecked, CheckAnswer};
ghost use Rattle.tet_ports.specs.Seen.{IsOnlyRead, folder_seen};

use crate::reading::{MeshText, read_mesh};
use crate::{CheckFault, Verdict, check_mesh};
use geo_laws::Points;
use node_files::{GridFault, settle_least};
use std::alloc::Global;
use tet_ports::{Folder, Name};

/// The most points of a mesh that is read.
pub const MOST_POINTS: u64 = 120_000;

/// The greatest size of a coordinate of a mesh that is checked, in units of the points' least grid.
const CHECKED_GRID: u64 = 8_388_608;

/// The points on their least grid, each coordinate rounded first where `decimals` are given.
fn settle(alloc: Global, decimals: Option<u32>, text: &MeshText) -> Result<Points, CheckFault>
    ensures answer { LeastGridAnswer decimals text.now result }
    ensures count { IfOk result (λ points. length points ≡ length text.now.nodes.decimals) }
{
    match settle_least(
        alloc,
        &text.nodes.decimals,
        decimals,
        MOST_POINTS,
        CHECKED_GRID,
    ) {
        Ok(points) => Ok(points),
        Err(GridFault::TooMany { count }) => Err(CheckFault::TooMany { count }),
        Err(GridFault::Range { line }) => Err(CheckFault::OffGrid { line }),
        Err(GridFault::NoMemory) => Err(CheckFault::NoMemory),
    }
}

/// The number of tetrahedra of the mesh, where it is sound.
fn judge(alloc: Global, text: &MeshText, points: &Points) -> Result<usize, CheckFault>
    requires count { length points.now ≡ length text.now.nodes.decimals }
    requires there { All (AreCornersBelow (length text.now.nodes.decimals)) text.now.rows }
    ensures { VerdictAnswer text.now points.now result }
{
    match check_mesh(
        alloc,
        points,
        &text.rows,
        &text.faces,
        text.neighbors.as_ref(),
    )? {
        Verdict::Sound => Ok(text.rows.len()),
        Verdict::Fault(defect) => Err(CheckFault::Unsound {
            defect,
            first: text.nodes.first,
        }),
    }
}

fn check_text(alloc: Global, decimals: Option<u32>, text: &MeshText) -> Result<usize, CheckFault>
    requires { All (AreCornersBelow (length text.now.nodes.decimals)) text.now.rows }
    ensures { TextChecked decimals text.now result }
{
    let points = settle(alloc, decimals, text)?;
    judge(alloc, text, &points)
}

/// The number of tetrahedra of the mesh in the files with this base, where it is sound. It refuses
/// with the first in this order: of each file in turn its fetch, with `Missing`, `ReadFault` or
/// `TooLong`, and its text; over 120,000 points; a coordinate off the grid; the first defect; or
/// when out of memory. It stores nothing.
pub fn check_files<F: Folder>(
    alloc: Global,
    base: &Name,
    decimals: Option<u32>,
    folder: &mut F,
) -> Result<usize, CheckFault>
    ensures answer { CheckAnswer (folder_seen F.state folder.old folder.new)
        base.now decimals result }
    ensures only_read { IsOnlyRead (folder_seen F.state folder.old folder.new) }
{
    let text = read_mesh(alloc, base, folder)?;
    check_text(alloc, decimals, &text)
}

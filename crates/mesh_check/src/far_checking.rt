//! The check of the files of a mesh that stands far from zero.

ghost use Rattle.std.specs.Prelude.{◌≡◌, length, All};
ghost use Rattle.mesh_files.specs.ReadRows.{AreCornersBelow};
ghost use Rattle.mesh_check.specs.Checking.{VerdictAnswer};
ghost use Rattle.mesh_check.specs.FarChecking.{FarTextAnswer, FarCheckAnswer};
ghost use Rattle.tet_ports.specs.Seen.{IsOnlyRead, folder_seen};

use crate::centering::centered_points;
use crate::check::check_mesh;
use crate::defect::Verdict;
use crate::fault::CheckFault;
use crate::reading::{MeshText, read_mesh};
use geo_laws::Points;
use std::alloc::Global;
use tet_ports::{Folder, Name};

/// The number of tetrahedra of the mesh, where it is sound.
fn judge(alloc: Global, text: &MeshText, points: &Points) -> Result<usize, CheckFault>
    requires count { length points.now ≡ length text.now.nodes.decimals }
    requires there { All (AreCornersBelow (length text.now.nodes.decimals)) text.now.rows }
    ensures { VerdictAnswer text.now points.now result }
{
    let neighbors = text.neighbors.as_ref();
    match check_mesh(alloc, points, &text.rows, &text.faces, neighbors)? {
        Verdict::Sound => Ok(text.rows.len()),
        Verdict::Fault(defect) => Err(CheckFault::Unsound {
            defect,
            first: text.nodes.first,
        }),
    }
}

fn check_text(alloc: Global, text: &MeshText) -> Result<usize, CheckFault>
    requires { All (AreCornersBelow (length text.now.nodes.decimals)) text.now.rows }
    ensures { FarTextAnswer text.now result }
{
    let points = centered_points(alloc, &text.nodes.decimals)?;
    judge(alloc, text, &points)
}

/// The number of tetrahedra of the mesh in the files with this base, where it is sound, as
/// `check_files` of `mesh_check` answers it, with the points measured from the middle of their box.
/// It refuses with the first in this order: of each file in turn its fetch, with `Missing`,
/// `ReadFault` or `TooLong`, and its text; a coordinate that has over 36 digits less that of the
/// middle, with `OffGrid`; over 120,000 points; a coordinate over 2^29 units of the points' least
/// grid, with `OffGrid`; the first defect; or when out of memory. It stores nothing.
pub fn check_far_files<F: Folder>(
    alloc: Global,
    base: &Name,
    folder: &mut F,
) -> Result<usize, CheckFault>
    ensures answer { FarCheckAnswer (folder_seen F.state folder.old folder.new) base.now result }
    ensures only_read { IsOnlyRead (folder_seen F.state folder.old folder.new) }
{
    let text = read_mesh(alloc, base, folder)?;
    check_text(alloc, &text)
}

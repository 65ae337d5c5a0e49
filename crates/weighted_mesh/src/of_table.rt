//! The regular mesh of the weighted points of a list.

ghost use Rattle.std.specs.Prelude.{◌≡◌, ◌<◌, ◌-◌, ◌^◌, length, All, IfOk};
ghost use Rattle.geo_laws.specs.Delaunay.{IsOn, delaunay_rows};
ghost use Rattle.geo_laws.specs.Laws.{IsTriangulation};
ghost use Rattle.node_files.specs.Writing.{IsNodeTable};
ghost use Rattle.weighted_mesh.specs.Meshing.{RegularAnswer};

use crate::hidden::hidden_count;
use crate::kept::kept_weights;
use crate::reading::read_weights;
use crate::{RegularFault, regular};
use geo_laws::TetList;
use node_files::NodeTable;
use std::alloc::Global;

/// The regular list of weighted points, and the number of points that it hides.
#[derive(Debug, Drop)]
pub struct RegularMesh {
    pub rows: TetList,
    pub hidden: usize,
}

/// The regular list of the kept points of a table. The weight of a point is its first attribute, or
/// 0 where the points have none; that of a folded point is read and not used. It refuses with the
/// first in this order: a weight that is no decimal, or is over 2^46 squares of grid units in size,
/// at the first such point; all points in one plane; or when out of memory.
pub fn regular_mesh(alloc: Global, table: &NodeTable) -> Result<RegularMesh, RegularFault>
    requires table { IsNodeTable table.now }
    requires decimals { length table.now.decimals ≡ length table.now.listed }
    requires few { length table.now.listed < 2 ^ 32 - 1 }
    ensures answer { RegularAnswer table.now result }
    ensures numbers { IfOk result (λ made. All (IsOn table.now.points) made.rows) }
    ensures triangulation { IfOk result (λ made. IsTriangulation table.now.points made.rows) }

    // Without weights it is the Delaunay list.
    ensures bare { table.now.attribute_count ≡ 0
        → IfOk result (λ made. made.rows ≡ delaunay_rows table.now.points) }
{
    let listed = read_weights(alloc, table)?;
    let weights = kept_weights(alloc, &table.names, &listed)?;
    let rows = regular(alloc, &table.points, &weights)?;
    let hidden = hidden_count(alloc, table.points.len(), &rows)?;
    Ok(RegularMesh { rows, hidden })
}

//! The files of a mesh, and a list of queries.

ghost use Rattle.std.specs.Prelude.{◌≡◌, ◌≤◌, ◌<◌, ◌-◌, ◌^◌, length, All, IfOk};
ghost use Rattle.mesh_files.specs.ReadRows.{AreCornersBelow};
ghost use Rattle.tet_ports.specs.Seen.{IsOnlyRead, folder_seen};
ghost use Rattle.tetwhere_run.specs.Reading.{WhereTextAnswer};

use geo_laws::TetList;
use mesh_check::{CheckFault, read_list, read_nodes, read_rows};
use node_files::NodeText;
use std::alloc::Global;
use tet_ports::{Folder, Name};

/// The contents of the files: the points of the mesh in decimal, its tetrahedra by the places of
/// their corners, and the queries.
#[derive(Drop)]
pub struct WhereText {
    pub nodes: NodeText,
    pub rows: TetList,
    pub queries: NodeText,
}

/// The files `.node` and `.ele` of the mesh with this base, and the file with the name `queries`,
/// in this order, each text read before the next fetch. It refuses with the first file that is at
/// fault, or when out of memory, and stores nothing.
pub(crate) fn read_where<F: Folder>(
    alloc: Global,
    base: &Name,
    queries: &Name,
    folder: &mut F,
) -> Result<WhereText, CheckFault>
    ensures answer { WhereTextAnswer (folder_seen F.state folder.old folder.new)
        base.now queries.now result }
    ensures there { IfOk result (λ text. All (AreCornersBelow
        (length text.nodes.decimals)) text.rows) }
    ensures few { IfOk result (λ text. length text.queries.decimals < 2 ^ 32 - 1) }
    ensures only_read { IsOnlyRead (folder_seen F.state folder.old folder.new) }
{
    let nodes = read_nodes(alloc, base, folder)?;
    let rows = read_rows(alloc, base, &nodes, folder)?;
    let list = read_list(alloc, queries, folder)?;
    Ok(WhereText {
        nodes,
        rows,
        queries: list,
    })
}

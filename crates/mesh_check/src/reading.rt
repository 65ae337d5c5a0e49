//! The files of a mesh.

ghost use Rattle.std.specs.Prelude.{◌≡◌, ◌≤◌, ◌++◌, codes, length, All, IfOk, IfErr};
ghost use Rattle.mesh_files.specs.ReadRows.{AreCornersBelow};
ghost use Rattle.node_files.specs.Node.{IsNodeText};
ghost use Rattle.tet_ports.specs.Seen.{IsOnlyRead, folder_seen};
ghost use Rattle.mesh_check.specs.Reading.{most_bytes, nodes_in_text, rows_of, faces_in_text, neighbors_in_text, IsRead, IsUnfetched, TextAnswer, FileAnswer, NeighborsAnswer, MeshAnswer};

use crate::CheckFault;
use geo_laws::TetList;
use mesh_files::{FaceRows, MeshFault, Neighbors, read_ele, read_face, read_neigh};
use node_files::{NodeFault, NodeText, read_node};
use std::alloc::Global;
use tet_ports::{Bytes, FetchFault, Folder, Name, NoMemory};

/// The most bytes of a file.
pub const MOST_BYTES: usize = 67_108_864;

/// The contents of the files of a mesh: its points in decimal, its tetrahedra by the places of
/// their corners, its listed faces, and its listed neighbors, where there is a file of them.
#[derive(Drop)]
pub struct MeshText {
    pub nodes: NodeText,
    pub rows: TetList,
    pub faces: FaceRows,
    pub neighbors: Option<Neighbors>,
}

/// A file that was fetched.
#[derive(Drop)]
struct Fetched {
    name: Name,
    bytes: Bytes,
}

/// The base with an extension.
fn named(alloc: Global, base: &Name, extension: &[u8]) -> Result<Name, NoMemory>
    ensures { IfOk result (λ name. name ≡ base.now ++ extension.now) }
{
    let mut name = Name::from_slice(alloc, base.as_slice())?;
    name.append(extension)?;
    Ok(name)
}

/// The bytes of a file.
fn fetch<F: Folder>(alloc: Global, name: Name, folder: &mut F) -> Result<Fetched, CheckFault>
    ensures named { IfOk result (λ file. file.name ≡ name) }
    ensures read { IfOk result (λ file. IsRead (F.state folder.old).files name file.bytes) }
    ensures err { IfErr result (IsUnfetched (folder_seen F.state folder.old folder.new) name) }
    ensures only_read { IsOnlyRead (folder_seen F.state folder.old folder.new) }
{
    match folder.fetch(alloc, &name, MOST_BYTES) {
        Ok(bytes) => Ok(Fetched { name, bytes }),
        Err(FetchFault::Missing) => Err(CheckFault::Missing { name }),
        Err(FetchFault::Failed) => Err(CheckFault::ReadFault { name }),
        Err(FetchFault::TooLarge { taken: _ }) => Err(CheckFault::TooLong { name }),
        Err(FetchFault::NoMemory) => Err(CheckFault::NoMemory),
    }
}

fn nodes_in(alloc: Global, file: Fetched) -> Result<NodeText, CheckFault>
    requires { length file.bytes ≤ most_bytes }
    ensures answer { TextAnswer file.name (nodes_in_text file.bytes) result }
    ensures table { IfOk result IsNodeText }
{
    let Fetched { name, bytes } = file;
    match read_node(alloc, &bytes) {
        Ok(nodes) => Ok(nodes),
        Err(NodeFault::Text(fault)) => Err(CheckFault::BadText { name, fault }),
        Err(NodeFault::NoMemory) => Err(CheckFault::NoMemory),
        Err(_) => unreachable!(),
    }
}

fn rows_in(alloc: Global, nodes: &NodeText, file: Fetched) -> Result<TetList, CheckFault>
    requires nodes { IsNodeText nodes.now }
    requires short { length file.bytes ≤ most_bytes }
    ensures answer { TextAnswer file.name (rows_of nodes.now file.bytes) result }
    ensures there { IfOk result (All (AreCornersBelow (length nodes.now.decimals))) }
{
    let Fetched { name, bytes } = file;
    let points = nodes.decimals.len() as u64;
    match read_ele(alloc, &bytes, nodes.first, points) {
        Ok(rows) => Ok(rows),
        Err(MeshFault::Text(fault)) => Err(CheckFault::BadText { name, fault }),
        Err(MeshFault::NoMemory) => Err(CheckFault::NoMemory),
    }
}

fn faces_in(alloc: Global, nodes: &NodeText, file: Fetched) -> Result<FaceRows, CheckFault>
    requires nodes { IsNodeText nodes.now }
    requires short { length file.bytes ≤ most_bytes }
    ensures { TextAnswer file.name (faces_in_text nodes.now file.bytes) result }
{
    let Fetched { name, bytes } = file;
    let points = nodes.decimals.len() as u64;
    match read_face(alloc, &bytes, nodes.first, points) {
        Ok(faces) => Ok(faces),
        Err(MeshFault::Text(fault)) => Err(CheckFault::BadText { name, fault }),
        Err(MeshFault::NoMemory) => Err(CheckFault::NoMemory),
    }
}

fn neighbors_in(alloc: Global, nodes: &NodeText, file: Fetched) -> Result<Neighbors, CheckFault>
    requires { length file.bytes ≤ most_bytes }
    ensures { TextAnswer file.name (neighbors_in_text nodes.now file.bytes) result }
{
    let Fetched { name, bytes } = file;
    match read_neigh(alloc, &bytes, nodes.first) {
        Ok(neighbors) => Ok(neighbors),
        Err(MeshFault::Text(fault)) => Err(CheckFault::BadText { name, fault }),
        Err(MeshFault::NoMemory) => Err(CheckFault::NoMemory),
    }
}

/// The point list in the file with this name.
pub fn read_list<F: Folder>(
    alloc: Global,
    list: &Name,
    folder: &mut F,
) -> Result<NodeText, CheckFault>
    ensures answer { FileAnswer (folder_seen F.state folder.old folder.new)
        list.now nodes_in_text result }
    ensures table { IfOk result IsNodeText }
    ensures only_read { IsOnlyRead (folder_seen F.state folder.old folder.new) }
{
    let name = Name::from_slice(alloc, list.as_slice())?;
    let file = fetch(alloc, name, folder)?;
    nodes_in(alloc, file)
}

/// The points of the `.node` file with this base.
pub fn read_nodes<F: Folder>(
    alloc: Global,
    base: &Name,
    folder: &mut F,
) -> Result<NodeText, CheckFault>
    ensures answer { FileAnswer (folder_seen F.state folder.old folder.new)
        (base.now ++ codes ".node") nodes_in_text result }
    ensures table { IfOk result IsNodeText }
    ensures only_read { IsOnlyRead (folder_seen F.state folder.old folder.new) }
{
    let name = named(alloc, base, b".node")?;
    let file = fetch(alloc, name, folder)?;
    nodes_in(alloc, file)
}

/// The tetrahedra of the `.ele` file, whose corners are those points.
pub fn read_rows<F: Folder>(
    alloc: Global,
    base: &Name,
    nodes: &NodeText,
    folder: &mut F,
) -> Result<TetList, CheckFault>
    requires { IsNodeText nodes.now }
    ensures answer { FileAnswer (folder_seen F.state folder.old folder.new)
        (base.now ++ codes ".ele") (rows_of nodes.now) result }
    ensures there { IfOk result (All (AreCornersBelow (length nodes.now.decimals))) }
    ensures only_read { IsOnlyRead (folder_seen F.state folder.old folder.new) }
{
    let name = named(alloc, base, b".ele")?;
    let file = fetch(alloc, name, folder)?;
    rows_in(alloc, nodes, file)
}

/// The faces of the `.face` file.
fn read_faces<F: Folder>(
    alloc: Global,
    base: &Name,
    nodes: &NodeText,
    folder: &mut F,
) -> Result<FaceRows, CheckFault>
    requires { IsNodeText nodes.now }
    ensures answer { FileAnswer (folder_seen F.state folder.old folder.new)
        (base.now ++ codes ".face") (faces_in_text nodes.now) result }
    ensures only_read { IsOnlyRead (folder_seen F.state folder.old folder.new) }
{
    let name = named(alloc, base, b".face")?;
    let file = fetch(alloc, name, folder)?;
    faces_in(alloc, nodes, file)
}

/// The neighbors of the `.neigh` file, where there is one.
fn read_neighbors<F: Folder>(
    alloc: Global,
    base: &Name,
    nodes: &NodeText,
    folder: &mut F,
) -> Result<Option<Neighbors>, CheckFault>
    ensures answer { NeighborsAnswer (folder_seen F.state folder.old folder.new)
        base.now nodes.now result }
    ensures only_read { IsOnlyRead (folder_seen F.state folder.old folder.new) }
{
    let name = named(alloc, base, b".neigh")?;
    match fetch(alloc, name, folder) {
        Ok(file) => {
            let neighbors = neighbors_in(alloc, nodes, file)?;
            Ok(Some(neighbors))
        }
        Err(CheckFault::Missing { name: _ }) => Ok(None),
        Err(fault) => Err(fault),
    }
}

/// The files of a mesh with this base: `.node`, `.ele`, `.face` and `.neigh`, in this order, each
/// text read before the next fetch. The last may be missing. It refuses with the first file that is
/// at fault, or when out of memory, and stores nothing.
pub(crate) fn read_mesh<F: Folder>(
    alloc: Global,
    base: &Name,
    folder: &mut F,
) -> Result<MeshText, CheckFault>
    ensures answer { MeshAnswer (folder_seen F.state folder.old folder.new) base.now result }
    ensures there { IfOk result (λ text. All (AreCornersBelow
        (length text.nodes.decimals)) text.rows) }
    ensures only_read { IsOnlyRead (folder_seen F.state folder.old folder.new) }
{
    let nodes = read_nodes(alloc, base, folder)?;
    let rows = read_rows(alloc, base, &nodes, folder)?;
    let faces = read_faces(alloc, base, &nodes, folder)?;
    let neighbors = read_neighbors(alloc, base, &nodes, folder)?;
    Ok(MeshText {
        nodes,
        rows,
        faces,
        neighbors,
    })
}

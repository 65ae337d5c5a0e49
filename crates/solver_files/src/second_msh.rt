//! Files of Gmsh's format MSH of second order.
ghost use Rattle.std.specs.Prelude.{◌≡◌, ◌+◌, ◌++◌, flat_map, length, OnOk, IfOk};
ghost use Rattle.std.specs.List.{enumerate_from};
ghost use Rattle.solver_files.specs.Mesh.{mesh_of, points_of};
ghost use Rattle.solver_files.specs.Second.{second_of, IsSecond};
ghost use Rattle.solver_files.specs.SecondTexts.{middle_node, second_msh_nodes, second_msh_elements, second_msh_text};

use crate::SecondMesh;
use crate::line::{put_heading, put_number};
use crate::middle::put_middle_place;
use crate::msh::put_node_lines;
use crate::second_rows::{Format, put_face_rows, put_tet_rows};
use std::alloc::Global;
use tet_ports::{Bytes, NoMemory};

/// The text of a file of a mesh of second order in Gmsh's format MSH 2.2: as `write_msh` has it,
/// with the midpoints of the edges behind the points, and with tetrahedra of ten nodes, type 11,
/// and triangles of six, type 9. Behind the corners a, b, c, d are the midpoints of ab, bc, ca, ad,
/// cd and bd, and behind those of a face the ones of ab, bc and ca. The only refusal is out of
/// memory.
///
/// Format: Gmsh reference manual, "MSH file format version 2" and "Node ordering".
pub fn write_second_msh(alloc: Global, mesh: &SecondMesh<'_>) -> Result<Bytes, NoMemory>
    requires { IsSecond (second_of mesh.now) }
    ensures { IfOk result (λ text. text ≡ second_msh_text (second_of mesh.now)) }
{
    let mut out = Bytes::new(alloc);
    put_nodes(mesh, &mut out)?;
    put_elements(mesh, &mut out)?;
    Ok(out)
}

/// Appends the format, the points and the midpoints.
fn put_nodes(mesh: &SecondMesh<'_>, out: &mut Bytes) -> Result<(), NoMemory>
    requires { IsSecond (second_of mesh.now) }
    ensures { OnOk result (out.new ≡ out.old ++ second_msh_nodes (second_of mesh.now)) }
{
    let listed = &mesh.whole.table.listed;
    let head = b"$MeshFormat\n2.2 0 8\n$EndMeshFormat\n$Nodes\n";
    put_heading(head, mesh.count(), b"\n", out)?;
    put_node_lines(&mesh.whole, 1, listed, out)?;
    put_node_lines(&mesh.whole, 1 + listed.len() as u64, mesh.whole.added, out)?;
    put_middle_nodes(mesh, out)?;
    out.append(b"$EndNodes\n")
}

/// Appends the lines of the midpoints, numbered behind the points.
fn put_middle_nodes(mesh: &SecondMesh<'_>, out: &mut Bytes) -> Result<(), NoMemory>
    requires { IsSecond (second_of mesh.now) }
    ensures { OnOk result (out.new ≡ out.old
        ++ flat_map (λ r. middle_node (second_of mesh.now) r.0 r.1)
        (enumerate_from (length (points_of (mesh_of mesh.now.whole)) + 1) mesh.now.sides.now)) }
{
    let start = mesh.whole.point_count() as u64 + 1;
    for i in 0..mesh.sides.len() {
        put_number(start + i as u64, out)?;
        out.push(b' ')?;
        put_middle_place(mesh, mesh.sides.at(i), out)?;
        out.push(b'\n')?;
    }
    Ok(())
}

/// Appends the elements.
fn put_elements(mesh: &SecondMesh<'_>, out: &mut Bytes) -> Result<(), NoMemory>
    requires { IsSecond (second_of mesh.now) }
    ensures { OnOk result (out.new ≡ out.old ++ second_msh_elements (second_of mesh.now)) }
{
    put_heading(b"$Elements\n", mesh.whole.cell_count(), b"\n", out)?;
    put_tet_rows(Format::Gmsh, mesh, 1, out)?;
    put_face_rows(Format::Gmsh, mesh, 1, out)?;
    out.append(b"$EndElements\n")
}

//! Files of Gmsh's format MSH.
ghost use Rattle.std.specs.Prelude.{◌≡◌, [], ◌∷◌, ◌++◌, ◌+◌, ◌<◌, ◌≤◌, ◌^◌, flat_map, length, All, OnOk, IfOk};
ghost use Rattle.std.specs.List.{enumerate_from};
ghost use Rattle.geo_laws.specs.Delaunay.{numbers};
ghost use Rattle.mesh_files.specs.Texts.{marked_corners, AreNamed};
ghost use Rattle.solver_files.specs.Mesh.{mesh_of, marker_tag, IsWritten};
ghost use Rattle.solver_files.specs.Msh.{node_line, msh_nodes, element_line, tet_line, triangle_line, msh_elements, msh_text};

use crate::WholeMesh;
use crate::attribute::{marker_tag, tet_tag};
use crate::line::{numbered, put_heading, put_line, put_number};
use crate::place::put_place;
use geo_laws::{Points, Tet};
use mesh_files::{FaceRow, Names};
use std::alloc::Global;
use tet_ports::{Bytes, NoMemory};

/// The text of a file of a mesh in Gmsh's format MSH 2.2: the nodes, and as elements the
/// tetrahedra, type 4, and then the faces, type 2. Nodes are in the order of the `.node` file, with
/// its exact decimals, and elements are numbered from 1; a corner is written by its name, from 1.
/// The corners of a tetrahedron are in the order of its row, so the fourth of a positive one is on
/// the side to which the normal of the first three points by the right-hand rule, as Gmsh has it.
/// The physical and the elementary group of an element have one tag, a whole number from 1 to
/// 2^31 - 1: for a tetrahedron what the attribute of its region writes in digits alone, for a face
/// its marker. Where these are no such number, both tags are 0, which names no group. Without
/// attributes all tetrahedra are in the group 1. The only refusal is out of memory.
///
/// Format: Gmsh reference manual, "MSH file format version 2".
pub fn write_msh(alloc: Global, mesh: &WholeMesh<'_>) -> Result<Bytes, NoMemory>
    requires { IsWritten (mesh_of mesh.now) }
    ensures { IfOk result (λ text. text ≡ msh_text (mesh_of mesh.now)) }
{
    let mut out = Bytes::new(alloc);
    put_nodes(mesh, &mut out)?;
    put_elements(mesh, &mut out)?;
    Ok(out)
}

/// Appends the format, and the nodes.
fn put_nodes(mesh: &WholeMesh<'_>, out: &mut Bytes) -> Result<(), NoMemory>
    requires { IsWritten (mesh_of mesh.now) }
    ensures { OnOk result (out.new ≡ out.old ++ msh_nodes (mesh_of mesh.now)) }
{
    let listed = &mesh.table.listed;
    let head = b"$MeshFormat\n2.2 0 8\n$EndMeshFormat\n$Nodes\n";
    put_heading(head, mesh.point_count(), b"\n", out)?;
    put_node_lines(mesh, 1, listed, out)?;
    put_node_lines(mesh, 1 + listed.len() as u64, mesh.added, out)?;
    out.append(b"$EndNodes\n")
}

/// Appends the lines of points, numbered from `first`.
pub(crate) fn put_node_lines(
    mesh: &WholeMesh<'_>,
    first: u64,
    points: &Points,
    out: &mut Bytes,
) -> Result<(), NoMemory>
    requires mesh { IsWritten (mesh_of mesh.now) }
    requires first { first ≤ 2 ^ 32 }
    requires few { length points.now < 2 ^ 32 }
    ensures { OnOk result (out.new ≡ out.old
        ++ flat_map (λ r. node_line (mesh_of mesh.now) r.0 r.1) (enumerate_from first points.now)) }
{
    for i in 0..points.len() {
        put_number(first + i as u64, out)?;
        out.push(b' ')?;
        put_place(mesh, points.at(i), out)?;
        out.push(b'\n')?;
    }
    Ok(())
}

/// Appends the elements.
fn put_elements(mesh: &WholeMesh<'_>, out: &mut Bytes) -> Result<(), NoMemory>
    requires { IsWritten (mesh_of mesh.now) }
    ensures { OnOk result (out.new ≡ out.old ++ msh_elements (mesh_of mesh.now)) }
{
    put_heading(b"$Elements\n", mesh.cell_count(), b"\n", out)?;
    put_rows(mesh, out)?;
    put_faces(mesh, out)?;
    out.append(b"$EndElements\n")
}

/// Appends the tetrahedra.
fn put_rows(mesh: &WholeMesh<'_>, out: &mut Bytes) -> Result<(), NoMemory>
    requires { IsWritten (mesh_of mesh.now) }
    ensures { OnOk result (out.new ≡ out.old
        ++ flat_map (λ r. tet_line (mesh_of mesh.now) r.0 r.1)
        (enumerate_from 0 mesh.now.list.now)) }
{
    for i in 0..mesh.list.len() {
        let tag = tet_tag(mesh, i);
        put_row(mesh.names, i as u64 + 1, tag, mesh.list.at(i), out)?;
    }
    Ok(())
}

/// Appends the element of a tetrahedron.
fn put_row(names: &Names, number: u64, tag: u32, row: Tet, out: &mut Bytes) -> Result<(), NoMemory>
    requires { AreNamed names.now (numbers row) }
    ensures { OnOk result (out.new ≡ out.old
        ++ element_line names.now number 4 tag (numbers row)) }
{
    let tag = i64::from(tag);
    let fields = [
        4,
        2,
        tag,
        tag,
        numbered(names, 1, row.a),
        numbered(names, 1, row.b),
        numbered(names, 1, row.c),
        numbered(names, 1, row.d),
    ];
    put_line(number, &fields, out)
}

/// Appends the faces, numbered behind the tetrahedra.
fn put_faces(mesh: &WholeMesh<'_>, out: &mut Bytes) -> Result<(), NoMemory>
    requires { IsWritten (mesh_of mesh.now) }
    ensures { OnOk result (out.new ≡ out.old
        ++ flat_map (λ r. triangle_line (mesh_of mesh.now) r.0 r.1)
        (enumerate_from 0 mesh.now.faces.now)) }
{
    let first = mesh.list.len() as u64 + 1;
    for i in 0..mesh.faces.len() {
        let face = mesh.faces.at(i);
        put_face(mesh.names, first + i as u64, face, out)?;
    }
    Ok(())
}

/// Appends the element of a face.
fn put_face(names: &Names, number: u64, face: FaceRow, out: &mut Bytes) -> Result<(), NoMemory>
    requires { AreNamed names.now (marked_corners face) }
    ensures { OnOk result (out.new ≡ out.old
        ++ element_line names.now number 2 (marker_tag face.marker) (marked_corners face)) }
{
    let tag = i64::from(marker_tag(face.marker));
    let fields = [
        2,
        2,
        tag,
        tag,
        numbered(names, 1, face.a),
        numbered(names, 1, face.b),
        numbered(names, 1, face.c),
    ];
    put_line(number, &fields, out)
}

//! Legacy VTK files.
ghost use Rattle.std.specs.Prelude.{◌≡◌, ◌++◌, flat_map, All, OnOk, IfOk};
ghost use Rattle.std.specs.List.{enumerate_from};
ghost use Rattle.geo_laws.specs.Delaunay.{numbers};
ghost use Rattle.mesh_files.specs.Texts.{marked_corners, AreNamed};
ghost use Rattle.solver_files.specs.Mesh.{mesh_of, IsWritten};
ghost use Rattle.solver_files.specs.Vtk.{place_line, tet_cell, face_cell, scalar_line, marker_line, vtk_points, vtk_cells, vtk_types, vtk_regions, vtk_markers, vtk_text};

use crate::WholeMesh;
use crate::attribute::{attribute_at, scalar_of};
use crate::line::{numbered, put_copies, put_heading, put_line, put_signed};
use crate::place::put_place;
use geo_laws::{Points, Tet, TetList};
use mesh_files::{FaceRow, FaceRows, Names};
use std::alloc::Global;
use tet_ports::{Bytes, NoMemory};

/// The text of a legacy VTK file, version 3.0, of a mesh: an unstructured grid whose cells are the
/// tetrahedra and then the faces. Points are in the order of the `.node` file, with its exact
/// decimals, and a corner is written by its name, from 0. The corners of a tetrahedron are in the
/// order of its row, so the fourth of a positive one is on the side to which the normal of the
/// first three points by the right-hand rule, as VTK has it. Each cell has two numbers. `region`,
/// of type `double`, is the attribute of a tetrahedron's region as it is written, and 0 where it
/// writes no decimal or there is none, and for faces. `marker`, of type `long`, since markers have
/// up to 64 bits, is the marker of a face, and 0 for tetrahedra. The only refusal is out of memory.
///
/// Format: VTK user's guide, "VTK File Formats", "Simple Legacy Formats".
pub fn write_vtk(alloc: Global, mesh: &WholeMesh<'_>) -> Result<Bytes, NoMemory>
    requires { IsWritten (mesh_of mesh.now) }
    ensures { IfOk result (λ text. text ≡ vtk_text (mesh_of mesh.now)) }
{
    let mut out = Bytes::new(alloc);
    put_points(mesh, &mut out)?;
    put_cells(mesh, &mut out)?;
    put_types(mesh, &mut out)?;
    put_regions(mesh, &mut out)?;
    put_markers(mesh, &mut out)?;
    Ok(out)
}

/// Appends the first lines, and the points.
fn put_points(mesh: &WholeMesh<'_>, out: &mut Bytes) -> Result<(), NoMemory>
    requires { IsWritten (mesh_of mesh.now) }
    ensures { OnOk result (out.new ≡ out.old ++ vtk_points (mesh_of mesh.now)) }
{
    put_heading(
        b"# vtk DataFile Version 3.0\ntetgen\nASCII\nDATASET UNSTRUCTURED_GRID\nPOINTS ",
        mesh.point_count(),
        b" double\n",
        out,
    )?;
    put_places(mesh, &mesh.table.listed, out)?;
    put_places(mesh, mesh.added, out)
}

/// Appends the coordinates of points, each in a line.
pub(crate) fn put_places(
    mesh: &WholeMesh<'_>,
    points: &Points,
    out: &mut Bytes,
) -> Result<(), NoMemory>
    requires { IsWritten (mesh_of mesh.now) }
    ensures { OnOk result (out.new ≡ out.old
        ++ flat_map (place_line (mesh_of mesh.now)) points.now) }
{
    for i in 0..points.len() {
        put_place(mesh, points.at(i), out)?;
        out.push(b'\n')?;
    }
    Ok(())
}

/// Appends the corners of the cells.
fn put_cells(mesh: &WholeMesh<'_>, out: &mut Bytes) -> Result<(), NoMemory>
    requires { IsWritten (mesh_of mesh.now) }
    ensures { OnOk result (out.new ≡ out.old ++ vtk_cells (mesh_of mesh.now)) }
{
    let size = 5 * mesh.list.len() as u128 + 4 * mesh.faces.len() as u128;
    put_heading(b"CELLS ", mesh.cell_count(), b" ", out)?;
    put_heading(b"", size, b"\n", out)?;
    put_rows(mesh.list, mesh.names, out)?;
    put_faces(mesh.faces, mesh.names, out)
}

/// Appends the corners of tetrahedra.
fn put_rows(list: &TetList, names: &Names, out: &mut Bytes) -> Result<(), NoMemory>
    requires { All (λ t. AreNamed names.now (numbers t)) list.now }
    ensures { OnOk result (out.new ≡ out.old ++ flat_map (tet_cell names.now) list.now) }
{
    for i in 0..list.len() {
        put_row(list.at(i), names, out)?;
    }
    Ok(())
}

/// Appends the corners of a tetrahedron.
fn put_row(row: Tet, names: &Names, out: &mut Bytes) -> Result<(), NoMemory>
    requires { AreNamed names.now (numbers row) }
    ensures { OnOk result (out.new ≡ out.old ++ tet_cell names.now row) }
{
    let corners = [
        numbered(names, 0, row.a),
        numbered(names, 0, row.b),
        numbered(names, 0, row.c),
        numbered(names, 0, row.d),
    ];
    put_line(4, &corners, out)
}

/// Appends the corners of faces.
fn put_faces(faces: &FaceRows, names: &Names, out: &mut Bytes) -> Result<(), NoMemory>
    requires { All (λ f. AreNamed names.now (marked_corners f)) faces.now }
    ensures { OnOk result (out.new ≡ out.old ++ flat_map (face_cell names.now) faces.now) }
{
    for i in 0..faces.len() {
        put_face(faces.at(i), names, out)?;
    }
    Ok(())
}

/// Appends the corners of a face.
fn put_face(face: FaceRow, names: &Names, out: &mut Bytes) -> Result<(), NoMemory>
    requires { AreNamed names.now (marked_corners face) }
    ensures { OnOk result (out.new ≡ out.old ++ face_cell names.now face) }
{
    let corners = [
        numbered(names, 0, face.a),
        numbered(names, 0, face.b),
        numbered(names, 0, face.c),
    ];
    put_line(3, &corners, out)
}

/// Appends the types of the cells.
fn put_types(mesh: &WholeMesh<'_>, out: &mut Bytes) -> Result<(), NoMemory>
    ensures { OnOk result (out.new ≡ out.old ++ vtk_types (mesh_of mesh.now)) }
{
    put_heading(b"CELL_TYPES ", mesh.cell_count(), b"\n", out)?;
    put_copies(mesh.list.len(), b"10\n", out)?;
    put_copies(mesh.faces.len(), b"5\n", out)
}

/// Appends the attributes of the cells.
pub(crate) fn put_regions(mesh: &WholeMesh<'_>, out: &mut Bytes) -> Result<(), NoMemory>
    requires { IsWritten (mesh_of mesh.now) }
    ensures { OnOk result (out.new ≡ out.old ++ vtk_regions (mesh_of mesh.now)) }
{
    put_heading(
        b"CELL_DATA ",
        mesh.cell_count(),
        b"\nSCALARS region double 1\nLOOKUP_TABLE default\n",
        out,
    )?;
    put_scalars(mesh, out)?;
    put_copies(mesh.faces.len(), b"0\n", out)
}

/// Appends the attributes of the tetrahedra.
fn put_scalars(mesh: &WholeMesh<'_>, out: &mut Bytes) -> Result<(), NoMemory>
    requires { IsWritten (mesh_of mesh.now) }
    ensures { OnOk result (out.new ≡ out.old
        ++ flat_map (λ r. scalar_line (mesh_of mesh.now) r.0)
        (enumerate_from 0 mesh.now.list.now)) }
{
    for i in 0..mesh.list.len() {
        out.append(scalar_of(attribute_at(mesh, i)))?;
        out.push(b'\n')?;
    }
    Ok(())
}

/// Appends the markers of the cells.
pub(crate) fn put_markers(mesh: &WholeMesh<'_>, out: &mut Bytes) -> Result<(), NoMemory>
    ensures { OnOk result (out.new ≡ out.old ++ vtk_markers (mesh_of mesh.now)) }
{
    out.append(b"SCALARS marker long 1\nLOOKUP_TABLE default\n")?;
    put_copies(mesh.list.len(), b"0\n", out)?;
    put_face_markers(mesh.faces, out)
}

/// Appends the markers of faces.
fn put_face_markers(faces: &FaceRows, out: &mut Bytes) -> Result<(), NoMemory>
    ensures { OnOk result (out.new ≡ out.old ++ flat_map marker_line faces.now) }
{
    for i in 0..faces.len() {
        put_signed(faces.at(i).marker, out)?;
        out.push(b'\n')?;
    }
    Ok(())
}

//! Legacy VTK files of second order.
ghost use Rattle.std.specs.Prelude.{◌≡◌, ◌++◌, flat_map, OnOk, IfOk};
ghost use Rattle.solver_files.specs.Mesh.{mesh_of};
ghost use Rattle.solver_files.specs.Second.{second_of, IsSecond};
ghost use Rattle.solver_files.specs.SecondTexts.{middle_place_line, second_size, second_vtk_points, second_vtk_cells, second_vtk_types, second_vtk_text};

use crate::line::{put_copies, put_heading};
use crate::middle::put_middle_place;
use crate::second_rows::{Format, put_face_rows, put_tet_rows};
use crate::vtk::{put_markers, put_places, put_regions};
use crate::{SecondMesh, WholeMesh};
use std::alloc::Global;
use tet_ports::{Bytes, NoMemory};

/// The text of a legacy VTK file, version 3.0, of a mesh of second order: as `write_vtk` has it,
/// with the midpoints of the edges behind the points, and with quadratic tetrahedra, type 24, and
/// quadratic triangles, type 22, as cells. Behind the corners a, b, c, d are the midpoints of ab,
/// bc, ca, ad, bd and cd, and behind those of a face the ones of ab, bc and ca. The only refusal is
/// out of memory.
///
/// Format: VTK user's guide, "VTK File Formats", "Simple Legacy Formats".
pub fn write_second_vtk(alloc: Global, mesh: &SecondMesh<'_>) -> Result<Bytes, NoMemory>
    requires { IsSecond (second_of mesh.now) }
    ensures { IfOk result (λ text. text ≡ second_vtk_text (second_of mesh.now)) }
{
    let mut out = Bytes::new(alloc);
    put_points(mesh, &mut out)?;
    put_cells(mesh, &mut out)?;
    put_types(&mesh.whole, &mut out)?;
    put_regions(&mesh.whole, &mut out)?;
    put_markers(&mesh.whole, &mut out)?;
    Ok(out)
}

/// Appends the first lines, the points and the midpoints.
fn put_points(mesh: &SecondMesh<'_>, out: &mut Bytes) -> Result<(), NoMemory>
    requires { IsSecond (second_of mesh.now) }
    ensures { OnOk result (out.new ≡ out.old ++ second_vtk_points (second_of mesh.now)) }
{
    put_heading(
        b"# vtk DataFile Version 3.0\ntetgen\nASCII\nDATASET UNSTRUCTURED_GRID\nPOINTS ",
        mesh.count(),
        b" double\n",
        out,
    )?;
    put_places(&mesh.whole, &mesh.whole.table.listed, out)?;
    put_places(&mesh.whole, mesh.whole.added, out)?;
    put_middle_places(mesh, out)
}

/// Appends the coordinates of the midpoints, each in a line.
fn put_middle_places(mesh: &SecondMesh<'_>, out: &mut Bytes) -> Result<(), NoMemory>
    requires { IsSecond (second_of mesh.now) }
    ensures { OnOk result (out.new ≡ out.old
        ++ flat_map (middle_place_line (second_of mesh.now)) mesh.now.sides.now) }
{
    for i in 0..mesh.sides.len() {
        put_middle_place(mesh, mesh.sides.at(i), out)?;
        out.push(b'\n')?;
    }
    Ok(())
}

/// Appends the corners of the cells.
fn put_cells(mesh: &SecondMesh<'_>, out: &mut Bytes) -> Result<(), NoMemory>
    requires { IsSecond (second_of mesh.now) }
    ensures { OnOk result (out.new ≡ out.old ++ second_vtk_cells (second_of mesh.now)) }
{
    let size = 11 * mesh.whole.list.len() as u128 + 7 * mesh.whole.faces.len() as u128;
    put_heading(b"CELLS ", mesh.whole.cell_count(), b" ", out)?;
    put_heading(b"", size, b"\n", out)?;
    put_tet_rows(Format::Vtk, mesh, 0, out)?;
    put_face_rows(Format::Vtk, mesh, 0, out)
}

/// Appends the types of the cells.
fn put_types(mesh: &WholeMesh<'_>, out: &mut Bytes) -> Result<(), NoMemory>
    ensures { OnOk result (out.new ≡ out.old ++ second_vtk_types (mesh_of mesh.now)) }
{
    put_heading(b"CELL_TYPES ", mesh.cell_count(), b"\n", out)?;
    put_copies(mesh.list.len(), b"24\n", out)?;
    put_copies(mesh.faces.len(), b"22\n", out)
}

//! The text of a mesh in the format that is asked for.
ghost use Rattle.std.specs.Prelude.{◌≡◌, IfOk};
ghost use Rattle.solver_files.specs.Formats.{second_whole_text, whole_text};
ghost use Rattle.solver_files.specs.Mesh.{mesh_of, IsWritten};
ghost use Rattle.solver_files.specs.Second.{second_of, IsSecond};

use crate::msh::write_msh;
use crate::second_msh::write_second_msh;
use crate::second_vtk::write_second_vtk;
use crate::vtk::write_vtk;
use crate::{SecondMesh, WholeMesh};
use command_words::Format;
use std::alloc::Global;
use tet_ports::{Bytes, NoMemory};

/// The text of a file of this format with the mesh. The only refusal is out of memory.
pub fn write_whole(alloc: Global, format: Format, mesh: &WholeMesh<'_>) -> Result<Bytes, NoMemory>
    requires { IsWritten (mesh_of mesh.now) }
    ensures { IfOk result (λ text. text ≡ whole_text (mesh_of mesh.now) format) }
{
    match format {
        Format::Vtk => write_vtk(alloc, mesh),
        Format::Msh => write_msh(alloc, mesh),
    }
}

/// The text of a file of this format with the mesh of second order. The only refusal is out of
/// memory.
pub fn write_second_whole(
    alloc: Global,
    format: Format,
    mesh: &SecondMesh<'_>,
) -> Result<Bytes, NoMemory>
    requires { IsSecond (second_of mesh.now) }
    ensures { IfOk result (λ text. text ≡ second_whole_text (second_of mesh.now) format) }
{
    match format {
        Format::Vtk => write_second_vtk(alloc, mesh),
        Format::Msh => write_second_msh(alloc, mesh),
    }
}

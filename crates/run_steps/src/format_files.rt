//! The files of the whole mesh, one in each format that is asked for.

ghost use Rattle.std.specs.Prelude.{◌≡◌, IfOk};
ghost use Rattle.solver_files.specs.Formats.{second_whole_text, whole_text};
ghost use Rattle.solver_files.specs.Mesh.{mesh_of, IsWritten};
ghost use Rattle.solver_files.specs.Second.{second_of, IsSecond};
ghost use Rattle.run_steps.specs.Outputs.{format_files};

use crate::outputs::named;
use crate::store::NamedTexts;
use command_words::Options;
use solver_files::{SecondMesh, WholeMesh, write_second_whole, write_whole};
use std::alloc::Global;
use tet_ports::NoMemory;

/// The files of a mesh of first order.
pub(crate) fn first_format_files(
    alloc: Global,
    options: &Options,
    mesh: &WholeMesh<'_>,
) -> Result<NamedTexts, NoMemory>
    requires { IsWritten (mesh_of mesh.now) }
    ensures { IfOk result
        (λ files. files ≡ format_files options.now (whole_text (mesh_of mesh.now))) }
{
    let formats = options.formats.asked(alloc)?;
    let mut files = NamedTexts::new(alloc);
    for format in formats.as_slice() {
        let text = write_whole(alloc, *format, mesh)?;
        files.append(named(alloc, options, format.ending(), text)?)?;
    }
    Ok(files)
}

/// The files of a mesh of second order.
pub(crate) fn second_format_files(
    alloc: Global,
    options: &Options,
    mesh: &SecondMesh<'_>,
) -> Result<NamedTexts, NoMemory>
    requires { IsSecond (second_of mesh.now) }
    ensures { IfOk result
        (λ files. files ≡ format_files options.now (second_whole_text (second_of mesh.now))) }
{
    let formats = options.formats.asked(alloc)?;
    let mut files = NamedTexts::new(alloc);
    for format in formats.as_slice() {
        let text = write_second_whole(alloc, *format, mesh)?;
        files.append(named(alloc, options, format.ending(), text)?)?;
    }
    Ok(files)
}

//! The files of a mesh of second order, and the summary.

ghost use Rattle.std.specs.Prelude.{◌≡◌, ◌<◌, IfOk};
ghost use Rattle.node_files.specs.Writing.{IsNearGrid};
ghost use Rattle.solver_files.specs.Second.{second_of, IsSecond};
ghost use Rattle.run_steps.specs.Outputs.{second_texts, AreSecondOutputsOf, IsWritable};
ghost use Rattle.run_steps.specs.Outputs.{second_node_file, second_ele_file, second_face_file};

use crate::format_files::second_format_files;
use crate::meshed::Meshed;
use crate::outputs::{FileAnswer, Outputs, edge_file, first_of, named, neigh_file, report_of};
use crate::store::{NamedText, Texts};
use command_words::Options;
use incidence::uses_of;
use mesh_files::{edges_of, face_count, used_faces};
use solver_files::{SecondMesh, write_second_ele, write_second_face, write_second_node};
use std::alloc::Global;
use tet_ports::NoMemory;

/// The files of a mesh of second order that the options ask for, and the summary. The uses of the
/// faces are freed before the texts are made.
pub(crate) fn second_outputs(
    alloc: Global,
    options: &Options,
    mesh: &Meshed,
) -> Result<Outputs, NoMemory>
    requires mesh { IsWritable mesh.now }
    requires near { IsNearGrid options.now.origin mesh.now.table.grid }
    requires halving { mesh.now.table.grid.halvings < 18 }
    ensures { IfOk result (AreSecondOutputsOf options.now mesh.now) }
{
    let uses = uses_of(alloc, &mesh.tetrahedra)?;
    let neigh = neigh_file(alloc, options, mesh, &uses)?;
    let count = face_count(&mesh.tetrahedra, &uses);
    let faces = used_faces(alloc, &mesh.marked_list(), &uses, options.all_faces)?;
    uses.let_go();
    let sides = edges_of(alloc, &mesh.tetrahedra)?;
    let edge = edge_file(alloc, options, mesh, &sides)?;
    let report = report_of(alloc, options, mesh, count, sides.len());
    let second = mesh.second(options.origin, &faces, &sides);
    let texts = texts_of(
        alloc,
        options,
        first_of(options, mesh),
        &second,
        edge,
        neigh,
    )?;
    let tetrahedra = mesh.tetrahedra.len();
    Ok(Outputs {
        texts,
        report,
        tetrahedra,
    })
}

/// The files of a mesh of second order that the options ask for, and with them those of edges and
/// of neighbors.
fn texts_of(
    alloc: Global,
    options: &Options,
    first: u32,
    mesh: &SecondMesh<'_>,
    edge: Option<NamedText>,
    neigh: Option<NamedText>,
) -> Result<Texts, NoMemory>
    requires { IsSecond (second_of mesh.now) }
    ensures { IfOk result
        (λ texts. texts ≡ second_texts options.now first edge neigh (second_of mesh.now)) }
{
    let whole = second_format_files(alloc, options, mesh)?;
    let face = face_file(alloc, options, first, mesh)?;
    let node = node_file(alloc, options, first, mesh)?;
    let ele = ele_file(alloc, options, first, mesh)?;
    Ok(Texts {
        node,
        ele,
        face,
        edge,
        neigh,
        whole,
    })
}

/// The points and the midpoints of edges.
fn node_file(alloc: Global, options: &Options, first: u32, mesh: &SecondMesh<'_>) -> FileAnswer
    requires { IsSecond (second_of mesh.now) }
    ensures { IfOk result
        (λ file. file ≡ second_node_file options.now first (second_of mesh.now)) }
{
    if options.no_node {
        return Ok(None);
    }
    let text = write_second_node(alloc, mesh, first)?;
    named(alloc, options, b".1.node", text)
}

/// The tetrahedra of ten corners.
fn ele_file(alloc: Global, options: &Options, first: u32, mesh: &SecondMesh<'_>) -> FileAnswer
    requires { IsSecond (second_of mesh.now) }
    ensures { IfOk result
        (λ file. file ≡ second_ele_file options.now first (second_of mesh.now)) }
{
    if options.no_ele {
        return Ok(None);
    }
    let text = write_second_ele(alloc, mesh, first)?;
    named(alloc, options, b".1.ele", text)
}

/// The faces of six corners.
fn face_file(alloc: Global, options: &Options, first: u32, mesh: &SecondMesh<'_>) -> FileAnswer
    requires { IsSecond (second_of mesh.now) }
    ensures { IfOk result
        (λ file. file ≡ second_face_file options.now first (second_of mesh.now)) }
{
    if options.no_face {
        return Ok(None);
    }
    let text = write_second_face(alloc, mesh, first)?;
    named(alloc, options, b".1.face", text)
}

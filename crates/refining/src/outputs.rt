//! The files and the summary of a refined mesh.

ghost use Rattle.std.specs.Prelude.{◌≡◌, true, All, IfOk, IfSome, Ok};
ghost use Rattle.geo_laws.specs.Delaunay.{IsOn};
ghost use Rattle.node_files.specs.Writing.{IsNearGrid};
ghost use Rattle.run_steps.specs.Meshing.{IsMeshableBound};
ghost use Rattle.run_steps.specs.Outputs.{IsWritable};
ghost use Rattle.tet_shapes.specs.Shape.{IsFine};
ghost use Rattle.refining.specs.Outputs.{CountedAnswer, RefinedAnswer, RefinedMade};
ghost use Rattle.refining.specs.Outputs.{counted_told, counts_in, with_counts};
ghost use Rattle.refining.specs.Rounds.{AreShown};

use crate::counts::{Counts, Marked, counts_of};
use crate::goal::ShapeBounds;
use crate::propose::Propose;
use crate::refining::{Bounds, refine, refine_conforming};
use crate::watch::Watch;
use command_words::Options;
use run_steps::{Bound, HulledMesh, Meshed, Outputs, Report, Status, outputs_of};
use std::alloc::Global;
use tet_ports::NoMemory;

/// The report of a mesh with these counts.
fn counted_told(report: Report, counts: Counts) -> Report
    ensures { result ≡ counted_told counts report }
{
    match report {
        Report::Mesh { mut summary, notes } => {
            summary.over = counts.over;
            summary.slim = counts.slim;
            summary.flat = counts.flat;
            Report::Mesh { summary, notes }
        }
        Report::Text(text) => Report::Text(text),
    }
}

/// The outputs of a mesh with these counts.
fn with_counts(outputs: Outputs, counts: Counts) -> Outputs
    ensures { result ≡ with_counts counts outputs }
{
    let Outputs {
        texts,
        report,
        tetrahedra,
    } = outputs;
    match report {
        None => Outputs {
            texts,
            report: None,
            tetrahedra,
        },
        Some(report) => Outputs {
            texts,
            report: Some(counted_told(report, counts)),
            tetrahedra,
        },
    }
}

/// How many tetrahedra of a mesh are beyond each bound.
fn counts_in(mesh: &Meshed, shapes: &ShapeBounds) -> Counts
    requires on { All (IsOn mesh.now.points) mesh.now.tetrahedra }
    requires fine { IfSome shapes.now.ratio IsFine }
    ensures { result ≡ counts_in shapes.now mesh.now }
{
    let marked = Marked {
        points: &mesh.points,
        tetrahedra: &mesh.tetrahedra,
        marks: &mesh.marks,
    };
    counts_of(marked, shapes)
}

/// The files and the summary of a mesh whose hull is not known, with the numbers of its tetrahedra
/// that are beyond the bounds.
fn counted_outputs(
    alloc: Global,
    options: &Options,
    mesh: Meshed,
    shapes: &ShapeBounds,
) -> Result<Outputs, Status>
    requires writable { IsWritable mesh }
    requires near { IsNearGrid options.now.origin mesh.table.grid }
    requires on { All (IsOn mesh.points) mesh.tetrahedra }
    requires fine { IfSome shapes.now.ratio IsFine }
    ensures { CountedAnswer shapes.now options.now mesh result }
{
    let counts = counts_in(&mesh, shapes);
    let made = HulledMesh { mesh, hull: None };
    let outputs = outputs_of(alloc, options, &made)?;
    Ok(with_counts(outputs, counts))
}

/// The files and the summary of the refined mesh of a complex, with the numbers of its tetrahedra
/// that are beyond the bounds of the goal; `watch` is shown the mesh of each round. It refuses the
/// complex as `mesh_outputs` does; or when out of memory.
pub fn refined_outputs<P: Propose, W: Watch>(
    alloc: Global,
    options: &Options,
    bound: Bound,
    bounds: &Bounds<'_>,
    proposer: &mut P,
    watch: &mut W,
) -> Result<Outputs, Status>
    requires bound { IsMeshableBound options.now bound }
    requires complex { options.now.piecewise ≡ true }
    requires fine { IfSome bounds.now.shapes.now.ratio IsFine }
    ensures made { RefinedMade bounds.now.shapes.now options.now bound result }
    ensures shown { AreShown W.shown bounds.now.shapes.now options.now bound watch.old watch.new }
{
    match refine(alloc, options, bound, bounds, proposer, watch) {
        Ok(refined) => counted_outputs(alloc, options, refined.mesh, bounds.shapes),
        Err(fault) => Err(Status::from(fault)),
    }
}

/// As `refined_outputs`, of a complex that has no mesh without further points: the outputs of one
/// with points on its segments, where it has one. It refuses only when out of memory.
pub fn conforming_outputs<P: Propose, W: Watch>(
    alloc: Global,
    options: &Options,
    bound: Bound,
    bounds: &Bounds<'_>,
    proposer: &mut P,
    watch: &mut W,
) -> Result<Option<Outputs>, NoMemory>
    requires bound { IsMeshableBound options.now bound }
    requires fine { IfSome bounds.now.shapes.now.ratio IsFine }
    ensures made { IfOk result (λ made. IfSome made
        (λ outputs. RefinedAnswer bounds.now.shapes.now options.now bound (Ok outputs))) }
    ensures shown { AreShown W.shown bounds.now.shapes.now options.now bound watch.old watch.new }
{
    let Some(refined) = refine_conforming(alloc, options, bound, bounds, proposer, watch)? else {
        return Ok(None);
    };
    match counted_outputs(alloc, options, refined.mesh, bounds.shapes) {
        Ok(outputs) => Ok(Some(outputs)),
        Err(_) => Err(NoMemory),
    }
}

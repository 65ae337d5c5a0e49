//! From a complex and the points behind its own to the mesh.

ghost use Rattle.std.specs.Prelude.{◌≡◌, ◌≤◌, ◌^◌, [], Ok, MatchResult, IfOk, IfErr};
ghost use Rattle.run_steps.specs.Meshing.{IsMeshableBound, IsUnmeshed};
ghost use Rattle.run_steps.specs.Faults.{status_of_fault};
ghost use Rattle.refining.specs.Refined.{options_with, IsFewWith, IsRefineFault};

use crate::behind::with_points;
use crate::refine_fault::RefineFault;
use command_words::Options;
use complex_mesh::{ComplexMesh, MeshFault, MeshOptions, mesh_complex};
use geo_laws::Points;
use run_steps::Bound;
use std::alloc::Global;
use tet_ports::NoMemory;

/// The options of the mesh of a complex whose subsegments may be halved `halvings` times.
fn options_with(options: &Options, halvings: u32) -> MeshOptions
    ensures { result ≡ options_with halvings options.now }
{
    MeshOptions {
        halvings,
        budget: options.budget,
        keep_hull: options.keep_hull,
        keep_facets: options.keep_facets,
        regions: options.regions,
    }
}

/// The mesh of a complex with more points behind its own, whose subsegments may be halved
/// `halvings` times. It refuses the points as `with_points` does, with `most` points allowed in
/// all, and then the complex with them as `mesh_complex` does.
pub fn mesh_with(
    alloc: Global,
    options: &Options,
    bound: &Bound,
    more: &Points,
    halvings: u32,
    most: usize,
) -> Result<ComplexMesh, RefineFault>
    requires bound { IsMeshableBound options.now bound.now }
    requires halvings { halvings ≤ bound.now.table.grid.halvings }
    requires most { most ≤ 2 ^ 30 }
    ensures { MatchResult result (IsFewWith options.now bound.now more.now halvings)
        (IsRefineFault options.now bound.now more.now halvings most) }
{
    match with_points(alloc, &bound.table.points, more, halvings, most) {
        Ok(points) => {
            let options = options_with(options, halvings);
            match mesh_complex(alloc, points, &bound.complex, &options) {
                Ok(made) => Ok(made),
                Err(fault) => Err(RefineFault::Mesh(fault)),
            }
        }
        Err(fault) => Err(RefineFault::Points(fault)),
    }
}

/// Copies the points of a list.
fn same_points(alloc: Global, points: &Points) -> Result<Points, NoMemory>
    ensures { IfOk result (λ same. same ≡ points.now) }
{
    let mut same = Points::new(alloc);
    same.extend_from_slice(points.as_slice())?;
    Ok(same)
}

/// The mesh of a complex with no point but its own, whose segments may be halved as often as the
/// grid allows. It refuses the complex as `mesh_complex` does.
pub fn mesh_plain(alloc: Global, options: &Options, bound: &Bound) -> Result<ComplexMesh, MeshFault>
    requires { IsMeshableBound options.now bound.now }
    ensures made { IfOk result
        (IsFewWith options.now bound.now [] bound.now.table.grid.halvings) }
    ensures refused { IfErr result
        (λ fault. IsUnmeshed options.now bound.now (status_of_fault fault)) }
{
    let points = same_points(alloc, &bound.table.points)?;
    let options = options_with(options, bound.table.grid.halvings);
    match mesh_complex(alloc, points, &bound.complex, &options) {
        Ok(made) => Ok(made),
        Err(fault) => Err(fault),
    }
}

//! From points and a complex to the mesh.
ghost use Rattle.std.specs.Prelude.{All, MatchResult};
ghost use Rattle.geo_laws.specs.Complex.{facets, HasCornersOf};
ghost use Rattle.geo_laws.specs.Facet.{IsFlat};
ghost use Rattle.segment_protect.specs.Ends.{HasDelaunayList};
ghost use Rattle.complex_mesh.specs.Protection.{IsMeshable, AreMeshed, IsProtectedComplex, IsProtectedTo};
ghost use Rattle.complex_mesh.specs.Meshing.{IsProtectionFault, MeshesSo};

use crate::facets::met_triangles;
use crate::fault::MeshFault;
use crate::keeping::kept_mesh;
use crate::mesh::{ComplexMesh, MeshOptions};
use crate::recovering::recovered;
use facet_plane::check_flat;
use geo_laws::{Complex, Points, Segments};
use merged_facets::{merge_facets, merged_complex, merged_segments};
use plc_files::segments;
use segment_protect::{Protected, pieces, protect};
use std::alloc::Global;

/// Protects a complex whose facets are flat: adds points on its segments until each subsegment is
/// an edge of a Delaunay tetrahedron. The facets that are meshed are those of `meshed`.
fn protect_facets(
    alloc: Global,
    points: Points,
    complex: &Complex,
    segments: &Segments,
    meshed: &Complex,
    options: &MeshOptions,
) -> Result<Protected, MeshFault>
    requires meshable { IsMeshable options.now.halvings options.now.budget points complex.now }
    requires flat { All (IsFlat points) (facets complex.now) }
    requires meshed { AreMeshed options.now.keep_facets points complex.now segments.now
        (facets meshed.now) }
    ensures { MatchResult result (λ p. IsProtectedComplex options.now points complex.now segments.now
        (facets meshed.now) p.points p.pieces × HasDelaunayList p)
        (IsProtectionFault options.now points complex.now) }
{
    let pieces = pieces(alloc, &points, segments)?;
    let protected = protect(alloc, points, pieces, options.halvings, options.budget)?;
    Ok(protected)
}

/// The mesh of a complex whose facets are flat, from its segments and the facets of `meshed`.
fn mesh_facets(
    alloc: Global,
    points: Points,
    complex: &Complex,
    segments: &Segments,
    meshed: &Complex,
    options: &MeshOptions,
) -> Result<ComplexMesh, MeshFault>
    requires meshable { IsMeshable options.now.halvings options.now.budget points complex.now }
    requires flat { All (IsFlat points) (facets complex.now) }
    requires meshed { AreMeshed options.now.keep_facets points complex.now segments.now
        (facets meshed.now) }
    requires corners { HasCornersOf points meshed.now }
    ensures { MeshesSo options.now points complex.now result }
{
    let protected = protect_facets(alloc, points, complex, segments, meshed, options)?;
    let list = &protected.tetrahedra;
    let triangles = met_triangles(alloc, &protected.points, list, &protected.pieces, meshed)?;
    let whole = recovered(alloc, &protected.points, list, &triangles)?;
    protected.tetrahedra.let_go();
    let mesh = kept_mesh(alloc, protected.points, triangles, &whole, complex, options)?;
    Ok(mesh)
}

/// The mesh of a complex: coplanar facets that are joined over common sides are one facet each,
/// unless facets are kept apart; points are added on segments until each subsegment is an edge of a
/// Delaunay tetrahedron; each facet's triangles are those of its plane's Delaunay triangulation;
/// the Delaunay tetrahedra that a facet crosses are replaced, on each side of the facet's plane, by
/// those of the cavity's corners on that side, or where two facets cross one, by constrained
/// Delaunay tetrahedra found by flips or gift wrapping; and the tetrahedra that a free path joins
/// with a hole point, or with the outside where the hull isn't kept, are carved away.
///
/// The answer is the mesh where the memory is enough and no cause holds of the following, else the
/// first of these: all points lie in one plane (`Flat`); a facet is not flat (`NotFlat`); two
/// subsegments are not properly met (`SegmentsCross`); protection ends at a missing subsegment that
/// may not be halved again (`GridEnd`), or after as many added points as allowed (`BudgetEnd`); two
/// triangles, or a triangle and a piece, are not properly met (`Crossing`). Where two facets cross
/// a Delaunay tetrahedron, the answer is the mesh, or an anomaly that holds (`NoFill`).
///
/// Source: constrained Delaunay tetrahedralizations of a complex whose segments are protected
/// (Shewchuk, 2002).
pub fn mesh_complex(
    alloc: Global,
    points: Points,
    complex: &Complex,
    options: &MeshOptions,
) -> Result<ComplexMesh, MeshFault>
    requires { IsMeshable options.now.halvings options.now.budget points complex.now }
    ensures { MeshesSo options.now points complex.now result }
{
    check_flat(&points, complex)?;
    if options.keep_facets {
        let segments = segments(alloc, complex)?;
        return mesh_facets(alloc, points, complex, &segments, complex, options);
    }
    let merging = merge_facets(alloc, &points, complex)?;
    let segments = merged_segments(alloc, complex, &merging)?;
    let merged = merged_complex(alloc, complex, &merging)?;
    mesh_facets(alloc, points, complex, &segments, &merged, options)
}

/// The points of a complex and those that protection adds behind them: its refusals are those of
/// `mesh_complex` up to the end of protection.
pub fn protected_points(
    alloc: Global,
    points: Points,
    complex: &Complex,
    options: &MeshOptions,
) -> Result<Points, MeshFault>
    requires { IsMeshable options.now.halvings options.now.budget points complex.now }
    ensures { MatchResult result (IsProtectedTo options.now points complex.now)
        (IsProtectionFault options.now points complex.now) }
{
    check_flat(&points, complex)?;
    if options.keep_facets {
        let segments = segments(alloc, complex)?;
        let protected = protect_facets(alloc, points, complex, &segments, complex, options)?;
        return Ok(protected.points);
    }
    let merging = merge_facets(alloc, &points, complex)?;
    let segments = merged_segments(alloc, complex, &merging)?;
    let merged = merged_complex(alloc, complex, &merging)?;
    let protected = protect_facets(alloc, points, complex, &segments, &merged, options)?;
    Ok(protected.points)
}

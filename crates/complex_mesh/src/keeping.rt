//! The tetrahedra that are kept, with their marks.
ghost use Rattle.std.specs.Prelude.{◌≡◌, pos, ◌<ℤ◌, All, AllPairs, IfOk};
ghost use Rattle.geo_laws.specs.Delaunay.{RowBefore};
ghost use Rattle.geo_laws.specs.Path.{Carving};
ghost use Rattle.path_laws.specs.Places.{IsFilling};
ghost use Rattle.complex_laws.specs.ComplexMesh.{IsCarved};
ghost use Rattle.hole_carve.specs.Marks.{AreRegionMarks};
ghost use Rattle.complex_mesh.specs.Steps.{IsKeptMesh};

use crate::mesh::{ComplexMesh, MeshOptions};
use geo_laws::{Complex, FacetTriangles, Points, TetList};
use hole_carve::{Marks, carve, kept_marks, mark_regions};
use std::alloc::Global;
use tet_ports::NoMemory;

/// The marks of the kept tetrahedra of a list: each has the first region with which a free path
/// joins it.
fn marks_of(
    alloc: Global,
    points: &Points,
    triangles: &FacetTriangles,
    whole: &TetList,
    kept: &TetList,
    complex: &Complex,
) -> Result<Marks, NoMemory>
    requires filling { IsFilling points.now triangles.now whole.now }
    requires ascending { AllPairs RowBefore whole.now }
    requires carved { (carving : Carving)
        × IsCarved carving points.now triangles.now complex.now.holes whole.now kept.now }
    requires regions { All (λ r. pos 0 <ℤ r.at.w) complex.now.regions }
    ensures { IfOk result (AreRegionMarks points.now triangles.now kept.now complex.now.regions) }
{
    let marks = mark_regions(alloc, points, whole, triangles, complex)?;
    let own = kept_marks(alloc, whole, &marks, kept)?;
    Ok(own)
}

/// The mesh of the tetrahedra that carving keeps, of a list that fills the hull and has the facets
/// as faces.
pub(crate) fn kept_mesh(
    alloc: Global,
    points: Points,
    triangles: FacetTriangles,
    whole: &TetList,
    complex: &Complex,
    options: &MeshOptions,
) -> Result<ComplexMesh, NoMemory>
    requires filling { IsFilling points triangles whole.now }
    requires ascending { AllPairs RowBefore whole.now }
    requires holes { All (λ h. pos 0 <ℤ h.w) complex.now.holes }
    requires regions { All (λ r. pos 0 <ℤ r.at.w) complex.now.regions }
    ensures { IfOk result (λ mesh. (mesh.points ≡ points) × (mesh.triangles ≡ triangles)
        × IsKeptMesh options.now complex.now whole.now mesh) }
{
    let holes = complex.hole_points();
    let tetrahedra = carve(alloc, &points, whole, &triangles, holes, options.keep_hull)?;
    if !options.regions {
        return Ok(ComplexMesh {
            points,
            triangles,
            tetrahedra,
            marks: None,
        });
    }
    let marks = marks_of(alloc, &points, &triangles, whole, &tetrahedra, complex)?;
    Ok(ComplexMesh {
        points,
        triangles,
        tetrahedra,
        marks: Some(marks),
    })
}

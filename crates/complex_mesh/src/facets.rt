//! The triangles of all facets.
ghost use Rattle.std.specs.Prelude.{◌≡◌, MatchResult, IfOk};
ghost use Rattle.simplex_meets.specs.Crossing.{AreTrianglesMet};
ghost use Rattle.geo_laws.specs.Complex.{facets};
ghost use Rattle.geo_laws.specs.Delaunay.{delaunay_rows};
ghost use Rattle.complex_mesh.specs.Protection.{complex_triangles};
ghost use Rattle.complex_mesh.specs.Steps.{HasSoundFacets, IsCrossingFault};

use crate::fault::MeshFault;
use box_tree::point_tree;
use facet_plane::facet_triangles_in;
use facet_recover::listed_triangles;
use geo_laws::{Complex, FacetTriangles, Pieces, Points, TetList};
use simplex_meets::crossings_beside;
use std::alloc::Global;
use tet_ports::NoMemory;

/// The triangles of all facets, facet by facet. The pieces are only for the contract.
fn complex_triangles(
    alloc: Global,
    points: &Points,
    _pieces: &Pieces,
    complex: &Complex,
) -> Result<FacetTriangles, NoMemory>
    requires { HasSoundFacets points.now _pieces.now complex.now }
    ensures { IfOk result (λ triangles. triangles
        ≡ complex_triangles points.now (facets complex.now)) }
{
    let tree = point_tree(alloc, points)?;
    let mut triangles = FacetTriangles::new(alloc);
    for facet in 0..complex.facet_count() {
        let found = facet_triangles_in(alloc, points, &tree, complex, facet)?;
        triangles.extend_from_slice(found.as_slice())?;
    }
    Ok(triangles)
}

/// The triangles of all facets, facet by facet: any two are properly met, and each with each piece.
/// `Crossing` names the first two parts that are not. Faces of the Delaunay list are properly met
/// with one another and with its edges, so these are not compared.
pub(crate) fn met_triangles(
    alloc: Global,
    points: &Points,
    list: &TetList,
    pieces: &Pieces,
    complex: &Complex,
) -> Result<FacetTriangles, MeshFault>
    requires list { list.now ≡ delaunay_rows points.now }
    requires facets { HasSoundFacets points.now pieces.now complex.now }
    ensures { MatchResult result
        (λ triangles. (triangles ≡ complex_triangles points.now (facets complex.now))
        × AreTrianglesMet points.now triangles pieces.now)
        (IsCrossingFault points.now pieces.now (facets complex.now)) }
{
    let triangles = complex_triangles(alloc, points, pieces, complex)?;
    let listed = listed_triangles(alloc, list, &triangles)?;
    crossings_beside(alloc, points, pieces, &triangles, listed.as_slice())?;
    Ok(triangles)
}

//! The list of tetrahedra that has the facets as faces.
ghost use Rattle.std.specs.Prelude.{◌≡◌, ◌<◌, ◌-◌, ◌^◌, length, MatchResult};
ghost use Rattle.geo_laws.specs.Delaunay.{delaunay_rows, HasDistinctPoints, AreCoplanar};
ghost use Rattle.refill_laws.specs.Protected.{IsProtected};
ghost use Rattle.complex_mesh.specs.Steps.{IsRecovered, IsTangleFault};

use crate::fault::MeshFault;
use facet_recover::refill;
use geo_laws::{FacetTriangles, Points, TetList};
use std::alloc::Global;

/// The Delaunay list with the cavities of crossing facets filled again. `NoFill` comes only where
/// two facets cross a tetrahedron, with an anomaly that holds.
pub(crate) fn recovered(
    alloc: Global,
    points: &Points,
    list: &TetList,
    triangles: &FacetTriangles,
) -> Result<TetList, MeshFault>
    requires distinct { HasDistinctPoints points.now }
    requires few { length points.now < 2 ^ 32 - 1 }
    requires solid { ¬ AreCoplanar points.now }
    requires list { list.now ≡ delaunay_rows points.now }
    requires complex { IsProtected points.now triangles.now (delaunay_rows points.now) }
    ensures { MatchResult result (IsRecovered points.now triangles.now)
        (IsTangleFault points.now triangles.now) }
{
    let whole = refill(alloc, points, list, triangles)?;
    Ok(whole)
}

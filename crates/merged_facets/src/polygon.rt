//! The one polygon of a facet that may be joined with others.
ghost use Rattle.std.specs.Prelude.{◌≡◌, ◌<◌, length};
ghost use Rattle.merged_facets.specs.Merged.{only_polygon, facet_at, marker_at};

use geo_laws::Complex;

/// The corners of the facet's one polygon, where it has exactly one, of three or more corners, and
/// no hole point; else none.
pub(crate) fn only_polygon(complex: &Complex, facet: u32) -> &[u32]
    requires { facet < length complex.now.facets }
    ensures { result.now ≡ only_polygon (facet_at complex.now facet) }
{
    let parts = complex.facet(facet);
    if parts.past - parts.first == 1 && parts.holes.is_empty() {
        let corners = complex.corners(parts.first);
        if corners.len() > 2 {
            return corners;
        }
    }
    &[]
}

/// The facet's marker.
pub(crate) fn marker(complex: &Complex, facet: u32) -> Option<i64>
    requires { facet < length complex.now.facets }
    ensures { result ≡ marker_at complex.now facet }
{
    complex.facet(facet).marker
}

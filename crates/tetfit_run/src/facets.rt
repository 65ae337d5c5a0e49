//! The first facet that a segment belongs to.

ghost use Rattle.std.specs.Prelude.{◌≡◌, ◌==◌, position};
ghost use Rattle.std.specs.List.{list_any};
ghost use Rattle.tetfit_run.specs.Hints.{first_facet, has_both, has_polygon};

use geo_laws::{Complex, Facet, Piece};

fn has_corner(point: u32, corners: &[u32]) -> bool
    ensures { result ≡ list_any (λ c. c == point) corners.now }
{
    corners.iter().any(|c| *c == point)
}

/// Whether both ends of the subsegment are corners of the polygon.
fn has_both(piece: Piece, corners: &[u32]) -> bool
    ensures { result ≡ has_both piece corners.now }
{
    let first = has_corner(piece.a, corners);
    let second = has_corner(piece.b, corners);
    first && second
}

/// The first polygon that has both ends of the subsegment among its corners.
fn first_polygon(complex: &Complex, piece: Piece) -> Option<u32>
    ensures { result ≡ position (λ g. has_both piece g.corners) complex.now.polygons }
{
    for i in 0..complex.polygon_count() {
        if has_both(piece, complex.corners(i)) {
            return Some(i);
        }
    }
    None
}

/// Whether the facet has the polygon, by its place in the complex, from 0.
fn has_polygon(facet: &Facet, polygon: u32) -> bool
    ensures { result ≡ has_polygon polygon facet.now }
{
    facet.first <= polygon && polygon < facet.past
}

/// The first facet that has the polygon, by its place, from 0.
fn facet_of(complex: &Complex, polygon: u32) -> Option<u32>
    ensures { result ≡ position (has_polygon polygon) complex.now.facets }
{
    for k in 0..complex.facet_count() {
        if has_polygon(complex.facet(k), polygon) {
            return Some(k);
        }
    }
    None
}

/// The first facet, by its place from 0, that has the first polygon with both ends of the
/// subsegment.
pub(crate) fn first_facet(complex: &Complex, piece: Piece) -> Option<u32>
    ensures { result ≡ first_facet complex.now piece }
{
    match first_polygon(complex, piece) {
        Some(polygon) => facet_of(complex, polygon),
        None => None,
    }
}

//! A complex as arrays state it, and whether the parts that it names are there.

ghost use Rattle.std.specs.Prelude.{◌↔◌, ◌<◌, All, IsTrue};
ghost use Rattle.array_meshes.specs.Complexes.{HasParts, IsFacetThere, IsPolygonThere};

use crate::arrays::Place;

/// A polygon: its corners are those from `first` to before `past` in an array of corners.
#[repr(C)]
#[derive(Clone, Copy, Debug, PartialEq, Eq)]
pub struct Polygon {
    pub first: usize,
    pub past: usize,
}

/// A facet: its polygons are those from `first` to before `past` in an array of polygons, and the
/// points in its holes those from `first_hole` to before `past_hole` in an array of points.
#[repr(C)]
#[derive(Clone, Copy, Debug, PartialEq, Eq)]
pub struct Facet {
    pub first: usize,
    pub past: usize,
    pub marker: i64,
    pub first_hole: usize,
    pub past_hole: usize,
}

/// How the mesh of a complex is made.
#[repr(C)]
#[derive(Clone, Copy, Debug, PartialEq, Eq)]
pub struct ArrayOptions {
    /// How often the unit of the grid may be halved, for points on segments: the program's own
    /// number is 12.
    pub halvings: u32,
    /// How many points may be added on segments, at most 100,000,000.
    pub budget: u32,
    /// Whether the tetrahedra that a free path joins with the outside are kept.
    pub keep_hull: bool,
    /// Whether coplanar facets that are joined over a common side stay apart.
    pub keep_facets: bool,
    /// Whether the tetrahedra are marked by regions.
    pub regions: bool,
}

/// A complex of a caller. Corners are places of points, from 0.
#[repr(C)]
#[derive(Clone, Copy)]
pub struct ArrayComplex<'a> {
    pub points: &'a [Place],
    /// The corners of the polygons.
    pub corners: &'a [u32],
    pub polygons: &'a [Polygon],
    pub facets: &'a [Facet],
    /// Points in holes of facets: what a path in the facet, through no side, joins with one is no
    /// part of it.
    pub facet_holes: &'a [Place],
    /// Points in holes: what a free path joins with one is carved.
    pub holes: &'a [Place],
    /// Points in regions.
    pub regions: &'a [Place],
    pub options: ArrayOptions,
}

/// Whether each corner is the place of one of `count` points.
fn are_below(count: usize, corners: &[u32]) -> bool
    ensures { IsTrue result ↔ All (λ i. i < count) corners.now }
{
    for corner in corners {
        if *corner as usize >= count {
            return false;
        }
    }
    true
}

/// Whether the corners of a polygon are there, and each is the place of a point.
fn is_polygon_there(complex: &ArrayComplex<'_>, polygon: &Polygon) -> bool
    ensures { IsTrue result ↔ IsPolygonThere complex.now polygon.now }
{
    let Polygon { first, past } = *polygon;
    if first > past || past > complex.corners.len() {
        return false;
    }
    are_below(complex.points.len(), &complex.corners[first..past])
}

/// Whether these polygons are there.
fn are_polygons_there(complex: &ArrayComplex<'_>, polygons: &[Polygon]) -> bool
    ensures { IsTrue result ↔ All (IsPolygonThere complex.now) polygons.now }
{
    for polygon in polygons {
        if !is_polygon_there(complex, polygon) {
            return false;
        }
    }
    true
}

/// Whether the polygons of a facet are there, with their corners, and the points in its holes.
fn is_facet_there(complex: &ArrayComplex<'_>, facet: &Facet) -> bool
    ensures { IsTrue result ↔ IsFacetThere complex.now facet.now }
{
    let Facet {
        first,
        past,
        first_hole,
        past_hole,
        ..
    } = *facet;
    if first > past || past > complex.polygons.len() {
        return false;
    }
    if first_hole > past_hole || past_hole > complex.facet_holes.len() {
        return false;
    }
    are_polygons_there(complex, &complex.polygons[first..past])
}

/// Whether the parts of each facet are there.
pub(crate) fn has_parts(complex: &ArrayComplex<'_>) -> bool
    ensures { IsTrue result ↔ HasParts complex.now }
{
    for facet in complex.facets {
        if !is_facet_there(complex, facet) {
            return false;
        }
    }
    true
}

//! Meshes of complexes, and the options of a mesh.
use geo_laws::{FacetTriangles, Points, TetList};
use hole_carve::Marks;

/// The options of a mesh.
#[derive(Clone, Copy, Debug, PartialEq, Eq)]
pub struct MeshOptions {
    /// How often a segment may be halved on the grid: each coordinate of the points is a multiple
    /// of `2^halvings` grid units.
    pub halvings: u32,
    /// How many points may be added on segments.
    pub budget: u32,
    /// Whether the tetrahedra that a free path joins with the outside are kept; those that one
    /// joins with a hole point are always carved.
    pub keep_hull: bool,
    /// Whether facets are kept apart as they are read. Else coplanar facets that are joined over a
    /// common side are one facet, and the side is no segment.
    pub keep_facets: bool,
    /// Whether the tetrahedra are marked by regions.
    pub regions: bool,
}

/// The mesh of a complex.
#[derive(Drop)]
pub struct ComplexMesh {
    /// The points that were given, and after them those that were added on segments, in the order
    /// in which they were added.
    pub points: Points,
    /// The triangles of all facets, facet by facet, those of each facet ascending.
    pub triangles: FacetTriangles,
    /// The tetrahedra that are kept, ascending.
    pub tetrahedra: TetList,
    /// For each tetrahedron the place of its region in the complex, from 0, or none, where regions
    /// are asked for.
    pub marks: Option<Marks>,
}

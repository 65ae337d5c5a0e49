//! The points and the facet triangles, with their AABB trees.
ghost use Rattle.std.specs.Prelude.{◌^◌, ◌-◌, ◌<◌, length};
ghost use Rattle.box_tree.specs.Bodies.{IsPointTree, IsTriangleTree};
ghost use Rattle.tangle_fill.specs.Fill.{AreFacetTriangles};

use box_tree::Tree;
use geo_laws::{FacetTriangles, Points};

/// The points, whose numbers have 32 bits, the triangles of the facets on them, and the AABB trees
/// of both, for searches near a tetrahedron.
#[derive(Drop)]
pub(crate) struct IndexedComplex<'a> {
    pub(crate) points: &'a Points,
    pub(crate) triangles: &'a FacetTriangles,
    pub(crate) point_tree: Tree,
    pub(crate) triangle_tree: Tree,
    ghost few: { length points.now < 2 ^ 32 - 1 },
    ghost facets: { AreFacetTriangles points.now triangles.now },
    ghost over_points: { ∥ IsPointTree points.now point_tree ∥₁ },
    ghost over_triangles: { ∥ IsTriangleTree points.now triangles.now triangle_tree ∥₁ },
}

//! AABB trees of points, of triangles and of tetrahedra.
ghost use Rattle.std.specs.Prelude.{All, IfOk};
ghost use Rattle.box_tree.specs.Bounds.{IsTriangleOn};
ghost use Rattle.box_tree.specs.Bodies.{IsPointTree, IsRowTree, IsTriangleTree};
ghost use Rattle.geo_laws.specs.Delaunay.{IsOn};

use crate::bounds::{point_bounds, tet_bounds, triangle_bounds};
use crate::tree::{Tree, box_of, tree_of};
use geo_laws::{FacetTriangles, Points, TetList};
use std::alloc::Global;
use tet_ports::{Items, NoMemory};

/// The AABB tree of the points.
pub fn point_tree(alloc: Global, points: &Points) -> Result<Tree, NoMemory>
    ensures { IfOk result (IsPointTree points.now) }
{
    let mut boxes = Items::with_capacity(alloc, points.len())?;
    for place in 0..points.len() {
        boxes.push(box_of(point_bounds(points.at(place)), place))?;
    }
    tree_of(alloc, boxes)
}

/// The AABB tree of the triangles, whose corners are places in `points`.
pub fn triangle_tree(
    alloc: Global,
    points: &Points,
    triangles: &FacetTriangles,
) -> Result<Tree, NoMemory>
    requires { All (IsTriangleOn points.now) triangles.now }
    ensures { IfOk result (IsTriangleTree points.now triangles.now) }
{
    let mut boxes = Items::with_capacity(alloc, triangles.len())?;
    for place in 0..triangles.len() {
        boxes.push(box_of(triangle_bounds(points, triangles.at(place)), place))?;
    }
    tree_of(alloc, boxes)
}

/// The AABB tree of the tetrahedra, whose corners are places in `points`.
pub fn row_tree(alloc: Global, points: &Points, rows: &TetList) -> Result<Tree, NoMemory>
    requires { All (IsOn points.now) rows.now }
    ensures { IfOk result (IsRowTree points.now rows.now) }
{
    let mut boxes = Items::with_capacity(alloc, rows.len())?;
    for place in 0..rows.len() {
        boxes.push(box_of(tet_bounds(points, rows.at(place)), place))?;
    }
    tree_of(alloc, boxes)
}

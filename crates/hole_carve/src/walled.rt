//! A mesh with the subfaces that stop a flood fill, its adjacency, and its AABB tree.
ghost use Rattle.std.specs.Prelude.{◌≡◌, All, length, IfOk, IfSome};
ghost use Rattle.box_tree.specs.Bodies.{IsRowTree};
ghost use Rattle.geo_laws.specs.Delaunay.{IsOn};
ghost use Rattle.path_laws.specs.Places.{IsFilling};
ghost use Rattle.incidence.specs.Pairs.{pairs_of};
ghost use Rattle.hole_carve.specs.Ways.{ways_of};
ghost use Rattle.hole_carve.specs.Seeds.{IsSearchable};
ghost use Rattle.hole_carve.specs.Walled.{IsWalledBy};

use crate::ways::Ways;
use box_tree::{Tree, row_tree};
use geo_laws::{FacetTriangles, Points, TetList};
use incidence::{FaceTable, Pairs, pair_faces};
use std::alloc::Global;
use tet_ports::NoMemory;

/// For at most this many points the boxes of all tetrahedra are tested one by one: to build the
/// AABB tree costs more.
const FEW: usize = 4;

/// A mesh with subfaces: tetrahedra on points, the subfaces, through which no flood fill goes, the
/// neighbors of each tetrahedron, and the AABB tree, where there are many points to locate.
#[derive(Drop)]
pub(crate) struct Walled<'a> {
    pub(crate) points: &'a Points,
    pub(crate) list: &'a TetList,
    pub(crate) closed: FaceTable,
    pairs: Pairs,
    pub(crate) tree: Option<Tree>,
}

/// The AABB tree of the tetrahedra, where there are many points to locate.
fn tree_for(
    alloc: Global,
    points: &Points,
    list: &TetList,
    count: usize,
) -> Result<Option<Tree>, NoMemory>
    requires { All (IsOn points.now) list.now }
    ensures { IfOk result (λ tree. IfSome tree (IsRowTree points.now list.now)) }
{
    if count <= FEW {
        return Ok(None);
    }
    let tree = row_tree(alloc, points, list)?;
    Ok(Some(tree))
}

impl<'a> Walled<'a> {
    /// A mesh with the triangles as subfaces, in which `count` points are to be located.
    pub(crate) fn new(
        alloc: Global,
        points: &'a Points,
        list: &'a TetList,
        triangles: &FacetTriangles,
        count: usize,
    ) -> Result<Self, NoMemory>
        requires { IsFilling points.now triangles.now list.now }
        ensures walled { IfOk result (IsWalledBy points.now triangles.now list.now) }
        ensures searchable { IfOk result IsSearchable }
    {
        let closed = FaceTable::of_triangles(alloc, triangles)?;
        let pairs = pair_faces(alloc, list)?;
        let tree = tree_for(alloc, points, list, count)?;
        Ok(Walled {
            points,
            list,
            closed,
            pairs,
            tree,
        })
    }

    /// The adjacency of the tetrahedra across faces that are no subface.
    pub(crate) fn ways(&self) -> Ways<'_>
        requires { self.now.pairs ≡ pairs_of self.now.list.now }
        ensures same { result ≡ ways_of self.now.closed self.now.list.now }
        ensures long { length result ≡ length self.now.list.now }
    {
        Ways::new(self.list, &self.pairs, &self.closed)
    }
}

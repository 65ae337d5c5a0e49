//! The mesh that a run writes.

use geo_laws::{Complex, FacetTriangles, Points, TetList};
use grid_coords::WholePoint;
use hole_carve::Marks;
use mesh_files::{Edges, FaceRows, Faces, MarkedList};
use node_files::{Names, NodeTable};
use solver_files::{SecondMesh, WholeMesh};

/// A mesh, with the points and the complex that it is one of. Points are named by their places,
/// from 0, the added ones after the kept ones of the table.
#[derive(Drop)]
pub struct Meshed {
    /// The points of the input, equal ones folded, with their attributes and markers, and without
    /// their decimals.
    pub table: NodeTable,
    /// The points that were added.
    pub added: Points,
    /// The kept points of the input and the added ones.
    pub points: Points,
    /// For each of these points the place, from 0, by which files name it: its place in the input,
    /// and for an added one a place behind the input's points.
    pub names: Names,
    pub complex: Complex,
    /// The triangles of the facets.
    pub triangles: FacetTriangles,
    pub tetrahedra: TetList,
    /// For each tetrahedron the place of its region in the complex, from 0, if attributes are asked
    /// for.
    pub marks: Option<Marks>,
    /// How many of the kept points are corners of no tetrahedron, where they have weights.
    pub hidden: Option<usize>,
}

impl Meshed {
    ghost use Rattle.std.specs.Prelude.{◌≡◌};
    ghost use Rattle.solver_files.specs.Mesh.{mesh_of};
    ghost use Rattle.solver_files.specs.Second.{second_of};
    ghost use Rattle.run_steps.specs.Outputs.{second_in, whole_of};

    /// The mesh with these faces, as one file has it whole. Coordinates are measured from `origin`.
    pub(crate) fn whole<'a>(
        &'a self,
        origin: Option<WholePoint>,
        faces: &'a FaceRows,
    ) -> WholeMesh<'a>
        ensures { mesh_of result ≡ whole_of origin self.now faces.now }
    {
        WholeMesh {
            origin,
            table: &self.table,
            added: &self.added,
            list: &self.tetrahedra,
            marks: self.marks.as_ref(),
            complex: &self.complex,
            faces,
            names: &self.names,
        }
    }

    /// The mesh with these faces and edges, as files of second order have it.
    pub(crate) fn second<'a>(
        &'a self,
        origin: Option<WholePoint>,
        faces: &'a FaceRows,
        sides: &'a Edges,
    ) -> SecondMesh<'a>
        ensures { second_of result ≡ second_in origin self.now faces.now sides.now }
    {
        SecondMesh {
            whole: self.whole(origin, faces),
            sides,
            points: &self.points,
        }
    }

    /// Its tetrahedra, with what marks their faces.
    pub(crate) fn marked_list(&self) -> MarkedList<'_>
        ensures points { result.points.now ≡ self.now.points }
        ensures list { result.list.now ≡ self.now.tetrahedra }
        ensures complex { result.complex.now ≡ self.now.complex }
        ensures triangles { result.triangles.now ≡ self.now.triangles }
    {
        MarkedList {
            points: &self.points,
            list: &self.tetrahedra,
            complex: &self.complex,
            triangles: &self.triangles,
        }
    }
}

/// A mesh, and the faces of its hull, ascending, where they are known.
#[derive(Drop)]
pub struct HulledMesh {
    pub mesh: Meshed,
    pub hull: Option<Faces>,
}

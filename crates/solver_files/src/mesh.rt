//! A mesh as one file has it whole.
ghost use Rattle.std.specs.Prelude.{◌≡◌, ◌<◌, ◌^◌, length};
ghost use Rattle.solver_files.specs.Mesh.{mesh_of, points_of};
ghost use Rattle.solver_files.specs.Vtk.{cell_count};

use geo_laws::{Complex, Points, TetList};
use grid_coords::WholePoint;
use incidence::Marks;
use mesh_files::{FaceRows, Names};
use node_files::NodeTable;

/// A mesh as one file has it whole. Its points are those that the table lists, and the added ones
/// behind them.
#[derive(Clone, Copy)]
pub struct WholeMesh<'a> {
    /// The point from which coordinates are measured, where they are.
    pub origin: Option<WholePoint>,
    pub table: &'a NodeTable,
    pub added: &'a Points,
    pub list: &'a TetList,
    /// For each tetrahedron the region of the complex in which it lies, by its place, from 0, or
    /// none.
    pub marks: Option<&'a Marks>,
    pub complex: &'a Complex,
    pub faces: &'a FaceRows,
    /// For each corner of tetrahedra and faces its place among the points, from 0.
    pub names: &'a Names,
}

impl<'a> WholeMesh<'a> {
    /// The number of points.
    pub(crate) fn point_count(&self) -> u128
        ensures count { result ≡ length (points_of (mesh_of self.now)) }
        ensures small { result < 2 ^ 64 }
    {
        self.table.listed.len() as u128 + self.added.len() as u128
    }

    /// The number of tetrahedra and faces.
    pub(crate) fn cell_count(&self) -> u128
        ensures { result ≡ cell_count (mesh_of self.now) }
    {
        self.list.len() as u128 + self.faces.len() as u128
    }
}

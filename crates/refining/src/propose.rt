//! The trait that proposes the points of a mesh.

use complex_mesh::ComplexMesh;
use geo_laws::Points;
use std::alloc::Global;
use tet_ports::NoMemory;

/// Proposes points to add to a mesh of a complex, and points in place of those that were added. The
/// points may be any: those that may not be added are left out, and where a mesh with them is
/// refused, they are taken back.
pub trait Propose {
    /// Points that the mesh should have, whose coordinates are multiples of `2^halvings` grid
    /// units. The mesh has the points of the complex, which are the first `own`, then those that
    /// were added before, then those of protection.
    fn propose(
        &mut self,
        alloc: Global,
        mesh: &ComplexMesh,
        own: usize,
        halvings: u32,
    ) -> Result<Points, NoMemory>;

    /// All points that the mesh should have behind the first `own`, in place of those that are
    /// there, or none where these are to stay. Their coordinates are multiples of `2^halvings` grid
    /// units.
    fn improve(
        &mut self,
        alloc: Global,
        mesh: &ComplexMesh,
        own: usize,
        halvings: u32,
    ) -> Result<Option<Points>, NoMemory>;

    /// From now on points are replaced so that the least dihedral angles grow.
    fn mend(&mut self);

    /// Whether a mesh is better than another one with other points behind the first `own`. From the
    /// second call on, and from the second one after `mend`, the other one is the better one of the
    /// call before.
    fn is_better(
        &mut self,
        alloc: Global,
        mesh: &ComplexMesh,
        than: &ComplexMesh,
        own: usize,
    ) -> Result<bool, NoMemory>;
}

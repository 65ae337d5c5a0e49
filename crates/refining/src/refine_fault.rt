//! Why there is no mesh with points behind those of a complex.

use crate::add_fault::AddFault;
use complex_mesh::MeshFault;

/// Why there is no mesh with points behind those of a complex.
#[derive(Clone, Copy, Debug, PartialEq, Eq)]
pub enum RefineFault {
    /// The points may not be added.
    Points(AddFault),
    /// The complex has no mesh with the points.
    Mesh(MeshFault),
}

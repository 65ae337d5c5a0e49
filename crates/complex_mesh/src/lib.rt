//! The mesh of a complex, from points on the grid and the complex on them.
#![tactic(auto)]

mod facets;
mod fault;
mod keeping;
mod laws;
mod mesh;
mod meshing;
mod recovering;

pub use fault::MeshFault;
pub use laws::{law_no_fault, law_one_fault};
pub use mesh::{ComplexMesh, MeshOptions};
pub use meshing::{mesh_complex, protected_points};

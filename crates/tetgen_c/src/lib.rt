//! What C calls: the Delaunay list of an array of points, the mesh of a complex of arrays, points
//! of floats, and runs over texts in memory.
#![tactic(auto)]

mod arrays;
mod doubles;
mod meshes;
mod messages;
mod runs;

pub use arrays::{Rows, tetgen_delaunay, tetgen_delaunay_into};
pub use doubles::tetgen_places_of;
pub use meshes::{MeshBlocks, tetgen_mesh, tetgen_mesh_into};
pub use messages::tetgen_message;
pub use runs::{tetfit_run, tetgen_run};

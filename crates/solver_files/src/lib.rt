//! The texts of files that viewers and solvers read, each with a whole mesh: legacy VTK and Gmsh's
//! MSH 2.2; and the texts of a mesh of second order.
#![tactic(auto)]

mod attribute;
mod format;
mod laws;
mod line;
mod mesh;
mod middle;
mod msh;
mod place;
mod second_files;
mod second_laws;
mod second_mesh;
mod second_msh;
mod second_rows;
mod second_vtk;
mod vtk;

pub use format::{write_second_whole, write_whole};
pub use laws::{law_msh_text, law_vtk_text};
pub use mesh::WholeMesh;
pub use msh::write_msh;
pub use place::put_place_from_origin;
pub use second_files::{write_second_ele, write_second_face, write_second_node};
pub use second_laws::{
    law_middles, law_second_ele_text, law_second_face_text, law_second_msh_text,
    law_second_vtk_text,
};
pub use second_mesh::SecondMesh;
pub use second_msh::write_second_msh;
pub use second_vtk::write_second_vtk;
pub use vtk::write_vtk;

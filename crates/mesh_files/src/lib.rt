//! The files of a mesh: the faces of the tetrahedra with their markers, each file's text, and the
//! readers of the files of tetrahedra, faces and neighbors, exactly as their grammar says.
#![tactic(auto)]

mod counter;
mod edge;
mod ele;
mod ele_reading;
mod face;
mod face_lines;
mod face_reading;
mod faces;
mod facet_faces;
mod fault;
mod field_reading;
mod fields;
mod hull;
mod laws;
mod line;
mod markers;
mod names;
mod neigh;
mod neigh_reading;
mod piece;
mod rows;

pub use edge::write_edge;
pub use ele::write_ele;
pub use ele_reading::read_ele;
pub use face::write_face;
pub use face_lines::write_all_faces;
pub use face_reading::read_face;
pub use faces::{Faces, face_count, faces_of};
pub use fault::MeshFault;
pub use hull::hull_rows;
pub use incidence::{Edges, edges_of};
pub use laws::law_ele_text;
pub use markers::{FaceRow, FaceRows, MarkedList, face_rows, used_faces};
pub use names::Names;
pub use neigh::{neighbors_of, write_neigh};
pub use neigh_reading::{Neighbors, read_neigh};

//! Which tetrahedra have a face and which faces and edges a list of tetrahedra has: the uses of
//! faces, the tetrahedra on the other sides of faces, the edges, and a table of triangles in which
//! a face is found by the sum of its corners. Sets of segments without direction that keep the
//! order in which their members are first found, and the distinct sides of polygons.
#![tactic(auto)]

mod beginnings;
mod chains;
mod gathering;
mod half_faces;
mod links;
mod pairs;
mod polygon_sides;
mod set;
mod sides;
mod sorting;
mod table;
mod undirected;
mod uses;

pub use half_faces::{Corner, HalfFace};
pub use pairs::{Across, Marks, Pairs, pair_faces, pair_uses};
pub use polygon_sides::{Polygon, Polygons, put_sides, segments_of};
pub use set::PieceSet;
pub use sides::{Edges, edges_of};
pub use table::FaceTable;
pub use uses::{Use, Uses, use_at, uses_of};

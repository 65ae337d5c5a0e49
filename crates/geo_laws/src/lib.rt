//! Points, tetrahedra, the definitions over them, and the laws of the Delaunay list. Each law is
//! the contract of a function that does nothing.
#![tactic(auto)]

mod complex;
mod faces;
mod laws;
mod tetrahedra;

pub use complex::{
    Complex, Facet, FacetTriangle, FacetTriangles, Piece, Pieces, RatPoints, Region, Segments,
};
pub use faces::{Face, Side, face_of, row_faces, side_of, stands_before};
pub use laws::{
    law_cover, law_delaunay_list, law_hull, law_least_height, law_lift, law_nudge, law_radical,
    law_residual, law_three_term,
};
pub use tetrahedra::{Points, Tet, TetList, arranged, corners_of, numbers_of};

//! Exact signs of points on the grid: on which side of a plane a point lies, and whether it is
//! inside a sphere.
#![tactic(auto)]

mod boxes;
mod centroid;
mod entering;
mod laws;
mod lifted;
mod meeting;
mod orientation;
mod point;
mod reach;
mod sign;
mod sphere;
mod tetrahedron;
mod triangle;
mod vector;
mod volumes;
mod weighted;

pub use centroid::{normal_sign, orient_centroid, turn_centroid, turn_sign};
pub use entering::triangle_enters;
pub use laws::law_ties;
pub use lifted::{Frame, Lifted, LiftedCorners, in_lifted_sphere, lifted_outside};
pub use meeting::{segment_meets_triangle, segments_meet, spans_plane, triangles_meet};
pub use orientation::{beyond, coplanar, in_tet, orient, orient_rat, scaled_difference};
pub use point::{GridPoint, RatPoint};
pub use reach::sphere_reach;
pub use sphere::{outside, wins_tie};
pub use tetrahedron::{Corners, Hold, Numbers, Sign};
pub use vector::{Vector, from_to};
pub use weighted::{FourWeights, outside_weighted};

//! A tetrahedral mesh with the parts of its complex: neighbors, subfaces and subsegments, the
//! segments and facets on which each point lies, and which of these meet at a sharp angle; the
//! circumspheres of its tetrahedra; and the planes of its facets with the points of the grid in
//! them. Nothing but safety is proved: whether a point that is found by these numbers is taken is
//! decided elsewhere.
#![tactic(auto)]

mod basis;
mod building;
mod field;
mod mesh;
mod parts;
mod plane;
mod sharp;
mod sphere;
mod spot;
mod stars;
mod table;

pub use building::{mark, mesh_of};
pub use field::Field;
pub use mesh::{Beyond, Cell, Link, Mesh, Subface, centroid, opposite};
pub use parts::{Part, Parts, facet_of};
pub use plane::{Plane, Rung, Sixty};
pub use sharp::SharpEnds;
pub use sphere::{Sphere, center_in_plane, center_of, circumsphere, equator};
pub use spot::{
    Spot, cube_root, distance, floored, grid_point, is_in_diametral, rounded, spot_of, times,
    volume,
};
pub use table::Table;

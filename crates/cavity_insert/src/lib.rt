//! The living Delaunay mesh of a list of points, built by insertion, and its Delaunay list.
#![tactic(auto)]

mod first;
mod grow;
mod hull;
mod insert;
mod lift;
mod lifting;
mod living;
mod lost;
mod marks;
mod meshing;
mod order;
mod row_keys;
mod rows;
mod rule;
mod search;
mod sides;
mod start;
mod steps;
mod zone;

pub use grow::grow_cavity;
pub use hull::{HulledList, delaunay_with_hull};
pub use lift::Lift;
pub use living::Living;
pub use meshing::{BuildFault, delaunay, has_corner, lowest_mesh};
pub use rows::sorted_rows;
pub use rule::test_slot;
pub use steps::Steps;

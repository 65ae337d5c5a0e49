//! Axis-aligned boxes, and AABB trees, in which the boxes that meet a given one are found without a
//! test of all.
#![tactic(auto)]

mod bodies;
mod bounds;
mod curve;
mod tree;

pub use bodies::{point_tree, row_tree, triangle_tree};
pub use bounds::{
    Bounds, Interval, are_bounds_apart, joined, point_bounds, tet_bounds, triangle_bounds,
};
pub use tree::{Boxed, Node, Tree, box_of, next_meeting, past_of, tree_of};

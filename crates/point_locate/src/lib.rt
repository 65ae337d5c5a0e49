//! Point location in a living Delaunay mesh: a visibility walk over its slots, and a scan of all
//! slots where the walk does not end.
#![tactic(auto)]

mod look;
mod walk;

pub use look::{Shape, placed, row_points, shape_of};
pub use walk::{Place, locate, scan};

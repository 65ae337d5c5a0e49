//! Tetrahedra of a list by the cells that they reach into, and the first one that holds a point.
#![tactic(auto)]

mod boxes;
mod cells;
mod laws;
mod parts;
mod widths;

pub use boxes::{RowBox, Span};
pub use cells::RowCells;
pub use laws::law_reach;
pub use parts::{Axis, Cut, Cuts};

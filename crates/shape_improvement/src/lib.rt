//! Points of a tetrahedral mesh that are moved, taken out and put in so that its worst dihedral
//! angles grow. Nothing but safety is proved: whether the points are taken is decided elsewhere.
#![tactic(auto)]

mod cavity;
mod dice;
mod entering;
mod fill;
mod grade;
mod joining;
mod live;
mod moving;
mod passes;
mod polygon;
mod search;
mod sine;
mod site;
mod splitting;
mod star;
mod tally;
mod trials;
mod walk;

pub use grade::{Grade, grade_of};
pub use moving::SPARE;
pub use passes::{Aim, improve};
pub use trials::Trials;

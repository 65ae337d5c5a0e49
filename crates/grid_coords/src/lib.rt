//! The grid of a list of decimal points, and its coordinates.
#![tactic(auto)]

mod choice;
mod grid;
mod middle;
mod moving;
mod origin;
mod place;
mod points;
mod printing;
mod rounding;
mod units;

pub use choice::{choose_grid, decimals_of, most_decimals, size_of};
pub use grid::{Grid, Range};
pub use middle::midpoint;
pub use moving::moved_rounded;
pub use origin::{WholePoint, most_near, origin_of};
pub use place::{to_grid, to_rat};
pub use points::{DecimalPoint, DecimalPoints};
pub use printing::{print_from, print_grid};
pub use rounding::round_to;
pub use units::units_within;

//! The run of the program `tetgen` over a folder and two streams, within its own limits or given
//! ones.
#![tactic(auto)]

mod ends;
mod run;
mod stop;

pub use ends::finish;
pub use run::{run_tetgen, run_within};
pub use stop::Stop;

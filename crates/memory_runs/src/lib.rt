//! Runs of `tetgen` and `tetfit` over texts in memory.
#![tactic(auto)]

mod handing;
mod ran;
mod runs;
mod texts;

pub use handing::{HandedOver, RunFault};
pub use runs::{tetfit_into, tetgen_into};
pub use texts::{Slice, Task, Text};

//! Binary floats, exactly: the decimals that those of 32 bits stand for, and the whole numbers that
//! are nearest to those of 64 bits.
#![tactic(auto)]

mod decimal;
mod laws;
mod nearest;
mod place;
mod steps;

pub use decimal::float_decimal;
pub use laws::law_shortest;
pub use nearest::nearest_units;

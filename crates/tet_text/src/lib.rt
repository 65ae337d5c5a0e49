//! Lines, fields and numbers of a text.
#![tactic(auto)]

mod cuts;
mod decimal;
mod digits;
mod fault;
mod laws;
mod lines;
mod numbers;
mod plain;
mod printing;
mod wanted;

pub use decimal::{Decimal, decimal_in, lowest, read_decimal, without_trailing_zeros};
pub use digits::read_digits;
pub use fault::{TextFault, TextKind};
pub use laws::{law_fields, law_printed};
pub use lines::{Field, Fields, Lines};
pub use numbers::{read_count, read_whole};
pub use printing::{print_decimal, print_scaled};

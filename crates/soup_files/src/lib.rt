//! Readers of surfaces that are given as lists of faces: the `.off` files, and the ASCII and binary
//! `.stl` files.
#![tactic(auto)]

mod binary_stl;
mod fields;
mod laws;
mod off;
mod solids;
mod stl;
mod stl_facet;
mod surface;
mod vertex_set;

pub use binary_stl::{is_binary_stl, read_binary_stl};
pub use laws::{law_wide_off, law_wide_stl};
pub use off::{is_wide_off_word, read_off, read_wide_off};
pub use solids::read_wide_stl;
pub use stl::read_ascii_stl;

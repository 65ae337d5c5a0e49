//! A generator of candidate lists by flips, where two facets cross one tetrahedron: the crossed
//! tetrahedra are flipped, facet by facet. Nothing but safety is proved: a candidate has to be
//! checked elsewhere.
#![tactic(auto)]

mod cavity;
mod circuit;
mod entry;
mod flips;
mod frame;
mod heap;
mod local;
mod missing;
mod order;
mod sheets;
mod stop;
mod wide;

pub use entry::{FlippedList, candidate};

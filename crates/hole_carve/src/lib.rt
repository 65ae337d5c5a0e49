//! Flood fill through the faces that lie in no facet: the tetrahedra that are carved away, and
//! those of each region.
#![tactic(auto)]

mod boxes;
mod carving;
mod flood;
mod marks;
mod seeds;
mod walled;
mod ways;

pub use carving::carve;
pub use incidence::{Across, Marks, Pairs, pair_faces};
pub use marks::{kept_marks, law_kept_marks, mark_regions};

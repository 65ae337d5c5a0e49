//! Coplanar facets that are joined over common sides are one facet, and such a side is inner: the
//! search for these facets and sides, the merged complex and its segments, and the laws of merging.
#![tactic(auto)]

mod beside;
mod chains;
mod complex;
mod groups;
mod laws;
mod merging;
mod one_marker;
mod polygon;
mod segments;
mod sides;

pub use complex::merged_complex;
pub use laws::{
    law_either_hand, law_group, law_inner, law_joined_back, law_merged_bounded, law_merged_flat,
    law_one_merging, law_wall,
};
pub use merging::{Merging, merge_facets};
pub use one_marker::{law_least_number, law_one_marker};
pub use segments::merged_segments;

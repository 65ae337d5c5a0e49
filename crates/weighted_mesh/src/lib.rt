//! Weighted points, and the definition and the laws of their regular list; the weights of a point
//! list; the regular list of weighted points, by incremental insertion; and the regular mesh of a
//! point list, with the number of points that it hides.
#![tactic(auto)]

mod hidden;
mod kept;
mod laws;
mod meshing;
mod of_table;
mod reading;
mod regular_fault;
mod sites;
mod units;
mod weight_fault;
mod weighted_laws;
mod weights;

pub use laws::{law_one_answer, law_regular_list};
pub use meshing::regular;
pub use of_table::{RegularMesh, regular_mesh};
pub use regular_fault::RegularFault;
pub use weighted_laws::{
    law_no_weights, law_regular_row, law_weighted_cover, law_weighted_least_height,
    law_weighted_lift, law_weighted_radical,
};
pub use weights::Weights;

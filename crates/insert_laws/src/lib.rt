//! The laws of inserting a point: the cavity, its rim and the new point's star, the hull, and that
//! the cavity is connected. In `lowest` they are those of the lower hull of lifted points, for any
//! heights, with hidden points; here those of the Delaunay list, at the squared lengths.
#![tactic(auto)]

mod laws;
pub mod lowest;

pub use laws::{
    law_beyond_cavity, law_cone, law_face_pairing, law_first, law_hull_edge, law_hull_face,
    law_hull_rim, law_hull_turn, law_insertion, law_inside_cavity, law_locate, law_new_hull,
    law_old_hull, law_one_row, law_place, law_rim, law_rim_edge, law_same_numbers,
    law_some_rim_face, law_start, law_start_of_list,
};

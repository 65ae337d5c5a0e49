//! Constrained Delaunay triangulations, over the definitions alone: tetrahedra that fill the hull
//! face to face, have the facets as faces and are locally Delaunay across each other face are
//! admissible.
#![tactic(auto)]

mod laws;

pub use laws::{
    law_each_point, law_grown_admissible, law_hidden_corner, law_kept_piece, law_refilled_points,
    law_whole_admissible,
};

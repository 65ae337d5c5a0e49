//! Laws of a mesh in an arena: the conflict zone of a point, and what surgery makes of it. In the
//! modules `lowest` they are those of lowest tetrahedra, for any heights; here those of a Delaunay
//! mesh, at the squared lengths.
#![tactic(auto)]

mod laws;
pub mod lowest;
pub mod lowest_replaced;
pub mod lowest_rims;
mod replaced;
mod rim_laws;

pub use laws::{law_cavity, law_cut_out};
pub use replaced::{law_longer_list, law_replaced, law_same_mesh};
pub use rim_laws::{law_paired, law_placed, law_some_rim, law_somewhere};

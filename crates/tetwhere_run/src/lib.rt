//! The program `tetwhere`: its words, the files of a mesh, the answers to a list of queries, and
//! the run over a folder and two streams.
#![tactic(auto)]

mod answers;
mod centering;
mod halvings;
mod messages;
mod nearest;
mod nearest_laws;
mod reading;
mod run;
mod settling;
mod status;
mod words;

pub use nearest_laws::{law_held_corner, law_kept_point, law_moved_point};
pub use run::run_where;
pub use status::WhereStatus;

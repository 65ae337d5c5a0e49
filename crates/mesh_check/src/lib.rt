//! Checks whether a list of tetrahedra with its listed faces and neighbors is one mesh, and finds
//! the first defect; reads the files of a mesh for the check, and words the result. A mesh that
//! stands far from zero is checked too: its points are measured from the middle of their box, and
//! so fit a grid on which they would be too large from zero.
#![tactic(auto)]

mod bent;
mod centering;
mod check;
mod checking;
mod defect;
mod face_set;
mod far_checking;
mod fault;
mod laws;
mod messages;
mod moving;
mod neighbors;
mod positive;
mod reading;
mod same_side;
mod sphere;
mod stray;
mod telling;
mod unlisted;

pub use centering::{centered_points, moved_points};
pub use check::check_mesh;
pub use checking::{MOST_POINTS, check_files};
pub use defect::{Defect, Verdict};
pub use far_checking::check_far_files;
pub use fault::CheckFault;
pub use laws::law_moved;
pub use messages::{append_number, file_message, line, put_message, text_message, usage_message};
pub use positive::first_not_positive;
pub use reading::{MOST_BYTES, MeshText, read_list, read_nodes, read_rows};
pub use telling::{append_place, defect_text, sound_line};

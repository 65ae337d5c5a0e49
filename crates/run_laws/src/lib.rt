//! Laws of what is written: a mesh without a defect is positive and apart, and the files of a mesh
//! have no defect, also over the points that are read back on their least grid. Laws of whole runs:
//! what they read, the meshes that they make, the files that they leave and a later check of these,
//! the runs that end with Done, the one mesh of an input, and worked runs, byte for byte.
#![tactic(auto)]

mod checked_runs;
mod complete_checks;
mod complete_points;
mod constrained_meshes;
mod fit_runs;
mod inputs;
mod least_grids;
mod measured;
mod reread;
mod rounded;
mod single_answers;
mod sound;
mod sound_meshes;
mod sound_runs;
mod valid_complexes;
mod worked;
mod written_meshes;

pub use checked_runs::{law_checked_after, law_checked_run, law_few_decimals};
pub use complete_checks::{law_check_complete, law_where_complete};
pub use complete_points::{law_points_complete, law_weights_complete};
pub use constrained_meshes::{law_constrained_mesh, law_constrained_once, law_one_mesh};
pub use fit_runs::law_fit_as_tetgen;
pub use inputs::{law_nodes_read, law_plc_read, law_surface_read};
pub use least_grids::{law_fits, law_reread, law_same_signs, law_settles};
pub use measured::law_written_back;
pub use reread::{
    law_checked_back, law_ele_read, law_face_read, law_listed, law_neigh_read, law_node_read,
    law_read_back,
};
pub use rounded::{law_multiple_near, law_rounded_near};
pub use single_answers::{law_one_fit, law_one_left, law_one_meshed, law_one_outputs, law_one_run};
pub use sound::{law_apart, law_sound};
pub use sound_meshes::{law_sound_complex, law_sound_points};
pub use sound_runs::{law_sound_left, law_sound_outputs, law_sound_run};
pub use valid_complexes::{law_valid_complex, law_valid_run};
pub use worked::{law_complex_pyramid, law_full_pyramid, law_nonplanar, law_pyramid};
pub use written_meshes::{law_kept_apart, law_larger_unit, law_renamed, law_written};

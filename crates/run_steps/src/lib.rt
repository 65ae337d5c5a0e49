//! The steps of a run of the program: reading the input, meshing it, storing the texts, and the
//! statuses in which a run ends.
#![tactic(auto)]

mod format_files;
mod input;
mod line_parts;
mod mesh;
mod meshed;
mod numbering;
mod outputs;
mod put;
mod report;
mod second_outputs;
mod status;
mod store;

pub use input::{ComplexFile, Fetched, Input, fetch, read_input, with_points};
pub use mesh::{Bound, bind_input, bind_nodes, complex_meshed, mesh_outputs, protected_points};
pub use meshed::{HulledMesh, Meshed};
pub use numbering::{Numbering, number_by, numbering_of};
pub use outputs::{Outputs, outputs_of};
pub use put::put_unwritten;
pub use report::{Report, Summary, append_counted, text_of};
pub use status::{LimitKind, Status, message};
pub use store::{NamedText, NamedTexts, StoreStop, Texts, store_all};

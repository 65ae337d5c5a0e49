//! Point lists, the `.node` files.
#![tactic(auto)]

mod fault;
mod folding;
mod grid;
mod grid_fault;
mod grid_laws;
mod header;
mod least;
mod limits;
mod node_text;
mod point;
mod reading;
mod rounding;
mod settling;
mod settling_least;
mod table;
mod terms;
mod writing;

pub use fault::NodeFault;
pub use folding::names_of;
pub use grid_fault::GridFault;
pub use grid_laws::{law_terms, law_units};
pub use header::{count_or, count_within};
pub use least::least_grid;
pub use limits::Limits;
pub use node_text::{Markers, NodeText};
pub use point::read_place;
pub use reading::{read_node, read_node_list};
pub use rounding::{each_measured_from, measured_from, rounded_point};
pub use settling::settle;
pub use settling_least::{grid_points, settle_least};
pub use table::{GridOptions, Names, NodeTable};
pub use writing::{write_node, write_node_from};

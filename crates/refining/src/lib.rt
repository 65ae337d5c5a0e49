//! Points that may be added behind those of a complex, the mesh of the complex with them, and such
//! meshes made again and again, with more and more points.
#![tactic(auto)]

mod add_fault;
mod addable;
mod behind;
mod conforming;
mod corners;
mod counts;
mod goal;
mod meshable;
mod meshing;
mod multiples;
mod outputs;
mod part;
mod placing;
mod plain;
mod progress;
mod propose;
mod quality;
mod refine_fault;
mod refining;
mod repeats;
mod watch;
mod worst;

pub use counts::Counts;
pub use goal::{Goal, Shape, ShapeBounds, shape_bounds};
pub use meshable::law_meshable;
pub use outputs::{conforming_outputs, refined_outputs};
pub use plain::law_plain;
pub use propose::Propose;
pub use quality::Quality;
pub use refining::{Bounds, Refined};
pub use watch::{Frame, Round, Watch};
pub use worst::{LargeRatio, SmallAngle, Worst};

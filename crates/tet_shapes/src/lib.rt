//! How slim, flat and large the tetrahedra of a list are, exactly, which point of a list is nearest
//! to a segment, and which segment meets it at the smallest angle.
#![tactic(auto)]

mod angle;
mod bounds;
mod count;
mod laws;
mod narrow;
mod nearest;
mod shape;
mod vector;
mod volume;
mod wide;
mod worst;

pub use angle::squared_cosine;
pub use bounds::{VolumeBounds, mark_at, volume_bounds};
pub use count::{count_flat, count_large, count_slim};
pub use laws::{law_circumcenter, law_radius, law_slim};
pub use narrow::{Corner, NarrowCorner, narrowest};
pub use nearest::{Near, near_of};
pub use shape::{Ratio, is_large, is_slim, is_slim_at};
pub use worst::{GreatestRatio, LeastAngle, greatest_ratio, least_angle};

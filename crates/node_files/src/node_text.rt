//! A point list as its text states it.

use grid_coords::DecimalPoints;
use tet_ports::{Items, Words};

/// A list of markers, one for each point.
pub type Markers = Items<i64>;

/// A point list as its text states it. The attributes are listed point by point, `attribute_count`
/// for each, as they are written; there is a marker for each point where `flag` is set, and else
/// none.
#[derive(Debug, Drop)]
pub struct NodeText {
    /// The number of the first point, 0 or 1.
    pub first: u32,
    /// How many attributes each point has, at most 100.
    pub attribute_count: u32,
    /// Whether each point has a marker.
    pub flag: bool,
    pub decimals: DecimalPoints,
    pub attributes: Words,
    pub markers: Markers,
}

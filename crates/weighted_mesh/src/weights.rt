//! Lists of weights.
use tet_ports::Items;

/// The weights of a list of points, one for each, in squares of grid units.
pub type Weights = Items<i64>;

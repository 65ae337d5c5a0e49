//! Grids, and what does not fit one.

/// A grid. Its unit is 1 / (10^`decimals` × 2^`halvings`).
#[derive(Clone, Copy, Debug, PartialEq, Eq)]
pub struct Grid {
    pub decimals: u32,
    pub halvings: u32,
}

/// A point has a coordinate that is too large for the grid; the line that states the point, from 1.
#[derive(Clone, Copy, Debug, PartialEq, Eq)]
pub struct Range {
    pub line: usize,
}

//! A point list on a grid, and the options by which the grid is chosen.

use crate::Markers;
use geo_laws::Points;
use grid_coords::{DecimalPoints, Grid};
use tet_ports::{Items, Words};

/// The options by which points are put on a grid.
#[derive(Clone, Copy, Debug, PartialEq, Eq)]
pub struct GridOptions {
    /// The number of decimals to which each coordinate is rounded first, if any.
    pub decimals: Option<u32>,
    /// The most halvings of the grid's unit.
    pub halvings: u32,
}

/// A list of names: places in the point list of a file, from 0, added points behind those of the
/// file.
pub type Names = Items<u32>;

/// A point list on a grid, where equal points are folded: `points` has the first point of each
/// place. The attributes and markers are as in the list's text; there is a listed point for each
/// decimal point.
#[derive(Debug, Drop)]
pub struct NodeTable {
    /// The number of the first point, 0 or 1.
    pub first: u32,
    /// How many attributes each listed point has, at most 100.
    pub attribute_count: u32,
    /// Whether each listed point has a marker.
    pub flag: bool,
    /// The listed points, rounded where that was asked for.
    pub decimals: DecimalPoints,
    pub attributes: Words,
    pub markers: Markers,
    pub grid: Grid,
    /// All points of the text, in units of the grid.
    pub listed: Points,
    /// The listed points that are equal to no earlier one, in order.
    pub points: Points,
    /// For each of `points` its place in `listed`, from 0.
    pub names: Names,
    /// For each of `listed` the place, from 0, of the one of `points` that is equal to it.
    pub folded: Names,
}

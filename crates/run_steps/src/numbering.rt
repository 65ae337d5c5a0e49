//! The numbers of points in messages.

ghost use Rattle.std.specs.Prelude.{◌≡◌, ◌<◌, ◌^◌, length, IfOk};
ghost use Rattle.run_steps.specs.Numbering.{numbering_of, told_number, number_by};

use node_files::{Names, NodeTable};
use std::alloc::Global;
use tet_ports::NoMemory;

/// The numbers of points in messages. A run names points by their places, from 0: the kept points
/// of the input, and the added ones behind them.
#[derive(Debug, Drop)]
pub struct Numbering {
    /// For each kept point its place in the input, from 0.
    pub names: Names,
    /// How many points the input has; the added ones are numbered behind them.
    pub listed: u32,
    /// The number of the input's first point.
    pub first: u32,
}

/// The numbers of a table's points and of those that are added to them.
pub fn numbering_of(alloc: Global, table: &NodeTable) -> Result<Numbering, NoMemory>
    requires { length table.now.listed < 2 ^ 32 }
    ensures { IfOk result (λ by. by ≡ numbering_of table.now) }
{
    let mut names = Names::with_capacity(alloc, table.names.len())?;
    names.extend_from_slice(table.names.as_slice())?;
    Ok(Numbering {
        names,
        listed: table.listed.len() as u32,
        first: table.first,
    })
}

/// The number of a point; its place where there is no numbering.
pub(crate) fn number_of(by: &Option<Numbering>, point: u32) -> usize
    ensures { result ≡ told_number by.now point }
{
    match by {
        Some(by) => number_by(by, point),
        None => point as usize,
    }
}

/// The number of a point: a kept one has that of its place in the input, an added one a number
/// behind all those of the input.
pub fn number_by(by: &Numbering, point: u32) -> usize
    ensures { result ≡ number_by by.now point }
{
    let place = point as usize;
    let count = by.names.len();
    let name = if place < count {
        by.names.at(place) as usize
    } else {
        by.listed as usize + (place - count)
    };
    name + by.first as usize
}

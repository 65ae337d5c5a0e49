//! Equal points, taken as one.

ghost use Rattle.std.specs.Prelude.{◌≡◌, ◌+◌, ◌-◌, ◌<◌, ◌^◌, length, IfOk};
ghost use Rattle.node_files.specs.Folding.{IsFolded, names_with};

use crate::{Names, NodeTable};
use geo_laws::Points;
use sign_predicates::GridPoint;
use std::alloc::Global;
use std::collections::HashMap;
use tet_ports::NoMemory;

/// The points of a list without those that are equal to an earlier one. `names` has the place of
/// each kept point in the list; `folded` has for each point of the list the place of the kept point
/// that is equal to it.
#[derive(Drop)]
pub(crate) struct Folding {
    pub points: Points,
    pub names: Names,
    pub folded: Names,
}

/// The coordinates of a point.
fn coordinates(p: GridPoint) -> (i32, i32, i32)
    ensures { result ≡ (p.x, p.y, p.z) }
{
    (p.x, p.y, p.z)
}

/// Folds the equal points of a list: a point with the coordinates of an earlier one is left out.
pub(crate) fn fold_points(alloc: Global, listed: &Points) -> Result<Folding, NoMemory>
    requires { length listed.now < 2 ^ 32 }
    ensures { IfOk result (λ made. IsFolded listed.now made.points made.names made.folded) }
{
    let mut places = HashMap::with_capacity(alloc, listed.len())?;
    let mut points = Points::with_capacity(alloc, listed.len())?;
    let mut names = Names::with_capacity(alloc, listed.len())?;
    let mut folded = Names::with_capacity(alloc, listed.len())?;
    for i in 0..listed.len() {
        let p = listed.at(i);
        let new = points.len() as u32;
        match places.insert(coordinates(p), new)? {
            None => {
                points.push(p)?;
                names.push(i as u32)?;
                folded.push(new)?;
            }
            Some(place) => {
                places.insert(coordinates(p), place)?;
                folded.push(place)?;
            }
        }
    }
    Ok(Folding {
        points,
        names,
        folded,
    })
}

/// The names of a table's points and of `added` points behind them: for a point of the table its
/// place in `listed`, and for the added ones the numbers behind all of `listed`.
pub fn names_of(alloc: Global, table: &NodeTable, added: u32) -> Result<Names, NoMemory>
    requires { length table.now.listed + added < 2 ^ 32 - 1 }
    ensures { IfOk result (λ names. names ≡ names_with table.now added) }
{
    let past = table.listed.len() as u32;
    let mut names = Names::with_capacity(alloc, table.names.len() + added as usize)?;
    names.extend_from_slice(table.names.as_slice())?;
    for i in 0..added {
        names.push(past + i)?;
    }
    Ok(names)
}

//! The proposed points that may be added.

use geo_laws::Points;
use sign_predicates::GridPoint;
use std::alloc::Global;
use std::collections::HashSet;
use tet_ports::NoMemory;

/// Whether each coordinate of the point is a multiple of `unit` grid units.
fn is_multiple(unit: u32, p: GridPoint) -> bool {
    unit > 0
        && p.x.unsigned_abs() % unit == 0
        && p.y.unsigned_abs() % unit == 0
        && p.z.unsigned_abs() % unit == 0
}

/// The points that were added before, and behind them the proposed points that may be added: new
/// ones, all with coordinates that are multiples of `2^halvings` units, up to `most` points in all.
/// The function has no contract; `with_points` tests the points before they are meshed.
pub(crate) fn addable(
    alloc: Global,
    points: &Points,
    added: &Points,
    proposed: &Points,
    halvings: u32,
    most: usize,
) -> Result<Points, NoMemory> {
    let unit = 1_u32.wrapping_shl(halvings);
    let mut known = HashSet::new(alloc);
    for i in 0..points.len() {
        let p = points.at(i);
        known.insert((p.x, p.y, p.z))?;
    }
    let mut more = Points::new(alloc);
    for i in 0..added.len() {
        let p = added.at(i);
        if is_multiple(unit, p) {
            known.insert((p.x, p.y, p.z))?;
            more.push(p)?;
        }
    }
    for i in 0..proposed.len() {
        let p = proposed.at(i);
        if more.len() < most && is_multiple(unit, p) && known.insert((p.x, p.y, p.z))? {
            more.push(p)?;
        }
    }
    Ok(more)
}

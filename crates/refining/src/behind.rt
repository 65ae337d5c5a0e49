//! A list of points with more of them behind.

ghost use Rattle.std.specs.Prelude.{◌≡◌, ◌≤◌, ◌<◌, ◌+◌, ◌^◌, ◌++◌, length, IfOk, MatchResult};
ghost use Rattle.refining.specs.Addable.{IsJoined, IsAddFault};

use crate::add_fault::AddFault;
use crate::multiples::{first_coarse, unit_of};
use crate::repeats::first_repeated;
use geo_laws::Points;
use std::alloc::Global;
use tet_ports::NoMemory;

/// The points of both lists, `more` behind `points`.
fn joined(alloc: Global, points: &Points, more: &Points) -> Result<Points, NoMemory>
    requires { length points.now + length more.now < 2 ^ 63 }
    ensures { IfOk result (λ all. all ≡ points.now ++ more.now) }
{
    let mut all = Points::with_capacity(alloc, points.len() + more.len())?;
    all.extend_from_slice(points.as_slice())?;
    all.extend_from_slice(more.as_slice())?;
    Ok(all)
}

/// Appends new points whose coordinates can be halved `halvings` times. It refuses with the first
/// of these: there would be more points than allowed; a coordinate of a new point cannot be halved
/// that often; two points are equal; or when out of memory.
pub fn with_points(
    alloc: Global,
    points: &Points,
    more: &Points,
    halvings: u32,
    most: usize,
) -> Result<Points, AddFault>
    requires halvings { halvings ≤ 23 }
    requires most { most < 2 ^ 32 }
    ensures { MatchResult result (IsJoined halvings most points.now more.now)
        (IsAddFault halvings most points.now more.now) }
{
    let count = points.len() + more.len();
    if count > most {
        return Err(AddFault::TooMany { count, most });
    }
    match first_coarse(unit_of(halvings), more) {
        None => {}
        Some(place) => return Err(AddFault::Coarse { place }),
    }
    let all = joined(alloc, points, more)?;
    match first_repeated(alloc, &all)? {
        None => Ok(all),
        Some(place) => Err(AddFault::Repeated { place }),
    }
}

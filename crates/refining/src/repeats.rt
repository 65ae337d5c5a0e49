//! Points that repeat earlier ones.

ghost use Rattle.std.specs.Prelude.{◌≡◌, ◌<◌, ◌^◌, length, MatchOption, IfOk};
ghost use Rattle.geo_laws.specs.Delaunay.{HasDistinctPoints};
ghost use Rattle.refining.specs.Addable.{IsFirstRepeated};

use geo_laws::Points;
use sign_predicates::GridPoint;
use std::alloc::Global;
use std::collections::HashMap;
use tet_ports::NoMemory;

/// The coordinates of a point.
fn coordinates(p: GridPoint) -> (i32, i32, i32)
    ensures { result ≡ (p.x, p.y, p.z) }
{
    (p.x, p.y, p.z)
}

/// The place, from 0, of the first point that is equal to an earlier one.
pub(crate) fn first_repeated(alloc: Global, points: &Points) -> Result<Option<usize>, NoMemory>
    requires { length points.now < 2 ^ 32 }
    ensures { IfOk result (λ found. MatchOption found (HasDistinctPoints points.now)
        (IsFirstRepeated points.now)) }
{
    let mut places = HashMap::with_capacity(alloc, points.len())?;
    for i in 0..points.len() {
        let p = points.at(i);
        match places.insert(coordinates(p), i as u32)? {
            None => {}
            Some(_) => return Ok(Some(i)),
        }
    }
    Ok(None)
}

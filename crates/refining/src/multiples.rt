//! Points whose coordinates may be halved.

ghost use Rattle.std.specs.Prelude.{◌≡◌, ◌<◌, ◌≤◌, ◌^◌, true, MatchOption};
ghost use Rattle.refining.specs.Addable.{is_multiple, AreMultiples, IsFirstCoarse};

use geo_laws::Points;
use sign_predicates::GridPoint;

/// The number of grid units, `2^halvings`, that can be halved `halvings` times.
pub(crate) fn unit_of(halvings: u32) -> u32
    requires { halvings ≤ 23 }
    ensures is { result ≡ 2 ^ halvings }
    ensures some { 0 < result }
{
    2_u32.pow(halvings)
}

/// Whether each coordinate of the point is a multiple of `unit` grid units.
fn is_multiple(unit: u32, p: GridPoint) -> bool
    requires { 0 < unit }
    ensures { result ≡ is_multiple unit p }
{
    p.x.unsigned_abs() % unit == 0
        && p.y.unsigned_abs() % unit == 0
        && p.z.unsigned_abs() % unit == 0
}

/// The place, from 0, of the first point with a coordinate that is no multiple of `unit` grid
/// units.
pub(crate) fn first_coarse(unit: u32, points: &Points) -> Option<usize>
    requires { 0 < unit }
    ensures { MatchOption result (AreMultiples unit points.now) (IsFirstCoarse unit points.now) }
{
    for i in 0..points.len() {
        if !is_multiple(unit, points.at(i)) {
            return Some(i);
        }
    }
    None
}

//! One point into a mesh of lifted points.
ghost use Rattle.std.specs.Prelude.{◌≡◌, ℕ, ◌<◌, ◌∷◌, List, length, IfOk, IfSome, IfNone, OnOk};
ghost use Rattle.mesh_arena.specs.Mesh.{IsLive};
ghost use Rattle.geo_laws.specs.Delaunay.{point};
ghost use Rattle.mesh_laws.specs.LowestLaws.{slot_of};
ghost use Rattle.mesh_laws.specs.LowestLiving.{IsLowestMesh};
ghost use Rattle.cavity_insert.specs.Insert.{IsReadyFor};
ghost use Rattle.cavity_insert.specs.Growth.{IsCavityOf};

use crate::grow::Growth;
use crate::lift::Lift;
use crate::search::Search;
use crate::steps::Steps;
use crate::zone::Zone;
use geo_laws::Points;
use mesh_arena::{Arena, Slot};
use point_locate::{Place, locate};
use sign_predicates::GridPoint;
use std::sync::ledger::Ledger;
use tet_ports::NoMemory;

/// Grows the cavity of a new point, by its number, in the mesh of other lifted points. A hidden
/// point has no cavity: the answer is then the slot of the tetrahedron that holds it. The walk to
/// the point begins at `near`, a live slot.
pub(crate) fn grow_at<H: Lift, L: Ledger>(
    arena: &Arena,
    lift: &H,
    number: u32,
    near: Slot,
    growth: &mut Growth,
    steps: &mut Steps<L>,
) -> Result<Option<Slot>, NoMemory>
    requires ready { (ms : List ℕ) × IsReadyFor (H.heights lift.now) arena.now.slots
        (H.points lift.now) ms number }
    requires near { IsLive arena.now.slots near.index }
    ensures hidden { IfOk result (λ found. IfSome found (λ s. (ms : List ℕ)
        → IsReadyFor (H.heights lift.now) arena.now.slots (H.points lift.now) ms number
        → IsLowestMesh (H.heights lift.now) arena.now.slots (H.points lift.now) (number ∷ ms))) }
    ensures live { IfOk result (λ found. IfSome found (λ s. IsLive arena.now.slots s.index)) }
    ensures grown { IfOk result (λ found. IfNone found (IsCavityOf (H.heights lift.now)
        arena.now.slots (H.points lift.now) number growth.new.cavity growth.new.rim)) }
{
    let _ = arena.tet(near);
    let points = lift.points();
    let p = point_at(points, number);
    let first = slot_of(locate(arena, points, near, p));
    let search = Search::new(arena, lift, number);
    if !search.test(first) {
        return Ok(Some(first));
    }
    growth.begin(first);
    growth.grow(&search, steps)?;
    Ok(None)
}

/// Inserts a point, by its number, into the mesh of other lifted points: its star replaces its
/// cavity, by which points may become hidden. Where the point itself is hidden the mesh stays as it
/// is. The answer is a live slot. The walk to the point begins at `near`, a live slot. On
/// `NoMemory` the mesh is as it was.
pub(crate) fn insert_point<H: Lift, L: Ledger>(
    arena: &mut Arena,
    lift: &H,
    number: u32,
    near: Slot,
    growth: &mut Growth,
    steps: &mut Steps<L>,
) -> Result<Slot, NoMemory>
    requires ready { (ms : List ℕ) × IsReadyFor (H.heights lift.now) arena.old.slots
        (H.points lift.now) ms number }
    requires near { IsLive arena.old.slots near.index }
    ensures mesh { IfOk result (λ s. (ms : List ℕ)
        → IsReadyFor (H.heights lift.now) arena.old.slots (H.points lift.now) ms number
        → IsLowestMesh (H.heights lift.now) arena.new.slots (H.points lift.now) (number ∷ ms)) }
    ensures live { IfOk result (λ s. IsLive arena.new.slots s.index) }
{
    if let Some(s) = grow_at(arena, lift, number, near, growth, steps)? {
        return Ok(s);
    }
    arena.reserve(growth.rim.len())?;
    arena.replace_cavity(growth.cavity.as_cavity(), &growth.rim, number)
}

/// The point with this number.
pub(crate) fn point_at(points: &Points, number: u32) -> GridPoint
    requires { number < length points.now }
    ensures { result ≡ point points.now number }
{
    points.at(number as usize)
}

/// The slot of a place.
fn slot_of(place: Place) -> Slot
    ensures { result.index ≡ slot_of place }
{
    match place {
        Place::Inside(s) | Place::Beyond(s) => s,
    }
}

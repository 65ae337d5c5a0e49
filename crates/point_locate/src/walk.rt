//! The walk to a point, and the scan of all slots.
ghost use Rattle.std.specs.Prelude.{MatchOption};
ghost use Rattle.mesh_arena.specs.Mesh.{IsLive};
ghost use Rattle.point_locate.specs.Place.{AreCornersOn, IsPlace, IsSomePlace};

use crate::look::{Look, look_at};
use geo_laws::Points;
use mesh_arena::{Arena, Slot};
use sign_predicates::GridPoint;

/// Where a point lies in a mesh.
#[derive(Clone, Copy, Debug, PartialEq, Eq)]
pub enum Place {
    /// The closed tetrahedron of this slot holds the point.
    Inside(Slot),
    /// The point is strictly beyond the hull face of this ghost.
    Beyond(Slot),
}

/// The place of the point `p` in the mesh, found by a walk from the live slot `start`: from a
/// tetrahedron through a face that `p` is strictly beyond, and from a ghost through its hull face.
/// The walk takes at most as many steps as there are slots; where it does not end by then, all
/// slots are scanned. It takes no memory. The corners are places in `points`, from 0, and
/// coordinates are in grid units.
///
/// That some slot is the point's place is asked of the caller (`somewhere`): the mesh may be any,
/// also one with gaps. In a Delaunay mesh with all its ghosts each point has a place, as
/// `cavity_insert` proves where it inserts one.
///
/// Source: the visibility walk (Devillers, Pion and Teillaud, 2002). It ends in a Delaunay mesh.
pub fn locate(arena: &Arena, points: &Points, start: Slot, p: GridPoint) -> Place
    requires start { IsLive arena.now.slots start.index }
    requires corners { AreCornersOn arena.now.slots points.now }
    requires somewhere { IsSomePlace arena.now.slots points.now p }
    ensures { IsPlace arena.now.slots points.now p result }
{
    let mut at = start;
    let mut entry = 0;
    for _ in 0..arena.slots() {
        match look_at(points, arena.tet(at), entry, p) {
            Look::Inside => return Place::Inside(at),
            Look::Beyond => return Place::Beyond(at),
            Look::Out(face) => match arena.across(at, face) {
                Some(next) => {
                    at = next.slot;
                    entry = next.face;
                }
                None => break,
            },
        }
    }
    let Some(place) = scan(arena, points, p) else {
        unreachable!();
    };
    place
}

/// The place of the point by a scan of all slots; None where it is in no closed tetrahedron and
/// beyond no hull face.
pub fn scan(arena: &Arena, points: &Points, p: GridPoint) -> Option<Place>
    requires { AreCornersOn arena.now.slots points.now }
    ensures { MatchOption result (IsSomePlace arena.now.slots points.now p → ⊥)
        (IsPlace arena.now.slots points.now p) }
{
    for i in 0..arena.slots() {
        if let Some(s) = arena.slot(i) {
            match look_at(points, arena.tet(s), 0, p) {
                Look::Inside => return Some(Place::Inside(s)),
                Look::Beyond => return Some(Place::Beyond(s)),
                Look::Out(_) => {}
            }
        }
    }
    None
}

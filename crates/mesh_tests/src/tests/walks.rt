//! Points in and round one tetrahedron, and two.
ghost use Rattle.std.specs.Prelude.{IsTrue};
ghost use Rattle.mesh_arena.specs.Mesh.{IsLive, corner_list};
ghost use Rattle.point_locate.specs.Place.{IsCornerOn, AreOn, AreCornersOn};

use crate::tests::slots::{GHOST, arena_of, linked_arena};
use crate::tests::small_sets::{grid_point, points_of};
use geo_laws::Points;
use mesh_arena::{Arena, Corner, Slot, SlotCorners};
use point_locate::{Place, locate, scan};
use sign_predicates::GridPoint;
use std::test::Fail;

fn is_on(points: &Points, corner: Corner) -> bool
    ensures { IsTrue result → IsCornerOn points.now corner }
{
    match corner {
        Corner::Point(i) => (i as usize) < points.len(),
        Corner::Ghost => true,
    }
}

fn are_on(points: &Points, t: SlotCorners) -> bool
    ensures { IsTrue result → AreOn points.now (corner_list t) }
{
    is_on(points, t.a) && is_on(points, t.b) && is_on(points, t.c) && is_on(points, t.d)
}

fn are_corners_on(arena: &Arena, points: &Points) -> bool
    ensures { IsTrue result → AreCornersOn arena.now.slots points.now }
{
    for i in 0..arena.slots() {
        if let Some(s) = arena.slot(i) {
            if !are_on(points, arena.tet(s)) {
                return false;
            }
        }
    }
    true
}

// The place of a point, by the place of its slot in the arena.
#[derive(Clone, Copy, PartialEq, Eq)]
enum SlotPlace {
    Inside(u32),
    Beyond(u32),
}

// Where a point is found from the slot at a place, if it is somewhere.
fn found_from(arena: &Arena, points: &Points, start: usize, p: GridPoint) -> Option<SlotPlace>
    requires { AreCornersOn arena.now.slots points.now }
{
    if start >= arena.slots() {
        return None;
    }
    match found(arena, points, arena.slot(start)?, p)? {
        Place::Inside(s) => Some(SlotPlace::Inside(s.index)),
        Place::Beyond(s) => Some(SlotPlace::Beyond(s.index)),
    }
}

// Where a point is found from a slot, if it is somewhere.
fn found(arena: &Arena, points: &Points, start: Slot, p: GridPoint) -> Option<Place>
    requires start { IsLive arena.now.slots start.index }
    requires corners { AreCornersOn arena.now.slots points.now }
{
    match scan(arena, points, p) {
        Some(_) => Some(locate(arena, points, start, p)),
        None => None,
    }
}

// A point, and its place.
type PlaceCase = ([i8; 3], SlotPlace);

// The first point that is found elsewhere from the slot at a place; or where a corner is no point,
// the first one.
fn other_place(
    arena: &Arena,
    points: &Points,
    start: usize,
    cases: &[PlaceCase],
) -> Option<[i8; 3]> {
    let are_on = are_corners_on(arena, points);
    for (p, want) in cases {
        if !are_on || found_from(arena, points, start, grid_point(*p)) != Some(*want) {
            return Some(*p);
        }
    }
    None
}

// The points of the tetrahedron.
const CORNER: [[i8; 3]; 4] = [[0, 0, 0], [4, 0, 0], [0, 4, 0], [0, 0, 4]];

// A tetrahedron and its ghosts. Each ghost is positive where a point strictly beyond its face
// stands for infinity.
const ONE: [[u32; 4]; 5] = [
    [0, 1, 2, 3],
    [1, 2, 3, GHOST],
    [GHOST, 0, 2, 3],
    [0, 1, 3, GHOST],
    [0, GHOST, 2, 1],
];

static PLACES_IN_ONE: [PlaceCase; 7] = [
    ([1, 1, 1], SlotPlace::Inside(0)),
    ([0, 0, 0], SlotPlace::Inside(0)),
    ([0, 2, 2], SlotPlace::Inside(0)),
    ([2, 2, 2], SlotPlace::Beyond(1)),
    ([-1, 1, 1], SlotPlace::Beyond(2)),
    ([1, -1, 1], SlotPlace::Beyond(3)),
    ([1, 1, -1], SlotPlace::Beyond(4)),
];

#[test]
fn points_in_and_round_a_tetrahedron(rt: HostRuntime) -> Result<(), Fail> {
    let points = points_of(rt.alloc(), &[&CORNER])?;
    let arena = arena_of(rt.alloc(), &ONE)?;
    assert_eq!(rt; other_place(&arena, &points, 0, &PLACES_IN_ONE), None);
    Ok(())
}

// Two tetrahedra with a common face, and the ghosts round them.
const TWO: [[u32; 4]; 8] = [
    [0, 1, 2, 3],
    [4, 2, 1, 3],
    [GHOST, 0, 2, 3],
    [0, 1, 3, GHOST],
    [0, GHOST, 2, 1],
    [4, GHOST, 3, 1],
    [2, 4, GHOST, 3],
    [2, 4, 1, GHOST],
];

// Whether each face of each slot has a neighbor.
fn are_linked(arena: &Arena) -> bool {
    for i in 0..arena.slots() {
        if let Some(s) = arena.slot(i) {
            for face in 0..4u8 {
                if arena.neighbor(s, face).is_none() {
                    return false;
                }
            }
        }
    }
    true
}

static PLACES_IN_TWO: [PlaceCase; 10] = [
    ([1, 1, 1], SlotPlace::Inside(0)),
    ([0, 0, 1], SlotPlace::Inside(0)),
    ([2, 2, 2], SlotPlace::Inside(1)),
    ([3, 3, 4], SlotPlace::Inside(1)),
    ([-1, 1, 1], SlotPlace::Beyond(2)),
    ([1, 1, -1], SlotPlace::Beyond(4)),
    ([1, -1, 1], SlotPlace::Beyond(3)),
    ([4, 1, 4], SlotPlace::Beyond(5)),
    ([1, 4, 4], SlotPlace::Beyond(6)),
    ([4, 4, 1], SlotPlace::Beyond(7)),
];

// From each slot to a point in each tetrahedron, and to one strictly beyond each hull face.
#[test]
fn walks_through_linked_slots(rt: HostRuntime) -> Result<(), Fail> {
    let points = points_of(rt.alloc(), &[&CORNER, &[[4, 4, 4]]])?;
    let arena = linked_arena(rt.alloc(), &TWO)?;
    assert!(rt; are_linked(&arena));
    for start in 0..TWO.len() {
        assert!(rt;
            other_place(&arena, &points, start, &PLACES_IN_TWO).is_none(),
            "{start}"
        );
    }
    Ok(())
}

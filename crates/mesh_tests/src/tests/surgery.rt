//! Surgery on the mesh of a cube, by hand.
ghost use Rattle.std.specs.Prelude.{◌≡◌, ◌≢◌, ℕ, ◌<◌, [], ◌∷◌, IsTrue, IfOk, IfSome, slice_index_or};
ghost use Rattle.mesh_arena.specs.declared.slot.Corner.TheVariants.{Ghost};
ghost use Rattle.mesh_arena.specs.Mesh.{IsLive, corner_list};

use crate::tests::slots::{GHOST, linked_arena, slot_corners};
use mesh_arena::{Arena, Cavity, Corner, Rim, RimFace, Slot, SlotCorners};
use std::alloc::Global;
use std::test::Fail;
use tet_ports::NoMemory;

// Whether no corner is x.
fn lacks(t: SlotCorners, x: Corner) -> bool
    ensures { IsTrue result → (k : ℕ) → k < 4 → slice_index_or (corner_list t) k Ghost ≢ x }
{
    t.a != x && t.b != x && t.c != x && t.d != x
}

fn one_slot(alloc: Global, s: Slot) -> Result<Cavity, NoMemory>
    ensures { IfOk result (λ cavity. cavity ≡ s ∷ []) }
{
    let mut cavity = Cavity::new(alloc);
    cavity.push(s)?;
    Ok(cavity)
}

fn rim_of(alloc: Global, faces: &[RimFace]) -> Result<Rim, NoMemory>
    ensures { IfOk result (λ rim. rim ≡ faces.now) }
{
    let mut rim = Rim::new(alloc);
    rim.extend_from_slice(faces)?;
    Ok(rim)
}

// Puts a point in the place of one slot, and answers whether it did: the slot has to have four
// neighbors and to lack the point.
fn split(alloc: Global, arena: &mut Arena, s: Slot, point: u32) -> Result<bool, NoMemory>
    requires { IsLive arena.old.slots s.index }
{
    let t = arena.tet(s);
    let Some(a) = arena.across(s, 0) else {
        return Ok(false);
    };
    let Some(b) = arena.across(s, 1) else {
        return Ok(false);
    };
    let Some(c) = arena.across(s, 2) else {
        return Ok(false);
    };
    let Some(d) = arena.across(s, 3) else {
        return Ok(false);
    };
    if !lacks(t, Corner::Point(point)) {
        return Ok(false);
    }
    let cavity = one_slot(alloc, s)?;
    let rim = rim_of(alloc, &[a, b, c, d])?;
    arena.replace_cavity(&cavity, &rim, point)?;
    Ok(true)
}

// The number of live slots.
fn live_slots(arena: &Arena) -> usize {
    let mut count = 0usize;
    for i in 0..arena.slots() {
        if arena.slot(i).is_some() {
            count = count.saturating_add(1);
        }
    }
    count
}

// The corners of the slot behind each face of a live slot.
fn neighbors(arena: &Arena, s: Slot) -> [Option<SlotCorners>; 4]
    requires { IsLive arena.now.slots s.index }
{
    let mut all = [None; 4];
    for face in 0..4u8 {
        if let Some(n) = arena.neighbor(s, face) {
            all[face as usize] = Some(arena.tet(n));
        }
    }
    all
}

// The slot with these corners.
fn find(arena: &Arena, row: [u32; 4]) -> Option<Slot>
    ensures { IfSome result (λ s. IsLive arena.now.slots s.index) }
{
    let t = slot_corners(row);
    for i in 0..arena.slots() {
        if let Some(s) = arena.slot(i) {
            if arena.tet(s) == t {
                return Some(s);
            }
        }
    }
    None
}

// The Delaunay tetrahedra of a cube, and its hull.
const CUBE: [[u32; 4]; 18] = [
    [0, 1, 3, 4],
    [1, 2, 3, 5],
    [1, 3, 4, 5],
    [2, 3, 5, 6],
    [3, 4, 5, 7],
    [3, 5, 6, 7],
    [0, 1, 3, GHOST],
    [0, 1, 4, GHOST],
    [0, 3, 4, GHOST],
    [1, 2, 3, GHOST],
    [1, 2, 5, GHOST],
    [1, 4, 5, GHOST],
    [2, 3, 6, GHOST],
    [2, 5, 6, GHOST],
    [3, 4, 7, GHOST],
    [3, 6, 7, GHOST],
    [4, 5, 7, GHOST],
    [5, 6, 7, GHOST],
];

// The mesh of the cube with the point 8 in place of one of its tetrahedra.
fn split_cube(alloc: Global) -> Result<Arena, Fail> {
    let mut arena = linked_arena(alloc, &CUBE)?;
    arena.reserve(64)?;
    let s = find(&arena, [1, 3, 4, 5]).ok_or("not there")?;
    split(alloc, &mut arena, s, 8)?;
    Ok(arena)
}

// A slot, and the neighbors behind its faces.
struct SlotCase {
    slot: [u32; 4],
    behind: [[u32; 4]; 4],
}

// The star of the point 8, and two of the slots round it.
static STAR: [SlotCase; 6] = [
    SlotCase {
        slot: [8, 3, 4, 5],
        behind: [[3, 4, 5, 7], [1, 8, 4, 5], [1, 3, 8, 5], [1, 3, 4, 8]],
    },
    SlotCase {
        slot: [1, 8, 4, 5],
        behind: [[8, 3, 4, 5], [1, 4, 5, GHOST], [1, 3, 8, 5], [1, 3, 4, 8]],
    },
    SlotCase {
        slot: [1, 3, 8, 5],
        behind: [[8, 3, 4, 5], [1, 8, 4, 5], [1, 2, 3, 5], [1, 3, 4, 8]],
    },
    SlotCase {
        slot: [1, 3, 4, 8],
        behind: [[8, 3, 4, 5], [1, 8, 4, 5], [1, 3, 8, 5], [0, 1, 3, 4]],
    },
    SlotCase {
        slot: [0, 1, 3, 4],
        behind: [
            [1, 3, 4, 8],
            [0, 3, 4, GHOST],
            [0, 1, 4, GHOST],
            [0, 1, 3, GHOST],
        ],
    },
    SlotCase {
        slot: [1, 2, 3, GHOST],
        behind: [
            [2, 3, 6, GHOST],
            [0, 1, 3, GHOST],
            [1, 2, 5, GHOST],
            [1, 2, 3, 5],
        ],
    },
];

// Whether a slot has these neighbors.
fn has_neighbors(arena: &Arena, row: &SlotCase) -> bool {
    match find(arena, row.slot) {
        Some(s) => neighbors(arena, s) == row.behind.map(|n| Some(slot_corners(n))),
        None => false,
    }
}

#[test]
fn a_point_replaces_a_tetrahedron_of_a_cube(rt: HostRuntime) -> Result<(), Fail> {
    let arena = split_cube(rt.alloc())?;
    let wrong = STAR.iter().position(|row| !has_neighbors(&arena, row));
    let replaced = find(&arena, [1, 3, 4, 5]);
    assert_eq!(rt;
        (wrong, replaced.is_some(), live_slots(&arena)),
        (None, false, 21)
    );
    Ok(())
}

// The numbers of the slot with these corners.
fn numbers_of(arena: &Arena, row: [u32; 4]) -> Option<[u32; 4]> {
    arena.tetrahedron(find(arena, row)?)
}

#[test]
fn numbers_of_tetrahedra(rt: HostRuntime) -> Result<(), Fail> {
    let arena = linked_arena(rt.alloc(), &CUBE)?;
    assert!(rt; numbers_of(&arena, [1, 3, 4, 5]) == Some([1, 3, 4, 5]));
    assert!(rt; numbers_of(&arena, [1, 2, 3, GHOST]).is_none());
    Ok(())
}

// Puts a point in the place of the slot at a place, and answers whether it did.
fn split_at(alloc: Global, arena: &mut Arena, place: usize, point: u32) -> Result<bool, NoMemory> {
    if place >= arena.slots() {
        return Ok(false);
    }
    match arena.slot(place) {
        Some(s) => split(alloc, arena, s, point),
        None => Ok(false),
    }
}

// How many tetrahedra are replaced in turn. To see what a million of them cost, write 1_000_000 and
// time the test: about a second and 120 MB where it is compiled. With a cavity of 20 slots and a
// rim of 27 faces, as in a cloud of points, a surgery takes some 5 microseconds.
const SURGERIES: u32 = 20_000;

// How many tetrahedra of a cube are replaced.
fn split_in_turn(alloc: Global, arena: &mut Arena) -> Result<usize, NoMemory> {
    let mut made = 0usize;
    for i in 0..SURGERIES {
        let place = i as usize * 7919 % arena.slots().max(1);
        if split_at(alloc, arena, place, 8 + i)? {
            made = made.saturating_add(1);
        }
    }
    Ok(made)
}

#[test]
fn many_surgeries_in_turn(rt: HostRuntime) -> Result<(), Fail> {
    let mut arena = linked_arena(rt.alloc(), &CUBE)?;
    let made = split_in_turn(rt.alloc(), &mut arena)?;
    assert!(rt; made == SURGERIES as usize);
    // Each surgery takes the place of the slot that it removes, and three more.
    assert!(rt; arena.slots() == CUBE.len() + 3 * SURGERIES as usize);
    Ok(())
}

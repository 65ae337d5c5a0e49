//! Slots by their corners, linked where they share a face.
ghost use Rattle.std.specs.Prelude.{◌≡◌, ◌≢◌, ℕ, ◌<◌, IsTrue};
ghost use Rattle.mesh_arena.specs.Mesh.{corners_at, IsLive, corner_list, AllDiffer};

use mesh_arena::{Arena, Corner, Slot, SlotCorners};
use std::alloc::Global;
use std::test::Fail;

/// The point at infinity among the numbers of points.
pub(crate) const GHOST: u32 = u32::MAX;

fn corner_of(number: u32) -> Corner {
    if number == GHOST {
        Corner::Ghost
    } else {
        Corner::Point(number)
    }
}

/// The corners in these places.
pub(crate) fn slot_corners([a, b, c, d]: [u32; 4]) -> SlotCorners {
    SlotCorners {
        a: corner_of(a),
        b: corner_of(b),
        c: corner_of(c),
        d: corner_of(d),
    }
}

/// Whether the corners differ.
fn are_different(t: SlotCorners) -> bool
    ensures { IsTrue result → AllDiffer (corner_list t) }
{
    t.a != t.b && t.a != t.c && t.a != t.d && t.b != t.c && t.b != t.d && t.c != t.d
}

/// Adds these slots, with no neighbors.
fn add_slots(arena: &mut Arena, rows: &[[u32; 4]]) -> Result<(), Fail> {
    for row in rows {
        let t = slot_corners(*row);
        if !are_different(t) {
            return Err("a corner stands twice".into());
        }
        arena.alloc_slot(t)?;
    }
    Ok(())
}

fn link_faces(arena: &mut Arena, s: Slot, i: u8, t: Slot, j: u8)
    requires first { IsLive arena.old.slots s.index }
    requires second { IsLive arena.old.slots t.index }
    requires faces { (i < 4) × (j < 4) }
    requires differ { s.index ≢ t.index }
    ensures { (u : ℕ) → corners_at arena.new.slots u ≡ corners_at arena.old.slots u }
{
    if arena.neighbor(s, i).is_none() && arena.neighbor(t, j).is_none() {
        if arena.same_face(s, i, t, j) {
            arena.link(s, i, t, j);
        }
    }
}

fn link_slots(arena: &mut Arena, s: Slot, t: Slot)
    requires first { IsLive arena.old.slots s.index }
    requires second { IsLive arena.old.slots t.index }
    requires differ { s.index ≢ t.index }
{
    for i in 0..4u8 {
        for j in 0..4u8 {
            link_faces(arena, s, i, t, j);
        }
    }
}

fn link_places(arena: &mut Arena, i: usize, j: usize) {
    if i < arena.slots() && j < arena.slots() && i != j {
        if let Some(s) = arena.slot(i) {
            if let Some(t) = arena.slot(j) {
                link_slots(arena, s, t);
            }
        }
    }
}

/// Links the slots that share a face.
fn link_all(arena: &mut Arena) {
    for i in 0..arena.slots() {
        for j in 0..i {
            link_places(arena, i, j);
        }
    }
}

/// An arena of these slots, with no neighbors.
pub(crate) fn arena_of(alloc: Global, rows: &[[u32; 4]]) -> Result<Arena, Fail> {
    let mut arena = Arena::new(alloc);
    add_slots(&mut arena, rows)?;
    Ok(arena)
}

/// An arena of these slots, linked where they share a face.
pub(crate) fn linked_arena(alloc: Global, rows: &[[u32; 4]]) -> Result<Arena, Fail> {
    let mut arena = arena_of(alloc, rows)?;
    link_all(&mut arena);
    Ok(arena)
}

//! Cuts a cavity out of the cells of a mesh.
ghost use Rattle.std.specs.Prelude.{◌≡◌, ℕ, ◌<◌, ◌^◌, length, vec_capacity};
ghost use Rattle.mesh_arena.specs.Mesh.{IsLive, IsShaped};
ghost use Rattle.mesh_arena.specs.Star.{rim_at};
ghost use Rattle.mesh_arena.specs.Cavity.{slot_at};
ghost use Rattle.mesh_arena.specs.Cut.{slots_in, ClearsRim, FreesCells};

use crate::cell::Cell;
use crate::{RimFace, Slot};

// Removes the neighbors behind the faces of the rim.
pub(crate) fn clear_rim(cells: &mut Vec<Cell>, rim: &[RimFace])
    requires shaped { IsShaped (slots_in cells.old.items) }
    requires live { (r : ℕ) → r < length rim.now
        → IsLive (slots_in cells.old.items) (rim_at rim.now r).slot.index }
    requires faces { (r : ℕ) → r < length rim.now → (rim_at rim.now r).face < 4 }
    ensures clears { ClearsRim cells.old.items cells.new.items rim.now (length rim.now) }
    ensures capacity { vec_capacity cells.new ≡ vec_capacity cells.old }
{
    for r in 0..rim.len() {
        let outer = &mut cells[rim[r].slot.index as usize];
        outer.clear_side(rim[r].face);
    }
}

// Frees the slots of the cavity, where `next` is the first free cell, and answers the new first
// free cell.
pub(crate) fn free_cells(cells: &mut Vec<Cell>, cavity: &[Slot], next: u32) -> u32
    requires live { (j : ℕ) → j < length cavity.now
        → IsLive (slots_in cells.old.items) (slot_at cavity.now j) }
    requires once { (i j : ℕ) → i < length cavity.now → j < length cavity.now
        → slot_at cavity.now i ≡ slot_at cavity.now j → i ≡ j }
    requires few { length cells.old.items < 2 ^ 28 }
    requires next { next < 2 ^ 28 }
    ensures frees { FreesCells cells.old.items cells.new.items cavity.now (length cavity.now) next
        result }
    ensures capacity { vec_capacity cells.new ≡ vec_capacity cells.old }
{
    let mut first = next;
    for j in 0..cavity.len() {
        let place = cavity[j].index;
        let cell = &mut cells[place as usize];
        cell.free(first);
        first = place;
    }
    first
}

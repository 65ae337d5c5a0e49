//! The star of a point, planned before its cavity is cut out.
ghost use Rattle.std.specs.Prelude.{◌≡◌, ℕ, ◌<◌, ◌≤◌, length, Some, IsSome, slice_set, option_map};
ghost use Rattle.std.specs.Prelude.{vec_capacity};
ghost use Rattle.mesh_arena.specs.Cells.{cell_corners, IsUnlinked};
ghost use Rattle.mesh_arena.specs.Mesh.{corners_at, link_behind};
ghost use Rattle.mesh_arena.specs.Star.{behind, rim_at, face_side};
ghost use Rattle.mesh_arena.specs.Surgery.{Plans};

use crate::cell::Cell;
use crate::{Arena, Corner, RimFace};

// A slot of the star over a face of the rim, as it will lie in the arena; its face on the rim; and
// its place once it is made.
#[derive(Clone, Copy, Debug)]
pub(crate) struct StarSlot {
    pub(crate) cell: Cell,
    pub(crate) face: u8,
    pub(crate) slot: u32,
}

impl Arena {
    // The slot of the star over a face of the rim: the corners of the cavity's slot behind the
    // face, with the point in place of the one opposite the face.
    fn star_slot(&self, outer: RimFace, point: u32) -> StarSlot
        requires { IsSome (link_behind self.now.slots outer.slot.index outer.face) }
        ensures face { result.face
            ≡ (behind (link_behind self.now.slots outer.slot.index outer.face)).face }
        ensures corners { let inner = behind
            (link_behind self.now.slots outer.slot.index outer.face) in
            Some (cell_corners result.cell)
            ≡ option_map (λ cs. slice_set cs inner.face (Corner.Point point))
            (corners_at self.now.slots inner.slot) }
        ensures bare { IsUnlinked result.cell }
    {
        let inner = self.over(outer);
        StarSlot {
            cell: self.cells[inner.slot as usize].cone(inner.face, point),
            face: inner.face,
            slot: 0,
        }
    }

    // Lists the slots of the star over the rim.
    pub(crate) fn plan_star(&self, rim: &[RimFace], point: u32, star: &mut Vec<StarSlot>)
        requires has { (r : ℕ) → r < length rim.now
            → IsSome (face_side self.now.slots (rim_at rim.now r)) }
        requires room { length rim.now ≤ vec_capacity star.old }
        ensures plans { Plans self.now.slots rim.now (Corner.Point point) star.new.items
            (length rim.now) }
        ensures capacity { vec_capacity star.new ≡ vec_capacity star.old }
    {
        star.clear();
        for r in 0..rim.len() {
            let slot = self.star_slot(rim[r], point);
            star.push_reserved(slot);
        }
    }
}

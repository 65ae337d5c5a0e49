//! The conflict zone of a new point: the slots of a mesh that its insertion removes.
ghost use Rattle.std.specs.Prelude.{◌≡◌, ◌<◌, ◌↔◌, ℕ, List, Option, option_map, IsTrue, IfSome};
ghost use Rattle.mesh_arena.specs.Mesh.{SlotValue, IsLive, IsArenaMesh, link_behind, at};

use mesh_arena::{Arena, RimFace, Slot};

/// A mesh, and a test of which of its slots are in the conflict zone of a new point.
pub(crate) trait Zone {
    /// The slots of the mesh.
    ghost slots: { Self → List (Option SlotValue) };

    /// The rule of the zone.
    ghost takes: { Self → ℕ → Type 0 };

    /// The mesh.
    fn arena(&self) -> &Arena
        ensures { result.now.slots ≡ slots self.now };

    /// Whether a live slot is in the zone.
    fn test(&self, s: Slot) -> bool
        requires { IsLive (slots self.now) s.index }
        ensures { IsTrue result ↔ takes self.now s.index };
}

/// The face of the neighbor behind a face of a slot.
#[inline(always)]
pub(crate) fn across<Z: Zone>(zone: &Z, s: Slot, face: u8) -> Option<RimFace>
    requires live { IsLive (Z.slots zone.now) s.index }
    requires face { face < 4 }
    ensures value { option_map (λ f. at f.slot.index f.face) result
        ≡ link_behind (Z.slots zone.now) s.index face }
    ensures live { IfSome result (λ f. IsLive (Z.slots zone.now) f.slot.index × (f.face < 4)) }
{
    zone.arena().across(s, face)
}

/// Shows that the slots are a mesh, since the arena has this live one.
pub(crate) fn see<Z: Zone>(zone: &Z, s: Slot)
    requires { IsLive (Z.slots zone.now) s.index }
    ensures { IsArenaMesh (Z.slots zone.now) }
{
    let _ = zone.arena().tet(s);
}

//! The corners of the tetrahedra that an insertion removes.
ghost use Rattle.std.specs.Prelude.{◌≡◌, ℕ, ◌<◌, length, Contains, OnOk};
ghost use Rattle.mesh_arena.specs.Mesh.{IsLive};
ghost use Rattle.mesh_arena.specs.Cavity.{slot_at, IsInCavitySlots};
ghost use Rattle.cavity_insert.specs.Lost.{IsToldOf};

use mesh_arena::{Arena, Cavity, Slot};
use point_locate::{Shape, shape_of};
use tet_ports::NoMemory;

/// Appends the corners of a slot's tetrahedron; none for a ghost.
fn tell_corners(arena: &Arena, s: Slot, lost: &mut Vec<u32>) -> Result<(), NoMemory>
    requires { IsLive arena.now.slots s.index }
    ensures before { OnOk result ((i : ℕ) → Contains lost.old.items i → Contains lost.new.items i) }
    ensures told { OnOk result (IsToldOf lost.new.items arena.now.slots s.index) }
{
    if let Shape::Row(row) = shape_of(arena.tet(s)) {
        lost.extend_from_slice(&[row.a, row.b, row.c, row.d])?;
    }
    Ok(())
}

/// Appends the corners of the tetrahedra in the slots of a cavity.
pub(crate) fn tell_cavity(
    arena: &Arena,
    cavity: &Cavity,
    lost: &mut Vec<u32>,
) -> Result<(), NoMemory>
    requires { (j : ℕ) → j < length cavity.now → IsLive arena.now.slots (slot_at cavity.now j) }
    ensures { OnOk result ((u : ℕ) → IsInCavitySlots cavity.now u
        → IsToldOf lost.new.items arena.now.slots u) }
{
    for i in 0..cavity.len() {
        tell_corners(arena, cavity.at(i), lost)?;
    }
    Ok(())
}

//! The mesh of one tetrahedron: its slot, and a ghost over each of its faces.
ghost use Rattle.std.specs.Prelude.{◌≡◌, ◌≢◌, List, [], ◌∷◌, IsTrue, IfOk};
ghost use Rattle.mesh_arena.specs.Mesh.{IsLive, corner_list};
ghost use Rattle.mesh_arena.specs.declared.slot.Corner.TheVariants.{Ghost};
ghost use Rattle.geo_laws.specs.declared.tetrahedra.Tet.{Tet as TetValue};
ghost use Rattle.sign_predicates.specs.Orientation.{IsPositive};
ghost use Rattle.geo_laws.specs.Delaunay.{corners, numbers, AreNumbersOf, IsArranged};
ghost use Rattle.mesh_laws.specs.Living.{IsDelaunayMesh};
ghost use Rattle.cavity_insert.specs.declared.start.Shared.{Shared as SharedValue};
ghost use Rattle.cavity_insert.specs.Start.{AreStartSlots, pair, fits_behind, row_links, start_links};

use geo_laws::{Points, Tet};
use mesh_arena::{Arena, Corner, Slot, SlotCorners};
use std::alloc::Global;
use tet_ports::NoMemory;

/// Two faces with the same corners.
#[derive(Clone, Copy)]
struct Shared {
    slot: u32,
    face: u8,
    behind: u32,
    back: u8,
}

/// An arena that is the mesh of one positive tetrahedron, with its ghosts, and the slot of the
/// tetrahedron.
pub fn start_mesh(alloc: Global, points: &Points, t: Tet) -> Result<(Arena, Slot), NoMemory>
    requires numbers { AreNumbersOf points.now (numbers t) }
    requires positive { IsPositive (corners points.now t) }
    requires arranged { IsArranged t }
    ensures mesh { IfOk result (λ m. IsDelaunayMesh m.0.slots points.now (numbers t)) }
    ensures live { IfOk result (λ m. IsLive m.0.slots m.1.index) }
{
    let mut arena = start_slots(alloc, t)?;
    link_row(&mut arena);
    link_ghosts(&mut arena);
    Ok((arena, Slot { index: 0 }))
}

/// An arena with the slots of a tetrahedron and its ghosts, and no neighbors.
fn start_slots(alloc: Global, t: Tet) -> Result<Arena, NoMemory>
    requires arranged { IsArranged t }
    requires differ { t.c ≢ t.d }
    ensures { IfOk result (λ arena. AreStartSlots arena.slots t []) }
{
    let (a, b, c, d) = (
        Corner::Point(t.a),
        Corner::Point(t.b),
        Corner::Point(t.c),
        Corner::Point(t.d),
    );
    let mut arena = Arena::new(alloc);
    arena.alloc_slot(SlotCorners { a, b, c, d })?;
    arena.alloc_slot(ghost_over(b, c, d))?;
    arena.alloc_slot(ghost_over(a, d, c))?;
    arena.alloc_slot(ghost_over(a, b, d))?;
    arena.alloc_slot(ghost_over(a, c, b))?;
    Ok(arena)
}

/// The corners of a ghost over the hull face with the corners `a`, `b` and `c`.
fn ghost_over(a: Corner, b: Corner, c: Corner) -> SlotCorners
    ensures { corner_list result ≡ a ∷ b ∷ c ∷ Ghost ∷ [] }
{
    SlotCorners {
        a,
        b,
        c,
        d: Corner::Ghost,
    }
}

/// Links the tetrahedron with its ghosts. Slot 1 + k is the ghost over the face opposite the corner
/// in the place k.
fn link_row(arena: &mut Arena)
    requires { (t : TetValue) × AreStartSlots arena.old.slots t [] }
    ensures { (t : TetValue) → AreStartSlots arena.old.slots t []
        → AreStartSlots arena.new.slots t row_links }
{
    link_faces(arena, pair(0, 0, 1, 3));
    link_faces(arena, pair(0, 1, 2, 3));
    link_faces(arena, pair(0, 2, 3, 3));
    link_faces(arena, pair(0, 3, 4, 3));
}

/// Links the ghosts with one another.
fn link_ghosts(arena: &mut Arena)
    requires { (t : TetValue) × AreStartSlots arena.old.slots t row_links }
    ensures { (t : TetValue) → AreStartSlots arena.old.slots t row_links
        → AreStartSlots arena.new.slots t start_links }
{
    link_faces(arena, pair(1, 0, 2, 0));
    link_faces(arena, pair(1, 1, 3, 0));
    link_faces(arena, pair(1, 2, 4, 0));
    link_faces(arena, pair(2, 2, 3, 1));
    link_faces(arena, pair(2, 1, 4, 2));
    link_faces(arena, pair(3, 2, 4, 1));
}

fn pair(slot: u32, face: u8, behind: u32, back: u8) -> Shared
    ensures { result ≡ pair slot face behind back }
{
    Shared {
        slot,
        face,
        behind,
        back,
    }
}

/// Links two faces with the same corners.
fn link_faces(arena: &mut Arena, shared: Shared)
    requires { (t : TetValue) × (linked : List SharedValue) × AreStartSlots arena.old.slots t linked
        × IsTrue (fits_behind linked shared) }
    ensures { (t : TetValue) (linked : List SharedValue) → AreStartSlots arena.old.slots t linked
        → AreStartSlots arena.new.slots t (shared ∷ linked) }
{
    arena.link(
        Slot { index: shared.slot },
        shared.face,
        Slot {
            index: shared.behind,
        },
        shared.back,
    );
}

//! The cavity of a new point: a search from one slot over neighbors in the point's conflict zone.
ghost use Rattle.std.specs.Prelude.{◌≡◌, ◌↔◌, ◌+◌, ◌*◌, ◌<◌, ◌≤◌, min, length, IsTrue, IfOk, OnOk};
ghost use Rattle.point_locate.specs.Place.{AreCornersOn};
ghost use Rattle.mesh_laws.specs.Rule.{IsTaken};
ghost use Rattle.mesh_laws.specs.Reach.{Grown};
ghost use Rattle.mesh_arena.specs.Mesh.{IsArenaMesh, IsLive};
ghost use Rattle.cavity_insert.specs.Grow.{face_turn};
ghost use Rattle.cavity_insert.specs.Growth.{HasBegun, IsGrowing, entry_of};

use crate::marks::MarkedCavity;
use crate::rule::{PointZone, test_slot};
use crate::steps::Steps;
use crate::zone::{Zone, across, see};
use geo_laws::Points;
use mesh_arena::{Arena, Cavity, Rim, Slot};
use sign_predicates::GridPoint;
use std::alloc::Global;
use std::sync::ledger::Ledger;
use tet_ports::NoMemory;

/// The search for a cavity by flood fill. It serves one point after another.
#[derive(Drop)]
pub(crate) struct Growth {
    start: Slot,
    // The slots of the conflict zone that were found, and the faces round them.
    pub(crate) cavity: MarkedCavity,
    // The face through which each of these slots was entered; 0 for the first.
    entries: Vec<u8>,
    pub(crate) rim: Rim,
}

impl Growth {
    /// A search that has not begun. It takes no memory yet.
    pub(crate) fn new(alloc: Global) -> Self {
        Growth {
            start: Slot { index: 0 },
            cavity: MarkedCavity::new(alloc),
            entries: Vec::new(alloc),
            rim: Rim::new(alloc),
        }
    }

    /// Begins a search from a slot. The lists of the last search keep their memory.
    pub(crate) fn begin(&mut self, start: Slot)
        ensures { HasBegun self.new start }
    {
        self.start = start;
        self.cavity.clear();
        self.entries.clear();
        self.rim.clear();
    }

    // Visits the neighbor across the face `k` of the slot `i` of the cavity. A neighbor outside of
    // the zone is tested again from each face of the cavity through which it is reached.
    fn visit<Z: Zone, L: Ledger>(
        &mut self,
        zone: &Z,
        i: usize,
        k: u8,
        steps: &mut Steps<L>,
    ) -> Result<(), NoMemory>
        requires mesh { IsArenaMesh (Z.slots zone.now) }
        requires inside { i < length self.old.cavity }
        requires face { k < 4 }
        requires growing { IsGrowing (Z.slots zone.now) (Z.takes zone.now) self.old i
            (face_turn (entry_of self.old i) k) }
        ensures growing { OnOk result (IsGrowing (Z.slots zone.now) (Z.takes zone.now) self.new i
            (face_turn (entry_of self.old i) k + 1)) }
        ensures entry { OnOk result (entry_of self.new i ≡ entry_of self.old i) }
        ensures start { self.new.start ≡ self.old.start }
        ensures few { OnOk result (steps.new ≤ steps.old + 1) }
        ensures many { OnOk result (length self.new.cavity + steps.old
            ≤ length self.old.cavity + steps.new) }
        ensures longer { OnOk result (length self.old.cavity ≤ length self.new.cavity) }
    {
        let Some(f) = across(zone, self.cavity.at(i), k) else {
            return Ok(());
        };
        if self.cavity.has(f.slot) {
            Ok(())
        } else if test(zone, f.slot, steps) {
            self.cavity.push(f.slot)?;
            self.entries.push(f.face)?;
            Ok(())
        } else {
            self.rim.push(f)
        }
    }

    // Visits the neighbors of the slot `i` of the cavity: all of them for the first slot, and for a
    // later one all but that across the face through which it was entered, which is in the cavity.
    fn visit_faces<Z: Zone, L: Ledger>(
        &mut self,
        zone: &Z,
        i: usize,
        steps: &mut Steps<L>,
    ) -> Result<(), NoMemory>
        requires mesh { IsArenaMesh (Z.slots zone.now) }
        requires inside { i < length self.old.cavity }
        requires growing { IsGrowing (Z.slots zone.now) (Z.takes zone.now) self.old i (min i 1) }
        ensures growing { OnOk result (IsGrowing (Z.slots zone.now) (Z.takes zone.now) self.new
            (i + 1) 1) }
        ensures start { self.new.start ≡ self.old.start }
        ensures few { OnOk result (steps.new ≤ steps.old + 4) }
        ensures many { OnOk result (length self.new.cavity + steps.old
            ≤ length self.old.cavity + steps.new) }
        ensures longer { OnOk result (length self.old.cavity ≤ length self.new.cavity) }
    {
        let entry = self.entries[i];
        let first = i.min(1) as u8;
        for k in first..4 {
            self.visit(zone, i, entry ^ k, steps)?;
        }
        Ok(())
    }

    /// Grows the cavity from its start, which a test found to be in the conflict zone of the new
    /// point.
    pub(crate) fn grow<Z: Zone, L: Ledger>(
        &mut self,
        zone: &Z,
        steps: &mut Steps<L>,
    ) -> Result<(), NoMemory>
        requires begun { HasBegun self.old self.old.start }
        requires live { IsLive (Z.slots zone.now) self.old.start.index }
        requires start { Z.takes zone.now self.old.start.index }
        ensures few { OnOk result (steps.new ≤ steps.old + 4 * length self.new.cavity) }
        ensures many { OnOk result (steps.old + length self.new.cavity ≤ steps.new + 1) }
        ensures grown { OnOk result (Grown (Z.slots zone.now) (Z.takes zone.now)
            self.old.start.index self.new.cavity self.new.rim) }
    {
        let start = self.start;
        see(zone, start);
        self.cavity.push(start)?;
        self.entries.push(0)?;
        let mut i = 0;
        while i < self.cavity.len() {
            self.visit_faces(zone, i, steps)?;
            i += 1;
        }
        Ok(())
    }
}

// One step: whether a live slot is in the zone.
#[inline(always)]
fn test<Z: Zone, L: Ledger>(zone: &Z, s: Slot, steps: &mut Steps<L>) -> bool
    requires { IsLive (Z.slots zone.now) s.index }
    ensures value { IsTrue result ↔ Z.takes zone.now s.index }
    ensures step { steps.new ≡ steps.old + 1 }
{
    steps.tick();
    zone.test(s)
}

/// The cavity of the new point `p`: the connected set of slots in its conflict zone, `start` among
/// them, and its rim. One step is one test of a slot, made by `test_slot`; with c slots in the
/// cavity it makes at least c and at most `4c + 1` steps. The corners are places in `points`, from
/// 0, and coordinates are in grid units. Out of memory, the counter may have any value.
///
/// Source: incremental insertion (Bowyer 1981, Watson 1981). Only tests call it.
pub fn grow_cavity<L: Ledger>(
    alloc: Global,
    arena: &Arena,
    points: &Points,
    start: Slot,
    p: GridPoint,
    number: u32,
    steps: &mut Steps<L>,
) -> Result<(Cavity, Rim), NoMemory>
    requires corners { AreCornersOn arena.now.slots points.now }
    requires start { IsTaken arena.now.slots points.now p number start.index }
    ensures few { IfOk result (λ grown. steps.new ≤ steps.old + (4 * length grown.0 + 1)) }
    ensures many { IfOk result (λ grown. steps.old + length grown.0 ≤ steps.new) }
    ensures grown { IfOk result (λ grown.
        Grown arena.now.slots (IsTaken arena.now.slots points.now p number) start.index grown.0
        grown.1) }
{
    test_slot(arena, points, start, p, number, steps);
    let zone = PointZone::new(arena, points, p, number);
    let mut growth = Growth::new(alloc);
    growth.begin(start);
    growth.grow(&zone, steps)?;
    let Growth { cavity, rim, .. } = growth;
    Ok((cavity.into_cavity(), rim))
}

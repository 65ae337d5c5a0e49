//! A breadth-first flood fill over the tetrahedra and the outside of the hull.
ghost use Rattle.std.specs.Prelude.{◌≡◌, ◌↔◌, ◌+◌, ◌<◌, ◌≤◌, ℕ, true, false, [], length, IfOk, OnOk};
ghost use Rattle.std.specs.Prelude.{Option, Some};
ghost use Rattle.hole_carve.specs.Flooding.{way, IsWay, IsFlooded, IsQueued};
ghost use Rattle.hole_carve.specs.Flooding.{LeadsWithin, IsClosedAt};
ghost use Rattle.hole_carve.specs.Flooding.{IsClosedBeyond, IsClosedFrom};
ghost use Rattle.hole_carve.specs.Floods.{IsFlood, HasGrown, GoesOn, IsFloodDone, HasReached};
ghost use Rattle.incidence.specs.Pairs.{across_at};
ghost use Rattle.geo_laws.specs.Marks.{is_marked};

use crate::seeds::no_marks;
use crate::ways::Ways;
use incidence::Across;
use std::alloc::Global;
use tet_ports::NoMemory;

/// The neighbor across the face opposite a corner, by the corner's place, from 0.
fn way(across: Across, corner: usize) -> Option<usize>
    ensures { result ≡ way across corner }
{
    match corner {
        0 => across.n0,
        1 => across.n1,
        2 => across.n2,
        _ => across.n3,
    }
}

/// Whether `place` is a neighbor across some face.
fn leads_to(across: Across, place: usize) -> bool
    ensures { (result ≡ true) ↔ ((k : ℕ) × (k < 4) × (way across k ≡ Some place)) }
{
    for corner in 0..4 {
        if let Some(to) = way(across, corner) {
            if to == place {
                return true;
            }
        }
    }
    false
}

/// A flood fill over places: those that it reached are marked, and are in a queue in the order in
/// which they were reached.
#[derive(Drop)]
pub(crate) struct Flood {
    marks: Vec<bool>,
    pub(crate) queue: Vec<usize>,
}

impl Flood {
    /// A flood fill over `places` places that has not begun.
    pub(crate) fn new(alloc: Global, places: usize) -> Result<Self, NoMemory>
        ensures long { IfOk result (λ f. length f.marks.items ≡ places) }
        ensures clear { IfOk result (λ f. (i : ℕ) → is_marked f.marks.items i ≡ false) }
        ensures empty { IfOk result (λ f. f.queue.items ≡ []) }
    {
        Ok(Flood {
            marks: no_marks(alloc, places)?,
            queue: Vec::new(alloc),
        })
    }

    /// Marks a place that the flood fill reaches and appends it to the queue, if it isn't marked
    /// yet.
    fn reach(&mut self, ways: &Ways<'_>, seeds: &[bool], place: usize) -> Result<(), NoMemory>
        requires there { place < length self.old.marks.items }
        requires comes { IsFlooded ways.now seeds.now place }
        requires filled { IsQueued ways.now seeds.now self.old.marks.items self.old.queue.items }
        ensures filled { OnOk result
            (IsQueued ways.now seeds.now self.new.marks.items self.new.queue.items) }
        ensures marked { OnOk result (is_marked self.new.marks.items place ≡ true) }
        ensures grown { OnOk result (HasGrown self.old self.new) }
    {
        if !self.marks[place] {
            self.marks[place] = true;
            self.queue.push(place)?;
        }
        Ok(())
    }

    /// Reaches the neighbors of a tetrahedron in the queue across faces that are no subface.
    fn reach_from(&mut self, ways: &Ways<'_>, seeds: &[bool], row: usize) -> Result<(), NoMemory>
        requires there { row < length ways.now }
        requires within { LeadsWithin ways.now }
        requires comes { IsFlooded ways.now seeds.now row }
        requires flood { IsFlood ways.now seeds.now self.old }
        ensures closed { OnOk result (IsClosedAt ways.now self.new.marks.items row) }
        ensures goes_on { OnOk result (GoesOn ways.now seeds.now self.old self.new) }
    {
        let across = ways.at(row);
        for corner in 0..4 {
            if let Some(place) = way(across, corner) {
                self.reach(ways, seeds, place)?;
            }
        }
        Ok(())
    }

    /// Reaches a tetrahedron from outside the hull, if it has a hull face that is no subface.
    fn reach_back(&mut self, ways: &Ways<'_>, seeds: &[bool], row: usize) -> Result<(), NoMemory>
        requires there { row < length ways.now }
        requires comes { IsFlooded ways.now seeds.now (length ways.now) }
        requires flood { IsFlood ways.now seeds.now self.old }
        ensures reached { OnOk result (IsWay ways.now row (length ways.now)
            → is_marked self.new.marks.items row ≡ true) }
        ensures goes_on { OnOk result (GoesOn ways.now seeds.now self.old self.new) }
    {
        if !ways.is_inner(row) && leads_to(ways.at(row), ways.len()) {
            self.reach(ways, seeds, row)?;
        }
        Ok(())
    }

    /// Reaches the tetrahedra with a hull face that is no subface, from outside the hull.
    fn reach_from_beyond(&mut self, ways: &Ways<'_>, seeds: &[bool]) -> Result<(), NoMemory>
        requires comes { IsFlooded ways.now seeds.now (length ways.now) }
        requires flood { IsFlood ways.now seeds.now self.old }
        ensures closed { OnOk result (IsClosedBeyond ways.now self.new.marks.items) }
        ensures goes_on { OnOk result (GoesOn ways.now seeds.now self.old self.new) }
    {
        for row in 0..ways.len() {
            self.reach_back(ways, seeds, row)?;
        }
        Ok(())
    }

    /// Reaches the neighbors of a place in the queue.
    fn reach_next(&mut self, ways: &Ways<'_>, seeds: &[bool], place: usize) -> Result<(), NoMemory>
        requires there { place < length ways.now + 1 }
        requires within { LeadsWithin ways.now }
        requires comes { IsFlooded ways.now seeds.now place }
        requires flood { IsFlood ways.now seeds.now self.old }
        ensures done { OnOk result (IsClosedFrom ways.now self.new.marks.items place) }
        ensures goes_on { OnOk result (GoesOn ways.now seeds.now self.old self.new) }
    {
        if place < ways.len() {
            return self.reach_from(ways, seeds, place);
        }
        self.reach_from_beyond(ways, seeds)
    }

    /// Marks all places that the flood fill reaches from the new places of the queue, and appends
    /// them to it. The places that were filled from before have their neighbors marked already.
    pub(crate) fn fill(&mut self, ways: &Ways<'_>, seeds: &[bool]) -> Result<(), NoMemory>
        requires seeds { length seeds.now ≡ length ways.now + 1 }
        requires within { LeadsWithin ways.now }
        requires flood { IsFlood ways.now seeds.now self.old }
        requires done { IsFloodDone ways.now self.old }
        ensures exactly { OnOk result (HasReached self.new (IsFlooded ways.now seeds.now)) }
        ensures goes_on { OnOk result (GoesOn ways.now seeds.now self.old self.new) }
        ensures done { OnOk result (IsFloodDone ways.now self.new) }
    {
        let mut at = self.queue.len();
        for place in 0..seeds.len() {
            if seeds[place] {
                self.reach(ways, seeds, place)?;
            }
        }
        while at < self.queue.len() {
            let place = self.queue[at];
            self.reach_next(ways, seeds, place)?;
            at += 1;
        }
        Ok(())
    }
}

/// Marks the places that a flood fill reaches from the seeds: tetrahedra, and, past the last one,
/// the outside of the hull.
pub(crate) fn flooded(alloc: Global, ways: &Ways<'_>, seeds: &[bool]) -> Result<Vec<bool>, NoMemory>
    requires seeds { length seeds.now ≡ length ways.now + 1 }
    requires within { LeadsWithin ways.now }
    ensures long { IfOk result (λ marks. length marks.items ≡ length ways.now + 1) }
    ensures exactly { IfOk result (λ marks. (i : ℕ)
        → (is_marked marks.items i ≡ true) ↔ IsFlooded ways.now seeds.now i) }
{
    let mut flood = Flood::new(alloc, seeds.len())?;
    flood.fill(ways, seeds)?;
    let Flood { marks, .. } = flood;
    Ok(marks)
}

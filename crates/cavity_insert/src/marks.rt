//! A cavity with a mark for each of its slots.
ghost use Rattle.std.specs.Prelude.{◌≡◌, ℕ, ◌<◌, ◌^◌, ◌++◌, [], ◌∷◌, ◌↔◌, length};
ghost use Rattle.std.specs.Prelude.{IsTrue, OnOk, HoldsAt};
ghost use Rattle.mesh_arena.specs.Cavity.{IsInCavitySlots};
ghost use Rattle.geo_laws.specs.Marks.{is_marked};

use mesh_arena::{Cavity, Slot};
use std::alloc::Global;
use std::marker::Model;
use tet_ports::NoMemory;

/// A cavity, which contracts see, and a mark for each of its slots. It serves one search after
/// another: to clear it takes time linear in the cavity, not in the arena.
#[derive(Drop)]
pub(crate) struct MarkedCavity {
    found: Cavity,
    // Whether a slot is in the cavity, by its place in the arena. Those past the end are not.
    marks: Vec<bool>,
}

impl Model for MarkedCavity {
    ghost use Rattle.std.specs.Prelude.{List};
    ghost use Rattle.mesh_arena.specs.declared.slot.Slot.{Slot as SlotValue};
    ghost use Rattle.cavity_insert.specs.Marks.{AreMarksOf};

    ghost Value = { List SlotValue };

    ghost view = { λ m. m.found };

    ghost invariant = { λ m. AreMarksOf m.found m.marks.items };
}

/// Lengthens the marks so that `place` has one.
#[inline]
fn lengthen(marks: &mut Vec<bool>, place: usize) -> Result<(), NoMemory>
    requires { place < 2 ^ 32 }
    ensures same { (u : ℕ) → is_marked marks.new.items u ≡ is_marked marks.old.items u }
    ensures inside { OnOk result (place < length marks.new.items) }
{
    if marks.len() <= place {
        marks.resize(place + 1, false)?;
    }
    Ok(())
}

impl MarkedCavity {
    /// A cavity with no slot. It takes no memory yet.
    pub(crate) fn new(alloc: Global) -> Self
        ensures { result ≡ [] }
    {
        MarkedCavity {
            found: Cavity::new(alloc),
            marks: Vec::new(alloc),
        }
    }

    /// Removes all slots, and keeps the memory.
    pub(crate) fn clear(&mut self)
        ensures { self.new ≡ [] }
    {
        let mut left = self.found.len();
        while left > 0 {
            left -= 1;
            self.marks[self.found.at(left).index as usize] = false;
            self.found.drop_last();
        }
    }

    /// Whether a slot is in the cavity.
    #[inline]
    pub(crate) fn has(&self, s: Slot) -> bool
        ensures { IsTrue result ↔ IsInCavitySlots self.now s.index }
    {
        let place = s.index as usize;
        place < self.marks.len() && self.marks[place]
    }

    /// Appends a slot.
    pub(crate) fn push(&mut self, s: Slot) -> Result<(), NoMemory>
        ensures { OnOk result (self.new ≡ self.old ++ s ∷ []) }
    {
        let place = s.index as usize;
        lengthen(&mut self.marks, place)?;
        self.found.push(s)?;
        self.marks[place] = true;
        Ok(())
    }

    /// The number of slots.
    pub(crate) fn len(&self) -> usize
        ensures { result ≡ length self.now }
    {
        self.found.len()
    }

    /// The slot at this place of the cavity.
    pub(crate) fn at(&self, i: usize) -> Slot
        requires { i < length self.now }
        ensures { HoldsAt (λ s. s ≡ result) self.now i }
    {
        self.found.at(i)
    }

    /// The slots.
    pub(crate) fn as_cavity(&self) -> &Cavity
        ensures { result.now ≡ self.now }
    {
        &self.found
    }

    /// The slots, without their marks.
    pub(crate) fn into_cavity(self) -> Cavity
        ensures { result ≡ self }
    {
        let MarkedCavity { found, .. } = self;
        found
    }
}

//! Small numbers for the corners of a rim.
ghost use Rattle.std.specs.Prelude.{◌≡◌, ◌⊎◌, ◌++◌, [], ◌∷◌, Some, IsTrue, ◌<◌, ◌≤◌, length};
ghost use Rattle.std.specs.Prelude.{slice_get};
ghost use Rattle.mesh_arena.specs.Edges.{AreKept};

use std::alloc::Global;
use std::marker::Model;

/// The greatest number of rows.
pub(crate) const ROWS: usize = 64;

// In a mesh numbers below this many times the number of its slots have memory, so that the list of
// rows never takes more than the slots do.
const NUMBERS_A_SLOT: usize = 8;

/// The row that a corner had, and in which round.
#[derive(Clone, Copy, Debug)]
pub(crate) struct LastRow {
    round: u16,
    row: u16,
}

/// A row for each corner of a rim, from 0, in the order in which they are met. They are used in
/// rounds: the rows of an earlier round are taken away. Contracts see the corner in each row.
#[derive(Debug, Drop)]
pub(crate) struct Rows {
    corners: Vec<usize>,
    // The row that each corner had when it last had one.
    last: Vec<LastRow>,
    // From 1.
    round: u16,
    // Numbers from here on get no row.
    bound: usize,
    // The number of rows that have memory.
    most: usize,
}

impl Model for Rows {
    ghost use Rattle.std.specs.Prelude.{List, ℕ, ◌≤◌, vec_capacity};
    ghost use Rattle.mesh_arena.specs.Edges.{AreRows};

    ghost Value = { List ℕ };

    ghost view = { λ r. r.corners.items };

    ghost invariant = { λ r. AreRows r.corners.items r.last.items r.round
        × (r.most ≤ 64) × (r.most ≤ vec_capacity r.corners) };
}

impl Rows {
    pub(crate) fn new(alloc: Global) -> Self
        ensures { result ≡ [] }
    {
        Rows {
            corners: Vec::new(alloc),
            last: Vec::new(alloc),
            round: 1,
            bound: 0,
            most: 0,
        }
    }

    /// Removes all rows. The next ones are of corners of a mesh with `slots` slots.
    pub(crate) fn start(&mut self, slots: usize)
        ensures { self.new ≡ [] }
    {
        self.corners.clear();
        self.most = 0;
        if self.corners.reserve(ROWS).is_ok() {
            self.most = ROWS;
        }
        if self.round == u16::MAX {
            self.last.clear();
            self.round = 1;
        } else {
            self.round += 1;
        }
        self.bound = slots.saturating_mul(NUMBERS_A_SLOT);
    }

    /// The row of the corner with this number, a new one where it has none yet; ROWS where there
    /// are rows enough or no memory.
    #[inline(always)]
    pub(crate) fn row_of(&mut self, corner: usize) -> usize
        ensures row { result < 64 → slice_get self.new result ≡ Some corner }
        ensures most { result ≤ 64 }
        ensures others { (self.new ≡ self.old) ⊎ (self.new ≡ self.old ++ (corner ∷ [])) }
    {
        if corner < self.last.len() {
            let last = self.last[corner];
            if last.round == self.round {
                return last.row as usize;
            }
        }
        self.add_row(corner)
    }

    // A new row for a corner.
    #[inline(always)]
    fn add_row(&mut self, corner: usize) -> usize
        ensures row { result < 64 → slice_get self.new result ≡ Some corner }
        ensures most { result ≤ 64 }
        ensures others { (self.new ≡ self.old) ⊎ (self.new ≡ self.old ++ (corner ∷ [])) }
    {
        let row = self.corners.len();
        if row >= self.most || !reaches(&mut self.last, corner, self.bound) {
            return ROWS;
        }
        self.corners.push_reserved(corner);
        self.last[corner] = LastRow {
            round: self.round,
            row: row as u16,
        };
        row
    }
}

// Whether the list has this number, once it is made longer where the number is below the bound and
// there is memory.
#[inline(always)]
fn reaches(last: &mut Vec<LastRow>, number: usize, bound: usize) -> bool
    ensures there { IsTrue result → number < length last.new.items }
    ensures kept { AreKept last.old.items last.new.items }
{
    number < last.len() || lengthen(last, number, bound)
}

// Lengthens the list until it has `number`, if that is below the bound and there is memory, and
// answers whether it did.
#[inline(never)]
fn lengthen(last: &mut Vec<LastRow>, number: usize, bound: usize) -> bool
    requires { length last.old.items ≤ number }
    ensures there { IsTrue result → number < length last.new.items }
    ensures kept { AreKept last.old.items last.new.items }
{
    let never = LastRow { round: 0, row: 0 };
    number < bound && last.resize(number + 1, never).is_ok()
}

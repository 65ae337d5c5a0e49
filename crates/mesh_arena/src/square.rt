//! A square table of the edges between few corners.
ghost use Rattle.std.specs.Prelude.{◌≡◌, ◌<◌, ◌≤◌, [], length, IfSome};
ghost use Rattle.mesh_arena.specs.Edges.{edge_of, IsInSquare, IsRowEnd, KeepsRows};
ghost use Rattle.mesh_arena.specs.Edges.{MeetsNone, AddsNone, AddsOnly};

use crate::arena::SlotFace;
use crate::edge::{End, Ends};
use crate::rows::{ROWS, Rows};
use std::alloc::Global;
use std::marker::Model;

/// The slot and face that an edge was met at, and in which round.
#[derive(Clone, Copy, Debug)]
pub(crate) struct MetFace {
    slot: u32,
    round: u16,
    face: u8,
}

impl MetFace {
    // The slot and face.
    #[inline(always)]
    fn at(&self) -> SlotFace
        ensures { result ≡ record { slot = self.now.slot; face = self.now.face } }
    {
        SlotFace {
            slot: self.slot,
            face: self.face,
        }
    }
}

/// A table of edges whose ends have rows, used in rounds: what an earlier round left counts as
/// empty. The rows of the ends tell the place of an edge, and the place tells the edge and its
/// direction. Contracts see the corner in each row, and what each place has of this round.
#[derive(Debug, Drop)]
pub(crate) struct Square {
    met: Vec<MetFace>,
    // From 1.
    round: u16,
    rows: Rows,
}

impl Model for Square {
    ghost use Rattle.mesh_arena.specs.Edges.{SquareValue, faces_in, IsSquare};

    ghost Value = { SquareValue };

    ghost view = { λ s. record { rows = s.rows; faces = faces_in s.met.items s.round } };

    ghost invariant = { λ s. IsSquare s.met.items s.round s.rows };
}

/// The greatest number of places.
pub(crate) const PLACES: usize = ROWS * ROWS;

/// The most slots of a mesh for which no places are made: to clear them takes longer than the whole
/// list of few points.
const FEW_SLOTS: usize = 256;

impl Square {
    pub(crate) fn new(alloc: Global) -> Self {
        Square {
            met: Vec::new(alloc),
            round: 1,
            rows: Rows::new(alloc),
        }
    }

    // Begins the next round, in which nothing was met yet and no corner has a row.
    fn next_round(&mut self, slots: usize)
        ensures { self.new.rows ≡ [] }
    {
        if self.round == u16::MAX {
            self.met.clear();
            self.round = 1;
        } else {
            self.round += 1;
        }
        self.rows.start(slots);
    }

    // Makes all places for a mesh of more than few slots, if there is memory.
    fn grow(&mut self, slots: usize)
        requires { self.old.rows ≡ [] }
        ensures { self.new.rows ≡ [] }
    {
        if slots > FEW_SLOTS && self.met.len() < PLACES {
            let never = MetFace {
                slot: 0,
                round: 0,
                face: 0,
            };
            let _ = self.met.resize(PLACES, never);
        }
    }

    /// Begins a round, in a mesh of this many slots. Where these are few, or there is no memory, no
    /// edge has a place.
    pub(crate) fn start(&mut self, slots: usize)
        ensures { MeetsNone (IsInSquare self.new) }
    {
        self.next_round(slots);
        self.grow(slots);
    }

    /// The number of places.
    #[inline(always)]
    pub(crate) fn len(&self) -> usize
        ensures { result ≡ length self.now.faces }
    {
        self.met.len()
    }

    /// The end of an edge at the corner with this number.
    #[inline(always)]
    pub(crate) fn end(&mut self, number: usize) -> End
        ensures number { result.number ≡ number }
        ensures end { IsRowEnd self.new.rows result }
        ensures rows { KeepsRows self.old.rows self.new.rows }
        ensures faces { self.new.faces ≡ self.old.faces }
        ensures met { AddsNone (IsInSquare self.old) (IsInSquare self.new) }
    {
        let row = self.rows.row_of(number);
        End { number, row }
    }

    /// The face that the edge between these ends was met at before in this round, the other way.
    /// Where there is none, the edge is met at `face` from now on, in this direction.
    #[inline(always)]
    pub(crate) fn meet(&mut self, ends: Ends, face: SlotFace) -> Option<SlotFace>
        requires one { IsRowEnd self.old.rows ends.one }
        requires other { IsRowEnd self.old.rows ends.other }
        requires rows { (ends.one.row < 64) × (ends.other.row < 64) }
        requires places { 4096 ≤ length self.old.faces }
        ensures found { IfSome result
            (λ s. IsInSquare self.old (edge_of ends.one.number ends.other.number) s) }
        ensures only { AddsOnly (IsInSquare self.old) (IsInSquare self.new)
            (edge_of ends.one.number ends.other.number) face }
        ensures same_rows { self.new.rows ≡ self.old.rows }
        ensures same_places { length self.new.faces ≡ length self.old.faces }
    {
        let met = &self.met[ends.back().place()];
        if met.round == self.round {
            return Some(met.at());
        }
        self.met[ends.place()] = MetFace {
            slot: face.slot,
            round: self.round,
            face: face.face,
        };
        None
    }
}

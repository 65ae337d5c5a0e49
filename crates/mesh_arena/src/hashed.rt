//! A table of edges by their hashes.
ghost use Rattle.std.specs.Prelude.{◌≡◌, IfSome};
ghost use Rattle.mesh_arena.specs.Edges.{IsHashed, MeetsNone, AddsOnly};

use crate::arena::SlotFace;
use crate::edge::Edge;
use std::alloc::Global;
use std::marker::Model;

// An edge by the numbers of its ends, the slot and face that it was met at, and in which round.
#[derive(Clone, Copy, Debug)]
pub(crate) struct Met {
    low: u32,
    high: u32,
    slot: u32,
    round: u16,
    face: u8,
}

impl Met {
    // The slot and face.
    fn at(&self) -> SlotFace
        ensures { result ≡ record { slot = self.now.slot; face = self.now.face } }
    {
        SlotFace {
            slot: self.slot,
            face: self.face,
        }
    }
}

/// A table of edges, used in rounds: what an earlier round left counts as empty. An edge is found
/// by a hash, in open addressing. Contracts see what each place has of this round.
#[derive(Debug, Drop)]
pub(crate) struct HashedEdges {
    met: Vec<Met>,
    // From 1.
    round: u16,
}

impl Model for HashedEdges {
    ghost use Rattle.mesh_arena.specs.Edges.{Meetings, meetings_in, AreMetUpTo};

    ghost Value = { Meetings };

    ghost view = { λ t. meetings_in t.met.items t.round };

    ghost invariant = { λ t. AreMetUpTo t.met.items t.round };
}

// The number of places that are tried for an edge.
const PROBES: usize = 16;

impl HashedEdges {
    pub(crate) fn new(alloc: Global) -> Self {
        HashedEdges {
            met: Vec::new(alloc),
            round: 1,
        }
    }

    // Begins the next round, in which nothing was met yet.
    fn next_round(&mut self)
        ensures { MeetsNone (IsHashed self.new) }
    {
        if self.round == u16::MAX {
            self.met.clear();
            self.round = 1;
        } else {
            self.round += 1;
        }
    }

    // Makes the table this long, if it is shorter and there is memory.
    fn grow(&mut self, len: usize)
        requires { MeetsNone (IsHashed self.old) }
        ensures { MeetsNone (IsHashed self.new) }
    {
        if self.met.len() < len {
            let never = Met {
                low: 0,
                high: 0,
                slot: 0,
                round: 0,
                face: 0,
            };
            let _ = self.met.resize(len, never);
        }
    }

    /// Begins a round for at most `edges` edges. Where there is no memory for them the table stays
    /// as large as it is.
    pub(crate) fn start(&mut self, edges: usize)
        ensures { MeetsNone (IsHashed self.new) }
    {
        self.next_round();
        if let Some(len) = edges.saturating_mul(2).checked_next_power_of_two() {
            self.grow(len);
        }
    }

    /// The face that the edge was met at before in this round. Where there is none, the edge is met
    /// at `face` from now on, if a place is free for it and the numbers of its ends have 32 bits.
    pub(crate) fn meet(&mut self, edge: Edge, face: SlotFace) -> Option<SlotFace>
        ensures found { IfSome result (λ s. IsHashed self.old edge s) }
        ensures only { AddsOnly (IsHashed self.old) (IsHashed self.new) edge face }
    {
        let (Ok(low), Ok(high)) = (u32::try_from(edge.low), u32::try_from(edge.high)) else {
            return None;
        };
        self.meet_between(low, high, face)
    }

    // As `meet`, for the edge between two numbers of 32 bits.
    fn meet_between(&mut self, low: u32, high: u32, face: SlotFace) -> Option<SlotFace>
        ensures found { IfSome result
            (λ s. IsHashed self.old (record { low = low; high = high }) s) }
        ensures only { AddsOnly (IsHashed self.old) (IsHashed self.new)
            (record { low = low; high = high }) face }
    {
        let len = self.met.len();
        if len == 0 {
            return None;
        }
        let first = hash(low, high);
        for step in 0..PROBES {
            let place = first.wrapping_add(step) & (len - 1);
            if place >= len {
                return None;
            }
            let met = &self.met[place];
            if met.round != self.round {
                self.met[place] = Met {
                    low,
                    high,
                    slot: face.slot,
                    round: self.round,
                    face: face.face,
                };
                return None;
            }
            if met.low == low && met.high == high {
                return Some(met.at());
            }
        }
        None
    }
}

// Fibonacci hashing of the two ends.
fn hash(low: u32, high: u32) -> usize {
    let both = (low as usize).wrapping_mul(1 << 32) ^ high as usize;
    both.wrapping_mul(0x9e37_79b9_7f4a_7c15) >> 32
}

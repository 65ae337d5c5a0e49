//! A table of the edges of a star, by which the two faces over an edge find one another.
ghost use Rattle.std.specs.Prelude.{◌≡◌, ◌<◌, ◌≤◌, length, IfSome, IsTrue};
ghost use Rattle.mesh_arena.specs.Edges.{edge_of, IsEdgeMet, IsRowEnd, KeepsRows, MeetsNone};
ghost use Rattle.mesh_arena.specs.Edges.{AddsNone, AddsOnly};

use crate::arena::SlotFace;
use crate::edge::{Edge, End, Ends};
use crate::hashed::HashedEdges;
use crate::rows::ROWS;
use crate::square::{PLACES, Square};
use std::alloc::Global;
use std::marker::Model;

/// A table of edges, used in rounds. The edges of a rim of few corners have places in a square, and
/// those of a larger one are found by their hashes.
#[derive(Debug, Drop)]
pub(crate) struct EdgeTable {
    square: Square,
    hashed: HashedEdges,
    // Whether corners have rows of the square in this round, and all edges between them places.
    has_rows: bool,
}

impl Model for EdgeTable {
    ghost use Rattle.std.specs.Prelude.{◌≤◌, length, IsTrue};
    ghost use Rattle.mesh_arena.specs.Edges.{Table};

    ghost Value = { Table };

    ghost view = { λ t. record { square = t.square; hashed = t.hashed } };

    ghost invariant = { λ t. IsTrue t.has_rows → 4096 ≤ length t.square.faces };
}

impl EdgeTable {
    pub(crate) fn new(alloc: Global) -> Self {
        EdgeTable {
            square: Square::new(alloc),
            hashed: HashedEdges::new(alloc),
            has_rows: false,
        }
    }

    /// Begins a round for the edges of a rim of this many faces, in a mesh of this many slots.
    pub(crate) fn start(&mut self, faces: usize, slots: usize)
        ensures { MeetsNone (IsEdgeMet self.new) }
    {
        self.square.start(slots);
        self.has_rows = corners_of(faces) <= ROWS && self.square.len() >= PLACES;
        self.hashed.start(faces.saturating_mul(2));
    }

    /// Whether corners have rows of the square in this round, and all edges between them places.
    #[inline(always)]
    pub(crate) fn has_rows(&self) -> bool
        ensures { IsTrue result → 4096 ≤ length self.now.square.faces }
    {
        self.has_rows
    }

    /// The end of an edge at the corner with this number.
    #[inline(always)]
    pub(crate) fn end(&mut self, number: usize) -> End
        ensures number { result.number ≡ number }
        ensures end { IsRowEnd self.new.square.rows result }
        ensures rows { KeepsRows self.old.square.rows self.new.square.rows }
        ensures faces { self.new.square.faces ≡ self.old.square.faces }
        ensures met { AddsNone (IsEdgeMet self.old) (IsEdgeMet self.new) }
    {
        self.square.end(number)
    }

    /// The face that the edge between these ends, which has a place in the square, was met at
    /// before in this round, the other way. Where there is none, the edge is met at `face` from now
    /// on.
    #[inline(always)]
    pub(crate) fn meet(&mut self, ends: Ends, face: SlotFace) -> Option<SlotFace>
        requires one { IsRowEnd self.old.square.rows ends.one }
        requires other { IsRowEnd self.old.square.rows ends.other }
        requires rows { (ends.one.row < 64) × (ends.other.row < 64) }
        requires places { 4096 ≤ length self.old.square.faces }
        ensures found { IfSome result
            (λ s. IsEdgeMet self.old (edge_of ends.one.number ends.other.number) s) }
        ensures only { AddsOnly (IsEdgeMet self.old) (IsEdgeMet self.new)
            (edge_of ends.one.number ends.other.number) face }
        ensures same_rows { self.new.square.rows ≡ self.old.square.rows }
        ensures same_places { length self.new.square.faces ≡ length self.old.square.faces }
    {
        self.square.meet(ends, face)
    }

    /// The face at which the edge was met before in this round, by a hash of the edge. Where there
    /// is none, the edge is met at `face` from now on, if a place is free for it.
    pub(crate) fn meet_hashed(&mut self, edge: Edge, face: SlotFace) -> Option<SlotFace>
        ensures found { IfSome result (λ s. IsEdgeMet self.old edge s) }
        ensures only { AddsOnly (IsEdgeMet self.old) (IsEdgeMet self.new) edge face }
        ensures square { self.new.square ≡ self.old.square }
    {
        self.hashed.meet(edge, face)
    }
}

// The number of corners of a rim with `faces` faces that is the boundary of a ball: half as many as
// faces, and two more (Euler's formula).
fn corners_of(faces: usize) -> usize {
    faces / 2 + 2
}

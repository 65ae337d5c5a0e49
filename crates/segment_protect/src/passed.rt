//! The subsegments that were passed, in their order, with lists of those that begin at each point.
ghost use Rattle.std.specs.Prelude.{◌≡◌, ◌+◌, ◌<◌, ◌≤◌, ◌^◌, ◌++◌, [], ◌∷◌, length};
ghost use Rattle.std.specs.Prelude.{All, IsTrue, IfOk, OnOk, MatchOption};
ghost use Rattle.segment_protect.specs.Watch.{pieces_of, AreTouchMarks};
ghost use Rattle.segment_protect.specs.Passed.{IsLinked, IsPassed, IsSideAt, IsSideOrLost};
ghost use Rattle.segment_protect.specs.Passed.{AreSidesBefore, AreSidesFrom};

use crate::watch::{Watched, is_side};
use cavity_insert::Living;
use std::alloc::Global;
use tet_ports::NoMemory;

/// A stack of subsegments, each linked to the last one before it that begins at the same point.
#[derive(Drop)]
pub(crate) struct Passed {
    pub(crate) watched: Vec<Watched>,
    /// For each subsegment one more than the place of the subsegment to which it is linked; 0 for
    /// none.
    pub(crate) earlier: Vec<usize>,
    /// For each point one more than the place of the last subsegment that begins there; 0 for none.
    pub(crate) latest: Vec<usize>,
}

impl Passed {
    /// An empty stack for `points` points.
    pub(crate) fn new(alloc: Global, points: usize) -> Result<Passed, NoMemory>
        ensures linked { IfOk result (IsLinked points) }
        ensures none { IfOk result (λ passed. passed.watched.items ≡ []) }
    {
        let mut latest = Vec::new(alloc);
        latest.resize(points, 0)?;
        Ok(Passed {
            watched: Vec::new(alloc),
            earlier: Vec::new(alloc),
            latest,
        })
    }

    /// Adds a point, at which no subsegment begins.
    pub(crate) fn add_point(&mut self) -> Result<(), NoMemory>
        requires { IsLinked (length self.old.latest.items) self.old }
        ensures linked { OnOk result (IsLinked (length self.old.latest.items + 1) self.new) }
        ensures same { OnOk result (self.new.watched.items ≡ self.old.watched.items) }
    {
        self.latest.push(0)?;
        Ok(())
    }

    /// Appends a subsegment.
    pub(crate) fn push(&mut self, w: Watched) -> Result<(), NoMemory>
        requires linked { IsLinked (length self.old.latest.items) self.old }
        requires inside { w.piece.a < length self.old.latest.items }
        ensures linked { OnOk result (IsLinked (length self.old.latest.items) self.new) }
        ensures items { OnOk result (self.new.watched.items ≡ self.old.watched.items ++ w ∷ []) }
    {
        let a = w.piece.a as usize;
        self.earlier.push(self.latest[a])?;
        self.watched.push(w)?;
        self.latest[a] = self.watched.len();
        Ok(())
    }

    /// Removes the last subsegment, where there are more than `most`.
    pub(crate) fn pop_above(&mut self, most: usize) -> Option<Watched>
        requires { IsLinked (length self.old.latest.items) self.old }
        ensures linked { IsLinked (length self.old.latest.items) self.new }
        ensures items { MatchOption result
            ((self.new ≡ self.old) × (length self.old.watched.items ≤ most))
            (λ w. self.old.watched.items ≡ self.new.watched.items ++ w ∷ []) }
    {
        if self.watched.len() <= most {
            return None;
        }
        let w = self.watched.pop()?;
        let earlier = self.earlier.pop()?;
        self.latest[w.piece.a as usize] = earlier;
        Some(w)
    }

    /// Whether the subsegment at place `k` is an edge of the Delaunay list; if it is, this is
    /// noted.
    fn is_side_at(&mut self, living: &Living, touched: &[u32], k: usize) -> bool
        requires passed { IsPassed living.now.points touched.now self.old }
        requires marks { AreTouchMarks living.now.points touched.now }
        requires few { length living.now.points < 2 ^ 32 }
        requires there { k < length self.old.watched.items }
        ensures passed { IsPassed living.now.points touched.now self.new }
        ensures pieces { pieces_of self.new.watched.items ≡ pieces_of self.old.watched.items }
        ensures side { IsTrue result
            → IsSideAt living.now.points (pieces_of self.old.watched.items) k }
    {
        let w = self.watched[k];
        if !is_side(living, touched, w) {
            return false;
        }
        self.watched[k] = Watched {
            piece: w.piece,
            seen: living.points().len() as u32,
        };
        true
    }

    /// The place of the first subsegment before `least` that begins at `v` and is no edge; else
    /// `least`.
    fn first_lost_at(&mut self, living: &Living, touched: &[u32], v: usize, least: usize) -> usize
        requires passed { IsPassed living.now.points touched.now self.old }
        requires marks { AreTouchMarks living.now.points touched.now }
        requires few { length living.now.points < 2 ^ 32 }
        requires inside { v < length living.now.points }
        ensures passed { IsPassed living.now.points touched.now self.new }
        ensures pieces { pieces_of self.new.watched.items ≡ pieces_of self.old.watched.items }
        ensures least { result ≤ least }
        ensures sides { AreSidesFrom living.now.points v result (pieces_of self.old.watched.items) }
    {
        let mut least = least;
        let mut count = self.latest[v];
        while count > 0 {
            let k = count - 1;
            if !self.is_side_at(living, touched, k) {
                least = least.min(k);
            }
            count = self.earlier[k];
        }
        least
    }

    /// The place of the first subsegment that is no edge any more, else the number of subsegments.
    /// Only a subsegment with both ends in `lost` may have ceased to be an edge.
    pub(crate) fn first_lost(&mut self, living: &Living, touched: &[u32], lost: &[u32]) -> usize
        requires passed { IsPassed living.now.points touched.now self.old }
        requires marks { AreTouchMarks living.now.points touched.now }
        requires few { length living.now.points < 2 ^ 32 }
        requires kept { All (IsSideOrLost living.now.points lost.now) self.old.watched.items }
        ensures passed { IsPassed living.now.points touched.now self.new }
        ensures pieces { pieces_of self.new.watched.items ≡ pieces_of self.old.watched.items }
        ensures sides { AreSidesBefore living.now.points result self.new.watched.items }
    {
        let mut least = self.watched.len();
        for v in lost {
            let v = *v as usize;
            if v < self.latest.len() {
                least = self.first_lost_at(living, touched, v, least);
            }
        }
        least
    }
}

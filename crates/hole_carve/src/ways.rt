//! Neighbors across faces that are no subface.
ghost use Rattle.std.specs.Prelude.{◌≡◌, ◌<◌, ℕ, None, length, IsTrue};
ghost use Rattle.incidence.specs.Pairs.{pairs_of, across_at};
ghost use Rattle.hole_carve.specs.Flooding.{way, IsWay};
ghost use Rattle.hole_carve.specs.Ways.{way_through, ways_through, ways_of};

use geo_laws::{Face, Tet, TetList, face_of};
use incidence::{Across, FaceTable, Pairs};
use std::marker::Model;

/// The adjacency of a list that a flood fill uses, which contracts see: across a subface nothing,
/// across another face the other tetrahedron that has it, or the outside of the hull, which has the
/// place past the last tetrahedron. It is computed on demand.
#[derive(Drop)]
pub(crate) struct Ways<'a> {
    list: &'a TetList,
    pairs: &'a Pairs,
    closed: &'a FaceTable,
}

impl<'a> Model for Ways<'a> {
    ghost use Rattle.std.specs.Prelude.{◌≡◌, List};
    ghost use Rattle.incidence.specs.Pairs.{pairs_of};
    ghost use Rattle.incidence.specs.declared.pairs.Across.{Across};
    ghost use Rattle.hole_carve.specs.Ways.{ways_of};

    ghost Value = { List Across };

    ghost view = { λ w. ways_of w.closed.now w.list.now };

    ghost invariant = { λ w. w.pairs.now ≡ pairs_of w.list.now };
}

/// The neighbor across a face; None for a subface, `beyond` on the hull.
fn way_through(
    closed: &FaceTable,
    face: Face,
    partner: Option<usize>,
    beyond: usize,
) -> Option<usize>
    ensures { result ≡ way_through closed.now face partner beyond }
{
    if closed.has(face) {
        return None;
    }
    match partner {
        Some(row) => Some(row),
        None => Some(beyond),
    }
}

/// The neighbors across the four faces of a tetrahedron that are no subface.
fn ways_through(closed: &FaceTable, row: Tet, across: Across, beyond: usize) -> Across
    ensures { result ≡ ways_through closed.now row across beyond }
{
    let Tet { a, b, c, d } = row;
    Across {
        n0: way_through(closed, face_of(b, c, d), across.n0, beyond),
        n1: way_through(closed, face_of(a, c, d), across.n1, beyond),
        n2: way_through(closed, face_of(a, b, d), across.n2, beyond),
        n3: way_through(closed, face_of(a, b, c), across.n3, beyond),
    }
}

/// Whether there is another tetrahedron across each face.
fn has_all(across: Across) -> bool
    ensures { IsTrue result → (k : ℕ) → k < 4 → ¬ (way across k ≡ None) }
{
    across.n0.is_some() && across.n1.is_some() && across.n2.is_some() && across.n3.is_some()
}

impl<'a> Ways<'a> {
    pub(crate) fn new(list: &'a TetList, pairs: &'a Pairs, closed: &'a FaceTable) -> Self
        requires { pairs.now ≡ pairs_of list.now }
        ensures same { result ≡ ways_of closed.now list.now }
        ensures long { length result ≡ length list.now }
    {
        Ways {
            list,
            pairs,
            closed,
        }
    }

    /// The number of tetrahedra.
    pub(crate) fn len(&self) -> usize
        ensures { result ≡ length self.now }
    {
        self.list.len()
    }

    /// The neighbors of the tetrahedron at place `row` across faces that are no subface.
    pub(crate) fn at(&self, row: usize) -> Across
        requires { row < length self.now }
        ensures { result ≡ across_at self.now row }
    {
        ways_through(
            self.closed,
            self.list.at(row),
            self.pairs.at(row),
            self.list.len(),
        )
    }
    /// Whether the tetrahedron at place `row` is known to have no hull face: another tetrahedron is
    /// across each of its faces.
    pub(crate) fn is_inner(&self, row: usize) -> bool
        requires { row < length self.now }
        ensures { IsTrue result → ¬ IsWay self.now row (length self.now) }
    {
        has_all(self.pairs.at(row))
    }
}

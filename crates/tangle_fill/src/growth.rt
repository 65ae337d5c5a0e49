//! The tetrahedra of a gift wrapping, indexed by the sides of faces on which they lie.
ghost use Rattle.std.specs.Prelude.{◌≡◌, [], ◌∷◌, ◌++◌, ◌==◌, ◌&&◌, None, IsTrue, All, Contains, MatchOption, IfOk, OnOk, false};
ghost use Rattle.std.specs.List.{list_any};
ghost use Rattle.std.specs.Hash as fed;
ghost use Rattle.std.specs.Cmp.Rules.{comparing, hashing};
ghost use Rattle.std.proofs.Common.{rules};
ghost use Rattle.indexmap.specs.IndexMap.{get};
ghost use Rattle.geo_laws.specs.Delaunay.{IsArranged};
ghost use Rattle.crossing_laws.specs.Crossing.{faces_of};
ghost use Rattle.tangle_laws.specs.Tangle.{lies_on};
ghost use Rattle.geo_laws.specs.declared.tetrahedra.Tet.{Tet};
ghost use Rattle.tangle_fill.specs.Fill.{as_oriented};
ghost use Rattle.tangle_fill.specs.Indexed.{same_face_side, IsIndexed, IsSidePut};

use crate::nudge::all_four;
use geo_laws::{Face, Tet, TetList};
use indexmap::IndexMap;
use std::alloc::Global;
use std::hash::{Hash, Hasher};
use tet_ports::NoMemory;

/// A side of a face, by the order of the corners.
#[derive(Clone, Copy)]
pub(crate) struct FaceSide {
    pub(crate) face: Face,
}

impl PartialEq for FaceSide {
    ghost eq = { λ p q. (p.face.a == q.face.a && p.face.b == q.face.b) && p.face.c == q.face.c };

    ghost laws = { Prim.search (comparing, rules) };

    fn eq(&self, other: &FaceSide) -> bool {
        self.face.a == other.face.a && self.face.b == other.face.b && self.face.c == other.face.c
    }
}

impl Eq for FaceSide {
    ghost laws = { Prim.search (comparing, rules) };
}

impl Hash for FaceSide {
    ghost hash_input = { λ p. (fed.u32 p.face.a ++ fed.u32 p.face.b) ++ fed.u32 p.face.c };

    ghost respects_eq = { Prim.search (hashing, rules) };

    fn hash<H: Hasher>(&self, state: &mut H) {
        self.face.a.hash(state);
        self.face.b.hash(state);
        self.face.c.hash(state);
    }
}

/// The face with its corners in the same cyclic order, the least one first, as the faces of a row
/// in its least even arrangement have them.
fn turned(f: Face) -> Face
    ensures { (t : Tet) → lies_on (as_oriented result) t ≡ lies_on (as_oriented f) t }
{
    let Face { a, b, c } = f;
    let least = a.min(b).min(c);
    if a == least {
        f
    } else if b == least {
        Face { a: b, b: c, c: a }
    } else {
        Face { a: c, b: a, c: b }
    }
}

/// Tetrahedra in the order in which they were added, and the tetrahedron on each side of a face,
/// where there is one. The key of a side is its corners in the order that the tetrahedron gives
/// them.
#[derive(Drop)]
pub(crate) struct Growth {
    pub(crate) rows: TetList,
    pub(crate) sides: IndexMap<FaceSide, Tet>,
}

impl Growth {
    /// No tetrahedron yet.
    pub(crate) fn new(alloc: Global) -> Self
        ensures rows { result.rows ≡ [] }
        ensures indexed { IsIndexed result }
    {
        Growth {
            rows: TetList::new(alloc),
            sides: IndexMap::new(alloc),
        }
    }

    /// No tetrahedron yet, with room for `count` of them.
    pub(crate) fn with_room(alloc: Global, count: usize) -> Result<Self, NoMemory>
        ensures rows { IfOk result (λ growth. growth.rows ≡ []) }
        ensures indexed { IfOk result IsIndexed }
    {
        let rows = TetList::with_capacity(alloc, count)?;
        let sides = IndexMap::with_capacity(alloc, count.saturating_mul(4))?;
        Ok(Growth { rows, sides })
    }

    /// The tetrahedron that the index has for the corners in this order.
    fn row_of(&self, face: Face) -> Option<Tet>
        ensures { result ≡ get same_face_side self.now.sides (record { face = face }) }
    {
        self.sides.get(&FaceSide { face }).copied()
    }

    /// The tetrahedron on the face's positive side; None where none is there. The order of the
    /// corners that most tetrahedra give is looked up first.
    pub(crate) fn row_on(&self, f: Face) -> Option<Tet>
        requires { IsIndexed self.now }
        ensures { MatchOption result (All (λ t. lies_on (as_oriented f) t ≡ false) self.now.rows)
            (λ t. Contains self.now.rows t × IsTrue (lies_on (as_oriented f) t)) }
    {
        self.row_round(turned(f))
    }

    /// The tetrahedron on the face's positive side, by the corners in their order, rotated once,
    /// and rotated twice.
    fn row_round(&self, f: Face) -> Option<Tet>
        requires { IsIndexed self.now }
        ensures { MatchOption result (All (λ t. lies_on (as_oriented f) t ≡ false) self.now.rows)
            (λ t. Contains self.now.rows t × IsTrue (lies_on (as_oriented f) t)) }
    {
        let Face { a, b, c } = f;
        if let Some(row) = self.row_of(f) {
            return Some(row);
        }
        if let Some(row) = self.row_of(Face { a: b, b: c, c: a }) {
            return Some(row);
        }
        self.row_of(Face { a: c, b: a, c: b })
    }

    /// A tetrahedron on the same side of a face as `row`; None where there is none.
    pub(crate) fn rival(&self, row: Tet) -> Option<Tet>
        requires { IsIndexed self.now }
        ensures { MatchOption result (All (λ t. list_any (λ f. lies_on f t) (faces_of row)
            ≡ false) self.now.rows)
            (λ t. Contains self.now.rows t × IsTrue (list_any (λ f. lies_on f t) (faces_of row))) }
    {
        let Tet { a, b, c, d } = row;
        if let Some(other) = self.row_on(Face { a: b, b: d, c }) {
            return Some(other);
        }
        if let Some(other) = self.row_on(Face { a, b: c, c: d }) {
            return Some(other);
        }
        if let Some(other) = self.row_on(Face { a, b: d, c: b }) {
            return Some(other);
        }
        self.row_on(Face { a, b, c })
    }

    /// Enters the tetrahedron for a face of it, and answers whether none was entered for that side
    /// before.
    fn put_side(&mut self, face: Face, row: Tet) -> Result<bool, NoMemory>
        ensures rows { OnOk result (self.new.rows ≡ self.old.rows) }
        ensures put { OnOk result (IsSidePut self.old.sides self.new.sides
            (record { face = face }) row) }
        ensures free { IfOk result (λ free. IsTrue free
            → get same_face_side self.old.sides (record { face = face }) ≡ None) }
    {
        let kept = self.sides.insert(FaceSide { face }, row)?;
        Ok(kept.is_none())
    }

    /// Appends the tetrahedron.
    pub(crate) fn put(&mut self, row: Tet) -> Result<(), NoMemory>
        requires { IsIndexed self.old }
        ensures rows { OnOk result (self.new.rows ≡ self.old.rows ++ row ∷ []) }
        ensures indexed { OnOk result (IsIndexed self.new) }
    {
        let Tet { a, b, c, d } = row;
        self.put_side(Face { a: b, b: d, c }, row)?;
        self.put_side(Face { a, b: c, c: d }, row)?;
        self.put_side(Face { a, b: d, c: b }, row)?;
        self.put_side(Face { a, b, c }, row)?;
        self.rows.push(row)?;
        Ok(())
    }

    /// Appends the tetrahedron, and answers whether no other lies with it on one side of a face.
    /// All rows have their least corner first, and so have their faces.
    pub(crate) fn put_apart(&mut self, row: Tet) -> Result<bool, NoMemory>
        requires indexed { IsIndexed self.old }
        requires arranged { All IsArranged self.old.rows }
        requires row { IsArranged row }
        ensures rows { OnOk result (self.new.rows ≡ self.old.rows ++ row ∷ []) }
        ensures indexed { OnOk result (IsIndexed self.new) }
        ensures apart { IfOk result (λ apart. IsTrue apart
            → All (λ t. list_any (λ f. lies_on f t) (faces_of row) ≡ false) self.old.rows) }
    {
        let Tet { a, b, c, d } = row;
        let at_a = self.put_side(Face { a: b, b: d, c }, row)?;
        let at_b = self.put_side(Face { a, b: c, c: d }, row)?;
        let at_c = self.put_side(Face { a, b: d, c: b }, row)?;
        let at_d = self.put_side(Face { a, b, c }, row)?;
        self.rows.push(row)?;
        Ok(all_four(at_a, at_b, at_c, at_d))
    }
}

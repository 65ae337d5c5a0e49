//! The neighbors of tetrahedra across their faces.
ghost use Rattle.std.specs.Prelude.{◌≡◌, [], ◌∷◌, ◌+◌, ◌-◌, ◌<◌, ◌^◌, length, map};
ghost use Rattle.std.specs.Prelude.{IfOk, IfSome, IsTrue, HoldsAt};
ghost use Rattle.geo_laws.specs.Faces.{face_of};
ghost use Rattle.incidence.specs.HalfFaces.{opposite_row_face, IsAscendingRow};
ghost use Rattle.incidence.specs.Pairs.{pairs_of, with_partner, is_face, place_in, across_in};
ghost use Rattle.incidence.specs.Pairs.{IsAcrossWithin, AreAllWithin};
ghost use Rattle.incidence.specs.Uses.{AreUsesOf};
ghost use Rattle.geo_laws.specs.Delaunay.{row_at};

use crate::half_faces::{Corner, HalfFace, are_arranged, number_of, point_at};
use crate::uses::{Uses, partner_at, run_start, uses_of};
use geo_laws::{Tet, TetList};
use std::alloc::Global;
use std::marker::Model;
use tet_ports::{Items, NoMemory};

/// For each corner of a tetrahedron the place of the neighbor across the face opposite that corner,
/// if there is one.
#[derive(Clone, Copy, Debug, PartialEq, Eq)]
pub struct Across {
    pub n0: Option<usize>,
    pub n1: Option<usize>,
    pub n2: Option<usize>,
    pub n3: Option<usize>,
}

/// The four neighbors of a tetrahedron in 32 bits each, corner by corner. The greatest number
/// stands for none.
#[derive(Clone, Copy)]
struct Places {
    rows: [u32; 4],
}

/// The neighbors of each tetrahedron of a list, in 16 bytes each.
#[derive(Drop)]
pub struct Pairs {
    kept: Vec<Places>,
}

impl Model for Pairs {
    ghost use Rattle.std.specs.Prelude.{List, map};
    ghost use Rattle.incidence.specs.Pairs.{across_in};
    ghost use Rattle.incidence.specs.declared.pairs.Across.{Across};

    ghost Value = { List Across };

    ghost view = { λ pairs. map across_in pairs.kept.items };
}

impl Pairs {
    /// The number of tetrahedra.
    pub fn len(&self) -> usize
        ensures count { result ≡ length self.now }
        ensures small { result < 2 ^ 63 }
    {
        self.kept.len()
    }

    /// The neighbors of the tetrahedron at place `i`, from 0.
    pub fn at(&self, i: usize) -> Across
        requires { i < length self.now }
        ensures same { HoldsAt (λ across. across ≡ result) self.now i }
        ensures within { IsAcrossWithin (2 ^ 32) result }
    {
        across_in(self.kept[i])
    }

    /// Frees the memory, as that of a list of items is freed.
    pub fn let_go(self) {
        Items::from(self.kept).let_go();
    }
}

/// For each tetrahedron of a list a number, or none.
pub type Marks = Items<Option<u32>>;

/// For each tetrahedron and corner the least other tetrahedron that has the face opposite that
/// corner, if there is one. The rows may be any four numbers.
pub fn pair_faces(alloc: Global, list: &TetList) -> Result<Pairs, NoMemory>
    ensures pairs { IfOk result (λ pairs. pairs ≡ pairs_of list.now) }
    ensures places { IfOk result (λ pairs. AreAllWithin (length pairs) pairs) }
{
    let uses = uses_of(alloc, list)?;
    pair_uses(alloc, list, &uses)
}

/// As `pair_faces`, from the uses of the faces.
pub fn pair_uses(alloc: Global, list: &TetList, uses: &Uses) -> Result<Pairs, NoMemory>
    requires { AreUsesOf list.now uses.now }
    ensures pairs { IfOk result (λ pairs. pairs ≡ pairs_of list.now) }
    ensures places { IfOk result (λ pairs. AreAllWithin (length pairs) pairs) }
{
    let kept = places_of(alloc, list, uses)?;
    Ok(Pairs { kept })
}

/// The neighbors of each tetrahedron in 32 bits. More tetrahedra than 32 bits can count are refused
/// as out of memory.
fn places_of(alloc: Global, list: &TetList, uses: &Uses) -> Result<Vec<Places>, NoMemory>
    requires { AreUsesOf list.now uses.now }
    ensures { IfOk result (λ places. map across_in places.items ≡ pairs_of list.now) }
{
    if list.len() > u32::MAX as usize {
        return Err(NoMemory);
    }
    let alone = Places {
        rows: [u32::MAX; 4],
    };
    let mut places = Vec::new(alloc);
    places.resize(list.len(), alone)?;
    put_partners(list, uses, &mut places);
    Ok(places)
}

/// Unpacks four neighbor indices.
fn across_in(places: Places) -> Across
    ensures same { result ≡ across_in places }
    ensures within { IsAcrossWithin (2 ^ 32) result }
{
    Across {
        n0: place_in(places.rows[0]),
        n1: place_in(places.rows[1]),
        n2: place_in(places.rows[2]),
        n3: place_in(places.rows[3]),
    }
}

/// Unpacks one neighbor index; the greatest number is none.
fn place_in(place: u32) -> Option<usize>
    ensures same { result ≡ place_in place }
    ensures within { IfSome result (λ row. row < 2 ^ 32) }
{
    if place == u32::MAX {
        return None;
    }
    Some(place as usize)
}

/// Packs one neighbor index; none is the greatest number.
fn place_or_greatest(row: Option<u32>) -> u32
    requires { IfSome row (λ place. place < 2 ^ 32 - 1) }
    ensures { place_in result ≡ row }
{
    match row {
        Some(place) => place,
        None => u32::MAX,
    }
}

/// Writes the neighbors of all tetrahedra, use by use.
fn put_partners(list: &TetList, uses: &Uses, places: &mut [Places])
    requires uses { AreUsesOf list.now uses.now }
    requires long { length places.old ≡ length list.now }
    requires few { length list.now < 2 ^ 32 }
    ensures { map across_in places.new ≡ pairs_of list.now }
{
    let arranged = are_arranged(list);
    let mut first = 0;
    for at in 0..uses.len() {
        first = run_start(uses, first, at, list);
        let partner = partner_at(uses, first, at, list);
        let place = place_or_greatest(partner);
        let half = uses.at(at);
        put_partner(list, half, arranged, place, &mut places[half.row as usize]);
    }
}

/// Writes the neighbor across a face of a tetrahedron. Where the row is arranged, so that no two
/// corners are one point, the face is opposite one corner alone.
fn put_partner(list: &TetList, half: HalfFace, arranged: bool, place: u32, places: &mut Places)
    requires there { half.row < length list.now }
    requires arranged { IsTrue arranged → IsAscendingRow (row_at list.now half.row) }
    ensures { let row = row_at list.now half.row in across_in places.new
        ≡ with_partner row (opposite_row_face row half.opposite) (place_in place) (across_in places.old) }
{
    if !arranged {
        put_at_point(list.at(half.row as usize), half.opposite, place, places);
        return;
    }
    places.rows[number_of(half.opposite)] = place;
}

/// Writes the neighbor across the face opposite a corner, for each corner that is the same point.
fn put_at_point(row: Tet, opposite: Corner, place: u32, places: &mut Places)
    ensures { across_in places.new
        ≡ with_partner row (opposite_row_face row opposite) (place_in place) (across_in places.old) }
{
    let [a, b, c, d] = are_at_point(row, opposite);
    if a {
        places.rows[0] = place;
    }
    if b {
        places.rows[1] = place;
    }
    if c {
        places.rows[2] = place;
    }
    if d {
        places.rows[3] = place;
    }
}

/// For each corner whether it is the same point as `corner`; the faces opposite the two are then
/// one.
fn are_at_point(row: Tet, corner: Corner) -> [bool; 4]
    ensures { let face = opposite_row_face row corner in result
        ≡ is_face (face_of row.b row.c row.d) face ∷ is_face (face_of row.a row.c row.d) face
        ∷ is_face (face_of row.a row.b row.d) face ∷ is_face (face_of row.a row.b row.c) face ∷ [] }
{
    let point = point_at(row, corner);
    let Tet { a, b, c, d } = row;
    [a == point, b == point, c == point, d == point]
}

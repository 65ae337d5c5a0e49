//! The Delaunay list of a mesh, read from its slots.
ghost use Rattle.std.specs.Prelude.{◌≡◌, ℕ, ◌<◌, List, Some, length, map};
ghost use Rattle.std.specs.Prelude.{IfOk, IfSome, MatchOption};
ghost use Rattle.sign_predicates.specs.Point.{Point};
ghost use Rattle.geo_laws.specs.Delaunay.{IsDelaunayListAmong};
ghost use Rattle.geo_laws.specs.declared.tetrahedra.Tet.{Tet as Row};
ghost use Rattle.mesh_arena.specs.Mesh.{corners_at, corner_list};
ghost use Rattle.point_locate.specs.Place.{row_corners, IsAt};
ghost use Rattle.mesh_laws.specs.Living.{IsDelaunayMesh};
ghost use Rattle.cavity_insert.specs.Rows.{IsRowOf};
ghost use Rattle.cavity_insert.specs.Rows.{AreRowsBelow, AreSortedRowsOf, IsListOf};
ghost use Rattle.cavity_insert.specs.RowKeys.{row_of_key, rows_in};

use crate::row_keys::{RowKey, key_of, row_of_key};
use geo_laws::{Tet, TetList, arranged};
use mesh_arena::{Arena, SlotCorners};
use point_locate::{Shape, shape_of};
use std::alloc::Global;
use tet_ports::{Items, NoMemory};

/// The rows of the slots of a mesh, in the order of the slots: as keys, where each has one.
#[derive(Drop)]
pub(crate) enum SlotRows {
    Keys(Items<RowKey>),
    Rows(TetList),
}

impl SlotRows {
    /// Sorts the rows, each once.
    pub(crate) fn into_list(self, alloc: Global) -> Result<TetList, NoMemory>
        ensures { IfOk result (IsListOf (rows_in self)) }
    {
        match self {
            SlotRows::Keys(mut keys) => {
                keys.keep_distinct();
                let rows = rows_of_keys(alloc, &keys)?;
                keys.let_go();
                Ok(rows)
            }
            SlotRows::Rows(mut rows) => {
                rows.keep_distinct();
                Ok(rows)
            }
        }
    }
}

/// The rows of all slots of an arena that are tetrahedra of points, each in its least even
/// arrangement, ascending.
pub fn sorted_rows(alloc: Global, arena: &Arena) -> Result<TetList, NoMemory>
    ensures { IfOk result (AreSortedRowsOf arena.now.slots) }
{
    slot_rows(alloc, arena)?.into_list(alloc)
}

/// The Delaunay rows of a mesh, ascending.
pub(crate) fn rows_of(alloc: Global, arena: &Arena) -> Result<TetList, NoMemory>
    ensures { IfOk result
        (λ rows. (ps : List Point) (ms : List ℕ) → IsDelaunayMesh arena.now.slots ps ms
        → IsDelaunayListAmong ps ms rows) }
{
    slot_rows(alloc, arena)?.into_list(alloc)
}

/// The rows of all slots.
pub(crate) fn slot_rows(alloc: Global, arena: &Arena) -> Result<SlotRows, NoMemory>
    ensures { IfOk result
        (λ found. AreRowsBelow arena.now.slots (rows_in found) (length arena.now.slots)) }
{
    match keys_at(alloc, arena)? {
        Some(keys) => Ok(SlotRows::Keys(keys)),
        None => Ok(SlotRows::Rows(rows_at(alloc, arena)?)),
    }
}

/// The keys of the rows of all slots; None where a row has no key.
fn keys_at(alloc: Global, arena: &Arena) -> Result<Option<Items<RowKey>>, NoMemory>
    ensures { IfOk result (λ found. IfSome found
        (λ keys. AreRowsBelow arena.now.slots (map row_of_key keys) (length arena.now.slots))) }
{
    let mut keys = Items::with_capacity(alloc, arena.slots())?;
    for i in 0..arena.slots() {
        if let Some(row) = row_at(arena, i) {
            let Some(key) = key_of(row) else {
                return Ok(None);
            };
            keys.push(key)?;
        }
    }
    Ok(Some(keys))
}

/// The rows of all slots, whatever their numbers.
fn rows_at(alloc: Global, arena: &Arena) -> Result<TetList, NoMemory>
    ensures { IfOk result
        (λ rows. AreRowsBelow arena.now.slots rows (length arena.now.slots)) }
{
    let mut rows = TetList::with_capacity(alloc, arena.slots())?;
    for slot in 0..arena.slots() {
        if let Some(row) = row_at(arena, slot) {
            rows.push(row)?;
        }
    }
    Ok(rows)
}

/// The rows of a list of keys, in its order.
fn rows_of_keys(alloc: Global, keys: &Items<RowKey>) -> Result<TetList, NoMemory>
    ensures { IfOk result (λ rows. rows ≡ map row_of_key keys.now) }
{
    let mut rows = TetList::with_capacity(alloc, keys.len())?;
    for key in keys.as_slice() {
        rows.push(row_of_key(*key))?;
    }
    Ok(rows)
}

/// The row of the slot at a place; None where the slot is free or a ghost.
fn row_at(arena: &Arena, i: usize) -> Option<Tet>
    requires { i < length arena.now.slots }
    ensures { MatchOption result
        ((t : Row) → ¬ (corners_at arena.now.slots i ≡ Some (row_corners t)))
        (λ row. IsAt arena.now.slots (λ cs. IsRowOf cs row) i) }
{
    let s = arena.slot(i)?;
    row_of(arena.tet(s))
}

/// The row of a slot, in its least even arrangement; None where the slot is a ghost.
fn row_of(t: SlotCorners) -> Option<Tet>
    ensures { MatchOption result ((row : Row) → ¬ (corner_list t ≡ row_corners row))
        (IsRowOf (corner_list t)) }
{
    match shape_of(t) {
        Shape::Row(four) => Some(arranged(four)),
        Shape::Ghost(_) => None,
    }
}

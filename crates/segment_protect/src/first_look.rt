//! Finds the subsegments that are edges of the mesh, by one pass over its tetrahedra.
ghost use Rattle.std.specs.Prelude.{◌≡◌, ◌≢◌, ◌^◌, ◌<◌, IsTrue, length, All, Contains};
ghost use Rattle.geo_laws.specs.Delaunay.{numbers};
ghost use Rattle.segment_protect.specs.Watch.{pieces_of, HasSidesOf, IsSeenOrSide};

use crate::lesser_ends::Ends;
use crate::watch::Watched;
use cavity_insert::{Living, has_corner};
use geo_laws::{Piece, Side, Tet, side_of};
use point_locate::{Shape, shape_of};

/// Whether the subsegment is an edge of the tetrahedron.
fn has_ends(row: Tet, piece: Piece) -> bool
    ensures differ { IsTrue result → piece.a ≢ piece.b }
    ensures first { IsTrue result → Contains (numbers row) piece.a }
    ensures second { IsTrue result → Contains (numbers row) piece.b }
{
    if piece.a == piece.b || !has_corner(row, piece.a) {
        return false;
    }
    has_corner(row, piece.b)
}

/// Notes that the subsegment at place `k` is an edge of the mesh, where it is an edge of the
/// tetrahedron.
fn see_piece(living: &Living, watched: &mut Vec<Watched>, row: Tet, k: usize)
    requires row { HasSidesOf living.now.points row }
    requires few { length living.now.points < 2 ^ 32 }
    requires seen { All (IsSeenOrSide living.now.points) watched.old.items }
    ensures pieces { pieces_of watched.new.items ≡ pieces_of watched.old.items }
    ensures seen { All (IsSeenOrSide living.now.points) watched.new.items }
{
    if k >= watched.len() {
        return;
    }
    let w = watched[k];
    if !has_ends(row, w.piece) {
        return;
    }
    let now = living.points().len() as u32;
    watched[k] = Watched {
        piece: w.piece,
        seen: now,
    };
}

/// Notes that the subsegment between two corners of the tetrahedron, if there is one, is an edge
/// of the mesh.
fn see_side(living: &Living, ends: &Ends, watched: &mut Vec<Watched>, row: Tet, side: Side)
    requires row { HasSidesOf living.now.points row }
    requires few { length living.now.points < 2 ^ 32 }
    requires seen { All (IsSeenOrSide living.now.points) watched.old.items }
    ensures pieces { pieces_of watched.new.items ≡ pieces_of watched.old.items }
    ensures seen { All (IsSeenOrSide living.now.points) watched.new.items }
{
    let Some(k) = ends.place_of(side.a, side.b) else {
        return;
    };
    see_piece(living, watched, row, k);
}

/// The edges of a tetrahedron.
fn edges_of(row: Tet) -> [Side; 6] {
    [
        side_of(row.a, row.b),
        side_of(row.a, row.c),
        side_of(row.a, row.d),
        side_of(row.b, row.c),
        side_of(row.b, row.d),
        side_of(row.c, row.d),
    ]
}

/// Notes the subsegments that are edges of the tetrahedron.
fn see_row(living: &Living, ends: &Ends, watched: &mut Vec<Watched>, row: Tet)
    requires row { HasSidesOf living.now.points row }
    requires few { length living.now.points < 2 ^ 32 }
    requires seen { All (IsSeenOrSide living.now.points) watched.old.items }
    ensures pieces { pieces_of watched.new.items ≡ pieces_of watched.old.items }
    ensures seen { All (IsSeenOrSide living.now.points) watched.new.items }
{
    for side in edges_of(row) {
        see_side(living, ends, watched, row, side);
    }
}

/// Notes the subsegments that are edges of the tetrahedron in slot `i`, if the slot has one.
fn see_slot(living: &Living, ends: &Ends, watched: &mut Vec<Watched>, i: usize)
    requires there { i < length living.now.slots }
    requires few { length living.now.points < 2 ^ 32 }
    requires seen { All (IsSeenOrSide living.now.points) watched.old.items }
    ensures pieces { pieces_of watched.new.items ≡ pieces_of watched.old.items }
    ensures seen { All (IsSeenOrSide living.now.points) watched.new.items }
{
    let arena = living.arena();
    let Some(s) = arena.slot(i) else {
        return;
    };
    let Shape::Row(row) = shape_of(arena.tet(s)) else {
        return;
    };
    see_row(living, ends, watched, row);
}

/// Notes the subsegments that are edges of the mesh.
pub(crate) fn see_sides(living: &Living, ends: &Ends, watched: &mut Vec<Watched>)
    requires few { length living.now.points < 2 ^ 32 }
    requires seen { All (IsSeenOrSide living.now.points) watched.old.items }
    ensures pieces { pieces_of watched.new.items ≡ pieces_of watched.old.items }
    ensures seen { All (IsSeenOrSide living.now.points) watched.new.items }
{
    for i in 0..living.arena().slots() {
        see_slot(living, ends, watched, i);
    }
}

//! Whether the added points are corners of a mesh.

ghost use Rattle.std.specs.Prelude.{◌≡◌, ◌≤◌, ◌<◌, ◌+◌, ◌^◌, true, length, IsTrue, IfOk};
ghost use Rattle.geo_laws.specs.Delaunay.{has_corner};
ghost use Rattle.refining.specs.Corners.{AreCorners, is_corner};

use geo_laws::{Tet, TetList};
use std::alloc::Global;
use tet_ports::NoMemory;

/// Notes the place of a tetrahedron at each of its corners from `own` on.
fn note(found: &mut [usize], own: usize, row: Tet, place: usize) {
    for corner in [row.a, row.b, row.c, row.d] {
        if let Some(noted) = found.get_mut((corner as usize).wrapping_sub(own)) {
            *noted = place;
        }
    }
}

/// For each of `count` points from `own` on the place of a tetrahedron that has it as a corner,
/// where there is one.
fn stars_of(
    alloc: Global,
    rows: &TetList,
    own: usize,
    count: usize,
) -> Result<Vec<usize>, NoMemory> {
    let mut found = vec![in alloc; 0_usize; count]?;
    for i in 0..rows.len() {
        note(&mut found, own, rows.at(i), i);
    }
    Ok(found)
}

/// Whether the point is a corner of the tetrahedron.
fn has_corner(row: Tet, i: usize) -> bool
    ensures { result ≡ has_corner row i }
{
    row.a as usize == i || row.b as usize == i || row.c as usize == i || row.d as usize == i
}

/// Whether the tetrahedron at a place of the list is there and has the point as a corner.
fn has_corner_at(rows: &TetList, place: usize, i: usize) -> bool
    ensures { IsTrue result → is_corner rows.now i ≡ true }
{
    place < rows.len() && has_corner(rows.at(place), i)
}

/// Whether each of the points from `own` on, as many as there are places, is a corner of the
/// tetrahedron at its place.
fn have_corners(rows: &TetList, own: usize, places: &[usize]) -> bool
    requires { own + length places.now ≤ 2 ^ 63 }
    ensures { IsTrue result → AreCorners own (length places.now) rows.now }
{
    for (j, place) in places.iter().enumerate() {
        if !has_corner_at(rows, *place, own + j) {
            return false;
        }
    }
    true
}

/// Whether each of `count` points from `own` on is a corner of a tetrahedron of the list.
pub(crate) fn are_corners(
    alloc: Global,
    rows: &TetList,
    own: usize,
    count: usize,
) -> Result<bool, NoMemory>
    requires { own + count ≤ 2 ^ 63 }
    ensures { IfOk result (λ all. IsTrue all → AreCorners own count rows.now) }
{
    let places = stars_of(alloc, rows, own, count)?;
    Ok(places.len() == count && have_corners(rows, own, places.as_slice()))
}

//! The tetrahedra that are left when the outside and the holes are cut away.
ghost use Rattle.std.specs.Prelude.{pos, ◌<ℤ◌, ◌≡◌, ◌<◌, ◌≤◌, ◌↔◌, ◌+◌, ℕ, true, false};
ghost use Rattle.std.specs.Prelude.{AllPairs, All, length, take, IfOk, OnOk};
ghost use Rattle.geo_laws.specs.Delaunay.{RowBefore};
ghost use Rattle.path_laws.specs.Places.{IsFilling, IsKeptPart};
ghost use Rattle.path_laws.specs.Flood.{carving_of};
ghost use Rattle.hole_carve.specs.Kept.{unmarked};
ghost use Rattle.hole_carve.specs.Seeds.{IsSearchable, BeginsAt};
ghost use Rattle.geo_laws.specs.Marks.{is_marked};

use crate::flood::flooded;
use crate::seeds::{mark_seeds, no_marks};
use crate::walled::Walled;
use geo_laws::{FacetTriangles, Points, RatPoints, TetList};
use std::alloc::Global;
use tet_ports::NoMemory;

/// Appends the tetrahedron at place `at` if it has no mark.
fn keep_row(list: &TetList, marks: &[bool], at: usize, rows: &mut TetList) -> Result<(), NoMemory>
    requires there { at < length list.now }
    requires long { length list.now ≤ length marks.now }
    requires before { rows.old ≡ unmarked (take at list.now) marks.now }
    ensures { OnOk result (rows.new ≡ unmarked (take (at + 1) list.now) marks.now) }
{
    if marks[at] {
        return Ok(());
    }
    rows.push(list.at(at))?;
    Ok(())
}

/// The tetrahedra without a mark, in order.
fn rows_unmarked(alloc: Global, list: &TetList, marks: &[bool]) -> Result<TetList, NoMemory>
    requires { length list.now ≤ length marks.now }
    ensures { IfOk result (λ rows. rows ≡ unmarked list.now marks.now) }
{
    let mut rows = TetList::with_capacity(alloc, list.len())?;
    for at in 0..list.len() {
        keep_row(list, marks, at, &mut rows)?;
    }
    Ok(rows)
}

/// Marks the outside of the hull, at the place past the last tetrahedron, unless the hull is kept.
/// No place is marked before.
fn mark_hull(list: &TetList, keep_hull: bool, seeds: &mut [bool])
    requires long { length seeds.old ≡ length list.now + 1 }
    requires clear { (i : ℕ) → is_marked seeds.old i ≡ false }
    ensures long { length seeds.new ≡ length list.now + 1 }
    ensures marked { (i : ℕ) → (is_marked seeds.new i ≡ true)
        ↔ ((keep_hull ≡ false) × (i ≡ length list.now)) }
{
    if keep_hull {
        return;
    }
    seeds[list.len()] = true;
}

/// The seeds of the flood fill that carves: the outside of the hull, unless the hull is kept, and
/// each hole point.
fn seeds_of(
    alloc: Global,
    mesh: &Walled<'_>,
    holes: &RatPoints,
    keep_hull: bool,
) -> Result<Vec<bool>, NoMemory>
    requires rows { IsSearchable mesh.now }
    ensures long { IfOk result (λ seeds. length seeds.items ≡ length mesh.now.list.now + 1) }
    ensures marked { IfOk result (λ seeds. (i : ℕ)
        → (is_marked seeds.items i ≡ true)
        ↔ BeginsAt keep_hull mesh.now.points.now mesh.now.closed mesh.now.list.now holes.now
        (length holes.now) i) }
{
    let mut seeds = no_marks(alloc, mesh.list.len() + 1)?;
    mark_hull(mesh.list, keep_hull, &mut seeds);
    for at in 0..holes.len() {
        mark_seeds(alloc, mesh, holes.at(at), &mut seeds)?;
    }
    Ok(seeds)
}

/// The tetrahedra that carving keeps: those whose inner points no free path joins to a hole point,
/// nor, unless the hull is kept, to the outside of the hull.
pub fn carve(
    alloc: Global,
    points: &Points,
    list: &TetList,
    triangles: &FacetTriangles,
    holes: &RatPoints,
    keep_hull: bool,
) -> Result<TetList, NoMemory>
    requires filling { IsFilling points.now triangles.now list.now }
    requires holes { All (λ h. pos 0 <ℤ h.w) holes.now }
    ensures kept { IfOk result (λ rows. IsKeptPart
        (carving_of keep_hull) points.now triangles.now list.now holes.now rows) }
    ensures ascending { AllPairs RowBefore list.now
        → IfOk result (λ rows. AllPairs RowBefore rows) }
{
    let mesh = Walled::new(alloc, points, list, triangles, holes.len())?;
    let ways = mesh.ways();
    let seeds = seeds_of(alloc, &mesh, holes, keep_hull)?;
    let marks = flooded(alloc, &ways, &seeds)?;
    rows_unmarked(alloc, list, &marks)
}

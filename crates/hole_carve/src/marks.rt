//! The region of each tetrahedron: the first region point that a free path joins with it.
ghost use Rattle.std.specs.Prelude.{◌≡◌, ◌≢◌, ◌+◌, ◌<◌, ◌≤◌, ◌<ℤ◌, pos, ℕ};
ghost use Rattle.std.specs.Prelude.{AllPairs, All, Contains, Some, None, length, IfOk, OnOk};
ghost use Rattle.geo_laws.specs.Delaunay.{RowBefore};
ghost use Rattle.path_laws.specs.Places.{IsFilling};
ghost use Rattle.hole_carve.specs.Seeds.{IsSearchable};
ghost use Rattle.hole_carve.specs.Flooding.{IsFlooded, LeadsWithin};
ghost use Rattle.hole_carve.specs.Floods.{IsFlood, GoesOn, IsFloodDone, HasReached};
ghost use Rattle.hole_carve.specs.Marks.{mark_at, IsPutFrom, AreNumbered, AreRegionMarks, AreKeptMarks};
ghost use Rattle.hole_carve.specs.Marks.{IsPlaceFrom, KeptMarksLaw};

use crate::flood::Flood;
use crate::seeds::{mark_seeds, no_marks};
use crate::walled::Walled;
use crate::ways::Ways;
use geo_laws::{Complex, FacetTriangles, Points, Tet, TetList};
use incidence::Marks;
use std::alloc::Global;
use tet_ports::NoMemory;

/// Writes a number at a place, if the place is that of a tetrahedron.
fn put_at(place: usize, number: u32, marks: &mut [Option<u32>])
    ensures long { length marks.new ≡ length marks.old }
    ensures here { place < length marks.old → mark_at marks.new place ≡ Some number }
    ensures others { (i : ℕ) → i ≢ place → mark_at marks.new i ≡ mark_at marks.old i }
{
    if place < marks.len() {
        marks[place] = Some(number);
    }
}

/// Writes a number at the tetrahedra in a queue from place `from` on.
fn put_from(queue: &[usize], from: usize, number: u32, marks: &mut [Option<u32>])
    requires { from ≤ length queue.now }
    ensures { IsPutFrom queue.now from (length queue.now) number marks.old marks.new }
{
    for at in from..queue.len() {
        put_at(queue[at], number, marks);
    }
}

/// Continues the flood fill from new seeds, and writes a number at the tetrahedra that it newly
/// reaches. Those that it reached before keep theirs.
fn put_flood(
    ways: &Ways<'_>,
    seeds: &[bool],
    number: u32,
    flood: &mut Flood,
    marks: &mut [Option<u32>],
) -> Result<(), NoMemory>
    requires seeds { length seeds.now ≡ length ways.now + 1 }
    requires within { LeadsWithin ways.now }
    requires flood { IsFlood ways.now seeds.now flood.old }
    requires done { IsFloodDone ways.now flood.old }
    ensures exactly { OnOk result (HasReached flood.new (IsFlooded ways.now seeds.now)) }
    ensures goes_on { OnOk result (GoesOn ways.now seeds.now flood.old flood.new) }
    ensures done { OnOk result (IsFloodDone ways.now flood.new) }
    ensures put { OnOk result (IsPutFrom flood.new.queue.items (length flood.old.queue.items)
        (length flood.new.queue.items) number marks.old marks.new) }
{
    let from = flood.queue.len();
    flood.fill(ways, seeds)?;
    put_from(&flood.queue, from, number, marks);
    Ok(())
}

/// For each tetrahedron the number of the first region point whose flood fill reaches it. One flood
/// fill serves for all points: it continues from each point to the next.
fn numbers_of(
    alloc: Global,
    mesh: &Walled<'_>,
    ways: &Ways<'_>,
    complex: &Complex,
) -> Result<Vec<Option<u32>>, NoMemory>
    requires rows { IsSearchable mesh.now }
    requires ways { length ways.now ≡ length mesh.now.list.now }
    requires within { LeadsWithin ways.now }
    ensures long { IfOk result (λ marks. length marks.items ≡ length mesh.now.list.now) }
    ensures numbered { IfOk result (λ marks. AreNumbered mesh.now.points.now mesh.now.closed
        mesh.now.list.now ways.now
        complex.now.regions (length complex.now.regions) marks.items) }
{
    let mut marks = Vec::new(alloc);
    marks.resize(mesh.list.len(), None)?;
    let mut seeds = no_marks(alloc, mesh.list.len() + 1)?;
    let mut flood = Flood::new(alloc, mesh.list.len() + 1)?;
    for k in 0..complex.region_count() {
        mark_seeds(alloc, mesh, complex.region(k).at, &mut seeds)?;
        put_flood(ways, &seeds, k, &mut flood, &mut marks)?;
    }
    Ok(marks)
}

/// For each tetrahedron the number of the first region point, from 0 in file order, that a free
/// path joins with some point inside it, or none.
pub fn mark_regions(
    alloc: Global,
    points: &Points,
    list: &TetList,
    triangles: &FacetTriangles,
    complex: &Complex,
) -> Result<Marks, NoMemory>
    requires filling { IsFilling points.now triangles.now list.now }
    requires regions { All (λ r. pos 0 <ℤ r.at.w) complex.now.regions }
    ensures { IfOk result (λ marks. AreRegionMarks points.now triangles.now list.now
        complex.now.regions marks) }
{
    let mesh = Walled::new(
        alloc,
        points,
        list,
        triangles,
        complex.region_count() as usize,
    )?;
    let ways = mesh.ways();
    let marks = numbers_of(alloc, &mesh, &ways, complex)?;
    Ok(Marks::from(marks))
}

/// The first place from `from` on at which a list has the tetrahedron, or the list's length.
fn place_from(list: &TetList, row: Tet, from: usize) -> usize
    requires { from ≤ length list.now }
    ensures { IsPlaceFrom list.now row from result }
{
    for at in from..list.len() {
        if list.at(at) == row {
            return at;
        }
    }
    list.len()
}

/// For each tetrahedron of a sublist its mark in the whole list. Both lists ascend.
pub fn kept_marks(
    alloc: Global,
    list: &TetList,
    marks: &Marks,
    kept: &TetList,
) -> Result<Marks, NoMemory>
    requires ascending { AllPairs RowBefore list.now }
    requires kept_ascending { AllPairs RowBefore kept.now }
    requires long { length marks.now ≡ length list.now }
    requires part { (t : Tet) → Contains kept.now t → Contains list.now t }
    ensures { IfOk result (λ own. AreKeptMarks list.now marks.now kept.now own) }
{
    let mut own = Marks::new(alloc);
    let mut place = 0;
    for at in 0..kept.len() {
        place = place_from(list, kept.at(at), place);
        own.push(marks.at(place))?;
    }
    Ok(own)
}

/// The marks that the kept tetrahedra have in the whole list are those that they have among
/// themselves.
pub fn law_kept_marks()
    ensures { KeptMarksLaw }
{}

//! Complexes whose corners name the points that are kept where equal ones are folded.

ghost use Rattle.std.specs.Prelude.{◌≡◌, ◌<◌, ◌≤◌, ◌+◌, ◌-◌, ◌^◌, [], length, map, slice_index, All, IfOk, OnOk};
ghost use Rattle.node_files.specs.Writing.{IsNodeTable};
ghost use Rattle.plc_files.specs.Folding.{HasCornersBelow, folded_polygon, folded_complex, polygons_between, IsFoldedTo};
ghost use Rattle.plc_files.specs.Appending.{plus_polygons, plus_facet_holes, plus_holes, plus_regions};

use geo_laws::{Complex, Facet, RatPoints};
use node_files::{Names, NodeTable};
use std::alloc::Global;
use tet_ports::{Items, NoMemory};

/// The places of the kept points that are equal to the listed points at `corners`.
fn folded_corners(alloc: Global, folded: &Names, corners: &[u32]) -> Result<Items<u32>, NoMemory>
    requires { All (λ i. i < length folded.now) corners.now }
    ensures { IfOk result (λ places. places ≡ map (slice_index folded.now) corners.now) }
{
    let mut places = Items::with_capacity(alloc, corners.len())?;
    for corner in corners {
        places.push(folded.at(*corner as usize))?;
    }
    Ok(places)
}

/// Appends the polygons of a facet to the last facet, with their corners folded.
fn fold_polygons(
    alloc: Global,
    complex: &Complex,
    facet: &Facet,
    folded: &Names,
    made: &mut Complex,
) -> Result<(), NoMemory>
    requires order { facet.now.first ≤ facet.now.past }
    requires there { facet.now.past ≤ length complex.now.polygons }
    requires corners { HasCornersBelow (length folded.now) complex.now }
    requires facet { 0 < length made.old.facets }
    requires place { length made.old.polygons ≡ facet.now.first }
    ensures { OnOk result (made.new ≡ plus_polygons (map (folded_polygon folded.now)
        (polygons_between facet.now.first facet.now.past complex.now.polygons)) made.old) }
{
    for i in facet.first..facet.past {
        let corners = folded_corners(alloc, folded, complex.corners(i))?;
        made.add_polygon(corners.as_slice(), complex.polygon_line(i))?;
    }
    Ok(())
}

/// Appends hole points to the last facet.
fn copy_facet_holes(holes: &RatPoints, made: &mut Complex) -> Result<(), NoMemory>
    requires { 0 < length made.old.facets }
    ensures { OnOk result (made.new ≡ plus_facet_holes holes.now made.old) }
{
    for i in 0..holes.len() {
        made.add_facet_hole(holes.at(i))?;
    }
    Ok(())
}

/// Appends the facet at a place, with its corners folded.
fn fold_facet(
    alloc: Global,
    complex: &Complex,
    i: u32,
    folded: &Names,
    made: &mut Complex,
) -> Result<(), NoMemory>
    requires there { i < length complex.now.facets }
    requires corners { HasCornersBelow (length folded.now) complex.now }
    requires few { length made.old.facets < 2 ^ 32 - 1 }
    requires before { IsFoldedTo folded.now complex.now i made.old }
    ensures { OnOk result (IsFoldedTo folded.now complex.now (i + 1) made.new) }
{
    let facet = complex.facet(i);
    made.add_facet(facet.marker)?;
    fold_polygons(alloc, complex, facet, folded, made)?;
    copy_facet_holes(&facet.holes, made)
}

/// Appends hole points.
fn copy_holes(holes: &RatPoints, made: &mut Complex) -> Result<(), NoMemory>
    ensures { OnOk result (made.new ≡ plus_holes holes.now made.old) }
{
    for i in 0..holes.len() {
        made.add_hole(holes.at(i))?;
    }
    Ok(())
}

/// Appends the regions of a complex to one that has none.
fn copy_regions(complex: &Complex, made: &mut Complex) -> Result<(), NoMemory>
    requires { made.old.regions ≡ [] }
    ensures { OnOk result (made.new ≡ plus_regions complex.now.regions made.old) }
{
    for i in 0..complex.region_count() {
        let region = complex.region(i);
        made.add_region(region.at, &region.attribute)?;
    }
    Ok(())
}

/// The facets of a complex, with their corners folded.
fn folded_facets(alloc: Global, complex: &Complex, folded: &Names) -> Result<Complex, NoMemory>
    requires { HasCornersBelow (length folded.now) complex.now }
    ensures { IfOk result (λ made. made ≡ record
        (folded_complex folded.now complex.now) { holes = []; regions = [] }) }
{
    let mut made = Complex::new(alloc);
    for i in 0..complex.facet_count() {
        fold_facet(alloc, complex, i, folded, &mut made)?;
    }
    Ok(made)
}

/// The complex of a table's listed points, by their places, on its kept points: each corner names
/// the kept point that is equal to the listed one. The only refusal is out of memory.
pub fn fold(alloc: Global, complex: &Complex, table: &NodeTable) -> Result<Complex, NoMemory>
    requires table { IsNodeTable table.now }
    requires corners { HasCornersBelow (length table.now.listed) complex.now }
    ensures folded { IfOk result (λ made. made ≡ folded_complex table.now.folded complex.now) }
    ensures corners { IfOk result (HasCornersBelow (length table.now.points)) }
{
    let mut made = folded_facets(alloc, complex, &table.folded)?;
    copy_holes(complex.hole_points(), &mut made)?;
    copy_regions(complex, &mut made)?;
    Ok(made)
}

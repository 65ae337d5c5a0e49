//! The complex of a caller's arrays on the points of a table.

ghost use Rattle.std.specs.Prelude.{◌≡◌, ◌<◌, ◌-◌, ◌^◌, All, IfOk, OnOk, length, map, slice_index};
ghost use Rattle.std.specs.List.{fold};
ghost use Rattle.array_meshes.specs.Complexes.{HasParts, IsFacetThere, IsPolygonThere, complex_on, drawn_facets, rational_place, with_drawn_facet, with_drawn_facet_hole, with_drawn_hole, with_drawn_polygon, with_drawn_polygons, with_drawn_region};

use crate::arrays::{Place, decimal_point};
use crate::complexes::{ArrayComplex, Facet, Polygon};
use geo_laws::Complex;
use grid_coords::{Grid, to_rat};
use node_files::{Names, NodeTable};
use sign_predicates::RatPoint;
use std::alloc::Global;
use tet_ports::{Bytes, Items, NoMemory};

/// A list of a complex takes one more part only where its places stay below 2^32 - 1; a longer one
/// counts as out of memory.
fn one_more(count: u32) -> Result<(), NoMemory>
    ensures { OnOk result (count < 2 ^ 32 - 1) }
{
    if count >= u32::MAX {
        return Err(NoMemory);
    }
    Ok(())
}

/// The places of the kept points that are equal to the points at these places.
fn kept_corners(alloc: Global, folded: &Names, corners: &[u32]) -> Result<Items<u32>, NoMemory>
    requires { All (λ i. i < length folded.now) corners.now }
    ensures { IfOk result (λ places. places ≡ map (slice_index folded.now) corners.now) }
{
    let mut places = Items::with_capacity(alloc, corners.len())?;
    for corner in corners {
        places.push(folded.at(*corner as usize))?;
    }
    Ok(places)
}

/// Appends a polygon to the last facet.
fn add_polygon(
    alloc: Global,
    folded: &Names,
    complex: &ArrayComplex<'_>,
    polygon: &Polygon,
    made: &mut Complex,
) -> Result<(), NoMemory>
    requires folded { length folded.now ≡ length complex.now.points.now }
    requires there { IsPolygonThere complex.now polygon.now }
    requires facet { 0 < length made.old.facets }
    ensures made { OnOk result
        (made.new ≡ with_drawn_polygon folded.now complex.now made.old polygon.now) }
    ensures facets { OnOk result (length made.new.facets ≡ length made.old.facets) }
{
    one_more(made.polygon_count())?;
    let corners = &complex.corners[polygon.first..polygon.past];
    let places = kept_corners(alloc, folded, corners)?;
    made.add_polygon(places.as_slice(), 0)
}

/// Appends a facet with its polygons.
fn add_polygons(
    alloc: Global,
    folded: &Names,
    complex: &ArrayComplex<'_>,
    facet: &Facet,
    made: &mut Complex,
) -> Result<(), NoMemory>
    requires folded { length folded.now ≡ length complex.now.points.now }
    requires there { IsFacetThere complex.now facet.now }
    ensures made { OnOk result
        (made.new ≡ with_drawn_polygons folded.now complex.now made.old facet.now) }
    ensures facet { OnOk result (0 < length made.new.facets) }
{
    one_more(made.facet_count())?;
    made.add_facet(Some(facet.marker))?;
    for polygon in &complex.polygons[facet.first..facet.past] {
        add_polygon(alloc, folded, complex, polygon, made)?;
    }
    Ok(())
}

/// A point of an array over the denominator 10^6 of grid units.
fn rational_place(grid: &Grid, place: &Place) -> RatPoint
    ensures { result ≡ rational_place grid.now place.now }
{
    to_rat(grid, &decimal_point(place))
}

/// Appends a point in a hole of the last facet.
fn add_facet_hole(grid: &Grid, hole: &Place, made: &mut Complex) -> Result<(), NoMemory>
    requires { 0 < length made.old.facets }
    ensures made { OnOk result (made.new ≡ with_drawn_facet_hole grid.now made.old hole.now) }
    ensures facets { OnOk result (length made.new.facets ≡ length made.old.facets) }
{
    made.add_facet_hole(rational_place(grid, hole))
}

/// Appends points in holes of the last facet.
fn add_facet_holes(grid: &Grid, holes: &[Place], made: &mut Complex) -> Result<(), NoMemory>
    requires { 0 < length made.old.facets }
    ensures { OnOk result (made.new ≡ fold (with_drawn_facet_hole grid.now) made.old holes.now) }
{
    for hole in holes {
        add_facet_hole(grid, hole, made)?;
    }
    Ok(())
}

/// Appends a facet with its polygons and the points in its holes.
fn add_facet(
    alloc: Global,
    table: &NodeTable,
    complex: &ArrayComplex<'_>,
    facet: &Facet,
    made: &mut Complex,
) -> Result<(), NoMemory>
    requires folded { length table.now.folded ≡ length complex.now.points.now }
    requires there { IsFacetThere complex.now facet.now }
    ensures { OnOk result
        (made.new ≡ with_drawn_facet table.now complex.now made.old facet.now) }
{
    add_polygons(alloc, &table.folded, complex, facet, made)?;
    let holes = &complex.facet_holes[facet.first_hole..facet.past_hole];
    add_facet_holes(&table.grid, holes, made)
}

/// The facets of the complex, with their parts.
fn facets_of(
    alloc: Global,
    table: &NodeTable,
    complex: &ArrayComplex<'_>,
) -> Result<Complex, NoMemory>
    requires folded { length table.now.folded ≡ length complex.now.points.now }
    requires there { HasParts complex.now }
    ensures { IfOk result (λ made. made ≡ drawn_facets table.now complex.now) }
{
    let mut made = Complex::new(alloc);
    for facet in complex.facets {
        add_facet(alloc, table, complex, facet, &mut made)?;
    }
    Ok(made)
}

/// Appends the hole points.
fn add_holes(grid: &Grid, holes: &[Place], made: &mut Complex) -> Result<(), NoMemory>
    ensures { OnOk result (made.new ≡ fold (with_drawn_hole grid.now) made.old holes.now) }
{
    for hole in holes {
        made.add_hole(rational_place(grid, hole))?;
    }
    Ok(())
}

/// Appends the region points, with no attribute.
fn add_regions(
    alloc: Global,
    grid: &Grid,
    regions: &[Place],
    made: &mut Complex,
) -> Result<(), NoMemory>
    ensures { OnOk result (made.new ≡ fold (with_drawn_region grid.now) made.old regions.now) }
{
    let none = Bytes::new(alloc);
    for region in regions {
        one_more(made.region_count())?;
        made.add_region(rational_place(grid, region), &none)?;
    }
    Ok(())
}

/// The complex on the kept points of a table of its points.
pub(crate) fn complex_on(
    alloc: Global,
    table: &NodeTable,
    complex: &ArrayComplex<'_>,
) -> Result<Complex, NoMemory>
    requires folded { length table.now.folded ≡ length complex.now.points.now }
    requires there { HasParts complex.now }
    ensures { IfOk result (λ made. made ≡ complex_on table.now complex.now) }
{
    let mut made = facets_of(alloc, table, complex)?;
    add_holes(&table.grid, complex.holes, &mut made)?;
    add_regions(alloc, &table.grid, complex.regions, &mut made)?;
    Ok(made)
}

//! A complex without its hole points.

ghost use Rattle.std.specs.Prelude.{◌≡◌, ◌<◌, ◌≤◌, ◌+◌, ◌-◌, ◌^◌, [], length, IfOk, OnOk};
ghost use Rattle.plc_files.specs.Appending.{plus_facet_holes, plus_polygons, plus_regions};
ghost use Rattle.plc_files.specs.Folding.{polygons_between};
ghost use Rattle.tetfit_run.specs.Holes.{without_hole_points, IsCopiedTo};

use geo_laws::{Complex, Facet, RatPoints};
use run_steps::Bound;
use std::alloc::Global;
use tet_ports::NoMemory;

/// Appends the polygons of a facet to the last facet.
fn copy_polygons(complex: &Complex, facet: &Facet, made: &mut Complex) -> Result<(), NoMemory>
    requires order { facet.now.first ≤ facet.now.past }
    requires there { facet.now.past ≤ length complex.now.polygons }
    requires facet { 0 < length made.old.facets }
    requires place { length made.old.polygons ≡ facet.now.first }
    ensures { OnOk result (made.new ≡ plus_polygons
        (polygons_between facet.now.first facet.now.past complex.now.polygons) made.old) }
{
    for i in facet.first..facet.past {
        made.add_polygon(complex.corners(i), complex.polygon_line(i))?;
    }
    Ok(())
}

/// Appends hole points to the last facet.
fn copy_facet_holes(holes: &RatPoints, made: &mut Complex) -> Result<(), NoMemory>
    requires { 0 < length made.old.facets }
    ensures { OnOk result (made.new ≡ plus_facet_holes holes.now made.old) }
{
    for i in 0..holes.len() {
        made.add_facet_hole(holes.at(i))?;
    }
    Ok(())
}

/// Appends the facet at a place, with its hole points.
fn copy_facet(complex: &Complex, i: u32, made: &mut Complex) -> Result<(), NoMemory>
    requires there { i < length complex.now.facets }
    requires few { length made.old.facets < 2 ^ 32 - 1 }
    requires before { IsCopiedTo complex.now i made.old }
    ensures { OnOk result (IsCopiedTo complex.now (i + 1) made.new) }
{
    let facet = complex.facet(i);
    made.add_facet(facet.marker)?;
    copy_polygons(complex, facet, made)?;
    copy_facet_holes(&facet.holes, made)
}

/// The facets of a complex.
fn copied_facets(alloc: Global, complex: &Complex) -> Result<Complex, NoMemory>
    ensures { IfOk result (λ made. made ≡ record complex.now { holes = []; regions = [] }) }
{
    let mut made = Complex::new(alloc);
    for i in 0..complex.facet_count() {
        copy_facet(complex, i, &mut made)?;
    }
    Ok(made)
}

/// Appends the regions of a complex to one that has none.
fn copy_regions(complex: &Complex, made: &mut Complex) -> Result<(), NoMemory>
    requires { made.old.regions ≡ [] }
    ensures { OnOk result (made.new ≡ plus_regions complex.now.regions made.old) }
{
    for i in 0..complex.region_count() {
        let region = complex.region(i);
        made.add_region(region.at, &region.attribute)?;
    }
    Ok(())
}

/// Copies the complex without its hole points. Those of its facets stay.
fn uncarved(alloc: Global, complex: &Complex) -> Result<Complex, NoMemory>
    ensures { IfOk result (λ made. made ≡ record complex.now { holes = [] }) }
{
    let mut made = copied_facets(alloc, complex)?;
    copy_regions(complex, &mut made)?;
    Ok(made)
}

/// The points and the complex on their grid, without the hole points of the complex.
pub(crate) fn without_hole_points(alloc: Global, bound: Bound) -> Result<Bound, NoMemory>
    ensures { IfOk result (λ made. made ≡ without_hole_points bound) }
{
    let Bound { table, complex } = bound;
    let complex = uncarved(alloc, &complex)?;
    Ok(Bound { table, complex })
}

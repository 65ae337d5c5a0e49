//! Complexes whose points are measured from an origin.

ghost use Rattle.std.specs.Prelude.{◌≡◌, ℕ, length, map, Ok, IfOk};
ghost use Rattle.grid_coords.specs.Origins.{CanMeasure};
ghost use Rattle.plc_files.specs.Checks.{HasFewParts, corners_check};
ghost use Rattle.plc_files.specs.Measuring.{measured_facet, measured_plc, measured_region};

use crate::PlcText;
use crate::parts::{FacetText, RegionText};
use grid_coords::WholePoint;
use node_files::{each_measured_from, measured_from};
use std::alloc::Global;
use tet_ports::{Bytes, Items, NoMemory};

/// The facet with its hole points measured from the origin.
fn measured_facet(
    alloc: Global,
    w: WholePoint,
    decimals: u32,
    facet: FacetText,
) -> Result<FacetText, NoMemory>
    requires { CanMeasure decimals w }
    ensures { IfOk result (λ made. made ≡ measured_facet w decimals facet) }
{
    let FacetText {
        polygons,
        holes,
        marker,
    } = facet;
    let holes = each_measured_from(alloc, w, decimals, holes.as_slice())?;
    Ok(FacetText {
        polygons,
        holes,
        marker,
    })
}

/// The facets with their hole points measured from the origin.
fn measured_facets(
    alloc: Global,
    w: WholePoint,
    decimals: u32,
    facets: Vec<FacetText>,
) -> Result<Vec<FacetText>, NoMemory>
    requires { CanMeasure decimals w }
    ensures { IfOk result (λ made. made.items ≡ map (measured_facet w decimals) facets.items) }
{
    let mut made = Vec::with_capacity(alloc, facets.len())?;
    for facet in facets {
        made.push(measured_facet(alloc, w, decimals, facet)?)?;
    }
    Ok(made)
}

/// The region with its point measured from the origin.
fn measured_region(
    alloc: Global,
    w: WholePoint,
    decimals: u32,
    region: &RegionText,
) -> Result<RegionText, NoMemory>
    requires { CanMeasure decimals w }
    ensures { IfOk result (λ made. made ≡ measured_region w decimals region.now) }
{
    let at = measured_from(w, decimals, &region.at);
    let attribute = Bytes::from_slice(alloc, region.attribute.as_slice())?;
    Ok(RegionText {
        at,
        attribute,
        limit: region.limit,
    })
}

/// The regions with their points measured from the origin.
fn measured_regions(
    alloc: Global,
    w: WholePoint,
    decimals: u32,
    regions: &[RegionText],
) -> Result<Items<RegionText>, NoMemory>
    requires { CanMeasure decimals w }
    ensures { IfOk result (λ made. made ≡ map (measured_region w decimals) regions.now) }
{
    let mut made = Items::with_capacity(alloc, regions.len())?;
    for region in regions {
        made.push(measured_region(alloc, w, decimals, region)?)?;
    }
    Ok(made)
}

/// The complex with each of its parts measured from the origin.
fn measured_parts(w: WholePoint, decimals: u32, text: PlcText) -> Result<PlcText, NoMemory>
    requires { CanMeasure decimals w }
    ensures { IfOk result (λ made. made ≡ measured_plc w decimals text) }
{
    let PlcText {
        nodes,
        facets,
        holes,
        regions,
        alloc,
    } = text;
    Ok(PlcText {
        nodes,
        facets: measured_facets(alloc, w, decimals, facets)?,
        holes: each_measured_from(alloc, w, decimals, holes.as_slice())?,
        regions: measured_regions(alloc, w, decimals, regions.as_slice())?,
        alloc,
    })
}

/// The complex with its hole points and region points rounded to `decimals` decimals, less the
/// coordinates of the origin. Its corners stay.
pub fn measured_plc(w: WholePoint, decimals: u32, text: PlcText) -> Result<PlcText, NoMemory>
    requires { CanMeasure decimals w }
    ensures value { IfOk result (λ made. made ≡ measured_plc w decimals text) }
    ensures few { HasFewParts text → IfOk result HasFewParts }
    ensures corners { (first count : ℕ) → corners_check first count text ≡ Ok tt
        → IfOk result (λ made. corners_check first count made ≡ Ok tt) }
{
    let made = measured_parts(w, decimals, text)?;
    Ok(made)
}

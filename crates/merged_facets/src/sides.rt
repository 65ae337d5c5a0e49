//! The sides of the facets that may be joined, and for each the last earlier one with its ends.
ghost use Rattle.std.specs.Prelude.{◌≡◌, ◌<◌, ◌≤◌, ◌++◌, length, map, All, IfOk, OnOk};
ghost use Rattle.std.specs.Prelude.{◌==◌, ◌&&◌};
ghost use Rattle.geo_laws.specs.Segment.{sides};
ghost use Rattle.merged_facets.specs.FacetSides.{facet_side, ends_of, AreFacetSidesOf, AreEarlier};

use crate::polygon::only_polygon;
use geo_laws::{Complex, Piece};
use indexmap::IndexMap;
use std::alloc::Global;
use tet_ports::{Items, NoMemory};

/// A side of a facet's one polygon, from corner to corner.
#[derive(Clone, Copy)]
pub(crate) struct FacetSide {
    pub(crate) facet: u32,
    pub(crate) side: Piece,
}

/// The two ends of a side, the lesser number first.
#[derive(Clone, Copy, PartialEq, Eq, Hash)]
pub(crate) struct Ends {
    pub(crate) low: u32,
    pub(crate) high: u32,
}

/// The ends of a side.
pub(crate) fn ends_of(side: Piece) -> Ends
    ensures { result ≡ ends_of side }
{
    Ends {
        low: side.a.min(side.b),
        high: side.a.max(side.b),
    }
}

/// Appends the sides of a facet's polygon.
fn add_sides(list: &mut Items<FacetSide>, facet: u32, corners: &[u32]) -> Result<(), NoMemory>
    ensures { OnOk result (list.new ≡ list.old ++ map (facet_side facet) (sides corners.now)) }
{
    for k in 0..corners.len() {
        let next = if k + 1 < corners.len() { k + 1 } else { 0 };
        let (a, b) = (corners[k], corners[next]);
        if a != b {
            let side = Piece { a, b, halvings: 0 };
            list.push(FacetSide { facet, side })?;
        }
    }
    Ok(())
}

/// The sides of all facets that may be joined.
pub(crate) fn facet_sides(alloc: Global, complex: &Complex) -> Result<Items<FacetSide>, NoMemory>
    ensures { IfOk result (AreFacetSidesOf complex.now) }
{
    let mut list = Items::new(alloc);
    for facet in 0..complex.facet_count() {
        add_sides(&mut list, facet, only_polygon(complex, facet))?;
    }
    Ok(list)
}

/// For each side the place of the last earlier one with the same ends; None where there is none.
pub(crate) fn earlier_alike(
    alloc: Global,
    list: &Items<FacetSide>,
) -> Result<Items<Option<usize>>, NoMemory>
    ensures { IfOk result (AreEarlier list.now) }
{
    let mut earlier = Items::with_capacity(alloc, list.len())?;
    let mut last = IndexMap::new(alloc);
    for i in 0..list.len() {
        earlier.push(last.insert(ends_of(list.at(i).side), i)?)?;
    }
    Ok(earlier)
}

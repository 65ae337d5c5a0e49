//! The points of a facet's plane that are near the facet.
ghost use Rattle.std.specs.Prelude.{◌≡◌, ◌<◌, ◌≤◌, ◌-◌, ◌^◌, length, All, IfOk, Some};
ghost use Rattle.box_tree.specs.Bodies.{IsPointTree};
ghost use Rattle.box_tree.specs.Bounds.{IsBoxWithin};
ghost use Rattle.geo_laws.specs.Complex.{flat_facet, HasCornersOf};
ghost use Rattle.geo_laws.specs.Facet.{IsFlat, all_corners, plane};
ghost use Rattle.facet_laws.specs.Region.{through};
ghost use Rattle.facet_plane.specs.NearPoints.{HoldsAll, ArePlaneNumbersIn, AreNumbersNear};

use crate::search::is_in_plane;
use box_tree::{Bounds, Tree, joined, next_meeting, point_bounds};
use geo_laws::{Complex, Facet, Points};
use sign_predicates::GridPoint;
use std::alloc::Global;
use tet_ports::{Items, NoMemory};

/// The least box round a box and the corners.
fn with_corners(bounds: Bounds, points: &Points, corners: &[u32]) -> Bounds
    requires { All (λ i. i < length points.now) corners.now }
    ensures holds { HoldsAll points.now result corners.now }
    ensures wider { IsBoxWithin bounds result }
{
    let mut wide = bounds;
    for i in 0..corners.len() {
        wide = joined(wide, point_bounds(points.at(corners[i] as usize)));
    }
    wide
}

/// The least box round the point and all corners of the facet.
fn facet_bounds(p: GridPoint, points: &Points, complex: &Complex, facet: &Facet) -> Bounds
    requires corners { HasCornersOf points.now complex.now }
    requires order { facet.now.first ≤ facet.now.past }
    requires range { facet.now.past ≤ length complex.now.polygons }
    ensures { HoldsAll points.now result
        (all_corners (flat_facet complex.now.polygons facet.now)) }
{
    let mut bounds = point_bounds(p);
    for q in facet.first..facet.past {
        bounds = with_corners(bounds, points, complex.corners(q));
    }
    bounds
}

/// The numbers of points in the plane of three, ascending, with all of those that the box holds.
fn plane_numbers(
    alloc: Global,
    points: &Points,
    tree: &Tree,
    bounds: &Bounds,
    span: (u32, u32, u32),
) -> Result<Items<u32>, NoMemory>
    requires few { length points.now < 2 ^ 32 - 1 }
    requires tree { IsPointTree points.now tree.now }
    requires a_is_there { span.0 < length points.now }
    requires b_is_there { span.1 < length points.now }
    requires c_is_there { span.2 < length points.now }
    ensures { IfOk result
        (ArePlaneNumbersIn points.now (through points.now span) bounds.now) }
{
    let a = points.at(span.0 as usize);
    let b = points.at(span.1 as usize);
    let c = points.at(span.2 as usize);
    let mut numbers = Items::new(alloc);
    let mut i = next_meeting(tree, bounds, 0);
    while i < tree.len() {
        let place = tree.get(i).own.place;
        if is_in_plane(a, b, c, points.at(place)) {
            numbers.push(place as u32)?;
        }
        i = next_meeting(tree, bounds, i + 1);
    }
    numbers.keep_distinct();
    Ok(numbers)
}

/// The numbers of points of the facet's plane, ascending: the three corners that span it and all
/// points of the region are among them.
pub(crate) fn numbers_near(
    alloc: Global,
    points: &Points,
    tree: &Tree,
    complex: &Complex,
    facet: &Facet,
    span: (u32, u32, u32),
) -> Result<Items<u32>, NoMemory>
    requires few { length points.now < 2 ^ 32 - 1 }
    requires tree { IsPointTree points.now tree.now }
    requires corners { HasCornersOf points.now complex.now }
    requires order { facet.now.first ≤ facet.now.past }
    requires range { facet.now.past ≤ length complex.now.polygons }
    requires plane { plane points.now (flat_facet complex.now.polygons facet.now) ≡ Some span }
    requires flat { IsFlat points.now (flat_facet complex.now.polygons facet.now) }
    requires a_is_there { span.0 < length points.now }
    requires b_is_there { span.1 < length points.now }
    requires c_is_there { span.2 < length points.now }
    ensures { IfOk result
        (AreNumbersNear points.now (flat_facet complex.now.polygons facet.now) span) }
{
    let bounds = facet_bounds(points.at(span.0 as usize), points, complex, facet);
    plane_numbers(alloc, points, tree, &bounds, span)
}

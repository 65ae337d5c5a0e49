//! Axis-aligned bounding boxes: bodies whose boxes are apart have no common point.
ghost use Rattle.std.specs.Prelude.{◌<◌, IsTrue, length};
ghost use Rattle.geo_laws.specs.Delaunay.{point, numbers, IsOn};
ghost use Rattle.geo_laws.specs.Facet.{corner_numbers};
ghost use Rattle.box_tree.specs.Bounds.{IsIn, AreDisjoint, AreBoundsApart, IsSubinterval, IsBoxWithin};
ghost use Rattle.box_tree.specs.Bounds.{HoldsPoint, HoldsCorners, IsTriangleOn};

use geo_laws::{FacetTriangle, Points, Tet};
use sign_predicates::GridPoint;

/// The least and the greatest of some coordinates, in grid units.
#[derive(Clone, Copy, Debug, PartialEq, Eq, PartialOrd, Ord)]
pub struct Interval {
    pub low: i32,
    pub high: i32,
}

/// An axis-aligned box.
#[derive(Clone, Copy, Debug, PartialEq, Eq, PartialOrd, Ord)]
pub struct Bounds {
    pub x: Interval,
    pub y: Interval,
    pub z: Interval,
}

/// Whether no number lies in both intervals.
#[inline]
fn are_apart(i: Interval, j: Interval) -> bool
    ensures { IsTrue result → AreDisjoint i j }
{
    i.high < j.low || j.high < i.low
}

/// Whether the boxes are apart along some axis.
#[inline]
pub fn are_bounds_apart(b: &Bounds, c: &Bounds) -> bool
    ensures { IsTrue result → AreBoundsApart b.now c.now }
{
    are_apart(b.x, c.x) || are_apart(b.y, c.y) || are_apart(b.z, c.z)
}

/// The least interval round both intervals.
#[inline]
fn span_of(i: Interval, j: Interval) -> Interval
    ensures first { IsSubinterval i result }
    ensures second { IsSubinterval j result }
{
    Interval {
        low: i.low.min(j.low),
        high: i.high.max(j.high),
    }
}

/// The least box round both boxes.
pub fn joined(b: Bounds, c: Bounds) -> Bounds
    ensures first { IsBoxWithin b result }
    ensures second { IsBoxWithin c result }
{
    Bounds {
        x: span_of(b.x, c.x),
        y: span_of(b.y, c.y),
        z: span_of(b.z, c.z),
    }
}

/// The interval of one coordinate.
#[inline]
fn interval_at(x: i32) -> Interval
    ensures { IsIn result x }
{
    Interval { low: x, high: x }
}

/// The box of one point.
pub fn point_bounds(p: GridPoint) -> Bounds
    ensures { HoldsPoint result p }
{
    Bounds {
        x: interval_at(p.x),
        y: interval_at(p.y),
        z: interval_at(p.z),
    }
}

/// The box of two points of the list.
fn bounds_of_two(points: &Points, a: u32, b: u32) -> Bounds
    requires a_on { a < length points.now }
    requires b_on { b < length points.now }
    ensures a { HoldsPoint result (point points.now a) }
    ensures b { HoldsPoint result (point points.now b) }
{
    joined(
        point_bounds(points.at(a as usize)),
        point_bounds(points.at(b as usize)),
    )
}

/// The box of a triangle.
pub fn triangle_bounds(points: &Points, t: FacetTriangle) -> Bounds
    requires { IsTriangleOn points.now t }
    ensures { HoldsCorners points.now (corner_numbers t) result }
{
    joined(
        bounds_of_two(points, t.a, t.b),
        bounds_of_two(points, t.c, t.c),
    )
}

/// The box of a tetrahedron.
pub fn tet_bounds(points: &Points, t: Tet) -> Bounds
    requires { IsOn points.now t }
    ensures { HoldsCorners points.now (numbers t) result }
{
    joined(
        bounds_of_two(points, t.a, t.b),
        bounds_of_two(points, t.c, t.d),
    )
}

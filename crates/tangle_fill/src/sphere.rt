//! A box round the circumsphere of a tetrahedron.
ghost use Rattle.std.specs.Prelude.{◌^◌, ◌≤◌, ℤ, ◌-ℤ◌, unsigned_abs, IfSome};
ghost use Rattle.sign_predicates.specs.Orientation.{IsPositive};
ghost use Rattle.geo_laws.specs.Delaunay.{corners, IsOn};
ghost use Rattle.box_tree.specs.Bounds.{IsIn};
ghost use Rattle.tangle_fill.specs.Sphere.{HoldsSphere};

use box_tree::{Bounds, Interval};
use geo_laws::{Points, Tet, corners_of};
use sign_predicates::{GridPoint, sphere_reach};

/// The interval of the numbers that differ by at most `reach` from a coordinate of the grid.
fn around(x: i32, reach: u32) -> Interval
    requires coordinate { unsigned_abs x ≤ 2 ^ 29 }
    requires reach { reach ≤ 2 ^ 30 }
    ensures { (z : ℤ) → unsigned_abs (z -ℤ x) ≤ reach → IsIn result z }
{
    Interval {
        low: x - reach as i32,
        high: x + reach as i32,
    }
}

/// A box that holds all points that are not outside of the circumsphere; None where it would be
/// wider than the grid.
pub(crate) fn sphere_bounds(points: &Points, row: Tet) -> Option<Bounds>
    requires on { IsOn points.now row }
    requires positive { IsPositive (corners points.now row) }
    ensures { IfSome result (HoldsSphere (corners points.now row)) }
{
    let reach = sphere_reach(corners_of(points, row))?;
    let a = points.at(row.a as usize);
    Some(Bounds {
        x: around(a.x, reach),
        y: around(a.y, reach),
        z: around(a.z, reach),
    })
}

/// The least and the greatest of three coordinates.
fn span_of(a: i32, b: i32, c: i32) -> Interval {
    Interval {
        low: a.min(b).min(c),
        high: a.max(b).max(c),
    }
}

/// The interval, wider by `by` at both ends.
fn widened(i: Interval, by: u32) -> Interval {
    Interval {
        low: i.low.saturating_sub_unsigned(by),
        high: i.high.saturating_add_unsigned(by),
    }
}

fn width(i: Interval) -> u32 {
    i.high.abs_diff(i.low)
}

/// The greatest width of the box of three points.
pub(crate) fn greatest_width(a: GridPoint, b: GridPoint, c: GridPoint) -> u32 {
    let x = width(span_of(a.x, b.x, c.x));
    let y = width(span_of(a.y, b.y, c.y));
    let z = width(span_of(a.z, b.z, c.z));
    x.max(y).max(z)
}

/// The box of three points, wider by its greatest width on each side.
pub(crate) fn face_surroundings(a: GridPoint, b: GridPoint, c: GridPoint) -> Bounds {
    let more = greatest_width(a, b, c);
    Bounds {
        x: widened(span_of(a.x, b.x, c.x), more),
        y: widened(span_of(a.y, b.y, c.y), more),
        z: widened(span_of(a.z, b.z, c.z), more),
    }
}

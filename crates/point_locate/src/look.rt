//! Where a point lies to one slot.
ghost use Rattle.std.specs.Prelude.{◌≡◌, ℕ, ◌<◌, ◌≤ℤ◌, ◌<ℤ◌, ◌↔◌, pos, length, IsTrue, MatchOption};
ghost use Rattle.sign_predicates.specs.Orientation.{side, opposite_face, IsPositive};
ghost use Rattle.geo_laws.specs.Delaunay.{corners};
ghost use Rattle.mesh_arena.specs.Mesh.{corner_list};
ghost use Rattle.point_locate.specs.Place.{corner_point, placed, row_corners, AreOn, IsCornerOn, Looks};
ghost use Rattle.point_locate.specs.Place.{HasShape};

use geo_laws::{Points, Tet, corners_of};
use mesh_arena::{Corner, SlotCorners};
use sign_predicates::{Corners, GridPoint, Sign, beyond, orient};

// The point is in the closed tetrahedron, or strictly beyond the hull face of the ghost, or
// neither, and the walk goes on through a face.
#[derive(Clone, Copy, Debug)]
pub(crate) enum Look {
    Inside,
    Beyond,
    Out(u8),
}

/// The shape of a slot: a tetrahedron of points, or a hull ghost with the point at infinity in a
/// place, from 0.
#[derive(Clone, Copy)]
pub enum Shape {
    Row(Tet),
    Ghost(u8),
}

/// The shape of a slot, by its corners. The first place with the point at infinity makes it a
/// ghost.
pub fn shape_of(t: SlotCorners) -> Shape
    ensures { HasShape (corner_list t) result }
{
    let Corner::Point(a) = t.a else {
        return Shape::Ghost(0);
    };
    let Corner::Point(b) = t.b else {
        return Shape::Ghost(1);
    };
    let Corner::Point(c) = t.c else {
        return Shape::Ghost(2);
    };
    let Corner::Point(d) = t.d else {
        return Shape::Ghost(3);
    };
    Shape::Row(Tet { a, b, c, d })
}

/// The point of a corner, or `p` for the point at infinity. Corners are places in `points`, from 0,
/// and coordinates are in grid units.
fn corner_point(points: &Points, p: GridPoint, corner: Corner) -> GridPoint
    requires { IsCornerOn points.now corner }
    ensures { result ≡ corner_point points.now p corner }
{
    match corner {
        Corner::Point(i) => points.at(i as usize),
        Corner::Ghost => p,
    }
}

/// The points of a slot's corners in their places, with `p` in place of the point at infinity. A
/// ghost so placed is positive exactly where `p` is strictly beyond its hull face. Corners are
/// places in `points`, from 0, and coordinates are in grid units.
pub fn placed(points: &Points, p: GridPoint, t: SlotCorners) -> Corners
    requires { AreOn points.now (corner_list t) }
    ensures { result ≡ placed points.now p t }
{
    Corners {
        a: corner_point(points, p, t.a),
        b: corner_point(points, p, t.b),
        c: corner_point(points, p, t.c),
        d: corner_point(points, p, t.d),
    }
}

/// The points of a tetrahedron's corners, whose numbers are places in `points`, from 0. Coordinates
/// are in grid units.
#[inline]
pub fn row_points(points: &Points, row: Tet) -> Corners
    requires { AreOn points.now (row_corners row) }
    ensures { result ≡ corners points.now row }
{
    corners_of(points, row)
}

fn is_positive(t: Corners) -> bool
    ensures { IsTrue result ↔ IsPositive t }
{
    matches!(orient(t.a, t.b, t.c, t.d), Sign::Above)
}

// Whether `p` is strictly beyond a face.
#[inline(always)]
fn is_beyond(t: &Corners, face: u8, p: GridPoint) -> bool
    requires { face < 4 }
    ensures { IsTrue result ↔ (side (opposite_face t.now face) p <ℤ pos 0) }
{
    matches!(beyond(*t, face, p), Sign::Above)
}

// A face that `p` is strictly beyond. The face `entry` is tested last: a walk that came through it
// has `p` on its inner side.
#[inline(always)]
fn face_beyond(t: &Corners, entry: u8, p: GridPoint) -> Option<u8>
    requires { entry < 4 }
    ensures { MatchOption result ((k : ℕ) → k < 4 → pos 0 ≤ℤ side (opposite_face t.now k) p)
        (λ k. (k < 4) × (side (opposite_face t.now k) p <ℤ pos 0)) }
{
    for k in 0..4u8 {
        if k != entry && is_beyond(t, k, p) {
            return Some(k);
        }
    }
    if is_beyond(t, entry, p) {
        Some(entry)
    } else {
        None
    }
}

// Where the point `p` lies to the slot with these corners.
#[inline(always)]
pub(crate) fn look_at(points: &Points, t: SlotCorners, entry: u8, p: GridPoint) -> Look
    requires corners { AreOn points.now (corner_list t) }
    requires entry { entry < 4 }
    ensures { Looks points.now p (corner_list t) result }
{
    match shape_of(t) {
        Shape::Row(row) => match face_beyond(&row_points(points, row), entry, p) {
            None => Look::Inside,
            Some(face) => Look::Out(face),
        },
        Shape::Ghost(place) => {
            if is_positive(placed(points, p, t)) {
                Look::Beyond
            } else {
                Look::Out(place)
            }
        }
    }
}

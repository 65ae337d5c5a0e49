//! The points of a list, lifted over a narrow frame, for the fastest insphere tests.
ghost use Rattle.std.specs.Prelude.{◌≡◌, ◌<◌, ◌↔◌, length, IsTrue};
ghost use Rattle.geo_laws.specs.Delaunay.{corners};
ghost use Rattle.geo_laws.specs.Height.{lifted};
ghost use Rattle.insert_laws.specs.Insertion.{HasOutside};
ghost use Rattle.point_locate.specs.Place.{AreOn, row_corners};
ghost use Rattle.cavity_insert.specs.Lifting.{IsOnAxis, AreLifted, MayBeLifted, as_corners};

use crate::insert::point_at;
use crate::lift::Lift;
use geo_laws::{Points, Tet, numbers_of};
use point_locate::row_points;
use sign_predicates::{Frame, GridPoint, Lifted, LiftedCorners, lifted_outside, outside};
use std::alloc::Global;
use std::marker::Model;
use tet_ports::Items;

/// A frame, and the points of a list in it, by their numbers.
#[derive(Drop)]
pub(crate) struct LiftedPoints {
    pub(crate) frame: Frame,
    pub(crate) points: Items<Lifted>,
}

/// A list of points, all of them in a frame. Contracts see the points.
#[derive(Drop)]
pub(crate) struct Framed<'a> {
    points: &'a Points,
    lifted: &'a LiftedPoints,
}

impl<'a> Model for Framed<'a> {
    ghost use Rattle.std.specs.Prelude.{List};
    ghost use Rattle.sign_predicates.specs.Point.{Point};
    ghost use Rattle.cavity_insert.specs.Lifting.{AreLifted as AreIn};

    ghost Value = { List Point };

    ghost view = { λ s. s.points.now };

    ghost invariant = { λ s. AreIn s.lifted.now s.points.now };
}

impl<'a> Framed<'a> {
    pub(crate) fn new(points: &'a Points, lifted: &'a LiftedPoints) -> Self
        requires { AreLifted lifted.now points.now }
        ensures { result ≡ points.now }
    {
        Framed { points, lifted }
    }
}

/// Points are lifted by their squared lengths, with which their mesh is the Delaunay one.
impl<'a> Lift for Framed<'a> {
    ghost points = { λ ps. ps };

    ghost heights = { lifted };

    fn points(&self) -> &Points {
        self.points
    }

    #[inline(always)]
    fn is_outside(&self, row: Tet, number: u32) -> bool {
        outside_in_frame(self.points, row, self.lifted, number)
    }
}

/// Points are lifted by their squared lengths; for lists with a point in no narrow frame.
impl Lift for Points {
    ghost points = { λ ps. ps };

    ghost heights = { lifted };

    fn points(&self) -> &Points {
        self
    }

    fn is_outside(&self, row: Tet, number: u32) -> bool {
        outside_of(self, row, number)
    }
}

/// The lesser of two coordinates.
fn lesser(a: i32, b: i32) -> i32
    requires a { IsOnAxis a }
    requires b { IsOnAxis b }
    ensures { IsOnAxis result }
{
    if a < b { a } else { b }
}

/// The lesser of each two coordinates.
fn lower_corner(a: GridPoint, b: GridPoint) -> GridPoint {
    GridPoint {
        x: lesser(a.x, b.x),
        y: lesser(a.y, b.y),
        z: lesser(a.z, b.z),
    }
}

/// The least coordinates of `points` and `first`.
fn least_corner(points: &[GridPoint], first: GridPoint) -> GridPoint {
    let mut corner = first;
    for p in points {
        corner = lower_corner(corner, *p);
    }
    corner
}

/// The greatest power of two of which all coordinates, counted from the corner, are multiples; 1
/// where all are 0.
fn common_step(points: &[GridPoint], corner: GridPoint) -> u32
    ensures { 0 < result }
{
    let mut bits = 0;
    for p in points {
        bits |= p.x.abs_diff(corner.x) | p.y.abs_diff(corner.y) | p.z.abs_diff(corner.z);
    }
    (bits & bits.wrapping_neg()).max(1)
}

/// The points, lifted. None where their box is too wide for a frame, even with the widest step that
/// has them all, and when out of memory.
pub(crate) fn lift_points(alloc: Global, points: &Points) -> Option<LiftedPoints>
    ensures { MayBeLifted result points.now }
{
    let first = *points.as_slice().first()?;
    let corner = least_corner(points.as_slice(), first);
    let step = common_step(points.as_slice(), corner);
    let frame = Frame { corner, step };
    let mut lifted = Items::with_capacity(alloc, points.len()).ok()?;
    for p in points.as_slice() {
        let Ok(()) = lifted.push(frame.lift(*p)?) else {
            return None;
        };
    }
    Some(LiftedPoints {
        frame,
        points: lifted,
    })
}

impl LiftedPoints {
    /// The lifted corners of a tetrahedron.
    #[inline(always)]
    fn corners(&self, row: Tet) -> LiftedCorners
        requires on { AreOn self.now.points (row_corners row) }
        ensures { as_corners result ≡ corners self.now.points row }
    {
        let points = &self.points;
        LiftedCorners {
            a: points.at(row.a as usize),
            b: points.at(row.b as usize),
            c: points.at(row.c as usize),
            d: points.at(row.d as usize),
        }
    }
}

/// The insphere test in the frame: whether the point with this number is outside of a positive
/// tetrahedron, ties decided by the numbers.
#[inline(always)]
fn outside_in_frame(_points: &Points, row: Tet, lifted: &LiftedPoints, number: u32) -> bool
    requires on { AreOn _points.now (row_corners row) }
    requires inside { number < length _points.now }
    requires lifted { AreLifted lifted.now _points.now }
    ensures { IsTrue result ↔ HasOutside _points.now row number }
{
    let p = lifted.points.at(number as usize);
    lifted_outside(lifted.corners(row), numbers_of(row), p, number)
}

/// The insphere test by the points' coordinates: whether the point with this number is outside of a
/// positive tetrahedron, ties decided by the numbers.
fn outside_of(points: &Points, row: Tet, number: u32) -> bool
    requires on { AreOn points.now (row_corners row) }
    requires inside { number < length points.now }
    ensures { IsTrue result ↔ HasOutside points.now row number }
{
    let p = point_at(points, number);
    outside(row_points(points, row), numbers_of(row), p, number)
}

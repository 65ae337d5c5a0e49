//! The sides of a polygon of a facet, in blocks.
ghost use Rattle.std.specs.Prelude.{◌≡◌, ◌<◌, ◌++◌, All, IfOk, OnOk, IsTrue, length, map, filter};
ghost use Rattle.std.specs.Prelude.{[], ◌∷◌, int_le, pos, ◌==◌, ◌&&◌, not};
ghost use Rattle.std.specs.List.{list_any};
ghost use Rattle.sign_predicates.specs.Point.{from_to_rational};
ghost use Rattle.geo_laws.specs.Segment.{sides, piece};
ghost use Rattle.geo_laws.specs.Delaunay.{point};
ghost use Rattle.facet_plane.specs.Axes.{axis_is};
ghost use Rattle.facet_plane.specs.Beyond.{AreBeyond, IsBeyondBoth, Tells};
ghost use Rattle.facet_plane.specs.Walk.{is_odd};
ghost use Rattle.facet_plane.specs.Outline.{side_between, sides_between, side_meets, side_crosses, is_under};
ghost use Rattle.facet_plane.specs.Outline.{AreBoxesTo, IsBlocked, IsOutlineOf};
ghost use Rattle.facet_laws.specs.Parity.{xor};

use crate::blocks::{Block, Extent, blocks_of, extent_of, whole_extent};
use crate::plane::{Axis, crosses_ray, first_of_two, is_between_in_two, is_upward, second_of_two};
use crate::polygon::is_on_segment;
use crate::spot::Spot;
use crate::vectors::toward;
use geo_laws::Points;
use sign_predicates::GridPoint;
use std::alloc::Global;
use tet_ports::{Items, NoMemory};

/// A side of a polygon, by its ends.
#[derive(Clone, Copy)]
pub(crate) struct Side {
    pub(crate) from: GridPoint,
    pub(crate) to: GridPoint,
}

/// Whether a point is sought on sides, or over them in two coordinates.
#[derive(Clone, Copy)]
pub(crate) enum Reach {
    On,
    Over,
}

/// How the ray from a point along the first coordinate meets the sides of a block, by their box.
#[derive(Clone, Copy)]
enum Crossing {
    /// It crosses none of them.
    Never,
    /// It crosses those that have one end below and the other not.
    Between,
    /// The box does not decide.
    Unknown,
}

/// A polygon of a facet: whether it has three or more corners, its sides, blocks of them, and a box
/// round them all.
#[derive(Drop)]
pub(crate) struct Outline {
    pub(crate) is_area: bool,
    pub(crate) sides: Items<Side>,
    pub(crate) blocks: Items<Block>,
    pub(crate) extent: Extent,
}

/// Whether two numbers are both above 0, or both below.
#[inline]
fn are_beyond(m: i64, n: i64) -> bool
    ensures { IsTrue result → AreBeyond m n }
{
    m > 0 && n > 0 || m < 0 && n < 0
}

/// Whether the box is apart from `x` along one of the two coordinates.
pub(crate) fn is_apart(axis: Axis, extent: Extent, x: Spot) -> bool
    ensures { IsTrue result → IsBeyondBoth (axis_is axis)
        (from_to_rational extent.low x) (from_to_rational extent.high x) }
{
    let u = toward(extent.low, x);
    let v = toward(extent.high, x);
    are_beyond(first_of_two(axis, u), first_of_two(axis, v))
        || are_beyond(second_of_two(axis, u), second_of_two(axis, v))
}

/// How the ray from `x` meets sides in the box.
fn crossing_of(axis: Axis, extent: Extent, x: Spot) -> Crossing
    ensures { Tells (axis_is axis)
        (from_to_rational extent.low x) (from_to_rational extent.high x) result }
{
    let u = toward(extent.low, x);
    let v = toward(extent.high, x);
    if is_upward(second_of_two(axis, u)) == is_upward(second_of_two(axis, v)) {
        return Crossing::Never;
    }
    let first = first_of_two(axis, u);
    let last = first_of_two(axis, v);
    if first > 0 && last > 0 {
        Crossing::Never
    } else if first < 0 && last < 0 {
        Crossing::Between
    } else {
        Crossing::Unknown
    }
}

/// Whether the height of `x` over the one end is at least 0, and over the other below 0.
fn is_between(axis: Axis, from: GridPoint, to: GridPoint, x: Spot) -> bool
    ensures { result ≡ xor (is_under (axis_is axis) x from) (is_under (axis_is axis) x to) }
{
    is_upward(second_of_two(axis, toward(from, x))) != is_upward(second_of_two(axis, toward(to, x)))
}

/// Whether the side meets `x`.
fn is_met(reach: Reach, axis: Axis, side: Side, x: Spot) -> bool
    ensures { result ≡ side_meets reach (axis_is axis) x side }
{
    match reach {
        Reach::On => is_on_segment(side.from, side.to, x),
        Reach::Over => is_between_in_two(axis, toward(side.from, x), toward(side.to, x)),
    }
}

/// The side between two corners, unless they are one.
fn push_side(points: &Points, sides: &mut Items<Side>, a: u32, b: u32) -> Result<(), NoMemory>
    requires a_is_there { a < length points.now }
    requires b_is_there { b < length points.now }
    ensures { OnOk result (sides.new ≡ sides.old ++ sides_between points.now (piece a b 0 ∷ [])) }
{
    if a != b {
        sides.push(Side {
            from: points.at(a as usize),
            to: points.at(b as usize),
        })?;
    }
    Ok(())
}

/// The sides of a polygon.
fn sides_of(alloc: Global, points: &Points, corners: &[u32]) -> Result<Items<Side>, NoMemory>
    requires { All (λ i. i < length points.now) corners.now }
    ensures { IfOk result (λ found. found ≡ map (side_between points.now) (sides corners.now)) }
{
    let mut sides = Items::new(alloc);
    if corners.is_empty() {
        return Ok(sides);
    }
    let first = corners[0];
    let mut a = first;
    for i in 1..corners.len() {
        let b = corners[i];
        push_side(points, &mut sides, a, b)?;
        a = b;
    }
    push_side(points, &mut sides, a, first)?;
    Ok(sides)
}

/// The boxes of the sides.
fn boxes_of(alloc: Global, sides: &Items<Side>) -> Result<Items<Extent>, NoMemory>
    ensures { IfOk result (AreBoxesTo sides.now (length sides.now)) }
{
    let mut boxes = Items::with_capacity(alloc, sides.len())?;
    for i in 0..sides.len() {
        let side = sides.at(i);
        boxes.push(extent_of(side.from, side.to))?;
    }
    Ok(boxes)
}

impl Outline {
    /// The outline of a polygon.
    pub(crate) fn of(alloc: Global, points: &Points, corners: &[u32]) -> Result<Self, NoMemory>
        requires { All (λ i. i < length points.now) corners.now }
        ensures { IfOk result (IsOutlineOf points.now corners.now) }
    {
        let sides = sides_of(alloc, points, corners)?;
        let boxes = boxes_of(alloc, &sides)?;
        let blocks = blocks_of(alloc, &boxes)?;
        Ok(Outline {
            is_area: corners.len() > 2,
            sides,
            blocks,
            extent: whole_extent(&boxes),
        })
    }

    /// Whether a side meets `x`.
    pub(crate) fn meets(&self, reach: Reach, axis: Axis, x: Spot) -> bool
        requires { IsBlocked self.now }
        ensures { result ≡ list_any (side_meets reach (axis_is axis) x) self.now.sides }
    {
        let mut i = 0;
        while i < self.sides.len() {
            let block = self.blocks.at(i);
            if is_apart(axis, block.extent, x) {
                i = block.past;
            } else if is_met(reach, axis, self.sides.at(i), x) {
                return true;
            } else {
                i += 1;
            }
        }
        false
    }

    /// Whether an odd number of sides crosses the ray from `x`.
    pub(crate) fn is_round(&self, axis: Axis, x: Spot) -> bool
        requires { IsBlocked self.now }
        ensures { result ≡ is_odd (side_crosses (axis_is axis) x) self.now.sides }
    {
        let mut odd = false;
        let mut i = 0;
        while i < self.sides.len() {
            let block = self.blocks.at(i);
            let side = self.sides.at(i);
            match crossing_of(axis, block.extent, x) {
                Crossing::Never => i = block.past,
                Crossing::Between => {
                    let last = self.sides.at(block.past - 1);
                    odd = odd != is_between(axis, side.from, last.to, x);
                    i = block.past;
                }
                Crossing::Unknown => {
                    odd = odd != crosses_ray(axis, toward(side.from, x), toward(side.to, x));
                    i += 1;
                }
            }
        }
        odd
    }
}

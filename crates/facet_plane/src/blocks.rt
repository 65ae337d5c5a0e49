//! Boxes round runs of a list, by which a walk along the list skips the items that it need not
//! test.
ghost use Rattle.std.specs.Prelude.{◌<◌, ◌≤◌, ◌≤ℤ◌, pos, negsuc, length, IfOk};
ghost use Rattle.facet_plane.specs.Blocks.{IsBelow, IsHeld, IsSubbox};
ghost use Rattle.facet_plane.specs.Blocks.{HoldsBox, HoldsBetween, AreBlocks};

use box_tree::past_of;
use sign_predicates::GridPoint;
use std::alloc::Global;
use tet_ports::{Items, NoMemory};

/// A box with its sides along the axes, by its least and its greatest corner.
#[derive(Clone, Copy)]
pub(crate) struct Extent {
    pub(crate) low: GridPoint,
    pub(crate) high: GridPoint,
}

/// A box round an item of a list and those after it before the place `past`.
#[derive(Clone, Copy)]
pub(crate) struct Block {
    pub(crate) extent: Extent,
    pub(crate) past: usize,
}

/// The lesser of two coordinates of the grid.
#[inline]
fn least(a: i32, b: i32) -> i32
    requires a_low { negsuc 536870911 ≤ℤ a }
    requires a_high { a ≤ℤ pos 536870912 }
    requires b_low { negsuc 536870911 ≤ℤ b }
    requires b_high { b ≤ℤ pos 536870912 }
    ensures first { result ≤ℤ a }
    ensures second { result ≤ℤ b }
    ensures low { negsuc 536870911 ≤ℤ result }
    ensures high { result ≤ℤ pos 536870912 }
{
    if a <= b { a } else { b }
}

/// The greater of two coordinates of the grid.
#[inline]
fn greatest(a: i32, b: i32) -> i32
    requires a_low { negsuc 536870911 ≤ℤ a }
    requires a_high { a ≤ℤ pos 536870912 }
    requires b_low { negsuc 536870911 ≤ℤ b }
    requires b_high { b ≤ℤ pos 536870912 }
    ensures first { a ≤ℤ result }
    ensures second { b ≤ℤ result }
    ensures low { negsuc 536870911 ≤ℤ result }
    ensures high { result ≤ℤ pos 536870912 }
{
    if a <= b { b } else { a }
}

/// The point with the lesser coordinates of both.
fn lower(a: GridPoint, b: GridPoint) -> GridPoint
    ensures first { IsBelow result a }
    ensures second { IsBelow result b }
{
    GridPoint {
        x: least(a.x, b.x),
        y: least(a.y, b.y),
        z: least(a.z, b.z),
    }
}

/// The point with the greater coordinates of both.
fn upper(a: GridPoint, b: GridPoint) -> GridPoint
    ensures first { IsBelow a result }
    ensures second { IsBelow b result }
{
    GridPoint {
        x: greatest(a.x, b.x),
        y: greatest(a.y, b.y),
        z: greatest(a.z, b.z),
    }
}

/// The least box round two points.
pub(crate) fn extent_of(a: GridPoint, b: GridPoint) -> Extent
    ensures first { IsHeld result a }
    ensures second { IsHeld result b }
{
    Extent {
        low: lower(a, b),
        high: upper(a, b),
    }
}

/// The least box round both.
fn joined(e: Extent, f: Extent) -> Extent
    ensures first { IsSubbox e result }
    ensures second { IsSubbox f result }
{
    Extent {
        low: lower(e.low, f.low),
        high: upper(e.high, f.high),
    }
}

/// The least box round the boxes at the places from `first` on and before `past`.
fn extent_between(boxes: &Items<Extent>, first: usize, past: usize) -> Extent
    requires some { first < past }
    requires there { past ≤ length boxes.now }
    ensures { HoldsBetween (HoldsBox boxes.now) first past result }
{
    let mut extent = boxes.at(first);
    for i in first + 1..past {
        extent = joined(extent, boxes.at(i));
    }
    extent
}

/// A block for each of the boxes, in their order.
pub(crate) fn blocks_of(alloc: Global, boxes: &Items<Extent>) -> Result<Items<Block>, NoMemory>
    ensures { IfOk result (AreBlocks (HoldsBox boxes.now) (length boxes.now)) }
{
    let mut blocks = Items::with_capacity(alloc, boxes.len())?;
    for i in 0..boxes.len() {
        let past = past_of(i, boxes.len());
        blocks.push(Block {
            extent: extent_between(boxes, i, past),
            past,
        })?;
    }
    Ok(blocks)
}

/// The least box round all boxes; any box where there is none.
pub(crate) fn whole_extent(boxes: &Items<Extent>) -> Extent
    ensures { HoldsBetween (HoldsBox boxes.now) 0 (length boxes.now) result }
{
    if boxes.is_empty() {
        let origin = GridPoint { x: 0, y: 0, z: 0 };
        extent_of(origin, origin)
    } else {
        extent_between(boxes, 0, boxes.len())
    }
}

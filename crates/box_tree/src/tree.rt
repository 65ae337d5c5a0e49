//! The AABB tree: boxes in the order of a space-filling curve, in which those that meet a given box
//! are found without a test of all.
ghost use Rattle.std.specs.Prelude.{◌≡◌, ℕ, ◌+◌, ◌<◌, ◌≤◌, length, IfOk, slice_index_or};
ghost use Rattle.box_tree.specs.Bounds.{IsBoxWithin, AreBoundsApart};
ghost use Rattle.box_tree.specs.Tree.{AreKeyed, HoldsFrom, AreNodes};
ghost use Rattle.box_tree.specs.Tree.{IsTree, IsTreeOf, AreApartBetween};

use crate::bounds::{Bounds, Interval, are_bounds_apart, joined};
use crate::curve::{frame_of, on_curve};
use std::alloc::Global;
use tet_ports::{Items, NoMemory};

/// The box of a body, and the place of the body in its list, from 0.
#[derive(Clone, Copy, Debug, PartialEq, Eq, PartialOrd, Ord)]
pub struct Boxed {
    pub place: usize,
    pub bounds: Bounds,
}

/// A box with its place along the curve, by which the order goes first.
#[derive(Clone, Copy, PartialEq, Eq, PartialOrd, Ord)]
struct Keyed {
    key: u64,
    own: Boxed,
}

/// A node of a tree: a box, and a wide one that holds the boxes of this node and of those after it
/// before the place `past`.
#[derive(Clone, Copy, Debug)]
pub struct Node {
    pub own: Boxed,
    pub wide: Bounds,
    pub past: usize,
}

/// An AABB tree as a list: each node is followed by those whose boxes its wide box holds.
pub type Tree = Items<Node>;

/// The empty interval: the least interval round it and another one is that other one.
const EMPTY: Interval = Interval {
    low: i32::MAX,
    high: i32::MIN,
};

/// A box with the place of its body in a list.
pub fn box_of(bounds: Bounds, place: usize) -> Boxed
    ensures place { result.place ≡ place }
    ensures bounds { result.bounds ≡ bounds }
{
    Boxed { place, bounds }
}

/// The least box round all boxes.
fn extent_of(boxes: &Items<Boxed>) -> Bounds {
    let mut extent = Bounds {
        x: EMPTY,
        y: EMPTY,
        z: EMPTY,
    };
    for i in 0..boxes.len() {
        extent = joined(extent, boxes.at(i).bounds);
    }
    extent
}

/// The boxes with their places along the curve through the least box round all.
fn keyed_boxes(alloc: Global, boxes: &Items<Boxed>) -> Result<Items<Keyed>, NoMemory>
    ensures { IfOk result (AreKeyed boxes.now (length boxes.now)) }
{
    let frame = frame_of(&extent_of(boxes));
    let mut keyed = Items::with_capacity(alloc, boxes.len())?;
    for i in 0..boxes.len() {
        let own = boxes.at(i);
        let key = on_curve(frame, &own.bounds);
        keyed.push(Keyed { key, own })?;
    }
    Ok(keyed)
}

/// The least box round the boxes at the places from `from` on and before `past`.
fn wide_bounds(boxes: &Items<Keyed>, from: usize, past: usize) -> Bounds
    requires some { from < past }
    requires there { past ≤ length boxes.now }
    ensures { HoldsFrom boxes.now from past result }
{
    let mut wide = boxes.at(from).own.bounds;
    for i in from + 1..past {
        wide = joined(wide, boxes.at(i).own.bounds);
    }
    wide
}

/// The place after the last node that the wide box of the node at `i` holds: as many as the
/// greatest power of two that divides `i`.
pub fn past_of(i: usize, count: usize) -> usize
    requires { i < count }
    ensures after { i < result }
    ensures there { result ≤ count }
{
    let span = (i & i.wrapping_neg()).max(1);
    i.saturating_add(span).min(count)
}

/// A node for each of the boxes, in their order.
fn nodes_of(alloc: Global, boxes: &Items<Keyed>) -> Result<Tree, NoMemory>
    ensures { IfOk result (λ nodes. AreNodes boxes.now (length boxes.now) nodes) }
{
    let mut nodes = Tree::with_capacity(alloc, boxes.len())?;
    for i in 0..boxes.len() {
        let past = past_of(i, boxes.len());
        nodes.push(Node {
            own: boxes.at(i).own,
            wide: wide_bounds(boxes, i, past),
            past,
        })?;
    }
    Ok(nodes)
}

/// The AABB tree of the boxes, in their order along the curve (Morton, 1966), so that boxes that
/// follow one another tend to be near, and the wide boxes round them small. The list without keys
/// is freed before the nodes are made.
pub fn tree_of(alloc: Global, boxes: Items<Boxed>) -> Result<Tree, NoMemory>
    ensures { IfOk result (IsTreeOf boxes) }
{
    let mut keyed = keyed_boxes(alloc, &boxes)?;
    drop(boxes);
    keyed.keep_distinct();
    nodes_of(alloc, &keyed)
}

/// The first node from `from` on whose box is not apart from `bounds`; the number of nodes, where
/// all are.
pub fn next_meeting(tree: &Tree, bounds: &Bounds, from: usize) -> usize
    requires tree { IsTree tree.now }
    requires there { from ≤ length tree.now }
    ensures from { from ≤ result }
    ensures there { result ≤ length tree.now }
    ensures apart { AreApartBetween tree.now bounds.now from result }
{
    let mut i = from;
    while i < tree.len() {
        let node = tree.get(i);
        if are_bounds_apart(&node.wide, bounds) {
            i = node.past;
        } else if are_bounds_apart(&node.own.bounds, bounds) {
            i += 1;
        } else {
            return i;
        }
    }
    i
}

//! The boxes of parts.
ghost use Rattle.std.specs.Prelude.{All, IfOk, IsTrue, ◌↔◌};
ghost use Rattle.box_tree.specs.Bounds.{HoldsCorners};
ghost use Rattle.simplex_meets.specs.Parts.{IsPart, part_numbers};
ghost use Rattle.simplex_meets.specs.Boxes.{IsPartTree};
ghost use Rattle.simplex_meets.specs.Pairs.{IsMarked, AreMarkedFrom};

use crate::complex_parts::Part;
use box_tree::{Bounds, Tree, box_of, joined, point_bounds, tree_of, triangle_bounds};
use geo_laws::{Piece, Points};
use std::alloc::Global;
use tet_ports::{Items, NoMemory};

/// The box of a piece.
fn piece_bounds(points: &Points, piece: Piece) -> Bounds
    requires { IsPart points.now (Part.Segment piece) }
    ensures { HoldsCorners points.now (part_numbers (Part.Segment piece)) result }
{
    joined(
        point_bounds(points.at(piece.a as usize)),
        point_bounds(points.at(piece.b as usize)),
    )
}

/// The box of a part.
pub(crate) fn part_bounds(points: &Points, part: Part) -> Bounds
    requires { IsPart points.now part }
    ensures { HoldsCorners points.now (part_numbers part) result }
{
    match part {
        Part::Triangle(t) => triangle_bounds(points, t),
        Part::Segment(p) => piece_bounds(points, p),
    }
}

/// The AABB tree of the parts.
pub(crate) fn part_tree(alloc: Global, points: &Points, parts: &[Part]) -> Result<Tree, NoMemory>
    requires { All (IsPart points.now) parts.now }
    ensures { IfOk result (IsPartTree points.now parts.now) }
{
    let mut boxes = Items::with_capacity(alloc, parts.len())?;
    for place in 0..parts.len() {
        boxes.push(box_of(part_bounds(points, parts[place]), place))?;
    }
    tree_of(alloc, boxes)
}

/// Whether the part at this place is marked: those past the last mark are.
pub(crate) fn is_marked(marks: &[bool], place: usize) -> bool
    ensures { IsTrue result ↔ IsMarked marks.now place }
{
    place >= marks.len() || marks[place]
}

/// The place after the last part that is not marked.
pub(crate) fn unmarked_end(marks: &[bool]) -> usize
    ensures { AreMarkedFrom marks.now result }
{
    let mut end = marks.len();
    while end > 0 && marks[end - 1] {
        end -= 1;
    }
    end
}

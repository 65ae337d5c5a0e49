//! The choice of the cuts of each axis: parts as narrow as the tetrahedra, such that few tetrahedra
//! reach into many cells.

ghost use Rattle.std.specs.Prelude.{◌<◌};
ghost use Rattle.row_cells.specs.Parts.{AreWide};

use crate::boxes::RowBox;
use crate::parts::{Axis, Cut, Cuts, part_at, span_along};
use tet_ports::Items;

/// The most cells into which a tetrahedron reaches, on the average.
const MOST: u64 = 8;

/// A cut into `parts` parts of one width, from the least coordinate of all boxes to the greatest.
fn cut_of(axis: Axis, parts: u32, boxes: &Items<RowBox>) -> Cut
    requires { 0 < parts }
    ensures { 0 < result.width }
{
    let mut low = u32::MAX;
    let mut high = 0;
    for row in boxes.as_slice() {
        let span = span_along(axis, row);
        low = low.min(span.low);
        high = high.max(span.high);
    }
    let width = (high.saturating_sub(low) / parts).min(1_073_741_824) + 1;
    Cut { low, width }
}

/// Into how many parts of an axis the box reaches.
fn parts_across(axis: Axis, cut: Cut, row: &RowBox) -> u64
    requires { 0 < cut.width }
{
    let span = span_along(axis, row);
    let first = part_at(cut, u64::from(span.low)) as u64;
    let last = part_at(cut, u64::from(span.high)) as u64;
    last.saturating_sub(first).saturating_add(1)
}

/// The total length of the lists of all cells.
fn reach(cuts: Cuts, boxes: &Items<RowBox>) -> u64
    requires { AreWide cuts }
{
    let mut sum: u64 = 0;
    for row in boxes.as_slice() {
        let across = parts_across(Axis::X, cuts.x, row)
            .saturating_mul(parts_across(Axis::Y, cuts.y, row))
            .saturating_mul(parts_across(Axis::Z, cuts.z, row));
        sum = sum.saturating_add(across);
    }
    sum
}

/// The axes, each cut into `parts` parts.
fn cuts_into(parts: u32, boxes: &Items<RowBox>) -> Cuts
    requires { 0 < parts }
    ensures { AreWide result }
{
    Cuts {
        x: cut_of(Axis::X, parts, boxes),
        y: cut_of(Axis::Y, parts, boxes),
        z: cut_of(Axis::Z, parts, boxes),
    }
}

/// The finest cuts into 32, 16, 8, 4, 2 or 1 parts at which a tetrahedron reaches into few cells on
/// the average.
pub(crate) fn cuts_of(boxes: &Items<RowBox>) -> Cuts
    ensures { AreWide result }
{
    let most = (boxes.len() as u64).saturating_mul(MOST);
    for parts in [32, 16, 8, 4, 2] {
        let cuts = cuts_into(parts, boxes);
        if reach(cuts, boxes) <= most {
            return cuts;
        }
    }
    cuts_into(1, boxes)
}

//! The parts into which each axis is cut, the cells between them, and the tetrahedra that reach
//! into these.

ghost use Rattle.std.specs.Prelude.{◌≡◌, ◌<◌, ◌+◌, ◌*◌, ◌≤◌, length, IfOk};
ghost use Rattle.row_cells.specs.Parts.{span_along, reaches, mark, part_of, cut_parts, strips_of, cells_of, AreWide};

use crate::boxes::{RowBox, Span};
use std::alloc::Global;
use tet_ports::{Items, NoMemory};

/// How many parts an axis has.
pub(crate) const PARTS: usize = 32;

/// An axis of the grid.
#[derive(Clone, Copy, Debug)]
pub enum Axis {
    X,
    Y,
    Z,
}

/// How an axis is cut, in grid units from `-2^29` on: the first part begins where the grid does,
/// the part s at `low + s * width`, and the last one ends where the grid does.
#[derive(Clone, Copy, Debug)]
pub struct Cut {
    pub low: u32,
    pub width: u32,
}

/// How each axis is cut.
#[derive(Clone, Copy, Debug)]
pub struct Cuts {
    pub x: Cut,
    pub y: Cut,
    pub z: Cut,
}

/// The tetrahedra of each cell: by parts along x, then along y, then along z.
pub(crate) type Cells = Items<Items<Items<Items<RowBox>>>>;

/// From where to where the box reaches along an axis.
pub(crate) fn span_along(axis: Axis, row: &RowBox) -> Span
    ensures { result ≡ span_along axis row.now }
{
    match axis {
        Axis::X => row.x,
        Axis::Y => row.y,
        Axis::Z => row.z,
    }
}

/// Where a part begins.
fn mark(cut: Cut, s: usize) -> u64
    requires { s ≤ 32 }
    ensures { result ≡ mark cut s }
{
    if s == 0 {
        return 0;
    }
    if s == PARTS {
        return 1_073_741_824;
    }
    u64::from(cut.low) + u64::from(cut.width) * s as u64
}

/// The part of what lies this many whole units from `-2^29` on, or the last one where it lies
/// beyond all.
pub(crate) fn part_at(cut: Cut, at: u64) -> usize
    requires { 0 < cut.width }
    ensures there { result < 32 }
    ensures left { mark cut result ≤ at }
    ensures right { result < 31 → at ≤ mark cut (result + 1) }
{
    let ahead = at.saturating_sub(u64::from(cut.low));
    (ahead / u64::from(cut.width)).min(31) as usize
}

/// Whether the box has a coordinate between the two ends.
fn reaches(axis: Axis, from: u64, to: u64, row: &RowBox) -> bool
    ensures { result ≡ reaches axis from to row.now }
{
    let span = span_along(axis, row);
    (u64::from(span.low) <= to) & (from <= u64::from(span.high))
}

/// The tetrahedra that reach into a part, in their order.
fn part_of(
    alloc: Global,
    axis: Axis,
    cut: Cut,
    s: usize,
    boxes: &Items<RowBox>,
) -> Result<Items<RowBox>, NoMemory>
    requires { s < 32 }
    ensures { IfOk result (λ part. part ≡ part_of axis cut s boxes.now) }
{
    let from = mark(cut, s);
    let to = mark(cut, s + 1);
    let mut part = Items::new(alloc);
    for row in boxes.as_slice() {
        if reaches(axis, from, to, row) {
            part.push(*row)?;
        }
    }
    Ok(part)
}

/// The tetrahedra that reach into each part of an axis.
fn parts_of(
    alloc: Global,
    axis: Axis,
    cut: Cut,
    boxes: &Items<RowBox>,
) -> Result<Items<Items<RowBox>>, NoMemory>
    ensures { IfOk result (λ parts. parts ≡ cut_parts axis cut boxes.now) }
{
    let mut parts = Items::with_capacity(alloc, PARTS)?;
    for s in 0..PARTS {
        let part = part_of(alloc, axis, cut, s, boxes)?;
        parts.push(part)?;
    }
    Ok(parts)
}

/// The tetrahedra that reach into each part along y, by the parts along z.
fn strips_of(
    alloc: Global,
    y: Cut,
    z: Cut,
    boxes: &Items<RowBox>,
) -> Result<Items<Items<Items<RowBox>>>, NoMemory>
    ensures { IfOk result (λ strips. strips ≡ strips_of y z boxes.now) }
{
    let mut strips = Items::with_capacity(alloc, PARTS)?;
    for s in 0..PARTS {
        let strip = part_of(alloc, Axis::Y, y, s, boxes)?;
        let parts = parts_of(alloc, Axis::Z, z, &strip)?;
        strips.push(parts)?;
    }
    Ok(strips)
}

/// The tetrahedra that reach into each cell.
pub(crate) fn cells_of(alloc: Global, cuts: Cuts, boxes: &Items<RowBox>) -> Result<Cells, NoMemory>
    ensures { IfOk result (λ cells. cells ≡ cells_of cuts boxes.now) }
{
    let mut cells = Items::with_capacity(alloc, PARTS)?;
    for s in 0..PARTS {
        let slab = part_of(alloc, Axis::X, cuts.x, s, boxes)?;
        let strips = strips_of(alloc, cuts.y, cuts.z, &slab)?;
        cells.push(strips)?;
    }
    Ok(cells)
}

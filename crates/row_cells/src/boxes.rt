//! Axis-aligned bounding boxes of tetrahedra.

ghost use Rattle.std.specs.Prelude.{◌≡◌, ◌<◌, ◌-◌, ◌+◌, ◌≤ℤ◌, ◌<ℤ◌, ◌+ℤ◌, ◌/◌, pos, negsuc, length, map, All, IfOk, unsigned_abs};
ghost use Rattle.sign_predicates.specs.Point.{IsOnGrid};
ghost use Rattle.geo_laws.specs.Delaunay.{corners, IsOn};
ghost use Rattle.row_cells.specs.Boxes.{ahead, whole_units, span_of, box_of, row, boxes_of, cell_of, spans, is_near, AreOnGrid};

use geo_laws::{Points, TetList, corners_of};
use sign_predicates::{Corners, GridPoint, RatPoint};
use std::alloc::Global;
use tet_ports::{Items, NoMemory};

/// The least and the greatest of some coordinates, in grid units from `-2^29` on.
#[derive(Clone, Copy, Debug)]
pub struct Span {
    pub low: u32,
    pub high: u32,
}

/// A tetrahedron by its place in the list, from 0, and the box round it.
#[derive(Clone, Copy, Debug)]
pub struct RowBox {
    pub row: usize,
    pub x: Span,
    pub y: Span,
    pub z: Span,
}

/// How many whole grid units a point lies from `-2^29` on, along each axis.
#[derive(Clone, Copy, Debug)]
pub struct Cell {
    pub x: u64,
    pub y: u64,
    pub z: u64,
}

/// A coordinate, from `-2^29` on.
fn ahead(x: i32) -> u32
    requires low { negsuc 536870911 ≤ℤ x }
    requires high { x ≤ℤ pos 536870912 }
    ensures { result ≡ ahead x }
{
    (x + 536_870_912) as u32
}

fn span_of(a: u32, b: u32, c: u32, d: u32) -> Span
    ensures { result ≡ span_of a b c d }
{
    let low = a.min(b).min(c).min(d);
    let high = a.max(b).max(c).max(d);
    Span { low, high }
}

fn span_x(a: GridPoint, b: GridPoint, c: GridPoint, d: GridPoint) -> Span
    ensures { result ≡ span_of (ahead a.x) (ahead b.x) (ahead c.x) (ahead d.x) }
{
    span_of(ahead(a.x), ahead(b.x), ahead(c.x), ahead(d.x))
}

fn span_y(a: GridPoint, b: GridPoint, c: GridPoint, d: GridPoint) -> Span
    ensures { result ≡ span_of (ahead a.y) (ahead b.y) (ahead c.y) (ahead d.y) }
{
    span_of(ahead(a.y), ahead(b.y), ahead(c.y), ahead(d.y))
}

fn span_z(a: GridPoint, b: GridPoint, c: GridPoint, d: GridPoint) -> Span
    ensures { result ≡ span_of (ahead a.z) (ahead b.z) (ahead c.z) (ahead d.z) }
{
    span_of(ahead(a.z), ahead(b.z), ahead(c.z), ahead(d.z))
}

fn box_of(place: usize, t: Corners) -> RowBox
    ensures value { result ≡ box_of place t }
    ensures grid { AreOnGrid t }
{
    let Corners { a, b, c, d } = t;
    RowBox {
        row: place,
        x: span_x(a, b, c, d),
        y: span_y(a, b, c, d),
        z: span_z(a, b, c, d),
    }
}

/// The boxes of all tetrahedra, in their order.
pub(crate) fn boxes_of(
    alloc: Global,
    points: &Points,
    list: &TetList,
) -> Result<Items<RowBox>, NoMemory>
    requires { All (IsOn points.now) list.now }
    ensures boxes { IfOk result (λ boxes. boxes ≡ boxes_of points.now list.now) }
    ensures grid { IfOk result (λ boxes. All (λ t. AreOnGrid (corners points.now t)) list.now) }
{
    let mut boxes = Items::with_capacity(alloc, list.len())?;
    for i in 0..list.len() {
        let near = box_of(i, corners_of(points, list.at(i)));
        boxes.push(near)?;
    }
    Ok(boxes)
}

/// The number of whole units, of `unit` parts each, in `parts` parts; 0 where `parts` is below 0.
fn along(parts: i64, unit: i64) -> u64
    requires { pos 0 <ℤ unit }
    ensures { result ≡ whole_units parts unit }
{
    if parts < 0 {
        return 0;
    }
    parts as u64 / unit as u64
}

/// The cell of a point; 0 along an axis where it lies before the grid.
pub(crate) fn cell_of(x: RatPoint) -> Cell
    ensures value { result ≡ cell_of x }
    ensures unit { pos 0 <ℤ x.w }
{
    Cell {
        x: along(x.x + 536_870_912 * x.w, x.w),
        y: along(x.y + 536_870_912 * x.w, x.w),
        z: along(x.z + 536_870_912 * x.w, x.w),
    }
}

/// Whether the cell lies in the span.
fn spans(span: Span, at: u64) -> bool
    ensures { result ≡ spans span at }
{
    (u64::from(span.low) <= at) & (at <= u64::from(span.high))
}

/// Whether the cell lies in the box.
pub(crate) fn is_near(near: &RowBox, at: Cell) -> bool
    ensures { result ≡ is_near near.now at }
{
    spans(near.y, at.y) & spans(near.z, at.z) & spans(near.x, at.x)
}

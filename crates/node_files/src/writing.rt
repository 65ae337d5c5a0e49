//! Point lists as text.

ghost use Rattle.std.specs.Prelude.{◌≡◌, ◌≤◌, ◌<◌, ◌+◌, ◌*◌, ◌^◌, ◌++◌, [], ◌∷◌, ℤ, pos, length};
ghost use Rattle.std.specs.Prelude.{map, replicate, unsigned_abs, None, Some, OnOk, IfOk};
ghost use Rattle.grid_coords.specs.Origins.{text_from, IsNear};
ghost use Rattle.grid_coords.specs.Units.{grid_text};
ghost use Rattle.node_files.specs.Writing.{whole_text, fields_text, fields_from, place_fields, point_line};
ghost use Rattle.node_files.specs.Writing.{point_lines, like_lines, mark_count, head_line, list_text};
ghost use Rattle.node_files.specs.Writing.{node_text_from, node_text, IsNearGrid, IsNodeTable};

use crate::{Markers, NodeTable};
use geo_laws::Points;
use grid_coords::{Grid, WholePoint, print_from, print_grid};
use sign_predicates::GridPoint;
use std::alloc::Global;
use tet_ports::{Bytes, Name, NoMemory, Words};
use tet_text::{Decimal, print_decimal};

fn put_whole(n: i64, out: &mut Bytes) -> Result<(), NoMemory>
    ensures { OnOk result (out.new ≡ out.old ++ whole_text n) }
{
    let value = i128::from(n);
    print_decimal(&Decimal { value, scale: 0 }, out)
}

fn put_whole_field(n: i64, out: &mut Bytes) -> Result<(), NoMemory>
    ensures { OnOk result (out.new ≡ out.old ++ 32 ∷ whole_text n) }
{
    out.push(b' ')?;
    put_whole(n, out)
}

fn put_count(n: u64, out: &mut Bytes) -> Result<(), NoMemory>
    requires { n < 2 ^ 63 }
    ensures { OnOk result (out.new ≡ out.old ++ whole_text (pos n)) }
{
    put_whole(n as i64, out)
}

fn put_count_field(n: u64, out: &mut Bytes) -> Result<(), NoMemory>
    requires { n < 2 ^ 63 }
    ensures { OnOk result (out.new ≡ out.old ++ 32 ∷ whole_text (pos n)) }
{
    out.push(b' ')?;
    put_count(n, out)
}

fn put_coordinate(grid: &Grid, coordinate: i32, out: &mut Bytes) -> Result<(), NoMemory>
    requires halvings { grid.now.halvings ≤ 18 }
    ensures { OnOk result (out.new ≡ out.old ++ 32 ∷ grid_text grid.now coordinate) }
{
    out.push(b' ')?;
    print_grid(grid, coordinate, out)
}

fn put_place(grid: &Grid, p: GridPoint, out: &mut Bytes) -> Result<(), NoMemory>
    requires halvings { grid.now.halvings ≤ 18 }
    ensures { OnOk result (out.new ≡ out.old ++ fields_text (place_fields grid.now p)) }
{
    put_coordinate(grid, p.x, out)?;
    put_coordinate(grid, p.y, out)?;
    put_coordinate(grid, p.z, out)
}

fn put_coordinate_from(
    w: i64,
    grid: &Grid,
    coordinate: i32,
    out: &mut Bytes,
) -> Result<(), NoMemory>
    requires halvings { grid.now.halvings ≤ 18 }
    requires fine { grid.now.decimals ≤ 17 }
    requires near { unsigned_abs w * 10 ^ grid.now.decimals ≤ 10 ^ 17 }
    ensures { OnOk result (out.new ≡ out.old ++ 32 ∷ text_from w grid.now coordinate) }
{
    out.push(b' ')?;
    print_from(w, grid, coordinate, out)
}

/// The coordinates of a point that is measured from an origin.
fn put_place_from(
    o: &WholePoint,
    grid: &Grid,
    p: GridPoint,
    out: &mut Bytes,
) -> Result<(), NoMemory>
    requires halvings { grid.now.halvings ≤ 18 }
    requires near { IsNear grid.now.decimals o.now }
    ensures { OnOk result (out.new ≡ out.old ++ fields_text (fields_from (Some o.now) grid.now p)) }
{
    put_coordinate_from(o.x, grid, p.x, out)?;
    put_coordinate_from(o.y, grid, p.y, out)?;
    put_coordinate_from(o.z, grid, p.z, out)
}

/// The unit of coordinates, and the origin from which they are measured, where there is one.
#[derive(Clone, Copy)]
struct Frame {
    grid: Grid,
    origin: Option<WholePoint>,
}

/// The coordinates of a point.
fn put_fields(frame: &Frame, p: GridPoint, out: &mut Bytes) -> Result<(), NoMemory>
    requires halvings { frame.now.grid.halvings ≤ 18 }
    requires near { IsNearGrid frame.now.origin frame.now.grid }
    ensures { OnOk result (out.new
        ≡ out.old ++ fields_text (fields_from frame.now.origin frame.now.grid p)) }
{
    match &frame.origin {
        None => put_place(&frame.grid, p, out),
        Some(o) => put_place_from(o, &frame.grid, p, out),
    }
}

fn put_attributes(attributes: &[Name], out: &mut Bytes) -> Result<(), NoMemory>
    ensures { OnOk result (out.new ≡ out.old ++ fields_text attributes.now) }
{
    for attribute in attributes {
        out.push(b' ')?;
        out.append(attribute.as_slice())?;
    }
    Ok(())
}

fn put_markers(markers: &[i64], out: &mut Bytes) -> Result<(), NoMemory>
    ensures { OnOk result (out.new ≡ out.old ++ fields_text (map whole_text markers.now)) }
{
    for marker in markers {
        put_whole_field(*marker, out)?;
    }
    Ok(())
}

fn put_point(
    frame: &Frame,
    number: u64,
    p: GridPoint,
    attributes: &[Name],
    markers: &[i64],
    out: &mut Bytes,
) -> Result<(), NoMemory>
    requires halvings { frame.now.grid.halvings ≤ 18 }
    requires near { IsNearGrid frame.now.origin frame.now.grid }
    requires number { number < 2 ^ 63 }
    ensures { OnOk result (out.new ≡ out.old
        ++ point_line frame.now.origin frame.now.grid number p attributes.now markers.now) }
{
    put_whole(number as i64, out)?;
    put_fields(frame, p, out)?;
    put_attributes(attributes, out)?;
    put_markers(markers, out)?;
    out.push(b'\n')
}

/// How many markers a point has.
fn marks_of(flag: bool) -> usize
    ensures { result ≡ mark_count flag }
{
    if flag { 1 } else { 0 }
}

/// The lines of all points of a table's text.
fn put_points(table: &NodeTable, frame: &Frame, first: u32, out: &mut Bytes) -> Result<(), NoMemory>
    requires table { IsNodeTable table.now }
    requires halvings { frame.now.grid.halvings ≤ 18 }
    requires near { IsNearGrid frame.now.origin frame.now.grid }
    requires few { length table.now.listed < 2 ^ 32 }
    ensures { OnOk result (out.new
        ≡ out.old ++ point_lines frame.now.origin frame.now.grid table.now.attribute_count
        (mark_count table.now.flag) first table.now.listed table.now.attributes table.now.markers) }
{
    let mut attributes = table.attributes.as_slice();
    let mut markers = table.markers.as_slice();
    let marks = marks_of(table.flag);
    for i in 0..table.listed.len() {
        let (own, rest) = attributes.split_at(table.attribute_count as usize);
        let (mark, others) = markers.split_at(marks);
        let number = u64::from(first) + i as u64;
        put_point(frame, number, table.listed.at(i), own, mark, out)?;
        attributes = rest;
        markers = others;
    }
    Ok(())
}

/// The lines of points that all have these attributes and markers.
fn put_alike(
    frame: &Frame,
    first: u64,
    points: &Points,
    attributes: &[Name],
    markers: &[i64],
    out: &mut Bytes,
) -> Result<(), NoMemory>
    requires halvings { frame.now.grid.halvings ≤ 18 }
    requires near { IsNearGrid frame.now.origin frame.now.grid }
    requires few { length points.now < 2 ^ 32 }
    requires first { first < 2 ^ 33 }
    ensures { OnOk result (out.new ≡ out.old ++ like_lines frame.now.origin frame.now.grid first
        points.now attributes.now markers.now) }
{
    for i in 0..points.len() {
        put_point(
            frame,
            first + i as u64,
            points.at(i),
            attributes,
            markers,
            out,
        )?;
    }
    Ok(())
}

/// Appends the first line of a list with `count` points.
fn put_head(table: &NodeTable, count: u64, out: &mut Bytes) -> Result<(), NoMemory>
    requires { count < 2 ^ 63 }
    ensures { OnOk result (out.new ≡ out.old ++ head_line table.now count) }
{
    put_count(count, out)?;
    put_count_field(3, out)?;
    put_count_field(u64::from(table.attribute_count), out)?;
    put_count_field(marks_of(table.flag) as u64, out)?;
    out.push(b'\n')
}

/// The attributes of an added point.
fn zero_attributes(alloc: Global, count: u32) -> Result<Words, NoMemory>
    ensures { IfOk result (λ attributes. attributes ≡ replicate count (48 ∷ [])) }
{
    let mut attributes = Words::new(alloc);
    for _ in 0..count {
        attributes.push(Name::from_slice(alloc, b"0")?)?;
    }
    Ok(attributes)
}

/// The marker of an added point, where it has one.
fn zero_markers(alloc: Global, flag: bool) -> Result<Markers, NoMemory>
    ensures { IfOk result (λ markers. markers ≡ replicate (mark_count flag) (pos 0)) }
{
    let mut markers = Markers::new(alloc);
    if flag {
        markers.push(0)?;
    }
    Ok(markers)
}

/// The text of a point list, whose points have their numbers from `first` on: the first line; all
/// listed points with their attributes, byte for byte, and their markers; then the added points,
/// with attributes 0 and the marker 0. Coordinates are exact decimals, measured from the origin
/// where there is one.
pub fn write_node_from(
    alloc: Global,
    origin: Option<WholePoint>,
    table: &NodeTable,
    added: &Points,
    first: u32,
) -> Result<Bytes, NoMemory>
    requires table { IsNodeTable table.now }
    requires near { IsNearGrid origin table.now.grid }
    requires few { length table.now.listed < 2 ^ 32 }
    requires few_added { length added.now < 2 ^ 32 }
    ensures { IfOk result (λ text. text ≡ node_text_from origin table.now added.now first) }
{
    let attributes = zero_attributes(alloc, table.attribute_count)?;
    let markers = zero_markers(alloc, table.flag)?;
    let frame = Frame {
        grid: table.grid,
        origin,
    };
    let mut out = Bytes::new(alloc);
    let count = table.listed.len() as u64;
    put_head(table, count + added.len() as u64, &mut out)?;
    put_points(table, &frame, first, &mut out)?;
    put_alike(
        &frame,
        u64::from(first) + count,
        added,
        attributes.as_slice(),
        markers.as_slice(),
        &mut out,
    )?;
    Ok(out)
}

/// The text of a point list, as `write_node_from` with no origin. Only tests call it.
pub fn write_node(
    alloc: Global,
    table: &NodeTable,
    added: &Points,
    first: u32,
) -> Result<Bytes, NoMemory>
    requires table { IsNodeTable table.now }
    requires few { length table.now.listed < 2 ^ 32 }
    requires few_added { length added.now < 2 ^ 32 }
    ensures { IfOk result (λ text. text ≡ node_text table.now added.now first) }
{
    write_node_from(alloc, None, table, added, first)
}

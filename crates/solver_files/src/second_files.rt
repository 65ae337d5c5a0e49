//! The files of points, tetrahedra and faces of second order.
ghost use Rattle.std.specs.Prelude.{◌≡◌, ◌==◌, ◌+◌, ◌<◌, ◌≤◌, ◌^◌, ◌++◌, flat_map, length, position, OnOk, IfOk, IfSome};
ghost use Rattle.std.specs.Option.{option_copied};
ghost use Rattle.std.specs.List.{enumerate_from};
ghost use Rattle.node_files.specs.Writing.{mark_count};
ghost use Rattle.solver_files.specs.Mesh.{mesh_of, points_of};
ghost use Rattle.solver_files.specs.Second.{second_of, IsSecond};
ghost use Rattle.solver_files.specs.SecondTexts.{is_line_feed, lines_behind, second_head, tail_count, middle_line, second_node_text, ele_head, second_ele_text, second_face_text};

use crate::SecondMesh;
use crate::line::{put_copies, put_heading, put_number};
use crate::middle::put_middle_place;
use crate::second_rows::{Format, put_face_rows, put_tet_rows};
use geo_laws::Side;
use incidence::Marks;
use node_files::{NodeTable, write_node_from};
use std::alloc::Global;
use tet_ports::{Bytes, NoMemory};

/// The text of the `.ele` file of second order: each tetrahedron has its four corners, and behind
/// them, in the order of TetGen, the midpoints of the edges from the third corner to the fourth,
/// from the first to the fourth, to the second, from the second to the third and to the fourth, and
/// from the third to the first. Tetrahedra and points are numbered from `first`, and midpoints are
/// behind all points. Attributes are as in the file of first order. The only refusal is out of
/// memory.
///
/// Format: TetGen user's manual, "File formats".
pub fn write_second_ele(alloc: Global, mesh: &SecondMesh<'_>, first: u32) -> Result<Bytes, NoMemory>
    requires { IsSecond (second_of mesh.now) }
    ensures { IfOk result (λ text. text ≡ second_ele_text (second_of mesh.now) first) }
{
    let mut out = Bytes::new(alloc);
    let count = mesh.whole.list.len() as u128;
    put_heading(b"", count, ele_head(mesh.whole.marks), &mut out)?;
    put_tet_rows(Format::Tetgen, mesh, first, &mut out)?;
    Ok(out)
}

/// How many corners and attributes a tetrahedron has, in the first line of the `.ele` file.
fn ele_head(marks: Option<&Marks>) -> &'static [u8]
    ensures { result.now ≡ ele_head (option_copied marks.entry) }
{
    match marks {
        Some(_) => b" 10 1\n",
        None => b" 10 0\n",
    }
}

/// The text of the `.face` file of second order: each face has its three corners, and behind them
/// the midpoints of the edges opposite them, and its marker. Faces and points are numbered from
/// `first`. The only refusal is out of memory.
///
/// Format: TetGen user's manual, "File formats".
pub fn write_second_face(
    alloc: Global,
    mesh: &SecondMesh<'_>,
    first: u32,
) -> Result<Bytes, NoMemory>
    requires { IsSecond (second_of mesh.now) }
    ensures { IfOk result (λ text. text ≡ second_face_text (second_of mesh.now) first) }
{
    let mut out = Bytes::new(alloc);
    put_heading(b"", mesh.whole.faces.len() as u128, b" 1\n", &mut out)?;
    put_face_rows(Format::Tetgen, mesh, first, &mut out)?;
    Ok(out)
}

/// The text of the `.node` file of second order: the points as in the file of first order, and
/// behind them the midpoint of each edge, in the ascending order of the edges. The coordinates of a
/// midpoint are exact decimals: it has one halving of the grid more than the points. Its attributes
/// and its marker are 0, as those of an added point. The only refusal is out of memory.
///
/// Format: TetGen user's manual, "File formats".
pub fn write_second_node(
    alloc: Global,
    mesh: &SecondMesh<'_>,
    first: u32,
) -> Result<Bytes, NoMemory>
    requires { IsSecond (second_of mesh.now) }
    ensures { IfOk result (λ text. text ≡ second_node_text (second_of mesh.now) first) }
{
    let whole = &mesh.whole;
    let text = write_node_from(alloc, whole.origin, whole.table, whole.added, first)?;
    let mut out = Bytes::new(alloc);
    put_head(mesh, &mut out)?;
    out.append(lines_behind(text.as_slice()))?;
    put_middle_lines(mesh, first, &mut out)?;
    Ok(out)
}

fn is_line_feed(byte: u8) -> bool
    ensures { result ≡ is_line_feed byte }
{
    byte == b'\n'
}

/// The place of the first line feed.
fn first_line_feed(text: &[u8]) -> Option<usize>
    ensures value { result ≡ position is_line_feed text.now }
    ensures bound { IfSome result (λ i. i < length text.now) }
{
    text.iter().position(|byte| is_line_feed(*byte))
}

/// The lines behind the first one.
fn lines_behind(text: &[u8]) -> &[u8]
    ensures { result.now ≡ lines_behind text.now }
{
    match first_line_feed(text) {
        Some(place) => &text[place + 1..],
        None => b"",
    }
}

/// Appends the first line of the `.node` file.
fn put_head(mesh: &SecondMesh<'_>, out: &mut Bytes) -> Result<(), NoMemory>
    ensures { OnOk result (out.new ≡ out.old ++ second_head (second_of mesh.now)) }
{
    let table = mesh.whole.table;
    put_heading(b"", mesh.count(), b" 3 ", out)?;
    put_heading(b"", u128::from(table.attribute_count), b" ", out)?;
    put_heading(b"", u128::from(mark_count(table)), b"\n", out)
}

/// How many markers a point has.
fn mark_count(table: &NodeTable) -> u32
    ensures value { result ≡ mark_count table.now.flag }
    ensures small { result ≤ 1 }
{
    if table.flag { 1 } else { 0 }
}

/// How many attributes and markers a point has.
fn tail_count(mesh: &SecondMesh<'_>) -> usize
    ensures { result ≡ tail_count (second_of mesh.now) }
{
    mesh.whole.table.attribute_count as usize + mark_count(mesh.whole.table) as usize
}

/// Appends the line of the midpoint of an edge.
fn put_middle_line(
    mesh: &SecondMesh<'_>,
    number: u64,
    edge: Side,
    out: &mut Bytes,
) -> Result<(), NoMemory>
    requires { IsSecond (second_of mesh.now) }
    ensures { OnOk result (out.new ≡ out.old
        ++ middle_line (second_of mesh.now) number edge) }
{
    put_number(number, out)?;
    out.push(b' ')?;
    put_middle_place(mesh, edge, out)?;
    put_copies(tail_count(mesh), b" 0", out)?;
    out.push(b'\n')
}

/// Appends the lines of the midpoints, numbered behind the points.
fn put_middle_lines(mesh: &SecondMesh<'_>, first: u32, out: &mut Bytes) -> Result<(), NoMemory>
    requires { IsSecond (second_of mesh.now) }
    ensures { OnOk result (out.new ≡ out.old
        ++ flat_map (λ r. middle_line (second_of mesh.now) r.0 r.1)
        (enumerate_from (length (points_of (mesh_of mesh.now.whole)) + first)
        mesh.now.sides.now)) }
{
    let start = mesh.whole.point_count() as u64 + u64::from(first);
    for i in 0..mesh.sides.len() {
        put_middle_line(mesh, start + i as u64, mesh.sides.at(i), out)?;
    }
    Ok(())
}

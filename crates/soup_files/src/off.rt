//! The `.off` files.

ghost use Rattle.std.specs.Prelude.{◌≡◌, ◌-◌, ◌+◌, ◌<◌, ◌^◌, length, IfOk, IfErr};
ghost use Rattle.tet_text.specs.Lines.{content_lines, line_count_of};
ghost use Rattle.tet_text.specs.Reading.{left_after};
ghost use Rattle.tet_text.specs.Views.{content_left, line_total};
ghost use Rattle.plc_files.specs.Outcome.{PlcGives};
ghost use Rattle.plc_files.specs.Checks.{HasFewParts};
ghost use Rattle.plc_files.specs.Text.{AreWritten, LastHasPolygon};
ghost use Rattle.soup_files.specs.Surface.{corners_onto, face_onto, faces_onto};
ghost use Rattle.soup_files.specs.Keyword.{passing_at};
ghost use Rattle.soup_files.specs.Off.{is_off_word, is_wide_off_word, counts_of, head_of, vertex_line, corner_at};
ghost use Rattle.soup_files.specs.Off.{off_polygon, off_by, off_of, wide_off_of};
ghost use Rattle.tet_text.specs.Repeated.{so_many};

use crate::fields::{Grammar, bad_count, is_word, want_first_place, want_last_place};
use crate::surface::{nodes_at, start_face};
use grid_coords::{DecimalPoint, DecimalPoints};
use node_files::count_or;
use plc_files::{PlcFault, PlcText, go_on, some_count};
use std::alloc::Global;
use tet_ports::Bytes;
use tet_text::{Fields, Lines, TextFault};

/// The greatest count: it has 18 digits.
const MOST_COUNT: u64 = 999_999_999_999_999_999;

/// Reads the numbers of points and faces. The number of edges is read and not used.
#[tactic(auto, unfolding(crate::specs::Off::counts_of))]
fn read_counts(fields: &mut Fields) -> Result<(u64, u64), TextFault>
    ensures { result ≡ counts_of fields.old }
{
    let points = fields.want_count()?;
    let faces = fields.want_count()?;
    count_or(0, 0, MOST_COUNT, fields)?;
    fields.want_end()?;
    Ok((points, faces))
}

/// Whether the bytes of a field are one of the keywords that begin a file in the wide grammar, in
/// letters of either case.
pub fn is_wide_off_word(bytes: &[u8]) -> bool
    ensures { result ≡ is_wide_off_word bytes.now }
{
    let wide = Grammar::Wide;
    is_word(wide, b"OFF", bytes)
        || is_word(wide, b"COFF", bytes)
        || is_word(wide, b"NOFF", bytes)
        || is_word(wide, b"CNOFF", bytes)
        || is_word(wide, b"STOFF", bytes)
        || is_word(wide, b"STCOFF", bytes)
        || is_word(wide, b"STNOFF", bytes)
        || is_word(wide, b"STCNOFF", bytes)
}

/// Whether the bytes of a field are a keyword that begins a file.
fn is_off_word(grammar: Grammar, bytes: &[u8]) -> bool
    ensures { result ≡ is_off_word grammar bytes.now }
{
    match grammar {
        Grammar::Strict => is_word(grammar, b"OFF", bytes),
        Grammar::Wide => is_wide_off_word(bytes),
    }
}

/// Reads the keyword that begins a file; BadCount where another field stands in its place.
#[tactic(auto, unfolding(crate::specs::Keyword::passing_at))]
fn want_off_word(grammar: Grammar, fields: &mut Fields) -> Result<(), TextFault>
    ensures value { left_after (λ x. x) result fields.new.fields
        ≡ passing_at (is_off_word grammar) fields.old.line fields.old.fields }
    ensures line { fields.new.line ≡ fields.old.line }
{
    let field = fields.want_field()?;
    if is_off_word(grammar, field.bytes()) {
        return Ok(());
    }
    Err(bad_count(fields))
}

/// The keyword and the counts, on its line or on the next.
#[tactic(auto, unfolding(crate::specs::Off::head_of))]
fn read_head(grammar: Grammar, lines: &mut Lines) -> Result<(u64, u64), TextFault>
    requires { line_total lines.old + 1 < 2 ^ 64 }
    ensures value { left_after (λ counts. counts) result (content_left lines.new)
        ≡ head_of grammar (line_total lines.old) (content_left lines.old) }
    ensures count { line_total lines.new ≡ line_total lines.old }
{
    let mut fields = lines.want_line()?;
    want_off_word(grammar, &mut fields)?;
    go_on(&mut fields, lines)?;
    read_counts(&mut fields)
}

#[tactic(auto, unfolding(crate::specs::Off::vertex_line, crate::specs::OnLine::on_line))]
fn read_vertex(grammar: Grammar, lines: &mut Lines) -> Result<DecimalPoint, TextFault>
    requires { line_total lines.old + 1 < 2 ^ 64 }
    ensures value { left_after (λ point. point) result (content_left lines.new)
        ≡ vertex_line grammar (line_total lines.old) (content_left lines.old) }
    ensures count { line_total lines.new ≡ line_total lines.old }
{
    let mut fields = lines.want_line()?;
    match grammar {
        Grammar::Strict => want_last_place(&mut fields),
        Grammar::Wide => want_first_place(&mut fields),
    }
}

/// Reads `count` points, one a line.
fn read_vertices(
    alloc: Global,
    grammar: Grammar,
    count: u64,
    lines: &mut Lines,
) -> Result<DecimalPoints, PlcFault>
    requires { line_total lines.old + 1 < 2 ^ 64 }
    ensures value { PlcGives (λ points. (points, content_left lines.new)) result
        (so_many (vertex_line grammar (line_total lines.old)) count (content_left lines.old)) }
    ensures count { line_total lines.new ≡ line_total lines.old }
{
    let mut points = DecimalPoints::new(alloc);
    for _ in 0..count {
        let point = read_vertex(grammar, lines)?;
        points.push(point)?;
    }
    Ok(points)
}

/// Reads `count` corners, appended to the last polygon of the complex.
fn read_corners(count: u64, fields: &mut Fields, text: &mut PlcText) -> Result<(), PlcFault>
    requires { LastHasPolygon text.old.facets }
    ensures { PlcGives (λ _. (text.new, fields.new.fields)) result
        (corners_onto text.old (so_many (corner_at fields.old.line) count fields.old.fields)) }
{
    let line = fields.line();
    for _ in 0..count {
        let number = fields.want_count()?;
        text.add_corner(number, line)?;
    }
    Ok(())
}

/// Reads a face, appended to the complex. Fields behind its last corner are skipped.
#[tactic(auto, unfolding(crate::specs::Off::off_polygon))]
fn read_face(lines: &mut Lines, text: &mut PlcText) -> Result<(), PlcFault>
    requires { line_total lines.old + 1 < 2 ^ 64 }
    ensures value { PlcGives (λ _. (text.new, content_left lines.new)) result
        (face_onto text.old (off_polygon (line_total lines.old) (content_left lines.old))) }
    ensures count { line_total lines.new ≡ line_total lines.old }
{
    let mut fields = lines.want_line()?;
    let count = some_count(&mut fields)?;
    start_face(None, fields.line(), text)?;
    read_corners(count, &mut fields, text)
}

/// Reads `count` faces, appended to the complex.
fn read_faces(count: u64, lines: &mut Lines, text: &mut PlcText) -> Result<(), PlcFault>
    requires { line_total lines.old + 1 < 2 ^ 64 }
    ensures value { PlcGives (λ _. (text.new, content_left lines.new)) result
        (faces_onto text.old
        (so_many (off_polygon (line_total lines.old)) count (content_left lines.old))) }
    ensures count { line_total lines.new ≡ line_total lines.old }
{
    for _ in 0..count {
        read_face(lines, text)?;
    }
    Ok(())
}

/// The lines of a `.off` file of fewer than 2^32 - 1 lines.
#[tactic(auto, unfolding(crate::specs::Off::off_by))]
fn read_lines(alloc: Global, grammar: Grammar, lines: &mut Lines) -> Result<PlcText, PlcFault>
    requires { line_total lines.old < 2 ^ 32 - 1 }
    ensures { PlcGives (λ text. text) result
        (off_by grammar (line_total lines.old) (content_left lines.old)) }
{
    let (points, faces) = read_head(grammar, lines)?;
    let points = read_vertices(alloc, grammar, points, lines)?;
    let mut text = PlcText::new(alloc, Some(nodes_at(alloc, points)));
    read_faces(faces, lines, &mut text)?;
    lines.want_end()?;
    Ok(text)
}

/// The complex of a `.off` file of fewer than 2^32 - 1 bytes: the points are numbered from 0, and
/// each face is a facet of one polygon. Corners are kept as they are written, also those out of
/// range. The point list is there also where it has no point.
pub fn read_off(alloc: Global, bytes: &Bytes) -> Result<PlcText, PlcFault>
    requires { length bytes.now < 2 ^ 32 - 1 }
    ensures value { PlcGives (λ text. text) result
        (off_of (line_count_of bytes.now) (content_lines bytes.now)) }
    ensures attributes { IfOk result (λ text. AreWritten text.regions) }
    ensures few { IfOk result HasFewParts }
{
    let mut lines = Lines::new(bytes.as_slice());
    read_lines(alloc, Grammar::Strict, &mut lines)
}

/// The complex of a `.off` file of fewer than 2^32 - 1 bytes, as other programs write it: as
/// `read_off` reads it, but that the keyword may have letters of either case and be one of `COFF`,
/// `NOFF`, `CNOFF`, `STOFF`, `STCOFF`, `STNOFF` and `STCNOFF`, and that the fields behind the
/// coordinates of a point, as colors, normals and texture coordinates, are skipped.
pub fn read_wide_off(alloc: Global, bytes: &Bytes) -> Result<PlcText, PlcFault>
    requires { length bytes.now < 2 ^ 32 - 1 }
    ensures value { PlcGives (λ text. text) result
        (wide_off_of (line_count_of bytes.now) (content_lines bytes.now)) }
    ensures attributes { IfOk result (λ text. AreWritten text.regions) }
    ensures few { IfOk result HasFewParts }
{
    let mut lines = Lines::new(bytes.as_slice());
    read_lines(alloc, Grammar::Wide, &mut lines)
}

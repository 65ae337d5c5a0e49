//! The ASCII `.stl` files.

ghost use Rattle.std.specs.Prelude.{◌≡◌, ◌-◌, ◌+◌, ◌<◌, ◌^◌, [], length, map, IfOk, OnOk};
ghost use Rattle.tet_text.specs.Lines.{content_lines, line_count_of};
ghost use Rattle.tet_text.specs.Reading.{left_after};
ghost use Rattle.tet_text.specs.Views.{content_left, line_total};
ghost use Rattle.plc_files.specs.Outcome.{PlcGives};
ghost use Rattle.plc_files.specs.Checks.{HasFewParts};
ghost use Rattle.plc_files.specs.Text.{AreWritten};
ghost use Rattle.soup_files.specs.Surface.{marked_face, plus_facet, surface_of};
ghost use Rattle.soup_files.specs.Stl.{solid_line, ascii_facets_of, stl_of};
ghost use Rattle.soup_files.specs.Triangles.{triangle_polygon, placed_facets, IsPlacedBy};

use crate::fields::{Grammar, want_keyword};
use crate::stl_facet::{StlFacet, read_facet, starts_facet};
use crate::surface::{nodes_at, start_face};
use crate::vertex_set::VertexSet;
use plc_files::{PlcFault, PlcText};
use std::alloc::Global;
use tet_ports::{Bytes, Items, NoMemory};
use tet_text::{Lines, TextFault};

/// A corner: the place of its point, from 0, and its line.
#[derive(Clone, Copy)]
pub(crate) struct PlacedCorner {
    pub(crate) place: u64,
    pub(crate) line: usize,
}

/// A facet by the places of the points of its corners, and the number of its first line.
#[derive(Clone, Copy)]
pub(crate) struct Triangle {
    pub(crate) line: usize,
    pub(crate) a: PlacedCorner,
    pub(crate) b: PlacedCorner,
    pub(crate) c: PlacedCorner,
}

/// Reads the line that begins a solid; its name is skipped.
#[tactic(auto, unfolding(crate::specs::Stl::solid_line))]
pub(crate) fn pass_solid(grammar: Grammar, lines: &mut Lines) -> Result<(), TextFault>
    requires { line_total lines.old + 1 < 2 ^ 64 }
    ensures value { left_after (λ x. x) result (content_left lines.new)
        ≡ solid_line grammar (line_total lines.old) (content_left lines.old) }
    ensures count { line_total lines.new ≡ line_total lines.old }
{
    let mut fields = lines.want_line()?;
    want_keyword(grammar, b"solid", &mut fields)
}

/// The facet by the places of its corners, which are inserted where they are new.
pub(crate) fn placed(facet: StlFacet, points: &mut VertexSet) -> Result<Triangle, NoMemory>
    ensures { IfOk result (λ triangle. IsPlacedBy facet points.old triangle points.new) }
{
    let a = PlacedCorner {
        place: points.put(facet.a)?,
        line: facet.a.line,
    };
    let b = PlacedCorner {
        place: points.put(facet.b)?,
        line: facet.b.line,
    };
    let c = PlacedCorner {
        place: points.put(facet.c)?,
        line: facet.c.line,
    };
    let line = facet.line;
    Ok(Triangle { line, a, b, c })
}

/// Reads the facets up to the line that ends them, and inserts their corners into the set of
/// points.
fn read_facets(
    alloc: Global,
    lines: &mut Lines,
    points: &mut VertexSet,
) -> Result<Items<Triangle>, PlcFault>
    requires total { line_total lines.old + 1 < 2 ^ 64 }
    requires none { points.old ≡ [] }
    ensures value { PlcGives (λ triangles.
        ((points.new, map triangle_polygon triangles), content_left lines.new)) result
        (placed_facets (ascii_facets_of (length (content_left lines.old)) (line_total lines.old)
        (content_left lines.old))) }
    ensures count { line_total lines.new ≡ line_total lines.old }
{
    let mut triangles = Items::new(alloc);
    loop {
        let mut fields = lines.want_line()?;
        let line = fields.line();
        if !starts_facet(Grammar::Strict, &mut fields)? {
            return Ok(triangles);
        }
        let facet = read_facet(Grammar::Strict, line, lines)?;
        triangles.push(placed(facet, points)?)?;
    }
}

/// Appends a facet of one triangle, with this marker, to the complex.
pub(crate) fn add_triangle(
    marker: Option<i64>,
    triangle: Triangle,
    text: &mut PlcText,
) -> Result<(), NoMemory>
    ensures { OnOk result (text.new
        ≡ plus_facet (marked_face marker (triangle_polygon triangle)) text.old) }
{
    start_face(marker, triangle.line, text)?;
    text.add_corner(triangle.a.place, triangle.a.line)?;
    text.add_corner(triangle.b.place, triangle.b.line)?;
    text.add_corner(triangle.c.place, triangle.c.line)
}

/// The complex of the points and triangles.
pub(crate) fn surface(
    alloc: Global,
    points: &VertexSet,
    triangles: &Items<Triangle>,
) -> Result<PlcText, NoMemory>
    requires { length points.now < 2 ^ 32 - 1 }
    ensures { IfOk result (λ text. text ≡ surface_of points.now
        (map triangle_polygon triangles.now)) }
{
    let nodes = nodes_at(alloc, points.points()?);
    let mut text = PlcText::new(alloc, Some(nodes));
    for triangle in triangles.as_slice() {
        add_triangle(None, *triangle, &mut text)?;
    }
    Ok(text)
}

/// The lines of an `.stl` file of fewer than 2^32 - 1 lines.
#[tactic(auto, unfolding(crate::specs::Stl::stl_of))]
fn read_lines(alloc: Global, lines: &mut Lines) -> Result<PlcText, PlcFault>
    requires { line_total lines.old < 2 ^ 32 - 1 }
    ensures { PlcGives (λ text. text) result
        (stl_of (line_total lines.old) (content_left lines.old)) }
{
    pass_solid(Grammar::Strict, lines)?;
    let mut points = VertexSet::new(alloc);
    let triangles = read_facets(alloc, lines, &mut points)?;
    lines.want_end()?;
    let text = surface(alloc, &points, &triangles)?;
    Ok(text)
}

/// The complex of an ASCII `.stl` file of fewer than 2^32 - 1 bytes: its points are the distinct
/// corners of its facets, equal as decimals, numbered from 0 in the order in which they are first
/// found, and each facet is a facet of one triangle. A file that is not in the grammar, as a binary
/// one, is refused where it first leaves it.
pub fn read_ascii_stl(alloc: Global, bytes: &Bytes) -> Result<PlcText, PlcFault>
    requires { length bytes.now < 2 ^ 32 - 1 }
    ensures value { PlcGives (λ text. text) result
        (stl_of (line_count_of bytes.now) (content_lines bytes.now)) }
    ensures attributes { IfOk result (λ text. AreWritten text.regions) }
    ensures few { IfOk result HasFewParts }
{
    let mut lines = Lines::new(bytes.as_slice());
    read_lines(alloc, &mut lines)
}

//! The ASCII `.stl` files of one or more solids.

ghost use Rattle.std.specs.Prelude.{◌≡◌, ◌-◌, ◌<◌, ◌^◌, [], length, map, IfOk};
ghost use Rattle.tet_text.specs.Lines.{content_lines, line_count_of};
ghost use Rattle.tet_text.specs.Reading.{left_after};
ghost use Rattle.tet_text.specs.Views.{content_left, line_total};
ghost use Rattle.plc_files.specs.Outcome.{PlcGives};
ghost use Rattle.plc_files.specs.Checks.{HasFewParts};
ghost use Rattle.plc_files.specs.Text.{AreWritten};
ghost use Rattle.soup_files.specs.Solids.{next_solid, solids_of, solid_marker, solids_surface};
ghost use Rattle.soup_files.specs.Solids.{wide_stl_of, solid_polygon, placed_solids};

use crate::fields::{Grammar, want_keyword};
use crate::stl::{Triangle, add_triangle, pass_solid, placed};
use crate::stl_facet::{read_facet, starts_facet};
use crate::surface::nodes_at;
use crate::vertex_set::VertexSet;
use plc_files::{PlcFault, PlcText};
use std::alloc::Global;
use tet_ports::{Bytes, Items, NoMemory};
use tet_text::{Lines, TextFault};

/// A facet by the places of the points of its corners, and the number of its solid, from 1.
#[derive(Clone, Copy)]
pub(crate) struct SolidTriangle {
    pub(crate) solid: u32,
    pub(crate) triangle: Triangle,
}

/// Whether a further solid begins, whose first line is read; otherwise the text ends.
#[tactic(auto, unfolding(crate::specs::Solids::next_solid))]
fn next_solid(lines: &mut Lines) -> Result<bool, TextFault>
    ensures value { left_after (λ more. more) result (content_left lines.new)
        ≡ next_solid (content_left lines.old) }
    ensures count { line_total lines.new ≡ line_total lines.old }
{
    match lines.next_fields() {
        None => Ok(false),
        Some(mut fields) => {
            want_keyword(Grammar::Wide, b"solid", &mut fields)?;
            Ok(true)
        }
    }
}

/// Reads the facets of all solids up to the end of the text, behind the line that begins the first
/// solid, and inserts their corners into the set of points; with the number of solids.
fn read_solids(
    alloc: Global,
    lines: &mut Lines,
    points: &mut VertexSet,
) -> Result<(Items<SolidTriangle>, u32), PlcFault>
    requires total { line_total lines.old < 2 ^ 32 - 1 }
    requires none { points.old ≡ [] }
    ensures { PlcGives (λ read. ((points.new, map solid_polygon read.0), read.1)) result
        (placed_solids (solids_of (length (content_left lines.old)) 1 (line_total lines.old)
        (content_left lines.old))) }
{
    let mut triangles = Items::new(alloc);
    let mut solid = 1;
    loop {
        let mut fields = lines.want_line()?;
        let line = fields.line();
        if starts_facet(Grammar::Wide, &mut fields)? {
            let facet = read_facet(Grammar::Wide, line, lines)?;
            let triangle = placed(facet, points)?;
            triangles.push(SolidTriangle { solid, triangle })?;
        } else if next_solid(lines)? {
            solid += 1;
        } else {
            return Ok((triangles, solid));
        }
    }
}

/// The marker of the facets of a solid: its number, unless it is the only one.
fn solid_marker(count: u32, solid: u32) -> Option<i64>
    ensures { result ≡ solid_marker count solid }
{
    if count == 1 {
        return None;
    }
    Some(i64::from(solid))
}

/// The complex of the points and triangles of `count` solids.
fn solids_surface(
    alloc: Global,
    points: &VertexSet,
    triangles: &Items<SolidTriangle>,
    count: u32,
) -> Result<PlcText, NoMemory>
    requires { length points.now < 2 ^ 32 - 1 }
    ensures { IfOk result (λ text. text ≡ solids_surface count points.now
        (map solid_polygon triangles.now)) }
{
    let nodes = nodes_at(alloc, points.points()?);
    let mut text = PlcText::new(alloc, Some(nodes));
    for t in triangles.as_slice() {
        add_triangle(solid_marker(count, t.solid), t.triangle, &mut text)?;
    }
    Ok(text)
}

/// The lines of an `.stl` file of fewer than 2^32 - 1 lines.
#[tactic(auto, unfolding(crate::specs::Solids::wide_stl_of))]
fn read_lines(alloc: Global, lines: &mut Lines) -> Result<PlcText, PlcFault>
    requires { line_total lines.old < 2 ^ 32 - 1 }
    ensures { PlcGives (λ text. text) result
        (wide_stl_of (line_total lines.old) (content_left lines.old)) }
{
    pass_solid(Grammar::Wide, lines)?;
    let mut points = VertexSet::new(alloc);
    let (triangles, count) = read_solids(alloc, lines, &mut points)?;
    let text = solids_surface(alloc, &points, &triangles, count)?;
    Ok(text)
}

/// The complex of an ASCII `.stl` file of fewer than 2^32 - 1 bytes, as other programs write it: as
/// `read_ascii_stl` reads it, but that keywords may have letters of either case, and that several
/// solids may stand one after another. The points are the distinct corners over all solids. Where
/// there are several, the facets of the first have the marker 1, those of the second 2, and so on;
/// those of one solid alone have none. A solid may have no facet.
pub fn read_wide_stl(alloc: Global, bytes: &Bytes) -> Result<PlcText, PlcFault>
    requires { length bytes.now < 2 ^ 32 - 1 }
    ensures value { PlcGives (λ text. text) result
        (wide_stl_of (line_count_of bytes.now) (content_lines bytes.now)) }
    ensures attributes { IfOk result (λ text. AreWritten text.regions) }
    ensures few { IfOk result HasFewParts }
{
    let mut lines = Lines::new(bytes.as_slice());
    read_lines(alloc, &mut lines)
}

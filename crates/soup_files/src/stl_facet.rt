//! A facet of an `.stl` file.

ghost use Rattle.std.specs.Prelude.{◌≡◌, ◌+◌, ◌<◌, ◌^◌, codes};
ghost use Rattle.tet_text.specs.Reading.{left_after};
ghost use Rattle.tet_text.specs.Views.{content_left, line_total};
ghost use Rattle.soup_files.specs.Stl.{normal_at, more_facets, loop_of, vertex_of, ascii_facet_of};

use crate::fields::{Grammar, bad_count, is_word, want_keyword, want_last_place, want_last_word};
use grid_coords::DecimalPoint;
use tet_text::{Fields, Lines, TextFault};

/// A facet: the number of its first line, and its corners.
#[derive(Clone, Copy)]
pub(crate) struct StlFacet {
    pub(crate) line: usize,
    pub(crate) a: DecimalPoint,
    pub(crate) b: DecimalPoint,
    pub(crate) c: DecimalPoint,
}

/// Reads the rest of the first line of a facet. The normal is not used.
#[tactic(auto, unfolding(crate::specs::Stl::normal_at))]
fn pass_normal(grammar: Grammar, fields: &mut Fields) -> Result<(), TextFault>
    ensures { result ≡ normal_at grammar fields.old.line fields.old.fields }
{
    want_keyword(grammar, b"normal", fields)?;
    fields.want_field()?;
    fields.want_field()?;
    fields.want_field()?;
    fields.want_end()
}

/// Whether the line begins a further facet; otherwise it has to be the one that ends the facets.
#[tactic(auto, unfolding(crate::specs::Stl::more_facets))]
pub(crate) fn starts_facet(grammar: Grammar, fields: &mut Fields) -> Result<bool, TextFault>
    ensures { result ≡ more_facets grammar fields.old }
{
    let first = fields.want_field()?;
    if is_word(grammar, b"endsolid", first.bytes()) {
        return Ok(false);
    }
    if !is_word(grammar, b"facet", first.bytes()) {
        return Err(bad_count(fields));
    }
    pass_normal(grammar, fields)?;
    Ok(true)
}

#[tactic(auto, unfolding(crate::specs::Stl::loop_of))]
fn pass_loop(grammar: Grammar, fields: &mut Fields) -> Result<(), TextFault>
    ensures { result ≡ loop_of grammar fields.old }
{
    want_keyword(grammar, b"outer", fields)?;
    want_last_word(grammar, b"loop", fields)
}

#[tactic(auto, unfolding(crate::specs::Stl::vertex_of))]
fn read_vertex(grammar: Grammar, fields: &mut Fields) -> Result<DecimalPoint, TextFault>
    ensures { result ≡ vertex_of grammar fields.old }
{
    want_keyword(grammar, b"vertex", fields)?;
    want_last_place(fields)
}

/// Reads the rest of a facet behind its first line, which has the number `line`.
#[tactic(auto, unfolding(crate::specs::Stl::ascii_facet_of, crate::specs::OnLine::on_line))]
pub(crate) fn read_facet(
    grammar: Grammar,
    line: usize,
    lines: &mut Lines,
) -> Result<StlFacet, TextFault>
    requires { line_total lines.old + 1 < 2 ^ 64 }
    ensures value { left_after (λ facet. facet) result (content_left lines.new)
        ≡ ascii_facet_of grammar (line_total lines.old) line (content_left lines.old) }
    ensures count { line_total lines.new ≡ line_total lines.old }
{
    pass_loop(grammar, &mut lines.want_line()?)?;
    let a = read_vertex(grammar, &mut lines.want_line()?)?;
    let b = read_vertex(grammar, &mut lines.want_line()?)?;
    let c = read_vertex(grammar, &mut lines.want_line()?)?;
    want_last_word(grammar, b"endloop", &mut lines.want_line()?)?;
    want_last_word(grammar, b"endfacet", &mut lines.want_line()?)?;
    Ok(StlFacet { line, a, b, c })
}

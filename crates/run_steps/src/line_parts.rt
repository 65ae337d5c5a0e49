//! The parts of lines that name points, segments, facets and tetrahedra.

ghost use Rattle.std.specs.Prelude.{◌≡◌, ◌++◌, IfOk, OnOk};
ghost use Rattle.run_steps.specs.LineParts.{at_most, ends_text, facet_text, part_text, point_text};
ghost use Rattle.run_steps.specs.LineParts.{tetrahedron_text, triangle_text};

use crate::numbering::{Numbering, number_of};
use geo_laws::{FacetTriangle, Piece, Tet};
use mesh_check::append_number;
use simplex_meets::Part;
use std::alloc::Global;
use tet_ports::{Bytes, NoMemory};

/// Appends the greatest number that is allowed.
pub(crate) fn append_most(text: &mut Bytes, most: usize) -> Result<(), NoMemory>
    ensures { OnOk result (text.new ≡ text.old ++ at_most most) }
{
    text.append(b", at most ")?;
    append_number(text, most)
}

/// Appends the number of a facet, which counts from 1.
pub(crate) fn append_facet(text: &mut Bytes, facet: u32) -> Result<(), NoMemory>
    ensures { OnOk result (text.new ≡ text.old ++ facet_text facet) }
{
    append_number(text, facet as usize + 1)
}

/// Appends the number of a point behind a space.
pub(crate) fn append_point(
    text: &mut Bytes,
    by: &Option<Numbering>,
    point: u32,
) -> Result<(), NoMemory>
    ensures { OnOk result (text.new ≡ text.old ++ point_text by.now point) }
{
    text.append(b" ")?;
    append_number(text, number_of(by, point))
}

/// Appends the two ends of a subsegment, the lesser place first.
pub(crate) fn append_ends(
    text: &mut Bytes,
    by: &Option<Numbering>,
    piece: Piece,
) -> Result<(), NoMemory>
    ensures { OnOk result (text.new ≡ text.old ++ ends_text by.now piece) }
{
    append_point(text, by, piece.a.min(piece.b))?;
    append_point(text, by, piece.a.max(piece.b))
}

fn append_triangle(
    text: &mut Bytes,
    by: &Option<Numbering>,
    t: FacetTriangle,
) -> Result<(), NoMemory>
    ensures { OnOk result (text.new ≡ text.old ++ triangle_text by.now t) }
{
    append_point(text, by, t.a)?;
    append_point(text, by, t.b)?;
    append_point(text, by, t.c)
}

pub(crate) fn append_tetrahedron(
    text: &mut Bytes,
    by: &Option<Numbering>,
    t: Tet,
) -> Result<(), NoMemory>
    ensures { OnOk result (text.new ≡ text.old ++ tetrahedron_text by.now t) }
{
    append_point(text, by, t.a)?;
    append_point(text, by, t.b)?;
    append_point(text, by, t.c)?;
    append_point(text, by, t.d)
}

/// A triangle of a facet, or a piece.
pub(crate) fn part_text(
    alloc: Global,
    by: &Option<Numbering>,
    part: Part,
) -> Result<Bytes, NoMemory>
    ensures { IfOk result (λ text. text ≡ part_text by.now part) }
{
    match part {
        Part::Triangle(triangle) => {
            let mut text = Bytes::from_slice(alloc, b"facet ")?;
            append_facet(&mut text, triangle.facet)?;
            text.append(b" triangle")?;
            append_triangle(&mut text, by, triangle)?;
            Ok(text)
        }
        Part::Segment(piece) => {
            let mut text = Bytes::from_slice(alloc, b"segment")?;
            append_ends(&mut text, by, piece)?;
            Ok(text)
        }
    }
}

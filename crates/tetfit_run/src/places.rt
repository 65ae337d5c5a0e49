//! Points of a model by their numbers and coordinates.

ghost use Rattle.std.specs.Prelude.{◌≡◌, ◌++◌, [], None, Some, drop, slice_get, option_copied, OnOk, IfOk, IfSome};
ghost use Rattle.std.specs.Option.{option_map_or};
ghost use Rattle.refining.specs.Rounds.{IsPrintable};
ghost use Rattle.tetfit_run.specs.Apart.{file_point};
ghost use Rattle.tetfit_run.specs.Hints.{added_text, at_line, away_text, at_text, corner_text, corners_text, four_line, front_of, front_text, has_text, number_text};
ghost use Rattle.tetfit_run.specs.Hints.{help_of_grid, narrow_line, narrow_text, near_line, near_text, off_grid_lines, part_line, place_text, units_text, point_line, point_lines, refusal_line};

use crate::coordinates::append_on_grid;
use crate::model::Stated;
use crate::placed::Placed;
use geo_laws::Tet;
use grid_coords::DecimalPoint;
use mesh_check::append_number;
use run_steps::{Numbering, number_by};
use simplex_meets::Part;
use std::alloc::Global;
use tet_ports::{Bytes, NoMemory};
use tet_shapes::{NarrowCorner, Near};
use tet_text::{lowest, print_decimal, print_scaled};

/// Appends the number that the file gives a point; nothing of an added one.
pub(crate) fn append_name(text: &mut Bytes, by: &Numbering, point: u32) -> Result<(), NoMemory>
    ensures { OnOk result (text.new ≡ text.old ++ number_text by.now point) }
{
    let place = point as usize;
    if place < by.names.len() {
        text.append(b" ")?;
        append_number(text, by.names.at(place) as usize + by.first as usize)?;
    }
    Ok(())
}

/// Appends the coordinates of a point in parentheses, as the file has them.
#[tactic(auto, unfolding(crate::specs::Hints::at_text))]
fn append_at(text: &mut Bytes, p: &DecimalPoint) -> Result<(), NoMemory>
    ensures { OnOk result (text.new ≡ text.old ++ at_text p.now) }
{
    text.append(b" (")?;
    print_decimal(&p.x, text)?;
    text.append(b" ")?;
    print_decimal(&p.y, text)?;
    text.append(b" ")?;
    print_decimal(&p.z, text)?;
    text.append(b")")
}

/// The point at this place.
fn found_at(points: &[DecimalPoint], place: usize) -> Option<&DecimalPoint>
    ensures { option_copied result ≡ slice_get (drop place points.now) 0 }
{
    if place <= points.len() {
        points[place..].first()
    } else {
        None
    }
}

/// A point as the file has it, by its number on the grid; None for an added point.
pub(crate) fn file_point<'a>(
    points: &'a [DecimalPoint],
    by: &Numbering,
    point: u32,
) -> Option<&'a DecimalPoint>
    ensures { option_copied result ≡ file_point points.now by.now point }
{
    let place = point as usize;
    if place < by.names.len() {
        found_at(points, by.names.at(place) as usize)
    } else {
        None
    }
}

/// Appends the coordinates of a point by its number on the grid.
fn append_placed(text: &mut Bytes, placed: &Placed, point: u32) -> Result<(), NoMemory>
    requires { IsPrintable placed.now.frame }
    ensures { OnOk result (text.new ≡ text.old ++ added_text (Some placed.now) point) }
{
    let place = point as usize;
    if place < placed.points.len() {
        append_on_grid(text, &placed.frame, placed.points.at(place))
    } else {
        Ok(())
    }
}

/// Appends the coordinates of an added point, where the points are placed on their grid.
fn append_added(text: &mut Bytes, placed: &Option<Placed>, point: u32) -> Result<(), NoMemory>
    requires { IfSome placed.now (λ p. IsPrintable p.frame) }
    ensures { OnOk result (text.new ≡ text.old ++ added_text placed.now point) }
{
    match placed {
        Some(placed) => append_placed(text, placed, point),
        None => Ok(()),
    }
}

/// Appends the coordinates of a point: of one of the file as the file has them.
fn append_place(
    text: &mut Bytes,
    points: &[DecimalPoint],
    by: &Numbering,
    placed: &Option<Placed>,
    point: u32,
) -> Result<(), NoMemory>
    requires { IfSome placed.now (λ p. IsPrintable p.frame) }
    ensures { OnOk result (text.new ≡ text.old ++ place_text points.now by.now placed.now point) }
{
    match file_point(points, by, point) {
        Some(p) => append_at(text, p),
        None => append_added(text, placed, point),
    }
}

/// Appends the number of a point and its coordinates.
fn append_corner(
    text: &mut Bytes,
    points: &[DecimalPoint],
    by: &Numbering,
    placed: &Option<Placed>,
    point: u32,
) -> Result<(), NoMemory>
    requires { IfSome placed.now (λ p. IsPrintable p.frame) }
    ensures { OnOk result (text.new ≡ text.old ++ corner_text points.now by.now placed.now point) }
{
    text.append(b" ")?;
    append_number(text, number_by(by, point))?;
    append_place(text, points, by, placed, point)
}

fn append_corners(
    text: &mut Bytes,
    points: &[DecimalPoint],
    by: &Numbering,
    placed: &Option<Placed>,
    part: Part,
) -> Result<(), NoMemory>
    requires { IfSome placed.now (λ p. IsPrintable p.frame) }
    ensures { OnOk result (text.new ≡ text.old ++ corners_text points.now by.now placed.now part) }
{
    match part {
        Part::Triangle(t) => {
            append_corner(text, points, by, placed, t.a)?;
            append_corner(text, points, by, placed, t.b)?;
            append_corner(text, points, by, placed, t.c)
        }
        Part::Segment(p) => {
            append_corner(text, points, by, placed, p.a)?;
            append_corner(text, points, by, placed, p.b)
        }
    }
}

/// Appends the line of a triangle or a segment: its corners.
pub(crate) fn append_part(
    text: &mut Bytes,
    points: &[DecimalPoint],
    by: &Numbering,
    placed: &Option<Placed>,
    part: Part,
) -> Result<(), NoMemory>
    requires { IfSome placed.now (λ p. IsPrintable p.frame) }
    ensures { OnOk result (text.new ≡ text.old ++ part_line points.now by.now placed.now part) }
{
    text.append(b"tetfit: points")?;
    append_corners(text, points, by, placed, part)?;
    text.append(b"\n")
}

/// Appends a number of units of the last of `decimals` decimals.
#[tactic(auto, unfolding(crate::specs::Hints::units_text))]
pub(crate) fn append_units(text: &mut Bytes, decimals: u32, units: u32) -> Result<(), NoMemory>
    ensures { OnOk result (text.new ≡ text.old ++ units_text decimals units) }
{
    let (size, scale) = lowest(u128::from(units), u64::from(decimals));
    print_scaled(false, size, scale, text)
}

/// Appends that a point is at most so many units of the last of `decimals` decimals away, and ends
/// the line.
fn append_away(text: &mut Bytes, decimals: u32, units: u32) -> Result<(), NoMemory>
    ensures { OnOk result (text.new ≡ text.old ++ away_text decimals units) }
{
    text.append(b", on the grid at most ")?;
    append_units(text, decimals, units)?;
    text.append(b" away\n")
}

/// Appends the line on the point that is nearest to a segment.
fn append_near_line(
    text: &mut Bytes,
    points: &[DecimalPoint],
    by: &Numbering,
    decimals: u32,
    near: Near,
) -> Result<(), NoMemory>
    ensures { OnOk result (text.new ≡ text.old ++ near_line points.now by.now decimals near) }
{
    text.append(b"tetfit: nearest to it is point")?;
    append_corner(text, points, by, &None, near.point)?;
    append_away(text, decimals, near.units)
}

/// Appends the line on the point that is nearest to a segment, where there is one.
pub(crate) fn append_near(
    text: &mut Bytes,
    points: &[DecimalPoint],
    by: &Numbering,
    decimals: u32,
    near: Option<Near>,
) -> Result<(), NoMemory>
    ensures { OnOk result (text.new ≡ text.old ++ near_text points.now by.now decimals near) }
{
    match near {
        Some(near) => append_near_line(text, points, by, decimals, near),
        None => Ok(()),
    }
}

/// Appends the line on the corner in which a segment meets another at the smallest angle.
fn append_narrow_line(
    text: &mut Bytes,
    points: &[DecimalPoint],
    by: &Numbering,
    narrow: NarrowCorner,
) -> Result<(), NoMemory>
    ensures { OnOk result (text.new ≡ text.old ++ narrow_line points.now by.now narrow) }
{
    text.append(b"tetfit: in point")?;
    append_name(text, by, narrow.corner.at)?;
    text.append(b" it meets the segment to point")?;
    append_corner(text, points, by, &None, narrow.corner.other)?;
    text.append(b" at less than ")?;
    append_number(text, narrow.degrees as usize)?;
    text.append(b" degrees\n")
}

/// Appends the line on the corner in which a segment meets another at the smallest angle, where
/// there is one.
pub(crate) fn append_narrow(
    text: &mut Bytes,
    points: &[DecimalPoint],
    by: &Numbering,
    narrow: Option<NarrowCorner>,
) -> Result<(), NoMemory>
    ensures { OnOk result (text.new ≡ text.old ++ narrow_text points.now by.now narrow) }
{
    match narrow {
        Some(narrow) => append_narrow_line(text, points, by, narrow),
        None => Ok(()),
    }
}

/// Appends two corners that the file has.
fn append_two(
    text: &mut Bytes,
    points: &[DecimalPoint],
    by: &Numbering,
    one: u32,
    two: u32,
) -> Result<(), NoMemory>
    ensures { OnOk result (text.new ≡ text.old
        ++ (corner_text points.now by.now None one ++ corner_text points.now by.now None two)) }
{
    append_corner(text, points, by, &None, one)?;
    append_corner(text, points, by, &None, two)
}

/// Appends the line of four corners of a facet that are in no plane.
pub(crate) fn append_four(
    text: &mut Bytes,
    points: &[DecimalPoint],
    by: &Numbering,
    four: Tet,
) -> Result<(), NoMemory>
    ensures { OnOk result (text.new ≡ text.old ++ four_line points.now by.now four) }
{
    text.append(b"tetfit: points")?;
    append_two(text, points, by, four.a, four.b)?;
    append_two(text, points, by, four.c, four.d)?;
    text.append(b"\n")
}

/// The text before a place in a file.
fn front_of(stated: Stated) -> &'static [u8]
    ensures { result.now ≡ front_of stated }
{
    match stated {
        Stated::Lines => b"tetfit: line ",
        Stated::Facets => b"tetfit: facet ",
    }
}

/// Appends a place in a file.
fn append_front(text: &mut Bytes, stated: Stated, place: usize) -> Result<(), NoMemory>
    ensures { OnOk result (text.new ≡ text.old ++ front_text stated place) }
{
    text.append(front_of(stated))?;
    append_number(text, place)
}

/// Appends that the point at a place in a file is off the grid.
fn append_refusal(text: &mut Bytes, stated: Stated, place: usize) -> Result<(), NoMemory>
    ensures { OnOk result (text.new ≡ text.old ++ refusal_line stated place) }
{
    append_front(text, stated, place)?;
    text.append(b": coordinate off the grid\n")
}

/// Appends that a place in a file has what follows.
fn append_has(text: &mut Bytes, stated: Stated, place: usize) -> Result<(), NoMemory>
    ensures { OnOk result (text.new ≡ text.old ++ has_text stated place) }
{
    append_front(text, stated, place)?;
    text.append(b" has")
}

/// Appends the coordinates of a point, and ends the line.
fn append_at_line(text: &mut Bytes, p: &DecimalPoint) -> Result<(), NoMemory>
    ensures { OnOk result (text.new ≡ text.old ++ at_line p.now) }
{
    append_at(text, p)?;
    text.append(b"\n")
}

/// Appends the place of a point in its file and the coordinates.
fn append_point(text: &mut Bytes, stated: Stated, p: &DecimalPoint) -> Result<(), NoMemory>
    ensures { OnOk result (text.new ≡ text.old ++ point_line stated p.now) }
{
    append_has(text, stated, p.line)?;
    append_at_line(text, p)
}

/// Appends the line on a point off the grid, and that on its coordinates.
fn append_lines(text: &mut Bytes, stated: Stated, p: &DecimalPoint) -> Result<(), NoMemory>
    ensures { OnOk result (text.new ≡ text.old ++ point_lines stated p.now) }
{
    append_refusal(text, stated, p.line)?;
    append_point(text, stated, p)
}

/// What would help where a point is off the grid at `decimals` decimals.
fn help_of_grid(decimals: u32) -> &'static [u8]
    ensures { result.now ≡ help_of_grid decimals }
{
    if decimals == 0 {
        b"tetfit: no coordinate may be over 536870912 from the middle: scale the model down\n"
    } else {
        b"tetfit: no coordinate may be over 536870912 units of the last decimal from the middle: \
          round to fewer decimals\n"
    }
}

/// Appends the lines on a point off the grid at `decimals` decimals.
fn append_off_grid(
    text: &mut Bytes,
    decimals: u32,
    stated: Stated,
    p: &DecimalPoint,
) -> Result<(), NoMemory>
    ensures { OnOk result (text.new ≡ text.old ++ off_grid_lines decimals stated p.now) }
{
    append_lines(text, stated, p)?;
    text.append(help_of_grid(decimals))
}

/// The place of a point off the grid in its file, its coordinates, and what would help; nothing
/// without a point.
pub(crate) fn off_grid_text(
    alloc: Global,
    decimals: u32,
    stated: Stated,
    found: Option<&DecimalPoint>,
) -> Result<Bytes, NoMemory>
    ensures { IfOk result (λ made. made
        ≡ option_map_or (off_grid_lines decimals stated) (option_copied found.entry) []) }
{
    let mut text = Bytes::new(alloc);
    if let Some(p) = found {
        append_off_grid(&mut text, decimals, stated, p)?;
    }
    Ok(text)
}

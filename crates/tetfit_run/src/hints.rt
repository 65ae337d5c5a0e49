//! The lines that follow the message on a refused model: the segment, the parts or the point at
//! fault, and the decimals to which coordinates were rounded.

ghost use Rattle.std.specs.Prelude.{◌≡◌, ◌≤◌, ◌++◌, length, Some, IfOk, IfSome, OnOk};
ghost use Rattle.command_words.specs.Meaning.{IsUnit};
ghost use Rattle.grid_coords.specs.Choice.{most_decimals};
ghost use Rattle.grid_coords.specs.Origins.{IsNear};
ghost use Rattle.node_files.specs.Limits.{AreIndexable};
ghost use Rattle.refining.specs.Rounds.{IsPrintable};
ghost use Rattle.run_steps.specs.Reading.{IsSound};
ghost use Rattle.tetfit_run.specs.Hints.{hinted_facet_text, first_facet, grid_hint, parts_text};
ghost use Rattle.tetfit_run.specs.Hints.{grid_front, grid_help, grid_line, has_more_decimals, is_rounded};
ghost use Rattle.tetfit_run.specs.Hints.{parts_help, IsGridOf};
ghost use Rattle.tetfit_run.specs.Hints.{decimals_moved, flat_line, flat_text, half_unit, moved_line, moved_text};
ghost use Rattle.tetfit_run.specs.Hints.{rounded_line, rounded_text, rounding_text, uneven_text};
ghost use Rattle.tetfit_run.specs.Hints.{segment_line, segment_lines, HasPoints, IsHint, IsHintBy, IsLineIn, IsLineOf};
ghost use Rattle.tetfit_run.specs.Hints.{IsMissing, TellsCrossing, TellsRounded, TellsSegment, TellsSegments};
ghost use Rattle.tetfit_run.specs.Placed.{HasCrossing};
ghost use Rattle.tetfit_run.specs.Trial.{AreInTriedRange};
ghost use Rattle.tetfit_run.specs.Trying.{at_decimals, IsNumbered, IsNumberedAt};

use crate::apart::{are_apart, crossing_help};
use crate::copies::{at_decimals, tried_nodes};
use crate::facets::first_facet;
use crate::fitting::Refused;
use crate::grids::first_off;
use crate::model::Model;
use crate::placed::{Placed, placed_of};
use crate::places::{
    append_four, append_name, append_narrow, append_near, append_part, off_grid_text,
};
use crate::trial::Trial;
use crate::unit_texts::{append_multiples, append_unit_moved};
use crate::wholes::whole_of;
use command_words::Options;
use geo_laws::{Complex, Piece, Tet};
use grid_coords::{DecimalPoint, Grid, WholePoint, most_decimals};
use mesh_check::append_number;
use node_files::Limits;
use plc_files::segments;
use run_steps::{Bound, LimitKind, Numbering, Status};
use simplex_meets::Part;
use std::alloc::Global;
use tet_ports::{Bytes, NoMemory};
use tet_shapes::{narrowest, near_of};
use tet_text::print_scaled;

/// Appends the number of a facet, which counts from 1.
fn append_facet(text: &mut Bytes, facet: Option<u32>) -> Result<(), NoMemory>
    ensures { OnOk result (text.new ≡ text.old ++ hinted_facet_text facet) }
{
    match facet {
        Some(k) => {
            text.append(b" of facet ")?;
            append_number(text, k as usize + 1)
        }
        None => Ok(()),
    }
}

/// The line that names the segment on which the reported subsegment lies, and its first facet.
fn segment_line(
    alloc: Global,
    complex: &Complex,
    by: &Numbering,
    piece: Piece,
) -> Result<Bytes, NoMemory>
    ensures { IfOk result
        (λ line. line ≡ segment_line by.now piece (first_facet complex.now piece)) }
{
    let mut text = Bytes::from_slice(alloc, b"tetfit: it lies on segment")?;
    append_name(&mut text, by, piece.a.min(piece.b))?;
    append_name(&mut text, by, piece.a.max(piece.b))?;
    append_facet(&mut text, first_facet(complex, piece))?;
    text.append(b"\n")?;
    Ok(text)
}

/// That line, and the one with the coordinates of the segment's ends.
fn segment_lines(
    alloc: Global,
    complex: &Complex,
    points: &[DecimalPoint],
    by: &Numbering,
    piece: Piece,
) -> Result<Bytes, NoMemory>
    ensures { IfOk result (λ lines. lines
        ≡ segment_lines points.now by.now piece (first_facet complex.now piece)) }
{
    let mut text = segment_line(alloc, complex, by, piece)?;
    append_part(&mut text, points, by, &None, Part::Segment(piece))?;
    Ok(text)
}

/// The lines that name a segment of points on their grid, the point that is nearest to it, and the
/// segment that meets it at the smallest angle, where one is below 30 degrees.
fn bound_hint(
    alloc: Global,
    bound: &Bound,
    points: &[DecimalPoint],
    by: &Numbering,
    whole: Piece,
) -> Result<Bytes, NoMemory>
    ensures { IfOk result (IsLineIn bound.now points.now by.now whole) }
{
    let near = near_of(bound.table.grid, &bound.table.points, whole);
    let segments = segments(alloc, &bound.complex)?;
    let narrow = narrowest(&bound.table.points, &segments, whole);
    let mut text = segment_lines(alloc, &bound.complex, points, by, whole)?;
    append_near(&mut text, points, by, bound.table.grid.decimals, near)?;
    append_narrow(&mut text, points, by, narrow)?;
    Ok(text)
}

/// The lines that name a segment of the input, whose points are put on their grid again.
fn whole_hint(alloc: Global, trial: &Trial, by: &Numbering, whole: Piece) -> Result<Bytes, NoMemory>
    requires { HasPoints trial.now.limits trial.now.options trial.now.input
        (length by.now.names) }
    ensures { IfOk result (IsLineOf trial.now.limits trial.now.options
        trial.now.input by.now whole) }
{
    let nodes = tried_nodes(alloc, trial.options, &trial.input.nodes)?;
    match trial.bind(alloc, nodes) {
        Ok(bound) => {
            let points = trial.input.nodes.decimals.as_slice();
            bound_hint(alloc, &bound, points, by, whole)
        }
        Err(Status::NoMemory) => Err(NoMemory),
        Err(_) => unreachable!(),
    }
}

/// The lines that name the segment on which a missing subsegment lies.
fn segment_hint(
    alloc: Global,
    trial: &Trial,
    by: &Numbering,
    piece: Piece,
) -> Result<Bytes, NoMemory>
    requires few { trial.now.options.budget ≤ 100000 }
    requires points { HasPoints trial.now.limits trial.now.options trial.now.input
        (length by.now.names) }
    requires missing { IsMissing trial.now.limits trial.now.options trial.now.input piece }
    ensures { IfOk result (TellsSegment trial.now.limits trial.now.options
        trial.now.input by.now piece) }
{
    let whole = whole_of(alloc, trial, by.names.len(), piece)?;
    whole_hint(alloc, trial, by, whole)
}

/// Appends that coordinates were rounded to `decimals` decimals, of `most` that the file has.
fn append_rounded(text: &mut Bytes, decimals: u32, most: u32) -> Result<(), NoMemory>
    ensures { OnOk result (text.new ≡ text.old ++ rounded_line decimals most) }
{
    text.append(b"tetfit: coordinates were rounded to ")?;
    append_number(text, decimals as usize)?;
    text.append(b" decimals, of ")?;
    append_number(text, most as usize)?;
    text.append(b" that the file has\n")
}

/// Appends that coordinates were rounded to `decimals` decimals, where the file has more.
fn append_fewer(text: &mut Bytes, decimals: u32, most: u32) -> Result<(), NoMemory>
    ensures { OnOk result (text.new ≡ text.old ++ rounded_text (Some decimals) most) }
{
    if decimals < most {
        append_rounded(text, decimals, most)
    } else {
        Ok(())
    }
}

/// Appends that coordinates were rounded: to multiples of the unit, where the options have one, or
/// where the points of the file have more decimals than the options.
fn append_rounding(
    text: &mut Bytes,
    options: &Options,
    points: &[DecimalPoint],
) -> Result<(), NoMemory>
    requires { IfSome options.now.unit IsUnit }
    ensures { OnOk result (text.new ≡ text.old ++ rounding_text options.now points.now) }
{
    match (options.unit, options.decimals) {
        (Some(unit), _) => append_multiples(text, unit),
        (None, Some(decimals)) => append_fewer(text, decimals, most_decimals(points)),
        (None, None) => Ok(()),
    }
}

/// The grid on which the points of the input are.
fn grid_of(alloc: Global, trial: &Trial, count: usize) -> Result<Grid, NoMemory>
    requires { HasPoints trial.now.limits trial.now.options trial.now.input count }
    ensures { IfOk result (IsGridOf trial.now.limits trial.now.options trial.now.input) }
{
    let nodes = tried_nodes(alloc, trial.options, &trial.input.nodes)?;
    match trial.bind(alloc, nodes) {
        Ok(bound) => Ok(bound.table.grid),
        Err(Status::NoMemory) => Err(NoMemory),
        Err(_) => unreachable!(),
    }
}

/// What may help where the grid is too coarse: fewer decimals, where it has some, and fewer
/// halvings than it may have.
fn grid_help(most: u32, grid: Grid) -> &'static [u8]
    ensures { result.now ≡ grid_help most grid }
{
    if grid.decimals > 0 && grid.halvings < most {
        b": try fewer decimals by --unit=U"
    } else {
        b""
    }
}

/// Appends how many decimals and halvings the grid has.
fn append_front(text: &mut Bytes, grid: Grid) -> Result<(), NoMemory>
    ensures { OnOk result (text.new ≡ text.old ++ grid_front grid) }
{
    text.append(b"tetfit: the grid has ")?;
    append_number(text, grid.decimals as usize)?;
    text.append(b" decimals and ")?;
    append_number(text, grid.halvings as usize)?;
    text.append(b" halvings")
}

/// Appends the line on the grid, which may have at most `most` halvings.
#[tactic(auto, unfolding(crate::specs::Hints::grid_line))]
fn append_grid(text: &mut Bytes, most: u32, grid: Grid) -> Result<(), NoMemory>
    ensures { OnOk result (text.new ≡ text.old ++ grid_line most grid) }
{
    append_front(text, grid)?;
    text.append(grid_help(most, grid))?;
    text.append(b"\n")
}

/// The lines that name the segment on which a missing subsegment lies, how many decimals and
/// halvings the grid has, and that coordinates were rounded, where they were.
fn rounded_segment_hint(
    alloc: Global,
    trial: &Trial,
    by: &Numbering,
    piece: Piece,
) -> Result<Bytes, NoMemory>
    requires few { trial.now.options.budget ≤ 100000 }
    requires points { HasPoints trial.now.limits trial.now.options trial.now.input
        (length by.now.names) }
    requires missing { IsMissing trial.now.limits trial.now.options trial.now.input piece }
    ensures { IfOk result (TellsRounded trial.now.limits trial.now.options
        trial.now.input by.now piece) }
{
    let mut text = segment_hint(alloc, trial, by, piece)?;
    let grid = grid_of(alloc, trial, by.names.len())?;
    append_grid(&mut text, trial.options.halvings, grid)?;
    append_rounding(
        &mut text,
        trial.options,
        trial.input.nodes.decimals.as_slice(),
    )?;
    Ok(text)
}

/// Appends half a unit of the last of `decimals` decimals.
#[tactic(auto, unfolding(crate::specs::Hints::half_unit))]
fn append_half(text: &mut Bytes, decimals: u32) -> Result<(), NoMemory>
    ensures { OnOk result (text.new ≡ text.old ++ half_unit decimals) }
{
    print_scaled(false, 5, u64::from(decimals) + 1, text)
}

/// Appends by how much rounding to `decimals` decimals moved a coordinate at most.
fn append_moved(text: &mut Bytes, decimals: u32) -> Result<(), NoMemory>
    ensures { OnOk result (text.new ≡ text.old ++ moved_line decimals) }
{
    text.append(b"tetfit: rounding moved each coordinate by at most ")?;
    append_half(text, decimals)?;
    text.append(b"\n")
}

/// Appends by how much rounding to `decimals` decimals moved a coordinate at most, where a point
/// has more.
fn append_decimals_moved(
    text: &mut Bytes,
    decimals: u32,
    points: &[DecimalPoint],
) -> Result<(), NoMemory>
    ensures { OnOk result (text.new ≡ text.old ++ decimals_moved decimals points.now) }
{
    if decimals < most_decimals(points) {
        append_moved(text, decimals)
    } else {
        Ok(())
    }
}

/// The lines that say by how much rounding moved a coordinate at most: to multiples of the unit of
/// the options, where they have one, and to `decimals` decimals, where a point has more.
pub(crate) fn moved_text(
    alloc: Global,
    options: &Options,
    decimals: u32,
    points: &[DecimalPoint],
) -> Result<Bytes, NoMemory>
    requires { IfSome options.now.unit IsUnit }
    ensures { IfOk result (λ lines. lines ≡ moved_text options.now decimals points.now) }
{
    let mut text = Bytes::new(alloc);
    append_unit_moved(&mut text, options.unit)?;
    append_decimals_moved(&mut text, decimals, points)?;
    Ok(text)
}

/// The line of four corners of a facet that are in no plane, and that coordinates were rounded,
/// where they were.
fn uneven_hint(alloc: Global, trial: &Trial, by: &Numbering, four: Tet) -> Result<Bytes, NoMemory>
    ensures { IfOk result (λ lines. lines
        ≡ uneven_text trial.now.options trial.now.input.nodes.decimals by.now four) }
{
    let points = trial.input.nodes.decimals.as_slice();
    let mut text = Bytes::new(alloc);
    append_four(&mut text, points, by, four)?;
    append_rounding(&mut text, trial.options, points)?;
    Ok(text)
}

/// The line on points that span no tetrahedron.
fn flat_line(points: &[DecimalPoint]) -> &'static [u8]
    ensures { result.now ≡ flat_line points.now }
{
    if points.is_empty() {
        b"tetfit: nothing to mesh: the file has no points and no facets\n"
    } else {
        b"tetfit: all points lie in one plane\n"
    }
}

/// The lines on points that span no tetrahedron: that all lie in one plane, or that there are none,
/// and that coordinates were rounded, where they were.
fn flat_hint(alloc: Global, trial: &Trial) -> Result<Bytes, NoMemory>
    ensures { IfOk result (λ lines. lines
        ≡ flat_text trial.now.options trial.now.input.nodes.decimals) }
{
    let points = trial.input.nodes.decimals.as_slice();
    let mut text = Bytes::from_slice(alloc, flat_line(points))?;
    append_rounding(&mut text, trial.options, points)?;
    Ok(text)
}

/// The lines of two crossing parts with the coordinates of their corners, and that coordinates were
/// rounded, where they were.
fn parts_hint(
    alloc: Global,
    trial: &Trial,
    by: &Numbering,
    placed: &Option<Placed>,
    one: Part,
    two: Part,
) -> Result<Bytes, NoMemory>
    requires { IfSome placed.now (λ p. IsPrintable p.frame) }
    ensures { IfOk result (λ lines. lines ≡ parts_text trial.now.options
        trial.now.input.nodes.decimals by.now placed.now one two) }
{
    let points = trial.input.nodes.decimals.as_slice();
    let mut text = Bytes::new(alloc);
    append_part(&mut text, points, by, placed, one)?;
    append_part(&mut text, points, by, placed, two)?;
    append_rounding(&mut text, trial.options, points)?;
    Ok(text)
}

/// Whether the points have more decimals than coordinates were rounded to.
fn has_more_decimals(decimals: Option<u32>, points: &[DecimalPoint]) -> bool
    ensures { result ≡ has_more_decimals decimals (most_decimals points.now) }
{
    match decimals {
        Some(decimals) => decimals < most_decimals(points),
        None => false,
    }
}

/// Whether coordinates were rounded: to multiples of a unit, or to fewer decimals than the points
/// have.
fn is_rounded(options: &Options, points: &[DecimalPoint]) -> bool
    ensures { result ≡ is_rounded options.now (most_decimals points.now) }
{
    options.unit.is_some() || has_more_decimals(options.decimals, points)
}

/// What would help two parts that cross once coordinates are rounded, or as they are in the file.
fn parts_help(rounded: bool) -> &'static [u8]
    ensures { result.now ≡ parts_help rounded }
{
    if rounded {
        b"tetfit: if they meet in the file, give both the points in which they do, \
          or drop one of equal ones\n\
          tetfit: if not, rounding made them meet: move them apart, \
          or try another rounding by --unit=U\n"
    } else {
        b"tetfit: give both parts the points in which they meet, or drop one of equal ones\n"
    }
}

/// The lines of two crossing parts with the coordinates of their corners, and what would help them.
fn crossing_hint(
    alloc: Global,
    trial: &Trial,
    by: &Numbering,
    one: Part,
    two: Part,
) -> Result<Bytes, NoMemory>
    requires { HasCrossing trial.now.limits trial.now.options trial.now.input }
    ensures { IfOk result (TellsCrossing trial.now.limits trial.now.options
        trial.now.input by.now one two) }
{
    let points = trial.input.nodes.decimals.as_slice();
    let placed = Some(placed_of(alloc, trial)?);
    let mut text = parts_hint(alloc, trial, by, &placed, one, two)?;
    text.append(parts_help(is_rounded(trial.options, points)))?;
    Ok(text)
}

/// The lines of two crossing segments, and what would help them.
fn segments_hint(
    alloc: Global,
    trial: &Trial,
    by: &Numbering,
    one: Piece,
    two: Piece,
) -> Result<Bytes, NoMemory>
    ensures { IfOk result (TellsSegments trial.now.options trial.now.input.nodes.decimals
        by.now one two) }
{
    let points = trial.input.nodes.decimals.as_slice();
    let apart = are_apart(alloc, points, by, one, two)?;
    let (first, second) = (Part::Segment(one), Part::Segment(two));
    let mut text = parts_hint(alloc, trial, by, &None, first, second)?;
    text.append(crossing_help(apart))?;
    Ok(text)
}

/// The lines that follow the message on an input whose points have these numbers.
fn hint_by(alloc: Global, trial: &Trial, by: &Numbering, status: &Status) -> Result<Bytes, NoMemory>
    requires few { trial.now.options.budget ≤ 100000 }
    requires refused { IsNumbered trial.now.limits trial.now.options trial.now.input
        status.now (Some by.now) }
    ensures { IfOk result (IsHintBy trial.now.limits trial.now.options
        trial.now.input by.now status.now) }
{
    match status {
        Status::Flat => flat_hint(alloc, trial),
        Status::NotFlat { facet: _, four } => uneven_hint(alloc, trial, by, *four),
        Status::SegmentsCross { one, two } => segments_hint(alloc, trial, by, *one, *two),
        Status::Crossing { one, two } => crossing_hint(alloc, trial, by, *one, *two),
        Status::GridEnd { piece } => rounded_segment_hint(alloc, trial, by, *piece),
        Status::BudgetEnd { made: _, piece } => segment_hint(alloc, trial, by, *piece),
        _ => Ok(Bytes::new(alloc)),
    }
}

/// The lines on the first point that is off every grid at `decimals` decimals.
fn grid_hint(
    alloc: Global,
    limits: Limits,
    origin: Option<WholePoint>,
    decimals: u32,
    model: &Model,
    status: &Status,
) -> Result<Bytes, NoMemory>
    requires { IfSome origin (IsNear decimals) }
    ensures { IfOk result (λ lines. lines
        ≡ grid_hint limits origin decimals model.now.stated model.now.input status.now) }
{
    match status {
        Status::Limit {
            what: LimitKind::Grid { line: _ },
        } => {
            let points = model.input.nodes.decimals.as_slice();
            let found = first_off(limits.grid, origin, decimals, points);
            off_grid_text(alloc, decimals, model.stated, found)
        }
        _ => Ok(Bytes::new(alloc)),
    }
}

/// The lines that follow the message on a refused model: the segment of the input on which a
/// missing subsegment lies, with its ends; the coordinates of the crossing parts, and whether two
/// segments cross in the file; those of four corners of a facet that is not flat; that points lie
/// in one plane; or the place and the coordinates of the first point off the grid. Where points
/// lie in one plane, a facet is not flat, parts cross or the grid is too coarse for a subsegment,
/// and the file has more decimals than are tried, they end with both numbers. The segment is found
/// by meshing again with fewer points added: each such run ends at the subsegment that the next
/// point halves.
pub fn hint_of(
    alloc: Global,
    limits: Limits,
    options: &Options,
    model: &Model,
    refused: &Refused,
) -> Result<Bytes, NoMemory>
    requires limits { AreIndexable limits }
    requires input { IsSound model.now.input }
    requires ranges { AreInTriedRange (at_decimals refused.now.decimals options.now) }
    requires refused { IsNumberedAt limits options.now model.now.input
        refused.now.decimals refused.now.end }
    ensures { IfOk result
        (IsHint limits model.now.stated (at_decimals refused.now.decimals options.now)
        model.now.input refused.now.end.numbering refused.now.end.status) }
{
    match &refused.end.numbering {
        None => {
            let status = &refused.end.status;
            grid_hint(
                alloc,
                limits,
                options.origin,
                refused.decimals,
                model,
                status,
            )
        }
        Some(by) => {
            let options = at_decimals(alloc, options, refused.decimals)?;
            let trial = Trial::new(limits, &options, &model.input);
            hint_by(alloc, &trial, by, &refused.end.status)
        }
    }
}

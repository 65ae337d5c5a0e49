//! How a run ends: the status with its exit code, its line, and what would help.

ghost use Rattle.std.specs.Prelude.{◌≡◌, ◌++◌, None, IfOk, codes};
ghost use Rattle.std.specs.Fmt.{decimal};
ghost use Rattle.mesh_check.specs.Messages.{line};
ghost use Rattle.run_steps.specs.LineParts.{at_most, ends_text, two_tetrahedra_text};
ghost use Rattle.run_steps.specs.Statuses.{code_of, has_hint, help_of, help_of_budget, help_of_limit};
ghost use Rattle.run_steps.specs.Statuses.{limit_message, message_of};
ghost use Rattle.tangle_laws.specs.declared.anomaly.Anomaly.TheVariants.{Bare};
ghost use Rattle.run_steps.specs.declared.status.LimitKind.TheVariants.{Bytes as TooLong, Corners};
ghost use Rattle.run_steps.specs.declared.status.Status.TheVariants.{NotFlat, SegmentsCross, Crossing, GridEnd, BudgetEnd, NoFill, Unsound};

use crate::line_parts::{
    append_ends, append_facet, append_most, append_point, append_tetrahedron, part_text,
};
use crate::numbering::Numbering;
use complex_mesh::MeshFault;
use geo_laws::{Face, Piece, Tet};
use mesh_check::{
    Defect, append_number, defect_text, file_message, line, text_message, usage_message,
};
use simplex_meets::Part;
use std::alloc::Global;
use tangle_laws::Anomaly;
use tet_ports::{Bytes, Name, NoMemory};
use tet_text::TextFault;

/// The limit that an input is over.
#[derive(Debug, Drop)]
pub enum LimitKind {
    /// The bytes of a file; how many are allowed.
    Bytes {
        name: Name,
        most: usize,
    },
    /// The number of points, of the input or of a mesh that is checked, and how many are allowed.
    Points {
        count: u64,
        most: usize,
    },
    /// The number of facets; that of the input, and how many are allowed.
    Facets {
        count: u64,
        most: usize,
    },
    /// The number of corners of a polygon; the line of the first such polygon, from 1, how many it
    /// has, and how many are allowed.
    Corners {
        line: usize,
        count: u64,
        most: usize,
    },
    /// The size of a grid coordinate without halvings; the line of the first point that is off the
    /// grid, from 1.
    Grid {
        line: usize,
    },
    /// The size of a weight, 2^46 squares of grid units; the line of the first point whose weight
    /// is over it, from 1.
    Weight {
        line: usize,
    },
}

/// How a run ends. Names are those of files. Facets are named by their places, from 0, and so are
/// points: those that are kept where equal points of the input are folded, and the added ones
/// behind them.
#[derive(Debug, Drop)]
pub enum Status {
    /// The files are stored and the summary is written.
    Done,
    /// The words are not in the grammar: the first bad word and the place in it, both counted from
    /// 1.
    Usage { word: usize, place: usize },
    /// The folder lacks the input.
    Missing { name: Name },
    /// The folder failed in a fetch.
    ReadFault { name: Name },
    /// A file is not in its grammar, or a corner of it names no point.
    BadText { name: Name, fault: TextFault },
    /// The input is over a limit.
    Limit { what: LimitKind },
    /// All points lie in one plane.
    Flat,
    /// Four corners of the first facet that is not flat do not lie in one plane.
    NotFlat { facet: u32, four: Tet },
    /// The first two pieces of segments that are not properly met.
    SegmentsCross { one: Piece, two: Piece },
    /// The first two parts of facets, triangles or pieces, that are not properly met.
    Crossing { one: Part, two: Part },
    /// A subsegment is no edge of the mesh, and was halved as often as the grid allows.
    GridEnd { piece: Piece },
    /// A subsegment is no edge of the mesh, and as many points were added as are allowed.
    BudgetEnd { made: u32, piece: Piece },
    /// Two facets cross a Delaunay tetrahedron, and the constrained Delaunay tetrahedra found by
    /// gift wrapping round the facets have this anomaly.
    NoFill { anomaly: Anomaly },
    /// The mesh that is checked has a defect; the first one. Its files number points, rows and
    /// faces from `first` on.
    Unsound { defect: Defect, first: u32 },
    /// The mesh has no tetrahedron: nothing is enclosed, or hole points carve all of it.
    Empty,
    /// Out of memory.
    NoMemory,
    /// The folder failed in a store, or the sink of the summary, which has no name.
    WriteFault { name: Option<Name> },
}

impl Status {
    /// The status with which the program ends.
    pub fn code(&self) -> u8
        ensures { result ≡ code_of self.now }
    {
        match self {
            Status::Done => 0,
            Status::Usage { .. } => 1,
            Status::Missing { .. } => 2,
            Status::ReadFault { .. } => 3,
            Status::BadText { .. } => 4,
            Status::Limit { .. } => 5,
            Status::Flat => 6,
            Status::NotFlat { .. } => 6,
            Status::SegmentsCross { .. } => 6,
            Status::Crossing { .. } => 6,
            Status::GridEnd { .. } => 7,
            Status::BudgetEnd { .. } => 8,
            Status::NoFill { .. } => 9,
            Status::NoMemory => 10,
            Status::WriteFault { .. } => 11,
            Status::Unsound { .. } => 13,
            Status::Empty => 14,
        }
    }

    /// What would help whoever meshes a model, as `tetfit` says it; empty where nothing is known
    /// to, or where the lines before it say it.
    pub fn help(&self) -> &'static [u8]
        ensures { result.now ≡ help_of self.now }
    {
        match self {
            Status::Missing { .. } => {
                b"the file of a model is .node, .poly, .smesh, .off or .stl: give its name whole"
            }
            Status::Limit { what } => help_of_limit(what),
            Status::Flat => b"four points that are not in one plane are wanted",
            Status::NotFlat { .. } => b"cut the facet in triangles",
            Status::GridEnd { .. } => {
                b"move apart what is near the segment, or turn sharp corners wider"
            }
            Status::BudgetEnd { made, .. } => help_of_budget(*made),
            Status::NoFill { .. } => b"move the points of these facets apart",
            _ => b"",
        }
    }

    /// Whether `tetfit` puts lines on the model behind the line of the status: on a keyword, on a
    /// segment, on crossing parts, on a point off the grid, on points in one plane, on rounded
    /// coordinates, or on an open side.
    pub fn has_hint(&self) -> bool
        ensures { result ≡ has_hint self.now }
    {
        match self {
            Status::BadText { .. } => true,
            Status::Limit {
                what: LimitKind::Grid { .. },
            } => true,
            Status::Flat => true,
            Status::Empty => true,
            Status::NotFlat { .. } => true,
            Status::SegmentsCross { .. } => true,
            Status::Crossing { .. } => true,
            Status::GridEnd { .. } => true,
            Status::BudgetEnd { .. } => true,
            _ => false,
        }
    }
}

impl From<NoMemory> for Status {
    ghost use Rattle.std.specs.Prelude.{◌≡◌};
    ghost use Rattle.run_steps.specs.declared.status.Status.TheVariants.{NoMemory as OutOfMemory};

    ghost from_gives = { λ _ status. status ≡ OutOfMemory };

    fn from(_: NoMemory) -> Status {
        Status::NoMemory
    }
}

impl From<MeshFault> for Status {
    ghost use Rattle.std.specs.Prelude.{◌≡◌};
    ghost use Rattle.run_steps.specs.Faults.{status_of_fault};

    ghost from_gives = { λ fault status. status ≡ status_of_fault fault };

    fn from(fault: MeshFault) -> Status {
        match fault {
            MeshFault::Flat => Status::Flat,
            MeshFault::NotFlat { facet, four } => Status::NotFlat { facet, four },
            MeshFault::SegmentsCross { one, two } => Status::SegmentsCross { one, two },
            MeshFault::GridEnd { piece } => Status::GridEnd { piece },
            MeshFault::BudgetEnd { made, piece } => Status::BudgetEnd { made, piece },
            MeshFault::Crossing { one, two } => Status::Crossing { one, two },
            MeshFault::NoFill { anomaly } => Status::NoFill { anomaly },
            MeshFault::NoMemory => Status::NoMemory,
        }
    }
}

/// What would help where a limit is passed; for a point off the grid the lines on it tell that.
fn help_of_limit(what: &LimitKind) -> &'static [u8]
    ensures { result.now ≡ help_of_limit what.now }
{
    match what {
        LimitKind::Grid { .. } => b"",
        LimitKind::Corners { .. } => b"cut the facet in parts",
        _ => b"cut the model in parts",
    }
}

/// What would help where all `made` points that were allowed were added.
fn help_of_budget(made: u32) -> &'static [u8]
    ensures { result.now ≡ help_of_budget made }
{
    if made < 100_000 {
        b"allow more added points by -S"
    } else {
        b"cut the model in parts"
    }
}

/// A line, or out of memory.
type LineAnswer = Result<Bytes, NoMemory>;

/// The line that reports a refusal, with points numbered by `by`. It begins with the program's
/// name, a colon and a space, which are `program`.
pub fn message(
    alloc: Global,
    program: &[u8],
    by: &Option<Numbering>,
    status: &Status,
) -> Result<Bytes, NoMemory>
    ensures { IfOk result (λ line. line ≡ message_of program.now by.now status.now) }
{
    match status {
        Status::Done => Ok(Bytes::new(alloc)),
        Status::Usage { word, place } => usage_message(alloc, program, *word, *place),
        Status::Missing { name } => file_message(alloc, program, name, b"not found"),
        Status::ReadFault { name } => file_message(alloc, program, name, b"read failed"),
        Status::BadText { name, fault } => text_message(alloc, program, name, *fault),
        Status::Limit { what } => limit_message(alloc, program, what),
        Status::Flat => line(alloc, program, b"all points lie in one plane"),
        Status::NotFlat { facet, four } => not_flat_message(alloc, program, by, *facet, *four),
        Status::SegmentsCross { one, two } => segments_message(alloc, program, by, *one, *two),
        Status::Crossing { one, two } => crossing_message(alloc, program, by, *one, *two),
        Status::GridEnd { piece } => grid_message(alloc, program, by, *piece),
        Status::BudgetEnd { made, piece } => budget_message(alloc, program, by, *made, *piece),
        Status::NoFill { anomaly } => no_fill_message(alloc, program, by, *anomaly),
        Status::Unsound { defect, first } => unsound_message(alloc, program, *defect, *first),
        Status::Empty => line(alloc, program, b"nothing is enclosed"),
        Status::NoMemory => line(alloc, program, b"out of memory"),
        Status::WriteFault { name: None } => line(alloc, program, b"summary: write failed"),
        Status::WriteFault { name: Some(name) } => file_message(
            alloc,
            program,
            name,
            b"write failed",
        ),
    }
}

/// A message on an input that is over a limit.
fn limit_message(alloc: Global, program: &[u8], what: &LimitKind) -> LineAnswer
    ensures { IfOk result (λ line. line ≡ limit_message program.now what.now) }
{
    match what {
        LimitKind::Bytes { name, most } => bytes_message(alloc, program, name, *most),
        LimitKind::Points { count, most } => count_message(
            alloc, program, *count, b" points", *most,
        ),
        LimitKind::Facets { count, most } => count_message(
            alloc, program, *count, b" facets", *most,
        ),
        LimitKind::Corners { line, count, most } => corners_message(
            alloc, program, *line, *count, *most,
        ),
        LimitKind::Grid { line } => place_message(
            alloc,
            program,
            *line,
            b": coordinate off the grid",
        ),
        LimitKind::Weight { line } => place_message(
            alloc,
            program,
            *line,
            b": weight off the grid",
        ),
    }
}

/// A line on a file that is too long.
fn bytes_message(alloc: Global, program: &[u8], name: &Name, most: usize) -> LineAnswer
    ensures { IfOk result (λ line. line ≡ limit_message program.now (TooLong name.now most)) }
{
    let mut text = Bytes::from_slice(alloc, b"over ")?;
    append_number(&mut text, most)?;
    text.append(b" bytes")?;
    file_message(alloc, program, name, text.as_slice())
}

/// A line on a count that is over its limit: the number, the noun and the limit.
fn count_message(alloc: Global, program: &[u8], count: u64, what: &[u8], most: usize) -> LineAnswer
    ensures { IfOk result
        (λ made. made ≡ line program.now (decimal count ++ what.now ++ at_most most)) }
{
    let mut text = Bytes::new(alloc);
    append_number(&mut text, count as usize)?;
    text.append(what)?;
    append_most(&mut text, most)?;
    line(alloc, program, text.as_slice())
}

fn unsound_message(alloc: Global, program: &[u8], defect: Defect, first: u32) -> LineAnswer
    ensures { IfOk result (λ line. line ≡ message_of program.now None (Unsound defect first)) }
{
    let text = defect_text(alloc, first, defect)?;
    line(alloc, program, text.as_slice())
}

fn corners_message(
    alloc: Global,
    program: &[u8],
    place: usize,
    count: u64,
    most: usize,
) -> LineAnswer
    ensures { IfOk result (λ line. line ≡ limit_message program.now (Corners place count most)) }
{
    let mut text = Bytes::from_slice(alloc, b": ")?;
    append_number(&mut text, count as usize)?;
    text.append(b" corners")?;
    append_most(&mut text, most)?;
    place_message(alloc, program, place, text.as_slice())
}

/// A message on a line of a file, with the text that follows the line's number.
fn place_message(alloc: Global, program: &[u8], place: usize, told: &[u8]) -> LineAnswer
    ensures { IfOk result
        (λ made. made ≡ line program.now (codes "line " ++ decimal place ++ told.now)) }
{
    let mut text = Bytes::from_slice(alloc, b"line ")?;
    append_number(&mut text, place)?;
    text.append(told)?;
    line(alloc, program, text.as_slice())
}

fn not_flat_message(
    alloc: Global,
    program: &[u8],
    by: &Option<Numbering>,
    facet: u32,
    four: Tet,
) -> LineAnswer
    ensures { IfOk result (λ line. line ≡ message_of program.now by.now (NotFlat facet four)) }
{
    let mut text = Bytes::from_slice(alloc, b"facet ")?;
    append_facet(&mut text, facet)?;
    text.append(b" is not flat: points")?;
    append_tetrahedron(&mut text, by, four)?;
    line(alloc, program, text.as_slice())
}

fn segments_message(
    alloc: Global,
    program: &[u8],
    by: &Option<Numbering>,
    one: Piece,
    two: Piece,
) -> LineAnswer
    ensures { IfOk result (λ line. line ≡ message_of program.now by.now (SegmentsCross one two)) }
{
    let mut text = Bytes::from_slice(alloc, b"segments")?;
    append_ends(&mut text, by, one)?;
    text.append(b" and")?;
    piece_message(alloc, program, by, text, two, b" cross")
}

/// A line with the two ends of a subsegment between two texts.
fn piece_message(
    alloc: Global,
    program: &[u8],
    by: &Option<Numbering>,
    mut text: Bytes,
    piece: Piece,
    told: &[u8],
) -> LineAnswer
    ensures { IfOk result
        (λ made. made ≡ line program.now (text ++ ends_text by.now piece ++ told.now)) }
{
    append_ends(&mut text, by, piece)?;
    text.append(told)?;
    line(alloc, program, text.as_slice())
}

fn crossing_message(
    alloc: Global,
    program: &[u8],
    by: &Option<Numbering>,
    one: Part,
    two: Part,
) -> LineAnswer
    ensures { IfOk result (λ line. line ≡ message_of program.now by.now (Crossing one two)) }
{
    let mut text = Bytes::from_slice(alloc, b"crossing: ")?;
    text.append(part_text(alloc, by, one)?.as_slice())?;
    text.append(b" and ")?;
    text.append(part_text(alloc, by, two)?.as_slice())?;
    line(alloc, program, text.as_slice())
}

fn grid_message(alloc: Global, program: &[u8], by: &Option<Numbering>, piece: Piece) -> LineAnswer
    ensures { IfOk result (λ line. line ≡ message_of program.now by.now (GridEnd piece)) }
{
    let text = Bytes::from_slice(alloc, b"segment")?;
    piece_message(alloc, program, by, text, piece, b" needs a finer grid")
}

fn budget_message(
    alloc: Global,
    program: &[u8],
    by: &Option<Numbering>,
    made: u32,
    piece: Piece,
) -> LineAnswer
    ensures { IfOk result (λ line. line ≡ message_of program.now by.now (BudgetEnd made piece)) }
{
    let mut text = Bytes::new(alloc);
    append_number(&mut text, made as usize)?;
    text.append(b" splits used, segment")?;
    piece_message(alloc, program, by, text, piece, b" is missing")
}

fn no_fill_message(
    alloc: Global,
    program: &[u8],
    by: &Option<Numbering>,
    anomaly: Anomaly,
) -> LineAnswer
    ensures { IfOk result (λ line. line ≡ message_of program.now by.now (NoFill anomaly)) }
{
    match anomaly {
        Anomaly::Bare { face } => bare_message(alloc, program, by, face),
        Anomaly::Doubled { one, two } => fillings_message(
            alloc,
            program,
            by,
            b"two fillings",
            one,
            two,
        ),
        Anomaly::Bent { one, two } => fillings_message(
            alloc,
            program,
            by,
            b"bent fillings",
            one,
            two,
        ),
    }
}

fn bare_message(alloc: Global, program: &[u8], by: &Option<Numbering>, face: Face) -> LineAnswer
    ensures { IfOk result (λ line. line ≡ message_of program.now by.now (NoFill (Bare face))) }
{
    let mut text = Bytes::from_slice(alloc, b"no filling at face")?;
    append_point(&mut text, by, face.a)?;
    append_point(&mut text, by, face.b)?;
    append_point(&mut text, by, face.c)?;
    line(alloc, program, text.as_slice())
}

/// A line on two tetrahedra.
fn fillings_message(
    alloc: Global,
    program: &[u8],
    by: &Option<Numbering>,
    told: &[u8],
    one: Tet,
    two: Tet,
) -> LineAnswer
    ensures { IfOk result
        (λ made. made ≡ line program.now (told.now ++ two_tetrahedra_text by.now one two)) }
{
    let mut text = Bytes::from_slice(alloc, told)?;
    append_tetrahedron(&mut text, by, one)?;
    text.append(b" and")?;
    append_tetrahedron(&mut text, by, two)?;
    line(alloc, program, text.as_slice())
}

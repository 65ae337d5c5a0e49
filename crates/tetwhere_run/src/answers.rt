//! The answers to queries.

ghost use Rattle.std.specs.Prelude.{◌≡◌, ◌≤◌, ◌<◌, ◌+◌, ◌-◌, ◌^◌, ◌++◌, length, All, IfOk, OnOk};
ghost use Rattle.mesh_files.specs.ReadRows.{AreCornersBelow};
ghost use Rattle.row_cells.specs.Parts.{ArePositiveOn, StandsFor};
ghost use Rattle.tet_ports.specs.Seen.{IsOnlyRead, folder_seen};
ghost use Rattle.tetwhere_run.specs.Locating.{found_row_text, query_line, answer_text, AnswersAnswer};
ghost use Rattle.tetwhere_run.specs.Locating.{IsLocatedOnGrid, TextLocated, LocateAnswer};

use crate::centering::centered;
use crate::nearest::nearest_rat;
use crate::reading::{WhereText, read_where};
use crate::settling::{Settled, settle, want_positive};
use grid_coords::DecimalPoint;
use mesh_check::{CheckFault, append_place};
use row_cells::RowCells;
use std::alloc::Global;
use tet_ports::{Bytes, Folder, Name, NoMemory};

/// Appends the number of a tetrahedron, or -1 for none.
fn append_row(text: &mut Bytes, row: Option<usize>, first: u32) -> Result<(), NoMemory>
    ensures { OnOk result (text.new ≡ text.old ++ found_row_text first row) }
{
    match row {
        Some(row) => append_place(text, row, first),
        None => text.append(b"-1"),
    }
}

/// Appends the line of the query at a place.
fn append_line(
    lines: &mut Bytes,
    text: &WhereText,
    settled: &Settled,
    cells: &RowCells,
    place: usize,
    query: &DecimalPoint,
) -> Result<(), NoMemory>
    requires rows { ArePositiveOn settled.now.points text.now.rows }
    requires cells { StandsFor settled.now.points text.now.rows cells.now }
    requires halvings { settled.now.grid.halvings ≤ 64 }
    ensures { OnOk result (lines.new
        ≡ lines.old ++ query_line text.now settled.now place query.now) }
{
    let point = nearest_rat(&settled.grid, query);
    let found = cells.find(&settled.points, &text.rows, point);
    append_place(lines, place, text.queries.first)?;
    lines.append(b" ")?;
    append_row(lines, found, text.nodes.first)?;
    lines.append(b"\n")
}

/// The lines of all queries.
fn answers(alloc: Global, text: &WhereText, settled: &Settled) -> Result<Bytes, CheckFault>
    requires rows { ArePositiveOn settled.now.points text.now.rows }
    requires halvings { settled.now.grid.halvings ≤ 64 }
    ensures { AnswersAnswer text.now settled.now result }
{
    let cells = RowCells::new(alloc, &settled.points, &text.rows)?;
    let mut lines = Bytes::new(alloc);
    for i in 0..text.queries.decimals.len() {
        let query = text.queries.decimals.get(i);
        append_line(&mut lines, text, settled, &cells, i, query)?;
    }
    Ok(lines)
}

/// The answers to queries over a mesh that is measured as the queries are.
fn locate_on_grid(alloc: Global, text: &WhereText) -> Result<Bytes, CheckFault>
    requires { All (AreCornersBelow (length text.now.nodes.decimals)) text.now.rows }
    ensures { IsLocatedOnGrid text.now result }
{
    let settled = settle(alloc, &text.nodes.decimals)?;
    want_positive(text, &settled)?;
    answers(alloc, text, &settled)
}

fn locate_text(alloc: Global, text: WhereText) -> Result<Bytes, CheckFault>
    requires { All (AreCornersBelow (length text.nodes.decimals)) text.rows }
    ensures { TextLocated text result }
{
    let text = centered(alloc, text)?;
    locate_on_grid(alloc, &text)
}

/// The answers to the queries of a file over the mesh with this base: for each query in order a
/// line with its number and that of the first tetrahedron whose closure holds it, or -1. It refuses
/// with the first in this order: of each file in turn its fetch, with `Missing`, `ReadFault` or
/// `TooLong`, and its text; over 120,000 points; a coordinate off the grid; the first tetrahedron
/// that is not positively oriented; or when out of memory. Where the points are off the grid from
/// zero, they and the queries are measured from the middle of the points' box. It stores nothing.
pub fn locate_files<F: Folder>(
    alloc: Global,
    base: &Name,
    queries: &Name,
    folder: &mut F,
) -> Result<Bytes, CheckFault>
    ensures answer { LocateAnswer (folder_seen F.state folder.old folder.new)
        base.now queries.now result }
    ensures only_read { IsOnlyRead (folder_seen F.state folder.old folder.new) }
{
    let text = read_where(alloc, base, queries, folder)?;
    locate_text(alloc, text)
}

//! A mesh and queries that are measured from the middle of the mesh's box, where its points are off
//! the grid from zero.

ghost use Rattle.std.specs.Prelude.{◌≡◌, length, All, IfOk};
ghost use Rattle.mesh_files.specs.ReadRows.{AreCornersBelow};
ghost use Rattle.tetwhere_run.specs.Centering.{origin_for, CenteredTextAnswer, MovedTextAnswer};

use crate::reading::WhereText;
use crate::settling::GRID;
use grid_coords::{DecimalPoints, WholePoint, origin_of};
use mesh_check::{CheckFault, moved_points};
use node_files::least_grid;
use std::alloc::Global;

/// The point from which points are measured: none where they fit their least grid from zero, else
/// the middle of their box in whole numbers.
fn origin_for(points: &DecimalPoints) -> Option<WholePoint>
    ensures { result ≡ origin_for points.now }
{
    match least_grid(points, GRID) {
        Ok(_) => None,
        Err(_) => origin_of(points.as_slice()),
    }
}

/// The mesh and the queries measured from a point.
fn moved_text(alloc: Global, w: WholePoint, text: WhereText) -> Result<WhereText, CheckFault>
    requires { All (AreCornersBelow (length text.nodes.decimals)) text.rows }
    ensures answer { MovedTextAnswer (Some w) text result }
    ensures there { IfOk result (λ moved. All (AreCornersBelow
        (length moved.nodes.decimals)) moved.rows) }
{
    let WhereText {
        mut nodes,
        rows,
        mut queries,
    } = text;
    nodes.decimals = moved_points(alloc, w, nodes.decimals.as_slice())?;
    queries.decimals = moved_points(alloc, w, queries.decimals.as_slice())?;
    Ok(WhereText {
        nodes,
        rows,
        queries,
    })
}

/// The mesh and the queries, measured from the middle of the mesh's box where its points are off
/// the grid from zero. It refuses with `OffGrid` a point of the mesh, and then a query, with a
/// coordinate of over 36 digits from there.
pub(crate) fn centered(alloc: Global, text: WhereText) -> Result<WhereText, CheckFault>
    requires { All (AreCornersBelow (length text.nodes.decimals)) text.rows }
    ensures answer { CenteredTextAnswer text result }
    ensures there { IfOk result (λ moved. All (AreCornersBelow
        (length moved.nodes.decimals)) moved.rows) }
{
    match origin_for(&text.nodes.decimals) {
        None => Ok(text),
        Some(w) => moved_text(alloc, w, text),
    }
}

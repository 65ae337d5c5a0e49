//! Point location by cells: the first tetrahedron of a list that holds a point.

ghost use Rattle.std.specs.Prelude.{◌≡◌, ◌<◌, length, All, IfOk};
ghost use Rattle.sign_predicates.specs.Orientation.{in_closed};
ghost use Rattle.geo_laws.specs.Delaunay.{corners, IsOn};
ghost use Rattle.row_cells.specs.Parts.{ArePositiveOn, StandsFor};
ghost use Rattle.row_cells.specs.Where.{first_holding, first_in};

use crate::boxes::{Cell, RowBox, boxes_of, cell_of, is_near};
use crate::parts::{Cells, Cuts, cells_of, part_at};
use crate::widths::cuts_of;
use geo_laws::{Points, Tet, TetList, corners_of};
use sign_predicates::{Hold, RatPoint, in_tet};
use std::alloc::Global;
use tet_ports::NoMemory;

/// The tetrahedra of a list by cells. Each axis is cut into 32 parts, at most as fine as the
/// tetrahedra are, so that the lists of the cells are short; a cell is where three parts meet. Each
/// cell has the tetrahedra whose box reaches into it, ascending, with their boxes.
#[derive(Drop)]
pub struct RowCells {
    cuts: Cuts,
    cells: Cells,
}

/// Whether the closed tetrahedron holds the point.
fn holds(points: &Points, t: Tet, x: RatPoint) -> bool
    requires { IsOn points.now t }
    ensures { result ≡ in_closed (corners points.now t) x }
{
    !matches!(in_tet(corners_of(points, t), x), Hold::Outside)
}

/// The first of the tetrahedra whose closure holds the point. Those whose box does not have the
/// point's cell in it are not tested.
fn first_in(
    cell: &[RowBox],
    points: &Points,
    list: &TetList,
    at: Cell,
    x: RatPoint,
) -> Option<usize>
    requires rows { All (IsOn points.now) list.now }
    requires places { All (λ b. b.row < length list.now) cell.now }
    ensures { result ≡ first_in points.now list.now at x cell.now }
{
    for near in cell {
        if is_near(near, at) && holds(points, list.at(near.row), x) {
            return Some(near.row);
        }
    }
    None
}

impl RowCells {
    /// The cells of a list of positive tetrahedra on the points.
    pub fn new(alloc: Global, points: &Points, list: &TetList) -> Result<RowCells, NoMemory>
        requires { ArePositiveOn points.now list.now }
        ensures { IfOk result (StandsFor points.now list.now) }
    {
        let boxes = boxes_of(alloc, points, list)?;
        let cuts = cuts_of(&boxes);
        let cells = cells_of(alloc, cuts, &boxes)?;
        Ok(RowCells { cuts, cells })
    }

    /// The first tetrahedron whose closure holds the point, by its place in the list, from 0; None
    /// exactly where none does. The cells have to be those of this list on these points. No memory
    /// is taken.
    pub fn find(&self, points: &Points, list: &TetList, x: RatPoint) -> Option<usize>
        requires rows { ArePositiveOn points.now list.now }
        requires cells { StandsFor points.now list.now self.now }
        ensures { result ≡ first_holding points.now list.now x }
    {
        let at = cell_of(x);
        let strips = self.cells.get(part_at(self.cuts.x, at.x));
        let parts = strips.get(part_at(self.cuts.y, at.y));
        let cell = parts.get(part_at(self.cuts.z, at.z)).as_slice();
        first_in(cell, points, list, at, x)
    }
}

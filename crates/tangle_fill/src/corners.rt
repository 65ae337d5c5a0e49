//! The test whether each point is a corner of a list of tetrahedra.
ghost use Rattle.std.specs.Prelude.{◌<◌, ℕ, length, IsTrue, IfOk};
ghost use Rattle.geo_laws.specs.Marks.{is_marked};
ghost use Rattle.constrained_laws.specs.Constrained.{HasEachPoint};

use crate::change::mark_rows;
use geo_laws::{Points, TetList};
use std::alloc::Global;
use tet_ports::NoMemory;

/// Whether the first `count` places are marked.
fn are_marked(marks: &[bool], count: usize) -> bool
    ensures { IsTrue result → ((i : ℕ) → i < count → IsTrue (is_marked marks.now i)) }
{
    for i in 0..count {
        if i >= marks.len() || !marks[i] {
            return false;
        }
    }
    true
}

/// Whether each point is a corner of one of the tetrahedra.
pub(crate) fn has_each_point(
    alloc: Global,
    points: &Points,
    rows: &TetList,
) -> Result<bool, NoMemory>
    ensures { IfOk result (λ each. IsTrue each → HasEachPoint points.now rows.now) }
{
    let mut marks = Vec::new(alloc);
    mark_rows(&mut marks, rows)?;
    Ok(are_marked(&marks, points.len()))
}

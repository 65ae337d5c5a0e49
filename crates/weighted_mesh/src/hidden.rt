//! The number of points that a regular mesh hides.

ghost use Rattle.std.specs.Prelude.{ℕ, ◌≡◌, ◌<◌, ◌||◌, not, length, All, count_by, IfOk};
ghost use Rattle.geo_laws.specs.Delaunay.{numbers, has_corner};
ghost use Rattle.weighted_mesh.specs.Hidden.{hidden_count};
ghost use Rattle.geo_laws.specs.Marks.{is_marked};

use geo_laws::{Tet, TetList};
use std::alloc::Global;
use tet_ports::NoMemory;

/// Marks the corners of a tetrahedron.
fn mark_corners(marks: &mut [bool], row: Tet)
    requires { All (λ i. i < length marks.old) (numbers row) }
    ensures { (i : ℕ) → is_marked marks.new i ≡ (is_marked marks.old i || has_corner row i) }
{
    marks[row.a as usize] = true;
    marks[row.b as usize] = true;
    marks[row.c as usize] = true;
    marks[row.d as usize] = true;
}

/// The number of places without a mark.
fn unmarked_count(marks: &[bool]) -> usize
    ensures { result ≡ count_by not marks.now }
{
    marks.iter().filter(|mark| !**mark).count()
}

/// The number of points, of the `count` points, that are corners of no tetrahedron.
pub(crate) fn hidden_count(alloc: Global, count: usize, rows: &TetList) -> Result<usize, NoMemory>
    requires { All (λ t. All (λ i. i < count) (numbers t)) rows.now }
    ensures { IfOk result (λ hidden. hidden ≡ hidden_count count rows.now) }
{
    let mut marks = Vec::new(alloc);
    marks.resize(count, false)?;
    for row in rows.as_slice() {
        mark_corners(&mut marks, *row);
    }
    Ok(unmarked_count(&marks))
}

//! How many tetrahedra of a list are slim, flat, or over their bounds.
ghost use Rattle.std.specs.Prelude.{◌≡◌, All};
ghost use Rattle.geo_laws.specs.Delaunay.{corners, IsOn};
ghost use Rattle.tet_shapes.specs.Angle.{flat_count};
ghost use Rattle.tet_shapes.specs.Bounds.{is_over, large_count};
ghost use Rattle.tet_shapes.specs.Shape.{IsFine, slim_count};

use crate::angle::is_flat;
use crate::bounds::{VolumeBounds, mark_at};
use crate::shape::{Ratio, is_large, is_slim};
use geo_laws::{Points, Tet, TetList};
use tet_ports::Items;

/// How many tetrahedra of the list are slim.
pub fn count_slim(points: &Points, rows: &TetList, bound: Ratio) -> usize
    requires on { All (IsOn points.now) rows.now }
    requires fine { IsFine bound }
    ensures { result ≡ slim_count bound points.now rows.now }
{
    let mut count = 0usize;
    for i in 0..rows.len() {
        if is_slim(points, rows.at(i), bound) {
            count += 1;
        }
    }
    count
}

/// How many tetrahedra of the list have a dihedral angle whose squared cosine is over the bound.
pub fn count_flat(points: &Points, rows: &TetList, bound: Ratio) -> usize
    requires { All (IsOn points.now) rows.now }
    ensures { result ≡ flat_count bound points.now rows.now }
{
    let mut count = 0usize;
    for i in 0..rows.len() {
        if is_flat(points, rows.at(i), bound) {
            count += 1;
        }
    }
    count
}

/// Whether six times the volume of a tetrahedron is over the bound, where there is one.
fn is_over(points: &Points, row: Tet, most: Option<u128>) -> bool
    requires { IsOn points.now row }
    ensures { result ≡ is_over most (corners points.now row) }
{
    match most {
        Some(most) => is_large(points, row, most),
        None => false,
    }
}

/// How many tetrahedra of the list are over their bounds, where these have the marks, if there are
/// any.
pub fn count_large(
    points: &Points,
    rows: &TetList,
    marks: &Option<Items<Option<u32>>>,
    bounds: &VolumeBounds,
) -> usize
    requires { All (IsOn points.now) rows.now }
    ensures { result ≡ large_count bounds.now marks.now points.now rows.now }
{
    let mut count = 0usize;
    for i in 0..rows.len() {
        if is_over(points, rows.at(i), bounds.most_of(mark_at(marks, i))) {
            count += 1;
        }
    }
    count
}

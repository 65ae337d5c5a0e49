//! The test of each tetrahedron for positive orientation.

ghost use Rattle.std.specs.Prelude.{◌≡◌, ◌↔◌, IsTrue, All};
ghost use Rattle.sign_predicates.specs.Orientation.{IsPositive};
ghost use Rattle.geo_laws.specs.Delaunay.{corners, IsOn};
ghost use Rattle.mesh_check.specs.Defects.{IsNotPositive};
ghost use Rattle.mesh_check.specs.Searches.{IsLeastOf};

use geo_laws::{Points, Tet, TetList, corners_of};
use sign_predicates::{Corners, Sign, orient};

fn is_positive(points: &Points, row: Tet) -> bool
    requires { IsOn points.now row }
    ensures { IsTrue result ↔ IsPositive (corners points.now row) }
{
    let Corners { a, b, c, d } = corners_of(points, row);
    matches!(orient(a, b, c, d), Sign::Above)
}

/// The first tetrahedron that is not positively oriented, by its place, from 0.
pub fn first_not_positive(points: &Points, list: &TetList) -> Option<usize>
    requires { All (IsOn points.now) list.now }
    ensures { IsLeastOf (IsNotPositive points.now list.now) result }
{
    for i in 0..list.len() {
        let row = list.at(i);
        if !is_positive(points, row) {
            return Some(i);
        }
    }
    None
}

//! Listed neighbors compared with the mesh's own.

ghost use Rattle.std.specs.Prelude.{◌≡◌, ◌≢◌, ◌<◌, length};
ghost use Rattle.incidence.specs.Pairs.{pairs_of};
ghost use Rattle.mesh_check.specs.Corners.{entry_in};
ghost use Rattle.mesh_check.specs.Defects.{IsWrongNeighbor};
ghost use Rattle.mesh_check.specs.Searches.{IsLeastOf, IsLeastPair};

use crate::face_set::entry_in;
use geo_laws::TetList;
use incidence::{Across, Pairs};
use mesh_files::Neighbors;

/// The number of corners of a tetrahedron.
const CORNERS: u8 = 4;

/// The first corner across whose opposite face the listed neighbor is wrong.
fn wrong_corner(listed: Across, across: Across) -> Option<u8>
    ensures { IsLeastOf (λ k. (k < 4) × (entry_in listed k ≢ entry_in across k)) result }
{
    for corner in 0..CORNERS {
        if entry_in(listed, corner) != entry_in(across, corner) {
            return Some(corner);
        }
    }
    None
}

/// The first tetrahedron with a wrong listed neighbor, and its first corner whose opposite face has
/// that neighbor.
pub(crate) fn first_wrong_neighbor(
    list: &TetList,
    pairs: &Pairs,
    neighbors: &Neighbors,
) -> Option<(usize, u8)>
    requires pairs { pairs.now ≡ pairs_of list.now }
    requires long { length neighbors.now ≡ length list.now }
    ensures { IsLeastPair (IsWrongNeighbor list.now neighbors.now) result }
{
    for i in 0..list.len() {
        let listed = neighbors.at(i);
        let across = pairs.at(i);
        if let Some(corner) = wrong_corner(listed, across) {
            return Some((i, corner));
        }
    }
    None
}

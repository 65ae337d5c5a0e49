//! Faces of only one tetrahedron that are not listed.

ghost use Rattle.std.specs.Prelude.{◌≡◌, ◌<◌, None, map};
ghost use Rattle.incidence.specs.Pairs.{pairs_of};
ghost use Rattle.mesh_check.specs.Corners.{entry_in, face_in, face_listed};
ghost use Rattle.mesh_check.specs.Defects.{IsUnlisted};
ghost use Rattle.mesh_check.specs.FaceSets.{HasFace, HasExactly};
ghost use Rattle.mesh_check.specs.Searches.{IsLeastOf, IsLeastPair};

use crate::face_set::{FaceSet, entry_in, face_in, has};
use geo_laws::{Tet, TetList};
use incidence::{Across, Pairs};
use mesh_files::FaceRows;

/// The number of corners of a tetrahedron.
const CORNERS: u8 = 4;

/// The first corner whose opposite face has no neighbor across it and is not in `listed`.
fn unlisted_corner(row: Tet, across: Across, listed: &FaceSet) -> Option<u8>
    ensures { IsLeastOf (λ k. (k < 4) × (entry_in across k ≡ None)
        × ¬ HasFace listed.now (face_in row k)) result }
{
    for corner in 0..CORNERS {
        if entry_in(across, corner).is_none() && !has(listed, face_in(row, corner)) {
            return Some(corner);
        }
    }
    None
}

/// The first tetrahedron with a face that no other one has and that is not in `listed`, and its
/// first corner opposite such a face.
pub(crate) fn first_unlisted(
    list: &TetList,
    pairs: &Pairs,
    faces: &FaceRows,
    listed: &FaceSet,
) -> Option<(usize, u8)>
    requires pairs { pairs.now ≡ pairs_of list.now }
    requires listed { HasExactly listed.now (map face_listed faces.now) }
    ensures { IsLeastPair (IsUnlisted list.now faces.now) result }
{
    for i in 0..list.len() {
        let row = list.at(i);
        let across = pairs.at(i);
        if let Some(corner) = unlisted_corner(row, across, listed) {
            return Some((i, corner));
        }
    }
    None
}

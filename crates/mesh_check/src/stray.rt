//! Listed faces that are faces of no tetrahedron.

ghost use Rattle.std.specs.Prelude.{◌≡◌, ◌<◌};
ghost use Rattle.geo_laws.specs.Faces.{faces_of_rows};
ghost use Rattle.mesh_check.specs.Defects.{IsStray};
ghost use Rattle.mesh_check.specs.FaceSets.{HasExactly};
ghost use Rattle.mesh_check.specs.Searches.{IsLeastOf};

use crate::face_set::{FaceSet, face_listed, has};
use geo_laws::TetList;
use mesh_files::FaceRows;

/// The first listed face that is a face of no tetrahedron; `owned` has the faces of all tetrahedra.
pub(crate) fn first_stray(list: &TetList, faces: &FaceRows, owned: &FaceSet) -> Option<usize>
    requires { HasExactly owned.now (faces_of_rows list.now) }
    ensures { IsLeastOf (IsStray list.now faces.now) result }
{
    for i in 0..faces.len() {
        if !has(owned, face_listed(faces.at(i))) {
            return Some(i);
        }
    }
    None
}

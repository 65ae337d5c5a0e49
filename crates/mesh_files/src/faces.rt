//! The faces of tetrahedra, each once.
ghost use Rattle.std.specs.Prelude.{◌≡◌, List, length, IfOk};
ghost use Rattle.geo_laws.specs.Faces.{AreFacesOf};
ghost use Rattle.geo_laws.specs.declared.faces.Face.{Face};
ghost use Rattle.incidence.specs.Uses.{AreUsesOf};

use crate::markers::is_first;
use geo_laws::{Face, TetList};
use incidence::{Uses, use_at, uses_of};
use std::alloc::Global;
use tet_ports::{Items, NoMemory};

/// A list of faces.
pub type Faces = Items<Face>;

/// All faces of tetrahedra: each set of three corners of a tetrahedron once, its numbers ascending,
/// the faces ascending. Only tests call it.
pub fn faces_of(alloc: Global, list: &TetList) -> Result<Faces, NoMemory>
    ensures { IfOk result (λ faces. AreFacesOf list.now faces) }
{
    let uses = uses_of(alloc, list)?;
    first_faces(alloc, list, &uses)
}

/// The faces that are used, each once.
fn first_faces(alloc: Global, list: &TetList, uses: &Uses) -> Result<Faces, NoMemory>
    requires { AreUsesOf list.now uses.now }
    ensures { IfOk result (λ faces. AreFacesOf list.now faces) }
{
    let mut faces = Faces::with_capacity(alloc, uses.len() / 2)?;
    for at in 0..uses.len() {
        if is_first(list, uses, at) {
            faces.push(use_at(uses, at, list).face)?;
        }
    }
    Ok(faces)
}

/// The number of faces of tetrahedra, from the uses of the faces.
pub fn face_count(list: &TetList, uses: &Uses) -> usize
    requires { AreUsesOf list.now uses.now }
    ensures { (faces : List Face) × AreFacesOf list.now faces × (result ≡ length faces) }
{
    let mut count = 0;
    for at in 0..uses.len() {
        if is_first(list, uses, at) {
            count += 1;
        }
    }
    count
}

//! Sets of faces, and the faces and corners of a tetrahedron by the place of the opposite corner.

ghost use Rattle.std.specs.Prelude.{◌≡◌, ◌↔◌, ◌⊎◌, ◌<◌, IsTrue, IfOk, OnOk, map};
ghost use Rattle.geo_laws.specs.Faces.{row_faces, faces_of_rows};
ghost use Rattle.geo_laws.specs.declared.faces.Face.{Face};
ghost use Rattle.mesh_check.specs.Corners.{point_in, face_in, entry_in, face_listed};
ghost use Rattle.mesh_check.specs.FaceSets.{key, HasFace, HasExactly};

use geo_laws::{Face, Tet, TetList, face_of};
use incidence::Across;
use mesh_files::{FaceRow, FaceRows};
use std::alloc::Global;
use std::collections::HashSet;
use tet_ports::NoMemory;

/// The corners of a face, ascending.
#[derive(Clone, Copy, PartialEq, Eq, Hash)]
pub(crate) struct FaceKey {
    pub(crate) a: u32,
    pub(crate) b: u32,
    pub(crate) c: u32,
}

/// A set of faces.
pub(crate) type FaceSet = HashSet<FaceKey>;

fn key_of(face: Face) -> FaceKey
    ensures { result ≡ key face }
{
    let Face { a, b, c } = face;
    FaceKey { a, b, c }
}

/// Inserts a face into the set.
fn put(set: &mut FaceSet, face: Face) -> Result<(), NoMemory>
    ensures { OnOk result ((f : Face) → HasFace set.new f ↔ (HasFace set.old f ⊎ (face ≡ f))) }
{
    set.insert(key_of(face))?;
    Ok(())
}

/// Whether the face is in the set.
pub(crate) fn has(set: &FaceSet, face: Face) -> bool
    ensures { IsTrue result ↔ HasFace set.now face }
{
    set.contains(&key_of(face))
}

/// The faces of all tetrahedra.
pub(crate) fn owned_faces(alloc: Global, list: &TetList) -> Result<FaceSet, NoMemory>
    ensures { IfOk result (λ set. HasExactly set (faces_of_rows list.now)) }
{
    let mut set = HashSet::with_capacity(alloc, list.len().saturating_mul(2))?;
    for i in 0..list.len() {
        let Tet { a, b, c, d } = list.at(i);
        put(&mut set, face_of(b, c, d))?;
        put(&mut set, face_of(a, c, d))?;
        put(&mut set, face_of(a, b, d))?;
        put(&mut set, face_of(a, b, c))?;
    }
    Ok(set)
}

/// A listed face without its marker, its corners in order.
pub(crate) fn face_listed(face: FaceRow) -> Face
    ensures { result ≡ face_listed face }
{
    face_of(face.a, face.b, face.c)
}

/// The listed faces.
pub(crate) fn listed_faces(alloc: Global, faces: &FaceRows) -> Result<FaceSet, NoMemory>
    ensures { IfOk result (λ set. HasExactly set (map face_listed faces.now)) }
{
    let mut set = HashSet::with_capacity(alloc, faces.len())?;
    for i in 0..faces.len() {
        put(&mut set, face_listed(faces.at(i)))?;
    }
    Ok(set)
}

/// The face of a tetrahedron opposite a corner, by the corner's place, from 0.
pub(crate) fn face_in(row: Tet, corner: u8) -> Face
    ensures { result ≡ face_in row corner }
{
    let Tet { a, b, c, d } = row;
    match corner {
        0 => face_of(b, c, d),
        1 => face_of(a, c, d),
        2 => face_of(a, b, d),
        _ => face_of(a, b, c),
    }
}

/// The point at a corner of a tetrahedron, by the corner's place, from 0.
pub(crate) fn point_in(row: Tet, corner: u8) -> u32
    ensures { result ≡ point_in row corner }
{
    match corner {
        0 => row.a,
        1 => row.b,
        2 => row.c,
        _ => row.d,
    }
}

/// The neighbor across the face opposite a corner, if there is one.
pub(crate) fn entry_in(across: Across, corner: u8) -> Option<usize>
    ensures { result ≡ entry_in across corner }
{
    match corner {
        0 => across.n0,
        1 => across.n1,
        2 => across.n2,
        _ => across.n3,
    }
}

//! The facet triangles as faces, with the first facet of which a face is a triangle.
ghost use Rattle.std.specs.Prelude.{◌≡◌, ◌↔◌, ◌<◌, true, length, All, AllPairs, IfOk, IfSome};
ghost use Rattle.mesh_files.specs.FacetFaces.{AreFacetFaces, FacetFaceBefore, IsFirstOrNone, IsTriangleIn};

use geo_laws::{Face, FacetTriangles, stands_before};
use std::alloc::Global;
use tet_ports::{Items, NoMemory};

/// A facet triangle as a face, and its facet by its place in the complex, from 0.
#[derive(Clone, Copy, Debug, PartialEq, Eq, PartialOrd, Ord)]
pub(crate) struct FacetFace {
    pub face: Face,
    pub facet: u32,
}

/// A list of facet triangles as faces.
pub(crate) type FacetFaces = Items<FacetFace>;

/// The facet triangles as faces, each once, ascending by the face and then by the facet.
pub(crate) fn facet_faces(alloc: Global, triangles: &FacetTriangles) -> Result<FacetFaces, NoMemory>
    ensures { IfOk result (AreFacetFaces triangles.now) }
{
    let mut faces = FacetFaces::with_capacity(alloc, triangles.len())?;
    for triangle in triangles.as_slice() {
        faces.push(FacetFace {
            face: Face {
                a: triangle.a,
                b: triangle.b,
                c: triangle.c,
            },
            facet: triangle.facet,
        })?;
    }
    faces.keep_distinct();
    Ok(faces)
}

/// The first facet of which the face is a triangle, if there is one, by binary search.
pub(crate) fn first_facet(faces: &FacetFaces, face: Face) -> Option<u32>
    requires { AllPairs FacetFaceBefore faces.now }
    ensures { IsFirstOrNone (IsTriangleIn faces.now face) result }
{
    let mut low = 0;
    let mut high = faces.len();
    while low < high {
        let middle = low + (high - low) / 2;
        if stands_before(faces.at(middle).face, face) {
            low = middle + 1;
        } else {
            high = middle;
        }
    }
    if low < faces.len() && faces.at(low).face == face {
        return Some(faces.at(low).facet);
    }
    None
}

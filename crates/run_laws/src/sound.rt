//! What a sound result of the check implies.
ghost use Rattle.run_laws.specs.SoundMesh.{RowsApartLaw, SoundMeshLaw};

/// Tetrahedra without a defect of the first two kinds are positive, and any two with a common face
/// lie on different sides of it: the condition of `law_count` on the crossings of a leg.
pub fn law_apart()
    ensures { RowsApartLaw }
{}

/// A mesh has no defect exactly where its tetrahedra are positive and lie on different sides of
/// common faces, its listed neighbors are the right ones, its listed faces are faces of tetrahedra,
/// each face of only one tetrahedron is listed, and tetrahedra are locally Delaunay across each
/// common face that is not listed.
pub fn law_sound()
    ensures { SoundMeshLaw }
{}

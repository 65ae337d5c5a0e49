//! The meshes that are made have no defect.
ghost use Rattle.run_laws.specs.SoundMeshes.{SoundComplexLaw, SoundPointsLaw};

/// In the mesh of a complex, with the faces that are written and the neighbors of its tetrahedra,
/// the check finds no defect.
pub fn law_sound_complex()
    ensures { SoundComplexLaw }
{}

/// In the Delaunay list of points, with the faces that are written and the neighbors of its
/// tetrahedra, the check finds no defect.
pub fn law_sound_points()
    ensures { SoundPointsLaw }
{}

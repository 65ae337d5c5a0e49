//! The mesh of a run has no defect.
ghost use Rattle.run_laws.specs.SoundRun.{SoundRunLaw, SoundOutputsLaw, SoundLeftLaw};

/// In the mesh of a run without weights, with the faces that the face file has and the neighbors of
/// its tetrahedra, the check finds no defect.
pub fn law_sound_run()
    ensures { SoundRunLaw }
{}

/// In the mesh of a run without weights, with the faces of the face file that is among the outputs,
/// the check finds no defect.
pub fn law_sound_outputs()
    ensures { SoundOutputsLaw }
{}

/// The mesh in the files that a run without weights leaves has no defect, with the faces of its
/// face file.
pub fn law_sound_left()
    ensures { SoundLeftLaw }
{}

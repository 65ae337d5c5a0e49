//! A law of the texts of a mesh.
ghost use Rattle.mesh_files.specs.Laws.{EleTextLaw};

/// The text of the `.ele` file determines the tetrahedra: of two different lists on the same
/// points the texts differ, whatever their marks and attributes, as long as no attribute that is
/// printed has a line feed in it.
pub fn law_ele_text()
    ensures { EleTextLaw }
{}

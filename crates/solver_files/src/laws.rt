//! The laws of the texts of a mesh.
ghost use Rattle.solver_files.specs.Laws.{MshTextLaw, VtkTextLaw};

/// The text of a VTK file determines the coordinates of the points, as they are printed, the
/// tetrahedra, the faces with their markers, and the attributes, as they are written: of two meshes
/// with the same names that differ in one of them the texts differ. No attribute may have a line
/// feed in it, and there have to be fewer than 2^32 tetrahedra and faces each.
pub fn law_vtk_text()
    ensures { VtkTextLaw }
{}

/// The text of an MSH file determines the coordinates of the points, as they are printed, the
/// tetrahedra, the faces, and the tags of their groups: of two meshes with the same names that
/// differ in one of them the texts differ. No attribute may have a line feed in it, and there have
/// to be fewer than 2^32 tetrahedra and faces each.
pub fn law_msh_text()
    ensures { MshTextLaw }
{}

//! The laws of the texts of a mesh of second order.
ghost use Rattle.solver_files.specs.SecondLaws.{MiddleLaw, SecondEleLaw, SecondFaceLaw, SecondMshLaw, SecondVtkLaw};

/// Each edge of a tetrahedron has one midpoint, and the number that is written for it is that of
/// the point whose coordinates are half the sum of those of the ends; and each midpoint is that of
/// an edge of a tetrahedron.
pub fn law_middles()
    ensures { MiddleLaw }
{}

/// The text of the `.ele` file of second order determines the tetrahedra.
pub fn law_second_ele_text()
    ensures { SecondEleLaw }
{}

/// The text of the `.face` file of second order determines the faces with their markers.
pub fn law_second_face_text()
    ensures { SecondFaceLaw }
{}

/// The text of a VTK file of second order determines what that of first order does.
pub fn law_second_vtk_text()
    ensures { SecondVtkLaw }
{}

/// The text of an MSH file of second order determines what that of first order does.
pub fn law_second_msh_text()
    ensures { SecondMshLaw }
{}

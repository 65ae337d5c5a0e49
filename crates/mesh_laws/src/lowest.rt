//! Laws of the cavity in a mesh of lowest tetrahedra, for any heights of the points.
ghost use Rattle.mesh_laws.specs.LowestLaws.{LowestCavityLaw, LowestCutOutLaw, HiddenPointLaw};

/// The search from the place of a new point, if that is taken, finds all slots that the point
/// takes: they are connected. Source: the cavity is star-shaped from the new point (Bowyer 1981,
/// Watson 1981), and the hull faces that a point sees are connected.
pub fn law_cavity()
    ensures { LowestCavityLaw }
{}

/// Where the place of a new point is not taken, a tetrahedron holds the point and has it above: the
/// point is hidden, and the mesh without it is also the mesh with it.
pub fn law_hidden_point()
    ensures { HiddenPointLaw }
{}

/// A cavity that was grown in a mesh of lowest tetrahedra lists different live slots; its rim lists
/// each face of a slot outside of it whose neighbor is in it, and the new point is on none of
/// these.
pub fn law_cut_out()
    ensures { LowestCutOutLaw }
{}

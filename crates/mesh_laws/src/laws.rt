//! Laws of the cavity in a Delaunay mesh.
ghost use Rattle.mesh_laws.specs.Laws.{CavityLaw, CutOutLaw};

/// The search from the place of a new point finds all slots that the point takes: in a Delaunay
/// mesh they are connected. Source: the cavity is star-shaped from the new point (Bowyer 1981,
/// Watson 1981), and the hull faces that a point sees are connected.
pub fn law_cavity()
    ensures { CavityLaw }
{}

/// A cavity that was grown in a Delaunay mesh lists different live slots; its rim lists each face
/// of a slot outside of it whose neighbor is in it, and the new point is on none of these.
pub fn law_cut_out()
    ensures { CutOutLaw }
{}

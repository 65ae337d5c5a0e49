//! The laws that tie the definitions of shape to geometry.
ghost use Rattle.tet_shapes.specs.Laws.{CircumcenterLaw, RadiusLaw, SlimLaw};

/// The vector that gives the radius of a positive tetrahedron leads to a point that is equally far
/// from all corners. Source: the perpendicular planes through the middles of three edges, by
/// Cramer's rule.
pub fn law_circumcenter()
    ensures { CircumcenterLaw }
{}

/// Any point that is equally far from all corners of a tetrahedron is at the distance that the
/// vector gives.
pub fn law_radius()
    ensures { RadiusLaw }
{}

/// A positive tetrahedron is slim exactly where the point that is equally far from all its corners
/// is further from them than the bound times the shortest edge.
pub fn law_slim()
    ensures { SlimLaw }
{}

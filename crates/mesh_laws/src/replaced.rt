//! Laws of surgery in a Delaunay mesh.
ghost use Rattle.mesh_laws.specs.Replaced.{LongerListLaw, ReplacedLaw, SameMeshLaw};

/// The star of a new point in place of its whole cavity makes the Delaunay mesh with that point.
/// Source: incremental insertion (Bowyer 1981, Watson 1981).
pub fn law_replaced()
    ensures { ReplacedLaw }
{}

/// A Delaunay mesh of points is one in whatever order their numbers stand.
pub fn law_same_mesh()
    ensures { SameMeshLaw }
{}

/// A Delaunay mesh stays one when the list of points grows at its end.
pub fn law_longer_list()
    ensures { LongerListLaw }
{}

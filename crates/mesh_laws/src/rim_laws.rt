//! Laws of the place of a point in a Delaunay mesh, and of the rim of its cavity.
ghost use Rattle.mesh_laws.specs.RimLaws.{PairedLaw, SomeRimLaw, PlacedLaw, SomewhereLaw};

/// The rim of a cavity that was grown in a Delaunay mesh is a closed surface: each two corners of a
/// face of it are corners of exactly one other face, where the point at infinity counts as a
/// corner. Source: the boundary of the cavity is a closed surface, with the ghosts of hull faces
/// taken as tetrahedra (Bowyer 1981, Watson 1981).
pub fn law_paired()
    ensures { PairedLaw }
{}

/// The rim of a cavity that was grown in a Delaunay mesh is not empty, where the new point is none
/// of those there: not all of space is taken. Source: some tetrahedron of the new mesh holds the
/// point, and it stands over a face of the rim.
pub fn law_some_rim()
    ensures { SomeRimLaw }
{}

/// The corners of a Delaunay mesh are points of its list, and a new point is in the closed
/// tetrahedron of a slot or strictly beyond the hull face of a ghost, so point location finds it
/// from any slot.
pub fn law_placed()
    ensures { PlacedLaw }
{}

/// Each point of the grid, new or not, is in the closed tetrahedron of a slot of a Delaunay mesh or
/// strictly beyond the hull face of a ghost: what `locate` asks of the mesh holds, from any live
/// slot.
pub fn law_somewhere()
    ensures { SomewhereLaw }
{}

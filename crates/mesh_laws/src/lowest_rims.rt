//! Laws of the place of a point in a mesh of lowest tetrahedra, and of the rim of its cavity.
ghost use Rattle.mesh_laws.specs.LowestRimLaws.{LowestPairedLaw, LowestPlacedLaw, LowestSomeRimLaw};

/// The rim of a cavity that was grown in such a mesh is a closed surface: each two corners of a
/// face of it are corners of exactly one other face, where the point at infinity counts as a
/// corner. Source: the boundary of the cavity is a closed surface, with the ghosts of hull faces
/// taken as tetrahedra (Bowyer 1981, Watson 1981).
pub fn law_paired()
    ensures { LowestPairedLaw }
{}

/// The rim of a cavity that was grown in such a mesh is not empty: not all of space is taken.
/// Source: some tetrahedron of the new mesh holds the point, and it stands over a face of the rim.
pub fn law_some_rim()
    ensures { LowestSomeRimLaw }
{}

/// The corners of such a mesh are points of its list, and a new point is in the closed tetrahedron
/// of a slot or strictly beyond the hull face of a ghost, so point location finds it from any slot.
pub fn law_placed()
    ensures { LowestPlacedLaw }
{}

//! The laws from a complex with merged facets to its mesh.
ghost use Rattle.recovery_laws.specs.MergedMesh.{MergedCoverLaw, MergedEndsLaw, MergedMeshLaw, MergedPieceLaw, MergedRecoveryLaw, MergedSoundLaw};

/// A merged facet of flat facets is sound with the sides that are not inner as segments; so is each
/// facet where nothing is merged.
pub fn law_merged_sound()
    ensures { MergedSoundLaw }
{}

/// These segments have two ends.
pub fn law_merged_ends()
    ensures { MergedEndsLaw }
{}

/// A complex whose segments are protected can be recovered by its merged facets.
pub fn law_merged_recovery()
    ensures { MergedRecoveryLaw }
{}

/// What is kept of the list that is refilled after protection is a mesh of the complex with merged
/// facets.
/// Source: constrained Delaunay tetrahedralizations of a complex whose segments are protected
/// (Shewchuk 2002).
pub fn law_merged_mesh()
    ensures { MergedMeshLaw }
{}

/// Each piece that protection leaves is a side of the mesh where an inner point of it lies in the
/// mesh.
pub fn law_merged_piece()
    ensures { MergedPieceLaw }
{}

/// The triangles of each merged facet lie in its region and cover it but for the pieces of the
/// segments, each point once.
pub fn law_merged_cover()
    ensures { MergedCoverLaw }
{}

//! The laws of the regular list, over the definitions alone.
ghost use Rattle.weighted_mesh.specs.WeightedLaws.{NoWeightsLaw, RegularRowLaw, WeightedCoverLaw};
ghost use Rattle.weighted_mesh.specs.WeightedLaws.{WeightedLeastHeightLaw, WeightedLiftLaw};
ghost use Rattle.weighted_mesh.specs.WeightedLaws.{WeightedRadicalLaw};

/// A point is weighted outside of a positive tetrahedron exactly where it is above the plane
/// through the lifted corners: each point is lifted by its squared length less its weight. Source:
/// power diagrams (Aurenhammer 1987).
pub fn law_weighted_lift()
    ensures { WeightedLiftLaw }
{}

/// The tetrahedra of the regular list are the lowest tetrahedra of the lifted points.
pub fn law_regular_row()
    ensures { RegularRowLaw }
{}

/// Two tetrahedra of the regular list are properly met, and they are the same where a point is
/// strictly inside both. Source: power diagrams (Aurenhammer 1987).
pub fn law_weighted_radical()
    ensures { WeightedRadicalLaw }
{}

/// A point of the hull in general position is strictly inside a tetrahedron of the regular list.
/// Source: regular triangulations (Edelsbrunner and Shah 1996).
pub fn law_weighted_least_height()
    ensures { WeightedLeastHeightLaw }
{}

/// The regular list covers the hull of its points once, and its tetrahedra are properly met.
pub fn law_weighted_cover()
    ensures { WeightedCoverLaw }
{}

/// Without weights the regular list is the Delaunay list.
pub fn law_no_weights()
    ensures { NoWeightsLaw }
{}

//! The number and the marker of a merged facet.
ghost use Rattle.merged_facets.specs.Markers.{LeastNumberLaw, OneMarkerLaw};

/// Facets that are merged into one have one marker: each has that of the facet at the least number
/// of their group, by which triangles name the merged facet.
pub fn law_one_marker()
    ensures { OneMarkerLaw }
{}

/// At a number that is not the least of its group the merged complex has a facet with no polygon
/// and no hole point.
pub fn law_least_number()
    ensures { LeastNumberLaw }
{}

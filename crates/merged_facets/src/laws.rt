//! The laws of joined and merged facets.
ghost use Rattle.merged_facets.specs.Facets.{InnerLaw, MergedBoundedLaw, MergedFlatLaw};
ghost use Rattle.merged_facets.specs.Facets.{OneMergingLaw};
ghost use Rattle.merged_facets.specs.Groups.{WallLaw, JoinedBackLaw, GroupLaw, EitherHandLaw};

/// The plane upright on a side decides on which hand of the side a corner lies.
pub fn law_wall()
    ensures { WallLaw }
{}

/// Facets are joined in either order.
pub fn law_joined_back()
    ensures { JoinedBackLaw }
{}

/// Facets that are joined in a chain have the same least number.
pub fn law_group()
    ensures { GroupLaw }
{}

/// Where two polygons lie on either hand of a side, a half space upright on it holds the one, and
/// the other half space the other.
pub fn law_either_hand()
    ensures { EitherHandLaw }
{}

/// A side over which two facets are joined is inner in the merged facet.
pub fn law_inner()
    ensures { InnerLaw }
{}

/// A merged facet is flat where the facets as read are.
pub fn law_merged_flat()
    ensures { MergedFlatLaw }
{}

/// Each side of a merged facet's polygons is one of the segments or inner.
pub fn law_merged_bounded()
    ensures { MergedBoundedLaw }
{}

/// Merging finds one thing: the segments and the merged facets are the same whatever finds them.
pub fn law_one_merging()
    ensures { OneMergingLaw }
{}

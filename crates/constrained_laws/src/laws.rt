//! Laws of constrained Delaunay triangulations.
ghost use Rattle.constrained_laws.specs.Constrained.{HiddenCornerLaw, WholeAdmissibleLaw, EachPointLaw, GrownAdmissibleLaw, RefilledPointsLaw, KeptPieceLaw};

/// A corner of one tetrahedron that is not outside of another's circumsphere is hidden from it by
/// a facet. Source: the lemma of Chew (1989) and Shewchuk (2008). Along a line of sight from the
/// second tetrahedron to the corner each tetrahedron that is entered has the corner in its
/// circumsphere too, since the lifted planes turn up about each face that is passed.
pub fn law_hidden_corner()
    ensures { HiddenCornerLaw }
{}

/// Where each point is a corner of a tetrahedron, all tetrahedra are admissible (constrained
/// Delaunay).
pub fn law_whole_admissible()
    ensures { WholeAdmissibleLaw }
{}

/// Where all tetrahedra are admissible, each point is a corner of one. Source: a point of a closed
/// tetrahedron that is no corner of it is in its circumsphere, and no facet hides it.
pub fn law_each_point()
    ensures { EachPointLaw }
{}

/// A grown list in which each point is a corner is one of admissible tetrahedra.
pub fn law_grown_admissible()
    ensures { GrownAdmissibleLaw }
{}

/// In a Delaunay list whose crossed tetrahedra are replaced on each side of the facets, each point
/// is a corner. Source: a tetrahedron that fills a cavity is Delaunay among the points on its side
/// of the facet.
pub fn law_refilled_points()
    ensures { RefilledPointsLaw }
{}

/// An edge of a Delaunay tetrahedron that meets no facet triangle but in its own corners is an edge
/// of a tetrahedron. Source: the tetrahedron that holds the edge's middle would have an end in its
/// circumsphere that nothing hides.
pub fn law_kept_piece()
    ensures { KeptPieceLaw }
{}

//! The laws of the Delaunay list.
ghost use Rattle.geo_laws.specs.Laws.{ThreeTermLaw, LiftLaw, ResidualLaw, RadicalLaw, NudgeLaw, HullLaw, LeastHeightLaw, CoverLaw, DelaunayListLaw};

/// The three-term relation: for points with a common edge from `a` to `b`,
/// `orient(a,b,c,d)*orient(a,b,e,f) - orient(a,b,c,e)*orient(a,b,d,f) +
/// orient(a,b,c,f)*orient(a,b,d,e) = 0`. Source: the Grassmann-Pluecker relations of determinants.
pub fn law_three_term()
    ensures { ThreeTermLaw }
{}

/// A further point is outside of the sphere round a positive tetrahedron, ties included, exactly
/// where its height is above the tetrahedron's. The height of a point is its squared length and
/// then, for each point by rising number, 1 for itself and 0 for every other; heights are compared
/// from the first number on.
/// Source: the lifting map to the paraboloid; for ties, simulation of simplicity (heights perturbed
/// in the order of the numbers).
pub fn law_lift()
    ensures { LiftLaw }
{}

/// A further point is never at the height of a positive tetrahedron: its height above it is not all
/// 0, whatever the first numbers are.
/// Source: simulation of simplicity.
pub fn law_residual()
    ensures { ResidualLaw }
{}

/// Two lowest tetrahedra among the same points are properly met, and they are equal where a
/// rational point is strictly inside both. So it is with two Delaunay tetrahedra, which are the
/// lowest where the first numbers are squared lengths.
/// Source: radical planes of spheres, in power diagrams and regular triangulations.
pub fn law_radical()
    ensures { RadicalLaw }
{}

/// For a rational point of a closed positive tetrahedron and finitely many planes there is a
/// rational point strictly inside the tetrahedron and off all the planes that has each sign of the
/// first that is not 0.
/// Source: general position by perturbation; a large multiple of the one point plus the other
/// stands for an infinitely small step.
pub fn law_nudge()
    ensures { NudgeLaw }
{}

/// A rational point lies in the hull of points or beyond it, so one that is not beyond the hull
/// lies in it.
/// Source: finitely many tetrahedra on the points decide (Caratheodory's theorem).
pub fn law_hull()
    ensures { HullLaw }
{}

/// A rational point of the hull, off all planes through three of the points, is strictly inside a
/// lowest tetrahedron, and so inside a Delaunay one.
/// Source: the lower hull of the lifted points; the ratio test of linear programming, with weights
/// by Cramer's rule.
pub fn law_least_height()
    ensures { LeastHeightLaw }
{}

/// The Delaunay tetrahedra cover the hull once: a rational point off all their face planes lies
/// strictly inside exactly one of them where it is in the hull, and in none where it is beyond the
/// hull. Any two of them are properly met. Source: the Delaunay triangulation is the projection of
/// the lower hull of the lifted points.
pub fn law_cover()
    ensures { CoverLaw }
{}

/// The filter over all fours of points has exactly the Delaunay tetrahedra, strictly ascending.
pub fn law_delaunay_list()
    ensures { DelaunayListLaw }
{}

//! How the lower hull of lifted points changes when a point is added, over the definitions alone.
//! The laws hold for any heights, and so for the Delaunay list and the regular list alike. The
//! points are those of a list that have some numbers, and the new one may have any other number: so
//! points may be added in any order.
ghost use Rattle.insert_laws.specs.LowestInsertion.{LowestInsertionLaw, LowestRimLaw, LowestFacePairingLaw, LowestOneRowLaw};
ghost use Rattle.insert_laws.specs.LowestInsertion.{LowestHullFaceLaw, LowestHullTurnLaw, LowestHullEdgeLaw, LowestOldHullLaw};
ghost use Rattle.insert_laws.specs.LowestInsertion.{LowestNewHullLaw, LowestLocateLaw, HiddenLaw, LowestInsideCavityLaw};
ghost use Rattle.insert_laws.specs.LowestInsertion.{LowestBeyondCavityLaw, LowestSameNumbersLaw, LowestRimEdgeLaw};
ghost use Rattle.insert_laws.specs.LowestInsertion.{LowestHullRimLaw, LowestSomeRimFaceLaw, LowestFirstLaw, LowestPlaceLaw};
ghost use Rattle.insert_laws.specs.LowestCone.{LowestConeLaw};
ghost use Rattle.insert_laws.specs.LowestCover.{LowestCoverLaw};

/// The lowest tetrahedra with a new point are those before that have it above, and the tetrahedra
/// of the new point and the faces between its cavity and the rest. Source: incremental insertion
/// (Bowyer 1981, Watson 1981), with ties broken by the points' numbers.
pub fn law_insertion()
    ensures { LowestInsertionLaw }
{}

/// The new point is strictly on the cavity's side of each face between the cavity and the rest, so
/// the new tetrahedra are positive. Source: the cavity is star-shaped from the new point (Bowyer
/// and Watson).
pub fn law_rim()
    ensures { LowestRimLaw }
{}

/// Across each edge of a face of the rim lies exactly one other face of the rim, or the hull, where
/// the rim ends. Source: the boundary of the cavity is a closed surface, with the ghosts of hull
/// faces taken as tetrahedra.
pub fn law_rim_edge()
    ensures { LowestRimEdgeLaw }
{}

/// Behind each edge where the rim meets the hull lies a face of the rim, and these edges follow one
/// another, each the next of one.
pub fn law_hull_rim()
    ensures { LowestHullRimLaw }
{}

/// A new point whose cavity has a place has a face between its cavity and the rest: the cavity is
/// not all of space. Source: some tetrahedron of the new list holds the point, and it is one of its
/// star.
pub fn law_some_rim_face()
    ensures { LowestSomeRimFaceLaw }
{}

/// Across each face of a lowest tetrahedron lies another one, or no point. Source: a face of the
/// lower hull of the lifted points ends at another one, or over the hull's boundary.
pub fn law_face_pairing()
    ensures { LowestFacePairingLaw }
{}

/// At most one lowest tetrahedron lies on one side of a face.
pub fn law_one_row()
    ensures { LowestOneRowLaw }
{}

/// A face of the hull is a face of a lowest tetrahedron behind it, and of none before it.
pub fn law_hull_face()
    ensures { LowestHullFaceLaw }
{}

/// A face of the hull may be named from any of its corners.
pub fn law_hull_turn()
    ensures { LowestHullTurnLaw }
{}

/// Across each edge of a face of the hull lies exactly one other face of the hull.
pub fn law_hull_edge()
    ensures { LowestHullEdgeLaw }
{}

/// The faces of the hull without the new point as a corner are those before that the new point
/// doesn't see. Source: incremental convex hulls (the beneath-beyond method), with ties broken by
/// the points' numbers.
pub fn law_old_hull()
    ensures { LowestOldHullLaw }
{}

/// The faces of the hull with the new point are those over the edges between a face that it sees
/// and one that it doesn't. Source: the horizon of the beneath-beyond method.
pub fn law_new_hull()
    ensures { LowestNewHullLaw }
{}

/// A new point lies in a closed lowest tetrahedron, or strictly beyond a face of the hull.
pub fn law_locate()
    ensures { LowestLocateLaw }
{}

/// A new point that lies in a closed lowest tetrahedron, and is lifted above it, is hidden: it is
/// above all of them, and changes neither these nor the hull.
/// Source: a lower hull is the graph of a convex function (Edelsbrunner and Seidel 1986).
pub fn law_hidden()
    ensures { HiddenLaw }
{}

/// Where the new point lies in a closed tetrahedron of its cavity, each place of the cavity is
/// joined to it by a chain within the cavity. Source: the visibility walk ends, as the height at a
/// point rises along it (acyclicity of Delaunay tetrahedra, Edelsbrunner 1990).
pub fn law_inside_cavity()
    ensures { LowestInsideCavityLaw }
{}

/// Where the new point is strictly beyond a face of the hull, each place of the cavity is joined to
/// the ghost of that face.
pub fn law_beyond_cavity()
    ensures { LowestBeyondCavityLaw }
{}

/// The order of the numbers doesn't matter.
pub fn law_same_numbers()
    ensures { LowestSameNumbersLaw }
{}

/// The lower hull of four points that are not coplanar is the one positive tetrahedron of them, in
/// its least arrangement, and its faces are the hull.
pub fn law_first()
    ensures { LowestFirstLaw }
{}

/// On each side of a face of a lowest tetrahedron stands one place, a tetrahedron or the ghost of a
/// face of the hull, and it is either in the cavity of the new point or not.
pub fn law_place()
    ensures { LowestPlaceLaw }
{}

/// Where a point lies in the closed cone of a lowest tetrahedron from one of its corners, it has a
/// side of the list with that corner only where it is a corner of the same tetrahedron. Source: the
/// tetrahedra of a regular triangulation meet in common faces.
pub fn law_cone()
    ensures { LowestConeLaw }
{}

/// The lowest tetrahedra cover the hull of the points once, and any two of them are properly met.
/// Source: the lower hull of lifted points lies over their hull (regular triangulations).
pub fn law_cover()
    ensures { LowestCoverLaw }
{}

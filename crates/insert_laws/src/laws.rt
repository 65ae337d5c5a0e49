//! How the Delaunay list and its hull change when a point is added, over the definitions alone. The
//! points are those of a list that have some numbers, and the new one may have any other number: so
//! points may be added in any order.
ghost use Rattle.insert_laws.specs.Insertion.{InsertionLaw, RimLaw, FacePairingLaw, OneRowLaw, HullFaceLaw, HullTurnLaw, HullEdgeLaw, OldHullLaw, NewHullLaw, LocateLaw, StartLaw, InsideCavityLaw, BeyondCavityLaw, StartOfListLaw, SameNumbersLaw, RimEdgeLaw, HullRimLaw, SomeRimFaceLaw, FirstLaw, PlaceLaw};
ghost use Rattle.insert_laws.specs.Cone.{ConeLaw};

/// The Delaunay tetrahedra with a new point are those before that have it outside, and the
/// tetrahedra of the new point and the faces between its cavity and the rest. Source: incremental
/// insertion (Bowyer 1981, Watson 1981), with ties broken by the points' numbers.
pub fn law_insertion()
    ensures { InsertionLaw }
{}

/// The new point is strictly on the cavity's side of each face between the cavity and the rest, so
/// the new tetrahedra are positive. Source: the cavity is star-shaped from the new point
/// (Bowyer-Watson).
pub fn law_rim()
    ensures { RimLaw }
{}

/// Across each edge of a face of the rim lies exactly one other face of the rim, or the hull, where
/// the rim ends. Source: the boundary of the cavity is a closed surface, with the ghosts of hull
/// faces taken as tetrahedra.
pub fn law_rim_edge()
    ensures { RimEdgeLaw }
{}

/// Behind each edge where the rim meets the hull lies a face of the rim, and these edges follow one
/// another, each the next of one.
pub fn law_hull_rim()
    ensures { HullRimLaw }
{}

/// A new point, which is none of those there, has a face between its cavity and the rest: the
/// cavity is not all of space. Source: some tetrahedron of the new list holds the point, and it is
/// one of its star.
pub fn law_some_rim_face()
    ensures { SomeRimFaceLaw }
{}

/// Across each face of a Delaunay tetrahedron lies another one, or no point. Source: a face of the
/// lower hull of the lifted points ends at another one, or over the hull's boundary.
pub fn law_face_pairing()
    ensures { FacePairingLaw }
{}

/// At most one Delaunay tetrahedron lies on one side of a face.
pub fn law_one_row()
    ensures { OneRowLaw }
{}

/// A face of the hull is a face of a Delaunay tetrahedron behind it, and of none before it.
pub fn law_hull_face()
    ensures { HullFaceLaw }
{}

/// A face of the hull may be named from any of its corners.
pub fn law_hull_turn()
    ensures { HullTurnLaw }
{}

/// Across each edge of a face of the hull lies exactly one other face of the hull.
pub fn law_hull_edge()
    ensures { HullEdgeLaw }
{}

/// The faces of the hull without the new point as a corner are those before that the new point
/// doesn't see. Source: incremental convex hulls (the beneath-beyond method), with ties broken by
/// the points' numbers.
pub fn law_old_hull()
    ensures { OldHullLaw }
{}

/// The faces of the hull with the new point are those over the edges between a face that it sees
/// and one that it doesn't. Source: the horizon of the beneath-beyond method.
pub fn law_new_hull()
    ensures { NewHullLaw }
{}

/// A new point lies in a closed Delaunay tetrahedron, or strictly beyond a face of the hull.
pub fn law_locate()
    ensures { LocateLaw }
{}

/// A closed Delaunay tetrahedron that holds a new point, which is none of its corners, doesn't have
/// it outside: it is in the cavity.
pub fn law_start()
    ensures { StartLaw }
{}

/// Where the new point lies in a closed tetrahedron of its cavity, each place of the cavity is
/// joined to it by a chain within the cavity. Source: the visibility walk ends, as the height at a
/// point rises along it (acyclicity of Delaunay tetrahedra, Edelsbrunner 1990).
pub fn law_inside_cavity()
    ensures { InsideCavityLaw }
{}

/// Where the new point is strictly beyond a face of the hull, each place of the cavity is joined to
/// the ghost of that face.
pub fn law_beyond_cavity()
    ensures { BeyondCavityLaw }
{}

/// The Delaunay tetrahedra of a list are those among its numbers in the list with a further point.
pub fn law_start_of_list()
    ensures { StartOfListLaw }
{}

/// The order of the numbers doesn't matter.
pub fn law_same_numbers()
    ensures { SameNumbersLaw }
{}

/// The Delaunay list of four points that are not coplanar is the one positive tetrahedron of them,
/// in its least arrangement, and its faces are the hull.
pub fn law_first()
    ensures { FirstLaw }
{}

/// On each side of a face of a Delaunay tetrahedron stands one place, a tetrahedron or the ghost of
/// a face of the hull, and it is either in the cavity of the new point or not.
pub fn law_place()
    ensures { PlaceLaw }
{}

/// Where a point lies in the closed cone of a Delaunay tetrahedron from one of its corners, it has
/// a side of the list with that corner only where it is a corner of the same tetrahedron. Source:
/// Delaunay tetrahedra meet in common faces (Delaunay, 1934).
pub fn law_cone()
    ensures { ConeLaw }
{}

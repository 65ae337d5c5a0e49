//! Where a mesh is worst: a corner of a tetrahedron with the least dihedral angle, and one of a
//! tetrahedron with the greatest ratio of the circumradius to the shortest edge.

ghost use Rattle.std.specs.Prelude.{◌<◌, All, IfSome, length};
ghost use Rattle.geo_laws.specs.Delaunay.{IsOn};
ghost use Rattle.tet_shapes.specs.Shape.{IsFine};
ghost use Rattle.refining.specs.Worst.{IsCornerAt, IsWorst, IsWorstAngle, IsWorstRatio};

use crate::goal::ShapeBounds;
use geo_laws::{Points, TetList};
use sign_predicates::GridPoint;
use tet_shapes::{Ratio, greatest_ratio, least_angle};

/// The least dihedral angle of a mesh.
#[derive(Clone, Copy, Debug, PartialEq, Eq)]
pub struct SmallAngle {
    /// The angle in whole degrees, rounded down.
    pub degrees: u32,
    /// A corner of a tetrahedron that has this angle, in grid units.
    pub at: GridPoint,
}

/// The greatest ratio of the circumradius to the shortest edge in a mesh, by a multiple of a bound.
#[derive(Clone, Copy, Debug, PartialEq, Eq)]
pub struct LargeRatio {
    /// The greatest power of two by which the bound may be multiplied and is still exceeded.
    pub times: u32,
    /// A corner of a tetrahedron that exceeds it, in grid units.
    pub at: GridPoint,
}

/// Where a mesh is worst.
#[derive(Clone, Copy, Debug, PartialEq, Eq)]
pub struct Worst {
    /// The least dihedral angle, where one is below the aim.
    pub angle: Option<SmallAngle>,
    /// The greatest ratio, where one is over the bound.
    pub ratio: Option<LargeRatio>,
}

/// The first corner of the tetrahedron at a place of the list.
fn corner_at(points: &Points, tetrahedra: &TetList, place: usize) -> GridPoint
    requires there { place < length tetrahedra.now }
    requires on { All (IsOn points.now) tetrahedra.now }
    ensures { IsCornerAt points.now tetrahedra.now place result }
{
    points.at(tetrahedra.at(place).a as usize)
}

/// The least dihedral angle, where there is an aim and an angle below it.
fn worst_angle(points: &Points, tetrahedra: &TetList, aim: Option<u32>) -> Option<SmallAngle>
    requires { All (IsOn points.now) tetrahedra.now }
    ensures { IsWorstAngle aim points.now tetrahedra.now result }
{
    let least = least_angle(points, tetrahedra, aim?)?;
    Some(SmallAngle {
        degrees: least.degrees,
        at: corner_at(points, tetrahedra, least.place),
    })
}

/// The greatest ratio, where there is a bound and a ratio over it.
fn worst_ratio(points: &Points, tetrahedra: &TetList, bound: Option<Ratio>) -> Option<LargeRatio>
    requires on { All (IsOn points.now) tetrahedra.now }
    requires fine { IfSome bound IsFine }
    ensures { IsWorstRatio bound points.now tetrahedra.now result }
{
    let greatest = greatest_ratio(points, tetrahedra, bound?)?;
    Some(LargeRatio {
        times: 2_u32.pow(greatest.doublings),
        at: corner_at(points, tetrahedra, greatest.place),
    })
}

/// Where the mesh with these tetrahedra is worst.
pub(crate) fn worst_in(points: &Points, tetrahedra: &TetList, shapes: &ShapeBounds) -> Worst
    requires on { All (IsOn points.now) tetrahedra.now }
    requires fine { IfSome shapes.now.ratio IsFine }
    ensures { IsWorst shapes.now points.now tetrahedra.now result }
{
    Worst {
        angle: worst_angle(points, tetrahedra, shapes.angle),
        ratio: worst_ratio(points, tetrahedra, shapes.ratio),
    }
}

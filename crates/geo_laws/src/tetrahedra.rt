//! Tetrahedra by the numbers of their corners, and lists of points and of tetrahedra.
ghost use Rattle.std.specs.Prelude.{◌≡◌};
ghost use Rattle.geo_laws.specs.Arrangement.{IsEvenOf, HasLeastFirst, HasLeastSecond};
ghost use Rattle.geo_laws.specs.Delaunay.{as_numbers, corners, IsOn};

use sign_predicates::{Corners, GridPoint, Numbers};
use tet_ports::Items;

/// A row: the four corners of a tetrahedron by the numbers of their points, which are places in a
/// list, from 0.
#[derive(Clone, Copy, Debug, PartialEq, Eq, PartialOrd, Ord)]
pub struct Tet {
    pub a: u32,
    pub b: u32,
    pub c: u32,
    pub d: u32,
}

/// A list of points, numbered from 0.
pub type Points = Items<GridPoint>;

/// A list of tetrahedra.
pub type TetList = Items<Tet>;

/// The corners of a row, whose numbers are places in `points`, from 0. Coordinates are in grid
/// units.
#[inline]
pub fn corners_of(points: &Points, row: Tet) -> Corners
    requires { IsOn points.now row }
    ensures { result ≡ corners points.now row }
{
    Corners {
        a: points.at(row.a as usize),
        b: points.at(row.b as usize),
        c: points.at(row.c as usize),
        d: points.at(row.d as usize),
    }
}

/// The numbers of a row's corners.
#[inline]
pub fn numbers_of(row: Tet) -> Numbers
    ensures { result ≡ as_numbers row }
{
    Numbers {
        a: row.a,
        b: row.b,
        c: row.c,
        d: row.d,
    }
}

/// The least even arrangement of a row: the least number comes first, and the next least second.
/// The corners and the orientation stay.
#[inline]
pub fn arranged(t: Tet) -> Tet
    ensures even { IsEvenOf t result }
    ensures first { HasLeastFirst result }
    ensures second { HasLeastSecond result }
{
    least_second(least_first(t))
}

/// The least number first: two exchanges of corners keep the orientation.
fn least_first(t: Tet) -> Tet
    ensures even { IsEvenOf t result }
    ensures least { HasLeastFirst result }
{
    let Tet { a, b, c, d } = t;
    let least = a.min(b).min(c).min(d);
    if a == least {
        t
    } else if b == least {
        Tet {
            a: b,
            b: a,
            c: d,
            d: c,
        }
    } else if c == least {
        Tet {
            a: c,
            b: d,
            c: a,
            d: b,
        }
    } else {
        Tet {
            a: d,
            b: c,
            c: b,
            d: a,
        }
    }
}

/// The next least number second: a turn of three corners keeps the orientation.
fn least_second(t: Tet) -> Tet
    ensures even { IsEvenOf t result }
    ensures first { HasLeastFirst t → HasLeastFirst result }
    ensures least { HasLeastSecond result }
{
    let Tet { a, b, c, d } = t;
    let least = b.min(c).min(d);
    if b == least {
        t
    } else if c == least {
        Tet {
            a,
            b: c,
            c: d,
            d: b,
        }
    } else {
        Tet {
            a,
            b: d,
            c: b,
            d: c,
        }
    }
}

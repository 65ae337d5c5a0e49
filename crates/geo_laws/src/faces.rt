//! The faces and the sides of tetrahedra, each with its numbers ascending.
ghost use Rattle.std.specs.Prelude.{◌≡◌, ◌↔◌, true};
ghost use Rattle.geo_laws.specs.Faces.{face_of, side_of, row_faces, FaceBefore};

use crate::Tet;

/// A triangle of points by their numbers, which are places in a list, from 0.
#[derive(Clone, Copy, Debug, PartialEq, Eq, PartialOrd, Ord)]
pub struct Face {
    pub a: u32,
    pub b: u32,
    pub c: u32,
}

/// A segment between two points by their numbers, which are places in a list, from 0.
#[derive(Clone, Copy, Debug, PartialEq, Eq, PartialOrd, Ord)]
pub struct Side {
    pub a: u32,
    pub b: u32,
}

/// The triangle of three numbers, ascending.
pub fn face_of(i: u32, j: u32, k: u32) -> Face
    ensures { result ≡ face_of i j k }
{
    let (low, high) = (i.min(j), i.max(j));
    Face {
        a: low.min(k),
        b: low.max(high.min(k)),
        c: high.max(k),
    }
}

/// Whether one face comes before another: by their first numbers, then by the next ones.
#[inline]
pub fn stands_before(f: Face, g: Face) -> bool
    ensures { (result ≡ true) ↔ FaceBefore f g }
{
    f.a < g.a || f.a == g.a && (f.b < g.b || f.b == g.b && f.c < g.c)
}

/// The segment of two numbers, ascending.
pub fn side_of(i: u32, j: u32) -> Side
    ensures { result ≡ side_of i j }
{
    Side {
        a: i.min(j),
        b: i.max(j),
    }
}

/// The faces of a tetrahedron: opposite its first corner, its second, its third and its fourth.
pub fn row_faces(row: Tet) -> [Face; 4]
    ensures { result ≡ row_faces row }
{
    [
        face_of(row.b, row.c, row.d),
        face_of(row.a, row.c, row.d),
        face_of(row.a, row.b, row.d),
        face_of(row.a, row.b, row.c),
    ]
}

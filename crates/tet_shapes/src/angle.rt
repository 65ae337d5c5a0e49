//! Whether a tetrahedron has a small dihedral angle.
ghost use Rattle.std.specs.Prelude.{◌≡◌, ◌*◌, ◌^◌, ◌≤◌, pos};
ghost use Rattle.sign_predicates.specs.Sphere.{square_length};
ghost use Rattle.geo_laws.specs.Delaunay.{corners, IsOn};
ghost use Rattle.tet_shapes.specs.Angle.{is_below, is_flat, is_sharp, squared_cosine};

use crate::shape::Ratio;
use crate::vector::{Normal, cross, dot};
use crate::wide::{is_over, product, times};
use geo_laws::{Points, Tet, corners_of};
use sign_predicates::{Corners, GridPoint, from_to};

/// The squared cosines of the angles of 0 to 30 whole degrees, as multiples of `10^-9`.
const SQUARED_COSINES: [u32; 31] = [
    1000000000, 999695414, 998782025, 997260948, 995134034, 992403877, 989073800, 985147863,
    980630848, 975528258, 969846310, 963591927, 956772729, 949397023, 941473796, 933012702,
    924024048, 914518786, 904508497, 894005377, 883022222, 871572413, 859669900, 847329185,
    834565303, 821393805, 807830738, 793892626, 779596452, 764959632, 750000000,
];

/// The squared cosine of an angle of at most 30 whole degrees, rounded to nine decimals.
pub fn squared_cosine(degrees: u32) -> Ratio
    requires { degrees ≤ 30 }
    ensures { result ≡ squared_cosine degrees }
{
    Ratio {
        over: SQUARED_COSINES[degrees as usize],
        under: 1_000_000_000,
    }
}

/// The square of the length of a cross product.
#[inline]
fn square_of(m: Normal) -> u128
    ensures value { pos result ≡ square_length m }
    ensures size { result ≤ 3 * 2 ^ 122 }
{
    dot(m, m).unsigned_abs()
}

/// Whether the angle of two normals, or vectors, is below the one with this squared cosine.
pub(crate) fn is_below(m: Normal, n: Normal, bound: Ratio) -> bool
    ensures { result ≡ is_below bound m n }
{
    let along = dot(m, n);
    if along <= 0 {
        return false;
    }
    let along = along.unsigned_abs();
    is_over(
        times(product(along, along), u128::from(bound.under)),
        times(product(square_of(m), square_of(n)), u128::from(bound.over)),
    )
}

/// Whether the dihedral angle at the edge from `a` to `b`, between the faces that `c` and `d` span
/// with it, is below the one with this squared cosine.
fn is_sharp(a: GridPoint, b: GridPoint, c: GridPoint, d: GridPoint, bound: Ratio) -> bool
    ensures { result ≡ is_sharp bound a b c d }
{
    let edge = from_to(a, b);
    is_below(
        cross(edge, from_to(a, c)),
        cross(edge, from_to(a, d)),
        bound,
    )
}

/// Whether a dihedral angle of the tetrahedron with these corners is below that.
#[tactic(auto, unfolding(crate::specs::Angle::is_flat))]
pub(crate) fn is_flat_at(t: Corners, bound: Ratio) -> bool
    ensures { result ≡ is_flat bound t }
{
    let Corners { a, b, c, d } = t;
    is_sharp(a, b, c, d, bound)
        || is_sharp(a, c, b, d, bound)
        || is_sharp(a, d, b, c, bound)
        || is_sharp(b, c, a, d, bound)
        || is_sharp(b, d, a, c, bound)
        || is_sharp(c, d, a, b, bound)
}

/// Whether a tetrahedron is flat: one of its dihedral angles is below the one whose squared cosine
/// is `bound`.
pub(crate) fn is_flat(points: &Points, row: Tet, bound: Ratio) -> bool
    requires { IsOn points.now row }
    ensures { result ≡ is_flat bound (corners points.now row) }
{
    is_flat_at(corners_of(points, row), bound)
}

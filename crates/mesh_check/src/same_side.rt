//! Two tetrahedra on one side of a face.

ghost use Rattle.std.specs.Prelude.{◌≡◌, ◌≤◌, ◌-◌, ℤ, All, IfOk, OnOk};
ghost use Rattle.std.specs.HashMap.{get};
ghost use Rattle.geo_laws.specs.Delaunay.{IsOn};
ghost use Rattle.mesh_check.specs.Defects.{IsSameSide};
ghost use Rattle.mesh_check.specs.Searches.{IsLeastOf, IsLeastPair};
ghost use Rattle.sign_predicates.specs.Sign.{IsSignOf};
ghost use Rattle.mesh_check.specs.Sides.{side_of_face, same_side, sign_code, side_at, lesser_of, paired};
ghost use Rattle.mesh_check.specs.Sides.{AreFirstsFrom, IsLaterLike, MeetsLater, IsPutBelow};

use crate::face_set::{face_in, point_in};
use geo_laws::{Face, Points, Tet, TetList};
use sign_predicates::{Sign, orient};
use std::alloc::Global;
use std::collections::HashMap;
use tet_ports::NoMemory;

/// The number of corners of a tetrahedron.
const CORNERS: u8 = 4;

/// A side of a face: the face's corners, ascending, and the sign of orient3d on that side by
/// `code_of`: 0 below, 1 in the face's plane, 2 above.
#[derive(Clone, Copy, PartialEq, Eq, Hash)]
pub(crate) struct FaceSide {
    pub(crate) a: u32,
    pub(crate) b: u32,
    pub(crate) c: u32,
    pub(crate) side: u32,
}

/// For each side of a face a tetrahedron that lies on it, by its place.
type Sides = HashMap<FaceSide, usize>;

fn face_side(face: Face, side: u32) -> FaceSide
    ensures { result ≡ side_of_face face side }
{
    let Face { a, b, c } = face;
    FaceSide { a, b, c, side }
}

/// 0 for a negative sign, 1 for zero, 2 for a positive sign.
fn code_of(sign: Sign) -> u32
    ensures { (z : ℤ) → IsSignOf sign z → result ≡ sign_code z }
{
    match sign {
        Sign::Below => 0,
        Sign::Zero => 1,
        Sign::Above => 2,
    }
}

/// The side of the face opposite a corner on which the corner lies.
#[tactic(auto, unfolding(crate::specs::Sides::side_at))]
fn side_at(points: &Points, row: Tet, corner: u8) -> FaceSide
    requires { IsOn points.now row }
    ensures { result ≡ side_at points.now row corner }
{
    let face = face_in(row, corner);
    let a = points.at(face.a as usize);
    let b = points.at(face.b as usize);
    let c = points.at(face.c as usize);
    let e = points.at(point_in(row, corner) as usize);
    face_side(face, code_of(orient(a, b, c, e)))
}

/// The lesser of two places.
pub(crate) fn least_of(one: Option<usize>, two: Option<usize>) -> Option<usize>
    ensures { result ≡ lesser_of one two }
{
    match one {
        None => two,
        Some(x) => match two {
            None => Some(x),
            Some(y) => Some(x.min(y)),
        },
    }
}

/// The tetrahedron that the map has for a side of a face.
fn kept(sides: &Sides, at: FaceSide, side: u32) -> Option<usize>
    ensures { result ≡ get same_side sides.now (record at { side = side }) }
{
    sides.get(&FaceSide { side, ..at }).copied()
}

/// The first tetrahedron in the map that is not strictly on the other side of the face than `at`:
/// one with the same sign, or any where either sign is zero.
fn met_at(
    points: &Points,
    list: &TetList,
    from: usize,
    at: FaceSide,
    sides: &Sides,
) -> Option<usize>
    requires { AreFirstsFrom points.now list.now from (get same_side sides.now) }
    ensures { at.side ≤ 2 → IsLeastOf (IsLaterLike points.now list.now from at) result }
{
    let middle = kept(sides, at, 1);
    if at.side == 1 {
        return least_of(middle, least_of(kept(sides, at, 0), kept(sides, at, 2)));
    }
    least_of(middle, kept(sides, at, at.side))
}

/// The first later tetrahedron that shares a face with `row` and lies on the same side of it.
fn first_met(points: &Points, row: Tet, list: &TetList, from: usize, sides: &Sides) -> Option<usize>
    requires row { IsOn points.now row }
    requires sides { AreFirstsFrom points.now list.now from (get same_side sides.now) }
    ensures { IsLeastOf (MeetsLater points.now list.now from row 4) result }
{
    let mut least = None;
    for corner in 0..CORNERS {
        let at = side_at(points, row, corner);
        least = least_of(least, met_at(points, list, from, at, sides));
    }
    least
}

/// Enters a tetrahedron for the sides of its four faces on which it lies.
fn put_row(points: &Points, row: Tet, place: usize, sides: &mut Sides) -> Result<(), NoMemory>
    requires { IsOn points.now row }
    ensures { OnOk result (IsPutBelow points.now row 4 place (get same_side sides.old)
        (get same_side sides.new)) }
{
    for corner in 0..CORNERS {
        sides.insert(side_at(points, row, corner), place)?;
    }
    Ok(())
}

/// The pair of `place` and `met`, or the pair that was found before where `met` is None.
fn paired(place: usize, met: Option<usize>, found: Option<(usize, usize)>) -> Option<(usize, usize)>
    ensures { result ≡ paired place met found }
{
    match met {
        Some(two) => Some((place, two)),
        None => found,
    }
}

/// The first two tetrahedra that share a face and lie on one side of it. The list is traversed from
/// its last tetrahedron, and for each side of a face the map has the first one of those traversed.
pub(crate) fn first_same_side(
    alloc: Global,
    points: &Points,
    list: &TetList,
) -> Result<Option<(usize, usize)>, NoMemory>
    requires { All (IsOn points.now) list.now }
    ensures { IfOk result (IsLeastPair (IsSameSide points.now list.now)) }
{
    let mut sides = HashMap::with_capacity(alloc, list.len().saturating_mul(4))?;
    let mut first = None;
    let mut left = list.len();
    while left > 0 {
        let place = left - 1;
        let row = list.at(place);
        let met = first_met(points, row, list, left, &sides);
        put_row(points, row, place, &mut sides)?;
        first = paired(place, met, first);
        left = place;
    }
    Ok(first)
}

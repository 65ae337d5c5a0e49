//! The corner in which a segment meets another at the smallest angle.
ghost use Rattle.std.specs.Prelude.{◌≡◌, ◌<◌, ◌≤◌, ◌+◌, length, true, IfSome};
ghost use Rattle.tet_shapes.specs.Narrow.{IsBelowDegrees, IsCornerOf, IsNarrow};

use crate::angle::{is_below, squared_cosine};
use crate::vector::normal_of;
use geo_laws::{Piece, Points, Segments};
use sign_predicates::from_to;

/// A corner in which two segments meet: the numbers of their common end and of their other ends.
#[derive(Clone, Copy, Debug, PartialEq, Eq)]
pub struct Corner {
    pub at: u32,
    pub one: u32,
    pub other: u32,
}

/// A corner in which a segment meets another at a small angle.
#[derive(Clone, Copy, Debug, PartialEq, Eq)]
pub struct NarrowCorner {
    pub corner: Corner,
    /// The place of the other segment in its list, from 0.
    pub place: usize,
    /// A number of degrees that the angle is below.
    pub degrees: u32,
}

/// The corner in which two segments meet; None where they have no common end.
fn corner_of(s: Piece, t: Piece) -> Option<Corner>
    ensures { IfSome result (IsCornerOf s t) }
{
    let (at, one, other) = if s.a == t.a {
        (s.a, s.b, t.b)
    } else if s.a == t.b {
        (s.a, s.b, t.a)
    } else if s.b == t.a {
        (s.b, s.a, t.b)
    } else if s.b == t.b {
        (s.b, s.a, t.a)
    } else {
        return None;
    };
    Some(Corner { at, one, other })
}

/// Whether the ends are different points of a list of this length.
fn is_proper(corner: Corner, count: usize) -> bool
    ensures at { result ≡ true → corner.at < count }
    ensures one { result ≡ true → corner.one < count }
    ensures other { result ≡ true → corner.other < count }
{
    (corner.at as usize) < count
        && (corner.one as usize) < count
        && (corner.other as usize) < count
        && corner.one != corner.other
}

/// Whether the angle in a corner of different points of a list is below so many degrees.
fn is_below_degrees(points: &Points, corner: Corner, degrees: u32) -> bool
    requires { degrees ≤ 30 }
    ensures { result ≡ true → IsBelowDegrees points.now corner degrees }
{
    if !is_proper(corner, points.len()) {
        return false;
    }
    let at = points.at(corner.at as usize);
    let one = from_to(at, points.at(corner.one as usize));
    let other = from_to(at, points.at(corner.other as usize));
    is_below(normal_of(one), normal_of(other), squared_cosine(degrees))
}

/// The least number of degrees, up to `most`, that the angle in a corner is below; None where it is
/// not below `most` degrees.
fn degrees_of(points: &Points, corner: Corner, most: u32) -> Option<u32>
    requires { most ≤ 30 }
    ensures below { IfSome result (IsBelowDegrees points.now corner) }
    ensures most { IfSome result (λ degrees. degrees ≤ most) }
{
    let mut found = None;
    let mut degrees = most;
    while degrees > 0 && is_below_degrees(points, corner, degrees) {
        found = Some(degrees);
        degrees -= 1;
    }
    found
}

/// The corner in which a segment meets the one at a place of a list, where their angle is below
/// `most` degrees.
fn narrower(
    points: &Points,
    segments: &Segments,
    s: Piece,
    place: usize,
    most: u32,
) -> Option<NarrowCorner>
    requires few { most ≤ 30 }
    requires there { place < length segments.now }
    ensures narrow { IfSome result (IsNarrow points.now segments.now s) }
    ensures most { IfSome result (λ narrow. narrow.degrees ≤ most) }
{
    let corner = corner_of(s, segments.at(place))?;
    let degrees = degrees_of(points, corner, most)?;
    Some(NarrowCorner {
        corner,
        place,
        degrees,
    })
}

/// The corner in which a segment meets another of a list at the smallest angle in whole degrees,
/// the first of several; None where no angle is below 30 degrees.
pub fn narrowest(points: &Points, segments: &Segments, s: Piece) -> Option<NarrowCorner>
    ensures { IfSome result (IsNarrow points.now segments.now s) }
{
    let mut found = None;
    let mut most = 30;
    for place in 0..segments.len() {
        if let Some(narrow) = narrower(points, segments, s, place, most) {
            found = Some(narrow);
            most = narrow.degrees.saturating_sub(1);
        }
    }
    found
}

//! The test whether two polygons in one plane lie on the two hands of a common side.
ghost use Rattle.std.specs.Prelude.{◌≡◌, ◌<◌, length, All, IsTrue, ◌↔◌, find, IfSome};
ghost use Rattle.sign_predicates.specs.Sign.{IsSignOf};
ghost use Rattle.geo_laws.specs.Delaunay.{HasDistinctPoints};
ghost use Rattle.geo_laws.specs.Facet.{IsFlat};
ghost use Rattle.geo_laws.specs.Segment.{same_ends};
ghost use Rattle.merged_facets.specs.Merged.{alike_turned};
ghost use Rattle.merged_facets.specs.Beside.{one_facet, is_off, not_below, not_above, AreBeside};
ghost use Rattle.merged_facets.specs.Beside.{Lies, HasSideOnce};
ghost use Rattle.merged_facets.specs.Beside.{IsSideAmong, IsOffCorner};

use geo_laws::{Piece, Points, Side};
use sign_predicates::{Sign, coplanar, spans_plane, turn_sign};
use simplex_meets::segments_met;

/// Whether the two sides have the same ends, in either direction.
#[inline]
fn same_ends(s: Piece, r: Piece) -> bool
    ensures { result ≡ same_ends s r }
{
    s.a == r.a && s.b == r.b || s.a == r.b && s.b == r.a
}

/// Whether the corner is off the line of the side.
#[inline]
fn is_off_line(points: &Points, s: Piece, corner: u32) -> bool
    requires a_there { s.a < length points.now }
    requires b_there { s.b < length points.now }
    requires there { corner < length points.now }
    ensures { result ≡ is_off points.now s corner }
{
    spans_plane(
        points.at(s.a as usize),
        points.at(s.b as usize),
        points.at(corner as usize),
    )
}

/// The first corner that is off the line of the side.
fn off_line(points: &Points, s: Piece, corners: &[u32]) -> Option<u32>
    requires a_there { s.a < length points.now }
    requires b_there { s.b < length points.now }
    requires corners { All (λ i. i < length points.now) corners.now }
    ensures first { result ≡ find (is_off points.now s) corners.now }
    ensures there { IfSome result (λ i. i < length points.now) }
{
    for i in 0..corners.len() {
        let corner = corners[i];
        if is_off_line(points, s, corner) {
            return Some(corner);
        }
    }
    None
}

/// The sign that compares the turns from the side to the corners `i` and `j`: in one plane,
/// positive where both lie on the same hand of the side.
#[inline]
fn turn_of(points: &Points, s: Piece, i: u32, j: u32) -> Sign
    requires a_there { s.a < length points.now }
    requires b_there { s.b < length points.now }
    requires i_there { i < length points.now }
    requires j_there { j < length points.now }
    ensures { IsSignOf result (alike_turned points.now s i j) }
{
    let (a, b) = (points.at(s.a as usize), points.at(s.b as usize));
    turn_sign(a, b, points.at(i as usize), a, b, points.at(j as usize))
}

#[inline]
fn is_not_below(sign: Sign) -> bool
    ensures { result ≡ not_below sign }
{
    match sign {
        Sign::Below => false,
        Sign::Zero => true,
        Sign::Above => true,
    }
}

#[inline]
fn is_not_above(sign: Sign) -> bool
    ensures { result ≡ not_above sign }
{
    match sign {
        Sign::Below => true,
        Sign::Zero => true,
        Sign::Above => false,
    }
}

/// How a corner lies to a side, compared with a corner `i` that is off the side's line.
#[derive(Clone, Copy)]
enum Lie {
    /// In the plane of the side and the corner `i`.
    InPlane,
    /// On the line of the side, or on the same hand as the corner `i`.
    Beside,
    /// On the line of the side, or on the other hand than the corner `i`.
    Across,
}

/// Whether the corner `j` lies to the side as `lie` says, compared with the corner `i`.
#[inline]
fn lies(points: &Points, s: Piece, i: u32, j: u32, lie: Lie) -> bool
    requires a_there { s.a < length points.now }
    requires b_there { s.b < length points.now }
    requires i_there { i < length points.now }
    requires j_there { j < length points.now }
    ensures { IsTrue result ↔ Lies lie points.now s i j }
{
    match lie {
        Lie::InPlane => coplanar(
            points.at(s.a as usize),
            points.at(s.b as usize),
            points.at(i as usize),
            points.at(j as usize),
        ),
        Lie::Beside => is_not_below(turn_of(points, s, i, j)),
        Lie::Across => is_not_above(turn_of(points, s, i, j)),
    }
}

/// Whether each corner lies to the side as `lie` says, compared with the corner `i`.
fn all_lie(points: &Points, s: Piece, i: u32, corners: &[u32], lie: Lie) -> bool
    requires a_there { s.a < length points.now }
    requires b_there { s.b < length points.now }
    requires i_there { i < length points.now }
    requires corners { All (λ i. i < length points.now) corners.now }
    ensures { IsTrue result ↔ All (Lies lie points.now s i) corners.now }
{
    for k in 0..corners.len() {
        if !lies(points, s, i, corners[k], lie) {
            return false;
        }
    }
    true
}

/// Whether the polygon has the side at one place, and every other side of it is properly met with
/// the side.
fn has_once(points: &Points, s: Piece, corners: &[u32]) -> bool
    requires there { IsSideAmong points.now s }
    requires distinct { HasDistinctPoints points.now }
    requires corners { All (λ i. i < length points.now) corners.now }
    ensures { IsTrue result ↔ HasSideOnce points.now s corners.now }
{
    let mut places = 0usize;
    for k in 0..corners.len() {
        let next = if k + 1 < corners.len() { k + 1 } else { 0 };
        let (a, b) = (corners[k], corners[next]);
        if a != b {
            if same_ends(s, Piece { a, b, halvings: 0 }) {
                places += 1;
            } else if !segments_met(points, Side { a: s.a, b: s.b }, Side { a, b }) {
                return false;
            }
        }
    }
    places == 1
}

/// Whether each polygon has the side at one place, and its other sides are properly met with the
/// side.
fn have_once(points: &Points, s: Piece, p: &[u32], q: &[u32]) -> bool
    requires there { IsSideAmong points.now s }
    requires distinct { HasDistinctPoints points.now }
    requires p_corners { All (λ i. i < length points.now) p.now }
    requires q_corners { All (λ i. i < length points.now) q.now }
    ensures { IsTrue result ↔ (HasSideOnce points.now s p.now × HasSideOnce points.now s q.now) }
{
    if has_once(points, s, p) {
        has_once(points, s, q)
    } else {
        false
    }
}

/// Whether two polygons, each in one plane, are joined over the side, where the corner `i` of the
/// first is off the side's line.
fn are_on_either_hand(points: &Points, s: Piece, i: u32, p: &[u32], q: &[u32]) -> bool
    requires there { IsSideAmong points.now s }
    requires distinct { HasDistinctPoints points.now }
    requires p_corners { All (λ i. i < length points.now) p.now }
    requires q_corners { All (λ i. i < length points.now) q.now }
    requires p_flat { IsFlat points.now (one_facet p.now) }
    requires off { IsOffCorner points.now s p.now i }
    ensures { IsTrue result ↔ AreBeside points.now s p.now q.now }
{
    if !all_lie(points, s, i, q, Lie::InPlane) {
        return false;
    }
    if !all_lie(points, s, i, q, Lie::Across) {
        return false;
    }
    if !all_lie(points, s, i, p, Lie::Beside) {
        return false;
    }
    match off_line(points, s, q) {
        Some(_) => have_once(points, s, p, q),
        None => false,
    }
}

/// Whether two polygons, each in one plane, are joined over the side.
pub(crate) fn are_beside(points: &Points, s: Piece, p: &[u32], q: &[u32]) -> bool
    requires there { IsSideAmong points.now s }
    requires distinct { HasDistinctPoints points.now }
    requires p_corners { All (λ i. i < length points.now) p.now }
    requires q_corners { All (λ i. i < length points.now) q.now }
    requires p_flat { IsFlat points.now (one_facet p.now) }
    ensures { IsTrue result ↔ AreBeside points.now s p.now q.now }
{
    match off_line(points, s, p) {
        Some(i) => are_on_either_hand(points, s, i, p, q),
        None => false,
    }
}

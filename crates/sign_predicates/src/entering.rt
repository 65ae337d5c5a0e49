//! Whether a triangle enters the inside of a tetrahedron. All sums are orientations.
ghost use Rattle.std.specs.Prelude.{◌≡◌, ◌⊎◌, pos, ◌<ℤ◌, ◌≤ℤ◌, IsTrue, ◌↔◌, None, IfSome};
ghost use Rattle.sign_predicates.specs.Orientation.{orient, IsPositive, SpansPlane, side};
ghost use Rattle.sign_predicates.specs.Meeting.{triangle_of, grid_triangle, segment, TriangleEnters};
ghost use Rattle.sign_predicates.specs.Turns.{PassesWithin};
ghost use Rattle.sign_predicates.specs.Entering.{AreLows, AreFaceLows, AreTriangleLows, FacesOpen, PassesFace, EdgesOpen, SideEnters, CrossesWithin, CrossesFrom, SectionWithin, Straddles, SomeAbove, SomeBelow, IsSpot, AreSpotsOver, spot_corners};

use crate::meeting::passes_within;
use crate::orientation::orient_sum;
use crate::sign::{is_not_above, is_strictly_above};
use crate::triangle::GridTriangle;
use crate::{Corners, GridPoint};

/// For each face of a tetrahedron, by the opposite corner: whether a point isn't strictly on the
/// face's inner side.
#[derive(Clone, Copy)]
struct Lows {
    a: bool,
    b: bool,
    c: bool,
    d: bool,
}

#[inline]
fn is_low(a: GridPoint, b: GridPoint, c: GridPoint, p: GridPoint) -> bool
    ensures { IsTrue result ↔ orient a b c p ≤ℤ pos 0 }
{
    is_not_above(orient_sum(a, b, c, p))
}

#[inline]
fn is_high(a: GridPoint, b: GridPoint, c: GridPoint, p: GridPoint) -> bool
    ensures { IsTrue result ↔ pos 0 <ℤ orient a b c p }
{
    is_strictly_above(orient_sum(a, b, c, p))
}

/// For each corner of a triangle: whether it isn't strictly on a face's inner side.
#[derive(Clone, Copy)]
struct FaceLows {
    a: bool,
    b: bool,
    c: bool,
}

/// For each corner of the triangle `f`: whether it isn't strictly on the inner side of the face `u
/// v w`.
#[inline]
fn face_lows(u: GridPoint, v: GridPoint, w: GridPoint, f: &GridTriangle) -> FaceLows
    ensures { AreFaceLows (triangle_of u v w) (grid_triangle f.now) result }
{
    FaceLows {
        a: is_low(u, v, w, f.a),
        b: is_low(u, v, w, f.b),
        c: is_low(u, v, w, f.c),
    }
}

/// Whether no corner of the triangle is strictly on the face's inner side.
#[inline]
fn is_beyond(face: FaceLows) -> bool
    ensures { IsTrue result ↔ (IsTrue face.a × IsTrue face.b × IsTrue face.c) }
{
    face.a && face.b && face.c
}

/// The marks of the three corners of a triangle.
#[derive(Clone, Copy)]
struct TriangleLows {
    a: Lows,
    b: Lows,
    c: Lows,
}

/// The marks of the triangle's corners, or None where a face has none of them strictly on its inner
/// side: then the triangle does not enter. The first such face ends the search.
#[inline]
fn triangle_lows(t: &Corners, f: &GridTriangle) -> Option<TriangleLows>
    ensures some { IfSome result (AreTriangleLows t.now (grid_triangle f.now)) }
    ensures none { result ≡ None → ¬ TriangleEnters t.now (grid_triangle f.now) }
{
    let at_a = face_lows(t.b, t.d, t.c, f);
    if is_beyond(at_a) {
        return None;
    }
    let at_b = face_lows(t.a, t.c, t.d, f);
    if is_beyond(at_b) {
        return None;
    }
    let at_c = face_lows(t.a, t.d, t.b, f);
    if is_beyond(at_c) {
        return None;
    }
    let at_d = face_lows(t.a, t.b, t.c, f);
    if is_beyond(at_d) {
        return None;
    }
    Some(TriangleLows {
        a: Lows {
            a: at_a.a,
            b: at_b.a,
            c: at_c.a,
            d: at_d.a,
        },
        b: Lows {
            a: at_a.b,
            b: at_b.b,
            c: at_c.b,
            d: at_d.b,
        },
        c: Lows {
            a: at_a.c,
            b: at_b.c,
            c: at_c.c,
            d: at_d.c,
        },
    })
}

// ---- a leg

/// Whether each face has one of the two points strictly on its inner side.
#[inline]
fn faces_open(p: Lows, q: Lows) -> bool
    ensures { IsTrue result ↔ FacesOpen p q }
{
    !(p.a && q.a) && !(p.b && q.b) && !(p.c && q.c) && !(p.d && q.d)
}

/// Whether the leg from `p` to `q` passes the edge from `u` to `v` on its inner side, where that is
/// asked.
#[inline]
fn passes_edge(
    first: bool,
    second: bool,
    u: GridPoint,
    v: GridPoint,
    p: GridPoint,
    q: GridPoint,
) -> bool
    ensures { IsTrue result ↔ (IsTrue first → IsTrue second → pos 0 <ℤ orient u v q p) }
{
    if first && second {
        is_high(u, v, q, p)
    } else {
        true
    }
}

/// Whether the leg from `p` to `q` passes the three edges of the face `b c d` on their inner sides,
/// where `low` says that `q` isn't on the face's inner side, and `low_b`, `low_c` and `low_d` that
/// `p` isn't on the inner sides of the faces opposite these corners.
#[inline]
fn passes_face(
    low: bool,
    low_b: bool,
    low_c: bool,
    low_d: bool,
    b: GridPoint,
    c: GridPoint,
    d: GridPoint,
    p: GridPoint,
    q: GridPoint,
) -> bool
    ensures { IsTrue result ↔ PassesFace low low_b low_c low_d b c d p q }
{
    passes_edge(low, low_b, d, c, p, q)
        && passes_edge(low, low_c, b, d, p, q)
        && passes_edge(low, low_d, c, b, p, q)
}

/// Whether the leg passes each edge on its inner side where it leaves the inner side of one of the
/// edge's faces and comes to that of the other.
fn edges_open(t: &Corners, p: GridPoint, q: GridPoint, lp: Lows, lq: Lows) -> bool
    ensures { IsTrue result ↔ EdgesOpen t.now p q lp lq }
{
    passes_face(lq.a, lp.b, lp.c, lp.d, t.b, t.c, t.d, p, q)
        && passes_face(lq.b, lp.a, lp.d, lp.c, t.a, t.d, t.c, p, q)
        && passes_face(lq.c, lp.d, lp.a, lp.b, t.d, t.a, t.b, p, q)
        && passes_face(lq.d, lp.c, lp.b, lp.a, t.c, t.b, t.a, p, q)
}

/// Whether some point of the closed segment from `p` to `q` is strictly inside the tetrahedron.
/// Source: Helly's theorem on a line.
fn leg_enters(t: &Corners, p: GridPoint, q: GridPoint, lp: Lows, lq: Lows) -> bool
    requires positive { IsPositive t.now }
    requires lp_is { AreLows t.now p lp }
    requires lq_is { AreLows t.now q lq }
    ensures { IsTrue result ↔ TriangleEnters t.now (segment p q) }
{
    faces_open(lp, lq) && edges_open(t, p, q, lp, lq)
}

/// Whether a side of the triangle has a point strictly inside.
fn side_enters(t: &Corners, f: &GridTriangle, lows: TriangleLows) -> bool
    requires positive { IsPositive t.now }
    requires lows_are { AreTriangleLows t.now (grid_triangle f.now) lows }
    ensures { IsTrue result ↔ SideEnters t.now (grid_triangle f.now) }
{
    if leg_enters(t, f.a, f.b, lows.a, lows.b) {
        true
    } else {
        leg_enters(t, f.b, f.c, lows.b, lows.c) || leg_enters(t, f.c, f.a, lows.c, lows.a)
    }
}

// ---- the section

/// A corner, and whether it is strictly above the triangle's plane.
#[derive(Clone, Copy)]
struct Spot {
    at: GridPoint,
    above: bool,
}

/// The four corners of a tetrahedron so.
#[derive(Clone, Copy)]
struct Spots {
    a: Spot,
    b: Spot,
    c: Spot,
    d: Spot,
}

#[inline]
fn find_spot(f: &GridTriangle, p: GridPoint, side: i128) -> Spot
    requires { side ≡ orient f.now.a f.now.b f.now.c p }
    ensures at { result.at ≡ p }
    ensures spot { IsSpot (grid_triangle f.now) result }
{
    Spot {
        at: p,
        above: is_strictly_above(side),
    }
}

/// Whether the edge from `p` to `q` meets the plane within the triangle, where `p` is strictly
/// above the plane and `q` isn't.
fn crosses_within(p: &Spot, q: &Spot, f: &GridTriangle) -> bool
    requires p_is { IsSpot (grid_triangle f.now) p.now }
    requires q_is { IsSpot (grid_triangle f.now) q.now }
    ensures { IsTrue result ↔ CrossesWithin (grid_triangle f.now) p.now.at q.now.at }
{
    if p.above && !q.above {
        passes_within(p.at, q.at, f)
    } else {
        true
    }
}

/// Whether the three edges from `p`, to `q`, `r` and `s`, meet the plane within the triangle where
/// they cross it downward.
fn crosses_from(p: &Spot, q: &Spot, r: &Spot, s: &Spot, f: &GridTriangle) -> bool
    requires p_is { IsSpot (grid_triangle f.now) p.now }
    requires q_is { IsSpot (grid_triangle f.now) q.now }
    requires r_is { IsSpot (grid_triangle f.now) r.now }
    requires s_is { IsSpot (grid_triangle f.now) s.now }
    ensures { IsTrue result ↔ CrossesFrom (grid_triangle f.now) p.now.at q.now.at r.now.at s.now.at }
{
    crosses_within(p, q, f) && crosses_within(p, r, f) && crosses_within(p, s, f)
}

/// Whether the plane cuts the tetrahedron within the triangle.
fn section_within(spots: &Spots, f: &GridTriangle) -> bool
    requires { AreSpotsOver (grid_triangle f.now) spots.now }
    ensures { IsTrue result ↔ SectionWithin (spot_corners spots.now) (grid_triangle f.now) }
{
    let Spots { a, b, c, d } = spots;
    crosses_from(a, b, c, d, f)
        && crosses_from(b, a, c, d, f)
        && crosses_from(c, d, a, b, f)
        && crosses_from(d, c, a, b, f)
}

#[inline]
fn some_above(a: i128, b: i128, c: i128, d: i128) -> bool
    ensures { IsTrue result ↔ SomeAbove a b c d }
{
    a > 0 || b > 0 || c > 0 || d > 0
}

#[inline]
fn some_below(a: i128, b: i128, c: i128, d: i128) -> bool
    ensures { IsTrue result ↔ SomeBelow a b c d }
{
    a < 0 || b < 0 || c < 0 || d < 0
}

/// Whether some of four numbers is above 0, and some is below.
#[inline]
fn has_both_signs(a: i128, b: i128, c: i128, d: i128) -> bool
    ensures { IsTrue result ↔ (SomeAbove a b c d × SomeBelow a b c d) }
{
    some_above(a, b, c, d) && some_below(a, b, c, d)
}

/// `triangle_enters`, where the plane has corners strictly on both sides.
fn enters_across(t: &Corners, f: &GridTriangle, spots: &Spots) -> bool
    requires positive { IsPositive t.now }
    requires spots_are { AreSpotsOver (grid_triangle f.now) spots.now }
    requires spans { SpansPlane (grid_triangle f.now) }
    requires straddles { Straddles t.now (grid_triangle f.now) }
    requires corners { t.now ≡ spot_corners spots.now }
    ensures { IsTrue result ↔ TriangleEnters t.now (grid_triangle f.now) }
{
    match triangle_lows(t, f) {
        Some(lows) => side_enters(t, f, lows) || section_within(spots, f),
        None => false,
    }
}

/// `triangle_enters`, where the last four numbers say on which sides of the triangle's plane the
/// corners lie.
fn enters_at(t: &Corners, f: &GridTriangle, sa: i128, sb: i128, sc: i128, sd: i128) -> bool
    requires positive { IsPositive t.now }
    requires spans { SpansPlane (grid_triangle f.now) }
    requires sa_is { sa ≡ side (grid_triangle f.now) t.now.a }
    requires sb_is { sb ≡ side (grid_triangle f.now) t.now.b }
    requires sc_is { sc ≡ side (grid_triangle f.now) t.now.c }
    requires sd_is { sd ≡ side (grid_triangle f.now) t.now.d }
    ensures { IsTrue result ↔ TriangleEnters t.now (grid_triangle f.now) }
{
    if has_both_signs(sa, sb, sc, sd) {
        let a = find_spot(f, t.a, sa);
        let b = find_spot(f, t.b, sb);
        let c = find_spot(f, t.c, sc);
        let d = find_spot(f, t.d, sd);
        enters_across(t, f, &Spots { a, b, c, d })
    } else {
        false
    }
}

/// Whether some rational point strictly inside the positive tetrahedron `t` lies in the closed
/// triangle `a b c`, whose corners are not on a line. Source: a side of the triangle has such a
/// point, or the plane cuts the tetrahedron within the triangle; else the leg from such a point to
/// a corner of the section leaves the triangle through a side.
pub fn triangle_enters(t: Corners, a: GridPoint, b: GridPoint, c: GridPoint) -> bool
    requires positive { IsPositive t }
    requires spans { SpansPlane (triangle_of a b c) }
    ensures { IsTrue result ↔ TriangleEnters t (triangle_of a b c) }
{
    let sa = orient_sum(a, b, c, t.a);
    let sb = orient_sum(a, b, c, t.b);
    let sc = orient_sum(a, b, c, t.c);
    let sd = orient_sum(a, b, c, t.d);
    enters_at(&t, &GridTriangle { a, b, c }, sa, sb, sc, sd)
}

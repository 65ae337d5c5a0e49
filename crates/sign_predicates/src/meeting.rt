//! Whether closed segments and triangles have a point in common. All sums are of orientations, and
//! of scalar products of two cross products, at most `3 * 2^122` in size.
ghost use Rattle.std.specs.Prelude.{◌≡◌, ◌⊎◌, pos, ◌<ℤ◌, ◌≤ℤ◌, IsTrue, ◌↔◌};
ghost use Rattle.sign_predicates.specs.Orientation.{orient, side, normal, dot, SpansPlane};
ghost use Rattle.sign_predicates.specs.Meeting.{triangle_of, grid_triangle, segment, SegmentMeetsTriangle, TrianglesMeet};
ghost use Rattle.sign_predicates.specs.Turns.{turn, IsZeroVector, IsBetween, TurnsAcross, TurnsAbout, PassesWithin, common_normal};

use crate::GridPoint;
use crate::boxes::boxes_apart;
use crate::orientation::{coplanar, orient_sum};
use crate::sign::{is_not_above, is_not_below};
use crate::triangle::GridTriangle;
use crate::vector::{Normal, Vector, cross, dot, dot_normals, from_to, is_zero};

/// Twice the area of the triangle `a b p`, with its sign as seen against the direction `n`, times
/// the length of `n`.
#[inline]
pub(crate) fn turn(n: Normal, a: GridPoint, b: GridPoint, p: GridPoint) -> i128
    ensures { result ≡ turn n a b p }
{
    dot_normals(n, cross(from_to(a, b), from_to(a, p)))
}

/// Whether the way from `a` over `b` to `p` turns counterclockwise, seen against the direction `n`,
/// or not at all.
#[inline]
fn turns_left(n: Normal, a: GridPoint, b: GridPoint, p: GridPoint) -> bool
    ensures { IsTrue result ↔ pos 0 ≤ℤ turn n a b p }
{
    is_not_below(turn(n, a, b, p))
}

/// Whether the angle between the two vectors isn't acute.
#[inline]
fn point_apart(u: Vector, v: Vector) -> bool
    ensures { IsTrue result ↔ dot u v ≤ℤ pos 0 }
{
    is_not_above(dot(u, v))
}

/// Whether `p` lies on the closed segment from `a` to `b`, whose ends may be one point.
#[inline]
fn is_between(a: GridPoint, b: GridPoint, p: GridPoint) -> bool
    ensures { IsTrue result ↔ IsBetween a b p }
{
    let u = from_to(p, a);
    let v = from_to(p, b);
    is_zero(cross(u, v)) && point_apart(u, v)
}

/// Whether an end of one of the two segments lies on the other.
fn has_end_on(p: GridPoint, q: GridPoint, a: GridPoint, b: GridPoint) -> bool
    ensures { IsTrue result ↔ (IsBetween a b p
        ⊎ (IsBetween a b q ⊎ (IsBetween p q a ⊎ IsBetween p q b))) }
{
    is_between(a, b, p) || is_between(a, b, q) || is_between(p, q, a) || is_between(p, q, b)
}

/// Whether two segments in one plane that aren't parallel cross or touch.
fn crosses_flat(n: Normal, p: GridPoint, q: GridPoint, a: GridPoint, b: GridPoint) -> bool
    requires { n ≡ common_normal p q a b }
    ensures { IsTrue result ↔ TurnsAcross p q a b }
{
    turns_left(n, b, a, q)
        && turns_left(n, a, b, p)
        && turns_left(n, p, q, b)
        && turns_left(n, q, p, a)
}

/// Whether two segments in one plane meet.
fn segments_meet_flat(p: GridPoint, q: GridPoint, a: GridPoint, b: GridPoint) -> bool
    requires { orient p q a b ≡ pos 0 }
    ensures { IsTrue result ↔ SegmentMeetsTriangle p q (segment a b) }
{
    let n = cross(from_to(p, q), from_to(a, b));
    if is_zero(n) {
        has_end_on(p, q, a, b)
    } else {
        crosses_flat(n, p, q, a, b)
    }
}

/// Whether some point of the closed segment from `p` to `q` lies on the closed segment from `a` to
/// `b`. The two ends of a segment may be one point. Source: the one affine dependence of four
/// points that span a plane; on a line, an end of one lies on the other.
pub fn segments_meet(p: GridPoint, q: GridPoint, a: GridPoint, b: GridPoint) -> bool
    ensures { IsTrue result ↔ SegmentMeetsTriangle p q (segment a b) }
{
    let first = GridTriangle { a: p, b: q, c: q };
    let second = GridTriangle { a, b, c: b };
    if boxes_apart(&first, &second) {
        false
    } else {
        coplanar(p, q, a, b) && segments_meet_flat(p, q, a, b)
    }
}

/// Whether the three points are not on a line.
pub fn spans_plane(a: GridPoint, b: GridPoint, c: GridPoint) -> bool
    ensures { IsTrue result ↔ SpansPlane (triangle_of a b c) }
{
    !is_zero(cross(from_to(a, b), from_to(a, c)))
}

/// Whether `p`, in the plane of the triangle, lies in it.
fn lies_about(n: Normal, f: &GridTriangle, p: GridPoint) -> bool
    requires { n ≡ normal (grid_triangle f.now) }
    ensures { IsTrue result ↔ TurnsAbout (grid_triangle f.now) p }
{
    turns_left(n, f.b, f.c, p) && turns_left(n, f.c, f.a, p) && turns_left(n, f.a, f.b, p)
}

/// Whether the triangle isn't on a line and holds `p`, which lies in its plane.
fn holds_flat(f: &GridTriangle, p: GridPoint) -> bool
    requires { side (grid_triangle f.now) p ≡ pos 0 }
    ensures { IsTrue result ↔ (¬ IsZeroVector (normal (grid_triangle f.now))
        × TurnsAbout (grid_triangle f.now) p) }
{
    let n = cross(from_to(f.a, f.b), from_to(f.a, f.c));
    !is_zero(n) && lies_about(n, f, p)
}

/// Whether the segment meets a side of the triangle.
fn meets_side(p: GridPoint, q: GridPoint, f: &GridTriangle) -> bool
    ensures { IsTrue result ↔ (SegmentMeetsTriangle p q (segment f.now.a f.now.b)
        ⊎ (SegmentMeetsTriangle p q (segment f.now.b f.now.c)
        ⊎ SegmentMeetsTriangle p q (segment f.now.c f.now.a))) }
{
    if segments_meet(p, q, f.a, f.b) {
        true
    } else {
        segments_meet(p, q, f.b, f.c) || segments_meet(p, q, f.c, f.a)
    }
}

/// Whether a segment meets a triangle in whose plane its first end lies.
fn meets_flat(p: GridPoint, q: GridPoint, f: &GridTriangle) -> bool
    requires { side (grid_triangle f.now) p ≡ pos 0 }
    ensures { IsTrue result ↔ SegmentMeetsTriangle p q (grid_triangle f.now) }
{
    holds_flat(f, p) || meets_side(p, q, f)
}

/// Whether `d` lies on the positive side of the plane through `a`, `b` and `c`, or on that plane.
#[inline]
fn has_above(a: GridPoint, b: GridPoint, c: GridPoint, d: GridPoint) -> bool
    ensures { IsTrue result ↔ pos 0 ≤ℤ orient a b c d }
{
    is_not_below(orient_sum(a, b, c, d))
}

/// Whether the leg from `q` up to `p` passes the triangle's sides on their inner side.
pub(crate) fn passes_within(p: GridPoint, q: GridPoint, f: &GridTriangle) -> bool
    ensures { IsTrue result ↔ PassesWithin p q (grid_triangle f.now) }
{
    has_above(f.b, f.c, q, p) && has_above(f.c, f.a, q, p) && has_above(f.a, f.b, q, p)
}

/// Whether the first number is at least 0 and the second at most 0.
#[inline]
fn falls(s: i128, t: i128) -> bool
    ensures { IsTrue result ↔ ((pos 0 ≤ℤ s) × (t ≤ℤ pos 0)) }
{
    s >= 0 && t <= 0
}

/// `leg_meets`, where `s` and `t` say on which sides of the triangle's plane the two ends lie.
fn meets_at(s: i128, t: i128, p: GridPoint, q: GridPoint, f: &GridTriangle) -> bool
    requires s_is { s ≡ side (grid_triangle f.now) p }
    requires t_is { t ≡ side (grid_triangle f.now) q }
    ensures { IsTrue result ↔ SegmentMeetsTriangle p q (grid_triangle f.now) }
{
    if falls(s, t) {
        if s == t {
            meets_flat(p, q, f)
        } else {
            passes_within(p, q, f)
        }
    } else if falls(t, s) {
        passes_within(q, p, f)
    } else {
        false
    }
}

/// `segment_meets_triangle`, for the triangle `f`.
fn leg_meets(p: GridPoint, q: GridPoint, f: &GridTriangle) -> bool
    ensures { IsTrue result ↔ SegmentMeetsTriangle p q (grid_triangle f.now) }
{
    let leg = GridTriangle { a: p, b: q, c: q };
    if boxes_apart(&leg, f) {
        false
    } else {
        meets_at(
            orient_sum(f.a, f.b, f.c, p),
            orient_sum(f.a, f.b, f.c, q),
            p,
            q,
            f,
        )
    }
}

/// Whether some point of the closed segment from `p` to `q` lies in the closed triangle `a b c`.
/// The two ends may be one point, and the triangle may lie on a line. Source: the one affine
/// dependence of five points that span space; in a plane, walking from the common point towards an
/// end either stays in the triangle or leaves it through a side.
pub fn segment_meets_triangle(
    p: GridPoint,
    q: GridPoint,
    a: GridPoint,
    b: GridPoint,
    c: GridPoint,
) -> bool
    ensures { IsTrue result ↔ SegmentMeetsTriangle p q (triangle_of a b c) }
{
    leg_meets(p, q, &GridTriangle { a, b, c })
}

/// Whether three numbers are all above 0 or all below.
#[inline]
fn has_one_sign(x: i128, y: i128, z: i128) -> bool
    ensures { IsTrue result → ((pos 0 <ℤ x) × (pos 0 <ℤ y) × (pos 0 <ℤ z))
        ⊎ ((x <ℤ pos 0) × (y <ℤ pos 0) × (z <ℤ pos 0)) }
{
    if x > 0 {
        y > 0 && z > 0
    } else {
        x < 0 && y < 0 && z < 0
    }
}

/// Whether the second triangle lies strictly on one side of the plane of the first.
fn lies_apart(f: &GridTriangle, g: &GridTriangle) -> bool
    ensures { IsTrue result → ¬ TrianglesMeet (grid_triangle f.now) (grid_triangle g.now) }
{
    has_one_sign(
        orient_sum(f.a, f.b, f.c, g.a),
        orient_sum(f.a, f.b, f.c, g.b),
        orient_sum(f.a, f.b, f.c, g.c),
    )
}

/// Whether the boxes of the two triangles are apart, or one lies strictly on one side of the
/// other's plane.
fn are_apart(f: &GridTriangle, g: &GridTriangle) -> bool
    ensures { IsTrue result → ¬ TrianglesMeet (grid_triangle f.now) (grid_triangle g.now) }
{
    if boxes_apart(f, g) {
        true
    } else if lies_apart(f, g) {
        true
    } else {
        lies_apart(g, f)
    }
}

/// Whether a side of the first triangle meets the second.
fn sides_meet(f: &GridTriangle, g: &GridTriangle) -> bool
    ensures { IsTrue result ↔ (SegmentMeetsTriangle f.now.a f.now.b (grid_triangle g.now)
        ⊎ (SegmentMeetsTriangle f.now.b f.now.c (grid_triangle g.now)
        ⊎ SegmentMeetsTriangle f.now.c f.now.a (grid_triangle g.now))) }
{
    if leg_meets(f.a, f.b, g) {
        true
    } else {
        leg_meets(f.b, f.c, g) || leg_meets(f.c, f.a, g)
    }
}

/// Whether some point lies in both closed triangles, `a b c` and `d e f`. Either may lie on a line.
/// Source: with two corners on both sides of the other triangle's plane, walking along the one
/// affine dependence of five of the points brings the first weight to 0.
pub fn triangles_meet(
    a: GridPoint,
    b: GridPoint,
    c: GridPoint,
    d: GridPoint,
    e: GridPoint,
    f: GridPoint,
) -> bool
    ensures { IsTrue result ↔ TrianglesMeet (triangle_of a b c) (triangle_of d e f) }
{
    let first = GridTriangle { a, b, c };
    let second = GridTriangle { a: d, b: e, c: f };
    if are_apart(&first, &second) {
        false
    } else {
        sides_meet(&first, &second) || sides_meet(&second, &first)
    }
}

//! Points in a frame so narrow that the sum of the sphere through four of them takes few bits.
ghost use Rattle.std.specs.Prelude.{◌≡◌, ◌*◌, ◌^◌, ◌<◌, ◌≤◌, ◌≤ℤ◌, pos, neg_ℤ, unsigned_abs, ℤ, IfSome, IfNone};
ghost use Rattle.sign_predicates.specs.Point.{Point, from_to};
ghost use Rattle.sign_predicates.specs.Sphere.{in_sphere, IsTieBySides};
ghost use Rattle.sign_predicates.specs.Vector.{IsShort};
ghost use Rattle.sign_predicates.specs.Lifted.{lift_rise, IsNarrow, IsStepsFrom, IsInFrame, IsSphereSign};
ghost use Rattle.sign_predicates.specs.Lifted.{volumes_of, IsOutsideInFrame};
ghost use Rattle.sign_predicates.specs.Volumes.{AreShortVolumes};

use crate::sign::{is_below, sign_of, vanishes};
use crate::sphere::{short_sum_of_four, wins_by_sides};
use crate::vector::{Vector, sum_of_squares};
use crate::volumes::{Volumes, short_volumes};
use crate::{GridPoint, Numbers, Sign};
use std::marker::Model;

/// A corner, and a step of one or more grid units. A frame has the points whose coordinates are 0
/// to 2^20 steps above those of its corner.
#[derive(Clone, Copy, Debug, PartialEq, Eq)]
pub struct Frame {
    pub corner: GridPoint,
    pub step: u32,
}

/// A point of a frame: how many steps each coordinate is above that of the frame's corner, from 0
/// to 2^20, and the height `x^2 + y^2 + z^2` to which it is lifted. Contracts see the steps.
///
/// Source: spheres as planes that cut a paraboloid (Brown 1979, Edelsbrunner and Seidel 1986).
#[derive(Clone, Copy, Debug)]
pub struct Lifted {
    x: i32,
    y: i32,
    z: i32,
    height: i64,
}

impl Model for Lifted {
    ghost use Rattle.sign_predicates.specs.Point.{Point};
    ghost use Rattle.sign_predicates.specs.Sphere.{square_length};
    ghost use Rattle.sign_predicates.specs.Lifted.{IsLifted};

    ghost Value = { Point };

    ghost view = { λ p. record { x = p.x; y = p.y; z = p.z } };

    ghost invariant = { λ p. IsLifted (record { x = p.x; y = p.y; z = p.z }) p.height };

    ghost inverse = { λ q. record { x = q.x; y = q.y; z = q.z; height = square_length q } };

    ghost inverse_ok = { λ p h. λ i. record { x = p.x; y = p.y; z = p.z; height = h.height_is i } };
}

/// How wide a frame is, in steps.
const WIDTH: u32 = 1 << 20;

/// How many steps `x` is above the corner. None where that is no whole number, or none from 0 to
/// 2^20.
fn steps_from(corner: i32, step: u32, x: i32) -> Option<i32>
    requires step { 0 < step }
    requires corner { unsigned_abs corner ≤ 2 ^ 29 }
    requires x { unsigned_abs x ≤ 2 ^ 29 }
    ensures there { IfSome result
        (λ q. IsStepsFrom corner (pos step) q x × (pos 0 ≤ℤ q) × (q ≤ℤ pos 1048576)) }
    ensures none { IfNone result
        ((q : ℤ) → pos 0 ≤ℤ q → q ≤ℤ pos 1048576 → IsStepsFrom corner (pos step) q x → ⊥) }
{
    if x < corner {
        return None;
    }
    let units = (x - corner).unsigned_abs();
    let steps = units / step;
    if steps > WIDTH || units % step != 0 {
        return None;
    }
    Some(steps as i32)
}

impl Lifted {
    /// The lifted point of these steps.
    fn new(x: i32, y: i32, z: i32) -> Lifted
        requires x { (pos 0 ≤ℤ x) × (x ≤ℤ pos 1048576) }
        requires y { (pos 0 ≤ℤ y) × (y ≤ℤ pos 1048576) }
        requires z { (pos 0 ≤ℤ z) × (z ≤ℤ pos 1048576) }
        ensures { result ≡ record { x = x; y = y; z = z } }
    {
        Lifted {
            x,
            y,
            z,
            height: sum_of_squares(x, y, z),
        }
    }
}

impl Frame {
    /// The point in the frame. None where it is not there.
    pub fn lift(&self, p: GridPoint) -> Option<Lifted>
        requires { 0 < self.now.step }
        ensures there { IfSome result (λ q. IsInFrame self.now q p) }
        ensures none { IfNone result ((q : Point) → IsNarrow q → IsInFrame self.now q p → ⊥) }
    {
        let x = steps_from(self.corner.x, self.step, p.x)?;
        let y = steps_from(self.corner.y, self.step, p.y)?;
        let z = steps_from(self.corner.z, self.step, p.z)?;
        Some(Lifted::new(x, y, z))
    }
}

/// The corners of a tetrahedron, lifted in one frame.
#[derive(Clone, Copy, Debug)]
pub struct LiftedCorners {
    pub a: Lifted,
    pub b: Lifted,
    pub c: Lifted,
    pub d: Lifted,
}

/// The vector from `a` to `b`.
#[inline(always)]
fn from_to(a: Lifted, b: Lifted) -> Vector
    ensures value { result ≡ from_to a b }
    ensures short { IsShort result }
{
    Vector {
        x: b.x - a.x,
        y: b.y - a.y,
        z: b.z - a.z,
    }
}

/// How much higher `b` is lifted than `a`.
#[inline(always)]
fn rise(a: Lifted, b: Lifted) -> i64
    ensures value { result ≡ lift_rise a b }
    ensures size { unsigned_abs result ≤ 3 * 2 ^ 60 }
{
    b.height - a.height
}

/// The volumes of `e` with each three of the corners.
#[inline(always)]
fn volumes_of(a: Lifted, b: Lifted, c: Lifted, d: Lifted, e: Lifted) -> Volumes
    ensures value { result ≡ volumes_of (record { a = a; b = b; c = c; d = d }) e }
    ensures short { AreShortVolumes result }
{
    short_volumes(from_to(e, a), from_to(e, b), from_to(e, c), from_to(e, d))
}

/// The sphere's sum, with the rises to the corners in place of their squared distances.
#[inline(always)]
fn in_sphere(a: Lifted, b: Lifted, c: Lifted, d: Lifted, e: Lifted, v: Volumes) -> i128
    requires value { v ≡ volumes_of (record { a = a; b = b; c = c; d = d }) e }
    requires short { AreShortVolumes v }
    ensures { result ≡ in_sphere (record { a = a; b = b; c = c; d = d }) e }
{
    short_sum_of_four(
        rise(e, a),
        v.a,
        rise(e, b),
        v.b,
        rise(e, c),
        v.c,
        rise(e, d),
        v.d,
    )
}

/// Whether a point on the sphere is outside, by its volumes with the corners. Those without the
/// second and the fourth corner are below 0 on that corner's side of the face opposite it.
#[inline(always)]
fn wins_by_volumes(v: Volumes, n: Numbers, m: u32) -> bool
    requires { AreShortVolumes v }
    ensures { IsTieBySides result v.a (neg_ℤ v.b) v.c (neg_ℤ v.d) n m }
{
    wins_by_sides(
        v.a as i128,
        -(v.b as i128),
        v.c as i128,
        -(v.d as i128),
        n,
        m,
    )
}

/// Where `e` lies to the sphere through the corners `a`, `b`, `c` and `d` of a positive
/// tetrahedron: below for outside, zero for on it. All five are of one frame. Only tests call it.
#[inline(always)]
pub fn in_lifted_sphere(a: Lifted, b: Lifted, c: Lifted, d: Lifted, e: Lifted) -> Sign
    ensures { IsSphereSign result (record { a = a; b = b; c = c; d = d }) e }
{
    sign_of(in_sphere(a, b, c, d, e, volumes_of(a, b, c, d, e)))
}

/// What `outside` says of the points that these are, all five of one frame. A tie takes no more
/// products: the volumes in the sphere's sum say on which side of each face the point is.
#[inline(always)]
pub fn lifted_outside(t: LiftedCorners, n: Numbers, p: Lifted, m: u32) -> bool
    ensures { IsOutsideInFrame result (record { a = t.a; b = t.b; c = t.c; d = t.d }) n p m }
{
    let LiftedCorners { a, b, c, d } = t;
    let v = volumes_of(a, b, c, d, p);
    let sum = in_sphere(a, b, c, d, p, v);
    if vanishes(sum) {
        return wins_by_volumes(v, n, m);
    }
    is_below(sum)
}

//! The determinants of each three of four vectors.
ghost use Rattle.std.specs.Prelude.{◌≡◌, ◌^◌};
ghost use Rattle.sign_predicates.specs.Vector.{IsShort};
ghost use Rattle.sign_predicates.specs.Volumes.{volumes, AreShortVolumes, wide_volumes, AreWideVolumes};
ghost use Rattle.sign_predicates.specs.Volumes.{AreMinors, AreMinorsWithin};

use crate::vector::{Vector, det_of_minors, minor, short_det_of_minors};

/// The minors of each two of four vectors.
#[derive(Clone, Copy)]
struct Minors {
    ab: i64,
    ac: i64,
    ad: i64,
    bc: i64,
    bd: i64,
    cd: i64,
}

#[inline(always)]
fn minors_of(a: Vector, b: Vector, c: Vector, d: Vector) -> Minors
    ensures value { AreMinors a b c d result }
    ensures size { AreMinorsWithin (2 ^ 61) result }
    ensures short { IsShort a → IsShort b → IsShort c → IsShort d
        → AreMinorsWithin (2 ^ 41) result }
{
    Minors {
        ab: minor(a, b),
        ac: minor(a, c),
        ad: minor(a, d),
        bc: minor(b, c),
        bd: minor(b, d),
        cd: minor(c, d),
    }
}

/// The determinants of each three of four short vectors, named after the vector that is left out:
/// six times the signed volumes of a point with each three of four corners.
#[derive(Clone, Copy)]
pub(crate) struct Volumes {
    pub(crate) a: i64,
    pub(crate) b: i64,
    pub(crate) c: i64,
    pub(crate) d: i64,
}

/// The determinants of each three of four short vectors. It has each minor once.
#[inline(always)]
pub(crate) fn short_volumes(a: Vector, b: Vector, c: Vector, d: Vector) -> Volumes
    requires a_short { IsShort a }
    requires b_short { IsShort b }
    requires c_short { IsShort c }
    requires d_short { IsShort d }
    ensures value { result ≡ volumes a b c d }
    ensures short { AreShortVolumes result }
{
    let m = minors_of(a, b, c, d);
    Volumes {
        a: short_det_of_minors(b, c, d, m.cd, m.bd, m.bc),
        b: short_det_of_minors(a, c, d, m.cd, m.ad, m.ac),
        c: short_det_of_minors(a, b, d, m.bd, m.ad, m.ab),
        d: short_det_of_minors(a, b, c, m.bc, m.ac, m.ab),
    }
}

/// The determinants of each three of any four vectors, in 128 bits, named so too.
#[derive(Clone, Copy)]
pub(crate) struct WideVolumes {
    pub(crate) a: i128,
    pub(crate) b: i128,
    pub(crate) c: i128,
    pub(crate) d: i128,
}

/// The determinants of each three of any four vectors. It has each minor once.
#[inline(always)]
pub(crate) fn wide_volumes(a: Vector, b: Vector, c: Vector, d: Vector) -> WideVolumes
    ensures value { result ≡ wide_volumes a b c d }
    ensures size { AreWideVolumes result }
{
    let m = minors_of(a, b, c, d);
    WideVolumes {
        a: det_of_minors(b, c, d, m.cd, m.bd, m.bc),
        b: det_of_minors(a, c, d, m.cd, m.ad, m.ac),
        c: det_of_minors(a, b, d, m.bd, m.ad, m.ab),
        d: det_of_minors(a, b, c, m.bc, m.ac, m.ab),
    }
}

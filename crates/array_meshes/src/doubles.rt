//! Points whose coordinates are binary floats, rounded to points with whole coordinates.

ghost use Rattle.std.specs.Prelude.{◌≡◌, ◌↔◌, ◌≤◌, map, drop, take, length, All, IfErr, IsSome, IsTrue, OnErr, OnOk};
ghost use Rattle.array_meshes.specs.Doubles.{IsDoubleFault, code_of, rounded_place};

use crate::arrays::Place;
use binary_floats::nearest_units;

/// A point whose coordinates are binary floats of 64 bits, by their bits, as three `double` of C
/// lie in memory.
#[repr(C)]
#[derive(Clone, Copy, Debug, PartialEq, Eq)]
pub struct DoublePoint {
    pub x: u64,
    pub y: u64,
    pub z: u64,
}

/// Why points are not rounded.
#[derive(Clone, Copy, Debug, PartialEq, Eq)]
pub enum DoubleFault {
    /// More than 22 decimals are asked for.
    TooFine,
    /// A rounded coordinate is over 2^29 in size, or a coordinate is infinite or no number.
    OffGrid,
    /// The array that is to take the points is shorter than theirs.
    NoRoom,
}

impl DoubleFault {
    /// The status with which a call ends: 5 for a limit, and 20 for want of room.
    pub fn code(&self) -> u8
        ensures { result ≡ code_of self.now }
    {
        match self {
            DoubleFault::TooFine => 5,
            DoubleFault::OffGrid => 5,
            DoubleFault::NoRoom => 20,
        }
    }
}

/// A point in units of 1 / 10^`decimals`.
fn rounded_place(decimals: u32, p: &DoublePoint) -> Option<Place>
    requires { decimals ≤ 22 }
    ensures { result ≡ rounded_place decimals p.now }
{
    Some(Place {
        x: nearest_units(536_870_912, decimals, p.x)?,
        y: nearest_units(536_870_912, decimals, p.y)?,
        z: nearest_units(536_870_912, decimals, p.z)?,
    })
}

/// Whether each point can be rounded.
fn are_near(decimals: u32, points: &[DoublePoint]) -> bool
    requires { decimals ≤ 22 }
    ensures { IsTrue result ↔ All (λ p. IsSome (rounded_place decimals p)) points.now }
{
    for point in points {
        if rounded_place(decimals, point).is_none() {
            return false;
        }
    }
    true
}

/// Writes the rounded points to the front of an array.
fn write_places(decimals: u32, points: &[DoublePoint], places: &mut [Place])
    requires decimals { decimals ≤ 22 }
    requires near { All (λ p. IsSome (rounded_place decimals p)) points.now }
    requires room { length points.now ≤ length places.old }
    ensures places { map Some (take (length points.now) places.new)
        ≡ map (rounded_place decimals) points.now }
    ensures behind { drop (length points.now) places.new ≡ drop (length points.now) places.old }
{
    for i in 0..points.len() {
        places[i] = match rounded_place(decimals, &points[i]) {
            Some(place) => place,
            None => unreachable!(),
        };
    }
}

/// Writes points whose coordinates are binary floats to the front of `places`, in units of
/// 1 / 10^`decimals`: each coordinate is rounded to a whole number from its exact value, halves
/// away from zero. What lies behind stays, and on a refusal all of `places`.
///
/// Refusals, in this order: `TooFine`, over 22 decimals; `NoRoom`, `places` is shorter than
/// `points`; `OffGrid`, a rounded coordinate over 2^29 in size, or a coordinate that is infinite or
/// no number.
pub fn places_into(
    points: &[DoublePoint],
    decimals: u32,
    places: &mut [Place],
) -> Result<(), DoubleFault>
    ensures places { OnOk result (map Some (take (length points.now) places.new)
        ≡ map (rounded_place decimals) points.now) }
    ensures within { OnOk result (length points.now ≤ length places.old) }
    ensures behind { OnOk result
        (drop (length points.now) places.new ≡ drop (length points.now) places.old) }
    ensures fault { IfErr result (IsDoubleFault decimals points.now (length places.old)) }
    ensures kept { OnErr result (places.new ≡ places.old) }
{
    if decimals > 22 {
        return Err(DoubleFault::TooFine);
    }
    if points.len() > places.len() {
        return Err(DoubleFault::NoRoom);
    }
    if !are_near(decimals, points) {
        return Err(DoubleFault::OffGrid);
    }
    write_places(decimals, points, places);
    Ok(())
}

//! Points whose coordinates are floats, rounded, for C.

ghost use Rattle.std.specs.Prelude.{◌≡◌, ◌≤◌, map, pos, drop, length, take};
ghost use Rattle.array_meshes.specs.Doubles.{rounded_place};
ghost use Rattle.tetgen_c.specs.Statuses.{IsUnrounded};

use array_meshes::{DoublePoint, Place, places_into};

/// Writes points whose coordinates are floats to the front of `places`, each coordinate rounded to
/// units of 1 / 10^`decimals`, and answers 0; what lies behind stays. On any other status `places`
/// stays: 5, over 22 decimals, or a rounded coordinate over 2^29 in size, or one that is infinite
/// or no number; 20, `places` is shorter than `points`.
#[unsafe(no_mangle)]
pub extern "C" fn tetgen_places_of(
    points: &[DoublePoint],
    decimals: u32,
    places: &mut [Place],
) -> i32
    ensures places { result ≡ pos 0 → map Some (take (length points.now) places.new)
        ≡ map (rounded_place decimals) points.now }
    ensures within { result ≡ pos 0 → length points.now ≤ length places.old }
    ensures behind { result ≡ pos 0
        → drop (length points.now) places.new ≡ drop (length points.now) places.old }
    ensures refused { ¬ result ≡ pos 0
        → IsUnrounded decimals points.now (length places.old) result }
    ensures kept { ¬ result ≡ pos 0 → places.new ≡ places.old }
{
    match places_into(points, decimals, places) {
        Ok(()) => 0,
        Err(fault) => i32::from(fault.code()),
    }
}

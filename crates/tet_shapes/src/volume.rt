//! Bounds on volumes, in the units of a grid.

ghost use Rattle.std.specs.Prelude.{◌≡◌, ◌+◌, ◌*◌, ◌^◌, ◌/◌, ◌≤◌, ◌<◌, min, unsigned_abs};
ghost use Rattle.tet_shapes.specs.Volume.{IsMixed, IsMixedOrGreat, most_volume};

use grid_coords::Grid;
use tet_text::Decimal;

/// 2^100, above six times the volume of each tetrahedron on a grid.
const GREATEST: u128 = 1 << 100;

/// The number `whole + rest / under`, for a known `under`.
#[derive(Clone, Copy)]
struct Mixed {
    whole: u128,
    rest: u128,
}

/// The number times `base`.
fn times(m: Mixed, under: u128, base: u32) -> Mixed
    requires whole { m.whole < 2 ^ 100 }
    requires rest { m.rest < under }
    requires under { under ≤ 10 ^ 36 }
    requires base { base ≤ 10 }
    ensures { IsMixed under ((m.whole * under + m.rest) * base) result }
{
    let base = u128::from(base);
    let rest = m.rest * base;
    Mixed {
        whole: m.whole * base + rest / under,
        rest: rest % under,
    }
}

/// The number times `base`^`steps`, or None where that is 2^100 or more.
fn raised(m: Mixed, under: u128, base: u32, steps: u64) -> Option<Mixed>
    requires rest { m.rest < under }
    requires under { under ≤ 10 ^ 36 }
    requires base_small { base ≤ 10 }
    requires base_some { 2 ≤ base }
    ensures { IsMixedOrGreat under ((m.whole * under + m.rest) * base ^ steps) result }
{
    let mut product = m;
    for _ in 0..steps {
        if product.whole >= GREATEST {
            return None;
        }
        product = times(product, under, base);
    }
    Some(product)
}

/// A power of ten.
fn power_of_ten(exponent: u64) -> u128
    requires { exponent ≤ 36 }
    ensures value { result ≡ 10 ^ exponent }
    ensures some { 0 < result }
    ensures small { result ≤ 10 ^ 36 }
{
    10_u128.pow(exponent as u32)
}

/// The number / `under`.
fn mixed_of(number: u128, under: u128) -> Mixed
    requires { 0 < under }
    ensures { IsMixed under number result }
{
    Mixed {
        whole: number / under,
        rest: number % under,
    }
}

/// The whole part of the number times 2^`twos`, and at most 2^100.
fn doubled_whole(m: Mixed, under: u128, twos: u64) -> u128
    requires rest { m.rest < under }
    requires under { under ≤ 10 ^ 36 }
    ensures value { result ≡ min (2 ^ 100)
        ((m.whole * under + m.rest) * 2 ^ twos / under) }
    ensures small { result ≤ 2 ^ 100 }
{
    match raised(m, under, 2, twos) {
        None => GREATEST,
        Some(m) => m.whole.min(GREATEST),
    }
}

/// The whole part of the number times 10^`tens` and 2^`twos`, and at most 2^100.
fn whole_of(m: Mixed, under: u128, tens: u64, twos: u64) -> u128
    requires rest { m.rest < under }
    requires under { under ≤ 10 ^ 36 }
    ensures value { result ≡ min (2 ^ 100)
        ((m.whole * under + m.rest) * 10 ^ tens * 2 ^ twos / under) }
    ensures small { result ≤ 2 ^ 100 }
{
    match raised(m, under, 10, tens) {
        None => GREATEST,
        Some(m) => doubled_whole(m, under, twos),
    }
}

/// The size of the numerator of a decimal.
fn size_of(volume: &Decimal) -> u128
    ensures value { result ≡ unsigned_abs volume.now.value }
    ensures small { result < 10 ^ 36 }
{
    volume.value.unsigned_abs()
}

/// The decimals of a decimal.
fn scale_of(volume: &Decimal) -> u64
    ensures { result ≡ volume.now.scale }
{
    u64::from(volume.scale)
}

/// The bound on six times the volume of a tetrahedron, in cubes of grid units: six times the volume
/// in cubes of the model's unit, rounded down, and at most 2^100.
pub(crate) fn most_volume(grid: Grid, volume: &Decimal) -> u128
    requires { volume.now.scale ≤ 36 }
    ensures value { result ≡ most_volume grid volume.now }
    ensures small { result ≤ 2 ^ 100 }
{
    let scale = scale_of(volume);
    let decimals = 3 * u64::from(grid.decimals);
    let under = power_of_ten(scale.saturating_sub(decimals));
    let six = mixed_of(6 * size_of(volume), under);
    let twos = 3 * u64::from(grid.halvings);
    whole_of(six, under, decimals.saturating_sub(scale), twos)
}

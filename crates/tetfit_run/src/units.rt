//! Coordinates that are rounded to multiples of a unit.

ghost use Rattle.std.specs.Prelude.{◌≡◌, ◌≤◌, ◌<◌, ◌^◌, map, IfOk, IfSome};
ghost use Rattle.command_words.specs.Meaning.{IsUnit};
ghost use Rattle.tet_text.specs.Decimals.{signed};
ghost use Rattle.tetfit_run.specs.Units.{multiple_near, nearest_multiple, point_by, size_by};

use grid_coords::{DecimalPoint, DecimalPoints};
use std::alloc::Global;
use tet_ports::NoMemory;
use tet_text::{Decimal, without_trailing_zeros};

/// 10^36
const LIMIT: u128 = 1_000_000_000_000_000_000_000_000_000_000_000_000;

/// The multiple of `step` that is nearest to `over` / `under`, and the greater of two.
fn nearest_multiple(step: u32, over: u128, under: u128) -> u128
    requires step { (2 ≤ step) × (step ≤ 999) }
    requires over { over < 10 ^ 36 }
    requires under { (1 ≤ under) × (under ≤ 10 ^ 35) }
    ensures { result ≡ nearest_multiple step over under }
{
    let step = u128::from(step);
    (2 * over + step * under) / (2 * step * under) * step
}

/// As `nearest_multiple`, to `over` / 10^`lower`.
fn nearest_below(step: u32, over: u128, lower: u32) -> u128
    requires step { (2 ≤ step) × (step ≤ 999) }
    requires over { over < 10 ^ 36 }
    ensures { result ≡ nearest_multiple step over (10 ^ lower) }
{
    if lower > 35 {
        return 0;
    }
    nearest_multiple(step, over, 10u128.pow(lower))
}

/// The multiple of `step` that is nearest to `number` × 10^`raise` / 10^`lower`, where the numbers
/// have at most 36 digits.
fn size_by(step: u32, number: u128, raise: u32, lower: u32) -> Option<u128>
    requires step { (2 ≤ step) × (step ≤ 999) }
    requires raise { raise ≤ 20 }
    ensures value { result ≡ size_by step number raise lower }
    ensures small { IfSome result (λ n. n < 10 ^ 36) }
{
    let over = number.checked_mul(10u128.pow(raise))?;
    if over >= LIMIT {
        return None;
    }
    let size = nearest_below(step, over, lower);
    if size < LIMIT { Some(size) } else { None }
}

fn signed(negative: bool, size: u128) -> i128
    requires { size < 10 ^ 36 }
    ensures { result ≡ signed negative size }
{
    let size = size as i128;
    if negative { -size } else { size }
}

/// The number rounded to a multiple of the unit, halves away from zero; one that has over 36 digits
/// in its decimals stays.
#[tactic(auto, using(tet_text::proofs::Scaling::lowest_is_decimal, tet_text::proofs::Scaling::signed_is_decimal), unfolding(crate::specs::Units::multiple_near))]
fn multiple_near(unit: Decimal, d: &Decimal) -> Decimal
    requires { IsUnit unit }
    ensures { result ≡ multiple_near unit d.now }
{
    let step = unit.value.unsigned_abs() as u32;
    let raise = unit.scale.saturating_sub(d.scale);
    let lower = d.scale.saturating_sub(unit.scale);
    match size_by(step, d.value.unsigned_abs(), raise, lower) {
        None => *d,
        Some(size) => {
            let (size, scale) = without_trailing_zeros(size, unit.scale);
            let value = signed(d.value < 0, size);
            Decimal { value, scale }
        }
    }
}

/// The point with each coordinate rounded to a multiple of the unit.
fn point_by(unit: Decimal, p: &DecimalPoint) -> DecimalPoint
    requires { IsUnit unit }
    ensures { result ≡ point_by unit p.now }
{
    DecimalPoint {
        x: multiple_near(unit, &p.x),
        y: multiple_near(unit, &p.y),
        z: multiple_near(unit, &p.z),
        line: p.line,
    }
}

/// The points, each rounded to multiples of the unit.
pub(crate) fn each_by(
    alloc: Global,
    unit: Decimal,
    points: &[DecimalPoint],
) -> Result<DecimalPoints, NoMemory>
    requires { IsUnit unit }
    ensures { IfOk result (λ list. list ≡ map (point_by unit) points.now) }
{
    let mut list = DecimalPoints::with_capacity(alloc, points.len())?;
    for p in points {
        list.push(point_by(unit, p))?;
    }
    Ok(list)
}

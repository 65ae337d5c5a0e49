//! Queries rounded to millionths of a grid unit.

ghost use Rattle.std.specs.Prelude.{◌≡◌, ◌≤◌, ◌<◌, ◌*◌, ◌/◌, ◌^◌, unsigned_abs};
ghost use Rattle.grid_coords.specs.Rounding.{nearest_whole};
ghost use Rattle.grid_coords.specs.Units.{limit, if_at_most};
ghost use Rattle.tetwhere_run.specs.Nearest.{millionths, nearest_coordinate, nearest_point};

use grid_coords::{DecimalPoint, Grid, units_within};
use sign_predicates::RatPoint;
use tet_text::Decimal;

/// The greatest size of a coordinate, 2^29 grid units, in millionths of one.
const MOST: u64 = 536_870_912_000_000;

/// The size that a greater one becomes: 2^29 + 1 grid units, in millionths of one.
const BEYOND: u64 = 536_870_913_000_000;

/// 10^18: of a number below 10^36 less is left where 18 digits are cut off.
const TEN_TO_18: u128 = 1_000_000_000_000_000_000;

/// The whole part of `number` * 2^`doublings` / 10^`tens`. The digits that are cut off are doubled
/// apart from the others, so that each product fits 128 bits.
fn whole_part(number: u128, doublings: u32, tens: u32) -> u128
    requires doublings { doublings ≤ 65 }
    requires tens { tens ≤ 18 }
    requires whole { number / 10 ^ tens ≤ 10 ^ 18 }
    ensures value { result ≡ number * 2 ^ doublings / 10 ^ tens }
    ensures small { result < 10 ^ 38 }
{
    let unit = 10u128.pow(tens);
    let factor = 2u128.pow(doublings);
    number / unit * factor + number % unit * factor / unit
}

/// The whole part of `number` / 10^`tens`.
fn over_tens(number: u128, tens: u32) -> u128
    requires { number < 10 ^ 38 }
    ensures value { result ≡ number / 10 ^ tens }
    ensures small { result < 10 ^ 38 }
{
    if tens > 38 {
        return 0;
    }
    number / 10u128.pow(tens)
}

/// The whole number nearest to x, `number` * 2^`halvings` / 10^`tens`, halves up; None where it is
/// over 2^29 * 10^6. It is half of one more than the whole part of 2x.
fn nearest_within(number: u128, halvings: u32, tens: u32) -> Option<u64>
    requires number { number < 10 ^ 36 }
    requires halvings { halvings ≤ 64 }
    ensures { result ≡ if_at_most (limit * 1000000) (nearest_whole (number * 2 ^ halvings) tens) }
{
    let cut = tens.min(18);
    if number / 10u128.pow(cut) > TEN_TO_18 {
        return None;
    }
    let twice = over_tens(whole_part(number, halvings + 1, cut), tens - cut);
    let size = (twice + 1) / 2;
    if size > u128::from(MOST) {
        return None;
    }
    Some(size as u64)
}

/// The size of the number in millionths of a grid unit, or None where it is over 2^29 units.
fn millionths_within(grid: &Grid, d: &Decimal) -> Option<u64>
    requires { grid.now.halvings ≤ 64 }
    ensures { result ≡ if_at_most (limit * 1000000) (millionths grid.now d.now) }
{
    let decimals = u64::from(grid.decimals) + 6;
    let scale = u64::from(d.scale);
    if scale <= decimals {
        return units_within(d, decimals, grid.halvings, MOST);
    }
    nearest_within(
        d.value.unsigned_abs(),
        grid.halvings,
        (scale - decimals) as u32,
    )
}

fn nearest_coordinate(grid: &Grid, d: &Decimal) -> i64
    requires { grid.now.halvings ≤ 64 }
    ensures value { result ≡ nearest_coordinate grid.now d.now }
    ensures size { unsigned_abs result ≤ 536870913000000 }
{
    let size = millionths_within(grid, d).unwrap_or(BEYOND) as i64;
    if d.value < 0 { -size } else { size }
}

/// The point over the denominator 10^6 of grid units. Each coordinate is rounded to the nearest
/// millionth of a unit, halves away from zero, so that a point with whole coordinates on the grid
/// stays as it is; one that is then over 2^29 units in size becomes 2^29 + 1 units with its sign.
pub(crate) fn nearest_rat(grid: &Grid, p: &DecimalPoint) -> RatPoint
    requires { grid.now.halvings ≤ 64 }
    ensures { result ≡ nearest_point grid.now p.now }
{
    RatPoint {
        x: nearest_coordinate(grid, &p.x),
        y: nearest_coordinate(grid, &p.y),
        z: nearest_coordinate(grid, &p.z),
        w: 1_000_000,
    }
}

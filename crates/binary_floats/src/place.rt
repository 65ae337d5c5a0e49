//! The decimal with the fewest digits behind the point.

ghost use Rattle.std.specs.Prelude.{◌≡◌, ◌-◌, ◌<◌, ◌≤◌, ◌+◌, ◌*◌, ◌^◌, ◌==◌, ◌%◌, nat_lt, IfSome, None, if◌then◌else◌};
ghost use Rattle.binary_floats.specs.Nearest.{first_reached, is_reached, nearest};
ghost use Rattle.binary_floats.specs.Shortest.{shortest};
ghost use Rattle.binary_floats.specs.Place.{IsDecimalPlace, IsNextPlace};

use crate::steps::Steps;

/// A float times a power of ten: `whole` + `rest` / `unit`, where a quarter of its step is now
/// `quarter` / `unit`.
#[derive(Clone, Copy)]
pub(crate) struct Place {
    pub(crate) whole: u128,
    pub(crate) rest: u128,
    pub(crate) unit: u128,
    pub(crate) quarter: u128,
}

fn is_reached(closed: bool, a: u128, b: u128) -> bool
    ensures { result ≡ is_reached closed a b }
{
    if closed { a <= b } else { a < b }
}

fn first_of(b: bool, m: u128, c: bool, n: u128) -> Option<u128>
    ensures { result ≡ first_reached b m c n }
{
    if b {
        Some(m)
    } else if c {
        Some(n)
    } else {
        None
    }
}

/// Whether the whole number below is the nearer one, or as near and even.
fn is_lower_nearer(place: &Place) -> bool
    requires { place.now.rest < 2 ^ 120 }
    ensures { result ≡ (if 2 * place.now.rest == place.now.unit then place.now.whole % 2 == 0
        else nat_lt (2 * place.now.rest) place.now.unit) }
{
    let twice = 2 * place.rest;
    if twice == place.unit {
        place.whole % 2 == 0
    } else {
        twice < place.unit
    }
}

/// The nearest whole number that reads back.
#[tactic(auto, using(crate::proofs::Places::none_near, crate::proofs::Places::near_fits))]
fn nearest(place: &Place, below: u32, closed: bool) -> Option<u128>
    requires rest { place.now.rest < 2 ^ 120 }
    requires quarter { place.now.quarter ≤ 2 ^ 121 }
    requires whole { place.now.whole ≤ 2 ^ 100 }
    requires below { (1 ≤ below) × (below ≤ 2) }
    ensures value { result ≡ nearest place.now.whole place.now.rest place.now.unit
        place.now.quarter below closed }
    ensures bound { IfSome result (λ n. n ≤ 2 ^ 100 + 1) }
    ensures none { result ≡ None → 3 * place.now.quarter ≤ place.now.unit }
{
    let is_lower = is_reached(closed, place.rest, u128::from(below) * place.quarter);
    let is_upper = is_reached(closed, place.unit, place.rest + 2 * place.quarter);
    if is_lower_nearer(place) {
        first_of(is_lower, place.whole, is_upper, place.whole + 1)
    } else {
        first_of(is_upper, place.whole + 1, is_lower, place.whole)
    }
}

/// The place before any digit that matters: a float has no decimal with fewer places.
fn start(steps: &Steps, first: u32) -> Place
    requires count { steps.now.count < 2 ^ 24 }
    requires halvings { steps.now.halvings ≤ 149 }
    requires first { first ≡ steps.now.halvings - 118 }
    ensures { IsDecimalPlace steps.now first result }
{
    let unit = 2_u128.pow(steps.halvings + 2 - first);
    let quarter = 5_u128.pow(first);
    let number = 4 * u128::from(steps.count) * quarter;
    Place {
        whole: number / unit,
        rest: number % unit,
        unit,
        quarter,
    }
}

/// The place behind this one.
fn advance(place: &Place) -> Place
    requires rest { place.now.rest < 2 ^ 120 }
    requires unit { 2 ≤ place.now.unit }
    requires quarter { place.now.quarter ≤ 2 ^ 121 }
    requires whole { place.now.whole ≤ 2 ^ 100 }
    ensures { IsNextPlace place.now result }
{
    let unit = place.unit / 2;
    let rest = place.rest * 5;
    Place {
        whole: place.whole * 10 + rest / unit,
        rest: rest % unit,
        unit,
        quarter: place.quarter * 5,
    }
}

/// The decimal of the steps: a whole number, and how many of its digits stand behind the point.
pub(crate) fn shortest(steps: &Steps) -> Option<(u128, u32)>
    requires count { (0 < steps.now.count) × (steps.now.count < 2 ^ 24) }
    requires halvings { steps.now.halvings ≤ 149 }
    requires below { (1 ≤ steps.now.below) × (steps.now.below ≤ 2) }
    ensures value { result ≡ shortest steps.now }
    ensures bound { IfSome result (λ d. d.0 ≤ 2 ^ 100 + 1) }
{
    let first = steps.halvings.saturating_sub(118);
    let closed = steps.count % 2 == 0;
    let mut place = start(steps, first);
    for places in first..steps.halvings + 1 {
        if let Some(number) = nearest(&place, steps.below, closed) {
            return Some((number, places));
        }
        place = advance(&place);
    }
    None
}

//! Reads what words ask of tetrahedra: bounds on their volume and on their shape.

ghost use Rattle.std.specs.Prelude.{◌≡◌, ◌≤◌, ◌<◌, ◌^◌, length, true, None, IfSome, IsTrue, position, unsigned_abs};
ghost use Rattle.std.specs.List.{list_any};
ghost use Rattle.refining.specs.Goals.{IsFineGoal, IsFineShape};
ghost use Rattle.tet_shapes.specs.Shape.{IsFine};
ghost use Rattle.tet_text.specs.Decimals.{Scaled};
ghost use Rattle.tetfit_run.specs.Words.{angle_of, asks_limits, degrees_behind, first_bounding, fit_goal};
ghost use Rattle.tetfit_run.specs.Words.{fit_shape, fit_volume, goal_fault, if_ratio_bound, is_bad_bound};
ghost use Rattle.tetfit_run.specs.Words.{is_bad_volume, is_bound, is_bounding, is_ratio_bound, is_slash};
ghost use Rattle.tetfit_run.specs.Words.{keeps_boundary, ratio_behind, shape_around, shape_in, shape_of, volume_in};

use crate::request::{asks_limits, is_bounding, is_shape, is_volume, keeps_boundary};
use refining::{Goal, Shape};
use tet_ports::Words;
use tet_shapes::Ratio;
use tet_text::{Decimal, decimal_in, read_digits};

/// Whether the number is above 0 and has at most 36 decimals.
fn is_bound(number: &Decimal) -> bool
    ensures { result ≡ is_bound number.now }
{
    number.value > 0 && number.scale <= 36
}

/// The volume that the word gives.
fn volume_in(word: &[u8]) -> Option<Decimal>
    ensures value { result ≡ volume_in word.now }
    ensures fine { IfSome result (λ (v : Scaled). v.scale ≤ 36) }
{
    if !is_volume(word) {
        return None;
    }
    let number = decimal_in(&word[2..])?;
    if is_bound(&number) {
        Some(number)
    } else {
        None
    }
}

/// The power of ten with at most four zeros.
fn unit_of(scale: u32) -> u32
    requires { scale ≤ 4 }
    ensures value { result ≡ 10 ^ scale }
    ensures small { result ≤ 10 ^ 4 }
{
    10_u32.pow(scale)
}

/// The size of the numerator of a decimal.
fn size_of(number: &Decimal) -> u128
    ensures value { result ≡ unsigned_abs number.now.value }
    ensures small { result < 10 ^ 36 }
{
    number.value.unsigned_abs()
}

/// Whether the number is from 1 to 100 and has at most 4 decimals.
fn is_ratio_bound(number: &Decimal) -> bool
    ensures value { result ≡ is_ratio_bound number.now }
    ensures short { IsTrue result → number.now.scale ≤ 4 }
    ensures small { IsTrue result → unsigned_abs number.now.value ≤ 10 ^ 6 }
{
    if number.scale > 4 || number.value <= 0 {
        return false;
    }
    let unit = u128::from(unit_of(number.scale));
    let size = size_of(number);
    unit <= size && size <= 100 * unit
}

/// The number as a ratio, where it is one that may be given.
#[tactic(auto, unfolding(crate::specs::Words::if_ratio_bound))]
fn if_ratio_bound(number: &Decimal) -> Option<Ratio>
    ensures value { result ≡ if_ratio_bound number.now }
    ensures fine { IfSome result IsFine }
{
    if !is_ratio_bound(number) {
        return None;
    }
    Some(Ratio {
        over: size_of(number) as u32,
        under: unit_of(number.scale),
    })
}

/// The ratio that this text behind `-q` gives.
fn ratio_behind(text: &[u8]) -> Option<Ratio>
    ensures value { result ≡ ratio_behind text.now }
    ensures fine { IfSome result IsFine }
{
    if text.is_empty() {
        return Some(Ratio { over: 2, under: 1 });
    }
    let number = decimal_in(text)?;
    if_ratio_bound(&number)
}

/// The degrees that this text behind a slash gives.
fn degrees_behind(text: &[u8]) -> Option<u32>
    ensures value { result ≡ degrees_behind text.now }
    ensures small { IfSome result (λ degrees. degrees ≤ 30) }
{
    let degrees = read_digits(text, 2)?;
    if degrees <= 30 {
        Some(degrees as u32)
    } else {
        None
    }
}

/// The least angle of so many degrees; an angle of 0 degrees is none.
fn angle_of(degrees: u32) -> Option<u32>
    requires { degrees ≤ 30 }
    ensures value { result ≡ angle_of degrees }
    ensures small { IfSome result (λ n. n ≤ 30) }
{
    if degrees == 0 { None } else { Some(degrees) }
}

/// The place of the first slash of a text.
fn slash_in(text: &[u8]) -> Option<usize>
    ensures value { result ≡ position is_slash text.now }
    ensures bound { IfSome result (λ i. i < length text.now) }
{
    text.iter().position(|byte| *byte == b'/')
}

/// The shape of a ratio and of so many degrees, where both are there.
fn shape_of(ratio: Option<Ratio>, degrees: Option<u32>) -> Option<Shape>
    requires ratio { IfSome ratio IsFine }
    requires degrees { IfSome degrees (λ n. n ≤ 30) }
    ensures value { result ≡ shape_of ratio degrees }
    ensures fine { IfSome result IsFineShape }
{
    match (ratio, degrees) {
        (Some(ratio), Some(degrees)) => Some(Shape {
            ratio,
            angle: angle_of(degrees),
        }),
        _ => None,
    }
}

/// The angle that is aimed at where none is given, in degrees.
const PLAIN_ANGLE: u32 = 20;

/// The shape that this text behind `-q` gives.
#[tactic(auto, unfolding(crate::specs::Words::shape_around))]
fn shape_behind(text: &[u8]) -> Option<Shape>
    ensures value { result ≡ shape_around text.now (position is_slash text.now) }
    ensures fine { IfSome result IsFineShape }
{
    match slash_in(text) {
        None => shape_of(ratio_behind(text), Some(PLAIN_ANGLE)),
        Some(i) => shape_of(ratio_behind(&text[..i]), degrees_behind(&text[i + 1..])),
    }
}

/// The shape that the word gives.
fn shape_in(word: &[u8]) -> Option<Shape>
    ensures value { result ≡ shape_in word.now }
    ensures fine { IfSome result IsFineShape }
{
    if is_shape(word) {
        shape_behind(&word[2..])
    } else {
        None
    }
}

/// Whether the word gives a volume in a form that is none.
fn is_bad_volume(word: &[u8]) -> bool
    ensures { result ≡ is_bad_volume word.now }
{
    is_volume(word) && !asks_limits(word) && volume_in(word).is_none()
}

/// Whether the word bounds volumes or shapes, and gives no bound.
pub(crate) fn is_bad_bound(word: &[u8]) -> bool
    ensures { result ≡ is_bad_bound word.now }
{
    is_bad_volume(word) || is_shape(word) && shape_in(word).is_none()
}

/// The last volume that a word gives.
fn fit_volume(words: &Words) -> Option<Decimal>
    ensures value { result ≡ fit_volume words.now }
    ensures fine { IfSome result (λ (v : Scaled). v.scale ≤ 36) }
{
    let mut last = None;
    for word in words.as_slice() {
        last = volume_in(word.as_slice()).or(last);
    }
    last
}

/// The last shape that a word gives.
fn fit_shape(words: &Words) -> Option<Shape>
    ensures value { result ≡ fit_shape words.now }
    ensures fine { IfSome result IsFineShape }
{
    let mut last = None;
    for word in words.as_slice() {
        last = shape_in(word.as_slice()).or(last);
    }
    last
}

/// Whether a word asks that no points be added on segments and in facets.
fn keeps_boundaries(words: &Words) -> bool
    ensures { result ≡ list_any keeps_boundary words.now }
{
    words
        .as_slice()
        .iter()
        .any(|word| keeps_boundary(word.as_slice()))
}

/// Whether a word asks for the volume limits of regions.
pub(crate) fn asks_region_limits(words: &Words) -> bool
    ensures { result ≡ list_any asks_limits words.now }
{
    words
        .as_slice()
        .iter()
        .any(|word| asks_limits(word.as_slice()))
}

/// What the tetrahedra are to be like, where a word bounds volumes or shapes.
pub(crate) fn fit_goal(words: &Words) -> Option<Goal>
    ensures value { result ≡ fit_goal words.now }
    ensures fine { IfSome result IsFineGoal }
{
    let volume = fit_volume(words);
    let shape = fit_shape(words);
    let bounds_volumes = volume.is_some() || asks_region_limits(words);
    if bounds_volumes || shape.is_some() {
        Some(Goal {
            bounds_volumes,
            volume,
            shape,
            splits_boundary: !keeps_boundaries(words),
        })
    } else {
        None
    }
}

/// The first word that bounds volumes or shapes, by its place from 0.
fn bounding_place(words: &Words) -> Option<usize>
    ensures value { result ≡ position is_bounding words.now }
    ensures there { IfSome result (λ i. i < 2 ^ 63) }
{
    words
        .as_slice()
        .iter()
        .position(|word| is_bounding(word.as_slice()))
}

/// The first word that bounds volumes or shapes, counted from 1; 1 where there is none.
fn first_bounding(words: &Words) -> usize
    ensures { result ≡ first_bounding words.now }
{
    match bounding_place(words) {
        Some(i) => i + 1,
        None => 1,
    }
}

/// The first `-Y`, by its place from 0.
fn boundary_place(words: &Words) -> Option<usize>
    ensures value { result ≡ position keeps_boundary words.now }
    ensures there { IfSome result (λ i. i < 2 ^ 63) }
{
    words
        .as_slice()
        .iter()
        .position(|word| keeps_boundary(word.as_slice()))
}

/// The word and the place in it, both from 1, that do not go with the others: the first bound for a
/// model without facets, and the first `-Y` where there is no bound.
#[tactic(auto, unfolding(crate::specs::Words::goal_fault))]
pub(crate) fn goal_fault(
    words: &Words,
    goal: &Option<Goal>,
    piecewise: bool,
) -> Option<(usize, usize)>
    requires { goal.now ≡ fit_goal words.now }
    ensures value { result ≡ goal_fault words.now piecewise }
    ensures complex { result ≡ None → IfSome goal.now (λ goal. piecewise ≡ true) }
{
    if goal.is_none() {
        let i = boundary_place(words)?;
        return Some((i + 1, 2));
    }
    if piecewise {
        None
    } else {
        Some((first_bounding(words), 3))
    }
}

//! The first pair that is not properly met, by an AABB tree.
ghost use Rattle.std.specs.Prelude.{ℕ, ◌<◌, ◌↔◌, IsTrue, length, All, IfOk, MatchOption};
ghost use Rattle.simplex_meets.specs.Parts.{IsPart};
ghost use Rattle.simplex_meets.specs.Boxes.{HasPartBoxes, IsPartTree};
ghost use Rattle.simplex_meets.specs.Pairs.{AreMarkedMet, ArePairwiseMet, IsFirstPair, IsFirstAmong};
ghost use Rattle.simplex_meets.specs.Pairs.{IsUnmetFound, IsUpTo, IsNoLater, IsPairSettled};
ghost use Rattle.simplex_meets.specs.Pairs.{IsUnmetPair, IsPairUpTo, IsPairNoLater};
ghost use Rattle.simplex_meets.specs.Pairs.{IsSettled, IsSettledBeside, AreSettledBeside};

use crate::bounding::{is_marked, part_bounds, part_tree, unmarked_end};
use crate::complex_parts::{Compared, Part, are_met};
use box_tree::{Tree, next_meeting};
use geo_laws::Points;
use std::alloc::Global;
use tet_ports::NoMemory;

/// Whether a place was found that is at most `j`.
fn is_up_to(found: Option<usize>, j: usize) -> bool
    ensures { IsTrue result ↔ IsUpTo found j }
{
    match found {
        Some(k) => k <= j,
        None => false,
    }
}

/// The least place found so far, once the part at `j` is tested with the one at `i`. It is tested
/// only where `j` is after `i` and before the place found.
fn settle(
    points: &Points,
    compared: Compared,
    parts: &[Part],
    i: usize,
    j: usize,
    found: Option<usize>,
) -> Option<usize>
    requires parts { All (IsPart points.now) parts.now }
    requires there { (i < length parts.now) × (j < length parts.now) }
    requires found { IsUnmetFound compared points.now parts.now i found }
    ensures found { IsUnmetFound compared points.now parts.now i result }
    ensures no_later { IsNoLater found result }
    ensures settled { IsPairSettled compared points.now parts.now i result j }
{
    if j <= i || is_up_to(found, j) {
        return found;
    }
    if are_met(points, compared, parts[i], parts[j]) {
        return found;
    }
    Some(j)
}

/// The place of the first part after the one at `i`, of those in the tree, that is not properly met
/// with it. Only parts whose boxes overlap its box are tested.
fn first_among(
    points: &Points,
    compared: Compared,
    parts: &[Part],
    tree: &Tree,
    i: usize,
) -> Option<usize>
    requires parts { All (IsPart points.now) parts.now }
    requires tree { HasPartBoxes points.now parts.now tree.now }
    requires there { i < length parts.now }
    ensures { IsFirstAmong compared points.now parts.now i tree.now result }
{
    let bounds = part_bounds(points, parts[i]);
    let mut found = None;
    let mut at = next_meeting(tree, &bounds, 0);
    while at < tree.len() {
        let j = tree.get(at).own.place;
        found = settle(points, compared, parts, i, j, found);
        at = next_meeting(tree, &bounds, at + 1);
    }
    found
}

/// The places of the first two parts that are not properly met, of those that are compared, by the
/// place of the first and then by that of the second; None exactly where any two are. A part is
/// tested only with those whose boxes overlap its own, by an AABB tree.
pub(crate) fn first_pair(
    alloc: Global,
    points: &Points,
    compared: Compared,
    parts: &[Part],
) -> Result<Option<(usize, usize)>, NoMemory>
    requires { All (IsPart points.now) parts.now }
    ensures { IfOk result (λ found. MatchOption found (ArePairwiseMet compared points.now parts.now)
        (λ r. IsFirstPair compared points.now parts.now r.0 r.1)) }
{
    let tree = part_tree(alloc, points, parts)?;
    for i in 0..parts.len() {
        if let Some(j) = first_among(points, compared, parts, &tree, i) {
            return Ok(Some((i, j)));
        }
    }
    Ok(None)
}

/// The parts that are compared, and their marks: any two marked parts are known to be properly met.
#[derive(Clone, Copy)]
struct Marked<'a> {
    compared: Compared,
    parts: &'a [Part],
    marks: &'a [bool],
}

/// Whether a pair was found that is at most (`i`, `j`), by the first place and then by the second.
fn is_pair_up_to(found: Option<(usize, usize)>, i: usize, j: usize) -> bool
    ensures { IsTrue result ↔ IsPairUpTo found i j }
{
    match found {
        Some((k, l)) => k < i || k == i && l <= j,
        None => false,
    }
}

/// The least pair found so far, once the parts at `i` and `j` are tested. They are tested only
/// where their pair is before the one found.
fn settle_pair(
    points: &Points,
    compared: Compared,
    parts: &[Part],
    i: usize,
    j: usize,
    found: Option<(usize, usize)>,
) -> Option<(usize, usize)>
    requires parts { All (IsPart points.now) parts.now }
    requires order { i < j }
    requires there { j < length parts.now }
    requires found { IsUnmetPair compared points.now parts.now found }
    ensures found { IsUnmetPair compared points.now parts.now result }
    ensures no_later { IsPairNoLater found result }
    ensures settled { IsSettled compared points.now parts.now result i j }
{
    if is_pair_up_to(found, i, j) {
        return found;
    }
    if are_met(points, compared, parts[i], parts[j]) {
        return found;
    }
    Some((i, j))
}

/// The least pair found so far, once the part at `j` is tested with the one at `i`. A part before
/// the one at `i` is tested only if it is marked: two parts that are not are tested from the first.
fn settle_beside(
    points: &Points,
    marked: Marked<'_>,
    i: usize,
    j: usize,
    found: Option<(usize, usize)>,
) -> Option<(usize, usize)>
    requires parts { All (IsPart points.now) marked.parts.now }
    requires there { (i < length marked.parts.now) × (j < length marked.parts.now) }
    requires found { IsUnmetPair marked.compared points.now marked.parts.now found }
    ensures found { IsUnmetPair marked.entry.compared points.now marked.entry.parts.now result }
    ensures no_later { IsPairNoLater found result }
    ensures settled { IsSettledBeside marked.entry.compared points.now marked.entry.parts.now
        marked.entry.marks.now result i j }
{
    if i < j {
        settle_pair(points, marked.compared, marked.parts, i, j, found)
    } else if j < i && is_marked(marked.marks, j) {
        settle_pair(points, marked.compared, marked.parts, j, i, found)
    } else {
        found
    }
}

/// The least pair found so far, once the part at `i` is tested with those after it and with the
/// marked ones before it. Only parts whose boxes overlap its box are tested.
fn least_beside(
    points: &Points,
    marked: Marked<'_>,
    tree: &Tree,
    i: usize,
    before: Option<(usize, usize)>,
) -> Option<(usize, usize)>
    requires parts { All (IsPart points.now) marked.parts.now }
    requires tree { IsPartTree points.now marked.parts.now tree.now }
    requires there { i < length marked.parts.now }
    requires before { IsUnmetPair marked.compared points.now marked.parts.now before }
    ensures found { IsUnmetPair marked.entry.compared points.now marked.entry.parts.now result }
    ensures no_later { IsPairNoLater before result }
    ensures settled { AreSettledBeside marked.entry.compared points.now marked.entry.parts.now
        marked.entry.marks.now result i }
{
    let bounds = part_bounds(points, marked.parts[i]);
    let mut found = before;
    let mut at = next_meeting(tree, &bounds, 0);
    while at < tree.len() {
        let j = tree.get(at).own.place;
        found = settle_beside(points, marked, i, j, found);
        at = next_meeting(tree, &bounds, at + 1);
    }
    found
}

/// As `first_pair`, where any two marked parts are known to be properly met; parts past the last
/// mark count as marked. Only parts that are not marked are sought in the tree, since the first
/// pair has such a part.
pub fn first_unmet_pair(
    alloc: Global,
    points: &Points,
    compared: Compared,
    parts: &[Part],
    marks: &[bool],
) -> Result<Option<(usize, usize)>, NoMemory>
    requires parts { All (IsPart points.now) parts.now }
    requires met { AreMarkedMet compared points.now parts.now marks.now }
    ensures { IfOk result (λ found. MatchOption found (ArePairwiseMet compared points.now parts.now)
        (λ r. IsFirstPair compared points.now parts.now r.0 r.1)) }
{
    let end = unmarked_end(marks).min(parts.len());
    if end == 0 {
        return Ok(None);
    }
    let tree = part_tree(alloc, points, parts)?;
    let marked = Marked {
        compared,
        parts,
        marks,
    };
    let mut found = None;
    for i in 0..end {
        if !is_marked(marks, i) {
            found = least_beside(points, marked, &tree, i, found);
        }
    }
    Ok(found)
}

//! The numbers of decimals that are tried.

ghost use Rattle.std.specs.Prelude.{◌≡◌, ◌≤◌, ◌<◌, true, find, map, option_copied, IfSome, IsTrue};
ghost use Rattle.std.specs.List.{list_any};
ghost use Rattle.grid_coords.specs.Choice.{is_over, most_decimals};
ghost use Rattle.grid_coords.specs.Origins.{IsNear, IsSmallPoint};
ghost use Rattle.tetfit_run.specs.Grids.{point_at, AreAlike, ArePassedBetween, IsOffRounded, IsPassed};
ghost use Rattle.tetfit_run.specs.Hints.{finest_at, is_off_at};
ghost use Rattle.tetfit_run.specs.Measured.{first_from, last_from, most_from, IsInPlaceOf};

use command_words::Options;
use grid_coords::{DecimalPoint, WholePoint, decimals_of, most_decimals, most_near, size_of};
use node_files::{measured_from, rounded_point};

/// The most decimals to which coordinates are rounded: those of a coordinate below 1 that is read
/// back as it is written.
const MOST: u32 = 35;

/// The most decimals of coordinates that are measured from an origin.
const MOST_FROM: u32 = 17;

/// The most decimals that are tried: the most that a coordinate has, or 35 where one has more; from
/// an origin at most 17, and so many fewer that its coordinates have at most 17 digits with them.
pub(crate) fn most_tried(origin: Option<WholePoint>, points: &[DecimalPoint]) -> u32
    requires { IfSome origin IsSmallPoint }
    ensures value { result ≡ most_from origin (most_decimals points.now) }
    ensures few { result ≤ 35 }
    ensures near { IfSome origin (IsNear result) }
{
    let most = most_decimals(points);
    match origin {
        None => MOST.min(most),
        Some(w) => most_near(w, MOST_FROM.min(most)),
    }
}

/// The first number of decimals that is tried: the one that is given, or `most_tried` where none is
/// or that is fewer.
pub(crate) fn first_tried(options: &Options, points: &[DecimalPoint]) -> u32
    requires { IfSome options.now.origin IsSmallPoint }
    ensures value { result ≡ first_from options.now.decimals
        (most_from options.now.origin (most_decimals points.now)) }
    ensures near { IfSome options.now.origin (IsNear result) }
{
    let most = most_tried(options.origin, points);
    match options.decimals {
        None => most,
        Some(given) => given.min(most),
    }
}

/// The last number of decimals that is tried, where this is the first: 0, or the first where a
/// number is given.
pub(crate) fn last_tried(options: &Options, first: u32) -> u32
    ensures { result ≡ last_from options.now.decimals first }
{
    match options.decimals {
        None => 0,
        Some(_) => first,
    }
}

/// Whether two points have the same coordinates, and stand in the same line.
#[tactic(auto, using(crate::proofs::Alike::same_points))]
fn are_same(p: &DecimalPoint, q: &DecimalPoint) -> bool
    ensures { result ≡ true → p.now ≡ q.now }
{
    p.x == q.x && p.y == q.y && p.z == q.z && p.line == q.line
}

/// Whether a point is the same at both numbers of decimals.
fn is_alike(origin: Option<WholePoint>, decimals: u32, fewer: u32, p: &DecimalPoint) -> bool
    requires near { IfSome origin (IsNear decimals) }
    requires few { IfSome origin (IsNear fewer) }
    ensures { result ≡ true → point_at origin fewer p.now ≡ point_at origin decimals p.now }
{
    let fine = point_at(origin, decimals, p);
    let coarse = point_at(origin, fewer, p);
    are_same(&coarse, &fine)
}

/// Whether each point is the same at both numbers of decimals.
fn are_alike(origin: Option<WholePoint>, points: &[DecimalPoint], decimals: u32, fewer: u32) -> bool
    requires near { IfSome origin (IsNear decimals) }
    requires few { IfSome origin (IsNear fewer) }
    ensures { result ≡ true → AreAlike origin points.now decimals fewer }
{
    for p in points {
        if !is_alike(origin, decimals, fewer, p) {
            return false;
        }
    }
    true
}

/// Whether `fewer` decimals need no try after a refusal by the grid at `decimals`: a point is off
/// each grid, or all points are the same.
fn is_passed(
    wide: u64,
    origin: Option<WholePoint>,
    points: &[DecimalPoint],
    decimals: u32,
    fewer: u32,
) -> bool
    requires near { IfSome origin (IsNear decimals) }
    requires few { IfSome origin (IsNear fewer) }
    ensures { IsTrue result → IsPassed wide origin points.now decimals fewer }
{
    if is_off_grid(wide, origin, points, fewer) {
        return true;
    }
    are_alike(origin, points, decimals, fewer)
}

/// The next number of decimals that is tried after a refusal by the grid at `decimals`: the
/// greatest that is smaller, at which the points are on a grid of coordinates up to `wide` units,
/// and at which they are not all the same as at `decimals`, or 0.
pub(crate) fn next_tried(
    origin: Option<WholePoint>,
    points: &[DecimalPoint],
    decimals: u32,
    wide: u64,
) -> u32
    requires some { 0 < decimals }
    requires near { IfSome origin (IsNear decimals) }
    ensures less { result < decimals }
    ensures passed { ArePassedBetween wide origin points.now result decimals }
{
    let mut next = decimals - 1;
    while next > 0 && is_passed(wide, origin, points, decimals, next) {
        next -= 1;
    }
    next
}

/// The greatest coordinate of a model whose mesh is refined, in units of its decimals: eleven
/// halvings of the grid are left to added points.
const FINE: u64 = 1 << 18;

/// The number of decimals at which the mesh is refined, in place of `decimals`: as many where a
/// number is given, and else the greatest that leaves halvings of the grid to added points.
pub(crate) fn refined_decimals(options: &Options, points: &[DecimalPoint], decimals: u32) -> u32
    requires { IfSome options.now.origin (IsNear decimals) }
    ensures few { result ≤ decimals }
    ensures given { IsInPlaceOf options.now.decimals decimals result }
{
    match options.decimals {
        None => coarse_decimals(options.origin, points, decimals),
        Some(_) => decimals,
    }
}

/// Of the numbers of decimals up to `decimals` the greatest at which no coordinate is over 2^18
/// units, so that the grid has halvings left for added points; or `decimals`, where there is none.
fn coarse_decimals(origin: Option<WholePoint>, points: &[DecimalPoint], decimals: u32) -> u32
    requires { IfSome origin (IsNear decimals) }
    ensures { result ≤ decimals }
{
    let mut next = decimals;
    while next > 0 && is_off_grid(FINE, origin, points, next) {
        next -= 1;
    }
    if is_off_grid(FINE, origin, points, next) {
        decimals
    } else {
        next
    }
}

/// Whether a point is off each grid once the points are rounded to `decimals` decimals.
fn is_off_grid(
    wide: u64,
    origin: Option<WholePoint>,
    points: &[DecimalPoint],
    decimals: u32,
) -> bool
    requires { IfSome origin (IsNear decimals) }
    ensures { IsTrue result → IsOffRounded wide origin points.now decimals }
{
    let finest = rounded_decimals(origin, points, decimals);
    has_over(wide, finest, origin, decimals, points)
}

/// The point rounded to `decimals` decimals, and measured from the origin where there is one.
fn point_at(origin: Option<WholePoint>, decimals: u32, p: &DecimalPoint) -> DecimalPoint
    requires { IfSome origin (IsNear decimals) }
    ensures { result ≡ point_at origin decimals p.now }
{
    match origin {
        None => rounded_point(decimals, p),
        Some(w) => rounded_point(decimals, &measured_from(w, decimals, p)),
    }
}

/// Whether a point that is rounded to `decimals` decimals is over `wide` units of 10^-`finest`.
fn has_over(
    wide: u64,
    finest: u32,
    origin: Option<WholePoint>,
    decimals: u32,
    points: &[DecimalPoint],
) -> bool
    requires { IfSome origin (IsNear decimals) }
    ensures { result ≡ list_any (λ p. is_over wide finest (point_at origin decimals p)) points.now }
{
    for p in points {
        if is_over(wide, finest, &point_at(origin, decimals, p)) {
            return true;
        }
    }
    false
}

/// The most decimals of the points once they are rounded to `decimals`; the search ends at a
/// coordinate that has all of them.
fn rounded_decimals(origin: Option<WholePoint>, points: &[DecimalPoint], decimals: u32) -> u32
    requires { IfSome origin (IsNear decimals) }
    ensures { result ≤ most_decimals (map (point_at origin decimals) points.now) }
{
    let mut most = 0;
    for p in points {
        most = decimals_of(&point_at(origin, decimals, p)).max(most);
        if most >= decimals {
            return most;
        }
    }
    most
}

/// Whether a coordinate of the point is over `wide` units in size.
fn is_over(wide: u64, decimals: u32, p: &DecimalPoint) -> bool
    ensures { result ≡ is_over wide decimals p.now }
{
    size_of(wide, decimals, p).is_none()
}

/// The most decimals of the points once they are rounded to `decimals`, and measured from the
/// origin.
fn finest_at(origin: Option<WholePoint>, decimals: u32, points: &[DecimalPoint]) -> u32
    requires { IfSome origin (IsNear decimals) }
    ensures { result ≡ finest_at origin decimals points.now }
{
    let mut most = 0;
    for p in points {
        most = decimals_of(&point_at(origin, decimals, p)).max(most);
    }
    most
}

/// Whether a coordinate of the point is over `wide` units of 10^-`finest` from the origin where
/// coordinates are rounded to `decimals` decimals.
fn is_off_at(
    wide: u64,
    finest: u32,
    origin: Option<WholePoint>,
    decimals: u32,
    p: &DecimalPoint,
) -> bool
    requires { IfSome origin (IsNear decimals) }
    ensures { result ≡ is_off_at wide finest origin decimals p.now }
{
    is_over(wide, finest, &point_at(origin, decimals, p))
}

/// The first point with a coordinate over `wide` units of 10^-`finest` from the origin where
/// coordinates are rounded to `decimals` decimals.
fn first_over(
    wide: u64,
    finest: u32,
    origin: Option<WholePoint>,
    decimals: u32,
    points: &[DecimalPoint],
) -> Option<&DecimalPoint>
    requires { IfSome origin (IsNear decimals) }
    ensures { option_copied result ≡ find (is_off_at wide finest origin decimals) points.now }
{
    for p in points {
        if is_off_at(wide, finest, origin, decimals, p) {
            return Some(p);
        }
    }
    None
}

/// The first point that is off the grid of coordinates up to `wide` units, once all points are
/// rounded to `decimals` decimals, and measured from the origin.
pub(crate) fn first_off(
    wide: u64,
    origin: Option<WholePoint>,
    decimals: u32,
    points: &[DecimalPoint],
) -> Option<&DecimalPoint>
    requires { IfSome origin (IsNear decimals) }
    ensures { option_copied result
        ≡ find (is_off_at wide (finest_at origin decimals points.now) origin decimals) points.now }
{
    let finest = finest_at(origin, decimals, points);
    first_over(wide, finest, origin, decimals, points)
}

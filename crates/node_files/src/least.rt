//! The least grid on which points have whole coordinates.

ghost use Rattle.std.specs.Prelude.{◌≡◌, ◌≤◌, All, IfOk, option_map, unsigned_abs};
ghost use Rattle.grid_coords.specs.Units.{limit, if_at_most};
ghost use Rattle.node_files.specs.LeastGrid.{twos_of, fives_of, greatest, size_on, is_over_units};
ghost use Rattle.node_files.specs.LeastGrid.{coarsest, first_over_units, least_grid_of, coordinate_on, point_on, IsInUnits, IsPointInUnits};

use crate::grid::units_on;
use crate::terms::terms_of;
use grid_coords::{DecimalPoint, DecimalPoints, Grid, Range};
use sign_predicates::GridPoint;
use tet_text::Decimal;

/// The greatest number of factors 2 in the denominator of a coordinate in lowest terms.
fn twos_of(p: &DecimalPoint) -> u32
    ensures { result ≡ twos_of p.now }
{
    let (x, y, z) = (
        terms_of(&p.x).twos,
        terms_of(&p.y).twos,
        terms_of(&p.z).twos,
    );
    x.max(y.max(z))
}

/// The greatest number of factors 5 in the denominator of a coordinate in lowest terms.
fn fives_of(p: &DecimalPoint) -> u32
    ensures { result ≡ fives_of p.now }
{
    let (x, y, z) = (
        terms_of(&p.x).fives,
        terms_of(&p.y).fives,
        terms_of(&p.z).fives,
    );
    x.max(y.max(z))
}

fn most_twos(points: &[DecimalPoint]) -> u32
    ensures { result ≡ greatest twos_of points.now }
{
    let mut most = 0;
    for p in points {
        most = twos_of(p).max(most);
    }
    most
}

fn most_fives(points: &[DecimalPoint]) -> u32
    ensures { result ≡ greatest fives_of points.now }
{
    let mut most = 0;
    for p in points {
        most = fives_of(p).max(most);
    }
    most
}

/// The greatest size of the point's coordinates, or None where that is over the limit.
fn size_on(grid: &Grid, p: &DecimalPoint) -> Option<u64>
    ensures { result ≡ if_at_most limit (size_on grid.now p.now) }
{
    let x = units_on(grid, &p.x)?;
    let y = units_on(grid, &p.y)?;
    let z = units_on(grid, &p.z)?;
    Some(x.max(y.max(z)))
}

/// Whether a coordinate of the point is over `wide` units in size.
fn is_over(wide: u64, grid: &Grid, p: &DecimalPoint) -> bool
    requires { wide ≤ limit }
    ensures { result ≡ is_over_units wide grid.now p.now }
{
    match size_on(grid, p) {
        Some(size) => size > wide,
        None => true,
    }
}

/// The line of the first point with a coordinate over `wide` units in size.
fn line_over(wide: u64, grid: &Grid, points: &[DecimalPoint]) -> Option<usize>
    requires { wide ≤ limit }
    ensures { result ≡ option_map (λ p. p.line) (first_over_units wide grid.now points.now) }
{
    for p in points {
        if is_over(wide, grid, p) {
            return Some(p.line);
        }
    }
    None
}

/// The coarsest grid with the factors of the coordinates' denominators, without a test of size.
fn coarsest(points: &[DecimalPoint]) -> Grid
    ensures { result ≡ coarsest points.now }
{
    let decimals = most_fives(points);
    let halvings = most_twos(points).saturating_sub(decimals);
    Grid { decimals, halvings }
}

/// The least grid on which all coordinates are whole. In lowest terms each coordinate has a
/// denominator `2^i * 5^j`; the grid has as many decimals as the greatest `j`, and as many halvings
/// as the greatest `i` exceeds the decimals. Range exactly where a coordinate is over `wide` units
/// in size on that grid; its line is that of the first such point. It takes no memory.
pub fn least_grid(points: &DecimalPoints, wide: u64) -> Result<Grid, Range>
    requires { wide ≤ limit }
    ensures value { result ≡ least_grid_of wide points.now }

    // Each point has whole coordinates on the grid.
    ensures on_grid { IfOk result (λ g. All (IsPointInUnits g) points.now) }
{
    let grid = coarsest(points.as_slice());
    match line_over(wide, &grid, points.as_slice()) {
        Some(line) => Err(Range { line }),
        None => Ok(grid),
    }
}

fn coordinate_on(grid: &Grid, d: &Decimal) -> i32
    requires { IsInUnits grid.now d.now }
    ensures value { result ≡ coordinate_on grid.now d.now }
    ensures size { unsigned_abs result ≤ limit }
{
    let size = units_on(grid, d).unwrap_or(0) as i32;
    if d.value < 0 { -size } else { size }
}

/// The point in units of a grid on which it has whole coordinates, at most 2^29 in size.
pub(crate) fn to_least_grid(grid: &Grid, p: &DecimalPoint) -> GridPoint
    requires { IsPointInUnits grid.now p.now }
    ensures { result ≡ point_on grid.now p.now }
{
    GridPoint {
        x: coordinate_on(grid, &p.x),
        y: coordinate_on(grid, &p.y),
        z: coordinate_on(grid, &p.z),
    }
}

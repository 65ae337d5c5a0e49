//! The choice of a grid.

ghost use Rattle.std.specs.Prelude.{◌≡◌, ◌≤◌, ◌*◌, ◌^◌, All, IfOk};
ghost use Rattle.grid_coords.specs.Units.{limit, if_at_most, IsPointOnGrid};
ghost use Rattle.grid_coords.specs.Choice.{decimals_of, most_decimals, size_of, greatest_size, first_over, halvings_for, grid_of, unless_over};

use crate::units::units_within;
use crate::{DecimalPoint, DecimalPoints, Grid, Range};

/// How often a unit is halved at most.
const MOST_HALVINGS: u32 = 18;

/// The most decimals that a coordinate of the point has.
pub fn decimals_of(p: &DecimalPoint) -> u32
    ensures { result ≡ decimals_of p.now }
{
    p.x.scale.max(p.y.scale.max(p.z.scale))
}

/// The most decimals that a coordinate of the points has, or 0 where there is no point.
pub fn most_decimals(points: &[DecimalPoint]) -> u32
    ensures { result ≡ most_decimals points.now }
{
    let mut most = 0;
    for p in points {
        most = decimals_of(p).max(most);
    }
    most
}

/// The greatest size of the point's coordinates in units of 10^-`decimals`, or None where that is
/// over `wide`.
pub fn size_of(wide: u64, decimals: u32, p: &DecimalPoint) -> Option<u64>
    ensures { result ≡ if_at_most wide (size_of decimals p.now) }
{
    let decimals = u64::from(decimals);
    let x = units_within(&p.x, decimals, 0, wide)?;
    let y = units_within(&p.y, decimals, 0, wide)?;
    let z = units_within(&p.z, decimals, 0, wide)?;
    Some(x.max(y.max(z)))
}

/// The greatest size of all coordinates, or the line of the first point with one over `wide`.
fn greatest_size(wide: u64, decimals: u32, points: &[DecimalPoint]) -> Result<u64, Range>
    ensures value { result ≡ unless_over (first_over wide decimals points.now)
        (greatest_size decimals points.now) }
    ensures small { IfOk result (λ size. size ≤ wide) }
{
    let mut greatest = 0;
    for p in points {
        match size_of(wide, decimals, p) {
            Some(size) => greatest = size.max(greatest),
            None => return Err(Range { line: p.line }),
        }
    }
    Ok(greatest)
}

/// The largest number of halvings up to `most` that leaves the size at most `wide`.
fn halvings_for(wide: u64, most: u32, size: u64) -> u32
    requires wide { wide ≤ limit }
    requires size { size ≤ wide }
    requires most { most ≤ 18 }
    ensures { result ≡ halvings_for wide most size }
{
    let mut halvings = most;
    while halvings > 0 && size * (1 << halvings) > wide {
        halvings -= 1;
    }
    halvings
}

/// The finest grid that holds all points: as many decimals as any coordinate has, and the largest
/// number of halvings up to 18 and up to `most_halvings` with which each coordinate is at most
/// `wide` units in size. Range exactly where a coordinate is too large without any halving; its
/// line is that of the first such point.
pub fn choose_grid(points: &DecimalPoints, most_halvings: u32, wide: u64) -> Result<Grid, Range>
    requires { wide ≤ limit }
    ensures value { result ≡ grid_of wide most_halvings points.now }

    // Each point has whole coordinates on the grid.
    ensures on_grid { IfOk result (λ g. All (IsPointOnGrid g) points.now) }
    ensures halvings { IfOk result (λ g. g.halvings ≤ 18) }
{
    let decimals = most_decimals(points.as_slice());
    let size = greatest_size(wide, decimals, points.as_slice())?;
    let halvings = halvings_for(wide, MOST_HALVINGS.min(most_halvings), size);
    Ok(Grid { decimals, halvings })
}

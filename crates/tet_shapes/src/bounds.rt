//! Bounds on the volumes of tetrahedra, by the regions in which they are.

ghost use Rattle.std.specs.Prelude.{◌≡◌, ◌≤◌, map, option_and_then, option_map, IfOk, IfSome};
ghost use Rattle.tet_text.specs.Decimals.{Scaled};
ghost use Rattle.tet_shapes.specs.Bounds.{lesser, limit_most, mark_at, most_of, region_most};
ghost use Rattle.tet_shapes.specs.Bounds.{volume_bounds};
ghost use Rattle.tet_shapes.specs.Volume.{most_volume};

use crate::volume::most_volume;
use grid_coords::Grid;
use std::alloc::Global;
use tet_ports::{Items, NoMemory};
use tet_text::Decimal;

/// Bounds on six times the volumes of tetrahedra, in cubes of grid units.
#[derive(Debug, Drop)]
pub struct VolumeBounds {
    /// The bound of all tetrahedra, where there is one.
    pub most: Option<u128>,
    /// For each region the bound of the tetrahedra in it, where there is one.
    pub regions: Items<Option<u128>>,
}

/// The bound that the volume limit of a region gives; None where it has more than 36 decimals.
fn limit_most(grid: Grid, limit: &Decimal) -> Option<u128>
    ensures { result ≡ limit_most grid limit.now }
{
    if limit.scale <= 36 {
        Some(most_volume(grid, limit))
    } else {
        None
    }
}

/// The bound of a region with this limit.
fn region_bound(grid: Grid, limit: Option<Decimal>) -> Option<u128>
    ensures { result ≡ option_and_then (limit_most grid) limit }
{
    match limit {
        Some(limit) => limit_most(grid, &limit),
        None => None,
    }
}

/// The bounds of regions with these limits.
fn region_bounds(
    alloc: Global,
    grid: Grid,
    limits: &[Option<Decimal>],
) -> Result<Items<Option<u128>>, NoMemory>
    ensures { IfOk result (λ regions. regions
        ≡ map (option_and_then (limit_most grid)) limits.now) }
{
    let mut regions = Items::with_capacity(alloc, limits.len())?;
    for limit in limits {
        regions.push(region_bound(grid, *limit))?;
    }
    Ok(regions)
}

/// The bound of all tetrahedra by this volume.
fn bound_of_all(grid: Grid, volume: &Option<Decimal>) -> Option<u128>
    requires { IfSome volume.now (λ (v : Scaled). v.scale ≤ 36) }
    ensures { result ≡ option_map (most_volume grid) volume.now }
{
    match volume {
        Some(volume) => Some(most_volume(grid, volume)),
        None => None,
    }
}

/// The bounds on a grid by a volume, in cubes of the model's unit, where one is given, and by the
/// limits of regions, in their order. A limit with more than 36 decimals bounds nothing.
pub fn volume_bounds(
    alloc: Global,
    grid: Grid,
    volume: &Option<Decimal>,
    limits: &[Option<Decimal>],
) -> Result<VolumeBounds, NoMemory>
    requires { IfSome volume.now (λ (v : Scaled). v.scale ≤ 36) }
    ensures { IfOk result (λ bounds. bounds ≡ volume_bounds grid volume.now limits.now) }
{
    let most = bound_of_all(grid, volume);
    let regions = region_bounds(alloc, grid, limits)?;
    Ok(VolumeBounds { most, regions })
}

/// The mark of the tetrahedron at a place, and none where there are no marks.
pub fn mark_at(marks: &Option<Items<Option<u32>>>, place: usize) -> Option<u32>
    ensures { result ≡ mark_at marks.now place }
{
    match marks {
        Some(marks) if place < marks.len() => marks.as_slice()[place],
        _ => None,
    }
}

/// The lesser of two bounds, of those that there are.
fn lesser(most: Option<u128>, other: Option<u128>) -> Option<u128>
    ensures { result ≡ lesser most other }
{
    match (most, other) {
        (Some(most), Some(other)) => Some(most.min(other)),
        (Some(most), None) => Some(most),
        (None, other) => other,
    }
}

impl VolumeBounds {
    /// The bound of a region, where it has one.
    fn region_most(&self, mark: Option<u32>) -> Option<u128>
        ensures { result ≡ region_most self.now.regions mark }
    {
        let region = mark? as usize;
        let regions = self.regions.as_slice();
        if region < regions.len() {
            regions[region]
        } else {
            None
        }
    }

    /// The bound of a tetrahedron with this mark: the lesser of that of all tetrahedra and that of
    /// its region.
    pub fn most_of(&self, mark: Option<u32>) -> Option<u128>
        ensures { result ≡ most_of self.now mark }
    {
        lesser(self.most, self.region_most(mark))
    }
}

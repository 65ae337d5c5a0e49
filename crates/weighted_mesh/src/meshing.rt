//! The regular list of weighted points.
ghost use Rattle.std.specs.Prelude.{◌-◌, ◌^◌, ◌<◌, length, All, IfOk, OnOk, IsErrOf};
ghost use Rattle.geo_laws.specs.Delaunay.{AreCoplanar, HasDistinctPoints, IsOn};
ghost use Rattle.weighted_mesh.specs.Regular.{AreWeightsOf, IsRegularList};

use crate::Weights;
use crate::sites::Sites;
use cavity_insert::{BuildFault, lowest_mesh, sorted_rows};
use geo_laws::{Points, TetList};
use std::alloc::Global;

/// The regular list of distinct points with one weight each, of at most `2^46` in size, in squares
/// of grid units: the positive tetrahedra that have every other point weighted outside, ties broken
/// by the points' numbers (simulation of simplicity), ascending. A point that is a corner of no
/// tetrahedron is hidden. `Flat` comes exactly where all points lie in one plane; fewer than four
/// do.
///
/// Source: incremental topological flipping works for regular triangulations (Edelsbrunner and Shah
/// 1996); here by cavities (Bowyer 1981, Watson 1981).
pub fn regular(alloc: Global, points: &Points, weights: &Weights) -> Result<TetList, BuildFault>
    requires distinct { HasDistinctPoints points.now }
    requires few { length points.now < 2 ^ 32 - 1 }
    requires weights { AreWeightsOf points.now weights.now }
    ensures list { IfOk result (IsRegularList points.now weights.now) }
    ensures numbers { IfOk result (All (IsOn points.now)) }
    ensures not_flat { OnOk result (¬ AreCoplanar points.now) }
    ensures flat { IsErrOf result BuildFault.Flat → AreCoplanar points.now }
{
    let sites = Sites::new(points, weights);
    let arena = lowest_mesh(alloc, &sites)?;
    Ok(sorted_rows(alloc, &arena)?)
}

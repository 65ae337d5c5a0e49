//! The weights of the points that are kept.

ghost use Rattle.std.specs.Prelude.{◌≡◌, ◌<◌, length, map, All, IfOk};
ghost use Rattle.weighted_mesh.specs.Regular.{weight};

use crate::Weights;
use node_files::Names;
use std::alloc::Global;
use tet_ports::NoMemory;

/// The weights of the points with these names.
pub(crate) fn kept_weights(
    alloc: Global,
    names: &Names,
    weights: &Weights,
) -> Result<Weights, NoMemory>
    requires { All (λ i. i < length weights.now) names.now }
    ensures { IfOk result (λ kept. kept ≡ map (weight weights.now) names.now) }
{
    let mut kept = Weights::with_capacity(alloc, names.len())?;
    for name in names.as_slice() {
        kept.push(weights.at(*name as usize))?;
    }
    Ok(kept)
}

//! A mesh of a complex with its point list.

ghost use Rattle.std.specs.Prelude.{◌≡◌, ℕ, List, IfOk};
ghost use Rattle.sign_predicates.specs.Point.{Point};
ghost use Rattle.run_steps.specs.Meshing.{IsMeshableBound, mesh_of_complex};
ghost use Rattle.run_steps.specs.Outputs.{IsWritable};
ghost use Rattle.refining.specs.Refined.{IsFewWith};

use command_words::Options;
use complex_mesh::ComplexMesh;
use run_steps::{Bound, Meshed, complex_meshed};
use std::alloc::Global;
use tet_ports::NoMemory;

/// A mesh of a complex with points behind its own, with its point list and the added points. The
/// options are only for the contract.
pub fn placed(
    alloc: Global,
    _options: &Options,
    bound: Bound,
    made: ComplexMesh,
) -> Result<Meshed, NoMemory>
    requires bound { IsMeshableBound _options.now bound }
    requires made { (more : List Point) × (halvings : ℕ)
        × IsFewWith _options.now bound more halvings made }
    ensures mesh { IfOk result (λ mesh. mesh ≡ mesh_of_complex bound made) }
    ensures writable { IfOk result IsWritable }
{
    let mesh = complex_meshed(alloc, bound, made)?;
    Ok(mesh)
}

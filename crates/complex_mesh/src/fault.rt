//! Why a complex has no mesh.
use facet_plane::NotFlat;
use facet_recover::RecoverFault;
use geo_laws::{Piece, Tet};
use segment_protect::ProtectFault;
use simplex_meets::{Part, PlaneFault};
use tangle_laws::Anomaly;
use tet_ports::NoMemory;

/// Why a complex has no mesh. Points are named by their numbers and facets by their places in the
/// complex, both from 0.
#[derive(Clone, Copy, Debug, PartialEq, Eq)]
pub enum MeshFault {
    /// All points lie in one plane.
    Flat,
    /// Four corners of this facet, the first such facet, are not in one plane.
    NotFlat { facet: u32, four: Tet },
    /// These two pieces of segments, the first such two, have a common point that is no common end.
    SegmentsCross { one: Piece, two: Piece },
    /// This subsegment is no edge of a Delaunay tetrahedron, and was halved as often as the grid
    /// allows.
    GridEnd { piece: Piece },
    /// This subsegment is no edge of a Delaunay tetrahedron, and as many points were added as
    /// allowed.
    BudgetEnd { made: u32, piece: Piece },
    /// A triangle of a facet and another one or a piece, the first such two, have a common point
    /// that is not in the hull of their common corners.
    Crossing { one: Part, two: Part },
    /// Two facets cross a Delaunay tetrahedron, and the constrained Delaunay tetrahedra have this
    /// anomaly.
    NoFill { anomaly: Anomaly },
    /// Memory ran out.
    NoMemory,
}

impl From<NoMemory> for MeshFault {
    ghost use Rattle.std.specs.Prelude.{◌≡◌};
    ghost use Rattle.complex_mesh.specs.declared.fault.MeshFault.TheVariants.{NoMemory as OutOfMemory};

    ghost from_gives = { λ _ fault. fault ≡ OutOfMemory };

    fn from(_: NoMemory) -> MeshFault {
        MeshFault::NoMemory
    }
}

impl From<NotFlat> for MeshFault {
    ghost use Rattle.std.specs.Prelude.{◌≡◌};
    ghost use Rattle.complex_mesh.specs.declared.fault.MeshFault.TheVariants as faults;

    ghost from_gives = { λ bent fault. fault ≡ faults.NotFlat bent.facet bent.four };

    fn from(bent: NotFlat) -> MeshFault {
        MeshFault::NotFlat {
            facet: bent.facet,
            four: bent.four,
        }
    }
}

impl From<ProtectFault> for MeshFault {
    ghost use Rattle.std.specs.Prelude.{◌≡◌};
    ghost use Rattle.complex_mesh.specs.Faults.{protect_fault};

    ghost from_gives = { λ cause fault. fault ≡ protect_fault cause };

    fn from(cause: ProtectFault) -> MeshFault {
        match cause {
            ProtectFault::Flat => MeshFault::Flat,
            ProtectFault::SegmentsCross { one, two } => MeshFault::SegmentsCross { one, two },
            ProtectFault::GridEnd { piece } => MeshFault::GridEnd { piece },
            ProtectFault::BudgetEnd { made, piece } => MeshFault::BudgetEnd { made, piece },
            ProtectFault::NoMemory => MeshFault::NoMemory,
        }
    }
}

impl From<PlaneFault> for MeshFault {
    ghost use Rattle.std.specs.Prelude.{◌≡◌};
    ghost use Rattle.complex_mesh.specs.Faults.{plane_fault};

    ghost from_gives = { λ cause fault. fault ≡ plane_fault cause };

    fn from(cause: PlaneFault) -> MeshFault {
        match cause {
            PlaneFault::Crossing { one, two } => MeshFault::Crossing { one, two },
            PlaneFault::NoMemory => MeshFault::NoMemory,
        }
    }
}

impl From<RecoverFault> for MeshFault {
    ghost use Rattle.std.specs.Prelude.{◌≡◌};
    ghost use Rattle.complex_mesh.specs.Faults.{recover_fault};

    ghost from_gives = { λ cause fault. fault ≡ recover_fault cause };

    fn from(cause: RecoverFault) -> MeshFault {
        match cause {
            RecoverFault::NoFill { anomaly } => MeshFault::NoFill { anomaly },
            RecoverFault::NoMemory => MeshFault::NoMemory,
        }
    }
}

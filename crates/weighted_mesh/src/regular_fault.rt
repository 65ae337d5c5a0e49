//! Why weighted points have no regular mesh.

ghost use Rattle.std.specs.Prelude.{◌≡◌};
ghost use Rattle.weighted_mesh.specs.declared.regular_fault.RegularFault.TheVariants.{NoMemory as WantsMemory};

use crate::weight_fault::WeightFault;
use cavity_insert::BuildFault;
use tet_ports::NoMemory;
use tet_text::TextFault;

/// Why weighted points have no regular mesh.
#[derive(Clone, Copy, Debug, PartialEq, Eq)]
pub enum RegularFault {
    /// The first attribute of a point is no decimal.
    Text(TextFault),
    /// A weight is over 2^46 squares of grid units in size; the line of its point, from 1.
    TooHeavy { line: usize },
    /// All points lie in one plane.
    Flat,
    /// Out of memory.
    NoMemory,
}

impl From<NoMemory> for RegularFault {
    ghost from_gives = { λ _ made. made ≡ WantsMemory };

    fn from(_want: NoMemory) -> RegularFault {
        RegularFault::NoMemory
    }
}

impl From<WeightFault> for RegularFault {
    ghost use Rattle.weighted_mesh.specs.Meshing.{fault_of_weights};

    ghost from_gives = { λ fault made. made ≡ fault_of_weights fault };

    fn from(fault: WeightFault) -> RegularFault {
        match fault {
            WeightFault::Text(fault) => RegularFault::Text(fault),
            WeightFault::TooHeavy { line } => RegularFault::TooHeavy { line },
            WeightFault::NoMemory => RegularFault::NoMemory,
        }
    }
}

impl From<BuildFault> for RegularFault {
    ghost use Rattle.weighted_mesh.specs.Meshing.{fault_of_build};

    ghost from_gives = { λ fault made. made ≡ fault_of_build fault };

    fn from(fault: BuildFault) -> RegularFault {
        match fault {
            BuildFault::Flat => RegularFault::Flat,
            BuildFault::NoMemory => RegularFault::NoMemory,
        }
    }
}

//! Why the weights of a point list could not be read.

ghost use Rattle.std.specs.Prelude.{◌≡◌};
ghost use Rattle.weighted_mesh.specs.declared.weight_fault.WeightFault.TheVariants.{NoMemory as WantsMemory};

use tet_ports::NoMemory;
use tet_text::TextFault;

/// Why the weights of a point list could not be read.
#[derive(Clone, Copy, Debug, PartialEq, Eq)]
pub enum WeightFault {
    /// The first attribute of a point is no decimal.
    Text(TextFault),
    /// A weight is over 2^46 squares of grid units in size; the line of its point, from 1.
    TooHeavy { line: usize },
    /// Out of memory.
    NoMemory,
}

impl From<NoMemory> for WeightFault {
    ghost from_gives = { λ _ made. made ≡ WantsMemory };

    fn from(_want: NoMemory) -> WeightFault {
        WeightFault::NoMemory
    }
}

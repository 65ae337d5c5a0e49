//! Why the files of a mesh are not those of a sound one.

use crate::Defect;
use tet_ports::{Name, NoMemory};
use tet_text::TextFault;

/// Why the files of a mesh are not those of a sound one.
#[derive(Debug, Drop)]
pub enum CheckFault {
    /// The folder lacks the file.
    Missing { name: Name },
    /// The folder failed in a fetch.
    ReadFault { name: Name },
    /// The file has too many bytes.
    TooLong { name: Name },
    /// The file is not in its grammar.
    BadText { name: Name, fault: TextFault },
    /// There are too many points; their number.
    TooMany { count: u64 },
    /// A coordinate is too large for the grid; the line of the first such point, from 1.
    OffGrid { line: usize },
    /// The mesh has a defect; the first one, and the number of the first point in its file.
    Unsound { defect: Defect, first: u32 },
    /// Out of memory.
    NoMemory,
}

impl From<NoMemory> for CheckFault {
    ghost use Rattle.std.specs.Prelude.{◌≡◌};
    ghost use Rattle.mesh_check.specs.declared.fault.CheckFault.TheVariants.{NoMemory as WantsMemory};

    ghost from_gives = { λ _ made. made ≡ WantsMemory };

    fn from(_want: NoMemory) -> CheckFault {
        CheckFault::NoMemory
    }
}

//! Why a file of a mesh could not be read.

ghost use Rattle.std.specs.Prelude.{◌≡◌};
ghost use Rattle.mesh_files.specs.declared.fault.MeshFault.TheVariants.{Text, NoMemory as WantsMemory};

use tet_ports::NoMemory;
use tet_text::TextFault;

/// Why a file of a mesh could not be read.
#[derive(Clone, Copy, Debug, PartialEq, Eq)]
pub enum MeshFault {
    /// The text is not in the grammar; its first fault.
    Text(TextFault),
    /// Out of memory.
    NoMemory,
}

impl From<TextFault> for MeshFault {
    ghost from_gives = { λ fault made. made ≡ Text fault };

    fn from(fault: TextFault) -> MeshFault {
        MeshFault::Text(fault)
    }
}

impl From<NoMemory> for MeshFault {
    ghost from_gives = { λ _ made. made ≡ WantsMemory };

    fn from(_want: NoMemory) -> MeshFault {
        MeshFault::NoMemory
    }
}

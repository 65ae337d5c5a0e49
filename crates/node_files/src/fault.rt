//! Why a point list could not be read or settled.

ghost use Rattle.std.specs.Prelude.{◌≡◌};
ghost use Rattle.node_files.specs.declared.fault.NodeFault.TheVariants.{Text, NoMemory as WantsMemory};

use grid_coords::Range;
use tet_ports::NoMemory;
use tet_text::TextFault;

/// Why a point list could not be read or settled.
#[derive(Clone, Copy, Debug, PartialEq, Eq)]
pub enum NodeFault {
    /// The text is not in the grammar; its first fault.
    Text(TextFault),
    /// There are more points than are allowed; their number, and how many are allowed.
    TooMany { count: u64, most: usize },
    /// A coordinate is too large for the grid; the line of the first such point, from 1.
    Range { line: usize },
    /// Out of memory.
    NoMemory,
}

impl From<TextFault> for NodeFault {
    ghost from_gives = { λ fault made. made ≡ Text fault };

    fn from(fault: TextFault) -> NodeFault {
        NodeFault::Text(fault)
    }
}

impl From<NoMemory> for NodeFault {
    ghost from_gives = { λ _ made. made ≡ WantsMemory };

    fn from(_want: NoMemory) -> NodeFault {
        NodeFault::NoMemory
    }
}

impl From<Range> for NodeFault {
    ghost use Rattle.node_files.specs.declared.fault.NodeFault.TheVariants.{Range as OffGrid};

    ghost from_gives = { λ range made. made ≡ OffGrid range.line };

    fn from(range: Range) -> NodeFault {
        NodeFault::Range { line: range.line }
    }
}

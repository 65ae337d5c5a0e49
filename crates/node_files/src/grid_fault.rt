//! Why points are on no grid.

ghost use Rattle.std.specs.Prelude.{◌≡◌};
ghost use Rattle.node_files.specs.declared.grid_fault.GridFault.TheVariants.{NoMemory as WantsMemory, Range as OffGrid};

use grid_coords::Range;
use tet_ports::NoMemory;

/// Why the points of a mesh are on no grid.
#[derive(Clone, Copy, Debug, PartialEq, Eq)]
pub enum GridFault {
    /// There are more points than are allowed; their number.
    TooMany { count: u64 },
    /// A coordinate is too large for the grid; the line of the first such point, from 1.
    Range { line: usize },
    /// Out of memory.
    NoMemory,
}

impl From<NoMemory> for GridFault {
    ghost from_gives = { λ _ made. made ≡ WantsMemory };

    fn from(_want: NoMemory) -> GridFault {
        GridFault::NoMemory
    }
}

impl From<Range> for GridFault {
    ghost from_gives = { λ range made. made ≡ OffGrid range.line };

    fn from(range: Range) -> GridFault {
        GridFault::Range { line: range.line }
    }
}

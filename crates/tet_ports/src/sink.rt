//! What takes the program's lines.

ghost use Rattle.std.specs.Prelude.{◌≡◌, ◌≤◌, ℕ, List, Option, OnOk, IsErrOf};
ghost use Rattle.tet_ports.specs.Counts.{Rose};
ghost use Rattle.tet_ports.specs.Seen.{SinkState};
ghost use Rattle.tet_ports.specs.Written.{PartlyPut, with_written};
ghost use Rattle.tet_ports.specs.declared.sink.PutFault.TheVariants.{Failed, NoMemory as PutNoMemory};

use crate::NoMemory;

/// Why a put was refused.
#[derive(Clone, Copy, Debug, PartialEq, Eq)]
pub enum PutFault {
    /// The sink failed.
    Failed,
    /// Out of memory.
    NoMemory,
}

impl From<NoMemory> for PutFault {
    ghost from_gives = { λ _ fault. fault ≡ PutNoMemory };

    fn from(_: NoMemory) -> Self {
        PutFault::NoMemory
    }
}

/// Takes bytes, such as the lines of a program's output.
pub trait Sink {
    /// What it shows of itself: the bytes that it has taken, where it tells them; how often a put
    /// has failed; and how many puts were refused out of memory. Each count stays at the last value
    /// of a u64.
    ghost state: { Self → SinkState };

    /// Appends this piece.
    ///
    /// Refusals: `Failed`, the sink failed, and may have appended a prefix of the piece;
    /// `NoMemory`, with nothing appended.
    fn put(&mut self, piece: &[u8]) -> Result<(), PutFault>
        ensures appended { OnOk result ((state self.new).written
            ≡ with_written (state self.old).written piece.now) }
        ensures failed { IsErrOf result Failed
            → Rose (state self.old).faults (state self.new).faults }
        ensures partly { IsErrOf result Failed
            → PartlyPut (state self.old).written piece.now (state self.new).written }
        ensures wanting { IsErrOf result PutNoMemory
            → Rose (state self.old).wants (state self.new).wants }
        ensures kept { IsErrOf result PutNoMemory
            → (state self.new).written ≡ (state self.old).written }
        ensures fault_count { (state self.old).faults ≤ (state self.new).faults }
        ensures want_count { (state self.old).wants ≤ (state self.new).wants };
}

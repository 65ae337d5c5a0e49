//! A sink over a writer of the library.

ghost use Rattle.std.specs.Io.KnownBytes.{Appends};
ghost use Rattle.std.specs.Prelude.{◌≡◌, ◌≤◌, None, IsErrOf, OnOk};
ghost use Rattle.tet_ports.specs.Counts.{Rose};
ghost use Rattle.tet_ports.specs.declared.sink.PutFault.TheVariants.{Failed, NoMemory as PutNoMemory};

use crate::streams::write_whole;
use crate::{PutFault, Sink};
use std::io::Write;

/// A writer of the library, such as the standard output. It tells no content, takes no memory, and
/// flushes after each piece.
#[derive(Debug, Drop)]
pub struct StdSink<W> {
    writer: W,
    faults: u64,
}

impl<W: Write + Drop> StdSink<W> {
    /// A sink over this writer.
    pub fn new(writer: W) -> Self
        ensures { result.faults ≡ 0 }
    {
        StdSink { writer, faults: 0 }
    }
}

impl<W: Write + Drop> Sink for StdSink<W> {
    ghost state = { λ sink. record { written = None; faults = sink.faults; wants = 0 } };

    fn put(&mut self, piece: &[u8]) -> Result<(), PutFault>
        ensures whole { OnOk result (Appends (W.contents self.old.writer)
            (W.contents self.new.writer) piece.now) }
        ensures failed { IsErrOf result Failed → Rose self.old.faults self.new.faults }
        ensures takes_no_memory { ¬ IsErrOf result PutNoMemory }
        ensures fault_count { self.old.faults ≤ self.new.faults }
    {
        match write_whole(&mut self.writer, piece) {
            Ok(()) => Ok(()),
            Err(_) => {
                self.faults = self.faults.saturating_add(1);
                Err(PutFault::Failed)
            }
        }
    }
}

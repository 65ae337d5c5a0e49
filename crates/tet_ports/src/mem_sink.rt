//! A sink in memory.

ghost use Rattle.std.specs.Prelude.{◌≡◌, ◌≤◌, ◌+◌, [], Some, OnOk, IsErrOf, take};
ghost use Rattle.tet_ports.specs.Calls.{failing_at, failures, fresh_calls, IsNextFailing};
ghost use Rattle.tet_ports.specs.MemSink.{MemoryBytes, appended, memory_bytes_code, wanting};
ghost use Rattle.tet_ports.specs.declared.sink.PutFault.TheVariants.{Failed, NoMemory as PutNoMemory};

use crate::calls::Calls;
use crate::{Bytes, PutFault, Sink};
use std::alloc::Global;
use std::marker::Model;

/// A sink in memory, which tells its bytes. One put may be set to fail.
#[derive(Debug, Drop)]
pub struct MemSink {
    bytes: Bytes,
    puts: Calls,
    kept: usize,
    wants: u64,
}

impl Model for MemSink {
    ghost Value = { MemoryBytes };

    ghost coded = { memory_bytes_code };

    ghost view = { λ s. record { bytes = s.bytes; puts = s.puts; kept = s.kept; wants = s.wants } };
}

impl MemSink {
    /// A sink with no byte, of which no put is set to fail.
    pub fn new(alloc: Global) -> Self
        ensures { result ≡ record { bytes = []; puts = fresh_calls; kept = 0; wants = 0 } }
    {
        MemSink {
            bytes: Bytes::new(alloc),
            puts: Calls::new(),
            kept: 0,
            wants: 0,
        }
    }

    /// Lets the put with this number fail, counted from 1, in place of one that was set before. It
    /// appends the first `kept` bytes of its piece, or the whole piece where that is shorter.
    /// Only tests call it.
    pub fn fail_put(&mut self, nth: u32, kept: usize)
        ensures { self.new ≡ record self.old { puts = failing_at nth self.old.puts; kept = kept } }
    {
        self.puts.fail(nth);
        self.kept = kept;
    }

    /// The bytes that it has taken.
    pub fn bytes(&self) -> &Bytes
        ensures { result.now ≡ self.now.bytes }
    {
        &self.bytes
    }
}

impl Sink for MemSink {
    ghost state = { λ sink.
        record { written = Some sink.bytes; faults = failures sink.puts; wants = sink.wants } };

    fn put(&mut self, piece: &[u8]) -> Result<(), PutFault>
        ensures appended { OnOk result (self.new ≡ appended self.old piece.now) }
        ensures partly { IsErrOf result Failed
            → self.new ≡ appended self.old (take self.old.kept piece.now) }
        ensures wanting { IsErrOf result PutNoMemory → self.new ≡ wanting self.old }
        ensures next { OnOk result (¬ IsNextFailing self.old.puts) }
        ensures failed { IsErrOf result Failed → IsNextFailing self.old.puts }
        ensures failures { IsNextFailing self.old.puts
            → failures self.new.puts ≡ failures self.old.puts + 1 }
        ensures failure_count { failures self.old.puts ≤ failures self.new.puts }
        ensures want_count { self.old.wants ≤ self.new.wants }
    {
        let is_failing = self.puts.count();
        let kept = if is_failing {
            self.kept.min(piece.len())
        } else {
            piece.len()
        };
        if self.bytes.append(&piece[..kept]).is_err() {
            self.wants = self.wants.saturating_add(1);
            return Err(PutFault::NoMemory);
        }
        if is_failing {
            return Err(PutFault::Failed);
        }
        Ok(())
    }
}

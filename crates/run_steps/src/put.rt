//! The message that a file could not be written, which needs no memory.

ghost use Rattle.std.specs.Prelude.{◌++◌, codes};
ghost use Rattle.mesh_check.specs.Messages.{file_message};
ghost use Rattle.tet_ports.specs.Seen.{IsMessagePut, sink_seen};

use mesh_check::put_message;
use tet_ports::{Name, Sink};

/// Writes one text behind another; a failure changes nothing.
fn put_both<E: Sink>(first: &[u8], second: &[u8], err: &mut E)
    ensures { IsMessagePut (first.now ++ second.now) (sink_seen E.state err.old err.new) }
{
    match err.put(first) {
        Ok(()) => put_message(second, err),
        Err(_) => {}
    }
}

/// Writes the message of a program that a file could not be written, in pieces, since memory may be
/// short; a failure changes nothing.
pub fn put_unwritten<E: Sink>(program: &[u8], name: &Name, err: &mut E)
    ensures { IsMessagePut (file_message program.now name.now (codes "write failed"))
        (sink_seen E.state err.old err.new) }
{
    match err.put(program) {
        Ok(()) => put_both(name.as_slice(), b": write failed\n", err),
        Err(_) => {}
    }
}

//! The run of the program: from its words to the lines of its queries.

ghost use Rattle.std.specs.Prelude.{◌≡◌, ◌≤◌, ◌<◌, length};
ghost use Rattle.tet_ports.specs.Seen.{folder_seen};
ghost use Rattle.tet_ports.specs.Seen.{sink_seen};
ghost use Rattle.tetwhere_run.specs.Run.{IsQueryAnswer, IsCompleteQuery, IsQueryTold, QueryEndsSo, IsLinesPut, IsQueryToldAs};

use crate::answers::locate_files;
use crate::messages::{OUT_OF_MEMORY, WRITE_FAILED, message};
use crate::status::WhereStatus;
use crate::words::bad_word;
use mesh_check::put_message;
use std::alloc::Global;
use tet_ports::{Bytes, Folder, NoMemory, PutFault, Sink, Words};

/// Reads the words, fetches the mesh and the queries that they name, and writes one line for each
/// query to `out`, all at once: its number, and that of the first tetrahedron whose closure holds
/// it, or -1. On every answer but Done it puts one message to `err`; a failure there changes no
/// status. It stores nothing.
pub fn run_where<F: Folder, O: Sink, E: Sink>(
    alloc: Global,
    words: &Words,
    folder: &mut F,
    out: &mut O,
    err: &mut E,
) -> WhereStatus
    ensures answer { IsQueryAnswer words.now (folder_seen F.state folder.old folder.new)
        (sink_seen O.state out.old out.new) result }
    ensures complete { IsCompleteQuery words.now (folder_seen F.state folder.old folder.new)
        (sink_seen O.state out.old out.new) result }
    ensures told { IsQueryTold (sink_seen E.state err.old err.new) result }
    ensures unchanged { (F.state folder.new).files ≡ (F.state folder.old).files }
{
    match run(alloc, words, folder, out) {
        Ok(()) => WhereStatus::Done,
        Err(status) => tell(alloc, status, err),
    }
}

/// The run without its message.
fn run<F: Folder, O: Sink>(
    alloc: Global,
    words: &Words,
    folder: &mut F,
    out: &mut O,
) -> Result<(), WhereStatus>
    ensures ends { QueryEndsSo words.now (folder_seen F.state folder.old folder.new)
        (sink_seen O.state out.old out.new) result }
    ensures unchanged { (F.state folder.new).files ≡ (F.state folder.old).files }
{
    if let Some(word) = bad_word(words) {
        return Err(WhereStatus::Usage { word, place: 1 });
    }
    let lines = locate_files(alloc, words.word(0), words.word(1), folder)?;
    put_lines(&lines, out)
}

/// Writes the lines of all queries.
fn put_lines<O: Sink>(lines: &Bytes, out: &mut O) -> Result<(), WhereStatus>
    ensures { IsLinesPut lines.now (sink_seen O.state out.old out.new) result }
{
    match out.put(lines.as_slice()) {
        Ok(()) => Ok(()),
        Err(PutFault::Failed) => Err(WhereStatus::WriteFault),
        Err(PutFault::NoMemory) => Err(WhereStatus::from(NoMemory)),
    }
}

/// Writes the message of a refusal, and answers its status; out of memory where there is no memory
/// for the message.
fn tell<E: Sink>(alloc: Global, status: WhereStatus, err: &mut E) -> WhereStatus
    ensures { IsQueryToldAs status (sink_seen E.state err.old err.new) result }
{
    if matches!(&status, WhereStatus::WriteFault) {
        put_message(WRITE_FAILED, err);
        return WhereStatus::WriteFault;
    }
    match message(alloc, &status) {
        Ok(line) => {
            put_message(line.as_slice(), err);
            status
        }
        Err(want) => {
            put_message(OUT_OF_MEMORY, err);
            WhereStatus::from(want)
        }
    }
}

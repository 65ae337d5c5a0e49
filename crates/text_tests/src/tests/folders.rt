//! Folders and sinks, in memory and of the system, whose calls fail in turn.

ghost use Rattle.std.specs.Prelude.{◌≡◌, ℕ, List, None, OnErr, OnOk};
ghost use Rattle.tet_ports.specs.Files.{Holds, PartlyStored, with_file};

use std::alloc::Global;
use std::io::{Read, Write};
use std::test::Fail;
use std::{fs, io, process};
use tet_ports::{
    Bytes, FetchFault, Folder, MemFolder, MemSink, Name, NoMemory, OsFolder, PutFault, Sink,
    StdSink, StoreFault, read_whole, write_whole,
};

/// Whether the folder has just this text under the name.
fn has_text(folder: &MemFolder, name: &Name, text: &[u8]) -> bool {
    match folder.get(name) {
        Some(held) => held.as_slice() == text,
        None => false,
    }
}

fn fetch_fails<F: Folder>(alloc: Global, folder: &mut F, name: &Name) -> bool {
    matches!(folder.fetch(alloc, name, 9), Err(FetchFault::Failed))
}

/// Whether of four stores and four fetches just those with this number fail, and that store leaves
/// this text.
fn fails_at(alloc: Global, name: &Name, text: &Bytes, nth: u32, kept: usize, want: &[u8]) -> bool {
    let mut folder = MemFolder::new(alloc);
    folder.fail_fetch(9);
    folder.fail_fetch(nth);
    folder.fail_store(nth, kept);
    let mut is_right = true;
    for number in 1..=4u32 {
        let stored = folder.store(name, text);
        if number == nth {
            is_right &= stored == Err(StoreFault::Failed) && has_text(&folder, name, want);
        } else {
            is_right &= stored.is_ok();
        }
        is_right &= fetch_fails(alloc, &mut folder, name) == (number == nth);
    }
    is_right
}

fn face_fails_at(alloc: Global, nth: u32, kept: usize, want: &[u8]) -> Result<bool, NoMemory> {
    let name = Name::from_slice(alloc, b"bar.1.face")?;
    let text = Bytes::from_slice(alloc, b"12 1\n")?;
    Ok(fails_at(alloc, &name, &text, nth, kept, want))
}

static FAILED_STORES: [(u32, usize, &[u8]); 3] = [
    (1, 0, b""),
    (2, 3, b"12 "),
    (3, 1000, b"12 1\n"),
];

#[test]
fn calls_of_a_folder_in_memory_fail(rt: HostRuntime) {
    for (nth, kept, want) in &FAILED_STORES {
        assert!(rt;
            face_fails_at(rt.alloc(), *nth, *kept, want) == Ok(true),
            "{nth}"
        );
    }
}

/// What two puts answer where one is set to fail, and whether the sink then has this text.
fn two_puts(
    alloc: Global,
    nth: u32,
    kept: usize,
    want: &[u8],
) -> (Result<(), PutFault>, Result<(), PutFault>, bool) {
    let mut sink = MemSink::new(alloc);
    sink.fail_put(9, 9);
    sink.fail_put(nth, kept);
    let first = sink.put(b"one");
    let second = sink.put(b"two");
    (first, second, sink.bytes().as_slice() == want)
}

static FAILED_PUTS: [(
    u32,
    usize,
    Result<(), PutFault>,
    Result<(), PutFault>,
    &[u8],
); 4] = [
    (1, 0, Err(PutFault::Failed), Ok(()), b"two"),
    (1, 2, Err(PutFault::Failed), Ok(()), b"ontwo"),
    (2, 1000, Ok(()), Err(PutFault::Failed), b"onetwo"),
    (3, 1, Ok(()), Ok(()), b"onetwo"),
];

#[test]
fn puts_to_a_sink_in_memory_fail(rt: HostRuntime) {
    for (nth, kept, first, second, want) in &FAILED_PUTS {
        assert!(rt;
            two_puts(rt.alloc(), *nth, *kept, want) == (*first, *second, true),
            "{nth}"
        );
    }
}

/// Whether a file has just this text, which is no longer than allowed.
fn holds<F: Folder>(alloc: Global, folder: &mut F, name: &Name, most: usize, text: &[u8]) -> bool {
    match folder.fetch(alloc, name, most) {
        Ok(held) => held.as_slice() == text,
        Err(_) => false,
    }
}

/// How many bytes are taken of a file that is longer than allowed; None where it is not.
fn taken<F: Folder>(alloc: Global, folder: &mut F, name: &Name, most: usize) -> Option<usize> {
    match folder.fetch(alloc, name, most) {
        Err(FetchFault::TooLarge { taken }) => Some(taken.len()),
        _ => None,
    }
}

/// Whether a name can be neither fetched nor stored.
fn fails<F: Folder>(alloc: Global, folder: &mut F, path: &[u8]) -> Result<bool, NoMemory> {
    let name = Name::from_slice(alloc, path)?;
    let is_unread = fetch_fails(alloc, folder, &name);
    Ok(is_unread && folder.store(&name, &Bytes::new(alloc)) == Err(StoreFault::Failed))
}

/// A text of three blocks and a part.
fn long_text(alloc: Global) -> Result<Bytes, NoMemory> {
    let mut text = Bytes::new(alloc);
    for i in 0..50_000u32 {
        text.append(&i.to_be_bytes())?;
    }
    Ok(text)
}

/// What a folder does with a file, which is not there yet, and these texts: each
/// answer is yes.
fn answers_to<F: Folder>(
    alloc: Global,
    folder: &mut F,
    name: &Name,
    text: &Bytes,
    short: &Bytes,
) -> [bool; 7] {
    let is_missing = matches!(folder.fetch(alloc, name, 9), Err(FetchFault::Missing));
    let is_stored = folder.store(name, text).is_ok();
    let is_held = holds(alloc, folder, name, text.len(), text.as_slice());
    let has_no_limit = holds(alloc, folder, name, usize::MAX, text.as_slice());
    let takes_one_more = taken(alloc, folder, name, 0) == Some(1)
        && taken(alloc, folder, name, 199_999) == Some(200_000);
    // A shorter text leaves nothing of the longer one.
    let is_stored_again = folder.store(name, short).is_ok();
    let is_shorter = holds(alloc, folder, name, short.len(), short.as_slice());
    [
        is_missing,
        is_stored,
        is_held,
        has_no_limit,
        takes_one_more,
        is_stored_again,
        is_shorter,
    ]
}

/// As `answers_to`, for a file at `path`.
fn answers<F: Folder>(alloc: Global, folder: &mut F, path: &[u8]) -> Result<[bool; 7], NoMemory> {
    let name = Name::from_slice(alloc, path)?;
    let text = long_text(alloc)?;
    let short = Bytes::from_slice(alloc, b"4 3")?;
    Ok(answers_to(alloc, folder, &name, &text, &short))
}

#[test]
fn a_folder_in_memory_holds_files(rt: HostRuntime) {
    let mut folder = MemFolder::new(rt.alloc());
    assert!(rt; answers(rt.alloc(), &mut folder, b"a.node") == Ok([true; 7]));
}

/// As `answers_to`, for a file in a directory.
fn answers_in<F: Folder>(alloc: Global, folder: &mut F, dir: &str) -> Result<[bool; 7], NoMemory> {
    let path = format!(in alloc; "{dir}/a.node")?;
    answers(alloc, folder, path.as_bytes())
}

#[test]
fn system_folder_reaches_files(rt: HostRuntime) -> Result<(), Fail> {
    let alloc = rt.alloc();
    let id = process::id(rt.process());
    let dir = format!(in alloc; "/tmp/tet_ports_{id}")?;
    fs::create_dir(&rt, dir.as_str())?;
    let answers = answers_in(alloc, &mut OsFolder::new(&rt), dir.as_str());
    // No name in UTF-8, and a folder.
    let fails_at_name = fails(alloc, &mut OsFolder::new(&rt), b"\xff");
    let fails_at_folder = fails(alloc, &mut OsFolder::new(&rt), dir.as_bytes());
    fs::remove_dir_all(&rt, dir.as_str())?;
    assert!(rt; answers == Ok([true; 7]));
    assert!(rt; fails_at_name == Ok(true) && fails_at_folder == Ok(true));
    Ok(())
}

/// Gives or takes at most three bytes at a call, is interrupted once, and fails where it is at
/// `cut`.
#[derive(Drop)]
struct Choppy {
    bytes: Vec<u8>,
    at: usize,
    cut: Option<usize>,
    is_interrupted: bool,
    fails_flush: bool,
}

impl Choppy {
    fn new(alloc: Global, cut: Option<usize>) -> Self {
        Choppy {
            bytes: Vec::new(alloc),
            at: 0,
            cut,
            is_interrupted: false,
            fails_flush: false,
        }
    }

    fn step(&mut self) -> io::Result<()> {
        if self.cut == Some(self.at) {
            return Err(io::Error::from(io::ErrorKind::BrokenPipe));
        }
        if self.at == 3 && !self.is_interrupted {
            self.is_interrupted = true;
            return Err(io::Error::from(io::ErrorKind::Interrupted));
        }
        Ok(())
    }
}

impl Read for Choppy {
    fn read(&mut self, buf: &mut [u8]) -> io::Result<usize> {
        self.step()?;
        let start = self.at.min(self.bytes.len());
        let count = (self.bytes.len() - start).min(buf.len()).min(3);
        buf[..count].copy_from_slice(&self.bytes[start..start + count]);
        self.at = start + count;
        Ok(count)
    }
}

impl Write for Choppy {
    fn write(&mut self, buf: &[u8]) -> io::Result<usize> {
        self.step()?;
        let count = buf.len().min(3);
        self.bytes.extend_from_slice(&buf[..count])?;
        self.at = self.bytes.len();
        Ok(count)
    }

    fn flush(&mut self) -> io::Result<()> {
        if self.fails_flush {
            return Err(io::Error::from(io::ErrorKind::BrokenPipe));
        }
        Ok(())
    }
}

/// The number of bytes, of ten, that are read with at most `most` allowed, where the reader fails
/// at `cut`; or the number handed out with a fault.
fn count_read(
    alloc: Global,
    cut: Option<usize>,
    most: usize,
) -> Result<Result<usize, usize>, NoMemory> {
    let mut reader = Choppy::new(alloc, cut);
    reader.bytes.extend_from_slice(b"0123456789")?;
    Ok(match read_whole(alloc, &mut reader, most) {
        Ok(bytes) => Ok(bytes.len()),
        Err(FetchFault::TooLarge { taken }) => Err(taken.len()),
        Err(_) => Err(0),
    })
}

static CUT_READS: [(Option<usize>, usize, Result<usize, usize>); 5] = [
    (None, 10, Ok(10)),
    (None, 9, Err(10)),
    (None, 4, Err(5)),
    (Some(6), 10, Err(0)),
    (Some(0), 10, Err(0)),
];

#[test]
fn short_interrupted_and_failing_reads(rt: HostRuntime) {
    for (cut, most, want) in &CUT_READS {
        assert!(rt;
            count_read(rt.alloc(), *cut, *most) == Ok(*want),
            "{most}, {cut:?}"
        );
    }
}

static CUT_WRITES: [(Option<usize>, &[u8]); 3] = [
    (None, b"0123456789"),
    (Some(6), b"012345"),
    (Some(0), b""),
];

/// Whether just this is written of ten bytes, where the writer fails at `cut`.
fn writes(alloc: Global, cut: Option<usize>, want: &[u8]) -> bool {
    let mut writer = Choppy::new(alloc, cut);
    let written = write_whole(&mut writer, b"0123456789");
    written.is_ok() == cut.is_none() && writer.bytes.as_slice() == want
}

#[test]
fn short_interrupted_and_failing_writes(rt: HostRuntime) {
    for (cut, want) in &CUT_WRITES {
        assert!(rt; writes(rt.alloc(), *cut, want), "{cut:?}");
    }
}

static CUT_PUTS: [(Option<usize>, bool, Result<(), PutFault>); 3] = [
    (None, false, Ok(())),
    (Some(6), false, Err(PutFault::Failed)),
    (None, true, Err(PutFault::Failed)),
];

/// What a put to a standard sink answers whose writer fails at `cut`, or where it is flushed.
fn put_to(alloc: Global, cut: Option<usize>, fails_flush: bool) -> Result<(), PutFault> {
    let mut writer = Choppy::new(alloc, cut);
    writer.fails_flush = fails_flush;
    StdSink::new(writer).put(b"points 4\n")
}

/// What a put to a full writer answers, which takes nothing.
fn put_to_full() -> Result<(), PutFault> {
    let mut room = [0; 4];
    StdSink::new(room.as_mut_slice()).put(b"points")
}

#[test]
fn short_interrupted_and_failing_puts(rt: HostRuntime) {
    assert!(rt; put_to_full() == Err(PutFault::Failed));
    for (cut, fails_flush, want) in &CUT_PUTS {
        assert!(rt; put_to(rt.alloc(), *cut, *fails_flush) == *want, "{cut:?}");
    }
}

/// Sets one file to the bytes of another, over any folder, also one that tells nothing.
fn copy_file<F: Folder>(alloc: Global, folder: &mut F, from: &Name, to: &Name) -> Result<(), NoCopy>
    ensures done { OnOk result ((text : List ℕ) × Holds (F.state folder.old).files from.now text
        × ((F.state folder.new).files ≡ with_file (F.state folder.old).files to.now text)) }
    ensures refused { OnErr result
        ((text : List ℕ)
        × PartlyStored (F.state folder.old).files to.now text (F.state folder.new).files) }
    ensures untold { (F.state folder.old).files ≡ None → (F.state folder.new).files ≡ None }
{
    let Ok(text) = folder.fetch(alloc, from, 100) else {
        return Err(NoCopy);
    };
    match folder.store(to, &text) {
        Ok(()) => Ok(()),
        Err(_) => Err(NoCopy),
    }
}

#[derive(Debug, PartialEq, Eq, Clone, Copy)]
struct NoCopy;

/// How a file is copied before it is there and after, and whether the copy then has its text.
fn copied(
    alloc: Global,
    from: &Name,
    to: &Name,
    text: &Bytes,
) -> (Result<(), NoCopy>, Result<(), NoCopy>, bool) {
    let mut folder = MemFolder::new(alloc);
    let before = copy_file(alloc, &mut folder, from, to);
    let is_added = folder.add(from, text).is_ok();
    let after = copy_file(alloc, &mut folder, from, to);
    let is_held = has_text(&folder, to, text.as_slice());
    (before, after, is_added && is_held)
}

fn text_is_copied(alloc: Global) -> Result<bool, NoMemory> {
    let from = Name::from_slice(alloc, b"from")?;
    let to = Name::from_slice(alloc, b"to")?;
    let text = Bytes::from_slice(alloc, b"text")?;
    Ok(copied(alloc, &from, &to, &text) == (Err(NoCopy), Ok(()), true))
}

/// Whether a folder copies no file with no name.
fn copies_no_name<F: Folder>(alloc: Global, folder: &mut F) -> bool {
    let name = Name::new(alloc);
    copy_file(alloc, folder, &name, &name) == Err(NoCopy)
}

#[test]
fn any_folder_copies_a_file(rt: HostRuntime) {
    let mut files = OsFolder::new(&rt);
    let is_refused = copies_no_name(rt.alloc(), &mut files);
    assert!(rt; is_refused && text_is_copied(rt.alloc()) == Ok(true));
}

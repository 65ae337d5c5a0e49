//! Runs of the programs over a folder and streams in memory, and how they are to end.

use node_files::Limits;
use std::alloc::Global;
use tet_ports::{Bytes, MemFolder, MemSink, Name, NoMemory, Words};
use tetfit_run::run_fit;
use tetgen_run::{run_tetgen, run_within};
use tetwhere_run::run_where;

/// A file by its name, with its text in parts.
pub(crate) type File<'a> = (&'a [u8], &'a [&'a [u8]]);

/// A name with the text of its file, or that there is none.
pub(crate) type Left<'a> = (&'a [u8], Option<&'a [u8]>);

/// How a run ends: its status, and what it puts to the two streams.
#[derive(Clone, Copy)]
pub(crate) enum End<'a> {
    /// Well, with any summary.
    Done,
    /// Well, with this summary.
    Told(&'a [u8]),
    /// Well, with this summary, and these stages on the other stream.
    Staged(&'a [u8], &'a [u8]),
    /// With this status and this message, and no summary.
    Refused(u8, &'a [u8]),
    /// With this status, this beginning of a summary, and this message.
    Cut(u8, &'a [u8], &'a [u8]),
}

/// What an end says of the status, of the summary, if it does, and of the message.
#[derive(Clone, Copy)]
struct Said<'a> {
    code: u8,
    out: Option<&'a [u8]>,
    err: &'a [u8],
}

#[derive(Clone, Copy)]
pub(crate) enum Program {
    Tetgen,
    /// `tetgen` within limits on the points and bytes of the input, at most 20,000 each.
    Within { points: usize, bytes: usize },
    Tetfit,
    Tetwhere,
}

/// A run: the files that the folder holds, the words, how it ends, and what it leaves.
#[derive(Clone, Copy)]
pub(crate) struct Run<'a> {
    pub(crate) name: &'static str,
    pub(crate) held: &'a [File<'a>],
    pub(crate) words: &'a [&'a [u8]],
    pub(crate) end: End<'a>,
    pub(crate) files: &'a [Left<'a>],
}

/// A folder and the two streams, and the status of the last run with them.
#[derive(Drop)]
pub(crate) struct Place {
    code: u8,
    pub(crate) folder: MemFolder,
    pub(crate) out: MemSink,
    pub(crate) err: MemSink,
}

/// These words as a program gets them.
fn words_of(alloc: Global, words: &[&[u8]]) -> Result<Words, NoMemory> {
    let mut named = Words::new(alloc);
    for word in words {
        named.push(Name::from_slice(alloc, word)?)?;
    }
    Ok(named)
}

/// The text of these parts.
fn text_of(alloc: Global, parts: &[&[u8]]) -> Result<Bytes, NoMemory> {
    let mut text = Bytes::new(alloc);
    for part in parts {
        text.append(part)?;
    }
    Ok(text)
}

impl Place {
    /// A folder with these files.
    pub(crate) fn with_files(alloc: Global, files: &[File]) -> Result<Place, NoMemory> {
        let mut folder = MemFolder::new(alloc);
        for (name, parts) in files {
            folder.add(&Name::from_slice(alloc, name)?, &text_of(alloc, parts)?)?;
        }
        Ok(Place {
            code: 0,
            folder,
            out: MemSink::new(alloc),
            err: MemSink::new(alloc),
        })
    }

    /// Runs a program on these words.
    pub(crate) fn run(
        &mut self,
        alloc: Global,
        program: Program,
        words: &[&[u8]],
    ) -> Result<(), NoMemory> {
        let words = words_of(alloc, words)?;
        let Place {
            code,
            folder,
            out,
            err,
        } = self;
        *code = match program {
            Program::Tetgen => run_tetgen(alloc, &words, folder, out, err).code(),
            Program::Within { points, bytes } => {
                let limits = Limits {
                    points: points.min(20_000),
                    bytes: bytes.min(20_000),
                    ..Limits::tetgen()
                };
                run_within(alloc, limits, &words, folder, out, err).code()
            }
            Program::Tetfit => run_fit(alloc, &words, folder, out, err).code(),
            Program::Tetwhere => run_where(alloc, &words, folder, out, err).code(),
        };
        Ok(())
    }

    /// The bytes that the folder holds under a name, or none.
    fn file(&self, alloc: Global, name: &[u8]) -> Result<Option<&[u8]>, NoMemory> {
        let name = Name::from_slice(alloc, name)?;
        Ok(self.folder.get(&name).map(|text| text.as_slice()))
    }

    /// What the last run put otherwise than this end says, or its other status; None where it ended
    /// so.
    fn other_end(&self, alloc: Global, end: End) -> Result<Option<String>, NoMemory> {
        let said = said_of(end);
        let out = self.out.bytes().as_slice();
        let err = self.err.bytes().as_slice();
        if self.code != said.code {
            let found = format!(in alloc; "status {}, not {}", self.code, said.code)?;
            return Ok(Some(found));
        }
        if err != said.err {
            return other_text(alloc, "the message", Some(err), Some(said.err));
        }
        match said.out {
            Some(text) if out != text => other_text(alloc, "the summary", Some(out), Some(text)),
            _ => Ok(None),
        }
    }

    /// The first thing in which the last run differs from this end and these files, as it is and as
    /// it should be; None where there is none.
    pub(crate) fn difference(
        &self,
        alloc: Global,
        end: End,
        files: &[Left],
    ) -> Result<Option<String>, NoMemory> {
        let found = self.other_end(alloc, end)?;
        if found.is_some() {
            return Ok(found);
        }
        for (name, text) in files {
            let held = self.file(alloc, name)?;
            if held != *text {
                return other_text(alloc, read(name), held, *text);
            }
        }
        Ok(None)
    }
}

/// What an end says.
fn said_of(end: End) -> Said {
    match end {
        End::Done => Said {
            code: 0,
            out: None,
            err: b"",
        },
        End::Told(text) => Said {
            code: 0,
            out: Some(text),
            err: b"",
        },
        End::Staged(text, stages) => Said {
            code: 0,
            out: Some(text),
            err: stages,
        },
        End::Refused(code, message) => Said {
            code,
            out: Some(b""),
            err: message,
        },
        End::Cut(code, text, message) => Said {
            code,
            out: Some(text),
            err: message,
        },
    }
}

/// The bytes as text, where they are.
fn read(bytes: &[u8]) -> &str {
    match str::from_utf8(bytes) {
        Ok(text) => text,
        Err(_) => "no text",
    }
}

/// That a part of what is left is this text and not that one.
fn other_text(
    alloc: Global,
    part: &str,
    found: Option<&[u8]>,
    said: Option<&[u8]>,
) -> Result<Option<String>, NoMemory> {
    let (found, said) = (found.map(read), said.map(read));
    Ok(Some(format!(in alloc; "{part}: {found:?}, not {said:?}")?))
}

/// A run of a program, and what differs from what is said of it; None where nothing does.
pub(crate) fn difference(
    alloc: Global,
    program: Program,
    run: &Run,
) -> Result<Option<String>, NoMemory> {
    let mut place = Place::with_files(alloc, run.held)?;
    place.run(alloc, program, run.words)?;
    place.difference(alloc, run.end, run.files)
}

/// The name of a case, and what differs in it.
pub(crate) fn in_case(alloc: Global, name: &str, found: &str) -> Result<String, NoMemory> {
    Ok(format!(in alloc; "{name}: {found}")?)
}

/// The name of the first of these runs that ends otherwise or leaves other files, and what differs;
/// None where each is as it is said.
pub(crate) fn other_run(
    alloc: Global,
    program: Program,
    runs: &[Run],
) -> Result<Option<String>, NoMemory> {
    for run in runs {
        if let Some(found) = difference(alloc, program, run)? {
            return Ok(Some(in_case(alloc, run.name, found.as_str())?));
        }
    }
    Ok(None)
}

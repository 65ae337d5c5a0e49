//! What a caller hands to a run in memory.

ghost use Rattle.std.specs.Prelude.{◌≡◌, map, IfOk};
ghost use Rattle.memory_runs.specs.Texts.{bytes_of, folder_of};

use std::alloc::Global;
use tet_ports::{Bytes, MemFolder, Name, NoMemory, Words};

/// Bytes of a caller, such as a word or the name of a file.
#[repr(C)]
#[derive(Clone, Copy)]
pub struct Slice<'a> {
    pub bytes: &'a [u8],
}

/// A file of a caller: its name and its bytes.
#[repr(C)]
#[derive(Clone, Copy)]
pub struct Text<'a> {
    pub name: &'a [u8],
    pub bytes: &'a [u8],
}

/// What a caller hands to a run: the words, all files of the folder, and the names of the files
/// whose texts are wanted afterwards.
#[repr(C)]
#[derive(Clone, Copy)]
pub struct Task<'a> {
    pub words: &'a [Slice<'a>],
    pub files: &'a [Text<'a>],
    pub wanted: &'a [Slice<'a>],
}

/// The words of a run.
pub(crate) fn words_of(alloc: Global, words: &[Slice<'_>]) -> Result<Words, NoMemory>
    ensures { IfOk result (λ made. made ≡ map bytes_of words.now) }
{
    let mut made = Words::new(alloc);
    for word in words {
        made.push(Name::from_slice(alloc, word.bytes)?)?;
    }
    Ok(made)
}

/// The folder that has these files alone; of equal names the last one counts.
pub(crate) fn folder_of(alloc: Global, files: &[Text<'_>]) -> Result<MemFolder, NoMemory>
    ensures { IfOk result (λ folder. folder ≡ folder_of files.now) }
{
    let mut folder = MemFolder::new(alloc);
    for file in files {
        let name = Name::from_slice(alloc, file.name)?;
        folder.add(&name, &Bytes::from_slice(alloc, file.bytes)?)?;
    }
    Ok(folder)
}

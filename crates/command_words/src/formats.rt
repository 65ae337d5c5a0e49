//! The formats of files that have a whole mesh, and the words that ask for them.

ghost use Rattle.std.specs.Prelude.{◌≡◌, IfOk};
ghost use Rattle.command_words.specs.Formats.{asked, asks_whole, ending_of, formats_of, is_format, no_formats, word_of};

use crate::grammar::{has_word, is_word};
use std::alloc::Global;
use tet_ports::{Items, NoMemory, Words};

/// The format of a file that has a whole mesh, for viewers and solvers.
#[derive(Clone, Copy, Debug, PartialEq, Eq)]
pub enum Format {
    /// Legacy VTK.
    Vtk,
    /// Gmsh's MSH 2.2.
    Msh,
}

/// The files that have a whole mesh, in formats that viewers and solvers read, and the order of the
/// tetrahedra in all files.
#[derive(Clone, Copy, Debug, PartialEq, Eq)]
pub struct Formats {
    /// Write the `.vtk` file.
    pub vtk: bool,
    /// Write the `.msh` file.
    pub msh: bool,
    /// Write tetrahedra and faces of second order, which have the midpoints of their edges too.
    pub second_order: bool,
}

/// The word that asks for tetrahedra and faces of second order.
const SECOND_ORDER: &[u8] = b"-o2";

impl Format {
    /// The word that asks for the file.
    fn word(self) -> &'static [u8]
        ensures { result.now ≡ word_of self }
    {
        match self {
            Format::Vtk => b"-k",
            Format::Msh => b"--msh",
        }
    }

    /// What stands behind the base in the name of the file, as `.1.vtk`.
    pub fn ending(self) -> &'static [u8]
        ensures { result.now ≡ ending_of self }
    {
        match self {
            Format::Vtk => b".1.vtk",
            Format::Msh => b".1.msh",
        }
    }
}

impl Formats {
    /// No file, and tetrahedra of first order.
    pub(crate) fn none() -> Formats
        ensures { result ≡ no_formats }
    {
        Formats {
            vtk: false,
            msh: false,
            second_order: false,
        }
    }

    /// The formats that are asked for, in the order in which their files are stored.
    pub fn asked(&self, alloc: Global) -> Result<Items<Format>, NoMemory>
        ensures { IfOk result (λ formats. formats ≡ asked self.now) }
    {
        let mut formats = Items::new(alloc);
        if self.vtk {
            formats.push(Format::Vtk)?;
        }
        if self.msh {
            formats.push(Format::Msh)?;
        }
        Ok(formats)
    }

    /// Whether a file is asked for.
    pub fn asks_whole(&self) -> bool
        ensures { result ≡ asks_whole self.now }
    {
        self.vtk || self.msh
    }
}

/// Whether the word asks for a file of the whole mesh, or for second order: `-k` for the `.vtk`
/// file, `--msh` for the `.msh` file, `-o2` for second order.
pub fn is_format(word: &[u8]) -> bool
    ensures { result ≡ is_format word.now }
{
    is_word(word, Format::Vtk.word())
        || is_word(word, Format::Msh.word())
        || is_word(word, SECOND_ORDER)
}

/// The files of the whole mesh, and the order of tetrahedra, that the words ask for.
pub fn formats_of(words: &Words) -> Formats
    ensures { result ≡ formats_of words.now }
{
    Formats {
        vtk: has_word(words, Format::Vtk.word()),
        msh: has_word(words, Format::Msh.word()),
        second_order: has_word(words, SECOND_ORDER),
    }
}

//! The letters of the command line, and what its words ask for, as a value.

ghost use Rattle.std.specs.Prelude.{◌≡◌, ◌≤◌, ◌||◌, ◌&&◌, not, ℕ, Some, None, Err, IfOk, IsSome};
ghost use Rattle.command_words.specs.Grammar.{words_fault, words_fault_within};
ghost use Rattle.command_words.specs.Meaning.{is_letter, is_piecewise, options_of, options_within};
ghost use Rattle.command_words.specs.Meaning.{AreInRange, AreOfSample};
ghost use Rattle.command_words.specs.declared.fault.WordsFault.TheVariants.{Usage};

use crate::budget::{MOST_BUDGET, last_budget};
use crate::fault::WordsFault;
use crate::first_fault::words_fault;
use crate::formats::Formats;
use crate::grammar::{is_switched, name_of};
use crate::names::{base_of, extension_of};
use crate::numbers::{DECIMALS, HALVINGS, MOST_DECIMALS, MOST_HALVINGS, last_number, sample_of};
use grid_coords::WholePoint;
use std::alloc::Global;
use tet_ports::{Name, Words};
use tet_text::Decimal;

/// The extension with which a name on the command line ends.
#[derive(Clone, Copy, Debug, PartialEq, Eq)]
pub enum Extension {
    /// A file of points, `.node`.
    Node,
    /// A file of a piecewise linear complex, `.poly`.
    Poly,
    /// A file of a piecewise linear complex, `.smesh`.
    Smesh,
    /// A file of a surface made of polygons, `.off`.
    Off,
    /// A file of a surface made of triangles, ASCII `.stl`.
    Stl,
}

/// What the words of the command line ask for.
///
/// The switches stand in the order of the letters p, n, f, e, z, c, A, Q, N, E, F, M, r, w.
#[derive(Debug, Drop)]
pub struct Options {
    /// Mesh a piecewise linear complex.
    ///
    /// The letter p, the sample and an extension of a complex put this on; the extension `.node`
    /// puts it off.
    pub piecewise: bool,
    /// Write the `.neigh` file; not of the sample.
    pub neighbors: bool,
    /// Write all faces into the `.face` file.
    pub all_faces: bool,
    /// Write the `.edge` file.
    pub edges: bool,
    /// Number the output from 0.
    pub from_zero: bool,
    /// Keep the convex hull of a complex.
    pub keep_hull: bool,
    /// Write the attributes of the regions of a complex.
    pub regions: bool,
    /// No summary.
    pub quiet: bool,
    /// No `.node` file; the sample has none, nor the two files below.
    pub no_node: bool,
    /// No `.ele` file.
    pub no_ele: bool,
    /// No `.face` file and no `.edge` file.
    pub no_face: bool,
    /// The files of the whole mesh in other formats, and the order of tetrahedra. No word of this
    /// grammar asks for one, or for second order.
    pub formats: Formats,
    /// Do not merge coplanar facets of a complex: each side of a facet is a segment.
    pub keep_facets: bool,
    /// Read a mesh and check it; nothing is stored. The letters r and C put this on, which stand
    /// only together.
    pub check: bool,
    /// Mesh points with weights, which are their first attributes: the regular list. Not of a
    /// complex.
    pub weighted: bool,
    /// The most points that are added to a complex, at most 100,000, which is also the number where
    /// none is given.
    pub budget: u32,
    /// The most halvings of the grid, at most 12, which is also the number where none is given.
    pub halvings: u32,
    /// Round coordinates to this many decimals first, at most 20.
    pub decimals: Option<u32>,
    /// Round coordinates to multiples of this before that: a number of one to three digits, with at
    /// most 20 decimals. No word of this grammar gives it.
    pub unit: Option<Decimal>,
    /// The point from which the coordinates of the input are measured: the files have its
    /// coordinates added. No word gives it.
    pub origin: Option<WholePoint>,
    /// Mesh the sample with this many points, at most 10,000.
    pub sample: Option<u32>,
    /// The name without its extension; empty with the sample.
    pub base: Name,
    /// The extension with which the name ends, if it is a known one.
    pub extension: Option<Extension>,
}

/// Whether the byte is a switch that has no number.
pub(crate) fn is_letter(byte: u8) -> bool
    ensures { result ≡ is_letter byte }
{
    b"pnfezcAQNEFMrCw".contains(&byte)
}

/// Reads the words of the command line of `tetgen`, which ask for at most 12 halvings.
///
/// `Usage` exactly where they are not in the grammar, with the first fault: the word's number and
/// the place in it.
/// The switches c, A, S and M are read also where no complex is meshed, and have no effect there.
pub fn read_words(alloc: Global, words: &Words) -> Result<Options, WordsFault>
    ensures understood { IfOk result (λ options. words_fault words.now ≡ None) }
    ensures options { IfOk result (λ options. options ≡ options_of words.now) }
    ensures usage { (word place : ℕ) → result ≡ Err (Usage word place)
        → words_fault words.now ≡ Some (word, place) }
    ensures ranges { IfOk result (λ options. AreInRange options) }
    ensures halvings { IfOk result (λ options. options.halvings ≤ 12) }
    ensures sampled { IfOk result (λ options. IsSome options.sample → AreOfSample options) }
{
    read_words_within(alloc, words, MOST_HALVINGS)
}

/// As `read_words`, for words that ask for at most `halvings` halvings, and for that number where
/// they name none.
pub fn read_words_within(alloc: Global, words: &Words, halvings: u32) -> Result<Options, WordsFault>
    requires { halvings ≤ 18 }
    ensures understood { IfOk result (λ options. words_fault_within halvings words.now ≡ None) }
    ensures options { IfOk result (λ options. options ≡ options_within halvings words.now) }
    ensures usage { (word place : ℕ) → result ≡ Err (Usage word place)
        → words_fault_within halvings words.now ≡ Some (word, place) }
    ensures ranges { IfOk result (λ options. AreInRange options) }
    ensures halvings { IfOk result (λ options. options.halvings ≤ halvings) }
    ensures sampled { IfOk result (λ options. IsSome options.sample → AreOfSample options) }
{
    if let Some((word, place)) = words_fault(halvings, words) {
        return Err(WordsFault::Usage { word, place });
    }
    let name = name_of(words);
    let extension = extension_of(name);
    let sample = sample_of(words);
    let sampled = sample.is_some();
    Ok(Options {
        piecewise: is_piecewise(is_switched(words, b'p') || sampled, extension),
        neighbors: is_stored(is_switched(words, b'n'), sampled),
        all_faces: is_switched(words, b'f'),
        edges: is_switched(words, b'e'),
        from_zero: is_switched(words, b'z'),
        keep_hull: is_switched(words, b'c'),
        regions: is_switched(words, b'A'),
        quiet: is_switched(words, b'Q'),
        no_node: is_left_out(is_switched(words, b'N'), sampled),
        no_ele: is_left_out(is_switched(words, b'E'), sampled),
        no_face: is_left_out(is_switched(words, b'F'), sampled),
        formats: Formats::none(),
        keep_facets: is_switched(words, b'M'),
        check: is_switched(words, b'r'),
        weighted: is_switched(words, b'w'),
        budget: last_budget(words).unwrap_or(MOST_BUDGET),
        halvings: last_number(HALVINGS, halvings, words).unwrap_or(halvings),
        decimals: last_number(DECIMALS, MOST_DECIMALS, words),
        unit: None,
        origin: None,
        sample,
        base: Name::from_slice(alloc, base_of(name))?,
        extension,
    })
}

/// Whether a file is left out: the words ask for that, or for the sample, of which none is stored.
fn is_left_out(asked: bool, sampled: bool) -> bool
    ensures { result ≡ asked || sampled }
{
    asked || sampled
}

/// Whether a file is stored that the words ask for: not of the sample.
fn is_stored(asked: bool, sampled: bool) -> bool
    ensures { result ≡ asked && not sampled }
{
    asked && !sampled
}

/// Whether a complex is meshed, where `asked` says that the words ask for it.
fn is_piecewise(asked: bool, extension: Option<Extension>) -> bool
    ensures { result ≡ is_piecewise asked extension }
{
    match extension {
        Some(Extension::Node) => false,
        Some(Extension::Poly | Extension::Smesh | Extension::Off | Extension::Stl) => true,
        None => asked,
    }
}

//! Why a word is not understood.

ghost use Rattle.std.specs.Prelude.{◌≡◌};
ghost use Rattle.tetfit_run.specs.Reasons.{beside_reason, cluster_reason, long_reason, reason_of, why_no_check, why_not, word_reason};
ghost use Rattle.tetfit_run.specs.Texts.{reason_text};

use crate::kinds::{DECIMALS, HALVINGS, SAMPLE, byte_at, is_cluster, is_long, is_name};
use crate::request::{is_shape, is_unit, is_volume, keeps_boundary};
use tet_ports::Words;

/// Why a word is not understood.
#[derive(Clone, Copy, Debug, PartialEq, Eq)]
pub enum Reason {
    /// The letter q among others: a bound on the shape of tetrahedra is a word of its own.
    Shapes,
    /// A word that begins with `-q` and gives no bound, or one for a model without facets.
    Shape,
    /// The letter a among others: a bound on the volume of tetrahedra is a word of its own.
    Volumes,
    /// A word that begins with `-a` and gives no bound, or one for a model without facets.
    Volume,
    /// The letter m: sizes of tetrahedra, from a file.
    Sizes,
    /// The word `-Y` without a bound on volumes or shapes.
    Boundary,
    /// The letter o but for the word `-o2`, which asks for tetrahedra with midpoints.
    Order,
    /// The letter i: further points, from a file.
    Insertion,
    /// The letter R: fewer points.
    Coarsening,
    /// The letters O and D: better tetrahedra.
    Optimization,
    /// The letter T: a tolerance for points in one plane.
    Tolerance,
    /// The letter X: no exact arithmetic.
    Exactness,
    /// The letter d: a search for crossing facets.
    Crossings,
    /// The letter v: the Voronoi diagram.
    Voronoi,
    /// The letter g: files of Medit.
    MeditFiles,
    /// The letter w, which only the program for exact texts has.
    Weights,
    /// The letters r and C among others: a check is a word of its own.
    Check,
    /// A word that does not go with `-rC`.
    BesideCheck,
    /// The letters V, h, Y and k, which stand alone behind their hyphen.
    OwnWord,
    /// The long word for the sample, which only the program for exact texts has.
    Sample,
    /// No unit behind `--unit=`.
    Unit,
    /// No number, or too great a one, behind S, `--decimals=` or `--halvings=`.
    Number,
    /// A hyphen alone.
    NoSwitch,
    /// A word of no byte.
    EmptyWord,
    /// A second name.
    SecondName,
    /// No name among the words.
    NoName,
    /// An unknown word that begins with two hyphens.
    LongWord,
    /// An unknown letter.
    Letter,
}

impl Reason {
    /// The text that the message gives for this reason.
    pub(crate) fn text(self) -> &'static [u8]
        ensures { result.now ≡ reason_text self }
    {
        match self {
            Reason::Shapes => b"a ratio is a word of its own, as -q1.4",
            Reason::Shape => {
                b"a ratio from 1 to 100 with at most 4 decimals is wanted, \
                  or with /n behind it, n degrees from 0 to 30, and a model with facets"
            }
            Reason::Volumes => b"a volume is a word of its own, as -a0.5",
            Reason::Volume => b"a volume above 0 is wanted, and a model with facets",
            Reason::Sizes => b"sizes of tetrahedra are not there",
            Reason::Boundary => b"it goes with -a or -q",
            Reason::Order => b"midpoints of edges are corners by -o2, a word of its own",
            Reason::Insertion => b"points are not added from a list",
            Reason::Coarsening => b"meshes are not made coarser",
            Reason::Optimization => b"tetrahedra are made better by -q",
            Reason::Tolerance => b"signs are exact, and take no tolerance",
            Reason::Exactness => b"signs are always exact",
            Reason::Crossings => b"crossing parts are told without a switch",
            Reason::Voronoi => b"Voronoi cells are not written",
            Reason::MeditFiles => b"Medit files are not written, but -k and --msh write others",
            Reason::Weights => b"points with weights are meshed by tetgen -w",
            Reason::Check => b"a mesh is checked by -rC, a word of its own",
            Reason::BesideCheck => b"only -Q and a name go with -rC",
            Reason::OwnWord => b"this letter is a word of its own, with its hyphen",
            Reason::Sample => b"the sample is meshed by tetgen",
            Reason::Unit => b"a unit above 0 with at most 3 digits and 20 decimals is wanted",
            Reason::Number => b"a number within its limit is wanted",
            Reason::NoSwitch => b"a switch is wanted behind the hyphen",
            Reason::EmptyWord => b"the word is empty",
            Reason::SecondName => b"there is one name already",
            Reason::NoName => b"the name of a file is wanted",
            Reason::LongWord => b"a word that is not known",
            Reason::Letter => b"a letter that is not known",
        }
    }
}

/// Why a letter is no switch.
fn reason_of(byte: u8) -> Reason
    ensures { result ≡ reason_of byte }
{
    match byte {
        b'q' => Reason::Shapes,
        b'a' => Reason::Volumes,
        b'm' => Reason::Sizes,
        b'o' => Reason::Order,
        b'i' => Reason::Insertion,
        b'R' => Reason::Coarsening,
        b'O' => Reason::Optimization,
        b'D' => Reason::Optimization,
        b'T' => Reason::Tolerance,
        b'X' => Reason::Exactness,
        b'd' => Reason::Crossings,
        b'v' => Reason::Voronoi,
        b'g' => Reason::MeditFiles,
        b'w' => Reason::Weights,
        b'r' => Reason::Check,
        b'C' => Reason::Check,
        b'V' => Reason::OwnWord,
        b'Y' => Reason::OwnWord,
        b'k' => Reason::OwnWord,
        b'h' => Reason::OwnWord,
        _ => Reason::Letter,
    }
}

/// Why the byte at this place of a cluster, from 1, is not understood; behind `-a` it is the
/// volume that is missing, behind `-q` the shape, behind an S the number, and beside `-Y` a bound.
fn cluster_reason(word: &[u8], place: usize) -> Reason
    ensures { result ≡ cluster_reason word.now place }
{
    if is_volume(word) {
        return Reason::Volume;
    }
    if is_shape(word) {
        return Reason::Shape;
    }
    if keeps_boundary(word) {
        return Reason::Boundary;
    }
    if byte_at(word, place.saturating_sub(2)) == b'S' {
        return Reason::Number;
    }
    let i = place.saturating_sub(1);
    if i < word.len() {
        reason_of(byte_at(word, i))
    } else {
        Reason::NoSwitch
    }
}

fn long_reason(word: &[u8]) -> Reason
    ensures { result ≡ long_reason word.now }
{
    if word.starts_with(SAMPLE) {
        Reason::Sample
    } else if is_unit(word) {
        Reason::Unit
    } else if word.starts_with(DECIMALS) || word.starts_with(HALVINGS) {
        Reason::Number
    } else {
        Reason::LongWord
    }
}

fn word_reason(word: &[u8], place: usize) -> Reason
    ensures { result ≡ word_reason word.now place }
{
    if word.is_empty() {
        Reason::EmptyWord
    } else if is_long(word) {
        long_reason(word)
    } else if is_cluster(word) {
        cluster_reason(word, place)
    } else {
        Reason::SecondName
    }
}

/// Why the words are not understood, from the fault that `read_options` reports: the number of the
/// word and the place in it, both from 1.
pub fn why_not(words: &Words, word: usize, place: usize) -> Reason
    ensures { result ≡ why_not words.now word place }
{
    let i = word.saturating_sub(1);
    if i < words.len() {
        word_reason(words.word(i).as_slice(), place)
    } else {
        Reason::NoName
    }
}

/// Why a word does not go with `-rC`.
fn beside_reason(word: &[u8]) -> Reason
    ensures { result ≡ beside_reason word.now }
{
    if word.is_empty() {
        Reason::EmptyWord
    } else if is_name(word) {
        Reason::SecondName
    } else {
        Reason::BesideCheck
    }
}

/// Why the words of a check are not understood, from the fault that `check_fault` reports: the
/// number of the word, from 1.
pub fn why_no_check(words: &Words, word: usize) -> Reason
    ensures { result ≡ why_no_check words.now word }
{
    let i = word.saturating_sub(1);
    if i < words.len() {
        beside_reason(words.word(i).as_slice())
    } else {
        Reason::NoName
    }
}

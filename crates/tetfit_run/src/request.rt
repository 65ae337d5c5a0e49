//! Reads the words of the command: a page, the version, a check, or the options of a mesh.

ghost use Rattle.std.specs.Prelude.{◌≡◌, ◌+◌, ◌++◌, ◌<◌, ℕ, filter, length, Some, None, Err, IfOk, IfSome, OnOk, position};
ghost use Rattle.command_words.specs.Meaning.{AreInRange};
ghost use Rattle.command_words.specs.declared.fault.WordsFault.TheVariants.{Usage};
ghost use Rattle.tetfit_run.specs.Words.{request_of, asks_check, is_check, asks_limits, asks_page, asks_stages, asks_version, elsewhere_in, first_elsewhere, asks_elsewhere, is_bounding, is_letter_elsewhere, is_of_goal, is_own, is_plain, is_shape, is_unit, is_volume, keeps_boundary, named_fault, others, plain_fault, plain_options, plain_words, told_fault, IsPlainRequest};

use crate::kinds::{BOUNDARY, SAMPLE, SHAPE, UNIT, VOLUME, is_cluster};
use command_words::{Options, WordsFault, has_word, is_format, is_word, read_words_within};
use std::alloc::Global;
use tet_ports::{Name, NoMemory, Words};

/// How often the words may ask that the grid be halved.
pub(crate) const MOST_HALVINGS: u32 = 18;

/// What the words ask for first of all.
#[derive(Clone, Copy, Debug, PartialEq, Eq)]
pub enum Request {
    /// The page that says how the program is called.
    Page,
    /// The version of the program.
    Version,
    /// The check of a mesh that is there, as the words without `-V` say (`other_words`).
    Check,
    /// A mesh, as the words without `-V` say (`other_words`).
    Mesh,
}

fn asks_page(words: &Words) -> bool
    ensures { result ≡ asks_page words.now }
{
    words.is_empty() || has_word(words, b"-h") || has_word(words, b"--help")
}

/// Whether the word asks for the check of a mesh that is there.
pub(crate) fn is_check(word: &[u8]) -> bool
    ensures { result ≡ is_check word.now }
{
    is_word(word, b"-rC") || is_word(word, b"-Cr")
}

fn asks_check(words: &Words) -> bool
    ensures { result ≡ asks_check words.now }
{
    words
        .as_slice()
        .iter()
        .any(|word| is_check(word.as_slice()))
}

/// What the words ask for first of all: `-h`, `--help` and no word at all ask for the page,
/// `--version` for the version, and `-rC` for a check.
pub fn request_of(words: &Words) -> Request
    ensures { result ≡ request_of words.now }
{
    if asks_page(words) {
        Request::Page
    } else if has_word(words, b"--version") {
        Request::Version
    } else if asks_check(words) {
        Request::Check
    } else {
        Request::Mesh
    }
}

/// Whether the word `-V` asks that the stages be said.
pub fn asks_stages(words: &Words) -> bool
    ensures { result ≡ asks_stages words.now }
{
    has_word(words, b"-V")
}

/// Whether the word bounds the volume of tetrahedra.
pub(crate) fn is_volume(word: &[u8]) -> bool
    ensures { result ≡ is_volume word.now }
{
    word.starts_with(VOLUME)
}

/// Whether the word asks for the volume limits of regions.
pub(crate) fn asks_limits(word: &[u8]) -> bool
    ensures { result ≡ asks_limits word.now }
{
    is_word(word, VOLUME)
}

/// Whether the word bounds the shape of tetrahedra.
pub(crate) fn is_shape(word: &[u8]) -> bool
    ensures { result ≡ is_shape word.now }
{
    word.starts_with(SHAPE)
}

/// Whether the word bounds volumes or shapes.
pub(crate) fn is_bounding(word: &[u8]) -> bool
    ensures { result ≡ is_bounding word.now }
{
    is_volume(word) || is_shape(word)
}

/// Whether the word asks that no points be added on segments and in facets.
pub(crate) fn keeps_boundary(word: &[u8]) -> bool
    ensures { result ≡ keeps_boundary word.now }
{
    is_word(word, BOUNDARY)
}

/// Whether the word says what tetrahedra are to be like.
fn is_of_goal(word: &[u8]) -> bool
    ensures { result ≡ is_of_goal word.now }
{
    is_bounding(word) || keeps_boundary(word)
}

/// Whether the word gives the unit to whose multiples coordinates are rounded.
pub(crate) fn is_unit(word: &[u8]) -> bool
    ensures { result ≡ is_unit word.now }
{
    word.starts_with(UNIT)
}

/// Whether the word is of this program alone, and not about the stages.
fn is_own(word: &[u8]) -> bool
    ensures { result ≡ is_own word.now }
{
    is_of_goal(word) || is_unit(word) || is_format(word)
}

/// Whether the word is of the grammar of the program that meshes exact texts.
fn is_plain(word: &[u8]) -> bool
    ensures { result ≡ is_plain word.now }
{
    !is_own(word) && !is_word(word, b"-V")
}

/// The words of the grammar of the program that meshes exact texts.
pub(crate) fn plain_words(alloc: Global, words: &Words) -> Result<Words, NoMemory>
    ensures { IfOk result (λ kept. kept ≡ plain_words words.now) }
{
    let mut kept = Words::new(alloc);
    for word in words.as_slice() {
        if is_plain(word.as_slice()) {
            kept.push(Name::from_slice(alloc, word.as_slice())?)?;
        }
    }
    Ok(kept)
}

/// Appends the words of this program alone.
fn append_own(alloc: Global, words: &Words, kept: &mut Words) -> Result<(), NoMemory>
    ensures { OnOk result (kept.new ≡ kept.old ++ filter is_own words.now) }
{
    for word in words.as_slice() {
        if is_own(word.as_slice()) {
            kept.push(Name::from_slice(alloc, word.as_slice())?)?;
        }
    }
    Ok(())
}

/// The words but for `-V`: plain words, and behind them those of this program alone.
pub fn other_words(alloc: Global, words: &Words) -> Result<Words, NoMemory>
    ensures { IfOk result (λ kept. kept ≡ others words.now) }
{
    let mut kept = plain_words(alloc, words)?;
    append_own(alloc, words, &mut kept)?;
    Ok(kept)
}

fn is_letter_elsewhere(byte: u8) -> bool
    ensures { result ≡ is_letter_elsewhere byte }
{
    byte == b'w' || byte == b'r' || byte == b'C'
}

fn first_letter_elsewhere(word: &[u8]) -> Option<usize>
    ensures value { result ≡ position is_letter_elsewhere word.now }
    ensures bound { IfSome result (λ i. i < length word.now) }
{
    word.iter().position(|byte| is_letter_elsewhere(*byte))
}

/// The place in a word, from 1, at which it asks for weights, a check or the sample.
fn elsewhere_in(word: &[u8]) -> Option<usize>
    ensures { result ≡ elsewhere_in word.now }
{
    if is_cluster(word) {
        let i = first_letter_elsewhere(word)?;
        return Some(i + 1);
    }
    if word.starts_with(SAMPLE) {
        return Some(3);
    }
    None
}

/// The first word that asks for weights, a check or the sample, and the place in it, both from 1.
fn first_elsewhere(words: &Words) -> Option<(usize, usize)>
    ensures { result ≡ first_elsewhere 1 words.now }
{
    for (i, word) in words.as_slice().iter().enumerate() {
        if let Some(place) = elsewhere_in(word.as_slice()) {
            return Some((i + 1, place));
        }
    }
    None
}

/// Whether the options ask for weights, a check or the sample.
fn is_elsewhere(options: &Options) -> bool
    ensures { result ≡ asks_elsewhere options.now }
{
    options.weighted || options.check || options.sample.is_some()
}

/// The fault at this word and place, or, where it is behind the last word, that of the first word
/// that asks for weights, a check or the sample.
fn named_fault(words: &Words, word: usize, place: usize) -> (usize, usize)
    ensures { result ≡ named_fault words.now (word, place) }
{
    if word > words.len() {
        first_elsewhere(words).unwrap_or((word, place))
    } else {
        (word, place)
    }
}

/// The fault that is reported for words with this fault by the grammar.
fn told_fault(words: &Words, fault: WordsFault) -> WordsFault
    ensures { result ≡ told_fault words.now fault }
{
    match fault {
        WordsFault::Usage { word, place } => {
            let (word, place) = named_fault(words, word, place);
            WordsFault::Usage { word, place }
        }
        WordsFault::NoMemory => WordsFault::NoMemory,
    }
}

/// The options that plain words ask for.
///
/// `Usage` exactly where they are not in the grammar of `read_words_within`, with its first fault,
/// or ask for weights, a check or the sample, with the first word that does and the place in it;
/// the same word and place are given where the grammar's fault is a missing word.
pub(crate) fn read_options(alloc: Global, words: &Words) -> Result<Options, WordsFault>
    ensures understood { IfOk result (λ options. plain_fault words.now ≡ None) }
    ensures options { IfOk result (λ options. options ≡ plain_options words.now) }
    ensures usage { (word place : ℕ) → result ≡ Err (Usage word place)
        → plain_fault words.now ≡ Some (word, place) }
    ensures ranges { IfOk result (λ options. AreInRange options) }
    ensures plain { IfOk result (λ options. IsPlainRequest options) }
{
    let options = match read_words_within(alloc, words, MOST_HALVINGS) {
        Ok(options) => options,
        Err(fault) => return Err(told_fault(words, fault)),
    };
    if is_elsewhere(&options) {
        let (word, place) = first_elsewhere(words).unwrap_or((1, 1));
        return Err(WordsFault::Usage { word, place });
    }
    Ok(options)
}

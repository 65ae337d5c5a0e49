//! The kinds of command words: long words, clusters of letters, names.

ghost use Rattle.std.specs.Prelude.{◌≡◌};
ghost use Rattle.std.specs.List.{slice_index_or};
ghost use Rattle.command_words.specs.Words.{is_cluster, is_long, is_name};

/// The front of the long word that rounds coordinates.
pub(crate) const DECIMALS: &[u8] = b"--decimals=";

/// The front of the long word that asks for the sample.
pub(crate) const SAMPLE: &[u8] = b"--sample=";

/// The front of the long word that bounds the halvings of the grid.
pub(crate) const HALVINGS: &[u8] = b"--halvings=";

/// The front of the long word that gives the unit to whose multiples coordinates are rounded.
pub(crate) const UNIT: &[u8] = b"--unit=";

/// The front of the word that bounds the volume of tetrahedra; alone it asks for the limits of
/// regions.
pub(crate) const VOLUME: &[u8] = b"-a";

/// The front of the word that bounds the shape of tetrahedra.
pub(crate) const SHAPE: &[u8] = b"-q";

/// The word that asks that no points be added on segments and in facets.
pub(crate) const BOUNDARY: &[u8] = b"-Y";

/// Whether the word begins with two hyphens.
pub(crate) fn is_long(word: &[u8]) -> bool
    ensures { result ≡ is_long word.now }
{
    word.starts_with(b"--")
}

/// Whether the word begins with one hyphen.
pub(crate) fn is_cluster(word: &[u8]) -> bool
    ensures { result ≡ is_cluster word.now }
{
    word.starts_with(b"-") && !is_long(word)
}

/// Whether the word is not empty and begins with no hyphen.
pub(crate) fn is_name(word: &[u8]) -> bool
    ensures { result ≡ is_name word.now }
{
    !word.is_empty() && !word.starts_with(b"-")
}

/// The byte at place `i`, from 0; 0 past the end.
pub(crate) fn byte_at(word: &[u8], i: usize) -> u8
    ensures { result ≡ slice_index_or word.now i 0 }
{
    if i < word.len() { word[i] } else { 0 }
}

//! Names of surfaces, whose extension may have letters of either case.

ghost use Rattle.std.specs.Prelude.{◌≡◌, map, IfOk};
ghost use Rattle.tetfit_run.specs.Words.{in_small, surface_of_end};

use command_words::{Extension, file_name};
use std::alloc::Global;
use tet_ports::{Name, NoMemory, Words};

/// The extension of a surface that these bytes are, in letters of either case.
fn surface_of_end(tail: &[u8]) -> Option<Extension>
    ensures { result ≡ surface_of_end tail.now }
{
    if tail.eq_ignore_ascii_case(b".off") {
        Some(Extension::Off)
    } else if tail.eq_ignore_ascii_case(b".stl") {
        Some(Extension::Stl)
    } else {
        None
    }
}

/// The word, with the extension of a surface at its end in small letters: `part.STL` as `part.stl`.
#[tactic(auto, unfolding(crate::specs::Words::in_small))]
fn in_small(alloc: Global, word: &[u8]) -> Result<Name, NoMemory>
    ensures { IfOk result (λ name. name ≡ in_small word.now) }
{
    let cut = word.len().saturating_sub(4);
    match surface_of_end(&word[cut..]) {
        Some(form) => file_name(alloc, &Name::from_slice(alloc, &word[..cut])?, form),
        None => Name::from_slice(alloc, word),
    }
}

/// The words, each with the extension of a surface at its end in small letters.
pub(crate) fn all_in_small(alloc: Global, words: &Words) -> Result<Words, NoMemory>
    ensures { IfOk result (λ made. made ≡ map in_small words.now) }
{
    let mut made = Words::new(alloc);
    for word in words.as_slice() {
        made.push(in_small(alloc, word.as_slice())?)?;
    }
    Ok(made)
}

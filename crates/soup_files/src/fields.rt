//! Required fields: keywords and coordinates.

ghost use Rattle.std.specs.Prelude.{◌≡◌};
ghost use Rattle.tet_text.specs.Reading.{left_after};
ghost use Rattle.tet_text.specs.Faults.{bad_count};
ghost use Rattle.soup_files.specs.Keyword.{is_word, keyword_at};
ghost use Rattle.soup_files.specs.OnLine.{last_word_at, last_place_at, first_place_at};

use grid_coords::DecimalPoint;
use node_files::read_place;
use tet_text::{Fields, TextFault, TextKind};

/// How much of what other programs write a reader takes.
#[derive(Clone, Copy)]
pub(crate) enum Grammar {
    /// Keywords as they are, and nothing behind the coordinates of a point.
    Strict,
    /// Keywords with letters of either case, further fields behind the coordinates of a point in an
    /// `.off` file, and several solids in an `.stl` file.
    Wide,
}

/// The fault of a field of this line that is not the keyword, or not the number of corners, that is
/// wanted.
pub(crate) fn bad_count(fields: &Fields) -> TextFault
    ensures { result ≡ bad_count fields.now.line }
{
    TextFault {
        line: fields.line(),
        kind: TextKind::BadCount,
    }
}

/// Whether the bytes of a field are `word`, in the wide grammar with letters of either case.
pub(crate) fn is_word(grammar: Grammar, word: &[u8], bytes: &[u8]) -> bool
    ensures { result ≡ is_word grammar word.now bytes.now }
{
    match grammar {
        Grammar::Strict => bytes == word,
        Grammar::Wide => bytes.eq_ignore_ascii_case(word),
    }
}

/// Reads the next field, which has to be `word`; BadCount where it is another one, Ended where the
/// line has no further field.
#[tactic(auto, unfolding(crate::specs::Keyword::passing_at))]
pub(crate) fn want_keyword(
    grammar: Grammar,
    word: &[u8],
    fields: &mut Fields,
) -> Result<(), TextFault>
    ensures value { left_after (λ x. x) result fields.new.fields
        ≡ keyword_at grammar word.now fields.old.line fields.old.fields }
    ensures line { fields.new.line ≡ fields.old.line }
{
    let field = fields.want_field()?;
    if is_word(grammar, word, field.bytes()) {
        return Ok(());
    }
    Err(bad_count(fields))
}

/// Reads `word` and the end of the line.
#[tactic(auto, unfolding(crate::specs::OnLine::last_word_at))]
pub(crate) fn want_last_word(
    grammar: Grammar,
    word: &[u8],
    fields: &mut Fields,
) -> Result<(), TextFault>
    ensures { result ≡ last_word_at grammar word.now fields.old.line fields.old.fields }
{
    want_keyword(grammar, word, fields)?;
    fields.want_end()
}

/// Reads the coordinates of a point and the end of the line.
#[tactic(auto, unfolding(crate::specs::OnLine::last_place_at))]
pub(crate) fn want_last_place(fields: &mut Fields) -> Result<DecimalPoint, TextFault>
    ensures { result ≡ last_place_at fields.old.line fields.old.fields }
{
    let place = read_place(fields)?;
    fields.want_end()?;
    Ok(place)
}

/// Reads the coordinates of a point. Fields behind them are skipped.
#[tactic(auto, unfolding(crate::specs::OnLine::first_place_at))]
pub(crate) fn want_first_place(fields: &mut Fields) -> Result<DecimalPoint, TextFault>
    ensures { result ≡ first_place_at fields.old.line fields.old.fields }
{
    read_place(fields)
}

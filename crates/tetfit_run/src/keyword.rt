//! The line on the keyword of an `.off` file that is not read.

ghost use Rattle.std.specs.Prelude.{◌≡◌, ◌++◌, IfOk, OnOk};
ghost use Rattle.std.specs.Char.{is_ascii_alphabetic, is_ascii_graphic};
ghost use Rattle.std.specs.List.{list_all, list_any};
ghost use Rattle.tet_text.specs.Lines.{content_lines};
ghost use Rattle.tetfit_run.specs.Keyword.{is_plain_word, is_unread_word, keyword_text};
ghost use Rattle.tetfit_run.specs.Keyword.{unread_field, unread_front, unread_line, unread_text};

use command_words::Extension;
use mesh_check::append_number;
use soup_files::is_wide_off_word;
use std::alloc::Global;
use tet_ports::{Bytes, Name, NoMemory};
use tet_text::{Fields, Lines};

/// The most bytes of a word that is told.
const MOST_BYTES: usize = 20;

/// Whether each byte is a printing character of ASCII.
fn is_printing(word: &[u8]) -> bool
    ensures { result ≡ list_all is_ascii_graphic word.now }
{
    word.iter().all(|byte| byte.is_ascii_graphic())
}

/// Whether a byte is a letter of ASCII.
fn has_letter(word: &[u8]) -> bool
    ensures { result ≡ list_any is_ascii_alphabetic word.now }
{
    word.iter().any(|byte| byte.is_ascii_alphabetic())
}

/// Whether the word can be told: at most 20 bytes, each a printing character of ASCII, with a
/// letter among them.
fn is_plain_word(word: &[u8]) -> bool
    ensures { result ≡ is_plain_word word.now }
{
    word.len() <= MOST_BYTES && is_printing(word) && has_letter(word)
}

/// Whether the word can be told and is no keyword of an `.off` file.
fn is_unread_word(word: &[u8]) -> bool
    ensures { result ≡ is_unread_word word.now }
{
    is_plain_word(word) && !is_wide_off_word(word)
}

/// Appends a line of the file with this name, as its front.
fn append_front(text: &mut Bytes, name: &[u8], line: usize) -> Result<(), NoMemory>
    ensures { OnOk result (text.new ≡ text.old ++ unread_front name.now line) }
{
    text.append(b"tetfit: ")?;
    text.append(name)?;
    text.append(b": line ")?;
    append_number(text, line)?;
    text.append(b": ")
}

/// Appends that the word is not read, on a line of the file with this name.
fn append_unread(text: &mut Bytes, name: &[u8], line: usize, word: &[u8]) -> Result<(), NoMemory>
    ensures { OnOk result (text.new ≡ text.old ++ unread_line name.now line word.now) }
{
    append_front(text, name, line)?;
    text.append(word)?;
    text.append(b" is not read: OFF, COFF, NOFF, CNOFF, STOFF, STCOFF, STNOFF and STCNOFF are\n")
}

/// Appends that the first of the fields is not read, where it is a word that is told.
fn append_field(text: &mut Bytes, name: &[u8], fields: &mut Fields) -> Result<(), NoMemory>
    ensures { OnOk result (text.new ≡ text.old
        ++ unread_field name.now fields.old.line fields.old.fields) }
{
    let line = fields.line();
    match fields.next() {
        Some(field) if is_unread_word(field.bytes()) => {
            append_unread(text, name, line, field.bytes())
        }
        _ => Ok(()),
    }
}

/// The line that the first field of a text is not read, where it is a word that is told.
fn unread_text(alloc: Global, name: &[u8], bytes: &[u8]) -> Result<Bytes, NoMemory>
    ensures { IfOk result (λ text. text ≡ unread_text name.now (content_lines bytes.now)) }
{
    let mut text = Bytes::new(alloc);
    let mut lines = Lines::new(bytes);
    if let Some(mut fields) = lines.next_fields() {
        append_field(&mut text, name, &mut fields)?;
    }
    Ok(text)
}

/// The line on the keyword of an `.off` file, where it is a word that is told and not read; nothing
/// of an `.stl` file.
pub(crate) fn keyword_text(
    alloc: Global,
    form: Extension,
    name: &Name,
    bytes: &Bytes,
) -> Result<Bytes, NoMemory>
    ensures { IfOk result (λ text. text ≡ keyword_text form name.now bytes.now) }
{
    match form {
        Extension::Off => unread_text(alloc, name.as_slice(), bytes.as_slice()),
        _ => Ok(Bytes::new(alloc)),
    }
}

//! Lines of numbers.
ghost use Rattle.std.specs.Prelude.{◌≡◌, [], ◌∷◌, ◌++◌, ◌+◌, ◌≤◌, List, ℕ, length, take};
ghost use Rattle.std.specs.Prelude.{IfOk, OnOk};
ghost use Rattle.mesh_files.specs.Texts.{fields_then, text_line};

use crate::counter::Counter;
use crate::fields::{Fields, put_field};
use crate::piece::put;
use std::alloc::Global;
use std::marker::Model;
use tet_ports::{Bytes, NoMemory};

/// The bytes that are asked for each line at once: a number and four fields of up to six digits
/// take 35.
const LINE: usize = 36;

/// The bytes that are gathered before they are appended to a text.
const BLOCK: usize = 1024;

/// The bytes of a block after which a line still has room: a number and four fields, each of up to
/// twenty bytes with one after it, and what is copied beyond the last of them.
const FULL: usize = 888;

/// The bytes that are gathered at most with others.
const FEW: usize = 128;

/// A text that is made line by line. Its last bytes are in a block, from which many lines are
/// appended at once.
#[derive(Drop)]
pub(crate) struct Lines {
    text: Bytes,
    block: [u8; BLOCK],
    used: usize,
    fields: Fields,
    number: Counter,
}

impl Model for Lines {
    ghost Value = { List ℕ };

    ghost view = { λ l. l.text ++ take l.used l.block };

    ghost invariant = { λ l. l.used ≤ 888 };
}

/// A text without lines, with memory for `count` lines. The fields of the first `numbers` numbers
/// are prepared, where there are no more of them than lines.
pub(crate) fn room_for_lines(alloc: Global, count: usize, numbers: u32) -> Result<Lines, NoMemory>
    ensures { IfOk result (λ text. text ≡ []) }
{
    let known = if numbers as usize <= count {
        numbers
    } else {
        0
    };
    Ok(Lines {
        text: Bytes::with_capacity(alloc, count.saturating_mul(LINE))?,
        block: [0; BLOCK],
        used: 0,
        fields: Fields::below(alloc, known)?,
        number: Counter::new(),
    })
}

impl Lines {
    /// Appends bytes.
    pub(crate) fn append(&mut self, bytes: &[u8]) -> Result<(), NoMemory>
        ensures { OnOk result (self.new ≡ self.old ++ bytes.now) }
    {
        if bytes.len() <= FEW {
            let used = put(&mut self.block, self.used, bytes, bytes.len());
            self.used = settle(&mut self.text, &self.block, used)?;
            return Ok(());
        }
        self.text.append(&self.block[..self.used])?;
        self.used = 0;
        self.text.append(bytes)
    }

    /// The whole text.
    pub(crate) fn finish(self) -> Result<Bytes, NoMemory>
        ensures { IfOk result (λ text. text ≡ self) }
    {
        let Lines {
            mut text,
            block,
            used,
            fields,
            ..
        } = self;
        fields.let_go();
        text.append(&block[..used])?;
        Ok(text)
    }
}

/// Appends a line: a number, and up to four fields after it.
#[inline(always)]
pub(crate) fn append_line(out: &mut Lines, number: u64, fields: &[i64]) -> Result<(), NoMemory>
    requires { length fields.now ≤ 4 }
    ensures { OnOk result (out.new ≡ out.old ++ text_line number fields.now) }
{
    append_fields(out, number, fields, b'\n')
}

/// Appends a number, up to four fields after it, and a byte.
#[inline(always)]
pub(crate) fn append_fields(
    out: &mut Lines,
    number: u64,
    fields: &[i64],
    end: u8,
) -> Result<(), NoMemory>
    requires { length fields.now ≤ 4 }
    ensures { OnOk result (out.new ≡ out.old ++ fields_then number fields.now (end ∷ [])) }
{
    out.number.reach(number);
    let mut at = out.number.put(&mut out.block, out.used);
    for field in fields {
        at = put_field(&mut out.block, at, *field, &out.fields);
    }
    out.block[at] = end;
    out.used = settle(&mut out.text, &out.block, at + 1)?;
    Ok(())
}

/// Appends the first bytes of a block to the text where the block is nearly full, and returns how
/// many of them are then left in it.
#[inline(always)]
fn settle(text: &mut Bytes, block: &[u8], used: usize) -> Result<usize, NoMemory>
    requires { used ≤ length block.now }
    ensures same { IfOk result (λ left. text.new ++ take left block.now ≡ text.old
        ++ take used block.now) }
    ensures room { IfOk result (λ left. left ≤ 888) }
{
    if used <= FULL {
        return Ok(used);
    }
    text.append(&block[..used])?;
    Ok(0)
}

//! Numbers as fields of a line.
ghost use Rattle.std.specs.Prelude.{◌≡◌, [], ◌∷◌, ◌++◌, ◌+◌, ◌≤◌, ◌<◌, ◌^◌, length, take};
ghost use Rattle.std.specs.Prelude.{vec_len, vec_capacity};
ghost use Rattle.std.specs.Fmt.{signed_decimal};
ghost use Rattle.mesh_files.specs.Fields.{AreFields, IsNumberField, with_last};

use crate::counter::Counter;
use crate::piece::{SPAN, put, write_field};
use std::alloc::Global;
use tet_ports::{Items, NoMemory};

/// The bytes of a prepared field: a space and up to seven digits. The fewer they are, the more of
/// the fields stay in the near cache.
const SHORT: usize = 8;

/// The numbers from here on have no prepared field.
const MOST: u32 = 10_000_000;

/// The field of a number: the first `len` bytes of the text are a space and the decimals.
#[derive(Clone, Copy)]
pub(crate) struct Field {
    pub(crate) text: [u8; SHORT],
    pub(crate) len: u8,
}

/// The fields of the numbers from 0 on.
#[derive(Drop)]
pub(crate) struct Fields {
    known: Items<Field>,
    ghost right: { AreFields known },
}

impl Fields {
    /// The fields of the numbers below `count`, as far as they have up to seven digits. The ten
    /// that differ in their last digit alone are made from one field.
    pub(crate) fn below(alloc: Global, count: u32) -> Result<Self, NoMemory> {
        let few = count.min(MOST);
        let mut known: Vec<Field> = Vec::with_capacity(alloc, few as usize)?;
        let mut counter = Counter::new();
        let mut field = Field {
            text: [b' '; SHORT],
            len: 1,
        };
        let mut last = b'9' + 1;
        for number in 0..few {
            if last > b'9' {
                counter.reach(u64::from(number));
                field = field_of(&counter);
                last = field.text[usize::from(field.len) - 1];
            }
            push_with_last(&mut known, field, last);
            last += 1;
        }
        Ok(Fields {
            known: Items::from(known),
        })
    }

    /// Frees the memory, as that of a list of items is freed.
    pub(crate) fn let_go(self) {
        self.known.let_go();
    }
}

/// The field of the number of a counter.
#[inline(always)]
fn field_of(counter: &Counter) -> Field
    requires { counter.now.number < 10 ^ 7 }
    ensures { IsNumberField counter.now.number result }
{
    let mut line = [b' '; 1 + SPAN];
    let len = counter.put(&mut line, 1);
    let mut text = [b' '; SHORT];
    text.copy_from_slice(&line[..SHORT]);
    Field {
        text,
        len: len as u8,
    }
}

/// Appends a field with another last digit, for which there is room. The digit is written into the
/// list, so that no byte is loaded that was stored just before.
#[inline(always)]
fn push_with_last(known: &mut Vec<Field>, field: Field, last: u8)
    requires room { vec_len known.old < vec_capacity known.old }
    requires digit { 1 ≤ field.len }
    requires short { field.len ≤ 8 }
    ensures pushed { known.new.items ≡ known.old.items ++ with_last field last ∷ [] }
    ensures longer { vec_len known.new ≡ vec_len known.old + 1 }
    ensures capacity { vec_capacity known.new ≡ vec_capacity known.old }
{
    let at = known.len();
    known.push_reserved(field);
    known[at].text[usize::from(field.len) - 1] = last;
}

/// Writes a space and a field at a place of a block, and returns where they end. Other bytes after
/// that are changed too.
#[inline(always)]
pub(crate) fn put_field(block: &mut [u8], at: usize, field: i64, fields: &Fields) -> usize
    requires { at + 24 ≤ length block.old }
    ensures short { result ≤ at + 21 }
    ensures written { take result block.new ≡ take at block.old ++ 32 ∷ signed_decimal field }
{
    let number = field.unsigned_abs() as usize;
    if field >= 0 && number < fields.known.len() {
        let known = fields.known.at(number);
        return put(block, at, &known.text, usize::from(known.len));
    }
    put_any(block, at, field)
}

/// Writes a space and a number that has no prepared field.
fn put_any(block: &mut [u8], at: usize, field: i64) -> usize
    requires { at + 24 ≤ length block.old }
    ensures short { result ≤ at + 21 }
    ensures written { take result block.new ≡ take at block.old ++ 32 ∷ signed_decimal field }
{
    if field == -1 {
        return put(block, at, b" -1", 3);
    }
    let mut line = [b' '; SPAN + SPAN];
    let start = write_field(&mut line, SPAN, field);
    put(block, at, &line[start..start + SPAN], SPAN - start)
}

//! Lines and fields, numbers and their faults, and what is printed of decimals.

use std::alloc::Global;
use tet_ports::{Bytes, NoMemory};
use tet_text::*;

/// The first field of a text.
fn first_field(text: &[u8]) -> Option<Field<'_>> {
    let mut lines = Lines::new(text);
    let mut fields = lines.next_fields()?;
    fields.next()
}

const TEXT: &[u8] = b"# head\n\n 1\t2 #3\r\n#\na#b\n\r\n  x";

/// A field of a text by the number of its content line and its place there, both from 0, with the
/// line that it is in.
fn field_at(text: &[u8], line: usize, place: usize) -> Option<(usize, &[u8])> {
    let mut lines = Lines::new(text);
    for _ in 0..line {
        lines.next_fields()?;
    }
    let mut fields = lines.next_fields()?;
    for _ in 0..place {
        fields.next()?;
    }
    let field = fields.next()?;
    Some((field.line, field.bytes()))
}

static LINES_AND_FIELDS: [(usize, usize, Option<(usize, &[u8])>); 8] = [
    (0, 0, Some((3, b"1"))),
    (0, 1, Some((3, b"2"))),
    (0, 2, None),
    (1, 0, Some((5, b"a"))),
    (1, 1, None),
    (2, 0, Some((7, b"x"))),
    (2, 1, None),
    (3, 0, None),
];

#[test]
fn lines_and_fields(rt: HostRuntime) {
    assert!(rt; counts_of_lines(TEXT) == (7, 7));
    for (line, place, wanted) in &LINES_AND_FIELDS {
        assert!(rt; field_at(TEXT, *line, *place) == *wanted, "{line} {place}");
    }
}

/// How many lines a text has, told before some content lines are taken and after.
fn counts_of_lines(text: &[u8]) -> (usize, usize) {
    let mut lines = Lines::new(text);
    let count = lines.line_count();
    for _ in 0..4 {
        lines.next_fields();
    }
    (count, lines.line_count())
}

static COUNTS_AND_WHOLES: [(&[u8], Option<u64>, Option<i64>); 7] = [
    (b"0", Some(0), Some(0)),
    (b"007", Some(7), Some(7)),
    (
        b"999999999999999999",
        Some(999_999_999_999_999_999),
        Some(999_999_999_999_999_999),
    ),
    (b"1234567890123456789", None, None),
    (b"-12", None, Some(-12)),
    (b"+12", None, Some(12)),
    (b"1.0", None, None),
];

/// The count and the whole number that a text begins with.
fn count_and_whole(text: &[u8]) -> (Option<u64>, Option<i64>) {
    match first_field(text) {
        Some(field) => (read_count(&field).ok(), read_whole(&field).ok()),
        None => (None, None),
    }
}

#[test]
fn counts_and_wholes(rt: HostRuntime) {
    for (text, count, whole) in &COUNTS_AND_WHOLES {
        assert!(rt; count_and_whole(text) == (*count, *whole), "{text:?}");
    }
}

const LARGEST: i128 = 999_999_999_999_999_999_999_999_999_999_999_999;

/// The decimal that a text begins with.
pub(crate) fn first_decimal(text: &[u8]) -> Option<Decimal> {
    read_decimal(&first_field(text)?).ok()
}

/// The text of a decimal.
fn printed(alloc: Global, decimal: &Decimal) -> Result<Bytes, NoMemory> {
    let mut out = Bytes::new(alloc);
    print_decimal(decimal, &mut out)?;
    Ok(out)
}

static DECIMALS: [(&[u8], i128, u32, &[u8]); 15] = [
    (b"-1.250", -125, 2, b"-1.25"),
    (b".5", 5, 1, b"0.5"),
    (b"5.", 5, 0, b"5"),
    (b"1.25e-1", 125, 3, b"0.125"),
    (b"7e2", 700, 0, b"700"),
    (b"100e-2", 1, 0, b"1"),
    (b"-0", 0, 0, b"0"),
    (b"0.0", 0, 0, b"0"),
    (b".0", 0, 0, b"0"),
    (b"0e999", 0, 0, b"0"),
    (b"+1E+2", 100, 0, b"100"),
    (b"-0.05", -5, 2, b"-0.05"),
    (
        b"0.001e38",
        100_000_000_000_000_000_000_000_000_000_000_000,
        0,
        b"100000000000000000000000000000000000",
    ),
    (
        b"1e35",
        100_000_000_000_000_000_000_000_000_000_000_000,
        0,
        b"100000000000000000000000000000000000",
    ),
    (
        b"-999999999999999999999999999999999999",
        -LARGEST,
        0,
        b"-999999999999999999999999999999999999",
    ),
];

/// Whether the decimal that a text begins with is this one, and is printed so.
fn is_decimal(alloc: Global, text: &[u8], value: i128, scale: u32, wanted: &[u8]) -> bool {
    let Some(decimal) = first_decimal(text) else {
        return false;
    };
    match printed(alloc, &decimal) {
        Ok(out) => (decimal.value, decimal.scale) == (value, scale) && out.as_slice() == wanted,
        Err(NoMemory) => false,
    }
}

#[test]
fn decimals(rt: HostRuntime) {
    for (text, value, scale, wanted) in &DECIMALS {
        assert!(rt;
            is_decimal(rt.alloc(), text, *value, *scale, wanted),
            "{text:?}"
        );
    }
}

/// The scale of the decimal that a text begins with, and the length of its text.
fn lengths(alloc: Global, text: &[u8]) -> Option<(u32, usize)> {
    let decimal = first_decimal(text)?;
    let out = printed(alloc, &decimal).ok()?;
    Some((decimal.scale, out.len()))
}

static NO_DECIMALS: [&[u8]; 13] = [
    b".",
    b"1e",
    b"+.e1",
    b"1e36",
    b"1..2",
    b"1.2.3",
    b"e1",
    b"1e1234",
    b"--1",
    b"1-",
    b"1e+",
    b"0x1",
    b"0.000000000000000000000000000000000000",
];

/// The fault of the decimal that a text begins with.
fn decimal_fault(text: &[u8]) -> Option<TextFault> {
    read_decimal(&first_field(text)?).err()
}

const NO_NUMBER: Option<TextFault> = Some(TextFault {
    line: 1,
    kind: TextKind::NotANumber,
});

#[test]
fn faults_of_decimals(rt: HostRuntime) {
    assert!(rt; lengths(rt.alloc(), b"1e-999") == Some((999, 1001)));
    for text in &NO_DECIMALS {
        assert!(rt; decimal_fault(text) == NO_NUMBER, "{text:?}");
    }
}

//! Pieces of a line.
ghost use Rattle.std.specs.Prelude.{◌≡◌, ◌∷◌, ◌++◌, ◌+◌, ◌≤◌, length, drop, take};
ghost use Rattle.std.specs.Fmt.{signed_decimal};

use itoa::write_digits;

/// The bytes that are copied for a number and a byte before it, which take up to 21.
pub(crate) const SPAN: usize = 24;

/// Copies a piece to a place of a block, and returns where the first bytes of the piece end there.
#[inline(always)]
pub(crate) fn put(block: &mut [u8], at: usize, piece: &[u8], len: usize) -> usize
    requires room { at + length piece.now ≤ length block.old }
    requires within { len ≤ length piece.now }
    ensures end { result ≡ at + len }
    ensures written { take result block.new ≡ take at block.old ++ take len piece.now }
{
    block[at..at + piece.len()].copy_from_slice(piece);
    at + len
}

/// Writes a space and a field so that they end at a place, and returns where they start.
#[inline(always)]
pub(crate) fn write_field(line: &mut [u8], end: usize, field: i64) -> usize
    requires room { 21 ≤ end }
    requires within { end ≤ length line.old }
    ensures short { end ≤ result + 21 }
    ensures before { result ≤ end }
    ensures written { drop result line.new ≡ 32 ∷ (signed_decimal field ++ drop end line.old) }
{
    let start = write_signed(line, end, field);
    line[start - 1] = b' ';
    start - 1
}

/// Writes a number so that it ends at a place, and returns where it starts.
#[inline(always)]
fn write_signed(line: &mut [u8], end: usize, number: i64) -> usize
    requires room { 20 ≤ end }
    requires within { end ≤ length line.old }
    ensures short { end ≤ result + 20 }
    ensures before { result ≤ end }
    ensures written { drop result line.new ≡ signed_decimal number ++ drop end line.old }
{
    let start = write_digits(number.unsigned_abs(), line, end);
    if number >= 0 {
        return start;
    }
    line[start - 1] = b'-';
    start - 1
}

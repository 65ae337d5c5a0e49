//! Decimals as text.

ghost use Rattle.std.specs.Prelude.{◌≡◌, ◌<◌, ◌≤◌, ◌+◌, ◌-◌, ◌*◌, ◌^◌, ◌++◌, [], ◌∷◌, length, take, drop, replicate, OnOk, OnErr};
ghost use Rattle.tet_text.specs.Printing.{glyphs, numeral, with_decimal_point, with_zeros, size_text, sign_text, decimal_text};

use crate::Decimal;
use tet_ports::{Bytes, NoMemory};

/// How many digits a number below 10^36 has at most.
const MOST_DIGITS: usize = 36;

/// The greatest number of 64 bits.
const MOST_NARROW: u128 = 18_446_744_073_709_551_615;

/// Writes the digits of the number before a place of the buffer, none for 0, and gives the place
/// where they begin.
fn fill_before(buffer: &mut [u8; MOST_DIGITS], place: usize, number: u64) -> usize
    requires place { place ≤ 36 }
    requires room { number < 10 ^ place }
    ensures start { result ≤ 36 }
    ensures digits { drop result buffer.new ≡ glyphs number ++ drop place buffer.old }
{
    let mut left = number;
    let mut at = place;
    while left > 0 {
        at -= 1;
        buffer[at] = b'0' + (left % 10) as u8;
        left /= 10;
    }
    at
}

/// Writes low digits of the number to the end of the buffer, until the rest fits into 64 bits;
/// gives the place where they begin, and the rest.
fn fill_wide(buffer: &mut [u8; MOST_DIGITS], number: u128) -> (usize, u64)
    requires { number < 10 ^ 36 }
    ensures place { result.0 ≤ 36 }
    ensures room { result.1 < 10 ^ result.0 }
    ensures digits { glyphs result.1 ++ drop result.0 buffer.new ≡ glyphs number }
{
    let mut left = number;
    let mut at = MOST_DIGITS;
    while left > MOST_NARROW {
        at -= 1;
        buffer[at] = b'0' + (left % 10) as u8;
        left /= 10;
    }
    (at, left as u64)
}

/// Writes the digits of the number to the end of the buffer, and gives the place where they begin.
fn fill_digits(buffer: &mut [u8; MOST_DIGITS], number: u128) -> usize
    requires { number < 10 ^ 36 }
    ensures start { result ≤ 36 }
    ensures digits { drop result buffer.new ≡ numeral number }
{
    if number == 0 {
        buffer[35] = b'0';
        return 35;
    }
    let (place, left) = fill_wide(buffer, number);
    fill_before(buffer, place, left)
}

fn put_zeros(count: u64, out: &mut Bytes) -> Result<(), NoMemory>
    ensures ok { OnOk result (out.new ≡ out.old ++ replicate count 48) }
    ensures err { OnErr result (take (length out.old) out.new ≡ out.old) }
{
    for _ in 0..count {
        out.push(b'0')?;
    }
    Ok(())
}

fn put_fraction(digits: &[u8], scale: u64, out: &mut Bytes) -> Result<(), NoMemory>
    requires { length digits.now ≤ scale }
    ensures ok { OnOk result (out.new
        ≡ out.old ++ 48 ∷ 46 ∷ replicate (scale - length digits.now) 48 ++ digits.now) }
    ensures err { OnErr result (take (length out.old) out.new ≡ out.old) }
{
    out.append(b"0.")?;
    put_zeros(scale - digits.len() as u64, out)?;
    out.append(digits)
}

fn put_with_point(digits: &[u8], scale: u64, out: &mut Bytes) -> Result<(), NoMemory>
    requires { scale < length digits.now }
    ensures ok { OnOk result (out.new ≡ out.old ++ with_decimal_point scale digits.now) }
    ensures err { OnErr result (take (length out.old) out.new ≡ out.old) }
{
    let (whole, fraction) = digits.split_at(digits.len() - scale as usize);
    out.append(whole)?;
    if scale > 0 {
        out.append(b".")?;
        out.append(fraction)?;
    }
    Ok(())
}

#[tactic(auto, using(crate::proofs::Texts::fraction_text, crate::proofs::Texts::no_zeros))]
fn put_digits(digits: &[u8], scale: u64, out: &mut Bytes) -> Result<(), NoMemory>
    requires { 0 < length digits.now }
    ensures ok { OnOk result (out.new ≡ out.old
        ++ with_decimal_point scale (with_zeros scale digits.now)) }
    ensures err { OnErr result (take (length out.old) out.new ≡ out.old) }
{
    if digits.len() > scale as usize {
        put_with_point(digits, scale, out)
    } else {
        put_fraction(digits, scale, out)
    }
}

fn put_size(number: u128, scale: u64, out: &mut Bytes) -> Result<(), NoMemory>
    requires { number < 10 ^ 36 }
    ensures ok { OnOk result (out.new ≡ out.old ++ size_text number scale) }
    ensures err { OnErr result (take (length out.old) out.new ≡ out.old) }
{
    let mut buffer = [0; MOST_DIGITS];
    let start = fill_digits(&mut buffer, number);
    put_digits(&buffer[start..], scale, out)
}

fn put_sign(negative: bool, out: &mut Bytes) -> Result<(), NoMemory>
    ensures ok { OnOk result (out.new ≡ out.old ++ sign_text negative) }
    ensures err { OnErr result (out.new ≡ out.old) }
{
    if negative {
        out.append(b"-")?;
    }
    Ok(())
}

fn put_value(negative: bool, size: u128, scale: u64, out: &mut Bytes) -> Result<(), NoMemory>
    requires { size < 10 ^ 36 }
    ensures ok { OnOk result (out.new ≡ out.old ++ (sign_text negative ++ size_text size scale)) }
    ensures err { OnErr result (take (length out.old) out.new ≡ out.old) }
{
    put_sign(negative, out)?;
    put_size(size, scale, out)
}

/// Appends `size` / 10^`scale` with all `scale` digits of its fraction, and a minus before it where
/// it is `negative`.
pub fn print_scaled(negative: bool, size: u128, scale: u64, out: &mut Bytes) -> Result<(), NoMemory>
    requires { size < 10 ^ 36 }
    ensures ok { OnOk result (out.new ≡ out.old ++ (sign_text negative ++ size_text size scale)) }
    ensures err { OnErr result (out.new ≡ out.old) }
{
    let len = out.len();
    if put_value(negative, size, scale, out).is_ok() {
        return Ok(());
    }
    out.cut(len);
    Err(NoMemory)
}

/// Appends the exact decimal, plain, with no exponent and no trailing zero: a minus where it is
/// below zero, at least one digit before the point, and no point where it is whole.
pub fn print_decimal(d: &Decimal, out: &mut Bytes) -> Result<(), NoMemory>
    ensures ok { OnOk result (out.new ≡ out.old ++ decimal_text d.now) }
    ensures err { OnErr result (out.new ≡ out.old) }
{
    print_scaled(d.value < 0, d.value.unsigned_abs(), u64::from(d.scale), out)
}

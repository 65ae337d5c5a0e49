//! Integers of 192 bits: sums, differences and products, modulo `2^192`.

use sign_predicates::Sign;

/// The greatest digit.
const DIGIT: u64 = 0xffff_ffff;

/// An integer modulo `2^192`: its digits of 32 bits, the lowest first. That below 0 has the highest
/// bit.
pub(crate) type Wide = [u64; 6];

pub(crate) const ZERO: Wide = [0; 6];

/// The number, in 192 bits.
pub(crate) fn wide(x: i64) -> Wide {
    let bits = x.cast_unsigned();
    let above = if x < 0 { DIGIT } else { 0 };
    [bits & DIGIT, bits >> 32, above, above, above, above]
}

/// The sum of two numbers and a carry.
fn carried_sum(a: &Wide, b: &Wide, carry: u64) -> Wide {
    let mut all = ZERO;
    let mut carry = carry;
    for i in 0..6 {
        let sum = a[i].wrapping_add(b[i]).wrapping_add(carry);
        all[i] = sum & DIGIT;
        carry = sum >> 32;
    }
    all
}

pub(crate) fn plus(a: &Wide, b: &Wide) -> Wide {
    carried_sum(a, b, 0)
}

/// The first number, and the second with its bits turned, and 1.
pub(crate) fn minus(a: &Wide, b: &Wide) -> Wide {
    let mut turned = ZERO;
    for i in 0..6 {
        turned[i] = b[i] ^ DIGIT;
    }
    carried_sum(a, &turned, 1)
}

/// The number times a digit, moved up by `up` digits.
fn times_digit(a: &Wide, digit: u64, up: usize) -> Wide {
    let mut all = ZERO;
    let mut carry = 0;
    for i in up..6 {
        let sum = a[i - up].wrapping_mul(digit).wrapping_add(carry);
        all[i] = sum & DIGIT;
        carry = sum >> 32;
    }
    all
}

pub(crate) fn times(a: &Wide, b: &Wide) -> Wide {
    let mut all = ZERO;
    for i in 0..6 {
        all = plus(&all, &times_digit(a, b[i], i));
    }
    all
}

pub(crate) fn sign_of(a: &Wide) -> Sign {
    if *a == ZERO {
        Sign::Zero
    } else if a[5] >> 31 == 0 {
        Sign::Above
    } else {
        Sign::Below
    }
}

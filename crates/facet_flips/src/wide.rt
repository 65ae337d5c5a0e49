//! Numbers of 256 and of 384 bits: sums and products, without signs.

/// The lower 64 bits of a number.
const LOW: u128 = 0xffff_ffff_ffff_ffff;

/// A number of 256 bits; the order is by the high half first.
#[derive(Clone, Copy, PartialEq, Eq, PartialOrd, Ord)]
pub(crate) struct Wide {
    pub(crate) high: u128,
    pub(crate) low: u128,
}

/// A number of 384 bits; the order is by the highest part first.
#[derive(Clone, Copy, PartialEq, Eq, PartialOrd, Ord)]
pub(crate) struct Widest {
    high: u128,
    middle: u128,
    low: u128,
}

/// The number in 256 bits.
pub(crate) fn widened(low: u128) -> Wide {
    Wide { high: 0, low }
}

/// The product of two numbers, from those of their halves.
pub(crate) fn product(a: u128, b: u128) -> Wide {
    let (a0, a1, b0, b1) = (a & LOW, a >> 64, b & LOW, b >> 64);
    let low = a0.wrapping_mul(b0);
    let one = a0.wrapping_mul(b1);
    let two = a1.wrapping_mul(b0);
    let middle = (low >> 64).wrapping_add(one & LOW).wrapping_add(two & LOW);
    let above = (one >> 64)
        .wrapping_add(two >> 64)
        .wrapping_add(middle >> 64);
    Wide {
        high: a1.wrapping_mul(b1).wrapping_add(above),
        low: (low & LOW) | (middle & LOW) << 64,
    }
}

/// The sum; what is above 256 bits is lost.
pub(crate) fn plus(a: Wide, b: Wide) -> Wide {
    let (low, carry) = a.low.overflowing_add(b.low);
    Wide {
        high: a.high.wrapping_add(b.high).wrapping_add(u128::from(carry)),
        low,
    }
}

/// The difference, where the second is not above the first.
pub(crate) fn minus(a: Wide, b: Wide) -> Wide {
    let (low, borrow) = a.low.overflowing_sub(b.low);
    Wide {
        high: a.high.wrapping_sub(b.high).wrapping_sub(u128::from(borrow)),
        low,
    }
}

/// The product with a number of 128 bits.
pub(crate) fn times(a: Wide, b: u128) -> Widest {
    let low = product(a.low, b);
    let high = product(a.high, b);
    let (middle, carry) = low.high.overflowing_add(high.low);
    Widest {
        high: high.high.wrapping_add(u128::from(carry)),
        middle,
        low: low.low,
    }
}

/// The product of two numbers; what is above 384 bits is lost.
pub(crate) fn long_product(a: Wide, b: Wide) -> Widest {
    let lower = times(a, b.low);
    let upper = product(a.low, b.high);
    let (middle, carry) = lower.middle.overflowing_add(upper.low);
    let above = a.high.wrapping_mul(b.high).wrapping_add(upper.high);
    Widest {
        high: lower
            .high
            .wrapping_add(above)
            .wrapping_add(u128::from(carry)),
        middle,
        low: lower.low,
    }
}

/// The number without its lowest 0, 64 or 128 bits, so that at least 64 are left where some were
/// taken away, and how many were taken.
fn shortened(a: Wide) -> (u128, u32) {
    if a.high == 0 {
        (a.low, 0)
    } else if a.high >> 64 == 0 {
        (a.high << 64 | a.low >> 64, 64)
    } else {
        (a.high, 128)
    }
}

/// The number of bits, and the highest 64 of them, the first of which is 1; of 0 all are 0.
fn leading(a: Wide) -> (u32, u128) {
    let (part, taken) = shortened(a);
    let zeros = part.leading_zeros();
    let bits = 128u32.wrapping_sub(zeros).wrapping_add(taken);
    (bits, part.wrapping_shl(zeros) >> 64)
}

/// A quotient, rounded down, as the bits of a floating point number: ten of the exponent, and 54
/// that follow the leading one. It does not fall where the quotient rises, by more than a few
/// units in the last place. The divisor is not 0.
pub(crate) fn rank_of(a: Wide, b: Wide) -> u64 {
    let (bits, top) = leading(a);
    let (bits_below, below) = leading(b);
    if top == 0 || below == 0 {
        return 0;
    }
    let quotient = (top << 63) / below;
    let exponent = bits.wrapping_add(400).wrapping_sub(bits_below);
    let (exponent, quotient) = if quotient >> 63 == 0 {
        (exponent.wrapping_sub(1), quotient << 1)
    } else {
        (exponent, quotient)
    };
    let fraction = (quotient >> 9 & 0x3f_ffff_ffff_ffff) as u64;
    u64::from(exponent).wrapping_shl(54) | fraction
}

//! The parts of a float.

ghost use Rattle.std.specs.Prelude.{◌≡◌, ◌<◌, ◌≤◌, ◌^◌};
ghost use Rattle.binary_floats.specs.Floats.{has_sign_bit, float_exponent, fraction_of, step_count, float_steps};

/// A float as a whole number of steps, each 1 / 2^`halvings`; below it the middle to the next float
/// is `below` quarters of a step away.
#[derive(Clone, Copy)]
pub(crate) struct Steps {
    pub(crate) count: u32,
    pub(crate) halvings: u32,
    pub(crate) below: u32,
}

pub(crate) fn is_negative(bits: u32) -> bool
    ensures { result ≡ has_sign_bit bits }
{
    bits >= 1 << 31
}

pub(crate) fn exponent_of(bits: u32) -> u32
    ensures value { result ≡ float_exponent bits }
    ensures bound { result < 256 }
{
    bits / 0x80_0000 % 256
}

fn fraction_of(bits: u32) -> u32
    ensures value { result ≡ fraction_of bits }
    ensures bound { result < 2 ^ 23 }
{
    bits % 0x80_0000
}

pub(crate) fn count_of(bits: u32) -> u32
    ensures value { result ≡ step_count bits }
    ensures bound { result < 2 ^ 24 }
{
    if exponent_of(bits) == 0 {
        fraction_of(bits)
    } else {
        fraction_of(bits) + 0x80_0000
    }
}

/// The steps of a float below 2^24.
pub(crate) fn steps_of(bits: u32) -> Steps
    requires { float_exponent bits < 150 }
    ensures value { result ≡ float_steps bits }
    ensures count { result.count < 2 ^ 24 }
    ensures halvings { result.halvings ≤ 149 }
    ensures below { result.below ≤ 2 }
{
    let exponent = exponent_of(bits);
    let halvings = if exponent == 0 { 149 } else { 150 - exponent };
    let below = if fraction_of(bits) == 0 && exponent > 1 {
        1
    } else {
        2
    };
    let count = count_of(bits);
    Steps {
        count,
        halvings,
        below,
    }
}

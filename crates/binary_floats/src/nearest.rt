//! The whole number of units that is nearest to a float.

ghost use Rattle.std.specs.Prelude.{◌≡◌, ◌<◌, ◌≤◌, ◌*◌, ◌-◌, ◌^◌, IfSome, unsigned_abs};
ghost use Rattle.tet_text.specs.Decimals.{signed};
ghost use Rattle.binary_floats.specs.Doubles.{count_of, exponent_of, fraction_of, halvings_of, has_sign_bit, nearest_size, nearest_units, nearest_whole};

fn exponent_of(bits: u64) -> u32
    ensures value { result ≡ exponent_of bits }
    ensures bound { result < 2048 }
{
    (bits / (1 << 52) % 2048) as u32
}

fn count_of(bits: u64) -> u64
    ensures value { result ≡ count_of bits }
    ensures bound { result < 2 ^ 53 }
{
    let fraction = bits % (1 << 52);
    if exponent_of(bits) == 0 {
        fraction
    } else {
        fraction + (1 << 52)
    }
}

/// How often the unit is halved in which a size below 2^52 is a whole number.
fn halvings_of(bits: u64) -> u32
    requires { exponent_of bits < 1075 }
    ensures value { result ≡ halvings_of bits }
    ensures some { 0 < result }
{
    let exponent = exponent_of(bits);
    if exponent == 0 { 1074 } else { 1075 - exponent }
}

/// The whole number nearest to `n / 2^k`, and the larger of two.
fn nearest_whole(n: u128, k: u32) -> u128
    requires n { n < 2 ^ 127 }
    requires k { 0 < k }
    ensures { result ≡ nearest_whole n k }
{
    if k > 127 {
        return 0;
    }
    let half = 1_u128 << (k - 1);
    (n + half) >> k
}

/// The size of a float in units of 1 / 10^`decimals`.
fn nearest_size(decimals: u32, bits: u64) -> u128
    requires decimals { decimals ≤ 22 }
    requires small { exponent_of bits < 1075 }
    ensures { result ≡ nearest_size decimals bits }
{
    let units = u128::from(count_of(bits)) * 10_u128.pow(decimals);
    nearest_whole(units, halvings_of(bits))
}

fn signed(negative: bool, size: u32) -> i64
    ensures { result ≡ signed negative size }
{
    let size = i64::from(size);
    if negative { -size } else { size }
}

/// The binary float of 64 bits with the given bits in units of 1 / 10^`decimals`, rounded to a
/// whole number from its exact value, halves away from zero.
///
/// `None` where the float is infinite or no number, where it is 2^52 or more in size, or where the
/// whole number is over `most` in size.
pub fn nearest_units(most: u32, decimals: u32, bits: u64) -> Option<i64>
    requires { decimals ≤ 22 }
    ensures { result ≡ nearest_units most decimals bits }
{
    if exponent_of(bits) >= 1075 {
        return None;
    }
    let size = nearest_size(decimals, bits);
    if size > u128::from(most) {
        return None;
    }
    Some(signed(bits >= 1 << 63, size as u32))
}

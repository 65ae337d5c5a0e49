//! Numbers of 256 and 384 bits: products, sums and their order.
ghost use Rattle.std.specs.Prelude.{◌≡◌, ◌+◌, ◌*◌, ◌^◌, ◌<◌, nat_lt};
ghost use Rattle.tet_shapes.specs.Wide.{wide_value, wider_value};

/// A number of 256 bits: `low + high * 2^128`.
#[derive(Clone, Copy)]
pub(crate) struct Wide {
    high: u128,
    low: u128,
}

/// A number of 384 bits: `low + middle * 2^128 + high * 2^256`.
#[derive(Clone, Copy)]
pub(crate) struct Wider {
    high: u128,
    middle: u128,
    low: u128,
}

/// The product.
#[inline]
pub(crate) fn product(a: u128, b: u128) -> Wide
    ensures { wide_value result ≡ a * b }
{
    let (low, high) = a.carrying_mul(b, 0);
    Wide { high, low }
}

/// The sum.
#[inline]
pub(crate) fn plus(a: Wide, b: Wide) -> Wide
    requires { wide_value a + wide_value b < 2 ^ 256 }
    ensures { wide_value result ≡ wide_value a + wide_value b }
{
    let (low, carry) = a.low.carrying_add(b.low, false);
    Wide {
        high: a.high + b.high + carry as u128,
        low,
    }
}

/// The product with a number of 128 bits.
#[inline]
pub(crate) fn times(a: Wide, b: u128) -> Wider
    ensures { wider_value result ≡ wide_value a * b }
{
    let (low, carry) = a.low.carrying_mul(b, 0);
    let (middle, high) = a.high.carrying_mul(b, carry);
    Wider { high, middle, low }
}

/// Whether the first is above the second.
#[inline]
pub(crate) fn is_over(a: Wider, b: Wider) -> bool
    ensures { result ≡ nat_lt (wider_value b) (wider_value a) }
{
    if a.high != b.high {
        b.high < a.high
    } else if a.middle != b.middle {
        b.middle < a.middle
    } else {
        b.low < a.low
    }
}

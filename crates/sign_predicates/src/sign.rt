//! The sign of a sum.
ghost use Rattle.std.specs.Prelude.{◌≡◌, pos, int_lt, ◌<ℤ◌, ◌≤ℤ◌, IsTrue, ◌↔◌};
ghost use Rattle.sign_predicates.specs.Sign.{IsSignOf, least_sign};

use crate::Sign;

#[inline]
pub(crate) fn sign_of(n: i128) -> Sign
    ensures { IsSignOf result n }
{
    if n < 0 {
        Sign::Below
    } else if n == 0 {
        Sign::Zero
    } else {
        Sign::Above
    }
}

#[inline]
pub(crate) fn is_above(n: i128) -> bool
    ensures { result ≡ int_lt (pos 0) n }
{
    n > 0
}

#[inline]
pub(crate) fn is_below(n: i128) -> bool
    ensures { result ≡ int_lt n (pos 0) }
{
    n < 0
}

/// The least of two signs, where below is least.
#[inline]
pub(crate) fn least_sign(s: Sign, t: Sign) -> Sign
    ensures { result ≡ least_sign s t }
{
    match s {
        Sign::Below => Sign::Below,
        Sign::Zero => match t {
            Sign::Below => Sign::Below,
            Sign::Zero | Sign::Above => Sign::Zero,
        },
        Sign::Above => t,
    }
}

#[inline]
pub(crate) fn vanishes(n: i128) -> bool
    ensures { IsTrue result ↔ n ≡ pos 0 }
{
    n == 0
}

#[inline]
pub(crate) fn is_not_below(n: i128) -> bool
    ensures { IsTrue result ↔ pos 0 ≤ℤ n }
{
    n >= 0
}

#[inline]
pub(crate) fn is_not_above(n: i128) -> bool
    ensures { IsTrue result ↔ n ≤ℤ pos 0 }
{
    n <= 0
}

#[inline]
pub(crate) fn is_strictly_above(n: i128) -> bool
    ensures { IsTrue result ↔ pos 0 <ℤ n }
{
    n > 0
}

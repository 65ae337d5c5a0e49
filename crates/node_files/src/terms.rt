//! Decimals as fractions in lowest terms.

ghost use Rattle.std.specs.Prelude.{◌≡◌, ◌≤◌};
ghost use Rattle.node_files.specs.Terms.{divided_out, terms_of};

use tet_text::Decimal;

/// The size of a number in lowest terms: `numerator` / (2^`twos` × 5^`fives`).
#[derive(Clone, Copy)]
pub(crate) struct Terms {
    pub(crate) numerator: u128,
    pub(crate) twos: u32,
    pub(crate) fives: u32,
}

/// The number / `base`^`steps` with no common factor `base`: its numerator, and how many factors
/// are left below it.
fn divided_out(base: u32, number: u128, steps: u32) -> (u128, u32)
    requires { 2 ≤ base }
    ensures { result ≡ divided_out base number steps }
{
    let mut value = number;
    let mut left = steps;
    while left > 0 && value % u128::from(base) == 0 {
        value /= u128::from(base);
        left -= 1;
    }
    (value, left)
}

/// The size of the number in lowest terms.
pub(crate) fn terms_of(d: &Decimal) -> Terms
    ensures { result ≡ terms_of d.now }
{
    let (odd, twos) = divided_out(2, d.value.unsigned_abs(), d.scale);
    let (numerator, fives) = divided_out(5, odd, d.scale);
    Terms {
        numerator,
        twos,
        fives,
    }
}

//! Exact coordinates less those of an origin.

ghost use Rattle.std.specs.Prelude.{◌≡◌, ◌≤◌, ◌<◌, ◌*◌, ◌^◌, pos, ◌*ℤ◌, unsigned_abs, IfSome, None};
ghost use Rattle.tet_text.specs.Decimals.{signed};
ghost use Rattle.mesh_check.specs.Moving.{moved_within, moved_point_within};

use grid_coords::{DecimalPoint, WholePoint};
use tet_text::{Decimal, without_trailing_zeros};

/// 10^36
const LIMIT: u128 = 1_000_000_000_000_000_000_000_000_000_000_000_000;

/// 2 * 10^36: a decimal less a whole number over this size has over 36 digits.
const TWICE: u128 = 2 * LIMIT;

/// A whole number in units of 10^-`scale`, or None where its size is over 2 * 10^36 of them.
fn tens_within(w: i64, scale: u32) -> Option<i128>
    ensures value { IfSome result (λ tens. tens ≡ w *ℤ pos (10 ^ scale)) }
    ensures small { IfSome result (λ tens. unsigned_abs tens ≤ 2 * 10 ^ 36) }
    ensures none { result ≡ None → 2 * 10 ^ 36 < unsigned_abs w * 10 ^ scale }
{
    if w == 0 {
        return Some(0);
    }
    if scale > 36 {
        return None;
    }
    let tens = 10u128.pow(scale);
    if u128::from(w.unsigned_abs()) > TWICE / tens {
        return None;
    }
    Some(i128::from(w) * tens as i128)
}

fn signed(negative: bool, size: u128) -> i128
    requires { size < 10 ^ 36 }
    ensures { result ≡ signed negative size }
{
    let size = size as i128;
    if negative { -size } else { size }
}

/// The number less a whole number, or None where that has over 36 digits.
fn moved_within(w: i64, d: &Decimal) -> Option<Decimal>
    ensures { result ≡ moved_within w d.now }
{
    let n = d.value - tens_within(w, d.scale)?;
    if n.unsigned_abs() >= LIMIT {
        return None;
    }
    let (size, scale) = without_trailing_zeros(n.unsigned_abs(), d.scale);
    let value = signed(n < 0, size);
    Some(Decimal { value, scale })
}

/// The point less an origin, or None where a coordinate then has over 36 digits.
pub(crate) fn moved_point_within(w: WholePoint, p: &DecimalPoint) -> Option<DecimalPoint>
    ensures { result ≡ moved_point_within w p.now }
{
    Some(DecimalPoint {
        x: moved_within(w.x, &p.x)?,
        y: moved_within(w.y, &p.y)?,
        z: moved_within(w.z, &p.z)?,
        line: p.line,
    })
}

//! Rows as single numbers, for the sort of a list.
//!
//! Numbers of 64 bits are sorted without a branch on each comparison, and rows are not.
ghost use Rattle.std.specs.Prelude.{◌≡◌, MatchOption};
ghost use Rattle.cavity_insert.specs.RowKeys.{HasKey, row_of_key};

use geo_laws::Tet;

/// A row as one number, with 16 bits for each of its four, the first one highest, so that the order
/// of keys is that of the rows.
pub(crate) type RowKey = u64;

// One more than the greatest number that a key has room for.
const PLACE: u64 = 65536;

/// The key of a row; None where one of its numbers has more than 16 bits.
#[inline]
pub(crate) fn key_of(row: Tet) -> Option<RowKey>
    ensures { MatchOption result (¬ HasKey row) (λ key. row_of_key key ≡ row) }
{
    let a = u64::from(row.a);
    let b = u64::from(row.b);
    let c = u64::from(row.c);
    let d = u64::from(row.d);
    if a.max(b).max(c).max(d) >= PLACE {
        return None;
    }
    Some(((a * PLACE + b) * PLACE + c) * PLACE + d)
}

/// The row of a key.
#[inline]
pub(crate) fn row_of_key(key: RowKey) -> Tet
    ensures { result ≡ row_of_key key }
{
    let abc = key / PLACE;
    let ab = abc / PLACE;
    Tet {
        a: (ab / PLACE) as u32,
        b: (ab % PLACE) as u32,
        c: (abc % PLACE) as u32,
        d: (key % PLACE) as u32,
    }
}

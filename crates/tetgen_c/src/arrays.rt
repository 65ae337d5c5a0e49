//! The Delaunay list of an array of points, for C.

ghost use Rattle.std.specs.Prelude.{◌≡◌, ◌≤◌, pos, drop, length, take};
ghost use Rattle.array_meshes.specs.Arrays.{AreDelaunayRows};
ghost use Rattle.tetgen_c.specs.Statuses.{HasLength, IsRefused, IsRefusedInto};

use array_meshes::{Place, Row, delaunay_into, delaunay_rows};
use std::alloc::Global;
use std::mem::forget;

/// Writes the Delaunay list of an array of points to the front of `rows`, its length to `count`,
/// and answers 0; what lies behind stays. On any other status `rows` stays: 5, there are more than
/// 4,000,000 points or a coordinate is over 2^29 in size; 6, all points lie in one plane; 10, out
/// of memory; 20, `rows` is too short, and `count` is the length of the list. After 5, 6 and 10
/// `count` is 0.
#[unsafe(no_mangle)]
pub extern "C" fn tetgen_delaunay_into(
    alloc: Global,
    places: &[Place],
    rows: &mut [Row],
    count: &mut usize,
) -> i32
    ensures rows { result ≡ pos 0 → AreDelaunayRows places.now (take count.new rows.new) }
    ensures within { result ≡ pos 0 → count.new ≤ length rows.old }
    ensures behind { result ≡ pos 0 → drop count.new rows.new ≡ drop count.new rows.old }
    ensures refused { ¬ result ≡ pos 0
        → IsRefusedInto places.now (length rows.old) count.new result }
    ensures kept { ¬ result ≡ pos 0 → rows.new ≡ rows.old }
{
    match delaunay_into(alloc, places, rows) {
        Ok(made) => {
            *count = made;
            0
        }
        Err(fault) => {
            *count = fault.wanted();
            i32::from(fault.code())
        }
    }
}

/// Rows in a block of memory that C frees, where there are any.
#[repr(C)]
#[derive(Drop)]
pub struct Rows {
    pub at: *mut Row,
    pub len: usize,
}

/// Makes the Delaunay list of an array of points in a block of memory, which C frees, and answers
/// 0. On any other status, as of `tetgen_delaunay_into`, `out` stays.
#[unsafe(no_mangle)]
pub extern "C" fn tetgen_delaunay(alloc: Global, places: &[Place], out: &mut Rows) -> i32
    ensures length { result ≡ pos 0 → HasLength places.now out.new.len }
    ensures refused { ¬ result ≡ pos 0 → IsRefused places.now result }
    ensures kept { ¬ result ≡ pos 0 → out.new ≡ out.old }
{
    match delaunay_rows(alloc, places) {
        Ok(rows) => {
            let mut made = rows;
            out.len = made.len();
            if made.len() > 0 {
                out.at = made.as_mut_ptr();
                forget(made);
            }
            0
        }
        Err(fault) => i32::from(fault.code()),
    }
}

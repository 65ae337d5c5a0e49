//! The places of boxes along a space-filling curve, which order an AABB tree; they affect only its
//! speed.
ghost use Rattle.std.specs.Prelude.{◌^◌, ◌<◌};

use crate::bounds::{Bounds, Interval};

/// The greatest place along an axis, of 21 bits.
const LAST_PLACE: u64 = 0x1f_ffff;

/// The least coordinates of the boxes, and the number of low bits that a place leaves out.
#[derive(Clone, Copy)]
pub(crate) struct Frame {
    x: i32,
    y: i32,
    z: i32,
    shift: u32,
}

/// The length of an interval.
fn width_of(i: Interval) -> u32 {
    i.high.abs_diff(i.low)
}

/// The frame of the boxes in `extent`. A place is twice the middle of a box, without as many low
/// bits as the longest side, doubled, has beyond 21.
pub(crate) fn frame_of(extent: &Bounds) -> Frame
    ensures { result.shift < 64 }
{
    let longest = width_of(extent.x)
        .max(width_of(extent.y))
        .max(width_of(extent.z));
    Frame {
        x: extent.x.low,
        y: extent.y.low,
        z: extent.z.low,
        shift: (32 - longest.saturating_sub(1).leading_zeros()).saturating_sub(20),
    }
}

/// The lowest 21 bits, each followed by two zeros.
fn spread_bits(bits: u64) -> u64 {
    let mut all = bits & 0x1f_ffff;
    all = (all | all << 32) & 0x1f_0000_0000_ffff;
    all = (all | all << 16) & 0x1f_0000_ff00_00ff;
    all = (all | all << 8) & 0x100f_00f0_0f00_f00f;
    all = (all | all << 4) & 0x10c3_0c30_c30c_30c3;
    (all | all << 2) & 0x1249_2492_4924_9249
}

/// The distance of a number from the least one.
fn from_least(least: i32, x: i32) -> u64
    ensures { result < 2 ^ 32 }
{
    u64::from(x.abs_diff(least))
}

/// The place of an interval along its axis, with its bits spread.
fn spread_middle(least: i32, shift: u32, i: Interval) -> u64
    requires { shift < 64 }
{
    let doubled = from_least(least, i.low) + from_least(least, i.high);
    spread_bits((doubled >> shift).min(LAST_PLACE))
}

/// The place of the middle of a box on the curve through the frame (Morton, 1966).
pub(crate) fn on_curve(frame: Frame, b: &Bounds) -> u64
    requires { frame.shift < 64 }
{
    let x = spread_middle(frame.x, frame.shift, b.x);
    let y = spread_middle(frame.y, frame.shift, b.y);
    let z = spread_middle(frame.z, frame.shift, b.z);
    x | y << 1 | z << 2
}

//! The order in which points are inserted.
//!
//! In rounds, each about eight times as long as the one before, and each along a space-filling
//! curve. The Delaunay list does not depend on it; the time to build it does (Amenta, Choi and
//! Rote, 2003: incremental constructions con BRIO).
ghost use Rattle.std.specs.Prelude.{◌≡◌, ◌-◌, ◌^◌, ◌<◌, ◌≤◌, length, IfOk};
ghost use Rattle.cavity_insert.specs.Order.{IsOrderOf};

use geo_laws::Points;
use sign_predicates::GridPoint;
use std::alloc::Global;
use tet_ports::NoMemory;

/// The turn of a point in the order: its round, its place on the curve, and its number.
#[derive(Clone, Copy, PartialEq, Eq, PartialOrd, Ord)]
pub struct Turn {
    round: u32,
    curve: u64,
    pub number: u32,
}

/// The least box round points: its least corner, and how far its coordinates are shifted to have 21
/// bits.
#[derive(Clone, Copy)]
struct Frame {
    x: i32,
    y: i32,
    z: i32,
    shift: u32,
}

/// The least and the greatest of some coordinates.
#[derive(Clone, Copy)]
struct Span {
    least: i32,
    most: i32,
}

impl Span {
    /// The span of one coordinate.
    fn of(x: i32) -> Self {
        Span { least: x, most: x }
    }

    /// The span with one more coordinate.
    fn with(self, x: i32) -> Self {
        Span {
            least: self.least.min(x),
            most: self.most.max(x),
        }
    }

    fn width(self) -> u32 {
        self.most.abs_diff(self.least)
    }
}

/// The number of bits of a coordinate on the curve.
const CURVE_BITS: u32 = 21;

/// The numbers of the points, each once, in the order in which they are inserted.
pub fn insertion_order(alloc: Global, points: &Points) -> Result<Vec<Turn>, NoMemory>
    requires { length points.now < 2 ^ 32 - 1 }
    ensures { IfOk result (λ turns. IsOrderOf (length points.now) turns.items) }
{
    let frame = frame_of(points);
    let mut turns = Vec::with_capacity(alloc, points.len())?;
    for i in 0..points.len() {
        turns.push(turn_of(frame, points.at(i), i as u32))?;
    }
    turns.sort_unstable();
    Ok(turns)
}

/// The turn of the point with this number.
fn turn_of(frame: Frame, p: GridPoint, number: u32) -> Turn
    requires { frame.shift < 32 }
    ensures { result.number ≡ number }
{
    Turn {
        round: 32 - hash(number).trailing_zeros() / 3,
        curve: on_curve(frame, p),
        number,
    }
}

/// A fixed hash of the numbers, so that about seven eighths of the points come in the last round.
fn hash(number: u32) -> u32 {
    let mixed = number ^ (number >> 16);
    let mixed = mixed.wrapping_mul(0x7feb_352d);
    let mixed = mixed ^ (mixed >> 15);
    let mixed = mixed.wrapping_mul(0x846c_a68b);
    mixed ^ (mixed >> 16)
}

/// The place of a point on the curve through a grid of 21 bits an axis (Morton, 1966).
fn on_curve(frame: Frame, p: GridPoint) -> u64
    requires { frame.shift < 32 }
{
    let x = spread_bits(p.x.abs_diff(frame.x) >> frame.shift);
    let y = spread_bits(p.y.abs_diff(frame.y) >> frame.shift);
    let z = spread_bits(p.z.abs_diff(frame.z) >> frame.shift);
    x | y << 1 | z << 2
}

/// The lowest 21 bits, each followed by two zeros.
fn spread_bits(bits: u32) -> u64 {
    let mut all = u64::from(bits) & 0x1f_ffff;
    all = (all | all << 32) & 0x1f_0000_0000_ffff;
    all = (all | all << 16) & 0x1f_0000_ff00_00ff;
    all = (all | all << 8) & 0x100f_00f0_0f00_f00f;
    all = (all | all << 4) & 0x10c3_0c30_c30c_30c3;
    (all | all << 2) & 0x1249_2492_4924_9249
}

/// The least box round the points.
fn frame_of(points: &Points) -> Frame
    ensures { result.shift < 32 }
{
    let Some(first) = points.as_slice().first() else {
        return Frame {
            x: 0,
            y: 0,
            z: 0,
            shift: 0,
        };
    };
    let mut x = Span::of(first.x);
    let mut y = Span::of(first.y);
    let mut z = Span::of(first.z);
    for p in points.as_slice() {
        x = x.with(p.x);
        y = y.with(p.y);
        z = z.with(p.z);
    }
    let wide = x.width() | y.width() | z.width();
    Frame {
        x: x.least,
        y: y.least,
        z: z.least,
        shift: (32 - wide.leading_zeros()).saturating_sub(CURVE_BITS),
    }
}

//! Runs on thousands of points with facets among them, drawn by a linear congruential generator.
ghost use Rattle.std.specs.Prelude.{◌<◌, ◌≤◌};

use crate::tests::harness::End::Told;
use crate::tests::harness::Program::Tetgen;
use crate::tests::harness::{Run, difference};
use crate::tests::large_runs::add_point;
use mesh_check::append_number;
use std::alloc::Global;
use std::test::Fail;
use tet_ports::{Bytes, NoMemory};

/// The least and the greatest coordinate of the plate, its height, and its corners on each side.
const LOW: usize = 256;

const HIGH: usize = 1792;

const HEIGHT: usize = 1024;

const STEPS: usize = 32;

/// Numbers drawn by a linear congruential generator.
#[derive(Drop)]
struct Draws {
    state: u64,
}

impl Draws {
    /// The next number, below a count.
    fn below(&mut self, count: usize) -> usize
        requires { 0 < count }
        ensures { result < count }
    {
        self.state = self
            .state
            .wrapping_mul(6_364_136_223_846_793_005)
            .wrapping_add(1_442_695_040_888_963_407);
        (self.state >> 33) as usize % count
    }
}

/// Appends the corner of the plate at a place of its rim, a little off a square.
fn add_rim_point(text: &mut Bytes, draws: &mut Draws, k: usize) -> Result<(), NoMemory>
    requires { k < 128 }
{
    let along = 48 * (k % STEPS);
    let (x, y) = match k / STEPS {
        0 => (LOW + along, LOW),
        1 => (HIGH, LOW + along),
        2 => (HIGH - along, HIGH),
        _ => (LOW, HIGH - along),
    };
    let place = [x + draws.below(8), y + draws.below(8), HEIGHT];
    add_point(text, k, place, b"")
}

/// Whether a coordinate is near that of a side of the plate.
fn is_near_side(x: usize) -> bool {
    x.abs_diff(LOW) < 64 || x.abs_diff(HIGH) < 64
}

/// Appends a point of the cloud. Near the sides of the plate it is lifted, so that they need no
/// split.
fn add_cloud_point(text: &mut Bytes, draws: &mut Draws, number: usize) -> Result<(), NoMemory> {
    let [x, y, z] = [draws.below(2049), draws.below(2049), draws.below(2049)];
    let room = if is_near_side(x) || is_near_side(y) {
        64
    } else {
        8
    };
    let lift = if z.abs_diff(HEIGHT) < room { 128 } else { 0 };
    add_point(text, number, [x, y, z + lift], b"")
}

/// Appends a facet of one polygon, with the first points as its corners, and no hole.
fn add_plate(text: &mut Bytes) -> Result<(), NoMemory> {
    text.append(b"1 1\n1 0 5\n128")?;
    for k in 0..4 * STEPS {
        text.append(b" ")?;
        append_number(text, k)?;
    }
    text.append(b"\n0\n")
}

/// A cloud of `count` points, and in its middle a plate with 128 corners.
fn plate_in_cloud(alloc: Global, count: usize) -> Result<Bytes, NoMemory>
    requires { count ≤ 10000 }
{
    let mut text = Bytes::new(alloc);
    let mut draws = Draws { state: 1 };
    append_number(&mut text, 4 * STEPS + count)?;
    text.append(b"\n")?;
    for k in 0..4 * STEPS + count {
        if k < 4 * STEPS {
            add_rim_point(&mut text, &mut draws, k)?;
        } else {
            add_cloud_point(&mut text, &mut draws, k)?;
        }
    }
    add_plate(&mut text)?;
    Ok(text)
}

/// The corners of a small plate, and a point over its middle and one under it.
const SMALL: [[u8; 3]; 5] = [
    [0, 0, 50],
    [90, 0, 50],
    [0, 90, 50],
    [30, 30, 60],
    [30, 30, 40],
];

/// Appends the five points of a small plate in this cell of a cube of five by five by five, each a
/// little off its place.
fn add_small_plate(text: &mut Bytes, draws: &mut Draws, cell: usize) -> Result<(), NoMemory>
    requires { cell < 125 }
{
    let corner = [400 * (cell % 5), 400 * (cell / 5 % 5), 400 * (cell / 25)];
    for k in 0..5 {
        let [x, y, z] = SMALL[k];
        let place = [
            corner[0] + usize::from(x) + draws.below(8),
            corner[1] + usize::from(y) + draws.below(8),
            corner[2] + usize::from(z) + draws.below(8),
        ];
        add_point(text, 5 * cell + k, place, b"")?;
    }
    Ok(())
}

/// Appends a facet of one triangle, whose corners are numbered from this one on.
fn add_triangle(text: &mut Bytes, first: usize) -> Result<(), NoMemory>
    requires { first < 625 }
{
    text.append(b"1\n3")?;
    for k in first..first + 3 {
        text.append(b" ")?;
        append_number(text, k)?;
    }
    text.append(b"\n")
}

/// Appends the points of all small plates.
fn add_small_plates(text: &mut Bytes) -> Result<(), NoMemory> {
    let mut draws = Draws { state: 1 };
    for cell in 0..125 {
        add_small_plate(text, &mut draws, cell)?;
    }
    Ok(())
}

/// Many small plates, none of which comes near another.
fn small_plates(alloc: Global) -> Result<Bytes, NoMemory> {
    let mut text = Bytes::from_slice(alloc, b"625\n")?;
    add_small_plates(&mut text)?;
    text.append(b"125\n")?;
    for cell in 0..125 {
        add_triangle(&mut text, 5 * cell)?;
    }
    text.append(b"0\n")?;
    Ok(text)
}

/// What differs where a run on the complex of a text should end well with this summary.
fn other_mesh(alloc: Global, text: &Bytes, summary: &[u8]) -> Result<Option<String>, NoMemory> {
    let parts = [text.as_slice()];
    let held = [(b"t.poly".as_slice(), parts.as_slice())];
    let run = Run {
        name: "cloud",
        held: &held,
        words: &[b"-pc", b"t"],
        end: Told(summary),
        files: &[],
    };
    difference(alloc, Tetgen, &run)
}

#[test]
fn a_plate_crosses_thousands_of_tetrahedra(rt: HostRuntime) -> Result<(), Fail> {
    let alloc = rt.alloc();
    let text = plate_in_cloud(alloc, 10_000)?;
    let summary = b"points 10128 added 0 tetrahedra 67642 faces 135415 edges 77900\n";
    assert_eq!(rt; other_mesh(alloc, &text, summary)?, None);
    Ok(())
}

#[test]
fn many_plates_are_crossed(rt: HostRuntime) -> Result<(), Fail> {
    let alloc = rt.alloc();
    let text = small_plates(alloc)?;
    let summary = b"points 625 added 0 tetrahedra 3401 faces 6873 edges 4096\n";
    assert_eq!(rt; other_mesh(alloc, &text, summary)?, None);
    Ok(())
}

//! Worked regular lists, and lists that a plain filter over all fours makes too.
ghost use Rattle.std.specs.Prelude.{◌≡◌, ◌<◌, ◌≤◌, ◌^◌, All, IsTrue, length, unsigned_abs};
ghost use Rattle.sign_predicates.specs.Weighted.{IsWeight, AreWeights};
ghost use Rattle.weighted_mesh.specs.Regular.{AreWeightsOf};

use crate::tests::small_sets::{CUBE_ROWS, are_rows, is_small_set, next_state, points_of};
use cavity_insert::BuildFault;
use geo_laws::{Points, Tet, TetList};
use sign_predicates::{Corners, FourWeights, GridPoint, Numbers, Sign, orient, outside_weighted};
use std::alloc::Global;
use tet_ports::NoMemory;
use weighted_mesh::{Weights, regular};

fn weights(alloc: Global, numbers: &[i16]) -> Result<Weights, NoMemory> {
    let mut weights = Weights::new(alloc);
    for w in numbers {
        weights.push(*w as i64)?;
    }
    Ok(weights)
}

/// Whether there is one weight for each point, each small.
fn are_weights(points: &Points, weights: &Weights) -> bool
    ensures { IsTrue result → AreWeightsOf points.now weights.now }
{
    for i in 0..weights.len() {
        if weights.at(i).unsigned_abs() > 1 << 46 {
            return false;
        }
    }
    weights.len() == points.len()
}

fn has_rows(alloc: Global, points: &Points, weights: &Weights, want: &[[u32; 4]]) -> bool {
    if !is_small_set(points) || !are_weights(points, weights) {
        return false;
    }
    match regular(alloc, points, weights) {
        Ok(rows) => are_rows(&rows, want),
        Err(BuildFault::Flat) => want.is_empty(),
        Err(BuildFault::NoMemory) => false,
    }
}

/// Whether the regular list of these points with these weights has these rows; none stands for
/// `Flat`.
fn has_list(alloc: Global, set: &[[i8; 3]], numbers: &[i16], want: &[[u32; 4]]) -> bool {
    let Ok(points) = points_of(alloc, &[set]) else {
        return false;
    };
    match weights(alloc, numbers) {
        Ok(weights) => has_rows(alloc, &points, &weights, want),
        Err(NoMemory) => false,
    }
}

const CORNER: [[i8; 3]; 5] = [[0, 0, 0], [4, 0, 0], [0, 4, 0], [0, 0, 4], [1, 1, 1]];

// The points of CORNER with the inner point first.
const INNER_FIRST: [[i8; 3]; 5] = [[1, 1, 1], [4, 0, 0], [0, 4, 0], [0, 0, 4], [0, 0, 0]];

const CUBE: [[i8; 3]; 8] = [
    [0, 0, 0],
    [1, 0, 0],
    [1, 1, 0],
    [0, 1, 0],
    [0, 0, 1],
    [1, 0, 1],
    [1, 1, 1],
    [0, 1, 1],
];

/// Points and their weights, and the rows of their list.
struct Case {
    name: &'static str,
    points: &'static [[i8; 3]],
    weights: &'static [i16],
    rows: &'static [[u32; 4]],
}

static CASES: [Case; 4] = [
    Case {
        name: "hidden",
        points: &CORNER,
        weights: &[0, 0, 0, 0, -10],
        rows: &[[0, 1, 2, 3]],
    },
    Case {
        name: "tie",
        points: &CORNER,
        weights: &[0, 0, 0, 0, -9],
        rows: &[[0, 1, 2, 4], [0, 1, 4, 3], [0, 2, 3, 4], [1, 2, 4, 3]],
    },
    Case {
        name: "start hidden",
        points: &INNER_FIRST,
        weights: &[-100, 0, 0, 0, 0],
        rows: &[[1, 2, 4, 3]],
    },
    Case {
        name: "cube",
        points: &CUBE,
        weights: &[0; 8],
        rows: &CUBE_ROWS,
    },
];

#[test]
fn worked_rows(rt: HostRuntime) {
    for case in &CASES {
        assert!(rt;
            has_list(rt.alloc(), case.points, case.weights, case.rows),
            "{}",
            case.name
        );
    }
}

/// A number from 0 to n - 1, drawn by a linear congruential generator.
fn drawn(state: &mut u64, n: u32) -> u32
    requires { 0 < n }
    ensures { result < n }
{
    *state = next_state(*state);
    ((*state >> 33) % u64::from(n)) as u32
}

/// The weight of the point with this number.
fn weight_at(weights: &Weights, i: u32) -> i64
    requires inside { i < length weights.now }
    requires small { All IsWeight weights.now }
    ensures { IsWeight result }
{
    weights.at(i as usize)
}

/// The weights of a row's corners.
fn weights_of(weights: &Weights, row: Tet) -> FourWeights
    requires inside { (row.a < length weights.now) × (row.b < length weights.now)
        × (row.c < length weights.now) × (row.d < length weights.now) }
    requires small { All IsWeight weights.now }
    ensures { AreWeights result }
{
    FourWeights {
        a: weight_at(weights, row.a),
        b: weight_at(weights, row.b),
        c: weight_at(weights, row.c),
        d: weight_at(weights, row.d),
    }
}

/// Whether the tetrahedron is regular: positive, with every other point outside.
fn is_plain_row(points: &Points, weights: &Weights, t: Tet) -> bool
    requires inside { (t.a < length points.now) × (t.b < length points.now)
        × (t.c < length points.now) × (t.d < length points.now) }
    requires few { length points.now ≤ 1000 }
    requires each { length weights.now ≡ length points.now }
    requires small { All IsWeight weights.now }
{
    let (a, b) = (points.at(t.a as usize), points.at(t.b as usize));
    let (c, d) = (points.at(t.c as usize), points.at(t.d as usize));
    let corners = Corners { a, b, c, d };
    if !matches!(orient(a, b, c, d), Sign::Above) {
        return false;
    }
    let w = weights_of(weights, t);
    let n = Numbers {
        a: t.a,
        b: t.b,
        c: t.c,
        d: t.d,
    };
    for e in 0..points.len() as u32 {
        if e != t.a && e != t.b && e != t.c && e != t.d {
            let own = weight_at(weights, e);
            if !outside_weighted(corners, w, n, points.at(e as usize), own, e) {
                return false;
            }
        }
    }
    true
}

/// The regular list by a plain filter over all fours.
fn plain_list(alloc: Global, points: &Points, weights: &Weights) -> Result<TetList, NoMemory>
    requires few { length points.now ≤ 1000 }
    requires each { length weights.now ≡ length points.now }
    requires small { All IsWeight weights.now }
{
    let mut rows = TetList::new(alloc);
    let n = points.len() as u32;
    for a in 0..n {
        for b in a + 1..n {
            for c in b + 1..n {
                for d in b + 1..n {
                    let row = Tet { a, b, c, d };
                    if c != d && is_plain_row(points, weights, row) {
                        rows.push(row)?;
                    }
                }
            }
        }
    }
    Ok(rows)
}

/// Whether the list of weighted points is that of the plain filter. None where two of the points
/// are equal, or when out of memory.
fn is_plain(alloc: Global, points: &Points, weights: &Weights) -> Option<bool> {
    if !is_small_set(points) || !are_weights(points, weights) {
        return None;
    }
    let plain = plain_list(alloc, points, weights).ok()?;
    match regular(alloc, points, weights) {
        Ok(rows) => Some(rows.as_slice() == plain.as_slice()),
        Err(BuildFault::Flat) => Some(plain.is_empty()),
        Err(BuildFault::NoMemory) => None,
    }
}

/// As `is_plain`, for `count` points and weights that are drawn.
fn agrees(alloc: Global, state: &mut u64, count: u32, width: u32, heavy: u32) -> Option<bool>
    requires width { (0 < width) × (width ≤ 100) }
    requires heavy { (0 < heavy) × (heavy ≤ 100) }
{
    let mut points = Points::new(alloc);
    let mut weights = Weights::new(alloc);
    for _ in 0..count {
        let p = GridPoint {
            x: drawn(state, width) as i32,
            y: drawn(state, width) as i32,
            z: drawn(state, width) as i32,
        };
        points.push(p).ok()?;
        weights
            .push(i64::from(drawn(state, heavy)) - i64::from(heavy / 2))
            .ok()?;
    }
    is_plain(alloc, &points, &weights)
}

#[test]
fn drawn_lists(rt: HostRuntime) {
    let mut state = 1;
    let mut tried = 0_u32;
    for round in 0..400_u32 {
        let count = 5 + round % 8;
        let width = 3 + round % 5;
        let heavy = 1 + round % 23;
        if let Some(same) = agrees(rt.alloc(), &mut state, count, width, heavy) {
            assert!(rt; same, "round {round}");
            tried = tried.saturating_add(1);
        }
    }
    assert!(rt; tried > 100, "only {tried}");
}

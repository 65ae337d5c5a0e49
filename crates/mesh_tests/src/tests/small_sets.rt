//! Small sets of points, and rows on them, that the tests share.
ghost use Rattle.std.specs.Prelude.{ℕ, ◌≢◌, ◌<◌, ◌≤◌, IsTrue, IfSome, length};
ghost use Rattle.geo_laws.specs.Delaunay.{point, HasDistinctPoints};

use geo_laws::{Points, Tet, TetList};
use sign_predicates::GridPoint;
use std::alloc::Global;
use tet_ports::NoMemory;

pub(crate) fn grid_point([x, y, z]: [i8; 3]) -> GridPoint {
    GridPoint {
        x: i32::from(x),
        y: i32::from(y),
        z: i32::from(z),
    }
}

fn add_points(points: &mut Points, places: &[[i8; 3]]) -> Result<(), NoMemory> {
    for place in places {
        points.push(grid_point(*place))?;
    }
    Ok(())
}

/// The points of a set that is given in parts.
pub(crate) fn points_of(alloc: Global, parts: &[&[[i8; 3]]]) -> Result<Points, NoMemory> {
    let mut points = Points::new(alloc);
    for places in parts {
        add_points(&mut points, places)?;
    }
    Ok(points)
}

/// Whether the point is none of the first n.
pub(crate) fn is_new(points: &Points, n: usize, p: GridPoint) -> bool
    requires { n ≤ length points.now }
    ensures { IsTrue result → (i : ℕ) → i < n → point points.now i ≢ p }
{
    for i in 0..n {
        if points.at(i) == p {
            return false;
        }
    }
    true
}

pub(crate) fn are_distinct(points: &Points) -> bool
    ensures { IsTrue result → HasDistinctPoints points.now }
{
    for j in 0..points.len() {
        if !is_new(points, j, points.at(j)) {
            return false;
        }
    }
    true
}

/// Whether the points are distinct and few.
pub(crate) fn is_small_set(points: &Points) -> bool
    ensures distinct { IsTrue result → HasDistinctPoints points.now }
    ensures few { IsTrue result → length points.now ≤ 1000 }
{
    points.len() <= 1000 && are_distinct(points)
}

/// The points of a set, if they are distinct and few.
pub(crate) fn small_set(alloc: Global, parts: &[&[[i8; 3]]]) -> Option<Points>
    ensures distinct { IfSome result HasDistinctPoints }
    ensures few { IfSome result (λ points. length points ≤ 1000) }
{
    match points_of(alloc, parts) {
        Ok(points) if is_small_set(&points) => Some(points),
        _ => None,
    }
}

pub(crate) fn row([a, b, c, d]: [u32; 4]) -> Tet {
    Tet { a, b, c, d }
}

/// Whether these are the rows of a list.
pub(crate) fn are_rows(rows: &TetList, want: &[[u32; 4]]) -> bool {
    if rows.len() != want.len() {
        return false;
    }
    for (i, corners) in want.iter().enumerate() {
        if rows.at(i) != row(*corners) {
            return false;
        }
    }
    true
}

/// The next state of a linear congruential generator.
pub(crate) fn next_state(state: u64) -> u64 {
    state
        .wrapping_mul(6_364_136_223_846_793_005)
        .wrapping_add(1_442_695_040_888_963_407)
}

/// The corners of a cube.
pub(crate) const CUBE: [[i8; 3]; 8] = [
    [0, 0, 0],
    [2, 0, 0],
    [2, 2, 0],
    [0, 2, 0],
    [0, 0, 2],
    [2, 0, 2],
    [2, 2, 2],
    [0, 2, 2],
];

/// The Delaunay list of a cube, whatever its size.
pub(crate) const CUBE_ROWS: [[u32; 4]; 6] = [
    [0, 1, 3, 4],
    [1, 2, 3, 5],
    [1, 3, 4, 5],
    [2, 3, 5, 6],
    [3, 4, 5, 7],
    [3, 5, 6, 7],
];

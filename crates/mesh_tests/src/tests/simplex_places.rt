//! Places that the tests of simplices and of parts share, and simplices by their corners.
use geo_laws::{Face, Points, Side};
use sign_predicates::GridPoint;
use std::alloc::Global;
use tet_ports::NoMemory;

/// A square with its center, a point above the center, one far off in the square's plane, and one
/// above a corner.
static PLACES: [[i8; 3]; 8] = [
    [0, 0, 0],
    [4, 0, 0],
    [4, 4, 0],
    [0, 4, 0],
    [2, 2, 0],
    [2, 2, 4],
    [9, 9, 0],
    [4, 4, 4],
];

pub(crate) fn places(alloc: Global) -> Result<Points, NoMemory> {
    let mut points = Points::new(alloc);
    for [x, y, z] in &PLACES {
        points.push(GridPoint {
            x: i32::from(*x),
            y: i32::from(*y),
            z: i32::from(*z),
        })?;
    }
    Ok(points)
}

pub(crate) fn side([a, b]: [u32; 2]) -> Side {
    Side { a, b }
}

pub(crate) fn face([a, b, c]: [u32; 3]) -> Face {
    Face { a, b, c }
}

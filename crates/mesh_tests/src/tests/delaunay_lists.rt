//! Lists, cavities and sides of small sets of points.
ghost use Rattle.std.specs.Prelude.{◌≡◌, ◌^◌, ◌<◌, ◌≤◌, ◌≤ℤ◌, pos, length};
ghost use Rattle.geo_laws.specs.Delaunay.{all_numbers, HasDistinctPoints};
ghost use Rattle.mesh_arena.specs.Mesh.{IsLive};
ghost use Rattle.mesh_laws.specs.Living.{IsDelaunayMesh};

use crate::tests::small_sets::{
    CUBE, CUBE_ROWS, are_distinct, are_rows, grid_point, is_new, is_small_set, next_state,
    small_set,
};
use cavity_insert::{
    BuildFault, Living, Steps, delaunay, delaunay_with_hull, grow_cavity, test_slot,
};
use geo_laws::{Face, Points};
use mesh_arena::{Arena, Slot};
use sign_predicates::GridPoint;
use std::alloc::Global;
use std::marker::Brand;
use std::sync::ledger::{Blank, Ledger};
use tet_ports::NoMemory;

/// Whether the list of the points has these rows; none stands for `Flat`.
fn has_list(alloc: Global, parts: &[&[[i8; 3]]], want: &[[u32; 4]]) -> bool {
    match small_set(alloc, parts) {
        Some(points) => has_rows(alloc, &points, want),
        None => false,
    }
}

fn has_rows(alloc: Global, points: &Points, want: &[[u32; 4]]) -> bool
    requires distinct { HasDistinctPoints points.now }
    requires few { length points.now ≤ 1000 }
{
    match delaunay(alloc, points) {
        Ok(rows) => are_rows(&rows, want),
        Err(BuildFault::Flat) => want.is_empty(),
        Err(BuildFault::NoMemory) => false,
    }
}

const PYRAMID: [[i8; 3]; 5] = [[0, 0, 0], [2, 0, 0], [2, 2, 0], [0, 2, 0], [1, 1, 2]];

const PYRAMID_ROWS: [[u32; 4]; 2] = [[0, 1, 3, 4], [1, 2, 3, 4]];

// A box and the ends of three axes on a sphere of radius 3.
const ON_A_SPHERE: [[i8; 3]; 14] = [
    [1, 2, 2],
    [-3, 0, 0],
    [-1, 2, 2],
    [1, -2, 2],
    [0, 0, 3],
    [1, 2, -2],
    [3, 0, 0],
    [-1, -2, 2],
    [-1, 2, -2],
    [0, -3, 0],
    [1, -2, -2],
    [0, 3, 0],
    [-1, -2, -2],
    [0, 0, -3],
];

// Points of one plane with one off it, and one on the other side.
const NEARLY_FLAT: [[i8; 3]; 9] = [
    [1, 1, 0],
    [0, 0, 0],
    [2, 2, 0],
    [1, 0, 0],
    [0, 2, 0],
    [1, 2, 0],
    [2, 0, 0],
    [0, 1, 0],
    [1, 1, 1],
];

const BELOW: [[i8; 3]; 1] = [[2, 1, -1]];

// Points of one line with two off it.
const NEARLY_STRAIGHT: [[i8; 3]; 7] = [
    [2, 2, 2],
    [0, 0, 0],
    [4, 4, 4],
    [1, 1, 1],
    [3, 3, 3],
    [2, 0, 0],
    [0, 3, 1],
];

// A grid of 3 by 3 by 3 points, in an order that goes round it twice.
const GRID: [[i8; 3]; 27] = [
    [0, 0, 0],
    [2, 0, 0],
    [1, 1, 0],
    [0, 2, 0],
    [2, 2, 0],
    [1, 0, 1],
    [0, 1, 1],
    [2, 1, 1],
    [1, 2, 1],
    [0, 0, 2],
    [2, 0, 2],
    [1, 1, 2],
    [0, 2, 2],
    [2, 2, 2],
    [1, 0, 0],
    [0, 1, 0],
    [2, 1, 0],
    [1, 2, 0],
    [0, 0, 1],
    [2, 0, 1],
    [1, 1, 1],
    [0, 2, 1],
    [2, 2, 1],
    [1, 0, 2],
    [0, 1, 2],
    [2, 1, 2],
    [1, 2, 2],
];

/// Points in parts, and the rows of their list; none stands for `Flat`.
struct ListCase {
    name: &'static str,
    points: &'static [&'static [[i8; 3]]],
    rows: &'static [[u32; 4]],
}

static LISTS: [ListCase; 11] = [
    ListCase {
        name: "tetrahedron",
        points: &[&[[0, 0, 0], [1, 0, 0], [0, 1, 0], [0, 0, 1]]],
        rows: &[[0, 1, 2, 3]],
    },
    ListCase {
        name: "negative order",
        points: &[&[[0, 0, 0], [0, 1, 0], [1, 0, 0], [0, 0, 1]]],
        rows: &[[0, 1, 3, 2]],
    },
    ListCase {
        name: "pyramid",
        points: &[&PYRAMID],
        rows: &PYRAMID_ROWS,
    },
    ListCase {
        name: "cube",
        points: &[&CUBE],
        rows: &CUBE_ROWS,
    },
    ListCase {
        name: "triangle",
        points: &[&[[0, 0, 0], [1, 0, 0], [0, 1, 0]]],
        rows: &[],
    },
    ListCase {
        name: "points of a plane",
        points: &[&[
            [0, 0, 0],
            [1, 0, 0],
            [2, 0, 0],
            [0, 1, 0],
            [1, 1, 0],
            [2, 1, 0],
            [0, 2, 0],
            [1, 2, 0],
            [2, 2, 0],
        ]],
        rows: &[],
    },
    ListCase {
        name: "on a sphere",
        points: &[&ON_A_SPHERE],
        rows: &[
            [0, 2, 11, 4],
            [0, 4, 11, 6],
            [1, 2, 7, 8],
            [1, 7, 12, 8],
            [2, 4, 7, 11],
            [2, 7, 8, 11],
            [3, 4, 6, 7],
            [3, 6, 9, 7],
            [4, 6, 7, 11],
            [5, 6, 11, 13],
            [5, 8, 13, 11],
            [6, 7, 11, 9],
            [6, 9, 11, 10],
            [6, 10, 11, 13],
            [7, 8, 11, 12],
            [7, 9, 12, 11],
            [8, 11, 12, 13],
            [9, 10, 12, 11],
            [10, 11, 13, 12],
        ],
    },
    ListCase {
        name: "nearly flat",
        points: &[&NEARLY_FLAT, &BELOW],
        rows: &[
            [0, 2, 5, 8],
            [0, 2, 6, 9],
            [0, 2, 8, 6],
            [0, 2, 9, 5],
            [0, 3, 6, 8],
            [0, 3, 7, 9],
            [0, 3, 8, 7],
            [0, 3, 9, 6],
            [0, 5, 7, 8],
            [0, 5, 9, 7],
            [1, 3, 7, 8],
            [1, 3, 9, 7],
            [4, 5, 7, 9],
            [4, 5, 8, 7],
        ],
    },
    ListCase {
        name: "nearly flat, none below",
        points: &[&NEARLY_FLAT],
        rows: &[
            [0, 2, 5, 8],
            [0, 2, 8, 6],
            [0, 3, 6, 8],
            [0, 3, 8, 7],
            [0, 5, 7, 8],
            [1, 3, 7, 8],
            [4, 5, 8, 7],
        ],
    },
    ListCase {
        name: "nearly straight",
        points: &[&NEARLY_STRAIGHT],
        rows: &[[0, 3, 6, 5], [0, 4, 5, 6], [1, 3, 5, 6], [2, 4, 6, 5]],
    },
    ListCase {
        name: "grid",
        points: &[&GRID],
        rows: &[
            [0, 14, 15, 18],
            [1, 14, 19, 16],
            [2, 14, 16, 20],
            [2, 14, 20, 15],
            [2, 15, 20, 17],
            [2, 16, 17, 20],
            [3, 15, 17, 21],
            [4, 16, 22, 17],
            [5, 14, 18, 20],
            [5, 14, 20, 19],
            [5, 18, 23, 20],
            [5, 19, 20, 23],
            [6, 15, 20, 18],
            [6, 15, 21, 20],
            [6, 18, 20, 24],
            [6, 20, 21, 24],
            [7, 16, 19, 20],
            [7, 16, 20, 22],
            [7, 19, 25, 20],
            [7, 20, 25, 22],
            [8, 17, 20, 21],
            [8, 17, 22, 20],
            [8, 20, 22, 26],
            [8, 20, 26, 21],
            [9, 18, 24, 23],
            [10, 19, 23, 25],
            [11, 20, 23, 24],
            [11, 20, 24, 26],
            [11, 20, 25, 23],
            [11, 20, 26, 25],
            [12, 21, 26, 24],
            [13, 22, 25, 26],
            [14, 15, 18, 20],
            [14, 16, 20, 19],
            [15, 17, 21, 20],
            [16, 17, 20, 22],
            [18, 20, 24, 23],
            [19, 20, 23, 25],
            [20, 21, 24, 26],
            [20, 22, 26, 25],
        ],
    },
];

#[test]
fn lists(rt: HostRuntime) {
    let alloc = rt.alloc();
    for case in &LISTS {
        assert!(rt; has_list(alloc, case.points, case.rows), "{}", case.name);
    }
}

/// Whether the hull of the points has these faces.
fn has_hull(alloc: Global, set: &[[i8; 3]], want: &[[u32; 3]]) -> bool {
    let Some(points) = small_set(alloc, &[set]) else {
        return false;
    };
    match delaunay_with_hull(alloc, &points) {
        Ok(made) => are_faces(made.hull.as_slice(), want),
        Err(_) => false,
    }
}

fn are_faces(faces: &[Face], want: &[[u32; 3]]) -> bool {
    faces.len() == want.len()
        && faces
            .iter()
            .zip(want.iter())
            .all(|(f, w)| [f.a, f.b, f.c] == *w)
}

const PYRAMID_HULL: [[u32; 3]; 6] = [
    [0, 1, 3],
    [0, 1, 4],
    [0, 3, 4],
    [1, 2, 3],
    [1, 2, 4],
    [2, 3, 4],
];

#[test]
fn hull_of_a_pyramid(rt: HostRuntime) {
    assert!(rt; has_hull(rt.alloc(), &PYRAMID, &PYRAMID_HULL));
}

/// The pyramid with wide odd steps: no frame has it.
const WIDE_PYRAMID: [GridPoint; 5] = [
    GridPoint { x: 0, y: 0, z: 0 },
    GridPoint {
        x: 8_000_002,
        y: 0,
        z: 0,
    },
    GridPoint {
        x: 8_000_002,
        y: 8_000_002,
        z: 0,
    },
    GridPoint {
        x: 0,
        y: 8_000_002,
        z: 0,
    },
    GridPoint {
        x: 4_000_001,
        y: 4_000_001,
        z: 8_000_002,
    },
];

/// A list of these points.
fn listed(alloc: Global, places: &[GridPoint]) -> Result<Points, NoMemory> {
    let mut points = Points::new(alloc);
    points.extend_from_slice(places)?;
    Ok(points)
}

fn has_wide_list(alloc: Global) -> bool {
    match listed(alloc, &WIDE_PYRAMID) {
        Ok(points) if is_small_set(&points) => has_rows(alloc, &points, &PYRAMID_ROWS),
        _ => false,
    }
}

#[test]
fn wide_points(rt: HostRuntime) {
    assert!(rt; has_wide_list(rt.alloc()));
}

/// An odd number below 2^20, drawn by a linear congruential generator.
fn drawn(state: &mut u64) -> u32
    ensures { result < 2 ^ 21 }
{
    *state = next_state(*state);
    1 + 2 * (*state >> 45) as u32
}

/// A point drawn in the box of the cloud.
fn drawn_point(state: &mut u64) -> GridPoint {
    GridPoint {
        x: drawn(state) as i32,
        y: drawn(state) as i32,
        z: drawn(state) as i32,
    }
}

/// The end of the box of the cloud.
const FAR: i32 = 1_048_576;

/// The corners of the box of the cloud, as those of the cube.
const BOX: [GridPoint; 8] = [
    GridPoint { x: 0, y: 0, z: 0 },
    GridPoint { x: FAR, y: 0, z: 0 },
    GridPoint {
        x: FAR,
        y: FAR,
        z: 0,
    },
    GridPoint { x: 0, y: FAR, z: 0 },
    GridPoint { x: 0, y: 0, z: FAR },
    GridPoint {
        x: FAR,
        y: 0,
        z: FAR,
    },
    GridPoint {
        x: FAR,
        y: FAR,
        z: FAR,
    },
    GridPoint {
        x: 0,
        y: FAR,
        z: FAR,
    },
];

/// The corners of a box and points drawn inside.
fn cloud(alloc: Global, inner: usize) -> Result<Points, NoMemory> {
    let mut points = listed(alloc, &BOX)?;
    let mut state = 1u64;
    for _ in 0..inner {
        points.push(drawn_point(&mut state))?;
    }
    Ok(points)
}

/// How many rows the list of a cloud has.
fn cloud_rows(alloc: Global, inner: usize) -> Option<usize> {
    let Ok(points) = cloud(alloc, inner) else {
        return None;
    };
    if points.len() > 3000 || !are_distinct(&points) {
        return None;
    }
    match delaunay(alloc, &points) {
        Ok(rows) => Some(rows.len()),
        Err(_) => None,
    }
}

#[test]
fn a_cloud(rt: HostRuntime) {
    assert!(rt; cloud_rows(rt.alloc(), 2000) == Some(13_200));
}

/// A point that is to be added, and its number.
#[derive(Drop)]
struct NewPoint {
    p: GridPoint,
    number: u32,
}

/// How many slots and faces the cavity and the rim of a new point have, grown from this slot, if it
/// is in the conflict zone of the point.
fn size_from<L: Ledger>(
    alloc: Global,
    arena: &Arena,
    points: &Points,
    start: Slot,
    new: &NewPoint,
    blank: Blank,
) -> Option<(usize, usize)>
    requires name { blank.name ≡ L.name }
    requires parts { blank.parts ≡ L.parts }
    requires some { 0 < blank.parts }
    requires mesh { IsDelaunayMesh arena.now.slots points.now (all_numbers points.now) }
    requires live { IsLive arena.now.slots start.index }
{
    let _ = arena.tet(start);
    let mut steps = Steps::<L>::new(blank);
    if !test_slot(arena, points, start, new.p, new.number, &mut steps) {
        return None;
    }
    match grow_cavity(alloc, arena, points, start, new.p, new.number, &mut steps) {
        Ok((cavity, rim)) => Some((cavity.len(), rim.len())),
        Err(NoMemory) => None,
    }
}

/// How many slots and faces the cavity and the rim of a new point have, from whichever slot it is
/// grown.
fn sizes(alloc: Global, living: &Living, new: &NewPoint) -> Option<(usize, usize)> {
    let (arena, points) = (living.arena(), living.points());
    let mut sizes = None;
    for i in 0..arena.slots() {
        if let Some(s) = arena.slot(i) {
            let found = size_from::<Brand>(alloc, arena, points, s, new, Blank::new(1));
            if found.is_some() {
                if sizes.is_some() && sizes != found {
                    return None;
                }
                sizes = found;
            }
        }
    }
    sizes
}

/// The mesh of these points.
fn living_of(alloc: Global, set: &[[i8; 3]]) -> Option<Living> {
    let points = small_set(alloc, &[set])?;
    match Living::new(alloc, points) {
        Ok(living) => Some(living),
        Err(_) => None,
    }
}

/// How many slots and faces the cavity and the rim of a point have in the mesh of the cube.
fn sizes_in_cube(alloc: Global, p: [i8; 3]) -> Option<(usize, usize)> {
    match living_of(alloc, &CUBE) {
        Some(living) => sizes(
            alloc,
            &living,
            &NewPoint {
                p: grid_point(p),
                number: 8,
            },
        ),
        None => None,
    }
}

/// Points, and how many slots and faces their cavities and rims have.
static CAVITIES: [(&str, [i8; 3], (usize, usize)); 4] = [
    ("in the middle", [1, 1, 1], (6, 12)),
    ("strictly beyond a face of the cube", [3, 1, 1], (2, 6)),
    ("in the middle of a face", [2, 1, 1], (8, 14)),
    (
        "in the plane of a face, outside of the sphere",
        [2, 4, 1],
        (2, 6),
    ),
];

#[test]
fn cavities_in_a_cube(rt: HostRuntime) {
    for (name, p, want) in &CAVITIES {
        assert!(rt; sizes_in_cube(rt.alloc(), *p) == Some(*want), "{name}");
    }
}

/// Whether there are points with these numbers and a side between them.
fn has_side(mesh: &Living, a: u32, b: u32) -> bool {
    let count = mesh.points().len();
    (a as usize) < count && (b as usize) < count && mesh.has_side(a, b)
}

/// How many sides the mesh has among its first 64 points, each from both ends.
fn sides(mesh: &Living) -> usize {
    let mut count = 0usize;
    for i in 0..4096u32 {
        if has_side(mesh, i / 64, i % 64) {
            count = count.saturating_add(1);
        }
    }
    count
}

/// Adds a point, and answers whether it was new and has the next number.
fn is_added(mesh: &mut Living, p: GridPoint) -> bool {
    let most = mesh.points().len();
    most <= 100
        && is_new(mesh.points(), most, p)
        && matches!(mesh.add_point(p), Ok(number) if number as usize == most)
}

fn are_added(mesh: &mut Living, more: &[[i8; 3]]) -> bool {
    more.iter().all(|p| is_added(mesh, grid_point(*p)))
}

/// How many rows the mesh of these points has once more are added, and how many sides, each from
/// both ends.
fn rows_and_sides(alloc: Global, set: &[[i8; 3]], more: &[[i8; 3]]) -> Option<(usize, usize)> {
    let mut mesh = living_of(alloc, set)?;
    if !are_added(&mut mesh, more) {
        return None;
    }
    match mesh.list(alloc) {
        Ok(rows) => Some((rows.len(), sides(&mesh))),
        Err(NoMemory) => None,
    }
}

const TETRAHEDRON: [[i8; 3]; 4] = [[0, 0, 0], [4, 0, 0], [0, 4, 0], [0, 0, 4]];

/// Points, more of them, and how many rows and sides their mesh has.
struct AddedCase {
    name: &'static str,
    points: &'static [[i8; 3]],
    more: &'static [[i8; 3]],
    counts: (usize, usize),
}

static ADDED_POINTS: [AddedCase; 4] = [
    AddedCase {
        name: "in the tetrahedron",
        points: &TETRAHEDRON,
        more: &[[1, 1, 1]],
        counts: (4, 20),
    },
    AddedCase {
        name: "and beyond a face of it",
        points: &TETRAHEDRON,
        more: &[[1, 1, 1], [4, 4, 4]],
        counts: (6, 28),
    },
    AddedCase {
        name: "and in the plane of another face",
        points: &TETRAHEDRON,
        more: &[[1, 1, 1], [4, 4, 4], [-1, 0, 3]],
        counts: (8, 36),
    },
    AddedCase {
        name: "none",
        points: &GRID,
        more: &[],
        counts: (40, 180),
    },
];

/// Whether the mesh has that many rows and sides.
fn has_counts(alloc: Global, case: &AddedCase) -> bool {
    rows_and_sides(alloc, case.points, case.more) == Some(case.counts)
}

#[test]
fn points_are_added(rt: HostRuntime) {
    for case in &ADDED_POINTS {
        assert!(rt; has_counts(rt.alloc(), case), "{}", case.name);
    }
}

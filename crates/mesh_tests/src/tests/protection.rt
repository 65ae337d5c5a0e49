//! Segments cut at the points on them, and protected by added points.
ghost use Rattle.std.specs.Prelude.{ℕ, ◌≡◌, ◌<◌, ◌≤◌, pos, ◌*ℤ◌, unsigned_abs, All, IsTrue, IfOk, IfSome, length};
ghost use Rattle.geo_laws.specs.Delaunay.{point, HasDistinctPoints};
ghost use Rattle.segment_protect.specs.Spots.{HasTwoEnds};
ghost use Rattle.segment_protect.specs.Protection.{IsMultiple, AreCut};

use crate::tests::pieces::{are_ends, sides};
use crate::tests::small_sets::{is_new, is_small_set, small_set};
use cavity_insert::{Living, delaunay};
use geo_laws::{Piece, Pieces, Points, Segments, TetList};
use segment_protect::{ProtectFault, Protected, pieces, protect};
use sign_predicates::GridPoint;
use std::alloc::Global;
use std::test::Fail;
use tet_ports::NoMemory;

fn has_two_ends(n: usize, s: Piece) -> bool
    ensures { IsTrue result → HasTwoEnds n s }
{
    (s.a as usize) < n && (s.b as usize) < n && s.a != s.b
}

fn have_two_ends(n: usize, segments: &Segments) -> bool
    ensures { IsTrue result → All (HasTwoEnds n) segments.now }
{
    for i in 0..segments.len() {
        if !has_two_ends(n, segments.at(i)) {
            return false;
        }
    }
    true
}

/// The pieces of the sides of polygons, where the points are distinct.
fn cut(alloc: Global, points: &Points, corners: &[&[u32]]) -> Option<Pieces>
    requires { HasDistinctPoints points.now }
    ensures { IfSome result (AreCut points.now) }
{
    let Ok(segments) = sides(alloc, corners) else {
        return None;
    };
    if points.len() > 1000 || !have_two_ends(points.len(), &segments) {
        return None;
    }
    pieces(alloc, points, &segments).ok()
}

// Five points on a line, the third and the fourth between the first two, and a point off it.
const LINE: [[i8; 3]; 6] = [
    [0, 0, 0],
    [4, 4, 0],
    [2, 2, 0],
    [1, 1, 0],
    [3, 2, 0],
    [5, 5, 0],
];

/// Polygons, and the ends of the pieces of their sides.
struct CutCase {
    name: &'static str,
    corners: &'static [&'static [u32]],
    pieces: &'static [[u32; 2]],
}

static CUTS: [CutCase; 9] = [
    CutCase {
        name: "through points of the input",
        corners: &[&[0, 1]],
        pieces: &[[0, 3], [3, 2], [2, 1]],
    },
    CutCase {
        name: "the way back",
        corners: &[&[1, 0]],
        pieces: &[[1, 2], [2, 3], [3, 0]],
    },
    CutCase {
        name: "one side, and then a longer one the other way",
        corners: &[&[0, 2], &[1, 0], &[4, 2]],
        pieces: &[[0, 3], [3, 2], [1, 2], [4, 2]],
    },
    CutCase {
        name: "two sides of a line that overlap",
        corners: &[&[0, 2], &[3, 1]],
        pieces: &[[0, 3], [3, 2], [2, 1]],
    },
    CutCase {
        name: "one side within another",
        corners: &[&[2, 3], &[5, 0]],
        pieces: &[[2, 3], [5, 1], [1, 2], [3, 0]],
    },
    CutCase {
        name: "a side given twice, and in both directions",
        corners: &[&[4, 0], &[4, 0], &[0, 4]],
        pieces: &[[4, 0]],
    },
    CutCase {
        name: "a polygon of one corner",
        corners: &[&[3], &[4, 2]],
        pieces: &[[4, 2]],
    },
    CutCase {
        name: "repeated corners",
        corners: &[&[0, 0, 3, 3, 4, 0, 3]],
        pieces: &[[0, 3], [3, 4], [4, 0]],
    },
    CutCase {
        name: "no polygon",
        corners: &[],
        pieces: &[],
    },
];

fn cuts(alloc: Global, case: &CutCase) -> bool {
    let Some(points) = small_set(alloc, &[&LINE]) else {
        return false;
    };
    match cut(alloc, &points, case.corners) {
        Some(found) => are_ends(&found, case.pieces),
        None => false,
    }
}

#[test]
fn pieces_of_sides(rt: HostRuntime) {
    let alloc = rt.alloc();
    for case in &CUTS {
        assert!(rt; cuts(alloc, case), "{}", case.name);
    }
}

// Two points on the first axis, and three points round each half of the segment between them.
const SPLITS: [[i16; 3]; 8] = [
    [-8, 0, 0],
    [8, 0, 0],
    [-4, 1, 0],
    [-4, -1, 1],
    [-4, -1, -1],
    [4, 1, 0],
    [4, -1, 1],
    [4, -1, -1],
];

fn times_four(x: i16) -> i32
    ensures value { result ≡ pos 4 *ℤ x }
    ensures small { unsigned_abs result ≤ 131072 }
{
    4 * x as i32
}

/// Four times the coordinates.
fn quadruple(a: i16, b: i16, c: i16) -> GridPoint
    ensures { IsMultiple 4 result }
{
    let x = times_four(a);
    let y = times_four(b);
    let z = times_four(c);
    GridPoint { x, y, z }
}

/// The points of the splits, in quarters of a unit.
fn split_points(alloc: Global) -> Result<Points, NoMemory>
    ensures { IfOk result (λ points. (i : ℕ) → i < length points → IsMultiple 4 (point points i)) }
{
    let mut points = Points::new(alloc);
    for k in 0..8usize {
        let p = SPLITS[k];
        points.push(quadruple(p[0], p[1], p[2]))?;
    }
    Ok(points)
}

/// The protection of the segment between the first two, where a piece may be halved twice.
fn protection(alloc: Global, budget: u32) -> Option<Result<Protected, ProtectFault>>
    requires { budget < 1000 }
{
    let Ok(points) = split_points(alloc) else {
        return None;
    };
    if !is_small_set(&points) {
        return None;
    }
    let pieces = cut(alloc, &points, &[&[0, 1]])?;
    Some(protect(alloc, points, pieces, 2, budget))
}

/// Whether these are the rows of the Delaunay list of the points.
fn is_list_of(alloc: Global, points: &Points, rows: &TetList) -> bool {
    if !is_small_set(points) {
        return false;
    }
    match delaunay(alloc, points) {
        Ok(list) => rows.as_slice() == list.as_slice(),
        Err(_) => false,
    }
}

fn splits_in_three(alloc: Global, budget: u32) -> bool
    requires { budget < 1000 }
{
    match protection(alloc, budget) {
        Some(Ok(p)) => p.points.len() == 11
            && are_ends(&p.pieces, &[[0, 9], [9, 8], [8, 10], [10, 1]])
            && is_list_of(alloc, &p.points, &p.tetrahedra),
        _ => false,
    }
}

/// Whether the mesh with the point has the Delaunay list of its points.
fn has_list_with(alloc: Global, living: &mut Living, p: GridPoint, lost: &mut Vec<u32>) -> bool {
    let count = living.points().len();
    if count > 1000 || !is_new(living.points(), count, p) {
        return false;
    }
    if living.add_point_telling(p, lost).is_err() {
        return false;
    }
    match living.list(alloc) {
        Ok(rows) => is_list_of(alloc, living.points(), &rows),
        Err(_) => false,
    }
}

/// Whether the mesh has the Delaunay list of its points after each of the three splits.
fn has_lists(alloc: Global, living: &mut Living, lost: &mut Vec<u32>) -> bool {
    for x in [0, -4, 4] {
        if !has_list_with(alloc, living, quadruple(x, 0, 0), lost) {
            return false;
        }
    }
    true
}

/// The mesh of the points of the splits.
fn living_of_splits(alloc: Global) -> Option<Living> {
    match split_points(alloc) {
        Ok(points) if is_small_set(&points) => Living::new(alloc, points).ok(),
        _ => None,
    }
}

#[test]
fn lists_of_splits(rt: HostRuntime) -> Result<(), Fail> {
    let mut living = living_of_splits(rt.alloc()).ok_or("no mesh")?;
    assert!(rt; has_lists(rt.alloc(), &mut living, &mut Vec::new(rt.alloc())));
    Ok(())
}

fn fault(alloc: Global, budget: u32) -> Option<ProtectFault>
    requires { budget < 1000 }
{
    match protection(alloc, budget) {
        Some(Err(fault)) => Some(fault),
        _ => None,
    }
}

/// The second piece, where the third split is one too many.
const SECOND: Piece = Piece {
    a: 8,
    b: 1,
    halvings: 1,
};

#[test]
fn three_splits(rt: HostRuntime) {
    let alloc = rt.alloc();
    let few = ProtectFault::BudgetEnd {
        made: 2,
        piece: SECOND,
    };
    assert!(rt; splits_in_three(alloc, 100) && splits_in_three(alloc, 3));
    assert!(rt; fault(alloc, 2) == Some(few));
}

//! Facets of several polygons, with hole points.
ghost use Rattle.std.specs.Prelude.{◌<◌, All, IsTrue, length};
ghost use Rattle.geo_laws.specs.Complex.{HasCornersOf};

use crate::tests::small_sets::points_of;
use facet_plane::*;
use geo_laws::{Complex, Points, Tet};
use sign_predicates::RatPoint;
use std::alloc::Global;
use std::test::Fail;
use tet_ports::NoMemory;

/// A place on the grid.
type Place = [i8; 3];

/// The place as a rational point.
fn at([x, y, z]: Place) -> RatPoint {
    RatPoint {
        x: i64::from(x),
        y: i64::from(y),
        z: i64::from(z),
        w: 1,
    }
}

/// A square, a square in it, and points in their plane and off it.
static PLACES: [Place; 15] = [
    [0, 0, 0],
    [9, 0, 0],
    [9, 9, 0],
    [0, 9, 0],
    [3, 3, 0],
    [6, 3, 0],
    [6, 6, 0],
    [3, 6, 0],
    [4, 4, 5],
    [20, 20, 0],
    [1, 5, 0],
    [18, 0, 0],
    [9, 3, 0],
    [9, 6, 0],
    [1, 1, 5],
];

/// One facet more, while there are few, of these polygons and hole points.
fn add_facet(complex: &mut Complex, polygons: &[&[u32]], holes: &[Place]) -> Result<(), NoMemory> {
    if complex.facet_count() < 99 {
        complex.add_facet(None)?;
    }
    for corners in polygons {
        if complex.facet_count() > 0 && complex.polygon_count() < 99 {
            complex.add_polygon(corners, 1)?;
        }
    }
    for hole in holes {
        if complex.facet_count() > 0 {
            complex.add_facet_hole(at(*hole))?;
        }
    }
    Ok(())
}

/// The polygons and the hole points of facets.
static SHAPES: [(&[&[u32]], &[Place]); 15] = [
    // 0: a square with a hole
    (&[&[0, 1, 2, 3], &[4, 5, 6, 7]], &[[5, 4, 0]]),
    // 1: the hole point lies on a side of the inner square
    (&[&[0, 1, 2, 3], &[4, 5, 6, 7]], &[[4, 3, 0]]),
    // 2: on a segment across it
    (&[&[0, 1, 2, 3], &[4, 5, 6, 7], &[4, 6]], &[[4, 4, 0]]),
    // 3: off the plane
    (&[&[0, 1, 2, 3], &[4, 5, 6, 7]], &[[5, 4, 3]]),
    // 4: off the plane over a side
    (&[&[0, 1, 2, 3], &[4, 5, 6, 7]], &[[4, 3, 2]]),
    // 5: two hole points in one hole
    (&[&[0, 1, 2, 3], &[4, 5, 6, 7]], &[[5, 4, 0], [4, 5, 0]]),
    // 6: a square and a triangle that overlap, and a hole point within both
    (&[&[0, 1, 2, 3], &[4, 9, 1]], &[[8, 4, 0]]),
    // 7 to 9: triangles that share a corner, a side and a part of a side with the square
    (&[&[2, 9, 11]], &[]),
    (&[&[1, 11, 2]], &[]),
    (&[&[12, 11, 13]], &[]),
    // 10: a triangle in the plane of the square that overlaps it
    (&[&[0, 1, 6]], &[]),
    // 11: a triangle that touches the square in one point, from one side
    (&[&[10, 8, 14]], &[]),
    // 12: a square with repeated corners
    (&[&[0, 0, 1, 2, 2, 3, 0]], &[]),
    // 13: all corners on a line
    (&[&[0, 4, 6]], &[]),
    // 14: two segments
    (&[&[0, 1], &[1, 2]], &[]),
];

fn facets(alloc: Global) -> Result<Complex, NoMemory> {
    let mut complex = Complex::new(alloc);
    for (polygons, holes) in &SHAPES {
        add_facet(&mut complex, polygons, holes)?;
    }
    Ok(complex)
}

/// Whether each of these is below n.
fn are_below(n: usize, corners: &[u32]) -> bool
    ensures { IsTrue result → All (λ i. i < n) corners.now }
{
    for i in 0..corners.len() {
        if corners[i] as usize >= n {
            return false;
        }
    }
    true
}

/// Whether each corner is the number of a point.
fn are_there(points: &Points, complex: &Complex) -> bool
    ensures { IsTrue result → HasCornersOf points.now complex.now }
{
    for q in 0..complex.polygon_count() {
        if !are_below(points.len(), complex.corners(q)) {
            return false;
        }
    }
    true
}

/// Whether a facet has this plane.
fn has_plane(points: &Points, complex: &Complex, facet: u32, plane: Plane) -> bool
    requires corners { HasCornersOf points.now complex.now }
    requires there { facet < length complex.now.facets }
{
    plane_of(points, complex, facet) == plane
}

/// Whether a facet holds a point, or holds it not, as it is said.
fn is_held(points: &Points, complex: &Complex, facet: u32, x: RatPoint, held: bool) -> bool
    requires corners { HasCornersOf points.now complex.now }
    requires there { facet < length complex.now.facets }
{
    in_facet(points, complex, facet, x) == held
}

/// Whether a facet is there, has this plane, and holds a place or not.
fn is_as_said(points: &Points, complex: &Complex, case: &HeldCase) -> bool
    requires { HasCornersOf points.now complex.now }
{
    let (facet, plane, place, held) = *case;
    facet < complex.facet_count()
        && has_plane(points, complex, facet, plane)
        && is_held(points, complex, facet, at(place), held)
}

/// A plane by three points of it.
type Plane = Option<(u32, u32, u32)>;

const SQUARE: Plane = Some((0, 1, 2));

/// A facet with its plane, and whether it holds a place.
type HeldCase = (u32, Plane, Place, bool);

static HELD: [HeldCase; 32] = [
    (0, SQUARE, [1, 1, 0], true),
    (0, SQUARE, [4, 5, 0], false),
    (0, SQUARE, [4, 3, 0], true),
    (0, SQUARE, [6, 6, 0], true),
    (0, SQUARE, [1, 1, 1], false),
    (0, SQUARE, [10, 1, 0], false),
    (1, SQUARE, [5, 5, 0], true),
    (2, SQUARE, [5, 4, 0], true),
    (3, SQUARE, [4, 5, 0], false),
    (3, SQUARE, [1, 5, 0], true),
    (4, SQUARE, [5, 5, 0], true),
    (5, SQUARE, [5, 5, 0], false),
    (5, SQUARE, [1, 1, 0], true),
    (6, SQUARE, [7, 5, 0], false),
    (6, SQUARE, [12, 8, 0], true),
    (6, SQUARE, [1, 5, 0], true),
    (7, Some((2, 9, 11)), [9, 9, 0], true),
    (7, Some((2, 9, 11)), [8, 8, 0], false),
    (8, Some((1, 11, 2)), [9, 5, 0], true),
    (8, Some((1, 11, 2)), [10, 1, 0], true),
    (8, Some((1, 11, 2)), [8, 5, 0], false),
    (9, Some((12, 11, 13)), [9, 5, 0], true),
    (9, Some((12, 11, 13)), [9, 7, 0], false),
    (10, Some((0, 1, 6)), [5, 4, 0], true),
    (10, Some((0, 1, 6)), [1, 5, 0], false),
    (11, Some((10, 8, 14)), [1, 5, 0], true),
    (11, Some((10, 8, 14)), [4, 4, 0], false),
    (12, SQUARE, [1, 1, 0], true),
    (12, SQUARE, [0, 5, 0], true),
    (12, SQUARE, [10, 1, 0], false),
    (13, None, [3, 3, 0], false),
    (14, SQUARE, [5, 0, 0], false),
];

/// The first facet that has another plane, or holds its place otherwise than it is said.
fn first_other(points: &Points, complex: &Complex) -> Option<usize> {
    if !are_there(points, complex) {
        return Some(HELD.len());
    }
    for (i, case) in HELD.iter().enumerate() {
        if !is_as_said(points, complex, case) {
            return Some(i);
        }
    }
    None
}

#[test]
fn facets_hold_their_sides_and_what_no_hole_point_takes_out(rt: HostRuntime) -> Result<(), Fail> {
    let points = points_of(rt.alloc(), &[&PLACES])?;
    let complex = facets(rt.alloc())?;
    assert_eq!(rt; first_other(&points, &complex), None);
    Ok(())
}

/// The complex of facets of one polygon each.
fn one_polygon_each(alloc: Global, polygons: &[&[u32]]) -> Result<Complex, NoMemory> {
    let mut complex = Complex::new(alloc);
    for corners in polygons {
        add_facet(&mut complex, &[*corners], &[])?;
    }
    Ok(complex)
}

/// The points of the first facet that is bent.
const BENT: NotFlat = NotFlat {
    facet: 1,
    four: Tet {
        a: 0,
        b: 1,
        c: 2,
        d: 8,
    },
};

/// Facets of one polygon each, and the result of the test whether they are flat.
static FLATNESS: [(&str, &[&[u32]], Result<(), NotFlat>); 3] = [
    (
        "a square, and a plane through a line and a point off it",
        &[&[0, 1, 2, 3], &[0, 4, 6, 8]],
        Ok(()),
    ),
    (
        "the second of four is bent, and so is the last",
        &[&[0, 1, 2], &[0, 0, 1, 2, 8], &[10, 8, 14], &[0, 1, 8, 9]],
        Err(BENT),
    ),
    ("none", &[], Ok(())),
];

/// Whether the test for flat facets of one polygon each gives `told`.
fn is_told(alloc: Global, points: &Points, polygons: &[&[u32]], told: Result<(), NotFlat>) -> bool {
    match one_polygon_each(alloc, polygons) {
        Ok(complex) => are_there(points, &complex) && check_flat(points, &complex) == told,
        Err(NoMemory) => false,
    }
}

#[test]
fn the_first_facet_that_is_bent_is_told(rt: HostRuntime) -> Result<(), Fail> {
    let points = points_of(rt.alloc(), &[&PLACES])?;
    for (name, polygons, told) in &FLATNESS {
        assert!(rt; is_told(rt.alloc(), &points, polygons, *told), "{name}");
    }
    Ok(())
}

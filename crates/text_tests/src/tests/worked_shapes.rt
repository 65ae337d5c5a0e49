//! Shapes of worked tetrahedra. The values were found with fractions: the center by three linear
//! equations.
ghost use Rattle.std.specs.Prelude.{◌≤◌, ◌^◌, unsigned_abs, All, IfSome, IfOk, IsTrue};
ghost use Rattle.geo_laws.specs.Delaunay.{IsOn};
ghost use Rattle.tet_shapes.specs.Shape.{IsFine};

use geo_laws::{Piece, Points, Segments, Tet, TetList};
use grid_coords::Grid;
use sign_predicates::{Corners, GridPoint};
use std::alloc::Global;
use tet_ports::{Items, NoMemory};
use tet_shapes::{
    Ratio, VolumeBounds, count_flat, count_large, count_slim, greatest_ratio, is_large, is_slim,
    is_slim_at, least_angle, narrowest, near_of, squared_cosine,
};

/// The greatest size of a coordinate, and the least coordinate.
const FAR: i32 = 536_870_912;

const LEAST: i32 = -536_870_912;

/// The point, where it is one of the grid.
fn at(p: [i32; 3]) -> Option<GridPoint> {
    let [x, y, z] = p;
    if x.unsigned_abs() > 536_870_912
        || y.unsigned_abs() > 536_870_912
        || z.unsigned_abs() > 536_870_912
    {
        return None;
    }
    Some(GridPoint { x, y, z })
}

fn tet(p: [[i32; 3]; 4]) -> Option<Corners> {
    Some(Corners {
        a: at(p[0])?,
        b: at(p[1])?,
        c: at(p[2])?,
        d: at(p[3])?,
    })
}

/// The ratio, where it is fine enough.
fn ratio(over: u32, under: u32) -> Option<Ratio>
    ensures { IfSome result IsFine }
{
    if over > 1 << 20 || under > 1 << 20 {
        return None;
    }
    Some(Ratio { over, under })
}

/// The radius is 3 and the shortest edge 2.
const BOX: [[i32; 3]; 4] = [[0, 0, 0], [4, 0, 0], [0, 4, 0], [0, 0, 2]];

/// `BOX`, as large as the grid holds it.
const LARGE_BOX: [[i32; 3]; 4] = [
    [LEAST, LEAST, LEAST],
    [FAR, LEAST, LEAST],
    [LEAST, FAR, LEAST],
    [LEAST, LEAST, 0],
];

/// The square of the radius over the shortest edge, the last one, is 83 / 10.
const LAST: [[i32; 3]; 4] = [[0, 0, 0], [9, 0, 0], [0, 9, 0], [1, 9, 2]];

/// The square is 3 / 4, at the greatest coordinates.
const CORNER: [[i32; 3]; 4] = [
    [LEAST, LEAST, LEAST],
    [FAR, LEAST, LEAST],
    [LEAST, FAR, LEAST],
    [LEAST, LEAST, FAR],
];

/// All but flat: the square is a little over 1 / 2.
const SLIVER: [[i32; 3]; 4] = [
    [LEAST, LEAST, 0],
    [FAR, LEAST, 0],
    [FAR, FAR, 0],
    [LEAST, FAR, 1],
];

/// The radius is some 144 thousand million million times the shortest edge.
const NEEDLE: [[i32; 3]; 4] = [[LEAST, 0, 0], [0, 0, 1], [FAR, 0, 0], [0, 1, 0]];

/// Tetrahedra, a numerator and a denominator, and whether the radius over the shortest edge is
/// over that.
static SHAPES: [(&str, [[i32; 3]; 4], u32, u32, bool); 17] = [
    ("box, at the bound", BOX, 3, 2, false),
    ("box, below", BOX, 149_999, 100_000, true),
    ("box, above", BOX, 150_001, 100_000, false),
    (
        "large box, at the bound",
        LARGE_BOX,
        1_048_575,
        699_050,
        false,
    ),
    ("large box, below", LARGE_BOX, 1_048_574, 699_050, true),
    ("large box, above", LARGE_BOX, 1_048_576, 699_050, false),
    ("last edge", LAST, 288, 100, true),
    ("last edge, above", LAST, 289, 100, false),
    ("corner", CORNER, 866_025, 1_000_000, true),
    ("corner, above", CORNER, 866_026, 1_000_000, false),
    ("corner, the finest", CORNER, 908_093, 1_048_576, true),
    (
        "corner, above the finest",
        CORNER,
        908_094,
        1_048_576,
        false,
    ),
    ("sliver", SLIVER, 707_106, 1_000_000, true),
    ("sliver, above", SLIVER, 707_107, 1_000_000, false),
    ("needle", NEEDLE, 1_048_576, 1, true),
    ("over nothing", NEEDLE, 1, 0, false),
    ("no bound", BOX, 0, 1, true),
];

fn is_slim_shape(corners: [[i32; 3]; 4], over: u32, under: u32) -> Option<bool> {
    Some(is_slim_at(tet(corners)?, ratio(over, under)?))
}

#[test]
fn radius_over_shortest_edge(rt: HostRuntime) {
    for (name, corners, over, under, want) in &SHAPES {
        assert!(rt;
            is_slim_shape(*corners, *over, *under) == Some(*want),
            "{name}"
        );
    }
}

// ---- lists

/// The corners of three tetrahedra, `BOX`, `LAST` and one with the legs 1, 1 and 2.
const POINTS: [[i32; 3]; 9] = [
    [0, 0, 0],
    [4, 0, 0],
    [0, 4, 0],
    [0, 0, 2],
    [9, 0, 0],
    [0, 9, 0],
    [1, 9, 2],
    [1, 0, 0],
    [0, 1, 0],
];

const ROWS: [[u32; 4]; 3] = [[0, 1, 2, 3], [0, 4, 5, 6], [0, 7, 8, 3]];

fn points(alloc: Global) -> Option<Points> {
    let mut list = Points::new(alloc);
    for p in &POINTS {
        list.push(at(*p)?).ok()?;
    }
    Some(list)
}

fn is_on(points: &Points, row: Tet) -> bool
    ensures { IsTrue result → IsOn points.now row }
{
    (row.a as usize) < points.len()
        && (row.b as usize) < points.len()
        && (row.c as usize) < points.len()
        && (row.d as usize) < points.len()
}

/// The rows whose corners are points of the list.
fn rows(alloc: Global, points: &Points) -> Result<TetList, NoMemory>
    ensures { IfOk result (All (IsOn points.now)) }
{
    let mut list = TetList::new(alloc);
    for [a, b, c, d] in ROWS {
        let row = Tet { a, b, c, d };
        if is_on(points, row) {
            list.push(row)?;
        }
    }
    Ok(list)
}

/// How many rows are slim at a bound, and how many large at another.
fn counts(alloc: Global, bound: Ratio, most: u128) -> Option<(usize, usize)>
    requires { IsFine bound }
{
    let points = points(alloc)?;
    let Ok(rows) = rows(alloc, &points) else {
        return None;
    };
    let bounds = VolumeBounds {
        most: Some(most),
        regions: Items::new(alloc),
    };
    Some((
        count_slim(&points, &rows, bound),
        count_large(&points, &rows, &None, &bounds),
    ))
}

/// The three tetrahedra have 9 / 4, 83 / 10 and 3 / 2 as the squares of the radius over the
/// shortest edge, and 32, 162 and 2 as six times the volume.
static COUNTS: [(u32, u32, u128, usize, usize); 6] = [
    (3, 1, 162, 0, 0),
    (288, 100, 161, 1, 1),
    (3, 2, 32, 1, 1),
    (149, 100, 31, 2, 2),
    (123, 100, 2, 2, 2),
    (122, 100, 1, 3, 3),
];

fn counts_at(alloc: Global, over: u32, under: u32, most: u128) -> Option<(usize, usize)> {
    counts(alloc, ratio(over, under)?, most)
}

#[test]
fn slim_and_large_rows(rt: HostRuntime) {
    for (over, under, most, slim, large) in &COUNTS {
        let found = counts_at(rt.alloc(), *over, *under, *most);
        assert!(rt; found == Some((*slim, *large)), "{over} / {under}, {most}");
    }
}

/// The rows that have a dihedral angle below so many degrees.
fn flat_rows(alloc: Global, degrees: u32) -> Option<usize> {
    let points = points(alloc)?;
    let Ok(rows) = rows(alloc, &points) else {
        return None;
    };
    if degrees > 30 {
        return None;
    }
    Some(count_flat(&points, &rows, squared_cosine(degrees)))
}

/// The least dihedral angles are 35.26, 12.53 and 48.19 degrees.
#[test]
fn flat_rows_by_degrees(rt: HostRuntime) {
    for (degrees, flat) in [(12, 0), (13, 1), (30, 1)] {
        assert!(rt; flat_rows(rt.alloc(), degrees) == Some(flat), "{degrees}");
    }
}

/// The least dihedral angle, where one is below `most` degrees, and the place of its row.
fn least_at(alloc: Global, most: u32) -> Option<(u32, usize)> {
    let points = points(alloc)?;
    let Ok(rows) = rows(alloc, &points) else {
        return None;
    };
    let least = least_angle(&points, &rows, most)?;
    Some((least.degrees, least.place))
}

/// The row in the middle has the least angle.
#[test]
fn row_of_the_least_angle(rt: HostRuntime) {
    assert!(rt; least_at(rt.alloc(), 12).is_none());
    for most in [13, 30, 60] {
        assert!(rt; least_at(rt.alloc(), most) == Some((12, 1)), "{most}");
    }
}

/// The place of the point that is nearest to the segment from (0, 0, 0) to (800, 0, 0), and a bound
/// on its distance in units of eight parts.
fn nearest_at(alloc: Global, others: &[[i32; 3]]) -> Option<(u32, u32)> {
    let mut points = Points::with_capacity(alloc, others.len() + 2).ok()?;
    points.push(at([0, 0, 0])?).ok()?;
    points.push(at([800, 0, 0])?).ok()?;
    for other in others {
        points.push(at(*other)?).ok()?;
    }
    let segment = Piece {
        a: 0,
        b: 1,
        halvings: 0,
    };
    let near = near_of(
        Grid {
            decimals: 2,
            halvings: 3,
        },
        &points,
        segment,
    )?;
    Some((near.point, near.units))
}

/// Beside the segment, behind an end, and the first of two that are as near.
#[test]
fn nearest_points(rt: HostRuntime) {
    let alloc = rt.alloc();
    assert!(rt; nearest_at(alloc, &[]).is_none());
    assert!(rt; nearest_at(alloc, &[[400, 24, 0], [900, 0, 0]]) == Some((2, 3)));
    assert!(rt; nearest_at(alloc, &[[400, 0, -25], [900, 0, 0]]) == Some((2, 4)));
    assert!(rt; nearest_at(alloc, &[[400, 90, 0], [830, 0, 40]]) == Some((3, 7)));
    assert!(rt; nearest_at(alloc, &[[10, 8, 0], [20, 0, 8]]) == Some((2, 1)));
}

/// The place of the segment that meets the one from (0, 0, 0) to (800, 0, 0) at the smallest angle,
/// of those from its first end to others, and a number of degrees that the angle is below.
fn narrowest_at(alloc: Global, others: &[[i32; 3]]) -> Option<(usize, u32)> {
    let mut points = Points::with_capacity(alloc, others.len() + 2).ok()?;
    points.push(at([0, 0, 0])?).ok()?;
    points.push(at([800, 0, 0])?).ok()?;
    let mut segments = Segments::new(alloc);
    for other in others {
        let b = u32::try_from(points.len()).ok()?;
        points.push(at(*other)?).ok()?;
        segments
            .push(Piece {
                a: 0,
                b,
                halvings: 0,
            })
            .ok()?;
    }
    let narrow = narrowest(
        &points,
        &segments,
        Piece {
            a: 1,
            b: 0,
            halvings: 0,
        },
    )?;
    Some((narrow.place, narrow.degrees))
}

/// The tangents are 1, 0.1 and 0.105: of 45, 5.7 and 6.0 degrees.
#[test]
fn narrow_corners(rt: HostRuntime) {
    let alloc = rt.alloc();
    assert!(rt; narrowest_at(alloc, &[]).is_none());
    assert!(rt; narrowest_at(alloc, &[[10, 10, 0], [-10, 0, 0]]).is_none());
    assert!(rt; narrowest_at(alloc, &[[10, 10, 0], [10, 1, 0], [200, 21, 0]]) == Some((1, 6)));
    assert!(rt; narrowest_at(alloc, &[[200, 0, 22], [-10, 1, 0], [10, 0, 1]]) == Some((2, 6)));
}

/// The greatest ratio, by the doublings of another one, and the place of its row.
fn greatest_at(alloc: Global, over: u32, under: u32) -> Option<(u32, usize)> {
    let points = points(alloc)?;
    let Ok(rows) = rows(alloc, &points) else {
        return None;
    };
    let greatest = greatest_ratio(&points, &rows, ratio(over, under)?)?;
    Some((greatest.doublings, greatest.place))
}

/// The ratios are 1.50, 2.88 and 1.22. One half in the finest terms is doubled once at most, and
/// then the first row is over it.
static GREATEST: [(u32, u32, Option<(u32, usize)>); 6] = [
    (3, 1, None),
    (288, 100, Some((0, 1))),
    (3, 2, Some((0, 1))),
    (1, 1, Some((1, 1))),
    (1, 100, Some((8, 1))),
    (524_288, 1_048_576, Some((1, 0))),
];

#[test]
fn row_of_the_greatest_ratio(rt: HostRuntime) {
    for (over, under, want) in &GREATEST {
        let found = greatest_at(rt.alloc(), *over, *under);
        assert!(rt; found == *want, "{over} / {under}");
    }
}

/// How many rows are over a bound of all and the bounds of two regions, where the first row is in
/// the first of these, the second in none, and the third in the second.
fn over_regions(alloc: Global, most: Option<u128>, bounds: [Option<u128>; 2]) -> Option<usize> {
    let points = points(alloc)?;
    let Ok(rows) = rows(alloc, &points) else {
        return None;
    };
    let mut marks = Items::new(alloc);
    marks.extend_from_slice(&[Some(0), None, Some(1)]).ok()?;
    let mut regions = Items::new(alloc);
    regions.extend_from_slice(&bounds).ok()?;
    let bounds = VolumeBounds { most, regions };
    Some(count_large(&points, &rows, &Some(marks), &bounds))
}

#[test]
fn rows_over_the_bounds_of_regions(rt: HostRuntime) {
    let alloc = rt.alloc();
    assert!(rt; over_regions(alloc, None, [Some(31), Some(2)]) == Some(1));
    assert!(rt; over_regions(alloc, Some(161), [Some(31), Some(2)]) == Some(2));
    assert!(rt; over_regions(alloc, Some(1), [Some(40), None]) == Some(3));
}

/// Whether the row of `BOX` is slim and large at these bounds.
fn first_row(alloc: Global, over: u32, under: u32, most: u128) -> Option<(bool, bool)> {
    let points = points(alloc)?;
    let bound = ratio(over, under)?;
    let row = Tet {
        a: 0,
        b: 1,
        c: 2,
        d: 3,
    };
    if !is_on(&points, row) {
        return None;
    }
    Some((is_slim(&points, row, bound), is_large(&points, row, most)))
}

#[test]
fn one_row(rt: HostRuntime) {
    assert!(rt; first_row(rt.alloc(), 149, 100, 31) == Some((true, true)));
    assert!(rt; first_row(rt.alloc(), 3, 2, 32) == Some((false, false)));
    assert!(rt; first_row(rt.alloc(), 3, 2, 0) == Some((false, true)));
}

//! Tangled cavities of a few points.
ghost use Rattle.std.specs.Prelude.{◌≤◌, ◌≤ℤ◌, IsTrue, IfSome, length, negsuc, pos};
ghost use Rattle.geo_laws.specs.Delaunay.{IsOn, HasDistinctPoints, IsDelaunayList};
ghost use Rattle.tangle_fill.specs.Fill.{AreFacetTriangles};
ghost use Rattle.tangle_fill.specs.Sample.{IsPlaneTriangle};

use crate::tests::small_sets::{row, small_set};
use cavity_insert::delaunay;
use facet_flips::candidate;
use geo_laws::{Face, FacetTriangle, FacetTriangles, Points, Tet, TetList};
use sign_predicates::GridPoint;
use simplex_meets::is_triangle;
use std::alloc::Global;
use std::test::Fail;
use tangle_fill::{FillFault, accepted, admissible, fill_tangle};
use tet_ports::NoMemory;

/// A set of points, in parts.
type Set = &'static [&'static [[i8; 3]]];

/// Two thin plates over one another.
const PLATES: [[i8; 3]; 6] = [
    [-9, -9, 0],
    [9, -9, 0],
    [0, 9, 0],
    [-9, -9, 1],
    [9, -9, 1],
    [0, 9, 1],
];

/// The two with a point above and one below.
const TWO_PLATES: Set = &[&PLATES, &[[0, 0, 3], [0, 0, -2]]];

/// The two and a third over them, with a point above and one below.
const THREE_PLATES: Set = &[
    &PLATES,
    &[[-9, -9, 2], [9, -9, 2], [0, 9, 2]],
    &[[0, 0, 4], [0, 0, -2]],
];

/// A prism whose upper triangle is turned against the lower one.
const TWISTED_PRISM: Set = &[&[
    [20, 0, 0],
    [-10, 17, 0],
    [-10, -17, 0],
    [17, 10, 20],
    [-17, 10, 20],
    [0, -20, 20],
]];

/// Two thin plates over one another in a cloud, most of whose tetrahedra stay as they are.
const PLATES_IN_CLOUD: Set = &[&[
    [-20, -19, 0],
    [21, -20, 0],
    [1, 20, 0],
    [-21, -20, 2],
    [22, -21, 2],
    [1, 22, 2],
    [71, 3, 27],
    [-65, 12, -29],
    [5, 74, -34],
    [-8, -71, 39],
    [2, 6, 30],
    [-4, 5, -27],
    [90, -70, -60],
    [-80, 95, 64],
    [71, 88, -93],
    [-99, -83, 81],
    [100, 101, 97],
    [-103, -97, -92],
]];

fn triangles_of(alloc: Global, corners: &[[u32; 3]]) -> Result<FacetTriangles, NoMemory> {
    let mut triangles = FacetTriangles::new(alloc);
    for f in corners {
        triangles.push(FacetTriangle {
            facet: 0,
            a: f[0],
            b: f[1],
            c: f[2],
        })?;
    }
    Ok(triangles)
}

/// Whether the triangle ascends, is on the points and not on a line.
fn is_facet_triangle(points: &Points, t: FacetTriangle) -> bool
    ensures { IsTrue result → IsPlaneTriangle points.now t }
{
    let FacetTriangle { facet: _, a, b, c } = t;
    a < b && b < c && is_triangle(points, Face { a, b, c })
}

fn are_facet_triangles(points: &Points, triangles: &FacetTriangles) -> bool
    ensures { IsTrue result → AreFacetTriangles points.now triangles.now }
{
    for i in 0..triangles.len() {
        if !is_facet_triangle(points, triangles.at(i)) {
            return false;
        }
    }
    true
}

fn is_on(points: &Points, row: Tet) -> bool
    ensures { IsTrue result → IsOn points.now row }
{
    (row.a as usize) < points.len()
        && (row.b as usize) < points.len()
        && (row.c as usize) < points.len()
        && (row.d as usize) < points.len()
}

/// Where a sample ends.
#[derive(Clone, Copy, PartialEq, Eq)]
enum End {
    /// With this number of tetrahedra.
    Filled(usize),
    /// With an anomaly.
    Refused,
    /// It may not be filled.
    Unfit,
}

/// Points with their Delaunay list, and triangles of facets on them.
#[derive(Drop)]
struct Tangle {
    points: Points,
    list: TetList,
    triangles: FacetTriangles,
}

/// The tangle of these points, if the triangles are on them.
fn tangle_on(alloc: Global, points: Points, corners: &[[u32; 3]]) -> Option<Tangle>
    requires distinct { HasDistinctPoints points }
    requires few { length points ≤ 1000 }
    ensures few { IfSome result (λ t. length t.points ≤ 1000) }
    ensures facets { IfSome result (λ t. AreFacetTriangles t.points t.triangles) }
    ensures list { IfSome result (λ t. IsDelaunayList t.points t.list) }
{
    let triangles = triangles_of(alloc, corners).ok()?;
    if !are_facet_triangles(&points, &triangles) {
        return None;
    }
    let list = delaunay(alloc, &points).ok()?;
    Some(Tangle {
        points,
        list,
        triangles,
    })
}

/// The tangle of a set of points, if it is one.
fn tangle_of(alloc: Global, set: &[&[[i8; 3]]], corners: &[[u32; 3]]) -> Option<Tangle>
    ensures few { IfSome result (λ t. length t.points ≤ 1000) }
    ensures facets { IfSome result (λ t. AreFacetTriangles t.points t.triangles) }
    ensures list { IfSome result (λ t. IsDelaunayList t.points t.list) }
{
    match small_set(alloc, set) {
        Some(points) => tangle_on(alloc, points, corners),
        None => None,
    }
}

/// The list that fills a tangle.
fn filled(alloc: Global, tangle: &Tangle) -> Result<TetList, FillFault>
    requires few { length tangle.now.points ≤ 1000 }
    requires facets { AreFacetTriangles tangle.now.points tangle.now.triangles }
    requires list { IsDelaunayList tangle.now.points tangle.now.list }
{
    if tangle.list.is_empty() {
        return Err(FillFault::NoMemory);
    }
    fill_tangle(alloc, &tangle.points, &tangle.list, &tangle.triangles)
}

/// Where a tangle ends.
fn end_of(alloc: Global, tangle: &Tangle) -> End
    requires few { length tangle.now.points ≤ 1000 }
    requires facets { AreFacetTriangles tangle.now.points tangle.now.triangles }
    requires list { IsDelaunayList tangle.now.points tangle.now.list }
{
    match filled(alloc, tangle) {
        Ok(rows) => End::Filled(rows.len()),
        Err(FillFault::NoFill { anomaly: _ }) => End::Refused,
        Err(FillFault::NoMemory) => End::Unfit,
    }
}

/// The facets of two plates.
const PLATE_FACETS: [[u32; 3]; 2] = [[0, 1, 2], [3, 4, 5]];

/// Whether a tetrahedron is admissible; None where it may not be asked.
fn is_admissible(tangle: &Tangle, row: Tet) -> Option<bool>
    requires few { length tangle.now.points ≤ 1000 }
    requires facets { AreFacetTriangles tangle.now.points tangle.now.triangles }
{
    if is_on(&tangle.points, row) {
        Some(admissible(&tangle.points, row, &tangle.triangles))
    } else {
        None
    }
}

/// Points, the facets on them, and where they end.
struct Sample {
    name: &'static str,
    points: Set,
    facets: &'static [[u32; 3]],
    end: End,
}

static SAMPLES: [Sample; 5] = [
    // Each plate parts the tetrahedra, and a prism between two plates has three.
    Sample {
        name: "two plates",
        points: TWO_PLATES,
        facets: &[[0, 1, 2], [3, 4, 5]],
        end: End::Filled(5),
    },
    Sample {
        name: "three plates",
        points: THREE_PLATES,
        facets: &[[0, 1, 2], [3, 4, 5], [6, 7, 8]],
        end: End::Filled(8),
    },
    Sample {
        name: "one plate, with the corners of the other as further points",
        points: TWO_PLATES,
        facets: &[[0, 1, 2]],
        end: End::Filled(8),
    },
    // The admissible ones of all fours of points, counted one by one; 64 before.
    Sample {
        name: "plates in a cloud",
        points: PLATES_IN_CLOUD,
        facets: &[[0, 1, 2], [3, 4, 5]],
        end: End::Filled(61),
    },
    // The twisted prism can't be cut into tetrahedra (Schoenhardt, 1928): the flips come to no list
    // that is accepted, and the growth tells an anomaly.
    Sample {
        name: "twisted prism",
        points: TWISTED_PRISM,
        facets: &[
            [0, 1, 2],
            [3, 4, 5],
            [0, 1, 4],
            [0, 3, 4],
            [1, 2, 5],
            [1, 4, 5],
            [0, 2, 3],
            [2, 3, 5],
        ],
        end: End::Refused,
    },
];

/// Whether the points with these facets end so.
fn ends(alloc: Global, sample: &Sample) -> bool {
    match tangle_of(alloc, sample.points, sample.facets) {
        Some(tangle) => end_of(alloc, &tangle) == sample.end,
        None => false,
    }
}

#[test]
fn tangled_samples(rt: HostRuntime) {
    for sample in &SAMPLES {
        assert!(rt; ends(rt.alloc(), sample), "{}", sample.name);
    }
}

/// Tetrahedra of the two plates, and whether they are admissible.
static ROWS: [(&str, [u32; 4], bool); 8] = [
    ("the first of the prism", [0, 1, 2, 3], true),
    ("below", [0, 1, 7, 2], true),
    ("the second", [1, 2, 3, 4], true),
    ("the third", [2, 3, 4, 5], true),
    ("above", [3, 4, 5, 6], true),
    ("a facet crosses it", [0, 1, 7, 6], false),
    ("not in the least even arrangement", [1, 2, 0, 3], false),
    ("not positive", [0, 1, 3, 2], false),
];

/// The first row of the two plates that is admissible where it should not be, or not where it
/// should.
fn other_row(tangle: &Tangle) -> Option<&'static str>
    requires few { length tangle.now.points ≤ 1000 }
    requires facets { AreFacetTriangles tangle.now.points tangle.now.triangles }
{
    for (name, corners, wanted) in &ROWS {
        if is_admissible(tangle, row(*corners)) != Some(*wanted) {
            return Some(*name);
        }
    }
    None
}

#[test]
fn admissible_on_two_plates(rt: HostRuntime) -> Result<(), Fail> {
    let plates = tangle_of(rt.alloc(), TWO_PLATES, &PLATE_FACETS).ok_or("no tangle")?;
    assert_eq!(rt; other_row(&plates), None);
    Ok(())
}

/// The rows of the mesh of the two plates: below, above, and the three of the prism between them.
const BELOW: [u32; 4] = [0, 1, 7, 2];

const ABOVE: [u32; 4] = [3, 4, 5, 6];

const FIRST: [u32; 4] = [0, 1, 2, 3];

const SECOND: [u32; 4] = [1, 2, 3, 4];

const THIRD: [u32; 4] = [2, 3, 4, 5];

/// Lists, and whether they are accepted for the two plates.
struct Candidate {
    name: &'static str,
    rows: &'static [[u32; 4]],
    is_accepted: bool,
}

static CANDIDATES: [Candidate; 10] = [
    Candidate {
        name: "in another order, and one that stands twice",
        rows: &[ABOVE, FIRST, THIRD, BELOW, SECOND, FIRST],
        is_accepted: true,
    },
    Candidate {
        name: "none",
        rows: &[],
        is_accepted: false,
    },
    Candidate {
        name: "one left out at the end",
        rows: &[FIRST, BELOW, SECOND, THIRD],
        is_accepted: false,
    },
    Candidate {
        name: "one left out in the middle",
        rows: &[FIRST, BELOW, THIRD, ABOVE],
        is_accepted: false,
    },
    Candidate {
        name: "two that overlap",
        rows: &[FIRST, BELOW, SECOND, THIRD, ABOVE, [0, 1, 7, 6]],
        is_accepted: false,
    },
    Candidate {
        name: "turned over",
        rows: &[FIRST, BELOW, SECOND, THIRD, [3, 4, 6, 5]],
        is_accepted: false,
    },
    Candidate {
        name: "in another arrangement",
        rows: &[FIRST, BELOW, SECOND, THIRD, [4, 5, 3, 6]],
        is_accepted: false,
    },
    Candidate {
        name: "on no point",
        rows: &[FIRST, BELOW, SECOND, THIRD, [3, 4, 5, 8]],
        is_accepted: false,
    },
    Candidate {
        name: "with another corner",
        rows: &[FIRST, BELOW, SECOND, THIRD, [3, 4, 5, 7]],
        is_accepted: false,
    },
    Candidate {
        name: "the prism cut another way",
        rows: &[[0, 1, 2, 4], BELOW, [0, 2, 3, 4], THIRD, ABOVE],
        is_accepted: false,
    },
];

fn list_of(alloc: Global, rows: &[[u32; 4]]) -> Result<TetList, NoMemory> {
    let mut list = TetList::new(alloc);
    for corners in rows {
        list.push(row(*corners))?;
    }
    Ok(list)
}

/// Whether a list is accepted for a tangle.
fn is_accepted(alloc: Global, tangle: &Tangle, candidate: TetList) -> Option<bool>
    requires few { length tangle.now.points ≤ 1000 }
    requires facets { AreFacetTriangles tangle.now.points tangle.now.triangles }
    requires list { IsDelaunayList tangle.now.points tangle.now.list }
{
    match accepted(
        alloc,
        &tangle.points,
        &tangle.list,
        &tangle.triangles,
        candidate,
    ) {
        Ok(found) => Some(found.is_some()),
        Err(NoMemory) => None,
    }
}

/// Whether the candidate is accepted or refused as it should be.
fn is_told(alloc: Global, tangle: &Tangle, candidate: &Candidate) -> bool
    requires few { length tangle.now.points ≤ 1000 }
    requires facets { AreFacetTriangles tangle.now.points tangle.now.triangles }
    requires list { IsDelaunayList tangle.now.points tangle.now.list }
{
    match list_of(alloc, candidate.rows) {
        Ok(rows) => is_accepted(alloc, tangle, rows) == Some(candidate.is_accepted),
        Err(NoMemory) => false,
    }
}

/// The first candidate for the two plates with another answer.
fn other_candidate(alloc: Global, tangle: &Tangle) -> Option<&'static str>
    requires few { length tangle.now.points ≤ 1000 }
    requires facets { AreFacetTriangles tangle.now.points tangle.now.triangles }
    requires list { IsDelaunayList tangle.now.points tangle.now.list }
{
    for candidate in &CANDIDATES {
        if !is_told(alloc, tangle, candidate) {
            return Some(candidate.name);
        }
    }
    None
}

#[test]
fn candidates_on_two_plates(rt: HostRuntime) -> Result<(), Fail> {
    let plates = tangle_of(rt.alloc(), TWO_PLATES, &PLATE_FACETS).ok_or("no tangle")?;
    assert_eq!(rt; other_candidate(rt.alloc(), &plates), None);
    Ok(())
}

/// Two plates with three points near each.
const PLATES_AND_RINGS: [[i8; 3]; 12] = [
    [-9, -9, 0],
    [9, -9, 0],
    [0, 9, 0],
    [-9, -9, 2],
    [9, -9, 2],
    [0, 9, 2],
    [0, -3, 3],
    [3, 2, 3],
    [-3, 2, 3],
    [0, -3, -1],
    [3, 2, -1],
    [-3, 2, -1],
];

/// And a point between them, all of whose Delaunay tetrahedra the plates cross.
const POINT_BETWEEN: Set = &[&PLATES_AND_RINGS, &[[0, 0, 1]]];

/// The list for the plates without the point between them, if there is one.
fn without_point(alloc: Global) -> Option<TetList> {
    match tangle_of(alloc, &[&PLATES_AND_RINGS], &PLATE_FACETS) {
        Some(tangle) => filled(alloc, &tangle).ok(),
        None => None,
    }
}

/// Whether a list is accepted for the points with the one between the plates.
fn is_accepted_with_point(alloc: Global, list: TetList) -> Option<bool> {
    match tangle_of(alloc, POINT_BETWEEN, &PLATE_FACETS) {
        Some(tangle) => is_accepted(alloc, &tangle, list),
        None => None,
    }
}

#[test]
fn list_without_a_point_is_refused(rt: HostRuntime) -> Result<(), Fail> {
    let list = without_point(rt.alloc()).ok_or("no list")?;
    assert!(rt; is_accepted_with_point(rt.alloc(), list) == Some(false));
    Ok(())
}

/// An odd factor that takes small sets towards the ends of the grid: the power of two that all
/// coordinates have in common stays as it is.
const FAR: i32 = (1 << 22) - 1;

/// The coordinate times FAR.
fn far_out(x: i8) -> i32
    ensures low { negsuc 536870911 ≤ℤ result }
    ensures high { result ≤ℤ pos 536870912 }
{
    i32::from(x) * FAR
}

/// The point times FAR.
fn far_point([x, y, z]: [i8; 3]) -> GridPoint {
    GridPoint {
        x: far_out(x),
        y: far_out(y),
        z: far_out(z),
    }
}

/// The points at the given places, each times FAR.
fn far_points(alloc: Global, places: &[[i8; 3]]) -> Result<Points, NoMemory> {
    let mut points = Points::new(alloc);
    for place in places {
        points.push(far_point(*place))?;
    }
    Ok(points)
}

/// The list that flips make for a tangle with its points at these places, if they come to one.
fn flipped(alloc: Global, tangle: &Tangle, points: &Points) -> Option<TetList> {
    let found = candidate(alloc, points, &tangle.list, &tangle.triangles).ok()?;
    found.map(|made| made.rows)
}

/// Whether flips come to this list with the points at these places.
fn flips_to(alloc: Global, tangle: &Tangle, points: &Points, list: &TetList) -> bool {
    match flipped(alloc, tangle, points) {
        Some(rows) => rows.as_slice() == list.as_slice(),
        None => false,
    }
}

/// Whether flips come to a list for the tangle, and to the same one with its points far out.
fn flips_alike(alloc: Global, tangle: &Tangle, far: &Points) -> bool {
    match flipped(alloc, tangle, &tangle.points) {
        Some(near) => flips_to(alloc, tangle, far, &near),
        None => false,
    }
}

#[test]
fn flips_far_out(rt: HostRuntime) -> Result<(), Fail> {
    let far = far_points(rt.alloc(), PLATES_IN_CLOUD[0])?;
    let cloud = tangle_of(rt.alloc(), PLATES_IN_CLOUD, &PLATE_FACETS).ok_or("no tangle")?;
    assert!(rt; flips_alike(rt.alloc(), &cloud, &far));
    Ok(())
}

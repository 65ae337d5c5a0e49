//! Proposals for a cube of six tetrahedra about a diagonal.

use geo_laws::{FacetTriangle, FacetTriangles, Points, Tet, TetList};
use point_proposals::{Aim, propose};
use sign_predicates::GridPoint;
use std::alloc::Global;
use std::test::Fail;
use tet_ports::{Items, NoMemory};
use tet_shapes::{Ratio, VolumeBounds};

/// The corners of the cube; each tetrahedron has the six-fold volume `64^3`, 262,144.
const CORNERS: [[i8; 3]; 8] = [
    [0, 0, 0],
    [64, 0, 0],
    [0, 64, 0],
    [64, 64, 0],
    [0, 0, 64],
    [64, 0, 64],
    [0, 64, 64],
    [64, 64, 64],
];

const TETRAHEDRA: [[u32; 4]; 6] = [
    [0, 1, 3, 7],
    [0, 1, 5, 7],
    [0, 2, 3, 7],
    [0, 2, 6, 7],
    [0, 4, 5, 7],
    [0, 4, 6, 7],
];

/// Two triangles of each facet.
const TRIANGLES: [[u32; 3]; 12] = [
    [0, 2, 6],
    [0, 4, 6],
    [1, 3, 7],
    [1, 5, 7],
    [0, 1, 5],
    [0, 4, 5],
    [2, 3, 7],
    [2, 6, 7],
    [0, 1, 3],
    [0, 2, 3],
    [4, 5, 7],
    [4, 6, 7],
];

fn grid_point([x, y, z]: [i8; 3]) -> GridPoint {
    GridPoint {
        x: i32::from(x),
        y: i32::from(y),
        z: i32::from(z),
    }
}

fn points(alloc: Global) -> Result<Points, NoMemory> {
    let mut points = Points::new(alloc);
    for corner in CORNERS {
        points.push(grid_point(corner))?;
    }
    Ok(points)
}

fn tetrahedra(alloc: Global) -> Result<TetList, NoMemory> {
    let mut list = TetList::new(alloc);
    for [a, b, c, d] in TETRAHEDRA {
        list.push(Tet { a, b, c, d })?;
    }
    Ok(list)
}

fn triangles(alloc: Global) -> Result<FacetTriangles, NoMemory> {
    let mut triangles = FacetTriangles::new(alloc);
    for i in 0..12 {
        let [a, b, c] = TRIANGLES[i];
        let facet = i as u32 / 2;
        triangles.push(FacetTriangle { facet, a, b, c })?;
    }
    Ok(triangles)
}

/// The points that are proposed for the cube, with coordinates that are multiples of 2, by these
/// bounds.
fn proposed(
    alloc: Global,
    volumes: Option<&VolumeBounds>,
    ratio: Option<Ratio>,
    splits_boundary: bool,
) -> Result<Points, NoMemory> {
    let marks = None;
    let aim = Aim {
        volumes,
        marks: &marks,
        ratio,
        halvings: 1,
        own: 8,
        splits_boundary,
        leaves_few: false,
    };
    propose(
        alloc,
        &points(alloc)?,
        &tetrahedra(alloc)?,
        &triangles(alloc)?,
        &aim,
    )
}

/// The points that are proposed by a bound of all tetrahedra.
fn for_volume(alloc: Global, most: u128, splits_boundary: bool) -> Result<Points, NoMemory> {
    let bounds = VolumeBounds {
        most: Some(most),
        regions: Items::new(alloc),
    };
    proposed(alloc, Some(&bounds), None, splits_boundary)
}

/// The points that are proposed by a ratio over 100.
fn for_shape(alloc: Global, over: u32) -> Result<Points, NoMemory> {
    proposed(alloc, None, Some(Ratio { over, under: 100 }), true)
}

/// Whether the points are these, in this order.
fn are(points: &Points, wanted: &[[i8; 3]]) -> bool {
    if points.len() != wanted.len() {
        return false;
    }
    for i in 0..wanted.len() {
        if i < points.len() && points.at(i) != grid_point(wanted[i]) {
            return false;
        }
    }
    true
}

#[test]
fn nothing_is_proposed_where_nothing_is_large(rt: HostRuntime) -> Result<(), Fail> {
    let proposed = for_volume(rt.alloc(), 262_144, true)?;
    assert!(rt; proposed.is_empty());
    Ok(())
}

#[test]
fn facets_are_split_before_the_inside(rt: HostRuntime) -> Result<(), Fail> {
    let split = for_volume(rt.alloc(), 262_143, true)?;
    let wanted = [[64, 32, 32], [32, 64, 32], [32, 32, 64]];
    assert!(rt; are(&split, &wanted));
    let inner = for_volume(rt.alloc(), 262_143, false)?;
    assert!(rt; are(&inner, &[[32, 32, 32]]));
    Ok(())
}

#[test]
fn slim_tetrahedra_are_split(rt: HostRuntime) -> Result<(), Fail> {
    // Half the root of 3 is the ratio of each tetrahedron, and all have one circumsphere.
    let none = for_shape(rt.alloc(), 87)?;
    assert!(rt; none.is_empty());
    let split = for_shape(rt.alloc(), 86)?;
    assert!(rt; are(&split, &[[32, 32, 0]]));
    Ok(())
}

/// Whether a coordinate is at an end of the cube.
fn is_end(x: i32) -> bool {
    x == 0 || x == 64
}

/// Whether a point is of the lattice and in the cube, with so many coordinates at its ends.
fn has_ends(p: GridPoint, wanted: usize) -> bool {
    let [a, b, c] = [is_end(p.x), is_end(p.y), is_end(p.z)];
    let ends = usize::from(a) + usize::from(b) + usize::from(c);
    let is_even = (p.x | p.y | p.z) & 1 == 0;
    let highest = p.x.max(p.y).max(p.z);
    let lowest = p.x.min(p.y).min(p.z);
    ends == wanted && is_even && lowest >= 0 && highest <= 64
}

/// How many of the points are of the lattice and in the cube, with so many coordinates at its ends.
fn count(points: &Points, ends: usize) -> usize {
    let mut count = 0_usize;
    for p in points.as_slice() {
        if has_ends(*p, ends) {
            count = count.wrapping_add(1);
        }
    }
    count
}

#[test]
fn a_cube_far_over_the_bound_is_filled(rt: HostRuntime) -> Result<(), Fail> {
    let filled = for_volume(rt.alloc(), 6_000, true)?;
    assert!(rt; filled.len() == 134);
    assert!(rt; count(&filled, 0) == 20);
    // Thirteen in each facet, and three on each segment.
    assert!(rt; count(&filled, 1) == 78);
    assert!(rt; count(&filled, 2) == 36);
    Ok(())
}

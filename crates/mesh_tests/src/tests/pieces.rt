//! Segments of polygons, and their places.
use geo_laws::{Piece, Segments};
use incidence::{PieceSet, Polygon, Polygons, put_sides, segments_of};
use std::alloc::Global;
use std::test::Fail;
use tet_ports::NoMemory;

// Triangles with a common side, a polygon of two corners and one of one, and two whose corners are
// repeated, one after the other and later.
const CORNERS: [&[u32]; 6] = [
    &[0, 1, 2],
    &[1, 0, 3],
    &[4, 5],
    &[6],
    &[7, 7, 8, 8],
    &[9, 4, 5, 9, 4],
];

/// The sides of polygons that are given by their corners.
pub(crate) fn sides(alloc: Global, corners: &[&[u32]]) -> Result<Segments, NoMemory> {
    let mut polygons = Polygons::new(alloc);
    for c in corners {
        let mut polygon = Polygon::new(alloc);
        polygon.extend_from_slice(c)?;
        polygons.push(polygon)?;
    }
    segments_of(alloc, &polygons)
}

/// Whether these are the ends of segments.
pub(crate) fn are_ends(segments: &Segments, want: &[[u32; 2]]) -> bool {
    if segments.len() != want.len() {
        return false;
    }
    for (i, w) in want.iter().enumerate() {
        let p = segments.at(i);
        if p.a != w[0] || p.b != w[1] {
            return false;
        }
    }
    true
}

fn found(alloc: Global) -> Result<bool, NoMemory> {
    let segments = sides(alloc, &CORNERS)?;
    Ok(are_ends(
        &segments,
        &[
            [0, 1],
            [1, 2],
            [2, 0],
            [0, 3],
            [3, 1],
            [4, 5],
            [7, 8],
            [9, 4],
            [5, 9],
        ],
    ))
}

fn side(a: u32, b: u32) -> Piece {
    Piece { a, b, halvings: 0 }
}

/// Whether a side is found by its ends in either direction, and one that is not there is not.
fn finds(alloc: Global) -> Result<bool, NoMemory> {
    let mut set = PieceSet::new(alloc);
    put_sides(&mut set, &[0, 1, 2])?;
    Ok(
        set.place_of(side(2, 1)) == Some(1)
            && set.place_of(side(1, 2)) == Some(1)
            && set.place_of(side(1, 3)).is_none(),
    )
}

#[test]
fn segments_of_polygons(rt: HostRuntime) {
    let as_wanted = found(rt.alloc()) == Ok(true) && finds(rt.alloc()) == Ok(true);
    assert!(rt; as_wanted);
}

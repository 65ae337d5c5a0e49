//! Texts of small meshes, against the formats of the manual.

use crate::tests::tet_lists::{CUBE, PYRAMID, Row, SMALLEST, list_of};
use geo_laws::{Complex, FacetTriangles, Points, Tet, TetList};
use mesh_files::*;
use std::alloc::Global;
use std::test::Fail;
use tet_ports::{Bytes, NoMemory};

/// The bytes as text.
fn text_of(bytes: &Bytes) -> &str {
    std::str::from_utf8(bytes.as_slice()).unwrap_or("no text")
}

/// The neighbors of rows as text.
fn neighbor_text(alloc: Global, rows: &[Row], first: u32) -> Result<Bytes, NoMemory> {
    let list = list_of(alloc, rows)?;
    let pairs = neighbors_of(alloc, &list)?;
    write_neigh(alloc, &pairs, first)
}

static NEIGHBOR_TEXTS: [(&[Row], u32, &str); 5] = [
    (&SMALLEST, 1, "1 4\n1 -1 -1 -1 -1\n"),
    (&PYRAMID, 0, "2 4\n0 1 -1 -1 -1\n1 -1 0 -1 -1\n"),
    (&PYRAMID, 1, "2 4\n1 2 -1 -1 -1\n2 -1 1 -1 -1\n"),
    (
        &CUBE,
        0,
        "6 4\n0 2 -1 -1 -1\n1 3 2 -1 -1\n2 4 -1 1 0\n3 5 -1 -1 1\n4 -1 5 -1 2\n5 -1 -1 4 3\n",
    ),
    (&[], 0, "0 4\n"),
];

#[test]
fn texts_of_neighbors(rt: HostRuntime) -> Result<(), Fail> {
    for (rows, first, neigh) in &NEIGHBOR_TEXTS {
        let text = neighbor_text(rt.alloc(), rows, *first)?;
        assert_eq!(rt; text_of(&text), *neigh);
    }
    Ok(())
}

/// The faces without facets, all of them or those on the surface.
fn bare_face_rows(alloc: Global, list: &TetList, all: bool) -> Result<FaceRows, NoMemory> {
    let points = Points::new(alloc);
    let complex = Complex::new(alloc);
    face_rows(
        alloc,
        &points,
        list,
        &complex,
        &FacetTriangles::new(alloc),
        all,
    )
}

/// How many faces, sides, rows of faces and faces on the surface there are.
fn counts(alloc: Global, rows: &[Row]) -> Result<[usize; 4], NoMemory> {
    let list = list_of(alloc, rows)?;
    Ok([
        faces_of(alloc, &list)?.len(),
        edges_of(alloc, &list)?.len(),
        bare_face_rows(alloc, &list, true)?.len(),
        bare_face_rows(alloc, &list, false)?.len(),
    ])
}

/// With T rows, P points in all and B of them on the surface, a ball has 2T + B - 2 faces, T + P +
/// B - 3 sides and 2B - 4 faces on the surface. Here all points are on it.
static BALLS: [(&[Row], [usize; 4]); 3] = [
    (&SMALLEST, [4, 6, 4, 4]),
    (&PYRAMID, [7, 9, 7, 6]),
    (&CUBE, [18, 19, 18, 12]),
];

#[test]
fn counts_of_balls(rt: HostRuntime) -> Result<(), Fail> {
    for (rows, want) in &BALLS {
        assert_eq!(rt; counts(rt.alloc(), rows)?, *want);
    }
    Ok(())
}

/// A corner is written by its name, which need not be its place.
fn named_text(alloc: Global) -> Result<Bytes, NoMemory> {
    let mut names = Names::new(alloc);
    names.extend_from_slice(&[4, 0, 9, 2])?;
    let mut list = TetList::new(alloc);
    list.push(Tet {
        a: 0,
        b: 1,
        c: 2,
        d: 3,
    })?;
    write_ele(alloc, &list, None, &Complex::new(alloc), &names, 1)
}

#[test]
fn corners_by_their_names(rt: HostRuntime) -> Result<(), Fail> {
    let text = named_text(rt.alloc())?;
    assert_eq!(rt; text_of(&text), "1 4 0\n1 5 1 10 3\n");
    Ok(())
}

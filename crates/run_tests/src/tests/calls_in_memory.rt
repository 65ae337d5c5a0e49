//! Calls on arrays of points and on texts in memory.

use array_meshes::{ArrayFault, Place, Row, delaunay_into, delaunay_rows};
use memory_runs::{HandedOver, RunFault, Slice, Task, Text, tetfit_into, tetgen_into};
use std::alloc::Global;
use std::test::Fail;

/// A pyramid, of which the last point stands in the array twice.
static PYRAMID: [Place; 6] = [
    Place { x: 0, y: 0, z: 0 },
    Place { x: 2, y: 0, z: 0 },
    Place { x: 2, y: 2, z: 0 },
    Place {
        x: 1,
        y: 1,
        z: 536_870_912,
    },
    Place {
        x: 1,
        y: 1,
        z: 536_870_912,
    },
    Place { x: 0, y: 2, z: 0 },
];

static FAR: [Place; 4] = [
    Place { x: 0, y: 0, z: 0 },
    Place { x: 2, y: 0, z: 0 },
    Place { x: 2, y: 2, z: 0 },
    Place {
        x: 1,
        y: 1,
        z: -536_870_913,
    },
];

const NOTHING: Row = Row {
    a: 7,
    b: 7,
    c: 7,
    d: 7,
};

static LIST: [Row; 2] = [
    Row {
        a: 0,
        b: 1,
        c: 5,
        d: 3,
    },
    Row {
        a: 1,
        b: 2,
        c: 5,
        d: 3,
    },
];

fn is_list(rows: &[Row]) -> bool {
    rows.len() == 2 && rows[0] == LIST[0] && rows[1] == LIST[1]
}

/// The first call that ends otherwise than it should, by its name.
fn other_array(alloc: Global) -> Option<&'static str> {
    let mut rows = [NOTHING; 3];
    if delaunay_into(alloc, &PYRAMID, &mut rows[..1]) != Err(ArrayFault::NoRoom { count: 2 }) {
        return Some("room for one row");
    }
    if delaunay_into(alloc, &PYRAMID[..3], &mut rows) != Err(ArrayFault::Flat) {
        return Some("a triangle");
    }
    if delaunay_into(alloc, &FAR, &mut rows) != Err(ArrayFault::OffGrid) {
        return Some("a coordinate over 2^29");
    }
    if rows[0] != NOTHING {
        return Some("a row after refusals");
    }
    if delaunay_into(alloc, &PYRAMID, &mut rows) != Ok(2) || !is_list(&rows[..2]) {
        return Some("the rows of the pyramid");
    }
    match delaunay_rows(alloc, &PYRAMID) {
        Ok(made) if is_list(made.as_slice()) => None,
        _ => Some("a list of the pyramid"),
    }
}

#[test]
fn arrays_are_meshed(rt: HostRuntime) -> Result<(), Fail> {
    assert_eq!(rt; other_array(rt.alloc()), None);
    Ok(())
}

static WORDS: [Slice<'static>; 2] = [Slice { bytes: b"-n" }, Slice { bytes: b"p" }];

static FILES: [Text<'static>; 1] = [Text {
    name: b"p.node",
    bytes: b"5 3 0 0\n0 0 0 0\n1 2 0 0\n2 2 2 0\n3 0 2 0\n4 1 1 2\n",
}];

static WANTED: [Slice<'static>; 2] = [Slice { bytes: b"p.1.ele" }, Slice { bytes: b"p.1.edge" }];

/// The summary and the tetrahedra, as they are handed over.
static TEXTS: &[u8] =
    b"points 5 added 0 tetrahedra 2 faces 7 edges 9\n2 4 0\n0 0 1 3 4\n1 1 2 3 4\n";

fn are_bytes(found: &[u8], wanted: &[u8]) -> bool {
    found == wanted
}

/// The first call that ends otherwise than it should, by its name.
fn other_texts(alloc: Global) -> Option<&'static str> {
    let task = Task {
        words: &WORDS,
        files: &FILES,
        wanted: &WANTED,
    };
    let mut lengths = [0; 4];
    let mut room = [0; 72];
    let told = tetgen_into(alloc, &task, &mut lengths, &mut room[..71]);
    if told != Err(RunFault::NoRoom { count: 72 }) {
        return Some("room for all bytes but one");
    }
    let told = tetgen_into(alloc, &task, &mut lengths, &mut room);
    if told != Ok(HandedOver { code: 0, count: 72 }) {
        return Some("the end of the run");
    }
    if lengths[0] != 46 || lengths[1] != 0 || lengths[2] != 26 || lengths[3] != usize::MAX {
        return Some("the lengths");
    }
    if !are_bytes(&room, TEXTS) {
        return Some("the texts");
    }
    None
}

#[test]
fn texts_are_handed_over(rt: HostRuntime) -> Result<(), Fail> {
    assert_eq!(rt; other_texts(rt.alloc()), None);
    Ok(())
}

static FIT_WORDS: [Slice<'static>; 2] = [Slice { bytes: b"-q" }, Slice { bytes: b"t.stl" }];

/// A tetrahedron by its four facets.
static FIT_FILES: [Text<'static>; 1] = [Text {
    name: b"t.stl",
    bytes: b"\
solid\n\
facet normal 0 0 0\nouter loop\nvertex 0 0 0\nvertex 0 1 0\nvertex 1 0 0\nendloop\n\
endfacet\n\
facet normal 0 0 0\nouter loop\nvertex 0 0 0\nvertex 1 0 0\nvertex 0 0 1\nendloop\n\
endfacet\n\
facet normal 0 0 0\nouter loop\nvertex 0 0 0\nvertex 0 0 1\nvertex 0 1 0\nendloop\n\
endfacet\n\
facet normal 0 0 0\nouter loop\nvertex 1 0 0\nvertex 0 1 0\nvertex 0 0 1\nendloop\n\
endfacet\n\
endsolid\n",
}];

static FIT_WANTED: [Slice<'static>; 1] = [Slice { bytes: b"t.1.ele" }];

/// The summary and the tetrahedron, as they are handed over.
static FIT_TEXTS: &[u8] =
    b"points 4 added 0 tetrahedra 1 faces 4 edges 6 decimals 0 slim 0 flat 0\n1 4 0\n0 0 1 3 2\n";

/// The first call of `tetfit` that ends otherwise than it should, by its name.
fn other_fit(alloc: Global) -> Option<&'static str> {
    let task = Task {
        words: &FIT_WORDS,
        files: &FIT_FILES,
        wanted: &FIT_WANTED,
    };
    let mut lengths = [0; 3];
    let mut room = [0; 87];
    let told = tetfit_into(alloc, &task, &mut lengths, &mut room[..86]);
    if told != Err(RunFault::NoRoom { count: 87 }) {
        return Some("room for all bytes but one");
    }
    let told = tetfit_into(alloc, &task, &mut lengths, &mut room);
    if told != Ok(HandedOver { code: 0, count: 87 }) {
        return Some("the end of the run");
    }
    if lengths[0] != 71 || lengths[1] != 0 || lengths[2] != 16 {
        return Some("the lengths");
    }
    if !are_bytes(&room, FIT_TEXTS) {
        return Some("the texts");
    }
    None
}

#[test]
fn models_are_handed_over(rt: HostRuntime) -> Result<(), Fail> {
    assert_eq!(rt; other_fit(rt.alloc()), None);
    Ok(())
}

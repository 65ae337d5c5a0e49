//! Runs that check a mesh.

use crate::tests::harness::End::{Refused, Told};
use crate::tests::harness::Program::{Tetfit, Tetgen};
use crate::tests::harness::{Place, Run, other_run};
use crate::tests::test_inputs::{BAR, PYRAMID, SPLIT};
use std::test::Fail;

const ROWS: &[u8] = b"2 4 0\n0 0 1 3 4\n1 1 2 3 4\n";

const FACES: &[u8] = b"6 1\n0 0 1 3 1\n1 0 1 4 1\n2 0 3 4 1\n3 1 2 3 1\n4 1 2 4 1\n5 2 3 4 1\n";

const NEIGHBORS: &[u8] = b"2 4\n0 1 -1 -1 -1\n1 -1 0 -1 -1\n";

static CHECKS: [Run<'static>; 8] = [
    Run {
        name: "sound",
        held: &[
            (b"t.node", &[PYRAMID]),
            (b"t.ele", &[ROWS]),
            (b"t.face", &[FACES]),
            (b"t.neigh", &[NEIGHBORS]),
        ],
        words: &[b"-rC", b"t"],
        end: Told(b"sound: 2 tetrahedra\n"),
        files: &[(b"t.1.ele", None)],
    },
    Run {
        name: "quiet, by the name of the point file, and without neighbors",
        held: &[
            (b"t.node", &[PYRAMID]),
            (b"t.ele", &[ROWS]),
            (b"t.face", &[FACES]),
        ],
        words: &[b"-CQ", b"t.node", b"-r"],
        end: Told(b""),
        files: &[],
    },
    Run {
        name: "a row that is not positive",
        held: &[
            (b"t.node", &[PYRAMID]),
            (b"t.ele", &[b"2 4 0\n0 0 1 3 4\n1 2 1 3 4\n"]),
            (b"t.face", &[FACES]),
            (b"t.neigh", &[NEIGHBORS]),
        ],
        words: &[b"-rC", b"t"],
        end: Refused(13, b"tetgen: defect: row 1 is not positive\n"),
        files: &[],
    },
    Run {
        name: "a third row",
        held: &[
            (b"t.node", &[PYRAMID]),
            (b"t.ele", &[b"3 4 0\n0 0 1 3 4\n1 1 2 3 4\n2 0 1 2 4\n"]),
            (b"t.face", &[FACES]),
        ],
        words: &[b"-rC", b"t"],
        end: Refused(
            13,
            b"tetgen: defect: rows 0 and 2 lie on one side of a face\n",
        ),
        files: &[],
    },
    Run {
        name: "a file that is missing",
        held: &[(b"t.node", &[PYRAMID]), (b"t.ele", &[ROWS])],
        words: &[b"-rC", b"t"],
        end: Refused(2, b"tetgen: t.face: not found\n"),
        files: &[],
    },
    Run {
        name: "a corner that is no point",
        held: &[
            (b"t.node", &[PYRAMID]),
            (b"t.ele", &[b"1 4\n0 0 1 3 5\n"]),
            (b"t.face", &[FACES]),
        ],
        words: &[b"-rC", b"t"],
        end: Refused(4, b"tetgen: t.ele: line 2: bad number\n"),
        files: &[],
    },
    Run {
        name: "the letters go together only",
        held: &[(b"t.node", &[PYRAMID])],
        words: &[b"-r", b"t"],
        end: Refused(1, b"tetgen: word 3, place 2: not understood\n"),
        files: &[],
    },
    Run {
        name: "the letters go together only, for a complex",
        held: &[(b"bar.poly", BAR)],
        words: &[b"-rC", b"bar.poly"],
        end: Refused(1, b"tetgen: word 3, place 2: not understood\n"),
        files: &[],
    },
];

#[test]
fn meshes_are_checked(rt: HostRuntime) -> Result<(), Fail> {
    assert_eq!(rt; other_run(rt.alloc(), Tetgen, &CHECKS)?, None);
    Ok(())
}

/// The mesh of a complex with added points is sound.
#[test]
fn a_mesh_that_was_made_is_sound(rt: HostRuntime) -> Result<(), Fail> {
    let alloc = rt.alloc();
    let mut place = Place::with_files(alloc, &[(b"s.poly", &[SPLIT])])?;
    place.run(alloc, Tetgen, &[b"-pcnQ", b"s"])?;
    place.run(alloc, Tetgen, &[b"-rC", b"s.1"])?;
    let found = place.difference(alloc, Told(b"sound: 18 tetrahedra\n"), &[])?;
    assert_eq!(rt; found, None);
    Ok(())
}

/// One tetrahedron whose corners are on a grid of 6400 parts of the unit, far from zero.
const FAR: &[u8] = b"4 3 0 0\n\
    0 432100.25390625 5412300.75 -295.78\n\
    1 432101.25390625 5412300.75 -295.78\n\
    2 432100.25390625 5412301.75 -295.78\n\
    3 432100.25390625 5412300.75 -294.78\n";

const FAR_FACES: &[u8] = b"4 0\n0 0 1 2\n1 0 1 3\n2 0 2 3\n3 1 2 3\n";

/// The files of a mesh on these points, with one tetrahedron.
const FAR_FILES: &[(&[u8], &[&[u8]])] = &[
    (b"t.node", &[FAR]),
    (b"t.ele", &[b"1 4 0\n0 0 1 2 3\n"]),
    (b"t.face", &[FAR_FACES]),
];

static FAR_CHECKS: [Run<'static>; 9] = [
    Run {
        name: "sound, far from zero",
        held: FAR_FILES,
        words: &[b"-rC", b"t"],
        end: Told(b"sound: 1 tetrahedra\n"),
        files: &[(b"t.1.node", None)],
    },
    Run {
        name: "quiet, by the name of its tetrahedra, with no stage",
        held: FAR_FILES,
        words: &[b"t.ele", b"-V", b"-Q", b"-Cr"],
        end: Told(b""),
        files: &[],
    },
    Run {
        name: "a row that is not positive",
        held: &[
            (b"t.node", &[FAR]),
            (b"t.ele", &[b"1 4 0\n0 0 2 1 3\n"]),
            (b"t.face", &[FAR_FACES]),
        ],
        words: &[b"-rC", b"t"],
        end: Refused(13, b"tetfit: defect: row 0 is not positive\n"),
        files: &[],
    },
    Run {
        name: "a coordinate off the grid",
        held: &[
            (
                b"t.node",
                &[b"4 3\n0 0 0 .5\n1 536870914 0 0\n2 0 1 0\n3 0 0 1\n"],
            ),
            (b"t.ele", &[b"1 4\n0 0 1 2 3\n"]),
            (b"t.face", &[FAR_FACES]),
        ],
        words: &[b"-rC", b"t"],
        end: Refused(5, b"tetfit: line 2: coordinate off the grid\n"),
        files: &[],
    },
    Run {
        name: "a file that is missing",
        held: &[(b"t.node", &[FAR])],
        words: &[b"-rC", b"t.node"],
        end: Refused(2, b"tetfit: t.ele: not found\n"),
        files: &[],
    },
    Run {
        name: "a bound beside a check",
        held: &[],
        words: &[b"-q1.4", b"-rC", b"t"],
        end: Refused(1, b"tetfit: -q1.4: only -Q and a name go with -rC\n"),
        files: &[],
    },
    Run {
        name: "letters beside a check",
        held: &[],
        words: &[b"-rC", b"-nf", b"t"],
        end: Refused(1, b"tetfit: -nf: only -Q and a name go with -rC\n"),
        files: &[],
    },
    Run {
        name: "a second name of a check",
        held: &[],
        words: &[b"-rC", b"t", b"u"],
        end: Refused(1, b"tetfit: u: there is one name already\n"),
        files: &[],
    },
    Run {
        name: "no name of a check",
        held: &[],
        words: &[b"-rC"],
        end: Refused(1, b"tetfit: the name of a file is wanted\n"),
        files: &[],
    },
];

#[test]
fn far_meshes_are_checked(rt: HostRuntime) -> Result<(), Fail> {
    assert_eq!(rt; other_run(rt.alloc(), Tetfit, &FAR_CHECKS)?, None);
    Ok(())
}

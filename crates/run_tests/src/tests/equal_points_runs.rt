//! Runs over inputs with equal points, which are folded.

use crate::tests::harness::End::{Refused, Told};
use crate::tests::harness::Program::Tetgen;
use crate::tests::harness::{Run, other_run};
use std::test::Fail;

/// A tetrahedron whose second corner is listed again, behind the others.
const LAST: &[u8] = b"5\n1 0 0 0\n2 1 0 0\n3 0 1 0\n4 0 0 1\n5 1.0 0 0\n";

/// A tetrahedron whose second corner is listed again, between the others.
const BETWEEN: &[u8] =
    b"5 3 1 1\n1 0 0 0 a 1\n2 1 0 0 b 2\n3 1e0 0 0 c 3\n4 0 1 0 d 4\n5 0 0 1 e 5\n";

/// The surface of a tetrahedron, each triangle with corners of its own.
const SURFACE: &[u8] =
    b"12\n0 0 0 0\n1 0 1 0\n2 1 0 0\n3 0 0 0\n4 1 0 0\n5 0 0 1\n6 0 0 0\n7 0 0 1\n8 0 1 0\n\
      9 1 0 0\n10 0 1 0\n11 0 0 1\n4 1\n3 0 1 2 7\n3 3 4 5\n3 6 7 8\n3 9 10 11\n0\n1\n\
      0 0.1 0.1 0.1 x\n";

/// A segment that is split in a mesh, with its first end listed again, behind the other points.
const SPLIT_TWICE: &[u8] =
    b"9 3 0 0\n0 -8 0 0\n1 8 0 0\n2 -4 1 0\n3 -4 -1 1\n4 -4 -1 -1\n5 4 1 0\n6 4 -1 1\n7 4 -1 -1\n\
      8 -8 0 0\n1\n1\n2 8 1\n";

/// Two segments that cross, behind a point that is listed twice.
const CROSSED: &[u8] =
    b"6\n1 0 0 0\n2 0 0 0\n3 2 2 0\n4 2 0 0\n5 0 2 0\n6 1 1 2\n2\n1\n2 2 3\n1\n2 4 5\n";

/// A facet that is not flat, behind a point that is listed twice.
const UNEVEN: &[u8] = b"6\n0 5 5 5\n1 5 5 5\n2 0 0 0\n3 1 0 0\n4 1 1 1\n5 0 1 0\n1\n1\n4 2 3 4 5\n";

static POINTS: [Run<'static>; 3] = [
    Run {
        name: "listed again behind the others",
        held: &[(b"t.node", &[LAST])],
        words: &[b"-ne", b"t"],
        end: Told(b"points 5 added 0 tetrahedra 1 faces 4 edges 6\n"),
        files: &[
            (b"t.1.ele", Some(b"1 4 0\n1 1 2 3 4\n")),
            (
                b"t.1.node",
                Some(b"5 3 0 0\n1 0 0 0\n2 1 0 0\n3 0 1 0\n4 0 0 1\n5 1 0 0\n"),
            ),
            (b"t.1.neigh", Some(b"1 4\n1 -1 -1 -1 -1\n")),
        ],
    },
    Run {
        name: "listed again between the others",
        held: &[(b"t.node", &[BETWEEN])],
        words: &[b"-ef", b"t"],
        end: Told(b"points 5 added 0 tetrahedra 1 faces 4 edges 6\n"),
        files: &[
            (b"t.1.ele", Some(b"1 4 0\n1 1 2 4 5\n")),
            (
                b"t.1.node",
                Some(b"5 3 1 1\n1 0 0 0 a 1\n2 1 0 0 b 2\n3 1 0 0 c 3\n4 0 1 0 d 4\n5 0 0 1 e 5\n"),
            ),
            (
                b"t.1.face",
                Some(b"4 1\n1 1 2 4 1\n2 1 2 5 1\n3 1 4 5 1\n4 2 4 5 1\n"),
            ),
            (
                b"t.1.edge",
                Some(b"6 0\n1 1 2\n2 1 4\n3 1 5\n4 2 4\n5 2 5\n6 4 5\n"),
            ),
        ],
    },
    Run {
        name: "from 0",
        held: &[(b"t.node", &[BETWEEN])],
        words: &[b"-zQ", b"t"],
        end: Told(b""),
        files: &[
            (b"t.1.ele", Some(b"1 4 0\n0 0 1 3 4\n")),
            (
                b"t.1.face",
                Some(b"4 1\n0 0 1 3 1\n1 0 1 4 1\n2 0 3 4 1\n3 1 3 4 1\n"),
            ),
        ],
    },
];

#[test]
fn equal_points_are_folded(rt: HostRuntime) -> Result<(), Fail> {
    assert_eq!(rt; other_run(rt.alloc(), Tetgen, &POINTS)?, None);
    Ok(())
}

static COMPLEXES: [Run<'static>; 2] = [
    Run {
        name: "triangles with corners of their own",
        held: &[(b"s.smesh", &[SURFACE])],
        words: &[b"-pAe", b"s"],
        end: Told(b"points 12 added 0 tetrahedra 1 faces 4 edges 6\n"),
        files: &[
            (b"s.1.ele", Some(b"1 4 1\n0 0 1 5 2 x\n")),
            (
                b"s.1.face",
                Some(b"4 1\n0 0 1 2 7\n1 0 1 5 1\n2 0 2 5 1\n3 1 2 5 1\n"),
            ),
            (
                b"s.1.edge",
                Some(b"6 0\n0 0 1\n1 0 2\n2 0 5\n3 1 2\n4 1 5\n5 2 5\n"),
            ),
        ],
    },
    Run {
        name: "added points are numbered behind all listed ones",
        held: &[(b"s.poly", &[SPLIT_TWICE])],
        words: &[b"-pc", b"s"],
        end: Told(b"points 9 added 3 tetrahedra 18 faces 42 edges 34\n"),
        files: &[(
            b"s.1.node",
            Some(
                b"12 3 0 0\n0 -8 0 0\n1 8 0 0\n2 -4 1 0\n3 -4 -1 1\n4 -4 -1 -1\n5 4 1 0\n6 4 -1 1\n\
                  7 4 -1 -1\n8 -8 0 0\n9 0 0 0\n10 -4 0 0\n11 4 0 0\n",
            ),
        )],
    },
];

#[test]
fn corners_name_kept_points(rt: HostRuntime) -> Result<(), Fail> {
    assert_eq!(rt; other_run(rt.alloc(), Tetgen, &COMPLEXES)?, None);
    Ok(())
}

static MESSAGES: [Run<'static>; 4] = [
    Run {
        name: "segments that cross",
        held: &[(b"s.poly", &[CROSSED])],
        words: &[b"-p", b"s"],
        end: Refused(6, b"tetgen: segments 1 3 and 4 5 cross\n"),
        files: &[],
    },
    Run {
        name: "not flat",
        held: &[(b"s.poly", &[UNEVEN])],
        words: &[b"-p", b"s"],
        end: Refused(6, b"tetgen: facet 1 is not flat: points 2 3 4 5\n"),
        files: &[],
    },
    Run {
        name: "an added point",
        held: &[(b"s.poly", &[SPLIT_TWICE])],
        words: &[b"-pc", b"--halvings=1", b"s"],
        end: Refused(7, b"tetgen: segment 0 9 needs a finer grid\n"),
        files: &[],
    },
    Run {
        name: "too few splits",
        held: &[(b"s.poly", &[SPLIT_TWICE])],
        words: &[b"-pcS2", b"s"],
        end: Refused(8, b"tetgen: 2 splits used, segment 1 9 is missing\n"),
        files: &[],
    },
];

#[test]
fn messages_tell_names(rt: HostRuntime) -> Result<(), Fail> {
    assert_eq!(rt; other_run(rt.alloc(), Tetgen, &MESSAGES)?, None);
    Ok(())
}

//! Runs on complexes, over a folder and streams in memory.

use crate::tests::harness::End::{Done, Refused, Told};
use crate::tests::harness::Program::Tetgen;
use crate::tests::harness::{Run, other_run};
use crate::tests::test_inputs::{BAR, BAR_LEFT, BAR_SMESH, BENT, PLATE, PRISM, SPLIT};
use std::test::Fail;

static BARS: [Run<'static>; 3] = [
    Run {
        name: "poly",
        held: &[(b"bar.poly", BAR)],
        words: &[b"-p", b"bar"],
        end: Told(b"points 8 added 0 tetrahedra 6 faces 18 edges 19\n"),
        files: &BAR_LEFT,
    },
    Run {
        name: "smesh",
        held: &[(b"bar.smesh", &[BAR_SMESH])],
        words: &[b"-p", b"bar"],
        end: Done,
        files: &BAR_LEFT,
    },
    Run {
        name: "by its extension, with the hull",
        held: &[(b"bar.poly", BAR), (b"bar.smesh", &[b"0 0\n"])],
        words: &[b"bar.poly", b"-c"],
        end: Done,
        files: &BAR_LEFT,
    },
];

#[test]
fn a_bar_is_meshed(rt: HostRuntime) -> Result<(), Fail> {
    assert_eq!(rt; other_run(rt.alloc(), Tetgen, &BARS)?, None);
    Ok(())
}

/// A tetrahedron in another, and a point beside it.
const IN_A_CORNER: &[u8] =
    b"9 3 0 0\n0 0 0 0\n1 20 0 0\n2 0 20 0\n3 0 0 20\n4 2 2 2\n5 10 2 2\n6 2 10 2\n7 2 2 10\n\
      8 16 1 1\n8\n1\n3 0 1 2\n1\n3 0 1 3\n1\n3 0 2 3\n1\n3 1 2 3\n1\n3 4 5 6\n1\n3 4 5 7\n1\n\
      3 4 6 7\n1\n3 5 6 7\n";

/// Three tetrahedra, each in the one before.
const THREE_NESTED: &[u8] =
    b"12 3 0 0\n0 0 0 0\n1 20 0 0\n2 0 20 0\n3 0 0 20\n4 2 2 2\n5 10 2 2\n6 2 10 2\n7 2 2 10\n\
      8 3 3 3\n9 6 3 3\n10 3 6 3\n11 3 3 6\n12\n1\n3 0 1 2\n1\n3 0 1 3\n1\n3 0 2 3\n1\n3 1 2 3\n1\n\
      3 4 5 6\n1\n3 4 5 7\n1\n3 4 6 7\n1\n3 5 6 7\n1\n3 8 9 10\n1\n3 8 9 11\n1\n3 8 10 11\n1\n\
      3 9 10 11\n";

/// A list of 25 hole points, but for the last: these are beyond the hull.
const BEYOND_24: &[u8] =
    b"25\n1 9 9 9\n2 9 9 9\n3 9 9 9\n4 9 9 9\n5 9 9 9\n6 9 9 9\n7 9 9 9\n8 9 9 9\n\
      9 9 9 9\n10 9 9 9\n11 9 9 9\n12 9 9 9\n13 9 9 9\n14 9 9 9\n15 9 9 9\n16 9 9 9\n\
      17 9 9 9\n18 9 9 9\n19 9 9 9\n20 9 9 9\n21 9 9 9\n22 9 9 9\n23 9 9 9\n24 9 9 9\n";

/// A box in a box.
const BOX_IN_BOX: &[u8] =
    b"16 3 0 0\n1 0 0 0\n2 3 0 0\n3 3 3 0\n4 0 3 0\n5 0 0 3\n6 3 0 3\n7 3 3 3\n8 0 3 3\n9 1 1 1\n\
      10 2 1 1\n11 2 2 1\n12 1 2 1\n13 1 1 2\n14 2 1 2\n15 2 2 2\n16 1 2 2\n12\n1\n4 1 2 3 4\n1\n\
      4 5 6 7 8\n1\n4 1 5 6 2\n1\n4 2 6 7 3\n1\n4 3 7 8 4\n1\n4 4 8 5 1\n1\n4 9 10 11 12\n1\n\
      4 13 14 15 16\n1\n4 9 13 14 10\n1\n4 10 14 15 11\n1\n4 11 15 16 12\n1\n4 12 16 13 9\n";

static COMPLEXES: [Run<'static>; 15] = [
    Run {
        name: "prism with a notch",
        held: &[(b"t.poly", &[PRISM])],
        words: &[b"-p", b"t"],
        end: Told(b"points 12 added 0 tetrahedra 12 faces 34 edges 33\n"),
        files: &[],
    },
    Run {
        name: "prism with its hull",
        held: &[(b"t.poly", &[PRISM])],
        words: &[b"-pc", b"t"],
        end: Told(b"points 12 added 0 tetrahedra 15 faces 40 edges 36\n"),
        files: &[],
    },
    Run {
        name: "three splits",
        held: &[(b"t.poly", &[SPLIT])],
        words: &[b"-pcS3", b"t"],
        end: Told(b"points 8 added 3 tetrahedra 18 faces 42 edges 34\n"),
        files: &[(
            b"t.1.node",
            Some(
                b"11 3 0 0\n0 -8 0 0\n1 8 0 0\n2 -4 1 0\n3 -4 -1 1\n4 -4 -1 -1\n5 4 1 0\n6 4 -1 1\n\
                  7 4 -1 -1\n8 0 0 0\n9 -4 0 0\n10 4 0 0\n",
            ),
        )],
    },
    Run {
        name: "no facet and no hull",
        held: &[(b"t.poly", &[SPLIT])],
        words: &[b"-p", b"t"],
        end: Told(b"points 8 added 3 tetrahedra 0 faces 0 edges 0\n"),
        files: &[(b"t.1.ele", Some(b"0 4 0\n"))],
    },
    Run {
        name: "a plate through three tetrahedra",
        held: &[(b"t.poly", &[PLATE])],
        words: &[b"-pc", b"t"],
        end: Done,
        files: &[
            (b"t.1.ele", Some(b"2 4 0\n0 0 1 2 3\n1 0 1 4 2\n")),
            (
                b"t.1.face",
                Some(
                    b"7 1\n0 0 1 2 5\n1 0 1 3 1\n2 0 1 4 1\n3 0 2 3 1\n4 0 2 4 1\n5 1 2 3 1\n\
                      6 1 2 4 1\n",
                ),
            ),
        ],
    },
    Run {
        name: "a sample of 1",
        held: &[],
        words: &[b"--sample=1"],
        end: Told(b"points 9 added 0 tetrahedra 12 faces 30 edges 26\n"),
        files: &[],
    },
    Run {
        name: "a plate with a hole through which tetrahedra pass",
        held: &[(
            b"t.poly",
            &[
                b"14 3 0 0\n0 -6 -6 0\n1 6 -6 0\n2 6 6 0\n3 -6 6 0\n4 -2 -2 0\n5 2 -2 0\n6 2 2 0\n\
                  7 -2 2 0\n8 0 0 3\n9 0 0 -3\n10 4 1 2\n11 4 1 -2\n12 -4 1 2\n13 -4 1 -2\n1\n2 1\n\
                  4 0 1 2 3\n4 4 5 6 7\n0 0 0 0\n0\n",
            ],
        )],
        words: &[b"-pc", b"t"],
        end: Told(b"points 14 added 0 tetrahedra 32 faces 72 edges 53\n"),
        files: &[],
    },
    Run {
        name: "two facets of a plane, side by side",
        held: &[(
            b"t.poly",
            &[
                b"10 3 0 0\n0 -6 -4 0\n1 0 -4 0\n2 0 4 0\n3 -6 4 0\n4 6 -4 0\n5 6 4 0\n6 -3 2 2\n\
                  7 -3 2 -2\n8 3 2 2\n9 3 2 -2\n2\n1\n4 0 1 2 3\n1\n4 1 4 5 2\n0\n",
            ],
        )],
        words: &[b"-pc", b"t"],
        end: Told(b"points 10 added 0 tetrahedra 10 faces 28 edges 27\n"),
        files: &[],
    },
    Run {
        name: "a plate that ends on a wall",
        held: &[(
            b"t.poly",
            &[
                b"14 3 0 0\n0 0 0 0\n1 10 0 0\n2 10 10 0\n3 0 10 0\n4 0 0 10\n5 10 0 10\n\
                  6 10 10 10\n7 0 10 10\n8 0 3 5\n9 0 7 5\n10 6 7 5\n11 6 3 5\n12 3 5 7\n13 3 5 3\n\
                  7\n1\n4 0 1 2 3\n1\n4 4 5 6 7\n1\n4 0 4 5 1\n1\n4 1 5 6 2\n1\n4 2 6 7 3\n1\n\
                  4 3 7 4 0\n1\n4 8 9 10 11\n0\n",
            ],
        )],
        words: &[b"-p", b"t"],
        end: Told(b"points 14 added 0 tetrahedra 33 faces 74 edges 54\n"),
        files: &[],
    },
    Run {
        name: "a sample of no point more",
        held: &[],
        words: &[b"--sample=0"],
        end: Told(b"points 8 added 0 tetrahedra 6 faces 18 edges 19\n"),
        files: &[],
    },
    Run {
        name: "a sample of 50",
        held: &[],
        words: &[b"--sample=50"],
        end: Told(b"points 58 added 0 tetrahedra 304 faces 614 edges 367\n"),
        files: &[],
    },
    Run {
        name: "the same sample again",
        held: &[],
        words: &[b"--sample=50"],
        end: Told(b"points 58 added 0 tetrahedra 304 faces 614 edges 367\n"),
        files: &[],
    },
    Run {
        name: "a sample of 2000, and no files",
        held: &[],
        words: &[b"-nef", b"--sample=2000"],
        end: Told(b"points 2008 added 0 tetrahedra 13200 faces 26406 edges 15213\n"),
        files: &[
            (b".1.node", None),
            (b".1.ele", None),
            (b".1.face", None),
            (b".1.edge", None),
            (b".1.neigh", None),
        ],
    },
    Run {
        name: "two plates that cross one tetrahedron",
        held: &[(
            b"t.poly",
            &[
                b"8 3 0 0\n0 -9 -9 0\n1 9 -9 0\n2 0 9 0\n3 -9 -9 1\n4 9 -9 1\n5 0 9 1\n6 0 0 3\n\
                  7 0 0 -2\n2\n1\n3 0 1 2\n1\n3 3 4 5\n",
            ],
        )],
        words: &[b"-pc", b"t"],
        end: Told(b"points 8 added 0 tetrahedra 5 faces 16 edges 18\n"),
        files: &[(
            b"t.1.ele",
            Some(b"5 4 0\n0 0 1 2 3\n1 0 1 7 2\n2 1 2 3 4\n3 2 3 4 5\n4 3 4 5 6\n"),
        )],
    },
    Run {
        name: "regions of a box in a box",
        held: &[(
            b"t.poly",
            &[BOX_IN_BOX, b"0\n2\n1 0.5 1.4 1.6 10\n2 1.4 1.5 1.6 20\n"],
        )],
        words: &[b"-pA", b"t"],
        end: Told(b"points 16 added 0 tetrahedra 42 faces 90 edges 63\n"),
        files: &[(
            b"t.1.ele",
            Some(
                b"42 4 1\n1 1 2 4 9 10\n2 1 2 9 5 10\n3 1 4 5 9 10\n4 2 3 4 10 10\n5 2 3 10 6 10\n\
                  6 2 4 9 10 10\n7 2 5 6 9 10\n8 2 6 10 9 10\n9 3 4 10 11 10\n10 3 4 11 7 10\n\
                  11 3 6 7 10 10\n12 3 7 11 10 10\n13 4 5 9 8 10\n14 4 7 8 11 10\n15 4 8 9 12 10\n\
                  16 4 8 12 11 10\n17 4 9 10 12 10\n18 4 10 11 12 10\n19 5 6 9 13 10\n\
                  20 5 6 13 8 10\n21 5 8 13 9 10\n22 6 7 10 14 10\n23 6 7 14 8 10\n\
                  24 6 8 14 13 10\n25 6 9 13 10 10\n26 6 10 13 14 10\n27 7 8 11 15 10\n\
                  28 7 8 15 14 10\n29 7 10 14 11 10\n30 7 11 14 15 10\n31 8 9 12 13 10\n\
                  32 8 11 15 12 10\n33 8 12 15 16 10\n34 8 12 16 13 10\n35 8 13 16 14 10\n\
                  36 8 14 16 15 10\n37 9 10 12 13 20\n38 10 11 12 14 20\n39 10 12 13 14 20\n\
                  40 11 12 14 15 20\n41 12 13 14 16 20\n42 12 14 15 16 20\n",
            ),
        )],
    },
];

#[test]
fn complexes_are_meshed(rt: HostRuntime) -> Result<(), Fail> {
    assert_eq!(rt; other_run(rt.alloc(), Tetgen, &COMPLEXES)?, None);
    Ok(())
}

static CARVED: [Run<'static>; 15] = [
    Run {
        name: "hole points on a facet, a side and a corner, and beyond the hull",
        held: &[(
            b"t.poly",
            &[IN_A_CORNER, b"4\n0 4 4 2\n1 5 2 2\n2 10 2 2\n3 30 30 30\n"],
        )],
        words: &[b"-p", b"t"],
        end: Told(b"points 9 added 0 tetrahedra 16 faces 34 edges 26\n"),
        files: &[],
    },
    Run {
        name: "a hole point inside a tetrahedron",
        held: &[(b"t.poly", &[IN_A_CORNER, b"1\n0 3 3 3\n"])],
        words: &[b"-p", b"t"],
        end: Told(b"points 9 added 0 tetrahedra 15 faces 34 edges 26\n"),
        files: &[],
    },
    Run {
        name: "a hole point on an inner face",
        held: &[(b"t.poly", &[IN_A_CORNER, b"1\n0 13 3 1\n"])],
        words: &[b"-p", b"t"],
        end: Told(b"points 9 added 0 tetrahedra 1 faces 4 edges 6\n"),
        files: &[],
    },
    Run {
        name: "a hole point on an inner side",
        held: &[(b"t.poly", &[IN_A_CORNER, b"1\n0 15 1 1\n"])],
        words: &[b"-p", b"t"],
        end: Told(b"points 9 added 0 tetrahedra 1 faces 4 edges 6\n"),
        files: &[],
    },
    Run {
        name: "a hole point on an inner point",
        held: &[(b"t.poly", &[IN_A_CORNER, b"1\n0 16 1 1\n"])],
        words: &[b"-p", b"t"],
        end: Told(b"points 9 added 0 tetrahedra 1 faces 4 edges 6\n"),
        files: &[],
    },
    Run {
        name: "a hole round a solid",
        held: &[(b"t.poly", &[THREE_NESTED, b"1\n0 2.5 2.5 2.5\n"])],
        words: &[b"-p", b"t"],
        end: Told(b"points 12 added 0 tetrahedra 13 faces 32 edges 28\n"),
        files: &[],
    },
    Run {
        name: "a hole round a solid with a hole",
        held: &[(
            b"t.poly",
            &[THREE_NESTED, b"2\n0 2.5 2.5 2.5\n1 3.5 3.5 3.5\n"],
        )],
        words: &[b"-p", b"t"],
        end: Told(b"points 12 added 0 tetrahedra 12 faces 28 edges 22\n"),
        files: &[],
    },
    Run {
        name: "two components",
        held: &[(
            b"t.poly",
            &[
                b"8 3 0 0\n0 0 0 0\n1 20 0 0\n2 0 20 0\n3 0 0 20\n4 30 0 0\n5 50 0 0\n6 30 20 0\n\
                  7 30 0 20\n8\n1\n3 0 1 2\n1\n3 0 1 3\n1\n3 0 2 3\n1\n3 1 2 3\n1\n3 4 5 6\n1\n\
                  3 4 5 7\n1\n3 4 6 7\n1\n3 5 6 7\n0\n",
            ],
        )],
        words: &[b"-p", b"t"],
        end: Told(b"points 8 added 0 tetrahedra 2 faces 8 edges 12\n"),
        files: &[],
    },
    Run {
        name: "an open surface",
        held: &[(
            b"t.poly",
            &[
                b"4 3 0 0\n0 0 0 0\n1 20 0 0\n2 0 20 0\n3 0 0 20\n3\n1\n3 0 1 2\n1\n3 0 1 3\n1\n\
                  3 0 2 3\n0\n",
            ],
        )],
        words: &[b"-p", b"t"],
        end: Told(b"points 4 added 0 tetrahedra 0 faces 0 edges 0\n"),
        files: &[],
    },
    Run {
        name: "surfaces that touch in a point",
        held: &[(
            b"t.poly",
            &[
                b"7 3 0 0\n0 0 0 0\n1 20 0 0\n2 0 20 0\n3 0 0 20\n4 40 0 0\n5 20 20 0\n6 20 0 20\n\
                  8\n1\n3 0 1 2\n1\n3 0 1 3\n1\n3 0 2 3\n1\n3 1 2 3\n1\n3 1 4 5\n1\n3 1 4 6\n1\n\
                  3 1 5 6\n1\n3 4 5 6\n0\n",
            ],
        )],
        words: &[b"-p", b"t"],
        end: Told(b"points 7 added 0 tetrahedra 2 faces 8 edges 12\n"),
        files: &[],
    },
    Run {
        name: "surfaces that touch along a side",
        held: &[(
            b"t.poly",
            &[
                b"6 3 0 0\n0 0 0 0\n1 20 0 0\n2 0 20 0\n3 0 0 20\n4 30 30 -9\n5 30 30 9\n8\n1\n\
                  3 0 1 2\n1\n3 0 1 3\n1\n3 0 2 3\n1\n3 1 2 3\n1\n3 1 2 4\n1\n3 1 2 5\n1\n3 1 4 5\n\
                  1\n3 2 4 5\n0\n",
            ],
        )],
        words: &[b"-p", b"t"],
        end: Told(b"points 6 added 0 tetrahedra 2 faces 8 edges 11\n"),
        files: &[],
    },
    Run {
        name: "a box in a box",
        held: &[(b"t.poly", &[BOX_IN_BOX, b"0\n"])],
        words: &[b"-p", b"t"],
        end: Told(b"points 16 added 0 tetrahedra 42 faces 90 edges 63\n"),
        files: &[],
    },
    Run {
        name: "a box in a box with a hole in the inner one",
        held: &[(b"t.poly", &[BOX_IN_BOX, b"1\n1 1.4 1.5 1.6\n"])],
        words: &[b"-p", b"t"],
        end: Told(b"points 16 added 0 tetrahedra 36 faces 84 edges 62\n"),
        files: &[],
    },
    Run {
        name: "a box in a box with a hole in the inner one, behind 24 beyond the hull",
        held: &[(b"t.poly", &[BOX_IN_BOX, BEYOND_24, b"25 1.4 1.5 1.6\n"])],
        words: &[b"-p", b"t"],
        end: Told(b"points 16 added 0 tetrahedra 36 faces 84 edges 62\n"),
        files: &[],
    },
    Run {
        name: "a box in a box with a hole point on a facet",
        held: &[(b"t.poly", &[BOX_IN_BOX, b"1\n1 2 1.5 1.5\n"])],
        words: &[b"-p", b"t"],
        end: Told(b"points 16 added 0 tetrahedra 42 faces 90 edges 63\n"),
        files: &[],
    },
];

#[test]
fn holes_are_carved(rt: HostRuntime) -> Result<(), Fail> {
    assert_eq!(rt; other_run(rt.alloc(), Tetgen, &CARVED)?, None);
    Ok(())
}

static REFUSED_COMPLEXES: [Run<'static>; 5] = [
    Run {
        name: "not flat",
        held: &[(b"bar.poly", BENT)],
        words: &[b"-p", b"bar"],
        end: Refused(6, b"tetgen: facet 1 is not flat: points 1 2 3 4\n"),
        files: &[(b"bar.1.node", None)],
    },
    Run {
        name: "segments cross",
        held: &[(
            b"t.poly",
            &[b"5 3 0 0\n0 0 0 0\n1 2 2 0\n2 2 0 0\n3 0 2 0\n4 1 1 2\n2\n1\n2 0 1\n1\n2 2 3\n"],
        )],
        words: &[b"-p", b"t"],
        end: Refused(6, b"tetgen: segments 0 1 and 2 3 cross\n"),
        files: &[],
    },
    Run {
        name: "a segment through a facet",
        held: &[(
            b"t.poly",
            &[b"5 3 0 0\n0 0 0 0\n1 4 0 0\n2 0 4 0\n3 1 1 -2\n4 1 1 2\n2\n1\n3 0 1 2\n1\n2 3 4\n"],
        )],
        words: &[b"-p", b"t"],
        end: Refused(
            6,
            b"tetgen: crossing: facet 1 triangle 0 1 2 and segment 3 4\n",
        ),
        files: &[],
    },
    Run {
        name: "a finer grid",
        held: &[(b"t.poly", &[SPLIT])],
        words: &[b"-pc", b"--halvings=1", b"t"],
        end: Refused(7, b"tetgen: segment 0 8 needs a finer grid\n"),
        files: &[],
    },
    Run {
        name: "two splits",
        held: &[(b"t.poly", &[SPLIT])],
        words: &[b"-pcS2", b"t"],
        end: Refused(8, b"tetgen: 2 splits used, segment 1 8 is missing\n"),
        files: &[],
    },
];

#[test]
fn complexes_are_refused(rt: HostRuntime) -> Result<(), Fail> {
    assert_eq!(rt; other_run(rt.alloc(), Tetgen, &REFUSED_COMPLEXES)?, None);
    Ok(())
}

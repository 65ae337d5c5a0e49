//! Runs over points with weights.

use crate::tests::harness::End::{Refused, Told};
use crate::tests::harness::Program::Tetgen;
use crate::tests::harness::{Run, other_run};
use std::test::Fail;

/// A corner of a cube and a point within, which is hidden.
const HIDDEN: &[u8] = b"5 3 1\n0 0 0 0 0\n1 4 0 0 0\n2 0 4 0 0\n3 0 0 4 0\n4 1 1 1 -10\n";

/// The points of HIDDEN with a weight that makes a tie.
const TIED: &[u8] = b"5 3 1\n0 0 0 0 0\n1 4 0 0 0\n2 0 4 0 0\n3 0 0 4 0\n4 1 1 1 -9\n";

/// The points of HIDDEN without weights.
const BARE: &[u8] = b"5\n0 0 0 0\n1 4 0 0\n2 0 4 0\n3 0 0 4\n4 1 1 1\n";

const WORD: &[u8] = b"4 3 1\n1 0 0 0 0\n2 4 0 0 0\n3 0 4 0 2x\n4 0 0 4 9e30\n";

const HEAVY: &[u8] = b"4 3 1\n1 0 0 0 0\n2 4 0 0 0\n3 0 4 0 9e30\n4 0 0 4 x\n";

const FLAT: &[u8] = b"4 3 1\n1 0 0 0 0\n2 4 0 0 1\n3 0 4 0 2\n4 4 4 0 3\n";

const TIED_ELE: &[u8] = b"4 4 0\n0 0 1 2 4\n1 0 1 4 3\n2 0 2 3 4\n3 1 2 4 3\n";

static WEIGHTED: [Run<'static>; 6] = [
    Run {
        name: "hidden",
        held: &[(b"t.node", &[HIDDEN])],
        words: &[b"-wn", b"t"],
        end: Told(b"points 5 added 0 tetrahedra 1 faces 4 edges 6 hidden 1\n"),
        files: &[
            (b"t.1.ele", Some(b"1 4 0\n0 0 1 2 3\n")),
            (
                b"t.1.node",
                Some(b"5 3 1 0\n0 0 0 0 0\n1 4 0 0 0\n2 0 4 0 0\n3 0 0 4 0\n4 1 1 1 -10\n"),
            ),
            (b"t.1.neigh", Some(b"1 4\n0 -1 -1 -1 -1\n")),
        ],
    },
    Run {
        name: "tied",
        held: &[(b"t.node", &[TIED])],
        words: &[b"-w", b"t.node"],
        end: Told(b"points 5 added 0 tetrahedra 4 faces 10 edges 10 hidden 0\n"),
        files: &[(b"t.1.ele", Some(TIED_ELE))],
    },
    Run {
        name: "without weights",
        held: &[(b"t.node", &[BARE])],
        words: &[b"-wQ", b"t"],
        end: Told(b""),
        files: &[(b"t.1.ele", Some(TIED_ELE))],
    },
    Run {
        name: "a word",
        held: &[(b"t.node", &[WORD])],
        words: &[b"-w", b"t"],
        end: Refused(4, b"tetgen: t.node: line 4: not a number\n"),
        files: &[(b"t.1.ele", None)],
    },
    Run {
        name: "heavy",
        held: &[(b"t.node", &[HEAVY])],
        words: &[b"-w", b"t"],
        end: Refused(5, b"tetgen: line 4: weight off the grid\n"),
        files: &[(b"t.1.ele", None)],
    },
    Run {
        name: "flat",
        held: &[(b"t.node", &[FLAT])],
        words: &[b"-w", b"t"],
        end: Refused(6, b"tetgen: all points lie in one plane\n"),
        files: &[(b"t.1.ele", None)],
    },
];

#[test]
fn weighted_points_are_meshed(rt: HostRuntime) -> Result<(), Fail> {
    assert_eq!(rt; other_run(rt.alloc(), Tetgen, &WEIGHTED)?, None);
    Ok(())
}

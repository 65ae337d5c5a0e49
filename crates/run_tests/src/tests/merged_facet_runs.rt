//! Runs over facets of one plane that share sides, which are merged.

use crate::tests::harness::End::{Done, Told};
use crate::tests::harness::Program::Tetgen;
use crate::tests::harness::{Run, other_run};
use crate::tests::test_inputs::BAR_LEFT;
use std::test::Fail;

/// A bar whose bottom is cut into two triangles, along the diagonal that is in no Delaunay row.
const CUT_BAR: &[u8] =
    b"8 3 0 0\n1 0 0 0\n2 2 0 0\n3 2 2 0\n4 0 2 0\n5 0 0 12\n6 2 0 12\n7 2 2 12\n8 0 2 12\n\
      7 1\n1 0 -1\n3 1 2 3\n1 0 -1\n3 1 3 4\n1 0 -2\n4 5 6 7 8\n1 0 0\n4 1 5 6 2\n1 0 0\n\
      4 2 6 7 3\n1 0 0\n4 3 7 8 4\n1 0 0\n4 4 8 5 1\n0\n";

/// The points of the bar with the midpoint of that diagonal.
const SPLIT_NODE: &[u8] =
    b"9 3 0 0\n1 0 0 0\n2 2 0 0\n3 2 2 0\n4 0 2 0\n5 0 0 12\n6 2 0 12\n7 2 2 12\n8 0 2 12\n\
      9 1 1 0\n";

static MERGED: [Run<'static>; 7] = [
    Run {
        name: "the files of the bar with a bottom of four corners",
        held: &[(b"bar.poly", &[CUT_BAR])],
        words: &[b"-p", b"bar"],
        end: Done,
        files: &BAR_LEFT,
    },
    Run {
        name: "facets kept apart: the diagonal is a segment",
        held: &[(b"bar.poly", &[CUT_BAR])],
        words: &[b"-pM", b"bar"],
        end: Done,
        files: &[(b"bar.1.node", Some(SPLIT_NODE))],
    },
    Run {
        name: "other markers: the triangles are not merged",
        held: &[(
            b"t.poly",
            &[
                b"8\n1 0 0 0\n2 2 0 0\n3 2 2 0\n4 0 2 0\n5 0 0 12\n6 2 0 12\n7 2 2 12\n8 0 2 12\n\
                  2 1\n1 0 -1\n3 1 2 3\n1 0 -2\n3 1 3 4\n0\n",
            ],
        )],
        words: &[b"-p", b"t"],
        end: Done,
        files: &[(b"t.1.node", Some(SPLIT_NODE))],
    },
    Run {
        name: "the diagonal is a segment by itself, within the merged facet",
        held: &[(
            b"t.poly",
            &[
                b"8\n1 0 0 0\n2 2 0 0\n3 2 2 0\n4 0 2 0\n5 0 0 12\n6 2 0 12\n7 2 2 12\n8 0 2 12\n\
                  3\n1\n3 1 2 3\n1\n3 1 3 4\n1\n2 1 3\n0\n",
            ],
        )],
        words: &[b"-p", b"t"],
        end: Done,
        files: &[(b"t.1.node", Some(SPLIT_NODE))],
    },
    Run {
        name: "a cube, each side cut along the diagonal that is in no Delaunay row",
        held: &[(
            b"t.off",
            &[
                b"OFF\n8 12 18\n0 0 0\n1 0 0\n1 1 0\n0 1 0\n0 0 1\n1 0 1\n1 1 1\n0 1 1\n3 0 1 2\n\
                  3 0 2 3\n3 4 5 6\n3 4 6 7\n3 0 1 5\n3 0 5 4\n3 1 2 6\n3 1 6 5\n3 2 3 7\n\
                  3 2 7 6\n3 0 3 7\n3 0 7 4\n",
            ],
        )],
        words: &[b"t.off"],
        end: Told(b"points 8 added 0 tetrahedra 6 faces 18 edges 19\n"),
        files: &[],
    },
    Run {
        name: "a prism whose bottom is cut otherwise than its top",
        held: &[(
            b"t.off",
            &[
                b"OFF\n12 14 0\n0 0 0\n2 0 0\n2 1 0\n1 1 0\n1 2 0\n0 2 0\n\
                  0 0 1\n2 0 1\n2 1 1\n1 1 1\n1 2 1\n0 2 1\n\
                  3 0 1 2\n3 0 2 3\n3 0 3 4\n3 0 4 5\n3 9 10 11\n3 9 11 6\n3 9 6 7\n3 9 7 8\n\
                  4 0 1 7 6\n4 1 2 8 7\n4 2 3 9 8\n4 3 4 10 9\n4 4 5 11 10\n4 5 0 6 11\n",
            ],
        )],
        words: &[b"t.off"],
        end: Told(b"points 12 added 0 tetrahedra 12 faces 34 edges 33\n"),
        files: &[],
    },
    Run {
        name: "a flat ring of eight triangles, through which tetrahedra pass",
        held: &[(
            b"t.poly",
            &[
                b"14 3 0 0\n0 -6 -6 0\n1 6 -6 0\n2 6 6 0\n3 -6 6 0\n4 -2 -2 0\n5 2 -2 0\n6 2 2 0\n\
                  7 -2 2 0\n8 0 0 3\n9 0 0 -3\n10 4 1 2\n11 4 1 -2\n12 -4 1 2\n13 -4 1 -2\n8\n1\n\
                  3 0 1 4\n1\n3 1 5 4\n1\n3 1 2 5\n1\n3 2 6 5\n1\n3 2 3 6\n1\n3 3 7 6\n1\n\
                  3 3 0 7\n1\n3 0 4 7\n0\n",
            ],
        )],
        words: &[b"-pc", b"t"],
        end: Told(b"points 14 added 0 tetrahedra 32 faces 72 edges 53\n"),
        files: &[],
    },
];

#[test]
fn coplanar_facets_are_merged(rt: HostRuntime) -> Result<(), Fail> {
    assert_eq!(rt; other_run(rt.alloc(), Tetgen, &MERGED)?, None);
    Ok(())
}

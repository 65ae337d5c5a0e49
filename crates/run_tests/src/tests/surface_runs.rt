//! Runs on surfaces in `.off` and ASCII `.stl` files, over a folder and streams in memory.

use crate::tests::harness::End::{Done, Refused};
use crate::tests::harness::Program::Tetgen;
use crate::tests::harness::{Run, other_run};
use std::test::Fail;

const TETRAHEDRON: &[u8] =
    b"OFF\n4 4 6\n0 0 0\n1 0 0\n0 1 0\n0 0 1\n3 0 2 1\n3 0 1 3\n3 0 3 2\n3 1 2 3\n";

const TRIANGLES: &[u8] =
    b"solid t\nfacet normal 0 0 -1\nouter loop\nvertex 0 0 0\nvertex 1 0 0\nvertex 0 1 0\nendloop\n\
      endfacet\nfacet normal 0 -1 0\nouter loop\nvertex 0 0 0\nvertex 1 0 0\nvertex 0 0 1\n\
      endloop\nendfacet\nfacet normal -1 0 0\nouter loop\nvertex 0 0 0\nvertex 0 0 1.0\n\
      vertex 0 10e-1 -0\nendloop\nendfacet\nfacet normal 1 1 1\nouter loop\nvertex 1 0 0\n\
      vertex 0 1 0\nvertex 0 0 1\nendloop\nendfacet\nendsolid t\n";

const CUT: &[u8] = b"solid t\nfacet normal 0 0 -1\nouter loop\nvertex 0 0 0\nvertex 1 0 0\n";

const ELE: &[u8] = b"1 4 0\n0 0 1 2 3\n";

const FACE: &[u8] = b"4 1\n0 0 1 2 1\n1 0 1 3 1\n2 0 2 3 1\n3 1 2 3 1\n";

static SURFACES: [Run<'static>; 5] = [
    Run {
        name: "polygons",
        held: &[(b"t.off", &[TETRAHEDRON])],
        words: &[b"t.off"],
        end: Done,
        files: &[(b"t.1.ele", Some(ELE)), (b"t.1.face", Some(FACE))],
    },
    Run {
        name: "triangles",
        held: &[(b"t.stl", &[TRIANGLES])],
        words: &[b"t.stl"],
        end: Done,
        files: &[(b"t.1.ele", Some(ELE)), (b"t.1.face", Some(FACE))],
    },
    Run {
        name: "triangles that are cut off",
        held: &[(b"t.stl", &[CUT])],
        words: &[b"t.stl"],
        end: Refused(4, b"tetgen: t.stl: line 6: too few\n"),
        files: &[(b"t.1.ele", None)],
    },
    Run {
        name: "a bare base is no surface",
        held: &[(b"t.off", &[TETRAHEDRON])],
        words: &[b"-p", b"t"],
        end: Refused(2, b"tetgen: t.smesh: not found\n"),
        files: &[(b"t.1.ele", None)],
    },
    Run {
        name: "no point, and no other file is asked for",
        held: &[
            (b"t.off", &[b"OFF 0 0 0\n"]),
            (b"t.node", &[b"1 3\n0 0 0 0\n"]),
        ],
        words: &[b"t.off"],
        end: Refused(6, b"tetgen: all points lie in one plane\n"),
        files: &[(b"t.1.ele", None)],
    },
];

#[test]
fn surfaces_are_meshed(rt: HostRuntime) -> Result<(), Fail> {
    assert_eq!(rt; other_run(rt.alloc(), Tetgen, &SURFACES)?, None);
    Ok(())
}

//! Runs on surfaces as other programs write them, over a folder and streams in memory.

use crate::tests::harness::End::{Refused, Told};
use crate::tests::harness::Program::Tetfit;
use crate::tests::harness::{Run, other_run};
use std::test::Fail;

const COLORED: &[u8] =
    b"Coff\n4 4 6\n0 0 0 255 0 0\n1 0 0 0 255 0\n# between\n0 1 0 0 0 255\n0 0 1\n3 0 2 1 0.5\n\
      3 0 1 3\n3 0 3 2\n3 1 2 3\n";

/// Two sides of a tetrahedron.
const SIDES: &[u8] = b"SOLID sides\nFACET NORMAL 0 0 -1\nOUTER LOOP\nVERTEX 0 0 0\nVERTEX 1 0 0\n\
      VERTEX 0 1 0\nENDLOOP\nENDFACET\nFACET NORMAL 0 -1 0\nOUTER LOOP\nVERTEX 0 0 0\n\
      VERTEX 1 0 0\nVERTEX 0 0 1\nENDLOOP\nENDFACET\nENDSOLID sides\n";

/// The other two.
const OTHERS: &[u8] = b"solid others\nfacet normal -1 0 0\nouter loop\nvertex 0 0 0\n\
      vertex 0 0 1\nvertex 0 1 0\nendloop\nendfacet\nfacet normal 1 1 1\nouter loop\n\
      vertex 1 0 0\nvertex 0 1 0\nvertex 0 0 1\nendloop\nendfacet\nendsolid others\n";

const ELE: &[u8] = b"1 4 0\n0 0 1 2 3\n";

const TETRAHEDRON: &[u8] = b"points 4 added 0 tetrahedra 1 faces 4 edges 6 decimals 0\n";

const NONE: &[u8] = b"\
tetfit: nothing to mesh: the file has no points and no facets\n\
tetfit: four points that are not in one plane are wanted\n";

const MISSING: &[u8] = b"\
tetfit: part.Off: not found\n\
tetfit: the file of a model is .node, .poly, .smesh, .off or .stl: give its name whole\n";

/// The head of a file whose points have four coordinates.
const FOUR: &[u8] = b"# a cube in four dimensions\n4OFF\n16 24 32\n";

const UNREAD: &[u8] = b"\
tetfit: part.off: line 2: bad count\n\
tetfit: part.off: line 2: 4OFF is not read: \
OFF, COFF, NOFF, CNOFF, STOFF, STCOFF, STNOFF and STCNOFF are\n";

static SURFACES: [Run<'static>; 6] = [
    Run {
        name: "points with colors",
        held: &[(b"t.off", &[COLORED])],
        words: &[b"t.off"],
        end: Told(TETRAHEDRON),
        files: &[
            (b"t.1.ele", Some(ELE)),
            (
                b"t.1.face",
                Some(b"4 1\n0 0 1 2 1\n1 0 1 3 1\n2 0 2 3 1\n3 1 2 3 1\n"),
            ),
        ],
    },
    Run {
        name: "two solids",
        held: &[(b"part.stl", &[SIDES, OTHERS])],
        words: &[b"part.stl"],
        end: Told(TETRAHEDRON),
        files: &[
            (b"part.1.ele", Some(ELE)),
            (
                b"part.1.face",
                Some(b"4 1\n0 0 1 2 1\n1 0 1 3 1\n2 0 2 3 2\n3 1 2 3 2\n"),
            ),
        ],
    },
    Run {
        name: "the extension in capitals, beside a file with small letters",
        held: &[
            (b"part.STL", &[SIDES, OTHERS]),
            (b"part.stl", &[b"solid\nendsolid\n"]),
        ],
        words: &[b"part.STL"],
        end: Told(TETRAHEDRON),
        files: &[(b"part.1.ele", Some(ELE))],
    },
    Run {
        name: "no file with that very extension",
        held: &[(b"part.off", &[COLORED])],
        words: &[b"part.Off"],
        end: Refused(2, MISSING),
        files: &[(b"part.1.ele", None)],
    },
    Run {
        name: "a keyword that is not read",
        held: &[(b"part.off", &[FOUR])],
        words: &[b"part.off"],
        end: Refused(4, UNREAD),
        files: &[(b"part.1.ele", None)],
    },
    Run {
        name: "no facet",
        held: &[(b"part.stl", &[b"solid\nendsolid\n"])],
        words: &[b"part.stl"],
        end: Refused(6, NONE),
        files: &[(b"part.1.ele", None)],
    },
];

#[test]
fn surfaces_are_meshed_as_they_are_found(rt: HostRuntime) -> Result<(), Fail> {
    assert_eq!(rt; other_run(rt.alloc(), Tetfit, &SURFACES)?, None);
    Ok(())
}

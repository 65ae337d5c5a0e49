//! Runs of `tetfit` that write the whole mesh in one file for viewers and solvers.

use crate::tests::harness::End::{Refused, Told};
use crate::tests::harness::Program::{Tetfit, Tetgen};
use crate::tests::harness::{Run, other_run};
use std::test::Fail;

/// The points of a pyramid.
pub(crate) const PYRAMID: &[u8] = b"5 3 0 0\n0 0 0 0\n1 2 0 0\n2 2 2 0\n3 0 2 0\n4 1 1 2\n";

const PYRAMID_VTK: &[u8] = b"\
# vtk DataFile Version 3.0\ntetgen\nASCII\nDATASET UNSTRUCTURED_GRID\nPOINTS 5 double\n\
0 0 0\n2 0 0\n2 2 0\n0 2 0\n1 1 2\nCELLS 8 34\n4 0 1 3 4\n4 1 2 3 4\n3 0 1 3\n3 0 1 4\n\
3 0 3 4\n3 1 2 3\n3 1 2 4\n3 2 3 4\nCELL_TYPES 8\n10\n10\n5\n5\n5\n5\n5\n5\n\
CELL_DATA 8\nSCALARS region double 1\nLOOKUP_TABLE default\n0\n0\n0\n0\n0\n0\n0\n0\n\
SCALARS marker long 1\nLOOKUP_TABLE default\n0\n0\n1\n1\n1\n1\n1\n1\n";

const PYRAMID_MSH: &[u8] = b"\
$MeshFormat\n2.2 0 8\n$EndMeshFormat\n$Nodes\n5\n1 0 0 0\n2 2 0 0\n3 2 2 0\n4 0 2 0\n\
5 1 1 2\n$EndNodes\n$Elements\n8\n1 4 2 1 1 1 2 4 5\n2 4 2 1 1 2 3 4 5\n\
3 2 2 1 1 1 2 4\n4 2 2 1 1 1 2 5\n5 2 2 1 1 1 4 5\n6 2 2 1 1 2 3 4\n7 2 2 1 1 2 3 5\n\
8 2 2 1 1 3 4 5\n$EndElements\n";

/// A box in a box, with a region in each.
pub(crate) const BOXES: &[u8] = b"\
16 3 0 0\n1 0 0 0\n2 3 0 0\n3 3 3 0\n4 0 3 0\n5 0 0 3\n6 3 0 3\n7 3 3 3\n8 0 3 3\n\
9 1 1 1\n10 2 1 1\n11 2 2 1\n12 1 2 1\n13 1 1 2\n14 2 1 2\n15 2 2 2\n16 1 2 2\n12\n1\n\
4 1 2 3 4\n1\n4 5 6 7 8\n1\n4 1 5 6 2\n1\n4 2 6 7 3\n1\n4 3 7 8 4\n1\n4 4 8 5 1\n1\n\
4 9 10 11 12\n1\n4 13 14 15 16\n1\n4 9 13 14 10\n1\n4 10 14 15 11\n1\n4 11 15 16 12\n1\n\
4 12 16 13 9\n0\n2\n1 0.5 1.4 1.6 10\n2 1.4 1.5 1.6 20\n";

const BOXES_VTK: &[u8] = b"\
# vtk DataFile Version 3.0\ntetgen\nASCII\nDATASET UNSTRUCTURED_GRID\nPOINTS 16 double\n\
0 0 0\n3 0 0\n3 3 0\n0 3 0\n0 0 3\n3 0 3\n3 3 3\n0 3 3\n1 1 1\n2 1 1\n2 2 1\n1 2 1\n\
1 1 2\n2 1 2\n2 2 2\n1 2 2\nCELLS 66 306\n4 0 1 3 8\n4 0 1 8 4\n4 0 3 4 8\n4 1 2 3 9\n\
4 1 2 9 5\n4 1 3 8 9\n4 1 4 5 8\n4 1 5 9 8\n4 2 3 9 10\n4 2 3 10 6\n4 2 5 6 9\n\
4 2 6 10 9\n4 3 4 8 7\n4 3 6 7 10\n4 3 7 8 11\n4 3 7 11 10\n4 3 8 9 11\n4 3 9 10 11\n\
4 4 5 8 12\n4 4 5 12 7\n4 4 7 12 8\n4 5 6 9 13\n4 5 6 13 7\n4 5 7 13 12\n4 5 8 12 9\n\
4 5 9 12 13\n4 6 7 10 14\n4 6 7 14 13\n4 6 9 13 10\n4 6 10 13 14\n4 7 8 11 12\n\
4 7 10 14 11\n4 7 11 14 15\n4 7 11 15 12\n4 7 12 15 13\n4 7 13 15 14\n4 8 9 11 12\n\
4 9 10 11 13\n4 9 11 12 13\n4 10 11 13 14\n4 11 12 13 15\n4 11 13 14 15\n3 0 1 3\n\
3 0 1 4\n3 0 3 4\n3 1 2 3\n3 1 2 5\n3 1 4 5\n3 2 3 6\n3 2 5 6\n3 3 4 7\n3 3 6 7\n\
3 4 5 7\n3 5 6 7\n3 8 9 11\n3 8 9 12\n3 8 11 12\n3 9 10 11\n3 9 10 13\n3 9 12 13\n\
3 10 11 14\n3 10 13 14\n3 11 12 15\n3 11 14 15\n3 12 13 15\n3 13 14 15\nCELL_TYPES 66\n\
10\n10\n10\n10\n10\n10\n10\n10\n10\n10\n10\n10\n10\n10\n10\n10\n10\n10\n10\n10\n10\n10\n\
10\n10\n10\n10\n10\n10\n10\n10\n10\n10\n10\n10\n10\n10\n10\n10\n10\n10\n10\n10\n5\n5\n\
5\n5\n5\n5\n5\n5\n5\n5\n5\n5\n5\n5\n5\n5\n5\n5\n5\n5\n5\n5\n5\n5\nCELL_DATA 66\n\
SCALARS region double 1\nLOOKUP_TABLE default\n10\n10\n10\n10\n10\n10\n10\n10\n10\n10\n\
10\n10\n10\n10\n10\n10\n10\n10\n10\n10\n10\n10\n10\n10\n10\n10\n10\n10\n10\n10\n10\n10\n\
10\n10\n10\n10\n20\n20\n20\n20\n20\n20\n0\n0\n0\n0\n0\n0\n0\n0\n0\n0\n0\n0\n0\n0\n0\n0\n\
0\n0\n0\n0\n0\n0\n0\n0\nSCALARS marker long 1\nLOOKUP_TABLE default\n0\n0\n0\n0\n0\n0\n\
0\n0\n0\n0\n0\n0\n0\n0\n0\n0\n0\n0\n0\n0\n0\n0\n0\n0\n0\n0\n0\n0\n0\n0\n0\n0\n0\n0\n0\n\
0\n0\n0\n0\n0\n0\n0\n1\n1\n1\n1\n1\n1\n1\n1\n1\n1\n1\n1\n1\n1\n1\n1\n1\n1\n1\n1\n1\n1\n\
1\n1\n";

const BOXES_MSH: &[u8] = b"\
$MeshFormat\n2.2 0 8\n$EndMeshFormat\n$Nodes\n16\n1 0 0 0\n2 3 0 0\n3 3 3 0\n4 0 3 0\n\
5 0 0 3\n6 3 0 3\n7 3 3 3\n8 0 3 3\n9 1 1 1\n10 2 1 1\n11 2 2 1\n12 1 2 1\n13 1 1 2\n\
14 2 1 2\n15 2 2 2\n16 1 2 2\n$EndNodes\n$Elements\n66\n1 4 2 10 10 1 2 4 9\n\
2 4 2 10 10 1 2 9 5\n3 4 2 10 10 1 4 5 9\n4 4 2 10 10 2 3 4 10\n5 4 2 10 10 2 3 10 6\n\
6 4 2 10 10 2 4 9 10\n7 4 2 10 10 2 5 6 9\n8 4 2 10 10 2 6 10 9\n9 4 2 10 10 3 4 10 11\n\
10 4 2 10 10 3 4 11 7\n11 4 2 10 10 3 6 7 10\n12 4 2 10 10 3 7 11 10\n\
13 4 2 10 10 4 5 9 8\n14 4 2 10 10 4 7 8 11\n15 4 2 10 10 4 8 9 12\n\
16 4 2 10 10 4 8 12 11\n17 4 2 10 10 4 9 10 12\n18 4 2 10 10 4 10 11 12\n\
19 4 2 10 10 5 6 9 13\n20 4 2 10 10 5 6 13 8\n21 4 2 10 10 5 8 13 9\n\
22 4 2 10 10 6 7 10 14\n23 4 2 10 10 6 7 14 8\n24 4 2 10 10 6 8 14 13\n\
25 4 2 10 10 6 9 13 10\n26 4 2 10 10 6 10 13 14\n27 4 2 10 10 7 8 11 15\n\
28 4 2 10 10 7 8 15 14\n29 4 2 10 10 7 10 14 11\n30 4 2 10 10 7 11 14 15\n\
31 4 2 10 10 8 9 12 13\n32 4 2 10 10 8 11 15 12\n33 4 2 10 10 8 12 15 16\n\
34 4 2 10 10 8 12 16 13\n35 4 2 10 10 8 13 16 14\n36 4 2 10 10 8 14 16 15\n\
37 4 2 20 20 9 10 12 13\n38 4 2 20 20 10 11 12 14\n39 4 2 20 20 10 12 13 14\n\
40 4 2 20 20 11 12 14 15\n41 4 2 20 20 12 13 14 16\n42 4 2 20 20 12 14 15 16\n\
43 2 2 1 1 1 2 4\n44 2 2 1 1 1 2 5\n45 2 2 1 1 1 4 5\n46 2 2 1 1 2 3 4\n\
47 2 2 1 1 2 3 6\n48 2 2 1 1 2 5 6\n49 2 2 1 1 3 4 7\n50 2 2 1 1 3 6 7\n\
51 2 2 1 1 4 5 8\n52 2 2 1 1 4 7 8\n53 2 2 1 1 5 6 8\n54 2 2 1 1 6 7 8\n\
55 2 2 1 1 9 10 12\n56 2 2 1 1 9 10 13\n57 2 2 1 1 9 12 13\n58 2 2 1 1 10 11 12\n\
59 2 2 1 1 10 11 14\n60 2 2 1 1 10 13 14\n61 2 2 1 1 11 12 15\n62 2 2 1 1 11 14 15\n\
63 2 2 1 1 12 13 16\n64 2 2 1 1 12 15 16\n65 2 2 1 1 13 14 16\n66 2 2 1 1 14 15 16\n\
$EndElements\n";

static WHOLE: [Run<'static>; 3] = [
    Run {
        name: "a pyramid, with no other file",
        held: &[(b"t.node", &[PYRAMID])],
        words: &[b"-k", b"-NEF", b"--msh", b"t.node"],
        end: Told(b"points 5 added 0 tetrahedra 2 faces 7 edges 9 decimals 0\n"),
        files: &[
            (b"t.1.vtk", Some(PYRAMID_VTK)),
            (b"t.1.msh", Some(PYRAMID_MSH)),
            (b"t.1.node", None),
        ],
    },
    Run {
        name: "a box in a box, with regions",
        held: &[(b"b.poly", &[BOXES])],
        words: &[b"-A", b"--msh", b"-k", b"b.poly"],
        end: Told(b"points 16 added 0 tetrahedra 42 faces 90 edges 63 decimals 0\n"),
        files: &[(b"b.1.vtk", Some(BOXES_VTK)), (b"b.1.msh", Some(BOXES_MSH))],
    },
    Run {
        name: "the letter k among others",
        held: &[],
        words: &[b"-pk", b"b"],
        end: Refused(
            1,
            b"tetfit: -pk: k: this letter is a word of its own, with its hyphen\n",
        ),
        files: &[],
    },
];

/// The program for exact texts knows neither word.
static ELSEWHERE: [Run<'static>; 2] = [
    Run {
        name: "-k",
        held: &[(b"t.node", &[PYRAMID])],
        words: &[b"-k", b"t.node"],
        end: Refused(1, b"tetgen: word 1, place 2: not understood\n"),
        files: &[(b"t.1.vtk", None)],
    },
    Run {
        name: "--msh",
        held: &[(b"t.node", &[PYRAMID])],
        words: &[b"--msh", b"t.node"],
        end: Refused(1, b"tetgen: word 1, place 3: not understood\n"),
        files: &[(b"t.1.msh", None)],
    },
];

#[test]
fn whole_mesh_is_written(rt: HostRuntime) -> Result<(), Fail> {
    assert_eq!(rt; other_run(rt.alloc(), Tetfit, &WHOLE)?, None);
    Ok(())
}

#[test]
fn exact_program_writes_no_whole_mesh(rt: HostRuntime) -> Result<(), Fail> {
    assert_eq!(rt; other_run(rt.alloc(), Tetgen, &ELSEWHERE)?, None);
    Ok(())
}

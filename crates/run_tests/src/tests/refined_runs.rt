//! Runs that bound the volume and the shape of tetrahedra, over a folder and streams in memory.

use crate::tests::harness::End::{Refused, Staged, Told};
use crate::tests::harness::Program::Tetfit;
use crate::tests::harness::{Run, other_run};
use std::test::Fail;

/// A cube with sides of 8, which six tetrahedra fill, each of 256/3.
const CUBE: &[u8] = b"\
8 3 0 0\n1 0 0 0\n2 8 0 0\n3 8 8 0\n4 0 8 0\n5 0 0 8\n6 8 0 8\n7 8 8 8\n8 0 8 8\n\
6 0\n4 1 2 3 4\n4 5 6 7 8\n4 1 2 6 5\n4 2 3 7 6\n4 3 4 8 7\n4 4 1 5 8\n0\n0\n";

/// A box with sides of 8, 8 and 1. The sphere through its corners has the square of its radius at
/// 129/4, and six tetrahedra with an edge of 1 fill it, each of 32/3, with least dihedral angles of
/// 7.07 to 10.06 degrees.
const FLAT_BOX: &[u8] = b"\
8 3 0 0\n1 0 0 0\n2 8 0 0\n3 8 8 0\n4 0 8 0\n5 0 0 1\n6 8 0 1\n7 8 8 1\n8 0 8 1\n\
6 0\n4 1 2 3 4\n4 5 6 7 8\n4 1 2 6 5\n4 2 3 7 6\n4 3 4 8 7\n4 4 1 5 8\n0\n0\n";

/// The cube, and on it a box with sides of 8, 8 and 4, which six tetrahedra of 128/3 fill; the cube
/// is a region with the volume limit 1000, and the box one with 42.
const TWO_BOXES: &[u8] = b"\
12 3 0 0\n1 0 0 0\n2 8 0 0\n3 8 8 0\n4 0 8 0\n5 0 0 8\n6 8 0 8\n7 8 8 8\n8 0 8 8\n\
9 0 0 12\n10 8 0 12\n11 8 8 12\n12 0 8 12\n\
11 0\n4 1 2 3 4\n4 5 6 7 8\n4 9 10 11 12\n4 1 2 6 5\n4 2 3 7 6\n4 3 4 8 7\n4 4 1 5 8\n\
4 5 6 10 9\n4 6 7 11 10\n4 7 8 12 11\n4 8 5 9 12\n\
0\n2\n1 4 4 4 1 1000\n2 4 4 10 2 42\n";

/// A triangle with a side of 10^9, which is not Delaunay for a point near its middle, and which no
/// halving of the grid is left to.
const LONG_SIDE: &[u8] = b"\
6 3 0 0\n1 0 0 0\n2 1000000000 0 0\n3 500000000 200000000 0\n4 500000000 -1000 0\n\
5 500000000 0 200000000\n6 500000000 0 -200000000\n1 0\n1 0\n3 1 2 3\n0\n0\n";

const POINTS: &[u8] = b"4 3 0 0\n1 0 0 0\n2 8 0 0\n3 8 8 0\n4 0 8 8\n";

const NO_VOLUME: &[u8] = b"tetfit: -a0: 0: a volume above 0 is wanted, and a model with facets\n";

const NO_FACETS: &[u8] = b"tetfit: -a1: 1: a volume above 0 is wanted, and a model with facets\n";

const LIMITS_OF_POINTS: &[u8] = b"\
tetfit: -a: a volume above 0 is wanted, and a model with facets\n";

const IN_CLUSTER: &[u8] = b"tetfit: -pa1: a: a volume is a word of its own, as -a0.5\n";

const RATIO_BELOW_ONE: &[u8] = b"\
tetfit: -q0.5: 0: a ratio from 1 to 100 with at most 4 decimals is wanted, \
or with /n behind it, n degrees from 0 to 30, and a model with facets\n";

const RATIO_OVER_HUNDRED: &[u8] = b"\
tetfit: -q101: 1: a ratio from 1 to 100 with at most 4 decimals is wanted, \
or with /n behind it, n degrees from 0 to 30, and a model with facets\n";

const NO_RATIO: &[u8] = b"\
tetfit: -qx: x: a ratio from 1 to 100 with at most 4 decimals is wanted, \
or with /n behind it, n degrees from 0 to 30, and a model with facets\n";

const FIVE_DECIMALS: &[u8] = b"\
tetfit: -q1.41421: 1: a ratio from 1 to 100 with at most 4 decimals is wanted, \
or with /n behind it, n degrees from 0 to 30, and a model with facets\n";

const RATIO_OF_POINTS: &[u8] = b"\
tetfit: -q: a ratio from 1 to 100 with at most 4 decimals is wanted, \
or with /n behind it, n degrees from 0 to 30, and a model with facets\n";

const ANGLE_OVER_THIRTY: &[u8] = b"\
tetfit: -q2/31: 2: a ratio from 1 to 100 with at most 4 decimals is wanted, \
or with /n behind it, n degrees from 0 to 30, and a model with facets\n";

const BOUNDARY_IN_CLUSTER: &[u8] = b"\
tetfit: -pY: Y: this letter is a word of its own, with its hyphen\n";

const BOUNDARY_ALONE: &[u8] = b"tetfit: -Y: Y: it goes with -a or -q\n";

static BOUNDED: [Run<'static>; 6] = [
    Run {
        name: "a volume that no tetrahedron is over",
        held: &[(b"c.smesh", &[CUBE])],
        words: &[b"-NEF", b"-a85.34", b"c.smesh"],
        end: Told(b"points 8 added 0 tetrahedra 6 faces 18 edges 19 decimals 0 over 0\n"),
        files: &[],
    },
    Run {
        name: "a volume that all are over, and no point may be added",
        held: &[(b"c.smesh", &[CUBE])],
        words: &[b"-NEFS0", b"-a85.33", b"c.smesh"],
        end: Told(b"points 8 added 0 tetrahedra 6 faces 18 edges 19 decimals 0 over 6\n"),
        files: &[],
    },
    Run {
        name: "the last of two volumes, written with an exponent",
        held: &[(b"c.smesh", &[CUBE])],
        words: &[b"-a1", b"c.smesh", b"-NEF", b"-a8.534e1"],
        end: Told(b"points 8 added 0 tetrahedra 6 faces 18 edges 19 decimals 0 over 0\n"),
        files: &[],
    },
    Run {
        name: "no volume",
        held: &[(b"c.smesh", &[CUBE])],
        words: &[b"-a0", b"c.smesh"],
        end: Refused(1, NO_VOLUME),
        files: &[],
    },
    Run {
        name: "a volume among other letters",
        held: &[(b"c.smesh", &[CUBE])],
        words: &[b"-pa1", b"c.smesh"],
        end: Refused(1, IN_CLUSTER),
        files: &[],
    },
    Run {
        name: "a volume for points alone",
        held: &[(b"p.node", &[POINTS])],
        words: &[b"-a1", b"p.node"],
        end: Refused(1, NO_FACETS),
        files: &[],
    },
];

static LIMITED: [Run<'static>; 5] = [
    Run {
        name: "limits of regions, and no point may be added",
        held: &[(b"b.smesh", &[TWO_BOXES])],
        words: &[b"-NEFS0", b"-a", b"b.smesh"],
        end: Told(b"points 12 added 0 tetrahedra 12 faces 34 edges 33 decimals 0 over 6\n"),
        files: &[],
    },
    Run {
        name: "the lesser of a volume and the limit of a region",
        held: &[(b"b.smesh", &[TWO_BOXES])],
        words: &[b"-NEFS0", b"-a85", b"b.smesh", b"-a"],
        end: Told(b"points 12 added 0 tetrahedra 12 faces 34 edges 33 decimals 0 over 12\n"),
        files: &[],
    },
    Run {
        name: "a volume alone, where regions are not marked",
        held: &[(b"b.smesh", &[TWO_BOXES])],
        words: &[b"-NEFS0", b"-a86", b"b.smesh"],
        end: Told(b"points 12 added 0 tetrahedra 12 faces 34 edges 33 decimals 0 over 0\n"),
        files: &[],
    },
    Run {
        name: "limits where no region has one",
        held: &[(b"c.smesh", &[CUBE])],
        words: &[b"-NEF", b"-a", b"c.smesh"],
        end: Told(b"points 8 added 0 tetrahedra 6 faces 18 edges 19 decimals 0 over 0\n"),
        files: &[],
    },
    Run {
        name: "limits for points alone",
        held: &[(b"p.node", &[POINTS])],
        words: &[b"-a", b"p.node"],
        end: Refused(1, LIMITS_OF_POINTS),
        files: &[],
    },
];

static SHAPED: [Run<'static>; 12] = [
    Run {
        name: "a ratio that no tetrahedron is over",
        held: &[(b"c.smesh", &[CUBE])],
        words: &[b"-NEF", b"-q", b"c.smesh"],
        end: Told(b"points 8 added 0 tetrahedra 6 faces 18 edges 19 decimals 0 slim 0 flat 0\n"),
        files: &[],
    },
    Run {
        name: "a ratio that all are just over, and no point may be added",
        held: &[(b"c.smesh", &[FLAT_BOX])],
        words: &[b"-NEFS0", b"-q5.6789", b"c.smesh"],
        end: Told(b"points 8 added 0 tetrahedra 6 faces 18 edges 19 decimals 0 slim 6 flat 6\n"),
        files: &[],
    },
    Run {
        name: "the last of two shapes: all are just within the ratio, and four below the angle",
        held: &[(b"c.smesh", &[FLAT_BOX])],
        words: &[b"-NEFS0", b"-q2", b"c.smesh", b"-q5.679/8"],
        end: Told(b"points 8 added 0 tetrahedra 6 faces 18 edges 19 decimals 0 slim 0 flat 4\n"),
        files: &[],
    },
    Run {
        name: "a ratio, no angle, and a volume",
        held: &[(b"c.smesh", &[FLAT_BOX])],
        words: &[b"-q100/0", b"-NEFS0", b"-a10.66", b"c.smesh", b"-Y"],
        end: Told(b"points 8 added 0 tetrahedra 6 faces 18 edges 19 decimals 0 over 6 slim 0\n"),
        files: &[],
    },
    Run {
        name: "a ratio below 1",
        held: &[(b"c.smesh", &[CUBE])],
        words: &[b"-q0.5", b"c.smesh", b"-a0"],
        end: Refused(1, RATIO_BELOW_ONE),
        files: &[],
    },
    Run {
        name: "a ratio over 100",
        held: &[(b"c.smesh", &[CUBE])],
        words: &[b"c.smesh", b"-q101"],
        end: Refused(1, RATIO_OVER_HUNDRED),
        files: &[],
    },
    Run {
        name: "a letter in place of a ratio",
        held: &[(b"c.smesh", &[CUBE])],
        words: &[b"-qx", b"c.smesh"],
        end: Refused(1, NO_RATIO),
        files: &[],
    },
    Run {
        name: "a ratio with five decimals",
        held: &[(b"c.smesh", &[CUBE])],
        words: &[b"-q1.41421", b"c.smesh"],
        end: Refused(1, FIVE_DECIMALS),
        files: &[],
    },
    Run {
        name: "an angle over 30 degrees",
        held: &[(b"c.smesh", &[CUBE])],
        words: &[b"-q2/31", b"c.smesh"],
        end: Refused(1, ANGLE_OVER_THIRTY),
        files: &[],
    },
    Run {
        name: "a ratio for points alone",
        held: &[(b"p.node", &[POINTS])],
        words: &[b"-q", b"p.node"],
        end: Refused(1, RATIO_OF_POINTS),
        files: &[],
    },
    Run {
        name: "a boundary that is kept where nothing is bounded",
        held: &[(b"c.smesh", &[CUBE])],
        words: &[b"-Y", b"c.smesh"],
        end: Refused(1, BOUNDARY_ALONE),
        files: &[],
    },
    Run {
        name: "a boundary that is kept, among other letters",
        held: &[(b"c.smesh", &[CUBE])],
        words: &[b"-pY", b"-q", b"c.smesh"],
        end: Refused(1, BOUNDARY_IN_CLUSTER),
        files: &[],
    },
];

/// Of the box, where the ratio is to be 2 and no angle below 8 degrees: the ratio of each
/// tetrahedron is 5.68, and the least angle of the second one is 7.1 degrees.
const STAGES: &[u8] = b"\
tetfit: reads and meshes the model\n\
tetfit: points 8 tetrahedra 6 slim 6 flat 4 least angle 7 at 8 0 0 \
greatest ratio over 2 times the bound at 0 0 0\n\
tetfit: stores the files\n";

/// Where the ratio is to be 5 and no angle below 7 degrees.
const RATIO_STAGES: &[u8] = b"\
tetfit: reads and meshes the model\n\
tetfit: points 8 tetrahedra 6 slim 6 flat 0 greatest ratio over 1 times the bound at 0 0 0\n\
tetfit: stores the files\n";

/// Of the cube, where no tetrahedron is slim or flat.
const GOOD_STAGES: &[u8] = b"\
tetfit: reads and meshes the model\n\
tetfit: points 8 tetrahedra 6 slim 0 flat 0\n\
tetfit: stores the files\n";

static STAGED: [Run<'static>; 3] = [
    Run {
        name: "angles and ratios, and where they are worst",
        held: &[(b"c.smesh", &[FLAT_BOX])],
        words: &[b"-V", b"-NEFS0", b"-q2/8", b"c.smesh"],
        end: Staged(
            b"points 8 added 0 tetrahedra 6 faces 18 edges 19 decimals 0 slim 6 flat 4\n",
            STAGES,
        ),
        files: &[],
    },
    Run {
        name: "ratios alone",
        held: &[(b"c.smesh", &[FLAT_BOX])],
        words: &[b"-V", b"-NEFS0", b"-q5/7", b"c.smesh"],
        end: Staged(
            b"points 8 added 0 tetrahedra 6 faces 18 edges 19 decimals 0 slim 6 flat 0\n",
            RATIO_STAGES,
        ),
        files: &[],
    },
    Run {
        name: "no angle and no ratio",
        held: &[(b"c.smesh", &[CUBE])],
        words: &[b"-V", b"-NEF", b"-q", b"c.smesh"],
        end: Staged(
            b"points 8 added 0 tetrahedra 6 faces 18 edges 19 decimals 0 slim 0 flat 0\n",
            GOOD_STAGES,
        ),
        files: &[],
    },
];

const NEEDS_FINER_GRID: &[u8] = b"\
tetfit: segment 1 2 needs a finer grid\n\
tetfit: it lies on segment 1 2 of facet 1\n\
tetfit: points 1 (0 0 0) 2 (1000000000 0 0)\n\
tetfit: nearest to it is point 4 (500000000 -1000 0), on the grid at most 1000 away\n\
tetfit: in point 2 it meets the segment to point 3 (500000000 200000000 0) \
at less than 22 degrees\n\
tetfit: the grid has 0 decimals and 0 halvings\n\
tetfit: move apart what is near the segment, or turn sharp corners wider\n";

static CONFORMING: [Run<'static>; 3] = [
    Run {
        name: "a missing segment that may not be halved",
        held: &[(b"t.poly", &[LONG_SIDE])],
        words: &[b"-c", b"t.poly"],
        end: Refused(7, NEEDS_FINER_GRID),
        files: &[],
    },
    Run {
        name: "a point on the segment, where tetrahedra are bounded",
        held: &[(b"t.poly", &[LONG_SIDE])],
        words: &[b"-cS1NEF", b"-q", b"t.poly"],
        end: Told(b"points 6 added 1 tetrahedra 8 faces 20 edges 18 decimals 0 slim 4 flat 4\n"),
        files: &[],
    },
    Run {
        name: "no point on it, where none may be added",
        held: &[(b"t.poly", &[LONG_SIDE])],
        words: &[b"-cS0", b"-q", b"t.poly"],
        end: Refused(7, NEEDS_FINER_GRID),
        files: &[],
    },
];

#[test]
fn points_on_segments(rt: HostRuntime) -> Result<(), Fail> {
    assert_eq!(rt; other_run(rt.alloc(), Tetfit, &CONFORMING)?, None);
    Ok(())
}

#[test]
fn rounds_that_are_said(rt: HostRuntime) -> Result<(), Fail> {
    assert_eq!(rt; other_run(rt.alloc(), Tetfit, &STAGED)?, None);
    Ok(())
}

#[test]
fn volumes_of_tetrahedra(rt: HostRuntime) -> Result<(), Fail> {
    assert_eq!(rt; other_run(rt.alloc(), Tetfit, &BOUNDED)?, None);
    Ok(())
}

#[test]
fn limits_of_regions(rt: HostRuntime) -> Result<(), Fail> {
    assert_eq!(rt; other_run(rt.alloc(), Tetfit, &LIMITED)?, None);
    Ok(())
}

#[test]
fn shapes_of_tetrahedra(rt: HostRuntime) -> Result<(), Fail> {
    assert_eq!(rt; other_run(rt.alloc(), Tetfit, &SHAPED)?, None);
    Ok(())
}

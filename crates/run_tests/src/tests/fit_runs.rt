//! Runs that fit the decimals of a model to its grid, over a folder and streams in memory.

use crate::tests::harness::End::{Refused, Told};
use crate::tests::harness::Program::Tetfit;
use crate::tests::harness::{Place, Run, other_run};
use std::alloc::Global;
use std::test::Fail;
use tet_ports::NoMemory;

/// A tetrahedron one of whose zeros is written with many decimals, as programs for floats do.
const TINY: &[u8] = b"4 3 0 0\n0 0.000000000000000012 0 0\n1 1 0 0\n2 0 1.5 0\n3 0 0 1\n";

/// The points of TINY with that zero written as `1.2e-17`.
const EXPONENT: &[u8] = b"4 3 0 0\n0 1.2e-17 0 0\n1 1 0 0\n2 0 1.5 0\n3 0 0 1\n";

const TINY_TOLD: &[u8] = b"\
points 4 added 0 tetrahedra 1 faces 4 edges 6 decimals 16\n\
tetfit: rounding moved each coordinate by at most 0.00000000000000005\n";

const NODE: &[u8] = b"4 3 0 0\n0 0 0 0\n1 1 0 0\n2 0 1.5 0\n3 0 0 1\n";

/// An L-shaped beam with a cavity of seven decimals, for one of whose sides the grid is too coarse.
const BEAM: &[u8] = b"16 3 0 0\n1 0 0 -14\n2 2 0 -14\n3 2 1 -14\n4 1 1 -14\n5 1 2 -14\n6 0 2 -14\n\
      7 0 0 14\n8 2 0 14\n9 2 1 14\n10 1 1 14\n11 1 2 14\n12 0 2 14\n\
      13 0.9123457 0.5 0\n14 0.5 0.9123457 0\n15 0.6 0.6 0.2\n16 0.6 0.6 -0.2\n12 0\n\
      1\n6 1 2 3 4 5 6\n1\n6 7 8 9 10 11 12\n1\n4 1 2 8 7\n1\n4 2 3 9 8\n1\n4 3 4 10 9\n\
      1\n4 4 5 11 10\n1\n4 5 6 12 11\n1\n4 6 1 7 12\n1\n3 13 14 15\n1\n3 13 14 16\n1\n\
      3 13 15 16\n1\n3 14 15 16\n1\n1 0.65 0.65 0\n0\n";

/// A point off each grid.
const FAR: &[u8] = b"4 3 0 0\n1 0 0 0\n2 1234567890.5 0 0\n3 0 1 0\n4 -1234567890.5 0 1\n";

/// The head of a binary `.stl` file.
const HEAD: &[u8] = &[0; 80];

/// One facet behind the head, with a corner off each grid.
const FAR_FACET: &[u8] = b"\x01\x00\x00\x00\
\x00\x00\x00\x00\x00\x00\x00\x00\x00\x00\x80\x3f\
\x00\x00\x00\x00\x00\x00\x00\x00\x00\x00\x00\x00\
\x28\x6b\xee\x4e\x00\x00\x00\x00\x00\x00\x00\x00\
\x28\x6b\xee\xce\x00\x00\x80\x3f\x00\x00\x00\x00\x00\x00";

/// Two segments that cross.
const CROSSED: &[u8] = b"\
5 3 0 0\n1 0 0 0\n2 2.5 2.5 0\n3 0 2 0\n4 2 0 0\n5 0 0 3\n\
2 0\n1\n2 1 2\n1\n2 3 4\n0\n0\n";

/// A box with no lid.
const OPEN: &[u8] = b"\
8 3 0 0\n1 0 0 0\n2 1 0 0\n3 1 1 0\n4 0 1 0\n5 0 0 1\n6 1 0 1\n7 1 1 1\n8 0 1 1\n\
5 0\n1\n4 1 2 3 4\n1\n4 5 6 7 8\n1\n4 1 2 6 5\n1\n4 2 3 7 6\n1\n4 3 4 8 7\n0\n0\n";

/// A box with no lid, whose wall over the side from 1 to 2 is two facets.
const COVERED: &[u8] = b"\
10 3 0 0\n1 0 0 0\n2 2 0 0\n3 2 1 0\n4 0 1 0\n5 0 0 1\n6 2 0 1\n7 2 1 1\n8 0 1 1\n9 1 0 0\n\
10 1 0 1\n6 0\n1\n4 1 2 3 4\n1\n4 1 9 10 5\n1\n4 9 2 6 10\n1\n4 2 3 7 6\n1\n\
4 3 4 8 7\n1\n4 4 1 5 8\n0\n0\n";

/// A box whose lid is four facets round a hole, each with a side that another one covers in part.
const PINWHEEL: &[u8] = b"\
16 3 0 0\n1 0 0 0\n2 3 0 0\n3 3 3 0\n4 0 3 0\n5 0 0 1\n6 3 0 1\n7 3 3 1\n8 0 3 1\n9 2 0 1\n\
10 2 1 1\n11 0 1 1\n12 3 2 1\n13 2 2 1\n14 1 3 1\n15 1 2 1\n16 1 1 1\n\
9 0\n1\n4 1 2 3 4\n1\n4 1 2 6 5\n1\n4 2 3 7 6\n1\n4 3 4 8 7\n1\n4 4 1 5 8\n\
1\n4 5 9 10 11\n1\n4 9 6 12 13\n1\n4 12 7 14 15\n1\n4 14 8 11 16\n0\n0\n";

/// A box with no lid and with a hole point in it.
const OPEN_HOLE: &[u8] = b"\
8 3 0 0\n1 0 0 0\n2 1 0 0\n3 1 1 0\n4 0 1 0\n5 0 0 1\n6 1 0 1\n7 1 1 1\n8 0 1 1\n\
5 0\n1\n4 1 2 3 4\n1\n4 5 6 7 8\n1\n4 1 2 6 5\n1\n4 2 3 7 6\n1\n4 3 4 8 7\n\
1\n1 0.5 0.5 0.5\n0\n";

/// A flat facet of nine decimals, of which the grid takes eight.
const UNEVEN: &[u8] = b"\
5 3 0 0\n1 0 0 0\n2 4 0 0.000000004\n3 4 4 0.000000008\n4 0 4 0.000000004\n5 0 0 3\n\
1 0\n1\n4 1 2 3 4\n0\n0\n";

/// The segments of CROSSED, with a point of nine decimals.
const CROSSED_FINE: &[u8] = b"\
5 3 0 0\n1 0 0 0\n2 2.5 2.5 0\n3 0 2 0\n4 2 0 0\n5 0 0 3.000000001\n\
2 0\n1\n2 1 2\n1\n2 3 4\n0\n0\n";

/// Two segments that are 4e-9 apart.
const GRAZED: &[u8] = b"\
5 3 0 0\n1 0 0 0\n2 0.25 0.25 0\n3 0 0.2 0.000000004\n4 0.2 0 0.000000004\n\
5 0 0 3.000000001\n2 0\n1\n2 1 2\n1\n2 3 4\n0\n0\n";

/// Four points that lie in one plane once they are rounded to 35 decimals.
const FLATTENED: &[u8] = b"4 3 0 0\n1 0 0 0\n2 1e-30 0 0\n3 0 1e-30 0\n4 0 0 1e-36\n";

const FAR_TOLD: &[u8] = b"\
tetfit: line 3: coordinate off the grid\n\
tetfit: line 3 has (1234567890.5 0 0)\n\
tetfit: no coordinate may be over 536870912 from the middle: scale the model down\n";

const FAR_FACET_TOLD: &[u8] = b"\
tetfit: facet 1: coordinate off the grid\n\
tetfit: facet 1 has (2000000000 0 0)\n\
tetfit: no coordinate may be over 536870912 from the middle: scale the model down\n";

/// Points that are on the grid with five decimals, and off it with six.
const WIDE: &[u8] = b"4 3 0 0\n1 0 0 0\n2 2000.123456 0 0\n3 0 1 0\n4 0 0 1\n";

const WIDE_TOLD: &[u8] = b"\
tetfit: line 2: coordinate off the grid\n\
tetfit: line 2 has (0 0 0)\n\
tetfit: no coordinate may be over 536870912 units of the last decimal from the middle: \
round to fewer decimals\n";

const CROSSED_TOLD: &[u8] = b"\
tetfit: segments 1 2 and 3 4 cross\n\
tetfit: points 1 (0 0 0) 2 (2.5 2.5 0)\n\
tetfit: points 3 (0 2 0) 4 (2 0 0)\n\
tetfit: give both segments the point at which they cross, or where the last digits alone \
make them cross, try coarser coordinates by --unit=U\n";

const BEAM_TOLD: &[u8] = b"\
tetfit: 1 splits used, segment 4 17 is missing\n\
tetfit: it lies on segment 4 10 of facet 5\n\
tetfit: points 4 (1 1 -14) 10 (1 1 14)\n\
tetfit: nearest to it is point 13 (0.9123457 0.5 0), on the grid at most 0.507626 away\n\
tetfit: allow more added points by -S\n";

const OPEN_TOLD: &[u8] = b"\
tetfit: nothing is enclosed\n\
tetfit: the surface is open: only facet 1 has the side 1 4\n";

const CUT_TOLD: &[u8] = b"\
tetftetfit: b.off: not found\n\
tetfit: the file of a model is .node, .poly, .smesh, .off or .stl: give its name whole\n";

/// A tetrahedron that its hole point carves.
const CARVED: &[u8] = b"\
4 3 0 0\n1 0 0 0\n2 4 0 0\n3 0 4 0\n4 0 0 4\n\
4 0\n1\n3 1 2 3\n1\n3 1 2 4\n1\n3 1 3 4\n1\n3 2 3 4\n1\n1 1 1 1\n0\n";

const CARVED_TOLD: &[u8] = b"\
tetfit: nothing is enclosed\n\
tetfit: hole points carve all of it\n";

const COVERED_TOLD: &[u8] = b"\
tetfit: nothing is enclosed\n\
tetfit: the surface is open: only facet 2 has the side 5 10\n";

const PINWHEEL_TOLD: &[u8] = b"\
tetfit: nothing is enclosed\n\
tetfit: each side of a facet is shared, at least in part\n";

const UNEVEN_TOLD: &[u8] = b"\
tetfit: facet 1 is not flat: points 1 2 3 4\n\
tetfit: points 1 (0 0 0) 2 (4 0 0.000000004) 3 (4 4 0.000000008) 4 (0 4 0.000000004)\n\
tetfit: coordinates were rounded to 8 decimals, of 9 that the file has\n\
tetfit: cut the facet in triangles\n";

const CROSSED_FINE_TOLD: &[u8] = b"\
tetfit: segments 1 2 and 3 4 cross\n\
tetfit: points 1 (0 0 0) 2 (2.5 2.5 0)\n\
tetfit: points 3 (0 2 0) 4 (2 0 0)\n\
tetfit: coordinates were rounded to 8 decimals, of 9 that the file has\n\
tetfit: give both segments the point at which they cross, or where the last digits alone \
make them cross, try coarser coordinates by --unit=U\n";

const GRAZED_TOLD: &[u8] = b"\
tetfit: segments 1 2 and 3 4 cross\n\
tetfit: points 1 (0 0 0) 2 (0.25 0.25 0)\n\
tetfit: points 3 (0 0.2 0.000000004) 4 (0.2 0 0.000000004)\n\
tetfit: coordinates were rounded to 8 decimals, of 9 that the file has\n\
tetfit: they do not cross in the file, rounding made them: \
move them apart, or try coarser coordinates by --unit=U\n";

/// A triangle that a corner of another one is below, and above once coordinates are whole.
const PIERCED: &[u8] = b"\
6 3 0 0\n1 0 0 0.4\n2 9 0 0.4\n3 0 9 8.4\n4 1 4 3.9\n5 1 1 -5\n6 3 1 -5\n\
2 0\n1\n3 1 2 3\n1\n3 4 5 6\n0\n";

const PIERCED_TOLD: &[u8] = b"\
tetfit: crossing: facet 1 triangle 1 2 3 and facet 2 triangle 4 5 6\n\
tetfit: points 1 (0 0 0.4) 2 (9 0 0.4) 3 (0 9 8.4)\n\
tetfit: points 4 (1 4 3.9) 5 (1 1 -5) 6 (3 1 -5)\n\
tetfit: coordinates were rounded to 0 decimals, of 1 that the file has\n\
tetfit: if they meet in the file, give both the points in which they do, \
or drop one of equal ones\n\
tetfit: if not, rounding made them meet: move them apart, \
or try another rounding by --unit=U\n";

/// Two triangles that cross once points are added on their sides.
const HALVED: &[u8] = b"\
8 3 0 0\n1 7 2 0\n2 1 9 8\n3 6 0 3\n4 9 5 4\n5 7 6 2\n6 0 0 7\n7 5 3 2\n8 9 2 6\n\
2 0\n1\n3 1 2 3\n1\n3 4 5 6\n0\n";

const HALVED_TOLD: &[u8] = b"\
tetfit: crossing: facet 1 triangle 9 10 16 and facet 2 triangle 12 14 15\n\
tetfit: points 9 (4 5.5 4) 10 (5.5 3.75 2) 16 (4.125 3.375 4.875)\n\
tetfit: points 12 (3.5 3 4.5) 14 (5.25 4.5 3.25) 15 (4.5 2.5 5.5)\n\
tetfit: give both parts the points in which they meet, or drop one of equal ones\n";

const FLATTENED_TOLD: &[u8] = b"\
tetfit: all points lie in one plane\n\
tetfit: coordinates were rounded to 35 decimals, of 36 that the file has\n\
tetfit: four points that are not in one plane are wanted\n";

/// The message on a model beside the status.
static TOLD: [Run<'static>; 17] = [
    Run {
        name: "off each grid",
        held: &[(b"t.node", &[FAR])],
        words: &[b"t.node"],
        end: Refused(5, FAR_TOLD),
        files: &[],
    },
    Run {
        name: "off the grid with the decimals of a word",
        held: &[(b"t.node", &[WIDE])],
        words: &[b"--decimals=6", b"t.node"],
        end: Refused(5, WIDE_TOLD),
        files: &[],
    },
    Run {
        name: "points in one plane, as multiples of a unit",
        held: &[(b"r.node", &[ROUGH])],
        words: &[b"--unit=3", b"r.node"],
        end: Refused(
            6,
            b"tetfit: all points lie in one plane\n\
              tetfit: coordinates were rounded to multiples of 3\n\
              tetfit: four points that are not in one plane are wanted\n",
        ),
        files: &[],
    },
    Run {
        name: "a facet of a binary file off each grid",
        held: &[(b"f.stl", &[HEAD, FAR_FACET])],
        words: &[b"f.stl"],
        end: Refused(5, FAR_FACET_TOLD),
        files: &[],
    },
    Run {
        name: "segments that cross",
        held: &[(b"s.poly", &[CROSSED])],
        words: &[b"s.poly"],
        end: Refused(6, CROSSED_TOLD),
        files: &[],
    },
    Run {
        name: "a missing piece that ends in an added point",
        held: &[(b"b.poly", &[BEAM])],
        words: &[b"-S1", b"b.poly"],
        end: Refused(8, BEAM_TOLD),
        files: &[],
    },
    Run {
        name: "a box with no lid",
        held: &[(b"o.poly", &[OPEN])],
        words: &[b"-NEF", b"o.poly"],
        end: Refused(14, OPEN_TOLD),
        files: &[],
    },
    Run {
        name: "a closed tetrahedron with a hole point in it",
        held: &[(b"c.poly", &[CARVED])],
        words: &[b"-NEF", b"c.poly"],
        end: Refused(14, CARVED_TOLD),
        files: &[],
    },
    Run {
        name: "a box with no lid and with a hole point in it",
        held: &[(b"h.poly", &[OPEN_HOLE])],
        words: &[b"-Q", b"h.poly"],
        end: Refused(14, OPEN_TOLD),
        files: &[],
    },
    Run {
        name: "a side that two facets cover in parts",
        held: &[(b"v.poly", &[COVERED])],
        words: &[b"-NEF", b"v.poly"],
        end: Refused(14, COVERED_TOLD),
        files: &[],
    },
    Run {
        name: "an open surface all of whose sides are covered, some in part",
        held: &[(b"w.poly", &[PINWHEEL])],
        words: &[b"-NEF", b"w.poly"],
        end: Refused(14, PINWHEEL_TOLD),
        files: &[],
    },
    Run {
        name: "a facet that is not flat once it is rounded",
        held: &[(b"u.poly", &[UNEVEN])],
        words: &[b"u.poly"],
        end: Refused(6, UNEVEN_TOLD),
        files: &[],
    },
    Run {
        name: "segments that cross where coordinates are rounded",
        held: &[(b"x.poly", &[CROSSED_FINE])],
        words: &[b"x.poly"],
        end: Refused(6, CROSSED_FINE_TOLD),
        files: &[],
    },
    Run {
        name: "segments that cross by rounding alone",
        held: &[(b"g.poly", &[GRAZED])],
        words: &[b"g.poly"],
        end: Refused(6, GRAZED_TOLD),
        files: &[],
    },
    Run {
        name: "facets that cross once coordinates are rounded",
        held: &[(b"w.poly", &[PIERCED])],
        words: &[b"-c", b"--decimals=0", b"w.poly"],
        end: Refused(6, PIERCED_TOLD),
        files: &[],
    },
    Run {
        name: "crossing facets, with added corners",
        held: &[(b"w.poly", &[HALVED])],
        words: &[b"w.poly"],
        end: Refused(6, HALVED_TOLD),
        files: &[],
    },
    Run {
        name: "points that are flat once they are rounded",
        held: &[(b"f.node", &[FLATTENED])],
        words: &[b"f.node"],
        end: Refused(6, FLATTENED_TOLD),
        files: &[],
    },
];

/// Points far from zero, of which no coordinate of two decimals is on a grid that begins at zero.
const AFAR: &[u8] = b"4 3 0 0\n1 432100.25 5412300.75 -0.5\n2 432101.3 5412300.75 -0.5\n\
      3 432100.25 5412301.75 -0.5\n4 432100.25 5412300.75 0.75\n";

/// A tetrahedron of facets far from zero, with a region point in it.
const SOLID_AFAR: &[u8] = b"4 3 0 0\n1 1000000000000 0 0\n2 1000000000004.5 0 0\n\
      3 1000000000000 4 0\n4 1000000000000 0 4\n4 0\n\
      1\n3 1 2 3\n1\n3 1 2 4\n1\n3 1 3 4\n1\n3 2 3 4\n0\n1\n1 1000000000001 1 1 7\n";

const SOLID_AFAR_NODE: &[u8] = b"4 3 0 0\n1 1000000000000 0 0\n2 1000000000004.5 0 0\n\
      3 1000000000000 4 0\n4 1000000000000 0 4\n";

/// A tetrahedron in units of 10^-25, which have more decimals than words may ask for.
const MINUTE: &[u8] = b"4 3 0 0\n1 0 0 0\n2 1.5e-25 0 0\n3 0 1e-25 0\n4 0 0 1e-25\n";

const MINUTE_NODE: &[u8] = b"4 3 0 0\n1 0 0 0\n\
      2 0.00000000000000000000000015 0 0\n\
      3 0 0.0000000000000000000000001 0\n4 0 0 0.0000000000000000000000001\n";

/// A tetrahedron with a coordinate halfway between two multiples of 0.002.
const ROUGH: &[u8] = b"4 3 0 0\n0 -0.003 0 0\n1 1.0049 0 0\n2 0 1.00501 0\n3 0 0 1.0039999\n";

const ROUGH_NODE: &[u8] = b"4 3 0 0\n0 -0.004 0 0\n1 1.004 0 0\n2 0 1.006 0\n3 0 0 1.004\n";

static FITS: [Run<'static>; 11] = [
    Run {
        name: "many decimals",
        held: &[(b"t.node", &[TINY])],
        words: &[b"t.node"],
        end: Told(TINY_TOLD),
        files: &[(b"t.1.node", Some(NODE))],
    },
    Run {
        name: "an exponent",
        held: &[(b"t.node", &[EXPONENT])],
        words: &[b"t.node"],
        end: Told(TINY_TOLD),
        files: &[(b"t.1.node", Some(NODE))],
    },
    Run {
        name: "as it stands",
        held: &[(b"t.node", &[NODE])],
        words: &[b"t"],
        end: Told(b"points 4 added 0 tetrahedra 1 faces 4 edges 6 decimals 1\n"),
        files: &[(b"t.1.node", Some(NODE))],
    },
    Run {
        name: "fewer decimals by a word",
        held: &[(b"t.node", &[TINY])],
        words: &[b"--decimals=0", b"t.node", b"--decimals=3"],
        end: Told(
            b"points 4 added 0 tetrahedra 1 faces 4 edges 6 decimals 3\n\
              tetfit: rounding moved each coordinate by at most 0.0005\n",
        ),
        files: &[(b"t.1.node", Some(NODE))],
    },
    Run {
        name: "more decimals by a word than the file has",
        held: &[(b"t.node", &[NODE])],
        words: &[b"--decimals=3", b"t"],
        end: Told(b"points 4 added 0 tetrahedra 1 faces 4 edges 6 decimals 1\n"),
        files: &[(b"t.1.node", Some(NODE))],
    },
    Run {
        name: "multiples of a unit",
        held: &[(b"r.node", &[ROUGH])],
        words: &[b"--unit=0.002", b"r.node"],
        end: Told(
            b"points 4 added 0 tetrahedra 1 faces 4 edges 6 decimals 3\n\
              tetfit: rounding to multiples of 0.002 moved each coordinate by at most 0.001\n",
        ),
        files: &[(b"r.1.node", Some(ROUGH_NODE))],
    },
    Run {
        name: "a model in units of 10^-25",
        held: &[(b"m.node", &[MINUTE])],
        words: &[b"m.node"],
        end: Told(b"points 4 added 0 tetrahedra 1 faces 4 edges 6 decimals 26\n"),
        files: &[(b"m.1.node", Some(MINUTE_NODE))],
    },
    Run {
        name: "points far from zero",
        held: &[(b"a.node", &[AFAR])],
        words: &[b"a.node"],
        end: Told(b"points 4 added 0 tetrahedra 1 faces 4 edges 6 decimals 2\n"),
        files: &[(b"a.1.node", Some(AFAR))],
    },
    Run {
        name: "a solid and a region far from zero",
        held: &[(b"s.poly", &[SOLID_AFAR])],
        words: &[b"-AF", b"s.poly"],
        end: Told(b"points 4 added 0 tetrahedra 1 faces 4 edges 6 decimals 1\n"),
        files: &[
            (b"s.1.node", Some(SOLID_AFAR_NODE)),
            (b"s.1.ele", Some(b"1 4 1\n1 1 2 3 4 7\n")),
        ],
    },
    Run {
        name: "a segment for which the grid of seven decimals is too coarse",
        held: &[(b"b.poly", &[BEAM])],
        words: &[b"-NEF", b"b.poly"],
        end: Told(
            b"points 16 added 3 tetrahedra 44 faces 103 edges 76 decimals 6\n\
              tetfit: rounding moved each coordinate by at most 0.0000005\n",
        ),
        files: &[(b"b.1.ele", None)],
    },
    Run {
        name: "a word that is not understood",
        held: &[],
        words: &[b"-V", b"-pq1.4", b"b"],
        end: Refused(
            1,
            b"tetfit: reads and meshes the model\n\
              tetfit: -pq1.4: q: a ratio is a word of its own, as -q1.4\n",
        ),
        files: &[],
    },
];

#[test]
fn decimals_are_fitted(rt: HostRuntime) -> Result<(), Fail> {
    assert_eq!(rt; other_run(rt.alloc(), Tetfit, &FITS)?, None);
    Ok(())
}

/// How a run ends whose first stage is cut behind four bytes.
fn cut_stage(alloc: Global) -> Result<Option<String>, NoMemory> {
    let mut place = Place::with_files(alloc, &[])?;
    place.err.fail_put(1, 4);
    place.run(alloc, Tetfit, &[b"-V", b"b.off"])?;
    place.difference(alloc, Refused(2, CUT_TOLD), &[])
}

#[test]
fn message_is_whole_behind_a_cut_stage(rt: HostRuntime) -> Result<(), Fail> {
    assert_eq!(rt; cut_stage(rt.alloc())?, None);
    Ok(())
}

#[test]
fn what_is_known_is_told(rt: HostRuntime) -> Result<(), Fail> {
    assert_eq!(rt; other_run(rt.alloc(), Tetfit, &TOLD)?, None);
    Ok(())
}

//! Texts in both forms: the complexes that they state, and their faults.

ghost use Rattle.std.specs.Prelude.{◌≤◌, length, IfOk};
ghost use Rattle.plc_files.specs.Checks.{HasFewParts};

use geo_laws::{Complex, Facet, RatPoints};
use grid_coords::Grid;
use node_files::{Limits, NodeText};
use plc_files::Form::{Poly, Smesh};
use plc_files::*;
use sign_predicates::RatPoint;
use std::alloc::Global;
use tet_ports::{Bytes, NoMemory};
use tet_text::TextKind::{BadCount, BadIndex, Ended, Extra, NotANumber};
use tet_text::{Decimal, TextFault, TextKind};

const BAR: &[u8] =
    b"# Part 1 - node list\n8 3 0 0\n1 0.0 0.0 0.0\n2 2.0 0.0 0.0\n3 2.0 2.0 0.0\n4 0.0 2.0 0.0\n\
      5 0.0 0.0 12.0\n6 2.0 0.0 12.0\n7 2.0 2.0 12.0\n8 0.0 2.0 12.0\n# Part 2 - facet list\n6 1\n\
      1 0 -1   # one polygon, no hole, marker\n4 1 2 3 4\n1 0 -2\n4 5 6 7 8\n1 0 0\n4 1 5 6 2\n\
      1 0 0\n4 2 6 7 3\n1 0 0\n4 3 7 8 4\n1 0 0\n4 4 8 5 1\n# Part 3 - hole list\n0\n\
      # Part 4 - region list\n0\n";

// The text of BAR, cut off before its third facet.
const CUT: &[u8] =
    b"# Part 1 - node list\n8 3 0 0\n1 0.0 0.0 0.0\n2 2.0 0.0 0.0\n3 2.0 2.0 0.0\n4 0.0 2.0 0.0\n\
      5 0.0 0.0 12.0\n6 2.0 0.0 12.0\n7 2.0 2.0 12.0\n8 0.0 2.0 12.0\n# Part 2 - facet list\n6 1\n\
      1 0 -1   # one polygon, no hole, marker\n4 1 2 3 4\n1 0 -2\n4 5 6 7 8\n";

// The complex of BAR as a `.smesh` text, but for the marker of its fifth facet; no hole list.
const BAR_SMESH: &[u8] =
    b"8\n1 0.0 0.0 0.0\n2 2.0 0.0 0.0\n3 2.0 2.0 0.0\n4 0.0 2.0 0.0\n5 0.0 0.0 12.0\n\
      6 2.0 0.0 12.0\n7 2.0 2.0 12.0\n8 0.0 2.0 12.0\n6 1\n4 1 2 3 4 -1\n4 5 6 7 8 -2\n\
      4 1 5 6 2 0\n4 2 6 7 3 0\n4 3 7\n8 4\n4 4 8 5 1 0\n";

// Two polygons, a facet hole, and corners over three lines; a hole point and two regions.
const PARTS: &[u8] =
    b"4\n0 0 0 0\n1 1 0 0\n2 0 1 0\n3 0 0 1\n2 0\n2 1 7\n3 0\n# between\n1\n2\n2 1 3\n\
      -1 .5 -0.25 0\n1\n1 3\n1\n9 1.4 1.5 1.6\n2\n1 0.5 1.4 1.6 10\n2 1.4 1.5 1.6 a 0.1\n";

// The complex of PARTS with the flag, and with carriage returns, tabs, comments and blank lines in
// every place.
const LOOSE: &[u8] =
    b"\r\n# points\r\n 4\t3 # four\r\n\r\n0 0 0 0\r\n# between\r\n1 1 0 0 # right\r\n\t2 0 1 0\r\n\
      3 0 0 1#\r\n \t\r\n# facets\r\n2 1\r\n\r\n2 1 7# two polygons\r\n#\r\n3\r\n\r\n\
      0 1 # go on\r\n# and on\r\n2\r\n\r\n2 1 # go on\r\n\t 3\r\n# a hole\r\n-1 .5 -0.25 0\r\n\r\n\
      1\r\n#\r\n1 3 # a point\r\n\r\n1 # hole\r\n9 1.4 1.5 1.6\r\n# regions\r\n2\r\n\
      1 0.5 1.4 1.6 10\r\n\r\n2 1.4 1.5 1.6 a 0.1 # limit\r\n\r\n# end";

// A facet over three lines and its marker, comments and blank lines; no region list.
const LOOSE_SMESH: &[u8] =
    b"# points\r\n4\r\n0 0 0 0\r\n1 1 0 0\r\n2 0 1 0\r\n3 0 0 1\r\n\r\n2 1 # flag\r\n\
      3 0 # go on\r\n\r\n1\r\n# and on\r\n2\t-7\r\n1 3\r\n# holes\r\n1\r\n1 1.4 1.5 1.6\r\n";

/// A point by its coordinates over its denominator.
type PointCase = (i64, i64, i64, i64);

/// A facet: its first and past polygon, its hole points, and its marker.
type FacetCase = (u32, u32, &'static [PointCase], Option<i64>);

/// A polygon: its line, and the places of its corners.
type PolygonCase = (usize, &'static [u32]);

/// A text whose points are numbered from `first` on, and the complex that it states.
struct Case {
    form: Form,
    text: &'static [u8],
    first: u32,
    count: u64,
    facets: &'static [FacetCase],
    polygons: &'static [PolygonCase],
    segments: &'static [(u32, u32)],
    holes: &'static [PointCase],
    regions: &'static [(&'static [u8], PointCase)],
}

const BAR_FACETS: [FacetCase; 6] = [
    (0, 1, &[], Some(-1)),
    (1, 2, &[], Some(-2)),
    (2, 3, &[], Some(0)),
    (3, 4, &[], Some(0)),
    (4, 5, &[], Some(0)),
    (5, 6, &[], Some(0)),
];

const BAR_SMESH_FACETS: [FacetCase; 6] = [
    (0, 1, &[], Some(-1)),
    (1, 2, &[], Some(-2)),
    (2, 3, &[], Some(0)),
    (3, 4, &[], Some(0)),
    (4, 5, &[], None),
    (5, 6, &[], Some(0)),
];

const BAR_SEGMENTS: [(u32, u32); 12] = [
    (0, 1),
    (1, 2),
    (2, 3),
    (3, 0),
    (4, 5),
    (5, 6),
    (6, 7),
    (7, 4),
    (0, 4),
    (5, 1),
    (6, 2),
    (7, 3),
];

const FACET_HOLE: [PointCase; 1] = [(500_000, -250_000, 0, 1_000_000)];

const HOLE: PointCase = (1_400_000, 1_500_000, 1_600_000, 1_000_000);

const REGIONS: [(&[u8], PointCase); 2] = [
    (b"10", (500_000, 1_400_000, 1_600_000, 1_000_000)),
    (b"a", (1_400_000, 1_500_000, 1_600_000, 1_000_000)),
];

static CASES: [Case; 8] = [
    Case {
        form: Poly,
        text: BAR,
        first: 1,
        count: 8,
        facets: &BAR_FACETS,
        polygons: &[
            (14, &[0, 1, 2, 3]),
            (16, &[4, 5, 6, 7]),
            (18, &[0, 4, 5, 1]),
            (20, &[1, 5, 6, 2]),
            (22, &[2, 6, 7, 3]),
            (24, &[3, 7, 4, 0]),
        ],
        segments: &BAR_SEGMENTS,
        holes: &[],
        regions: &[],
    },
    Case {
        form: Smesh,
        text: BAR_SMESH,
        first: 1,
        count: 8,
        facets: &BAR_SMESH_FACETS,
        polygons: &[
            (11, &[0, 1, 2, 3]),
            (12, &[4, 5, 6, 7]),
            (13, &[0, 4, 5, 1]),
            (14, &[1, 5, 6, 2]),
            (15, &[2, 6, 7, 3]),
            (17, &[3, 7, 4, 0]),
        ],
        segments: &BAR_SEGMENTS,
        holes: &[],
        regions: &[],
    },
    Case {
        form: Poly,
        text: PARTS,
        first: 0,
        count: 4,
        facets: &[(0, 2, &FACET_HOLE, None), (2, 3, &[], None)],
        polygons: &[(8, &[0, 1, 2]), (12, &[1, 3]), (15, &[3])],
        segments: &[(0, 1), (1, 2), (2, 0), (1, 3)],
        holes: &[HOLE],
        regions: &REGIONS,
    },
    Case {
        form: Poly,
        text: LOOSE,
        first: 0,
        count: 4,
        facets: &[(0, 2, &FACET_HOLE, Some(7)), (2, 3, &[], None)],
        polygons: &[(16, &[0, 1, 2]), (22, &[1, 3]), (29, &[3])],
        segments: &[(0, 1), (1, 2), (2, 0), (1, 3)],
        holes: &[HOLE],
        regions: &REGIONS,
    },
    Case {
        form: Smesh,
        text: LOOSE_SMESH,
        first: 0,
        count: 4,
        facets: &[(0, 1, &[], Some(-7)), (1, 2, &[], None)],
        polygons: &[(9, &[0, 1, 2]), (14, &[3])],
        segments: &[(0, 1), (1, 2), (2, 0)],
        holes: &[HOLE],
        regions: &[],
    },
    // Sides that are points, and sides that stand twice; the file ends after the facet list.
    Case {
        form: Poly,
        text: b"0\n3\n1\n2 3 3\n1\n2 1 3\n1\n3 3 1 3\n",
        first: 0,
        count: 4,
        facets: &[(0, 1, &[], None), (1, 2, &[], None), (2, 3, &[], None)],
        polygons: &[(4, &[3, 3]), (6, &[1, 3]), (8, &[3, 1, 3])],
        segments: &[(1, 3)],
        holes: &[],
        regions: &[],
    },
    // A marker without the flag, and an empty hole list.
    Case {
        form: Smesh,
        text: b"0\n1 0\n2 1 2 5\n0\n",
        first: 1,
        count: 2,
        facets: &[(0, 1, &[], None)],
        polygons: &[(3, &[0, 1])],
        segments: &[(0, 1)],
        holes: &[],
        regions: &[],
    },
    Case {
        form: Poly,
        text: b"0\n0\n",
        first: 1,
        count: 0,
        facets: &[],
        polygons: &[],
        segments: &[],
        holes: &[],
        regions: &[],
    },
];

/// The complex of a text in one of the two forms.
fn read(alloc: Global, form: Form, text: &[u8]) -> Result<PlcText, PlcFault>
    ensures { IfOk result HasFewParts }
{
    let bytes = Bytes::from_slice(alloc, text)?;
    if bytes.len() > 200_000 {
        return Err(PlcFault::NoMemory);
    }
    match form {
        Poly => read_poly(alloc, &bytes),
        Smesh => read_smesh(alloc, &bytes),
    }
}

const UNITS: Grid = Grid {
    decimals: 0,
    halvings: 0,
};

/// The complex on a grid, where its corners are in range.
pub(crate) fn bound(
    alloc: Global,
    text: &PlcText,
    first: u32,
    count: u64,
) -> Result<Complex, PlcFault>
    requires few { HasFewParts text.now }
{
    let count = count.min(100_000);
    check_corners(text, first, count)?;
    bind(alloc, Limits::tetgen(), text, first, count, &UNITS)
}

/// As `bound`, for a text in one of the two forms.
fn bound_text(
    alloc: Global,
    form: Form,
    text: &[u8],
    first: u32,
    count: u64,
) -> Result<Complex, PlcFault> {
    match read(alloc, form, text) {
        Ok(text) => bound(alloc, &text, first, count),
        Err(fault) => Err(fault),
    }
}

/// Whether a point has these coordinates over this denominator.
fn is_at(p: RatPoint, at: PointCase) -> bool {
    (p.x, p.y, p.z, p.w) == at
}

fn are_at(points: &RatPoints, wanted: &[PointCase]) -> bool {
    let mut same = points.len() == wanted.len();
    for (p, at) in points.as_slice().iter().zip(wanted) {
        same &= is_at(*p, *at);
    }
    same
}

fn is_facet(facet: &Facet, wanted: &FacetCase) -> bool {
    let (first, past, holes, marker) = wanted;
    (facet.first, facet.past) == (*first, *past)
        && facet.marker == *marker
        && are_at(&facet.holes, holes)
}

fn has_facets(complex: &Complex, wanted: &[FacetCase]) -> bool {
    let count = complex.facet_count();
    let mut same = count as usize == wanted.len();
    for (i, facet) in wanted.iter().enumerate() {
        same &= i < count as usize && is_facet(complex.facet(i as u32), facet);
    }
    same
}

fn has_polygons(complex: &Complex, wanted: &[PolygonCase]) -> bool {
    let mut same = complex.polygon_count() as usize == wanted.len();
    for i in 0..complex.polygon_count() {
        let polygon = (complex.polygon_line(i), complex.corners(i));
        same &= wanted.get(i as usize) == Some(&polygon);
        same &= complex.corner_count(i) == polygon.1.len();
    }
    same
}

fn has_regions(complex: &Complex, wanted: &[(&[u8], PointCase)]) -> bool {
    let mut same = complex.region_count() as usize == wanted.len();
    for i in 0..complex.region_count() {
        let region = complex.region(i);
        same &= match wanted.get(i as usize) {
            Some((attribute, at)) => {
                region.attribute.as_slice() == *attribute && is_at(region.at, *at)
            }
            None => false,
        };
    }
    same
}

/// Whether the segments are these, none of them halved.
fn has_segments(alloc: Global, complex: &Complex, wanted: &[(u32, u32)]) -> bool {
    let Ok(pieces) = segments(alloc, complex) else {
        return false;
    };
    let mut same = pieces.len() == wanted.len();
    for (piece, ends) in pieces.as_slice().iter().zip(wanted) {
        same &= (piece.a, piece.b) == *ends && piece.halvings == 0;
    }
    same
}

/// Whether a complex is the one of the case.
fn is_complex(alloc: Global, complex: &Complex, case: &Case) -> bool {
    has_facets(complex, case.facets)
        && has_polygons(complex, case.polygons)
        && has_segments(alloc, complex, case.segments)
        && are_at(complex.hole_points(), case.holes)
        && has_regions(complex, case.regions)
}

/// Whether a text states the complex of its case.
fn is_stated(alloc: Global, case: &Case) -> bool {
    match bound_text(alloc, case.form, case.text, case.first, case.count) {
        Ok(complex) => is_complex(alloc, &complex, case),
        Err(_) => false,
    }
}

/// Texts whose corners are to be among the 8 numbers from 1 on; the line and the kind of the fault.
static FAULTS: [(Form, &[u8], usize, TextKind); 58] = [
    // The point list.
    (Poly, b"", 1, Ended),
    (Poly, b"1 2 0 0\n1 0 0 0\n0\n", 1, BadCount),
    (Poly, b"1 3 0 0 7\n1 0 0 0\n0\n", 1, Extra),
    (Poly, b"1234567890123456789 3 0 0\n0\n", 1, NotANumber),
    (Poly, b"999999999999999999 3 0 0\n", 2, Ended),
    (Poly, b"1\n1 0 0 1e\n0\n", 2, NotANumber),
    (Poly, b"1\n1 0 0 1e36\n0\n", 2, NotANumber),
    (Poly, b"1\n1 0 0\n0\n", 2, Ended),
    (Poly, b"1\n2 0 0 0\n0\n", 2, BadIndex),
    // The facet list.
    (Poly, b"0\n", 2, Ended),
    (Poly, b"0\nx 2\n", 2, NotANumber),
    (Poly, b"0\n6 2\n1\n1 1\n", 2, BadCount),
    (Poly, b"0\n1 1 1\n1\n1 1\n", 2, Extra),
    (Poly, CUT, 17, Ended),
    // The first line of a facet.
    (Poly, b"0\n1\n", 3, Ended),
    (Poly, b"0\n1\n0 0\n", 3, BadCount),
    (Poly, b"0\n1\n1 x\n1 1\n", 3, NotANumber),
    (Poly, b"0\n1\n1 0 x\n1 1\n", 3, NotANumber),
    (Poly, b"0\n1\n1 0 1 1\n1 1\n", 3, Extra),
    // Polygons; a corner's line is its own.
    (Poly, b"0\n1\n1\n0\n", 4, BadCount),
    (Poly, b"0\n1\n1\n2 1\n", 5, Ended),
    (Poly, b"0\n1\n1\n2 1 x\n", 4, NotANumber),
    (Poly, b"0\n1\n1\n2 1\n2 3\n", 5, Extra),
    (Poly, b"0\n1\n1\n2 1\n\n-2\n", 6, NotANumber),
    (Poly, b"0\n1\n2\n1 1\n", 5, Ended),
    (Poly, b"0\n1\n1\n1 9\n", 4, BadIndex),
    (Poly, b"0\n1\n1\n1 0\n", 4, BadIndex),
    (Poly, b"0\n1\n1\n3 1\n2\n0\n9\n", 8, Ended),
    (Poly, b"0\n1\n1\n3 1\n2\n0\n", 6, BadIndex),
    // A corner out of range is reported only where nothing else is wrong.
    (Poly, b"0\n1\n1\n1 9\n0\n0\n5\n", 7, Extra),
    // Hole points of a facet.
    (Poly, b"0\n1\n1 1\n1 1\n", 5, Ended),
    (Poly, b"0\n1\n1 1\n1 1\n1 0 0\n", 5, Ended),
    (Poly, b"0\n1\n1 1\n1 1\n1 0 0 0 0\n", 5, Extra),
    // The hole list.
    (Poly, b"0\n0\nx\n", 3, NotANumber),
    (Poly, b"0\n0\n0 1\n", 3, Extra),
    (Poly, b"0\n0\n1\n", 4, Ended),
    (Poly, b"0\n0\n1\n1 0 0\n0\n", 4, Ended),
    (Poly, b"0\n0\n1\n1.5 0 0 0\n0\n", 4, NotANumber),
    // The region list.
    (Poly, b"0\n0\n0\n-1\n", 4, NotANumber),
    (Poly, b"0\n0\n0\n1 1\n", 4, Extra),
    (Poly, b"0\n0\n0\n1\n1 0 0 0\n", 5, Ended),
    (Poly, b"0\n0\n0\n1\n1 0 0 0 a b c\n", 5, Extra),
    (Poly, b"0\n0\n0\n0\n\n# end\n5\n", 7, Extra),
    // The other form.
    (Smesh, b"", 1, Ended),
    (Smesh, b"1\n1 0 0 1e\n0\n", 2, NotANumber),
    (Smesh, b"0\n6 2\n1 1\n", 2, BadCount),
    (Smesh, b"0\n2\n1 1\n", 4, Ended),
    (Smesh, b"0\n1\n0 1\n", 3, BadCount),
    (Smesh, b"0\n1\n2 1\n", 4, Ended),
    (Smesh, b"0\n1\n2 1\n+2\n", 4, NotANumber),
    (Smesh, b"0\n1\n1 1 x\n", 3, NotANumber),
    (Smesh, b"0\n1\n1 1 5 6\n", 3, Extra),
    (Smesh, b"0\n1\n2 1\n2 5 6\n", 4, Extra),
    (Smesh, b"0\n1\n1 0\n", 3, BadIndex),
    (Smesh, b"0\n1\n3 1\n2\n9\n", 5, BadIndex),
    (Smesh, b"0\n1\n1 1\n1\n1 0 0\n", 5, Ended),
    (Smesh, b"0\n1\n1 1\n0\n1\n1 0 0 0\n", 6, Ended),
    (Smesh, b"0\n1\n1 1\n0\n0\n5\n", 6, Extra),
];

/// Whether the text is refused with the fault of this line and kind.
fn has_fault(alloc: Global, form: Form, text: &[u8], line: usize, kind: TextKind) -> bool {
    let fault = bound_text(alloc, form, text, 1, 8).err();
    fault == Some(PlcFault::Text(TextFault { line, kind }))
}

#[test]
fn complexes(rt: HostRuntime) {
    for (i, case) in CASES.iter().enumerate() {
        assert!(rt; is_stated(rt.alloc(), case), "{i}");
    }
}

#[test]
fn faults_of_complexes(rt: HostRuntime) {
    for (form, text, line, kind) in &FAULTS {
        assert!(rt;
            has_fault(rt.alloc(), *form, text, *line, *kind),
            "{text:?}"
        );
    }
}

/// A text, and then a piece `count` times.
fn repeated(alloc: Global, head: &[u8], piece: &[u8], count: usize) -> Result<Bytes, NoMemory> {
    let mut text = Bytes::from_slice(alloc, head)?;
    for _ in 0..count {
        text.append(piece)?;
    }
    Ok(text)
}

/// The fault of a text and then a piece `count` times, on a grid, whose corners are to be 1.
fn repeated_fault(alloc: Global, head: &[u8], piece: &[u8], count: usize) -> Option<PlcFault> {
    match repeated(alloc, head, piece, count) {
        Ok(text) => bound_text(alloc, Poly, text.as_slice(), 1, 1).err(),
        Err(NoMemory) => Some(PlcFault::NoMemory),
    }
}

static LIMITS: [(&[u8], &[u8], usize, Option<PlcFault>); 5] = [
    (b"0\n20000\n", b"1\n1 1\n", 20_000, None),
    (
        b"0\n20001\n",
        b"1\n1 1\n",
        20_001,
        Some(PlcFault::Facets {
            count: 20_001,
            most: 20_000,
        }),
    ),
    (b"0\n1\n1\n1000", b" 1", 1000, None),
    (
        b"0\n1\n1\n1001",
        b"\n1",
        1001,
        Some(PlcFault::Corners {
            line: 4,
            count: 1001,
            most: 1000,
        }),
    ),
    (
        b"0\n2\n1\n1 1\n1\n1002",
        b" 1",
        1002,
        Some(PlcFault::Corners {
            line: 6,
            count: 1002,
            most: 1000,
        }),
    ),
];

#[test]
fn limits(rt: HostRuntime) {
    for (head, piece, count, wanted) in &LIMITS {
        assert!(rt;
            repeated_fault(rt.alloc(), head, piece, *count) == *wanted,
            "{count}"
        );
    }
}

/// The faces of the box of a sample; each line is 1.
const BOX: [PolygonCase; 6] = [
    (1, &[0, 1, 2, 3]),
    (1, &[4, 5, 6, 7]),
    (1, &[0, 4, 5, 1]),
    (1, &[1, 5, 6, 2]),
    (1, &[2, 6, 7, 3]),
    (1, &[3, 7, 4, 0]),
];

/// Whether a text on a grid has the faces of the box.
fn has_box(alloc: Global, text: &PlcText, count: usize) -> bool
    requires few { HasFewParts text.now }
{
    match bound(alloc, text, 0, count as u64) {
        Ok(complex) => has_polygons(&complex, &BOX),
        Err(_) => false,
    }
}

/// The number of points of a text.
pub(crate) fn point_count(text: &PlcText) -> usize {
    match text.nodes() {
        Some(nodes) => nodes.decimals.len(),
        None => 0,
    }
}

/// The last point of a text.
fn last_of(text: &PlcText) -> Option<[i128; 3]> {
    let last = text.nodes()?.decimals.as_slice().last()?;
    Some([last.x.value, last.y.value, last.z.value])
}

/// Whether the sample has the faces of the box, this number of points, and this last point.
fn is_sample(alloc: Global, n: u32, points: usize, last: [i128; 3]) -> bool {
    match sample(alloc, n.min(10_000)) {
        Ok(text) => has_box(alloc, &text, points)
            && point_count(&text) == points
            && last_of(&text) == Some(last),
        Err(NoMemory) => false,
    }
}

static SAMPLES: [(u32, usize, [i128; 3]); 3] = [
    (0, 8, [0, 1_048_576, 1_048_576]),
    (1, 9, [443_767, 534_153, 679_855]),
    (3, 11, [580_843, 68_597, 880_517]),
];

#[test]
fn samples(rt: HostRuntime) {
    for (n, points, last) in &SAMPLES {
        assert!(rt; is_sample(rt.alloc(), *n, *points, *last), "{n}");
    }
}

/// Regions with a limit in their last field, with a field that is none, and with no further field.
const WITH_LIMITS: &[u8] = b"\
1\n1 0 0 0\n1\n1\n1 1\n0\n6\n1 0 0 0 a 0.50\n2 0 0 0 a -1\n3 0 0 0 a\n4 0 0 0 7 1e2\n\
5 0 0 0 a x\n6 0 0 0 a 0\n";

/// The limits of the regions of `WITH_LIMITS`.
const LIMITED: [Option<Decimal>; 6] = [
    Some(Decimal { value: 5, scale: 1 }),
    None,
    None,
    Some(Decimal {
        value: 100,
        scale: 0,
    }),
    None,
    None,
];

/// Whether the regions of a text have these limits, in this order.
fn has_limits(alloc: Global, text: &PlcText, wanted: &[Option<Decimal>]) -> bool {
    match text.limits(alloc) {
        Ok(limits) => limits.as_slice() == wanted,
        Err(NoMemory) => false,
    }
}

/// Whether the text has points and hands them out once, and its regions have these limits.
fn has_parts(alloc: Global, text: &[u8], wanted: &[Option<Decimal>]) -> bool {
    match read(alloc, Poly, text) {
        Ok(mut text) => has_limits(alloc, &text, wanted)
            && text.take_nodes().is_some()
            && text.take_nodes().is_none(),
        Err(_) => false,
    }
}

#[test]
fn limits_of_regions_and_points(rt: HostRuntime) {
    assert!(rt; has_parts(rt.alloc(), WITH_LIMITS, &LIMITED));
}

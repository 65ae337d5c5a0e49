//! Texts of surfaces: the complexes that they state, and their faults.

ghost use Rattle.std.specs.Prelude.{◌≤◌, length, IfOk};
ghost use Rattle.plc_files.specs.Checks.{HasFewParts};

use crate::tests::complexes::{bound, point_count};
use Form::{Binary, Off, Stl, WideOff, WideStl};
use binary_floats::float_decimal;
use geo_laws::Complex;
use plc_files::{PlcFault, PlcText};
use soup_files::{
    is_binary_stl, read_ascii_stl, read_binary_stl, read_off, read_wide_off, read_wide_stl,
};
use std::alloc::Global;
use tet_ports::{Bytes, NoMemory};
use tet_text::TextKind::{BadCount, Ended, Extra, NotANumber};
use tet_text::{TextFault, TextKind};

/// The bits of a float, and its decimal: its value and its scale.
static FLOATS: [(u32, Option<(i128, u32)>); 13] = [
    (0x0000_0000, Some((0, 0))),
    (0x8000_0000, Some((0, 0))),
    (0x3DCC_CCCD, Some((1, 1))),
    (0x3EAA_AAAB, Some((33_333_334, 8))),
    (0xC049_0FDB, Some((-31_415_927, 7))),
    (0x4980_0002, Some((10_485_762, 1))),
    (0x4B7F_FFFF, Some((16_777_215, 0))),
    (0x5015_02F9, Some((10_000_000_000, 0))),
    (0x0080_0000, Some((11_754_944, 45))),
    (0x0000_0001, Some((1, 45))),
    (0x7F7F_FFFF, None),
    (0xFF80_0000, None),
    (0x7FC0_0000, None),
];

#[test]
fn decimals_of_floats(rt: HostRuntime) {
    for (bits, wanted) in &FLOATS {
        let found = float_decimal(*bits).map(|d| (d.value, d.scale));
        assert!(rt; found == *wanted, "{bits}");
    }
}

/// The forms of a text; the wide ones are those that other programs write.
#[derive(Clone, Copy)]
enum Form {
    Off,
    Stl,
    WideOff,
    WideStl,
    Binary,
}

/// A facet of one polygon: its marker, and the places of its corners.
type FacetCase = (Option<i64>, &'static [u32]);

/// A text in parts, and the number of points and the facets that it states.
struct Case {
    name: &'static str,
    form: Form,
    text: &'static [&'static [u8]],
    points: usize,
    facets: &'static [FacetCase],
}

const COLORED: &[u8] = b"COFF\n3 1 0\n0 0 0 255 0 0 255\n# between\n1 0 0 0 255 0 255 # green\n\
      0 1 0 0 0 255 255\n3 0 1 2 0.5 0.5 0.5\n";

const NORMALS: &[u8] = b"cnoff 3 1 0\n0 0 0 0 0 1 1 0 0\n1 0 0 0 0 1 1 0 0\n\
      0 1 0 0 0 1\n3 0 1 2\n";

const BOTTOM: &[u8] = b"Facet Normal 0 0 -1\nOUTER LOOP\nVERTEX 0 0 0\nVertex 0 1 0\n\
      vertex 1 0 0\nEndLoop\nENDFACET\n";

const FRONT: &[u8] = b"facet normal 0 -1 0\nouter loop\nvertex 0 0 0\nvertex 1 0 0\n\
      vertex 0 0 1\nendloop\nendfacet\n";

/// What is behind `solid` in the head of a binary text. Then come the number of facets and, for
/// each, its normal, here no number, its corners and two bytes.
const BINARY_NAME: &[u8] = &[b' '; 75];

const NORMAL: &[u8] = &[0xFF; 12];

/// Corners in floats: the origin, 1 on the first axis, 0.1 on the second, negative zero, and 0.1
/// and infinity on the third axis.
const ORIGIN: &[u8] = &[0; 12];

const RIGHT: &[u8] = b"\0\0\x80\x3f\0\0\0\0\0\0\0\0";

const BACK: &[u8] = b"\0\0\0\0\xcd\xcc\xcc\x3d\0\0\0\0";

const MINUS_ORIGIN: &[u8] = b"\0\0\0\x80\0\0\0\0\0\0\0\0";

const UP: &[u8] = b"\0\0\0\0\0\0\0\0\xcd\xcc\xcc\x3d";

const FAR_UP: &[u8] = b"\0\0\0\0\0\0\0\0\0\0\x80\x7f";

/// Two binary facets with a common side.
const BINARY: &[&[u8]] = &[
    b"solid",
    BINARY_NAME,
    b"\x02\0\0\0",
    NORMAL,
    ORIGIN,
    RIGHT,
    BACK,
    b"ab",
    NORMAL,
    RIGHT,
    MINUS_ORIGIN,
    UP,
    b"ab",
];

static CASES: [Case; 6] = [
    Case {
        name: "colors",
        form: WideOff,
        text: &[COLORED],
        points: 3,
        facets: &[(None, &[0, 1, 2])],
    },
    Case {
        name: "normals and some colors",
        form: WideOff,
        text: &[NORMALS],
        points: 3,
        facets: &[(None, &[0, 1, 2])],
    },
    Case {
        name: "one solid in capitals",
        form: WideStl,
        text: &[b"SOLID t\n", BOTTOM, FRONT, b"ENDSOLID t\n"],
        points: 4,
        facets: &[(None, &[0, 1, 2]), (None, &[0, 2, 3])],
    },
    Case {
        name: "two solids",
        form: WideStl,
        text: &[
            b"SOLID a\n",
            BOTTOM,
            b"endsolid a\n\nsolid b\n",
            FRONT,
            b"endsolid\n",
        ],
        points: 4,
        facets: &[(Some(1), &[0, 1, 2]), (Some(2), &[0, 2, 3])],
    },
    Case {
        name: "an empty solid",
        form: WideStl,
        text: &[b"solid a\nendsolid a\nSolid b\n", BOTTOM, b"endsolid b\n"],
        points: 3,
        facets: &[(Some(2), &[0, 1, 2])],
    },
    Case {
        name: "two binary facets",
        form: Binary,
        text: BINARY,
        points: 4,
        facets: &[(None, &[0, 1, 2]), (None, &[1, 0, 3])],
    },
];

/// The bytes of these parts.
fn text_of(alloc: Global, parts: &[&[u8]]) -> Result<Bytes, NoMemory> {
    let mut text = Bytes::new(alloc);
    for part in parts {
        text.append(part)?;
    }
    Ok(text)
}

fn read_bytes(alloc: Global, form: Form, bytes: &Bytes) -> Result<PlcText, PlcFault>
    requires { length bytes.now ≤ 1000 }
    ensures { IfOk result HasFewParts }
{
    match form {
        Off => read_off(alloc, bytes),
        Stl => read_ascii_stl(alloc, bytes),
        WideOff => read_wide_off(alloc, bytes),
        WideStl => read_wide_stl(alloc, bytes),
        Binary => read_binary_stl(alloc, bytes),
    }
}

/// The complex of a text in one of the forms.
fn read(alloc: Global, form: Form, parts: &[&[u8]]) -> Result<PlcText, PlcFault>
    ensures { IfOk result HasFewParts }
{
    let bytes = text_of(alloc, parts)?;
    if bytes.len() > 1000 {
        return Err(PlcFault::NoMemory);
    }
    read_bytes(alloc, form, &bytes)
}

/// Whether the facets have these markers and corners, and one polygon each.
fn has_facets(complex: &Complex, wanted: &[FacetCase]) -> bool {
    let count = complex.facet_count();
    let mut same = count as usize == wanted.len() && complex.polygon_count() == count;
    for (i, (marker, corners)) in wanted.iter().enumerate() {
        same &= has_facet(complex, i, *marker, corners);
    }
    same
}

/// Whether a facet has this marker, and the polygon of its number these corners.
fn has_facet(complex: &Complex, i: usize, marker: Option<i64>, corners: &[u32]) -> bool {
    if i >= complex.facet_count() as usize || i >= complex.polygon_count() as usize {
        return false;
    }
    complex.facet(i as u32).marker == marker && complex.corners(i as u32) == corners
}

/// Whether a complex has the points and facets of a case.
fn is_of(alloc: Global, text: &PlcText, case: &Case) -> bool
    requires few { HasFewParts text.now }
{
    let count = point_count(text);
    match bound(alloc, text, 0, count as u64) {
        Ok(complex) => count == case.points && has_facets(&complex, case.facets),
        Err(_) => false,
    }
}

/// Whether a text is read as its case says.
fn is_read(alloc: Global, case: &Case) -> bool {
    match read(alloc, case.form, case.text) {
        Ok(text) => is_of(alloc, &text, case),
        Err(_) => false,
    }
}

/// Whether the text of these parts is recognized as a binary one.
fn is_binary(alloc: Global, parts: &[&[u8]]) -> bool {
    match text_of(alloc, parts) {
        Ok(bytes) => is_binary_stl(&bytes),
        Err(NoMemory) => false,
    }
}

#[test]
fn surfaces(rt: HostRuntime) {
    assert!(rt; is_binary(rt.alloc(), BINARY));
    for case in &CASES {
        assert!(rt; is_read(rt.alloc(), case), "{}", case.name);
    }
}

/// A text in parts that is refused, and its first fault.
struct Faulty {
    name: &'static str,
    form: Form,
    text: &'static [&'static [u8]],
    line: usize,
    kind: TextKind,
}

static FAULTY: [Faulty; 23] = [
    Faulty {
        name: "empty",
        form: Off,
        text: &[b""],
        line: 1,
        kind: Ended,
    },
    Faulty {
        name: "no keyword",
        form: Off,
        text: &[b"4 4 6\n"],
        line: 1,
        kind: BadCount,
    },
    Faulty {
        name: "no counts",
        form: Off,
        text: &[b"OFF\n"],
        line: 2,
        kind: Ended,
    },
    Faulty {
        name: "one count",
        form: Off,
        text: &[b"OFF 4\n4 6\n"],
        line: 1,
        kind: Ended,
    },
    Faulty {
        name: "four counts",
        form: Off,
        text: &[b"OFF\n4 4 6 1\n"],
        line: 2,
        kind: Extra,
    },
    Faulty {
        name: "four coordinates",
        form: Off,
        text: &[b"OFF 1 0\n0 0 0 1\n"],
        line: 2,
        kind: Extra,
    },
    Faulty {
        name: "no corner",
        form: Off,
        text: &[b"OFF 1 1 0\n0 0 0\n0\n"],
        line: 3,
        kind: BadCount,
    },
    Faulty {
        name: "corners on two lines",
        form: Off,
        text: &[b"OFF 1 1 0\n0 0 0\n3 0 0\n0\n"],
        line: 3,
        kind: Ended,
    },
    Faulty {
        name: "a line behind",
        form: Off,
        text: &[b"OFF 1 1 0\n0 0 0\n1 0 9\n\n1 0\n"],
        line: 5,
        kind: Extra,
    },
    Faulty {
        name: "empty",
        form: Stl,
        text: &[b""],
        line: 1,
        kind: Ended,
    },
    Faulty {
        name: "large letters",
        form: Stl,
        text: &[b"Solid\nendsolid\n"],
        line: 1,
        kind: BadCount,
    },
    Faulty {
        name: "not ended",
        form: Stl,
        text: &[b"solid\n"],
        line: 2,
        kind: Ended,
    },
    Faulty {
        name: "cut",
        form: Stl,
        text: &[b"solid\nfacet normal 0 0 -1\nouter loop\nvertex 0 0 0\nvertex 1 0 0\n"],
        line: 6,
        kind: Ended,
    },
    Faulty {
        name: "a long normal",
        form: Stl,
        text: &[b"solid\nfacet normal 0 0 -1 2\n"],
        line: 2,
        kind: Extra,
    },
    Faulty {
        name: "a bad coordinate",
        form: Stl,
        text: &[b"solid\nfacet normal x y z\nouter loop\nvertex 0 0 x\n"],
        line: 4,
        kind: NotANumber,
    },
    Faulty {
        name: "a line behind",
        form: Stl,
        text: &[b"solid\nendsolid a b\n# end\nsolid\n"],
        line: 4,
        kind: Extra,
    },
    Faulty {
        name: "four coordinates",
        form: WideOff,
        text: &[b"4OFF\n1 0 0\n0 0 0 1\n"],
        line: 1,
        kind: BadCount,
    },
    Faulty {
        name: "two coordinates and a comment",
        form: WideOff,
        text: &[b"OFF 1 0\n0 0 # 0\n"],
        line: 2,
        kind: Ended,
    },
    Faulty {
        name: "a facet between solids",
        form: WideStl,
        text: &[b"solid a\nendsolid a\n", BOTTOM],
        line: 3,
        kind: BadCount,
    },
    Faulty {
        name: "the second solid not ended",
        form: WideStl,
        text: &[b"solid a\nendsolid a\nsolid b\n"],
        line: 4,
        kind: Ended,
    },
    Faulty {
        name: "a byte behind the second facet",
        form: Binary,
        text: &[
            b"solid",
            BINARY_NAME,
            b"\x02\0\0\0",
            NORMAL,
            ORIGIN,
            RIGHT,
            BACK,
            b"ab",
            NORMAL,
            RIGHT,
            MINUS_ORIGIN,
            UP,
            b"ab\0",
        ],
        line: 3,
        kind: Extra,
    },
    Faulty {
        name: "a byte less",
        form: Binary,
        text: &[
            b"solid",
            BINARY_NAME,
            b"\x02\0\0\0",
            NORMAL,
            ORIGIN,
            RIGHT,
            BACK,
            b"ab",
            NORMAL,
            RIGHT,
            MINUS_ORIGIN,
            UP,
            b"a",
        ],
        line: 2,
        kind: Ended,
    },
    Faulty {
        name: "an infinite coordinate",
        form: Binary,
        text: &[
            b"solid",
            BINARY_NAME,
            b"\x02\0\0\0",
            NORMAL,
            ORIGIN,
            RIGHT,
            BACK,
            b"ab",
            NORMAL,
            RIGHT,
            MINUS_ORIGIN,
            FAR_UP,
            b"ab",
        ],
        line: 2,
        kind: NotANumber,
    },
];

/// Whether the text of a case is refused so.
fn is_refused(alloc: Global, case: &Faulty) -> bool {
    let fault = read(alloc, case.form, case.text).err();
    let (line, kind) = (case.line, case.kind);
    fault == Some(PlcFault::Text(TextFault { line, kind }))
}

#[test]
fn faults_of_surfaces(rt: HostRuntime) {
    for case in &FAULTY {
        assert!(rt; is_refused(rt.alloc(), case), "{}", case.name);
    }
}

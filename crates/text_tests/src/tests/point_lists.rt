//! Point lists: their texts, their faults, and what is written of them.

ghost use Rattle.std.specs.Prelude.{◌≤◌, length, IfOk};
ghost use Rattle.node_files.specs.Node.{IsNodeText};
ghost use Rattle.node_files.specs.Limits.{tetgen_limits};
ghost use Rattle.node_files.specs.Writing.{IsNodeTable};

use geo_laws::Points;
use grid_coords::{DecimalPoint, DecimalPoints, Grid};
use node_files::*;
use sign_predicates::GridPoint;
use std::alloc::Global;
use tet_ports::{Bytes, Name, NoMemory, Words};
use tet_text::TextKind::{BadCount, BadIndex, Ended, Extra, NotANumber};
use tet_text::{Decimal, Lines, TextFault, TextKind};

const SMALLEST: &[u8] = b"4 3 0 0\n1 0 0 0\n2 1 0 0\n3 0 1 0\n4 0 0 1\n";

const DECIMALS: &[u8] = b"4 3 1 1\n1 0.5 0 0 7e2 5\n2 -1.250 0 0 a 0\n3 0 3 0 b 0\n4 0 0 .5 c -1\n";

const WITH_MARKERS: &[u8] =
    b"# points\n\n2 3 2 1\n0 0.5 0 0 7e2 x 5\n# between\n1 -1.250 0 0 a - -7 # last\n9 9\n";

const THIRD: &[u8] = b"4 3 0 0\n1 0 0 0\n2 1 0 0\n3 0 1 0\n4 0 0 0.33333333333333331\n";

/// The list of a whole text.
fn read(alloc: Global, text: &[u8]) -> Result<NodeText, NodeFault>
    ensures { IfOk result IsNodeText }
{
    let bytes = Bytes::from_slice(alloc, text)?;
    if bytes.len() > 1000 {
        return Err(NodeFault::NoMemory);
    }
    read_node(alloc, &bytes)
}

/// The list that a text begins with.
fn read_first(alloc: Global, lines: &mut Lines) -> Result<NodeText, NodeFault> {
    if lines.line_count() > 1000 {
        return Err(NodeFault::NoMemory);
    }
    read_node_list(alloc, lines)
}

/// A point: its line, and its coordinates, each by its value and its scale.
type PointCase = (usize, (i128, u32), (i128, u32), (i128, u32));

/// A text that begins with a list, and the list. `next` is the line behind it, if there is one.
struct ListCase {
    text: &'static [u8],
    first: u32,
    attribute_count: u32,
    flag: bool,
    points: &'static [PointCase],
    attributes: &'static [&'static [u8]],
    markers: &'static [i64],
    next: Option<usize>,
}

static LISTS: [ListCase; 4] = [
    ListCase {
        text: SMALLEST,
        first: 1,
        attribute_count: 0,
        flag: false,
        points: &[
            (2, (0, 0), (0, 0), (0, 0)),
            (3, (1, 0), (0, 0), (0, 0)),
            (4, (0, 0), (1, 0), (0, 0)),
            (5, (0, 0), (0, 0), (1, 0)),
        ],
        attributes: &[],
        markers: &[],
        next: None,
    },
    ListCase {
        text: DECIMALS,
        first: 1,
        attribute_count: 1,
        flag: true,
        points: &[
            (2, (5, 1), (0, 0), (0, 0)),
            (3, (-125, 2), (0, 0), (0, 0)),
            (4, (0, 0), (3, 0), (0, 0)),
            (5, (0, 0), (0, 0), (5, 1)),
        ],
        attributes: &[b"7e2", b"a", b"b", b"c"],
        markers: &[5, 0, 0, -1],
        next: None,
    },
    ListCase {
        text: WITH_MARKERS,
        first: 0,
        attribute_count: 2,
        flag: true,
        points: &[(4, (5, 1), (0, 0), (0, 0)), (6, (-125, 2), (0, 0), (0, 0))],
        attributes: &[b"7e2", b"x", b"a", b"-"],
        markers: &[5, -7],
        next: Some(7),
    },
    ListCase {
        text: b"0 3 2 1",
        first: 1,
        attribute_count: 2,
        flag: true,
        points: &[],
        attributes: &[],
        markers: &[],
        next: None,
    },
];

fn is_decimal(d: &Decimal, wanted: (i128, u32)) -> bool {
    (d.value, d.scale) == wanted
}

fn are_points(points: &[DecimalPoint], wanted: &[PointCase]) -> bool {
    let mut are = points.len() == wanted.len();
    for (p, (line, x, y, z)) in points.iter().zip(wanted) {
        are &= p.line == *line;
        are &= is_decimal(&p.x, *x) && is_decimal(&p.y, *y) && is_decimal(&p.z, *z);
    }
    are
}

fn are_words(words: &[Name], wanted: &[&[u8]]) -> bool {
    let mut are = words.len() == wanted.len();
    for (word, want) in words.iter().zip(wanted) {
        are &= word.as_slice() == *want;
    }
    are
}

/// Whether a list is the one of the case.
fn is_list(list: &NodeText, case: &ListCase) -> bool {
    (list.first, list.attribute_count, list.flag) == (case.first, case.attribute_count, case.flag)
        && are_points(list.decimals.as_slice(), case.points)
        && are_words(list.attributes.as_slice(), case.attributes)
        && list.markers.as_slice() == case.markers
}

/// The line of the next content.
fn next_line(lines: &mut Lines) -> Option<usize> {
    let fields = lines.next_fields()?;
    Some(fields.line())
}

/// Whether a text begins with the list of its case.
fn begins_with_list(alloc: Global, case: &ListCase) -> bool {
    let mut lines = Lines::new(case.text);
    match read_first(alloc, &mut lines) {
        Ok(list) => is_list(&list, case) && next_line(&mut lines) == case.next,
        Err(_) => false,
    }
}

#[test]
fn lists(rt: HostRuntime) {
    for case in &LISTS {
        assert!(rt; begins_with_list(rt.alloc(), case), "{:?}", case.text);
    }
}

/// Whole texts, and the line and the kind of their faults.
static FAULTS: [(&[u8], usize, TextKind); 27] = [
    (b"", 1, Ended),
    (b"\n# nothing\n", 3, Ended),
    (b"x", 1, NotANumber),
    (b"4 2 0 0\n1", 1, BadCount),
    (b"4 3 0 0 7\n1", 1, Extra),
    (b"4 3 101\n", 1, BadCount),
    (b"4 3 0 2\n", 1, BadCount),
    (b"4 3 x 2\n", 1, NotANumber),
    (b"1234567890123456789 3 0 0\n", 1, NotANumber),
    (b"999999999999999999 3 0 0\n", 2, Ended),
    (b"999999999999999999 3 0 0", 2, Ended),
    (b"1\n1 0 0 1e\n", 2, NotANumber),
    (b"1\n1 0 0 1e36\n", 2, NotANumber),
    (b"1\n1 0 0\n", 2, Ended),
    (b"1\n2 0 0 0\n", 2, BadIndex),
    (b"1\n2 0 x 0\n", 2, BadIndex),
    (b"1\n+1 0 0 0\n", 2, NotANumber),
    (b"1\n1 0 0 0 5\n", 2, Extra),
    (b"1 3 1\n1 0 0 0\n", 2, Ended),
    (b"1 3 1 1\n1 0 0 0 a\n", 2, Ended),
    (b"1 3 1 1\n1 0 0 0 a b\n", 2, NotANumber),
    (b"2\n0 0 0 0\n\n2 0 0 0\n", 4, BadIndex),
    (b"2\n0 0 0 0\n0 0 0 0\n", 3, BadIndex),
    (b"2\n0 0 0 0\n", 3, Ended),
    (b"1\n1 0 0 0\n# end\n\n5\n", 5, Extra),
    (b"0\n1 0 0 0\n", 2, Extra),
    (b"1\n1 0.0.0 0 0\n", 2, NotANumber),
];

/// Whether reading the text ends with this fault.
fn has_fault(alloc: Global, text: &[u8], line: usize, kind: TextKind) -> bool {
    read(alloc, text).err() == Some(NodeFault::Text(TextFault { line, kind }))
}

#[test]
fn faults_of_lists(rt: HostRuntime) {
    for (text, line, kind) in &FAULTS {
        assert!(rt; has_fault(rt.alloc(), text, *line, *kind), "{text:?}");
    }
}

/// What settling the list of this text gives.
fn settled(alloc: Global, text: &[u8], options: GridOptions) -> Result<NodeTable, NodeFault>
    ensures table { IfOk result IsNodeTable }
    ensures few { IfOk result (λ table. length table.listed ≤ tetgen_limits.points) }
{
    settle(alloc, Limits::tetgen(), read(alloc, text)?, &options)
}

const PLAIN: GridOptions = GridOptions {
    decimals: None,
    halvings: 12,
};

const THOUSANDTHS: GridOptions = GridOptions {
    decimals: Some(3),
    halvings: 12,
};

const UNITS: GridOptions = GridOptions {
    decimals: Some(0),
    halvings: 12,
};

static REFUSALS: [(&[u8], GridOptions, Option<NodeFault>); 6] = [
    (SMALLEST, PLAIN, None),
    (
        b"5\n1 0 0 0\n2 1 0 0\n3 0 1 0\n4 0 0 1\n5 1.0 0 0\n",
        PLAIN,
        None,
    ),
    (
        b"4\n1 0 0 0\n2 1 0 0\n3 0 1 0\n4 0 0 0.33333333333333331\n",
        PLAIN,
        Some(NodeFault::Range { line: 3 }),
    ),
    (
        b"4\n1 0 0 0\n2 1 0 0\n3 0 1 0\n4 0 0 0.33333333333333331\n",
        THOUSANDTHS,
        None,
    ),
    (b"2\n1 0 0 0.4\n2 0 0 -0.4\n", UNITS, None),
    (
        b"2\n1 -8388608 0 8388608\n2 0 -8388609 0\n",
        PLAIN,
        Some(NodeFault::Range { line: 3 }),
    ),
];

/// The fault of settling the list of this text.
fn fault_of(alloc: Global, text: &[u8], options: GridOptions) -> Option<NodeFault> {
    settled(alloc, text, options).err()
}

/// A list of `count` points at one place, without attributes and markers.
fn alike(alloc: Global, count: usize) -> Result<NodeText, NoMemory> {
    let zero = Decimal { value: 0, scale: 0 };
    let mut decimals = DecimalPoints::new(alloc);
    for _ in 0..count {
        decimals.push(DecimalPoint {
            x: zero,
            y: zero,
            z: zero,
            line: 1,
        })?;
    }
    Ok(NodeText {
        first: 0,
        attribute_count: 0,
        flag: false,
        decimals,
        attributes: Words::new(alloc),
        markers: Markers::new(alloc),
    })
}

/// The fault of a list of `count` points at one place.
fn fault_of_alike(alloc: Global, count: usize) -> Option<NodeFault> {
    match alike(alloc, count) {
        Ok(text) => settle(alloc, Limits::tetgen(), text, &PLAIN).err(),
        Err(NoMemory) => Some(NodeFault::NoMemory),
    }
}

const TOO_MANY: NodeFault = NodeFault::TooMany {
    count: 20_001,
    most: 20_000,
};

#[test]
fn lists_that_are_refused(rt: HostRuntime) {
    assert!(rt; fault_of_alike(rt.alloc(), 20_000).is_none());
    assert!(rt; fault_of_alike(rt.alloc(), 20_001) == Some(TOO_MANY));
    for (text, options, fault) in &REFUSALS {
        assert!(rt; fault_of(rt.alloc(), text, *options) == *fault, "{text:?}");
    }
}

/// Lists with the names of their kept points and of two added ones, and the place of the kept point
/// that is equal to each.
static FOLDED: [(&[u8], GridOptions, &[u32], &[u32]); 4] = [
    (SMALLEST, PLAIN, &[0, 1, 2, 3, 4, 5], &[0, 1, 2, 3]),
    (
        b"5\n0 0 0 0\n1 1 0 0\n2 1.0 0 0\n3 0 1 0\n4 1 0 0\n",
        PLAIN,
        &[0, 1, 3, 5, 6],
        &[0, 1, 1, 2, 1],
    ),
    (b"2\n1 0 0 0.4\n2 0 0 -0.4\n", UNITS, &[0, 2, 3], &[0, 0]),
    (b"0\n", PLAIN, &[0, 1], &[]),
];

/// Whether a list has these names and folds its points so.
fn folds(alloc: Global, table: &NodeTable, names: &[u32], folded: &[u32]) -> bool
    requires { length table.now.listed ≤ tetgen_limits.points }
{
    match names_of(alloc, table, 2) {
        Ok(all) => all.as_slice() == names && table.folded.as_slice() == folded,
        Err(NoMemory) => false,
    }
}

/// As `folds`, for the list of a text.
fn is_folded(
    alloc: Global,
    text: &[u8],
    options: GridOptions,
    names: &[u32],
    folded: &[u32],
) -> bool {
    match settled(alloc, text, options) {
        Ok(table) => folds(alloc, &table, names, folded),
        Err(_) => false,
    }
}

#[test]
fn lists_are_folded(rt: HostRuntime) {
    for (text, options, names, folded) in &FOLDED {
        assert!(rt;
            is_folded(rt.alloc(), text, *options, names, folded),
            "{text:?}"
        );
    }
}

const ADDED: GridPoint = GridPoint {
    x: 1,
    y: -8_388_608,
    z: 4096,
};

/// A list on its grid, and its text, numbered from `first` on, where a point may be added.
struct TableCase {
    text: &'static [u8],
    options: GridOptions,
    grid: Grid,
    points: &'static [[i32; 3]],
    is_added: bool,
    first: u32,
    written: &'static [u8],
}

static TABLES: [TableCase; 2] = [
    TableCase {
        text: DECIMALS,
        options: PLAIN,
        grid: Grid {
            decimals: 2,
            halvings: 12,
        },
        points: &[
            [204_800, 0, 0],
            [-512_000, 0, 0],
            [0, 1_228_800, 0],
            [0, 0, 204_800],
        ],
        is_added: true,
        first: 0,
        written: b"5 3 1 1\n0 0.5 0 0 7e2 5\n1 -1.25 0 0 a 0\n2 0 3 0 b 0\n3 0 0 0.5 c -1\n\
                   4 0.00000244140625 -20.48 0.01 0 0\n",
    },
    TableCase {
        text: THIRD,
        options: THOUSANDTHS,
        grid: Grid {
            decimals: 3,
            halvings: 12,
        },
        points: &[
            [0, 0, 0],
            [4_096_000, 0, 0],
            [0, 4_096_000, 0],
            [0, 0, 1_363_968],
        ],
        is_added: false,
        first: 1,
        written: b"4 3 0 0\n1 0 0 0\n2 1 0 0\n3 0 1 0\n4 0 0 0.333\n",
    },
];

/// The added point, if it is added.
fn added_points(alloc: Global, is_added: bool) -> Result<Points, NoMemory>
    ensures { IfOk result (λ points. length points ≤ 1) }
{
    let mut points = Points::new(alloc);
    if is_added {
        points.push(ADDED)?;
    }
    Ok(points)
}

fn are_grid_points(points: &[GridPoint], wanted: &[[i32; 3]]) -> bool {
    let mut are = points.len() == wanted.len();
    for (p, at) in points.iter().zip(wanted) {
        are &= [p.x, p.y, p.z] == *at;
    }
    are
}

/// Whether a list with these points added is written as the text of the case.
fn is_written(alloc: Global, table: &NodeTable, added: &Points, case: &TableCase) -> bool
    requires table { IsNodeTable table.now }
    requires few { length table.now.listed ≤ tetgen_limits.points }
    requires added { length added.now ≤ 1 }
{
    match write_node(alloc, table, added, case.first) {
        Ok(text) => text.as_slice() == case.written,
        Err(NoMemory) => false,
    }
}

/// Whether a list has the grid and the points of the case, and is written as its text.
fn is_table(alloc: Global, table: &NodeTable, case: &TableCase) -> bool
    requires table { IsNodeTable table.now }
    requires few { length table.now.listed ≤ tetgen_limits.points }
{
    match added_points(alloc, case.is_added) {
        Ok(added) => table.grid == case.grid
            && are_grid_points(table.points.as_slice(), case.points)
            && is_written(alloc, table, &added, case),
        Err(NoMemory) => false,
    }
}

/// As `is_table`, for the list of the case's text.
fn has_table(alloc: Global, case: &TableCase) -> bool {
    match settled(alloc, case.text, case.options) {
        Ok(table) => is_table(alloc, &table, case),
        Err(_) => false,
    }
}

#[test]
fn lists_are_written(rt: HostRuntime) {
    for case in &TABLES {
        assert!(rt; has_table(rt.alloc(), case), "{:?}", case.text);
    }
}

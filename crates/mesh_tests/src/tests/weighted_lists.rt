//! Point lists with weights, from their text to the regular mesh.
ghost use Rattle.std.specs.Prelude.{◌≡◌, ◌≤◌, length, IfOk};
ghost use Rattle.node_files.specs.Node.{IsNodeText};
ghost use Rattle.node_files.specs.Limits.{tetgen_limits};
ghost use Rattle.node_files.specs.Writing.{IsNodeTable};

use crate::tests::small_sets::are_rows;
use node_files::{GridOptions, Limits, NodeFault, NodeTable, NodeText, read_node, settle};
use std::alloc::Global;
use tet_ports::Bytes;
use tet_text::{TextFault, TextKind};
use weighted_mesh::{RegularFault, RegularMesh, regular_mesh};

/// The point list of a text.
fn read(alloc: Global, text: &[u8]) -> Result<NodeText, NodeFault>
    ensures { IfOk result IsNodeText }
{
    let bytes = Bytes::from_slice(alloc, text)?;
    if bytes.len() > 1000 {
        return Err(NodeFault::NoMemory);
    }
    read_node(alloc, &bytes)
}

const OPTIONS: GridOptions = GridOptions {
    decimals: None,
    halvings: 12,
};

/// The point list of a text, on its grid.
fn table(alloc: Global, text: &[u8]) -> Result<NodeTable, NodeFault>
    ensures table { IfOk result IsNodeTable }
    ensures few { IfOk result (λ table. length table.listed ≤ tetgen_limits.points) }
{
    settle(alloc, Limits::tetgen(), read(alloc, text)?, &OPTIONS)
}

/// The regular mesh of the point list of a text.
fn mesh(alloc: Global, text: &[u8]) -> Option<Result<RegularMesh, RegularFault>> {
    match table(alloc, text) {
        Ok(table) if table.decimals.len() == table.listed.len() => {
            Some(regular_mesh(alloc, &table))
        }
        _ => None,
    }
}

/// Whether the text has a regular mesh with the rows `want` that hides `hidden` points.
fn has_mesh(alloc: Global, text: &[u8], want: &[[u32; 4]], hidden: usize) -> bool {
    match mesh(alloc, text) {
        Some(Ok(made)) => are_rows(&made.rows, want) && made.hidden == hidden,
        _ => false,
    }
}

const TIED: [[u32; 4]; 4] = [[0, 1, 2, 4], [0, 1, 4, 3], [0, 2, 3, 4], [1, 2, 4, 3]];

/// The row of the first four points.
const FIRST: [[u32; 4]; 1] = [[0, 1, 2, 3]];

/// Whether the fifth point is hidden by the others as it is said, or is a corner of each row.
fn is_meshed(alloc: Global, text: &[u8], is_hidden: bool) -> bool {
    if is_hidden {
        has_mesh(alloc, text, &FIRST, 1)
    } else {
        has_mesh(alloc, text, &TIED, 0)
    }
}

/// Point lists, and whether the fifth point is hidden.
static CASES: [(&str, &[u8], bool); 9] = [
    (
        "hidden",
        b"5 3 1\n0 0 0 0 0\n1 4 0 0 0\n2 0 4 0 0\n3 0 0 4 0\n4 1 1 1 -10\n",
        true,
    ),
    (
        "tie",
        b"5 3 1\n0 0 0 0 0\n1 4 0 0 0\n2 0 4 0 0\n3 0 0 4 0\n4 1 1 1 -9\n",
        false,
    ),
    (
        "away from zero",
        b"5 3 1\n0 0 0 0 0\n1 4 0 0 0\n2 0 4 0 0\n3 0 0 4 0\n4 1 1 1 -9.5\n",
        true,
    ),
    (
        "to the nearest",
        b"5 3 1\n0 0 0 0 0\n1 4 0 0 0\n2 0 4 0 0\n3 0 0 4 0\n4 1 1 1 -9.49\n",
        false,
    ),
    (
        "twice the decimals",
        b"5 3 1\n0 0 0 0 0\n1 4 0 0 0\n2 0 4 0 0\n3 0 0 4 0\n4 1 1 1.5 -9.75\n",
        false,
    ),
    (
        "no more of them",
        b"5 3 1\n0 0 0 0 0\n1 4 0 0 0\n2 0 4 0 0\n3 0 0 4 0\n4 1 1 1.5 -9.755\n",
        true,
    ),
    (
        "no weights",
        b"5 3 0\n0 0 0 0\n1 4 0 0\n2 0 4 0\n3 0 0 4\n4 1 1 1\n",
        false,
    ),
    (
        "further attributes",
        b"5 3 2\n0 0 0 0 0 x\n1 4 0 0 0 x\n2 0 4 0 0 x\n3 0 0 4 0 x\n4 1 1 1 -10 x\n",
        true,
    ),
    (
        "the kept point's weight",
        b"6 3 1\n0 0 0 0 0\n1 0 0 0 -100\n2 4 0 0 0\n3 0 4 0 0\n4 0 0 4 0\n5 1 1 1 -10\n",
        true,
    ),
];

#[test]
fn meshes_of_texts(rt: HostRuntime) {
    for (name, text, is_hidden) in &CASES {
        assert!(rt; is_meshed(rt.alloc(), text, *is_hidden), "{name}");
    }
}

/// Why a point list has no mesh.
#[derive(Clone, Copy, PartialEq, Eq)]
enum Refusal {
    /// The first attribute on this line is no decimal.
    Word(usize),
    /// The weight on this line is off the grid.
    Heavy(usize),
    Flat,
}

/// Why the text has no mesh; `None` where it has one.
fn why_not(alloc: Global, text: &[u8]) -> Option<Refusal> {
    match mesh(alloc, text)?.err()? {
        RegularFault::Text(TextFault { line, kind }) if kind == TextKind::NotANumber => {
            Some(Refusal::Word(line))
        }
        RegularFault::TooHeavy { line } => Some(Refusal::Heavy(line)),
        RegularFault::Flat => Some(Refusal::Flat),
        _ => None,
    }
}

/// Point lists, and why they have no mesh.
static REFUSALS: [(&str, &[u8], Refusal); 4] = [
    (
        "a word",
        b"5 3 1\n0 0 0 0 0\n1 4 0 0 x\n2 0 4 0 y\n3 0 0 4 0\n4 1 1 1 9e30\n",
        Refusal::Word(3),
    ),
    (
        "off the grid",
        b"4 3 1\n0 0 0 0 4194304\n1 4 0 0 -4194305\n2 0 4 0 x\n3 0 0 4 0\n",
        Refusal::Heavy(3),
    ),
    (
        "points of a plane",
        b"4 3 1\n0 0 0 0 4194304\n1 4 0 0 0\n2 0 4 0 0\n3 1 1 0 -4194304\n",
        Refusal::Flat,
    ),
    (
        "a word of a folded point",
        b"5 3 1\n0 0 0 0 0\n1 4 0 0 0\n2 0 4 0 0\n3 0 0 4 0\n4 0 0 0 x\n",
        Refusal::Word(6),
    ),
];

#[test]
fn bad_weights(rt: HostRuntime) {
    for (name, text, want) in &REFUSALS {
        assert!(rt; why_not(rt.alloc(), text) == Some(*want), "{name}");
    }
}

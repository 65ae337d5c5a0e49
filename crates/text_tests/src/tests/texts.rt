//! The readers of a mesh's files.

ghost use Rattle.std.specs.Prelude.{◌<◌, ◌≤◌, ◌-◌, ◌^◌, IfSome, length};

use geo_laws::Points;
use mesh_files::{MeshFault, read_ele, read_face, read_neigh};
use node_files::{read_node, settle_least};
use std::alloc::Global;
use tet_ports::Bytes;
use tet_text::TextKind::{BadCount, BadIndex, Ended, Extra, NotANumber};
use tet_text::{TextFault, TextKind};

/// The bytes of a short text.
pub(crate) fn bytes_of(alloc: Global, text: &[u8]) -> Option<Bytes>
    ensures { IfSome result (λ bytes. length bytes < 2 ^ 32 - 1) }
{
    if text.len() > 10_000 {
        return None;
    }
    Bytes::from_slice(alloc, text).ok()
}

/// The points of a text on their least grid.
pub(crate) fn points_of(alloc: Global, text: &[u8]) -> Option<Points>
    ensures { IfSome result (λ points. length points ≤ 120000) }
{
    let nodes = read_node(alloc, &bytes_of(alloc, text)?).ok()?;
    settle_least(alloc, &nodes.decimals, None, 120_000, 8_388_608).ok()
}

/// The three files that are read here.
#[derive(Clone, Copy)]
enum Kind {
    Ele,
    Face,
    Neigh,
}

use Kind::{Ele, Face, Neigh};

/// The fault of a file that is numbered from 1, with four points.
fn fault_of(alloc: Global, kind: Kind, text: &[u8]) -> Option<MeshFault> {
    let bytes = bytes_of(alloc, text)?;
    match kind {
        Ele => read_ele(alloc, &bytes, 1, 4).err(),
        Face => read_face(alloc, &bytes, 1, 4).err(),
        Neigh => read_neigh(alloc, &bytes, 1).err(),
    }
}

/// Texts, and the line and the kind of their faults.
static FAULTS: [(Kind, &[u8], usize, TextKind); 18] = [
    (Ele, b"", 1, Ended),
    (Ele, b"1\n1 1 2 3 4\n", 1, Ended),
    (Ele, b"1 5 0\n", 1, BadCount),
    (Ele, b"1 4 2\n", 1, BadCount),
    (Ele, b"1 4 0\n0 1 2 3 4\n", 2, BadIndex),
    (Ele, b"1 4 0\n1 1 2 3 5\n", 2, BadIndex),
    (Ele, b"1 4 0\n1 0 x 3 5\n", 2, BadIndex),
    (Ele, b"1 4 0\n1 1 2 -3 4\n", 2, NotANumber),
    (Ele, b"1 4 1\n1 1 2 3 4\n", 2, Ended),
    (Ele, b"1 4 0\n1 1 2 3 4 0\n", 2, Extra),
    (Ele, b"1 4\n1 1 2 3 4\n2 1 2 3 4\n", 3, Extra),
    (Face, b"1 1\n1 1 2 3\n", 2, Ended),
    (Face, b"1 0\n1 1 2 3 1\n", 2, Extra),
    (Face, b"1 1 0\n1 1 2 3 1\n", 1, Extra),
    (Neigh, b"1 4\n1 2 0 1 1\n", 2, BadIndex),
    (Neigh, b"1 4\n1 2 -2 1 1\n", 2, BadIndex),
    (Neigh, b"1 4 0\n1 2 -1 1 1\n", 1, Extra),
    (Neigh, b"1 4\n", 2, Ended),
];

/// Whether the text has this fault.
fn has_fault(alloc: Global, kind: Kind, text: &[u8], line: usize, fault: TextKind) -> bool {
    let want = MeshFault::Text(TextFault { line, kind: fault });
    fault_of(alloc, kind, text) == Some(want)
}

#[test]
fn first_faults(rt: HostRuntime) {
    for (i, (kind, text, line, fault)) in FAULTS.iter().enumerate() {
        assert!(rt;
            has_fault(rt.alloc(), *kind, text, *line, *fault),
            "text {i}"
        );
    }
}

/// How many rows a text has, and the first corner of the last one.
fn rows(alloc: Global, text: &[u8]) -> Option<(usize, Option<u32>)> {
    let rows = read_ele(alloc, &bytes_of(alloc, text)?, 1, 4).ok()?;
    Some((rows.len(), rows.as_slice().last().map(|row| row.a)))
}

/// How many faces a text has, and the first corner and the marker of the first one.
fn faces(alloc: Global, text: &[u8]) -> Option<(usize, Option<(u32, i64)>)> {
    let faces = read_face(alloc, &bytes_of(alloc, text)?, 1, 4).ok()?;
    let first = faces.as_slice().first().map(|face| (face.a, face.marker));
    Some((faces.len(), first))
}

/// How many rows of neighbors a text has, and the first one.
fn neighbors(alloc: Global, text: &[u8]) -> Option<(usize, Option<[Option<usize>; 4]>)> {
    let rows = read_neigh(alloc, &bytes_of(alloc, text)?, 1).ok()?;
    let first = rows.as_slice().first();
    Some((
        rows.len(),
        first.map(|row| [row.n0, row.n1, row.n2, row.n3]),
    ))
}

const ROWS: &[u8] = b"# rows\n2 4 1\n\n1 1 2 3 4 a#b\n2\t4 3 2 1 0\r\n";

const NEIGHBORS: [Option<usize>; 4] = [Some(1), None, Some(6), Some(0)];

#[test]
fn rows_are_read(rt: HostRuntime) {
    let alloc = rt.alloc();
    assert!(rt; rows(alloc, ROWS) == Some((2, Some(3))));
    assert!(rt; rows(alloc, b"0 4\n") == Some((0, None)));
    assert!(rt; faces(alloc, b"2 1\n1 4 2 3 -7\n2 1 2 3 +5\n") == Some((2, Some((3, -7)))));
    assert!(rt; faces(alloc, b"1\n1 1 2 3\n") == Some((1, Some((0, 0)))));
    assert!(rt; neighbors(alloc, b"1 4\n1 2 -1 7 1\n") == Some((1, Some(NEIGHBORS))));
}

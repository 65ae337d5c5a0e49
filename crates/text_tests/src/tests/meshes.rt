//! The check of a mesh by the texts of its files.

ghost use Rattle.std.specs.Prelude.{◌≤◌, length, All, IfSome};
ghost use Rattle.geo_laws.specs.Delaunay.{IsOn};

use crate::tests::texts::{bytes_of, points_of};
use geo_laws::{Points, TetList};
use mesh_check::{Defect, Verdict, check_mesh};
use mesh_files::{FaceRows, Neighbors, read_ele, read_face, read_neigh};
use std::alloc::Global;

const PYRAMID: &[u8] = b"5 3 0 0\n0 0 0 0\n1 2 0 0\n2 2 2 0\n3 0 2 0\n4 1 1 2\n";

const ROWS: &[u8] = b"2 4 0\n0 0 1 3 4\n1 1 2 3 4\n";

const FACES: &[u8] = b"6 1\n0 0 1 3 1\n1 0 1 4 1\n2 0 3 4 1\n3 1 2 3 1\n4 1 2 4 1\n5 2 3 4 1\n";

const NEIGHBORS: &[u8] = b"2 4\n0 1 -1 -1 -1\n1 -1 0 -1 -1\n";

/// Five points: two rows on the face 0 1 2, and the further corner of the second is strictly inside
/// the sphere round the first.
const KITE: &[u8] = b"5 3 0 0\n0 9 0 0\n1 -9 9 0\n2 -9 -9 0\n3 0 0 1\n4 0 0 -1\n";

/// The files of a mesh, numbered from 0, and what the check finds.
#[derive(Clone, Copy)]
struct Case {
    node: &'static [u8],
    ele: &'static [u8],
    face: &'static [u8],
    neigh: Option<&'static [u8]>,
    verdict: Verdict,
}

/// The pyramid with its files.
const SOUND: Case = Case {
    node: PYRAMID,
    ele: ROWS,
    face: FACES,
    neigh: Some(NEIGHBORS),
    verdict: Verdict::Sound,
};

/// The kite with its files.
const FLAT_KITE: Case = Case {
    node: KITE,
    ele: b"2 4 0\n0 0 1 2 3\n1 0 2 1 4\n",
    face: b"6 0\n0 0 1 3\n1 1 2 3\n2 0 2 3\n3 0 1 4\n4 1 2 4\n5 2 0 4\n",
    neigh: None,
    verdict: Verdict::Fault(Defect::Bent { one: 0, two: 1 }),
};

static CASES: [Case; 12] = [
    SOUND,
    Case {
        neigh: None,
        ..SOUND
    },
    // No row.
    Case {
        ele: b"0 4\n",
        face: b"0 0\n",
        neigh: None,
        ..SOUND
    },
    // A row that is not positive, and one on the side of another.
    Case {
        ele: b"2 4 0\n0 0 1 3 4\n1 2 1 3 4\n",
        verdict: Verdict::Fault(Defect::NotPositive { row: 1 }),
        ..SOUND
    },
    Case {
        ele: b"3 4 0\n0 0 1 3 4\n1 1 2 3 4\n2 0 1 2 4\n",
        neigh: None,
        verdict: Verdict::Fault(Defect::SameSide { one: 0, two: 2 }),
        ..SOUND
    },
    // Too few neighbors, one that is no row, and one that is missing.
    Case {
        neigh: Some(b"1 4\n0 1 -1 -1 -1\n"),
        verdict: Verdict::Fault(Defect::NeighborCount),
        ..SOUND
    },
    Case {
        neigh: Some(b"2 4\n0 1 -1 -1 -1\n1 -1 0 -1 7\n"),
        verdict: Verdict::Fault(Defect::WrongNeighbor { row: 1, corner: 3 }),
        ..SOUND
    },
    Case {
        neigh: Some(b"2 4\n0 -1 -1 -1 -1\n1 -1 0 -1 -1\n"),
        verdict: Verdict::Fault(Defect::WrongNeighbor { row: 0, corner: 0 }),
        ..SOUND
    },
    // A face that no row has, and one that is not listed.
    Case {
        face: b"7 1\n0 0 1 3 1\n1 0 1 4 1\n2 0 3 4 1\n3 1 2 3 1\n4 1 2 4 1\n5 2 3 4 1\n6 4 2 0 1\n",
        verdict: Verdict::Fault(Defect::Stray { face: 6 }),
        ..SOUND
    },
    Case {
        face: b"5 1\n0 0 1 3 1\n1 0 1 4 1\n2 0 3 4 1\n3 1 2 3 1\n4 1 2 4 1\n",
        verdict: Verdict::Fault(Defect::Unlisted { row: 1, corner: 0 }),
        ..SOUND
    },
    // Rows that are bent, also where their common face is listed.
    FLAT_KITE,
    Case {
        face: b"7 0\n0 0 1 3\n1 1 2 3\n2 0 2 3\n3 0 1 4\n4 1 2 4\n5 2 0 4\n6 2 1 0\n",
        verdict: Verdict::Sound,
        ..FLAT_KITE
    },
];

/// The rows of a text whose corners are among these points.
fn rows_of(alloc: Global, points: &Points, text: &[u8]) -> Option<TetList>
    requires { length points.now ≤ 120000 }
    ensures { IfSome result (All (IsOn points.now)) }
{
    read_ele(alloc, &bytes_of(alloc, text)?, 0, points.len() as u64).ok()
}

/// The rows of a text of faces, whose corners are among `count` points.
fn faces_of(alloc: Global, count: usize, text: &[u8]) -> Option<FaceRows>
    requires { count ≤ 120000 }
{
    read_face(alloc, &bytes_of(alloc, text)?, 0, count as u64).ok()
}

/// The neighbors of a text.
fn neighbors_of(alloc: Global, text: &[u8]) -> Option<Neighbors> {
    read_neigh(alloc, &bytes_of(alloc, text)?, 0).ok()
}

/// What the check of rows on these points finds, with the other files of a case.
fn verdict_of(alloc: Global, points: &Points, list: &TetList, case: &Case) -> Option<Verdict>
    requires few { length points.now ≤ 120000 }
    requires rows { All (IsOn points.now) list.now }
{
    let faces = faces_of(alloc, points.len(), case.face)?;
    let Some(neigh) = case.neigh else {
        return check_mesh(alloc, points, list, &faces, None).ok();
    };
    let neighbors = neighbors_of(alloc, neigh)?;
    check_mesh(alloc, points, list, &faces, Some(&neighbors)).ok()
}

/// What the check of the mesh in these files finds.
fn verdict(alloc: Global, case: &Case) -> Option<Verdict> {
    let points = points_of(alloc, case.node)?;
    let list = rows_of(alloc, &points, case.ele)?;
    verdict_of(alloc, &points, &list, case)
}

/// Whether the check has the verdict of the case.
fn is_found(alloc: Global, case: &Case) -> bool {
    verdict(alloc, case) == Some(case.verdict)
}

#[test]
fn meshes_are_checked(rt: HostRuntime) {
    for (i, case) in CASES.iter().enumerate() {
        assert!(rt; is_found(rt.alloc(), case), "case {i}");
    }
}

//! The check of meshes that stand far from zero, over a folder in memory.

use mesh_check::{CheckFault, Defect, check_far_files};
use std::alloc::Global;
use std::test::Fail;
use tet_ports::{Bytes, MemFolder, Name, NoMemory};

/// One tetrahedron whose corners are on a grid of 6400 parts of the unit, far from zero.
const FAR: &[u8] = b"4 3 0 0\n\
    0 432100.25390625 5412300.75 -295.78\n\
    1 432101.25390625 5412300.75 -295.78\n\
    2 432100.25390625 5412301.75 -295.78\n\
    3 432100.25390625 5412300.75 -294.78\n";

/// Its third point is 2^30 units and more from the first.
const WIDE: &[u8] = b"4 3 0 0\n\
    0 432100.25390625 5412300.75 -295.78\n\
    1 432101.25390625 5412300.75 -295.78\n\
    2 432100.25390625 5580500.75 -295.78\n\
    3 432100.25390625 5412300.75 -294.78\n";

/// Its second point has 36 decimals, and over 36 digits less the middle, which is 5.
const LONG: &[u8] = b"4 3 0 0\n0 10 0 0\n1 1e-36 0 0\n2 5 9 0\n3 5 1 9\n";

const ROW: &[u8] = b"1 4 0\n0 0 1 2 3\n";

/// What the check of a mesh of one tetrahedron finds: the number of its tetrahedra, the line of a
/// point off the grid, or the row that is not positive.
#[derive(Clone, Copy, PartialEq)]
enum Found {
    Sound(usize),
    OffGrid(usize),
    NotPositive(usize),
    Other,
}

/// Meshes of four points and one row, and what is found.
static CASES: [(&[u8], &[u8], Found); 4] = [
    (FAR, ROW, Found::Sound(1)),
    (FAR, b"1 4 0\n0 0 2 1 3\n", Found::NotPositive(0)),
    (WIDE, ROW, Found::OffGrid(2)),
    (LONG, ROW, Found::OffGrid(3)),
];

fn put(alloc: Global, folder: &mut MemFolder, name: &[u8], text: &[u8]) -> Result<(), NoMemory> {
    let name = Name::from_slice(alloc, name)?;
    let text = Bytes::from_slice(alloc, text)?;
    folder.add(&name, &text)
}

const FACES: &[u8] = b"4 0\n0 0 1 2\n1 0 1 3\n2 0 2 3\n3 1 2 3\n";

/// A folder with the files of a mesh of one tetrahedron.
fn folder_of(alloc: Global, node: &[u8], ele: &[u8]) -> Result<MemFolder, NoMemory> {
    let mut folder = MemFolder::new(alloc);
    put(alloc, &mut folder, b"t.node", node)?;
    put(alloc, &mut folder, b"t.ele", ele)?;
    put(alloc, &mut folder, b"t.face", FACES)?;
    Ok(folder)
}

fn checked(alloc: Global, folder: &mut MemFolder, base: &Name) -> Found {
    match check_far_files(alloc, base, folder) {
        Ok(count) => Found::Sound(count),
        Err(CheckFault::OffGrid { line }) => Found::OffGrid(line),
        Err(
            CheckFault::Unsound {
                defect: Defect::NotPositive { row },
                first: _,
            },
        ) => Found::NotPositive(row),
        Err(_) => Found::Other,
    }
}

/// What the check of the mesh in a folder finds.
fn finding(alloc: Global, folder: &mut MemFolder) -> Result<Found, NoMemory> {
    let base = Name::from_slice(alloc, b"t")?;
    Ok(checked(alloc, folder, &base))
}

#[test]
fn far_meshes_are_checked(rt: HostRuntime) -> Result<(), Fail> {
    for (i, (node, ele, want)) in CASES.iter().enumerate() {
        let mut folder = folder_of(rt.alloc(), node, ele)?;
        assert!(rt; finding(rt.alloc(), &mut folder) == Ok(*want), "mesh {i}");
    }
    Ok(())
}

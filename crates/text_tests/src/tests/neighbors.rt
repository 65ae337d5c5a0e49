//! Pairs of small meshes.
use crate::tests::tet_lists::{CUBE, PYRAMID, Row, SMALLEST, list_of};
use incidence::{Across, pair_faces};
use std::alloc::Global;
use std::test::Fail;
use tet_ports::NoMemory;

/// One face in four rows, corners in any order.
const FAN: [Row; 4] = [
    ([9, 8, 7, 1], &[None, None, None, Some(1)]),
    ([2, 7, 8, 9], &[Some(0), None, None, None]),
    ([8, 3, 9, 7], &[None, Some(0), None, None]),
    ([7, 9, 4, 8], &[None, None, Some(0), None]),
];

/// Rows with repeated corners.
const REPEATED: [Row; 3] = [
    ([5, 5, 5, 6], &[Some(2), Some(2), Some(2), Some(2)]),
    ([5, 6, 6, 6], &[None, None, None, None]),
    ([6, 5, 5, 5], &[Some(0), Some(0), Some(0), Some(0)]),
];

/// Whether the wanted rows are across the faces of a row, in the order of its corners.
fn are_across(across: Across, want: &[Option<usize>; 4]) -> bool {
    [across.n0, across.n1, across.n2, across.n3] == *want
}

/// The place of the first row with another row across a face than is wanted; None where each has
/// what is wanted.
fn first_wrong(alloc: Global, rows: &[Row]) -> Result<Option<usize>, NoMemory> {
    let list = list_of(alloc, rows)?;
    let pairs = pair_faces(alloc, &list)?;
    if pairs.len() != rows.len() {
        return Ok(Some(rows.len()));
    }
    for i in 0..rows.len() {
        if !are_across(pairs.at(i), rows[i].1) {
            return Ok(Some(i));
        }
    }
    Ok(None)
}

/// Small meshes by their names.
static MESHES: [(&str, &[Row]); 6] = [
    ("none", &[]),
    ("smallest", &SMALLEST),
    ("pyramid", &PYRAMID),
    ("cube", &CUBE),
    ("fan", &FAN),
    ("repeated", &REPEATED),
];

#[test]
fn rows_have_the_least_other_row_with_the_face(rt: HostRuntime) -> Result<(), Fail> {
    for (name, rows) in &MESHES {
        assert!(rt; first_wrong(rt.alloc(), rows)?.is_none(), "{name}");
    }
    Ok(())
}

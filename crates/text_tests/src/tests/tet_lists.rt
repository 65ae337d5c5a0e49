//! Small meshes by the corners of their rows, with what is across each face, drawn by hand.
use geo_laws::{Tet, TetList};
use std::alloc::Global;
use tet_ports::NoMemory;

/// A row, and what is across its faces.
pub(crate) type Row = ([u32; 4], &'static [Option<usize>; 4]);

pub(crate) const SMALLEST: [Row; 1] = [([0, 1, 2, 3], &[None; 4])];

pub(crate) const PYRAMID: [Row; 2] = [
    ([0, 1, 3, 4], &[Some(1), None, None, None]),
    ([1, 2, 3, 4], &[None, Some(0), None, None]),
];

pub(crate) const CUBE: [Row; 6] = [
    ([0, 1, 3, 4], &[Some(2), None, None, None]),
    ([1, 2, 3, 5], &[Some(3), Some(2), None, None]),
    ([1, 3, 4, 5], &[Some(4), None, Some(1), Some(0)]),
    ([2, 3, 5, 6], &[Some(5), None, None, Some(1)]),
    ([3, 4, 5, 7], &[None, Some(5), None, Some(2)]),
    ([3, 5, 6, 7], &[None, None, Some(4), Some(3)]),
];

fn tet([a, b, c, d]: [u32; 4]) -> Tet {
    Tet { a, b, c, d }
}

/// The list of these rows.
pub(crate) fn list_of(alloc: Global, rows: &[Row]) -> Result<TetList, NoMemory> {
    let mut list = TetList::new(alloc);
    for (corners, _) in rows {
        list.push(tet(*corners))?;
    }
    Ok(list)
}

//! The least grid of points.

use crate::tests::texts::bytes_of;
use grid_coords::Range;
use node_files::{GridFault, NodeText, least_grid, read_node, settle_least};
use sign_predicates::GridPoint;
use std::alloc::Global;

/// The decimals and the halvings of the least grid of a text's points, or the first line off it.
fn grid_of(alloc: Global, text: &[u8]) -> Option<Result<(u32, u32), usize>> {
    let nodes = read_node(alloc, &bytes_of(alloc, text)?).ok()?;
    match least_grid(&nodes.decimals, 8_388_608) {
        Ok(grid) => Some(Ok((grid.decimals, grid.halvings))),
        Err(Range { line }) => Some(Err(line)),
    }
}

/// Points, and the decimals and the halvings of their least grid, or the first line off every grid.
static GRIDS: [(&[u8], Result<(u32, u32), usize>); 8] = [
    (b"1 3\n0 2 0 -4\n", Ok((0, 0))),
    (b"1 3\n0 .5 0 0\n", Ok((0, 1))),
    (b"1 3\n0 .2 0 0\n", Ok((1, 0))),
    (b"2 3\n0 .2 0 0\n1 0 .125 0\n", Ok((1, 2))),
    (b"1 3\n0 1e-30 0 0\n", Ok((30, 0))),
    (b"1 3\n0 8388608 0 -8388608\n", Ok((0, 0))),
    (b"2 3\n0 8388608 0 0\n1 0 0 .5\n", Err(2)),
    (b"2 3\n0 0 0 0\n1 0 -8388609 0\n", Err(3)),
];

#[test]
fn grids_of_points(rt: HostRuntime) {
    for (text, want) in &GRIDS {
        assert!(rt; grid_of(rt.alloc(), text) == Some(*want));
    }
}

const TWO: &[u8] = b"2 3\n0 .5 -.2 3\n1 0.126 0 0\n";

const SETTLED: [GridPoint; 2] = [
    GridPoint { x: 5, y: -2, z: 30 },
    GridPoint { x: 1, y: 0, z: 0 },
];

/// Whether the two points are these in tenths.
fn are_settled(alloc: Global, nodes: &NodeText) -> bool {
    match settle_least(alloc, &nodes.decimals, Some(1), 2, 8_388_608) {
        Ok(points) => points.as_slice() == SETTLED.as_slice(),
        Err(_) => false,
    }
}

/// Whether the two points are refused where one is allowed.
fn are_refused(alloc: Global, nodes: &NodeText) -> bool {
    let fault = settle_least(alloc, &nodes.decimals, None, 1, 8_388_608).err();
    fault == Some(GridFault::TooMany { count: 2 })
}

/// Whether the two points settle, and are refused where one is allowed.
fn are_two(alloc: Global) -> Option<(bool, bool)> {
    let nodes = read_node(alloc, &bytes_of(alloc, TWO)?).ok()?;
    Some((are_settled(alloc, &nodes), are_refused(alloc, &nodes)))
}

#[test]
fn points_on_their_grid(rt: HostRuntime) {
    assert!(rt; are_two(rt.alloc()) == Some((true, true)));
}

//! An example of the library: the Delaunay tetrahedra of an array of points.
#![tactic(auto)]

use array_meshes::{Place, delaunay_rows};
use std::io;

/// A square and a point above it.
static POINTS: [Place; 5] = [
    Place { x: 0, y: 0, z: 0 },
    Place { x: 2, y: 0, z: 0 },
    Place { x: 2, y: 2, z: 0 },
    Place { x: 0, y: 2, z: 0 },
    Place { x: 1, y: 1, z: 2 },
];

fn main(rt: HostRuntime) -> io::Result<()> {
    match delaunay_rows(rt.alloc(), &POINTS) {
        Ok(rows) => {
            for row in rows.as_slice() {
                println!(rt; "{} {} {} {}", row.a, row.b, row.c, row.d)?;
            }
            Ok(())
        }
        Err(fault) => println!(rt; "refused: {fault:?}"),
    }
}

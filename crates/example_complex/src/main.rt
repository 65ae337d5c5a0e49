//! An example of the library: the mesh of a complex of arrays, two boxes with a common wall.
#![tactic(auto)]

ghost use Rattle.std.specs.Prelude.{◌<◌};

use array_meshes::{ArrayComplex, ArrayMesh, ArrayOptions, Facet, Place, Polygon, mesh_arrays};
use std::io;

/// Three squares, one behind the other.
static POINTS: [Place; 12] = [
    Place { x: 0, y: 0, z: 0 },
    Place { x: 0, y: 2, z: 0 },
    Place { x: 0, y: 2, z: 2 },
    Place { x: 0, y: 0, z: 2 },
    Place { x: 2, y: 0, z: 0 },
    Place { x: 2, y: 2, z: 0 },
    Place { x: 2, y: 2, z: 2 },
    Place { x: 2, y: 0, z: 2 },
    Place { x: 4, y: 0, z: 0 },
    Place { x: 4, y: 2, z: 0 },
    Place { x: 4, y: 2, z: 2 },
    Place { x: 4, y: 0, z: 2 },
];

/// The corners of the facets, four of each: of the three squares, then of the sides of each box.
static CORNERS: [u32; 44] = [
    0, 1, 2, 3, 4, 5, 6, 7, 8, 9, 10, 11, 0, 1, 5, 4, 1, 2, 6, 5, 2, 3, 7, 6, 3, 0, 4, 7, 4, 5, 9,
    8, 5, 6, 10, 9, 6, 7, 11, 10, 7, 4, 8, 11,
];

/// A point in each box.
static REGIONS: [Place; 2] = [Place { x: 1, y: 1, z: 1 }, Place { x: 3, y: 1, z: 1 }];

static OPTIONS: ArrayOptions = ArrayOptions {
    halvings: 12,
    budget: 100,
    keep_hull: false,
    keep_facets: false,
    regions: true,
};

/// The polygon with the four corners from `first` on.
fn square(first: usize) -> Polygon
    requires { first < 1000 }
{
    Polygon {
        first,
        past: first + 4,
    }
}

/// The facet of one polygon, with its place as its marker.
fn facet_of(polygon: usize) -> Facet
    requires { polygon < 1000 }
{
    Facet {
        first: polygon,
        past: polygon + 1,
        marker: polygon as i64,
        first_hole: 0,
        past_hole: 0,
    }
}

/// Prints the tetrahedra, each with its region, and the faces, each with its marker.
fn print(rt: &HostRuntime, mesh: &ArrayMesh) -> io::Result<()> {
    for cell in mesh.cells.as_slice() {
        println!(rt;
            "{} {} {} {} region {}",
            cell.a, cell.b, cell.c, cell.d, cell.region
        )?;
    }
    for face in mesh.faces.as_slice() {
        println!(rt; "{} {} {} marker {}", face.a, face.b, face.c, face.marker)?;
    }
    Ok(())
}

fn main(rt: HostRuntime) -> io::Result<()> {
    let mut polygons = [square(0); 11];
    let mut facets = [facet_of(0); 11];
    for i in 0..11 {
        polygons[i] = square(4 * i);
        facets[i] = facet_of(i);
    }
    let complex = ArrayComplex {
        points: &POINTS,
        corners: &CORNERS,
        polygons: &polygons,
        facets: &facets,
        facet_holes: &[],
        holes: &[],
        regions: &REGIONS,
        options: OPTIONS,
    };
    match mesh_arrays(rt.alloc(), &complex) {
        Ok(mesh) => print(&rt, &mesh),
        Err(fault) => println!(rt; "refused: {fault:?}"),
    }
}

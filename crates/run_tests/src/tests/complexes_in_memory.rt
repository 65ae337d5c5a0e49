//! Meshes of complexes whose parts are arrays.

use array_meshes::{
    ArrayComplex, ArrayOptions, Cell, ComplexFault, Counts, Facet, MarkedFace, Place, Polygon,
    mesh_arrays, mesh_into,
};
use std::alloc::Global;
use std::test::Fail;

/// The corners of a tetrahedron, the last one twice.
static POINTS: [Place; 5] = [
    Place { x: 0, y: 0, z: 0 },
    Place { x: 4, y: 0, z: 0 },
    Place { x: 0, y: 4, z: 0 },
    Place { x: 0, y: 0, z: 4 },
    Place { x: 0, y: 0, z: 4 },
];

static CORNERS: [u32; 12] = [1, 2, 3, 0, 2, 4, 0, 1, 2, 0, 1, 4];

static POLYGONS: [Polygon; 4] = [
    Polygon { first: 0, past: 3 },
    Polygon { first: 3, past: 6 },
    Polygon { first: 6, past: 9 },
    Polygon { first: 9, past: 12 },
];

static FACETS: [Facet; 4] = [
    Facet {
        first: 0,
        past: 1,
        marker: 7,
        first_hole: 0,
        past_hole: 0,
    },
    Facet {
        first: 1,
        past: 2,
        marker: -8,
        first_hole: 0,
        past_hole: 0,
    },
    Facet {
        first: 2,
        past: 3,
        marker: 9,
        first_hole: 0,
        past_hole: 0,
    },
    Facet {
        first: 3,
        past: 4,
        marker: 10,
        first_hole: 0,
        past_hole: 0,
    },
];

static OUTSIDE_AND_INSIDE: [Place; 2] = [Place { x: 9, y: 9, z: 9 }, Place { x: 1, y: 1, z: 1 }];

static OPTIONS: ArrayOptions = ArrayOptions {
    halvings: 3,
    budget: 0,
    keep_hull: false,
    keep_facets: false,
    regions: true,
};

/// The tetrahedron with a region outside of it and one in it.
fn tetrahedron() -> ArrayComplex<'static> {
    ArrayComplex {
        points: &POINTS,
        corners: &CORNERS,
        polygons: &POLYGONS,
        facets: &FACETS,
        facet_holes: &[],
        holes: &[],
        regions: &OUTSIDE_AND_INSIDE,
        options: OPTIONS,
    }
}

/// Coordinates in eighths of a unit.
static PLACES: [Place; 5] = [
    Place { x: 0, y: 0, z: 0 },
    Place { x: 32, y: 0, z: 0 },
    Place { x: 0, y: 32, z: 0 },
    Place { x: 0, y: 0, z: 32 },
    Place { x: 0, y: 0, z: 32 },
];

static CELLS: [Cell; 1] = [Cell {
    a: 0,
    b: 1,
    c: 2,
    d: 3,
    region: 1,
    n0: u32::MAX,
    n1: u32::MAX,
    n2: u32::MAX,
    n3: u32::MAX,
}];

static FACES: [MarkedFace; 4] = [
    MarkedFace {
        a: 0,
        b: 1,
        c: 2,
        marker: 9,
    },
    MarkedFace {
        a: 0,
        b: 1,
        c: 3,
        marker: 10,
    },
    MarkedFace {
        a: 0,
        b: 2,
        c: 3,
        marker: -8,
    },
    MarkedFace {
        a: 1,
        b: 2,
        c: 3,
        marker: 7,
    },
];

static COUNTS: Counts = Counts {
    points: 5,
    cells: 1,
    faces: 4,
    halvings: 3,
};

fn are_places(points: &[Place]) -> bool {
    points == PLACES.as_slice()
}

const PLACE: Place = Place { x: 1, y: 1, z: 1 };

const CELL: Cell = Cell {
    a: 7,
    b: 7,
    c: 7,
    d: 7,
    region: 7,
    n0: 7,
    n1: 7,
    n2: 7,
    n3: 7,
};

const FACE: MarkedFace = MarkedFace {
    a: 7,
    b: 7,
    c: 7,
    marker: 7,
};

/// The first call that ends otherwise than it should, by its name.
fn other_refusal(alloc: Global) -> Option<&'static str> {
    let mut complex = tetrahedron();
    complex.points = &POINTS[..4];
    if mesh_arrays(alloc, &complex).err() != Some(ComplexFault::BadIndex) {
        return Some("a corner that is no point");
    }
    complex.corners = &CORNERS[..11];
    if mesh_arrays(alloc, &complex).err() != Some(ComplexFault::BadIndex) {
        return Some("a polygon with a corner that is not there");
    }
    complex = tetrahedron();
    complex.options.budget = 100_000_001;
    if mesh_arrays(alloc, &complex).err() != Some(ComplexFault::TooMany) {
        return Some("too many points to be added");
    }
    complex = tetrahedron();
    complex.points = &OUTSIDE_AND_INSIDE;
    complex.facets = &[];
    match mesh_arrays(alloc, &complex) {
        Err(fault) if fault.code() == 6 => None,
        _ => Some("two points"),
    }
}

/// The first call that ends otherwise than it should, by its name.
fn other_mesh(alloc: Global) -> Option<&'static str> {
    let complex = tetrahedron();
    let mut points = [PLACE; 6];
    let mut cells = [CELL; 1];
    let mut faces = [FACE; 4];
    let counts = COUNTS;
    let told = mesh_into(alloc, &complex, &mut points, &mut cells, &mut faces[..3]);
    if told != Err(ComplexFault::NoRoom { counts }) || points[0] != PLACE {
        return Some("room for three faces");
    }
    if mesh_into(alloc, &complex, &mut points, &mut cells, &mut faces) != Ok(counts) {
        return Some("the lengths");
    }
    if !are_places(&points[..5]) || points[5] != PLACE {
        return Some("the points");
    }
    if cells != CELLS || faces != FACES {
        return Some("the tetrahedra and faces");
    }
    None
}

#[test]
fn complexes_of_arrays_are_meshed(rt: HostRuntime) -> Result<(), Fail> {
    assert_eq!(rt; other_refusal(rt.alloc()), None);
    assert_eq!(rt; other_mesh(rt.alloc()), None);
    Ok(())
}

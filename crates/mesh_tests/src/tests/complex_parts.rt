ghost use Rattle.std.specs.Prelude.{All, IsTrue, length};
ghost use Rattle.simplex_meets.specs.Proper.{IsTriangle, IsSegment, triangle_face};
ghost use Rattle.simplex_meets.specs.Parts.{piece_side};

use crate::tests::simplex_places::places;
use geo_laws::{Face, FacetTriangle, FacetTriangles, Piece, Pieces, Points, Side};
use simplex_meets::{Part, PlaneFault, crossings, is_segment, is_triangle};
use std::alloc::Global;
use std::test::Fail;
use tet_ports::NoMemory;

fn triangle(f: [u32; 3]) -> FacetTriangle {
    FacetTriangle {
        facet: 0,
        a: f[0],
        b: f[1],
        c: f[2],
    }
}

fn piece(s: [u32; 2]) -> Piece {
    Piece {
        a: s[0],
        b: s[1],
        halvings: 0,
    }
}

fn are_triangles(points: &Points, triangles: &FacetTriangles) -> bool
    ensures { IsTrue result → All (λ t. IsTriangle points.now (triangle_face t)) triangles.now }
{
    for i in 0..triangles.len() {
        let t = triangles.at(i);
        let is = is_triangle(
            points,
            Face {
                a: t.a,
                b: t.b,
                c: t.c,
            },
        );
        if !is {
            return false;
        }
    }
    true
}

fn are_segments(points: &Points, pieces: &Pieces) -> bool
    ensures { IsTrue result → All (λ p. IsSegment points.now (piece_side p)) pieces.now }
{
    for i in 0..pieces.len() {
        let p = pieces.at(i);
        let is = is_segment(points, Side { a: p.a, b: p.b });
        if !is {
            return false;
        }
    }
    true
}

/// The corners of a part; the second end of a piece twice.
fn corners_of(part: Part) -> [u32; 3] {
    match part {
        Part::Triangle(t) => [t.a, t.b, t.c],
        Part::Segment(p) => [p.a, p.b, p.b],
    }
}

/// Triangles and pieces, and the corners of the first two parts that cross.
struct Case {
    triangles: &'static [[u32; 3]],
    pieces: &'static [[u32; 2]],
    first: Option<[[u32; 3]; 2]>,
}

static CASES: [Case; 15] = [
    // The square with three pieces.
    Case {
        triangles: &[[0, 1, 2], [0, 2, 3]],
        pieces: &[[0, 1], [2, 3], [0, 5]],
        first: None,
    },
    // Crossing pieces are not reported.
    Case {
        triangles: &[],
        pieces: &[[0, 2], [1, 3]],
        first: None,
    },
    // Triangles of one plane that overlap: the first such two.
    Case {
        triangles: &[[0, 2, 3], [0, 1, 2], [0, 1, 3]],
        pieces: &[[4, 5]],
        first: Some([[0, 2, 3], [0, 1, 3]]),
    },
    // A piece that ends on a side, and one that lies on it.
    Case {
        triangles: &[[0, 1, 2], [0, 2, 3]],
        pieces: &[[5, 6], [4, 5]],
        first: Some([[0, 1, 2], [4, 5, 5]]),
    },
    Case {
        triangles: &[[0, 1, 2]],
        pieces: &[[0, 4]],
        first: Some([[0, 1, 2], [0, 4, 4]]),
    },
    // A common corner: in one plane, and not in one.
    Case {
        triangles: &[[0, 1, 4], [2, 3, 4]],
        pieces: &[],
        first: None,
    },
    Case {
        triangles: &[[0, 1, 4], [2, 5, 4]],
        pieces: &[],
        first: None,
    },
    // A common corner, and the one goes through the other.
    Case {
        triangles: &[[0, 1, 2], [0, 6, 5]],
        pieces: &[],
        first: Some([[0, 1, 2], [0, 6, 5]]),
    },
    // A common side: in one plane, and not in one.
    Case {
        triangles: &[[1, 2, 0], [0, 2, 3], [2, 0, 5]],
        pieces: &[],
        first: None,
    },
    // A common part of a side, and the same where the one is cut at the end of that part.
    Case {
        triangles: &[[0, 1, 2], [0, 4, 5]],
        pieces: &[],
        first: Some([[0, 1, 2], [0, 4, 5]]),
    },
    Case {
        triangles: &[[0, 1, 4], [4, 1, 2], [0, 4, 5]],
        pieces: &[],
        first: None,
    },
    // A corner that touches the other from one side, within it and on its side.
    Case {
        triangles: &[[2, 5, 7], [1, 3, 6]],
        pieces: &[],
        first: Some([[2, 5, 7], [1, 3, 6]]),
    },
    Case {
        triangles: &[[0, 1, 2], [4, 5, 7]],
        pieces: &[],
        first: Some([[0, 1, 2], [4, 5, 7]]),
    },
    // One triangle twice.
    Case {
        triangles: &[[0, 1, 2], [2, 0, 1]],
        pieces: &[],
        first: None,
    },
    Case {
        triangles: &[],
        pieces: &[],
        first: None,
    },
];

/// Whether the answer of `crossings` names these first two parts, or none.
fn is_told(answer: Result<(), PlaneFault>, first: Option<[[u32; 3]; 2]>) -> bool {
    match answer {
        Ok(()) => first.is_none(),
        Err(PlaneFault::Crossing { one, two }) => first == Some([corners_of(one), corners_of(two)]),
        Err(PlaneFault::NoMemory) => false,
    }
}

fn triangles_of(alloc: Global, corners: &[[u32; 3]]) -> Result<FacetTriangles, NoMemory> {
    let mut triangles = FacetTriangles::new(alloc);
    for f in corners {
        triangles.push(triangle(*f))?;
    }
    Ok(triangles)
}

fn pieces_of(alloc: Global, ends: &[[u32; 2]]) -> Result<Pieces, NoMemory> {
    let mut pieces = Pieces::new(alloc);
    for s in ends {
        pieces.push(piece(*s))?;
    }
    Ok(pieces)
}

/// Whether the requirements of `crossings` hold of these triangles and the pieces of a case, and it
/// answers as the case says.
fn has_first(alloc: Global, points: &Points, triangles: &FacetTriangles, case: &Case) -> bool {
    match pieces_of(alloc, case.pieces) {
        Ok(pieces) => are_triangles(points, triangles)
            && are_segments(points, &pieces)
            && is_told(crossings(alloc, points, &pieces, triangles), case.first),
        Err(NoMemory) => false,
    }
}

/// As `has_first`, for the triangles of the case.
fn is_as_said(alloc: Global, points: &Points, case: &Case) -> bool {
    match triangles_of(alloc, case.triangles) {
        Ok(triangles) => has_first(alloc, points, &triangles, case),
        Err(NoMemory) => false,
    }
}

#[test]
fn first_crossings(rt: HostRuntime) -> Result<(), Fail> {
    let points = places(rt.alloc())?;
    for (i, case) in CASES.iter().enumerate() {
        assert!(rt; is_as_said(rt.alloc(), &points, case), "case {i}");
    }
    Ok(())
}

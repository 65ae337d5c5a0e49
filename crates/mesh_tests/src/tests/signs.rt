//! Signs at worked points.

ghost use Rattle.std.specs.Prelude.{◌<◌};

use sign_predicates::{
    Corners, Frame, GridPoint, Hold, Numbers, RatPoint, Sign, beyond, coplanar, in_lifted_sphere,
    in_tet, orient, orient_rat, outside, segment_meets_triangle, segments_meet, spans_plane,
    triangle_enters, triangles_meet, wins_tie,
};

fn at(p: [i8; 3]) -> GridPoint {
    GridPoint {
        x: p[0] as i32,
        y: p[1] as i32,
        z: p[2] as i32,
    }
}

fn tet(p: [[i8; 3]; 4]) -> Corners {
    Corners {
        a: at(p[0]),
        b: at(p[1]),
        c: at(p[2]),
        d: at(p[3]),
    }
}

fn numbers(n: [u32; 4]) -> Numbers {
    Numbers {
        a: n[0],
        b: n[1],
        c: n[2],
        d: n[3],
    }
}

const UNIT: [[i8; 3]; 4] = [[0, 0, 0], [1, 0, 0], [0, 1, 0], [0, 0, 1]];

const FOUR: [[i8; 3]; 4] = [[0, 0, 0], [4, 0, 0], [0, 4, 0], [0, 0, 4]];

// Two halves of a pyramid over a square.
const LEFT: [[i8; 3]; 4] = [[0, 0, 0], [2, 0, 0], [0, 2, 0], [1, 1, 2]];

const RIGHT: [[i8; 3]; 4] = [[0, 0, 0], [2, 0, 0], [2, 2, 0], [1, 1, 2]];

// A triangle, and three points of a line.
const FLAT: [[i8; 3]; 3] = [[0, 0, 0], [4, 0, 0], [0, 4, 0]];

const LINE: [[i8; 3]; 3] = [[0, 0, 0], [4, 0, 0], [2, 0, 0]];

fn is_outside(corners: [[i8; 3]; 4], n: [u32; 4], p: [i8; 3], m: u32) -> bool {
    outside(tet(corners), numbers(n), at(p), m)
}

static SPHERES: [(&str, [[i8; 3]; 4], [u32; 4], [i8; 3], u32, bool); 7] = [
    ("off the sphere", UNIT, [0, 1, 2, 3], [2, 2, 2], 4, true),
    ("in the sphere", FOUR, [0, 1, 2, 3], [1, 1, 1], 4, false),
    ("beyond face 0", UNIT, [0, 1, 2, 3], [1, 1, 1], 4, true),
    ("the point is 0", UNIT, [4, 1, 2, 3], [1, 1, 1], 0, true),
    ("on the side of 0", UNIT, [4, 0, 2, 3], [1, 1, 1], 1, false),
    ("pyramid, beyond", LEFT, [0, 1, 3, 4], [2, 2, 0], 2, true),
    ("pyramid, plane", RIGHT, [0, 1, 2, 4], [0, 2, 0], 3, false),
];

#[test]
fn spheres(rt: HostRuntime) {
    for (name, corners, n, p, m, want) in &SPHERES {
        assert!(rt; is_outside(*corners, *n, *p, *m) == *want, "{name}");
    }
}

// The rule for ties at points on the sphere.
fn ties() -> [bool; 2] {
    let unit = tet(UNIT);
    [
        wins_tie(&unit, numbers([0, 1, 2, 3]), at([1, 1, 1]), 4),
        wins_tie(&unit, numbers([4, 0, 2, 3]), at([1, 1, 1]), 1),
    ]
}

#[test]
fn least_numbers(rt: HostRuntime) {
    assert_eq!(rt; ties(), [true, false]);
}

const FAR: i32 = 536_870_912;

// The greatest size of a coordinate of a rational point, over 10^6.
const BEYOND: i64 = 536_870_913_000_000;

// Five corners of the cube of all points.
fn far() -> [GridPoint; 5] {
    [
        GridPoint {
            x: -FAR,
            y: -FAR,
            z: -FAR,
        },
        GridPoint {
            x: FAR,
            y: -FAR,
            z: -FAR,
        },
        GridPoint {
            x: -FAR,
            y: FAR,
            z: -FAR,
        },
        GridPoint {
            x: -FAR,
            y: -FAR,
            z: FAR,
        },
        GridPoint {
            x: FAR,
            y: FAR,
            z: FAR,
        },
    ]
}

// The sign of the lifted insphere test of the last point and the others, if the frame has them all.
fn lifted_sign(frame: Frame, points: [GridPoint; 5]) -> Option<Sign>
    requires { 0 < frame.step }
{
    let [a, b, c, d, e] = points;
    let (a, b) = (frame.lift(a)?, frame.lift(b)?);
    let (c, d) = (frame.lift(c)?, frame.lift(d)?);
    Some(in_lifted_sphere(a, b, c, d, frame.lift(e)?))
}

// Where the point `p` lies to the sphere of a tetrahedron, in a frame of small steps.
fn sign_at(p: [i8; 3]) -> Option<Sign> {
    let frame = Frame {
        corner: at([-4, -2, -2]),
        step: 2,
    };
    let t = tet(FOUR);
    lifted_sign(frame, [t.a, t.b, t.c, t.d, at(p)])
}

static LIFTED_SPHERES: [([i8; 3], Option<Sign>); 5] = [
    ([6, 6, 6], Some(Sign::Below)),
    ([4, 4, 4], Some(Sign::Zero)),
    ([2, 2, 2], Some(Sign::Above)),
    ([2, 3, 2], None),
    ([-6, 2, 2], None),
];

#[test]
fn lifted_spheres(rt: HostRuntime) {
    for (p, want) in &LIFTED_SPHERES {
        assert!(rt; sign_at(*p) == *want);
    }
}

// And for the corners of the cube of all points, in a frame of this step.
fn far_sign(step: u32) -> Option<Sign>
    requires { 0 < step }
{
    let [a, b, c, d, e] = far();
    lifted_sign(Frame { corner: a, step }, [a, b, c, d, e])
}

#[test]
fn widest_frame(rt: HostRuntime) {
    assert_eq!(rt; far_sign(1024), Some(Sign::Zero));
    assert_eq!(rt; far_sign(512), None);
}

// Whether the last is outside of the first four, and the first outside of the last four.
fn far_outside() -> [bool; 2] {
    let [a, b, c, d, e] = far();
    let last = outside(Corners { a, b, c, d }, numbers([0, 1, 2, 3]), e, 4);
    let others = Corners {
        a: b,
        b: c,
        c: d,
        d: e,
    };
    [last, outside(others, numbers([1, 2, 3, 4]), a, 0)]
}

#[test]
fn greatest_ties(rt: HostRuntime) {
    assert_eq!(rt; far_outside(), [true, true]);
}

// The farthest rational point against a face, and a corner against its own face.
fn far_rational() -> [Sign; 2] {
    let [a, b, c, d, _] = far();
    let corner = RatPoint {
        x: BEYOND,
        y: BEYOND,
        z: BEYOND,
        w: 1_000_000,
    };
    [
        orient_rat(b, d, c, corner),
        orient_rat(a, b, c, RatPoint::of(b)),
    ]
}

#[test]
fn greatest_rational_points(rt: HostRuntime) {
    assert_eq!(rt; far_rational(), [Sign::Below, Sign::Zero]);
}

fn orientation(p: [[i8; 3]; 4]) -> Sign {
    orient(at(p[0]), at(p[1]), at(p[2]), at(p[3]))
}

const TURNED: [[i8; 3]; 4] = [[0, 0, 0], [0, 1, 0], [1, 0, 0], [0, 0, 1]];

#[test]
fn orientations(rt: HostRuntime) {
    assert!(rt; orientation(UNIT) == Sign::Above && orientation(TURNED) == Sign::Below);
}

fn lie_in_a_plane(p: [[i8; 3]; 4]) -> bool {
    coplanar(at(p[0]), at(p[1]), at(p[2]), at(p[3]))
}

const SQUARE: [[i8; 3]; 4] = [[0, 0, 0], [1, 0, 0], [0, 1, 0], [1, 1, 0]];

#[test]
fn planes(rt: HostRuntime) {
    assert!(rt; lie_in_a_plane(SQUARE) && !lie_in_a_plane(UNIT));
}

fn beyond_unit(corner: u8, p: [i8; 3]) -> Option<Sign> {
    if corner < 4 {
        Some(beyond(tet(UNIT), corner, at(p)))
    } else {
        None
    }
}

static FACES: [(u8, [i8; 3], Sign); 5] = [
    (0, [2, 2, 2], Sign::Above),
    (1, [2, 2, 2], Sign::Below),
    (1, [0, 5, 5], Sign::Zero),
    (2, [0, -1, 0], Sign::Above),
    (3, [0, 0, -1], Sign::Above),
];

#[test]
fn faces(rt: HostRuntime) {
    for (corner, p, want) in &FACES {
        assert!(rt; beyond_unit(*corner, *p) == Some(*want), "{corner}");
    }
}

// How the unit tetrahedron holds the point, in millionths.
fn holds(p: [i32; 3]) -> Hold {
    let x = RatPoint {
        x: p[0] as i64,
        y: p[1] as i64,
        z: p[2] as i64,
        w: 1_000_000,
    };
    in_tet(tet(UNIT), x)
}

static RATIONAL_POINTS: [([i32; 3], Hold); 5] = [
    ([0, 0, 0], Hold::Touching),
    ([250_000, 250_000, 250_000], Hold::Inside),
    ([500_000, 500_000, 0], Hold::Touching),
    ([500_001, 500_000, 0], Hold::Outside),
    ([-1, 500_000, 0], Hold::Outside),
];

#[test]
fn rational_points(rt: HostRuntime) {
    for (p, want) in &RATIONAL_POINTS {
        assert!(rt; holds(*p) == *want);
    }
}

fn segments(p: [[i8; 3]; 4]) -> bool {
    segments_meet(at(p[0]), at(p[1]), at(p[2]), at(p[3]))
}

static SEGMENTS: [([[i8; 3]; 4], bool); 9] = [
    ([[0, 0, 0], [2, 2, 0], [0, 2, 0], [2, 0, 0]], true),
    ([[0, 0, 0], [2, 2, 0], [0, 2, 1], [2, 0, 1]], false),
    ([[0, 0, 0], [2, 2, 0], [1, 1, 0], [2, 0, 0]], true),
    ([[0, 0, 0], [2, 2, 0], [3, 3, 0], [4, 4, 0]], false),
    ([[0, 0, 0], [2, 2, 2], [1, 1, 1], [4, 4, 4]], true),
    ([[0, 0, 0], [2, 2, 0], [0, 1, 0], [2, 3, 0]], false),
    ([[1, 1, 1], [1, 1, 1], [0, 0, 0], [3, 3, 3]], true),
    ([[1, 1, 1], [1, 1, 1], [1, 1, 1], [1, 1, 1]], true),
    ([[1, 1, 1], [1, 1, 1], [1, 1, 2], [1, 1, 3]], false),
];

#[test]
fn segments_that_meet(rt: HostRuntime) {
    for (p, want) in &SEGMENTS {
        assert!(rt; segments(*p) == *want);
    }
}

fn segment_and_triangle(s: [[i8; 3]; 2], f: [[i8; 3]; 3]) -> bool {
    segment_meets_triangle(at(s[0]), at(s[1]), at(f[0]), at(f[1]), at(f[2]))
}

static SEGMENTS_AND_TRIANGLES: [([[i8; 3]; 3], [[i8; 3]; 2], bool); 11] = [
    (FLAT, [[1, 1, 1], [1, 1, -1]], true),
    (FLAT, [[1, 1, -1], [1, 1, 1]], true),
    (FLAT, [[3, 3, 1], [3, 3, -1]], false),
    (FLAT, [[1, 1, 1], [1, 1, 2]], false),
    (FLAT, [[0, 0, 0], [0, 0, 5]], true),
    (FLAT, [[2, 2, 3], [2, 2, 0]], true),
    (FLAT, [[-1, 1, 0], [5, 1, 0]], true),
    (FLAT, [[1, 1, 0], [1, 1, 0]], true),
    (FLAT, [[5, 0, 0], [9, 0, 0]], false),
    (LINE, [[3, 0, 1], [3, 0, -1]], true),
    (LINE, [[5, 0, 1], [5, 0, -1]], false),
];

#[test]
fn segments_and_triangles(rt: HostRuntime) {
    for (f, s, want) in &SEGMENTS_AND_TRIANGLES {
        assert!(rt; segment_and_triangle(*s, *f) == *want);
    }
}

fn meets_flat(f: [[i8; 3]; 3]) -> bool {
    let [a, b, c] = FLAT;
    triangles_meet(at(a), at(b), at(c), at(f[0]), at(f[1]), at(f[2]))
}

static TRIANGLES_THAT_MEET: [([[i8; 3]; 3], bool); 6] = [
    ([[1, 1, -1], [1, 1, 1], [9, 9, 1]], true),
    ([[1, 1, 1], [2, 1, 1], [1, 2, 1]], false),
    ([[1, 1, 0], [2, 1, 0], [1, 2, 0]], true),
    ([[-9, -9, 0], [40, -9, 0], [-9, 40, 0]], true),
    ([[9, 9, 0], [8, 9, 0], [9, 8, 0]], false),
    ([[3, 3, -1], [3, 3, 1], [9, 9, 1]], false),
];

#[test]
fn triangles_that_meet(rt: HostRuntime) {
    for (f, want) in &TRIANGLES_THAT_MEET {
        assert!(rt; meets_flat(*f) == *want);
    }
}

// Whether the triangle enters the tetrahedron, or None where its corners are on a line.
fn enters_four(f: [[i8; 3]; 3]) -> Option<bool> {
    let t = tet(FOUR);
    let (a, b, c) = (at(f[0]), at(f[1]), at(f[2]));
    if orient(t.a, t.b, t.c, t.d) == Sign::Above && spans_plane(a, b, c) {
        Some(triangle_enters(t, a, b, c))
    } else {
        None
    }
}

static TRIANGLES_THAT_ENTER: [([[i8; 3]; 3], Option<bool>); 9] = [
    ([[1, 1, 1], [9, 9, 9], [9, 0, 9]], Some(true)),
    ([[-9, -9, 1], [30, -9, 1], [-9, 30, 1]], Some(true)),
    ([[0, 0, 0], [4, 0, 0], [0, 4, 0]], Some(false)),
    ([[0, 0, -1], [4, 0, -1], [0, 4, -1]], Some(false)),
    ([[0, 0, 0], [-4, 0, 1], [0, -4, 1]], Some(false)),
    ([[-1, 1, 1], [9, 1, 1], [9, 9, 9]], Some(true)),
    ([[0, 0, 0], [4, 4, 0], [0, 0, 4]], Some(true)),
    ([[4, 0, 0], [0, 4, 0], [9, 9, -9]], Some(false)),
    ([[0, 0, 0], [1, 1, 1], [2, 2, 2]], None),
];

#[test]
fn triangles_that_enter(rt: HostRuntime) {
    for (f, want) in &TRIANGLES_THAT_ENTER {
        assert!(rt; enters_four(*f) == *want);
    }
}

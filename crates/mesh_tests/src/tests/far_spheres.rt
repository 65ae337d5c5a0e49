//! Spheres through points over the whole grid, against their sums in 192 bits.

ghost use Rattle.std.specs.Prelude.{◌≤◌, unsigned_abs};

use crate::tests::wide::{Wide, minus, plus, sign_of, times, wide};
use sign_predicates::{Corners, GridPoint, Numbers, Sign, outside, wins_tie};

/// The greatest size of a coordinate.
const FAR: i32 = 536_870_912;

/// The square of the radius `2^29 - 1`.
const SQUARE: u64 = 0x3ff_ffff_c000_0001;

/// Four corners, and a point.
type FivePoints = [[i32; 3]; 5];

/// The coordinate, or the end of the grid that it is beyond.
fn on_grid(x: i32) -> i32
    ensures { unsigned_abs result ≤ 536870912 }
{
    if x > FAR {
        FAR
    } else if x < -FAR {
        -FAR
    } else {
        x
    }
}

fn grid_point(p: [i32; 3]) -> GridPoint {
    GridPoint {
        x: on_grid(p[0]),
        y: on_grid(p[1]),
        z: on_grid(p[2]),
    }
}

fn corners_of(p: &FivePoints) -> Corners {
    Corners {
        a: grid_point(p[0]),
        b: grid_point(p[1]),
        c: grid_point(p[2]),
        d: grid_point(p[3]),
    }
}

fn numbers(n: [u32; 4]) -> Numbers {
    Numbers {
        a: n[0],
        b: n[1],
        c: n[2],
        d: n[3],
    }
}

/// The vector from one point to another.
fn vector(from: [i32; 3], to: [i32; 3]) -> [Wide; 3] {
    [
        wide(i64::from(to[0]) - i64::from(from[0])),
        wide(i64::from(to[1]) - i64::from(from[1])),
        wide(i64::from(to[2]) - i64::from(from[2])),
    ]
}

fn dot(u: &[Wide; 3], v: &[Wide; 3]) -> Wide {
    let first = plus(&times(&u[0], &v[0]), &times(&u[1], &v[1]));
    plus(&first, &times(&u[2], &v[2]))
}

fn cross(u: &[Wide; 3], v: &[Wide; 3]) -> [Wide; 3] {
    [
        minus(&times(&u[1], &v[2]), &times(&u[2], &v[1])),
        minus(&times(&u[2], &v[0]), &times(&u[0], &v[2])),
        minus(&times(&u[0], &v[1]), &times(&u[1], &v[0])),
    ]
}

/// The square of the length of the first times the determinant of the others.
fn lifted(a: &[Wide; 3], b: &[Wide; 3], c: &[Wide; 3], d: &[Wide; 3]) -> Wide {
    times(&dot(a, a), &dot(b, &cross(c, d)))
}

/// The sign of the sum of a sphere: below 0 where the last point is outside.
fn wide_sign(p: &FivePoints) -> Sign {
    let a = vector(p[4], p[0]);
    let b = vector(p[4], p[1]);
    let c = vector(p[4], p[2]);
    let d = vector(p[4], p[3]);
    let first = minus(&lifted(&a, &b, &c, &d), &lifted(&b, &a, &c, &d));
    let last = minus(&lifted(&c, &a, &b, &d), &lifted(&d, &a, &b, &c));
    sign_of(&plus(&first, &last))
}

/// Whether the last point, with the number `m`, is outside of the others, with the numbers `n`.
fn is_outside(p: &FivePoints, n: [u32; 4], m: u32) -> bool {
    outside(corners_of(p), numbers(n), grid_point(p[4]), m)
}

/// Whether the last point is outside, where the points have the numbers from 0 to 4.
fn is_last_outside(p: &FivePoints) -> bool {
    is_outside(p, [0, 1, 2, 3], 4)
}

/// Whether the last point is outside by the sum in 192 bits, with those numbers.
fn is_wide_outside(p: &FivePoints) -> bool {
    match wide_sign(p) {
        Sign::Below => true,
        Sign::Above => false,
        Sign::Zero => wins_tie(&corners_of(p), numbers([0, 1, 2, 3]), grid_point(p[4]), 4),
    }
}

/// Far points whose sum is 0 in its upper part, or whose upper part alone has the other sign: the
/// sign of the sum.
static PARTS: [(&str, FivePoints, Sign); 8] = [
    (
        "upper part 0, inside",
        [
            [-536_870_912, -61, -17],
            [536_870_912, -43, 4],
            [-536_870_912, 31, 21],
            [-536_870_912, -26, 11],
            [-536_870_912, 8, -36],
        ],
        Sign::Above,
    ),
    (
        "upper part 0, outside",
        [
            [-536_870_912, 1, 0],
            [-536_870_912, 2, -2],
            [536_870_912, -1, -2],
            [-536_870_912, -2, -2],
            [536_870_912, 1, -1],
        ],
        Sign::Below,
    ),
    (
        "upper part 0, two corners far",
        [
            [536_870_912, 1, 0],
            [-536_870_912, 2, -1],
            [-536_870_912, 1, -1],
            [-536_870_912, 2, 0],
            [536_870_912, -2, -2],
        ],
        Sign::Below,
    ),
    (
        "upper part above 0, outside",
        [
            [-327_038_605, 179_035_714, 0],
            [-327_038_605, 0, 179_035_714],
            [-327_038_605, 0, -179_035_714],
            [0, 327_038_605, 179_035_714],
            [-179_035_714, -1, -327_038_605],
        ],
        Sign::Below,
    ),
    (
        "upper part below 0, inside",
        [
            [-508_844_259, 176_054_456, -1],
            [-176_054_456, 1, 508_844_259],
            [-1, -508_844_259, 176_054_456],
            [508_844_259, -176_054_456, -1],
            [508_844_259, -176_054_456, 0],
        ],
        Sign::Above,
    ),
    (
        "upper part above 0, a unit outside",
        [
            [-2, 360_646_603, 140_959_013],
            [2, -140_959_013, -360_646_603],
            [360_646_603, -140_959_013, -2],
            [-360_646_603, -140_959_013, 2],
            [-3, 360_646_603, 140_959_013],
        ],
        Sign::Below,
    ),
    (
        "upper part below 0, a unit inside",
        [
            [208_650_682, 349_523_276, -3],
            [-349_523_276, -3, 208_650_682],
            [-208_650_682, 349_523_276, 3],
            [3, -349_523_276, -208_650_682],
            [-349_523_276, 208_650_682, 2],
        ],
        Sign::Above,
    ),
    (
        "the middle of the grid",
        [
            [-FAR, -FAR, -FAR],
            [-FAR, FAR, FAR],
            [FAR, -FAR, FAR],
            [FAR, FAR, -FAR],
            [0, 0, 0],
        ],
        Sign::Above,
    ),
];

#[test]
fn sums_in_parts(rt: HostRuntime) {
    for (name, points, want) in &PARTS {
        assert!(rt; wide_sign(points) == *want, "{name}, in 192 bits");
        assert!(rt; is_last_outside(points) == (*want == Sign::Below), "{name}");
    }
}

/// A fixed row of numbers with scattered bits (Marsaglia, 2003).
#[derive(Drop)]
struct Draws {
    last: u64,
}

impl Draws {
    fn next(&mut self) -> u64 {
        let bits = self.last ^ self.last << 13;
        let bits = bits ^ bits >> 7;
        self.last = bits ^ bits << 17;
        self.last
    }
}

/// The root of a number below `2^58`, rounded down.
fn root_of(square: u64) -> u64 {
    let mut root = 0u64;
    for step in 0..29u32 {
        let next = root | 1 << (28 - step);
        if next.wrapping_mul(next) <= square {
            root = next;
        }
    }
    root
}

/// A coordinate from `-2^28` to below `2^28`, and its square.
fn coordinate(bits: u64) -> (i32, u64) {
    let x = (bits & 0x1fff_ffff) as i32 - (1 << 28);
    let size = u64::from(x.unsigned_abs());
    (x, size.wrapping_mul(size))
}

/// The coordinates in an order and with signs that the lowest six bits tell.
fn turned(p: [i32; 3], bits: u64) -> [i32; 3] {
    let x = p[0].wrapping_mul(1 - (bits & 2) as i32);
    let y = p[1].wrapping_mul(1 - (bits >> 1 & 2) as i32);
    let z = p[2].wrapping_mul(1 - (bits >> 2 & 2) as i32);
    let (x, y) = if bits & 1 == 0 { (x, y) } else { (y, x) };
    match bits >> 4 & 3 {
        0 => [x, y, z],
        1 => [y, z, x],
        _ => [z, x, y],
    }
}

/// A point less than a unit inside of the sphere round the origin whose radius is `2^29 - 1`, moved
/// by `off` along an axis.
fn near_sphere(draws: &mut Draws, off: i32) -> [i32; 3] {
    let bits = draws.next();
    let (x, x_square) = coordinate(bits);
    let (y, y_square) = coordinate(bits >> 32);
    let square = SQUARE.wrapping_sub(x_square).wrapping_sub(y_square);
    let z = (root_of(square) & 0x1fff_ffff) as i32;
    turned([x, y, z.wrapping_add(off)], draws.next())
}

/// Points near a sphere, of which the last is moved.
fn near_points(draws: &mut Draws, off: i32) -> FivePoints {
    [
        near_sphere(draws, 0),
        near_sphere(draws, 0),
        near_sphere(draws, 0),
        near_sphere(draws, 0),
        near_sphere(draws, off),
    ]
}

/// Points of one sphere, of which the last is moved along the axis on which it is nearly 0. So the
/// upper part of the sum is mostly of another sign than the sum.
fn turned_points(draws: &mut Draws, off: i32) -> FivePoints {
    let bits = draws.next();
    let (x, _) = coordinate(bits);
    let (y, _) = coordinate(bits >> 32);
    let (x, y) = (x.wrapping_mul(2), y.wrapping_mul(2));
    let z = (bits >> 29 & 3) as i32;
    [
        turned([x, y, z], draws.next()),
        turned([x, y, z], draws.next()),
        turned([x, y, z], draws.next()),
        turned([x, y, z], draws.next()),
        turned([x, y, z.wrapping_add(off)], draws.next()),
    ]
}

/// How far the last point is moved in this round.
fn move_of(round: u32) -> i32 {
    match round % 3 {
        0 => -1,
        1 => 0,
        _ => 1,
    }
}

#[test]
fn near_spheres(rt: HostRuntime) {
    let mut draws = Draws {
        last: 88_172_645_463_325_252,
    };
    for round in 0..48u32 {
        let points = near_points(&mut draws, move_of(round));
        assert!(rt;
            is_last_outside(&points) == is_wide_outside(&points),
            "{round}: {points:?}"
        );
    }
}

#[test]
fn points_of_one_sphere(rt: HostRuntime) {
    let mut draws = Draws {
        last: 88_172_645_463_325_252,
    };
    for round in 0..48u32 {
        let points = turned_points(&mut draws, move_of(round));
        assert!(rt;
            is_last_outside(&points) == is_wide_outside(&points),
            "{round}: {points:?}"
        );
    }
}

/// A corner of the cube with corners at this size: the bits of its place tell the signs.
fn cube_corner(place: u32, size: i32) -> [i32; 3] {
    let far = |bit: u32| {
        if place & bit == 0 {
            size.wrapping_neg()
        } else {
            size
        }
    };
    [far(1), far(2), far(4)]
}

/// Corners of a cube by their places.
fn cube_points(places: [u32; 4], last: u32, size: i32) -> FivePoints {
    let [a, b, c, d] = places;
    [
        cube_corner(a, size),
        cube_corner(b, size),
        cube_corner(c, size),
        cube_corner(d, size),
        cube_corner(last, size),
    ]
}

/// Corners of the cube of all points, the numbers of the first four, the last and its number, and
/// whether it is outside.
static CUBE: [([u32; 4], [u32; 4], u32, u32, bool); 9] = [
    ([0, 1, 2, 4], [0, 1, 2, 4], 3, 3, true),
    ([0, 1, 2, 4], [0, 1, 2, 4], 5, 5, true),
    ([0, 1, 2, 4], [0, 1, 2, 4], 6, 6, true),
    ([0, 1, 2, 4], [0, 1, 2, 4], 7, 7, true),
    ([0, 1, 2, 4], [5, 1, 2, 4], 3, 3, false),
    ([0, 1, 2, 4], [5, 1, 2, 4], 3, 0, true),
    ([0, 1, 2, 4], [8, 1, 2, 4], 7, 9, false),
    ([1, 2, 4, 7], [1, 2, 4, 7], 0, 0, true),
    ([1, 2, 4, 7], [1, 2, 4, 7], 0, 9, false),
];

#[test]
fn corners_of_the_greatest_cube(rt: HostRuntime) {
    for (places, n, last, m, want) in &CUBE {
        let p = cube_points(*places, *last, FAR);
        assert!(rt;
            is_outside(&p, *n, *m) == *want,
            "{places:?} {n:?} {last} {m}"
        );
    }
}

/// Corners of the cube with corners at this size, of which the last is moved by `off`.
fn moved_corner(size: i32, off: [i32; 3]) -> FivePoints {
    let [a, b, c, d, e] = cube_points([0, 1, 2, 4], 7, size);
    let moved = [
        e[0].wrapping_add(off[0]),
        e[1].wrapping_add(off[1]),
        e[2].wrapping_add(off[2]),
    ];
    [a, b, c, d, moved]
}

/// The size of a cube, the way by which its last corner is moved, and its number: 0 is outside in a
/// tie, and 9 inside. Then whether the corner is outside.
static MOVED: [(i32, [i32; 3], u32, bool); 8] = [
    (FAR, [-1, 0, 0], 0, false),
    (FAR, [0, -1, 0], 0, false),
    (FAR, [0, 0, -1], 0, false),
    (FAR, [0, 0, 0], 0, true),
    (FAR, [0, 0, 0], 9, false),
    (FAR - 1, [1, 0, 0], 9, true),
    (FAR - 1, [0, 1, 0], 9, true),
    (FAR - 1, [0, 0, 1], 9, true),
];

#[test]
fn a_unit_off_the_greatest_cube(rt: HostRuntime) {
    for (size, off, m, want) in &MOVED {
        let p = moved_corner(*size, *off);
        assert!(rt;
            is_outside(&p, [5, 1, 2, 4], *m) == *want,
            "{size} {off:?} {m}"
        );
    }
}

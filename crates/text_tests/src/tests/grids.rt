//! Grids of points, roundings, and what is printed of grid coordinates.

use crate::tests::fields::first_decimal;
use grid_coords::*;
use sign_predicates::GridPoint;
use std::alloc::Global;
use tet_ports::{Bytes, NoMemory};
use tet_text::Decimal;

const ZERO: Decimal = Decimal { value: 0, scale: 0 };

/// A point with this x, and with y 0.
fn point(line: usize, x: &[u8], z: Decimal) -> Option<DecimalPoint> {
    let x = first_decimal(x)?;
    let y = ZERO;
    Some(DecimalPoint { x, y, z, line })
}

/// A list of one point for each x, with y and z 0; its line is its place in the list.
fn points(alloc: Global, xs: &[&[u8]]) -> Option<DecimalPoints> {
    let mut list = DecimalPoints::new(alloc);
    for (i, x) in xs.iter().enumerate() {
        list.push(point(i, x, ZERO)?).ok()?;
    }
    Some(list)
}

static ROUNDING: [(&[u8], u32, i128, u32); 10] = [
    (b"0.33333333333333331", 3, 333, 3),
    (b"0.5", 0, 1, 0),
    (b"-0.5", 0, -1, 0),
    (b"0.49", 0, 0, 0),
    (b"2.55", 1, 26, 1),
    (b"-1.96", 1, -2, 0),
    (b"1.25", 5, 125, 2),
    (b"0.95", 1, 1, 0),
    (b"1e-999", 20, 0, 0),
    (
        b"99999999999999999999999999999999999.5",
        0,
        100_000_000_000_000_000_000_000_000_000_000_000,
        0,
    ),
];

/// The decimal that a text begins with, rounded to `decimals` decimals: its value and its scale.
fn rounded(text: &[u8], decimals: u32) -> Option<(i128, u32)> {
    let d = round_to(&first_decimal(text)?, decimals);
    Some((d.value, d.scale))
}

#[test]
fn roundings(rt: HostRuntime) {
    for (text, decimals, value, scale) in &ROUNDING {
        assert!(rt;
            rounded(text, *decimals) == Some((*value, *scale)),
            "{text:?}"
        );
    }
}

static GRIDS: [(&[&[u8]], u32, Result<Grid, Range>); 9] = [
    (
        &[b"0.5", b"-1.250", b"3", b".5"],
        12,
        Ok(Grid {
            decimals: 2,
            halvings: 12,
        }),
    ),
    (
        &[b"0.5", b"-1.250", b"3", b".5"],
        4,
        Ok(Grid {
            decimals: 2,
            halvings: 4,
        }),
    ),
    (
        &[b"0", b"1", b"0", b"0.33333333333333331"],
        12,
        Err(Range { line: 1 }),
    ),
    (
        &[b"0", b"1", b"0", b"0.333"],
        12,
        Ok(Grid {
            decimals: 3,
            halvings: 12,
        }),
    ),
    (
        &[b"-8388608", b"8388608"],
        12,
        Ok(Grid {
            decimals: 0,
            halvings: 0,
        }),
    ),
    (
        &[b"8388608", b"8388609", b"9e9"],
        12,
        Err(Range { line: 1 }),
    ),
    (
        &[b"4194304"],
        12,
        Ok(Grid {
            decimals: 0,
            halvings: 1,
        }),
    ),
    (
        &[b"1e-999", b"0"],
        12,
        Ok(Grid {
            decimals: 999,
            halvings: 12,
        }),
    ),
    (&[b"1e-999", b"1e-990", b"1"], 12, Err(Range { line: 1 })),
];

/// The grid of points with these first coordinates.
fn grid_of(alloc: Global, xs: &[&[u8]], most_halvings: u32) -> Option<Result<Grid, Range>> {
    Some(choose_grid(&points(alloc, xs)?, most_halvings, 8_388_608))
}

#[test]
fn grids(rt: HostRuntime) {
    for (xs, most_halvings, wanted) in &GRIDS {
        assert!(rt;
            grid_of(rt.alloc(), xs, *most_halvings) == Some(*wanted),
            "{xs:?}"
        );
    }
}

/// The point at 0.5, -1.25 and 3.
const PLACED: DecimalPoint = DecimalPoint {
    x: Decimal { value: 5, scale: 1 },
    y: Decimal {
        value: -125,
        scale: 2,
    },
    z: Decimal { value: 3, scale: 0 },
    line: 2,
};

/// The grid of `PLACED`, and where the point is on it.
fn placed(alloc: Global) -> Option<(Grid, [i32; 3])> {
    let mut list = DecimalPoints::new(alloc);
    list.push(PLACED).ok()?;
    let grid = choose_grid(&list, 12, 8_388_608).ok()?;
    if list.len() != 1 {
        return None;
    }
    let placed = to_grid(&grid, list.get(0));
    Some((grid, [placed.x, placed.y, placed.z]))
}

const HUNDREDTHS: Grid = Grid {
    decimals: 2,
    halvings: 12,
};

const PLACE: [i32; 3] = [204_800, -512_000, 1_228_800];

/// A coordinate in hundredths as text, behind `x `.
fn printed(alloc: Global, coordinate: i32) -> Result<Bytes, NoMemory> {
    let mut out = Bytes::from_slice(alloc, b"x ")?;
    print_grid(&HUNDREDTHS, coordinate, &mut out)?;
    Ok(out)
}

static TEXTS_OF_COORDINATES: [(i32, &[u8]); 6] = [
    (204_800, b"x 0.5"),
    (-512_000, b"x -1.25"),
    (1_228_800, b"x 3"),
    (0, b"x 0"),
    (1, b"x 0.00000244140625"),
    (-536_870_912, b"x -1310.72"),
];

/// Whether a coordinate has this text.
fn is_printed(alloc: Global, coordinate: i32, wanted: &[u8]) -> bool {
    match printed(alloc, coordinate) {
        Ok(text) => text.as_slice() == wanted,
        Err(NoMemory) => false,
    }
}

#[test]
fn places_and_their_texts(rt: HostRuntime) {
    assert!(rt; placed(rt.alloc()) == Some((HUNDREDTHS, PLACE)));
    for (coordinate, wanted) in &TEXTS_OF_COORDINATES {
        assert!(rt; is_printed(rt.alloc(), *coordinate, wanted), "{coordinate}");
    }
}

static RATIONAL_PLACES: [(&[u8], i64); 7] = [
    (b"0.5", 20_000_000),
    (b"-0.00000015", -8),
    (b"0.00000014", 4),
    (b"13421772.8", 536_870_912_000_000),
    (b"13421772.80000004", 536_870_912_000_000),
    (b"13421772.8000001", 536_870_913_000_000),
    (b"-1e35", -536_870_913_000_000),
];

const QUARTER_TENTHS: Grid = Grid {
    decimals: 1,
    halvings: 2,
};

const MINUS_TENTH: Decimal = Decimal {
    value: -1,
    scale: 1,
};

/// The rational place of a point with this first coordinate.
fn rational_place(x: &[u8]) -> Option<(i64, i64, i64, i64)> {
    let p = to_rat(&QUARTER_TENTHS, &point(1, x, MINUS_TENTH)?);
    Some((p.x, p.y, p.z, p.w))
}

#[test]
fn rational_places(rt: HostRuntime) {
    for (x, wanted) in &RATIONAL_PLACES {
        assert!(rt;
            rational_place(x) == Some((*wanted, 0, -4_000_000, 1_000_000)),
            "{x:?}"
        );
    }
}

/// The midpoint of a point and the point at 2 on the first axis.
fn middle(x: i8, y: i8, z: i8) -> Option<[i32; 3]> {
    let p = GridPoint {
        x: i32::from(x),
        y: i32::from(y),
        z: i32::from(z),
    };
    let m = midpoint(p, GridPoint { x: 2, y: 0, z: 0 })?;
    Some([m.x, m.y, m.z])
}

/// Whether the points at these places have no midpoint.
fn have_none() -> bool {
    middle(1, 0, 0).is_none() && middle(0, -3, 0).is_none() && middle(0, 0, 5).is_none()
}

/// A corner of the cube of all points, and the opposite one.
const LEAST: GridPoint = GridPoint {
    x: -536_870_912,
    y: 536_870_912,
    z: -536_870_912,
};

const GREATEST: GridPoint = GridPoint {
    x: 536_870_912,
    y: -536_870_912,
    z: 536_870_912,
};

/// The point from which the way to the last one has no midpoint, where each way begins at the
/// midpoint of the one before, and how many midpoints there were.
fn halved_ways(first: GridPoint, last: GridPoint) -> (GridPoint, u32) {
    let mut from = first;
    for halvings in 0..40u32 {
        let Some(m) = midpoint(from, last) else {
            return (from, halvings);
        };
        from = m;
    }
    (from, 40)
}

const NEXT_TO_GREATEST: GridPoint = GridPoint {
    x: 536_870_911,
    y: -536_870_911,
    z: 536_870_911,
};

#[test]
fn midpoints(rt: HostRuntime) {
    assert!(rt; middle(0, 4, -6) == Some([1, 2, -3]));
    assert!(rt; have_none());
    assert!(rt; halved_ways(LEAST, GREATEST) == (NEXT_TO_GREATEST, 30));
    assert!(rt; midpoint(GREATEST, GREATEST) == Some(GREATEST));
}

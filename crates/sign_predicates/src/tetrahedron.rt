use crate::GridPoint;

/// The four corners of a tetrahedron. It is positive where `orient(a, b, c, d)` is above 0.
#[derive(Clone, Copy, Debug, PartialEq, Eq)]
pub struct Corners {
    pub a: GridPoint,
    pub b: GridPoint,
    pub c: GridPoint,
    pub d: GridPoint,
}

/// The numbers of a tetrahedron's corners, which are places in a list of points, from 0.
#[derive(Clone, Copy, Debug, PartialEq, Eq)]
pub struct Numbers {
    pub a: u32,
    pub b: u32,
    pub c: u32,
    pub d: u32,
}

/// The sign of a number.
#[derive(Clone, Copy, Debug, PartialEq, Eq)]
pub enum Sign {
    Below,
    Zero,
    Above,
}

/// How a tetrahedron holds a point: strictly inside, on its surface, or not at all.
#[derive(Clone, Copy, Debug, PartialEq, Eq)]
pub enum Hold {
    Inside,
    Touching,
    Outside,
}

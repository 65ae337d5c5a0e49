//! The rows of a lattice in a tetrahedron.
use mesh_parts::{Spot, opposite, times};

/// A half space by a corner of its plane and its normal, which points into it.
#[derive(Clone, Copy)]
struct HalfSpace {
    corner: Spot,
    normal: Spot,
}

/// Places along the first axis, from `low` to `high`.
#[derive(Clone, Copy)]
pub(crate) struct Row {
    pub(crate) low: i64,
    pub(crate) high: i64,
}

impl Row {
    /// The number of whole places.
    pub(crate) fn count(self) -> i128 {
        let length = i128::from(self.high).wrapping_sub(i128::from(self.low));
        length.wrapping_add(1)
    }
}

impl HalfSpace {
    /// The part of a row at these other coordinates that is in the half space.
    fn cut(&self, row: Row, y: i64, z: i64) -> Row {
        let n = self.normal;
        let Row { low, high } = row;
        let side = times(n.y, y.wrapping_sub(self.corner.y));
        let offset = side.wrapping_add(times(n.z, z.wrapping_sub(self.corner.z)));
        let uncut = if offset < 0 { EMPTY } else { row };
        let Some(steps) = offset.checked_div_euclid(i128::from(n.x).wrapping_abs()) else {
            return uncut;
        };
        let Ok(steps) = i64::try_from(steps) else {
            return uncut;
        };
        if n.x > 0 {
            let first = self.corner.x.wrapping_sub(steps);
            return Row {
                low: low.max(first),
                high,
            };
        }
        let last = self.corner.x.wrapping_add(steps);
        Row {
            low,
            high: high.min(last),
        }
    }
}

/// A row with no place.
const EMPTY: Row = Row { low: 1, high: 0 };

/// A positive tetrahedron by the half spaces whose common part it is, and the least box about it.
#[derive(Clone, Copy)]
pub(crate) struct Hull {
    faces: [HalfSpace; 4],
    pub(crate) low: Spot,
    pub(crate) high: Spot,
}

/// The half space of a face.
fn half_space(s: &[Spot; 4], k: usize) -> HalfSpace {
    let [a, b, c] = opposite(s, k);
    HalfSpace {
        corner: a,
        normal: b.from(a).cross(c.from(a)),
    }
}

/// The least of four numbers.
fn least(a: i64, b: i64, c: i64, d: i64) -> i64 {
    a.min(b).min(c).min(d)
}

/// The greatest of four numbers.
fn greatest(a: i64, b: i64, c: i64, d: i64) -> i64 {
    a.max(b).max(c).max(d)
}

impl Hull {
    /// The tetrahedron with these corners.
    pub(crate) fn new(s: &[Spot; 4]) -> Hull {
        let [a, b, c, d] = *s;
        Hull {
            faces: [
                half_space(s, 0),
                half_space(s, 1),
                half_space(s, 2),
                half_space(s, 3),
            ],
            low: Spot {
                x: least(a.x, b.x, c.x, d.x),
                y: least(a.y, b.y, c.y, d.y),
                z: least(a.z, b.z, c.z, d.z),
            },
            high: Spot {
                x: greatest(a.x, b.x, c.x, d.x),
                y: greatest(a.y, b.y, c.y, d.y),
                z: greatest(a.z, b.z, c.z, d.z),
            },
        }
    }

    /// The row at these other coordinates in the tetrahedron.
    pub(crate) fn row(&self, y: i64, z: i64) -> Row {
        let mut row = Row {
            low: self.low.x,
            high: self.high.x,
        };
        for face in self.faces {
            row = face.cut(row, y, z);
        }
        row
    }
}

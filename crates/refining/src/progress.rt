//! How the share of slim tetrahedra falls, round by round.

use complex_mesh::ComplexMesh;
use geo_laws::{Points, Tet};
use sign_predicates::{Corners, GridPoint};
use tet_shapes::{Ratio, is_slim_at};

/// After how many rounds in which the share of slim tetrahedra does not fall refinement ends.
const ROUNDS: u32 = 6;

/// The least share of slim tetrahedra in the meshes of some rounds, and for how many it did not
/// fall by six in a hundred.
#[derive(Clone, Copy, Debug)]
pub(crate) struct Progress {
    slim: usize,
    all: usize,
    points: usize,
    rounds: u32,
}

/// The point with this number.
fn point_at(points: &Points, i: u32) -> Option<GridPoint> {
    points.as_slice().get(i as usize).copied()
}

/// The corners of a tetrahedron.
fn corners_of(points: &Points, row: Tet) -> Option<Corners> {
    Some(Corners {
        a: point_at(points, row.a)?,
        b: point_at(points, row.b)?,
        c: point_at(points, row.c)?,
        d: point_at(points, row.d)?,
    })
}

/// Whether a tetrahedron is over a ratio whose terms are at most `2^20`.
fn is_slim(points: &Points, row: Tet, ratio: Ratio) -> bool {
    match corners_of(points, row) {
        Some(corners) if ratio.over <= 1 << 20 && ratio.under <= 1 << 20 => {
            is_slim_at(corners, ratio)
        }
        _ => false,
    }
}

/// How many tetrahedra of a mesh are over a ratio.
pub(crate) fn slim_in(mesh: &ComplexMesh, ratio: Ratio) -> usize {
    let mut count = 0_usize;
    for row in mesh.tetrahedra.as_slice() {
        if is_slim(&mesh.points, *row, ratio) {
            count = count.wrapping_add(1);
        }
    }
    count
}

/// The product of two numbers.
fn times(x: usize, y: usize) -> u128 {
    (x as u128).wrapping_mul(y as u128)
}

impl Progress {
    /// Before the first round.
    pub(crate) fn new() -> Progress {
        Progress {
            slim: 1,
            all: 0,
            points: 0,
            rounds: 0,
        }
    }

    /// Whether the share of slim tetrahedra of a mesh is less than the least one by six in a
    /// hundred.
    fn is_passed(&self, slim: usize, all: usize) -> bool {
        let less = times(slim, self.all).wrapping_mul(100);
        less < times(self.slim, all).wrapping_mul(94)
    }

    /// Notes the mesh of a round, unless it was noted last, and reports whether the share of slim
    /// tetrahedra fell in one of the last rounds, or is below a sixteenth, or the points became a
    /// tenth more.
    pub(crate) fn goes_on(&mut self, mesh: &ComplexMesh, ratio: Ratio) -> bool {
        if self.points == mesh.points.len() {
            return true;
        }
        let is_grown = mesh.points.len() > self.points.saturating_add(self.points / 10);
        self.points = mesh.points.len();
        let slim = slim_in(mesh, ratio);
        let all = mesh.tetrahedra.len();
        if is_grown || slim <= all / 16 || self.is_passed(slim, all) {
            self.slim = slim;
            self.all = all;
            self.rounds = 0;
        } else {
            self.rounds = self.rounds.saturating_add(1);
        }
        self.rounds < ROUNDS
    }
}

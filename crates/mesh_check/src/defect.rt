//! The defects of a mesh.

/// A defect of a mesh. Tetrahedra (rows) and listed faces are named by their places, from 0, and a
/// corner by its place in its row, from 0.
#[derive(Clone, Copy, Debug, PartialEq, Eq)]
pub enum Defect {
    /// The tetrahedron is not positively oriented.
    NotPositive { row: usize },
    /// The two tetrahedra share a face, and their corners opposite it lie on one side of it.
    SameSide { one: usize, two: usize },
    /// There are not as many rows of neighbors as tetrahedra.
    NeighborCount,
    /// The neighbor of the tetrahedron across the face opposite the corner is not the one that is
    /// listed.
    WrongNeighbor { row: usize, corner: u8 },
    /// The listed face is a face of no tetrahedron.
    Stray { face: usize },
    /// The face of the tetrahedron opposite the corner is a face of no other one, and is not
    /// listed.
    Unlisted { row: usize, corner: u8 },
    /// The two tetrahedra share a face that is not listed and are not locally Delaunay across it:
    /// the opposite corner of the second is strictly inside the circumsphere of the first.
    Bent { one: usize, two: usize },
}

/// The result of a check: no defect, or the first one.
#[derive(Clone, Copy, Debug, PartialEq, Eq)]
pub enum Verdict {
    Sound,
    Fault(Defect),
}

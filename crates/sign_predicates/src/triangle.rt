use crate::GridPoint;

/// The corners of a triangle, which may lie on a line. A segment is the triangle with its second
/// end twice.
#[derive(Clone, Copy)]
pub(crate) struct GridTriangle {
    pub(crate) a: GridPoint,
    pub(crate) b: GridPoint,
    pub(crate) c: GridPoint,
}

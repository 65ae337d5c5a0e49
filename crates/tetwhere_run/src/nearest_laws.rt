//! Queries at points of the mesh, over the definitions alone.

ghost use Rattle.tetwhere_run.specs.Corners.{HeldCornerLaw, KeptPointLaw, MovedPointLaw};

/// A query that is a point of the mesh, as decimal numbers, is rounded to exactly that point.
pub fn law_kept_point()
    ensures { KeptPointLaw }
{}

/// A query at a point of the mesh that is a corner of a row is held by a row, where all rows are
/// positive.
pub fn law_held_corner()
    ensures { HeldCornerLaw }
{}

/// A query that is a point of the mesh, as decimal numbers, is that point too where both are
/// measured from a point with whole coordinates.
pub fn law_moved_point()
    ensures { MovedPointLaw }
{}

//! What is true of moved coordinates.

ghost use Rattle.mesh_check.specs.Moving.{MovedLaw};

/// A coordinate less that of an origin is exactly that difference, where it has at most 36 digits.
pub fn law_moved()
    ensures { MovedLaw }
{}

//! The law of points that are appended to those of a complex.
ghost use Rattle.refining.specs.Laws.{MeshableLaw};

/// A complex stays meshable when points are put behind its own, with as many halvings as their
/// coordinates allow.
pub fn law_meshable()
    ensures { MeshableLaw }
{}

//! The law of the mesh of a complex with no further points.
ghost use Rattle.refining.specs.Refined.{PlainLaw};

/// With no point behind its own and as many halvings as the grid allows, the mesh of a complex is
/// the one of a run.
pub fn law_plain()
    ensures { PlainLaw }
{}

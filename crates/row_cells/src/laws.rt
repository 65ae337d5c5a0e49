//! The law of the slabs along x into which a tetrahedron reaches.

ghost use Rattle.row_cells.specs.Parts.{ReachLaw};

/// A tetrahedron reaches into a slab exactly where its closure meets the slab.
pub fn law_reach()
    ensures { ReachLaw }
{}

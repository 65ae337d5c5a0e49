//! The law of coordinates that are measured from an origin.
ghost use Rattle.run_laws.specs.Measured.{WrittenBackLaw};

/// A coordinate that is measured from an origin is written as it was, exactly.
pub fn law_written_back()
    ensures { WrittenBackLaw }
{}

//! The laws of the decimals of floats.

ghost use Rattle.binary_floats.specs.Laws.{ShortestLaw};

/// The decimal of a float below 2^23 reads back as it, no decimal with fewer digits behind the
/// point does, and none with as many is nearer.
pub fn law_shortest()
    ensures { ShortestLaw }
{}

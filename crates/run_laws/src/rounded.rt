//! Laws of coordinates that are rounded.
ghost use Rattle.run_laws.specs.Rounded.{MultipleNearLaw, RoundedNearLaw};

/// A number that is rounded to some decimals moves by at most half a unit of the last one.
pub fn law_rounded_near()
    ensures { RoundedNearLaw }
{}

/// A number that is rounded to a multiple of a unit moves by at most half of it.
pub fn law_multiple_near()
    ensures { MultipleNearLaw }
{}

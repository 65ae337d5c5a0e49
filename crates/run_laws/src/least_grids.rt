//! What is written in decimals fits the least grid of these.
ghost use Rattle.run_laws.specs.LeastGrids.{FittingLaw, SettlingLaw, SameSignsLaw, RereadLaw};

/// The decimals of points of a grid fit their least grid, on which each coordinate is one number of
/// times smaller.
pub fn law_fits()
    ensures { FittingLaw }
{}

/// `settle_least` answers points that are written in decimals of a grid, or is out of memory.
pub fn law_settles()
    ensures { SettlingLaw }
{}

/// Orient3d and insphere have the same signs for points that are a number of times larger.
pub fn law_same_signs()
    ensures { SameSignsLaw }
{}

/// The text of a coordinate is read back as its decimal, where it has at most 35 decimals.
pub fn law_reread()
    ensures { RereadLaw }
{}

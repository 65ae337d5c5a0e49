//! Ties by least numbers and by rising number.

ghost use Rattle.sign_predicates.specs.Ties.{TieLaw};

/// For five different numbers `outside` is the rule that takes the points by rising number.
pub fn law_ties()
    ensures { TieLaw }
{}

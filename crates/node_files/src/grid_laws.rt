//! The laws of the terms of a decimal and of grid units.

ghost use Rattle.node_files.specs.Terms.{TermsLaw};
ghost use Rattle.node_files.specs.LeastGrid.{UnitsLaw};

/// Each decimal is the fraction of its terms, which is in lowest terms.
pub fn law_terms()
    ensures { TermsLaw }
{}

/// A number that is whole on a grid is exactly its number of the grid's units.
pub fn law_units()
    ensures { UnitsLaw }
{}

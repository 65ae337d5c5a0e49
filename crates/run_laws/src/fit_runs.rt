//! A run of `tetfit` beside one of `tetgen`.
ghost use Rattle.run_laws.specs.AsTetgen.{FitAsTetgenLaw};

/// The outputs of a run of `tetfit` without bounds on tetrahedra, measured from no origin, are what
/// `tetgen` answers with the same decimals, but for the decimals in the summary and the line behind
/// it on rounded coordinates: where `tetgen` reads the model within its limits, and its grid is
/// halved as often.
pub fn law_fit_as_tetgen()
    ensures { FitAsTetgenLaw }
{}

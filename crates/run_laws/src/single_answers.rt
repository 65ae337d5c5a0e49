//! An input has one mesh and one set of outputs, and runs over the same files leave the same files.
ghost use Rattle.run_laws.specs.OneFit.{OneFitLaw};
ghost use Rattle.run_laws.specs.OneMesh.{OneLeftLaw, OneMeshedLaw, OneOutputsLaw, OneRunLaw};

/// Points that are on their grid, weighted or not, or the complex on them have one mesh.
pub fn law_one_meshed()
    ensures { OneMeshedLaw }
{}

/// An input has one set of outputs by its options, byte for byte.
pub fn law_one_outputs()
    ensures { OneOutputsLaw }
{}

/// Two runs by the same words over folders that hold the same files have the same outputs.
pub fn law_one_run()
    ensures { OneRunLaw }
{}

/// Two such runs that are done leave the same files and write the same summaries.
pub fn law_one_left()
    ensures { OneLeftLaw }
{}

/// Two runs of `tetfit` without bounds on tetrahedra, by the same words over folders that hold the
/// same files, have the same outputs.
pub fn law_one_fit()
    ensures { OneFitLaw }
{}

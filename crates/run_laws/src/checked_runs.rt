//! A check of the files that a run leaves finds a sound mesh.
ghost use Rattle.run_laws.specs.CheckedRun.{CheckedAfterLaw, CheckedRunLaw, FewDecimalsLaw};

/// The check of the files that a run leaves answers that the mesh is sound, with its number of
/// tetrahedra.
pub fn law_checked_run()
    ensures { CheckedRunLaw }
{}

/// A later run that checks the files that a run left has the answer Done.
pub fn law_checked_after()
    ensures { CheckedAfterLaw }
{}

/// A coordinate has at most 35 decimals where the grid's decimals and halvings are at most 35
/// together, as they are where no coordinate of the input has over 23 decimals.
pub fn law_few_decimals()
    ensures { FewDecimalsLaw }
{}

//! Which checks of a mesh and which queries are done.
ghost use Rattle.run_laws.specs.CompleteChecks.{CheckCompleteLaw, WhereCompleteLaw};

/// The check of the files of a mesh without a defect is done, where nothing fails and memory does
/// not run out.
pub fn law_check_complete()
    ensures { CheckCompleteLaw }
{}

/// Queries over the files of a mesh whose tetrahedra are positive are answered, where nothing fails
/// and memory does not run out.
pub fn law_where_complete()
    ensures { WhereCompleteLaw }
{}

//! Laws of surgery in a mesh of lowest tetrahedra.
ghost use Rattle.mesh_laws.specs.LowestReplaced.{LowestReplacedLaw, LowestSameMeshLaw};

/// The star of a new point in place of its whole cavity makes the mesh with that point. Points that
/// were corners of tetrahedra of the cavity alone are hidden then. Source: incremental insertion
/// (Bowyer 1981, Watson 1981; for regular triangulations Edelsbrunner and Shah 1996).
pub fn law_replaced()
    ensures { LowestReplacedLaw }
{}

/// A mesh of lowest tetrahedra is one in whatever order the numbers of its points stand.
pub fn law_same_mesh()
    ensures { LowestSameMeshLaw }
{}

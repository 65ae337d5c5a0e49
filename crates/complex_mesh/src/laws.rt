//! The laws of the answer to a complex.
ghost use Rattle.complex_mesh.specs.OneAnswer.{OneFaultLaw, NoFaultLaw};

/// At most one of the causes why a complex has no mesh holds, apart from lack of memory; the
/// anomalies, where two facets cross a Delaunay tetrahedron, may hold together, but beside them no
/// other cause holds.
pub fn law_one_fault()
    ensures { OneFaultLaw }
{}

/// Where a complex has a mesh, none of the causes why a complex has no mesh holds, apart from lack
/// of memory and the anomalies.
pub fn law_no_fault()
    ensures { NoFaultLaw }
{}

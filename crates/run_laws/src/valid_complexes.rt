//! A valid complex has a mesh.
ghost use Rattle.run_laws.specs.Valid.{ValidComplexLaw};
ghost use Rattle.run_laws.specs.ValidRun.{ValidRunLaw};

/// Points that are not all in one plane, with a complex whose facets are flat and whose parts are
/// properly met, on whose segments protection ends well, have a mesh unless memory runs out,
/// provided that no two facets cross a Delaunay tetrahedron or no anomaly holds.
pub fn law_valid_complex()
    ensures { ValidComplexLaw }
{}

/// A run over such a complex ends well unless memory runs out: where its words are in the grammar,
/// the files that they name are read and within the limits of the run, whatever they are, and no
/// fetch, store or write failed.
pub fn law_valid_run()
    ensures { ValidRunLaw }
{}

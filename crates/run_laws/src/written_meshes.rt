//! The files of a mesh have no defect.
ghost use Rattle.run_laws.specs.Renamed.{RenamedLaw};
ghost use Rattle.run_laws.specs.WrittenMesh.{WrittenMeshLaw, KeptApartLaw, LargerUnitLaw};

/// The check finds no defect in tetrahedra that are apart and locally Delaunay across each common
/// face in no facet, with the faces on the hull and in facets, or all faces.
pub fn law_written()
    ensures { WrittenMeshLaw }
{}

/// Tetrahedra kept from a list that covers the hull once are apart.
pub fn law_kept_apart()
    ensures { KeptApartLaw }
{}

/// A mesh without a defect has none over the same points in a larger unit, as a check takes them.
pub fn law_larger_unit()
    ensures { LargerUnitLaw }
{}

/// A mesh without a defect has none where its points are named by their places in a longer list, as
/// in files that list equal points too.
pub fn law_renamed()
    ensures { RenamedLaw }
{}

//! The texts of a mesh are read back.
ghost use Rattle.run_laws.specs.Checked.{CheckedBackLaw};
ghost use Rattle.run_laws.specs.Listed.{ListedNamesLaw};
ghost use Rattle.run_laws.specs.NodeRead.{NodeReadLaw};
ghost use Rattle.run_laws.specs.ReadBack.{ReadBackLaw};
ghost use Rattle.run_laws.specs.Reread.{EleReadLaw, FaceReadLaw, NeighReadLaw};

/// The text of tetrahedra, with the attributes of regions or without them, is read back as the
/// tetrahedra, with each corner by its name.
pub fn law_ele_read()
    ensures { EleReadLaw }
{}

/// The text of faces is read back as the faces, with each corner by its name, and their markers.
pub fn law_face_read()
    ensures { FaceReadLaw }
{}

/// The text of neighbors is read back as the neighbors.
pub fn law_neigh_read()
    ensures { NeighReadLaw }
{}

/// The text of points is read back as a point list of as many points, whose decimals are the
/// numbers that their coordinates are, with the attributes and markers of the points.
pub fn law_node_read()
    ensures { NodeReadLaw }
{}

/// The texts of a mesh without a defect are read back as one without a defect, over the points on
/// the least grid of their decimals.
pub fn law_read_back()
    ensures { ReadBackLaw }
{}

/// The names of points that are kept of a list, and those of added points, are rising places in the
/// list with the added points behind it, at which the same points are found.
pub fn law_listed()
    ensures { ListedNamesLaw }
{}

/// The check of the files that are written of a mesh without a defect answers that it is sound,
/// with its number of tetrahedra.
pub fn law_checked_back()
    ensures { CheckedBackLaw }
{}

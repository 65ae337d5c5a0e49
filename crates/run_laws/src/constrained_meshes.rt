//! The list of which the mesh of a complex is what carving keeps is the constrained Delaunay
//! triangulation; and a complex has one mesh.
ghost use Rattle.run_laws.specs.Constrained.{ConstrainedMeshLaw, ConstrainedOnceLaw};
ghost use Rattle.run_laws.specs.OneMesh.{OneMeshLaw};

/// Two lists of tetrahedra that fill the hull face to face, have the facets as faces and are
/// locally Delaunay across each other face are the same, where each point is a corner in both.
/// Source: where a tetrahedron of each holds a point, no corner of the one is in the other's
/// circumsphere, since the leg to it from that point lies within the one; so both are lowest among
/// the corners of both.
pub fn law_constrained_once()
    ensures { ConstrainedOnceLaw }
{}

/// In the list of which the mesh of a complex is a part each point is a corner, each subsegment is
/// an edge, and there is no other such list.
pub fn law_constrained_mesh()
    ensures { ConstrainedMeshLaw }
{}

/// A complex has one mesh: two that have the parts of one have the same points, triangles,
/// tetrahedra and marks, whatever flips or growth came to the list that is carved.
pub fn law_one_mesh()
    ensures { OneMeshLaw }
{}

//! The numbers in what is read.
ghost use Rattle.run_laws.specs.Numbers.{NodesReadLaw, PlcReadLaw, SurfaceReadLaw};

/// The first number of a point list that is read is 0 or 1, and its markers have at most 18 digits.
pub fn law_nodes_read()
    ensures { NodesReadLaw }
{}

/// In a complex that is read, the first number of the point list is 0 or 1, and the markers of its
/// points and facets have at most 18 digits.
pub fn law_plc_read()
    ensures { PlcReadLaw }
{}

/// In a surface that is read, the first number of the point list is 0 or 1, and the markers of its
/// points and facets have at most 18 digits.
pub fn law_surface_read()
    ensures { SurfaceReadLaw }
{}

//! Meshes of arrays: the Delaunay list of an array of points, and the mesh of a complex whose
//! points, corners, polygons and facets are arrays; and the points of an array of floats.
#![tactic(auto)]

mod arrays;
mod cells;
mod complexes;
mod doubles;
mod fault;
mod meshes;
mod parts;

pub use arrays::{ArrayFault, Place, Row, delaunay_into, delaunay_rows};
pub use cells::{Cell, MarkedFace};
pub use complexes::{ArrayComplex, ArrayOptions, Facet, Polygon};
pub use doubles::{DoubleFault, DoublePoint, places_into};
pub use fault::{ComplexFault, Counts};
pub use meshes::{ArrayMesh, mesh_arrays, mesh_into};

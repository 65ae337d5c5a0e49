//! Points that a tetrahedral mesh is to get so that no tetrahedron is over a volume, or has a
//! circumradius over a ratio to its shortest edge. Nothing but safety is proved: whether the points
//! are taken is decided elsewhere.
//!
//! A tetrahedron far over the volume is filled with the points of a body-centered cubic lattice,
//! whose Delaunay tetrahedra are all alike and have dihedral angles of 60 and 90 degrees; its
//! subfaces get points of a triangular lattice, and its subsegments points at even distances. Each
//! other tetrahedron over a bound gets its circumcenter, or a point in a subface or on a subsegment
//! that is in the way of it or would be encroached (Shewchuk, Tetrahedral Mesh Generation by
//! Delaunay Refinement, 1998).
//!
//! A point for the shape of a tetrahedron keeps nearly the length of its shortest edge from the
//! points nearby, or a part of the floor there, which depends on the input alone: so lengths have a
//! bound, and the rounds end. Edges and tetrahedra between parts of the input that meet at less
//! than 60 degrees are not asked for.
#![tactic(auto)]

mod buckets;
mod fill;
mod floors;
mod foot;
mod large;
mod proposal;
mod refiner;
mod region;
mod rows;
mod slim;
mod splits;
mod taken;
mod walk;

pub use proposal::{Aim, FEW, propose};

//! A living tetrahedral mesh in an arena of slots.
//!
//! Each live slot has four corners, and behind each of its four faces a neighbor or none. Points
//! are known by their numbers alone. The space outside of the hull is cut into ghosts, slots with
//! one corner at infinity. The face with a number below 4 is the one opposite the corner in that
//! place. Neighbors are mutual, and share the face's three corners.
#![tactic(auto)]

mod arena;
mod cell;
mod cut;
mod edge;
mod edges;
mod hashed;
mod rows;
mod slot;
mod square;
mod star;
mod surgery;

pub use arena::{Arena, SlotFace};
pub use slot::{Cavity, Corner, Rim, RimFace, Slot, SlotCorners};

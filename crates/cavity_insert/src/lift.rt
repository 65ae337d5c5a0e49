//! Points that are lifted into a fourth dimension, over whose lower hull their mesh lies.
ghost use Rattle.std.specs.Prelude.{◌≡◌, ◌↔◌, ℕ, ℤ, List, IsTrue};
ghost use Rattle.sign_predicates.specs.Point.{Point};
ghost use Rattle.insert_laws.specs.LowestInsertion.{HasAbove};
ghost use Rattle.cavity_insert.specs.Lift.{IsRowFor};

use geo_laws::{Points, Tet};

/// A list of points, each with a height of its own: the squared lengths give the Delaunay mesh, the
/// squared lengths less the points' weights the regular one. A mesh of lifted points is built from
/// one test, `is_outside`.
///
/// Source: the lifting map (Edelsbrunner and Seidel 1986).
pub trait Lift {
    /// The points.
    ghost points: { Self → List Point };

    /// The height of the point with this number, in squares of grid units.
    ghost heights: { Self → ℕ → ℤ };

    /// The points, in the order of their numbers.
    fn points(&self) -> &Points
        ensures { result.now ≡ points self.now };

    /// The insphere test of the lifting: whether the point with this number is outside of a
    /// positive tetrahedron: lifted, it is above the hyperplane through the lifted corners. Ties
    /// are broken by the points' numbers (simulation of simplicity).
    fn is_outside(&self, row: Tet, number: u32) -> bool
        requires { IsRowFor (points self.now) row number }
        ensures { IsTrue result
            ↔ HasAbove (heights self.now) (points self.now) row number };
}

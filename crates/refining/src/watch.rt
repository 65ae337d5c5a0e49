//! What is shown of the rounds of a refinement.

ghost use Rattle.std.specs.Prelude.{◌≡◌, ◌++◌, ◌∷◌, [], List, All, IfSome, OnErr, OnOk, length};
ghost use Rattle.geo_laws.specs.Delaunay.{IsOn};
ghost use Rattle.tet_shapes.specs.Shape.{IsFine};
ghost use Rattle.refining.specs.Rounds.{IsRoundIn};

use crate::counts::{Counts, Marked, counts_of};
use crate::goal::ShapeBounds;
use crate::worst::{Worst, worst_in};
use complex_mesh::ComplexMesh;
use grid_coords::{Grid, WholePoint};
use std::alloc::Global;
use tet_ports::NoMemory;

/// The unit of the coordinates of a mesh, and the origin from which they are measured, where there
/// is one.
#[derive(Clone, Copy, Debug, PartialEq, Eq)]
pub struct Frame {
    pub grid: Grid,
    pub origin: Option<WholePoint>,
}

/// The mesh of a round, by its numbers and by where it is worst.
#[derive(Clone, Copy, Debug, PartialEq, Eq)]
pub struct Round {
    pub points: usize,
    pub tetrahedra: usize,
    /// How many tetrahedra are beyond each bound.
    pub counts: Counts,
    /// What the coordinates of `worst` are in.
    pub frame: Frame,
    pub worst: Worst,
}

/// Is shown the mesh of each round.
pub trait Watch {
    ghost use Rattle.refining.specs.declared.watch.Round.{Round};
    ghost use Rattle.refining.specs.Rounds.{IsPrintable};

    /// It was shown these rounds from one of its states to another.
    ghost shown: { List Round → Self → Self → Type 0 };

    /// Whether it asks to be shown rounds.
    fn asks(&self) -> bool;

    /// Takes note of a round; refuses when out of memory, and then it was shown none.
    fn show(&mut self, alloc: Global, round: &Round) -> Result<(), NoMemory>
        requires { IsPrintable round.now.frame }
        ensures shown { OnOk result (shown (round.now ∷ []) self.old self.new) }
        ensures kept { OnErr result (shown [] self.old self.new) };

    /// From a state to itself it is shown no round.
    ghost nothing: { (s : Self) → shown [] s s };

    /// What it is shown in two steps it is shown in both.
    ghost both: { (a b : List Round) (s t u : Self) → shown a s t → shown b t u
        → shown (a ++ b) s u };
}

/// The numbers of a mesh whose coordinates are in this frame, and where it is worst.
pub(crate) fn round_of(made: &ComplexMesh, shapes: &ShapeBounds, frame: Frame) -> Round
    requires on { All (IsOn made.now.points) made.now.tetrahedra }
    requires fine { IfSome shapes.now.ratio IsFine }
    ensures { IsRoundIn shapes.now frame made.now result }
{
    let mesh = Marked {
        points: &made.points,
        tetrahedra: &made.tetrahedra,
        marks: &made.marks,
    };
    Round {
        points: made.points.len(),
        tetrahedra: made.tetrahedra.len(),
        counts: counts_of(mesh, shapes),
        frame,
        worst: worst_in(&made.points, &made.tetrahedra, shapes),
    }
}

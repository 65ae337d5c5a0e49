//! What a refined mesh is to be like.

ghost use Rattle.std.specs.Prelude.{◌≡◌, ◌≤◌, IfOk, IfSome, option_and_then};
ghost use Rattle.std.specs.Option.{option_map};
ghost use Rattle.tet_shapes.specs.Angle.{squared_cosine};
ghost use Rattle.tet_shapes.specs.Shape.{IsFine};
ghost use Rattle.refining.specs.Goals.{IsFineGoal, IsFineShape, goal_volumes, shape_bounds};
ghost use Rattle.refining.specs.Goals.{shape_angle, shape_cosine, shape_ratio};

use grid_coords::Grid;
use run_steps::Bound;
use std::alloc::Global;
use tet_ports::NoMemory;
use tet_shapes::{Ratio, VolumeBounds, squared_cosine, volume_bounds};
use tet_text::Decimal;

/// The shape that tetrahedra are to have.
#[derive(Clone, Copy, Debug, PartialEq, Eq)]
pub struct Shape {
    /// The greatest ratio of the circumradius to the shortest edge.
    pub ratio: Ratio,
    /// The least dihedral angle that is aimed at, in degrees, at most 30, where there is one.
    pub angle: Option<u32>,
}

/// What the tetrahedra of a refined mesh are to be like, and where points may be added for that.
#[derive(Clone, Copy, Debug)]
pub struct Goal {
    /// Whether volumes are bounded: by the volume limits of regions, where regions are marked, and
    /// by `volume`, where it is given.
    pub bounds_volumes: bool,
    /// The greatest volume in any region, in cubes of the model's unit.
    pub volume: Option<Decimal>,
    /// The shape, where it is bounded.
    pub shape: Option<Shape>,
    /// Whether points may be added on segments and in facets.
    pub splits_boundary: bool,
}

/// The bounds of a goal on the tetrahedra of a mesh, in the units of its grid.
#[derive(Debug, Drop)]
pub struct ShapeBounds {
    /// The bounds on volumes, where these are bounded.
    pub volumes: Option<VolumeBounds>,
    /// The greatest ratio of the circumradius to the shortest edge.
    pub ratio: Option<Ratio>,
    /// The least dihedral angle that is aimed at, in degrees.
    pub angle: Option<u32>,
    /// The squared cosine of this angle.
    pub cosine: Option<Ratio>,
}

/// The greatest ratio of the circumradius to the shortest edge, where the shape is bounded.
fn shape_ratio(shape: Option<Shape>) -> Option<Ratio>
    requires { IfSome shape IsFineShape }
    ensures value { result ≡ option_map shape_ratio shape }
    ensures fine { IfSome result IsFine }
{
    Some(shape?.ratio)
}

/// The least dihedral angle that is aimed at, in degrees, where there is one.
fn shape_angle(shape: Option<Shape>) -> Option<u32>
    ensures { result ≡ option_and_then shape_angle shape }
{
    shape?.angle
}

/// The squared cosine of the least dihedral angle that is aimed at, where there is one.
fn shape_cosine(shape: Option<Shape>) -> Option<Ratio>
    requires { IfSome shape IsFineShape }
    ensures { result ≡ option_and_then shape_cosine shape }
{
    match shape?.angle {
        Some(degrees) => Some(squared_cosine(degrees)),
        None => None,
    }
}

/// The bounds of a goal on volumes, where these are bounded.
fn goal_volumes(
    alloc: Global,
    grid: Grid,
    goal: &Goal,
    limits: &[Option<Decimal>],
) -> Result<Option<VolumeBounds>, NoMemory>
    requires { IsFineGoal goal.now }
    ensures { IfOk result (λ volumes. volumes ≡ goal_volumes grid goal.now limits.now) }
{
    if goal.bounds_volumes {
        let volumes = volume_bounds(alloc, grid, &goal.volume, limits)?;
        Ok(Some(volumes))
    } else {
        Ok(None)
    }
}

/// The bounds of a goal on the tetrahedra of a mesh on the grid of its points, whose regions have
/// these volume limits.
pub fn shape_bounds(
    alloc: Global,
    bound: &Bound,
    goal: &Goal,
    limits: &[Option<Decimal>],
) -> Result<ShapeBounds, NoMemory>
    requires { IsFineGoal goal.now }
    ensures value { IfOk result (λ shapes. shapes ≡ shape_bounds bound.now goal.now limits.now) }
    ensures fine { IfOk result (λ shapes. IfSome shapes.ratio IsFine) }
{
    let volumes = goal_volumes(alloc, bound.table.grid, goal, limits)?;
    Ok(ShapeBounds {
        volumes,
        ratio: shape_ratio(goal.shape),
        angle: shape_angle(goal.shape),
        cosine: shape_cosine(goal.shape),
    })
}

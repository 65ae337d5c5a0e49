//! The Delaunay mesh of a list of points, and its list.
ghost use Rattle.std.specs.Prelude.{◌≡◌, ◌-◌, ◌^◌, ◌<◌, length, All, IfOk, OnOk, IsErrOf};
ghost use Rattle.geo_laws.specs.Delaunay.{numbers, all_numbers, has_corner, delaunay_rows};
ghost use Rattle.geo_laws.specs.Delaunay.{AreCoplanar, HasDistinctPoints, IsOn, IsDelaunayList};
ghost use Rattle.mesh_arena.specs.Mesh.{IsLive};
ghost use Rattle.mesh_laws.specs.LowestLiving.{IsLowestMesh};
ghost use Rattle.mesh_laws.specs.Living.{IsDelaunayMesh};
ghost use Rattle.cavity_insert.specs.Order.{IsOrderOf};

use crate::first::first_row;
use crate::grow::Growth;
use crate::insert::insert_point;
use crate::lift::Lift;
use crate::lifting::{Framed, lift_points};
use crate::order::{Turn, insertion_order};
use crate::rows::slot_rows;
use crate::start::start_mesh;
use crate::steps::Steps;
use geo_laws::{Points, Tet, TetList};
use mesh_arena::{Arena, Slot};
use std::alloc::Global;
use std::marker::Brand;
use std::sync::ledger::{Blank, Ledger};
use tet_ports::NoMemory;

/// Why there is no Delaunay list.
#[derive(Clone, Copy, Debug, PartialEq, Eq)]
pub enum BuildFault {
    /// All points lie in one plane.
    Flat,
    /// Out of memory.
    NoMemory,
}

impl From<NoMemory> for BuildFault {
    ghost use Rattle.std.specs.Prelude.{◌≡◌};
    ghost use Rattle.cavity_insert.specs.declared.meshing.BuildFault.TheVariants.{
      NoMemory as OutOfMemory,
    };

    ghost from_gives = { λ _ fault. fault ≡ OutOfMemory };

    fn from(_: NoMemory) -> BuildFault {
        BuildFault::NoMemory
    }
}

/// A Delaunay mesh, and one of its slots.
#[derive(Drop)]
pub(crate) struct Built {
    pub(crate) arena: Arena,
    pub(crate) last: Slot,
}

/// Whether a point is a corner of a tetrahedron.
#[inline]
pub fn has_corner(t: Tet, i: u32) -> bool
    ensures { result ≡ has_corner t i }
{
    t.a == i || t.b == i || t.c == i || t.d == i
}

/// Inserts the points in their turns into the mesh of the first tetrahedron, but for its corners.
fn insert_all<H: Lift, L: Ledger>(
    alloc: Global,
    built: &mut Built,
    lift: &H,
    first: Tet,
    turns: &[Turn],
    steps: &mut Steps<L>,
) -> Result<(), NoMemory>
    requires few { length (H.points lift.now) < 2 ^ 32 - 1 }
    requires order { IsOrderOf (length (H.points lift.now)) turns.now }
    requires mesh { IsLowestMesh (H.heights lift.now) built.old.arena.slots (H.points lift.now)
        (numbers first) }
    requires near { IsLive built.old.arena.slots built.old.last.index }
    ensures mesh { OnOk result
        (IsLowestMesh (H.heights lift.now) built.new.arena.slots (H.points lift.now)
        (all_numbers (H.points lift.now))) }
    ensures live { OnOk result (IsLive built.new.arena.slots built.new.last.index) }
{
    let mut growth = Growth::new(alloc);
    for turn in turns {
        if !has_corner(first, turn.number) {
            let near = built.last;
            let arena = &mut built.arena;
            let last = insert_point(arena, lift, turn.number, near, &mut growth, steps)?;
            built.last = last;
        }
    }
    Ok(())
}

/// The mesh of distinct points that are lifted: they are inserted one after another, and the tests
/// of slots are counted. `Flat` comes exactly where all points lie in one plane.
fn mesh_counted<H: Lift, L: Ledger>(
    alloc: Global,
    lift: &H,
    blank: Blank,
) -> Result<Built, BuildFault>
    requires name { blank.name ≡ L.name }
    requires parts { blank.parts ≡ L.parts }
    requires some { 0 < blank.parts }
    requires distinct { HasDistinctPoints (H.points lift.now) }
    requires few { length (H.points lift.now) < 2 ^ 32 - 1 }
    ensures mesh { IfOk result (λ b. IsLowestMesh (H.heights lift.now) b.arena.slots
        (H.points lift.now) (all_numbers (H.points lift.now))) }
    ensures live { IfOk result (λ b. IsLive b.arena.slots b.last.index) }
    ensures not_flat { OnOk result (¬ AreCoplanar (H.points lift.now)) }
    ensures flat { IsErrOf result BuildFault.Flat → AreCoplanar (H.points lift.now) }
{
    let points = lift.points();
    let Some(first) = first_row(points) else {
        return Err(BuildFault::Flat);
    };
    let turns = insertion_order(alloc, points)?;
    let (arena, last) = start_mesh(alloc, points, first)?;
    let mut built = Built { arena, last };
    let mut steps = Steps::<L>::new(blank);
    insert_all(alloc, &mut built, lift, first, &turns, &mut steps)?;
    Ok(built)
}

/// The mesh of distinct points that are lifted: its tetrahedra are the lower hull of the lifted
/// points, ties broken by the points' numbers (simulation of simplicity), and a ghost lies over
/// each face of the hull of the points. A point that is a corner of no tetrahedron is hidden.
/// `Flat` comes exactly where all points lie in one plane; fewer than four do.
///
/// The mesh starts from the first four points that are not in one plane: these alone are their own
/// lower hull, whatever their heights, and a later point may hide them. Source: incremental
/// insertion by cavities (Bowyer 1981, Watson 1981).
pub fn lowest_mesh<H: Lift>(alloc: Global, lift: &H) -> Result<Arena, BuildFault>
    requires distinct { HasDistinctPoints (H.points lift.now) }
    requires few { length (H.points lift.now) < 2 ^ 32 - 1 }
    ensures mesh { IfOk result (λ arena. IsLowestMesh (H.heights lift.now) arena.slots
        (H.points lift.now) (all_numbers (H.points lift.now))) }
    ensures not_flat { OnOk result (¬ AreCoplanar (H.points lift.now)) }
    ensures flat { IsErrOf result BuildFault.Flat → AreCoplanar (H.points lift.now) }
{
    let Built { arena, .. } = mesh_counted::<H, Brand>(alloc, lift, Blank::new(1))?;
    Ok(arena)
}

/// The Delaunay mesh of distinct points. `Flat` comes exactly where all points lie in one plane.
pub(crate) fn mesh_from<L: Ledger>(
    alloc: Global,
    points: &Points,
    blank: Blank,
) -> Result<Built, BuildFault>
    requires name { blank.name ≡ L.name }
    requires parts { blank.parts ≡ L.parts }
    requires some { 0 < blank.parts }
    requires distinct { HasDistinctPoints points.now }
    requires few { length points.now < 2 ^ 32 - 1 }
    ensures mesh { IfOk result
        (λ b. IsDelaunayMesh b.arena.slots points.now (all_numbers points.now)) }
    ensures live { IfOk result (λ b. IsLive b.arena.slots b.last.index) }
    ensures not_flat { OnOk result (¬ AreCoplanar points.now) }
    ensures flat { IsErrOf result BuildFault.Flat → AreCoplanar points.now }
{
    match lift_points(alloc, points) {
        Some(lifted) => {
            let framed = Framed::new(points, &lifted);
            mesh_counted::<Framed<'_>, L>(alloc, &framed, blank)
        }
        None => mesh_counted::<Points, L>(alloc, points, blank),
    }
}

/// The Delaunay list of distinct points: the positive tetrahedra that have every other point
/// outside of their circumsphere, ties broken by the points' numbers (simulation of simplicity),
/// ascending. `Flat` comes exactly where all points lie in one plane; fewer than four do.
pub fn delaunay(alloc: Global, points: &Points) -> Result<TetList, BuildFault>
    requires distinct { HasDistinctPoints points.now }
    requires few { length points.now < 2 ^ 32 - 1 }
    ensures rows { IfOk result (λ rows. rows ≡ delaunay_rows points.now) }
    ensures list { IfOk result (IsDelaunayList points.now) }
    ensures numbers { IfOk result (All (IsOn points.now)) }
    ensures not_flat { OnOk result (¬ AreCoplanar points.now) }
    ensures flat { IsErrOf result BuildFault.Flat → AreCoplanar points.now }
{
    let Built { arena, .. } = mesh_from::<Brand>(alloc, points, Blank::new(1))?;
    let found = slot_rows(alloc, &arena)?;
    // The arena is freed before the list is made, so that less memory is taken at once.
    arena.let_go();
    Ok(found.into_list(alloc)?)
}

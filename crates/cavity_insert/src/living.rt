//! A Delaunay mesh that points are added to.
ghost use Rattle.std.specs.Prelude.{◌≡◌, ◌≢◌, ◌⊎◌, ℕ, ◌+◌, ◌-◌, ◌^◌, ◌<◌, ◌++◌, [], ◌∷◌, ◌↔◌};
ghost use Rattle.std.specs.Prelude.{length, IsTrue, IfOk, OnOk, OnErr, IsErrOf};
ghost use Rattle.geo_laws.specs.Delaunay.{point, all_numbers, delaunay_rows, AreCoplanar};
ghost use Rattle.geo_laws.specs.Delaunay.{HasDistinctPoints, IsDelaunayList};
ghost use Rattle.mesh_arena.specs.Mesh.{corners_at, IsLive};
ghost use Rattle.mesh_laws.specs.Rule.{IsTaken};
ghost use Rattle.mesh_laws.specs.Living.{IsDelaunayMesh};
ghost use Rattle.cavity_insert.specs.Living.{IsLonger, IsDelaunaySide};
ghost use Rattle.cavity_insert.specs.Lost.{IsToldOf, AreLostSides};

use crate::grow::Growth;
use crate::insert::grow_at;
use crate::lost::tell_cavity;
use crate::meshing::{BuildFault, Built, mesh_from};
use crate::rows::rows_of;
use crate::sides::{side_by_scan, side_by_walk};
use crate::steps::Steps;
use geo_laws::{Points, TetList};
use mesh_arena::{Arena, Slot};
use sign_predicates::GridPoint;
use std::alloc::Global;
use std::marker::{Brand, Model};
use std::sync::ledger::{Blank, Ledger};
use tet_ports::NoMemory;

/// The points of a list and their Delaunay mesh, which stays one while points are added. Contracts
/// see the points and the slots of the mesh.
#[derive(Drop)]
pub struct Living {
    points: Points,
    arena: Arena,
    // A live slot, from which walks begin.
    last: Slot,
    growth: Growth,
    alloc: Global,
}

impl Model for Living {
    ghost use Rattle.cavity_insert.specs.Living.{LivingMesh, IsLiving};

    ghost Value = { LivingMesh };

    ghost view = { λ l. record { points = l.points; slots = l.arena.slots } };

    ghost invariant = { λ l. IsLiving l.points l.arena.slots l.last.index };
}

/// Adds the last point of a list to the mesh of the others, and answers a slot of its star. The
/// corners of the removed tetrahedra are appended to `lost`.
fn insert_last<L: Ledger>(
    arena: &mut Arena,
    points: &Points,
    near: Slot,
    growth: &mut Growth,
    blank: Blank,
    lost: &mut Vec<u32>,
) -> Result<Slot, NoMemory>
    requires name { blank.name ≡ L.name }
    requires parts { blank.parts ≡ L.parts }
    requires some { 0 < blank.parts }
    requires longer { IsLonger arena.old.slots points.now (length points.now - 1) }
    requires few { length points.now < 2 ^ 32 - 1 }
    requires near { IsLive arena.old.slots near.index }
    ensures mesh { OnOk result
        (IsDelaunayMesh arena.new.slots points.now (all_numbers points.now)) }
    ensures live { IfOk result (λ s. IsLive arena.new.slots s.index) }
    ensures stays { IfOk result (λ s. (u : ℕ) → IsLive arena.old.slots u
        → (IsTaken arena.old.slots points.now (point points.now (length points.now - 1))
        (length points.now - 1) u → ⊥)
        → corners_at arena.new.slots u ≡ corners_at arena.old.slots u) }
    ensures told { IfOk result (λ s. (u : ℕ) → IsLive arena.old.slots u
        → IsToldOf lost.new.items arena.old.slots u
        ⊎ (corners_at arena.new.slots u ≡ corners_at arena.old.slots u)) }
    ensures err { OnErr result (arena.new ≡ arena.old) }
{
    let number = (points.len() - 1) as u32;
    let mut steps = Steps::<L>::new(blank);
    if let Some(s) = grow_at(arena, points, number, near, growth, &mut steps)? {
        return Ok(s);
    }
    let cavity = growth.cavity.as_cavity();
    tell_cavity(arena, cavity, lost)?;
    arena.reserve(growth.rim.len())?;
    arena.replace_cavity(cavity, &growth.rim, number)
}

impl Living {
    /// The mesh of distinct points. `Flat` comes exactly where all points lie in one plane; fewer
    /// than four do.
    pub fn new(alloc: Global, points: Points) -> Result<Living, BuildFault>
        requires distinct { HasDistinctPoints points }
        requires few { length points < 2 ^ 32 - 1 }
        ensures points { IfOk result (λ l. l.points ≡ points) }
        ensures not_flat { OnOk result (¬ AreCoplanar points) }
        ensures flat { IsErrOf result BuildFault.Flat → AreCoplanar points }
    {
        let Built { arena, last } = mesh_from::<Brand>(alloc, &points, Blank::new(1))?;
        Ok(Living {
            points,
            arena,
            last,
            growth: Growth::new(alloc),
            alloc,
        })
    }

    /// The points, in the order of their numbers.
    pub fn points(&self) -> &Points
        ensures { result.now ≡ self.now.points }
    {
        &self.points
    }

    /// The mesh: its live slots are the Delaunay list of the points, with its ghosts.
    pub fn arena(&self) -> &Arena
        ensures slots { result.now.slots ≡ self.now.slots }
        ensures mesh { IsDelaunayMesh self.now.slots self.now.points (all_numbers self.now.points) }
    {
        &self.arena
    }

    /// The Delaunay list of the points.
    pub fn list(&self, alloc: Global) -> Result<TetList, NoMemory>
        ensures rows { IfOk result (λ rows. rows ≡ delaunay_rows self.now.points) }
        ensures list { IfOk result (IsDelaunayList self.now.points) }
    {
        rows_of(alloc, &self.arena)
    }

    /// Adds a new point, and answers its number. Each slot outside of its conflict zone stays live,
    /// at its place and with its corners. On `NoMemory` nothing changes.
    pub fn add_point(&mut self, p: GridPoint) -> Result<u32, NoMemory>
        requires apart { (i : ℕ) → i < length self.old.points → point self.old.points i ≢ p }
        requires few { length self.old.points + 1 < 2 ^ 32 - 1 }
        ensures number { IfOk result (λ number. number ≡ length self.old.points) }
        ensures points { OnOk result (self.new.points ≡ self.old.points ++ p ∷ []) }
        ensures stays { IfOk result
            (λ number. (u : ℕ) → IsLive self.old.slots u
            → (IsTaken self.old.slots self.new.points p number u → ⊥)
            → corners_at self.new.slots u ≡ corners_at self.old.slots u) }
        ensures err { OnErr result (self.new ≡ self.old) }
    {
        let mut lost = Vec::new(self.alloc);
        self.add_point_telling(p, &mut lost)
    }

    /// As `add_point`, and writes to `lost`, in place of its old contents, the corners of the
    /// tetrahedra that have the new point in their circumsphere: both ends of each edge that the
    /// Delaunay list loses are among them. On `NoMemory` the points and the mesh are as they were.
    pub fn add_point_telling(&mut self, p: GridPoint, lost: &mut Vec<u32>) -> Result<u32, NoMemory>
        requires apart { (i : ℕ) → i < length self.old.points → point self.old.points i ≢ p }
        requires few { length self.old.points + 1 < 2 ^ 32 - 1 }
        ensures number { IfOk result (λ number. number ≡ length self.old.points) }
        ensures points { OnOk result (self.new.points ≡ self.old.points ++ p ∷ []) }
        ensures stays { IfOk result
            (λ number. (u : ℕ) → IsLive self.old.slots u
            → (IsTaken self.old.slots self.new.points p number u → ⊥)
            → corners_at self.new.slots u ≡ corners_at self.old.slots u) }
        ensures lost { OnOk result (AreLostSides self.old.points self.new.points lost.new.items) }
        ensures err { OnErr result (self.new ≡ self.old) }
    {
        lost.clear();
        let number = self.points.len() as u32;
        self.points.push(p)?;
        match insert_last::<Brand>(
            &mut self.arena,
            &self.points,
            self.last,
            &mut self.growth,
            Blank::new(1),
            lost,
        ) {
            Ok(last) => {
                self.last = last;
                Ok(number)
            }
            Err(NoMemory) => {
                self.points.drop_last();
                Err(NoMemory)
            }
        }
    }

    /// Whether two points, by their numbers, are the ends of an edge of a Delaunay tetrahedron; a
    /// point and itself are not. No memory is taken; the search is a walk through neighbors to the
    /// first point, and round it to the second.
    pub fn has_side(&self, a: u32, b: u32) -> bool
        requires inside { (a < length self.now.points) × (b < length self.now.points) }
        ensures { IsTrue result ↔ IsDelaunaySide self.now.points a b }
    {
        if a == b {
            return false;
        }
        match side_by_walk(&self.arena, &self.points, self.last, a, b) {
            Some(answer) => answer,
            None => side_by_scan(&self.arena, &self.points, a, b),
        }
    }
}

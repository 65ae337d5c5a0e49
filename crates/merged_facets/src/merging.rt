//! Which facets of a complex are one facet, and which of their sides are inner.
ghost use Rattle.std.specs.Prelude.{◌≡◌, ◌↔◌, ◌<◌, ◌+◌, ℕ, IsTrue, length, All, IfOk, OnOk};
ghost use Rattle.geo_laws.specs.Delaunay.{HasDistinctPoints};
ghost use Rattle.geo_laws.specs.Complex.{facets, HasCornersOf};
ghost use Rattle.geo_laws.specs.Facet.{IsFlat};
ghost use Rattle.merged_facets.specs.Merged.{IsMerging, AreJoined};
ghost use Rattle.merged_facets.specs.Labels.{IsIdentity};
ghost use Rattle.merged_facets.specs.FacetSides.{AreFacetSidesOf, AreEarlier, IsFacetSideOf, IsPair};
ghost use Rattle.merged_facets.specs.Merging.{group_of, is_inner, inner_side, WithInner, IsSoundForest};
ghost use Rattle.merged_facets.specs.Merging.{AreMergeable, NotesPair, HasFound};

use crate::beside::are_beside;
use crate::groups::{join, settle};
use crate::polygon::{marker, only_polygon};
use crate::sides::{Ends, FacetSide, earlier_alike, ends_of, facet_sides};
use geo_laws::{Complex, Piece, Points};
use indexmap::IndexSet;
use std::alloc::Global;
use std::marker::Model;
use tet_ports::{Items, NoMemory};

/// A side of a facet, by its ends.
#[derive(Clone, Copy, PartialEq, Eq, Hash)]
pub(crate) struct InnerSide {
    pub(crate) facet: u32,
    pub(crate) ends: Ends,
}

/// Which facets of a complex are one facet, each by the least of their numbers, and which of their
/// sides are inner. Contracts see the list of these numbers and the list of inner sides.
#[derive(Drop)]
pub struct Merging {
    group: Vec<u32>,
    inner: IndexSet<InnerSide>,
}

impl Model for Merging {
    ghost use Rattle.merged_facets.specs.Merging.{Groups};

    ghost Value = { Groups };

    ghost view = { λ m. record { least = m.group.items; inner = m.inner.keys } };
}

/// The state of the search over sides: groups of facets, each facet linked down to the least one,
/// and the inner sides.
#[derive(Drop)]
pub(crate) struct Found {
    pub(crate) down: Vec<u32>,
    pub(crate) inner: IndexSet<InnerSide>,
}

/// Notes a side as inner.
fn note(inner: &mut IndexSet<InnerSide>, e: FacetSide) -> Result<(), NoMemory>
    ensures { OnOk result (WithInner inner.old.keys (inner_side e) inner.new.keys) }
{
    inner.insert(InnerSide {
        facet: e.facet,
        ends: ends_of(e.side),
    })?;
    Ok(())
}

/// Whether two markers are equal, or both are missing.
fn same_marker(m: Option<i64>, n: Option<i64>) -> bool
    ensures { IsTrue result ↔ (m ≡ n) }
{
    m == n
}

/// Whether the facets of two sides with the same ends are joined over these sides.
fn are_joined(points: &Points, complex: &Complex, x: FacetSide, y: FacetSide) -> bool
    requires mergeable { AreMergeable points.now complex.now }
    requires x_is { IsFacetSideOf complex.now x }
    requires y_is { IsFacetSideOf complex.now y }
    ensures { IsTrue result ↔ AreJoined points.now complex.now x.side x.facet y.facet }
{
    if same_marker(marker(complex, x.facet), marker(complex, y.facet)) {
        let p = only_polygon(complex, x.facet);
        let q = only_polygon(complex, y.facet);
        are_beside(points, x.side, p, q)
    } else {
        false
    }
}

/// Notes two sides with the same ends as inner, and joins their groups, where their facets are
/// joined over them.
fn note_pair(
    points: &Points,
    complex: &Complex,
    x: FacetSide,
    y: FacetSide,
    found: &mut Found,
) -> Result<(), NoMemory>
    requires mergeable { AreMergeable points.now complex.now }
    requires pair { IsPair complex.now x y }
    requires sound { (label : ℕ → ℕ)
        × IsSoundForest points.now complex.now found.old.down.items found.old.inner.keys label }
    ensures { OnOk result (NotesPair points.now complex.now x y
        found.old.down.items found.old.inner.keys found.new.down.items found.new.inner.keys) }
{
    if are_joined(points, complex, x, y) {
        note(&mut found.inner, x)?;
        note(&mut found.inner, y)?;
        join(&mut found.down, x.facet, y.facet);
    }
    Ok(())
}

/// Notes the side at the place `i` with each earlier one that has the same ends.
fn note_earlier(
    points: &Points,
    complex: &Complex,
    list: &Items<FacetSide>,
    earlier: &Items<Option<usize>>,
    i: usize,
    found: &mut Found,
) -> Result<(), NoMemory>
    requires mergeable { AreMergeable points.now complex.now }
    requires sides { AreFacetSidesOf complex.now list.now }
    requires earlier { AreEarlier list.now earlier.now }
    requires there { i < length list.now }
    requires found { HasFound points.now complex.now list.now i
        found.old.down.items found.old.inner.keys }
    ensures { OnOk result (HasFound points.now complex.now list.now (i + 1)
        found.new.down.items found.new.inner.keys) }
{
    let mut next = earlier.at(i);
    while let Some(j) = next {
        note_pair(points, complex, list.at(i), list.at(j), found)?;
        next = earlier.at(j);
    }
    Ok(())
}

/// Each facet in a group of its own.
fn alone(alloc: Global, count: u32) -> Result<Vec<u32>, NoMemory>
    ensures { IfOk result (λ down. IsIdentity down.items count) }
{
    let mut down = Vec::with_capacity(alloc, count as usize)?;
    for facet in 0..count {
        down.push(facet)?;
    }
    Ok(down)
}

/// The groups and the inner sides, from the list of the sides.
fn merging_by(
    alloc: Global,
    points: &Points,
    complex: &Complex,
    list: &Items<FacetSide>,
) -> Result<Merging, NoMemory>
    requires mergeable { AreMergeable points.now complex.now }
    requires sides { AreFacetSidesOf complex.now list.now }
    ensures { IfOk result (λ m. IsMerging points.now complex.now (group_of m) (is_inner m)) }
{
    let earlier = earlier_alike(alloc, list)?;
    let mut found = Found {
        down: alone(alloc, complex.facet_count())?,
        inner: IndexSet::new(alloc),
    };
    for i in 0..list.len() {
        note_earlier(points, complex, list, &earlier, i, &mut found)?;
    }
    settle(&mut found.down);
    Ok(Merging {
        group: found.down,
        inner: found.inner,
    })
}

/// Which facets are one facet, and which of their sides are inner: two facets with equal markers,
/// each of one polygon and no hole point, in one plane and on either hand of a common side, are
/// joined over it. Facets are flat, and no two points are at one place.
pub fn merge_facets(alloc: Global, points: &Points, complex: &Complex) -> Result<Merging, NoMemory>
    requires corners { HasCornersOf points.now complex.now }
    requires flat { All (IsFlat points.now) (facets complex.now) }
    requires distinct { HasDistinctPoints points.now }
    ensures { IfOk result (λ m. IsMerging points.now complex.now (group_of m) (is_inner m)) }
{
    let list = facet_sides(alloc, complex)?;
    merging_by(alloc, points, complex, &list)
}

impl Merging {
    /// The least number of the facet's group: the number of the merged facet. It is 0 past the
    /// facets.
    pub(crate) fn group_of(&self, facet: u32) -> u32
        ensures { result ≡ group_of self.now facet }
    {
        match self.group.get(facet as usize) {
            Some(least) => *least,
            None => 0,
        }
    }

    /// Whether the side, in either direction, is inner in the facet.
    pub(crate) fn is_inner(&self, facet: u32, side: Piece) -> bool
        ensures { result ≡ is_inner self.now facet side }
    {
        self.inner.contains(&InnerSide {
            facet,
            ends: ends_of(side),
        })
    }
}

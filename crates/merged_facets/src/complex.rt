//! The complex of the merged facets.
ghost use Rattle.std.specs.Prelude.{◌≡◌, ◌<◌, ◌≤◌, ℕ, [], length, IfOk, OnOk};
ghost use Rattle.geo_laws.specs.Complex.{flat_facet};
ghost use Rattle.merged_facets.specs.Merged.{merged_facet};
ghost use Rattle.merged_facets.specs.Merging.{group_of};
ghost use Rattle.merged_facets.specs.MergedComplex.{IsFirstFrom, AreMemberChains, IsMaking, HasParts};
ghost use Rattle.merged_facets.specs.MergedComplex.{with_polygons, with_holes, IsMergedComplex};

use crate::Merging;
use crate::chains::{Chains, chained};
use geo_laws::{Complex, Facet};
use std::alloc::Global;
use tet_ports::NoMemory;

/// Appends polygons of a complex to the last facet: those of one of its facets.
fn add_polygons(made: &mut Complex, complex: &Complex, facet: &Facet) -> Result<(), NoMemory>
    requires making { IsMaking complex.now.polygons made.old }
    requires last { 0 < length made.old.facets }
    requires order { facet.now.first ≤ facet.now.past }
    requires range { facet.now.past ≤ length complex.now.polygons }
    ensures { OnOk result (HasParts complex.now.polygons made.old
        (with_polygons complex.now.polygons facet.now.first facet.now.past) made.new) }
{
    for q in facet.first..facet.past {
        if made.polygon_count() == u32::MAX {
            return Err(NoMemory);
        }
        made.add_polygon(complex.corners(q), complex.polygon_line(q))?;
    }
    Ok(())
}

/// Appends the hole points of a facet to the last facet.
fn add_holes(made: &mut Complex, complex: &Complex, facet: &Facet) -> Result<(), NoMemory>
    requires making { IsMaking complex.now.polygons made.old }
    requires last { 0 < length made.old.facets }
    ensures { OnOk result (HasParts complex.now.polygons made.old
        (with_holes facet.now.holes) made.new) }
{
    for i in 0..facet.holes.len() {
        made.add_facet_hole(facet.holes.at(i))?;
    }
    Ok(())
}

/// Appends the polygons and the hole points of a facet to the last facet.
fn add_parts(made: &mut Complex, complex: &Complex, facet: &Facet) -> Result<(), NoMemory>
    requires making { IsMaking complex.now.polygons made.old }
    requires last { 0 < length made.old.facets }
    requires order { facet.now.first ≤ facet.now.past }
    requires range { facet.now.past ≤ length complex.now.polygons }
    ensures { OnOk result (HasParts complex.now.polygons made.old
        (flat_facet complex.now.polygons facet.now) made.new) }
{
    add_polygons(made, complex, facet)?;
    add_holes(made, complex, facet)?;
    Ok(())
}

/// Appends the polygons and hole points of a group's members to the last facet.
fn add_members(
    made: &mut Complex,
    complex: &Complex,
    merging: &Merging,
    chains: &Chains,
    group: u32,
) -> Result<(), NoMemory>
    requires making { IsMaking complex.now.polygons made.old }
    requires last { 0 < length made.old.facets }
    requires there { group < length complex.now.facets }
    requires chains { AreMemberChains (group_of merging.now) (length complex.now.facets) 0
        chains.now.first.items chains.now.next.items }
    ensures { OnOk result (HasParts complex.now.polygons made.old
        (merged_facet (group_of merging.now) complex.now group) made.new) }
{
    let mut member = chains.first[group as usize];
    while let Some(facet) = member {
        add_parts(made, complex, complex.facet(facet))?;
        member = chains.next[facet as usize];
    }
    Ok(())
}

/// The complex of the merged facets: the facet at each place has the polygons and hole points of
/// all facets of the group with this number, in file order, and none where no group has it. Its
/// marker is that of the facet that was there, which all facets of a group have. Hole points of the
/// complex and regions are left out: they lie between facets.
pub fn merged_complex(
    alloc: Global,
    complex: &Complex,
    merging: &Merging,
) -> Result<Complex, NoMemory>
    requires { (f : ℕ) → f < length complex.now.facets → group_of merging.now f ≤ f }
    ensures { IfOk result (IsMergedComplex (group_of merging.now) complex.now) }
{
    let chains = chained(alloc, merging, complex.facet_count())?;
    let mut made = Complex::new(alloc);
    for f in 0..complex.facet_count() {
        made.add_facet(complex.facet(f).marker)?;
        add_members(&mut made, complex, merging, &chains, f)?;
    }
    Ok(made)
}

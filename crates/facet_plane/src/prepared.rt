//! The region of one facet, prepared for many points: a point is located in it without a test of
//! all sides.
ghost use Rattle.std.specs.Prelude.{◌≡◌, ◌<◌, ◌≤◌, ◌&&◌, All, IfOk, Some, false, length, nat_eq};
ghost use Rattle.std.specs.List.{list_any};
ghost use lib.Pointwise.{pointwise};
ghost use Rattle.geo_laws.specs.Complex.{flat_facet, HasCornersOf};
ghost use Rattle.geo_laws.specs.Facet.{in_region, plane};
ghost use Rattle.facet_plane.specs.Axes.{axis_is};
ghost use Rattle.facet_plane.specs.Blocks.{AreBlocks};
ghost use Rattle.facet_plane.specs.Corners.{lists_between};
ghost use Rattle.facet_plane.specs.Outline.{IsBlocked};
ghost use Rattle.facet_plane.specs.Prepared.{shape, shape_meets, shape_round, outlines_meet, places_round};
ghost use Rattle.facet_plane.specs.Prepared.{HoldsOutline, AreOutlinesOf, AreBlocked, AreHoles};
ghost use Rattle.facet_plane.specs.Prepared.{prepared_holds, IsPreparedOf};

use crate::blocks::{Block, blocks_of};
use crate::outline::{Outline, Reach, is_apart};
use crate::plane::{Axis, normal};
use crate::spot::Spot;
use crate::vectors::{Normal, toward};
use geo_laws::{Complex, Facet, Points};
use sign_predicates::GridPoint;
use std::alloc::Global;
use tet_ports::{Items, NoMemory};

/// Ascending places of polygons in a facet, from 0.
type Places = Items<usize>;

/// The outlines of a facet's polygons, and blocks of them.
#[derive(Drop)]
pub(crate) struct Outlines {
    axis: Axis,
    each: Items<Outline>,
    blocks: Items<Block>,
}

/// The region of a facet: its plane, by a point and a normal, the outlines of its polygons, and
/// for each hole point that counts the polygons that are round it.
#[derive(Drop)]
pub(crate) struct Prepared {
    from: GridPoint,
    normal: Normal,
    outlines: Outlines,
    holes: Items<Places>,
}

/// The boxes of the outlines.
fn blocks_round(alloc: Global, outlines: &Items<Outline>) -> Result<Items<Block>, NoMemory>
    requires { All IsBlocked outlines.now }
    ensures { IfOk result (AreBlocks (HoldsOutline outlines.now) (length outlines.now)) }
{
    let mut boxes = Items::with_capacity(alloc, outlines.len())?;
    for q in 0..outlines.len() {
        boxes.push(outlines.get(q).extent)?;
    }
    blocks_of(alloc, &boxes)
}

/// Whether `x` is on a side of the polygon, where it has three or more corners, or over a side.
fn is_met(outline: &Outline, reach: Reach, axis: Axis, x: Spot) -> bool
    requires { IsBlocked outline.now }
    ensures { result ≡ shape_meets reach (axis_is axis) x (shape outline.now) }
{
    match reach {
        Reach::On => outline.is_area && outline.meets(Reach::On, axis, x),
        Reach::Over => outline.meets(Reach::Over, axis, x),
    }
}

/// Whether the polygon has three or more corners and is round `x`.
fn is_round(outline: &Outline, axis: Axis, x: Spot) -> bool
    requires { IsBlocked outline.now }
    ensures { result ≡ shape_round (axis_is axis) x (shape outline.now) }
{
    outline.is_area && outline.is_round(axis, x)
}

/// Whether the two are the same places.
fn are_same(a: &[usize], b: &[usize]) -> bool
    ensures { result ≡ pointwise nat_eq a.now b.now }
{
    a == b
}

/// Whether the places are those of one of the lists.
fn is_listed(lists: &Items<Places>, places: &[usize]) -> bool
    ensures { result ≡ list_any (pointwise nat_eq places.now) lists.now }
{
    for i in 0..lists.len() {
        if are_same(places, lists.get(i).as_slice()) {
            return true;
        }
    }
    false
}

impl Outlines {
    /// The outlines of the polygons of a facet.
    fn of(
        alloc: Global,
        points: &Points,
        axis: Axis,
        complex: &Complex,
        facet: &Facet,
    ) -> Result<Self, NoMemory>
        requires corners { HasCornersOf points.now complex.now }
        requires order { facet.now.first ≤ facet.now.past }
        requires range { facet.now.past ≤ length complex.now.polygons }
        ensures outlines { IfOk result
            (AreOutlinesOf points.now (flat_facet complex.now.polygons facet.now).polygons) }
        ensures axis { IfOk result (λ outlines. outlines.axis ≡ axis) }
    {
        let mut each = Items::new(alloc);
        for q in facet.first..facet.past {
            each.push(Outline::of(alloc, points, complex.corners(q))?)?;
        }
        let blocks = blocks_round(alloc, &each)?;
        Ok(Outlines { axis, each, blocks })
    }

    /// Whether `x` is on a side of a polygon with three or more corners, or over a side of any; and
    /// where it is not, the places of the polygons with three or more corners that are round it.
    fn locate(&self, reach: Reach, x: Spot, places: &mut Vec<usize>) -> Result<bool, NoMemory>
        requires { AreBlocked self.now }
        ensures met { IfOk result (λ met. met ≡ outlines_meet reach self.now x) }
        ensures round { IfOk result (λ met. met ≡ false
            → places.new.items ≡ places_round self.now x) }
    {
        places.clear();
        let mut q = 0;
        while q < self.each.len() {
            let block = self.blocks.at(q);
            if is_apart(self.axis, block.extent, x) {
                q = block.past;
            } else {
                let outline = self.each.get(q);
                if is_met(outline, reach, self.axis, x) {
                    return Ok(true);
                }
                if is_round(outline, self.axis, x) {
                    places.push(q)?;
                }
                q += 1;
            }
        }
        Ok(false)
    }

    /// For each hole point that is not over a side, the places of the polygons round it.
    fn holes(&self, alloc: Global, facet: &Facet) -> Result<Items<Places>, NoMemory>
        requires { AreBlocked self.now }
        ensures { IfOk result (AreHoles self.now facet.now.holes) }
    {
        let mut holes = Items::new(alloc);
        for i in 0..facet.holes.len() {
            let hole = Spot::of(facet.holes.at(i));
            let mut places = Vec::new(alloc);
            let over = self.locate(Reach::Over, hole, &mut places)?;
            if !over {
                holes.push(Places::from(places))?;
            }
        }
        Ok(holes)
    }
}

impl Prepared {
    /// The region of a facet, by the three corners that span its plane.
    pub(crate) fn of(
        alloc: Global,
        points: &Points,
        complex: &Complex,
        facet: &Facet,
        span: (u32, u32, u32),
    ) -> Result<Self, NoMemory>
        requires corners { HasCornersOf points.now complex.now }
        requires order { facet.now.first ≤ facet.now.past }
        requires range { facet.now.past ≤ length complex.now.polygons }
        requires a_is_there { span.0 < length points.now }
        requires b_is_there { span.1 < length points.now }
        requires c_is_there { span.2 < length points.now }
        requires plane { plane points.now (flat_facet complex.now.polygons facet.now) ≡ Some span }
        ensures { IfOk result
            (IsPreparedOf points.now (flat_facet complex.now.polygons facet.now)) }
    {
        let from = points.at(span.0 as usize);
        let second = points.at(span.1 as usize);
        let third = points.at(span.2 as usize);
        let normal = normal(from, second, third);
        let outlines = Outlines::of(alloc, points, normal.axis(), complex, facet)?;
        let holes = outlines.holes(alloc, facet)?;
        Ok(Prepared {
            from,
            normal,
            outlines,
            holes,
        })
    }

    /// Whether `x` lies in the region. `places` is room for the polygons round it.
    pub(crate) fn holds(&self, x: Spot, places: &mut Vec<usize>) -> Result<bool, NoMemory>
        requires { AreBlocked self.now.outlines }
        ensures { IfOk result (λ held. held ≡ prepared_holds self.now x) }
    {
        if !self.normal.is_right(toward(self.from, x)) {
            return Ok(false);
        }
        if self.outlines.locate(Reach::On, x, places)? {
            return Ok(true);
        }
        Ok(!places.is_empty() && !is_listed(&self.holes, places.as_slice()))
    }
}

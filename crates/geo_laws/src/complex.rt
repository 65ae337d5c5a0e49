//! Piecewise linear complexes, the pieces of their segments and the triangles of their facets.
ghost use Rattle.std.specs.Prelude.{◌≡◌, ◌<◌, ◌≤◌, ◌-◌, ◌^◌, length, slice_index, HoldsAt, OnOk, OnErr};
ghost use Rattle.geo_laws.specs.Complex.{AreFollowing, empty_complex, with_facet, with_polygon, with_facet_hole, with_hole, with_region};

use sign_predicates::RatPoint;
use std::alloc::Global;
use std::marker::Model;
use tet_ports::{Bytes, Items, NoMemory};

/// A subsegment between two points by their numbers, which are places in a list, from 0, and how
/// often a segment was halved for it.
#[derive(Clone, Copy, Debug, PartialEq, Eq)]
pub struct Piece {
    pub a: u32,
    pub b: u32,
    pub halvings: u32,
}

/// A triangle of a facet: the facet's place in the complex, from 0, and the numbers of the corners,
/// ascending.
#[derive(Clone, Copy, Debug, PartialEq, Eq, PartialOrd, Ord)]
pub struct FacetTriangle {
    pub facet: u32,
    pub a: u32,
    pub b: u32,
    pub c: u32,
}

/// A list of segments, in file order.
pub type Segments = Items<Piece>;

/// A list of subsegments.
pub type Pieces = Items<Piece>;

/// A list of triangles of facets.
pub type FacetTriangles = Items<FacetTriangle>;

/// A list of rational points.
pub type RatPoints = Items<RatPoint>;

/// A facet of a complex: its polygons are those from `first` to before `past`, by their places in
/// the complex, from 0.
#[derive(Drop)]
pub struct Facet {
    pub first: u32,
    pub past: u32,
    /// The facet's hole points.
    pub holes: RatPoints,
    pub marker: Option<i64>,
}

/// A region: a point in it, and the attribute of the tetrahedra there, as its text states it.
#[derive(Drop)]
pub struct Region {
    pub at: RatPoint,
    pub attribute: Bytes,
}

// The corners of a polygon, from `first` to before `past` in the list of all corners, and the line
// that states it.
#[derive(Clone, Copy)]
struct Span {
    first: usize,
    past: usize,
    line: usize,
}

/// A piecewise linear complex: polygons in file order, each of some facet; facets, each with its
/// polygons, hole points and marker; hole points; and regions. Points are named by their places in
/// a list, from 0; lines count from 1. Contracts see the lists of these.
#[derive(Drop)]
pub struct Complex {
    // The corners of all polygons, one polygon after the other.
    corners: Items<u32>,
    polygons: Items<Span>,
    facets: Vec<Facet>,
    holes: RatPoints,
    regions: Items<Region>,
    alloc: Global,
}

impl Model for Complex {
    ghost use Rattle.geo_laws.specs.Complex.{Complex};

    ghost Value = { Complex };

    ghost use Rattle.geo_laws.specs.Stored.{polygons_at, IsStored};

    ghost view = { λ c. record {
      polygons = polygons_at c.corners c.polygons;
      facets = c.facets.items;
      holes = c.holes;
      regions = c.regions;
    } };

    ghost invariant = { λ c. IsStored c.corners c.polygons c.facets.items c.regions };
}

impl Complex {
    /// A complex with no polygon, no facet, no hole point and no region.
    pub fn new(alloc: Global) -> Self
        ensures { result ≡ empty_complex }
    {
        Complex {
            corners: Items::new(alloc),
            polygons: Items::new(alloc),
            facets: Vec::new(alloc),
            holes: RatPoints::new(alloc),
            regions: Items::new(alloc),
            alloc,
        }
    }

    /// Appends a facet that has no polygon yet.
    pub fn add_facet(&mut self, marker: Option<i64>) -> Result<(), NoMemory>
        requires { length self.old.facets < 2 ^ 32 - 1 }
        ensures ok { OnOk result (self.new ≡ with_facet marker self.old) }
        ensures err { OnErr result (self.new ≡ self.old) }
    {
        let place = self.polygons.len() as u32;
        self.facets.push(Facet {
            first: place,
            past: place,
            holes: RatPoints::new(self.alloc),
            marker,
        })?;
        Ok(())
    }

    /// Appends a polygon to the last facet: its corners, by their numbers, and the line that states
    /// it.
    pub fn add_polygon(&mut self, corners: &[u32], line: usize) -> Result<(), NoMemory>
        requires facet { 0 < length self.old.facets }
        requires few { length self.old.polygons < 2 ^ 32 - 1 }
        ensures ok { OnOk result (self.new ≡ with_polygon corners.now line self.old) }
        ensures err { OnErr result (self.new ≡ self.old) }
    {
        let first = self.corners.len();
        self.corners.extend_from_slice(corners)?;
        let past = self.corners.len();
        self.polygons.push(Span { first, past, line })?;
        let last = self.facets.len() - 1;
        let facet = &mut self.facets[last];
        facet.past += 1;
        Ok(())
    }

    /// Appends a hole point to the last facet.
    pub fn add_facet_hole(&mut self, at: RatPoint) -> Result<(), NoMemory>
        requires { 0 < length self.old.facets }
        ensures ok { OnOk result (self.new ≡ with_facet_hole at self.old) }
        ensures err { OnErr result (self.new ≡ self.old) }
    {
        let last = self.facets.len() - 1;
        let facet = &mut self.facets[last];
        facet.holes.push(at)
    }

    /// Appends a hole point.
    pub fn add_hole(&mut self, at: RatPoint) -> Result<(), NoMemory>
        ensures ok { OnOk result (self.new ≡ with_hole at self.old) }
        ensures err { OnErr result (self.new ≡ self.old) }
    {
        self.holes.push(at)
    }

    /// Appends a region.
    pub fn add_region(&mut self, at: RatPoint, attribute: &Bytes) -> Result<(), NoMemory>
        requires { length self.old.regions < 2 ^ 32 - 1 }
        ensures ok { OnOk result (self.new ≡ with_region at attribute.now self.old) }
        ensures err { OnErr result (self.new ≡ self.old) }
    {
        let attribute = Bytes::from_slice(self.alloc, attribute.as_slice())?;
        self.regions.push(Region { at, attribute })
    }

    /// The number of facets. They have all polygons, in order.
    pub fn facet_count(&self) -> u32
        ensures count { result ≡ length self.now.facets }
        ensures following { AreFollowing 0 self.now.facets (length self.now.polygons) }
    {
        self.facets.len() as u32
    }

    /// The facet at this place, from 0. Its polygons are there.
    pub fn facet(&self, i: u32) -> &Facet
        requires { i < length self.now.facets }
        ensures value { HoldsAt (λ facet. facet ≡ result.now) self.now.facets i }
        ensures order { result.now.first ≤ result.now.past }
        ensures range { result.now.past ≤ length self.now.polygons }
    {
        &self.facets[i as usize]
    }

    /// The number of polygons of all facets.
    pub fn polygon_count(&self) -> u32
        ensures { result ≡ length self.now.polygons }
    {
        self.polygons.len() as u32
    }

    /// The corners of the polygon at this place, from 0, by the numbers of their points.
    pub fn corners(&self, polygon: u32) -> &[u32]
        requires { polygon < length self.now.polygons }
        ensures { HoldsAt (λ p. p.corners ≡ result.now) self.now.polygons polygon }
    {
        let span = self.polygons.at(polygon as usize);
        &self.corners.as_slice()[span.first..span.past]
    }

    /// The number of corners of the polygon at this place, from 0. Only tests call it.
    pub fn corner_count(&self, polygon: u32) -> usize
        requires { polygon < length self.now.polygons }
        ensures { HoldsAt (λ p. result ≡ length p.corners) self.now.polygons polygon }
    {
        self.corners(polygon).len()
    }

    /// A corner of the polygon at this place, by its place in the polygon: both from 0. It is the
    /// number of a point.
    pub fn corner(&self, polygon: u32, i: usize) -> u32
        requires there { polygon < length self.now.polygons }
        requires place { HoldsAt (λ p. i < length p.corners) self.now.polygons polygon }
        ensures { HoldsAt (λ p. result ≡ slice_index p.corners i) self.now.polygons polygon }
    {
        self.corners(polygon)[i]
    }

    /// The line that states the polygon at this place, from 0.
    pub fn polygon_line(&self, polygon: u32) -> usize
        requires { polygon < length self.now.polygons }
        ensures { HoldsAt (λ p. result ≡ p.line) self.now.polygons polygon }
    {
        self.polygons.at(polygon as usize).line
    }

    /// The hole points.
    pub fn hole_points(&self) -> &RatPoints
        ensures { result.now ≡ self.now.holes }
    {
        &self.holes
    }

    /// The number of regions.
    pub fn region_count(&self) -> u32
        ensures { result ≡ length self.now.regions }
    {
        self.regions.len() as u32
    }

    /// The region at this place, from 0.
    pub fn region(&self, i: u32) -> &Region
        requires { i < length self.now.regions }
        ensures { HoldsAt (λ region. region ≡ result.now) self.now.regions i }
    {
        self.regions.get(i as usize)
    }
}

//! Tetrahedra with their neighbors, subfaces and subsegments.
use crate::plane::Plane;
use crate::sphere::{Sphere, equator};
use crate::spot::Spot;
use geo_laws::{Face, Side, face_of, side_of};

/// What is across a face of a tetrahedron.
#[derive(Clone, Copy)]
pub enum Beyond {
    Tetrahedron(u32),
    Subface(u32),
    Outside,
}

/// A positive tetrahedron: its corners, and what is across the face opposite each.
#[derive(Clone, Copy)]
pub struct Cell {
    pub corners: [u32; 4],
    pub across: [Beyond; 4],
}

impl Cell {
    /// The edges.
    pub fn edges(&self) -> [Side; 6] {
        let [a, b, c, d] = self.corners;
        [
            side_of(a, b),
            side_of(a, c),
            side_of(a, d),
            side_of(b, c),
            side_of(b, d),
            side_of(c, d),
        ]
    }
}

/// What is across an edge of a subface: a subface of the same facet, or none beyond a subsegment.
#[derive(Clone, Copy)]
pub enum Link {
    Subface(u32),
    Subsegment(u32),
    Nothing,
}

/// A subface: its corners, its facet, and a corner of the complex in the facet if there is one.
#[derive(Clone, Copy)]
pub struct Subface {
    pub(crate) face: Face,
    pub facet: u32,
    pub(crate) anchor: Option<u32>,
}

/// The places of the points, the tetrahedra, the subfaces in the order of their corners with what
/// is across the edge opposite each corner, the number of facets up to the last one that has a
/// subface, the subsegments in order, for each point whether it is the corner of a subface, and for
/// each tetrahedron its greatest six-fold volume, where volumes are bounded.
#[derive(Drop)]
pub struct Mesh {
    pub spots: Vec<Spot>,
    pub cells: Vec<Cell>,
    pub subfaces: Vec<Subface>,
    pub facets: usize,
    pub(crate) faces: Vec<Face>,
    pub(crate) links: Vec<[Link; 3]>,
    pub subsegments: Vec<Side>,
    pub(crate) on_boundary: Vec<bool>,
    pub mosts: Vec<i128>,
}

/// The corners of the face opposite a corner of a positive tetrahedron, so that the corner is on
/// its positive side.
pub fn opposite(s: &[Spot; 4], k: usize) -> [Spot; 3] {
    let [a, b, c, d] = *s;
    match k {
        0 => [b, d, c],
        1 => [a, c, d],
        2 => [a, d, b],
        _ => [a, b, c],
    }
}

/// A quarter of the sum of the corners.
pub fn centroid(s: &[Spot; 4]) -> Spot {
    let [a, b, c, d] = *s;
    a.plus(b).plus(c).plus(d).over_power(2)
}

impl Mesh {
    /// The place of a point.
    pub fn spot(&self, v: u32) -> Option<Spot> {
        self.spots.get(v as usize).copied()
    }

    /// The tetrahedron with this number.
    pub fn cell(&self, t: u32) -> Option<Cell> {
        self.cells.get(t as usize).copied()
    }

    /// The greatest six-fold volume that a tetrahedron is to have.
    pub fn most(&self, t: u32) -> i128 {
        self.mosts.get(t as usize).copied().unwrap_or(i128::MAX)
    }

    /// The places of the corners of a tetrahedron.
    pub fn corners(&self, t: u32) -> Option<[Spot; 4]> {
        let [a, b, c, d] = self.cells.get(t as usize)?.corners;
        Some([self.spot(a)?, self.spot(b)?, self.spot(c)?, self.spot(d)?])
    }

    /// The places of the corners of a subface.
    pub fn triangle(&self, s: u32) -> Option<[Spot; 3]> {
        let Face { a, b, c } = *self.faces.get(s as usize)?;
        match (self.spot(a), self.spot(b), self.spot(c)) {
            (Some(a), Some(b), Some(c)) => Some([a, b, c]),
            _ => None,
        }
    }

    /// The facet of a subface.
    pub fn facet(&self, s: u32) -> Option<u32> {
        Some(self.subfaces.get(s as usize)?.facet)
    }

    /// What is across the edges of a subface.
    pub fn links(&self, s: u32) -> Option<[Link; 3]> {
        self.links.get(s as usize).copied()
    }

    /// The plane of a subface, through a corner of the complex in its facet.
    pub fn plane(&self, s: u32) -> Option<Plane> {
        let anchor = self.subfaces.get(s as usize)?.anchor?;
        let [a, b, c] = self.triangle(s)?;
        Plane::new(self.spot(anchor)?, b.from(a).cross(c.from(a)))
    }

    /// The equatorial sphere of a subface, where its center is near.
    pub fn equator(&self, s: u32) -> Option<Sphere> {
        equator(&self.triangle(s)?)
    }

    /// The ends of a subsegment.
    pub fn ends(&self, e: u32) -> Option<(Spot, Spot)> {
        self.ends_of(*self.subsegments.get(e as usize)?)
    }

    /// The ends of an edge.
    pub fn ends_of(&self, side: Side) -> Option<(Spot, Spot)> {
        self.spot(side.a).zip(self.spot(side.b))
    }

    /// Whether a point is the corner of a subface.
    fn is_on_boundary(&self, v: u32) -> bool {
        self.on_boundary.get(v as usize).copied().unwrap_or(false)
    }

    /// The subface with these corners.
    pub(crate) fn subface_of(&self, a: u32, b: u32, c: u32) -> Option<u32> {
        if !self.is_on_boundary(a) || !self.is_on_boundary(b) || !self.is_on_boundary(c) {
            return None;
        }
        let place = self.faces.as_slice().binary_search(&face_of(a, b, c)).ok()?;
        u32::try_from(place).ok()
    }

    /// The subsegment that is this edge.
    pub fn subsegment_of(&self, side: Side) -> Option<u32> {
        if !self.is_on_boundary(side.a) || !self.is_on_boundary(side.b) {
            return None;
        }
        let place = self.subsegments.as_slice().binary_search(&side).ok()?;
        u32::try_from(place).ok()
    }
}

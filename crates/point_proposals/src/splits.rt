//! Points that split one tetrahedron over the bound: its circumcenter, or a point of the boundary
//! that is in the way or that the circumcenter would encroach, or its centroid.
use crate::buckets::{Answer, Buckets};
use crate::walk::{End, walk, walk_facet};
use mesh_parts::{
    Beyond, Link, Mesh, Rung, Spot, centroid, circumsphere, distance, is_in_diametral, opposite,
    volume,
};
use tet_ports::NoMemory;

/// A subsegment or a subface with the square of its length or of its circumradius.
#[derive(Clone, Copy)]
struct Sized {
    place: u32,
    square: u64,
}

/// The larger of both.
fn larger(found: Option<Sized>, other: Option<Sized>) -> Option<Sized> {
    match (found, other) {
        (Some(one), Some(two)) if one.square >= two.square => found,
        (_, None) => found,
        _ => other,
    }
}

/// The subsegment, where the point is in its diametral sphere.
fn encroached_subsegment(mesh: &Mesh, e: u32, p: Spot) -> Option<Sized> {
    let (a, b) = mesh.ends(e)?;
    if !is_in_diametral(a, b, p) {
        return None;
    }
    Some(Sized {
        place: e,
        square: distance(a, b),
    })
}

/// The subface, where the point is in its equatorial sphere.
fn encroached_subface(mesh: &Mesh, s: u32, p: Spot) -> Option<Sized> {
    let sphere = mesh.equator(s)?;
    if !sphere.has(p) {
        return None;
    }
    Some(Sized {
        place: s,
        square: sphere.squared,
    })
}

/// The longest subsegment at a subface that the point encroaches.
fn encroached_at(mesh: &Mesh, s: u32, p: Spot) -> Option<Sized> {
    let mut found = None;
    for link in mesh.links(s)? {
        if let Link::Subsegment(e) = link {
            found = larger(found, encroached_subsegment(mesh, e, p));
        }
    }
    found
}

/// The longest subsegment of a tetrahedron that the point encroaches.
fn encroached_edge(mesh: &Mesh, t: u32, p: Spot) -> Option<Sized> {
    let mut found = None;
    for side in mesh.cell(t)?.edges() {
        if let Some(e) = mesh.subsegment_of(side) {
            found = larger(found, encroached_subsegment(mesh, e, p));
        }
    }
    found
}

/// The largest subface of a tetrahedron that the point encroaches.
fn encroached_face(mesh: &Mesh, t: u32, p: Spot) -> Option<Sized> {
    let mut found = None;
    for across in mesh.cell(t)?.across {
        if let Beyond::Subface(s) = across {
            found = larger(found, encroached_subface(mesh, s, p));
        }
    }
    found
}

/// The longest subsegment of a tetrahedron.
fn longest_edge(mesh: &Mesh, t: u32) -> Option<Sized> {
    let mut found = None;
    for side in mesh.cell(t)?.edges() {
        if let Some(place) = mesh.subsegment_of(side) {
            let (a, b) = mesh.ends(place)?;
            let square = distance(a, b);
            found = larger(found, Some(Sized { place, square }));
        }
    }
    found
}

/// Whether a point is strictly inside a tetrahedron.
fn has_inside(s: &[Spot; 4], p: Spot) -> bool {
    for k in 0..4 {
        let [a, b, c] = opposite(s, k);
        if volume(a, b, c, p) <= 0 {
            return false;
        }
    }
    true
}

/// Where points are proposed: in steps of `2^halvings` grid units, on the boundary only where it
/// may be split, and apart from those in the buckets.
#[derive(Drop)]
pub(crate) struct Splits<'a> {
    pub(crate) mesh: &'a Mesh,
    pub(crate) halvings: u32,
    pub(crate) splits_boundary: bool,
    pub(crate) buckets: Buckets,
}

impl<'a> Splits<'a> {
    /// The lattice point nearest to the middle of a subsegment.
    fn middle(&self, e: u32) -> Option<Spot> {
        if !self.splits_boundary {
            return None;
        }
        let (a, b) = self.mesh.ends(e)?;
        Rung::new(a, b, self.halvings)?.middle()
    }

    /// Proposes the middle of a subsegment, at a distance from others with the square `least`.
    fn try_subsegment(&mut self, e: u32, least: u64) -> Result<Answer, NoMemory> {
        match self.middle(e) {
            Some(p) => self.buckets.take(p, least),
            None => Ok(Answer::Refused),
        }
    }

    /// The circumcenter of a subface on the lattice of its plane, and where the way to it ends.
    fn center_in_facet(&self, s: u32) -> Option<(Spot, End)> {
        if !self.splits_boundary {
            return None;
        }
        let plane = self.mesh.plane(s)?;
        let sphere = self.mesh.equator(s)?;
        let p = plane.nearest(sphere.center, self.halvings);
        Some((p, walk_facet(self.mesh, &plane, s, p)?))
    }

    /// Proposes the circumcenter of a subface, or the middle of a subsegment in the way.
    fn try_subface(&mut self, s: u32, least: u64) -> Result<Answer, NoMemory> {
        match self.center_in_facet(s) {
            Some((p, End::Inside(at))) => self.try_in_subface(at, p, least),
            Some((_, End::Wall(e))) => self.try_subsegment(e, least),
            None => Ok(Answer::Refused),
        }
    }

    /// Proposes a point in a subface, or the middle of a subsegment that it encroaches.
    fn try_in_subface(&mut self, s: u32, p: Spot, least: u64) -> Result<Answer, NoMemory> {
        if let Some(e) = encroached_at(self.mesh, s, p) {
            let answer = self.try_subsegment(e.place, least)?;
            if answer != Answer::Refused {
                return Ok(answer);
            }
        }
        self.buckets.take(p, least)
    }

    /// Proposes a point in a tetrahedron, or one of its subsegments or subfaces that it encroaches.
    fn try_inside(&mut self, t: u32, p: Spot, least: u64) -> Result<Answer, NoMemory> {
        if let Some(e) = encroached_edge(self.mesh, t, p) {
            let answer = self.try_subsegment(e.place, least)?;
            if answer != Answer::Refused {
                return Ok(answer);
            }
        }
        if let Some(s) = encroached_face(self.mesh, t, p) {
            let answer = self.try_subface(s.place, least)?;
            if answer != Answer::Refused {
                return Ok(answer);
            }
        }
        self.buckets.take(p, least)
    }

    /// The circumcenter of a tetrahedron on the lattice, and where the way to it ends.
    fn center(&self, t: u32) -> Option<(Spot, End)> {
        let sphere = circumsphere(&self.mesh.corners(t)?)?;
        let p = sphere.center.on_lattice(self.halvings);
        Some((p, walk(self.mesh, t, p)?))
    }

    /// Proposes the circumcenter of a tetrahedron, or a point of the boundary in place of it.
    fn try_center(&mut self, t: u32, least: u64) -> Result<Answer, NoMemory> {
        match self.center(t) {
            Some((p, End::Inside(at))) => self.try_inside(at, p, least),
            Some((_, End::Wall(s))) => self.try_subface(s, least),
            None => Ok(Answer::Refused),
        }
    }

    /// Proposes the centroid of a tetrahedron.
    fn try_centroid(&mut self, t: u32, least: u64) -> Result<Answer, NoMemory> {
        let Some(corners) = self.mesh.corners(t) else {
            return Ok(Answer::Refused);
        };
        let p = centroid(&corners).on_lattice(self.halvings);
        if !has_inside(&corners, p) {
            return Ok(Answer::Refused);
        }
        self.buckets.take(p, least)
    }

    /// Proposes a point that splits a tetrahedron, unless one near it was proposed. `least` is the
    /// square of the distance that it is to keep from the points of the mesh; where no point does,
    /// the centroid is to keep half of it, and else the middle of the longest subsegment is taken.
    pub(crate) fn split(&mut self, t: u32, least: u64) -> Result<(), NoMemory> {
        if self.try_center(t, least)? != Answer::Refused {
            return Ok(());
        }
        if self.try_centroid(t, least / 4)? != Answer::Refused {
            return Ok(());
        }
        if let Some(e) = longest_edge(self.mesh, t) {
            self.try_subsegment(e.place, 1)?;
        }
        Ok(())
    }
}

//! Segments and facets that meet at less than 60 degrees.
use crate::field::Field;
use crate::mesh::Mesh;
use crate::parts::{Part, Parts, other_end};
use crate::spot::{Spot, is_within_60, is_within_75};
use crate::table::{Entry, Table};
use geo_laws::{Face, Side};
use std::alloc::Global;
use tet_ports::NoMemory;

/// The most subsegments at a point, and subfaces at a subsegment, whose angles are looked at.
const MOST: usize = 64;

/// Which ends of a subsegment are corners of the complex with another subsegment at less than 75
/// degrees.
#[derive(Clone, Copy)]
pub struct SharpEnds {
    pub first: bool,
    pub second: bool,
}

/// The first few of a list.
fn few(list: &[u32]) -> &[u32] {
    list.get(..MOST).unwrap_or(list)
}

/// The direction of a subsegment from one of its ends.
fn direction(mesh: &Mesh, e: u32, v: u32) -> Option<Spot> {
    let side = mesh.subsegments.get(e as usize).copied()?;
    let (from, to) = mesh.spot(v).zip(mesh.spot(other_end(side, v)))?;
    Some(to.from(from))
}

/// Whether a subsegment from a corner of a subface is off its plane, and at less than 60 degrees to
/// one of its sides there or to the vector between these.
fn is_sharp_to(mesh: &Mesh, e: u32, s: u32, v: u32) -> Option<bool> {
    let Face { a, b, c } = mesh.subfaces.get(s as usize)?.face;
    let (p, q) = if v == a {
        (b, c)
    } else if v == b {
        (a, c)
    } else {
        (a, b)
    };
    let corner = mesh.spot(v)?;
    let (p, q) = (mesh.spot(p)?.from(corner), mesh.spot(q)?.from(corner));
    let u = direction(mesh, e, v)?;
    if p.cross(q).dot(u) == 0 {
        return Some(false);
    }
    Some(is_within_60(u, p) || is_within_60(u, q) || is_within_60(u, p.plus(q)))
}

/// The normal of a subface beside a side, by which two subfaces there are compared.
fn normal_from(mesh: &Mesh, side: Side, s: u32) -> Option<Spot> {
    let Face { a, b, c } = mesh.subfaces.get(s as usize)?.face;
    let apex = if a != side.a && a != side.b {
        a
    } else if b != side.a && b != side.b {
        b
    } else {
        c
    };
    let (from, to) = mesh.ends_of(side)?;
    Some(to.from(from).cross(mesh.spot(apex)?.from(from)))
}

/// Whether two subfaces of different facets meet at less than 60 degrees at a subsegment.
fn is_sharp_fold(mesh: &Mesh, e: u32, s: u32, t: u32) -> Option<bool> {
    let side = mesh.subsegments.get(e as usize).copied()?;
    if mesh.facet(s) == mesh.facet(t) {
        return Some(false);
    }
    let (one, other) = normal_from(mesh, side, s).zip(normal_from(mesh, side, t))?;
    Some(is_within_60(one, other))
}

/// Whether two of the subsegments at a point meet there at less than 60 degrees.
fn are_within_60(mesh: &Mesh, e: u32, f: u32, v: u32) -> bool {
    match (direction(mesh, e, v), direction(mesh, f, v)) {
        (Some(u), Some(w)) => is_within_60(u, w),
        _ => false,
    }
}

/// Whether two of the subsegments at a point meet there at less than 75 degrees.
fn are_within_75(mesh: &Mesh, e: u32, f: u32, v: u32) -> bool {
    match (direction(mesh, e, v), direction(mesh, f, v)) {
        (Some(u), Some(w)) => is_within_75(u, w),
        _ => false,
    }
}

/// Notes the facets of two subfaces, each at the other.
fn note_facets(mesh: &Mesh, s: u32, t: u32, entries: &mut Vec<Entry>) -> Result<(), NoMemory> {
    let (Some(one), Some(other)) = (mesh.facet(s), mesh.facet(t)) else {
        return Ok(());
    };
    entries.push(Entry {
        key: one,
        value: other,
    })?;
    entries.push(Entry {
        key: other,
        value: one,
    })?;
    Ok(())
}

/// Notes the facets that a subface beside a subsegment, and a later one there, belong to, where
/// these meet at less than 60 degrees.
fn note_subface(
    mesh: &Mesh,
    e: u32,
    s: u32,
    beside: &[u32],
    entries: &mut Vec<Entry>,
) -> Result<(), NoMemory> {
    for t in beside {
        if s < *t && is_sharp_fold(mesh, e, s, *t) == Some(true) {
            note_facets(mesh, s, *t, entries)?;
        }
    }
    Ok(())
}

/// Notes the facets that meet at a subsegment at less than 60 degrees.
fn note_fold(
    mesh: &Mesh,
    e: u32,
    beside: &[u32],
    entries: &mut Vec<Entry>,
) -> Result<(), NoMemory> {
    for s in beside {
        note_subface(mesh, e, *s, beside, entries)?;
    }
    Ok(())
}

/// For each facet those that it meets at less than 60 degrees.
pub(crate) fn folds_of(alloc: Global, mesh: &Mesh, parts: &Parts) -> Result<Table, NoMemory> {
    let mut entries = Vec::new(alloc);
    for i in 0..mesh.subsegments.len() {
        let Ok(e) = u32::try_from(i) else { break };
        note_fold(mesh, e, few(parts.stars.beside.at(e)), &mut entries)?;
    }
    Table::new(alloc, entries.as_slice(), mesh.facets, mesh.facets)
}

impl<'a> Field<'a> {
    /// The first subsegments at a point.
    fn subsegments_at(&self, v: u32) -> &[u32] {
        few(self.parts.stars.subsegments.at(v))
    }

    /// The subsegment of a segment at a point.
    fn subsegment_at(&self, segment: u32, v: u32) -> Option<u32> {
        for e in self.subsegments_at(v) {
            if self.parts.segment(*e) == Some(Part::Segment(segment)) {
                return Some(*e);
            }
        }
        None
    }

    /// Whether a subsegment meets another one at a corner of the complex at less than 75 degrees.
    fn is_sharp_end(&self, e: u32, v: u32) -> bool {
        if !self.parts.is_own(v) {
            return false;
        }
        for f in self.subsegments_at(v) {
            if e != *f && are_within_75(self.mesh, e, *f, v) {
                return true;
            }
        }
        false
    }

    /// Which ends of a subsegment are sharp.
    pub fn sharp_ends(&self, e: u32) -> SharpEnds {
        match self.mesh.subsegments.get(e as usize) {
            Some(side) => SharpEnds {
                first: self.is_sharp_end(e, side.a),
                second: self.is_sharp_end(e, side.b),
            },
            None => SharpEnds {
                first: false,
                second: false,
            },
        }
    }

    /// Whether a subsegment meets another one at a corner of the complex at less than 60 degrees.
    fn is_sharp(&self, e: u32, v: u32) -> bool {
        for f in self.subsegments_at(v) {
            if e != *f && are_within_60(self.mesh, e, *f, v) {
                return true;
            }
        }
        false
    }

    /// Whether two segments meet at a corner of the complex at less than 60 degrees.
    fn do_segments_meet_at(&self, one: u32, other: u32, v: u32) -> bool {
        match (self.subsegment_at(one, v), self.subsegment_at(other, v)) {
            (Some(e), Some(f)) => are_within_60(self.mesh, e, f, v),
            _ => false,
        }
    }

    /// Whether two segments meet at less than 60 degrees.
    fn do_segments_meet(&self, one: u32, other: u32) -> bool {
        for v in self.parts.corners_of(Part::Segment(one)) {
            if self.do_segments_meet_at(one, other, *v) {
                return true;
            }
        }
        false
    }

    /// Whether a subsegment from a corner of the complex is sharp to a subface of a facet there.
    fn is_sharp_to_facet(&self, e: u32, facet: u32, v: u32) -> bool {
        for s in few(self.parts.stars.subfaces.at(v)) {
            if self.mesh.facet(*s) == Some(facet)
                && is_sharp_to(self.mesh, e, *s, v) == Some(true)
            {
                return true;
            }
        }
        false
    }

    /// Whether a segment meets a facet at a corner of the complex at less than 60 degrees, and
    /// another segment there.
    fn meets_facet_at(&self, segment: u32, facet: u32, v: u32) -> bool {
        if !self.parts.is_in(v, facet) {
            return false;
        }
        match self.subsegment_at(segment, v) {
            Some(e) => self.is_sharp(e, v) && self.is_sharp_to_facet(e, facet, v),
            None => false,
        }
    }

    /// Whether a segment meets a facet at less than 60 degrees.
    fn meets_facet(&self, segment: u32, facet: u32) -> bool {
        for v in self.parts.corners_of(Part::Segment(segment)) {
            if self.meets_facet_at(segment, facet, *v) {
                return true;
            }
        }
        false
    }

    /// Whether two parts meet at less than 60 degrees.
    pub fn meet(&self, one: Option<Part>, other: Option<Part>) -> bool {
        let (Some(one), Some(other)) = (one, other) else {
            return false;
        };
        match (one, other) {
            (Part::Segment(s), Part::Segment(t)) => s != t && self.do_segments_meet(s, t),
            (Part::Segment(s), Part::Facet(f)) => self.meets_facet(s, f),
            (Part::Facet(f), Part::Segment(s)) => self.meets_facet(s, f),
            (Part::Facet(f), Part::Facet(g)) => self.folds.at(f).binary_search(&g).is_ok(),
        }
    }

    /// Whether each of the points is in one of two facets.
    fn are_in(&self, corners: &[u32; 4], one: u32, other: u32) -> bool {
        for v in corners {
            if !self.parts.is_in(*v, one) && !self.parts.is_in(*v, other) {
                return false;
            }
        }
        true
    }

    /// Whether all corners are in the facet and another one that it meets at less than 60 degrees.
    fn are_at_fold(&self, corners: &[u32; 4], facet: u32) -> bool {
        for other in self.folds.at(facet) {
            if self.are_in(corners, facet, *other) {
                return true;
            }
        }
        false
    }

    /// Whether all corners of a tetrahedron are in two facets that meet at less than 60 degrees.
    pub fn is_in_fold(&self, corners: &[u32; 4]) -> bool {
        for facet in self.parts.stars.facets.at(corners[0]) {
            if self.are_at_fold(corners, *facet) {
                return true;
            }
        }
        false
    }
}

//! The segments and facets on which points were put.
use crate::mesh::Mesh;
use crate::stars::Stars;
use crate::table::{Entry, Table};
use geo_laws::{Face, Side};
use std::alloc::Global;
use tet_ports::NoMemory;

/// A segment, by its first subsegment, or a facet.
#[derive(Clone, Copy, PartialEq, Eq, PartialOrd, Ord)]
pub enum Part {
    Segment(u32),
    Facet(u32),
}

/// The segment of each subsegment, the part inside which each point lies, what is at each point,
/// and the corners of the complex on each part.
#[derive(Drop)]
pub struct Parts {
    segments: Vec<Option<u32>>,
    parts: Vec<Option<Part>>,
    pub(crate) stars: Stars,
    corners: Corners,
}

/// The corners of the complex on each segment and in each facet; they are the first points.
#[derive(Drop)]
struct Corners {
    own: usize,
    on_segment: Table,
    in_facet: Table,
}

/// The end of a side that is not this one.
pub(crate) fn other_end(side: Side, v: u32) -> u32 {
    if side.a == v { side.b } else { side.a }
}

/// Sets the segment of a subsegment unless it is known, and reports whether it was set.
fn set_segment(segments: &mut [Option<u32>], e: u32, segment: u32) -> bool {
    let place = e as usize;
    if place < segments.len() && segments[place].is_none() {
        segments[place] = Some(segment);
        return true;
    }
    false
}

/// Sets the segment of the subsegments that continue one of them from its end `v`, through points
/// that are no corners of the complex.
fn follow(
    mesh: &Mesh,
    stars: &Stars,
    own: usize,
    segment: u32,
    v: u32,
    segments: &mut [Option<u32>],
) {
    let mut at = v;
    let mut last = segment;
    for _ in 0..mesh.subsegments.len() {
        if (at as usize) < own {
            return;
        }
        let Some(next) = stars.next(at, last) else {
            return;
        };
        let Some(side) = mesh.subsegments.get(next as usize).copied() else {
            return;
        };
        if !set_segment(segments, next, segment) {
            return;
        }
        last = next;
        at = other_end(side, at);
    }
}

/// The segment of each subsegment.
fn segments_of(
    alloc: Global,
    mesh: &Mesh,
    stars: &Stars,
    own: usize,
) -> Result<Vec<Option<u32>>, NoMemory> {
    let mut segments = Vec::new(alloc);
    segments.resize(mesh.subsegments.len(), None)?;
    for i in 0..mesh.subsegments.len() {
        let Ok(segment) = u32::try_from(i) else { break };
        let Side { a, b } = mesh.subsegments[i];
        if set_segment(&mut segments, segment, segment) {
            follow(mesh, stars, own, segment, a, &mut segments);
            follow(mesh, stars, own, segment, b, &mut segments);
        }
    }
    Ok(segments)
}

/// The corners of the complex on each segment.
fn corners_on_segments(
    alloc: Global,
    mesh: &Mesh,
    segments: &[Option<u32>],
    own: usize,
) -> Result<Table, NoMemory> {
    let mut entries = Vec::new(alloc);
    for i in 0..mesh.subsegments.len() {
        let Side { a, b } = mesh.subsegments[i];
        if let Some(key) = segments.get(i).copied().flatten() {
            if (a as usize) < own {
                entries.push(Entry { key, value: a })?;
            }
            if (b as usize) < own {
                entries.push(Entry { key, value: b })?;
            }
        }
    }
    let (keys, values) = (mesh.subsegments.len(), mesh.spots.len());
    Table::new(alloc, entries.as_slice(), keys, values)
}

/// Appends the facets at a corner of the complex.
fn note_facets_at(stars: &Stars, v: u32, entries: &mut Vec<Entry>) -> Result<(), NoMemory> {
    for facet in stars.facets.at(v) {
        entries.push(Entry {
            key: *facet,
            value: v,
        })?;
    }
    Ok(())
}

/// The corners of the complex in each facet.
fn corners_in_facets(
    alloc: Global,
    mesh: &Mesh,
    stars: &Stars,
    own: usize,
) -> Result<Table, NoMemory> {
    let mut entries = Vec::new(alloc);
    for i in 0..own.min(mesh.spots.len()) {
        let Ok(v) = u32::try_from(i) else { break };
        note_facets_at(stars, v, &mut entries)?;
    }
    Table::new(alloc, entries.as_slice(), mesh.facets, mesh.spots.len())
}

/// The segment of a subsegment as a part.
fn part_of(segments: &[Option<u32>], e: u32) -> Option<Part> {
    let segment = segments.get(e as usize).copied().flatten()?;
    Some(Part::Segment(segment))
}

/// The part inside which a point lies that is no corner of the complex.
fn part_at(stars: &Stars, segments: &[Option<u32>], v: u32) -> Option<Part> {
    match stars.subsegments.at(v).first() {
        Some(e) => part_of(segments, *e),
        None => Some(Part::Facet(*stars.facets.at(v).first()?)),
    }
}

/// The facet of a subface as a part.
pub fn facet_of(mesh: &Mesh, s: u32) -> Option<Part> {
    Some(Part::Facet(mesh.facet(s)?))
}

/// The part inside which each point lies.
fn parts_of(
    alloc: Global,
    mesh: &Mesh,
    stars: &Stars,
    segments: &[Option<u32>],
    own: usize,
) -> Result<Vec<Option<Part>>, NoMemory> {
    let mut parts = Vec::with_capacity(alloc, mesh.spots.len())?;
    for i in 0..mesh.spots.len() {
        let Ok(v) = u32::try_from(i) else { break };
        if i < own {
            parts.push(None)?;
        } else {
            parts.push(part_at(stars, segments, v))?;
        }
    }
    Ok(parts)
}

impl Corners {
    /// The corners of the complex on the segments and in the facets.
    fn new(
        alloc: Global,
        mesh: &Mesh,
        stars: &Stars,
        segments: &[Option<u32>],
        own: usize,
    ) -> Result<Self, NoMemory> {
        Ok(Corners {
            own,
            on_segment: corners_on_segments(alloc, mesh, segments, own)?,
            in_facet: corners_in_facets(alloc, mesh, stars, own)?,
        })
    }
}

impl Parts {
    /// The parts of a mesh; the first points are corners of the complex.
    pub(crate) fn new(alloc: Global, mesh: &Mesh, own: usize) -> Result<Self, NoMemory> {
        let stars = Stars::new(alloc, mesh)?;
        let segments = segments_of(alloc, mesh, &stars, own)?;
        let parts = parts_of(alloc, mesh, &stars, segments.as_slice(), own)?;
        let corners = Corners::new(alloc, mesh, &stars, segments.as_slice(), own)?;
        Ok(Parts {
            segments,
            parts,
            stars,
            corners,
        })
    }

    /// The part inside which a point lies.
    pub fn at(&self, v: u32) -> Option<Part> {
        self.parts.get(v as usize).copied().flatten()
    }

    /// The segment of a subsegment.
    pub fn segment(&self, e: u32) -> Option<Part> {
        part_of(self.segments.as_slice(), e)
    }

    /// Whether a point is a corner of the complex.
    pub(crate) fn is_own(&self, v: u32) -> bool {
        (v as usize) < self.corners.own
    }

    /// Whether a part has a corner of the complex.
    fn has(&self, part: Part, v: u32) -> bool {
        match part {
            Part::Segment(s) => self.corners.on_segment.at(s).binary_search(&v).is_ok(),
            Part::Facet(f) => self.is_in(v, f),
        }
    }

    /// The corners of the complex on a segment or in a facet.
    pub fn corners_of(&self, part: Part) -> &[u32] {
        match part {
            Part::Segment(s) => self.corners.on_segment.at(s),
            Part::Facet(f) => self.corners.in_facet.at(f),
        }
    }

    /// Whether one of the corners of the complex is on a part.
    fn has_any(&self, part: Part, corners: &[u32]) -> bool {
        for v in corners {
            if self.has(part, *v) {
                return true;
            }
        }
        false
    }

    /// Whether two parts are one, or have a corner of the complex in common.
    fn touch(&self, one: Part, other: Part) -> bool {
        let (few, many) = (self.corners_of(one), self.corners_of(other));
        if few.len() <= many.len() {
            one == other || self.has_any(other, few)
        } else {
            self.has_any(one, many)
        }
    }

    /// Whether a point is on a part, or inside of the complex, or on a part that touches it.
    pub fn is_by(&self, v: u32, part: Part) -> bool {
        if self.is_own(v) {
            return self.has(part, v);
        }
        match self.at(v) {
            Some(other) => self.touch(other, part),
            None => true,
        }
    }

    /// Whether a point is in the facet.
    pub(crate) fn is_in(&self, v: u32, facet: u32) -> bool {
        self.stars.facets.at(v).binary_search(&facet).is_ok()
    }
}

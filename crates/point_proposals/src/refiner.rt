//! Points that split tetrahedra one by one: circumcenters, and points in subfaces and on
//! subsegments in place of those that are hidden by them or that would encroach them.
use crate::buckets::Answer;
use crate::foot::{foot_of, hiding_subfaces, is_far_from_line, is_far_from_plane};
use crate::region::{Ranked, Region};
use crate::slim::{Asked, Lengths};
use crate::taken::Taken;
use crate::walk::{End, walk, walk_facet};
use mesh_parts::{Field, Rung, Spot, center_in_plane, center_of, facet_of, grid_point};
use std::alloc::Global;
use tet_ports::NoMemory;

/// The most subsegments, or subfaces, that are tried in place of one point.
const MOST_TRIED: usize = 8;

/// Where points are proposed: in steps of `2^halvings` grid units, and on the boundary only where
/// it may be split.
#[derive(Drop)]
pub(crate) struct Refiner<'a> {
    alloc: Global,
    field: &'a Field<'a>,
    halvings: u32,
    splits_boundary: bool,
    /// Whether this is the last trial, in which a point may be near to others on parts that do not
    /// touch its own.
    is_last: bool,
    region: Region,
    pub(crate) taken: Taken,
}

/// A point of a facet, and the subface that has it.
#[derive(Clone, Copy)]
struct InFacet {
    subface: u32,
    spot: Spot,
}

/// Whether a distance is at least 95 hundredths of a length, by their squares.
fn is_about(distance: u64, length: u64) -> bool {
    u128::from(distance).wrapping_mul(400) >= u128::from(length).wrapping_mul(361)
}

impl<'a> Refiner<'a> {
    /// No proposed point yet.
    pub(crate) fn new(
        alloc: Global,
        field: &'a Field<'a>,
        halvings: u32,
        splits_boundary: bool,
    ) -> Result<Self, NoMemory> {
        let cells = field.mesh.cells.len();
        Ok(Refiner {
            alloc,
            field,
            halvings,
            splits_boundary,
            is_last: false,
            region: Region::new(alloc, cells)?,
            taken: Taken::new(alloc, cells)?,
        })
    }

    /// Whether the distance of the point from those nearby is enough: 95 hundredths of the shortest
    /// edge, or an eighth of the floor, and in the last trial a sixteenth of it.
    fn is_enough(&self, lengths: &Lengths) -> bool {
        let region = &self.region;
        if self.is_last {
            is_about(region.nearest_by, lengths.shortest)
                || region.nearest_by >= lengths.floor / 256
        } else {
            is_about(region.nearest, lengths.shortest) || region.nearest >= lengths.floor / 64
        }
    }

    /// Proposes the point of the region, unless it is near to another one.
    fn take(&mut self, p: Spot, lengths: &Lengths) -> Result<Answer, NoMemory> {
        if grid_point(p).is_none() || self.region.nearest == 0 || !self.is_enough(lengths) {
            return Ok(Answer::Refused);
        }
        if self.taken.is_locked(&self.region, p) {
            return Ok(Answer::Locked);
        }
        self.taken.put(&self.region, p)?;
        Ok(Answer::Taken)
    }

    /// The lattice point of a subsegment at which it is split.
    fn splitting(&self, e: u32) -> Option<Spot> {
        if !self.splits_boundary {
            return None;
        }
        let (a, b) = self.field.mesh.ends(e)?;
        let rung = Rung::new(a, b, self.halvings)?;
        let ends = self.field.sharp_ends(e);
        match (ends.first, ends.second) {
            (true, false) => rung.shell(false),
            (false, true) => rung.shell(true),
            _ => rung.middle(),
        }
    }

    /// Proposes a point of a subsegment.
    fn try_subsegment(&mut self, e: u32, lengths: &Lengths) -> Result<Answer, NoMemory> {
        let Some(p) = self.splitting(e) else {
            return Ok(Answer::Refused);
        };
        let field = self.field;
        let part = field.parts.segment(e);
        self.region.grow(field, p, field.around.at(e), part)?;
        self.take(p, lengths)
    }

    /// Proposes a point of the first of some subsegments that can be split.
    fn try_subsegments(&mut self, found: &[Ranked], lengths: &Lengths) -> Result<Answer, NoMemory> {
        let mut last = Answer::Refused;
        for ranked in found.get(..MOST_TRIED).unwrap_or(found) {
            match self.try_subsegment(ranked.place, lengths)? {
                Answer::Taken => return Ok(Answer::Taken),
                Answer::Locked => last = Answer::Locked,
                Answer::Refused => {}
            }
        }
        Ok(last)
    }

    /// Proposes a point in the first of some subfaces that can be split.
    fn try_subfaces(&mut self, found: &[Ranked], lengths: &Lengths) -> Result<Answer, NoMemory> {
        let mut last = Answer::Refused;
        for ranked in found.get(..MOST_TRIED).unwrap_or(found) {
            match self.try_subface(ranked.place, lengths)? {
                Answer::Taken => return Ok(Answer::Taken),
                Answer::Locked => last = Answer::Locked,
                Answer::Refused => {}
            }
        }
        Ok(last)
    }

    /// The lattice point of the facet of a subface that is near to a point, and where the way to it
    /// from there ends.
    fn in_facet(&self, s: u32, wish: Spot) -> Option<(Spot, End)> {
        if !self.splits_boundary {
            return None;
        }
        let plane = self.field.mesh.plane(s)?;
        let p = plane.nearest(wish, self.halvings);
        Some((p, walk_facet(self.field.mesh, &plane, s, p)?))
    }

    /// Proposes a point of the facet of a subface, or of a subsegment in the way to it.
    fn try_near(&mut self, s: u32, wish: Spot, lengths: &Lengths) -> Result<Answer, NoMemory> {
        match self.in_facet(s, wish) {
            Some((spot, End::Inside(subface))) => {
                self.try_in_facet(InFacet { subface, spot }, lengths)
            }
            Some((_, End::Wall(e))) => self.try_subsegment(e, lengths),
            None => Ok(Answer::Refused),
        }
    }

    /// Proposes the circumcenter of a subface, or a point of a subsegment in place of it.
    fn try_subface(&mut self, s: u32, lengths: &Lengths) -> Result<Answer, NoMemory> {
        let Some(corners) = self.field.mesh.triangle(s) else {
            return Ok(Answer::Refused);
        };
        match center_in_plane(&corners) {
            Some(center) => self.try_near(s, center, lengths),
            None => Ok(Answer::Refused),
        }
    }

    /// Makes the region that of a point in a subface.
    fn grow_in_facet(&mut self, at: InFacet) -> Result<(), NoMemory> {
        let field = self.field;
        let part = facet_of(field.mesh, at.subface);
        let seeds = field.beside.at(at.subface);
        self.region.grow(field, at.spot, seeds, part)
    }

    /// Proposes a point in a subface, or a point of a subsegment that it encroaches.
    fn try_in_facet(&mut self, at: InFacet, lengths: &Lengths) -> Result<Answer, NoMemory> {
        self.grow_in_facet(at)?;
        let mut found = Vec::new(self.alloc);
        self.region
            .encroached_subsegments(self.field, at.spot, &mut found)?;
        if found.is_empty() {
            return self.take(at.spot, lengths);
        }
        let answer = self.try_subsegments(found.as_slice(), lengths)?;
        if answer != Answer::Refused {
            return Ok(answer);
        }
        if !self.is_off_subsegments(found.as_slice(), at.spot, lengths.shortest) {
            return Ok(Answer::Refused);
        }
        self.grow_in_facet(at)?;
        self.take_encroaching(at.spot, lengths)
    }

    /// Proposes the point of the region though it encroaches subsegments or subfaces.
    fn take_encroaching(&mut self, p: Spot, lengths: &Lengths) -> Result<Answer, NoMemory> {
        if !is_about(self.region.nearest, lengths.shortest) {
            return Ok(Answer::Refused);
        }
        self.take(p, lengths)
    }

    /// Whether a point is at least half a length from the lines of some subsegments, by its square.
    fn is_off_subsegments(&self, found: &[Ranked], p: Spot, square: u64) -> bool {
        for ranked in found {
            if let Some((a, b)) = self.field.mesh.ends(ranked.place) {
                if !is_far_from_line(a, b, p, square) {
                    return false;
                }
            }
        }
        true
    }

    /// Whether a point is at least half a length from the planes of some subfaces, by its square.
    fn is_off_subfaces(&self, found: &[Ranked], p: Spot, square: u64) -> bool {
        for ranked in found {
            if let Some(corners) = self.field.mesh.triangle(ranked.place) {
                if !is_far_from_plane(&corners, p, square) {
                    return false;
                }
            }
        }
        true
    }

    /// Proposes a point in a tetrahedron, or a point of the boundary that it encroaches.
    fn try_inside(&mut self, t: u32, p: Spot, lengths: &Lengths) -> Result<Answer, NoMemory> {
        let field = self.field;
        self.region.grow(field, p, &[t], None)?;
        let mut edges = Vec::new(self.alloc);
        self.region.encroached_subsegments(field, p, &mut edges)?;
        let mut faces = Vec::new(self.alloc);
        self.region.encroached_subfaces(field, p, &mut faces)?;
        if edges.is_empty() && faces.is_empty() {
            return self.take(p, lengths);
        }
        let answer = self.try_encroached(edges.as_slice(), faces.as_slice(), lengths)?;
        if answer != Answer::Refused {
            return Ok(answer);
        }
        if !self.is_off_subsegments(edges.as_slice(), p, lengths.shortest)
            || !self.is_off_subfaces(faces.as_slice(), p, lengths.shortest)
        {
            return Ok(Answer::Refused);
        }
        self.region.grow(field, p, &[t], None)?;
        self.take_encroaching(p, lengths)
    }

    /// Proposes a point of the first of some subsegments that can be split, or else of the first of
    /// some subfaces.
    fn try_encroached(
        &mut self,
        edges: &[Ranked],
        faces: &[Ranked],
        lengths: &Lengths,
    ) -> Result<Answer, NoMemory> {
        match self.try_subsegments(edges, lengths)? {
            Answer::Refused => self.try_subfaces(faces, lengths),
            answer => Ok(answer),
        }
    }

    /// Proposes a point of the facets that hide the circumcenter of a tetrahedron: the foot of the
    /// center in each, those with the largest disc in the circumsphere first.
    fn try_hidden(&mut self, t: u32, lengths: &Lengths) -> Result<Answer, NoMemory> {
        let field = self.field;
        let Some(sphere) = field.sphere(t) else {
            return Ok(Answer::Refused);
        };
        self.region.grow(field, sphere.center, &[t], None)?;
        let found = hiding_subfaces(self.alloc, field, &self.region, sphere, lengths.shortest)?;
        let mut last = Answer::Refused;
        for ranked in found.as_slice() {
            match self.try_foot(ranked.place, sphere.center, lengths)? {
                Answer::Taken => return Ok(Answer::Taken),
                Answer::Locked => last = Answer::Locked,
                Answer::Refused => {}
            }
        }
        Ok(last)
    }

    /// Proposes the foot of a point in the plane of a subface, or a point of a subsegment in place
    /// of it.
    fn try_foot(&mut self, s: u32, p: Spot, lengths: &Lengths) -> Result<Answer, NoMemory> {
        match foot_of(self.field.mesh, s, p) {
            Some(foot) => self.try_near(s, foot, lengths),
            None => Ok(Answer::Refused),
        }
    }

    /// The circumcenter of a tetrahedron on the lattice, and where the way to it ends.
    fn center(&self, t: u32) -> Option<(Spot, End)> {
        let center = center_of(&self.field.mesh.corners(t)?)?;
        let p = center.on_lattice(self.halvings);
        Some((p, walk(self.field.mesh, t, p)?))
    }

    /// Proposes the circumcenter of a tetrahedron, or a point of the boundary in place of it.
    fn try_center(
        &mut self,
        t: u32,
        center: Option<(Spot, End)>,
        lengths: &Lengths,
    ) -> Result<Answer, NoMemory> {
        match center {
            Some((p, End::Inside(at))) => self.try_inside(at, p, lengths),
            Some((_, End::Wall(s))) => {
                let answer = self.try_hidden(t, lengths)?;
                if answer != Answer::Refused {
                    return Ok(answer);
                }
                self.try_subface(s, lengths)
            }
            None => Ok(Answer::Refused),
        }
    }

    /// Proposes a point that splits a tetrahedron, unless it is in the region of a proposed one. A
    /// large one gets a point nevertheless.
    pub(crate) fn split(&mut self, asked: &Asked) -> Result<(), NoMemory> {
        if !asked.is_large && self.taken.has(asked.place) {
            return Ok(());
        }
        self.is_last = false;
        self.region.asks_by = false;
        let center = self.center(asked.place);
        if self.try_center(asked.place, center, &asked.lengths)? == Answer::Refused {
            self.is_last = true;
            self.region.asks_by = true;
            self.try_center(asked.place, center, &asked.lengths)?;
        }
        Ok(())
    }
}

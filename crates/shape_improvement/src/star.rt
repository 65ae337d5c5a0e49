//! The star of a point, and the faces in facets at it.
use crate::live::{Cell, Freedom, Live, face_at};
use geo_laws::{Side, side_of};
use mesh_parts::volume;
use std::alloc::Global;
use tet_ports::NoMemory;

/// The most tetrahedra of a star.
const MOST: usize = 150;

/// An edge opposite a point in the facet of both, in the positive order as drawn.
#[derive(Clone, Copy, PartialEq, Eq, PartialOrd, Ord)]
pub(crate) struct Opposite {
    pub(crate) facet: u32,
    pub(crate) from: u32,
    pub(crate) to: u32,
}

/// A sector of a star that a facet bounds, with the side on which it is.
#[derive(Clone, Copy, PartialEq, Eq, PartialOrd, Ord)]
pub(crate) struct Bordering {
    pub(crate) facet: u32,
    pub(crate) sector: u32,
    pub(crate) is_above: bool,
}

/// A tetrahedron of a star, and its sector: facets at the point lie between sectors.
#[derive(Clone, Copy)]
pub(crate) struct Sectored {
    pub(crate) cell: u32,
    pub(crate) sector: u32,
}

/// The star of a point, sector by sector.
#[derive(Drop)]
pub(crate) struct Star {
    pub(crate) sectored: Vec<Sectored>,
    pub(crate) cells: Vec<u32>,
    pub(crate) opposites: Vec<Opposite>,
    pub(crate) borderings: Vec<Bordering>,
    /// Seeds of other sectors.
    waiting: Vec<u32>,
}

impl Star {
    /// No star.
    pub(crate) fn new(alloc: Global) -> Self {
        Star {
            sectored: Vec::new(alloc),
            cells: Vec::new(alloc),
            opposites: Vec::new(alloc),
            borderings: Vec::new(alloc),
            waiting: Vec::new(alloc),
        }
    }

    /// Appends a tetrahedron that is not marked.
    fn enter(&mut self, live: &mut Live, cell: u32, sector: u32) -> Result<(), NoMemory> {
        if live.enter(cell) {
            self.sectored.push(Sectored { cell, sector })?;
            self.cells.push(cell)?;
        }
        Ok(())
    }

    /// Appends the neighbors of a tetrahedron across the faces at a point; those behind facets
    /// wait.
    fn spread(&mut self, live: &mut Live, v: u32, at: Sectored) -> Result<(), NoMemory> {
        let Some(cell) = live.cell(at.cell).copied() else {
            return Ok(());
        };
        for k in 0..4 {
            let across = cell.across[k];
            if cell.corners[k] != v {
                match (across.cell, across.facet) {
                    (Some(n), None) => self.enter(live, n, at.sector)?,
                    (Some(n), Some(_)) => self.waiting.push(n)?,
                    _ => {}
                }
            }
        }
        Ok(())
    }

    /// Appends the sector with a tetrahedron.
    fn fill(&mut self, live: &mut Live, v: u32, seed: u32, sector: u32) -> Result<(), NoMemory> {
        let first = self.sectored.len();
        self.enter(live, seed, sector)?;
        for i in first..MOST {
            let Some(at) = self.sectored.get(i).copied() else {
                break;
            };
            self.spread(live, v, at)?;
        }
        Ok(())
    }

    /// Makes this the tetrahedra of the star of a point, and reports whether they are few.
    fn gather(&mut self, live: &mut Live, v: u32) -> Result<bool, NoMemory> {
        self.sectored.clear();
        self.cells.clear();
        self.waiting.clear();
        live.unmark();
        let Some(seed) = live.cell_at(v) else {
            return Ok(false);
        };
        self.waiting.push(seed)?;
        let mut sector = 0_u32;
        for _ in 0..MOST {
            let Some(next) = self.waiting.pop() else {
                break;
            };
            if !live.is_marked(next) {
                self.fill(live, v, next, sector)?;
                sector = sector.wrapping_add(1);
            }
        }
        Ok(self.waiting.is_empty() && self.cells.len() < MOST)
    }

    /// Notes a face in a facet at a point, where the face is opposite the corner `k`.
    fn note_face(
        &mut self,
        live: &Live,
        v: u32,
        sector: u32,
        cell: &Cell,
        k: usize,
    ) -> Result<bool, NoMemory> {
        let (Some(across), Some(apex)) = (cell.across.get(k).copied(), cell.corners.get(k).copied())
        else {
            return Ok(false);
        };
        let Some(facet) = across.facet else {
            return Ok(true);
        };
        let edge = others(face_at(&cell.corners, k), v);
        let Some(seen) = seen_from(live, facet, v, edge, apex) else {
            return Ok(false);
        };
        let Drawn { from, to, is_above } = seen;
        self.opposites.push(Opposite { facet, from, to })?;
        self.borderings.push(Bordering {
            facet,
            sector,
            is_above,
        })?;
        Ok(true)
    }

    /// Notes the faces in facets of a tetrahedron at a point.
    fn note_faces(&mut self, live: &Live, v: u32, at: Sectored) -> Result<bool, NoMemory> {
        let Some(cell) = live.cell(at.cell) else {
            return Ok(false);
        };
        for k in 0..4 {
            if cell.corners[k] != v && !self.note_face(live, v, at.sector, cell, k)? {
                return Ok(false);
            }
        }
        Ok(true)
    }

    /// Notes the faces in facets at a point.
    fn note_all(&mut self, live: &Live, v: u32) -> Result<bool, NoMemory> {
        self.opposites.clear();
        self.borderings.clear();
        if matches!(live.freedom(v), Freedom::Anywhere) {
            return Ok(true);
        }
        for i in 0..self.sectored.len() {
            let Some(at) = self.sectored.get(i).copied() else {
                break
            };
            if !self.note_faces(live, v, at)? {
                return Ok(false);
            }
        }
        self.opposites.sort_unstable();
        self.opposites.dedup();
        self.borderings.sort_unstable();
        self.borderings.dedup();
        Ok(true)
    }

    /// Makes this the star of a point, and reports whether it has few tetrahedra, and faces only in
    /// facets whose planes are known.
    pub(crate) fn open(&mut self, live: &mut Live, v: u32) -> Result<bool, NoMemory> {
        Ok(self.gather(live, v)? && self.note_all(live, v)?)
    }

    /// The two points at which the facets of the star end, where there are two.
    pub(crate) fn ends(&self) -> Option<Side> {
        let facet = self.opposites.first()?.facet;
        let mut from = None;
        let mut to = None;
        for edge in self.opposites.as_slice() {
            if edge.facet == facet {
                if !self.has_to(facet, edge.from) {
                    from = Some(edge.from);
                }
                if !self.has_from(facet, edge.to) {
                    to = Some(edge.to);
                }
            }
        }
        Some(side_of(from?, to?))
    }

    /// Whether an edge in a facet ends at a point.
    pub(crate) fn has_to(&self, facet: u32, v: u32) -> bool {
        for edge in self.opposites.as_slice() {
            if edge.facet == facet && edge.to == v {
                return true;
            }
        }
        false
    }

    /// Whether an edge in a facet begins at a point.
    pub(crate) fn has_from(&self, facet: u32, v: u32) -> bool {
        self.next(facet, v).is_some()
    }

    /// The point behind another one round the star in a facet.
    pub(crate) fn next(&self, facet: u32, v: u32) -> Option<u32> {
        for edge in self.opposites.as_slice() {
            if edge.facet == facet && edge.from == v {
                return Some(edge.to);
            }
        }
        None
    }
}

/// An edge opposite a point in a facet, in the positive order as drawn, and whether a tetrahedron
/// at the face of both is above it.
#[derive(Clone, Copy)]
struct Drawn {
    from: u32,
    to: u32,
    is_above: bool,
}

/// The edge opposite `v` in a face of the facet, seen with the fourth corner of a tetrahedron.
fn seen_from(
    live: &Live,
    facet: u32,
    v: u32,
    edge: Option<(u32, u32)>,
    apex: u32,
) -> Option<Drawn> {
    let (from, to) = edge?;
    let [p, a, b] = live.triangle(&[v, from, to])?;
    let is_above = volume(p, a, b, live.spot(apex)?) > 0;
    if live.plane(facet)?.side(p, a, b) < 0 {
        return Some(Drawn {
            from: to,
            to: from,
            is_above: !is_above,
        });
    }
    Some(Drawn { from, to, is_above })
}

/// The two corners of a face that are not `v`, in their order behind it.
fn others(face: [u32; 3], v: u32) -> Option<(u32, u32)> {
    let [a, b, c] = face;
    if a == v {
        Some((b, c))
    } else if b == v {
        Some((c, a))
    } else if c == v {
        Some((a, b))
    } else {
        None
    }
}

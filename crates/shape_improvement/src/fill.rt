//! The Delaunay tetrahedra of the star of a point without the point, found face by face.
use crate::live::{Across, Live, NOTHING, face_at, to};
use crate::polygon::triangulate;
use crate::star::{Bordering, Sectored, Star};
use geo_laws::{Face, face_of};
use mesh_parts::{Sphere, circumsphere, volume};
use std::alloc::Global;
use tet_ports::NoMemory;

/// The most tetrahedra that fill a star.
const MOST: usize = 300;

/// What a face of the fill leads to.
#[derive(Clone, Copy)]
enum Behind {
    /// What is across a face of the star.
    Outer(Across),
    /// A tetrahedron of the fill, and its corner opposite the face.
    Inner(u32, usize),
    /// A facet of the point.
    Facet(u32),
}

/// A face that waits for its tetrahedron, on its positive side, in a sector of the star.
#[derive(Clone, Copy)]
struct Front {
    face: [u32; 3],
    sector: u32,
    behind: Behind,
}

/// A corner of the fill in a sector.
#[derive(Clone, Copy, PartialEq, Eq, PartialOrd, Ord)]
struct Candidate {
    sector: u32,
    corner: u32,
}

/// A face of the fill in a facet of the point.
#[derive(Clone, Copy, PartialEq, Eq, PartialOrd, Ord)]
struct Floor {
    face: Face,
    facet: u32,
    cell: u32,
    corner: usize,
}

/// The fill while it is made.
#[derive(Drop)]
pub(crate) struct Fill {
    pub(crate) cells: Vec<u32>,
    fronts: Vec<Front>,
    candidates: Vec<Candidate>,
    floors: Vec<Floor>,
    /// The greatest six-fold volume of the tetrahedra of each sector.
    mosts: Vec<i128>,
}

/// The face with its least corner first.
fn turned(face: [u32; 3]) -> [u32; 3] {
    let [a, b, c] = face;
    if a <= b && a <= c {
        face
    } else if b <= c {
        [b, c, a]
    } else {
        [c, a, b]
    }
}

/// The face from its other side.
fn reversed(face: [u32; 3]) -> [u32; 3] {
    let [a, b, c] = face;
    [a, c, b]
}

impl Fill {
    /// No fill.
    pub(crate) fn new(alloc: Global) -> Self {
        Fill {
            cells: Vec::new(alloc),
            fronts: Vec::new(alloc),
            candidates: Vec::new(alloc),
            floors: Vec::new(alloc),
            mosts: Vec::new(alloc),
        }
    }

    /// Puts a face that waits, whose corners may be corners of tetrahedra in the sector.
    fn put(&mut self, face: [u32; 3], sector: u32, behind: Behind) -> Result<(), NoMemory> {
        let face = turned(face);
        for corner in face {
            self.candidates.push(Candidate { sector, corner })?;
        }
        self.fronts.push(Front {
            face,
            sector,
            behind,
        })?;
        Ok(())
    }

    /// Puts the face of a tetrahedron of the star that is opposite the point.
    fn put_link(&mut self, live: &Live, v: u32, at: Sectored) -> Result<(), NoMemory> {
        let Some(cell) = live.cell(at.cell) else {
            return Ok(());
        };
        if at.sector as usize == self.mosts.len() {
            self.mosts.push(cell.most)?;
        }
        for k in 0..4 {
            if cell.corners[k] == v {
                let face = face_at(&cell.corners, k);
                self.put(face, at.sector, Behind::Outer(cell.across[k]))?;
            }
        }
        Ok(())
    }

    /// Puts the triangles of a facet on the side of a sector.
    fn put_facet(&mut self, triangles: &[[u32; 3]], bordering: &Bordering) -> Result<(), NoMemory> {
        for face in triangles {
            let face = if bordering.is_above {
                *face
            } else {
                reversed(*face)
            };
            self.put(face, bordering.sector, Behind::Facet(bordering.facet))?;
        }
        Ok(())
    }

    /// Puts the triangles of the facets of the point, and reports whether they have any.
    fn put_facets(&mut self, alloc: Global, live: &Live, star: &Star) -> Result<bool, NoMemory> {
        let mut last = None;
        let mut triangles = Vec::new(alloc);
        for bordering in star.borderings.as_slice() {
            if last != Some(bordering.facet) {
                last = Some(bordering.facet);
                triangles.clear();
                if !triangulate(alloc, live, star, bordering.facet, &mut triangles)? {
                    return Ok(false);
                }
            }
            self.put_facet(triangles.as_slice(), bordering)?;
        }
        Ok(true)
    }

    /// Puts the faces round the star of a point.
    fn start(&mut self, alloc: Global, live: &Live, star: &Star, v: u32) -> Result<bool, NoMemory> {
        self.cells.clear();
        self.fronts.clear();
        self.candidates.clear();
        self.floors.clear();
        self.mosts.clear();
        for at in star.sectored.as_slice() {
            self.put_link(live, v, *at)?;
        }
        if !self.put_facets(alloc, live, star)? {
            return Ok(false);
        }
        self.candidates.sort_unstable();
        self.candidates.dedup();
        Ok(true)
    }

    /// Where the corners for a sector begin among those for all.
    fn first_in(&self, sector: u32) -> usize {
        let least = Candidate { sector, corner: 0 };
        let (Ok(first) | Err(first)) = self.candidates.as_slice().binary_search(&least);
        first
    }

    /// The corners that tetrahedra of a sector may have.
    fn candidates_in(&self, sector: u32) -> &[Candidate] {
        let (first, last) = (self.first_in(sector), self.first_in(sector.wrapping_add(1)));
        self.candidates.get(first..last).unwrap_or(&[])
    }

    /// The corner that makes a Delaunay tetrahedron with a face.
    fn apex(&self, live: &Live, front: &Front) -> Option<u32> {
        let [a, b, c] = live.triangle(&front.face)?;
        let mut best = None;
        let mut sphere: Option<Sphere> = None;
        for candidate in self.candidates_in(front.sector) {
            let p = live.spot(candidate.corner)?;
            let is_better = best.is_none() || sphere.is_none_or(|s| s.has(p));
            if is_better && volume(a, b, c, p) > 0 {
                best = Some(candidate.corner);
                sphere = circumsphere(&[a, b, c, p]);
            }
        }
        best
    }

    /// Links a face of a new tetrahedron to what it leads to.
    fn link(&mut self, live: &mut Live, t: u32, k: usize, front: &Front) -> Result<(), NoMemory> {
        match front.behind {
            Behind::Outer(across) => live.set_across(t, k, across),
            Behind::Inner(n, place) => {
                live.set_across(t, k, to(n, None));
                live.set_across(n, place, to(t, None));
            }
            Behind::Facet(facet) => {
                let [a, b, c] = front.face;
                let across = Across {
                    cell: None,
                    facet: Some(facet),
                };
                live.set_across(t, k, across);
                self.floors.push(Floor {
                    face: face_of(a, b, c),
                    facet,
                    cell: t,
                    corner: k,
                })?;
            }
        }
        Ok(())
    }

    /// Takes the waiting face with these corners out.
    fn take(&mut self, face: [u32; 3]) -> Option<Front> {
        for i in 0..self.fronts.len() {
            if self.fronts[i].face == face {
                return Some(self.fronts.swap_remove(i));
            }
        }
        None
    }

    /// Links a face of a new tetrahedron to the waiting one, or has it wait.
    fn close(&mut self, live: &mut Live, t: u32, k: usize, sector: u32) -> Result<(), NoMemory> {
        let Some(cell) = live.cell(t) else {
            return Ok(());
        };
        let face = turned(face_at(&cell.corners, k));
        match self.take(face) {
            Some(front) => self.link(live, t, k, &front)?,
            None => self.fronts.push(Front {
                face: turned(reversed(face)),
                sector,
                behind: Behind::Inner(t, k),
            })?,
        }
        Ok(())
    }

    /// Makes the tetrahedron of a face, and reports whether there is one.
    fn step(&mut self, live: &mut Live, front: &Front) -> Result<bool, NoMemory> {
        let Some(apex) = self.apex(live, front) else {
            return Ok(false);
        };
        let [a, b, c] = front.face;
        let most = self.mosts.get(front.sector as usize).copied();
        let t = live.add([a, b, c, apex], [NOTHING; 4], most.unwrap_or(i128::MAX))?;
        self.cells.push(t)?;
        self.link(live, t, 3, front)?;
        for k in 0..3 {
            self.close(live, t, k, front.sector)?;
        }
        Ok(true)
    }

    /// The six-fold volume of the tetrahedron that was made last.
    fn last_volume(&self, live: &Live) -> i128 {
        match self.cells.last() {
            Some(t) => live.volume(*t),
            None => 0,
        }
    }

    /// Makes the tetrahedra, and reports whether no face is left and they fill the volume. It ends
    /// as soon as they are more than that.
    fn wrap(&mut self, live: &mut Live, volume: i128) -> Result<bool, NoMemory> {
        let mut left = volume;
        for _ in 0..MOST {
            let Some(front) = self.fronts.pop() else {
                return Ok(left == 0);
            };
            if !self.step(live, &front)? {
                return Ok(false);
            }
            left = left.wrapping_sub(self.last_volume(live));
            if left < 0 {
                return Ok(false);
            }
        }
        Ok(false)
    }

    /// Links the tetrahedra on both sides of the facets of the point.
    fn link_floors(&mut self, live: &mut Live) -> Result<(), NoMemory> {
        self.floors.sort_unstable();
        let mut last: Option<Floor> = None;
        for floor in self.floors.as_slice() {
            if let Some(other) = last {
                if other.face == floor.face {
                    let facet = Some(floor.facet);
                    live.set_across(floor.cell, floor.corner, to(other.cell, facet));
                    live.set_across(other.cell, other.corner, to(floor.cell, facet));
                }
            }
            last = Some(*floor);
        }
        Ok(())
    }

    /// Makes the tetrahedra that fill the star of a point, and reports whether they do.
    fn make(
        &mut self,
        alloc: Global,
        live: &mut Live,
        star: &Star,
        v: u32,
    ) -> Result<bool, NoMemory> {
        let volume = volume_of(live, star.cells.as_slice());
        if !self.start(alloc, live, star, v)? || !self.wrap(live, volume)? {
            return Ok(false);
        }
        self.link_floors(live)?;
        Ok(true)
    }

    /// Replaces the star of a point by tetrahedra without it, and reports whether it can be.
    pub(crate) fn open(
        &mut self,
        alloc: Global,
        live: &mut Live,
        star: &Star,
        v: u32,
    ) -> Result<bool, NoMemory> {
        if !self.make(alloc, live, star, v)? {
            live.discard(self.cells.as_slice())?;
            return Ok(false);
        }
        live.measure_all(self.cells.as_slice());
        live.replace(star.cells.as_slice(), self.cells.as_slice());
        Ok(true)
    }

    /// Puts the star back.
    pub(crate) fn undo(&self, live: &mut Live, star: &Star) -> Result<(), NoMemory> {
        live.replace(self.cells.as_slice(), star.cells.as_slice());
        live.discard(self.cells.as_slice())
    }
}

/// The sum of the six-fold volumes of some tetrahedra.
fn volume_of(live: &Live, cells: &[u32]) -> i128 {
    let mut sum = 0_i128;
    for t in cells {
        sum = sum.wrapping_add(live.volume(*t));
    }
    sum
}

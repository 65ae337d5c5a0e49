//! The cavity of a place: the tetrahedra whose circumspheres have it inside, without those behind
//! walls, and its boundary.
use crate::live::{Across, Live, face_at, is_large};
use crate::sine::{has_sine_over, least_sine};
use crate::site::Site;
use crate::tally::Tally;
use geo_laws::{Face, Side, face_of, side_of};
use mesh_parts::{Spot, circumsphere};
use std::alloc::Global;
use tet_ports::NoMemory;

/// The most tetrahedra of a cavity.
const MOST: usize = 120;

/// A face of the boundary of a cavity, with the cavity on its positive side, what is across, and
/// the greatest six-fold volume of a tetrahedron there.
#[derive(Clone, Copy)]
pub(crate) struct Wall {
    pub(crate) face: [u32; 3],
    pub(crate) across: Across,
    pub(crate) most: i128,
}

/// A face in a facet in which the place lies.
#[derive(Clone, Copy, PartialEq, Eq, PartialOrd, Ord)]
struct Floor {
    facet: u32,
    face: Face,
}

/// An edge of the boundary of the faces in a facet.
#[derive(Clone, Copy, PartialEq, Eq, PartialOrd, Ord)]
pub(crate) struct Rim {
    pub(crate) facet: u32,
    pub(crate) side: Side,
}

/// The tetrahedra of a cavity, the faces of its boundary, and the rims of its faces in the facets
/// of the site.
#[derive(Drop)]
pub(crate) struct Cavity {
    pub(crate) cells: Vec<u32>,
    pub(crate) walls: Vec<Wall>,
    pub(crate) rims: Vec<Rim>,
    floors: Vec<Floor>,
    /// The last face with which a place could not be joined: its tetrahedron, and the place there
    /// of the corner opposite.
    failed: Option<(u32, usize)>,
}

/// What a face of a tetrahedron of a cavity is.
#[derive(Clone, Copy)]
enum Noted {
    /// Between two tetrahedra of the cavity, or at the end of a facet in which the place lies.
    Inner,
    /// In a facet in which the place lies, with a tetrahedron across that is not of the cavity.
    Open,
    /// Of the boundary.
    Wall,
}

/// Whether a place is on the inner side of a face of the boundary, and the squares of the sines of
/// the tetrahedron between both are over `least`. Where the place lies in a facet, the angles
/// between two of the three faces at the place are not looked at, since both may be in facets.
fn is_joined(live: &Live, p: Spot, site: &Site, least: u64, wall: &Wall) -> bool {
    let Some(corners) = live.triangle(&wall.face) else {
        return false;
    };
    let [a, b, c] = corners;
    let is_flank = !site.facets.is_empty();
    let walls = [is_flank, is_flank, is_flank, wall.across.facet.is_some()];
    has_sine_over(&[a, b, c, p], walls, least)
}

/// The sides of a face.
fn sides_of(face: Face) -> [Side; 3] {
    [
        side_of(face.a, face.b),
        side_of(face.a, face.c),
        side_of(face.b, face.c),
    ]
}

impl Cavity {
    /// No cavity.
    pub(crate) fn new(alloc: Global) -> Self {
        Cavity {
            cells: Vec::new(alloc),
            walls: Vec::new(alloc),
            rims: Vec::new(alloc),
            floors: Vec::new(alloc),
            failed: None,
        }
    }

    /// Appends the neighbors of a tetrahedron whose circumspheres have the place inside.
    fn spread(&mut self, live: &mut Live, t: u32, p: Spot) -> Result<(), NoMemory> {
        let Some(cell) = live.cell(t) else {
            return Ok(());
        };
        for across in cell.across {
            if let (Some(n), None) = (across.cell, across.facet) {
                if !live.is_marked(n) && live.has(n, p) && live.enter(n) {
                    self.cells.push(n)?;
                }
            }
        }
        Ok(())
    }

    /// Starts with these tetrahedra.
    fn start(&mut self, live: &mut Live, seeds: &[u32]) -> Result<(), NoMemory> {
        self.cells.clear();
        self.walls.clear();
        self.rims.clear();
        self.floors.clear();
        live.unmark();
        for t in seeds {
            if live.enter(*t) {
                self.cells.push(*t)?;
            }
        }
        Ok(())
    }

    /// Makes this the cavity of a place that is in all these tetrahedra, and reports whether it is
    /// small enough.
    pub(crate) fn grow(
        &mut self,
        live: &mut Live,
        p: Spot,
        seeds: &[u32],
    ) -> Result<bool, NoMemory> {
        self.start(live, seeds)?;
        for i in 0..MOST {
            let Some(t) = self.cells.get(i).copied() else {
                return Ok(i > 0);
            };
            self.spread(live, t, p)?;
        }
        Ok(false)
    }

    /// Notes a face of a tetrahedron of the cavity, and reports what it is.
    fn note(&mut self, live: &Live, site: &Site, wall: Wall) -> Result<Noted, NoMemory> {
        let Across { cell, facet } = wall.across;
        let is_marked = match cell {
            Some(n) => live.is_marked(n),
            None => false,
        };
        if let Some(facet) = facet {
            if site.facets.contains(&facet) {
                let [a, b, c] = wall.face;
                let face = face_of(a, b, c);
                self.floors.push(Floor { facet, face })?;
                return Ok(if is_marked || cell.is_none() {
                    Noted::Inner
                } else {
                    Noted::Open
                });
            }
        } else if is_marked {
            return Ok(Noted::Inner);
        }
        self.walls.push(wall)?;
        Ok(Noted::Wall)
    }

    /// Notes the faces of a tetrahedron of the cavity, and reports whether `is_joined` holds of the
    /// place and each that is of the boundary.
    fn note_cell(
        &mut self,
        live: &Live,
        p: Spot,
        site: &Site,
        least: u64,
        t: u32,
    ) -> Result<bool, NoMemory> {
        let Some(cell) = live.cell(t) else {
            return Ok(false);
        };
        for k in 0..4 {
            let wall = Wall {
                face: face_at(&cell.corners, k),
                across: cell.across[k],
                most: cell.most,
            };
            match self.note(live, site, wall)? {
                Noted::Open => return Ok(false),
                Noted::Wall if !is_joined(live, p, site, least, &wall) => {
                    self.failed = Some((t, k));
                    return Ok(false);
                }
                _ => {}
            }
        }
        Ok(true)
    }

    /// Notes the faces of all tetrahedra of the cavity, up to one with which the place can't be
    /// joined, and reports whether there is none.
    fn note_all(
        &mut self,
        live: &Live,
        p: Spot,
        site: &Site,
        least: u64,
    ) -> Result<bool, NoMemory> {
        for i in 0..self.cells.len() {
            let Some(t) = self.cells.get(i).copied() else {
                break
            };
            if !self.note_cell(live, p, site, least, t)? {
                return Ok(false);
            }
        }
        Ok(true)
    }

    /// Whether the last face with which a place could not be joined seems to be of the boundary of
    /// the cavity of another place too, by the two spheres there, and that place can't be joined
    /// with it either. The cavity of that place need not be known.
    pub(crate) fn seems_to_fail(&self, live: &Live, p: Spot, site: &Site, least: u64) -> bool {
        let Some((t, k)) = self.failed else {
            return false;
        };
        let Some(cell) = live.live(t) else {
            return false;
        };
        if k >= 4 || !live.has(t, p) {
            return false;
        }
        let across = cell.across[k];
        let is_wall = match (across.cell, across.facet) {
            (_, Some(facet)) => !site.facets.contains(&facet),
            (Some(n), None) => !live.has(n, p),
            (None, None) => true,
        };
        let wall = Wall {
            face: face_at(&cell.corners, k),
            across,
            most: cell.most,
        };
        is_wall && !is_joined(live, p, site, least, &wall)
    }

    /// Appends the edges of a face in a facet.
    fn note_floor(&mut self, floor: &Floor, site: &Site) -> Result<(), NoMemory> {
        for side in sides_of(floor.face) {
            if site.edge != Some(side) {
                self.rims.push(Rim {
                    facet: floor.facet,
                    side,
                })?;
            }
        }
        Ok(())
    }

    /// Notes the edges that belong to one face in a facet alone.
    fn note_rims(&mut self, site: &Site) -> Result<(), NoMemory> {
        if self.floors.is_empty() {
            return Ok(());
        }
        self.floors.sort_unstable();
        self.floors.dedup();
        for i in 0..self.floors.len() {
            let Some(floor) = self.floors.get(i).copied() else {
                break
            };
            self.note_floor(&floor, site)?;
        }
        self.rims.sort_unstable();
        keep_single(&mut self.rims);
        Ok(())
    }

    /// Makes this the cavity of a place in all these tetrahedra, and reports whether the place can
    /// be joined with its boundary.
    pub(crate) fn open(
        &mut self,
        live: &mut Live,
        p: Spot,
        site: &Site,
        seeds: &[u32],
    ) -> Result<bool, NoMemory> {
        if !self.grow(live, p, seeds)? {
            return Ok(false);
        }
        self.close(live, p, site, 0)
    }

    /// Notes the boundary of the cavity of a place, and reports whether `is_joined` holds of the
    /// place and each face there. What `sine` answers can still be no more than `least`.
    pub(crate) fn close(
        &mut self,
        live: &Live,
        p: Spot,
        site: &Site,
        least: u64,
    ) -> Result<bool, NoMemory> {
        if !self.note_all(live, p, site, least)? {
            return Ok(false);
        }
        self.note_rims(site)?;
        Ok(true)
    }

    /// The facet in which the face of the place and an edge lies.
    pub(crate) fn facet_at(&self, side: Side) -> Option<u32> {
        for rim in self.rims.as_slice() {
            if rim.side == side {
                return Some(rim.facet);
            }
        }
        None
    }

    /// The least square of the sine of a dihedral angle of the tetrahedron between a face of the
    /// boundary and the place.
    fn sine_at(&self, wall: &Wall, s: &[Spot; 4]) -> u64 {
        let [a, b, c] = wall.face;
        let walls = [
            self.facet_at(side_of(b, c)).is_some(),
            self.facet_at(side_of(a, c)).is_some(),
            self.facet_at(side_of(a, b)).is_some(),
            wall.across.facet.is_some(),
        ];
        least_sine(s, walls)
    }

    /// The least square of the sine of a dihedral angle of the tetrahedra between the boundary and
    /// the place, where it is over `least`.
    pub(crate) fn sine(&self, live: &Live, p: Spot, least: u64) -> Option<u64> {
        let mut sine = u64::MAX;
        for wall in self.walls.as_slice() {
            let [a, b, c] = live.triangle(&wall.face)?;
            sine = sine.min(self.sine_at(wall, &[a, b, c, p]));
            if sine <= least {
                return None;
            }
        }
        Some(sine)
    }

    /// How many of the tetrahedra between the boundary and the place break the bounds, where no
    /// more do than are allowed.
    pub(crate) fn tally(&self, live: &Live, p: Spot, allowed: Tally) -> Option<Tally> {
        let mut tally = Tally::none();
        for wall in self.walls.as_slice() {
            let [a, b, c] = live.triangle(&wall.face)?;
            let s = [a, b, c, p];
            let is_slim = live.bounds.is_slim(&s, circumsphere(&s));
            tally = tally.with(is_slim, is_large(&s, wall.most));
            if !tally.is_within(allowed) {
                return None;
            }
        }
        Some(tally)
    }
}

/// Keeps of an ascending list those that stand there once.
fn keep_single(rims: &mut Vec<Rim>) {
    let mut kept = 0_usize;
    let mut before = None;
    for i in 0..rims.len() {
        let Some(rim) = rims.get(i).copied() else {
            break
        };
        let is_single = before != Some(rim) && rims.get(i.saturating_add(1)) != Some(&rim);
        before = Some(rim);
        if is_single && kept < rims.len() {
            rims[kept] = rim;
            kept = kept.wrapping_add(1);
        }
    }
    rims.truncate(kept);
}

//! The corners of the crossed tetrahedra by numbers of their own, in the order of the points.
use crate::circuit::{NEAR, Plane, SHORT, Spot, reach_of};
use crate::heap::Waiting;
use crate::local::{Corner, Local, NO_SIDES, corner_at};
use crate::stop::{Stop, or_stop};
use geo_laws::{Face, Points, Tet, TetList, arranged};
use incidence::{Across, pair_faces};
use sign_predicates::GridPoint;
use std::alloc::Global;
use tet_ports::{Items, NoMemory};

/// The most flips that are tried per crossed tetrahedron, many times as many as were ever needed.
const FLIPS: usize = 64;

/// The point of each corner, and the corner at each point.
#[derive(Drop)]
pub(crate) struct Frame {
    names: Items<u32>,
    corners: Items<Option<u32>>,
}

/// The point with its coordinates as they are.
pub(crate) fn spot_of(p: GridPoint) -> Spot {
    Spot {
        x: i64::from(p.x),
        y: i64::from(p.y),
        z: i64::from(p.z),
    }
}

fn mark(marks: &mut [bool], number: u32) {
    let place = number as usize;
    if place < marks.len() {
        marks[place] = true;
    }
}

/// Marks the corners of the tetrahedra, among `points` points.
fn marks_of(alloc: Global, points: usize, rows: &TetList) -> Result<Vec<bool>, NoMemory> {
    let mut marks = Vec::new(alloc);
    marks.resize(points, false)?;
    for i in 0..rows.len() {
        let row = rows.at(i);
        mark(marks.as_mut_slice(), row.a);
        mark(marks.as_mut_slice(), row.b);
        mark(marks.as_mut_slice(), row.c);
        mark(marks.as_mut_slice(), row.d);
    }
    Ok(marks)
}

/// The corners of the tetrahedra, among `points` points.
pub(crate) fn frame_of(alloc: Global, points: usize, rows: &TetList) -> Result<Frame, Stop> {
    let marks = marks_of(alloc, points, rows)?;
    let mut names = Items::new(alloc);
    let mut corners = Items::with_capacity(alloc, points)?;
    for i in 0..marks.len() {
        if marks[i] {
            corners.push(Some(or_stop(u32::try_from(names.len()).ok())?))?;
            names.push(or_stop(u32::try_from(i).ok())?)?;
        } else {
            corners.push(None)?;
        }
    }
    Ok(Frame { names, corners })
}

impl Frame {
    /// The corner at a point.
    fn corner(&self, point: u32) -> Option<u32> {
        self.corners
            .as_slice()
            .get(point as usize)
            .copied()
            .flatten()
    }

    /// The point of a corner.
    fn name(&self, corner: u32) -> Option<u32> {
        self.names.as_slice().get(corner as usize).copied()
    }

    /// The triangle of three points by its corners.
    pub(crate) fn face(&self, a: u32, b: u32, c: u32) -> Option<Face> {
        Some(Face {
            a: self.corner(a)?,
            b: self.corner(b)?,
            c: self.corner(c)?,
        })
    }

    /// The tetrahedron of four points by its corners.
    fn local(&self, row: Tet) -> Option<Tet> {
        Some(Tet {
            a: self.corner(row.a)?,
            b: self.corner(row.b)?,
            c: self.corner(row.c)?,
            d: self.corner(row.d)?,
        })
    }

    /// The row of four corners by its points, in its least even arrangement.
    pub(crate) fn row(&self, corners: &[u32; 4]) -> Option<Tet> {
        let [a, b, c, d] = *corners;
        Some(arranged(Tet {
            a: self.name(a)?,
            b: self.name(b)?,
            c: self.name(c)?,
            d: self.name(d)?,
        }))
    }

    /// The places of the corners.
    fn spots(&self, alloc: Global, points: &Points) -> Result<Vec<Spot>, Stop> {
        let all = points.as_slice();
        let mut spots = Vec::with_capacity(alloc, self.names.len())?;
        for name in self.names.as_slice() {
            spots.push(spot_of(or_stop(all.get(*name as usize).copied())?))?;
        }
        Ok(spots)
    }

    /// The rows by their corners.
    fn locals(&self, alloc: Global, rows: &TetList) -> Result<TetList, Stop> {
        let mut local = TetList::with_capacity(alloc, rows.len())?;
        for i in 0..rows.len() {
            local.push(or_stop(self.local(rows.at(i)))?)?;
        }
        Ok(local)
    }

    /// The tetrahedra in slots, with no facet inserted yet.
    pub(crate) fn slots_of(
        &self,
        alloc: Global,
        points: &Points,
        rows: &TetList,
    ) -> Result<Local, Stop> {
        let mut spots = self.spots(alloc, points)?;
        let reach = reduce(&mut spots);
        let nowhere = Spot { x: 0, y: 0, z: 0 };
        let mut local = Local {
            slots: Vec::with_capacity(alloc, rows.len())?,
            corners: corners_at(alloc, &spots)?,
            plane: Plane {
                normal: nowhere,
                corner: nowhere,
            },
            stamp: 0,
            waiting: Waiting::new(alloc),
            flips_left: rows.len().saturating_mul(FLIPS),
            is_short: reach < SHORT / 2,
            is_near: reach < NEAR / 2,
        };
        local.fill(alloc, &self.locals(alloc, rows)?)?;
        Ok(local)
    }
}

/// The vector from one point to the other.
fn between(a: Spot, b: Spot) -> Spot {
    Spot {
        x: b.x.wrapping_sub(a.x),
        y: b.y.wrapping_sub(a.y),
        z: b.z.wrapping_sub(a.z),
    }
}

/// The vector over a power of two.
fn over_power(v: Spot, power: u32) -> Spot {
    Spot {
        x: v.x.wrapping_shr(power),
        y: v.y.wrapping_shr(power),
        z: v.z.wrapping_shr(power),
    }
}

/// Puts the vectors from the first of the points in their places, over the common power of two of
/// all coordinates. Answers a number that is below a power of two exactly where all coordinates are
/// then, and are not below its negative.
pub(crate) fn reduce(spots: &mut [Spot]) -> i64 {
    let Some(base) = spots.first().copied() else {
        return 0;
    };
    let (mut bits, mut reach) = (0, 0);
    for spot in spots.iter() {
        let v = between(base, *spot);
        bits |= v.x | v.y | v.z;
        reach |= reach_of(v);
    }
    let power = bits.trailing_zeros();
    for i in 0..spots.len() {
        spots[i] = over_power(between(base, spots[i]), power);
    }
    reach.wrapping_shr(power)
}

/// The corners at these places.
fn corners_at(alloc: Global, spots: &[Spot]) -> Result<Vec<Corner>, NoMemory> {
    let mut corners = Vec::with_capacity(alloc, spots.len())?;
    for spot in spots {
        corners.push(corner_at(*spot))?;
    }
    Ok(corners)
}

fn in_32_bits(place: Option<usize>) -> Option<u32> {
    u32::try_from(place?).ok()
}

/// The neighbors of a tetrahedron, by slots.
fn across_of(across: Across) -> [Option<u32>; 4] {
    let Across { n0, n1, n2, n3 } = across;
    [
        in_32_bits(n0),
        in_32_bits(n1),
        in_32_bits(n2),
        in_32_bits(n3),
    ]
}

impl Local {
    /// Adds all tetrahedra, each with its neighbors.
    fn fill(&mut self, alloc: Global, rows: &TetList) -> Result<(), Stop> {
        let pairs = pair_faces(alloc, rows)?;
        for i in 0..rows.len().min(pairs.len()) {
            let Tet { a, b, c, d } = rows.at(i);
            self.add([a, b, c, d], across_of(pairs.at(i)), NO_SIDES)?;
        }
        Ok(())
    }
}

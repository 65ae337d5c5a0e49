//! The conflict region of a point: the tetrahedra whose circumspheres have it inside, without those
//! behind subfaces.
use mesh_parts::{Beyond, Cell, Field, Part, Spot, distance, is_in_diametral};
use std::alloc::Global;
use tet_ports::NoMemory;

/// The most tetrahedra of a region.
const MOST: usize = 20_000;

/// A subsegment or a subface. Those with the greatest squared length or squared radius come first.
#[derive(Clone, Copy, PartialEq, Eq, PartialOrd, Ord)]
pub(crate) struct Ranked {
    rank: u64,
    pub(crate) place: u32,
}

impl Ranked {
    /// The subsegment or the subface with this square.
    pub(crate) fn new(place: u32, square: u64) -> Ranked {
        Ranked {
            rank: u64::MAX.wrapping_sub(square),
            place,
        }
    }
}

/// The tetrahedra of the region, marks of those that were reached, and the squares of the distances
/// to the nearest corner, and to the nearest one by the part that the point is inside of.
#[derive(Drop)]
pub(crate) struct Region {
    pub(crate) cells: Vec<u32>,
    pub(crate) nearest: u64,
    pub(crate) nearest_by: u64,
    /// Whether the nearest corner by the part is looked for; else `nearest_by` stays the greatest.
    pub(crate) asks_by: bool,
    marks: Vec<u32>,
    mark: u32,
}

impl Region {
    /// An empty region of a mesh with so many tetrahedra.
    pub(crate) fn new(alloc: Global, cells: usize) -> Result<Self, NoMemory> {
        let mut marks = Vec::new(alloc);
        marks.resize(cells, 0)?;
        Ok(Region {
            cells: Vec::new(alloc),
            nearest: 0,
            nearest_by: 0,
            asks_by: false,
            marks,
            mark: 0,
        })
    }

    /// Appends a tetrahedron that was not reached before.
    fn enter(&mut self, t: u32) -> Result<(), NoMemory> {
        let place = t as usize;
        if place < self.marks.len() && self.marks[place] != self.mark {
            self.marks[place] = self.mark;
            self.cells.push(t)?;
        }
        Ok(())
    }

    /// Appends the tetrahedra across the faces of one whose circumspheres have the point inside.
    fn spread(&mut self, field: &Field, cell: &Cell, p: Spot) -> Result<(), NoMemory> {
        for across in cell.across {
            if let Beyond::Tetrahedron(t) = across {
                if field.has(t, p) {
                    self.enter(t)?;
                }
            }
        }
        Ok(())
    }

    /// Notes the distance to a corner, unless it is inside of a part that meets the part at less
    /// than 60 degrees. A corner that is no nearer than those before changes nothing.
    fn measure(&mut self, field: &Field, v: u32, square: u64, part: Option<Part>) {
        let least = if self.asks_by {
            self.nearest_by
        } else {
            self.nearest
        };
        if square >= least || field.meet(part, field.parts.at(v)) {
            return;
        }
        self.nearest = self.nearest.min(square);
        if !self.asks_by {
            return;
        }
        let is_by = match part {
            Some(part) => field.parts.is_by(v, part),
            None => true,
        };
        if is_by {
            self.nearest_by = square;
        }
    }

    /// Notes the distances to the corners of a tetrahedron.
    fn measure_all(&mut self, field: &Field, cell: &Cell, p: Spot, part: Option<Part>) {
        for v in cell.corners {
            if let Some(spot) = field.mesh.spot(v) {
                self.measure(field, v, distance(spot, p), part);
            }
        }
    }

    /// Starts a region with these tetrahedra.
    fn start(&mut self, seeds: &[u32]) -> Result<(), NoMemory> {
        self.cells.clear();
        self.nearest = u64::MAX;
        self.nearest_by = u64::MAX;
        self.mark = self.mark.wrapping_add(1);
        for t in seeds {
            self.enter(*t)?;
        }
        Ok(())
    }

    /// Makes this the region of a point that is in all these tetrahedra, and inside of the part.
    pub(crate) fn grow(
        &mut self,
        field: &Field,
        p: Spot,
        seeds: &[u32],
        part: Option<Part>,
    ) -> Result<(), NoMemory> {
        self.start(seeds)?;
        for i in 0..MOST {
            let Some(t) = self.cells.get(i).copied() else {
                break
            };
            if let Some(cell) = field.mesh.cell(t) {
                self.measure_all(field, &cell, p, part);
                self.spread(field, &cell, p)?;
            }
        }
        Ok(())
    }

    /// Appends to `found` the subsegments of the region in whose diametral spheres the point is.
    pub(crate) fn encroached_subsegments(
        &self,
        field: &Field,
        p: Spot,
        found: &mut Vec<Ranked>,
    ) -> Result<(), NoMemory> {
        for t in self.cells.as_slice() {
            note_encroached_edges(field, *t, p, found)?;
        }
        found.sort_unstable();
        found.dedup();
        Ok(())
    }

    /// Appends to `found` the subfaces of the region in whose equatorial spheres the point is.
    pub(crate) fn encroached_subfaces(
        &self,
        field: &Field,
        p: Spot,
        found: &mut Vec<Ranked>,
    ) -> Result<(), NoMemory> {
        for t in self.cells.as_slice() {
            note_encroached_faces(field, *t, p, found)?;
        }
        found.sort_unstable();
        found.dedup();
        Ok(())
    }
}

/// Appends the subsegments of a tetrahedron in whose diametral spheres the point is.
fn note_encroached_edges(
    field: &Field,
    t: u32,
    p: Spot,
    found: &mut Vec<Ranked>,
) -> Result<(), NoMemory> {
    for e in field.edges.at(t) {
        if let Some((a, b)) = field.mesh.ends(*e) {
            if is_in_diametral(a, b, p) {
                found.push(Ranked::new(*e, distance(a, b)))?;
            }
        }
    }
    Ok(())
}

/// Appends the subfaces of a tetrahedron in whose equatorial spheres the point is.
fn note_encroached_faces(
    field: &Field,
    t: u32,
    p: Spot,
    found: &mut Vec<Ranked>,
) -> Result<(), NoMemory> {
    let Some(cell) = field.mesh.cell(t) else {
        return Ok(());
    };
    for across in cell.across {
        if let Beyond::Subface(s) = across {
            if let Some(sphere) = field.mesh.equator(s) {
                if sphere.has(p) {
                    found.push(Ranked::new(s, sphere.squared))?;
                }
            }
        }
    }
    Ok(())
}

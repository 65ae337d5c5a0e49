//! A mesh that is changed in place.
use crate::sine::least_sine;
use mesh_parts::{Plane, Sphere, Spot, circumsphere, distance, grid_point, volume};
use sign_predicates::Corners;
use std::alloc::Global;
use tet_ports::NoMemory;
use tet_shapes::{Ratio, is_slim_at};

/// What is across a face of a tetrahedron: the neighbor, and the facet in which the face lies.
#[derive(Clone, Copy)]
pub(crate) struct Across {
    pub(crate) cell: Option<u32>,
    pub(crate) facet: Option<u32>,
}

/// Nothing across a face.
pub(crate) const NOTHING: Across = Across {
    cell: None,
    facet: None,
};

/// A neighbor across a face that lies in a facet, or in none.
pub(crate) fn to(cell: u32, facet: Option<u32>) -> Across {
    Across {
        cell: Some(cell),
        facet,
    }
}

/// A positive tetrahedron: its corners, and what is across the face opposite each; its
/// circumsphere; the least square of the sine of a dihedral angle; its greatest six-fold volume;
/// what bounds it breaks; whether it is in the mesh; and how often it was tried in vain to better
/// it.
#[derive(Clone, Copy)]
pub(crate) struct Cell {
    pub(crate) corners: [u32; 4],
    pub(crate) across: [Across; 4],
    pub(crate) sphere: Option<Sphere>,
    pub(crate) sine: u64,
    pub(crate) most: i128,
    pub(crate) is_slim: bool,
    pub(crate) is_large: bool,
    pub(crate) is_live: bool,
    pub(crate) failures: u8,
}

/// Where a point may be moved.
#[derive(Clone, Copy)]
pub(crate) enum Freedom {
    Nowhere,
    Anywhere,
    InFacet(u32),
    OnSegment,
}

/// A point, where it may be moved, and a tetrahedron that has it as a corner.
#[derive(Clone, Copy)]
pub(crate) struct Vertex {
    pub(crate) spot: Spot,
    pub(crate) freedom: Freedom,
    pub(crate) cell: Option<u32>,
}

/// The greatest ratio of the circumradius of a tetrahedron to its shortest edge, if there is one.
#[derive(Clone, Copy)]
pub(crate) struct Bounds {
    pub(crate) ratio: Option<Ratio>,
}

/// The tetrahedra, the points, and the planes of the facets.
#[derive(Drop)]
pub(crate) struct Live {
    pub(crate) cells: Vec<Cell>,
    pub(crate) vertices: Vec<Vertex>,
    pub(crate) planes: Vec<Option<Plane>>,
    pub(crate) bounds: Bounds,
    free: Vec<u32>,
    marks: Vec<u32>,
    mark: u32,
}

/// The corners of the face opposite a corner of a positive tetrahedron, so that the corner is on
/// its positive side.
pub(crate) fn face_at(corners: &[u32; 4], k: usize) -> [u32; 3] {
    let [a, b, c, d] = *corners;
    match k {
        0 => [b, d, c],
        1 => [a, c, d],
        2 => [a, d, b],
        _ => [a, b, c],
    }
}

/// The place of the corner of a tetrahedron that is none of the corners of a face.
pub(crate) fn place_off(corners: &[u32; 4], face: &[u32; 3]) -> Option<usize> {
    for k in 0..4 {
        if !face.contains(&corners[k]) {
            return Some(k);
        }
    }
    None
}

/// The corner of a tetrahedron that is none of the corners of a face.
pub(crate) fn corner_off(corners: &[u32; 4], face: &[u32; 3]) -> Option<u32> {
    for corner in *corners {
        if !face.contains(&corner) {
            return Some(corner);
        }
    }
    None
}

/// The square of the shortest edge of a tetrahedron.
pub(crate) fn shortest(s: &[Spot; 4]) -> u64 {
    let [a, b, c, d] = *s;
    let first = distance(a, b).min(distance(a, c)).min(distance(a, d));
    first
        .min(distance(b, c))
        .min(distance(b, d))
        .min(distance(c, d))
}

/// Whether the six-fold volume of a tetrahedron is over a bound.
pub(crate) fn is_large(s: &[Spot; 4], most: i128) -> bool {
    volume(s[0], s[1], s[2], s[3]) > most
}

/// The square of a number.
fn squared(x: u32) -> u128 {
    u128::from(x).wrapping_mul(u128::from(x))
}

impl Bounds {
    /// Whether the ratio of the circumradius of a tetrahedron to its shortest edge is over the
    /// bound, or within a few thousandths below it.
    pub(crate) fn is_slim(&self, s: &[Spot; 4], sphere: Option<Sphere>) -> bool {
        let (Some(sphere), Some(ratio)) = (sphere, self.ratio) else {
            return self.ratio.is_some();
        };
        let radius = u128::from(sphere.squared).wrapping_mul(squared(ratio.under));
        let radius = radius.wrapping_add(radius / 4096);
        radius > u128::from(shortest(s)).wrapping_mul(squared(ratio.over))
    }

    /// A tetrahedron with its measures.
    fn measured(&self, cell: &Cell, s: &[Spot; 4]) -> Cell {
        let mut measured = *cell;
        let [p, q, r, t] = cell.across;
        let walls = [
            p.facet.is_some(),
            q.facet.is_some(),
            r.facet.is_some(),
            t.facet.is_some(),
        ];
        measured.sphere = circumsphere(s);
        measured.sine = least_sine(s, walls);
        measured.is_slim = self.is_slim(s, measured.sphere);
        measured.is_large = is_large(s, cell.most);
        measured
    }
}

/// The corners of a tetrahedron on the grid.
fn on_grid(s: &[Spot; 4]) -> Option<Corners> {
    let [a, b, c, d] = *s;
    Some(Corners {
        a: grid_point(a)?,
        b: grid_point(b)?,
        c: grid_point(c)?,
        d: grid_point(d)?,
    })
}

/// Whether the ratio of the circumradius of a tetrahedron to its shortest edge is over the bound.
pub(crate) fn is_slim_exactly(bounds: &Bounds, s: &[Spot; 4]) -> bool {
    match (on_grid(s), bounds.ratio) {
        (Some(corners), Some(ratio)) if ratio.over <= 1 << 20 && ratio.under <= 1 << 20 => {
            is_slim_at(corners, ratio)
        }
        _ => false,
    }
}

impl Live {
    /// A mesh with no tetrahedron.
    pub(crate) fn new(
        alloc: Global,
        vertices: Vec<Vertex>,
        planes: Vec<Option<Plane>>,
        bounds: Bounds,
    ) -> Self {
        Live {
            cells: Vec::new(alloc),
            vertices,
            planes,
            bounds,
            free: Vec::new(alloc),
            marks: Vec::new(alloc),
            mark: 0,
        }
    }

    /// The tetrahedron with this number.
    pub(crate) fn cell(&self, t: u32) -> Option<&Cell> {
        self.cells.get(t as usize)
    }

    /// The tetrahedron with this number, where it is in the mesh.
    pub(crate) fn live(&self, t: u32) -> Option<&Cell> {
        match self.cell(t) {
            Some(cell) if cell.is_live => Some(cell),
            _ => None,
        }
    }

    /// The place of a point.
    pub(crate) fn spot(&self, v: u32) -> Option<Spot> {
        Some(self.vertices.get(v as usize)?.spot)
    }

    /// The places of four points.
    pub(crate) fn spots(&self, corners: &[u32; 4]) -> Option<[Spot; 4]> {
        let [a, b, c, d] = *corners;
        Some([self.spot(a)?, self.spot(b)?, self.spot(c)?, self.spot(d)?])
    }

    /// The places of the corners of a face.
    pub(crate) fn triangle(&self, face: &[u32; 3]) -> Option<[Spot; 3]> {
        let [a, b, c] = *face;
        Some([self.spot(a)?, self.spot(b)?, self.spot(c)?])
    }

    /// Six times the volume of the tetrahedron of a face and a place, above 0 where the place is on
    /// the positive side.
    pub(crate) fn volume_to(&self, face: &[u32; 3], p: Spot) -> Option<i128> {
        let [a, b, c] = self.triangle(face)?;
        Some(volume(a, b, c, p))
    }

    /// The places of the corners of a tetrahedron.
    pub(crate) fn corners(&self, t: u32) -> Option<[Spot; 4]> {
        self.spots(&self.cell(t)?.corners)
    }

    /// Six times the volume of a tetrahedron, 0 where there is none.
    pub(crate) fn volume(&self, t: u32) -> i128 {
        let Some(corners) = self.corners(t) else {
            return 0;
        };
        let [a, b, c, d] = corners;
        volume(a, b, c, d)
    }

    /// Where a point may be moved.
    pub(crate) fn freedom(&self, v: u32) -> Freedom {
        match self.vertices.get(v as usize) {
            Some(vertex) => vertex.freedom,
            None => Freedom::Nowhere,
        }
    }

    /// The plane of a facet.
    pub(crate) fn plane(&self, facet: u32) -> Option<&Plane> {
        self.planes.get(facet as usize)?.as_ref()
    }

    /// A tetrahedron that has a point as a corner.
    pub(crate) fn cell_at(&self, v: u32) -> Option<u32> {
        self.vertices.get(v as usize)?.cell
    }

    /// The circumsphere of a tetrahedron.
    pub(crate) fn sphere(&self, t: u32) -> Option<Sphere> {
        self.cell(t)?.sphere
    }

    /// Whether a point is in the circumsphere of a tetrahedron.
    pub(crate) fn has(&self, t: u32, p: Spot) -> bool {
        match self.sphere(t) {
            Some(sphere) => sphere.has(p),
            None => false,
        }
    }

    /// Unmarks all tetrahedra.
    pub(crate) fn unmark(&mut self) {
        self.mark = self.mark.wrapping_add(1);
    }

    /// Marks a tetrahedron, and reports whether it was not marked.
    pub(crate) fn enter(&mut self, t: u32) -> bool {
        let place = t as usize;
        if place < self.marks.len() && self.marks[place] != self.mark {
            self.marks[place] = self.mark;
            return true;
        }
        false
    }

    /// Whether a tetrahedron is marked.
    pub(crate) fn is_marked(&self, t: u32) -> bool {
        self.marks.get(t as usize).copied() == Some(self.mark)
    }

    /// Makes a tetrahedron that is not yet in the mesh, with its greatest six-fold volume.
    pub(crate) fn add(
        &mut self,
        corners: [u32; 4],
        across: [Across; 4],
        most: i128,
    ) -> Result<u32, NoMemory> {
        let cell = Cell {
            corners,
            across,
            sphere: None,
            sine: 0,
            most,
            is_slim: false,
            is_large: false,
            is_live: false,
            failures: 0,
        };
        if let Some(t) = self.free.pop() {
            let place = t as usize;
            if place < self.cells.len() {
                self.cells[place] = cell;
            }
            return Ok(t);
        }
        let Ok(t) = u32::try_from(self.cells.len()) else {
            return Err(NoMemory);
        };
        self.cells.push(cell)?;
        self.marks.push(0)?;
        Ok(t)
    }

    /// Sets what is across a face.
    pub(crate) fn set_across(&mut self, t: u32, k: usize, across: Across) {
        let place = t as usize;
        if place < self.cells.len() && k < 4 {
            self.cells[place].across[k] = across;
        }
    }

    /// Sets the measures of a tetrahedron.
    pub(crate) fn measure(&mut self, t: u32) {
        let place = t as usize;
        let Some(cell) = self.cells.get(place).copied() else {
            return;
        };
        let Some(spots) = self.spots(&cell.corners) else {
            return;
        };
        let measured = self.bounds.measured(&cell, &spots);
        if place < self.cells.len() {
            self.cells[place] = measured;
        }
    }

    /// Sets the measures of tetrahedra.
    pub(crate) fn measure_all(&mut self, cells: &[u32]) {
        for t in cells {
            self.measure(*t);
        }
    }

    /// Has the neighbor of a tetrahedron across a face name it there.
    fn attach_face(&mut self, t: u32, corners: &[u32; 4], k: usize, across: Across) {
        let Some(n) = across.cell else { return };
        let Some(neighbor) = self.cell(n) else { return };
        if let Some(place) = place_off(&neighbor.corners, &face_at(corners, k)) {
            let back = Across {
                cell: Some(t),
                facet: across.facet,
            };
            self.set_across(n, place, back);
        }
    }

    /// Has the corners of a tetrahedron name it.
    fn hold(&mut self, t: u32, corners: &[u32; 4]) {
        for v in corners {
            let place = *v as usize;
            if place < self.vertices.len() {
                self.vertices[place].cell = Some(t);
            }
        }
    }

    /// Puts a tetrahedron into the mesh.
    fn attach(&mut self, t: u32) {
        let place = t as usize;
        let Some(cell) = self.cells.get(place).copied() else {
            return;
        };
        if place < self.cells.len() {
            self.cells[place].is_live = true;
        }
        self.hold(t, &cell.corners);
        for k in 0..4 {
            self.attach_face(t, &cell.corners, k, cell.across[k]);
        }
    }

    /// Takes tetrahedra out of the mesh.
    fn detach(&mut self, cells: &[u32]) {
        for t in cells {
            let place = *t as usize;
            if place < self.cells.len() {
                self.cells[place].is_live = false;
            }
        }
    }

    /// Replaces tetrahedra by others.
    pub(crate) fn replace(&mut self, old: &[u32], new: &[u32]) {
        self.detach(old);
        for t in new {
            self.attach(*t);
        }
    }

    /// Frees tetrahedra that are not in the mesh.
    pub(crate) fn discard(&mut self, cells: &[u32]) -> Result<(), NoMemory> {
        for t in cells {
            self.free.push(*t)?;
        }
        Ok(())
    }

    /// Sets the place of a point.
    pub(crate) fn put(&mut self, v: u32, spot: Spot) {
        let place = v as usize;
        if place < self.vertices.len() {
            self.vertices[place].spot = spot;
        }
    }

    /// Takes a point out that is no corner of a tetrahedron.
    pub(crate) fn remove(&mut self, v: u32) {
        let place = v as usize;
        if place < self.vertices.len() {
            self.vertices[place].cell = None;
            self.vertices[place].freedom = Freedom::Nowhere;
        }
    }

    /// Notes that a tetrahedron could not be bettered.
    pub(crate) fn fail(&mut self, t: u32) {
        let place = t as usize;
        if place < self.cells.len() {
            self.cells[place].failures = self.cells[place].failures.saturating_add(1);
        }
    }
}

//! Points at even distances in tetrahedra that are far over the bound.
//!
//! A body-centered cubic lattice with cells of side `s` has Delaunay tetrahedra of volume `s^3 /
//! 12`. The subfaces and subsegments get points at three quarters of `s`: triangles of a plane
//! through the lattice have sides about as long, and a denser boundary leaves fewer tetrahedra over
//! the bound beside it. A point in the diametral sphere of a piece of a subsegment is nearer to one
//! of its ends than 71 hundredths of its length: points of subfaces and tetrahedra that are nearer
//! to others are left out, so that no piece is encroached.
use crate::buckets::Buckets;
use crate::rows::{Hull, Row};
use crate::walk::edge_opposite;
use mesh_parts::{
    Beyond, Link, Mesh, Plane, Rung, Sixty, Spot, cube_root, distance, floored, mark,
};
use std::alloc::Global;
use tet_ports::NoMemory;

/// The fewest steps of the grid in a cell of the lattice.
const FEWEST: i64 = 8;

/// The most pieces into which a subsegment is split.
const MOST_PIECES: u64 = 1 << 20;

/// The distances of a fill: the side of a cell of the lattice, a multiple of `2^(halvings + 1)`
/// grid units; the distance of neighbors on the boundary; and squares of the least distances of a
/// point on a subsegment, in a subface and in a tetrahedron from others.
#[derive(Clone, Copy)]
pub(crate) struct Spacing {
    halvings: u32,
    half: i64,
    along: i64,
    on_subsegment: u64,
    in_subface: u64,
    in_tetrahedron: u64,
    most: i128,
}

/// The square of so many hundredths of a length.
fn hundredths(part: i64, length: i64) -> u64 {
    let part = part.wrapping_mul(length) / 100;
    part.unsigned_abs().wrapping_mul(part.unsigned_abs())
}

impl Spacing {
    /// The distances for a six-fold volume, where the grid is fine enough for them. The tetrahedra
    /// of the lattice have at most 98 hundredths of the volume.
    pub(crate) fn new(most: i128, halvings: u32) -> Option<Spacing> {
        let cubed = most.checked_mul(49)?.checked_div(25)?;
        let unit = 1_i64.wrapping_shl(halvings);
        let halves = (cube_root(cubed) / 2).checked_div(unit)?;
        let half = halves.wrapping_mul(unit);
        if halves < FEWEST / 2 {
            return None;
        }
        let cell = half.wrapping_mul(2);
        let along = cell.wrapping_mul(3) / 4;
        Some(Spacing {
            halvings,
            half,
            along,
            on_subsegment: hundredths(50, along),
            in_subface: hundredths(72, along),
            in_tetrahedron: hundredths(60, cell),
            most,
        })
    }
}

/// A subface with the triangular lattice of its plane.
#[derive(Clone, Copy)]
struct Patch {
    plane: Plane,
    lattice: Sixty,
    corners: [Spot; 3],
    links: [Link; 3],
    halvings: u32,
}

/// The least and the greatest of three numbers.
fn span_of(a: i64, b: i64, c: i64) -> Row {
    Row {
        low: a.min(b).min(c),
        high: a.max(b).max(c),
    }
}

impl Patch {
    /// The steps along both vectors of the lattice at which points in the subface may lie.
    fn spans(&self) -> Option<(Row, Row)> {
        let [a, b, c] = self.corners;
        let a = self.plane.steps_to(a, &self.lattice)?;
        let b = self.plane.steps_to(b, &self.lattice)?;
        let c = self.plane.steps_to(c, &self.lattice)?;
        let (i, j) = (span_of(a.0, b.0, c.0), span_of(a.1, b.1, c.1));
        let places = i
            .count()
            .wrapping_add(1)
            .wrapping_mul(j.count().wrapping_add(1));
        let whole = self.plane.parallelograms(&self.corners, &self.lattice);
        // A thin subface across the lattice has too few of the places that would be looked at.
        if places > whole.wrapping_mul(16).wrapping_add(64) {
            return None;
        }
        Some((i, j))
    }

    /// Whether a point of the plane is in the subface and on none of its subsegments.
    fn has(&self, p: Spot) -> bool {
        let [a, b, c] = self.corners;
        let turn = self.plane.side(a, b, c).signum();
        for k in 0..3 {
            let (from, to) = edge_opposite(&self.corners, k);
            let side = self.plane.side(from, to, p).wrapping_mul(turn);
            let is_inner = matches!(self.links[k], Link::Subface(_));
            if side < 0 || side == 0 && !is_inner {
                return false;
            }
        }
        true
    }

    /// The point of the grid in the plane at so many steps along both vectors.
    fn point(&self, i: i64, j: i64) -> Spot {
        let steps = self.lattice.u.by(i).plus(self.lattice.v.by(j));
        let wish = self.plane.corner.plus(steps);
        self.plane.nearest(wish, self.halvings)
    }
}

/// Proposes the points of a subface on a line of its lattice.
fn fill_line(
    patch: &Patch,
    span: Row,
    j: i64,
    least: u64,
    buckets: &mut Buckets,
) -> Result<(), NoMemory> {
    for i in span.low..span.high.saturating_add(2) {
        let p = patch.point(i, j);
        if patch.has(p) {
            buckets.put(p, least)?;
        }
    }
    Ok(())
}

/// The subface with the lattice of its plane.
fn patch_of(mesh: &Mesh, s: u32, spacing: &Spacing) -> Option<Patch> {
    let plane = mesh.plane(s)?;
    Some(Patch {
        plane,
        lattice: plane.triangular(spacing.along),
        corners: mesh.triangle(s)?,
        links: mesh.links(s)?,
        halvings: spacing.halvings,
    })
}

/// Proposes points in a subface.
fn fill_subface(
    mesh: &Mesh,
    s: u32,
    spacing: &Spacing,
    buckets: &mut Buckets,
) -> Result<(), NoMemory> {
    let Some(patch) = patch_of(mesh, s, spacing) else {
        return Ok(());
    };
    let Some((i, j)) = patch.spans() else {
        return Ok(());
    };
    for line in j.low..j.high.saturating_add(2) {
        fill_line(&patch, i, line, spacing.in_subface, buckets)?;
    }
    Ok(())
}

/// The number of pieces into which a segment is to be split, by the square of its length.
fn pieces_of(square: u64, along: i64) -> u64 {
    let along = along.unsigned_abs();
    let length = square.isqrt().saturating_add(along / 3);
    length.checked_div(along).unwrap_or(0).min(MOST_PIECES)
}

/// Proposes points on a subsegment.
fn fill_subsegment(
    mesh: &Mesh,
    e: u32,
    spacing: &Spacing,
    buckets: &mut Buckets,
) -> Result<(), NoMemory> {
    let Some((a, b)) = mesh.ends(e) else {
        return Ok(());
    };
    let Some(rung) = Rung::new(a, b, spacing.halvings) else {
        return Ok(());
    };
    let pieces = pieces_of(distance(a, b), spacing.along).min(rung.most_pieces());
    for i in 1..pieces {
        let k = rung.count.wrapping_mul(i).checked_div(pieces);
        buckets.put(rung.at(k.unwrap_or(0)), spacing.on_subsegment)?;
    }
    Ok(())
}

/// Proposes the points of the body-centered lattice on a row of a tetrahedron. Their coordinates
/// are all even or all odd multiples of half a cell.
fn fill_row(
    row: Row,
    j: i64,
    k: i64,
    spacing: &Spacing,
    buckets: &mut Buckets,
) -> Result<(), NoMemory> {
    let half = spacing.half;
    let first = floored(row.low.wrapping_sub(1), half);
    let last = floored(row.high, half);
    for i in first.saturating_add(1)..last.saturating_add(1) {
        if (i ^ k) & 1 == 0 {
            let p = Spot { x: i, y: j, z: k }.by(half);
            buckets.put(p, spacing.in_tetrahedron)?;
        }
    }
    Ok(())
}

/// Proposes the points of the lattice in a layer of a tetrahedron.
fn fill_layer(
    hull: &Hull,
    lines: Row,
    k: i64,
    spacing: &Spacing,
    buckets: &mut Buckets,
) -> Result<(), NoMemory> {
    for j in lines.low..lines.high.saturating_add(1) {
        if (j ^ k) & 1 == 0 {
            let y = j.wrapping_mul(spacing.half);
            let row = hull.row(y, k.wrapping_mul(spacing.half));
            fill_row(row, j, k, spacing, buckets)?;
        }
    }
    Ok(())
}

/// The multiples of a length from before `low` to `high`.
fn multiples(low: i64, high: i64, length: i64) -> Row {
    Row {
        low: floored(low, length),
        high: floored(high, length),
    }
}

/// Whether a tetrahedron with this six-fold volume has not too few points of the lattice for so
/// many rows: a thin one across the lattice has.
fn has_enough(lines: Row, layers: Row, volume: i128, spacing: &Spacing) -> bool {
    let rows = lines.count().wrapping_mul(layers.count());
    let whole = volume.checked_div(spacing.most).unwrap_or(0);
    rows <= whole.wrapping_mul(128).wrapping_add(64)
}

/// Proposes points in a tetrahedron with this six-fold volume.
fn fill_tetrahedron(
    corners: &[Spot; 4],
    volume: i128,
    spacing: &Spacing,
    buckets: &mut Buckets,
) -> Result<(), NoMemory> {
    let hull = Hull::new(corners);
    let lines = multiples(hull.low.y, hull.high.y, spacing.half);
    let layers = multiples(hull.low.z, hull.high.z, spacing.half);
    if !has_enough(lines, layers, volume, spacing) {
        return Ok(());
    }
    for k in layers.low..layers.high.saturating_add(1) {
        fill_layer(&hull, lines, k, spacing, buckets)?;
    }
    Ok(())
}

/// A tetrahedron that is far over the bound, with its six-fold volume.
#[derive(Clone, Copy)]
pub(crate) struct Far {
    pub(crate) place: u32,
    pub(crate) volume: i128,
}

/// Marks the subsegments among the edges of a tetrahedron.
fn mark_subsegments(mesh: &Mesh, t: u32, marks: &mut [bool]) {
    let Some(cell) = mesh.cell(t) else { return };
    for side in cell.edges() {
        if let Some(e) = mesh.subsegment_of(side) {
            mark(marks, e);
        }
    }
}

/// Marks the subfaces among the faces of a tetrahedron.
fn mark_subfaces(mesh: &Mesh, t: u32, marks: &mut [bool]) {
    let Some(cell) = mesh.cell(t) else { return };
    for across in cell.across {
        if let Beyond::Subface(s) = across {
            mark(marks, s);
        }
    }
}

/// The subsegments of some tetrahedra, marked among all.
fn marked_subsegments(alloc: Global, mesh: &Mesh, all: &[Far]) -> Result<Vec<bool>, NoMemory> {
    let mut marks = Vec::new(alloc);
    marks.resize(mesh.subsegments.len(), false)?;
    for far in all {
        mark_subsegments(mesh, far.place, &mut marks);
    }
    Ok(marks)
}

/// The subfaces of some tetrahedra, marked among all.
fn marked_subfaces(alloc: Global, mesh: &Mesh, all: &[Far]) -> Result<Vec<bool>, NoMemory> {
    let mut marks = Vec::new(alloc);
    marks.resize(mesh.subfaces.len(), false)?;
    for far in all {
        mark_subfaces(mesh, far.place, &mut marks);
    }
    Ok(marks)
}

/// Proposes points on the marked subsegments.
fn fill_subsegments(
    mesh: &Mesh,
    marks: &[bool],
    spacing: &Spacing,
    buckets: &mut Buckets,
) -> Result<(), NoMemory> {
    for i in 0..marks.len() {
        let place = u32::try_from(i).unwrap_or(u32::MAX);
        if marks[i] {
            fill_subsegment(mesh, place, spacing, buckets)?;
        }
    }
    Ok(())
}

/// Proposes points in the marked subfaces.
fn fill_subfaces(
    mesh: &Mesh,
    marks: &[bool],
    spacing: &Spacing,
    buckets: &mut Buckets,
) -> Result<(), NoMemory> {
    for i in 0..marks.len() {
        let place = u32::try_from(i).unwrap_or(u32::MAX);
        if marks[i] {
            fill_subface(mesh, place, spacing, buckets)?;
        }
    }
    Ok(())
}

/// Proposes points on the subsegments, in the subfaces and in the inside of tetrahedra that are far
/// over the bound.
pub(crate) fn fill(
    alloc: Global,
    mesh: &Mesh,
    all: &[Far],
    spacing: &Spacing,
    buckets: &mut Buckets,
) -> Result<(), NoMemory> {
    let subsegments = marked_subsegments(alloc, mesh, all)?;
    fill_subsegments(mesh, &subsegments, spacing, buckets)?;
    let subfaces = marked_subfaces(alloc, mesh, all)?;
    fill_subfaces(mesh, &subfaces, spacing, buckets)?;
    for far in all {
        if let Some(corners) = mesh.corners(far.place) {
            fill_tetrahedron(&corners, far.volume, spacing, buckets)?;
        }
    }
    Ok(())
}

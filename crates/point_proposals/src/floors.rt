//! The least length of edges that the input asks for near each point.
use geo_laws::Side;
use mesh_parts::{Cell, Field, Mesh, Part, distance};
use std::alloc::Global;
use tet_ports::NoMemory;

/// The floor of a point that no corner of the complex is known to be near to.
pub(crate) const UNKNOWN: u64 = 1 << 31;

/// How often the floors are handed on along all edges.
const SWEEPS: u32 = 4;

/// Lowers the floor of each of two corners of the complex to the length of the edge between them.
fn start_at(mesh: &Mesh, cell: &Cell, own: usize, floors: &mut [u64]) {
    for side in cell.edges() {
        let (a, b) = (side.a as usize, side.b as usize);
        if let Some((from, to)) = mesh.ends_of(side) {
            if a < own && b < own && a < floors.len() && b < floors.len() {
                let length = distance(from, to).isqrt();
                floors[a] = floors[a].min(length);
                floors[b] = floors[b].min(length);
            }
        }
    }
}

/// Lowers the floors of the ends of a segment to its length.
fn start_on(field: &Field, segment: u32, floors: &mut [u64]) {
    let [a, b] = field.parts.corners_of(Part::Segment(segment)) else {
        return;
    };
    if let Some((from, to)) = field.mesh.ends_of(Side { a: *a, b: *b }) {
        let (a, b) = (*a as usize, *b as usize);
        if a < floors.len() && b < floors.len() {
            let length = distance(from, to).isqrt();
            floors[a] = floors[a].min(length);
            floors[b] = floors[b].min(length);
        }
    }
}

/// Lowers the floors of the ends of all segments to their lengths.
fn start_on_segments(field: &Field, floors: &mut [u64]) {
    for i in 0..field.mesh.subsegments.len() {
        let Ok(segment) = u32::try_from(i) else { break };
        start_on(field, segment, floors);
    }
}

/// Lowers the floor at `high` to that at `low` and a length, given by its square. One floor is
/// greater than the other by more than the length where its square is less than that of the gap.
fn lower(floors: &mut [u64], low: usize, high: usize, square: u64) {
    if low < floors.len() && high < floors.len() {
        let gap = floors[high].saturating_sub(floors[low]);
        if gap.saturating_mul(gap) > square {
            floors[high] = floors[low].saturating_add(square.isqrt());
        }
    }
}

/// Lowers the floor of each corner of a tetrahedron to that of another one and the length of the
/// edge between them.
fn spread_at(mesh: &Mesh, cell: &Cell, floors: &mut [u64]) {
    for side in cell.edges() {
        let (a, b) = (side.a as usize, side.b as usize);
        if let Some((from, to)) = mesh.ends_of(side) {
            let square = distance(from, to);
            lower(floors, a, b, square);
            lower(floors, b, a, square);
        }
    }
}

/// Hands the floors on along all edges.
fn sweep(mesh: &Mesh, floors: &mut [u64]) {
    for cell in mesh.cells.as_slice() {
        spread_at(mesh, cell, floors);
    }
}

/// For each point the least sum of the length of a segment, or of an edge between two corners of
/// the complex, which are the first `own` points, and the way along edges to one of its ends.
pub(crate) fn floors_of(alloc: Global, field: &Field, own: usize) -> Result<Vec<u64>, NoMemory> {
    let mesh = field.mesh;
    let mut floors = Vec::new(alloc);
    floors.resize(mesh.spots.len(), UNKNOWN)?;
    start_on_segments(field, &mut floors);
    for cell in mesh.cells.as_slice() {
        start_at(mesh, cell, own, &mut floors);
    }
    spread(mesh, &mut floors);
    Ok(floors)
}

/// Hands the floors on along all edges again and again.
fn spread(mesh: &Mesh, floors: &mut [u64]) {
    for _ in 0..SWEEPS {
        sweep(mesh, floors);
    }
}

//! A place that is joined with the boundary of its cavity.
use crate::cavity::{Cavity, Wall};
use crate::live::{Across, Live, NOTHING, to};
use geo_laws::{Side, side_of};
use std::alloc::Global;
use tet_ports::NoMemory;

/// A face of a new tetrahedron that has the new point, by the edge opposite the point.
#[derive(Clone, Copy, PartialEq, Eq, PartialOrd, Ord)]
struct Flank {
    side: Side,
    cell: u32,
    corner: usize,
}

/// Makes the tetrahedron between a face of the boundary and a point, and notes its faces.
fn join(live: &mut Live, v: u32, wall: &Wall, flanks: &mut Vec<Flank>) -> Result<u32, NoMemory> {
    let [a, b, c] = wall.face;
    let across = [NOTHING, NOTHING, NOTHING, wall.across];
    let t = live.add([a, b, c, v], across, wall.most)?;
    for (corner, side) in [(0, side_of(b, c)), (1, side_of(a, c)), (2, side_of(a, b))] {
        flanks.push(Flank {
            side,
            cell: t,
            corner,
        })?;
    }
    Ok(t)
}

/// The number of faces at the beginning of a list that have one edge.
fn run_length(flanks: &[Flank]) -> usize {
    let Some(first) = flanks.first() else {
        return 0;
    };
    for i in 0..flanks.len() {
        if flanks[i].side != first.side {
            return i;
        }
    }
    flanks.len()
}

/// Links the faces at an edge, and reports whether they fit: two, or one in a facet.
fn link(live: &mut Live, run: &[Flank], facet: Option<u32>) -> bool {
    if run.len() == 2 {
        let (one, other) = (run[0], run[1]);
        live.set_across(one.cell, one.corner, to(other.cell, facet));
        live.set_across(other.cell, other.corner, to(one.cell, facet));
        return true;
    }
    if run.len() == 1 && facet.is_some() {
        let flank = run[0];
        live.set_across(flank.cell, flank.corner, Across { cell: None, facet });
        return true;
    }
    false
}

/// Links the faces of the new tetrahedra, and reports whether they fit.
fn link_all(live: &mut Live, cavity: &Cavity, flanks: &[Flank]) -> bool {
    let mut first = 0_usize;
    for _ in 0..flanks.len() {
        let rest = flanks.get(first..).unwrap_or(&[]);
        let run = rest.get(..run_length(rest)).unwrap_or(&[]);
        let Some(flank) = run.first() else {
            return true;
        };
        if !link(live, run, cavity.facet_at(flank.side)) {
            return false;
        }
        first = first.saturating_add(run.len());
    }
    true
}

/// Makes the tetrahedra between the boundary of a cavity and a point, and notes their faces.
fn join_walls(
    alloc: Global,
    live: &mut Live,
    cavity: &Cavity,
    v: u32,
    flanks: &mut Vec<Flank>,
) -> Result<Vec<u32>, NoMemory> {
    let mut new = Vec::new(alloc);
    for wall in cavity.walls.as_slice() {
        new.push(join(live, v, wall, flanks)?)?;
    }
    Ok(new)
}

/// Replaces a cavity by the tetrahedra between its boundary and a point, whose place is set, and
/// reports whether they fit.
pub(crate) fn join_all(
    alloc: Global,
    live: &mut Live,
    cavity: &Cavity,
    v: u32,
) -> Result<bool, NoMemory> {
    let mut flanks = Vec::new(alloc);
    let new = join_walls(alloc, live, cavity, v, &mut flanks)?;
    flanks.sort_unstable();
    if !link_all(live, cavity, flanks.as_slice()) {
        live.discard(new.as_slice())?;
        return Ok(false);
    }
    live.replace(cavity.cells.as_slice(), new.as_slice());
    live.measure_all(new.as_slice());
    live.discard(cavity.cells.as_slice())?;
    Ok(true)
}

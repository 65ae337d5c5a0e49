//! Delaunay triangles of the polygon round a point of a facet, without the point.
use crate::live::Live;
use crate::star::Star;
use mesh_parts::{Plane, Sphere, equator};
use std::alloc::Global;
use tet_ports::NoMemory;

/// The most corners of a polygon.
const MOST: usize = 100;

/// A part of a polygon, from one of its corners to a later one.
#[derive(Clone, Copy)]
struct Part {
    first: usize,
    last: usize,
}

/// The corner with which the corners of the polygon in a facet begin: one that is behind none, or
/// any if there is none.
fn start_of(star: &Star, facet: u32) -> Option<u32> {
    let mut any = None;
    for edge in star.opposites.as_slice() {
        if edge.facet == facet {
            if !star.has_to(facet, edge.from) {
                return Some(edge.from);
            }
            any = Some(edge.from);
        }
    }
    any
}

/// The number of edges of the polygon in a facet round a point.
fn edges_in(star: &Star, facet: u32) -> usize {
    let mut count = 0_usize;
    for edge in star.opposites.as_slice() {
        if edge.facet == facet {
            count = count.wrapping_add(1);
        }
    }
    count
}

/// The corners of the polygon in a facet, in the positive order as drawn, where it is one chain.
fn chain_of(alloc: Global, star: &Star, facet: u32) -> Result<Option<Vec<u32>>, NoMemory> {
    let mut chain = Vec::new(alloc);
    let Some(start) = start_of(star, facet) else {
        return Ok(None);
    };
    let count = edges_in(star, facet);
    chain.push(start)?;
    let mut at = start;
    for _ in 0..MOST {
        match star.next(facet, at) {
            Some(next) if next != start => {
                chain.push(next)?;
                at = next;
            }
            end => return Ok(whole(chain, count, end.is_some())),
        }
    }
    Ok(None)
}

/// The chain, where it has so many edges, and one more from its last corner to the first where it
/// is closed.
fn whole(chain: Vec<u32>, edges: usize, is_closed: bool) -> Option<Vec<u32>> {
    let corners = if is_closed {
        edges
    } else {
        edges.saturating_add(1)
    };
    if chain.len() == corners {
        Some(chain)
    } else {
        None
    }
}

/// The corner between the ends of a part that makes a Delaunay triangle with them.
fn apex_of(live: &Live, plane: &Plane, chain: &[u32], part: Part) -> Option<usize> {
    let from = live.spot(chain.get(part.last).copied()?)?;
    let to = live.spot(chain.get(part.first).copied()?)?;
    let mut best = None;
    let mut disc: Option<Sphere> = None;
    for k in part.first.saturating_add(1)..part.last {
        let p = live.spot(chain.get(k).copied()?)?;
        if plane.side(from, to, p) > 0 {
            let is_better = match disc {
                Some(sphere) => sphere.has(p),
                None => true,
            };
            if is_better {
                best = Some(k);
                disc = equator(&[from, to, p]);
            }
        }
    }
    best
}

/// Appends the Delaunay triangles of a polygon whose corners are in the positive order, and reports
/// whether there are any.
fn divide(
    alloc: Global,
    live: &Live,
    plane: &Plane,
    chain: &[u32],
    triangles: &mut Vec<[u32; 3]>,
) -> Result<bool, NoMemory> {
    let mut parts = Vec::new(alloc);
    parts.push(Part {
        first: 0,
        last: chain.len().saturating_sub(1),
    })?;
    for _ in 0..MOST {
        let Some(part) = parts.pop() else {
            return Ok(true);
        };
        if part.last > part.first.saturating_add(1) {
            let Some(k) = apex_of(live, plane, chain, part) else {
                return Ok(false);
            };
            if let (Some(a), Some(b), Some(c)) = (
                chain.get(part.last),
                chain.get(part.first),
                chain.get(k),
            ) {
                triangles.push([*a, *b, *c])?;
            }
            let (first, last) = (part.first, part.last);
            parts.extend_from_slice(&[Part { first, last: k }, Part { first: k, last }])?;
        }
    }
    Ok(false)
}

/// Appends the Delaunay triangles of the polygon in a facet round a point, in the positive order as
/// drawn, and reports whether there are any.
pub(crate) fn triangulate(
    alloc: Global,
    live: &Live,
    star: &Star,
    facet: u32,
    triangles: &mut Vec<[u32; 3]>,
) -> Result<bool, NoMemory> {
    let Some(plane) = live.plane(facet) else {
        return Ok(false);
    };
    match chain_of(alloc, star, facet)? {
        Some(chain) => divide(alloc, live, plane, chain.as_slice(), triangles),
        None => Ok(false),
    }
}

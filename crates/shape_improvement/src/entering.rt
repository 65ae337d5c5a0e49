//! The mesh that is changed in place, from a mesh with its parts.
use crate::live::{Across, Bounds, Freedom, Live, Vertex};
use mesh_parts::{Beyond, Field, Mesh, Part, Plane};
use std::alloc::Global;
use tet_ports::NoMemory;

/// The one of two tetrahedra beside a subface that is not this one.
fn other_beside(field: &Field, s: u32, t: u32) -> Option<u32> {
    for other in field.beside.at(s) {
        if *other != t {
            return Some(*other);
        }
    }
    None
}

/// What is across a face of a tetrahedron.
fn across_of(field: &Field, t: u32, beyond: Beyond) -> Across {
    match beyond {
        Beyond::Tetrahedron(n) => Across {
            cell: Some(n),
            facet: None,
        },
        Beyond::Subface(s) => Across {
            cell: other_beside(field, s, t),
            facet: field.mesh.facet(s),
        },
        Beyond::Outside => Across {
            cell: None,
            facet: Some(u32::MAX),
        },
    }
}

/// Where a point may be moved that is no corner of the complex.
fn freedom_of(field: &Field, v: u32) -> Freedom {
    match field.parts.at(v) {
        None => Freedom::Anywhere,
        Some(Part::Facet(f)) => Freedom::InFacet(f),
        Some(Part::Segment(_)) => Freedom::OnSegment,
    }
}

/// The points of a mesh; the first are corners of the complex.
fn vertices_of(alloc: Global, field: &Field, own: usize) -> Result<Vec<Vertex>, NoMemory> {
    let mut vertices = Vec::with_capacity(alloc, field.mesh.spots.len())?;
    for i in 0..field.mesh.spots.len() {
        let Ok(v) = u32::try_from(i) else { break };
        let freedom = if i < own {
            Freedom::Nowhere
        } else {
            freedom_of(field, v)
        };
        vertices.push(Vertex {
            spot: field.mesh.spots[i],
            freedom,
            cell: None,
        })?;
    }
    Ok(vertices)
}

/// The planes of the facets.
fn planes_of(alloc: Global, mesh: &Mesh) -> Result<Vec<Option<Plane>>, NoMemory> {
    let mut planes = Vec::new(alloc);
    planes.resize(mesh.facets, None)?;
    for i in 0..mesh.subfaces.len() {
        let Ok(s) = u32::try_from(i) else { break };
        let place = mesh.subfaces[i].facet as usize;
        if place < planes.len() && planes[place].is_none() {
            planes[place] = mesh.plane(s);
        }
    }
    Ok(planes)
}

impl Live {
    /// Puts the tetrahedra of a mesh in, with their greatest six-fold volumes.
    fn fill(&mut self, field: &Field, mosts: &[i128]) -> Result<(), NoMemory> {
        for i in 0..field.mesh.cells.len() {
            let Ok(t) = u32::try_from(i) else { break };
            let cell = field.mesh.cells[i];
            let [p, q, r, s] = cell.across;
            let across = [
                across_of(field, t, p),
                across_of(field, t, q),
                across_of(field, t, r),
                across_of(field, t, s),
            ];
            let most = mosts.get(i).copied().unwrap_or(i128::MAX);
            let t = self.add(cell.corners, across, most)?;
            self.measure(t);
            self.replace(&[], &[t]);
        }
        Ok(())
    }
}

/// The mesh in which points are moved; the first points are corners of the complex. Each
/// tetrahedron has its greatest six-fold volume, where there are such.
pub(crate) fn live_of(
    alloc: Global,
    field: &Field,
    own: usize,
    bounds: Bounds,
    mosts: &[i128],
) -> Result<Live, NoMemory> {
    let vertices = vertices_of(alloc, field, own)?;
    let planes = planes_of(alloc, field.mesh)?;
    let mut live = Live::new(alloc, vertices, planes, bounds);
    live.fill(field, mosts)?;
    Ok(live)
}

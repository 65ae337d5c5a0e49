//! The subsegments, subfaces and facets at each point, and the subfaces at each subsegment.
use crate::mesh::{Link, Mesh};
use crate::table::{Entry, Table};
use geo_laws::{Face, Side};
use std::alloc::Global;
use tet_ports::NoMemory;

/// The subsegments, the subfaces and the facets at each point, and the subfaces at each subsegment.
#[derive(Drop)]
pub(crate) struct Stars {
    pub(crate) subsegments: Table,
    pub(crate) subfaces: Table,
    pub(crate) facets: Table,
    pub(crate) beside: Table,
}

/// The subsegments at each point.
fn subsegments_at(alloc: Global, mesh: &Mesh) -> Result<Table, NoMemory> {
    let mut entries = Vec::new(alloc);
    for i in 0..mesh.subsegments.len() {
        let Ok(value) = u32::try_from(i) else { break };
        let Side { a, b } = mesh.subsegments[i];
        entries.extend_from_slice(&[Entry { key: a, value }, Entry { key: b, value }])?;
    }
    Table::of_ascending(alloc, entries.as_slice(), mesh.spots.len())
}

/// The entries of a number at the corners of a face.
fn at_corners(face: &Face, value: u32) -> [Entry; 3] {
    let Face { a, b, c } = *face;
    [
        Entry { key: a, value },
        Entry { key: b, value },
        Entry { key: c, value },
    ]
}

/// The subfaces at each point.
fn subfaces_at(alloc: Global, mesh: &Mesh) -> Result<Table, NoMemory> {
    let mut entries = Vec::new(alloc);
    for i in 0..mesh.faces.len() {
        let Ok(value) = u32::try_from(i) else { break };
        entries.extend_from_slice(&at_corners(&mesh.faces[i], value))?;
    }
    Table::of_ascending(alloc, entries.as_slice(), mesh.spots.len())
}

/// The facets at each point.
fn facets_at(alloc: Global, mesh: &Mesh) -> Result<Table, NoMemory> {
    let mut entries = Vec::new(alloc);
    for subface in mesh.subfaces.as_slice() {
        entries.extend_from_slice(&at_corners(&subface.face, subface.facet))?;
    }
    Table::new(alloc, entries.as_slice(), mesh.spots.len(), mesh.facets)
}

/// The subfaces at each subsegment.
fn subfaces_beside(alloc: Global, mesh: &Mesh) -> Result<Table, NoMemory> {
    let mut entries = Vec::new(alloc);
    for i in 0..mesh.links.len() {
        let Ok(value) = u32::try_from(i) else { break };
        for link in mesh.links[i] {
            if let Link::Subsegment(key) = link {
                entries.push(Entry { key, value })?;
            }
        }
    }
    Table::of_ascending(alloc, entries.as_slice(), mesh.subsegments.len())
}

impl Stars {
    /// The stars of a mesh.
    pub(crate) fn new(alloc: Global, mesh: &Mesh) -> Result<Self, NoMemory> {
        Ok(Stars {
            subsegments: subsegments_at(alloc, mesh)?,
            subfaces: subfaces_at(alloc, mesh)?,
            facets: facets_at(alloc, mesh)?,
            beside: subfaces_beside(alloc, mesh)?,
        })
    }

    /// The other one of exactly two subsegments at a point.
    pub(crate) fn next(&self, v: u32, e: u32) -> Option<u32> {
        let both = self.subsegments.at(v);
        if both.len() != 2 {
            return None;
        }
        Some(if both[0] == e { both[1] } else { both[0] })
    }
}

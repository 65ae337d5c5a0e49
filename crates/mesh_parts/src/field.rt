//! A mesh with what refinement looks up in it.
use crate::mesh::{Beyond, Mesh};
use crate::parts::Parts;
use crate::sharp::folds_of;
use crate::sphere::{Sphere, circumsphere};
use crate::spot::Spot;
use crate::table::{Entry, Table, turned};
use std::alloc::Global;
use tet_ports::NoMemory;

/// A mesh, the circumspheres of its tetrahedra where their centers are near, its parts, for each
/// facet those that it meets at less than 60 degrees, the subsegments of each tetrahedron, and the
/// tetrahedra at each subsegment and beside each subface.
#[derive(Drop)]
pub struct Field<'a> {
    pub mesh: &'a Mesh,
    pub(crate) spheres: Vec<Option<Sphere>>,
    pub parts: Parts,
    pub(crate) folds: Table,
    pub edges: Table,
    pub around: Table,
    pub beside: Table,
}

/// The circumspheres of the tetrahedra.
fn spheres_of(alloc: Global, mesh: &Mesh) -> Result<Vec<Option<Sphere>>, NoMemory> {
    let mut spheres = Vec::with_capacity(alloc, mesh.cells.len())?;
    for i in 0..mesh.cells.len() {
        let place = u32::try_from(i).unwrap_or(u32::MAX);
        let sphere = match mesh.corners(place) {
            Some(corners) => circumsphere(&corners),
            None => None,
        };
        spheres.push(sphere)?;
    }
    Ok(spheres)
}

/// Notes the subsegments of a tetrahedron.
fn note_edges(mesh: &Mesh, key: u32, entries: &mut Vec<Entry>) -> Result<(), NoMemory> {
    let Some(cell) = mesh.cell(key) else {
        return Ok(());
    };
    for side in cell.edges() {
        if let Some(value) = mesh.subsegment_of(side) {
            entries.push(Entry { key, value })?;
        }
    }
    Ok(())
}

/// Notes a tetrahedron at its subfaces.
fn note_faces(mesh: &Mesh, value: u32, entries: &mut Vec<Entry>) -> Result<(), NoMemory> {
    let Some(cell) = mesh.cell(value) else {
        return Ok(());
    };
    for across in cell.across {
        if let Beyond::Subface(key) = across {
            entries.push(Entry { key, value })?;
        }
    }
    Ok(())
}

/// The subsegments of the tetrahedra.
fn edges_of(alloc: Global, mesh: &Mesh) -> Result<Vec<Entry>, NoMemory> {
    let mut entries = Vec::new(alloc);
    for i in 0..mesh.cells.len() {
        let Ok(place) = u32::try_from(i) else { break };
        note_edges(mesh, place, &mut entries)?;
    }
    Ok(entries)
}

/// The tetrahedra beside each subface.
fn beside_of(alloc: Global, mesh: &Mesh) -> Result<Table, NoMemory> {
    let mut entries = Vec::new(alloc);
    for i in 0..mesh.cells.len() {
        let Ok(place) = u32::try_from(i) else { break };
        note_faces(mesh, place, &mut entries)?;
    }
    Table::of_ascending(alloc, entries.as_slice(), mesh.subfaces.len())
}

impl<'a> Field<'a> {
    /// What is looked up in a mesh, whose first points are corners of the complex.
    pub fn new(alloc: Global, mesh: &'a Mesh, own: usize) -> Result<Self, NoMemory> {
        let parts = Parts::new(alloc, mesh, own)?;
        let folds = folds_of(alloc, mesh, &parts)?;
        let edges = edges_of(alloc, mesh)?;
        let around = turned(alloc, edges.as_slice())?;
        Ok(Field {
            mesh,
            spheres: spheres_of(alloc, mesh)?,
            parts,
            folds,
            edges: Table::in_order(alloc, edges.as_slice(), mesh.cells.len())?,
            around: Table::of_ascending(alloc, around.as_slice(), mesh.subsegments.len())?,
            beside: beside_of(alloc, mesh)?,
        })
    }

    /// The circumsphere of a tetrahedron, where its center is near.
    pub fn sphere(&self, t: u32) -> Option<Sphere> {
        self.spheres.get(t as usize).copied().flatten()
    }

    /// Whether a point is in the circumsphere of a tetrahedron.
    pub fn has(&self, t: u32, p: Spot) -> bool {
        match self.sphere(t) {
            Some(sphere) => sphere.has(p),
            None => false,
        }
    }
}

//! The tetrahedra and the faces of a mesh as arrays have them.

ghost use Rattle.std.specs.Prelude.{◌≡◌, ◌<◌, ◌^◌, ◌++◌, All, IfOk, IfSome, OnOk, length, map};
ghost use Rattle.geo_laws.specs.Delaunay.{numbers, numbers_below};
ghost use Rattle.mesh_files.specs.Texts.{AreNamed, marked_corners};
ghost use Rattle.incidence.specs.Pairs.{IsAcrossWithin, pairs_of};
ghost use Rattle.array_meshes.specs.Meshes.{cell_at, named_cell, named_face, place_of, place_or_none, region_at};

use crate::arrays::Place;
use geo_laws::{Tet, TetList};
use hole_carve::Marks;
use incidence::{Across, Pairs};
use mesh_files::{FaceRow, FaceRows};
use node_files::Names;
use sign_predicates::GridPoint;
use std::alloc::Global;
use tet_ports::NoMemory;

/// A tetrahedron by the places of its corners in the points of the mesh, with the place of its
/// region in the array of regions, and with the places of its neighbors in the list of tetrahedra,
/// each across the face opposite a corner, in their order. Places are from 0, and 2^32 - 1 stands
/// for none.
#[repr(C)]
#[derive(Clone, Copy, Debug, PartialEq, Eq)]
pub struct Cell {
    pub a: u32,
    pub b: u32,
    pub c: u32,
    pub d: u32,
    pub region: u32,
    pub n0: u32,
    pub n1: u32,
    pub n2: u32,
    pub n3: u32,
}

/// A face by the places of its corners in the points of the mesh, and its marker.
#[repr(C)]
#[derive(Clone, Copy, Debug, PartialEq, Eq)]
pub struct MarkedFace {
    pub a: u32,
    pub b: u32,
    pub c: u32,
    pub marker: i64,
}

/// The region of the tetrahedron at a place.
fn region_at(marks: &Option<Marks>, i: usize) -> u32
    requires { IfSome marks.now (λ ms. i < length ms) }
    ensures { result ≡ region_at marks.now i }
{
    match marks {
        Some(marks) => match marks.at(i) {
            Some(region) => region,
            None => u32::MAX,
        },
        None => u32::MAX,
    }
}

/// The place of a neighbor.
fn place_or_none(place: Option<usize>) -> u32
    requires { IfSome place (λ i. i < 2 ^ 32) }
    ensures { result ≡ place_or_none place }
{
    match place {
        Some(place) => place as u32,
        None => u32::MAX,
    }
}

/// A tetrahedron, by the names of its corners, with its region and its neighbors.
fn named_cell(names: &Names, t: Tet, region: u32, across: Across) -> Cell
    requires named { AreNamed names.now (numbers t) }
    requires within { IsAcrossWithin (2 ^ 32) across }
    ensures { result ≡ named_cell names.now t region across }
{
    Cell {
        a: names.at(t.a as usize),
        b: names.at(t.b as usize),
        c: names.at(t.c as usize),
        d: names.at(t.d as usize),
        region,
        n0: place_or_none(across.n0),
        n1: place_or_none(across.n1),
        n2: place_or_none(across.n2),
        n3: place_or_none(across.n3),
    }
}

/// The tetrahedra, by the names of their corners, with their regions and their neighbors.
pub(crate) fn cells_of(
    alloc: Global,
    names: &Names,
    list: &TetList,
    marks: &Option<Marks>,
    pairs: &Pairs,
) -> Result<Vec<Cell>, NoMemory>
    requires named { All (λ t. AreNamed names.now (numbers t)) list.now }
    requires marks { IfSome marks.now (λ ms. length ms ≡ length list.now) }
    requires pairs { pairs.now ≡ pairs_of list.now }
    ensures { IfOk result (λ cells. cells.items
        ≡ map (cell_at names.now list.now marks.now) (numbers_below (length list.now))) }
{
    let mut cells = Vec::with_capacity(alloc, list.len())?;
    for i in 0..list.len() {
        let region = region_at(marks, i);
        cells.push(named_cell(names, list.at(i), region, pairs.at(i)))?;
    }
    Ok(cells)
}

/// A face, by the names of its corners.
fn named_face(names: &Names, face: &FaceRow) -> MarkedFace
    requires { AreNamed names.now (marked_corners face.now) }
    ensures { result ≡ named_face names.now face.now }
{
    MarkedFace {
        a: names.at(face.a as usize),
        b: names.at(face.b as usize),
        c: names.at(face.c as usize),
        marker: face.marker,
    }
}

/// The faces, by the names of their corners.
pub(crate) fn named_faces(
    alloc: Global,
    names: &Names,
    faces: &FaceRows,
) -> Result<Vec<MarkedFace>, NoMemory>
    requires { All (λ face. AreNamed names.now (marked_corners face)) faces.now }
    ensures { IfOk result (λ made. made.items ≡ map (named_face names.now) faces.now) }
{
    let mut made = Vec::with_capacity(alloc, faces.len())?;
    for face in faces.as_slice() {
        made.push(named_face(names, face))?;
    }
    Ok(made)
}

/// A point in grid units.
fn place_of(p: &GridPoint) -> Place
    ensures { result ≡ place_of p.now }
{
    Place {
        x: i64::from(p.x),
        y: i64::from(p.y),
        z: i64::from(p.z),
    }
}

/// Appends points in grid units.
pub(crate) fn add_places(points: &[GridPoint], places: &mut Vec<Place>) -> Result<(), NoMemory>
    ensures { OnOk result (places.new.items ≡ places.old.items ++ map place_of points.now) }
{
    for p in points {
        places.push(place_of(p))?;
    }
    Ok(())
}

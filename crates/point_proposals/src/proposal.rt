//! The points that a mesh is to get so that no tetrahedron is slim or large.
use crate::large::{VolumeAim, has_far, propose_volumes};
use crate::refiner::Refiner;
use crate::slim::{Asked, asked_of};
use geo_laws::{FacetTriangles, Points, TetList};
use incidence::Marks;
use mesh_parts::{Field, Mesh, mesh_of};
use std::alloc::Global;
use tet_ports::NoMemory;
use tet_shapes::{Ratio, VolumeBounds, mark_at};

/// One in so many tetrahedra may be slim where these are few.
pub const FEW: usize = 256;

/// What a proposal of points is asked for.
#[derive(Clone, Copy)]
pub struct Aim<'a> {
    /// The bounds on the volumes of tetrahedra, where these are bounded.
    pub volumes: Option<&'a VolumeBounds>,
    /// For each tetrahedron the place of its region, or none, where regions are marked.
    pub marks: &'a Option<Marks>,
    /// The greatest ratio of the circumradius of a tetrahedron to its shortest edge.
    pub ratio: Option<Ratio>,
    /// Each coordinate of a proposed point is a multiple of `2^halvings` grid units.
    pub halvings: u32,
    /// How many of the first points are corners of the complex.
    pub own: usize,
    /// Whether points may be put on segments and in facets.
    pub splits_boundary: bool,
    /// Whether slim tetrahedra are left where they are few and none is over its volume.
    pub leaves_few: bool,
}

impl<'a> Aim<'a> {
    /// The greatest six-fold volume of the tetrahedron at a place.
    fn most_at(&self, place: usize) -> i128 {
        let most = match self.volumes {
            Some(bounds) => bounds.most_of(mark_at(self.marks, place)),
            None => None,
        };
        most.and_then(|most| i128::try_from(most).ok())
            .unwrap_or(i128::MAX)
    }

    /// For each of so many tetrahedra the greatest six-fold volume, where volumes are bounded.
    pub fn mosts(&self, alloc: Global, cells: usize) -> Result<Vec<i128>, NoMemory> {
        let mut mosts = Vec::new(alloc);
        if self.volumes.is_none() {
            return Ok(mosts);
        }
        mosts.reserve(cells)?;
        for place in 0..cells {
            mosts.push(self.most_at(place))?;
        }
        Ok(mosts)
    }
}

/// Points that a mesh is to get so that no tetrahedron is over its greatest volume. Where none is
/// far over it and a ratio is given, there are none.
fn propose_large(alloc: Global, mesh: &Mesh, aim: &Aim) -> Result<Points, NoMemory> {
    if aim.volumes.is_none() || (aim.ratio.is_some() && !has_far(mesh)) {
        return Ok(Points::new(alloc));
    }
    let volumes = VolumeAim {
        halvings: aim.halvings,
        splits_boundary: aim.splits_boundary,
    };
    propose_volumes(alloc, mesh, &volumes)
}

/// Points that split the tetrahedra that are asked for, one by one.
fn split_all(alloc: Global, field: &Field, asked: &[Asked], aim: &Aim) -> Result<Points, NoMemory> {
    let mut refiner = Refiner::new(alloc, field, aim.halvings, aim.splits_boundary)?;
    for asked in asked {
        refiner.split(asked)?;
    }
    refiner.taken.points(alloc)
}

/// Whether tetrahedra that are asked for are few among all, and none is over its volume.
fn are_few(mesh: &Mesh, asked: &[Asked]) -> bool {
    if asked.len() > mesh.cells.len() / FEW {
        return false;
    }
    for asked in asked {
        if asked.is_over {
            return false;
        }
    }
    true
}

/// Points that a mesh is to get so that no tetrahedron is over the ratio, or over its greatest
/// volume.
fn propose_slim(alloc: Global, mesh: &Mesh, aim: &Aim, ratio: Ratio) -> Result<Points, NoMemory> {
    let field = Field::new(alloc, mesh, aim.own)?;
    let asked = asked_of(alloc, &field, ratio, aim.own)?;
    if aim.leaves_few && are_few(mesh, asked.as_slice()) {
        return Ok(Points::new(alloc));
    }
    split_all(alloc, &field, asked.as_slice(), aim)
}

/// Points that a mesh is to get so that no tetrahedron is over the bounds of the aim: `points` with
/// the tetrahedra of `tetrahedra` and the subfaces `triangles`. Where all tetrahedra are within the
/// bounds there are none. With the points that were proposed the mesh may have other tetrahedra
/// over the bounds, for which it is to be asked again. The points are not known to be new, nor that
/// they are in the mesh: that is tested elsewhere. The function has no contract.
pub fn propose(
    alloc: Global,
    points: &Points,
    tetrahedra: &TetList,
    triangles: &FacetTriangles,
    aim: &Aim,
) -> Result<Points, NoMemory> {
    let mut mesh = mesh_of(alloc, points, tetrahedra, triangles, aim.own)?;
    mesh.mosts = aim.mosts(alloc, mesh.cells.len())?;
    let large = propose_large(alloc, &mesh, aim)?;
    match aim.ratio {
        Some(ratio) if large.is_empty() => propose_slim(alloc, &mesh, aim, ratio),
        _ => Ok(large),
    }
}

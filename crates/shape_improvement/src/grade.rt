//! How well shaped the tetrahedra of a mesh are.
use crate::live::{Bounds, is_large, is_slim_exactly};
use crate::passes::Aim;
use crate::sine::{RIGHT, aimed_sine, least_sine};
use geo_laws::{FacetTriangles, Points, TetList};
use mesh_parts::{Beyond, Mesh, mesh_of};
use std::alloc::Global;
use tet_ports::NoMemory;
use tet_shapes::Ratio;

/// How many tetrahedra a mesh has, how many of them are over the bounds, how many have a dihedral
/// angle below the aim, and the least square of the sine of a dihedral angle. Angles between
/// subfaces are left out.
#[derive(Clone, Copy)]
pub struct Grade {
    /// The square of the sine that is aimed at.
    aim: u64,
    all: usize,
    large: usize,
    slim: usize,
    flat: usize,
    worst: u64,
}

/// Whether a face is a subface, or has nothing across.
fn is_wall(beyond: Beyond) -> bool {
    match beyond {
        Beyond::Tetrahedron(_) => false,
        _ => true,
    }
}

/// The least square of the sine of a dihedral angle of a tetrahedron.
fn sine_at(mesh: &Mesh, t: u32) -> Option<u64> {
    let [p, q, r, s] = mesh.cell(t)?.across;
    let walls = [is_wall(p), is_wall(q), is_wall(r), is_wall(s)];
    Some(least_sine(&mesh.corners(t)?, walls))
}

/// Whether a tetrahedron of a mesh has a dihedral angle below the aim.
pub(crate) fn has_flat(mesh: &Mesh, aim: &Aim) -> bool {
    let least = aimed_sine(aim.cosine);
    for i in 0..mesh.cells.len() {
        let Ok(t) = u32::try_from(i) else { break };
        if sine_at(mesh, t).unwrap_or(RIGHT) < least {
            return true;
        }
    }
    false
}

impl Grade {
    /// The grade of no tetrahedra, where this square of a sine is aimed at.
    fn none(aim: u64) -> Grade {
        Grade {
            aim,
            all: 0,
            large: 0,
            slim: 0,
            flat: 0,
            worst: RIGHT,
        }
    }

    /// Counts a tetrahedron, with its greatest six-fold volume.
    fn count(&mut self, mesh: &Mesh, t: u32, bounds: &Bounds, most: i128) {
        let (Some(spots), Some(sine)) = (mesh.corners(t), sine_at(mesh, t)) else {
            return;
        };
        self.all = self.all.wrapping_add(1);
        self.worst = self.worst.min(sine);
        if sine < self.aim {
            self.flat = self.flat.wrapping_add(1);
        }
        if is_large(&spots, most) {
            self.large = self.large.wrapping_add(1);
        }
        if is_slim_exactly(bounds, &spots) {
            self.slim = self.slim.wrapping_add(1);
        }
    }

    /// Whether no dihedral angle is below an aim, given by the squared cosine.
    pub fn reaches(&self, cosine: Option<Ratio>) -> bool {
        self.worst >= aimed_sine(cosine)
    }

    /// Whether as many tetrahedra as in a mesh of the other grade have an angle below the aim, and
    /// no more are over the bounds.
    pub fn is_as_good(&self, than: &Grade) -> bool {
        self.large <= than.large && self.slim <= than.slim && self.flat == than.flat
    }

    /// Whether fewer than one tetrahedron in sixteen has an angle below the aim, and fewer than a
    /// tenth of those of a mesh of the other grade that have one are gone.
    pub fn mends_few(&self, than: &Grade) -> bool {
        self.mended(than) < than.flat / 10 && self.flat < self.all / 16
    }

    /// How many tetrahedra fewer have an angle below the aim than in a mesh of the other grade.
    pub fn mended(&self, than: &Grade) -> usize {
        than.flat.saturating_sub(self.flat)
    }

    /// Whether a mesh of this grade is better than one of the other grade: no more tetrahedra are
    /// over the bounds, and fewer have an angle below the aim, or as many and the least angle is
    /// larger.
    pub fn is_better(&self, than: &Grade) -> bool {
        self.large <= than.large
            && self.slim <= than.slim
            && (self.flat < than.flat || self.flat == than.flat && self.worst > than.worst)
    }
}

/// The grade of a mesh.
pub fn grade_of(
    alloc: Global,
    points: &Points,
    tetrahedra: &TetList,
    triangles: &FacetTriangles,
    aim: &Aim,
) -> Result<Grade, NoMemory> {
    let mesh = mesh_of(alloc, points, tetrahedra, triangles, aim.own)?;
    let bounds = Bounds { ratio: aim.ratio };
    let mut grade = Grade::none(aimed_sine(aim.cosine));
    for i in 0..mesh.cells.len() {
        let Ok(t) = u32::try_from(i) else { break };
        let most = aim.mosts.get(i).copied().unwrap_or(i128::MAX);
        grade.count(&mesh, t, &bounds, most);
    }
    Ok(grade)
}

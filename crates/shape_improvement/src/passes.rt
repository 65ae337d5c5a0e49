//! Passes over the tetrahedra whose dihedral angles are below the aim.
use crate::entering::live_of;
use crate::grade::has_flat;
use crate::live::{Bounds, Cell, Live, corner_off, face_at};
use crate::moving::Mover;
use crate::search::{MANY, TRIES};
use crate::trials::Trials;
use geo_laws::{FacetTriangles, Points, TetList};
use mesh_parts::{Field, grid_point, mesh_of};
use std::alloc::Global;
use tet_ports::NoMemory;
use tet_shapes::Ratio;

/// The most passes.
const PASSES: u32 = 10;

/// After how many trials a tetrahedron is let alone.
const TRIALS: u8 = 2;

/// How many tetrahedra that are asked for are few, so that more places are tried for each.
const FEW: usize = 16;

/// What an improvement is asked for.
#[derive(Clone, Copy)]
pub struct Aim<'a> {
    /// For each tetrahedron six times its greatest volume, in cubes of grid units; empty where
    /// volumes are not bounded.
    pub mosts: &'a [i128],
    /// The greatest ratio of the circumradius of a tetrahedron to its shortest edge.
    pub ratio: Option<Ratio>,
    /// The squared cosine of the least dihedral angle that is aimed at.
    pub cosine: Option<Ratio>,
    /// Each coordinate of a point is a multiple of `2^halvings` grid units.
    pub halvings: u32,
    /// How many of the first points are corners of the complex.
    pub own: usize,
    /// Whether points may be put in on segments and in facets.
    pub splits_boundary: bool,
    /// Whether tetrahedra in folds are bettered too, points are put in close beside a tetrahedron
    /// too, and each change may leave `SPARE` slim tetrahedra more.
    pub is_mending: bool,
    /// Whether slim tetrahedra with no angle below the aim are bettered too, since there are few.
    pub sheds_slim: bool,
    /// Whether more places are tried for a point where few tetrahedra are to be bettered.
    pub tries_many: bool,
}

/// A tetrahedron that is to be bettered. Those with the least angles come first.
#[derive(Clone, Copy, PartialEq, Eq, PartialOrd, Ord)]
struct Asked {
    sine: u64,
    place: u32,
}

/// The corner of the tetrahedron across a face that is not on the face.
fn corner_across(live: &Live, cell: &Cell, k: usize) -> Option<u32> {
    let across = cell.across.get(k)?;
    if across.facet.is_some() {
        return None;
    }
    let neighbor = live.cell(across.cell?)?;
    corner_off(&neighbor.corners, &face_at(&cell.corners, k))
}

impl Mover {
    /// Whether a tetrahedron is to be bettered.
    fn is_asked(&self, field: &Field, cell: &Cell) -> bool {
        cell.is_live
            && (cell.sine < self.aim || self.sheds_slim && cell.is_slim)
            && cell.failures < TRIALS
            && (self.is_mending || !field.is_in_fold(&cell.corners))
    }

    /// The tetrahedra that are to be bettered, those with the least angles first.
    fn asked(&self, field: &Field) -> Result<Vec<Asked>, NoMemory> {
        let mut asked = Vec::new(self.alloc);
        for i in 0..self.live.cells.len() {
            let Ok(place) = u32::try_from(i) else { break };
            let cell = &self.live.cells[i];
            if self.is_asked(field, cell) {
                let sine = cell.sine;
                asked.push(Asked { sine, place })?;
            }
        }
        asked.sort_unstable();
        Ok(asked)
    }

    /// Moves a corner of a tetrahedron, and reports whether one was moved.
    fn shift_corners(&mut self, cell: &Cell, trials: &mut Trials) -> Result<bool, NoMemory> {
        for v in cell.corners {
            if self.shift(v, cell, false, trials)? {
                return Ok(true);
            }
        }
        Ok(false)
    }

    /// Moves a point across a face of a tetrahedron, and reports whether one was moved.
    fn shift_across(&mut self, cell: &Cell, trials: &mut Trials) -> Result<bool, NoMemory> {
        for k in 0..4 {
            if let Some(v) = corner_across(&self.live, cell, k) {
                if self.shift(v, cell, true, trials)? {
                    return Ok(true);
                }
            }
        }
        Ok(false)
    }

    /// Betters a tetrahedron, and reports whether it could be.
    fn better(
        &mut self,
        asked: &Asked,
        splits: bool,
        trials: &mut Trials,
    ) -> Result<bool, NoMemory> {
        let Some(cell) = self.live.live(asked.place).copied() else {
            return Ok(false);
        };
        if cell.sine != asked.sine {
            return Ok(false);
        }
        self.is_for_ratio = cell.sine >= self.aim;
        if self.shift_corners(&cell, trials)?
            || !self.is_for_ratio && self.shift_across(&cell, trials)?
            || splits && self.split(asked.place, &cell, trials)?
        {
            return Ok(true);
        }
        self.live.fail(asked.place);
        self.vain = self.vain.saturating_sub(1);
        Ok(false)
    }

    /// Betters all tetrahedra that are to be bettered, and reports how many could be.
    fn pass(
        &mut self,
        field: &Field,
        splits: bool,
        trials: &mut Trials,
    ) -> Result<usize, NoMemory> {
        let asked = self.asked(field)?;
        trials.set_most(asked.len(), self.live.cells.len());
        self.most_tries = if self.tries_many && asked.len() <= FEW {
            MANY
        } else {
            TRIES
        };
        let mut count = 0_usize;
        for asked in asked.as_slice() {
            if self.vain == 0 {
                break;
            }
            if self.better(asked, splits, trials)? {
                count = count.wrapping_add(1);
            }
        }
        Ok(count)
    }

    /// The points behind the first ones.
    fn points_from(&self, own: usize) -> Result<Points, NoMemory> {
        let mut points = Points::new(self.alloc);
        for vertex in self.live.vertices.get(own..).unwrap_or(&[]) {
            if let (Some(_), Some(p)) = (vertex.cell, grid_point(vertex.spot)) {
                points.push(p)?;
            }
        }
        Ok(points)
    }
}

/// The points that a mesh is to get in place of those behind the first ones so that its worst
/// dihedral angles grow, where some can be moved, taken out or put in for this.
pub fn improve(
    alloc: Global,
    points: &Points,
    tetrahedra: &TetList,
    triangles: &FacetTriangles,
    aim: &Aim,
    trials: &mut Trials,
) -> Result<Option<Points>, NoMemory> {
    let mesh = mesh_of(alloc, points, tetrahedra, triangles, aim.own)?;
    if !aim.sheds_slim && !has_flat(&mesh, aim) {
        return Ok(None);
    }
    let field = Field::new(alloc, &mesh, aim.own)?;
    let bounds = Bounds { ratio: aim.ratio };
    let live = live_of(alloc, &field, aim.own, bounds, aim.mosts)?;
    let mut mover = Mover::new(alloc, live, aim);
    let mut changed = 0_usize;
    for pass in 0..PASSES {
        let count = mover.pass(&field, pass > 0, trials)?;
        changed = changed.wrapping_add(count);
        if count == 0 && pass > 1 {
            break;
        }
    }
    if changed == 0 {
        return Ok(None);
    }
    Ok(Some(mover.points_from(aim.own)?))
}

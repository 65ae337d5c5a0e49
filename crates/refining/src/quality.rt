//! An instance of `Propose`: points by which tetrahedra come within the bounds of a goal, and by
//! which small dihedral angles grow where the goal has a least one.

use crate::goal::ShapeBounds;
use crate::progress::{Progress, slim_in};
use crate::propose::Propose;
use complex_mesh::ComplexMesh;
use geo_laws::Points;
use point_proposals::{Aim, FEW, propose};
use shape_improvement::{Grade, SPARE, Trials, grade_of, improve};
use std::alloc::Global;
use tet_ports::NoMemory;
use tet_shapes::{Ratio, squared_cosine};

/// The dihedral angle in degrees below which tetrahedra are mended.
const MENDED: u32 = 5;

/// How many meshes in turn may be no better than the best one before mending ends.
const PATIENCE: u32 = 2;

/// Proposes points while a tetrahedron is over a bound and the share of those over the ratio falls.
#[derive(Drop)]
pub struct Quality<'a> {
    shapes: &'a ShapeBounds,
    splits_boundary: bool,
    progress: Progress,
    /// The grade of the better mesh of the last comparison with this aim, if there was one.
    best: Option<Grade>,
    /// The grade of the mesh in which points are replaced next, where it is known.
    next: Option<Grade>,
    /// How many tetrahedra of that mesh are over the ratio, where it is known.
    slim: Option<usize>,
    /// Whether points are replaced for the least dihedral angles alone.
    is_mending: bool,
    /// How many meshes in turn were no better than the best one.
    vain: u32,
    /// Whether the last mesh had hardly fewer angles below the aim than the best one before.
    is_slow: bool,
}

impl<'a> Quality<'a> {
    /// For these bounds, before the first round. `splits_boundary` is whether points may be
    /// proposed on segments and in facets.
    pub fn new(shapes: &'a ShapeBounds, splits_boundary: bool) -> Self {
        Quality {
            shapes,
            splits_boundary,
            progress: Progress::new(),
            best: None,
            next: None,
            slim: None,
            is_mending: false,
            vain: 0,
            is_slow: false,
        }
    }

    /// Whether points are to be proposed for a mesh: where only the ratio is bounded, only while
    /// the share of tetrahedra over it falls.
    fn goes_on(&mut self, mesh: &ComplexMesh) -> bool {
        match self.shapes.ratio {
            Some(ratio) if self.shapes.volumes.is_none() => self.progress.goes_on(mesh, ratio),
            _ => true,
        }
    }

    /// What points are proposed for in a mesh.
    fn proposal<'b>(&'b self, mesh: &'b ComplexMesh, own: usize, halvings: u32) -> Aim<'b> {
        Aim {
            volumes: self.shapes.volumes.as_ref(),
            marks: &mesh.marks,
            ratio: self.shapes.ratio,
            halvings,
            own,
            splits_boundary: self.splits_boundary,
            leaves_few: false,
        }
    }

    /// For each tetrahedron of a mesh the greatest six-fold volume, where volumes are bounded.
    fn mosts(&self, alloc: Global, mesh: &ComplexMesh) -> Result<Vec<i128>, NoMemory> {
        let aim = self.proposal(mesh, 0, 0);
        aim.mosts(alloc, mesh.tetrahedra.len())
    }

    /// The squared cosine of the least dihedral angle that is aimed at.
    fn cosine(&self) -> Option<Ratio> {
        match self.shapes.angle {
            Some(angle) if self.is_mending => Some(squared_cosine(angle.min(MENDED))),
            _ => self.shapes.cosine,
        }
    }

    /// What an improvement of a mesh is asked for.
    fn improvement<'b>(
        &self,
        mosts: &'b [i128],
        own: usize,
        halvings: u32,
        sheds_slim: bool,
    ) -> shape_improvement::Aim<'b> {
        shape_improvement::Aim {
            mosts,
            ratio: self.shapes.ratio,
            cosine: self.cosine(),
            halvings,
            own,
            splits_boundary: self.splits_boundary,
            is_mending: self.is_mending,
            sheds_slim,
            tries_many: self.left_ratio().is_some(),
        }
    }

    /// The ratio, where volumes are bounded and angles aimed at too: then tetrahedra over the ratio
    /// are left to `improve` where they are few.
    fn left_ratio(&self) -> Option<Ratio> {
        if self.is_mending || self.shapes.cosine.is_none() || self.shapes.volumes.is_none() {
            return None;
        }
        self.shapes.ratio
    }

    /// Whether the tetrahedra of a mesh over the ratio are so few that they are left to `improve`.
    fn has_few(&self, mesh: &ComplexMesh) -> bool {
        match self.left_ratio() {
            Some(ratio) => slim_in(mesh, ratio) <= mesh.tetrahedra.len() / FEW,
            None => false,
        }
    }

    /// Whether a mesh has tetrahedra over the ratio that are left to `improve`.
    fn sheds_slim(&mut self, mesh: &ComplexMesh) -> bool {
        let Some(ratio) = self.left_ratio() else {
            return false;
        };
        let slim = match self.slim {
            Some(slim) => slim,
            None => slim_in(mesh, ratio),
        };
        self.slim = Some(slim);
        slim > 0 && slim <= mesh.tetrahedra.len() / FEW
    }

    /// Whether it is known that the mesh in which points are replaced has no angle below the aim.
    fn reaches_aim(&self) -> bool {
        match self.next {
            Some(grade) => grade.reaches(self.cosine()),
            None => false,
        }
    }

    /// The points of a mesh behind the first `own`, and those that split its few tetrahedra over
    /// the ratio, if there are such points.
    fn with_splits(
        &self,
        alloc: Global,
        mesh: &ComplexMesh,
        own: usize,
        halvings: u32,
    ) -> Result<Option<Points>, NoMemory> {
        let aim = self.proposal(mesh, own, halvings);
        let more = propose(alloc, &mesh.points, &mesh.tetrahedra, &mesh.triangles, &aim)?;
        if more.is_empty() {
            return Ok(None);
        }
        let mut all = Points::new(alloc);
        all.extend_from_slice(mesh.points.as_slice().get(own..).unwrap_or(&[]))?;
        all.extend_from_slice(more.as_slice())?;
        Ok(Some(all))
    }

    /// How many tetrahedra more may be over the ratio where so many angles are mended.
    fn spare(&self, mended: usize) -> usize {
        match usize::try_from(SPARE) {
            Ok(each) if self.is_mending => mended.saturating_mul(each),
            _ => 0,
        }
    }

    /// Whether a mesh has at most `spare` tetrahedra over the ratio more than another one, or very
    /// few.
    fn has_few_slim(&self, mesh: &ComplexMesh, than: &ComplexMesh, spare: usize) -> bool {
        let Some(ratio) = self.shapes.ratio else {
            return true;
        };
        let few = mesh.tetrahedra.len() / 2048;
        slim_in(mesh, ratio) <= slim_in(than, ratio).saturating_add(spare).max(few)
    }

    /// Whether a mesh has fewer tetrahedra over the ratio than another one, where these are left to
    /// `improve`.
    fn has_fewer_slim(&self, mesh: &ComplexMesh, than: &ComplexMesh) -> bool {
        match self.left_ratio() {
            Some(ratio) => slim_in(mesh, ratio) < slim_in(than, ratio),
            None => false,
        }
    }

    /// The grade of a mesh, but for the tetrahedra over the ratio.
    fn grade(&self, alloc: Global, mesh: &ComplexMesh, own: usize) -> Result<Grade, NoMemory> {
        let mosts = self.mosts(alloc, mesh)?;
        let mut aim = self.improvement(mosts.as_slice(), own, 0, false);
        aim.ratio = None;
        grade_of(alloc, &mesh.points, &mesh.tetrahedra, &mesh.triangles, &aim)
    }
}

impl<'a> Propose for Quality<'a> {
    fn propose(
        &mut self,
        alloc: Global,
        mesh: &ComplexMesh,
        own: usize,
        halvings: u32,
    ) -> Result<Points, NoMemory> {
        if !self.goes_on(mesh) {
            return Ok(Points::new(alloc));
        }
        let mut aim = self.proposal(mesh, own, halvings);
        aim.leaves_few = self.has_few(mesh);
        propose(alloc, &mesh.points, &mesh.tetrahedra, &mesh.triangles, &aim)
    }

    fn improve(
        &mut self,
        alloc: Global,
        mesh: &ComplexMesh,
        own: usize,
        halvings: u32,
    ) -> Result<Option<Points>, NoMemory> {
        if self.shapes.cosine.is_none() || self.is_mending && self.vain >= PATIENCE {
            return Ok(None);
        }
        let sheds_slim = self.sheds_slim(mesh);
        if (self.is_slow || self.reaches_aim()) && !sheds_slim {
            return Ok(None);
        }
        let mosts = self.mosts(alloc, mesh)?;
        let aim = self.improvement(mosts.as_slice(), own, halvings, sheds_slim);
        let mut trials = Trials::new(alloc);
        let improved = improve(
            alloc,
            &mesh.points,
            &mesh.tetrahedra,
            &mesh.triangles,
            &aim,
            &mut trials,
        )?;
        if improved.is_none() && sheds_slim && self.vain == 0 {
            return self.with_splits(alloc, mesh, own, halvings);
        }
        Ok(improved)
    }

    fn mend(&mut self) {
        self.is_mending = true;
        self.next = self.best;
        self.best = None;
        self.slim = None;
        self.vain = 0;
        self.is_slow = false;
    }

    fn is_better(
        &mut self,
        alloc: Global,
        mesh: &ComplexMesh,
        than: &ComplexMesh,
        own: usize,
    ) -> Result<bool, NoMemory> {
        let grade = self.grade(alloc, mesh, own)?;
        let best = match self.best {
            Some(best) => best,
            None => self.grade(alloc, than, own)?,
        };
        let spare = self.spare(grade.mended(&best));
        let is_better = if grade.is_better(&best) {
            self.has_few_slim(mesh, than, spare)
        } else {
            grade.is_as_good(&best) && self.has_fewer_slim(mesh, than)
        };
        self.is_slow = grade.mends_few(&best);
        self.next = Some(grade);
        self.slim = None;
        self.vain = if is_better {
            0
        } else {
            self.vain.saturating_add(1)
        };
        self.best = Some(if is_better { grade } else { best });
        Ok(is_better)
    }
}

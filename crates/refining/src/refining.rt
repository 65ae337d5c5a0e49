//! The rounds of a refinement: each adds points, or replaces those that were added, and meshes the
//! complex again.

ghost use Rattle.std.specs.Prelude.{◌≡◌, ◌≤◌, ◌<◌, ◌^◌, length, IfOk, IfErr, IfSome};
ghost use Rattle.run_steps.specs.Meshing.{IsMeshableBound, IsUnmeshed};
ghost use Rattle.run_steps.specs.Outputs.{IsWritable};
ghost use Rattle.run_steps.specs.Faults.{status_of_fault};
ghost use Rattle.refining.specs.Refining.{IsRefinedBehind, IsRefinedTo, IsTakenMesh, IsTurn};
ghost use Rattle.refining.specs.Rounds.{AreShown, frame_of};
ghost use Rattle.tet_shapes.specs.Shape.{IsFine};

use crate::addable::addable;
use crate::conforming::conforming_points;
use crate::corners::are_corners;
use crate::goal::ShapeBounds;
use crate::meshing::{mesh_plain, mesh_with};
use crate::part::Part;
use crate::placing::placed;
use crate::propose::Propose;
use crate::watch::{Frame, Watch, round_of};
use command_words::Options;
use complex_mesh::{ComplexMesh, MeshFault};
use geo_laws::Points;
use run_steps::{Bound, Meshed};
use std::alloc::Global;
use tet_ports::NoMemory;

/// The bounds of a refinement.
#[derive(Clone, Copy, Debug)]
pub struct Bounds<'a> {
    /// The bounds on the tetrahedra, which are counted.
    pub shapes: &'a ShapeBounds,
    /// How often a segment may be halved at least once points were added: each coordinate of these
    /// is a multiple of `2^halvings` grid units.
    pub halvings: u32,
    /// The most rounds in which points are added.
    pub rounds: u32,
    /// The most points that are added.
    pub added: usize,
    /// The most points of the complex and added ones together.
    pub most: usize,
}

/// A mesh of a complex with the points that were added to it, and the number of rounds that added
/// points.
#[derive(Drop)]
pub struct Refined {
    pub added: Points,
    /// How often a segment may be halved.
    pub halvings: u32,
    pub mesh: Meshed,
    pub rounds: u32,
}

/// A mesh of the complex with some added points.
#[derive(Drop)]
struct Taken {
    added: Points,
    halvings: u32,
    made: ComplexMesh,
}

/// The most points that are meshed: that of the bounds, but at most 2^30.
fn most_of(bounds: &Bounds<'_>) -> usize
    ensures { result ≤ 2 ^ 30 }
{
    bounds.most.min(1_073_741_824)
}

/// What a round comes to.
#[derive(Drop)]
enum Turn {
    /// No point is proposed that may be added.
    Done,
    /// The complex has no mesh with the points, or one in which some of them are no corners.
    Refused,
    /// A mesh with the points.
    More(Taken),
}

/// The mesh of a complex with added points, where it has one in which each of them is a corner.
fn meshed(
    alloc: Global,
    options: &Options,
    bound: &Bound,
    added: Points,
    halvings: u32,
    most: usize,
) -> Result<Turn, NoMemory>
    requires bound { IsMeshableBound options.now bound.now }
    requires halvings { halvings ≤ bound.now.table.grid.halvings }
    requires most { most ≤ 2 ^ 30 }
    requires some { 0 < length added }
    ensures { IfOk result (IsTurn options.now bound.now) }
{
    let own = bound.table.points.len();
    let Ok(made) = mesh_with(alloc, options, bound, &added, halvings, most) else {
        return Ok(Turn::Refused);
    };
    if are_corners(alloc, &made.tetrahedra, own, added.len())? {
        Ok(Turn::More(Taken {
            added,
            halvings,
            made,
        }))
    } else {
        Ok(Turn::Refused)
    }
}

/// A complex whose mesh is refined, and the bounds of that.
#[derive(Clone, Copy)]
struct Task<'a> {
    options: &'a Options,
    bound: &'a Bound,
    bounds: &'a Bounds<'a>,
}

/// How often a segment may be halved where points are added to a mesh, or its added points are
/// replaced: as often as there, and as often as the bounds tell where it has none.
fn halvings_behind(bound: &Bound, bounds: &Bounds<'_>, taken: &Taken) -> u32
    ensures { result ≤ bound.now.table.grid.halvings }
{
    let halvings = if taken.added.is_empty() {
        bounds.halvings
    } else {
        taken.halvings
    };
    halvings.min(bound.table.grid.halvings)
}

/// How the points of a round are chosen.
#[derive(Clone, Copy)]
struct Step {
    /// Each coordinate of a point that is added is a multiple of `2^halvings` grid units.
    halvings: u32,
    part: Part,
    /// How many rounds before this one were refused or added no point, one after the other.
    refused: u32,
    /// Whether the last quarter of the model was refused.
    is_spent: bool,
}

/// How many halvings more are left to protection after a round that is refused.
const MORE_HALVINGS: u32 = 2;

impl Step {
    /// The first step of a refinement from a mesh: the points that it has stay multiples.
    fn first(bound: &Bound, bounds: &Bounds<'_>, taken: &Taken) -> Step {
        Step {
            halvings: halvings_behind(bound, bounds, taken),
            part: Part::whole(&bound.table.points),
            refused: 0,
            is_spent: false,
        }
    }

    /// The step after a round whose mesh was made.
    fn after_mesh(&self) -> Step {
        Step {
            halvings: self.halvings,
            part: self.part.after_mesh(),
            refused: 0,
            is_spent: false,
        }
    }

    /// The step after a refused round, where the grid has `most` halvings: points are to be
    /// multiples of more units, so that protection has more halvings, as far as there are more;
    /// then they are added to those of the last mesh in one quarter of the model after the other.
    fn after_refusal(&self, taken: &Taken, most: u32) -> Step {
        let more = self.halvings.saturating_add(MORE_HALVINGS);
        let refused = self.refused.saturating_add(1);
        if self.part.is_whole() && more < most {
            return Step {
                halvings: more,
                part: self.part,
                refused,
                is_spent: false,
            };
        }
        let halvings = if taken.added.is_empty() {
            self.halvings
        } else {
            taken.halvings
        };
        let part = self.part.next();
        Step {
            halvings,
            part,
            refused,
            is_spent: part.is_whole(),
        }
    }
}

/// A mesh with more points than `taken` has, where some are proposed in the part and the complex
/// has a mesh with them. The points of protection are added with them, since few halvings are left
/// to it.
fn next_taken<P: Propose>(
    alloc: Global,
    task: Task<'_>,
    step: &Step,
    taken: &Taken,
    proposer: &mut P,
) -> Result<Turn, NoMemory>
    requires bound { IsMeshableBound task.options.now task.bound.now }
    ensures { IfOk result (IsTurn task.entry.options.now task.entry.bound.now) }
{
    let Task {
        options,
        bound,
        bounds,
    } = task;
    let own = bound.table.points.len();
    let halvings = step.halvings.min(bound.table.grid.halvings);
    let proposed = proposer.propose(alloc, &taken.made, own, halvings)?;
    if proposed.is_empty() {
        return Ok(Turn::Done);
    }
    let known = own.saturating_add(taken.added.len());
    let proposed = step
        .part
        .with_protection(alloc, &taken.made, known, &proposed)?;
    let points = &bound.table.points;
    let more = addable(
        alloc,
        points,
        &taken.added,
        &proposed,
        halvings,
        bounds.added,
    )?;
    if !more.is_empty() && more.len() > taken.added.len() {
        meshed(alloc, options, bound, more, halvings, most_of(bounds))
    } else if step.refused == 0 && step.part.is_whole() {
        Ok(Turn::Done)
    } else {
        Ok(Turn::Refused)
    }
}

/// What the coordinates of the meshes of a complex are in.
fn frame_of(options: &Options, bound: &Bound) -> Frame
    ensures { result ≡ frame_of options.now bound.now }
{
    Frame {
        grid: bound.table.grid,
        origin: options.origin,
    }
}

/// Shows the mesh of a round, where that is asked for.
fn show<W: Watch>(
    alloc: Global,
    task: Task<'_>,
    taken: &Taken,
    watch: &mut W,
) -> Result<(), NoMemory>
    requires bound { IsMeshableBound task.options.now task.bound.now }
    requires taken { IsTakenMesh task.options.now task.bound.now taken.now }
    requires fine { IfSome task.bounds.now.shapes.now.ratio IsFine }
    ensures { AreShown W.shown task.entry.bounds.now.shapes.now task.entry.options.now
        task.entry.bound.now watch.old watch.new }
{
    if watch.asks() {
        let frame = frame_of(task.options, task.bound);
        let round = round_of(&taken.made, task.bounds.shapes, frame);
        watch.show(alloc, &round)?;
    }
    Ok(())
}

/// A mesh, and the number of rounds that led to it.
#[derive(Drop)]
struct Rounds {
    taken: Taken,
    rounds: u32,
}

/// The mesh after the last round from `first` on. After a round whose mesh is refused the next one
/// adds other points to those of the last mesh; the rounds end after some that are refused.
fn taken_last<P: Propose, W: Watch>(
    alloc: Global,
    task: Task<'_>,
    first: Taken,
    proposer: &mut P,
    watch: &mut W,
) -> Result<Rounds, NoMemory>
    requires bound { IsMeshableBound task.options.now task.bound.now }
    requires first { IsTakenMesh task.options.now task.bound.now first }
    requires fine { IfSome task.bounds.now.shapes.now.ratio IsFine }
    ensures taken { IfOk result (λ last.
        IsTakenMesh task.entry.options.now task.entry.bound.now last.taken) }
    ensures rounds { IfOk result (λ last. last.rounds ≤ task.entry.bounds.now.rounds) }
    ensures shown { AreShown W.shown task.entry.bounds.now.shapes.now task.entry.options.now
        task.entry.bound.now watch.old watch.new }
{
    let Task { bound, bounds, .. } = task;
    let mut step = Step::first(bound, bounds, &first);
    let mut taken = first;
    for rounds in 0..bounds.rounds {
        match next_taken(alloc, task, &step, &taken, proposer)? {
            Turn::Done => return Ok(Rounds { taken, rounds }),
            Turn::More(next) => {
                show(alloc, task, &next, watch)?;
                taken = next;
                step = step.after_mesh();
            }
            Turn::Refused => {
                step = step.after_refusal(&taken, bound.table.grid.halvings);
                if step.is_spent {
                    return Ok(Rounds { taken, rounds });
                }
            }
        }
    }
    Ok(Rounds {
        taken,
        rounds: bounds.rounds,
    })
}

/// The most rounds in which the added points are replaced.
const IMPROVEMENTS: u32 = 6;

/// A mesh with other points in place of those of `taken` in a part of the model, where some are
/// proposed and the complex has a mesh with them. With the points that were added before, the mesh
/// would be the one that is there: no other points are proposed then.
fn next_improved<P: Propose>(
    alloc: Global,
    task: Task<'_>,
    part: &Part,
    taken: &Taken,
    proposer: &mut P,
) -> Result<Turn, NoMemory>
    requires bound { IsMeshableBound task.options.now task.bound.now }
    ensures { IfOk result (IsTurn task.entry.options.now task.entry.bound.now) }
{
    let Task {
        options,
        bound,
        bounds,
    } = task;
    let own = bound.table.points.len();
    let halvings = halvings_behind(bound, bounds, taken);
    let Some(proposed) = proposer.improve(alloc, &taken.made, own, halvings)? else {
        return Ok(Turn::Done);
    };
    let proposed = part.exchanged(alloc, &taken.made, own, &proposed)?;
    let points = &bound.table.points;
    let none = Points::new(alloc);
    let added = addable(alloc, points, &none, &proposed, halvings, bounds.added)?;
    if added.is_empty() {
        return Ok(Turn::Done);
    }
    if added.as_slice() == taken.added.as_slice() {
        return Ok(if part.is_whole() {
            Turn::Done
        } else {
            Turn::Refused
        });
    }
    meshed(alloc, options, bound, added, halvings, most_of(bounds))
}

/// The mesh whose points are to be replaced: the last one, where there is one that is not the best.
fn base<'a>(best: &'a Taken, last: &'a Option<Taken>) -> &'a Taken {
    match last {
        Some(last) => last,
        None => best,
    }
}

/// The best of the meshes of some rounds from `first` on, each with points in place of those of the
/// one before. A mesh that is no better than the best one is only where the next round begins.
/// After a refused mesh points are replaced in one quarter of the model after the other.
fn improved<P: Propose, W: Watch>(
    alloc: Global,
    task: Task<'_>,
    first: Taken,
    proposer: &mut P,
    watch: &mut W,
) -> Result<Taken, NoMemory>
    requires bound { IsMeshableBound task.options.now task.bound.now }
    requires first { IsTakenMesh task.options.now task.bound.now first }
    requires fine { IfSome task.bounds.now.shapes.now.ratio IsFine }
    ensures taken { IfOk result (IsTakenMesh task.entry.options.now task.entry.bound.now) }
    ensures shown { AreShown W.shown task.entry.bounds.now.shapes.now task.entry.options.now
        task.entry.bound.now watch.old watch.new }
{
    let own = task.bound.table.points.len();
    let mut best = first;
    let mut last = None;
    let mut part = Part::whole(&task.bound.table.points);
    for _ in 0..IMPROVEMENTS {
        match next_improved(alloc, task, &part, base(&best, &last), proposer)? {
            Turn::Done => break,
            Turn::Refused => {
                part = part.next();
                if part.is_whole() {
                    break;
                }
            }
            Turn::More(next) => {
                show(alloc, task, &next, watch)?;
                part = part.after_mesh();
                if proposer.is_better(alloc, &next.made, &best.made, own)? {
                    best = next;
                    last = None;
                } else {
                    last = Some(next);
                }
            }
        }
    }
    Ok(best)
}

/// The best mesh of all rounds from `first` on, each of which is shown, and the number of those in
/// which points are added.
fn best_of<P: Propose, W: Watch>(
    alloc: Global,
    task: Task<'_>,
    first: Taken,
    proposer: &mut P,
    watch: &mut W,
) -> Result<Rounds, NoMemory>
    requires bound { IsMeshableBound task.options.now task.bound.now }
    requires first { IsTakenMesh task.options.now task.bound.now first }
    requires fine { IfSome task.bounds.now.shapes.now.ratio IsFine }
    ensures taken { IfOk result (λ last.
        IsTakenMesh task.entry.options.now task.entry.bound.now last.taken) }
    ensures rounds { IfOk result (λ last. last.rounds ≤ task.entry.bounds.now.rounds) }
    ensures shown { AreShown W.shown task.entry.bounds.now.shapes.now task.entry.options.now
        task.entry.bound.now watch.old watch.new }
{
    show(alloc, task, &first, watch)?;
    let Rounds { taken, rounds } = taken_last(alloc, task, first, proposer, watch)?;
    let taken = improved(alloc, task, taken, proposer, watch)?;
    proposer.mend();
    let taken = improved(alloc, task, taken, proposer, watch)?;
    Ok(Rounds { taken, rounds })
}

/// What is refined, from the mesh of the last round.
fn refined_by(
    alloc: Global,
    options: &Options,
    bound: Bound,
    last: Rounds,
) -> Result<Refined, NoMemory>
    requires bound { IsMeshableBound options.now bound }
    requires taken { IsTakenMesh options.now bound last.taken }
    ensures behind { IfOk result (IsRefinedBehind options.now bound) }
    ensures rounds { IfOk result (λ refined. refined.rounds ≡ last.rounds) }
    ensures writable { IfOk result (λ refined. IsWritable refined.mesh) }
{
    let Rounds { taken, rounds } = last;
    let Taken {
        added,
        halvings,
        made,
    } = taken;
    let mesh = placed(alloc, options, bound, made)?;
    Ok(Refined {
        added,
        halvings,
        mesh,
        rounds,
    })
}

/// The mesh of a complex with the points that are proposed, round by round: each round's points are
/// kept where the complex has a mesh with them. The rounds end where no point is added, or at the
/// bounds; then the added points are replaced where this is better. `watch` is shown each mesh. It
/// refuses the complex as `mesh_plain` does; or when out of memory.
pub(crate) fn refine<P: Propose, W: Watch>(
    alloc: Global,
    options: &Options,
    bound: Bound,
    bounds: &Bounds<'_>,
    proposer: &mut P,
    watch: &mut W,
) -> Result<Refined, MeshFault>
    requires bound { IsMeshableBound options.now bound }
    requires fine { IfSome bounds.now.shapes.now.ratio IsFine }
    ensures refined { IfOk result (IsRefinedTo options.now bound bounds.now) }
    ensures refused { IfErr result (λ fault. IsUnmeshed options.now bound (status_of_fault fault)) }
    ensures writable { IfOk result (λ refined. IsWritable refined.mesh) }
    ensures shown { AreShown W.shown bounds.now.shapes.now options.now bound watch.old watch.new }
{
    let made = mesh_plain(alloc, options, &bound)?;
    let first = Taken {
        added: Points::new(alloc),
        halvings: bound.table.grid.halvings,
        made,
    };
    let task = Task {
        options,
        bound: &bound,
        bounds,
    };
    let last = best_of(alloc, task, first, proposer, watch)?;
    let refined = refined_by(alloc, options, bound, last)?;
    Ok(refined)
}

/// The mesh of a complex with points on its segments by which its subsegments are edges, where it
/// has one; the coordinates of the points are multiples of `2^halvings` grid units.
fn conformed_with(alloc: Global, task: Task<'_>, halvings: u32) -> Result<Option<Taken>, NoMemory>
    requires bound { IsMeshableBound task.options.now task.bound.now }
    requires halvings { halvings ≤ task.bound.now.table.grid.halvings }
    ensures { IfOk result
        (λ made. IfSome made (IsTakenMesh task.entry.options.now task.entry.bound.now)) }
{
    let Task {
        options,
        bound,
        bounds,
    } = task;
    let most = most_of(bounds);
    let proposed = conforming_points(alloc, options, bound, halvings, most)?;
    let points = &bound.table.points;
    let none = Points::new(alloc);
    let added = addable(alloc, points, &none, &proposed, halvings, bounds.added)?;
    if added.is_empty() {
        return Ok(None);
    }
    match meshed(alloc, options, bound, added, halvings, most)? {
        Turn::More(taken) => Ok(Some(taken)),
        _ => Ok(None),
    }
}

/// The mesh of a complex with points on its segments: at places that leave halvings to protection,
/// or else at any places of the grid.
fn conformed(alloc: Global, task: Task<'_>) -> Result<Option<Taken>, NoMemory>
    requires bound { IsMeshableBound task.options.now task.bound.now }
    ensures { IfOk result
        (λ made. IfSome made (IsTakenMesh task.entry.options.now task.entry.bound.now)) }
{
    let halvings = task.bounds.halvings.min(task.bound.table.grid.halvings);
    if let Some(taken) = conformed_with(alloc, task, halvings)? {
        return Ok(Some(taken));
    }
    conformed_with(alloc, task, 0)
}

/// The rounds of a complex from its mesh with points on its segments, where it has one.
fn conforming_rounds<P: Propose, W: Watch>(
    alloc: Global,
    task: Task<'_>,
    proposer: &mut P,
    watch: &mut W,
) -> Result<Option<Rounds>, NoMemory>
    requires bound { IsMeshableBound task.options.now task.bound.now }
    requires fine { IfSome task.bounds.now.shapes.now.ratio IsFine }
    ensures taken { IfOk result (λ made. IfSome made (λ last.
        IsTakenMesh task.entry.options.now task.entry.bound.now last.taken)) }
    ensures shown { AreShown W.shown task.entry.bounds.now.shapes.now task.entry.options.now
        task.entry.bound.now watch.old watch.new }
{
    let Some(first) = conformed(alloc, task)? else {
        return Ok(None);
    };
    Ok(Some(best_of(alloc, task, first, proposer, watch)?))
}

/// As `refine`, of a complex that has no mesh without further points, where it has one with points
/// on its segments, which are the first that are added.
pub(crate) fn refine_conforming<P: Propose, W: Watch>(
    alloc: Global,
    options: &Options,
    bound: Bound,
    bounds: &Bounds<'_>,
    proposer: &mut P,
    watch: &mut W,
) -> Result<Option<Refined>, NoMemory>
    requires bound { IsMeshableBound options.now bound }
    requires fine { IfSome bounds.now.shapes.now.ratio IsFine }
    ensures behind { IfOk result (λ made. IfSome made (IsRefinedBehind options.now bound)) }
    ensures writable { IfOk result (λ made. IfSome made (λ refined. IsWritable refined.mesh)) }
    ensures shown { AreShown W.shown bounds.now.shapes.now options.now bound watch.old watch.new }
{
    let task = Task {
        options,
        bound: &bound,
        bounds,
    };
    let Some(last) = conforming_rounds(alloc, task, proposer, watch)? else {
        return Ok(None);
    };
    Ok(Some(refined_by(alloc, options, bound, last)?))
}

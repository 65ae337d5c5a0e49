//! The stages of a mesh, said where the words ask for them.

ghost use Rattle.std.specs.Prelude.{◌≡◌, ◌++◌, ◌∷◌, [], true, IfOk, OnOk};
ghost use Rattle.refining.specs.Rounds.{IsPrintable};
ghost use Rattle.run_steps.specs.Reports.{counted_text};
ghost use Rattle.tetfit_run.specs.Coordinates.{least_text, greatest_text};
ghost use Rattle.tetfit_run.specs.Stages.{is_mesh, says_stages, stage_text, round_text, IsSaid};

use crate::coordinates::{append_greatest, append_least};
use crate::request::{Request, asks_stages, request_of};
use mesh_check::append_number;
use refining::{Round, Watch};
use run_steps::append_counted;
use std::alloc::Global;
use tet_ports::{Bytes, NoMemory, Sink, Words};

/// The stage before the model is read.
pub(crate) const READS: &[u8] = b"tetfit: reads and meshes the model\n";

/// The stage once all texts are made.
pub(crate) const STORES: &[u8] = b"tetfit: stores the files\n";

fn is_mesh(request: Request) -> bool
    ensures { result ≡ is_mesh request }
{
    matches!(request, Request::Mesh)
}

/// Whether the words ask for a mesh and for its stages.
pub(crate) fn says_stages(words: &Words) -> bool
    ensures { result ≡ says_stages words.now }
{
    asks_stages(words) && is_mesh(request_of(words))
}

/// Writes the line of a stage, where stages are said and all before it were put whole, and answers
/// whether the next one may be written; a failure changes nothing else.
fn put_stage<E: Sink>(says: bool, goes_on: bool, stage: &[u8], err: &mut E) -> bool
    ensures { IsSaid goes_on result (stage_text says stage.now)
        (E.state err.old) (E.state err.new) }
{
    if says && goes_on {
        err.put(stage).is_ok()
    } else {
        goes_on
    }
}

/// The line of a round: the numbers of points and of tetrahedra of its mesh, and of those that are
/// beyond each bound; then where the mesh is worst.
fn round_line(alloc: Global, round: &Round) -> Result<Bytes, NoMemory>
    requires { IsPrintable round.now.frame }
    ensures { IfOk result (λ line. line ≡ round_text round.now) }
{
    let mut line = Bytes::from_slice(alloc, b"tetfit: points ")?;
    append_number(&mut line, round.points)?;
    line.append(b" tetrahedra ")?;
    append_number(&mut line, round.tetrahedra)?;
    append_counted(&mut line, b" over ", round.counts.over)?;
    append_counted(&mut line, b" slim ", round.counts.slim)?;
    append_counted(&mut line, b" flat ", round.counts.flat)?;
    append_least(&mut line, &round.frame, &round.worst.angle)?;
    append_greatest(&mut line, &round.frame, &round.worst.ratio)?;
    line.append(b"\n")?;
    Ok(line)
}

/// Says stages, as long as each is put whole.
#[derive(Drop)]
pub(crate) struct Stages<'a, E: Sink> {
    err: &'a mut E,
    says: bool,
    goes_on: bool,
}

impl<'a, E: Sink> Stages<'a, E> {
    /// Nothing is said yet; `says` is whether stages are said.
    pub(crate) fn new(err: &'a mut E, says: bool) -> Stages<'a, E>
        ensures same_reference { result.err.ghost_name ≡ err.entry.ghost_name }
        ensures kept { result.err.now ≡ err.old }
        ensures says { result.says ≡ says }
        ensures goes_on { result.goes_on ≡ true }
    {
        Stages {
            err,
            says,
            goes_on: true,
        }
    }

    /// Says a stage.
    pub(crate) fn say(&mut self, stage: &[u8])
        ensures same_reference { self.new.err.ghost_name ≡ self.old.err.ghost_name }
        ensures says { self.new.says ≡ self.old.says }
        ensures said { IsSaid self.old.goes_on self.new.goes_on
            (stage_text self.old.says stage.now) (E.state self.old.err.now)
            (E.state self.new.err.now) }
    {
        self.goes_on = put_stage(self.says, self.goes_on, stage, self.err);
    }
}

impl<'a, E: Sink> Watch for Stages<'a, E> {
    ghost use Rattle.std.proofs.Common.{◌≡◌, refl, ◌∙◌, subst};
    ghost use Rattle.tetfit_run.specs.Said.{more_rounds, no_rounds};
    ghost use Rattle.tetfit_run.specs.Stages.{IsSaid, rounds_text, stage_text};

    ghost shown = { λ rounds s t. (s.err.ghost_name ≡ t.err.ghost_name) × (t.says ≡ s.says)
        × IsSaid s.goes_on t.goes_on (stage_text s.says (rounds_text rounds))
        (E.state s.err.now) (E.state t.err.now) };

    ghost nothing = { λ s. (refl, refl, no_rounds s.says s.goes_on (E.state s.err.now)) };

    ghost both = { λ a b s t u p q. (
      p.0 ∙ q.0,
      q.1 ∙ p.1,
      more_rounds s.says s.goes_on t.goes_on u.goes_on a b (E.state s.err.now)
          (E.state t.err.now) (E.state u.err.now) p.2
          (subst (λ says. IsSaid t.goes_on u.goes_on (stage_text says (rounds_text b))
          (E.state t.err.now) (E.state u.err.now)) p.1 q.2),
    ) };

    fn asks(&self) -> bool {
        self.says && self.goes_on
    }

    fn show(&mut self, alloc: Global, round: &Round) -> Result<(), NoMemory> {
        let line = round_line(alloc, round)?;
        self.say(line.as_slice());
        Ok(())
    }
}

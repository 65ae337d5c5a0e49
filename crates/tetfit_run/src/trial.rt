//! An input that is tried, with the options of the try, within limits.

ghost use Rattle.std.specs.Prelude.{◌≡◌, IfOk};
ghost use Rattle.node_files.specs.Limits.{AreIndexable};
ghost use Rattle.run_steps.specs.Meshing.{IsMeshableBound};
ghost use Rattle.run_steps.specs.Reading.{IsSound};
ghost use Rattle.tetfit_run.specs.Measured.{BoundTried, tried};
ghost use Rattle.tetfit_run.specs.Trial.{trial_of, AreInTriedRange};

use crate::rounded::{bind_rounded, decimals_over};
use command_words::Options;
use node_files::{Limits, NodeText};
use run_steps::{Bound, Input, Status, bind_nodes};
use std::alloc::Global;
use std::marker::Model;

/// A trial: an input with options and limits, which by its invariant the steps after reading
/// accept.
#[derive(Drop)]
pub(crate) struct Trial<'a> {
    pub(crate) limits: Limits,
    pub(crate) options: &'a Options,
    pub(crate) input: &'a Input,
}

impl<'a> Model for Trial<'a> {
    ghost use Rattle.tetfit_run.specs.Trial.{MayBeTried, TrialValue, trial_of as seen_of};

    ghost Value = { TrialValue };

    ghost view = { λ t. seen_of t.limits t.options.now t.input.now };

    ghost invariant = { λ t. MayBeTried t.limits t.options.now t.input.now };
}

impl<'a> Trial<'a> {
    pub(crate) fn new(limits: Limits, options: &'a Options, input: &'a Input) -> Self
        requires limits { AreIndexable limits }
        requires input { IsSound input.now }
        requires ranges { AreInTriedRange options.now }
        ensures { result ≡ trial_of limits options.now input.now }
    {
        Trial {
            limits,
            options,
            input,
        }
    }

    /// Binds the points and the complex to their grid; `nodes` is a copy of the input's points as
    /// they are tried.
    pub(crate) fn bind(&self, alloc: Global, nodes: NodeText) -> Result<Bound, Status>
        requires { nodes ≡ (tried self.now.options self.now.input).nodes }
        ensures answer { BoundTried self.now.limits self.now.options self.now.input result }
        ensures meshable { IfOk result (IsMeshableBound self.now.options) }
    {
        match decimals_over(self.options) {
            Some(m) => {
                bind_rounded(
                    alloc,
                    self.limits,
                    self.options,
                    m,
                    nodes,
                    &self.input.complex,
                )
            }
            None => bind_nodes(alloc, self.limits, self.options, nodes, &self.input.complex),
        }
    }
}

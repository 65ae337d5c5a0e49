//! Copies of the options and the point list, which each trial consumes.

ghost use Rattle.std.specs.Prelude.{◌≡◌, IfOk};
ghost use Rattle.tetfit_run.specs.Hints.{with_budget};
ghost use Rattle.tetfit_run.specs.Measured.{nodes_by, points_by};
ghost use Rattle.tetfit_run.specs.Trial.{AreInTriedRange};
ghost use Rattle.tetfit_run.specs.Trying.{at_decimals, without_decimals};

use command_words::Options;
use grid_coords::{DecimalPoints, WholePoint};
use node_files::{Markers, NodeText, each_measured_from};
use std::alloc::Global;
use tet_ports::{Name, NoMemory, Words};

/// Copies the name of the model.
fn base_of(alloc: Global, options: &Options) -> Result<Name, NoMemory>
    ensures { IfOk result (λ base. base ≡ options.now.base) }
{
    Name::from_slice(alloc, options.base.as_slice())
}

/// Copies the options, with `decimals` for their number of decimals.
pub(crate) fn at_decimals(
    alloc: Global,
    options: &Options,
    decimals: u32,
) -> Result<Options, NoMemory>
    ensures { IfOk result (λ made. made ≡ at_decimals decimals options.now) }
{
    let base = base_of(alloc, options)?;
    Ok(Options {
        decimals: Some(decimals),
        base,
        ..*options
    })
}

/// Copies the options without a number of decimals, so that coordinates stay as they are.
pub(crate) fn without_decimals(alloc: Global, options: &Options) -> Result<Options, NoMemory>
    ensures { IfOk result (λ made. made ≡ without_decimals options.now) }
{
    let base = base_of(alloc, options)?;
    Ok(Options {
        decimals: None,
        base,
        ..*options
    })
}

/// Copies the options, with coordinates measured from `origin`, where there is one.
pub(crate) fn with_origin(
    alloc: Global,
    options: &Options,
    origin: Option<WholePoint>,
) -> Result<Options, NoMemory>
    ensures { IfOk result (λ made. made ≡ record options.now { origin = origin }) }
{
    let base = base_of(alloc, options)?;
    Ok(Options {
        origin,
        base,
        ..*options
    })
}

/// Copies the options, with at most `budget` points added.
pub(crate) fn with_budget(
    alloc: Global,
    options: &Options,
    budget: u32,
) -> Result<Options, NoMemory>
    ensures { IfOk result (λ made. made ≡ with_budget budget options.now) }
{
    let base = base_of(alloc, options)?;
    Ok(Options {
        budget,
        base,
        ..*options
    })
}

fn words_of(alloc: Global, words: &Words) -> Result<Words, NoMemory>
    ensures { IfOk result (λ made. made ≡ words.now) }
{
    let mut made = Words::with_capacity(alloc, words.len())?;
    for word in words.as_slice() {
        made.push(Name::from_slice(alloc, word.as_slice())?)?;
    }
    Ok(made)
}

fn decimals_of(alloc: Global, points: &DecimalPoints) -> Result<DecimalPoints, NoMemory>
    ensures { IfOk result (λ made. made ≡ points.now) }
{
    let mut made = DecimalPoints::with_capacity(alloc, points.len())?;
    made.extend_from_slice(points.as_slice())?;
    Ok(made)
}

fn markers_of(alloc: Global, markers: &Markers) -> Result<Markers, NoMemory>
    ensures { IfOk result (λ made. made ≡ markers.now) }
{
    let mut made = Markers::with_capacity(alloc, markers.len())?;
    made.extend_from_slice(markers.as_slice())?;
    Ok(made)
}

/// The points as they are tried: rounded and measured from the origin of the options, where these
/// have one, or copied.
fn tried_points(
    alloc: Global,
    options: &Options,
    points: &DecimalPoints,
) -> Result<DecimalPoints, NoMemory>
    requires { AreInTriedRange options.now }
    ensures { IfOk result
        (λ made. made ≡ points_by options.now.origin options.now.decimals points.now) }
{
    match (options.origin, options.decimals) {
        (Some(w), Some(decimals)) => each_measured_from(alloc, w, decimals, points.as_slice()),
        _ => decimals_of(alloc, points),
    }
}

/// A copy of the point list as it is tried with the options.
pub(crate) fn tried_nodes(
    alloc: Global,
    options: &Options,
    nodes: &NodeText,
) -> Result<NodeText, NoMemory>
    requires { AreInTriedRange options.now }
    ensures { IfOk result
        (λ made. made ≡ nodes_by options.now.origin options.now.decimals nodes.now) }
{
    let decimals = tried_points(alloc, options, &nodes.decimals)?;
    let attributes = words_of(alloc, &nodes.attributes)?;
    let markers = markers_of(alloc, &nodes.markers)?;
    Ok(NodeText {
        first: nodes.first,
        attribute_count: nodes.attribute_count,
        flag: nodes.flag,
        decimals,
        attributes,
        markers,
    })
}

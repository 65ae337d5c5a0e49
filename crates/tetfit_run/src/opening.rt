//! The line on a model whose mesh has no tetrahedron: a side that no other facet covers, or that
//! hole points carve all of it.

ghost use Rattle.std.specs.Prelude.{◌≡◌, ◌<◌, ◌^◌, length, IfOk};
ghost use Rattle.node_files.specs.Limits.{AreIndexable};
ghost use Rattle.run_steps.specs.Meshing.{IsMeshableBound};
ghost use Rattle.run_steps.specs.Numbering.{numbering_of};
ghost use Rattle.run_steps.specs.Reading.{IsSound};
ghost use Rattle.geo_laws.specs.Complex.{HasCornersOf};
ghost use Rattle.tetfit_run.specs.Opening.{carved_line, shared_line, either_line, has_holes, is_empty};
ghost use Rattle.tetfit_run.specs.Opening.{open_line, side_line, surface_line};
ghost use Rattle.tetfit_run.specs.Opening.{TellsCarved, TellsCarvedBy, TellsOpening, TellsOpeningBy};
ghost use Rattle.tetfit_run.specs.Trial.{AreInTriedRange};
ghost use Rattle.tetfit_run.specs.Trying.{at_decimals};

use crate::copies::{at_decimals, tried_nodes};
use crate::holes::without_hole_points;
use crate::places::append_name;
use crate::sides::{FacetSide, first_open};
use crate::trial::Trial;
use command_words::Options;
use geo_laws::Piece;
use mesh_check::append_number;
use node_files::Limits;
use run_steps::{Bound, Input, Numbering, Outputs, Status, mesh_outputs, numbering_of};
use std::alloc::Global;
use tet_ports::{Bytes, NoMemory};

// ---- an open side

fn shared_line(alloc: Global) -> Result<Bytes, NoMemory>
    ensures { IfOk result (λ line. line ≡ shared_line) }
{
    Bytes::from_slice(
        alloc,
        b"tetfit: each side of a facet is shared, at least in part\n",
    )
}

/// The line that names a facet and its side that no other facet covers.
fn open_line(alloc: Global, by: &Numbering, side: Piece, facet: u32) -> Result<Bytes, NoMemory>
    ensures { IfOk result (λ line. line ≡ open_line by.now side facet) }
{
    let mut text = Bytes::from_slice(alloc, b"tetfit: the surface is open: only facet ")?;
    append_number(&mut text, facet as usize + 1)?;
    text.append(b" has the side")?;
    append_name(&mut text, by, side.a.min(side.b))?;
    append_name(&mut text, by, side.a.max(side.b))?;
    text.append(b"\n")?;
    Ok(text)
}

/// The line on an open side, or that there is none.
fn side_line(alloc: Global, by: &Numbering, found: Option<FacetSide>) -> Result<Bytes, NoMemory>
    ensures { IfOk result (λ line. line ≡ side_line by.now found) }
{
    match found {
        Some(s) => open_line(alloc, by, s.side, s.facet),
        None => shared_line(alloc),
    }
}

/// The line on the first open side of a complex on its grid, or that there is none.
fn surface_line(alloc: Global, bound: &Bound) -> Result<Bytes, NoMemory>
    requires listed { length bound.now.table.listed < 2 ^ 32 }
    requires corners { HasCornersOf bound.now.table.points bound.now.complex }
    ensures { IfOk result (λ line. line ≡ surface_line bound.now) }
{
    let found = first_open(alloc, &bound.table.points, &bound.complex)?;
    let by = numbering_of(alloc, &bound.table)?;
    side_line(alloc, &by, found)
}

// ---- hole points

/// Whether the mesh has no tetrahedron.
pub(crate) fn is_empty(outputs: &Outputs) -> bool
    ensures { result ≡ is_empty outputs.now }
{
    outputs.tetrahedra == 0
}

fn carved_line(alloc: Global) -> Result<Bytes, NoMemory>
    ensures { IfOk result (λ line. line ≡ carved_line) }
{
    Bytes::from_slice(alloc, b"tetfit: hole points carve all of it\n")
}

fn either_line(alloc: Global) -> Result<Bytes, NoMemory>
    ensures { IfOk result (λ line. line ≡ either_line) }
{
    let line = b"tetfit: the facets enclose nothing, or hole points carve all of it\n";
    Bytes::from_slice(alloc, line)
}

fn has_holes(bound: &Bound) -> bool
    ensures { result ≡ has_holes bound.now }
{
    !bound.complex.hole_points().is_empty()
}

/// The line by the answer for an input without its hole points: `surface` where it has no mesh with
/// a tetrahedron either.
fn told_of(
    alloc: Global,
    answer: Result<Outputs, Status>,
    surface: Bytes,
) -> Result<Bytes, NoMemory>
    ensures { IfOk result (TellsCarved surface answer) }
{
    match answer {
        Ok(outputs) => {
            if is_empty(&outputs) {
                Ok(surface)
            } else {
                carved_line(alloc)
            }
        }
        Err(Status::NoMemory) => Err(NoMemory),
        Err(_) => either_line(alloc),
    }
}

/// The line on a complex with hole points whose mesh has no tetrahedron: it is meshed again without
/// them, which tells whether they carve it or nothing is enclosed.
fn carved_or(
    alloc: Global,
    options: &Options,
    bound: Bound,
    surface: Bytes,
) -> Result<Bytes, NoMemory>
    requires meshable { IsMeshableBound options.now bound }
    requires surface { surface ≡ surface_line bound }
    ensures { IfOk result (TellsCarvedBy options.now bound) }
{
    let left = without_hole_points(alloc, bound)?;
    let answer = mesh_outputs(alloc, options, left);
    told_of(alloc, answer, surface)
}

/// The line on points and a complex on their grid, by whether there are hole points.
fn opening_in(alloc: Global, options: &Options, bound: Bound) -> Result<Bytes, NoMemory>
    requires { IsMeshableBound options.now bound }
    ensures { IfOk result (TellsOpeningBy (has_holes bound) options.now bound) }
{
    let surface = surface_line(alloc, &bound)?;
    if has_holes(&bound) {
        carved_or(alloc, options, bound, surface)
    } else {
        Ok(surface)
    }
}

/// The line on an input whose mesh has no tetrahedron, rounded to `decimals` decimals. Without hole
/// points it names the first side, in the order of facets, polygons and corners, with which no side
/// of another facet has more than one point in common; or it says that there is none. With hole
/// points the input is meshed once more without them: where that
/// mesh has a tetrahedron they carve all of it, else the line is as without them. Out of memory
/// also where the input can't be put on its grid again.
pub fn opening_of(
    alloc: Global,
    limits: Limits,
    options: &Options,
    input: &Input,
    decimals: u32,
) -> Result<Bytes, NoMemory>
    requires limits { AreIndexable limits }
    requires input { IsSound input.now }
    requires ranges { AreInTriedRange (at_decimals decimals options.now) }
    ensures { IfOk result (TellsOpening limits (at_decimals decimals options.now) input.now) }
{
    let options = at_decimals(alloc, options, decimals)?;
    let nodes = tried_nodes(alloc, &options, &input.nodes)?;
    let tried = Trial::new(limits, &options, input);
    match tried.bind(alloc, nodes) {
        Ok(bound) => opening_in(alloc, &options, bound),
        Err(_) => Err(NoMemory),
    }
}

//! Reads the model that the options name.

ghost use Rattle.std.specs.Prelude.{◌≡◌, ◌≤◌, ◌<◌, ◌-◌, ◌^◌, ℕ, [], length, Some, Ok, IfOk, IfErr, IfSome};
ghost use Rattle.node_files.specs.Limits.{AreIndexable};
ghost use Rattle.plc_files.specs.Checks.{HasFewParts};
ghost use Rattle.plc_files.specs.Outcome.{PlcGives};
ghost use Rattle.run_steps.specs.Reading.{complex_file, IsSound, TextAnswer};
ghost use Rattle.tet_ports.specs.Seen.{IsOnlyRead, folder_seen};
ghost use Rattle.run_steps.specs.Steps.{AndThen, Gives};
ghost use Rattle.tetfit_run.specs.Keyword.{TellsBadText};
ghost use Rattle.tetfit_run.specs.Models.{named_surface, surface_form, surface_text_of};
ghost use Rattle.command_words.specs.Meaning.{IsUnit};
ghost use Rattle.grid_coords.specs.Origins.{IsNear};
ghost use Rattle.plc_files.specs.Checks.{corners_check};
ghost use Rattle.tetfit_run.specs.Measured.{complex_from, most_tried, moved_model, origin_in, MovedAnswer};
ghost use Rattle.tetfit_run.specs.Models.{input_in, stated_of, IsStatedBy, IsStatedInSurface};
ghost use Rattle.tetfit_run.specs.Models.{ModelAnswer, MovedFrom, SurfaceInputAnswer};
ghost use Rattle.tetfit_run.specs.Units.{input_by};

use crate::grids::most_tried;
use crate::keyword::keyword_text;
use crate::units::each_by;
use command_words::{Extension, Options};
use grid_coords::{WholePoint, origin_of};
use node_files::Limits;
use plc_files::{PlcFault, PlcText, measured_plc};
use run_steps::{ComplexFile, Fetched, Input, Status, fetch, read_input, with_points};
use soup_files::{is_binary_stl, read_binary_stl, read_wide_off, read_wide_stl};
use std::alloc::Global;
use tet_ports::{Bytes, Folder, Name, NoMemory};
use tet_text::Decimal;

/// The unit in which places in the model's file are counted.
#[derive(Clone, Copy, Debug, PartialEq, Eq)]
pub(crate) enum Stated {
    /// The lines of a text.
    Lines,
    /// The facets of a binary `.stl` file.
    Facets,
}

/// The points and the complex of a model, and the unit in which the places of its points in their
/// file are counted, from 1.
#[derive(Drop)]
pub(crate) struct Model {
    /// The points as the file has them, or rounded to multiples of a unit, and the complex, whose
    /// hole points and region points are measured from the origin.
    pub(crate) input: Input,
    /// The point from which coordinates are measured, where it is not zero.
    pub(crate) origin: Option<WholePoint>,
    pub(crate) stated: Stated,
}

/// The file of a surface, by its name, its base and its extension.
#[derive(Drop)]
struct NamedSurface<'a> {
    name: &'a Name,
    base: &'a Name,
    form: Extension,
}

/// The unit of the places in a surface: facets in a binary `.stl` file, lines in a text.
fn stated_of(form: Extension, bytes: &Bytes) -> Stated
    ensures { result ≡ stated_of form bytes.now }
{
    match form {
        Extension::Stl if is_binary_stl(bytes) => Stated::Facets,
        _ => Stated::Lines,
    }
}

/// The complex with its hole points and region points measured from the origin, where there is one.
fn complex_from(
    origin: Option<WholePoint>,
    most: u32,
    complex: PlcText,
) -> Result<PlcText, NoMemory>
    requires { IfSome origin (IsNear most) }
    ensures value { IfOk result (λ made. made ≡ complex_from origin most complex) }
    ensures few { HasFewParts complex → IfOk result HasFewParts }
    ensures corners { (first count : ℕ) → corners_check first count complex ≡ Ok tt
        → IfOk result (λ made. corners_check first count made ≡ Ok tt) }
{
    match origin {
        None => Ok(complex),
        Some(w) => measured_plc(w, most + 6, complex),
    }
}

/// The model of an input: with its hole points and region points measured from its origin.
fn moved_model(input: Input, stated: Stated) -> Result<Model, NoMemory>
    requires { IsSound input }
    ensures value { IfOk result (λ model. model.input ≡ moved_model input) }
    ensures origin { IfOk result (λ model. model.origin ≡ origin_in input) }
    ensures near { IfOk result (λ model. IfSome model.origin (IsNear (most_tried input))) }
    ensures stated { IfOk result (λ model. model.stated ≡ stated) }
    ensures sound { IfOk result (λ model. IsSound model.input) }
{
    let Input { nodes, complex } = input;
    let points = nodes.decimals.as_slice();
    let origin = origin_of(points);
    let most = most_tried(origin, points);
    let complex = complex_from(origin, most, complex)?;
    let input = Input { nodes, complex };
    Ok(Model {
        input,
        origin,
        stated,
    })
}

/// The input with its points rounded to multiples of the unit, where there is one.
fn input_by(alloc: Global, unit: Option<Decimal>, input: Input) -> Result<Input, NoMemory>
    requires unit { IfSome unit IsUnit }
    requires sound { IsSound input }
    ensures value { IfOk result (λ made. made ≡ input_by unit input) }
    ensures sound { IfOk result IsSound }
{
    let Some(unit) = unit else {
        return Ok(input);
    };
    let mut made = input;
    made.nodes.decimals = each_by(alloc, unit, made.nodes.decimals.as_slice())?;
    Ok(made)
}

/// The model of an input, in the unit, where there is one.
fn model_by(
    alloc: Global,
    unit: Option<Decimal>,
    input: Input,
    stated: Stated,
) -> Result<Model, NoMemory>
    requires unit { IfSome unit IsUnit }
    requires sound { IsSound input }
    ensures value { IfOk result (λ model. model.input ≡ moved_model (input_by unit input)) }
    ensures stated { IfOk result (λ model. model.stated ≡ stated) }
    ensures sound { IfOk result (λ model. IsSound model.input) }
    ensures origin { IfOk result (λ model. model.origin ≡ origin_in model.input) }
    ensures near { IfOk result (λ model. IfSome model.origin (IsNear (most_tried model.input))) }
{
    let input = input_by(alloc, unit, input)?;
    moved_model(input, stated)
}

/// The model with the input that was read, its points rounded to multiples of the unit, where there
/// is one, and the unit of the places of its points.
fn with_stated(
    alloc: Global,
    unit: Option<Decimal>,
    read: Result<Input, Status>,
    stated: Stated,
) -> Result<Model, Status>
    requires unit { IfSome unit IsUnit }
    requires sound { IfOk read IsSound }
    ensures input { MovedFrom unit read (input_in result) }
    ensures stated { IfOk result (λ model. model.stated ≡ stated) }
    ensures sound { IfOk result (λ model. IsSound model.input) }
    ensures origin { IfOk result (λ model. model.origin ≡ origin_in model.input) }
    ensures near { IfOk result (λ model. IfSome model.origin (IsNear (most_tried model.input))) }
{
    match read {
        Ok(input) => Ok(model_by(alloc, unit, input, stated)?),
        Err(status) => Err(status),
    }
}

/// The model of the surface in a file, in the unit, where there is one. Where it refuses the text
/// of an `.off` file whose keyword is not read, the line on that keyword is in `hint`.
fn read_surface<F: Folder>(
    alloc: Global,
    limits: Limits,
    unit: Option<Decimal>,
    named: &NamedSurface,
    folder: &mut F,
    hint: &mut Bytes,
) -> Result<Model, Status>
    requires limits { AreIndexable limits }
    requires unit { IfSome unit IsUnit }
    ensures answer { AndThen (SurfaceInputAnswer limits
        (folder_seen F.state folder.old folder.new) named.now.name.now named.now.base.now
        named.now.form) (MovedAnswer unit) (input_in result) }
    ensures stated { IfOk result (λ model. IsStatedInSurface
        (folder_seen F.state folder.old folder.new) named.now.name.now named.now.form
        model.stated) }
    ensures told { IfErr result (TellsBadText (Some named.now.form)
        (folder_seen F.state folder.old folder.new) named.now.name.now hint.new) }
    ensures sound { IfOk result (λ model. IsSound model.input) }
    ensures origin { IfOk result (λ model. model.origin ≡ origin_in model.input) }
    ensures near { IfOk result (λ model. IfSome model.origin (IsNear (most_tried model.input))) }
    ensures only_read { IsOnlyRead (folder_seen F.state folder.old folder.new) }
{
    let asked = Name::from_slice(alloc, named.name.as_slice())?;
    let file = fetch(alloc, limits, asked, folder)?;
    *hint = keyword_text(alloc, named.form, named.name, &file.bytes)?;
    let stated = stated_of(named.form, &file.bytes);
    let surface = surface_of(alloc, named.form, file)?;
    let read = with_points(alloc, limits, named.base, surface, folder);
    with_stated(alloc, unit, read, stated)
}

/// The model that the options name: as `read_input` reads it, but that an `.off` or `.stl` file is
/// the one with this name, and is read in the wide grammar (`read_wide_off`, `read_wide_stl`), and
/// an `.stl` file may be a binary one, which is known by its length; with its points rounded to
/// multiples of the unit, where the options have one, and its hole points and region points
/// measured from its origin. Each file is fetched once. It refuses as `read_input`
/// does, and stores nothing; where it refuses the text of an `.off` file whose keyword is not read,
/// the line on that keyword is in `hint`.
pub(crate) fn read_model<F: Folder>(
    alloc: Global,
    limits: Limits,
    name: &Name,
    options: &Options,
    folder: &mut F,
    hint: &mut Bytes,
) -> Result<Model, Status>
    requires limits { AreIndexable limits }
    requires sample { IfSome options.now.sample (λ n. n ≤ 10000) }
    requires unit { IfSome options.now.unit IsUnit }
    requires none { hint.old ≡ [] }
    ensures answer { ModelAnswer limits
        (folder_seen F.state folder.old folder.new) name.now options.now (input_in result) }
    ensures stated { IfOk result (λ model. IsStatedBy
        (folder_seen F.state folder.old folder.new) name.now options.now model.stated) }
    ensures told { IfErr result (TellsBadText (named_surface options.now)
        (folder_seen F.state folder.old folder.new) name.now hint.new) }
    ensures sound { IfOk result (λ model. IsSound model.input) }
    ensures origin { IfOk result (λ model. model.origin ≡ origin_in model.input) }
    ensures near { IfOk result (λ model. IfSome model.origin (IsNear (most_tried model.input))) }
    ensures only_read { IsOnlyRead (folder_seen F.state folder.old folder.new) }
{
    match named_surface(options) {
        Some(form) => {
            let base = &options.base;
            let named = NamedSurface { name, base, form };
            read_surface(alloc, limits, options.unit, &named, folder, hint)
        }
        None => {
            let read = read_input(alloc, limits, options, folder);
            with_stated(alloc, options.unit, read, Stated::Lines)
        }
    }
}

/// The extension, if it is that of a surface.
fn surface_form(extension: Option<Extension>) -> Option<Extension>
    ensures { result ≡ surface_form extension }
{
    match extension {
        Some(Extension::Off) => Some(Extension::Off),
        Some(Extension::Stl) => Some(Extension::Stl),
        _ => None,
    }
}

/// The extension of the surface that the options name, unless they name none.
fn named_surface(options: &Options) -> Option<Extension>
    ensures { result ≡ named_surface options.now }
{
    if options.piecewise {
        return surface_form(options.extension);
    }
    None
}

/// The complex that the bytes of a surface spell; a binary `.stl` file is known by its length.
fn read_bytes(alloc: Global, form: Extension, bytes: &Bytes) -> Result<PlcText, PlcFault>
    requires { length bytes.now < 2 ^ 32 - 1 }
    ensures value { PlcGives (λ text. text) result (surface_text_of form bytes.now) }
    ensures few { IfOk result HasFewParts }
{
    match form {
        Extension::Stl if is_binary_stl(bytes) => read_binary_stl(alloc, bytes),
        Extension::Stl => read_wide_stl(alloc, bytes),
        _ => read_wide_off(alloc, bytes),
    }
}

/// The complex that the file of a surface spells; it refuses with `BadText`, or when out of memory.
fn surface_of(alloc: Global, form: Extension, file: Fetched) -> Result<ComplexFile, Status>
    requires { length file.bytes < 2 ^ 32 - 1 }
    ensures answer { AndThen (TextAnswer file.name (surface_text_of form file.bytes))
        (λ text. Gives (complex_file file.name text)) result }
    ensures few { IfOk result (λ made. HasFewParts made.text) }
{
    let Fetched { name, bytes } = file;
    let read = read_bytes(alloc, form, &bytes);
    bytes.let_go();
    match read {
        Ok(text) => Ok(ComplexFile { name, text }),
        Err(PlcFault::Text(fault)) => Err(Status::BadText { name, fault }),
        Err(PlcFault::NoMemory) => Err(Status::NoMemory),
        Err(_) => unreachable!(),
    }
}

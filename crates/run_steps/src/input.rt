//! What a run reads.

ghost use Rattle.std.specs.Prelude.{◌≡◌, ◌≤◌, ◌<◌, ◌-◌, ◌^◌, [], None, true, false, IfSome, length, IfOk, IfErr};
ghost use Rattle.command_words.specs.declared.options.Extension.TheVariants.{Poly, Smesh};
ghost use Rattle.node_files.specs.Limits.{AreIndexable};
ghost use Rattle.node_files.specs.Node.{IsNodeText};
ghost use Rattle.plc_files.specs.Checks.{HasFewParts};
ghost use Rattle.plc_files.specs.Sample.{sample_of};
ghost use Rattle.run_steps.specs.Reading.{complex_file, node_text_of, plc_text_of, IsRead, IsUnfetched, TextAnswer, PointsAnswer, FormAnswer, SourceAnswer, NodesAnswer, BoundedAnswer, InputAnswer, IsSound};
ghost use Rattle.tet_ports.specs.Seen.{IsOnlyRead, folder_seen};
ghost use Rattle.run_steps.specs.Steps.{AndThen, IfMissing, Gives};

use crate::status::{LimitKind, Status};
use command_words::{Extension, Options, file_name};
use node_files::{Limits, NodeFault, NodeText, read_node};
use plc_files::{PlcFault, PlcText, check_corners, read_poly, read_smesh, sample};
use soup_files::{read_ascii_stl, read_off};
use std::alloc::Global;
use tet_ports::{Bytes, FetchFault, Folder, Name};

/// The input of a run: points, and a complex on them; the complex's own point list was moved out.
#[derive(Drop)]
pub struct Input {
    pub nodes: NodeText,
    pub complex: PlcText,
}

/// A file that was fetched.
#[derive(Drop)]
pub struct Fetched {
    pub name: Name,
    pub bytes: Bytes,
}

/// A complex and the name of its file.
#[derive(Drop)]
pub struct ComplexFile {
    pub name: Name,
    pub text: PlcText,
}

/// The input that the options name: points alone, or a complex on its own points or on those of the
/// `.node` file with the same base. It refuses with `Missing`, `ReadFault`, `BadText` or the limit
/// of bytes, of the first file that is at fault, with `BadText` where a corner names no point, or
/// when out of memory. It stores nothing.
pub fn read_input<F: Folder>(
    alloc: Global,
    limits: Limits,
    options: &Options,
    folder: &mut F,
) -> Result<Input, Status>
    requires limits { AreIndexable limits }
    requires sample { IfSome options.now.sample (λ n. n ≤ 10000) }
    ensures answer { InputAnswer limits (folder_seen F.state folder.old folder.new)
        options.now result }
    ensures sound { IfOk result IsSound }
    ensures only_read { IsOnlyRead (folder_seen F.state folder.old folder.new) }
{
    if options.piecewise {
        let file = read_source(alloc, limits, options, folder)?;
        return with_points(alloc, limits, &options.base, file, folder);
    }
    let nodes = read_points(alloc, limits, &options.base, folder)?;
    Ok(Input {
        nodes,
        complex: PlcText::new(alloc, None),
    })
}

/// The complex that the options name: the sample, or that of the file with their base, whose `.poly`
/// file comes before its `.smesh` file, if no extension says which.
fn read_source<F: Folder>(
    alloc: Global,
    limits: Limits,
    options: &Options,
    folder: &mut F,
) -> Result<ComplexFile, Status>
    requires limits { AreIndexable limits }
    requires sample { IfSome options.now.sample (λ n. n ≤ 10000) }
    ensures answer { SourceAnswer limits (folder_seen F.state folder.old folder.new)
        options.now.base options.now.extension options.now.sample result }
    ensures few { IfOk result (λ file. HasFewParts file.text) }
    ensures only_read { IsOnlyRead (folder_seen F.state folder.old folder.new) }
{
    let base = &options.base;
    match options.sample {
        Some(n) => read_sample(alloc, n),
        None => match options.extension {
            Some(Extension::Smesh) => read_form(alloc, limits, base, Extension::Smesh, folder),
            Some(Extension::Poly) => read_form(alloc, limits, base, Extension::Poly, folder),
            Some(Extension::Off) => read_form(alloc, limits, base, Extension::Off, folder),
            Some(Extension::Stl) => read_form(alloc, limits, base, Extension::Stl, folder),
            Some(Extension::Node) | None => read_bare(alloc, limits, base, folder),
        },
    }
}

/// The sample complex for `n`, which has no file.
fn read_sample(alloc: Global, n: u32) -> Result<ComplexFile, Status>
    requires { n ≤ 10000 }
    ensures answer { Gives (complex_file [] (sample_of n)) result }
    ensures few { IfOk result (λ file. HasFewParts file.text) }
{
    let text = sample(alloc, n)?;
    Ok(ComplexFile {
        name: Name::new(alloc),
        text,
    })
}

/// The complex of the `.poly` file with this base, or where there is none of its `.smesh` file.
fn read_bare<F: Folder>(
    alloc: Global,
    limits: Limits,
    base: &Name,
    folder: &mut F,
) -> Result<ComplexFile, Status>
    requires { AreIndexable limits }
    ensures answer { IfMissing (FormAnswer limits
        (folder_seen F.state folder.old folder.new) base.now Poly)
        (FormAnswer limits (folder_seen F.state folder.old folder.new) base.now Smesh) result }
    ensures few { IfOk result (λ file. HasFewParts file.text) }
    ensures only_read { IsOnlyRead (folder_seen F.state folder.old folder.new) }
{
    match read_form(alloc, limits, base, Extension::Poly, folder) {
        Err(Status::Missing { name: _ }) => read_form(
            alloc,
            limits,
            base,
            Extension::Smesh,
            folder,
        ),
        answer => answer,
    }
}

/// The complex of a file in one form.
fn read_form<F: Folder>(
    alloc: Global,
    limits: Limits,
    base: &Name,
    extension: Extension,
    folder: &mut F,
) -> Result<ComplexFile, Status>
    requires { AreIndexable limits }
    ensures answer { FormAnswer limits (folder_seen F.state folder.old folder.new)
        base.now extension result }
    ensures few { IfOk result (λ file. HasFewParts file.text) }
    ensures only_read { IsOnlyRead (folder_seen F.state folder.old folder.new) }
{
    let name = file_name(alloc, base, extension)?;
    let file = fetch(alloc, limits, name, folder)?;
    complex_of(alloc, extension, file)
}

/// A complex with its points: its own, or, where it has none, those of the `.node` file with the
/// same base. It refuses with `BadText` where a corner names none of the points, as `read_input`
/// refuses the `.node` file, or when out of memory.
pub fn with_points<F: Folder>(
    alloc: Global,
    limits: Limits,
    base: &Name,
    file: ComplexFile,
    folder: &mut F,
) -> Result<Input, Status>
    requires limits { AreIndexable limits }
    requires few { HasFewParts file.text }
    ensures answer { AndThen (NodesAnswer limits
        (folder_seen F.state folder.old folder.new) base.now file.text.nodes)
        (BoundedAnswer file) result }
    ensures sound { IfOk result IsSound }
    ensures only_read { IsOnlyRead (folder_seen F.state folder.old folder.new) }
{
    let ComplexFile { name, mut text } = file;
    let own = text.take_nodes();
    let nodes = match own {
        Some(nodes) => nodes,
        None => read_points(alloc, limits, base, folder)?,
    };
    bounded(name, nodes, text)
}

/// The input; `BadText` where a corner of the complex names none of its points.
fn bounded(name: Name, nodes: NodeText, complex: PlcText) -> Result<Input, Status>
    requires nodes { IsNodeText nodes }
    requires few { HasFewParts complex }
    requires own { complex.nodes ≡ None }
    ensures answer { BoundedAnswer (complex_file name complex) nodes result }
    ensures sound { IfOk result IsSound }
{
    match check_corners(&complex, nodes.first, nodes.decimals.len() as u64) {
        Ok(()) => Ok(Input { nodes, complex }),
        Err(fault) => Err(Status::BadText { name, fault }),
    }
}

/// The point list of the `.node` file with this base.
fn read_points<F: Folder>(
    alloc: Global,
    limits: Limits,
    base: &Name,
    folder: &mut F,
) -> Result<NodeText, Status>
    requires { AreIndexable limits }
    ensures answer { PointsAnswer limits (folder_seen F.state folder.old folder.new)
        base.now result }
    ensures table { IfOk result IsNodeText }
    ensures only_read { IsOnlyRead (folder_seen F.state folder.old folder.new) }
{
    let name = file_name(alloc, base, Extension::Node)?;
    let file = fetch(alloc, limits, name, folder)?;
    points_of(alloc, file)
}

/// The bytes of the file with this name. It refuses with `Missing`, `ReadFault` or the limit of
/// bytes, or when out of memory.
pub fn fetch<F: Folder>(
    alloc: Global,
    limits: Limits,
    name: Name,
    folder: &mut F,
) -> Result<Fetched, Status>
    requires { AreIndexable limits }
    ensures named { IfOk result (λ file. file.name ≡ name) }
    ensures read { IfOk result (λ file. IsRead limits (F.state folder.old).files name file.bytes) }
    ensures short { IfOk result (λ file. length file.bytes < 2 ^ 32 - 1) }
    ensures err { IfErr result (IsUnfetched limits
        (folder_seen F.state folder.old folder.new) name) }
    ensures only_read { IsOnlyRead (folder_seen F.state folder.old folder.new) }
{
    match folder.fetch(alloc, &name, limits.bytes) {
        Ok(bytes) => Ok(Fetched { name, bytes }),
        Err(FetchFault::Missing) => Err(Status::Missing { name }),
        Err(FetchFault::Failed) => Err(Status::ReadFault { name }),
        Err(FetchFault::TooLarge { taken: _ }) => Err(Status::Limit {
            what: LimitKind::Bytes {
                name,
                most: limits.bytes,
            },
        }),
        Err(FetchFault::NoMemory) => Err(Status::NoMemory),
    }
}

/// The point list that a file spells.
fn points_of(alloc: Global, file: Fetched) -> Result<NodeText, Status>
    requires { length file.bytes < 2 ^ 32 - 1 }
    ensures answer { TextAnswer file.name (node_text_of file.bytes) result }
    ensures table { IfOk result IsNodeText }
{
    let Fetched { name, bytes } = file;
    let read = read_node(alloc, &bytes);
    bytes.let_go();
    match read {
        Ok(text) => Ok(text),
        Err(NodeFault::Text(fault)) => Err(Status::BadText { name, fault }),
        Err(NodeFault::NoMemory) => Err(Status::NoMemory),
        Err(_) => unreachable!(),
    }
}

/// The complex that a file spells in one form: it refuses with `BadText`, or when out of memory.
fn complex_of(alloc: Global, extension: Extension, file: Fetched) -> Result<ComplexFile, Status>
    requires { length file.bytes < 2 ^ 32 - 1 }
    ensures answer { AndThen (TextAnswer file.name (plc_text_of extension file.bytes))
        (λ text. Gives (complex_file file.name text)) result }
    ensures few { IfOk result (λ made. HasFewParts made.text) }
{
    let Fetched { name, bytes } = file;
    let read = match extension {
        Extension::Smesh => read_smesh(alloc, &bytes),
        Extension::Off => read_off(alloc, &bytes),
        Extension::Stl => read_ascii_stl(alloc, &bytes),
        _ => read_poly(alloc, &bytes),
    };
    bytes.let_go();
    match read {
        Ok(text) => Ok(ComplexFile { name, text }),
        Err(PlcFault::Text(fault)) => Err(Status::BadText { name, fault }),
        Err(PlcFault::NoMemory) => Err(Status::NoMemory),
        Err(_) => unreachable!(),
    }
}

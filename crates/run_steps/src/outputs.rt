//! The files and the summary of a mesh.

ghost use Rattle.std.specs.Prelude.{◌≡◌, ◌||◌, true, false, ◌<◌, ◌^◌, length, All, List, IfOk, IfSome};
ghost use Rattle.std.specs.Option.{option_copied};
ghost use Rattle.geo_laws.specs.Faces.{side_numbers, AreFacesOf, AreSidesOf};
ghost use Rattle.geo_laws.specs.declared.faces.Face.{Face};
ghost use Rattle.incidence.specs.Uses.{AreUsesOf};
ghost use Rattle.mesh_files.specs.FaceRows.{AreFaceRowsOf};
ghost use Rattle.mesh_files.specs.Texts.{marked_corners, AreNamed};
ghost use Rattle.node_files.specs.Writing.{IsNearGrid};
ghost use Rattle.command_words.specs.Formats.{asks_whole};
ghost use Rattle.run_steps.specs.Outputs.{named, first_of, node_file, ele_file, face_file, edge_file, neigh_file, mesh_format_files, report_of};
ghost use Rattle.run_steps.specs.Outputs.{names_sides, asks_faces, asks_uses, asks_hull_alone, IsWritable};
ghost use Rattle.run_steps.specs.Outputs.{is_second_order, IsHullOf, AreFaceFilesOf, AreFaceOutputsOf, AreSideOutputsOf, AreFirstOutputsOf, AreOutputsOf};

use crate::format_files::first_format_files;
use crate::meshed::{HulledMesh, Meshed};
use crate::report::{Report, Summary};
use crate::second_outputs::second_outputs;
use crate::store::{NamedText, NamedTexts, Texts};
use command_words::{Options, with_extension};
use incidence::{Uses, pair_uses, uses_of};
use mesh_files::{
    Edges, FaceRows, Faces, edges_of, face_count, hull_rows, used_faces, write_all_faces,
    write_edge, write_ele, write_face, write_neigh,
};
use node_files::write_node_from;
use std::alloc::Global;
use tet_ports::{Bytes, NoMemory};

/// The files of a mesh, and what is written to the standard output.
#[derive(Debug, Drop)]
pub struct Outputs {
    pub texts: Texts,
    pub report: Option<Report>,
    /// The number of tetrahedra of the mesh; 0 where there is no mesh.
    pub tetrahedra: usize,
}

/// The files of the points and of the tetrahedra, where they are asked for.
#[derive(Drop)]
struct RowOutputs {
    node: Option<NamedText>,
    ele: Option<NamedText>,
}

/// The files that list faces, where they are asked for: the face file, and those of the whole mesh.
#[derive(Drop)]
pub(crate) struct FaceFiles {
    pub(crate) face: Option<NamedText>,
    pub(crate) whole: NamedTexts,
}

/// The files that list faces, the neighbor file, where it is asked for, and the number of faces, if
/// the summary is asked for.
#[derive(Drop)]
struct FaceOutputs {
    files: FaceFiles,
    neigh: Option<NamedText>,
    count: usize,
}

/// The edge file, where it is asked for, and the number of edges of the mesh, if the edge file or
/// the summary is asked for.
#[derive(Drop)]
struct SideOutputs {
    edge: Option<NamedText>,
    count: usize,
}

/// The most halvings of a grid whose points are written.
const MOST_HALVINGS: u32 = 18;

/// A file of a mesh, where it is asked for.
pub(crate) type FileAnswer = Result<Option<NamedText>, NoMemory>;

/// The files and the summary that the options ask for. They are of second order where the options
/// ask for that, and the grid of the mesh has a halving left for the midpoints of edges.
pub fn outputs_of(alloc: Global, options: &Options, made: &HulledMesh) -> Result<Outputs, NoMemory>
    requires mesh { IsWritable made.now.mesh }
    requires near { IsNearGrid options.now.origin made.now.mesh.table.grid }
    requires hull { IfSome made.now.hull (IsHullOf made.now.mesh) }
    ensures { IfOk result (AreOutputsOf options.now made.now.mesh) }
{
    if is_second_order(options, &made.mesh) {
        second_outputs(alloc, options, &made.mesh)
    } else {
        first_outputs(alloc, options, made)
    }
}

/// Whether the files are of second order.
fn is_second_order(options: &Options, mesh: &Meshed) -> bool
    ensures { result ≡ is_second_order options.now mesh.now }
{
    options.formats.second_order && mesh.table.grid.halvings < MOST_HALVINGS
}

/// The files of first order, and the summary.
fn first_outputs(alloc: Global, options: &Options, made: &HulledMesh) -> Result<Outputs, NoMemory>
    requires mesh { IsWritable made.now.mesh }
    requires near { IsNearGrid options.now.origin made.now.mesh.table.grid }
    requires hull { IfSome made.now.hull (IsHullOf made.now.mesh) }
    ensures { IfOk result (AreFirstOutputsOf options.now made.now.mesh) }
{
    let mesh = &made.mesh;
    let faces = face_outputs(alloc, options, made)?;
    let sides = side_outputs(alloc, options, mesh)?;
    let rows = row_outputs(alloc, options, mesh)?;
    let report = report_of(alloc, options, mesh, faces.count, sides.count);
    let tetrahedra = mesh.tetrahedra.len();
    Ok(put_together(rows, faces, sides, report, tetrahedra))
}

/// Collects the files of the points, the tetrahedra, the faces and the edges that are asked for,
/// the summary and the number of tetrahedra.
fn put_together(
    rows: RowOutputs,
    faces: FaceOutputs,
    sides: SideOutputs,
    report: Option<Report>,
    tetrahedra: usize,
) -> Outputs
    ensures { result ≡ record {
      texts = record {
        node = rows.node;
        ele = rows.ele;
        face = faces.files.face;
        edge = sides.edge;
        neigh = faces.neigh;
        whole = faces.files.whole;
      };
      report = report;
      tetrahedra = tetrahedra;
    } }
{
    let FaceFiles { face, whole } = faces.files;
    let texts = Texts {
        node: rows.node,
        ele: rows.ele,
        face,
        edge: sides.edge,
        neigh: faces.neigh,
        whole,
    };
    Outputs {
        texts,
        report,
        tetrahedra,
    }
}

/// The files of the points and of the tetrahedra, where they are asked for.
fn row_outputs(alloc: Global, options: &Options, mesh: &Meshed) -> Result<RowOutputs, NoMemory>
    requires mesh { IsWritable mesh.now }
    requires near { IsNearGrid options.now.origin mesh.now.table.grid }
    ensures { IfOk result (λ rows. rows ≡ record {
      node = node_file options.now mesh.now;
      ele = ele_file options.now mesh.now;
    }) }
{
    let node = node_file(alloc, options, mesh)?;
    let ele = ele_file(alloc, options, mesh)?;
    Ok(RowOutputs { node, ele })
}

/// The number of the first tetrahedron, face, edge and point in the files.
pub(crate) fn first_of(options: &Options, mesh: &Meshed) -> u32
    ensures { result ≡ first_of options.now mesh.now }
{
    if options.from_zero {
        0
    } else {
        mesh.table.first
    }
}

/// Whether the edge file or the summary is asked for.
fn names_sides(options: &Options) -> bool
    ensures { result ≡ names_sides options.now }
{
    !options.quiet || (!options.no_face && options.edges)
}

/// Whether a file with faces is asked for: the face file, or one of the whole mesh.
fn asks_faces(options: &Options) -> bool
    ensures { result ≡ asks_faces options.now }
{
    !options.no_face || options.formats.asks_whole()
}

/// Whether the options ask for no faces but those on the hull and in facets.
pub fn asks_hull_alone(options: &Options) -> bool
    ensures { result ≡ asks_hull_alone options.now }
{
    options.quiet && (asks_faces(options) && (!options.all_faces && !options.neighbors))
}

/// Whether a file with faces, the neighbor file or the summary is asked for, which need the uses of
/// faces.
fn asks_uses(options: &Options) -> bool
    ensures { result ≡ asks_uses options.now }
{
    !options.quiet || (asks_faces(options) || options.neighbors)
}

/// The face outputs: from the faces of the hull where these are known and enough, else from the
/// uses of all faces.
fn face_outputs(
    alloc: Global,
    options: &Options,
    made: &HulledMesh,
) -> Result<FaceOutputs, NoMemory>
    requires mesh { IsWritable made.now.mesh }
    requires near { IsNearGrid options.now.origin made.now.mesh.table.grid }
    requires hull { IfSome made.now.hull (IsHullOf made.now.mesh) }
    ensures { IfOk result (AreFaceOutputsOf options.now made.now.mesh) }
{
    if let Some(hull) = &made.hull {
        if asks_hull_alone(options) {
            return hull_outputs(alloc, options, &made.mesh, hull);
        }
    }
    used_outputs(alloc, options, &made.mesh)
}

/// The face outputs from the uses of the faces. The neighbors are freed once their text is made.
fn used_outputs(alloc: Global, options: &Options, mesh: &Meshed) -> Result<FaceOutputs, NoMemory>
    requires mesh { IsWritable mesh.now }
    requires near { IsNearGrid options.now.origin mesh.now.table.grid }
    ensures { IfOk result (AreFaceOutputsOf options.now mesh.now) }
{
    let uses = wanted_uses(alloc, options, mesh)?;
    let count = wanted_face_count(options, mesh, &uses);
    let neigh = neigh_file(alloc, options, mesh, &uses)?;
    let files = used_face_files(alloc, options, mesh, uses)?;
    Ok(FaceOutputs {
        files,
        neigh,
        count,
    })
}

/// The files that list faces, by the uses of the faces: straight from the uses where the face file
/// alone is asked for, of all faces, else from face rows, before whose texts the uses are freed.
fn used_face_files(
    alloc: Global,
    options: &Options,
    mesh: &Meshed,
    uses: Uses,
) -> Result<FaceFiles, NoMemory>
    requires mesh { IsWritable mesh.now }
    requires near { IsNearGrid options.now.origin mesh.now.table.grid }
    requires uses { asks_uses options.now ≡ true → AreUsesOf mesh.now.tetrahedra uses }
    ensures { IfOk result (AreFaceFilesOf options.now mesh.now) }
{
    if !options.no_face && options.all_faces && !options.formats.asks_whole() {
        return all_face_file(alloc, options, mesh, uses);
    }
    let faces = wanted_face_rows(alloc, options, mesh, uses)?;
    face_files(alloc, options, mesh, &faces)
}

/// The file of all faces with their markers, alone. The uses are freed.
#[tactic(auto, using(crate::proofs::Asked::none_asked))]
fn all_face_file(
    alloc: Global,
    options: &Options,
    mesh: &Meshed,
    uses: Uses,
) -> Result<FaceFiles, NoMemory>
    requires mesh { IsWritable mesh.now }
    requires uses { AreUsesOf mesh.now.tetrahedra uses }
    requires written { options.now.no_face ≡ false }
    requires all { options.now.all_faces ≡ true }
    requires alone { asks_whole options.now.formats ≡ false }
    ensures { IfOk result (AreFaceFilesOf options.now mesh.now) }
{
    let list = mesh.marked_list();
    let text = write_all_faces(alloc, &list, &uses, &mesh.names, first_of(options, mesh))?;
    uses.let_go();
    let face = named(alloc, options, b".1.face", text)?;
    Ok(FaceFiles {
        face,
        whole: NamedTexts::new(alloc),
    })
}

/// The files that list these faces, where they are asked for.
fn face_files(
    alloc: Global,
    options: &Options,
    mesh: &Meshed,
    faces: &FaceRows,
) -> Result<FaceFiles, NoMemory>
    requires mesh { IsWritable mesh.now }
    requires near { IsNearGrid options.now.origin mesh.now.table.grid }
    requires named { asks_faces options.now ≡ true
        → All (λ face. AreNamed mesh.now.names (marked_corners face)) faces.now }
    ensures face { IfOk result (λ files. files.face ≡ face_file options.now mesh.now faces.now) }
    ensures whole { IfOk result
        (λ files. files.whole ≡ mesh_format_files options.now mesh.now faces.now) }
{
    let face = face_file(alloc, options, mesh, faces)?;
    let whole = mesh_format_files(alloc, options, mesh, faces)?;
    Ok(FaceFiles { face, whole })
}

/// The face outputs where only the faces on the hull are asked for, and these are known.
fn hull_outputs(
    alloc: Global,
    options: &Options,
    mesh: &Meshed,
    hull: &Faces,
) -> Result<FaceOutputs, NoMemory>
    requires mesh { IsWritable mesh.now }
    requires near { IsNearGrid options.now.origin mesh.now.table.grid }
    requires asks { asks_hull_alone options.now ≡ true }
    requires hull { IsHullOf mesh.now hull.now }
    ensures { IfOk result (AreFaceOutputsOf options.now mesh.now) }
{
    let faces = hull_rows(alloc, hull)?;
    let files = face_files(alloc, options, mesh, &faces)?;
    Ok(FaceOutputs {
        files,
        neigh: None,
        count: 0,
    })
}

/// The uses of the faces, if the face file, the neighbor file or the summary is asked for.
fn wanted_uses(alloc: Global, options: &Options, mesh: &Meshed) -> Result<Uses, NoMemory>
    ensures { IfOk result (λ uses. asks_uses options.now ≡ true
        → AreUsesOf mesh.now.tetrahedra uses) }
{
    if !asks_uses(options) {
        return Ok(Uses::new(alloc));
    }
    uses_of(alloc, &mesh.tetrahedra)
}

/// The number of faces, if the summary is asked for.
fn wanted_face_count(options: &Options, mesh: &Meshed, uses: &Uses) -> usize
    requires { asks_uses options.now ≡ true → AreUsesOf mesh.now.tetrahedra uses.now }
    ensures { (faces : List Face) × (options.now.quiet ≡ false
        → AreFacesOf mesh.now.tetrahedra faces) × (result ≡ length faces) }
{
    if options.quiet {
        return 0;
    }
    face_count(&mesh.tetrahedra, uses)
}

/// The rows of the faces, if a file with faces is asked for. The uses are freed.
fn wanted_face_rows(
    alloc: Global,
    options: &Options,
    mesh: &Meshed,
    uses: Uses,
) -> Result<FaceRows, NoMemory>
    requires mesh { IsWritable mesh.now }
    requires uses { asks_uses options.now ≡ true → AreUsesOf mesh.now.tetrahedra uses }
    ensures { IfOk result (λ marked. asks_faces options.now ≡ true
        → AreFaceRowsOf mesh.now.points mesh.now.tetrahedra mesh.now.complex mesh.now.triangles
        options.now.all_faces marked) }
{
    if !asks_faces(options) {
        return Ok(FaceRows::new(alloc));
    }
    let faces = used_faces(alloc, &mesh.marked_list(), &uses, options.all_faces)?;
    uses.let_go();
    Ok(faces)
}

/// The edge file and the number of edges, where they are asked for. The edges are freed.
fn side_outputs(alloc: Global, options: &Options, mesh: &Meshed) -> Result<SideOutputs, NoMemory>
    requires { IsWritable mesh.now }
    ensures { IfOk result (AreSideOutputsOf options.now mesh.now) }
{
    let sides = wanted_sides(alloc, options, mesh)?;
    let edge = edge_file(alloc, options, mesh, &sides)?;
    let count = sides.len();
    sides.let_go();
    Ok(SideOutputs { edge, count })
}

/// The edges of the mesh, if the edge file or the summary is asked for.
fn wanted_sides(alloc: Global, options: &Options, mesh: &Meshed) -> Result<Edges, NoMemory>
    requires { IsWritable mesh.now }
    ensures sides { IfOk result (λ sides. names_sides options.now ≡ true
        → AreSidesOf mesh.now.tetrahedra sides) }
    ensures named { IfOk result (λ sides. All (λ side. AreNamed mesh.now.names
        (side_numbers side)) sides) }
{
    if !names_sides(options) {
        return Ok(Edges::new(alloc));
    }
    edges_of(alloc, &mesh.tetrahedra)
}

/// The points of the input and the added ones.
fn node_file(alloc: Global, options: &Options, mesh: &Meshed) -> FileAnswer
    requires mesh { IsWritable mesh.now }
    requires near { IsNearGrid options.now.origin mesh.now.table.grid }
    ensures { IfOk result (λ file. file ≡ node_file options.now mesh.now) }
{
    if options.no_node {
        return Ok(None);
    }
    let first = first_of(options, mesh);
    let text = write_node_from(alloc, options.origin, &mesh.table, &mesh.added, first)?;
    named(alloc, options, b".1.node", text)
}

/// The tetrahedra, with the attributes of their regions where these are asked for.
fn ele_file(alloc: Global, options: &Options, mesh: &Meshed) -> FileAnswer
    requires { IsWritable mesh.now }
    ensures { IfOk result (λ file. file ≡ ele_file options.now mesh.now) }
{
    if options.no_ele {
        return Ok(None);
    }
    let first = first_of(options, mesh);
    let text = write_ele(
        alloc,
        &mesh.tetrahedra,
        mesh.marks.as_ref(),
        &mesh.complex,
        &mesh.names,
        first,
    )?;
    named(alloc, options, b".1.ele", text)
}

/// The faces that are asked for, with their markers.
fn face_file(alloc: Global, options: &Options, mesh: &Meshed, marked: &FaceRows) -> FileAnswer
    requires { options.now.no_face ≡ false
        → All (λ face. AreNamed mesh.now.names (marked_corners face)) marked.now }
    ensures { IfOk result (λ file. file ≡ face_file options.now mesh.now marked.now) }
{
    if options.no_face {
        return Ok(None);
    }
    let text = write_face(alloc, marked, &mesh.names, first_of(options, mesh))?;
    named(alloc, options, b".1.face", text)
}

/// The files of the whole mesh that are asked for, with these faces.
fn mesh_format_files(
    alloc: Global,
    options: &Options,
    mesh: &Meshed,
    faces: &FaceRows,
) -> Result<NamedTexts, NoMemory>
    requires mesh { IsWritable mesh.now }
    requires near { IsNearGrid options.now.origin mesh.now.table.grid }
    requires named { asks_faces options.now ≡ true
        → All (λ face. AreNamed mesh.now.names (marked_corners face)) faces.now }
    ensures { IfOk result
        (λ files. files ≡ mesh_format_files options.now mesh.now faces.now) }
{
    if !options.formats.asks_whole() {
        return Ok(NamedTexts::new(alloc));
    }
    first_format_files(alloc, options, &mesh.whole(options.origin, faces))
}

/// The edge file: the edges of all tetrahedra.
pub(crate) fn edge_file(
    alloc: Global,
    options: &Options,
    mesh: &Meshed,
    sides: &Edges,
) -> FileAnswer
    requires { All (λ side. AreNamed mesh.now.names (side_numbers side)) sides.now }
    ensures { IfOk result (λ file. file ≡ edge_file options.now mesh.now sides.now) }
{
    if options.no_face || !options.edges {
        return Ok(None);
    }
    let text = write_edge(alloc, sides, &mesh.names, first_of(options, mesh))?;
    named(alloc, options, b".1.edge", text)
}

/// The neighbors of each tetrahedron.
pub(crate) fn neigh_file(alloc: Global, options: &Options, mesh: &Meshed, uses: &Uses) -> FileAnswer
    requires { asks_uses options.now ≡ true → AreUsesOf mesh.now.tetrahedra uses.now }
    ensures { IfOk result (λ file. file ≡ neigh_file options.now mesh.now) }
{
    if !options.neighbors {
        return Ok(None);
    }
    let pairs = pair_uses(alloc, &mesh.tetrahedra, uses)?;
    let text = write_neigh(alloc, &pairs, first_of(options, mesh))?;
    pairs.let_go();
    named(alloc, options, b".1.neigh", text)
}

/// A text under the base with an extension.
pub(crate) fn named(
    alloc: Global,
    options: &Options,
    extension: &[u8],
    content: Bytes,
) -> FileAnswer
    ensures { IfOk result (λ file. file ≡ Some (named options.now.base extension.now content)) }
{
    let name = with_extension(alloc, &options.base, extension)?;
    Ok(Some(NamedText { name, content }))
}

/// The counts that sum up the mesh, if they are asked for.
pub(crate) fn report_of(
    alloc: Global,
    options: &Options,
    mesh: &Meshed,
    faces: usize,
    sides: usize,
) -> Option<Report>
    ensures { result ≡ report_of options.now mesh.now faces sides }
{
    if options.quiet {
        return None;
    }
    let summary = Summary {
        points: mesh.table.listed.len(),
        added: mesh.added.len(),
        tetrahedra: mesh.tetrahedra.len(),
        faces,
        edges: sides,
        hidden: mesh.hidden,
        decimals: None,
        over: None,
        slim: None,
        flat: None,
    };
    Some(Report::Mesh {
        summary,
        notes: Bytes::new(alloc),
    })
}

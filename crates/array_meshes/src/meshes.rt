//! The mesh of a complex of arrays, as arrays.

ghost use Rattle.std.specs.Prelude.{◌≡◌, ◌≤◌, ◌<◌, ◌+◌, ◌-◌, ◌^◌, ◌++◌, All, IfErr, IfOk, IfSome, OnErr, OnOk, length, drop, false, map};
ghost use Rattle.complex_mesh.specs.Meshing.{IsComplexMesh};
ghost use Rattle.geo_laws.specs.Delaunay.{numbers};
ghost use Rattle.incidence.specs.Pairs.{pairs_of};
ghost use Rattle.incidence.specs.Uses.{AreUsesOf};
ghost use Rattle.mesh_files.specs.FaceRows.{AreFaceRowsOf, AreFacetsThere, AreTrianglesMetByFaces};
ghost use Rattle.mesh_files.specs.Texts.{AreNamed, marked_corners};
ghost use Rattle.array_meshes.specs.Arrays.{IsArrayTable};
ghost use Rattle.array_meshes.specs.Complexes.{HasParts, complex_on, mesh_options};
ghost use Rattle.array_meshes.specs.Meshes.{AreListsOf, HasRoom, IsArrayMesh, IsComplexFault, IsMeshedFault, added_to, counts_of, lists_in, lists_of, most_added, names_of, place_of};

use crate::arrays::{ArrayFault, Place, table_of};
use crate::cells::{Cell, MarkedFace, add_places, cells_of, named_faces};
use crate::complexes::{ArrayComplex, has_parts};
use crate::fault::{ComplexFault, Counts};
use crate::parts::complex_on;
use complex_mesh::{ComplexMesh, MeshOptions, mesh_complex};
use geo_laws::{Complex, Points};
use incidence::{Pairs, Uses, pair_uses, uses_of};
use mesh_files::{FaceRows, MarkedList, used_faces};
use node_files::{NodeTable, names_of};
use sign_predicates::GridPoint;
use std::alloc::Global;
use tet_ports::NoMemory;

/// The mesh of a complex of arrays: the points of the array and the added ones behind them, over
/// 2^halvings; the tetrahedra, ascending; and the faces on the hull and in facets, ascending.
#[derive(Drop)]
pub struct ArrayMesh {
    pub halvings: u32,
    pub points: Vec<Place>,
    pub cells: Vec<Cell>,
    pub faces: Vec<MarkedFace>,
}

/// The complex of arrays on the points of a table, and its mesh.
#[derive(Drop)]
struct Meshed {
    table: NodeTable,
    complex: Complex,
    mesh: ComplexMesh,
}

/// The points of the arrays on a table, where all that the facets name is there.
fn bound_table(alloc: Global, complex: &ArrayComplex<'_>) -> Result<NodeTable, ComplexFault>
    ensures table { IfOk result (IsArrayTable complex.now.options.halvings complex.now.points.now) }
    ensures there { OnOk result (HasParts complex.now) }
    ensures budget { OnOk result (complex.now.options.budget ≤ most_added) }
    ensures fault { IfErr result (IsComplexFault complex.now) }
{
    if complex.options.budget > 100_000_000 {
        return Err(ComplexFault::TooMany);
    }
    if !has_parts(complex) {
        return Err(ComplexFault::BadIndex);
    }
    match table_of(alloc, complex.points, complex.options.halvings) {
        Ok(table) => Ok(table),
        Err(ArrayFault::TooMany) => Err(ComplexFault::TooMany),
        Err(ArrayFault::OffGrid) => Err(ComplexFault::OffGrid),
        Err(ArrayFault::NoMemory) => Err(ComplexFault::NoMemory),
        Err(_) => unreachable!(),
    }
}

/// How the mesh of a complex of arrays is made.
fn mesh_options(table: &NodeTable, complex: &ArrayComplex<'_>) -> MeshOptions
    ensures { result ≡ mesh_options table.now complex.now }
{
    let options = &complex.options;
    MeshOptions {
        halvings: table.grid.halvings,
        budget: options.budget,
        keep_hull: options.keep_hull,
        keep_facets: options.keep_facets,
        regions: options.regions,
    }
}

/// A copy of points.
fn copied(alloc: Global, points: &Points) -> Result<Points, NoMemory>
    ensures { IfOk result (λ list. list ≡ points.now) }
{
    let mut list = Points::with_capacity(alloc, points.len())?;
    list.extend_from_slice(points.as_slice())?;
    Ok(list)
}

/// Meshes a complex on the kept points of a table, as the options of the arrays ask for.
fn mesh_bound(
    alloc: Global,
    complex: &ArrayComplex<'_>,
    table: &NodeTable,
    bound: &Complex,
) -> Result<ComplexMesh, ComplexFault>
    requires table { IsArrayTable complex.now.options.halvings complex.now.points.now table.now }
    requires there { HasParts complex.now }
    requires budget { complex.now.options.budget ≤ most_added }
    requires bound { bound.now ≡ complex_on table.now complex.now }
    ensures mesh { IfOk result (IsComplexMesh (mesh_options table.now complex.now)
        table.now.points bound.now) }
    ensures fault { IfErr result (IsComplexFault complex.now) }
{
    let points = copied(alloc, &table.points)?;
    match mesh_complex(alloc, points, bound, &mesh_options(table, complex)) {
        Ok(mesh) => Ok(mesh),
        Err(fault) => Err(ComplexFault::Unmeshed { fault }),
    }
}

/// Meshes the complex of arrays on the kept points of a table.
fn mesh_on(
    alloc: Global,
    complex: &ArrayComplex<'_>,
    table: NodeTable,
) -> Result<Meshed, ComplexFault>
    requires table { IsArrayTable complex.now.options.halvings complex.now.points.now table }
    requires there { HasParts complex.now }
    requires budget { complex.now.options.budget ≤ most_added }
    ensures mesh { IfOk result (λ made. IsComplexMesh (mesh_options made.table complex.now)
        made.table.points made.complex made.mesh) }
    ensures complex { IfOk result (λ made. made.complex ≡ complex_on table complex.now) }
    ensures table { IfOk result (λ made. made.table ≡ table) }
    ensures fault { IfErr result (IsComplexFault complex.now) }
{
    let bound = complex_on(alloc, &table, complex)?;
    let mesh = mesh_bound(alloc, complex, &table, &bound)?;
    Ok(Meshed {
        table,
        complex: bound,
        mesh,
    })
}

/// The faces on the hull of a mesh and in its facets, from the uses of all faces.
fn faces_of(alloc: Global, made: &Meshed, uses: &Uses) -> Result<FaceRows, NoMemory>
    requires uses { AreUsesOf made.now.mesh.tetrahedra uses.now }
    requires met { AreTrianglesMetByFaces made.now.mesh.points made.now.mesh.triangles
        made.now.mesh.tetrahedra }
    requires facets { AreFacetsThere made.now.mesh.triangles made.now.complex }
    ensures { IfOk result (AreFaceRowsOf made.now.mesh.points made.now.mesh.tetrahedra
        made.now.complex made.now.mesh.triangles false) }
{
    let mesh = &made.mesh;
    let marked = MarkedList {
        points: &mesh.points,
        list: &mesh.tetrahedra,
        complex: &made.complex,
        triangles: &mesh.triangles,
    };
    used_faces(alloc, &marked, uses, false)
}

/// The points of an array and the added ones behind them.
fn points_of(alloc: Global, table: &NodeTable, added: &[GridPoint]) -> Result<Vec<Place>, NoMemory>
    ensures { IfOk result (λ made. made.items
        ≡ map place_of (table.now.listed ++ added.now)) }
{
    let mut points = Vec::with_capacity(alloc, table.listed.len())?;
    add_places(table.listed.as_slice(), &mut points)?;
    add_places(added, &mut points)?;
    Ok(points)
}

/// The lists of a mesh.
fn lists_of(
    alloc: Global,
    table: &NodeTable,
    mesh: &ComplexMesh,
    faces: &FaceRows,
    pairs: &Pairs,
) -> Result<ArrayMesh, NoMemory>
    requires begins { length table.now.points ≤ length mesh.now.points }
    requires few { length table.now.listed + length (added_to table.now mesh.now) < 2 ^ 32 - 1 }
    requires cells { All (λ t. AreNamed (names_of table.now mesh.now) (numbers t))
        mesh.now.tetrahedra }
    requires faces { All (λ f. AreNamed (names_of table.now mesh.now) (marked_corners f))
        faces.now }
    requires marks { IfSome mesh.now.marks (λ ms. length ms ≡ length mesh.now.tetrahedra) }
    requires pairs { pairs.now ≡ pairs_of mesh.now.tetrahedra }
    ensures { IfOk result (λ made. AreListsOf table.now mesh.now faces.now (lists_of made)) }
{
    let added = &mesh.points.as_slice()[table.points.len()..];
    let names = names_of(alloc, table, added.len() as u32)?;
    Ok(ArrayMesh {
        halvings: table.grid.halvings,
        points: points_of(alloc, table, added)?,
        cells: cells_of(alloc, &names, &mesh.tetrahedra, &mesh.marks, pairs)?,
        faces: named_faces(alloc, &names, faces)?,
    })
}

/// The lists of the mesh of a complex of arrays. The complex is only for the contract.
fn lists_on(
    alloc: Global,
    _complex: &ArrayComplex<'_>,
    made: &Meshed,
) -> Result<ArrayMesh, NoMemory>
    requires table { IsArrayTable _complex.now.options.halvings _complex.now.points.now
        made.now.table }
    requires there { HasParts _complex.now }
    requires budget { _complex.now.options.budget ≤ most_added }
    requires mesh { IsComplexMesh (mesh_options made.now.table _complex.now)
        made.now.table.points made.now.complex made.now.mesh }
    requires complex { made.now.complex ≡ complex_on made.now.table _complex.now }
    ensures { IfOk result (λ lists. IsArrayMesh _complex.now (lists_of lists)) }
{
    let uses = uses_of(alloc, &made.mesh.tetrahedra)?;
    let faces = faces_of(alloc, made, &uses)?;
    let pairs = pair_uses(alloc, &made.mesh.tetrahedra, &uses)?;
    lists_of(alloc, &made.table, &made.mesh, &faces, &pairs)
}

/// The mesh of a complex of arrays. Of equal points the first one counts; a coordinate of the mesh
/// is a whole number over 2^halvings, where the unit is halved as often as the options allow and
/// all points fit.
///
/// Refusals: `TooMany`, over 4,000,000 points, or over 100,000,000 that may be added; `OffGrid`, a
/// coordinate over 2^29 in size; `BadIndex`, a part that is not there; `Unmeshed`, as of
/// `mesh_complex`; `NoMemory`.
pub fn mesh_arrays(alloc: Global, complex: &ArrayComplex<'_>) -> Result<ArrayMesh, ComplexFault>
    ensures mesh { IfOk result (λ made. IsArrayMesh complex.now (lists_of made)) }
    ensures fault { IfErr result (IsComplexFault complex.now) }
{
    let table = bound_table(alloc, complex)?;
    let made = mesh_on(alloc, complex, table)?;
    Ok(lists_on(alloc, complex, &made)?)
}

/// The lengths of the lists of a mesh.
fn counts_of(made: &ArrayMesh) -> Counts
    ensures { result ≡ counts_of (lists_of made.now) }
{
    Counts {
        points: made.points.len(),
        cells: made.cells.len(),
        faces: made.faces.len(),
        halvings: made.halvings,
    }
}

/// Writes the mesh of a complex of arrays to the front of three arrays, and answers the lengths.
/// What lies behind stays, and on a refusal all of the arrays.
///
/// Refusals: as of `mesh_arrays`, and `NoRoom` where an array is shorter than its list.
pub fn mesh_into(
    alloc: Global,
    complex: &ArrayComplex<'_>,
    points: &mut [Place],
    cells: &mut [Cell],
    faces: &mut [MarkedFace],
) -> Result<Counts, ComplexFault>
    ensures mesh { IfOk result (λ counts. IsArrayMesh complex.now
        (lists_in counts points.new cells.new faces.new)) }
    ensures within { IfOk result
        (HasRoom (length points.old) (length cells.old) (length faces.old)) }
    ensures points_behind { IfOk result
        (λ counts. drop counts.points points.new ≡ drop counts.points points.old) }
    ensures cells_behind { IfOk result
        (λ counts. drop counts.cells cells.new ≡ drop counts.cells cells.old) }
    ensures faces_behind { IfOk result
        (λ counts. drop counts.faces faces.new ≡ drop counts.faces faces.old) }
    ensures fault { IfErr result (IsMeshedFault complex.now
        (length points.old) (length cells.old) (length faces.old)) }
    ensures points_kept { OnErr result (points.new ≡ points.old) }
    ensures cells_kept { OnErr result (cells.new ≡ cells.old) }
    ensures faces_kept { OnErr result (faces.new ≡ faces.old) }
{
    let made = mesh_arrays(alloc, complex)?;
    let counts = counts_of(&made);
    if counts.points > points.len() || counts.cells > cells.len() || counts.faces > faces.len() {
        return Err(ComplexFault::NoRoom { counts });
    }
    points[..counts.points].copy_from_slice(made.points.as_slice());
    cells[..counts.cells].copy_from_slice(made.cells.as_slice());
    faces[..counts.faces].copy_from_slice(made.faces.as_slice());
    Ok(counts)
}

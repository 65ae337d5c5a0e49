//! Meshes the input of a run.

ghost use Rattle.std.specs.Prelude.{◌≡◌, ◌≤◌, ◌⊎◌, ◌<◌, ◌-◌, ◌+◌, ◌^◌, true, false, Ok, length, drop, AllPairs, IfOk, IfErr, IfSome, MatchResult, OnOk};
ghost use Rattle.command_words.specs.Meaning.{AreInRange};
ghost use Rattle.geo_laws.specs.Delaunay.{delaunay_rows, AreCoplanar, RowBefore};
ghost use Rattle.geo_laws.specs.Faces.{AreHullFacesOf};
ghost use Rattle.complex_mesh.specs.Meshing.{IsProtectionFault, MeshesSo};
ghost use Rattle.complex_mesh.specs.Protection.{IsProtectedTo};
ghost use Rattle.node_files.specs.Folding.{names_with};
ghost use Rattle.node_files.specs.Limits.{AreIndexable};
ghost use Rattle.node_files.specs.Writing.{IsNearGrid, IsNodeTable};
ghost use Rattle.plc_files.specs.Folding.{HasCornersBelow};
ghost use Rattle.plc_files.specs.Binding.{HasWeights};
ghost use Rattle.plc_files.specs.Checks.{corners_check, HasFewParts};
ghost use Rattle.run_steps.specs.Meshing.{grid_options, mesh_options, IsSmall, IsOverLimit, IsMeshableBound, BoundAnswer, IsUnmeshed, IsFlatRefusal, mesh_on, mesh_of_complex, mesh_in, without_decimals, IsBoundOn, PointsMeshOf, MeshOf, MeshAnswer, OutputsAnswer};
ghost use Rattle.run_steps.specs.Faults.{IsOfRead, status_of_bind, status_of_fault, status_of_weights};
ghost use Rattle.run_steps.specs.declared.status.LimitKind.TheVariants.{Grid as OnGrid};
ghost use Rattle.run_steps.specs.declared.status.Status.TheVariants.{Limit, NoMemory as Wanting};
ghost use Rattle.command_words.specs.Names.{file_name};
ghost use Rattle.command_words.specs.declared.options.Extension.TheVariants.{Node};
ghost use Rattle.run_steps.specs.Steps.{AndThen};
ghost use Rattle.run_steps.specs.Outputs.{IsWritable, IsHullOf};
ghost use Rattle.run_steps.specs.Reading.{IsSound};

use crate::input::Input;
use crate::meshed::{HulledMesh, Meshed};
use crate::outputs::{Outputs, asks_hull_alone, outputs_of};
use crate::status::{LimitKind, Status};
use cavity_insert::{BuildFault, HulledList, delaunay, delaunay_with_hull};
use command_words::{Extension, Options, file_name};
use complex_mesh::{ComplexMesh, MeshFault, MeshOptions, mesh_complex};
use geo_laws::{Complex, FacetTriangles, Points, TetList};
use grid_coords::DecimalPoints;
use mesh_files::Faces;
use node_files::{GridOptions, Limits, Names, NodeFault, NodeTable, NodeText, names_of, settle};
use plc_files::{PlcFault, PlcText, bind, check_sizes, fold};
use std::alloc::Global;
use std::mem;
use tet_ports::{Name, NoMemory};
use weighted_mesh::{RegularFault, RegularMesh, regular_mesh};

/// The points and the complex of an input on their grid.
#[derive(Drop)]
pub struct Bound {
    pub table: NodeTable,
    pub complex: Complex,
}

/// The files and the summary of the mesh of points, or of a complex. It refuses with the first in
/// this order: all points in one plane, then, for a complex, the refusals of `mesh_complex`; or
/// when out of memory.
pub fn mesh_outputs(alloc: Global, options: &Options, bound: Bound) -> Result<Outputs, Status>
    requires { IsMeshableBound options.now bound }
    ensures { AndThen (MeshAnswer options.now bound) (OutputsAnswer options.now) result }
{
    let made = mesh_bound(alloc, options, bound)?;
    write_out(alloc, options, &made)
}

/// How the options put points on a grid.
fn grid_options(options: &Options) -> GridOptions
    ensures { result ≡ grid_options options.now }
{
    GridOptions {
        decimals: options.decimals,
        halvings: options.halvings,
    }
}

/// The points on their grid, where equal ones are folded, and the complex on them. It refuses with
/// the first limit that the input is over, or when out of memory.
pub fn bind_input(
    alloc: Global,
    limits: Limits,
    options: &Options,
    input: Input,
) -> Result<Bound, Status>
    requires limits { AreIndexable limits }
    requires input { IsSound input }
    requires ranges { AreInRange options.now }
    ensures answer { BoundAnswer limits options.now input result }
    ensures meshable { IfOk result (IsMeshableBound options.now) }
{
    let Input { nodes, complex } = input;
    bind_nodes(alloc, limits, options, nodes, &complex)
}

/// As `bind_input`, borrowing the complex.
pub fn bind_nodes(
    alloc: Global,
    limits: Limits,
    options: &Options,
    nodes: NodeText,
    complex: &PlcText,
) -> Result<Bound, Status>
    requires limits { AreIndexable limits }
    requires input { IsSound (record { nodes = nodes; complex = complex.now }) }
    requires ranges { AreInRange options.now }
    ensures answer { BoundAnswer limits options.now
        (record { nodes = nodes; complex = complex.now }) result }
    ensures meshable { IfOk result (IsMeshableBound options.now) }
{
    let first = nodes.first;
    match settle(alloc, limits, nodes, &grid_options(options)) {
        Ok(table) => {
            let complex = bind_on(alloc, limits, complex, first, &table)?;
            Ok(Bound { table, complex })
        }
        Err(NodeFault::TooMany { count, most }) => Err(Status::Limit {
            what: LimitKind::Points { count, most },
        }),
        Err(NodeFault::Range { line }) => Err(limit_before(limits, complex, line)),
        Err(NodeFault::NoMemory) => Err(Status::NoMemory),
        Err(NodeFault::Text(_)) => unreachable!(),
    }
}

/// The complex on the points of a table, with its corners renumbered to the kept points.
fn bind_on(
    alloc: Global,
    limits: Limits,
    text: &PlcText,
    first: u32,
    table: &NodeTable,
) -> Result<Complex, Status>
    requires limits { AreIndexable limits }
    requires corners { corners_check first (length table.now.listed) text.now ≡ Ok tt }
    requires few { HasFewParts text.now }
    requires table { IsNodeTable table.now }
    requires listed { length table.now.listed < 2 ^ 32 - 1 }
    ensures bound { IfOk result (IsBoundOn limits text.now first table.now) }
    ensures over { IfErr result (IsOverLimit limits text.now) }
    ensures corners { IfOk result (HasCornersBelow (length table.now.points)) }
    ensures weights { IfOk result HasWeights }
{
    let count = table.listed.len() as u64;
    match bind(alloc, limits, text, first, count, &table.grid) {
        Ok(bound) => Ok(fold(alloc, &bound, table)?),
        Err(fault) => Err(binding_refused(fault)),
    }
}

/// The limit that the complex is over, which comes before the limit of the grid; else the limit of
/// the grid at this line.
fn limit_before(limits: Limits, text: &PlcText, line: usize) -> Status
    ensures { IsSmall limits text.now × (result ≡ Limit (OnGrid line))
        ⊎ IsOverLimit limits text.now result }
{
    match check_sizes(limits, text) {
        Ok(()) => Status::Limit {
            what: LimitKind::Grid { line },
        },
        Err(fault) => binding_refused(fault),
    }
}

/// The status of a run whose complex cannot be bound to the grid, by the fault.
fn binding_refused(fault: PlcFault) -> Status
    requires { IsOfRead fault }
    ensures { result ≡ status_of_bind fault }
{
    match fault {
        PlcFault::Facets { count, most } => Status::Limit {
            what: LimitKind::Facets { count, most },
        },
        PlcFault::Corners { line, count, most } => Status::Limit {
            what: LimitKind::Corners { line, count, most },
        },
        PlcFault::NoMemory => Status::NoMemory,
        PlcFault::Text(_) => unreachable!(),
    }
}

/// The mesh of points alone, of weighted points, or of a complex.
fn mesh_bound(alloc: Global, options: &Options, bound: Bound) -> Result<HulledMesh, Status>
    requires { IsMeshableBound options.now bound }
    ensures answer { MeshAnswer options.now bound (mesh_in result) }
    ensures writable { IfOk result (λ made. IsWritable made.mesh) }
    ensures hull { IfOk result (λ made. IfSome made.hull (IsHullOf made.mesh)) }
{
    if options.piecewise {
        let mesh = mesh_plc(alloc, options, bound)?;
        return Ok(HulledMesh { mesh, hull: None });
    }
    if options.weighted {
        let mesh = mesh_weighted(alloc, options, bound)?;
        return Ok(HulledMesh { mesh, hull: None });
    }
    mesh_delaunay(alloc, options, bound)
}

/// The mesh of points alone, with its hull where the options ask for no other faces.
fn mesh_delaunay(alloc: Global, options: &Options, bound: Bound) -> Result<HulledMesh, Status>
    requires { IsMeshableBound options.now bound }
    ensures answer { PointsMeshOf false options.now bound (mesh_in result) }
    ensures writable { IfOk result (λ made. IsWritable made.mesh) }
    ensures hull { IfOk result (λ made. IfSome made.hull (IsHullOf made.mesh)) }
{
    let ListAndHull { rows, hull } = rows_and_hull(alloc, options, &bound)?;
    let mesh = mesh_on(alloc, bound.table, rows, None)?;
    Ok(HulledMesh { mesh, hull })
}

/// The mesh of weighted points.
fn mesh_weighted(alloc: Global, options: &Options, bound: Bound) -> Result<Meshed, Status>
    requires { IsMeshableBound options.now bound }
    ensures answer { PointsMeshOf true options.now bound result }
    ensures writable { IfOk result IsWritable }
{
    match regular_mesh(alloc, &bound.table) {
        Ok(RegularMesh { rows, hidden }) => Ok(mesh_on(alloc, bound.table, rows, Some(hidden))?),
        Err(fault) => Err(weights_refused(alloc, &options.base, fault)),
    }
}

/// The status of a run whose weighted points, in the file with this base, have no mesh; or out of
/// memory.
fn weights_refused(alloc: Global, base: &Name, fault: RegularFault) -> Status
    ensures { (result ≡ status_of_weights (file_name base.now Node) fault) ⊎ (result ≡ Wanting) }
{
    match fault {
        RegularFault::Text(fault) => match file_name(alloc, base, Extension::Node) {
            Ok(name) => Status::BadText { name, fault },
            Err(_) => Status::NoMemory,
        },
        RegularFault::TooHeavy { line } => Status::Limit {
            what: LimitKind::Weight { line },
        },
        RegularFault::Flat => Status::Flat,
        RegularFault::NoMemory => Status::NoMemory,
    }
}

/// The mesh of points alone with these rows.
fn mesh_on(
    alloc: Global,
    table: NodeTable,
    rows: TetList,
    hidden: Option<usize>,
) -> Result<Meshed, NoMemory>
    requires table { IsNodeTable table }
    requires few { length table.listed ≤ 2 ^ 31 }
    ensures { IfOk result (λ mesh. mesh ≡ mesh_on table rows hidden) }
{
    let points = points_from(alloc, &table.points, 0)?;
    let names = names_of(alloc, &table, 0)?;
    Ok(Meshed {
        table: without_decimals(alloc, table),
        added: Points::new(alloc),
        points,
        names,
        complex: Complex::new(alloc),
        triangles: FacetTriangles::new(alloc),
        tetrahedra: rows,
        marks: None,
        hidden,
    })
}

/// A list of tetrahedra, and the faces of its hull, where they are known.
#[derive(Drop)]
pub struct ListAndHull {
    pub rows: TetList,
    pub hull: Option<Faces>,
}

/// The Delaunay list of points, with its hull where the options ask for no other faces.
fn rows_and_hull(alloc: Global, options: &Options, bound: &Bound) -> Result<ListAndHull, Status>
    requires { IsMeshableBound options.now bound.now }
    ensures rows { IfOk result (λ made. made.rows ≡ delaunay_rows bound.now.table.points) }
    ensures ascending { IfOk result (λ made. AllPairs RowBefore made.rows) }
    ensures hull { IfOk result (λ made. IfSome made.hull (AreHullFacesOf made.rows)) }
    ensures not_flat { OnOk result (¬ AreCoplanar bound.now.table.points) }
    ensures refused { IfErr result (IsFlatRefusal bound.now) }
{
    if asks_hull_alone(options) {
        match delaunay_with_hull(alloc, &bound.table.points) {
            Ok(HulledList { rows, hull }) => Ok(ListAndHull {
                rows,
                hull: Some(hull),
            }),
            Err(BuildFault::Flat) => Err(Status::Flat),
            Err(BuildFault::NoMemory) => Err(Status::NoMemory),
        }
    } else {
        match delaunay(alloc, &bound.table.points) {
            Ok(rows) => Ok(ListAndHull { rows, hull: None }),
            Err(BuildFault::Flat) => Err(Status::Flat),
            Err(BuildFault::NoMemory) => Err(Status::NoMemory),
        }
    }
}

/// The mesh of a complex.
fn mesh_plc(alloc: Global, options: &Options, bound: Bound) -> Result<Meshed, MeshFault>
    requires { IsMeshableBound options.now bound }
    ensures meshed { IfOk result (λ mesh. MeshOf true options.now bound (Ok mesh)) }
    ensures refused { IfErr result (λ fault. IsUnmeshed options.now bound (status_of_fault fault)) }
    ensures writable { IfOk result IsWritable }
{
    let made = made_of(alloc, options, &bound)?;
    let mesh = complex_meshed(alloc, bound, made)?;
    Ok(mesh)
}

/// Meshes a complex on its points.
fn made_of(alloc: Global, options: &Options, bound: &Bound) -> Result<ComplexMesh, MeshFault>
    requires { IsMeshableBound options.now bound.now }
    ensures { MeshesSo (mesh_options options.now bound.now.table) bound.now.table.points
        bound.now.complex result }
{
    let points = points_from(alloc, &bound.table.points, 0)?;
    mesh_complex(
        alloc,
        points,
        &bound.complex,
        &mesh_options(options, &bound.table),
    )
}

/// The points of an input and, behind them, those that protection of its complex adds.
pub fn protected_points(
    alloc: Global,
    options: &Options,
    bound: &Bound,
) -> Result<Points, MeshFault>
    requires { IsMeshableBound options.now bound.now }
    ensures { MatchResult result
        (IsProtectedTo (mesh_options options.now bound.now.table) bound.now.table.points
        bound.now.complex)
        (IsProtectionFault (mesh_options options.now bound.now.table) bound.now.table.points
        bound.now.complex) }
{
    let points = points_from(alloc, &bound.table.points, 0)?;
    complex_mesh::protected_points(
        alloc,
        points,
        &bound.complex,
        &mesh_options(options, &bound.table),
    )
}

/// The points that were added to those of a table, and the names of all.
#[derive(Drop)]
struct Added {
    points: Points,
    names: Names,
}

/// The points behind those of the table, and the names of all points.
fn added_to(alloc: Global, table: &NodeTable, points: &Points) -> Result<Added, NoMemory>
    requires begins { length table.now.points ≤ length points.now }
    requires few { length table.now.listed +
        (length points.now - length table.now.points) < 2 ^ 32 - 1 }
    ensures points { IfOk result (λ added. added.points
        ≡ drop (length table.now.points) points.now) }
    ensures names { IfOk result (λ added. added.names
        ≡ names_with table.now (length added.points)) }
{
    let added = points_from(alloc, points, table.points.len())?;
    let names = names_of(alloc, table, added.len() as u32)?;
    Ok(Added {
        points: added,
        names,
    })
}

/// The mesh of a complex, with its point list and the points added to it.
fn with_added(alloc: Global, bound: Bound, made: ComplexMesh, added: Added) -> Meshed
    requires { IsNodeTable bound.table }
    ensures { result ≡ record (mesh_of_complex bound made) {
      table = without_decimals bound.table;
      added = added.points;
      names = added.names;
    } }
{
    Meshed {
        table: without_decimals(alloc, bound.table),
        added: added.points,
        points: made.points,
        names: added.names,
        complex: bound.complex,
        triangles: made.triangles,
        tetrahedra: made.tetrahedra,
        marks: made.marks,
        hidden: None,
    }
}

/// The mesh of a complex on the points of a table; `made` has these points first and the added ones
/// behind them.
pub fn complex_meshed(alloc: Global, bound: Bound, made: ComplexMesh) -> Result<Meshed, NoMemory>
    requires table { IsNodeTable bound.table }
    requires begins { length bound.table.points ≤ length made.points }
    requires few { length bound.table.listed +
        (length made.points - length bound.table.points) < 2 ^ 32 - 1 }
    ensures { IfOk result (λ mesh. mesh ≡ mesh_of_complex bound made) }
{
    let added = added_to(alloc, &bound.table, &made.points)?;
    Ok(with_added(alloc, bound, made, added))
}

/// A point list without the decimals of its points, whose memory is freed: once the points are on
/// their grid nothing is written from the decimals.
fn without_decimals(alloc: Global, mut table: NodeTable) -> NodeTable
    requires { IsNodeTable table }
    ensures same { result ≡ without_decimals table }
    ensures table { IsNodeTable result }
{
    mem::replace(&mut table.decimals, DecimalPoints::new(alloc)).let_go();
    table
}

/// How the options make the mesh of a complex.
fn mesh_options(options: &Options, table: &NodeTable) -> MeshOptions
    ensures { result ≡ mesh_options options.now table.now }
{
    MeshOptions {
        halvings: table.grid.halvings,
        budget: options.budget,
        keep_hull: options.keep_hull,
        keep_facets: options.keep_facets,
        regions: options.regions,
    }
}

/// The points of a list from this place on.
fn points_from(alloc: Global, points: &Points, first: usize) -> Result<Points, NoMemory>
    requires { first ≤ length points.now }
    ensures { IfOk result (λ list. list ≡ drop first points.now) }
{
    let mut list = Points::new(alloc);
    list.extend_from_slice(&points.as_slice()[first..])?;
    Ok(list)
}

/// The files and the summary of a mesh.
fn write_out(alloc: Global, options: &Options, made: &HulledMesh) -> Result<Outputs, Status>
    requires mesh { IsWritable made.now.mesh }
    requires near { IsNearGrid options.now.origin made.now.mesh.table.grid }
    requires hull { IfSome made.now.hull (IsHullOf made.now.mesh) }
    ensures { OutputsAnswer options.now made.now.mesh result }
{
    Ok(outputs_of(alloc, options, made)?)
}

//! The texts of a small mesh that viewers and solvers read, byte for byte.

ghost use Rattle.std.specs.Prelude.{◌≡◌, ◌≤◌, ◌<◌, ◌^◌, ◌++◌, [], ◌∷◌, length, All, IfOk, IfSome};
ghost use Rattle.node_files.specs.Limits.{tetgen_limits};
ghost use Rattle.node_files.specs.Writing.{IsNodeTable};
ghost use Rattle.solver_files.specs.Mesh.{mesh_of, IsWritten};

use geo_laws::{Complex, Points, Tet, TetList};
use incidence::Marks;
use mesh_files::{FaceRow, FaceRows, Names, edges_of};
use node_files::{GridOptions, Limits, NodeFault, NodeTable, read_node, settle};
use sign_predicates::{GridPoint, RatPoint};
use solver_files::{
    SecondMesh, WholeMesh, write_msh, write_second_ele, write_second_face, write_second_msh,
    write_second_node, write_second_vtk, write_vtk,
};
use std::alloc::Global;
use std::test::Fail;
use tet_ports::{Bytes, NoMemory};

/// Four places, of which the first is listed twice.
const NODE: &[u8] = b"5 3 0 0\n1 0 0 0\n2 1 0 0\n3 0 0 0\n4 0 1 0\n5 0 0 0.5\n";

const VTK: &str = "# vtk DataFile Version 3.0\ntetgen\nASCII\nDATASET UNSTRUCTURED_GRID\n\
    POINTS 6 double\n0 0 0\n1 0 0\n0 0 0\n0 1 0\n0 0 0.5\n1 1 0.5\n\
    CELLS 5 22\n4 0 1 3 4\n4 1 3 4 5\n3 0 1 3\n3 0 1 4\n3 1 3 4\n\
    CELL_TYPES 5\n10\n10\n5\n5\n5\n\
    CELL_DATA 5\nSCALARS region double 1\nLOOKUP_TABLE default\n7\n0\n0\n0\n0\n\
    SCALARS marker long 1\nLOOKUP_TABLE default\n0\n0\n5\n-1\n0\n";

const MSH: &str = "$MeshFormat\n2.2 0 8\n$EndMeshFormat\n\
    $Nodes\n6\n1 0 0 0\n2 1 0 0\n3 0 0 0\n4 0 1 0\n5 0 0 0.5\n6 1 1 0.5\n$EndNodes\n\
    $Elements\n5\n1 4 2 7 7 1 2 4 5\n2 4 2 0 0 2 4 5 6\n\
    3 2 2 5 5 1 2 4\n4 2 2 0 0 1 2 5\n5 2 2 0 0 2 4 5\n$EndElements\n";

const SECOND_NODE: &str = "15 3 0 0\n1 0 0 0\n2 1 0 0\n3 0 0 0\n4 0 1 0\n5 0 0 0.5\n6 1 1 0.5\n\
    7 0.5 0 0\n8 0 0.5 0\n9 0 0 0.25\n10 0.5 0.5 0\n11 0.5 0 0.25\n12 1 0.5 0.25\n\
    13 0 0.5 0.25\n14 0.5 1 0.25\n15 0.5 0.5 0.5\n";

const SECOND_ELE: &str = "2 10 1\n1 1 2 4 5 13 9 7 10 11 8 7\n\
    2 2 4 5 6 15 12 10 13 14 11 glass\n";

const SECOND_FACE: &str = "3 1\n1 1 2 4 10 8 7 5\n2 1 2 5 11 9 7 -1\n3 2 4 5 13 11 10 0\n";

const SECOND_VTK: &str = "# vtk DataFile Version 3.0\ntetgen\nASCII\n\
    DATASET UNSTRUCTURED_GRID\n\
    POINTS 15 double\n0 0 0\n1 0 0\n0 0 0\n0 1 0\n0 0 0.5\n1 1 0.5\n\
    0.5 0 0\n0 0.5 0\n0 0 0.25\n0.5 0.5 0\n0.5 0 0.25\n1 0.5 0.25\n\
    0 0.5 0.25\n0.5 1 0.25\n0.5 0.5 0.5\n\
    CELLS 5 43\n10 0 1 3 4 6 9 7 8 10 12\n10 1 3 4 5 9 12 10 11 13 14\n\
    6 0 1 3 6 9 7\n6 0 1 4 6 10 8\n6 1 3 4 9 12 10\n\
    CELL_TYPES 5\n24\n24\n22\n22\n22\n\
    CELL_DATA 5\nSCALARS region double 1\nLOOKUP_TABLE default\n7\n0\n0\n0\n0\n\
    SCALARS marker long 1\nLOOKUP_TABLE default\n0\n0\n5\n-1\n0\n";

const SECOND_MSH: &str = "$MeshFormat\n2.2 0 8\n$EndMeshFormat\n\
    $Nodes\n15\n1 0 0 0\n2 1 0 0\n3 0 0 0\n4 0 1 0\n5 0 0 0.5\n6 1 1 0.5\n\
    7 0.5 0 0\n8 0 0.5 0\n9 0 0 0.25\n10 0.5 0.5 0\n11 0.5 0 0.25\n12 1 0.5 0.25\n\
    13 0 0.5 0.25\n14 0.5 1 0.25\n15 0.5 0.5 0.5\n$EndNodes\n\
    $Elements\n5\n1 11 2 7 7 1 2 4 5 7 10 8 9 13 11\n\
    2 11 2 0 0 2 4 5 6 10 13 11 12 15 14\n\
    3 9 2 5 5 1 2 4 7 10 8\n4 9 2 0 0 1 2 5 7 11 9\n5 9 2 0 0 2 4 5 10 13 11\n\
    $EndElements\n";

const FIRST: Tet = Tet {
    a: 0,
    b: 1,
    c: 2,
    d: 3,
};

const SECOND: Tet = Tet {
    a: 1,
    b: 2,
    c: 3,
    d: 4,
};

const FACES: [FaceRow; 3] = [
    FaceRow {
        a: 0,
        b: 1,
        c: 2,
        marker: 5,
    },
    FaceRow {
        a: 0,
        b: 1,
        c: 3,
        marker: -1,
    },
    FaceRow {
        a: 1,
        b: 2,
        c: 3,
        marker: 0,
    },
];

/// The bytes as text.
fn text_of(bytes: &Bytes) -> &str {
    std::str::from_utf8(bytes.as_slice()).unwrap_or("no text")
}

/// The points that are listed.
fn table_of(alloc: Global) -> Result<NodeTable, NodeFault>
    ensures table { IfOk result IsNodeTable }
    ensures few { IfOk result (λ table. length table.listed ≤ tetgen_limits.points) }
{
    let options = GridOptions {
        decimals: None,
        halvings: 12,
    };
    let bytes = Bytes::from_slice(alloc, NODE)?;
    settle(alloc, Limits::tetgen(), read_node(alloc, &bytes)?, &options)
}

/// The point that is added, where a grid unit is 1 / (10 * 2^12).
fn added_points(alloc: Global) -> Result<Points, NoMemory>
    ensures { IfOk result (λ points. length points ≡ 1) }
{
    let mut points = Points::new(alloc);
    points.push(GridPoint {
        x: 40_960,
        y: 40_960,
        z: 20_480,
    })?;
    Ok(points)
}

/// Two regions, of which the second has no number for an attribute.
fn regions_of(alloc: Global) -> Result<Complex, NoMemory>
    ensures { IfOk result (λ complex. length complex.regions ≡ 2) }
{
    let at = RatPoint {
        x: 0,
        y: 0,
        z: 0,
        w: 1,
    };
    let mut complex = Complex::new(alloc);
    complex.add_region(at, &Bytes::from_slice(alloc, b"7")?)?;
    complex.add_region(at, &Bytes::from_slice(alloc, b"glass")?)?;
    Ok(complex)
}

/// The points by the numbers of corners.
fn corner_points(alloc: Global) -> Result<Points, NoMemory> {
    let mut points = Points::new(alloc);
    for (x, y, z) in [
        (0, 0, 0),
        (40_960, 0, 0),
        (0, 40_960, 0),
        (0, 0, 20_480),
        (40_960, 40_960, 20_480),
    ] {
        points.push(GridPoint { x, y, z })?;
    }
    Ok(points)
}

/// The texts of a mesh.
#[derive(Drop)]
struct Texts {
    vtk: Bytes,
    msh: Bytes,
    second_node: Bytes,
    second_ele: Bytes,
    second_face: Bytes,
    second_vtk: Bytes,
    second_msh: Bytes,
}

/// The texts of a mesh, of both orders.
fn texts_of(alloc: Global, whole: &WholeMesh<'_>) -> Result<Texts, NoMemory>
    requires { IsWritten (mesh_of whole.now) }
{
    if whole.table.grid.halvings > 17 {
        return Err(NoMemory);
    }
    let sides = edges_of(alloc, whole.list)?;
    let points = corner_points(alloc)?;
    let mesh = SecondMesh {
        whole: *whole,
        sides: &sides,
        points: &points,
    };
    Ok(Texts {
        vtk: write_vtk(alloc, whole)?,
        msh: write_msh(alloc, whole)?,
        second_node: write_second_node(alloc, &mesh, 1)?,
        second_ele: write_second_ele(alloc, &mesh, 1)?,
        second_face: write_second_face(alloc, &mesh, 1)?,
        second_vtk: write_second_vtk(alloc, &mesh)?,
        second_msh: write_second_msh(alloc, &mesh)?,
    })
}

/// The texts of two tetrahedra and three faces over the points, each tetrahedron in a region.
fn written(alloc: Global, table: &NodeTable) -> Result<Texts, NoMemory>
    requires table { IsNodeTable table.now }
    requires few { length table.now.listed ≤ tetgen_limits.points }
{
    let added = added_points(alloc)?;
    let complex = regions_of(alloc)?;
    let mut names = Names::new(alloc);
    names.extend_from_slice(&[0, 1, 3, 4, 5])?;
    let mut list = TetList::new(alloc);
    list.extend_from_slice(&[FIRST, SECOND])?;
    let mut marks = Marks::new(alloc);
    marks.extend_from_slice(&[Some(0), Some(1)])?;
    let mut faces = FaceRows::new(alloc);
    faces.extend_from_slice(&FACES)?;
    let mesh = WholeMesh {
        origin: None,
        table,
        added: &added,
        list: &list,
        marks: Some(&marks),
        complex: &complex,
        faces: &faces,
        names: &names,
    };
    texts_of(alloc, &mesh)
}

#[test]
fn texts_for_viewers_and_solvers(rt: HostRuntime) -> Result<(), Fail> {
    let table = table_of(rt.alloc())?;
    let texts = written(rt.alloc(), &table)?;
    assert_eq!(rt; text_of(&texts.vtk), VTK);
    assert_eq!(rt; text_of(&texts.msh), MSH);
    assert_eq!(rt; text_of(&texts.second_node), SECOND_NODE);
    assert_eq!(rt; text_of(&texts.second_ele), SECOND_ELE);
    assert_eq!(rt; text_of(&texts.second_face), SECOND_FACE);
    assert_eq!(rt; text_of(&texts.second_vtk), SECOND_VTK);
    assert_eq!(rt; text_of(&texts.second_msh), SECOND_MSH);
    Ok(())
}

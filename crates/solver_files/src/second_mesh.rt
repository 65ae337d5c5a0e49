//! A mesh of second order, and the numbers of its corners.
ghost use Rattle.std.specs.Prelude.{◌≡◌, ◌≤◌, ◌<◌, ◌++◌, ◌∷◌, [], AllPairs, flat_map, length, All, OnOk};
ghost use Rattle.geo_laws.specs.Faces.{SideBefore};
ghost use Rattle.mesh_files.specs.Texts.{AreNamed};
ghost use Rattle.solver_files.specs.Mesh.{mesh_of, points_of};
ghost use Rattle.solver_files.specs.Second.{second_of, second_count, is_before, place_of, corner_number, middle_number, number_field, corner_fields, IsSecond};

use crate::WholeMesh;
use crate::line::{put_count, put_number};
use geo_laws::{Points, Side};
use mesh_files::Edges;
use tet_ports::{Bytes, NoMemory};

/// A mesh of second order: its tetrahedra and faces have the midpoints of their edges as further
/// corners.
#[derive(Clone, Copy)]
pub struct SecondMesh<'a> {
    pub whole: WholeMesh<'a>,
    /// The edges of the tetrahedra, ascending.
    pub sides: &'a Edges,
    /// The points by the numbers of corners.
    pub points: &'a Points,
}

impl<'a> SecondMesh<'a> {
    /// The number of points and midpoints.
    pub(crate) fn count(&self) -> u128
        ensures { result ≡ second_count (second_of self.now) }
    {
        self.whole.point_count() + self.sides.len() as u128
    }
}

/// Whether one edge comes before another: by their lesser ends, then by their greater ones.
fn is_before(s: Side, t: Side) -> bool
    ensures { result ≡ is_before s t }
{
    s.a < t.a || s.a == t.a && s.b < t.b
}

/// The place of an edge among edges that ascend, found by halving.
fn place_of(sides: &Edges, edge: Side) -> usize
    requires { AllPairs SideBefore sides.now }
    ensures value { result ≡ place_of sides.now edge }
    ensures bound { result ≤ length sides.now }
{
    sides.as_slice().partition_point(
        |side: &Side| -> bool
            ensures { result ≡ is_before side.now edge }
        { is_before(*side, edge) },
    )
}

/// The number of a point in a file.
fn corner_number(mesh: &SecondMesh<'_>, first: u32, corner: u32) -> u64
    requires { corner < length mesh.now.whole.names.now }
    ensures { result ≡ corner_number (second_of mesh.now) first corner }
{
    u64::from(mesh.whole.names.at(corner as usize)) + u64::from(first)
}

/// The number of the midpoint of an edge in a file.
fn middle_number(mesh: &SecondMesh<'_>, first: u32, edge: Side) -> u128
    requires { IsSecond (second_of mesh.now) }
    ensures { result ≡ middle_number (second_of mesh.now) first edge }
{
    let place = place_of(mesh.sides, edge) as u128;
    mesh.whole.point_count() + place + u128::from(first)
}

/// Appends a space and the number of a point.
fn put_corner(
    mesh: &SecondMesh<'_>,
    first: u32,
    corner: u32,
    out: &mut Bytes,
) -> Result<(), NoMemory>
    requires { corner < length mesh.now.whole.names.now }
    ensures { OnOk result (out.new
        ≡ out.old ++ number_field (corner_number (second_of mesh.now) first corner)) }
{
    out.push(b' ')?;
    put_number(corner_number(mesh, first, corner), out)
}

/// Appends a space and the number of the midpoint of an edge.
fn put_middle(
    mesh: &SecondMesh<'_>,
    first: u32,
    edge: Side,
    out: &mut Bytes,
) -> Result<(), NoMemory>
    requires { IsSecond (second_of mesh.now) }
    ensures { OnOk result (out.new
        ≡ out.old ++ number_field (middle_number (second_of mesh.now) first edge)) }
{
    out.push(b' ')?;
    put_count(middle_number(mesh, first, edge), out)
}

/// Appends the numbers of points.
fn put_corners(
    mesh: &SecondMesh<'_>,
    first: u32,
    corners: &[u32],
    out: &mut Bytes,
) -> Result<(), NoMemory>
    requires { AreNamed mesh.now.whole.names.now corners.now }
    ensures { OnOk result (out.new ≡ out.old ++ flat_map
        (λ v. number_field (corner_number (second_of mesh.now) first v)) corners.now) }
{
    for corner in corners {
        put_corner(mesh, first, *corner, out)?;
    }
    Ok(())
}

/// Appends the numbers of the midpoints of edges.
fn put_middles(
    mesh: &SecondMesh<'_>,
    first: u32,
    edges: &[Side],
    out: &mut Bytes,
) -> Result<(), NoMemory>
    requires { IsSecond (second_of mesh.now) }
    ensures { OnOk result (out.new ≡ out.old ++ flat_map
        (λ s. number_field (middle_number (second_of mesh.now) first s)) edges.now) }
{
    for edge in edges {
        put_middle(mesh, first, *edge, out)?;
    }
    Ok(())
}

/// Appends the numbers of corners, and behind them those of the midpoints of edges.
pub(crate) fn put_corner_fields(
    mesh: &SecondMesh<'_>,
    first: u32,
    corners: &[u32],
    edges: &[Side],
    out: &mut Bytes,
) -> Result<(), NoMemory>
    requires second { IsSecond (second_of mesh.now) }
    requires named { AreNamed mesh.now.whole.names.now corners.now }
    ensures { OnOk result (out.new
        ≡ out.old ++ corner_fields (second_of mesh.now) first corners.now edges.now) }
{
    put_corners(mesh, first, corners, out)?;
    put_middles(mesh, first, edges, out)
}

//! Midpoints of edges as text.
ghost use Rattle.std.specs.Prelude.{◌≡◌, ◌≤◌, ◌++◌, ◌∷◌, Some, OnOk};
ghost use Rattle.grid_coords.specs.Origins.{IsNear};
ghost use Rattle.geo_laws.specs.Delaunay.{point};
ghost use Rattle.node_files.specs.Writing.{fields_from, place_fields};
ghost use Rattle.solver_files.specs.Mesh.{mesh_of, spaced};
ghost use Rattle.solver_files.specs.Second.{second_of, finer, middle_of, middle_text, point_of, sum_of, IsSecond};

use crate::SecondMesh;
use geo_laws::{Points, Side};
use grid_coords::{Grid, WholePoint, print_from, print_grid};
use sign_predicates::GridPoint;
use tet_ports::{Bytes, NoMemory};

/// The coordinates of a midpoint, in units of the grid with one halving more.
#[derive(Clone, Copy)]
pub(crate) struct Middle {
    x: i32,
    y: i32,
    z: i32,
}

/// The point with this number, and the origin where there is none.
fn point_at(points: &Points, number: u32) -> GridPoint
    ensures { result ≡ point points.now number }
{
    if (number as usize) < points.len() {
        points.at(number as usize)
    } else {
        GridPoint { x: 0, y: 0, z: 0 }
    }
}

/// The grid with one halving more.
fn finer(grid: &Grid) -> Grid
    requires { grid.now.halvings ≤ 17 }
    ensures { result ≡ finer grid.now }
{
    Grid {
        decimals: grid.decimals,
        halvings: grid.halvings + 1,
    }
}

/// The sums of the coordinates of two points: their midpoint, in units of the grid with one halving
/// more.
fn sum_of(p: GridPoint, q: GridPoint) -> Middle
    ensures { point_of result ≡ sum_of p q }
{
    Middle {
        x: p.x + q.x,
        y: p.y + q.y,
        z: p.z + q.z,
    }
}

/// Appends the coordinates of a midpoint that is not measured from an origin.
fn put_grid_middle(grid: &Grid, m: Middle, out: &mut Bytes) -> Result<(), NoMemory>
    requires { grid.now.halvings ≤ 18 }
    ensures { OnOk result (out.new ≡ out.old ++ spaced (place_fields grid.now (point_of m))) }
{
    print_grid(grid, m.x, out)?;
    out.push(b' ')?;
    print_grid(grid, m.y, out)?;
    out.push(b' ')?;
    print_grid(grid, m.z, out)
}

/// Appends the coordinates of a midpoint that is measured from an origin.
fn put_middle_from(o: &WholePoint, grid: &Grid, m: Middle, out: &mut Bytes) -> Result<(), NoMemory>
    requires halvings { grid.now.halvings ≤ 18 }
    requires near { IsNear grid.now.decimals o.now }
    ensures { OnOk result (out.new
        ≡ out.old ++ spaced (fields_from (Some o.now) grid.now (point_of m))) }
{
    print_from(o.x, grid, m.x, out)?;
    out.push(b' ')?;
    print_from(o.y, grid, m.y, out)?;
    out.push(b' ')?;
    print_from(o.z, grid, m.z, out)
}

/// Appends the coordinates of the midpoint of an edge, exact, with a space between two of them.
pub(crate) fn put_middle_place(
    mesh: &SecondMesh<'_>,
    edge: Side,
    out: &mut Bytes,
) -> Result<(), NoMemory>
    requires { IsSecond (second_of mesh.now) }
    ensures { OnOk result (out.new ≡ out.old ++ middle_text (second_of mesh.now) edge) }
{
    let grid = finer(&mesh.whole.table.grid);
    let middle = sum_of(point_at(mesh.points, edge.a), point_at(mesh.points, edge.b));
    match &mesh.whole.origin {
        None => put_grid_middle(&grid, middle, out),
        Some(o) => put_middle_from(o, &grid, middle, out),
    }
}

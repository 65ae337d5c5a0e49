//! Points as text.
ghost use Rattle.std.specs.Prelude.{◌≡◌, ◌≤◌, ◌++◌, ◌∷◌, Some, OnOk};
ghost use Rattle.grid_coords.specs.Origins.{IsNear};
ghost use Rattle.node_files.specs.Writing.{fields_from, place_fields, IsNearGrid};
ghost use Rattle.solver_files.specs.Mesh.{mesh_of, place_text, spaced, IsWritten};

use crate::WholeMesh;
use grid_coords::{Grid, WholePoint, print_from, print_grid};
use sign_predicates::GridPoint;
use tet_ports::{Bytes, NoMemory};

/// Appends the coordinates of a point that is not measured from an origin.
fn put_grid_place(grid: &Grid, p: GridPoint, out: &mut Bytes) -> Result<(), NoMemory>
    requires { grid.now.halvings ≤ 18 }
    ensures { OnOk result (out.new ≡ out.old ++ spaced (place_fields grid.now p)) }
{
    print_grid(grid, p.x, out)?;
    out.push(b' ')?;
    print_grid(grid, p.y, out)?;
    out.push(b' ')?;
    print_grid(grid, p.z, out)
}

/// Appends the coordinates of a point that is measured from an origin.
fn put_place_from(
    o: &WholePoint,
    grid: &Grid,
    p: GridPoint,
    out: &mut Bytes,
) -> Result<(), NoMemory>
    requires halvings { grid.now.halvings ≤ 18 }
    requires near { IsNear grid.now.decimals o.now }
    ensures { OnOk result (out.new ≡ out.old ++ spaced (fields_from (Some o.now) grid.now p)) }
{
    print_from(o.x, grid, p.x, out)?;
    out.push(b' ')?;
    print_from(o.y, grid, p.y, out)?;
    out.push(b' ')?;
    print_from(o.z, grid, p.z, out)
}

/// Appends the coordinates of a point, measured from an origin where there is one, with a space
/// between two of them.
pub fn put_place_from_origin(
    origin: &Option<WholePoint>,
    grid: &Grid,
    p: GridPoint,
    out: &mut Bytes,
) -> Result<(), NoMemory>
    requires halvings { grid.now.halvings ≤ 18 }
    requires near { IsNearGrid origin.now grid.now }
    ensures { OnOk result (out.new ≡ out.old ++ spaced (fields_from origin.now grid.now p)) }
{
    match origin {
        None => put_grid_place(grid, p, out),
        Some(o) => put_place_from(o, grid, p, out),
    }
}

/// Appends the coordinates of a point of a mesh.
pub(crate) fn put_place(mesh: &WholeMesh<'_>, p: GridPoint, out: &mut Bytes) -> Result<(), NoMemory>
    requires { IsWritten (mesh_of mesh.now) }
    ensures { OnOk result (out.new ≡ out.old ++ place_text (mesh_of mesh.now) p) }
{
    put_place_from_origin(&mesh.origin, &mesh.table.grid, p, out)
}

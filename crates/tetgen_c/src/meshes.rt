//! The mesh of a complex whose parts are arrays, for C, in arrays of the caller and in blocks.

ghost use Rattle.std.specs.Prelude.{◌≡◌, pos, drop, length};
ghost use Rattle.array_meshes.specs.Meshes.{HasRoom, IsArrayMesh, counts_of, lists_in, lists_of};
ghost use Rattle.tetgen_c.specs.Statuses.{HasCounts, IsUnmeshed, IsUnmeshedInto, counts_in};

use array_meshes::{
    ArrayComplex, ArrayMesh, Cell, Counts, MarkedFace, Place, mesh_arrays, mesh_into,
};
use std::alloc::Global;
use std::mem::forget;

/// Writes the mesh of a complex to the front of three arrays, the lengths of its lists to `counts`,
/// and answers 0; what lies behind stays. On any other status the arrays stay: 4, a part that is
/// named is not there; 5, a limit; 6 to 9, as of the program; 10, out of memory; 20, an array is
/// too short, and `counts` has the lengths. After any other status `counts` is 0.
#[unsafe(no_mangle)]
pub extern "C" fn tetgen_mesh_into(
    alloc: Global,
    complex: &ArrayComplex<'_>,
    points: &mut [Place],
    cells: &mut [Cell],
    faces: &mut [MarkedFace],
    counts: &mut Counts,
) -> i32
    ensures mesh { result ≡ pos 0
        → IsArrayMesh complex.now (lists_in counts.new points.new cells.new faces.new) }
    ensures within { result ≡ pos 0
        → HasRoom (length points.old) (length cells.old) (length faces.old) counts.new }
    ensures points_behind { result ≡ pos 0
        → drop counts.new.points points.new ≡ drop counts.new.points points.old }
    ensures cells_behind { result ≡ pos 0
        → drop counts.new.cells cells.new ≡ drop counts.new.cells cells.old }
    ensures faces_behind { result ≡ pos 0
        → drop counts.new.faces faces.new ≡ drop counts.new.faces faces.old }
    ensures refused { ¬ result ≡ pos 0 → IsUnmeshedInto complex.now
        (length points.old) (length cells.old) (length faces.old) counts.new result }
    ensures points_kept { ¬ result ≡ pos 0 → points.new ≡ points.old }
    ensures cells_kept { ¬ result ≡ pos 0 → cells.new ≡ cells.old }
    ensures faces_kept { ¬ result ≡ pos 0 → faces.new ≡ faces.old }
{
    match mesh_into(alloc, complex, points, cells, faces) {
        Ok(made) => {
            *counts = made;
            0
        }
        Err(fault) => {
            *counts = fault.wanted();
            i32::from(fault.code())
        }
    }
}

/// The lists of a mesh in blocks of memory that C frees, each where it is not empty.
#[repr(C)]
#[derive(Drop)]
pub struct MeshBlocks {
    pub points: *mut Place,
    pub point_count: usize,
    pub cells: *mut Cell,
    pub cell_count: usize,
    pub faces: *mut MarkedFace,
    pub face_count: usize,
    pub halvings: u32,
}

/// Hands the lists of a mesh over.
fn hand_out(made: ArrayMesh, out: &mut MeshBlocks)
    ensures { counts_in out.new ≡ counts_of (lists_of made) }
{
    let ArrayMesh {
        halvings,
        mut points,
        mut cells,
        mut faces,
    } = made;
    out.halvings = halvings;
    out.point_count = points.len();
    out.cell_count = cells.len();
    out.face_count = faces.len();
    if points.len() > 0 {
        out.points = points.as_mut_ptr();
        forget(points);
    }
    if cells.len() > 0 {
        out.cells = cells.as_mut_ptr();
        forget(cells);
    }
    if faces.len() > 0 {
        out.faces = faces.as_mut_ptr();
        forget(faces);
    }
}

/// Makes the mesh of a complex in blocks of memory, which C frees, and answers 0. On any other
/// status, as of `tetgen_mesh_into`, `out` stays.
#[unsafe(no_mangle)]
pub extern "C" fn tetgen_mesh(
    alloc: Global,
    complex: &ArrayComplex<'_>,
    out: &mut MeshBlocks,
) -> i32
    ensures counts { result ≡ pos 0 → HasCounts complex.now (counts_in out.new) }
    ensures refused { ¬ result ≡ pos 0 → IsUnmeshed complex.now result }
    ensures kept { ¬ result ≡ pos 0 → out.new ≡ out.old }
{
    match mesh_arrays(alloc, complex) {
        Ok(made) => {
            hand_out(made, out);
            0
        }
        Err(fault) => i32::from(fault.code()),
    }
}

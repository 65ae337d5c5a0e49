//! The text of the `.face` file of all faces, straight from their uses.
ghost use Rattle.std.specs.Prelude.{◌≡◌, true, List, count_by, length, All, IfOk};
ghost use Rattle.geo_laws.specs.Delaunay.{numbers};
ghost use Rattle.incidence.specs.Uses.{AreUsesOf};
ghost use Rattle.mesh_files.specs.FaceRows.{AreFaceRowsOf, AreTrianglesMetByFaces, AreFacetsThere};
ghost use Rattle.mesh_files.specs.Texts.{face_text, AreNamed};
ghost use Rattle.mesh_files.specs.declared.markers.FaceRow.{FaceRow};

use crate::face::append_face;
use crate::facet_faces::facet_faces;
use crate::line::{append_line, room_for_lines};
use crate::markers::{MarkedList, is_first, row_at};
use crate::names::{Names, numbers_of};
use incidence::Uses;
use std::alloc::Global;
use tet_ports::{Bytes, NoMemory};

/// The text of the `.face` file of all faces: that of `write_face` for the rows of `used_faces`,
/// without a list of these. Faces are numbered from `first`, and a corner is written by its name,
/// counted from `first`. The only refusal is out of memory.
///
/// Format: TetGen user's manual, "File formats".
pub fn write_all_faces(
    alloc: Global,
    mesh: &MarkedList<'_>,
    uses: &Uses,
    names: &Names,
    first: u32,
) -> Result<Bytes, NoMemory>
    requires named { All (λ row. AreNamed names.now (numbers row)) mesh.now.list.now }
    requires met { AreTrianglesMetByFaces mesh.now.points.now mesh.now.triangles.now
        mesh.now.list.now }
    requires facets { AreFacetsThere mesh.now.triangles.now mesh.now.complex.now }
    requires uses { AreUsesOf mesh.now.list.now uses.now }
    ensures { IfOk result (λ text. (found : List FaceRow) × AreFaceRowsOf
        mesh.now.points.now mesh.now.list.now mesh.now.complex.now mesh.now.triangles.now true found
        × (text ≡ face_text names.now first found)) }
{
    let MarkedList { list, complex, .. } = *mesh;
    let facets = facet_faces(alloc, mesh.triangles)?;
    let count = first_count(uses);
    let mut out = room_for_lines(alloc, count, numbers_of(names, first))?;
    append_line(&mut out, count as u64, &[1])?;
    let mut place = 0;
    for at in 0..uses.len() {
        if is_first(list, uses, at) {
            if let Some(row) = row_at(list, uses, complex, &facets, true, at) {
                append_face(&mut out, place, row, names, first)?;
                place += 1;
            }
        }
    }
    out.finish()
}

/// The number of uses that are marked as the first of their faces, which is the number of faces.
fn first_count(uses: &Uses) -> usize
    ensures { result ≡ count_by (λ u. u.first) uses.now }
{
    uses.as_slice().iter().filter(|u| u.first).count()
}

//! The text of the `.face` file.
ghost use Rattle.std.specs.Prelude.{◌≡◌, ◌++◌, ◌+◌, ◌<◌, ◌^◌, All, OnOk, IfOk};
ghost use Rattle.mesh_files.specs.Texts.{marked_corners, face_text, face_line, AreNamed};

use crate::line::{Lines, append_line, room_for_lines};
use crate::markers::{FaceRow, FaceRows};
use crate::names::{Names, numbered, numbers_of};
use std::alloc::Global;
use tet_ports::{Bytes, NoMemory};

/// The text of the `.face` file of a list of faces. Faces are numbered from `first`, and a corner
/// is written by its name, counted from `first`.
///
/// Format: TetGen user's manual, "File formats".
pub fn write_face(
    alloc: Global,
    rows: &FaceRows,
    names: &Names,
    first: u32,
) -> Result<Bytes, NoMemory>
    requires { All (λ face. AreNamed names.now (marked_corners face)) rows.now }
    ensures { IfOk result (λ text. text ≡ face_text names.now first rows.now) }
{
    let mut out = room_for_lines(alloc, rows.len(), numbers_of(names, first))?;
    append_line(&mut out, rows.len() as u64, &[1])?;
    for i in 0..rows.len() {
        append_face(&mut out, i as u64, rows.at(i), names, first)?;
    }
    out.finish()
}

/// Appends the line of the face at a place.
#[inline(always)]
pub(crate) fn append_face(
    out: &mut Lines,
    place: u64,
    face: FaceRow,
    names: &Names,
    first: u32,
) -> Result<(), NoMemory>
    requires place { place < 2 ^ 63 }
    requires named { AreNamed names.now (marked_corners face) }
    ensures { OnOk result (out.new ≡ out.old ++ face_line names.now first place face) }
{
    append_line(
        out,
        place + u64::from(first),
        &[
            numbered(names, first, face.a),
            numbered(names, first, face.b),
            numbered(names, first, face.c),
            face.marker,
        ],
    )
}

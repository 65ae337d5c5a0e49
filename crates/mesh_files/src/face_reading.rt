//! The faces of a `.face` file.

ghost use Rattle.std.specs.Prelude.{◌≡◌, ◌<◌, ◌-◌, ◌+◌, ◌^◌, length, All, IfOk};
ghost use Rattle.tet_text.specs.Lines.{content_lines, line_count_of};
ghost use Rattle.tet_text.specs.Reading.{left_after};
ghost use Rattle.tet_text.specs.Views.{content_left, line_total};
ghost use Rattle.mesh_files.specs.Outcome.{MeshGives};
ghost use Rattle.mesh_files.specs.ReadRows.{marker_field, face_row, face_rows_of, face_list_of, IsFaceBelow};

use crate::field_reading::{Listed, read_corner, read_flag_head, read_number};
use crate::rows::{Row, read_rows};
use crate::{FaceRow, FaceRows, MeshFault};
use std::alloc::Global;
use tet_ports::Bytes;
use tet_text::{Fields, Lines, TextFault};

/// The marker of a face where the flag is set, and else 0.
#[tactic(auto, unfolding(crate::specs::ReadRows::marker_field))]
fn read_marker(flag: bool, fields: &mut Fields) -> Result<i64, TextFault>
    ensures value { left_after (λ n. n) result fields.new.fields
        ≡ marker_field flag fields.old.line fields.old.fields }
    ensures line { fields.new.line ≡ fields.old.line }
{
    if flag { fields.want_whole() } else { Ok(0) }
}

impl Row for FaceRow {
    ghost row_of = { face_row };

    ghost is_below = { IsFaceBelow };

    /// A row with the wanted number: its corners, and a marker where the flag is set.
    #[tactic(auto, unfolding(crate::specs::ReadRows::face_row))]
    fn read(
        listed: Listed,
        flag: bool,
        wanted: u64,
        fields: &mut Fields,
    ) -> Result<FaceRow, TextFault> {
        read_number(wanted, fields)?;
        let a = read_corner(listed, fields)?;
        let b = read_corner(listed, fields)?;
        let c = read_corner(listed, fields)?;
        let marker = read_marker(flag, fields)?;
        fields.want_end()?;
        Ok(FaceRow { a, b, c, marker })
    }
}

#[tactic(auto, unfolding(crate::specs::ReadRows::face_rows_of))]
fn read_list(alloc: Global, listed: Listed, lines: &mut Lines) -> Result<FaceRows, MeshFault>
    requires points { listed.points < 2 ^ 32 - 1 }
    requires lines { line_total lines.old + 1 < 2 ^ 64 }
    ensures value { MeshGives (λ rows. rows) result
        (face_rows_of listed (line_total lines.old) (content_left lines.old)) }
    ensures there { IfOk result (All (IsFaceBelow listed.points)) }
{
    let mut fields = lines.want_line()?;
    let head = read_flag_head(&mut fields)?;
    let rows = read_rows(alloc, listed, head, lines)?;
    lines.want_end()?;
    Ok(rows)
}

/// The faces of a `.face` file of fewer than 2^32 - 1 bytes, by the places of their corners in a
/// list of `points` points. In the file rows and corners are numbered from `first`. Where the file
/// has no markers, the marker of each face is 0. `Text` exactly where the file is not in the
/// grammar, with its first fault: a corner that is none of the points is BadIndex. The only other
/// refusal is out of memory.
pub fn read_face(
    alloc: Global,
    bytes: &Bytes,
    first: u32,
    points: u64,
) -> Result<FaceRows, MeshFault>
    requires points { points < 2 ^ 32 - 1 }
    requires short { length bytes.now < 2 ^ 32 - 1 }
    ensures value { MeshGives (λ rows. rows) result
        (face_list_of first points (line_count_of bytes.now) (content_lines bytes.now)) }
    ensures there { IfOk result (All (IsFaceBelow points)) }
{
    let mut lines = Lines::new(bytes.as_slice());
    read_list(alloc, Listed { first, points }, &mut lines)
}

//! The tetrahedra of an `.ele` file.

ghost use Rattle.std.specs.Prelude.{◌<◌, ◌-◌, ◌+◌, ◌^◌, length, All, IfOk};
ghost use Rattle.tet_text.specs.Lines.{content_lines, line_count_of};
ghost use Rattle.tet_text.specs.Views.{content_left, line_total};
ghost use Rattle.mesh_files.specs.Outcome.{MeshGives};
ghost use Rattle.mesh_files.specs.ReadRows.{tet_row, tets_of, ele_of, AreCornersBelow};

use crate::MeshFault;
use crate::field_reading::{Listed, pass_over, read_corner, read_four_head, read_number};
use crate::rows::{Row, read_rows};
use geo_laws::{Tet, TetList};
use std::alloc::Global;
use tet_ports::Bytes;
use tet_text::{Fields, Lines, TextFault};

impl Row for Tet {
    ghost row_of = { tet_row };

    ghost is_below = { AreCornersBelow };

    /// A row with the wanted number: its corners, and an attribute where the flag is set.
    #[tactic(auto, unfolding(crate::specs::ReadRows::tet_row))]
    fn read(
        listed: Listed,
        flag: bool,
        wanted: u64,
        fields: &mut Fields,
    ) -> Result<Tet, TextFault> {
        read_number(wanted, fields)?;
        let a = read_corner(listed, fields)?;
        let b = read_corner(listed, fields)?;
        let c = read_corner(listed, fields)?;
        let d = read_corner(listed, fields)?;
        pass_over(flag, fields)?;
        fields.want_end()?;
        Ok(Tet { a, b, c, d })
    }
}

#[tactic(auto, unfolding(crate::specs::ReadRows::tets_of))]
fn read_list(alloc: Global, listed: Listed, lines: &mut Lines) -> Result<TetList, MeshFault>
    requires points { listed.points < 2 ^ 32 - 1 }
    requires lines { line_total lines.old + 1 < 2 ^ 64 }
    ensures value { MeshGives (λ rows. rows) result
        (tets_of listed (line_total lines.old) (content_left lines.old)) }
    ensures there { IfOk result (All (AreCornersBelow listed.points)) }
{
    let mut fields = lines.want_line()?;
    let head = read_four_head(true, &mut fields)?;
    let rows = read_rows(alloc, listed, head, lines)?;
    lines.want_end()?;
    Ok(rows)
}

/// The tetrahedra of an `.ele` file of fewer than 2^32 - 1 bytes, by the places of their corners in
/// a list of `points` points. In the file rows and corners are numbered from `first`. Attributes
/// are passed over. `Text` exactly where the file is not in the grammar, with its first fault: a
/// corner that is none of the points is BadIndex. The only other refusal is out of memory.
pub fn read_ele(alloc: Global, bytes: &Bytes, first: u32, points: u64) -> Result<TetList, MeshFault>
    requires points { points < 2 ^ 32 - 1 }
    requires short { length bytes.now < 2 ^ 32 - 1 }
    ensures value { MeshGives (λ rows. rows) result
        (ele_of first points (line_count_of bytes.now) (content_lines bytes.now)) }
    ensures there { IfOk result (All (AreCornersBelow points)) }
{
    let mut lines = Lines::new(bytes.as_slice());
    read_list(alloc, Listed { first, points }, &mut lines)
}

//! Lists of numbered rows.

ghost use Rattle.std.specs.Prelude.{◌≡◌, ◌<◌, ◌-◌, ◌+◌, ◌^◌, ℕ, Bool, Result, All, IfOk};
ghost use Rattle.tet_text.specs.Lines.{ContentLine};
ghost use Rattle.tet_text.specs.Reading.{left_after};
ghost use Rattle.tet_text.specs.Repeated.{so_many};
ghost use Rattle.tet_text.specs.Views.{content_left, line_total};
ghost use Rattle.tet_text.specs.declared.fault.TextFault.{TextFault};
ghost use Rattle.mesh_files.specs.declared.field_reading.Listed.{Listed};
ghost use Rattle.mesh_files.specs.Outcome.{MeshGives};
ghost use Rattle.mesh_files.specs.Repeated.{next_row};

use crate::MeshFault;
use crate::field_reading::{Head, Listed};
use std::alloc::Global;
use tet_ports::Items;
use tet_text::{Fields, Lines, TextFault};

/// A row of a list: it begins with its number, and may have corners, which are points of a list.
pub(crate) trait Row: Copy {
    /// The row with a number that a line spells, with a further field where the flag is set.
    ghost row_of: { Listed → Bool → ℕ → ContentLine → Result Self TextFault };

    /// Whether each corner is one of the first *n* points.
    ghost is_below: { ℕ → Self → Type 0 };

    /// Reads the row with the wanted number.
    fn read(listed: Listed, flag: bool, wanted: u64, fields: &mut Fields) -> Result<Self, TextFault>
        requires { listed.points < 2 ^ 32 - 1 }
        ensures value { result ≡ row_of listed flag wanted fields.old }
        ensures there { IfOk result (is_below listed.points) };
}

/// Reads the next line as a row.
#[tactic(auto, unfolding(crate::specs::Repeated::next_row))]
fn read_next<R: Row>(
    listed: Listed,
    flag: bool,
    wanted: u64,
    lines: &mut Lines,
) -> Result<R, TextFault>
    requires points { listed.points < 2 ^ 32 - 1 }
    requires lines { line_total lines.old + 1 < 2 ^ 64 }
    ensures value { left_after (λ row. row) result (wanted + 1, content_left lines.new)
        ≡ next_row (R.row_of listed flag) (line_total lines.old) (wanted, content_left lines.old) }
    ensures there { IfOk result (R.is_below listed.points) }
    ensures count { line_total lines.new ≡ line_total lines.old }
{
    let mut fields = lines.want_line()?;
    R::read(listed, flag, wanted, &mut fields)
}

/// Reads `head.count` rows, numbered from `listed.first` on.
pub(crate) fn read_rows<R: Row>(
    alloc: Global,
    listed: Listed,
    head: Head,
    lines: &mut Lines,
) -> Result<Items<R>, MeshFault>
    requires points { listed.points < 2 ^ 32 - 1 }
    requires count { head.count < 10 ^ 18 }
    requires lines { line_total lines.old + 1 < 2 ^ 64 }
    ensures value { MeshGives (λ rows. (rows, (listed.first + head.count, content_left lines.new)))
        result (so_many (next_row (R.row_of listed head.flag) (line_total lines.old)) head.count
        (listed.first, content_left lines.old)) }
    ensures there { IfOk result (All (R.is_below listed.points)) }
    ensures count { line_total lines.new ≡ line_total lines.old }
{
    let mut rows = Items::new(alloc);
    for i in 0..head.count {
        let row = read_next(listed, head.flag, u64::from(listed.first) + i, lines)?;
        rows.push(row)?;
    }
    Ok(rows)
}

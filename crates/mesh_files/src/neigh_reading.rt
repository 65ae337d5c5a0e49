//! The neighbors of a `.neigh` file.

ghost use Rattle.std.specs.Prelude.{◌≡◌, ◌<◌, ◌-◌, ◌+◌, ◌^◌, length};
ghost use Rattle.tet_text.specs.Lines.{content_lines, line_count_of};
ghost use Rattle.tet_text.specs.Reading.{left_after};
ghost use Rattle.tet_text.specs.Views.{content_left, line_total};
ghost use Rattle.mesh_files.specs.Outcome.{MeshGives};
ghost use Rattle.mesh_files.specs.ReadRows.{neighbor_place, neighbor_at, across_row, neighbors_of, neigh_of};

use crate::MeshFault;
use crate::field_reading::{Listed, read_four_head, read_number};
use crate::rows::{Row, read_rows};
use incidence::Across;
use std::alloc::Global;
use tet_ports::{Bytes, Items};
use tet_text::{Fields, Lines, TextFault, TextKind};

/// A list of the neighbors of tetrahedra, one entry for each.
pub type Neighbors = Items<Across>;

/// The neighbor that a number names: a place, or none for -1. `None` where the number is neither.
fn place_of(first: u32, number: i64) -> Option<Option<usize>>
    ensures { result ≡ neighbor_place first number }
{
    let first = i64::from(first);
    if number >= first {
        return Some(Some((number - first) as usize));
    }
    if number == -1 { Some(None) } else { None }
}

/// Reads a neighbor.
#[tactic(auto, unfolding(crate::specs::ReadRows::neighbor_at))]
fn read_neighbor(first: u32, fields: &mut Fields) -> Result<Option<usize>, TextFault>
    ensures value { left_after (λ n. n) result fields.new.fields
        ≡ neighbor_at first fields.old.line fields.old.fields }
    ensures line { fields.new.line ≡ fields.old.line }
{
    let number = fields.want_whole()?;
    place_of(first, number).ok_or(TextFault {
        line: fields.line(),
        kind: TextKind::BadIndex,
    })
}

impl Row for Across {
    ghost row_of = { λ listed flag. across_row listed.first };

    ghost is_below = { λ points across. Unit {0} };

    /// A row with the wanted number: its four neighbors.
    #[tactic(auto, unfolding(crate::specs::ReadRows::across_row))]
    fn read(
        listed: Listed,
        _flag: bool,
        wanted: u64,
        fields: &mut Fields,
    ) -> Result<Across, TextFault> {
        let first = listed.first;
        read_number(wanted, fields)?;
        let n0 = read_neighbor(first, fields)?;
        let n1 = read_neighbor(first, fields)?;
        let n2 = read_neighbor(first, fields)?;
        let n3 = read_neighbor(first, fields)?;
        fields.want_end()?;
        Ok(Across { n0, n1, n2, n3 })
    }
}

#[tactic(auto, unfolding(crate::specs::ReadRows::neighbors_of))]
fn read_list(alloc: Global, first: u32, lines: &mut Lines) -> Result<Neighbors, MeshFault>
    requires { line_total lines.old + 1 < 2 ^ 64 }
    ensures { MeshGives (λ rows. rows) result
        (neighbors_of first (line_total lines.old) (content_left lines.old)) }
{
    let mut fields = lines.want_line()?;
    let head = read_four_head(false, &mut fields)?;
    let rows = read_rows(alloc, Listed { first, points: 0 }, head, lines)?;
    lines.want_end()?;
    Ok(rows)
}

/// The neighbors of a `.neigh` file of fewer than 2^32 - 1 bytes: for each tetrahedron and each
/// corner the place, from 0, that the number of the neighbor across the face opposite that corner
/// names, and none for -1. In the file rows are numbered from `first`; a neighbor with a number
/// that is neither -1 nor at least `first` is BadIndex. `Text` exactly where the file is not in the
/// grammar, with its first fault. The only other refusal is out of memory.
pub fn read_neigh(alloc: Global, bytes: &Bytes, first: u32) -> Result<Neighbors, MeshFault>
    requires { length bytes.now < 2 ^ 32 - 1 }
    ensures { MeshGives (λ rows. rows) result
        (neigh_of first (line_count_of bytes.now) (content_lines bytes.now)) }
{
    let mut lines = Lines::new(bytes.as_slice());
    read_list(alloc, first, &mut lines)
}

//! The text of the `.edge` file.
ghost use Rattle.std.specs.Prelude.{◌≡◌, ◌++◌, ◌+◌, ◌<◌, ◌^◌, All, OnOk, IfOk};
ghost use Rattle.geo_laws.specs.Faces.{side_numbers};
ghost use Rattle.mesh_files.specs.Texts.{edge_text, edge_line, AreNamed};

use crate::line::{Lines, append_line, room_for_lines};
use crate::names::{Names, numbered, numbers_of};
use geo_laws::Side;
use incidence::Edges;
use std::alloc::Global;
use tet_ports::{Bytes, NoMemory};

/// The text of the `.edge` file of a list of edges. Edges are numbered from `first`, and an end is
/// written by its name, counted from `first`.
///
/// Format: TetGen user's manual, "File formats".
pub fn write_edge(
    alloc: Global,
    edges: &Edges,
    names: &Names,
    first: u32,
) -> Result<Bytes, NoMemory>
    requires { All (λ side. AreNamed names.now (side_numbers side)) edges.now }
    ensures { IfOk result (λ text. text ≡ edge_text names.now first edges.now) }
{
    let mut out = room_for_lines(alloc, edges.len(), numbers_of(names, first))?;
    append_line(&mut out, edges.len() as u64, &[0])?;
    for i in 0..edges.len() {
        append_edge(&mut out, i as u64, edges.at(i), names, first)?;
    }
    out.finish()
}

/// Appends the line of the edge at a place.
fn append_edge(
    out: &mut Lines,
    place: u64,
    side: Side,
    names: &Names,
    first: u32,
) -> Result<(), NoMemory>
    requires place { place < 2 ^ 63 }
    requires named { AreNamed names.now (side_numbers side) }
    ensures { OnOk result (out.new ≡ out.old ++ edge_line names.now first place side) }
{
    append_line(
        out,
        place + u64::from(first),
        &[
            numbered(names, first, side.a),
            numbered(names, first, side.b),
        ],
    )
}

//! The neighbors of tetrahedra, and the text of the `.neigh` file.
ghost use Rattle.std.specs.Prelude.{◌≡◌, ◌++◌, ◌<◌, ◌^◌, length, OnOk, IfOk, IfSome};
ghost use Rattle.incidence.specs.Pairs.{pairs_of, IsAcrossWithin, AreAllWithin};
ghost use Rattle.mesh_files.specs.Texts.{neigh_text, neigh_line, neighbor};

use crate::line::{Lines, append_line, room_for_lines};
use geo_laws::TetList;
use incidence::{Across, Pairs, pair_faces};
use std::alloc::Global;
use tet_ports::{Bytes, NoMemory};

/// The neighbors of tetrahedra: at each corner the place of the least other tetrahedron that has
/// the face opposite it, if there is one. Only tests call it.
pub fn neighbors_of(alloc: Global, list: &TetList) -> Result<Pairs, NoMemory>
    ensures pairs { IfOk result (λ pairs. pairs ≡ pairs_of list.now) }
    ensures places { IfOk result (λ pairs. AreAllWithin (length pairs) pairs) }
{
    pair_faces(alloc, list)
}

/// The text of the `.neigh` file. Tetrahedra and neighbors are numbered from `first`; -1 stands for
/// none.
///
/// Format: TetGen user's manual, "File formats".
pub fn write_neigh(alloc: Global, pairs: &Pairs, first: u32) -> Result<Bytes, NoMemory>
    ensures { IfOk result (λ text. text ≡ neigh_text first pairs.now) }
{
    let mut out = room_for_lines(alloc, pairs.len(), numbers_of(pairs))?;
    append_line(&mut out, pairs.len() as u64, &[4])?;
    for i in 0..pairs.len() {
        append_neighbors(&mut out, i as u64, pairs.at(i), first)?;
    }
    out.finish()
}

/// The number of tetrahedra, or 0 where it needs more than 32 bits.
fn numbers_of(pairs: &Pairs) -> u32 {
    u32::try_from(pairs.len()).unwrap_or(0)
}

/// Appends the line of the tetrahedron at a place.
fn append_neighbors(out: &mut Lines, place: u64, across: Across, first: u32) -> Result<(), NoMemory>
    requires place { place < 2 ^ 63 }
    requires within { IsAcrossWithin (2 ^ 32) across }
    ensures { OnOk result (out.new ≡ out.old ++ neigh_line first place across) }
{
    let Across { n0, n1, n2, n3 } = across;
    append_line(
        out,
        place + u64::from(first),
        &[
            neighbor(n0, first),
            neighbor(n1, first),
            neighbor(n2, first),
            neighbor(n3, first),
        ],
    )
}

/// The number of the tetrahedron at a place, or -1 for none.
fn neighbor(place: Option<usize>, first: u32) -> i64
    requires { IfSome place (λ i. i < 2 ^ 32) }
    ensures { result ≡ neighbor first place }
{
    match place {
        Some(place) => place as i64 + i64::from(first),
        None => -1,
    }
}

//! The numbers by which files name points.
ghost use Rattle.std.specs.Prelude.{◌≡◌, ◌<◌, length};
ghost use Rattle.mesh_files.specs.Texts.{file_number};

use tet_ports::Items;

/// A list of names: for each point the place, from 0, by which files name it.
pub type Names = Items<u32>;

/// The number of a point in a file: its name, counted from `first`.
#[inline(always)]
pub(crate) fn numbered(names: &Names, first: u32, point: u32) -> i64
    requires { point < length names.now }
    ensures { result ≡ file_number names.now first point }
{
    i64::from(names.at(point as usize)) + i64::from(first)
}

/// One more than the file's number of the last point, where names ascend.
pub(crate) fn numbers_of(names: &Names, first: u32) -> u32 {
    match names.as_slice().last() {
        Some(last) => last.saturating_add(first).saturating_add(1),
        None => 0,
    }
}

//! The texts that report a check.

ghost use Rattle.std.specs.Prelude.{◌≡◌, ◌++◌, ◌+◌, codes, IfOk, OnOk};
ghost use Rattle.std.specs.Fmt.{decimal};
ghost use Rattle.mesh_check.specs.Telling.{defect_told, defect_text, row_text, two_rows_text, sound_line};

use crate::Defect;
use itoa::Buffer;
use std::alloc::Global;
use tet_ports::{Bytes, NoMemory};

/// Appends the number `place + first`, by which the files name a point, a tetrahedron or a face.
pub fn append_place(text: &mut Bytes, place: usize, first: u32) -> Result<(), NoMemory>
    ensures { OnOk result (text.new ≡ text.old ++ decimal (place + first)) }
{
    let number = place as u128 + u128::from(first);
    let mut buffer = Buffer::new();
    text.append(buffer.format(number).as_bytes())
}

/// Appends the number of a tetrahedron, and a text.
fn append_row(text: &mut Bytes, row: usize, first: u32, told: &[u8]) -> Result<(), NoMemory>
    ensures { OnOk result (text.new ≡ text.old ++ (row_text first row ++ told.now)) }
{
    text.append(b"row ")?;
    append_place(text, row, first)?;
    text.append(told)
}

/// Appends the numbers of two tetrahedra, and a text.
fn append_rows(
    text: &mut Bytes,
    one: usize,
    two: usize,
    first: u32,
    told: &[u8],
) -> Result<(), NoMemory>
    ensures { OnOk result (text.new ≡ text.old ++ (two_rows_text first one two ++ told.now)) }
{
    text.append(b"rows ")?;
    append_place(text, one, first)?;
    text.append(b" and ")?;
    append_place(text, two, first)?;
    text.append(told)
}

/// Appends the text on a stray face.
fn append_face(text: &mut Bytes, face: usize, first: u32) -> Result<(), NoMemory>
    ensures { OnOk result (text.new ≡ text.old
        ++ (codes "face " ++ decimal (face + first) ++ codes " belongs to no row")) }
{
    text.append(b"face ")?;
    append_place(text, face, first)?;
    text.append(b" belongs to no row")
}

fn append_defect(text: &mut Bytes, first: u32, defect: Defect) -> Result<(), NoMemory>
    ensures { OnOk result (text.new ≡ text.old ++ defect_told first defect) }
{
    match defect {
        Defect::NotPositive { row } => append_row(text, row, first, b" is not positive"),
        Defect::SameSide { one, two } => {
            append_rows(text, one, two, first, b" lie on one side of a face")
        }
        Defect::NeighborCount => text.append(b"neighbor rows miscounted"),
        Defect::WrongNeighbor { row, .. } => {
            append_row(text, row, first, b" has a wrong neighbor")
        }
        Defect::Stray { face } => append_face(text, face, first),
        Defect::Unlisted { row, .. } => append_row(text, row, first, b" has an unlisted face"),
        Defect::Bent { one, two } => {
            append_rows(text, one, two, first, b" are not locally Delaunay")
        }
    }
}

/// The text on a defect, where the files number points, tetrahedra and faces from `first` on.
pub fn defect_text(alloc: Global, first: u32, defect: Defect) -> Result<Bytes, NoMemory>
    ensures { IfOk result (λ text. text ≡ defect_text first defect) }
{
    let mut text = Bytes::from_slice(alloc, b"defect: ")?;
    append_defect(&mut text, first, defect)?;
    Ok(text)
}

/// The line on a sound mesh of `count` tetrahedra.
pub fn sound_line(alloc: Global, count: usize) -> Result<Bytes, NoMemory>
    ensures { IfOk result (λ line. line ≡ sound_line count) }
{
    let mut line = Bytes::from_slice(alloc, b"sound: ")?;
    append_place(&mut line, count, 0)?;
    line.append(b" tetrahedra\n")?;
    Ok(line)
}

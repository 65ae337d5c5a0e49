//! The text of the `.ele` file, with the attributes of regions.
ghost use Rattle.std.specs.Prelude.{◌≡◌, [], ◌∷◌, ◌++◌, ◌+◌, ◌<◌, ◌^◌, map, length, All};
ghost use Rattle.std.specs.Prelude.{IfSome, OnOk, IfOk};
ghost use Rattle.std.specs.Option.{option_copied};
ghost use Rattle.geo_laws.specs.Delaunay.{numbers};
ghost use Rattle.mesh_files.specs.Texts.{attribute_of, attributed_text, fields_then, ele_line};
ghost use Rattle.mesh_files.specs.Texts.{ele_text, ele_text_of, file_number, AreNamed};

use crate::line::{Lines, append_fields, append_line, room_for_lines};
use crate::names::{Names, numbered, numbers_of};
use geo_laws::{Complex, Tet, TetList};
use incidence::Marks;
use std::alloc::Global;
use tet_ports::{Bytes, NoMemory};

/// The text of the `.ele` file of a list of tetrahedra. Its rows are numbered from `first`, and a
/// corner is written by its name, counted from `first`. With marks, one for each tetrahedron, each
/// row ends with the attribute of the region that the mark names, by its place in the complex, from
/// 0, and with `0` where there is none. The only refusal is out of memory.
///
/// Format: TetGen user's manual, "File formats".
pub fn write_ele(
    alloc: Global,
    list: &TetList,
    marks: Option<&Marks>,
    complex: &Complex,
    names: &Names,
    first: u32,
) -> Result<Bytes, NoMemory>
    requires named { All (λ row. AreNamed names.now (numbers row)) list.now }
    requires long { IfSome marks (λ m. length m.now ≡ length list.now) }
    requires regions { IfSome marks (λ m. All (λ mark. IfSome mark
        (λ r. r < length complex.now.regions)) m.now) }
    ensures { IfOk result (λ text. text ≡ ele_text_of
        (option_copied marks.entry) complex.now.regions names.now first list.now) }
{
    match marks {
        Some(marks) => write_attributed(alloc, list, marks, complex, names, first),
        None => write_rows(alloc, list, names, first),
    }
}

/// The text without marks.
fn write_rows(alloc: Global, list: &TetList, names: &Names, first: u32) -> Result<Bytes, NoMemory>
    requires { All (λ row. AreNamed names.now (numbers row)) list.now }
    ensures { IfOk result (λ text. text ≡ ele_text names.now first list.now) }
{
    let mut out = room_for_lines(alloc, list.len(), numbers_of(names, first))?;
    append_line(&mut out, list.len() as u64, &[4, 0])?;
    for i in 0..list.len() {
        append_row(&mut out, i as u64, list.at(i), names, first)?;
    }
    out.finish()
}

/// Appends the line of the tetrahedron at a place.
fn append_row(
    out: &mut Lines,
    place: u64,
    row: Tet,
    names: &Names,
    first: u32,
) -> Result<(), NoMemory>
    requires place { place < 2 ^ 63 }
    requires named { AreNamed names.now (numbers row) }
    ensures { OnOk result (out.new ≡ out.old ++ ele_line names.now first place row) }
{
    append_corners(out, place, row, names, first, b'\n')
}

/// Appends the number and the corners of the tetrahedron at a place, and a byte.
#[inline(always)]
fn append_corners(
    out: &mut Lines,
    place: u64,
    row: Tet,
    names: &Names,
    first: u32,
    end: u8,
) -> Result<(), NoMemory>
    requires place { place < 2 ^ 63 }
    requires named { AreNamed names.now (numbers row) }
    ensures { OnOk result (out.new ≡ out.old ++ fields_then (place + first)
        (map (file_number names.now first) (numbers row)) (end ∷ [])) }
{
    append_fields(
        out,
        place + u64::from(first),
        &[
            numbered(names, first, row.a),
            numbered(names, first, row.b),
            numbered(names, first, row.c),
            numbered(names, first, row.d),
        ],
        end,
    )
}

/// The text with marks.
fn write_attributed(
    alloc: Global,
    list: &TetList,
    marks: &Marks,
    complex: &Complex,
    names: &Names,
    first: u32,
) -> Result<Bytes, NoMemory>
    requires named { All (λ row. AreNamed names.now (numbers row)) list.now }
    requires long { length marks.now ≡ length list.now }
    requires regions { All (λ mark. IfSome mark (λ r. r < length complex.now.regions)) marks.now }
    ensures { IfOk result (λ text. text ≡ attributed_text
        marks.now complex.now.regions names.now first list.now) }
{
    let mut out = room_for_lines(alloc, list.len(), numbers_of(names, first))?;
    append_line(&mut out, list.len() as u64, &[4, 1])?;
    for i in 0..list.len() {
        append_corners(&mut out, i as u64, list.at(i), names, first, b' ')?;
        end_with_attribute(&mut out, complex, marks.at(i))?;
    }
    out.finish()
}

/// Ends a line with the attribute of the region that the mark names, and `0` where there is none.
fn end_with_attribute(out: &mut Lines, complex: &Complex, mark: Option<u32>) -> Result<(), NoMemory>
    requires { IfSome mark (λ r. r < length complex.now.regions) }
    ensures { OnOk result (out.new ≡ out.old ++ (attribute_of complex.now.regions mark
        ++ 10 ∷ [])) }
{
    append_attribute(out, complex, mark)?;
    out.append(b"\n")
}

/// Appends the attribute of the region that the mark names, and `0` where there is none.
fn append_attribute(out: &mut Lines, complex: &Complex, mark: Option<u32>) -> Result<(), NoMemory>
    requires { IfSome mark (λ r. r < length complex.now.regions) }
    ensures { OnOk result (out.new ≡ out.old ++ attribute_of complex.now.regions mark) }
{
    match mark {
        Some(region) => out.append(complex.region(region).attribute.as_slice()),
        None => out.append(b"0"),
    }
}

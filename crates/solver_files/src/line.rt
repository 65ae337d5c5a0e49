//! Numbers and lines of numbers.
ghost use Rattle.std.specs.Prelude.{◌≡◌, ◌∷◌, ◌++◌, ◌<◌, ◌≤◌, length, OnOk};
ghost use Rattle.std.specs.Fmt.{decimal, signed_decimal};
ghost use Rattle.mesh_files.specs.Texts.{file_number, text_line};
ghost use Rattle.solver_files.specs.Mesh.{copies};

use itoa::Buffer;
use mesh_files::Names;
use tet_ports::{Bytes, NoMemory};

/// Appends a count.
pub(crate) fn put_count(n: u128, out: &mut Bytes) -> Result<(), NoMemory>
    ensures { OnOk result (out.new ≡ out.old ++ decimal n) }
{
    let mut buffer = Buffer::new();
    out.append(buffer.format(n).as_bytes())
}

/// Appends a count between two texts.
pub(crate) fn put_heading(
    before: &[u8],
    count: u128,
    after: &[u8],
    out: &mut Bytes,
) -> Result<(), NoMemory>
    ensures { OnOk result (out.new ≡ out.old ++ (before.now ++ decimal count ++ after.now)) }
{
    out.append(before)?;
    put_count(count, out)?;
    out.append(after)
}

/// Appends a number.
pub(crate) fn put_number(n: u64, out: &mut Bytes) -> Result<(), NoMemory>
    ensures { OnOk result (out.new ≡ out.old ++ decimal n) }
{
    let mut buffer = Buffer::new();
    out.append(buffer.format(n).as_bytes())
}

/// Appends a number that may be below zero.
pub(crate) fn put_signed(n: i64, out: &mut Bytes) -> Result<(), NoMemory>
    ensures { OnOk result (out.new ≡ out.old ++ signed_decimal n) }
{
    let mut buffer = Buffer::new();
    out.append(buffer.format(n).as_bytes())
}

/// Appends a space and a number.
fn put_field(n: i64, out: &mut Bytes) -> Result<(), NoMemory>
    ensures { OnOk result (out.new ≡ out.old ++ 32 ∷ signed_decimal n) }
{
    out.push(b' ')?;
    put_signed(n, out)
}

/// Appends a line: a number, and fields after it.
pub(crate) fn put_line(number: u64, fields: &[i64], out: &mut Bytes) -> Result<(), NoMemory>
    ensures { OnOk result (out.new ≡ out.old ++ text_line number fields.now) }
{
    put_number(number, out)?;
    for field in fields {
        put_field(*field, out)?;
    }
    out.push(b'\n')
}

/// Appends a text this many times.
pub(crate) fn put_copies(count: usize, text: &[u8], out: &mut Bytes) -> Result<(), NoMemory>
    ensures { OnOk result (out.new ≡ out.old ++ copies count text.now) }
{
    for _ in 0..count {
        out.append(text)?;
    }
    Ok(())
}

/// The number of a point in a file: its name, counted from `first`.
pub(crate) fn numbered(names: &Names, first: u32, point: u32) -> i64
    requires { point < length names.now }
    ensures { result ≡ file_number names.now first point }
{
    i64::from(names.at(point as usize)) + i64::from(first)
}

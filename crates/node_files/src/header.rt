//! The first line of a point list.

ghost use Rattle.std.specs.Prelude.{◌≡◌, ◌≤◌, drop, IfOk};
ghost use Rattle.tet_text.specs.Reading.{left_after};
ghost use Rattle.node_files.specs.Header.{is_count_in_range, count_within, count_or, header_of};

use tet_text::{Fields, TextFault, TextKind};

/// The numbers in the first line of a point list.
#[derive(Clone, Copy)]
pub(crate) struct Header {
    pub(crate) count: u64,
    pub(crate) attribute_count: u32,
    pub(crate) flag: bool,
}

fn is_within(least: u64, most: u64, count: u64) -> bool
    ensures { result ≡ is_count_in_range least most count }
{
    least <= count && count <= most
}

/// The next field as a count from `least` to `most`. NotANumber where it is no count, BadCount
/// where it is out of range. The field is consumed, even if it is refused.
#[tactic(auto, unfolding(crate::specs::Header::count_within))]
pub fn count_within(least: u64, most: u64, fields: &mut Fields) -> Result<u64, TextFault>
    ensures value { left_after (λ n. n) result fields.new.fields
        ≡ count_within least most fields.old.line fields.old.fields }
    ensures passed { fields.new.fields ≡ drop 1 fields.old.fields }
    ensures range { IfOk result (λ n. n ≤ most) }
    ensures line { fields.new.line ≡ fields.old.line }
{
    let count = fields.want_count()?;
    if is_within(least, most, count) {
        return Ok(count);
    }
    Err(TextFault {
        line: fields.line(),
        kind: TextKind::BadCount,
    })
}

/// The next field as a count from `least` to `most`, or the count `absent` where the line has no
/// further field. NotANumber where it is no count, BadCount where it is none of these. The field is
/// passed over, also if it is refused.
#[tactic(auto, using(crate::proofs::Counts::count_or_none, crate::proofs::Counts::count_or_some, crate::proofs::Counts::none_passed))]
pub fn count_or(absent: u64, least: u64, most: u64, fields: &mut Fields) -> Result<u64, TextFault>
    requires { absent ≤ most }
    ensures value { left_after (λ n. n) result fields.new.fields
        ≡ count_or absent least most fields.old.line fields.old.fields }
    ensures passed { fields.new.fields ≡ drop 1 fields.old.fields }
    ensures range { IfOk result (λ n. n ≤ most) }
    ensures line { fields.new.line ≡ fields.old.line }
{
    if fields.is_empty() {
        return Ok(absent);
    }
    count_within(least, most, fields)
}

/// What the first line says.
#[tactic(auto, unfolding(crate::specs::Header::header_of))]
pub(crate) fn read_header(fields: &mut Fields) -> Result<Header, TextFault>
    ensures { result ≡ header_of fields.old }
{
    let count = fields.want_count()?;
    count_or(3, 3, 3, fields)?;
    let attribute_count = count_or(0, 0, 100, fields)?;
    let flag = count_or(0, 0, 1, fields)?;
    fields.want_end()?;
    Ok(Header {
        count,
        attribute_count: attribute_count as u32,
        flag: flag == 1,
    })
}

//! Reads the fields of rows.

ghost use Rattle.std.specs.Prelude.{◌≡◌, ◌<◌, ◌+◌, ◌-◌, ◌^◌, IfOk};
ghost use Rattle.tet_text.specs.Reading.{left_after};
ghost use Rattle.mesh_files.specs.ReadFields.{is_listed, flag_at, numbered, corner_place_at, passed_over, four_head, flag_head};

use node_files::{count_or, count_within};
use tet_text::{Fields, TextFault, TextKind};

/// The first line of a list: the number of rows, and whether each ends with a further field.
#[derive(Clone, Copy)]
pub(crate) struct Head {
    pub(crate) count: u64,
    pub(crate) flag: bool,
}

/// The number of the first point in the file, and the number of points.
#[derive(Clone, Copy)]
pub(crate) struct Listed {
    pub(crate) first: u32,
    pub(crate) points: u64,
}

/// The flag, which may be missing, where there may be one.
#[tactic(auto, unfolding(crate::specs::ReadFields::flag_at))]
fn read_flag(flagged: bool, fields: &mut Fields) -> Result<bool, TextFault>
    ensures value { left_after (λ b. b) result fields.new.fields
        ≡ flag_at flagged fields.old.line fields.old.fields }
    ensures line { fields.new.line ≡ fields.old.line }
{
    if !flagged {
        return Ok(false);
    }
    let flag = count_or(0, 0, 1, fields)?;
    Ok(flag == 1)
}

/// Reads the number of rows, then a 4, then the flag where there may be one.
#[tactic(auto, unfolding(crate::specs::ReadFields::four_head))]
pub(crate) fn read_four_head(flagged: bool, fields: &mut Fields) -> Result<Head, TextFault>
    ensures value { result ≡ four_head flagged fields.old }
    ensures small { IfOk result (λ head. head.count < 10 ^ 18) }
{
    let count = fields.want_count()?;
    count_within(4, 4, fields)?;
    let flag = read_flag(flagged, fields)?;
    fields.want_end()?;
    Ok(Head { count, flag })
}

/// Reads the number of rows, then the flag, which may be missing.
#[tactic(auto, unfolding(crate::specs::ReadFields::flag_head))]
pub(crate) fn read_flag_head(fields: &mut Fields) -> Result<Head, TextFault>
    ensures value { result ≡ flag_head fields.old }
    ensures small { IfOk result (λ head. head.count < 10 ^ 18) }
{
    let count = fields.want_count()?;
    let flag = read_flag(true, fields)?;
    fields.want_end()?;
    Ok(Head { count, flag })
}

/// Reads the number of a row, which has to be `wanted`.
#[tactic(auto, unfolding(crate::specs::ReadFields::numbered))]
pub(crate) fn read_number(wanted: u64, fields: &mut Fields) -> Result<(), TextFault>
    ensures value { left_after (λ x. x) result fields.new.fields
        ≡ numbered wanted fields.old.line fields.old.fields }
    ensures line { fields.new.line ≡ fields.old.line }
{
    let number = fields.want_count()?;
    if number == wanted {
        return Ok(());
    }
    Err(TextFault {
        line: fields.line(),
        kind: TextKind::BadIndex,
    })
}

fn is_listed(listed: Listed, number: u64) -> bool
    requires { listed.points < 2 ^ 32 - 1 }
    ensures { result ≡ is_listed listed number }
{
    u64::from(listed.first) <= number && number < u64::from(listed.first) + listed.points
}

/// Reads a corner, as its place in the list of points.
#[tactic(auto, unfolding(crate::specs::ReadFields::corner_place_at))]
pub(crate) fn read_corner(listed: Listed, fields: &mut Fields) -> Result<u32, TextFault>
    requires { listed.points < 2 ^ 32 - 1 }
    ensures value { left_after (λ n. n) result fields.new.fields
        ≡ corner_place_at listed fields.old.line fields.old.fields }
    ensures there { IfOk result (λ n. n < listed.points) }
    ensures line { fields.new.line ≡ fields.old.line }
{
    let number = fields.want_count()?;
    if is_listed(listed, number) {
        return Ok((number - u64::from(listed.first)) as u32);
    }
    Err(TextFault {
        line: fields.line(),
        kind: TextKind::BadIndex,
    })
}

/// Skips a field where the flag is set.
#[tactic(auto, unfolding(crate::specs::ReadFields::passed_over))]
pub(crate) fn pass_over(flag: bool, fields: &mut Fields) -> Result<(), TextFault>
    ensures value { left_after (λ x. x) result fields.new.fields
        ≡ passed_over flag fields.old.line fields.old.fields }
    ensures line { fields.new.line ≡ fields.old.line }
{
    if flag {
        fields.want_field()?;
    }
    Ok(())
}

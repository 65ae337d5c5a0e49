//! What is told of a unit to whose multiples coordinates were rounded.

ghost use Rattle.std.specs.Prelude.{◌≡◌, ◌++◌, [], IfSome, OnOk};
ghost use Rattle.std.specs.Option.{option_map_or};
ghost use Rattle.command_words.specs.Meaning.{IsUnit};
ghost use Rattle.tetfit_run.specs.Hints.{half_of, multiples_line, unit_moved, unit_text};

use crate::places::append_units;
use tet_ports::{Bytes, NoMemory};
use tet_text::Decimal;

/// Appends a unit.
fn append_unit(text: &mut Bytes, unit: Decimal) -> Result<(), NoMemory>
    requires { IsUnit unit }
    ensures { OnOk result (text.new ≡ text.old ++ unit_text unit) }
{
    append_units(text, unit.scale, unit.value.unsigned_abs() as u32)
}

/// Appends half a unit.
fn append_half_of(text: &mut Bytes, unit: Decimal) -> Result<(), NoMemory>
    requires { IsUnit unit }
    ensures { OnOk result (text.new ≡ text.old ++ half_of unit) }
{
    append_units(text, unit.scale + 1, 5 * unit.value.unsigned_abs() as u32)
}

/// Appends that coordinates were rounded to multiples of the unit.
pub(crate) fn append_multiples(text: &mut Bytes, unit: Decimal) -> Result<(), NoMemory>
    requires { IsUnit unit }
    ensures { OnOk result (text.new ≡ text.old ++ multiples_line unit) }
{
    text.append(b"tetfit: coordinates were rounded to multiples of ")?;
    append_unit(text, unit)?;
    text.append(b"\n")
}

/// Appends by how much rounding to multiples of the unit moved a coordinate at most.
fn append_moved_by(text: &mut Bytes, unit: Decimal) -> Result<(), NoMemory>
    requires { IsUnit unit }
    ensures { OnOk result (text.new ≡ text.old ++ unit_moved unit) }
{
    text.append(b"tetfit: rounding to multiples of ")?;
    append_unit(text, unit)?;
    text.append(b" moved each coordinate by at most ")?;
    append_half_of(text, unit)?;
    text.append(b"\n")
}

/// Appends by how much rounding to multiples of the unit moved a coordinate at most, where there is
/// one.
pub(crate) fn append_unit_moved(text: &mut Bytes, unit: Option<Decimal>) -> Result<(), NoMemory>
    requires { IfSome unit IsUnit }
    ensures { OnOk result (text.new ≡ text.old ++ option_map_or unit_moved unit []) }
{
    match unit {
        Some(unit) => append_moved_by(text, unit),
        None => Ok(()),
    }
}

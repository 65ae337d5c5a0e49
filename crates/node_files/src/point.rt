//! The line of a point.

ghost use Rattle.std.specs.Prelude.{◌≡◌, ◌<◌, ◌^◌, IfOk, true};
ghost use Rattle.tet_text.specs.Reading.{left_after};
ghost use Rattle.node_files.specs.Outcome.{NodeGives};
ghost use Rattle.node_files.specs.Point.{is_next, index_at, place_at, attributes_at, markers_at};
ghost use Rattle.tet_text.specs.Repeated.{onto};

use crate::{Markers, NodeFault};
use grid_coords::DecimalPoint;
use std::alloc::Global;
use tet_ports::{Name, Words};
use tet_text::{Fields, TextFault, TextKind};

fn is_next(before: Option<u64>, number: u64) -> bool
    ensures { result ≡ is_next before number }
{
    match before {
        None => number <= 1,
        Some(before) => before < number && number - before == 1,
    }
}

/// Reads the number of a point, which has to be 0 or 1 for the first point, and else one more than
/// that of the point before.
#[tactic(auto, unfolding(crate::specs::Point::index_at))]
pub(crate) fn read_index(before: Option<u64>, fields: &mut Fields) -> Result<u64, TextFault>
    ensures value { left_after (λ n. n) result fields.new.fields
        ≡ index_at before fields.old.line fields.old.fields }
    ensures next { IfOk result (λ n. is_next before n ≡ true) }
    ensures line { fields.new.line ≡ fields.old.line }
{
    let number = fields.want_count()?;
    if is_next(before, number) {
        return Ok(number);
    }
    Err(TextFault {
        line: fields.line(),
        kind: TextKind::BadIndex,
    })
}

/// Reads the next three fields as the coordinates of a point; Ended or NotANumber where they are
/// not.
#[tactic(auto, unfolding(crate::specs::Point::place_at))]
pub fn read_place(fields: &mut Fields) -> Result<DecimalPoint, TextFault>
    ensures value { left_after (λ p. p) result fields.new.fields
        ≡ place_at fields.old.line fields.old.fields }
    ensures line { fields.new.line ≡ fields.old.line }
{
    let line = fields.line();
    let x = fields.want_decimal()?;
    let y = fields.want_decimal()?;
    let z = fields.want_decimal()?;
    Ok(DecimalPoint { x, y, z, line })
}

/// Reads the attributes of a point, appended to those before.
pub(crate) fn read_attributes(
    alloc: Global,
    count: u32,
    fields: &mut Fields,
    attributes: &mut Words,
) -> Result<(), NodeFault>
    ensures value { NodeGives (λ _. (attributes.new, fields.new.fields)) result
        (onto attributes.old (attributes_at count fields.old.line fields.old.fields)) }
    ensures line { fields.new.line ≡ fields.old.line }
{
    for _ in 0..count {
        let field = fields.want_field()?;
        let attribute = Name::from_slice(alloc, field.bytes())?;
        attributes.push(attribute)?;
    }
    Ok(())
}

/// Reads a marker where the flag is set, appended to those before.
#[tactic(auto, unfolding(crate::specs::Point::markers_at))]
pub(crate) fn read_marker(
    flag: bool,
    fields: &mut Fields,
    markers: &mut Markers,
) -> Result<(), NodeFault>
    ensures value { NodeGives (λ _. (markers.new, fields.new.fields)) result
        (onto markers.old (markers_at flag fields.old.line fields.old.fields)) }
    ensures line { fields.new.line ≡ fields.old.line }
{
    if flag {
        let marker = fields.want_whole()?;
        markers.push(marker)?;
    }
    Ok(())
}

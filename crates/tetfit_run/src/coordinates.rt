//! Coordinates of points of a mesh, as its files have them, and where a mesh is worst.

ghost use Rattle.std.specs.Prelude.{◌≡◌, ◌++◌, OnOk};
ghost use Rattle.refining.specs.Rounds.{IsPrintable};
ghost use Rattle.tetfit_run.specs.Coordinates.{greatest_text, least_text, on_grid_text, where_text};

use mesh_check::append_number;
use refining::{Frame, LargeRatio, SmallAngle};
use sign_predicates::GridPoint;
use solver_files::put_place_from_origin;
use tet_ports::{Bytes, NoMemory};

/// Appends where a corner of a tetrahedron is.
fn append_where(text: &mut Bytes, frame: &Frame, p: GridPoint) -> Result<(), NoMemory>
    requires { IsPrintable frame.now }
    ensures { OnOk result (text.new ≡ text.old ++ where_text frame.now p) }
{
    text.append(b" at ")?;
    put_place_from_origin(&frame.origin, &frame.grid, p, text)
}

/// Appends the coordinates of a point in parentheses.
#[tactic(auto, unfolding(crate::specs::Coordinates::on_grid_text))]
pub(crate) fn append_on_grid(text: &mut Bytes, frame: &Frame, p: GridPoint) -> Result<(), NoMemory>
    requires { IsPrintable frame.now }
    ensures { OnOk result (text.new ≡ text.old ++ on_grid_text frame.now p) }
{
    text.append(b" (")?;
    put_place_from_origin(&frame.origin, &frame.grid, p, text)?;
    text.append(b")")
}

/// Appends the least dihedral angle and where it is, where one is below the aim.
pub(crate) fn append_least(
    text: &mut Bytes,
    frame: &Frame,
    least: &Option<SmallAngle>,
) -> Result<(), NoMemory>
    requires { IsPrintable frame.now }
    ensures { OnOk result (text.new ≡ text.old ++ least_text frame.now least.now) }
{
    match least {
        Some(small) => {
            text.append(b" least angle ")?;
            append_number(text, small.degrees as usize)?;
            append_where(text, frame, small.at)
        }
        None => Ok(()),
    }
}

/// Appends the greatest ratio and where it is, where one is over the bound.
pub(crate) fn append_greatest(
    text: &mut Bytes,
    frame: &Frame,
    greatest: &Option<LargeRatio>,
) -> Result<(), NoMemory>
    requires { IsPrintable frame.now }
    ensures { OnOk result (text.new ≡ text.old ++ greatest_text frame.now greatest.now) }
{
    match greatest {
        Some(large) => {
            text.append(b" greatest ratio over ")?;
            append_number(text, large.times as usize)?;
            text.append(b" times the bound")?;
            append_where(text, frame, large.at)
        }
        None => Ok(()),
    }
}

//! What a run writes to its standard output: the line that sums up a mesh, or a text.

ghost use Rattle.std.specs.Prelude.{◌≡◌, ◌++◌, IfOk, OnOk};
ghost use Rattle.std.specs.Option.{option_map};
ghost use Rattle.run_steps.specs.Reports.{counted_text, further_text, report_text, summary_text};

use mesh_check::append_number;
use std::alloc::Global;
use tet_ports::{Bytes, NoMemory};

/// The counts that sum up a mesh.
#[derive(Clone, Copy, Debug, PartialEq, Eq)]
pub struct Summary {
    /// The points of the input.
    pub points: usize,
    /// The points that were added.
    pub added: usize,
    pub tetrahedra: usize,
    pub faces: usize,
    pub edges: usize,
    /// The points that the weights of others hide, of a mesh of weighted points.
    pub hidden: Option<usize>,
    /// The decimals to which coordinates were rounded, where these were sought.
    pub decimals: Option<usize>,
    /// The tetrahedra whose volume is over the bound, where there is one.
    pub over: Option<usize>,
    /// The tetrahedra whose circumradius is over the bound times their shortest edge, where there
    /// is a bound.
    pub slim: Option<usize>,
    /// The tetrahedra with a dihedral angle below the aim, where there is one.
    pub flat: Option<usize>,
}

/// What a run writes to its standard output.
#[derive(Debug, Drop)]
pub enum Report {
    /// The line that sums up a mesh, and further lines behind it.
    Mesh { summary: Summary, notes: Bytes },
    /// A text that is no summary.
    Text(Bytes),
}

/// Appends a word and a number behind it, where there is one.
pub fn append_counted(line: &mut Bytes, word: &[u8], count: Option<usize>) -> Result<(), NoMemory>
    ensures { OnOk result (line.new ≡ line.old ++ counted_text word.now count) }
{
    if let Some(count) = count {
        line.append(word)?;
        append_number(line, count)?;
    }
    Ok(())
}

/// Appends each of the further counts that there is.
fn append_further(line: &mut Bytes, summary: &Summary) -> Result<(), NoMemory>
    ensures { OnOk result (line.new ≡ line.old ++ further_text summary.now) }
{
    append_counted(line, b" hidden ", summary.hidden)?;
    append_counted(line, b" decimals ", summary.decimals)?;
    append_counted(line, b" over ", summary.over)?;
    append_counted(line, b" slim ", summary.slim)?;
    append_counted(line, b" flat ", summary.flat)
}

/// The line that sums up a mesh.
fn summary_line(alloc: Global, summary: &Summary) -> Result<Bytes, NoMemory>
    ensures { IfOk result (λ line. line ≡ summary_text summary.now) }
{
    let mut line = Bytes::from_slice(alloc, b"points ")?;
    append_number(&mut line, summary.points)?;
    line.append(b" added ")?;
    append_number(&mut line, summary.added)?;
    line.append(b" tetrahedra ")?;
    append_number(&mut line, summary.tetrahedra)?;
    line.append(b" faces ")?;
    append_number(&mut line, summary.faces)?;
    line.append(b" edges ")?;
    append_number(&mut line, summary.edges)?;
    append_further(&mut line, summary)?;
    line.append(b"\n")?;
    Ok(line)
}

impl Report {
    /// The text that is written.
    pub fn text(self, alloc: Global) -> Result<Bytes, NoMemory>
        ensures { IfOk result (λ text. text ≡ report_text self) }
    {
        match self {
            Report::Mesh { summary, notes } => {
                let mut text = summary_line(alloc, &summary)?;
                text.append(notes.as_slice())?;
                Ok(text)
            }
            Report::Text(text) => Ok(text),
        }
    }
}

/// The text that is written, where there is one.
pub fn text_of(alloc: Global, report: Option<Report>) -> Result<Option<Bytes>, NoMemory>
    ensures { IfOk result (λ text. text ≡ option_map report_text report) }
{
    match report {
        Some(report) => Ok(Some(report.text(alloc)?)),
        None => Ok(None),
    }
}

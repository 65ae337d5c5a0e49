//! Triangles of facets and pieces that are not properly met.
ghost use Rattle.std.specs.Prelude.{◌≡◌, length, All, IfOk};
ghost use Rattle.simplex_meets.specs.Proper.{IsTriangle, IsSegment, triangle_face};
ghost use Rattle.simplex_meets.specs.Parts.{piece_side};
ghost use Rattle.simplex_meets.specs.Crossing.{parts_in, AreKnownMet, AreFlatMet, CrossesSo};

use crate::complex_parts::{Compared, Part};
use crate::pairing::{first_pair, first_unmet_pair};
use geo_laws::{FacetTriangles, Pieces, Points};
use std::alloc::Global;
use tet_ports::NoMemory;

/// Why the triangles of facets and the pieces are not a complex.
#[derive(Clone, Copy, Debug, PartialEq, Eq)]
pub enum PlaneFault {
    /// These two parts are not properly met: they have a common point that is not in the hull of
    /// their common corners.
    Crossing { one: Part, two: Part },
    /// Out of memory.
    NoMemory,
}

impl From<NoMemory> for PlaneFault {
    ghost use Rattle.std.specs.Prelude.{◌≡◌};
    ghost use Rattle.simplex_meets.specs.declared.crossing.PlaneFault.TheVariants.{NoMemory as OutOfMemory};

    ghost from_gives = { λ _ fault. fault ≡ OutOfMemory };

    fn from(_: NoMemory) -> PlaneFault {
        PlaneFault::NoMemory
    }
}

/// The triangles, and after them the pieces.
pub fn parts_of(
    alloc: Global,
    triangles: &FacetTriangles,
    pieces: &Pieces,
) -> Result<Vec<Part>, NoMemory>
    ensures { IfOk result (λ parts. parts.items ≡ parts_in triangles.now pieces.now) }
{
    let mut parts = Vec::with_capacity(alloc, triangles.len() + pieces.len())?;
    for i in 0..triangles.len() {
        parts.push(Part::Triangle(triangles.at(i)))?;
    }
    for i in 0..pieces.len() {
        parts.push(Part::Segment(pieces.at(i)))?;
    }
    Ok(parts)
}

/// `Crossing` exactly where two triangles, or a triangle and a piece, are not properly met: the
/// first such two, by the place of the first and then by that of the second, in the list of the
/// triangles with the pieces after them. Two pieces are not tested. Only tests call it.
pub fn crossings(
    alloc: Global,
    points: &Points,
    pieces: &Pieces,
    triangles: &FacetTriangles,
) -> Result<(), PlaneFault>
    requires triangles { All (λ t. IsTriangle points.now (triangle_face t)) triangles.now }
    requires pieces { All (λ p. IsSegment points.now (piece_side p)) pieces.now }
    ensures { CrossesSo points.now triangles.now pieces.now result }
{
    let parts = parts_of(alloc, triangles, pieces)?;
    match first_pair(alloc, points, Compared::WithTriangle, parts.as_slice())? {
        Some((i, j)) => Err(PlaneFault::Crossing {
            one: parts[i],
            two: parts[j],
        }),
        None => Ok(()),
    }
}

/// As `crossings`, where marked triangles, with one mark for each triangle, are known to be
/// properly met among themselves and with the pieces, and triangles of one facet among themselves
/// and with the pieces in their plane: such pairs are not tested.
pub fn crossings_beside(
    alloc: Global,
    points: &Points,
    pieces: &Pieces,
    triangles: &FacetTriangles,
    marks: &[bool],
) -> Result<(), PlaneFault>
    requires triangles { All (λ t. IsTriangle points.now (triangle_face t)) triangles.now }
    requires pieces { All (λ p. IsSegment points.now (piece_side p)) pieces.now }
    requires known { AreKnownMet points.now triangles.now pieces.now marks.now }
    requires flat { AreFlatMet points.now triangles.now pieces.now }
    ensures { CrossesSo points.now triangles.now pieces.now result }
{
    let parts = parts_of(alloc, triangles, pieces)?;
    let compared = Compared::AcrossPlanes;
    match first_unmet_pair(alloc, points, compared, parts.as_slice(), marks)? {
        Some((i, j)) => Err(PlaneFault::Crossing {
            one: parts[i],
            two: parts[j],
        }),
        None => Ok(()),
    }
}

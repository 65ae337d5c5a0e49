//! The rows of the face file of a mesh without facets, of which only the faces on its hull are
//! asked for.
ghost use Rattle.std.specs.Prelude.{◌≡◌, false, [], List, AllPairs, IfOk};
ghost use Rattle.sign_predicates.specs.Point.{Point};
ghost use Rattle.geo_laws.specs.Complex.{Complex};
ghost use Rattle.geo_laws.specs.Delaunay.{RowBefore};
ghost use Rattle.geo_laws.specs.Faces.{AreHullFacesOf};
ghost use Rattle.geo_laws.specs.declared.tetrahedra.Tet.{Tet as Row};
ghost use Rattle.mesh_files.specs.FaceRows.{AreFaceRowsOf, hull_row};

use crate::faces::Faces;
use crate::markers::{FaceRow, FaceRows, in_no_facet};
use geo_laws::Face;
use std::alloc::Global;
use tet_ports::NoMemory;

/// The faces of `hull`, those on the hull of the tetrahedra, with marker 1: the answer of
/// `face_rows` without `all` where there are no facets. The only refusal is out of memory.
pub fn hull_rows(alloc: Global, hull: &Faces) -> Result<FaceRows, NoMemory>
    ensures { IfOk result (λ found. (ps : List Point) (complex : Complex) (rows : List Row)
        → AllPairs RowBefore rows → AreHullFacesOf rows hull.now
        → AreFaceRowsOf ps rows complex [] false found) }
{
    let mut found = FaceRows::with_capacity(alloc, hull.len())?;
    for face in hull.as_slice() {
        found.push(hull_row(*face))?;
    }
    Ok(found)
}

/// A face on the hull that lies in no facet.
fn hull_row(face: Face) -> FaceRow
    ensures { result ≡ hull_row face }
{
    in_no_facet(face, true)
}

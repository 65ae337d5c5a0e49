//! The check of a mesh.

ghost use Rattle.std.specs.Prelude.{◌≡◌, All, IfOk, length, List, ℕ};
ghost use Rattle.std.specs.Option.{option_copied};
ghost use Rattle.geo_laws.specs.Delaunay.{IsOn};
ghost use Rattle.sign_predicates.specs.Point.{Point};
ghost use Rattle.incidence.specs.declared.pairs.Across.{Across};
ghost use Rattle.mesh_files.specs.declared.markers.FaceRow.{FaceRow};
ghost use Rattle.incidence.specs.Pairs.{pairs_of, AreAllWithin};
ghost use Rattle.mesh_check.specs.Among.{IsFirstOfKinds};
ghost use Rattle.mesh_check.specs.Defects.{neighbors_or, IsSameSide, IsVerdict};

use crate::bent::{Bending, first_bent};
use crate::face_set::{listed_faces, owned_faces};
use crate::neighbors::first_wrong_neighbor;
use crate::positive::first_not_positive;
use crate::same_side::first_same_side;
use crate::stray::first_stray;
use crate::unlisted::first_unlisted;
use crate::{Defect, Verdict};
use geo_laws::{Points, TetList};
use incidence::{Pairs, pair_faces};
use mesh_files::{FaceRows, Neighbors};
use std::alloc::Global;
use tet_ports::NoMemory;

/// The first defect of the tetrahedra alone: one that is not positive, or two on one side of a
/// face.
fn rows_defect(alloc: Global, points: &Points, list: &TetList) -> Result<Option<Defect>, NoMemory>
    requires { All (IsOn points.now) list.now }
    ensures { IfOk result (λ defect. (faces : List FaceRow) (neighbors : List Across)
        → IsFirstOfKinds (record {
          points = points.now;
          rows = list.now;
          faces = faces;
          neighbors = neighbors;
        }) 0 2 defect) }
{
    if let Some(row) = first_not_positive(points, list) {
        return Ok(Some(Defect::NotPositive { row }));
    }
    let met = first_same_side(alloc, points, list)?;
    match met {
        Some((one, two)) => Ok(Some(Defect::SameSide { one, two })),
        None => Ok(None),
    }
}

/// The first defect of the listed neighbors.
fn neighbors_defect(list: &TetList, pairs: &Pairs, neighbors: Option<&Neighbors>) -> Option<Defect>
    requires { pairs.now ≡ pairs_of list.now }
    ensures { (points : List Point) (faces : List FaceRow) → IsFirstOfKinds (record {
      points = points;
      rows = list.now;
      faces = faces;
      neighbors = neighbors_or list.now (option_copied neighbors.entry);
    }) 2 4 result }
{
    let neighbors = neighbors?;
    if neighbors.len() != list.len() {
        return Some(Defect::NeighborCount);
    }
    let (row, corner) = first_wrong_neighbor(list, pairs, neighbors)?;
    Some(Defect::WrongNeighbor { row, corner })
}

/// The first defect of the listed faces, where no two tetrahedra lie on one side of a face.
fn faces_defect(
    alloc: Global,
    points: &Points,
    list: &TetList,
    faces: &FaceRows,
    pairs: &Pairs,
) -> Result<Option<Defect>, NoMemory>
    requires rows { All (IsOn points.now) list.now }
    requires apart { (i j : ℕ) → ¬ IsSameSide points.now list.now i j }
    requires pairs { pairs.now ≡ pairs_of list.now }
    requires within { AreAllWithin (length pairs.now) pairs.now }
    ensures { IfOk result (λ defect. (neighbors : List Across)
        → IsFirstOfKinds (record {
          points = points.now;
          rows = list.now;
          faces = faces.now;
          neighbors = neighbors;
        }) 4 7 defect) }
{
    let owned = owned_faces(alloc, list)?;
    if let Some(face) = first_stray(list, faces, &owned) {
        return Ok(Some(Defect::Stray { face }));
    }
    let listed = listed_faces(alloc, faces)?;
    if let Some((row, corner)) = first_unlisted(list, pairs, faces, &listed) {
        return Ok(Some(Defect::Unlisted { row, corner }));
    }
    let mesh = Bending {
        points,
        list,
        listed: &listed,
    };
    match first_bent(mesh, pairs, faces) {
        Some((one, two)) => Ok(Some(Defect::Bent { one, two })),
        None => Ok(None),
    }
}

/// Whether the tetrahedra form one mesh, whose faces and neighbors are listed: `Sound` exactly
/// where there is no defect, else the first one. Each row names four of the points. Where no
/// neighbors are listed, the tetrahedra's own neighbors are taken. The time is about linear in the
/// number of tetrahedra and faces; the only refusal is out of memory.
pub fn check_mesh(
    alloc: Global,
    points: &Points,
    list: &TetList,
    faces: &FaceRows,
    neighbors: Option<&Neighbors>,
) -> Result<Verdict, NoMemory>
    requires { All (IsOn points.now) list.now }
    ensures { IfOk result (IsVerdict (record {
      points = points.now;
      rows = list.now;
      faces = faces.now;
      neighbors = neighbors_or list.now (option_copied neighbors.entry);
    })) }
{
    let of_rows = rows_defect(alloc, points, list)?;
    if let Some(defect) = of_rows {
        return Ok(Verdict::Fault(defect));
    }
    let pairs = pair_faces(alloc, list)?;
    if let Some(defect) = neighbors_defect(list, &pairs, neighbors) {
        return Ok(Verdict::Fault(defect));
    }
    let of_faces = faces_defect(alloc, points, list, faces, &pairs)?;
    match of_faces {
        Some(defect) => Ok(Verdict::Fault(defect)),
        None => Ok(Verdict::Sound),
    }
}

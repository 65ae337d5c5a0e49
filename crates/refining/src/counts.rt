//! How many tetrahedra of a mesh are beyond bounds.

ghost use Rattle.std.specs.Prelude.{◌≡◌, All, IfSome};
ghost use Rattle.geo_laws.specs.Delaunay.{IsOn};
ghost use Rattle.tet_shapes.specs.Shape.{IsFine};
ghost use Rattle.refining.specs.Counts.{counts_of, flat_in, over_in, slim_in};

use crate::goal::ShapeBounds;
use geo_laws::{Points, TetList};
use tet_ports::Items;
use tet_shapes::{Ratio, VolumeBounds, count_flat, count_large, count_slim};

/// How many tetrahedra of a mesh are beyond bounds.
#[derive(Clone, Copy, Debug, PartialEq, Eq)]
pub struct Counts {
    /// Those that are over the greatest volume, where there is one.
    pub over: Option<usize>,
    /// Those that are over the greatest ratio of the circumradius to the shortest edge.
    pub slim: Option<usize>,
    /// Those with a dihedral angle below the aim.
    pub flat: Option<usize>,
}

/// The tetrahedra of a mesh, with their regions, where these are marked.
#[derive(Clone, Copy)]
pub(crate) struct Marked<'a> {
    pub(crate) points: &'a Points,
    pub(crate) tetrahedra: &'a TetList,
    pub(crate) marks: &'a Option<Items<Option<u32>>>,
}

/// How many tetrahedra have six times a volume over the bound that holds in their region, where
/// volumes are bounded.
fn over_in(mesh: Marked<'_>, volumes: &Option<VolumeBounds>) -> Option<usize>
    requires { All (IsOn mesh.points.now) mesh.tetrahedra.now }
    ensures { result ≡ over_in volumes.now mesh.entry.points.now mesh.entry.tetrahedra.now
        mesh.entry.marks.now }
{
    match volumes {
        Some(bounds) => Some(count_large(mesh.points, mesh.tetrahedra, mesh.marks, bounds)),
        None => None,
    }
}

/// How many tetrahedra have a circumradius over the ratio times the shortest edge, where there is
/// such a bound.
fn slim_in(mesh: Marked<'_>, ratio: Option<Ratio>) -> Option<usize>
    requires on { All (IsOn mesh.points.now) mesh.tetrahedra.now }
    requires fine { IfSome ratio IsFine }
    ensures { result ≡ slim_in ratio mesh.entry.points.now mesh.entry.tetrahedra.now }
{
    match ratio {
        Some(ratio) => Some(count_slim(mesh.points, mesh.tetrahedra, ratio)),
        None => None,
    }
}

/// How many tetrahedra have a dihedral angle below the one with this squared cosine, where there is
/// such an aim.
fn flat_in(mesh: Marked<'_>, cosine: Option<Ratio>) -> Option<usize>
    requires { All (IsOn mesh.points.now) mesh.tetrahedra.now }
    ensures { result ≡ flat_in cosine mesh.entry.points.now mesh.entry.tetrahedra.now }
{
    match cosine {
        Some(cosine) => Some(count_flat(mesh.points, mesh.tetrahedra, cosine)),
        None => None,
    }
}

/// How many tetrahedra are beyond each bound.
pub(crate) fn counts_of(mesh: Marked<'_>, shapes: &ShapeBounds) -> Counts
    requires on { All (IsOn mesh.points.now) mesh.tetrahedra.now }
    requires fine { IfSome shapes.now.ratio IsFine }
    ensures { result ≡ counts_of shapes.now mesh.entry.points.now mesh.entry.tetrahedra.now
        mesh.entry.marks.now }
{
    Counts {
        over: over_in(mesh, &shapes.volumes),
        slim: slim_in(mesh, shapes.ratio),
        flat: flat_in(mesh, shapes.cosine),
    }
}

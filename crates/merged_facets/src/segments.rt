//! The segments of a complex whose facets are merged.
ghost use Rattle.std.specs.Prelude.{◌≡◌, ◌<◌, ◌≤◌, length, filter, flat_map, IfOk, OnOk};
ghost use Rattle.geo_laws.specs.Complex.{flat_facet};
ghost use Rattle.geo_laws.specs.Segment.{sides};
ghost use Rattle.incidence.specs.Found.{with_pieces};
ghost use Rattle.merged_facets.specs.Merged.{merged_segments, outer_sides};
ghost use Rattle.merged_facets.specs.Merging.{is_inner};
ghost use Rattle.merged_facets.specs.Segments.{is_outer};

use crate::Merging;
use geo_laws::{Complex, Facet, Piece, Segments};
use incidence::PieceSet;
use std::alloc::Global;
use tet_ports::NoMemory;

/// Inserts the sides of a polygon that are not inner in its facet.
fn put_outer_sides(
    set: &mut PieceSet,
    merging: &Merging,
    facet: u32,
    polygon: &[u32],
) -> Result<(), NoMemory>
    ensures { OnOk result (set.new
        ≡ with_pieces set.old (filter (is_outer merging.now facet) (sides polygon.now))) }
{
    for k in 0..polygon.len() {
        let next = if k + 1 < polygon.len() { k + 1 } else { 0 };
        let (a, b) = (polygon[k], polygon[next]);
        if a != b {
            let side = Piece { a, b, halvings: 0 };
            if !merging.is_inner(facet, side) {
                set.put(side)?;
            }
        }
    }
    Ok(())
}

/// Inserts the sides of a facet's polygons that are not inner in the facet.
fn put_facet(
    set: &mut PieceSet,
    merging: &Merging,
    complex: &Complex,
    number: u32,
    facet: &Facet,
) -> Result<(), NoMemory>
    requires order { facet.now.first ≤ facet.now.past }
    requires range { facet.now.past ≤ length complex.now.polygons }
    ensures { OnOk result (set.new ≡ with_pieces set.old
        (outer_sides (is_inner merging.now) (number, flat_facet complex.now.polygons facet.now))) }
{
    for q in facet.first..facet.past {
        put_outer_sides(set, merging, number, complex.corners(q))?;
    }
    Ok(())
}

/// The segments of a complex whose facets are merged: the distinct sides of all polygons that are
/// not inner in the polygon's facet, in file order, each with 0 halvings. A side and its reverse
/// are one segment, in the direction that comes first.
pub fn merged_segments(
    alloc: Global,
    complex: &Complex,
    merging: &Merging,
) -> Result<Segments, NoMemory>
    ensures { IfOk result (λ found. found ≡ merged_segments (is_inner merging.now) complex.now) }
{
    let mut set = PieceSet::new(alloc);
    for f in 0..complex.facet_count() {
        put_facet(&mut set, merging, complex, f, complex.facet(f))?;
    }
    set.pieces()
}

//! The test of a list of tetrahedra, however it was found: whether it is the Delaunay list refilled
//! round the facets.
ghost use Rattle.std.specs.Prelude.{◌^◌, ◌-◌, ◌<◌, length, IsTrue, IfOk, IfSome, All, AllPairs, Contains};
ghost use Rattle.sign_predicates.specs.Orientation.{IsPositive};
ghost use Rattle.geo_laws.specs.Delaunay.{corners, IsOn, IsDelaunayList, RowBefore};
ghost use Rattle.geo_laws.specs.OrientedFace.{reversed};
ghost use Rattle.geo_laws.specs.declared.tetrahedra.Tet.{Tet};
ghost use Rattle.tangle_laws.specs.Tangle.{lies_on};
ghost use Rattle.tangle_laws.specs.Growth.{IsAlone, IsSmooth, IsGrownList};
ghost use Rattle.constrained_laws.specs.Constrained.{IsConstrainedList};
ghost use Rattle.tangle_fill.specs.Fill.{as_oriented, IsFaceOn, AreFacetTriangles};
ghost use Rattle.tangle_fill.specs.Indexed.{IsIndexed};
ghost use Rattle.tangle_fill.specs.Removed.{AreAmong, IsBareIn};
ghost use Rattle.tangle_fill.specs.Accept.{IsPairedGrowth, HasTriangle, AreTriangleFaces, IsEven, IsEvenTo, IsEvenAcross, IsEvenRow};
ghost use Rattle.tangle_fill.specs.Change.{IsChange, IsFilledNear, IsClosedNear};
ghost use Rattle.geo_laws.specs.Facet.{IsUncrossed};

use crate::change::{Change, change_of, is_marked_face};
use crate::corners::has_each_point;
use crate::crossed::uncrossed_near;
use crate::growth::Growth;
use crate::search::has_point_on;
use crate::smooth::{are_outside, lies_on};
use crate::start::other_round;
use box_tree::triangle_tree;
use geo_laws::{Face, FacetTriangle, FacetTriangles, Points, Tet, TetList, face_of};
use std::alloc::Global;
use tet_ports::{Items, NoMemory};

/// Whether a binary search finds the tetrahedron in the list, which is in order.
fn holds_row(list: &TetList, row: Tet) -> bool
    ensures { IsTrue result → Contains list.now row }
{
    matches!(list.as_slice().binary_search(&row), Ok(_))
}

/// Whether `f` is the face of a Delaunay tetrahedron on its negative side, and no removed
/// tetrahedron lies on its positive side. `row` lies on its negative side.
fn is_bare_side(list: &TetList, removed: &Growth, row: Tet, f: Face) -> bool
    requires indexed { IsIndexed removed.now }
    requires within { AreAmong list.now removed.now.rows }
    requires row { IsTrue (lies_on (reversed (as_oriented f)) row) }
    ensures { IsTrue result → IsBareIn list.now removed.now.rows (as_oriented f) }
{
    if let Some(_) = removed.row_on(f) {
        return false;
    }
    let Face { a, b, c } = f;
    if let Some(_) = removed.row_on(Face { a, b: c, c: b }) {
        return true;
    }
    holds_row(list, row)
}

/// Whether a tetrahedron lies on the positive side of `f`, or no point does; a face with a corner
/// that is not marked passes. `row` lies on the negative side. Most faces without a tetrahedron
/// were faces of the hull before; only for the others all points are tested.
fn is_filled(points: &Points, list: &TetList, change: &Change, row: Tet, f: Face) -> bool
    requires few { length points.now < 2 ^ 32 - 1 }
    requires delaunay { IsDelaunayList points.now list.now }
    requires face { IsFaceOn points.now f }
    requires row { IsTrue (lies_on (reversed (as_oriented f)) row) }
    requires change { IsChange points.now list.now change.now }
    ensures { IsTrue result → IsFilledNear points.now change.now (as_oriented f) }
{
    if !is_marked_face(&change.marks, f) {
        return true;
    }
    if let Some(_) = change.near.row_on(f) {
        return true;
    }
    if is_bare_side(list, &change.removed, row, f) {
        return true;
    }
    !has_point_on(points, f)
}

/// Whether a tetrahedron lies across each marked face of `row`, or no point does.
fn is_closed(points: &Points, list: &TetList, change: &Change, row: Tet) -> bool
    requires few { length points.now < 2 ^ 32 - 1 }
    requires delaunay { IsDelaunayList points.now list.now }
    requires on { IsOn points.now row }
    requires change { IsChange points.now list.now change.now }
    ensures { IsTrue result → IsClosedNear points.now change.now row }
{
    let Tet { a, b, c, d } = row;
    is_filled(points, list, change, row, Face { a: b, b: c, c: d })
        && is_filled(points, list, change, row, Face { a, b: d, c })
        && is_filled(points, list, change, row, Face { a, b, c: d })
        && is_filled(points, list, change, row, Face { a, b: c, c: b })
}

/// Whether every tetrahedron near the change is closed.
fn are_closed(points: &Points, list: &TetList, change: &Change) -> bool
    requires few { length points.now < 2 ^ 32 - 1 }
    requires delaunay { IsDelaunayList points.now list.now }
    requires change { IsChange points.now list.now change.now }
    ensures { IsTrue result → All (IsClosedNear points.now change.now) change.now.near.rows }
{
    let near = &change.near.rows;
    for i in 0..near.len() {
        if !is_closed(points, list, change, near.at(i)) {
            return false;
        }
    }
    true
}

/// Whether the facet triangle is a face of a tetrahedron.
fn has_triangle(growth: &Growth, k: FacetTriangle) -> bool
    requires { IsIndexed growth.now }
    ensures { IsTrue result → HasTriangle growth.now.rows k }
{
    let FacetTriangle { a, b, c, .. } = k;
    if let Some(_) = growth.row_on(Face { a, b, c }) {
        return true;
    }
    if let Some(_) = growth.row_on(Face { a, b: c, c: b }) {
        return true;
    }
    false
}

/// Whether each facet triangle is a face of a tetrahedron.
fn has_triangles(growth: &Growth, triangles: &FacetTriangles) -> bool
    requires { IsIndexed growth.now }
    ensures { IsTrue result → All (HasTriangle growth.now.rows) triangles.now }
{
    for i in 0..triangles.len() {
        if !has_triangle(growth, triangles.at(i)) {
            return false;
        }
    }
    true
}

/// The number at the place; the last one where there is none.
fn likely_at(likely: &Items<usize>, place: usize, last: usize) -> usize {
    if place < likely.len() {
        likely.at(place)
    } else {
        last
    }
}

/// Whether facets cross each of the positive tetrahedra. The facet triangle that `likely` names for
/// a tetrahedron is tested first.
fn are_crossed(
    alloc: Global,
    points: &Points,
    rows: &TetList,
    triangles: &FacetTriangles,
    likely: &Items<usize>,
) -> Result<bool, NoMemory>
    requires facets { AreFacetTriangles points.now triangles.now }
    requires rows { All (λ t. IsOn points.now t × IsPositive (corners points.now t)) rows.now }
    ensures { IfOk result (λ crossed. IsTrue crossed
        → All (λ t. ¬ IsUncrossed points.now triangles.now t) rows.now) }
{
    let tree = triangle_tree(alloc, points, triangles)?;
    let mut last = 0;
    for i in 0..rows.len() {
        last = likely_at(likely, i, last);
        if uncrossed_near(points, rows.at(i), triangles, &tree, &mut last) {
            return Ok(false);
        }
    }
    Ok(true)
}

/// The facet triangles as faces with ascending corners, in order.
fn triangle_faces(alloc: Global, triangles: &FacetTriangles) -> Result<Items<Face>, NoMemory>
    ensures { IfOk result (AreTriangleFaces triangles.now) }
{
    let mut faces = Items::with_capacity(alloc, triangles.len())?;
    for i in 0..triangles.len() {
        let FacetTriangle { a, b, c, .. } = triangles.at(i);
        faces.push(Face { a, b, c })?;
    }
    faces.keep_distinct();
    Ok(faces)
}

/// Whether a binary search finds the face among the faces, which are in order.
fn holds_face(faces: &Items<Face>, face: Face) -> bool
    ensures { IsTrue result → Contains faces.now face }
{
    matches!(faces.as_slice().binary_search(&face), Ok(_))
}

/// Whether `s` and `t` are locally Delaunay across `face`, or `face` is a subface.
fn is_even_pair(points: &Points, faces: &Items<Face>, s: Tet, t: Tet, face: Face) -> bool
    requires first { IsOn points.now s }
    requires second { IsOn points.now t }
    ensures { IsTrue result → IsEven points.now faces.now face s t }
{
    are_outside(points, s, t) || holds_face(faces, face)
}

/// Whether `row` and the tetrahedron on the positive side of `across`, which is one side of `face`,
/// are locally Delaunay, or `face` is a subface.
fn is_even_to(
    points: &Points,
    faces: &Items<Face>,
    growth: &Growth,
    row: Tet,
    face: Face,
    across: Face,
) -> bool
    requires paired { IsPairedGrowth points.now growth.now }
    requires row { Contains growth.now.rows row }
    ensures { IsTrue result
        → IsEvenTo points.now faces.now growth.now.rows row face (as_oriented across) }
{
    match growth.row_on(across) {
        Some(other) => is_even_pair(points, faces, row, other, face),
        None => true,
    }
}

/// Whether `row` and its neighbor across `face` are locally Delaunay, or `face` is a subface.
fn is_even_at(points: &Points, faces: &Items<Face>, growth: &Growth, row: Tet, face: Face) -> bool
    requires paired { IsPairedGrowth points.now growth.now }
    requires row { Contains growth.now.rows row }
    ensures { IsTrue result → IsEvenAcross points.now faces.now growth.now.rows row face }
{
    if lies_on(row, face) {
        let Face { a, b, c } = face;
        is_even_to(points, faces, growth, row, face, Face { a, b: c, c: b })
    } else {
        is_even_to(points, faces, growth, row, face, face)
    }
}

/// Whether `row` is locally Delaunay across both faces, subfaces aside.
fn are_even_at(
    points: &Points,
    faces: &Items<Face>,
    growth: &Growth,
    row: Tet,
    one: Face,
    two: Face,
) -> bool
    requires paired { IsPairedGrowth points.now growth.now }
    requires row { Contains growth.now.rows row }
    ensures { IsTrue result → (IsEvenAcross points.now faces.now growth.now.rows row one
        × IsEvenAcross points.now faces.now growth.now.rows row two) }
{
    is_even_at(points, faces, growth, row, one) && is_even_at(points, faces, growth, row, two)
}

/// Whether `row` is locally Delaunay across each of its faces, subfaces aside.
fn is_even_row(points: &Points, faces: &Items<Face>, growth: &Growth, row: Tet) -> bool
    requires paired { IsPairedGrowth points.now growth.now }
    requires row { Contains growth.now.rows row }
    ensures { IsTrue result → IsEvenRow points.now faces.now growth.now.rows row }
{
    let opposite_a = face_of(row.b, row.c, row.d);
    let opposite_b = face_of(row.a, row.c, row.d);
    let opposite_c = face_of(row.a, row.b, row.d);
    let opposite_d = face_of(row.a, row.b, row.c);
    are_even_at(points, faces, growth, row, opposite_a, opposite_b)
        && are_even_at(points, faces, growth, row, opposite_c, opposite_d)
}

/// Whether each tetrahedron of `rows` is locally Delaunay across each of its faces, subfaces aside.
fn are_even(points: &Points, faces: &Items<Face>, growth: &Growth, rows: &TetList) -> bool
    requires paired { IsPairedGrowth points.now growth.now }
    requires rows { AreAmong growth.now.rows rows.now }
    ensures { IsTrue result → All (IsEvenRow points.now faces.now growth.now.rows) rows.now }
{
    for j in 0..rows.len() {
        if !is_even_row(points, faces, growth, rows.at(j)) {
            return false;
        }
    }
    true
}

/// Whether the tetrahedra are locally Delaunay across their common faces that are no subface. Only
/// pairs with a tetrahedron that is not of the Delaunay list are tested: two of that list are.
fn are_smooth(
    alloc: Global,
    points: &Points,
    list: &TetList,
    triangles: &FacetTriangles,
    change: &Change,
) -> Result<bool, NoMemory>
    requires delaunay { IsDelaunayList points.now list.now }
    requires change { IsChange points.now list.now change.now }
    requires ascending { AllPairs RowBefore change.now.rows }
    ensures { IfOk result (λ smooth. IsTrue smooth
        → IsSmooth points.now triangles.now change.now.rows) }
{
    let faces = triangle_faces(alloc, triangles)?;
    Ok(are_even(points, &faces, &change.near, &change.added))
}

/// Whether no other tetrahedron of `rows` holds the nudged centroid of `row`.
fn is_alone_among(points: &Points, rows: &TetList, row: Tet) -> bool
    requires on { All (IsOn points.now) rows.now }
    requires row { IsOn points.now row }
    ensures { IsTrue result → IsAlone points.now rows.now row }
{
    other_round(points, rows, row).is_none()
}

/// Whether `row` is the only tetrahedron of the candidate that holds its nudged centroid. Two of
/// the Delaunay list never hold one point off all face planes, so a `row` of that list is compared
/// with the added tetrahedra alone.
fn is_alone(points: &Points, list: &TetList, change: &Change, row: Tet) -> bool
    requires delaunay { IsDelaunayList points.now list.now }
    requires change { IsChange points.now list.now change.now }
    requires row { Contains change.now.rows row }
    ensures { IsTrue result → IsAlone points.now change.now.rows row }
{
    if holds_row(list, row) {
        is_alone_among(points, &change.added, row)
    } else {
        is_alone_among(points, &change.rows, row)
    }
}

/// Whether the candidate has a tetrahedron, and its first one is the only one that holds its own
/// nudged centroid.
fn is_single(points: &Points, list: &TetList, change: &Change) -> bool
    requires delaunay { IsDelaunayList points.now list.now }
    requires change { IsChange points.now list.now change.now }
    ensures { IsTrue result
        → (t : Tet) × Contains change.now.rows t × IsAlone points.now change.now.rows t }
{
    let rows = &change.rows;
    if rows.is_empty() {
        return false;
    }
    is_alone(points, list, change, rows.at(0))
}

/// Whether the candidate is the refilled list, by tests of what it changes.
fn is_refilled(
    alloc: Global,
    points: &Points,
    list: &TetList,
    triangles: &FacetTriangles,
    change: &Change,
    likely: &Items<usize>,
) -> Result<bool, NoMemory>
    requires few { length points.now < 2 ^ 32 - 1 }
    requires facets { AreFacetTriangles points.now triangles.now }
    requires delaunay { IsDelaunayList points.now list.now }
    requires change { IsChange points.now list.now change.now }
    requires ascending { AllPairs RowBefore change.now.rows }
    ensures { IfOk result (λ refilled. IsTrue refilled
        → IsGrownList points.now triangles.now list.now change.now.rows) }
{
    if !is_single(points, list, change) {
        return Ok(false);
    }
    if !has_triangles(&change.near, triangles) {
        return Ok(false);
    }
    if !are_closed(points, list, change) {
        return Ok(false);
    }
    let crossed = are_crossed(alloc, points, &change.removed.rows, triangles, likely)?;
    if !crossed {
        return Ok(false);
    }
    let smooth = are_smooth(alloc, points, list, triangles, change)?;
    Ok(smooth)
}

/// Whether the candidate has each point as a corner and is the refilled list.
fn is_constrained(
    alloc: Global,
    points: &Points,
    list: &TetList,
    triangles: &FacetTriangles,
    change: &Change,
    likely: &Items<usize>,
) -> Result<bool, NoMemory>
    requires few { length points.now < 2 ^ 32 - 1 }
    requires facets { AreFacetTriangles points.now triangles.now }
    requires delaunay { IsDelaunayList points.now list.now }
    requires change { IsChange points.now list.now change.now }
    requires ascending { AllPairs RowBefore change.now.rows }
    ensures { IfOk result (λ constrained. IsTrue constrained
        → IsConstrainedList points.now triangles.now list.now change.now.rows) }
{
    if !has_each_point(alloc, points, &change.rows)? {
        return Ok(false);
    }
    is_refilled(alloc, points, list, triangles, change, likely)
}

/// As `accepted`. For each tetrahedron that only the Delaunay list has, in order, `likely` may have
/// the place of a facet triangle that enters it.
pub(crate) fn accepted_by(
    alloc: Global,
    points: &Points,
    list: &TetList,
    triangles: &FacetTriangles,
    mut candidate: TetList,
    likely: &Items<usize>,
) -> Result<Option<TetList>, NoMemory>
    requires few { length points.now < 2 ^ 32 - 1 }
    requires facets { AreFacetTriangles points.now triangles.now }
    requires delaunay { IsDelaunayList points.now list.now }
    ensures { IfOk result
        (λ found. IfSome found (IsConstrainedList points.now triangles.now list.now)) }
{
    candidate.keep_distinct();
    let Some(change) = change_of(alloc, points, list, triangles, candidate)? else {
        return Ok(None);
    };
    if is_constrained(alloc, points, list, triangles, &change, likely)? {
        Ok(Some(change.rows))
    } else {
        Ok(None)
    }
}

/// The candidate in order, where it is the Delaunay list refilled round the facets; None where the
/// tests do not show this. However it was found, each tetrahedron that is not of the Delaunay list
/// is tested alone and across its faces, so that no search for points is needed, and of the others
/// only those near the change; and each point has to be a corner. Then all tetrahedra are
/// admissible (constrained Delaunay). Only tests call it.
pub fn accepted(
    alloc: Global,
    points: &Points,
    list: &TetList,
    triangles: &FacetTriangles,
    candidate: TetList,
) -> Result<Option<TetList>, NoMemory>
    requires few { length points.now < 2 ^ 32 - 1 }
    requires facets { AreFacetTriangles points.now triangles.now }
    requires delaunay { IsDelaunayList points.now list.now }
    ensures { IfOk result
        (λ found. IfSome found (IsConstrainedList points.now triangles.now list.now)) }
{
    let unknown = Items::new(alloc);
    accepted_by(alloc, points, list, triangles, candidate, &unknown)
}

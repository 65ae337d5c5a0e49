//! Point location for the seeds of a flood fill: where the fill from a hole or region point begins.
ghost use Rattle.std.specs.Prelude.{◌≡◌, ◌↔◌, ◌⊎◌, ◌+◌, ◌<◌, ℕ, pos, true, false, All, Contains};
ghost use Rattle.std.specs.Prelude.{length, IfOk, OnOk};
ghost use Rattle.box_tree.specs.Bodies.{IsRowTree};
ghost use Rattle.sign_predicates.specs.Orientation.{IsPositive, InClosed, orient_rational, side_rational};
ghost use Rattle.sign_predicates.specs.Orientation.{opposite_face};
ghost use Rattle.geo_laws.specs.Delaunay.{corners, IsOn, row_at};
ghost use Rattle.hole_carve.specs.Ways.{face_opposite};
ghost use Rattle.hole_carve.specs.Seeds.{IsSearchable, RowHolds, HoldsOnSome, IsSeedAt};
ghost use Rattle.geo_laws.specs.Marks.{is_marked};

use crate::boxes::{box_round, is_off_box};
use crate::walled::Walled;
use box_tree::{Tree, next_meeting};
use geo_laws::{Face, Points, Tet, TetList, corners_of, row_faces};
use incidence::FaceTable;
use sign_predicates::{Corners, GridPoint, Hold, RatPoint, Sign, in_tet, orient_rat};
use std::alloc::Global;
use tet_ports::NoMemory;

/// The tetrahedron at place `at`, whose corners are points of the list.
fn row_on(points: &Points, list: &TetList, at: usize) -> Tet
    requires there { at < length list.now }
    requires on { All (IsOn points.now) list.now }
    ensures is { result ≡ row_at list.now at }
    ensures on { IsOn points.now result }
{
    list.at(at)
}

/// Whether the closed tetrahedron holds a point.
fn holds(points: &Points, row: Tet, x: RatPoint) -> bool
    requires on { IsOn points.now row }
    requires positive { IsPositive (corners points.now row) }
    ensures { (result ≡ true) ↔ InClosed (corners points.now row) x }
{
    let t = corners_of(points, row);
    if is_off_box(&t, x) {
        return false;
    }
    match in_tet(t, x) {
        Hold::Outside => false,
        Hold::Inside => true,
        Hold::Touching => true,
    }
}

/// Whether a point lies on the plane through `a`, `b` and `c`, and the face is a subface.
fn lies_on(
    closed: &FaceTable,
    face: Face,
    a: GridPoint,
    b: GridPoint,
    c: GridPoint,
    x: RatPoint,
) -> bool
    ensures { (result ≡ true) ↔ ((orient_rational a b c x ≡ pos 0) × Contains closed.now face) }
{
    matches!(orient_rat(a, b, c, x), Sign::Zero) && closed.has(face)
}

/// Whether a point lies on the plane of the face opposite a corner, by the corner's place from 0,
/// and this face is a subface.
fn lies_on_face(row: Tet, t: &Corners, closed: &FaceTable, corner: usize, x: RatPoint) -> bool
    requires place { corner < 4 }
    ensures { (result ≡ true) ↔ ((side_rational (opposite_face t.now corner) x ≡ pos 0)
        × Contains closed.now (face_opposite row corner)) }
{
    let [a, b, c, d] = row_faces(row);
    match corner {
        0 => lies_on(closed, a, t.b, t.d, t.c, x),
        1 => lies_on(closed, b, t.a, t.c, t.d, x),
        2 => lies_on(closed, c, t.a, t.d, t.b, x),
        _ => lies_on(closed, d, t.a, t.b, t.c, x),
    }
}

/// Whether a point lies on the plane of a face of the tetrahedron that is a subface.
fn lies_on_some(row: Tet, t: &Corners, closed: &FaceTable, x: RatPoint) -> bool
    ensures { (result ≡ true) ↔ ((k : ℕ) × (k < 4) × (side_rational (opposite_face t.now k) x
        ≡ pos 0)
        × Contains closed.now (face_opposite row k)) }
{
    for corner in 0..4 {
        if lies_on_face(row, t, closed, corner, x) {
            return true;
        }
    }
    false
}

/// Appends the place of a tetrahedron if its closure holds a point.
fn add_holder(
    points: &Points,
    list: &TetList,
    at: usize,
    x: RatPoint,
    holders: &mut Vec<usize>,
) -> Result<(), NoMemory>
    requires on { All (IsOn points.now) list.now }
    requires positive { All (λ t. IsPositive (corners points.now t)) list.now }
    requires there { at < length list.now }
    ensures { OnOk result ((i : ℕ) → Contains holders.new.items i
        ↔ (Contains holders.old.items i ⊎ (i ≡ at) × RowHolds points.now list.now x i)) }
{
    if holds(points, row_on(points, list, at), x) {
        holders.push(at)?;
        return Ok(());
    }
    Ok(())
}

/// The places of the tetrahedra whose closure holds a point, by a test of each.
fn holders_of(
    alloc: Global,
    points: &Points,
    list: &TetList,
    x: RatPoint,
) -> Result<Vec<usize>, NoMemory>
    requires on { All (IsOn points.now) list.now }
    requires positive { All (λ t. IsPositive (corners points.now t)) list.now }
    ensures { IfOk result (λ holders. (i : ℕ) → Contains holders.items i
        ↔ RowHolds points.now list.now x i) }
{
    let mut holders = Vec::new(alloc);
    for at in 0..list.len() {
        add_holder(points, list, at, x, &mut holders)?;
    }
    Ok(holders)
}

/// The places of the tetrahedra whose closure holds a point, by the AABB tree.
fn holders_in(
    alloc: Global,
    points: &Points,
    list: &TetList,
    tree: &Tree,
    x: RatPoint,
) -> Result<Vec<usize>, NoMemory>
    requires on { All (IsOn points.now) list.now }
    requires positive { All (λ t. IsPositive (corners points.now t)) list.now }
    requires tree { IsRowTree points.now list.now tree.now }
    ensures { IfOk result (λ holders. (i : ℕ) → Contains holders.items i
        ↔ RowHolds points.now list.now x i) }
{
    let bounds = box_round(x);
    let mut holders = Vec::new(alloc);
    let mut i = next_meeting(tree, &bounds, 0);
    while i < tree.len() {
        add_holder(points, list, tree.get(i).own.place, x, &mut holders)?;
        i = next_meeting(tree, &bounds, i + 1);
    }
    Ok(holders)
}

/// The places of the tetrahedra whose closure holds a point, by the AABB tree where there is one.
fn holders_by(alloc: Global, mesh: &Walled<'_>, x: RatPoint) -> Result<Vec<usize>, NoMemory>
    requires { IsSearchable mesh.now }
    ensures { IfOk result (λ holders. (i : ℕ) → Contains holders.items i
        ↔ RowHolds mesh.now.points.now mesh.now.list.now x i) }
{
    match &mesh.tree {
        Some(tree) => holders_in(alloc, mesh.points, mesh.list, tree, x),
        None => holders_of(alloc, mesh.points, mesh.list, x),
    }
}

/// Whether one of the tetrahedra that hold a point has it on the plane of a subface.
fn is_on_closed(
    points: &Points,
    list: &TetList,
    closed: &FaceTable,
    x: RatPoint,
    holders: &[usize],
) -> bool
    requires on { All (IsOn points.now) list.now }
    requires holders { (i : ℕ) → Contains holders.now i ↔ RowHolds points.now list.now x i }
    ensures { (result ≡ true) ↔ HoldsOnSome points.now closed.now list.now x }
{
    for at in 0..holders.len() {
        let row = row_on(points, list, holders[at]);
        if lies_on_some(row, &corners_of(points, row), closed, x) {
            return true;
        }
    }
    false
}

/// `places` marks, none of them set.
pub(crate) fn no_marks(alloc: Global, places: usize) -> Result<Vec<bool>, NoMemory>
    ensures long { IfOk result (λ marks. length marks.items ≡ places) }
    ensures clear { IfOk result (λ marks. (i : ℕ) → is_marked marks.items i ≡ false) }
{
    let mut marks = Vec::new(alloc);
    marks.resize(places, false)?;
    Ok(marks)
}

/// Marks a place.
fn mark_one(place: usize, marks: &mut [bool])
    requires { place < length marks.old }
    ensures long { length marks.new ≡ length marks.old }
    ensures marked { (i : ℕ) → (is_marked marks.new i ≡ true)
        ↔ ((is_marked marks.old i ≡ true) ⊎ (i ≡ place)) }
{
    marks[place] = true;
}

/// Marks the given places.
fn mark_all(places: &[usize], marks: &mut [bool])
    requires { (i : ℕ) → Contains places.now i → i < length marks.old }
    ensures long { length marks.new ≡ length marks.old }
    ensures marked { (i : ℕ) → (is_marked marks.new i ≡ true)
        ↔ ((is_marked marks.old i ≡ true) ⊎ Contains places.now i) }
{
    for at in 0..places.len() {
        mark_one(places[at], marks);
    }
}

/// Marks the seeds of a point, where the places of the tetrahedra whose closure holds it are known.
fn mark_found(
    points: &Points,
    list: &TetList,
    closed: &FaceTable,
    x: RatPoint,
    holders: &[usize],
    seeds: &mut [bool],
)
    requires on { All (IsOn points.now) list.now }
    requires long { length seeds.old ≡ length list.now + 1 }
    requires holders { (i : ℕ) → Contains holders.now i ↔ RowHolds points.now list.now x i }
    ensures long { length seeds.new ≡ length list.now + 1 }
    ensures marked { (i : ℕ) → (is_marked seeds.new i ≡ true)
        ↔ ((is_marked seeds.old i ≡ true) ⊎ IsSeedAt points.now closed.now list.now x i) }
{
    if is_on_closed(points, list, closed, x, holders) {
        return;
    }
    if holders.is_empty() {
        mark_one(list.len(), seeds);
        return;
    }
    mark_all(holders, seeds);
}

/// Marks the seeds of a hole or region point: none if the point is on a facet, else each
/// tetrahedron whose closure holds it, or, where there is none, the outside of the hull at the
/// place past the last tetrahedron.
pub(crate) fn mark_seeds(
    alloc: Global,
    mesh: &Walled<'_>,
    x: RatPoint,
    seeds: &mut [bool],
) -> Result<(), NoMemory>
    requires rows { IsSearchable mesh.now }
    requires long { length seeds.old ≡ length mesh.now.list.now + 1 }
    ensures long { OnOk result (length seeds.new ≡ length mesh.now.list.now + 1) }
    ensures marked { OnOk result ((i : ℕ) → (is_marked seeds.new i ≡ true)
        ↔ ((is_marked seeds.old i ≡ true)
        ⊎ IsSeedAt mesh.now.points.now mesh.now.closed mesh.now.list.now x i)) }
{
    let holders = holders_by(alloc, mesh, x)?;
    mark_found(mesh.points, mesh.list, &mesh.closed, x, &holders, seeds);
    Ok(())
}

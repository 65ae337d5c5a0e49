//! The sides of facets, and the search for one that no other facet covers, where a surface is open.

ghost use Rattle.std.specs.Prelude.{◌≡◌, ◌<◌, ◌≤◌, ◌++◌, true, false, All, find, length, map, HoldsAt, IfOk, OnOk, IsTrue};
ghost use Rattle.std.specs.List.{list_any};
ghost use Rattle.geo_laws.specs.Complex.{flat_facet, HasCornersOf};
ghost use Rattle.geo_laws.specs.Delaunay.{point};
ghost use Rattle.geo_laws.specs.Facet.{spans_plane};
ghost use Rattle.geo_laws.specs.Segment.{segments};
ghost use Rattle.tetfit_run.specs.Sides.{all_sides, boxes_share, common, covers, first_open, has_more, has_more_points, has_some};
ghost use Rattle.tetfit_run.specs.Sides.{is_open, lie_along, side_of, HoldsSide, IsSideOn, IsSideTree};

use box_tree::{Bounds, Interval, Tree, box_of, joined, next_meeting, point_bounds, tree_of};
use geo_laws::{Complex, Facet, Piece, Pieces, Points};
use incidence::{PieceSet, put_sides};
use sign_predicates::{GridPoint, spans_plane};
use std::alloc::Global;
use tet_ports::{Items, NoMemory};

/// A side of a polygon, and the place of its facet in the complex, from 0.
#[derive(Clone, Copy)]
pub(crate) struct FacetSide {
    pub(crate) facet: u32,
    pub(crate) side: Piece,
}

// ---- the sides of all facets

/// The distinct sides of a facet, in the order of its polygons and their corners.
fn sides_in(alloc: Global, complex: &Complex, span: &Facet) -> Result<Pieces, NoMemory>
    requires order { span.now.first ≤ span.now.past }
    requires there { span.now.past ≤ length complex.now.polygons }
    ensures { IfOk result (λ found. found
        ≡ segments (flat_facet complex.now.polygons span.now).polygons) }
{
    let mut set = PieceSet::new(alloc);
    for polygon in span.first..span.past {
        put_sides(&mut set, complex.corners(polygon))?;
    }
    set.pieces()
}

/// The distinct sides of the facet at this place.
fn sides_of(alloc: Global, complex: &Complex, facet: u32) -> Result<Pieces, NoMemory>
    requires { facet < length complex.now.facets }
    ensures { IfOk result (λ found. HoldsAt
        (λ f. found ≡ segments (flat_facet complex.now.polygons f).polygons)
        complex.now.facets facet) }
{
    let span = complex.facet(facet);
    sides_in(alloc, complex, span)
}

/// Appends the sides of the facet at this place.
fn append_sides(list: &mut Items<FacetSide>, facet: u32, sides: &[Piece]) -> Result<(), NoMemory>
    ensures { OnOk result (list.new ≡ list.old ++ map (side_of facet) sides.now) }
{
    for side in sides {
        list.push(FacetSide { facet, side: *side })?;
    }
    Ok(())
}

/// The sides of all facets, facet by facet.
fn all_sides(alloc: Global, complex: &Complex) -> Result<Items<FacetSide>, NoMemory>
    ensures { IfOk result (λ list. list ≡ all_sides complex.now) }
{
    let mut list = Items::new(alloc);
    for facet in 0..complex.facet_count() {
        let sides = sides_of(alloc, complex, facet)?;
        append_sides(&mut list, facet, sides.as_slice())?;
    }
    Ok(list)
}

// ---- whether a side covers another

/// The numbers between `a` and `b` that are between `c` and `d` too.
fn common(a: i32, b: i32, c: i32, d: i32) -> Interval
    ensures { result ≡ common a b c d }
{
    Interval {
        low: a.min(b).max(c.min(d)),
        high: a.max(b).min(c.max(d)),
    }
}

fn has_some(i: Interval) -> bool
    ensures { result ≡ has_some i }
{
    i.low <= i.high
}

fn has_more(i: Interval) -> bool
    ensures { result ≡ has_more i }
{
    i.low < i.high
}

/// Whether these are the sides of a box with more than one point.
fn has_more_points(x: Interval, y: Interval, z: Interval) -> bool
    ensures { result ≡ has_more_points x y z }
{
    has_some(x) && has_some(y) && has_some(z) && (has_more(x) || has_more(y) || has_more(z))
}

/// Whether the boxes round `a` and `b` and round `c` and `d` have more than one point in common.
fn boxes_share(a: GridPoint, b: GridPoint, c: GridPoint, d: GridPoint) -> bool
    ensures { result ≡ boxes_share a b c d }
{
    has_more_points(
        common(a.x, b.x, c.x, d.x),
        common(a.y, b.y, c.y, d.y),
        common(a.z, b.z, c.z, d.z),
    )
}

/// Whether the boxes round two segments have more than one point in common.
fn sides_share(points: &Points, p: Piece, q: Piece) -> bool
    requires p_a { p.a < length points.now }
    requires p_b { p.b < length points.now }
    requires q_a { q.a < length points.now }
    requires q_b { q.b < length points.now }
    ensures { result ≡ boxes_share (point points.now p.a) (point points.now p.b)
        (point points.now q.a) (point points.now q.b) }
{
    boxes_share(
        points.at(p.a as usize),
        points.at(p.b as usize),
        points.at(q.a as usize),
        points.at(q.b as usize),
    )
}

/// Whether a point is off the line through the ends of a segment.
fn is_off(points: &Points, p: Piece, i: u32) -> bool
    requires p_a { p.a < length points.now }
    requires p_b { p.b < length points.now }
    requires there { i < length points.now }
    ensures { result ≡ spans_plane points.now p.a p.b i }
{
    spans_plane(
        points.at(p.a as usize),
        points.at(p.b as usize),
        points.at(i as usize),
    )
}

/// Whether two segments have more than one point in common.
fn lie_along(points: &Points, p: Piece, q: Piece) -> bool
    requires p_a { p.a < length points.now }
    requires p_b { p.b < length points.now }
    requires q_a { q.a < length points.now }
    requires q_b { q.b < length points.now }
    ensures { result ≡ lie_along points.now p q }
{
    sides_share(points, p, q) && !is_off(points, p, q.a) && !is_off(points, p, q.b)
}

/// Whether `t` is a side of another facet, and has more than one point in common with `s`.
fn covers(points: &Points, s: FacetSide, t: FacetSide) -> bool
    requires s_on { IsSideOn points.now s }
    requires t_on { IsSideOn points.now t }
    ensures { result ≡ covers points.now s t }
{
    t.facet != s.facet && lie_along(points, s.side, t.side)
}

/// Whether the side at a place covers `s`.
fn is_covered_at(points: &Points, sides: &[FacetSide], s: FacetSide, place: usize) -> bool
    requires s_on { IsSideOn points.now s }
    requires on { All (IsSideOn points.now) sides.now }
    ensures yes { IsTrue result → list_any (covers points.now s) sides.now ≡ true }
    ensures no { result ≡ false → place < length sides.now
        → HoldsAt (λ t. covers points.now s t ≡ false) sides.now place }
{
    if place >= sides.len() {
        return false;
    }
    covers(points, s, sides[place])
}

// ---- the sides that meet a box

/// The box round a side.
fn side_bounds(points: &Points, side: Piece) -> Bounds
    requires a { side.a < length points.now }
    requires b { side.b < length points.now }
    ensures { HoldsSide points.now side result }
{
    joined(
        point_bounds(points.at(side.a as usize)),
        point_bounds(points.at(side.b as usize)),
    )
}

/// The box round the side at a place.
fn bounds_at(points: &Points, sides: &[FacetSide], place: usize) -> Bounds
    requires there { place < length sides.now }
    requires on { All (IsSideOn points.now) sides.now }
    ensures { HoldsAt (λ s. HoldsSide points.now s.side result) sides.now place }
{
    side_bounds(points, sides[place].side)
}

/// The AABB tree of the sides.
fn side_tree(alloc: Global, points: &Points, sides: &[FacetSide]) -> Result<Tree, NoMemory>
    requires { All (IsSideOn points.now) sides.now }
    ensures { IfOk result (IsSideTree points.now sides.now) }
{
    let mut boxes = Items::with_capacity(alloc, sides.len())?;
    for place in 0..sides.len() {
        boxes.push(box_of(bounds_at(points, sides, place), place))?;
    }
    tree_of(alloc, boxes)
}

/// Whether a side of another facet has more than one point in common with `s`. Those whose boxes
/// overlap its box are tested.
fn is_covered(points: &Points, sides: &[FacetSide], tree: &Tree, s: FacetSide) -> bool
    requires s_on { IsSideOn points.now s }
    requires on { All (IsSideOn points.now) sides.now }
    requires tree { IsSideTree points.now sides.now tree.now }
    ensures { result ≡ list_any (covers points.now s) sides.now }
{
    let bounds = side_bounds(points, s.side);
    let mut i = next_meeting(tree, &bounds, 0);
    while i < tree.len() {
        if is_covered_at(points, sides, s, tree.get(i).own.place) {
            return true;
        }
        i = next_meeting(tree, &bounds, i + 1);
    }
    false
}

// ---- sides with the same ends

/// The places of two sides with the same ends in the list of all sides: of the first, and of one of
/// another facet, or of the first again where there is none.
#[derive(Clone, Copy)]
struct Pair {
    first: usize,
    other: usize,
}

/// Pairs of sides, by the place of their ends in `ends`. They say where a side that covers another
/// may be found; each is tested.
#[derive(Drop)]
struct Pairs {
    ends: PieceSet,
    pairs: Vec<Pair>,
}

/// Whether the side at this place is one of another facet.
fn is_of_other(sides: &[FacetSide], facet: u32, place: usize) -> bool {
    place < sides.len() && sides[place].facet != facet
}

/// Puts the side at a place into its pair.
fn put_side(pairs: &mut Pairs, sides: &[FacetSide], at: usize) -> Result<(), NoMemory>
    requires { at < length sides.now }
{
    let FacetSide { facet, side } = sides[at];
    match pairs.ends.place_of(side) {
        Some(k) => {
            if k < pairs.pairs.len() && is_of_other(sides, facet, pairs.pairs[k].first) {
                pairs.pairs[k].other = at;
            }
        }
        None => {
            pairs.ends.put(side)?;
            pairs.pairs.push(Pair {
                first: at,
                other: at,
            })?;
        }
    }
    Ok(())
}

/// The pairs of all sides.
fn pairs_of(alloc: Global, sides: &[FacetSide]) -> Result<Pairs, NoMemory> {
    let mut pairs = Pairs {
        ends: PieceSet::new(alloc),
        pairs: Vec::new(alloc),
    };
    for at in 0..sides.len() {
        put_side(&mut pairs, sides, at)?;
    }
    Ok(pairs)
}

/// The pair of the sides with the ends of this one.
fn pair_of(pairs: &Pairs, side: Piece) -> Option<Pair> {
    match pairs.ends.place_of(side) {
        Some(k) if k < pairs.pairs.len() => Some(pairs.pairs[k]),
        _ => None,
    }
}

// ---- open sides

/// Whether one of the sides with the ends of `s` covers it.
fn is_shared(points: &Points, sides: &[FacetSide], pairs: &Pairs, s: FacetSide) -> bool
    requires s_on { IsSideOn points.now s }
    requires on { All (IsSideOn points.now) sides.now }
    ensures { IsTrue result → list_any (covers points.now s) sides.now ≡ true }
{
    match pair_of(pairs, s.side) {
        Some(pair) => {
            is_covered_at(points, sides, s, pair.first)
                || is_covered_at(points, sides, s, pair.other)
        }
        None => false,
    }
}

/// What finds sides that may cover another one.
#[derive(Drop)]
struct Index {
    pairs: Pairs,
    tree: Tree,
}

/// The pairs and the tree of all sides.
fn index_of(alloc: Global, points: &Points, sides: &[FacetSide]) -> Result<Index, NoMemory>
    requires { All (IsSideOn points.now) sides.now }
    ensures { IfOk result (λ index. IsSideTree points.now sides.now index.tree) }
{
    let pairs = pairs_of(alloc, sides)?;
    let tree = side_tree(alloc, points, sides)?;
    Ok(Index { pairs, tree })
}

/// Whether no side of another facet has more than one point in common with `s`. The tree is asked
/// only where none of those with the same ends is of another facet.
fn is_open(points: &Points, sides: &[FacetSide], index: &Index, s: FacetSide) -> bool
    requires s_on { IsSideOn points.now s }
    requires on { All (IsSideOn points.now) sides.now }
    requires tree { IsSideTree points.now sides.now index.now.tree }
    ensures { result ≡ is_open points.now sides.now s }
{
    if is_shared(points, sides, &index.pairs, s) {
        false
    } else {
        !is_covered(points, sides, &index.tree, s)
    }
}

/// The first open side of the list.
fn first_of(points: &Points, sides: &[FacetSide], index: &Index) -> Option<FacetSide>
    requires on { All (IsSideOn points.now) sides.now }
    requires tree { IsSideTree points.now sides.now index.now.tree }
    ensures { result ≡ find (is_open points.now sides.now) sides.now }
{
    for s in sides {
        if is_open(points, sides, index, *s) {
            return Some(*s);
        }
    }
    None
}

/// The first side, in the order of facets, polygons and corners, with which no side of another
/// facet has more than one point in common; None where there is none. Sides with the same ends are
/// found by a table, and those that are covered in parts by an AABB tree.
pub(crate) fn first_open(
    alloc: Global,
    points: &Points,
    complex: &Complex,
) -> Result<Option<FacetSide>, NoMemory>
    requires { HasCornersOf points.now complex.now }
    ensures { IfOk result (λ found. found ≡ first_open points.now complex.now) }
{
    let list = all_sides(alloc, complex)?;
    let sides = list.as_slice();
    let index = index_of(alloc, points, sides)?;
    Ok(first_of(points, sides, &index))
}

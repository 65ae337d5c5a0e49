//! The tetrahedra that facets cross, found by facet sections (`Sheet`): the missing triangles of a
//! facet and their plane. All segments of the facets are edges of tetrahedra, so that a facet has
//! the whole section of its plane with a tetrahedron, or nothing of it, and one point of the
//! section decides.
ghost use Rattle.box_tree.specs.Tree.{IsTree};

use crate::circuit::{Plane, SHORT, Spot, is_passed, plane_of, side_of};
use crate::frame::{reduce, spot_of};
use crate::missing::Missing;
use crate::stop::{Stop, or_stop};
use box_tree::{
    Bounds, Boxed, Interval, Tree, are_bounds_apart, box_of, joined, next_meeting, point_bounds,
    tree_of,
};
use geo_laws::{FacetTriangle, FacetTriangles, Points, Tet, TetList};
use sign_predicates::GridPoint;
use std::alloc::Global;
use tet_ports::{Items, NoMemory};

/// Some missing triangles of a facet, which follow one another and lie in one plane, and the box
/// round them.
#[derive(Clone, Copy)]
pub(crate) struct Span {
    facet: u32,
    pub(crate) first: usize,
    pub(crate) past: usize,
    plane: Plane,
    bounds: Bounds,
}

/// A facet section: the missing triangles of a span with their AABB tree.
#[derive(Drop)]
pub(crate) struct Sheet {
    pub(crate) span: Span,
    tree: Tree,
    ghost tree_is: { IsTree tree },
}

/// Point coordinates relative to the first, divided by their common power of two, and whether all
/// of them are short.
#[derive(Drop)]
struct Spots {
    all: Vec<Spot>,
    are_short: bool,
}

/// Missing triangles, the place of each among all, and their facet sections, with the AABB tree of
/// these.
#[derive(Drop)]
pub(crate) struct Sheets {
    spots: Spots,
    pub(crate) missing: FacetTriangles,
    places: Items<usize>,
    pub(crate) all: Items<Sheet>,
    tree: Tree,
    ghost tree_is: { IsTree tree },
}

/// The tetrahedra that no facet crosses, and the crossed ones, each with the place among all
/// triangles of one that its edge passes.
#[derive(Drop)]
pub(crate) struct Parted {
    pub(crate) kept: TetList,
    pub(crate) crossed: TetList,
    pub(crate) crossed_by: Items<usize>,
}

/// The corners of a tetrahedron as points and as relative coordinates, and the box round them.
#[derive(Clone, Copy)]
struct Body {
    corners: [GridPoint; 4],
    spots: [Spot; 4],
    bounds: Bounds,
}

/// A segment through a plane, and a box round the point where it passes the plane.
#[derive(Clone, Copy)]
struct Leg {
    from: Spot,
    to: Spot,
    bounds: Bounds,
}

/// Consecutive tetrahedra of a list with the same first corner, before the place `past`, and
/// whether the box round them meets that of no facet section.
#[derive(Clone, Copy)]
struct Star {
    past: usize,
    is_clear: bool,
}

/// The place of a body whose box meets another, and the node after its own.
#[derive(Clone, Copy)]
struct Found {
    place: usize,
    next: usize,
}

/// The first body, from a node on, whose box meets `bounds`.
fn next_of(tree: &Tree, bounds: &Bounds, from: usize) -> Option<Found>
    requires { IsTree tree.now }
{
    if tree.len() < from {
        return None;
    }
    let i = next_meeting(tree, bounds, from);
    if tree.len() <= i {
        return None;
    }
    Some(Found {
        place: tree.get(i).own.place,
        next: i + 1,
    })
}

fn point_at(points: &Points, number: u32) -> Option<GridPoint> {
    points.as_slice().get(number as usize).copied()
}

/// The box round a triangle.
fn triangle_bounds(points: &Points, t: FacetTriangle) -> Option<Bounds> {
    let (a, b) = (point_at(points, t.a)?, point_at(points, t.b)?);
    let one = joined(point_bounds(a), point_bounds(b));
    Some(joined(one, point_bounds(point_at(points, t.c)?)))
}

/// The corners of a tetrahedron.
fn row_points(points: &Points, row: Tet) -> Option<[GridPoint; 4]> {
    let (a, b) = (point_at(points, row.a)?, point_at(points, row.b)?);
    Some([a, b, point_at(points, row.c)?, point_at(points, row.d)?])
}

/// The box round four points.
fn bounds_of(corners: &[GridPoint; 4]) -> Bounds {
    let [a, b, c, d] = *corners;
    let one = joined(point_bounds(a), point_bounds(b));
    let two = joined(point_bounds(c), point_bounds(d));
    joined(one, two)
}

/// Point coordinates relative to the first, divided by their common power of two.
fn spots_of(alloc: Global, points: &Points) -> Result<Spots, NoMemory> {
    let mut all = Vec::with_capacity(alloc, points.len())?;
    for p in points.as_slice() {
        all.push(spot_of(*p))?;
    }
    let are_short = reduce(&mut all) < SHORT / 2;
    Ok(Spots { all, are_short })
}

impl Spots {
    fn at(&self, number: u32) -> Option<Spot> {
        self.all.get(number as usize).copied()
    }

    /// The corners of a triangle.
    fn triangle(&self, t: FacetTriangle) -> Option<[Spot; 3]> {
        Some([self.at(t.a)?, self.at(t.b)?, self.at(t.c)?])
    }

    /// The corners of a tetrahedron, as relative coordinates.
    fn row(&self, row: Tet) -> Option<[Spot; 4]> {
        let (a, b) = (self.at(row.a)?, self.at(row.b)?);
        Some([a, b, self.at(row.c)?, self.at(row.d)?])
    }

    /// Whether the triangle lies in the plane.
    fn is_flat(&self, plane: &Plane, triangle: &[Spot; 3]) -> bool {
        for i in 0..3 {
            if side_of(self.are_short, plane, triangle[i]) != 0 {
                return false;
            }
        }
        true
    }
}

/// The place after the tetrahedra from `from` on that have the same first corner, and the box round
/// them.
fn star_bounds(points: &Points, list: &TetList, from: usize, row: Tet) -> Option<(usize, Bounds)> {
    let mut bounds = bounds_of(&row_points(points, row)?);
    for i in from..list.len() {
        let next = list.at(i);
        if next.a != row.a {
            return Some((i, bounds));
        }
        bounds = joined(bounds, bounds_of(&row_points(points, next)?));
    }
    Some((list.len(), bounds))
}

/// The span of one triangle at a place.
fn span_of(points: &Points, spots: &Spots, place: usize, t: FacetTriangle) -> Option<Span> {
    let [a, b, c] = spots.triangle(t)?;
    Some(Span {
        facet: t.facet,
        first: place,
        past: place.saturating_add(1),
        plane: plane_of(a, b, c),
        bounds: triangle_bounds(points, t)?,
    })
}

/// The span with a further triangle, where that is of the span's facet and plane.
fn widened(spots: &Spots, span: Span, next: Span, t: FacetTriangle) -> Option<Span> {
    if span.facet != next.facet || !spots.is_flat(&span.plane, &spots.triangle(t)?) {
        return None;
    }
    Some(Span {
        past: next.past,
        bounds: joined(span.bounds, next.bounds),
        ..span
    })
}

/// The spans of the triangles.
fn all_spans(
    alloc: Global,
    points: &Points,
    spots: &Spots,
    missing: &FacetTriangles,
) -> Result<Items<Span>, Stop> {
    let mut all = Items::new(alloc);
    let mut open = None;
    for i in 0..missing.len() {
        let t = missing.at(i);
        let next = or_stop(span_of(points, spots, i, t))?;
        let Some(span) = open else {
            open = Some(next);
            continue;
        };
        match widened(spots, span, next, t) {
            Some(wider) => open = Some(wider),
            None => {
                all.push(span)?;
                open = Some(next);
            }
        }
    }
    if let Some(span) = open {
        all.push(span)?;
    }
    Ok(all)
}

fn boxes_of_spans(alloc: Global, all: &Items<Span>) -> Result<Items<Boxed>, NoMemory> {
    let mut boxes = Items::with_capacity(alloc, all.len())?;
    for i in 0..all.len() {
        boxes.push(box_of(all.at(i).bounds, i))?;
    }
    Ok(boxes)
}

/// A facet section with the AABB tree of its triangles.
fn sheet_of(
    alloc: Global,
    points: &Points,
    missing: &FacetTriangles,
    span: Span,
) -> Result<Sheet, Stop> {
    let mut boxes = Items::new(alloc);
    for i in span.first..span.past.min(missing.len()) {
        let bounds = or_stop(triangle_bounds(points, missing.at(i)))?;
        boxes.push(box_of(bounds, i))?;
    }
    let tree = tree_of(alloc, boxes)?;
    Ok(Sheet { span, tree })
}

/// The facet sections of missing triangles.
pub(crate) fn sheets_of(alloc: Global, points: &Points, missing: Missing) -> Result<Sheets, Stop> {
    let Missing { triangles, places } = missing;
    let spots = spots_of(alloc, points)?;
    let spans = all_spans(alloc, points, &spots, &triangles)?;
    let mut all = Items::new(alloc);
    for i in 0..spans.len() {
        all.push(sheet_of(alloc, points, &triangles, spans.at(i))?)?;
    }
    let tree = tree_of(alloc, boxes_of_spans(alloc, &spans)?)?;
    Ok(Sheets {
        spots,
        missing: triangles,
        places,
        all,
        tree,
    })
}

/// The bits of a share of a segment.
const SHARE_BITS: u32 = 20;

/// The share of a segment up to a plane, from its end at height `above` to its end at height
/// `below`, in units of 2^-`SHARE_BITS`, up to two units.
fn share_of(above: i128, below: i128) -> Option<i64> {
    let whole = above.wrapping_add(below);
    let taken = 96u32.saturating_sub(whole.leading_zeros());
    let part = i64::try_from(above.wrapping_shr(taken)).ok()?;
    let all = i64::try_from(whole.wrapping_shr(taken)).ok()?;
    part.wrapping_shl(SHARE_BITS).checked_div(all)
}

/// An interval round the number that divides the way from `p` to `q` in this share, with room for
/// rounding.
fn interval_between(p: i32, q: i32, share: i64) -> Option<Interval> {
    let way = i64::from(q).wrapping_sub(i64::from(p));
    let at = i64::from(p).wrapping_add(way.wrapping_mul(share) >> SHARE_BITS);
    let room = (way.wrapping_abs() >> (SHARE_BITS - 2)).wrapping_add(2);
    Some(Interval {
        low: i32::try_from(at.wrapping_sub(room)).ok()?,
        high: i32::try_from(at.wrapping_add(room)).ok()?,
    })
}

/// A segment through the plane between two corners of the tetrahedron; `None` where there is none.
fn leg_of(is_short: bool, plane: &Plane, body: &Body) -> Option<Leg> {
    let mut over = None;
    let mut under = None;
    for i in 0..4 {
        let side = side_of(is_short, plane, body.spots[i]);
        if side > 0 {
            over = Some((i, side));
        } else if side < 0 {
            under = Some((i, side.wrapping_neg()));
        }
    }
    let ((i, above), (j, below)) = (over?, under?);
    let share = share_of(above, below)?;
    let (p, q) = (*body.corners.get(i)?, *body.corners.get(j)?);
    Some(Leg {
        from: *body.spots.get(i)?,
        to: *body.spots.get(j)?,
        bounds: Bounds {
            x: interval_between(p.x, q.x, share)?,
            y: interval_between(p.y, q.y, share)?,
            z: interval_between(p.z, q.z, share)?,
        },
    })
}

impl Sheets {
    /// Whether the leg passes the triangle at this place, in either orientation.
    fn passes(&self, leg: &Leg, place: usize) -> bool {
        if self.missing.len() <= place {
            return false;
        }
        match self.spots.triangle(self.missing.at(place)) {
            Some(t) => is_passed(self.spots.are_short, (leg.from, leg.to), &t),
            None => false,
        }
    }

    /// The place of a triangle of the facet section at `place` that the tetrahedron's edge passes,
    /// where the section crosses the tetrahedron.
    fn crossing(&self, body: &Body, place: usize) -> Option<usize> {
        if self.all.len() <= place {
            return None;
        }
        let sheet = self.all.get(place);
        if are_bounds_apart(&sheet.span.bounds, &body.bounds) {
            return None;
        }
        let leg = leg_of(self.spots.are_short, &sheet.span.plane, body)?;
        let mut next = 0;
        for _ in 0..sheet.tree.len() {
            let found = next_of(&sheet.tree, &leg.bounds, next)?;
            if self.passes(&leg, found.place) {
                return Some(found.place);
            }
            next = found.next;
        }
        None
    }

    /// The place of a triangle of some facet section that crosses the tetrahedron. The section at
    /// the place `last` is tested first, since it often crosses the next tetrahedron too.
    fn cross(&self, body: &Body, last: &mut usize) -> Option<usize> {
        if let Some(place) = self.crossing(body, *last) {
            return Some(place);
        }
        let mut next = 0;
        for _ in 0..self.tree.len() {
            let found = next_of(&self.tree, &body.bounds, next)?;
            if found.place != *last {
                if let Some(place) = self.crossing(body, found.place) {
                    *last = found.place;
                    return Some(place);
                }
            }
            next = found.next;
        }
        None
    }

    /// The star of the tetrahedron at place `i`, which is its first one. Most stars are far from
    /// all facet sections, so that one search in the tree serves for several tetrahedra.
    fn star_from(&self, points: &Points, list: &TetList, i: usize, row: Tet) -> Option<Star> {
        let (past, bounds) = star_bounds(points, list, i, row)?;
        Some(Star {
            past,
            is_clear: next_of(&self.tree, &bounds, 0).is_none(),
        })
    }

    /// The place of a triangle that crosses the tetrahedron, by the star of the tetrahedron.
    fn cross_in(
        &self,
        points: &Points,
        star: Star,
        row: Tet,
        last: &mut usize,
    ) -> Result<Option<usize>, Stop> {
        if star.is_clear {
            return Ok(None);
        }
        let corners = or_stop(row_points(points, row))?;
        let body = Body {
            corners,
            spots: or_stop(self.spots.row(row))?,
            bounds: bounds_of(&corners),
        };
        Ok(self.cross(&body, last))
    }

    /// Parts the tetrahedra into those that facets cross, and the others.
    pub(crate) fn part(
        &self,
        alloc: Global,
        points: &Points,
        list: &TetList,
    ) -> Result<Parted, Stop> {
        let mut kept = TetList::new(alloc);
        let mut crossed = TetList::new(alloc);
        let mut crossed_by = Items::new(alloc);
        let mut last = 0;
        let mut star = Star {
            past: 0,
            is_clear: false,
        };
        for i in 0..list.len() {
            let row = list.at(i);
            if star.past <= i {
                star = or_stop(self.star_from(points, list, i, row))?;
            }
            match self.cross_in(points, star, row, &mut last)? {
                Some(place) => {
                    crossed.push(row)?;
                    crossed_by.push(or_stop(self.places.as_slice().get(place).copied())?)?;
                }
                None => kept.push(row)?,
            }
        }
        Ok(Parted {
            kept,
            crossed,
            crossed_by,
        })
    }
}

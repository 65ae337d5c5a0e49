//! The parts of a complex, and whether two of them are properly met.
ghost use Rattle.std.specs.Prelude.{◌≡◌, ◌<◌, IsTrue, ◌↔◌, length};
ghost use Rattle.sign_predicates.specs.Orientation.{orient};
ghost use Rattle.geo_laws.specs.Delaunay.{point};
ghost use Rattle.geo_laws.specs.Segment.{is_zero};
ghost use Rattle.geo_laws.specs.Facet.{is_on_plane};
ghost use Rattle.geo_laws.specs.Simplex.{ProperlyMet};
ghost use Rattle.simplex_meets.specs.Parts.{IsPart, IsPairMet, part_numbers};
ghost use Rattle.simplex_meets.specs.Parts.{lies_in_plane, has_triangle, is_across, is_compared};

use crate::{face_met_segment, faces_met, segment_met_face, segments_met};
use geo_laws::{Face, FacetTriangle, Piece, Points, Side};
use sign_predicates::{GridPoint, Sign, orient};

/// A part of a complex: a triangle of a facet, or a piece.
#[derive(Clone, Copy, Debug, PartialEq, Eq)]
pub enum Part {
    Triangle(FacetTriangle),
    Segment(Piece),
}

/// Which parts are compared.
#[derive(Clone, Copy, Debug, PartialEq, Eq)]
pub enum Compared {
    /// Any two.
    Any,
    /// Any two but two pieces.
    WithTriangle,
    /// Any two but two pieces, two triangles of one facet, and a triangle and a later piece in its
    /// plane.
    AcrossPlanes,
}

/// Whether the four points lie in one plane.
#[inline]
fn is_flat(a: GridPoint, b: GridPoint, c: GridPoint, p: GridPoint) -> bool
    ensures { result ≡ is_zero (orient a b c p) }
{
    matches!(orient(a, b, c, p), Sign::Zero)
}

#[inline]
fn point_of(points: &Points, i: u32) -> GridPoint
    requires { i < length points.now }
    ensures { result ≡ point points.now i }
{
    points.at(i as usize)
}

/// Whether the point lies on the plane of the triangle.
fn is_on_plane(points: &Points, t: FacetTriangle, i: u32) -> bool
    requires triangle { IsPart points.now (Part.Triangle t) }
    requires there { i < length points.now }
    ensures { result ≡ is_on_plane points.now t.a t.b t.c i }
{
    is_flat(
        point_of(points, t.a),
        point_of(points, t.b),
        point_of(points, t.c),
        point_of(points, i),
    )
}

/// Whether the piece lies in the plane of the triangle.
fn lies_in_plane(points: &Points, t: FacetTriangle, p: Piece) -> bool
    requires triangle { IsPart points.now (Part.Triangle t) }
    requires piece { IsPart points.now (Part.Segment p) }
    ensures { result ≡ lies_in_plane points.now t p }
{
    is_on_plane(points, t, p.a) && is_on_plane(points, t, p.b)
}

/// Whether one of the two parts is a triangle.
fn has_triangle(p: Part, q: Part) -> bool
    ensures { result ≡ has_triangle p q }
{
    match p {
        Part::Triangle(_) => true,
        Part::Segment(_) => match q {
            Part::Triangle(_) => true,
            Part::Segment(_) => false,
        },
    }
}

/// Whether one of the two parts is a triangle, and the two are not known to lie in one plane.
fn is_across(points: &Points, p: Part, q: Part) -> bool
    requires p_is { IsPart points.now p }
    requires q_is { IsPart points.now q }
    ensures { result ≡ is_across points.now p q }
{
    match p {
        Part::Triangle(t) => match q {
            Part::Triangle(u) => t.facet != u.facet,
            Part::Segment(s) => !lies_in_plane(points, t, s),
        },
        Part::Segment(_) => has_triangle(p, q),
    }
}

/// Whether the two parts are to be compared.
fn is_compared(points: &Points, compared: Compared, p: Part, q: Part) -> bool
    requires p_is { IsPart points.now p }
    requires q_is { IsPart points.now q }
    ensures { result ≡ is_compared compared points.now p q }
{
    match compared {
        Compared::Any => true,
        Compared::WithTriangle => has_triangle(p, q),
        Compared::AcrossPlanes => is_across(points, p, q),
    }
}

/// Whether two parts are properly met.
fn are_properly_met(points: &Points, p: Part, q: Part) -> bool
    requires p_is { IsPart points.now p }
    requires q_is { IsPart points.now q }
    ensures { IsTrue result ↔ ProperlyMet points.now (part_numbers p) (part_numbers q) }
{
    match p {
        Part::Triangle(t) => {
            let f = Face {
                a: t.a,
                b: t.b,
                c: t.c,
            };
            match q {
                Part::Triangle(u) => faces_met(
                    points,
                    f,
                    Face {
                        a: u.a,
                        b: u.b,
                        c: u.c,
                    },
                ),
                Part::Segment(s) => face_met_segment(points, f, Side { a: s.a, b: s.b }),
            }
        }
        Part::Segment(r) => {
            let e = Side { a: r.a, b: r.b };
            match q {
                Part::Triangle(u) => segment_met_face(
                    points,
                    e,
                    Face {
                        a: u.a,
                        b: u.b,
                        c: u.c,
                    },
                ),
                Part::Segment(s) => segments_met(points, e, Side { a: s.a, b: s.b }),
            }
        }
    }
}

/// Whether two parts are properly met, or not to be compared.
pub(crate) fn are_met(points: &Points, compared: Compared, p: Part, q: Part) -> bool
    requires p_is { IsPart points.now p }
    requires q_is { IsPart points.now q }
    ensures { IsTrue result ↔ IsPairMet compared points.now p q }
{
    if is_compared(points, compared, p, q) {
        are_properly_met(points, p, q)
    } else {
        true
    }
}

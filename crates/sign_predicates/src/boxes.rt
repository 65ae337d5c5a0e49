//! Triangles whose boxes are apart, a cheap test before the exact ones.
ghost use Rattle.std.specs.Prelude.{IsTrue, ◌⊎◌};
ghost use Rattle.sign_predicates.specs.Meeting.{grid_triangle, TrianglesMeet};
ghost use Rattle.sign_predicates.specs.Turns.{AllBelow};

use crate::triangle::GridTriangle;

/// Whether the first three numbers are all below the others.
#[inline]
fn all_below(a: i32, b: i32, c: i32, d: i32, e: i32, f: i32) -> bool
    ensures { IsTrue result → AllBelow a b c d e f }
{
    a.max(b).max(c) < d.min(e).min(f)
}

/// Whether three numbers are all below three others, or all above them.
#[inline]
fn apart_along(a: i32, b: i32, c: i32, d: i32, e: i32, f: i32) -> bool
    ensures { IsTrue result → AllBelow a b c d e f ⊎ AllBelow d e f a b c }
{
    all_below(a, b, c, d, e, f) || all_below(d, e, f, a, b, c)
}

/// Whether the boxes of two triangles, with sides along the axes, are apart: then no point lies in
/// both.
#[inline]
pub(crate) fn boxes_apart(f: &GridTriangle, g: &GridTriangle) -> bool
    ensures { IsTrue result → ¬ TrianglesMeet (grid_triangle f.now) (grid_triangle g.now) }
{
    if apart_along(f.a.x, f.b.x, f.c.x, g.a.x, g.b.x, g.c.x) {
        return true;
    }
    if apart_along(f.a.y, f.b.y, f.c.y, g.a.y, g.b.y, g.c.y) {
        return true;
    }
    apart_along(f.a.z, f.b.z, f.c.z, g.a.z, g.b.z, g.c.z)
}

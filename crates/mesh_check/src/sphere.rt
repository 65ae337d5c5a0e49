//! The insphere test without simulation of simplicity.

ghost use Rattle.std.specs.Prelude.{◌≡◌, ◌<ℤ◌, ◌↔◌, pos, IsTrue};
ghost use Rattle.sign_predicates.specs.Sphere.{in_sphere};

use sign_predicates::{Corners, GridPoint, Numbers, outside};

/// Whether `p` is strictly inside the circumsphere of the positive tetrahedron `t`. The insphere
/// test is called with the least number for `p`, which makes each tie outside.
pub(crate) fn is_inside_sphere(t: Corners, p: GridPoint) -> bool
    ensures { IsTrue result ↔ pos 0 <ℤ in_sphere t p }
{
    let later = Numbers {
        a: 1,
        b: 2,
        c: 3,
        d: 4,
    };
    !outside(t, later, p, 0)
}

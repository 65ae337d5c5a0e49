//! Ways through a mesh that is changed in place.
use crate::live::{Live, face_at};
use mesh_parts::{Spot, volume};

/// The most tetrahedra that a walk goes through.
const STEPS: u32 = 60;

/// Where a step of a walk leads.
#[derive(Clone, Copy)]
enum Step {
    Inside,
    Wall,
    To(u32),
}

/// The step from a tetrahedron to a place.
fn step_to(live: &Live, t: u32, p: Spot) -> Option<Step> {
    let cell = live.live(t)?;
    let mut next = Step::Inside;
    for k in 0..4 {
        let [a, b, c] = live.triangle(&face_at(&cell.corners, k))?;
        if volume(a, b, c, p) < 0 {
            match (cell.across[k].cell, cell.across[k].facet) {
                (Some(n), None) => return Some(Step::To(n)),
                _ => next = Step::Wall,
            }
        }
    }
    Some(next)
}

/// The tetrahedron that has a place, where the way to it from another one meets no wall.
pub(crate) fn walk(live: &Live, t: u32, p: Spot) -> Option<u32> {
    let mut at = t;
    for _ in 0..STEPS {
        match step_to(live, at, p)? {
            Step::Inside => return Some(at),
            Step::Wall => return None,
            Step::To(n) => at = n,
        }
    }
    None
}

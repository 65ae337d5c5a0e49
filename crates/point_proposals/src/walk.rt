//! Straight walks through tetrahedra, and walks through the subfaces of a facet.
use mesh_parts::{Beyond, Cell, Link, Mesh, Plane, Spot, centroid, opposite, volume};

/// The most tetrahedra or subfaces that a walk goes through.
const STEPS: u32 = 500;

/// Where a walk to a point ends.
#[derive(Clone, Copy)]
pub(crate) enum End {
    /// In the tetrahedron, or the subface, that has the point.
    Inside(u32),
    /// At the subface, or the subsegment, in the way.
    Wall(u32),
}

/// How well a line goes through a face: the least of the volumes with its edges, or of their
/// negatives, whichever is more.
fn fit(from: Spot, to: Spot, face: &[Spot; 3]) -> i128 {
    let [a, b, c] = *face;
    let x = volume(from, to, a, b);
    let y = volume(from, to, b, c);
    let z = volume(from, to, c, a);
    let forward = x.min(y).min(z);
    forward.max(x.max(y).max(z).wrapping_neg())
}

/// A straight walk from a point to another.
#[derive(Clone, Copy)]
struct Way {
    from: Spot,
    to: Spot,
}

impl Way {
    /// What is across the face through which the line leaves a tetrahedron, where the end is
    /// outside: of the faces that have it on their outer side, but for the one to the tetrahedron
    /// before, the one that the line fits best.
    fn exit(&self, s: &[Spot; 4], cell: &Cell, last: Option<u32>) -> Option<Beyond> {
        let mut found = None;
        let mut best = i128::MIN;
        for k in 0..4 {
            let face = opposite(s, k);
            let [a, b, c] = face;
            if !is_towards(cell.across[k], last) && volume(a, b, c, self.to) < 0 {
                let fit = fit(self.from, self.to, &face);
                if found.is_none() || fit > best {
                    best = fit;
                    found = Some(cell.across[k]);
                }
            }
        }
        found
    }
}

/// Whether a face leads to this tetrahedron.
fn is_towards(across: Beyond, last: Option<u32>) -> bool {
    match across {
        Beyond::Tetrahedron(t) => last == Some(t),
        _ => false,
    }
}

/// Where the straight way from the centroid of a tetrahedron to a point ends.
pub(crate) fn walk(mesh: &Mesh, t: u32, to: Spot) -> Option<End> {
    let from = centroid(&mesh.corners(t)?);
    let way = Way { from, to };
    let mut at = t;
    let mut last = None;
    for _ in 0..STEPS {
        let cell = mesh.cell(at)?;
        match way.exit(&mesh.corners(at)?, &cell, last) {
            None => return Some(End::Inside(at)),
            Some(Beyond::Outside) => return None,
            Some(Beyond::Subface(s)) => return Some(End::Wall(s)),
            Some(Beyond::Tetrahedron(next)) => {
                last = Some(at);
                at = next;
            }
        }
    }
    None
}

/// The edge opposite a corner of a triangle.
pub(crate) fn edge_opposite(s: &[Spot; 3], k: usize) -> (Spot, Spot) {
    let [a, b, c] = *s;
    match k {
        0 => (b, c),
        1 => (c, a),
        _ => (a, b),
    }
}

/// What is across an edge of a subface that has the point beyond it, or on it where it is a
/// subsegment.
fn exit_in(plane: &Plane, s: &[Spot; 3], links: &[Link; 3], to: Spot) -> Option<Link> {
    let [a, b, c] = *s;
    let turn = plane.side(a, b, c).signum();
    let mut next = None;
    for k in 0..3 {
        let (from, end) = edge_opposite(s, k);
        let side = plane.side(from, end, to).wrapping_mul(turn);
        match links[k] {
            Link::Subface(_) => {
                if side < 0 {
                    next = Some(links[k]);
                }
            }
            other => {
                if side <= 0 {
                    return Some(other);
                }
            }
        }
    }
    next
}

/// Where the way through the subfaces of a facet to a point of its plane ends.
pub(crate) fn walk_facet(mesh: &Mesh, plane: &Plane, s: u32, to: Spot) -> Option<End> {
    let mut at = s;
    for _ in 0..STEPS {
        match exit_in(plane, &mesh.triangle(at)?, &mesh.links(at)?, to) {
            None => return Some(End::Inside(at)),
            Some(Link::Nothing) => return None,
            Some(Link::Subsegment(e)) => return Some(End::Wall(e)),
            Some(Link::Subface(next)) => at = next,
        }
    }
    None
}

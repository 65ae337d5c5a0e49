//! Points that are put in where this betters a tetrahedron much.
use crate::live::{Cell, Freedom, Live, Vertex, face_at, shortest};
use crate::moving::Mover;
use crate::search::{Best, radius_of, with_length};
use crate::sine::RIGHT;
use crate::trials::{Trials, tet_code};
use geo_laws::{Side, side_of};
use mesh_parts::{Sphere, Spot, centroid, distance, equator};
use tet_ports::NoMemory;

/// The most tetrahedra at an edge.
const MOST: usize = 60;

/// How many places are tried beside each face of a tetrahedron.
const BESIDE: u32 = 24;

/// What a new point is to better: a tetrahedron, of which it is to keep a distance, given by its
/// square.
#[derive(Clone, Copy)]
struct Target {
    place: u32,
    freedom: Freedom,
    square: u64,
}

/// The least squared distance from a place to the corners of a face.
fn least_to(live: &Live, face: &[u32; 3], p: Spot) -> Option<u64> {
    let [a, b, c] = live.triangle(face)?;
    Some(distance(a, p).min(distance(b, p)).min(distance(c, p)))
}

/// The length with a square, rounded down.
fn length_of(square: u64) -> i64 {
    i64::try_from(square.isqrt()).unwrap_or(0)
}

/// The square of the longest edge of a tetrahedron.
fn longest(s: &[Spot; 4]) -> u64 {
    let [a, b, c, d] = *s;
    let first = distance(a, b).max(distance(a, c)).max(distance(a, d));
    first
        .max(distance(b, c))
        .max(distance(b, d))
        .max(distance(c, d))
}

/// How far beside a tetrahedron with these least and greatest lengths of edges a point is tried,
/// the `k`-th time.
fn height_at(short: i64, long: i64, k: u32) -> i64 {
    match k % 4 {
        0 => short / 2,
        1 => short,
        2 => short.wrapping_add(long) / 4,
        _ => long / 2,
    }
}

impl Mover {
    /// The least squared distance from a place to the boundary of the cavity.
    fn nearest(&self, p: Spot) -> u64 {
        let mut least = u64::MAX;
        for wall in self.cavity.walls.as_slice() {
            least = least.min(least_to(&self.live, &wall.face, p).unwrap_or(u64::MAX));
        }
        least
    }

    /// Tries a place for a new point.
    fn attempt_new(&mut self, target: &Target, p: Spot, best: &mut Best) -> Result<(), NoMemory> {
        if self
            .cavity
            .seems_to_fail(&self.live, p, &self.site, best.sine)
        {
            return Ok(());
        }
        if self.site.edge.is_none() && !self.seed(target.freedom, target.place, p)? {
            return Ok(());
        }
        let Some(sine) = self.judge(p, best.sine, self.spare())? else {
            return Ok(());
        };
        if self.live.is_marked(target.place) && self.nearest(p) >= target.square {
            *best = Best {
                spot: p,
                sine,
                is_found: true,
            };
        }
        Ok(())
    }

    /// What is to be passed by a new point.
    fn much_over(&self, sine: u64, center: Spot) -> Best {
        let much = sine.saturating_mul(17) / 10;
        let much = much.saturating_add(RIGHT / 10_000).min(self.aim);
        Best {
            spot: center,
            sine: much.saturating_sub(u64::from(self.is_for_ratio)),
            is_found: false,
        }
    }

    /// Puts the best new point in, and reports whether there is one.
    fn insert(&mut self, target: &Target, best: &Best) -> Result<bool, NoMemory> {
        if !best.is_found {
            return Ok(false);
        }
        let p = best.spot;
        if self.site.edge.is_none() && !self.seed(target.freedom, target.place, p)? {
            return Ok(false);
        }
        let Ok(v) = u32::try_from(self.live.vertices.len()) else {
            return Ok(false);
        };
        self.live.vertices.push(Vertex {
            spot: p,
            freedom: target.freedom,
            cell: None,
        })?;
        self.settle(v, p)
    }

    /// Puts a new point near to the center of a sphere, within three quarters of its radius.
    fn split_near(&mut self, target: &Target, sphere: Sphere, sine: u64) -> Result<bool, NoMemory> {
        let center = sphere.center;
        let most = (radius_of(sphere) / 4).wrapping_mul(3);
        let mut best = self.much_over(sine, center);
        for k in 0..self.tries() {
            let reach = if k == 0 { 0 } else { most };
            let wish = self.dice.near(center, reach);
            if let Some(p) = self.place_near(target.freedom, wish) {
                self.attempt_new(target, p, &mut best)?;
            }
            if best.is_found && best.sine > self.aim {
                break;
            }
        }
        self.insert(target, &best)
    }

    /// Puts a new point near to the circumcenter of a tetrahedron.
    fn split_inside(&mut self, t: u32, cell: &Cell, square: u64) -> Result<bool, NoMemory> {
        let Some(sphere) = cell.sphere else {
            return Ok(false);
        };
        self.site.clear();
        let target = Target {
            place: t,
            freedom: Freedom::Anywhere,
            square: square / 3,
        };
        self.split_near(&target, sphere, cell.sine)
    }

    /// Tries places for a new point beyond a face of a tetrahedron, over and near to the centroid.
    fn attempt_beside(
        &mut self,
        target: &Target,
        spots: &[Spot; 4],
        face: &[u32; 3],
        best: &mut Best,
    ) -> Result<(), NoMemory> {
        let Some(corners) = self.live.triangle(face) else {
            return Ok(());
        };
        let [a, b, c] = corners;
        let outward = c.from(a).cross(b.from(a));
        let (short, long) = (length_of(shortest(spots)), length_of(longest(spots)));
        for k in 0..BESIDE {
            let reach = if k < 4 { 0 } else { long / 4 };
            let base = self.dice.near(centroid(spots), reach);
            let wish = base.plus(with_length(outward, height_at(short, long, k)));
            if let Some(p) = self.place_near(Freedom::Anywhere, wish) {
                self.attempt_new(target, p, best)?;
            }
            if best.is_found && best.sine > self.aim {
                break;
            }
        }
        Ok(())
    }

    /// Puts a new point close beside a tetrahedron, beyond one of its faces that are in no facet.
    fn split_beside(&mut self, t: u32, cell: &Cell, spots: &[Spot; 4]) -> Result<bool, NoMemory> {
        self.site.clear();
        let target = Target {
            place: t,
            freedom: Freedom::Anywhere,
            square: shortest(spots) / 3,
        };
        let mut best = self.much_over(cell.sine, centroid(spots));
        for k in 0..4 {
            if cell.across[k].facet.is_none() {
                let face = face_at(&cell.corners, k);
                self.attempt_beside(&target, spots, &face, &mut best)?;
            }
        }
        self.insert(&target, &best)
    }

    /// Puts a new point near to the circumcenter of a face in a facet.
    fn split_face(
        &mut self,
        t: u32,
        cell: &Cell,
        face: [u32; 3],
        facet: u32,
        square: u64,
    ) -> Result<bool, NoMemory> {
        let Some(corners) = self.live.triangle(&face) else {
            return Ok(false);
        };
        let Some(sphere) = equator(&corners) else {
            return Ok(false);
        };
        self.site.clear();
        self.site.add(facet)?;
        let target = Target {
            place: t,
            freedom: Freedom::InFacet(facet),
            square: square / 10,
        };
        self.split_near(&target, sphere, cell.sine)
    }

    /// Puts a new point near to the circumcenter of one of the faces in facets.
    fn split_faces(&mut self, t: u32, cell: &Cell, square: u64) -> Result<bool, NoMemory> {
        for k in 0..4 {
            if let Some(facet) = cell.across[k].facet {
                let face = face_at(&cell.corners, k);
                if self.split_face(t, cell, face, facet, square)? {
                    return Ok(true);
                }
            }
        }
        Ok(false)
    }

    /// Seeds the tetrahedra across the faces of one at an edge, and notes the facets there.
    fn spread_round(&mut self, t: u32, edge: Side) -> Result<(), NoMemory> {
        let Some(cell) = self.live.cell(t).copied() else {
            return Ok(());
        };
        for k in 0..4 {
            let corner = cell.corners[k];
            if corner != edge.a && corner != edge.b {
                if let Some(facet) = cell.across[k].facet {
                    self.site.add(facet)?;
                }
                if let Some(n) = cell.across[k].cell {
                    if self.live.enter(n) {
                        self.seeds.push(n)?;
                    }
                }
            }
        }
        Ok(())
    }

    /// Seeds the tetrahedra round an edge, and reports whether it is a subsegment: between two
    /// facets.
    fn seed_round(&mut self, t: u32, edge: Side) -> Result<bool, NoMemory> {
        self.site.clear();
        self.seeds.clear();
        self.live.unmark();
        self.live.enter(t);
        self.seeds.push(t)?;
        for i in 0..MOST {
            let Some(t) = self.seeds.get(i).copied() else {
                break;
            };
            self.spread_round(t, edge)?;
        }
        self.site.edge = Some(edge);
        Ok(self.site.facets.len() > 1 && self.seeds.len() < MOST)
    }

    /// Puts a new point on an edge, where it is a subsegment.
    fn split_edge(
        &mut self,
        t: u32,
        cell: &Cell,
        edge: Side,
        square: u64,
    ) -> Result<bool, NoMemory> {
        if !self.seed_round(t, edge)? {
            return Ok(false);
        }
        let target = Target {
            place: t,
            freedom: Freedom::OnSegment,
            square: square / 10,
        };
        let Some(middle) = self.place_on(edge, 7) else {
            return Ok(false);
        };
        let mut best = self.much_over(cell.sine, middle);
        for k in [7, 4, 10] {
            if let Some(p) = self.place_on(edge, k) {
                self.attempt_new(&target, p, &mut best)?;
            }
        }
        self.insert(&target, &best)
    }

    /// Puts a new point on one of the edges that are subsegments.
    fn split_edges(&mut self, t: u32, cell: &Cell, square: u64) -> Result<bool, NoMemory> {
        let [a, b, c, d] = cell.corners;
        for edge in [
            side_of(a, b),
            side_of(a, c),
            side_of(a, d),
            side_of(b, c),
            side_of(b, d),
            side_of(c, d),
        ] {
            if self.split_edge(t, cell, edge, square)? {
                return Ok(true);
            }
        }
        Ok(false)
    }

    /// Puts a new point in where this betters a tetrahedron much, and reports whether it does.
    /// Where `Trials` says that the tetrahedron is let alone nothing is tried.
    pub(crate) fn split(
        &mut self,
        t: u32,
        cell: &Cell,
        trials: &mut Trials,
    ) -> Result<bool, NoMemory> {
        let Some(spots) = self.live.spots(&cell.corners) else {
            return Ok(false);
        };
        let code = tet_code(&spots);
        if trials.is_spent(code) {
            return Ok(false);
        }
        if self.split_apart(t, cell, &spots)? {
            return Ok(true);
        }
        trials.note(code)?;
        Ok(false)
    }

    /// Puts a new point into the circumsphere of a tetrahedron, or on one of its edges or faces on
    /// the boundary, where this betters it much, and reports whether it does.
    fn split_apart(&mut self, t: u32, cell: &Cell, spots: &[Spot; 4]) -> Result<bool, NoMemory> {
        let square = shortest(spots);
        self.fill.cells.clear();
        if self.split_inside(t, cell, square)?
            || self.is_mending && self.split_beside(t, cell, spots)?
        {
            return Ok(true);
        }
        if !self.splits_boundary {
            return Ok(false);
        }
        Ok(self.split_edges(t, cell, square)? || self.split_faces(t, cell, square)?)
    }
}

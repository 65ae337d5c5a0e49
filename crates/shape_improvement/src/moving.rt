//! Points that are moved, or taken out, where this betters the worst angle there.
use crate::cavity::Cavity;
use crate::dice::Dice;
use crate::fill::Fill;
use crate::joining::join_all;
use crate::live::{Cell, Freedom, Live, face_at};
use crate::passes::Aim;
use crate::search::{Best, Search, TRIES, with_length};
use crate::sine::{RIGHT, aimed_sine};
use crate::site::Site;
use crate::star::Star;
use crate::tally::{Tally, sine_of, sine_unmarked, tally_of};
use crate::trials::{Trials, code_of, tet_code};
use crate::walk::walk;
use geo_laws::Side;
use mesh_parts::{Rung, Spot, distance, grid_point};
use std::alloc::Global;
use tet_ports::NoMemory;

/// How many tetrahedra of a small mesh may be tried in vain.
const FEW: usize = 1000;

/// How many slim tetrahedra more a change may leave where the least angles are mended.
pub const SPARE: i64 = 5;

/// The mesh that is changed, with the buffers for it.
#[derive(Drop)]
pub(crate) struct Mover {
    pub(crate) alloc: Global,
    pub(crate) live: Live,
    pub(crate) dice: Dice,
    /// Each coordinate of a place is a multiple of `2^halvings`.
    pub(crate) halvings: u32,
    /// The square of the sine of the angle that is aimed at.
    pub(crate) aim: u64,
    /// Whether points may be put in on segments and in facets.
    pub(crate) splits_boundary: bool,
    /// Whether tetrahedra in folds are bettered too, points are put in close beside a tetrahedron
    /// too, and each change may leave `SPARE` slim tetrahedra more.
    pub(crate) is_mending: bool,
    /// Whether slim tetrahedra with no angle below the aim are bettered too.
    pub(crate) sheds_slim: bool,
    /// Whether a change is to leave fewer slim tetrahedra, and no angle below the aim or the least
    /// one there, in place of larger angles.
    pub(crate) is_for_ratio: bool,
    /// Whether more places are tried where few tetrahedra are to be bettered.
    pub(crate) tries_many: bool,
    /// How many places are tried for a point at most.
    pub(crate) most_tries: u32,
    /// How many tetrahedra may still be tried in vain.
    pub(crate) vain: usize,
    pub(crate) star: Star,
    pub(crate) fill: Fill,
    pub(crate) cavity: Cavity,
    pub(crate) site: Site,
    pub(crate) seeds: Vec<u32>,
}

impl Mover {
    /// Nothing moved yet.
    pub(crate) fn new(alloc: Global, live: Live, aim: &Aim) -> Self {
        let vain = live.cells.len() / 4;
        Mover {
            alloc,
            live,
            dice: Dice::new(),
            halvings: aim.halvings,
            aim: aimed_sine(aim.cosine),
            splits_boundary: aim.splits_boundary,
            is_mending: aim.is_mending,
            sheds_slim: aim.sheds_slim,
            is_for_ratio: false,
            tries_many: aim.tries_many,
            most_tries: TRIES,
            vain: vain.saturating_add(FEW),
            star: Star::new(alloc),
            fill: Fill::new(alloc),
            cavity: Cavity::new(alloc),
            site: Site::new(alloc),
            seeds: Vec::new(alloc),
        }
    }

    /// How many places are tried for a point. More do not help where the ratio is bettered alone.
    pub(crate) fn tries(&self) -> u32 {
        if self.is_for_ratio {
            TRIES
        } else {
            self.most_tries
        }
    }

    /// How many tetrahedra more may break the bounds after a change than before.
    pub(crate) fn spare(&self) -> Tally {
        let slim = match (self.is_for_ratio, self.is_mending) {
            (true, _) => -1,
            (false, true) => SPARE,
            (false, false) => 0,
        };
        Tally { slim, large: 0 }
    }

    /// The square of a sine that is to be passed so that it counts as better.
    fn passing(&self, old: u64) -> u64 {
        if self.is_for_ratio {
            return old.min(self.aim).saturating_sub(1);
        }
        let more = old.saturating_add(old / 24).saturating_add(RIGHT / 100_000);
        if old < self.aim {
            more.min(self.aim)
        } else {
            more
        }
    }

    /// Seeds the tetrahedra beside a face in a facet, where it has a place.
    fn seed_at(&mut self, t: u32, cell: &Cell, k: usize, p: Spot) -> Result<bool, NoMemory> {
        if k >= 4 {
            return Ok(false);
        }
        let face = face_at(&cell.corners, k);
        if self.live.volume_to(&face, p) != Some(0) {
            return Ok(false);
        }
        self.seeds.push(t)?;
        if let Some(n) = cell.across[k].cell {
            self.seeds.push(n)?;
        }
        Ok(true)
    }

    /// Seeds the tetrahedra that have a place in a facet, from one of them.
    fn seed_in_facet(&mut self, t: u32, facet: u32, p: Spot) -> Result<bool, NoMemory> {
        let Some(cell) = self.live.cell(t).copied() else {
            return Ok(false);
        };
        for k in 0..4 {
            if cell.across[k].facet == Some(facet) && self.seed_at(t, &cell, k, p)? {
                return Ok(true);
            }
        }
        Ok(false)
    }

    /// Seeds the tetrahedra of the fill at an edge.
    fn seed_at_edge(&mut self, edge: Side) -> Result<bool, NoMemory> {
        for t in self.fill.cells.as_slice() {
            if let Some(cell) = self.live.cell(*t) {
                if cell.corners.contains(&edge.a) && cell.corners.contains(&edge.b) {
                    self.seeds.push(*t)?;
                }
            }
        }
        Ok(!self.seeds.is_empty())
    }

    /// Seeds the tetrahedra that have a place, from one nearby.
    pub(crate) fn seed(&mut self, freedom: Freedom, near: u32, p: Spot) -> Result<bool, NoMemory> {
        self.seeds.clear();
        if let Some(edge) = self.site.edge {
            return self.seed_at_edge(edge);
        }
        let Some(t) = walk(&self.live, near, p) else {
            return Ok(false);
        };
        if let Freedom::InFacet(facet) = freedom {
            return self.seed_in_facet(t, facet, p);
        }
        self.seeds.push(t)?;
        Ok(true)
    }

    /// Opens the cavity of a place from the seeds, and reports whether the place can be joined with
    /// its boundary.
    pub(crate) fn open(&mut self, p: Spot) -> Result<bool, NoMemory> {
        let seeds = self.seeds.as_slice();
        self.cavity.open(&mut self.live, p, &self.site, seeds)
    }

    /// The least square of a sine with a point at a place, where it passes `least` and no more
    /// tetrahedra break the bounds than `allowed` beside those of the cavity.
    pub(crate) fn judge(
        &mut self,
        p: Spot,
        least: u64,
        allowed: Tally,
    ) -> Result<Option<u64>, NoMemory> {
        if !self.cavity.grow(&mut self.live, p, self.seeds.as_slice())? {
            return Ok(None);
        }
        let kept = sine_unmarked(&self.live, self.fill.cells.as_slice());
        if kept <= least || !self.cavity.close(&self.live, p, &self.site, least)? {
            return Ok(None);
        }
        let Some(sine) = self.cavity.sine(&self.live, p, least) else {
            return Ok(None);
        };
        let allowed = allowed.plus(tally_of(&self.live, self.cavity.cells.as_slice()));
        match self.cavity.tally(&self.live, p, allowed) {
            Some(tally) if tally.is_within(allowed) => Ok(Some(sine.min(kept))),
            _ => Ok(None),
        }
    }

    /// A lattice point of an edge, the `k`-th of fifteen.
    pub(crate) fn place_on(&self, edge: Side, k: u32) -> Option<Spot> {
        let (a, b) = (self.live.spot(edge.a)?, self.live.spot(edge.b)?);
        let rung = Rung::new(a, b, self.halvings)?;
        let steps = rung.count / 16;
        if k >= 15 || steps == 0 {
            return None;
        }
        Some(rung.at(steps.wrapping_mul(u64::from(k).wrapping_add(1))))
    }

    /// The lattice point near to a wish.
    pub(crate) fn place_near(&self, freedom: Freedom, wish: Spot) -> Option<Spot> {
        let p = match freedom {
            Freedom::InFacet(facet) => self.live.plane(facet)?.nearest(wish, self.halvings),
            _ => wish.on_lattice(self.halvings),
        };
        grid_point(p)?;
        Some(p)
    }

    /// A place for a point, the `k`-th.
    fn place(&mut self, search: &Search, best: &Best, freedom: Freedom, k: u32) -> Option<Spot> {
        let p = match self.site.edge {
            Some(edge) => self.place_on(edge, k)?,
            None => {
                let wish = search.wish(&mut self.dice, best, k);
                self.place_near(freedom, wish)?
            }
        };
        if search.is_inside(p) { Some(p) } else { None }
    }

    /// A tetrahedron of the fill.
    fn near(&self) -> u32 {
        self.fill.cells.first().copied().unwrap_or(0)
    }

    /// Tries a place for a point, the `k`-th.
    fn attempt(
        &mut self,
        search: &Search,
        best: &mut Best,
        freedom: Freedom,
        k: u32,
        allowed: Tally,
    ) -> Result<(), NoMemory> {
        let Some(spot) = self.place(search, best, freedom, k) else {
            return Ok(());
        };
        let near = self.near();
        let seems_vain = self
            .cavity
            .seems_to_fail(&self.live, spot, &self.site, best.sine);
        if seems_vain || !self.seed(freedom, near, spot)? {
            return Ok(());
        }
        if let Some(sine) = self.judge(spot, best.sine, allowed)? {
            *best = Best {
                spot,
                sine,
                is_found: true,
            };
        }
        Ok(())
    }

    /// The best of the places that are tried, over `least`.
    fn best(
        &mut self,
        search: &Search,
        freedom: Freedom,
        least: u64,
        allowed: Tally,
    ) -> Result<Best, NoMemory> {
        let mut best = Best {
            spot: search.from,
            sine: least,
            is_found: false,
        };
        for k in 0..self.tries() {
            self.attempt(search, &mut best, freedom, k, allowed)?;
            if best.is_found && best.sine > self.aim && k >= TRIES / 2 {
                break;
            }
        }
        Ok(best)
    }

    /// Joins a point at a place with the boundary of the cavity there.
    pub(crate) fn settle(&mut self, v: u32, p: Spot) -> Result<bool, NoMemory> {
        let Some(from) = self.live.spot(v) else {
            return Ok(false);
        };
        if !self.open(p)? {
            return Ok(false);
        }
        self.live.put(v, p);
        if join_all(self.alloc, &mut self.live, &self.cavity, v)? {
            return Ok(true);
        }
        self.live.put(v, from);
        Ok(false)
    }

    /// What the places for a point are found by.
    fn search_of(&self, v: u32, cell: &Cell, is_across: bool) -> Option<Search> {
        let from = self.live.spot(v)?;
        let length = self.shortest_at(v, from)?;
        Some(Search {
            from,
            length,
            mean: self.mean_of(from),
            normal: self.normal_at(v, cell, length)?,
            across: if is_across { cell.sphere } else { None },
        })
    }

    /// The normal of the face opposite a corner, with a length; nothing for another point.
    fn normal_at(&self, v: u32, cell: &Cell, length: i64) -> Option<Spot> {
        for k in 0..4 {
            if cell.corners[k] == v {
                let [a, b, c] = self.live.triangle(&face_at(&cell.corners, k))?;
                return Some(with_length(b.from(a).cross(c.from(a)), length));
            }
        }
        Some(Spot { x: 0, y: 0, z: 0 })
    }

    /// The least squared distance from a place to corners of a tetrahedron other than `v`.
    fn least_to(&self, v: u32, from: Spot, t: u32) -> Option<u64> {
        let mut least = u64::MAX;
        for corner in self.live.cell(t)?.corners {
            if corner != v {
                least = least.min(distance(self.live.spot(corner)?, from));
            }
        }
        Some(least)
    }

    /// The length of the shortest edge at a point, from its star.
    fn shortest_at(&self, v: u32, from: Spot) -> Option<i64> {
        let mut least = u64::MAX;
        for t in self.star.cells.as_slice() {
            least = least.min(self.least_to(v, from, *t)?);
        }
        i64::try_from(least.isqrt()).ok()
    }

    /// The mean of the circumcenters of the star, weighted by volumes.
    fn mean_of(&self, from: Spot) -> Spot {
        let mut mean = Mean::new();
        for t in self.star.cells.as_slice() {
            if let Some(sphere) = self.live.sphere(*t) {
                mean.add(sphere.center.from(from), self.live.volume(*t) / 4096);
            }
        }
        from.plus(mean.value())
    }

    /// Puts a point at its best place, or takes it out where this is better, and reports whether
    /// the worst angle grew. The star is replaced by its fill.
    fn relocate(
        &mut self,
        v: u32,
        search: &Search,
        old: u64,
        allowed: Tally,
    ) -> Result<bool, NoMemory> {
        let freedom = self.live.freedom(v);
        let best = self.best(search, freedom, self.passing(old), allowed)?;
        let bare = sine_of(&self.live, self.fill.cells.as_slice());
        if search.across.is_none() && bare > best.sine && Tally::none().is_within(allowed) {
            self.live.remove(v);
            return Ok(true);
        }
        let near = self.near();
        if best.is_found && self.seed(freedom, near, best.spot)? {
            return self.settle(v, best.spot);
        }
        Ok(false)
    }

    /// Opens the star of a point, and reports whether the point may be moved.
    fn open_star(&mut self, v: u32) -> Result<bool, NoMemory> {
        let freedom = self.live.freedom(v);
        if matches!(freedom, Freedom::Nowhere) || !self.star.open(&mut self.live, v)? {
            return Ok(false);
        }
        self.site.set(&self.star, freedom)
    }

    /// The hash of a point and its star.
    fn star_code(&self, v: u32) -> u64 {
        let mut code = match self.live.spot(v) {
            Some(p) => code_of(p),
            None => 0,
        };
        for t in self.star.cells.as_slice() {
            if let Some(corners) = self.live.corners(*t) {
                code = code.wrapping_add(tet_code(&corners));
            }
        }
        code
    }

    /// Moves a point, or takes it out, and reports whether the worst angle of its star grew, and
    /// that of the tetrahedron where the point is across one of its faces. Where `Trials` says that
    /// the star is let alone nothing is tried.
    pub(crate) fn shift(
        &mut self,
        v: u32,
        cell: &Cell,
        is_across: bool,
        trials: &mut Trials,
    ) -> Result<bool, NoMemory> {
        if !self.open_star(v)? {
            return Ok(false);
        }
        let kind = (u64::from(self.is_for_ratio) << 1) | u64::from(is_across);
        let code = self.star_code(v) ^ kind;
        if trials.is_spent(code) {
            return Ok(false);
        }
        if self.shift_in_star(v, cell, is_across)? {
            return Ok(true);
        }
        trials.note(code)?;
        Ok(false)
    }

    /// Moves a point whose star is open, or takes it out, and reports whether the worst angle grew.
    fn shift_in_star(&mut self, v: u32, cell: &Cell, is_across: bool) -> Result<bool, NoMemory> {
        let Some(search) = self.search_of(v, cell, is_across) else {
            return Ok(false);
        };
        let worst = sine_of(&self.live, self.star.cells.as_slice());
        let old = if is_across {
            worst.min(cell.sine)
        } else {
            worst
        };
        let before = tally_of(&self.live, self.star.cells.as_slice());
        if !self.fill.open(self.alloc, &mut self.live, &self.star, v)? {
            return Ok(false);
        }
        let filled = tally_of(&self.live, self.fill.cells.as_slice());
        let allowed = before.plus(self.spare()).less(filled);
        if self.relocate(v, &search, old, allowed)? {
            self.live.discard(self.star.cells.as_slice())?;
            return Ok(true);
        }
        self.fill.undo(&mut self.live, &self.star)?;
        Ok(false)
    }
}

/// A weighted mean of vectors while it is made.
#[derive(Clone, Copy)]
struct Mean {
    x: i128,
    y: i128,
    z: i128,
    weight: i128,
}

/// The whole part of a quotient, 0 where it is too large.
fn part(x: i128, under: i128) -> i64 {
    i64::try_from(x.checked_div(under).unwrap_or(0)).unwrap_or(0)
}

impl Mean {
    /// No vectors.
    fn new() -> Mean {
        Mean {
            x: 0,
            y: 0,
            z: 0,
            weight: 0,
        }
    }

    /// Adds a vector.
    fn add(&mut self, v: Spot, weight: i128) {
        self.x = self.x.wrapping_add(weight.wrapping_mul(i128::from(v.x)));
        self.y = self.y.wrapping_add(weight.wrapping_mul(i128::from(v.y)));
        self.z = self.z.wrapping_add(weight.wrapping_mul(i128::from(v.z)));
        self.weight = self.weight.wrapping_add(weight);
    }

    /// The mean.
    fn value(&self) -> Spot {
        Spot {
            x: part(self.x, self.weight),
            y: part(self.y, self.weight),
            z: part(self.z, self.weight),
        }
    }
}

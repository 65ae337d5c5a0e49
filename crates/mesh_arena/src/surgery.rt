//! Surgery: the star of a new point takes the place of its cavity.
ghost use Rattle.std.specs.Prelude.{◌≡◌, ◌≢◌, ℕ, ◌+◌, ◌*◌, ◌<◌, ◌≤◌, ◌↔◌, length, Some, None};
ghost use Rattle.std.specs.Prelude.{IsSome};
ghost use Rattle.std.specs.Prelude.{IsOk, IfOk, IfSome, OnErr, MatchOption, IsTrue, if◌then◌else◌};
ghost use Rattle.mesh_arena.specs.Cells.{cell_corners, IsUnlinked};
ghost use Rattle.mesh_arena.specs.Mesh.{IsLive, link_behind, SameFace, IsArenaMesh, AllDiffer};
ghost use Rattle.mesh_arena.specs.Star.{behind_rim};
ghost use Rattle.mesh_arena.specs.Surgery.{FitsFace, AddsOver, CanAdd, AddsStar, StandsOver};
ghost use Rattle.mesh_arena.specs.Surgery.{AreOverRim};
ghost use Rattle.mesh_arena.specs.Replace.{IsCavity, IsRim, IsOffRim, Replaces};
ghost use Rattle.mesh_arena.specs.StarLinks.{IsStar, ArePaired, Mate, LinksFace, LinksStar};
ghost use Rattle.mesh_arena.specs.StarLinks.{IsOverEdge, AreOverEdges, open_faces};
ghost use Rattle.mesh_arena.specs.Edges.{edge_of, IsRowEnd};

use crate::arena::{Arena, SlotFace};
use crate::edge::{Edge, Ends};
use crate::edges::EdgeTable;
use crate::rows::ROWS;
use crate::slot::other_places;
use crate::star::StarSlot;
use crate::{Cavity, Corner, Rim, RimFace, Slot};
use tet_ports::NoMemory;

impl Arena {
    // Puts a new slot behind a face that has no neighbor and fits it.
    fn add_over(&mut self, outer: RimFace, slot: &StarSlot) -> u32
        requires live { IsLive self.old.slots outer.slot.index }
        requires faces { (outer.face < 4) × (slot.now.face < 4) }
        requires free { link_behind self.old.slots outer.slot.index outer.face ≡ None }
        requires bare { IsUnlinked slot.now.cell }
        requires differ { AllDiffer (cell_corners slot.now.cell) }
        requires fits { FitsFace self.old.slots outer.slot.index outer.face
            (cell_corners slot.now.cell) slot.now.face }
        requires room { 0 < self.old.room }
        ensures adds { AddsOver self.old.slots self.new.slots outer.slot.index outer.face result
            (cell_corners slot.now.cell) slot.now.face }
        ensures room { self.new.room + 1 ≡ self.old.room }
    {
        let made = self.take_slot(&slot.cell);
        self.link(outer.slot, outer.face, Slot { index: made }, slot.face);
        made
    }

    // Puts a slot over each face of the rim, and notes its place.
    fn add_star(&mut self, rim: &[RimFace], star: &mut Vec<StarSlot>)
        requires rim { CanAdd self.old.slots rim.now star.old.items }
        requires star { length star.old.items ≡ length rim.now }
        requires room { length rim.now ≤ self.old.room }
        ensures mesh { IsArenaMesh self.new.slots }
        ensures adds_star { AddsStar self.old.slots self.new.slots rim.now star.old.items
            (length rim.now) }
        ensures over { AreOverRim self.new.slots rim.now star.new.items }
        ensures len { length star.new.items ≡ length rim.now }
    {
        for r in 0..rim.len() {
            let made = self.add_over(rim[r], &star[r]);
            star[r].slot = made;
        }
        let _ = &self.cells;
    }

    // The slot and face behind a face, if there are any.
    pub(crate) fn side(&self, s: u32, face: u8) -> Option<SlotFace>
        requires live { IsLive self.now.slots s }
        requires face { face < 4 }
        ensures { result ≡ link_behind self.now.slots s face }
    {
        self.cells[s as usize].side(face)
    }

    // A face of t that has no neighbor, and the same corners as the face of s.
    fn mate_face(&self, s: u32, i: u8, t: u32) -> Option<u8>
        requires first { IsLive self.now.slots s }
        requires second { IsLive self.now.slots t }
        ensures { MatchOption result
            ((j : ℕ) → j < 4 → link_behind self.now.slots t j ≡ None → SameFace self.now.slots s i t j → ⊥)
            (λ j. (j < 4) × (link_behind self.now.slots t j ≡ None) × SameFace self.now.slots s i t j) }
    {
        for j in 0..4u8 {
            if self.side(t, j).is_none()
                && self.same_face(Slot { index: s }, i, Slot { index: t }, j)
            {
                return Some(j);
            }
        }
        None
    }

    // The slot and face behind a face.
    pub(crate) fn over(&self, face: RimFace) -> SlotFace
        requires { IsSome (link_behind self.now.slots face.slot.index face.face) }
        ensures value { link_behind self.now.slots face.slot.index face.face ≡ Some result }
        ensures live { IsLive self.now.slots result.slot × (result.face < 4) }
    {
        let Some(side) = self.cells[face.slot.index as usize].side(face.face) else {
            unreachable!();
        };
        side
    }

    // The face of the star that has the same corners as the face k of the slot over r.
    fn find_mate(&self, rim: &[RimFace], point: u32, r: usize, k: u8) -> SlotFace
        requires star { IsStar self.now.slots rim.now (Corner.Point point) }
        requires pairs { ArePaired self.now.slots rim.now }
        requires inside { r < length rim.now }
        requires face { k < 4 }
        requires free { link_behind self.now.slots (behind_rim self.now.slots rim.now r).slot k
            ≡ None }
        ensures { Mate self.now.slots rim.now r k result }
    {
        let _ = &self.cells;
        let one = self.over(rim[r]);
        for q in 0..rim.len() {
            if q == r {
                continue;
            }
            let two = self.over(rim[q]);
            if let Some(face) = self.mate_face(one.slot, k, two.slot) {
                return SlotFace {
                    slot: two.slot,
                    face,
                };
            }
        }
        unreachable!()
    }

    // Links one face of the slot over r.
    fn link_star_face(&mut self, rim: &[RimFace], point: u32, r: usize, k: u8)
        requires star { IsStar self.old.slots rim.now (Corner.Point point) }
        requires pairs { ArePaired self.old.slots rim.now }
        requires inside { r < length rim.now }
        requires face { k < 4 }
        ensures { LinksFace self.old.slots self.new.slots rim.now (Corner.Point point) r k }
    {
        let _ = &self.cells;
        let one = self.over(rim[r]);
        if self.side(one.slot, k).is_none() {
            let two = self.find_mate(rim, point, r, k);
            self.link(
                Slot { index: one.slot },
                k,
                Slot { index: two.slot },
                two.face,
            );
        }
    }

    // Links two faces of the star over the same edge, and answers whether they had no neighbor yet.
    fn link_mates(
        &mut self,
        rim: &[RimFace],
        point: u32,
        edge: Edge,
        one: SlotFace,
        two: SlotFace,
    ) -> bool
        requires star { IsStar self.old.slots rim.now (Corner.Point point) }
        requires first { IsOverEdge self.old.slots rim.now (Corner.Point point) edge one }
        requires second { IsOverEdge self.old.slots rim.now (Corner.Point point) edge two }
        ensures links { LinksStar self.old.slots self.new.slots rim.now (Corner.Point point) 0 }
        ensures left { open_faces self.new.slots rim.now + (if result then 2 else 0)
            ≡ open_faces self.old.slots rim.now }
    {
        let _ = &self.cells;
        let s = Slot { index: one.slot };
        let t = Slot { index: two.slot };
        if one.slot != two.slot
            && self.side(one.slot, one.face).is_none()
            && self.side(two.slot, two.face).is_none()
        {
            self.link(s, one.face, t, two.face);
            return true;
        }
        false
    }

    // Links a face of the star with the one that was met at the same edge, which has a place in the
    // square, and answers whether it linked them.
    #[inline(always)]
    fn link_at_edge(
        &mut self,
        rim: &[RimFace],
        point: u32,
        ends: Ends,
        face: SlotFace,
        table: &mut EdgeTable,
    ) -> bool
        requires star { IsStar self.old.slots rim.now (Corner.Point point) }
        requires one { IsRowEnd table.old.square.rows ends.one }
        requires other { IsRowEnd table.old.square.rows ends.other }
        requires rows { (ends.one.row < 64) × (ends.other.row < 64) }
        requires places { 4096 ≤ length table.old.square.faces }
        requires over { IsOverEdge self.old.slots rim.now (Corner.Point point)
            (edge_of ends.one.number ends.other.number) face }
        requires met { AreOverEdges self.old.slots rim.now (Corner.Point point) table.old }
        ensures links { LinksStar self.old.slots self.new.slots rim.now (Corner.Point point) 0 }
        ensures met { AreOverEdges self.new.slots rim.now (Corner.Point point) table.new }
        ensures same_rows { table.new.square.rows ≡ table.old.square.rows }
        ensures same_places { length table.new.square.faces ≡ length table.old.square.faces }
        ensures left { open_faces self.new.slots rim.now + (if result then 2 else 0)
            ≡ open_faces self.old.slots rim.now }
    {
        match table.meet(ends, face) {
            Some(other) => self.link_mates(rim, point, ends.edge(), face, other),
            None => false,
        }
    }

    // Links a face of the star with the one that was met at the same edge, found by a hash, and
    // answers whether it linked them.
    #[inline(never)]
    fn link_by_hash(
        &mut self,
        rim: &[RimFace],
        point: u32,
        edge: Edge,
        face: SlotFace,
        table: &mut EdgeTable,
    ) -> bool
        requires star { IsStar self.old.slots rim.now (Corner.Point point) }
        requires over { IsOverEdge self.old.slots rim.now (Corner.Point point) edge face }
        requires met { AreOverEdges self.old.slots rim.now (Corner.Point point) table.old }
        ensures links { LinksStar self.old.slots self.new.slots rim.now (Corner.Point point) 0 }
        ensures met { AreOverEdges self.new.slots rim.now (Corner.Point point) table.new }
        ensures left { open_faces self.new.slots rim.now + (if result then 2 else 0)
            ≡ open_faces self.old.slots rim.now }
    {
        match table.meet_hashed(edge, face) {
            Some(other) => self.link_mates(rim, point, edge, face, other),
            None => false,
        }
    }

    // Links the faces of a slot of the star whose partners were met at the same edges of the rim,
    // and answers the number of links.
    fn link_slot(
        &mut self,
        rim: &[RimFace],
        point: u32,
        r: usize,
        one: &StarSlot,
        table: &mut EdgeTable,
    ) -> usize
        requires star { IsStar self.old.slots rim.now (Corner.Point point) }
        requires inside { r < length rim.now }
        requires over { StandsOver self.old.slots rim.now r one.now }
        requires met { AreOverEdges self.old.slots rim.now (Corner.Point point) table.old }
        ensures links { LinksStar self.old.slots self.new.slots rim.now (Corner.Point point) 0 }
        ensures met { AreOverEdges self.new.slots rim.now (Corner.Point point) table.new }
        ensures left { open_faces self.new.slots rim.now + 2 * result
            ≡ open_faces self.old.slots rim.now }
    {
        let _ = &self.cells;
        if !table.has_rows() {
            return self.link_slot_by_hash(rim, point, r, one, table);
        }
        let (i, j, k) = other_places(one.face);
        let x = table.end(one.cell.number(i));
        let y = table.end(one.cell.number(j));
        let z = table.end(one.cell.number(k));
        if x.row >= ROWS || y.row >= ROWS || z.row >= ROWS {
            return self.link_slot_by_hash(rim, point, r, one, table);
        }
        let slot = one.slot;
        let yz = Ends { one: y, other: z };
        let over_yz = self.link_at_edge(rim, point, yz, SlotFace { slot, face: i }, table);
        let zx = Ends { one: z, other: x };
        let over_zx = self.link_at_edge(rim, point, zx, SlotFace { slot, face: j }, table);
        let xy = Ends { one: x, other: y };
        let over_xy = self.link_at_edge(rim, point, xy, SlotFace { slot, face: k }, table);
        usize::from(over_yz) + usize::from(over_zx) + usize::from(over_xy)
    }

    // As `link_slot`, by hashes, where corners have no rows.
    fn link_slot_by_hash(
        &mut self,
        rim: &[RimFace],
        point: u32,
        r: usize,
        one: &StarSlot,
        table: &mut EdgeTable,
    ) -> usize
        requires star { IsStar self.old.slots rim.now (Corner.Point point) }
        requires inside { r < length rim.now }
        requires over { StandsOver self.old.slots rim.now r one.now }
        requires met { AreOverEdges self.old.slots rim.now (Corner.Point point) table.old }
        ensures links { LinksStar self.old.slots self.new.slots rim.now (Corner.Point point) 0 }
        ensures met { AreOverEdges self.new.slots rim.now (Corner.Point point) table.new }
        ensures left { open_faces self.new.slots rim.now + 2 * result
            ≡ open_faces self.old.slots rim.now }
    {
        let _ = &self.cells;
        let (i, j, k) = other_places(one.face);
        let x = one.cell.number(i);
        let y = one.cell.number(j);
        let z = one.cell.number(k);
        let slot = one.slot;
        let yz = Edge::between(y, z);
        let over_yz = self.link_by_hash(rim, point, yz, SlotFace { slot, face: i }, table);
        let xz = Edge::between(x, z);
        let over_xz = self.link_by_hash(rim, point, xz, SlotFace { slot, face: j }, table);
        let xy = Edge::between(x, y);
        let over_xy = self.link_by_hash(rim, point, xy, SlotFace { slot, face: k }, table);
        usize::from(over_yz) + usize::from(over_xz) + usize::from(over_xy)
    }

    // Links the faces of the star that meet at edges of the rim, in time linear in the rim, and
    // answers at most the number of links.
    #[inline(never)]
    fn link_edges(
        &mut self,
        rim: &[RimFace],
        point: u32,
        star: &[StarSlot],
        table: &mut EdgeTable,
    ) -> usize
        requires star { IsStar self.old.slots rim.now (Corner.Point point) }
        requires over { AreOverRim self.old.slots rim.now star.now }
        requires len { length star.now ≡ length rim.now }
        ensures links { LinksStar self.old.slots self.new.slots rim.now (Corner.Point point) 0 }
        ensures left { open_faces self.new.slots rim.now + 2 * result
            ≤ open_faces self.old.slots rim.now }
    {
        table.start(rim.len(), self.cells.len());
        let mut links: usize = 0;
        for r in 0..rim.len() {
            let more = self.link_slot(rim, point, r, &star[r], table);
            links = links.saturating_add(more);
        }
        links
    }

    // Whether each face has a neighbor.
    fn is_linked(&self, s: u32) -> bool
        requires { IsLive self.now.slots s }
        ensures { IsTrue result → (k : ℕ) → k < 4 → IsSome (link_behind self.now.slots s k) }
    {
        self.cells[s as usize].is_linked()
    }

    // Links the faces of the star that have no neighbor yet.
    fn link_rest(&mut self, rim: &[RimFace], point: u32, star: &[StarSlot])
        requires star { IsStar self.old.slots rim.now (Corner.Point point) }
        requires pairs { ArePaired self.old.slots rim.now }
        requires over { AreOverRim self.old.slots rim.now star.now }
        requires len { length star.now ≡ length rim.now }
        ensures links_star { LinksStar self.old.slots self.new.slots rim.now (Corner.Point point)
            (length rim.now) }
    {
        for r in 0..rim.len() {
            if self.is_linked(star[r].slot) {
                continue;
            }
            for k in 0..4u8 {
                self.link_star_face(rim, point, r, k);
            }
        }
    }

    // Links the slots of the star with one another.
    fn link_star(&mut self, rim: &[RimFace], point: u32, star: &[StarSlot])
        requires star { IsStar self.old.slots rim.now (Corner.Point point) }
        requires pairs { ArePaired self.old.slots rim.now }
        requires over { AreOverRim self.old.slots rim.now star.now }
        requires len { length star.now ≡ length rim.now }
        ensures links_star { LinksStar self.old.slots self.new.slots rim.now (Corner.Point point)
            (length rim.now) }
    {
        let _ = &self.cells;
        let mut table = self.lend_edges();
        let links = self.link_edges(rim, point, star, &mut table);
        self.keep_edges(table);
        if !are_all(links, rim.len()) {
            self.link_rest(rim, point, star);
        }
    }

    /// Puts the star of a point in the place of a cavity (Bowyer 1981, Watson 1981): for each face
    /// of the rim a slot with the corners of the cavity's slot behind that face, in their places,
    /// and the point in place of the corner opposite it. The star is linked within and to the outer
    /// sides of the rim. The answer is one slot of the star.
    ///
    /// The cavity lists different live slots. The rim is not empty and lists, each once, the faces
    /// of live slots outside of the cavity whose neighbor is in it. Each two corners of a face of
    /// the rim are corners of exactly one other. No face of the rim has the point as a corner.
    ///
    /// `NoMemory` comes before the first change, and never where the rim has at most `spare` faces.
    pub fn replace_cavity(
        &mut self,
        cavity: &Cavity,
        rim: &Rim,
        point: u32,
    ) -> Result<Slot, NoMemory>
        requires cavity { IsCavity self.old.slots cavity.now }
        requires rim { IsRim self.old.slots cavity.now rim.now }
        requires pairs { ArePaired self.old.slots rim.now }
        requires point { IsOffRim self.old.slots rim.now (Corner.Point point) }
        ensures ok { IfOk result
            (λ s. Replaces self.old.slots self.new.slots cavity.now rim.now (Corner.Point point)
            s.index) }
        ensures mesh { IsArenaMesh self.new.slots }
        ensures err { OnErr result (self.new ≡ self.old) }
        ensures succeeds { length rim.now ≤ self.old.spare → IsOk result }
    {
        let faces = rim.as_slice();
        self.reserve(faces.len())?;
        let mut star = self.lend_star();
        self.plan_star(faces, point, &mut star);
        self.cut_cavity(cavity.as_slice(), faces);
        self.add_star(faces, &mut star);
        self.link_star(faces, point, star.as_slice());
        self.keep_star(star);
        let one = self.over(faces[0]);
        Ok(Slot { index: one.slot })
    }
}

// Whether `links` links are all those of a star over `faces` faces: three halves of a link for each
// face.
fn are_all(links: usize, faces: usize) -> bool
    ensures { IsTrue result → faces * 3 ≤ links * 2 }
{
    links >= faces && links - faces >= faces - faces / 2
}

//! The arena: its slots, and the changes of one slot or one pair of faces.
ghost use Rattle.std.specs.Prelude.{◌≡◌, ◌≢◌, ℕ, ◌+◌, ◌<◌, ◌≤◌, ◌↔◌, IsTrue, [], length, Some};
ghost use Rattle.std.specs.Prelude.{None, IsSome, IfSome, IsOk, IfOk, OnOk, OnErr, MatchOption};
ghost use Rattle.std.specs.Prelude.{option_map, vec_capacity, List};
ghost use Rattle.mesh_arena.specs.Mesh.{tet_at, corners_at, IsLive, at, link_behind, corner_list};
ghost use Rattle.mesh_arena.specs.Mesh.{numbered_corners};
ghost use Rattle.mesh_arena.specs.Mesh.{AllDiffer, SameFace, IsArenaMesh, Links, Takes};
ghost use Rattle.mesh_arena.specs.Cells.{cell_corners, IsUnlinked};
ghost use Rattle.mesh_arena.specs.Replace.{IsCavity, IsRim};
ghost use Rattle.mesh_arena.specs.Cut.{Cuts};

use crate::cell::Cell;
use crate::cut::{clear_rim, free_cells};
use crate::edges::EdgeTable;
use crate::slot::covers;
use crate::star::StarSlot;
use crate::{Corner, RimFace, Slot, SlotCorners};
use std::alloc::Global;
use std::marker::Model;
use std::mem;
use tet_ports::{Items, NoMemory};

/// A face of a slot: the places of the slot in its arena and of the opposite corner in the slot,
/// from 0. In contracts it names the neighbor across a face.
#[derive(Clone, Copy, Debug, PartialEq, Eq)]
pub struct SlotFace {
    pub slot: u32,
    pub face: u8,
}

/// Slots, live or free, numbered from 0. A live one has four different corners, and behind each
/// face a neighbor or none; neighbors are mutual and have the face's three corners in common.
/// Contracts see the list of slots; `spare`, the greatest number of faces of a rim whose star needs
/// no allocation; and `room`, the number of further slots that have memory.
#[derive(Debug, Drop)]
pub struct Arena {
    pub(crate) cells: Vec<Cell>,
    // The number of live cells.
    live: usize,
    // The first free cell, or `cells.len()` where there is none.
    next: u32,
    // A rim of at most `spare` faces has memory for its star.
    spare: usize,
    // The slots of the star that is being made.
    star: Vec<StarSlot>,
    // Pairs the faces of a star that are to be linked.
    edges: EdgeTable,
    alloc: Global,
}

// With at most this many cells, a place and the number past the end fit 28 bits.
const MOST_CELLS: usize = (1 << 28) - 1;

impl Model for Arena {
    ghost use Rattle.std.specs.Prelude.{◌-◌, min, map, vec_capacity};
    ghost use Rattle.mesh_arena.specs.Mesh.{Mesh};

    ghost Value = { Mesh };

    ghost use Rattle.mesh_arena.specs.Cells.{tet_of, most_cells, IsReady};

    ghost view = { λ a. record {
      slots = map tet_of a.cells.items;
      spare = a.spare;
      room = min (vec_capacity a.cells) most_cells - a.live;
    } };

    ghost invariant = { λ a.
        IsReady a.cells.items a.live a.next a.spare (vec_capacity a.cells) (vec_capacity a.star) };
}

impl Arena {
    /// An arena with no slot.
    pub fn new(alloc: Global) -> Self
        ensures { result.slots ≡ [] }
    {
        Arena {
            cells: Vec::new(alloc),
            live: 0,
            next: 0,
            spare: 0,
            star: Vec::new(alloc),
            edges: EdgeTable::new(alloc),
            alloc,
        }
    }

    /// Frees the slots, as a list of items is freed.
    pub fn let_go(self) {
        let Arena { cells, .. } = self;
        Items::from(cells).let_go();
    }

    /// The number of slots, live and free.
    pub fn slots(&self) -> usize
        ensures { result ≡ length self.now.slots }
    {
        self.cells.len()
    }

    /// The slot at a place, or None where it is free.
    pub fn slot(&self, i: usize) -> Option<Slot>
        requires { i < length self.now.slots }
        ensures { MatchOption result (tet_at self.now.slots i ≡ None)
            (λ s. (s.index ≡ i) × IsLive self.now.slots i) }
    {
        if self.cells[i].is_live() {
            Some(Slot { index: i as u32 })
        } else {
            None
        }
    }

    /// The corners of a live slot, in their places.
    pub fn tet(&self, s: Slot) -> SlotCorners
        requires { IsLive self.now.slots s.index }
        ensures corners { corners_at self.now.slots s.index ≡ Some (corner_list result) }
        ensures mesh { IsArenaMesh self.now.slots }
    {
        let [a, b, c, d] = self.cells[s.index as usize].corners();
        SlotCorners { a, b, c, d }
    }

    /// The numbers of a live slot's corners, in their places. None where one is the point at
    /// infinity.
    #[inline]
    pub fn tetrahedron(&self, s: Slot) -> Option<[u32; 4]>
        requires { IsLive self.now.slots s.index }
        ensures { MatchOption result
            ((ns : List ℕ) → corners_at self.now.slots s.index ≢ Some (numbered_corners ns))
            (λ ns. corners_at self.now.slots s.index ≡ Some (numbered_corners ns)) }
    {
        self.cells[s.index as usize].numbers()
    }

    /// The neighbor of a live slot behind the face opposite its corner in the place `face`, from 0.
    /// None exactly where none is linked.
    pub fn neighbor(&self, s: Slot, face: u8) -> Option<Slot>
        requires live { IsLive self.now.slots s.index }
        requires face { face < 4 }
        ensures value { option_map (λ n. n.index) result
            ≡ option_map (λ b. b.slot) (link_behind self.now.slots s.index face) }
        ensures live { IfSome result (λ n. IsLive self.now.slots n.index) }
    {
        match self.cells[s.index as usize].side(face) {
            Some(side) => Some(Slot { index: side.slot }),
            None => None,
        }
    }

    /// The neighbor of a live slot behind the face opposite its corner in the place `face`, with
    /// the place of the shared face in that neighbor.
    pub fn across(&self, s: Slot, face: u8) -> Option<RimFace>
        requires live { IsLive self.now.slots s.index }
        requires face { face < 4 }
        ensures value { option_map (λ f. at f.slot.index f.face) result
            ≡ link_behind self.now.slots s.index face }
        ensures live { IfSome result (λ f. IsLive self.now.slots f.slot.index × (f.face < 4)) }
    {
        match self.cells[s.index as usize].side(face) {
            Some(side) => Some(RimFace {
                slot: Slot { index: side.slot },
                face: side.face,
            }),
            None => None,
        }
    }

    /// Whether two faces of live slots, opposite their corners in the places `i` and `j` from 0,
    /// have the same corners.
    pub fn same_face(&self, s: Slot, i: u8, t: Slot, j: u8) -> bool
        requires first { IsLive self.now.slots s.index }
        requires second { IsLive self.now.slots t.index }
        ensures { IsTrue result ↔ SameFace self.now.slots s.index i t.index j }
    {
        let one = self.cells[s.index as usize].corners();
        let two = self.cells[t.index as usize].corners();
        covers(&one, i, &two, j) && covers(&two, j, &one, i)
    }

    /// Makes two slots neighbors at these faces, which have the same three corners and no neighbor
    /// yet. No other neighbor changes.
    pub fn link(&mut self, s: Slot, i: u8, t: Slot, j: u8)
        requires first { IsLive self.old.slots s.index }
        requires second { IsLive self.old.slots t.index }
        requires faces { (i < 4) × (j < 4) }
        requires differ { s.index ≢ t.index }
        requires same { SameFace self.old.slots s.index i t.index j }
        requires first_free { link_behind self.old.slots s.index i ≡ None }
        requires second_free { link_behind self.old.slots t.index j ≡ None }
        ensures links { Links self.old.slots self.new.slots s.index i t.index j }
        ensures spare { self.new.spare ≡ self.old.spare }
        ensures room { self.new.room ≡ self.old.room }
    {
        let one = &mut self.cells[s.index as usize];
        one.put_side(
            i,
            SlotFace {
                slot: t.index,
                face: j,
            },
        );
        let two = &mut self.cells[t.index as usize];
        two.put_side(
            j,
            SlotFace {
                slot: s.index,
                face: i,
            },
        );
    }

    /// Makes room for the star over a rim of `faces` faces: `spare` is then at least `faces`.
    /// Everything else stays, and on `NoMemory` `spare` too.
    pub fn reserve(&mut self, faces: usize) -> Result<(), NoMemory>
        ensures room { OnOk result (faces ≤ self.new.spare) }
        ensures within { self.new.spare ≤ self.new.room }
        ensures succeeds { faces ≤ self.old.spare → IsOk result }
        ensures slots { self.new.slots ≡ self.old.slots }
        ensures mesh { IsArenaMesh self.new.slots }
        ensures err { OnErr result (self.new ≡ self.old) }
    {
        if faces <= self.spare {
            return Ok(());
        }
        if faces > MOST_CELLS - self.live {
            return Err(NoMemory);
        }
        self.star.clear();
        if self.star.reserve(faces).is_err() {
            return Err(NoMemory);
        }
        let free = self.cells.len() - self.live;
        if free < faces && self.cells.reserve(faces - free).is_err() {
            return Err(NoMemory);
        }
        self.spare = faces;
        Ok(())
    }

    /// A new slot with these four different corners and no neighbor, at a free place where there is
    /// one, and else past the end. On `NoMemory` the arena is as before; it also comes at 2^28 - 1
    /// live slots, and never where a rim of one face is spare.
    pub fn alloc_slot(&mut self, corners: SlotCorners) -> Result<Slot, NoMemory>
        requires { AllDiffer (corner_list corners) }
        ensures ok { IfOk result
            (λ s. Takes self.old.slots self.new.slots s.index (corner_list corners)) }
        ensures err { OnErr result (self.new ≡ self.old) }
        ensures succeeds { 0 < self.old.spare → IsOk result }
    {
        self.reserve(1)?;
        let index = self.take_slot(&Cell::new(corners));
        Ok(Slot { index })
    }

    // As `alloc_slot`, where there is room.
    pub(crate) fn take_slot(&mut self, cell: &Cell) -> u32
        requires bare { IsUnlinked cell.now }
        requires differ { AllDiffer (cell_corners cell.now) }
        requires room { 0 < self.old.room }
        ensures takes { Takes self.old.slots self.new.slots result (cell_corners cell.now) }
        ensures room { self.new.room + 1 ≡ self.old.room }
    {
        let place = self.next;
        self.spare = self.spare.saturating_sub(1);
        self.live += 1;
        if place as usize == self.cells.len() {
            self.cells.push_reserved(*cell);
            self.next = place + 1;
        } else {
            self.next = self.cells[place as usize].next_free();
            self.cells[place as usize] = *cell;
        }
        place
    }

    // Frees the slots of a cavity, and unlinks them from the faces of its rim.
    pub(crate) fn cut_cavity(&mut self, cavity: &[Slot], rim: &[RimFace])
        requires cavity { IsCavity self.old.slots cavity.now }
        requires rim { IsRim self.old.slots cavity.now rim.now }
        ensures cuts { Cuts self.old.slots self.new.slots cavity.now rim.now }
        ensures room { self.old.room ≤ self.new.room }
    {
        clear_rim(&mut self.cells, rim);
        self.next = free_cells(&mut self.cells, cavity, self.next);
        self.live = self.live.saturating_sub(cavity.len());
    }

    // Lends the list for the slots of a star, with the memory that it was promised.
    pub(crate) fn lend_star(&mut self) -> Vec<StarSlot>
        ensures capacity { self.old.spare ≤ vec_capacity result }
        ensures room { self.old.spare ≤ self.old.room }
        ensures same_room { self.new.room ≡ self.old.room }
        ensures slots { self.new.slots ≡ self.old.slots }
    {
        self.spare = 0;
        mem::replace(&mut self.star, Vec::new(self.alloc))
    }

    // Takes the list of `lend_star` back.
    pub(crate) fn keep_star(&mut self, star: Vec<StarSlot>)
        ensures slots { self.new.slots ≡ self.old.slots }
        ensures mesh { IsArenaMesh self.new.slots }
    {
        let room = self.cells.capacity().min(MOST_CELLS) - self.live;
        self.spare = room.min(star.capacity());
        self.star = star;
    }

    // Lends the table of edges.
    pub(crate) fn lend_edges(&mut self) -> EdgeTable
        ensures { self.new ≡ self.old }
    {
        mem::replace(&mut self.edges, EdgeTable::new(self.alloc))
    }

    // Takes the table of `lend_edges` back.
    pub(crate) fn keep_edges(&mut self, edges: EdgeTable)
        ensures { self.new ≡ self.old }
    {
        self.edges = edges;
    }
}

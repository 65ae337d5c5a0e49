//! How a slot lies in memory: 32 bytes, so that two lie in each line of the near cache.
ghost use Rattle.std.specs.Prelude.{◌≡◌, ℕ, ◌<◌, ◌^◌, IsTrue, true, false, Some, None};
ghost use Rattle.std.specs.Prelude.{IsSome, slice_index_or, slice_set, if◌then◌else◌};
ghost use Rattle.mesh_arena.specs.declared.slot.Corner.TheVariants.{Ghost as Infinite};
ghost use Rattle.std.specs.Prelude.{MatchOption, List, ◌≢◌};
ghost use Rattle.mesh_arena.specs.Mesh.{corner_list, at, tet_with, numbered_corners};
ghost use Rattle.mesh_arena.specs.Cells.{kept_number, corners_in, corner_with, sides_in, side_to};
ghost use Rattle.mesh_arena.specs.Cells.{is_infinite, slot_in, link_face, live_in, tet_in, next_of};
ghost use Rattle.mesh_arena.specs.Cells.{cell_corners, IsUnlinked};
ghost use Rattle.mesh_arena.specs.Edges.{corner_key};

use crate::arena::SlotFace;
use crate::{Corner, SlotCorners};

#[derive(Clone, Copy, Debug)]
pub(crate) struct Cell {
    // The numbers of the corners. In the place of the point at infinity the number is idle.
    points: [u32; 4],
    // The neighbors across the faces.
    links: [u32; 4],
}

// No face, and the face of a free cell. All faces are less.
const NO_FACE: u32 = 4;

const FREE: u32 = 5;

// A link is the number of the slot times SLOT, plus the face, plus INFINITE where its corner is the
// point at infinity.
const SLOT: u32 = 16;

const INFINITE: u32 = 8;

// The link of a face without neighbor, opposite `corner`.
fn bare(corner: Corner) -> u32
    ensures corner { corner_with (kept_number corner) result ≡ corner }
    ensures side { side_to result ≡ None }
    ensures face { link_face result ≡ 4 }
{
    match corner {
        Corner::Point(_) => NO_FACE,
        Corner::Ghost => INFINITE + NO_FACE,
    }
}

// The first number or the second.
#[inline(always)]
fn either(first: bool, one: u32, two: u32) -> u32
    ensures { result ≡ (if first then one else two) }
{
    if first { one } else { two }
}

// The link without its neighbor.
fn unlinked(link: u32) -> u32
    ensures infinite { is_infinite result ≡ is_infinite link }
    ensures side { side_to result ≡ None }
    ensures face { link_face result ≡ 4 }
{
    link / INFINITE % 2 * INFINITE + NO_FACE
}

// The link with another slot and face.
fn linked(link: u32, slot: u32, face: u32) -> u32
    requires slot { slot < 2 ^ 28 }
    requires face { face < 8 }
    ensures infinite { is_infinite result ≡ is_infinite link }
    ensures slot { slot_in result ≡ slot }
    ensures face { link_face result ≡ face }
{
    slot * SLOT + link % SLOT / INFINITE * INFINITE + face
}

impl Cell {
    // A cell with these corners and no neighbor.
    pub(crate) fn new(corners: SlotCorners) -> Self
        ensures bare { IsUnlinked result }
        ensures corners { cell_corners result ≡ corner_list corners }
    {
        let SlotCorners { a, b, c, d } = corners;
        Cell {
            points: [number_of(a), number_of(b), number_of(c), number_of(d)],
            links: [bare(a), bare(b), bare(c), bare(d)],
        }
    }

    // A cell with no neighbor that has a point in `place`, and this cell's corners elsewhere.
    pub(crate) fn cone(&self, place: u8, point: u32) -> Self
        requires { place < 4 }
        ensures bare { IsUnlinked result }
        ensures corners { cell_corners result
            ≡ slice_set (cell_corners self.now) place (Corner.Point point) }
    {
        let [a, b, c, d] = self.points;
        let [i, j, k, l] = self.links;
        Cell {
            points: [
                either(place == 0, point, a),
                either(place == 1, point, b),
                either(place == 2, point, c),
                either(place == 3, point, d),
            ],
            links: [
                either(place == 0, NO_FACE, unlinked(i)),
                either(place == 1, NO_FACE, unlinked(j)),
                either(place == 2, NO_FACE, unlinked(k)),
                either(place == 3, NO_FACE, unlinked(l)),
            ],
        }
    }

    // Whether the cell is not free.
    pub(crate) fn is_live(&self) -> bool
        ensures { result ≡ live_in self.now }
    {
        self.links[0] % INFINITE != FREE
    }

    // The corners, in their places.
    pub(crate) fn corners(&self) -> [Corner; 4]
        ensures { result ≡ corners_in self.now.points self.now.links }
    {
        let [a, b, c, d] = self.points;
        let [i, j, k, l] = self.links;
        [
            corner_of(a, i),
            corner_of(b, j),
            corner_of(c, k),
            corner_of(d, l),
        ]
    }

    // A number for the corner in a place, different for different corners.
    #[inline(always)]
    pub(crate) fn number(&self, place: u8) -> usize
        requires { place < 4 }
        ensures { result
            ≡ corner_key (slice_index_or (cell_corners self.now) place Corner.Ghost) }
    {
        if self.links[place as usize] / INFINITE % 2 == 1 {
            0
        } else {
            self.points[place as usize] as usize + 1
        }
    }

    // The numbers of the corners, in their places. None where one is the point at infinity.
    pub(crate) fn numbers(&self) -> Option<[u32; 4]>
        ensures { MatchOption result
            ((ns : List ℕ) → corners_in self.now.points self.now.links ≢ numbered_corners ns)
            (λ ns. corners_in self.now.points self.now.links ≡ numbered_corners ns) }
    {
        let [i, j, k, l] = self.links;
        if is_infinite(i) || is_infinite(j) || is_infinite(k) || is_infinite(l) {
            return None;
        }
        Some(self.points)
    }

    // The slot and face behind a face, if there are any.
    pub(crate) fn side(&self, face: u8) -> Option<SlotFace>
        requires { face < 4 }
        ensures { result ≡ slice_index_or (sides_in self.now.links) face None }
    {
        side_of(self.links[face as usize])
    }

    // Whether each face has a neighbor.
    pub(crate) fn is_linked(&self) -> bool
        ensures { IsTrue result → (k : ℕ) → k < 4
            → IsSome (slice_index_or (sides_in self.now.links) k None) }
    {
        let [a, b, c, d] = self.links;
        has_face(a) && has_face(b) && has_face(c) && has_face(d)
    }

    // Puts a slot behind a face.
    pub(crate) fn put_side(&mut self, face: u8, side: SlotFace)
        requires face { face < 4 }
        requires there { side.face < 4 }
        requires slot { side.slot < 2 ^ 28 }
        requires live { live_in self.old ≡ true }
        ensures tet { tet_in self.new ≡ tet_with (tet_in self.old) face (Some side) }
        ensures live { live_in self.new ≡ live_in self.old }
    {
        let link = self.links[face as usize];
        self.links[face as usize] = linked(link, side.slot, u32::from(side.face));
    }

    // Removes the neighbor behind a face.
    pub(crate) fn clear_side(&mut self, face: u8)
        requires face { face < 4 }
        requires live { live_in self.old ≡ true }
        ensures tet { tet_in self.new ≡ tet_with (tet_in self.old) face None }
        ensures live { live_in self.new ≡ live_in self.old }
    {
        let link = self.links[face as usize];
        self.links[face as usize] = linked(link, 0, NO_FACE);
    }

    // The next free cell, where this one is free.
    pub(crate) fn next_free(&self) -> u32
        ensures { result ≡ next_of self.now }
    {
        self.links[0] / SLOT
    }

    // Frees the cell, which names the next free one from now on.
    pub(crate) fn free(&mut self, next: u32)
        requires { next < 2 ^ 28 }
        ensures live { live_in self.new ≡ false }
        ensures next { next_of self.new ≡ next }
    {
        self.links[0] = linked(self.links[0], next, FREE);
    }
}

// Whether the corner with this link is the point at infinity.
#[inline]
fn is_infinite(link: u32) -> bool
    ensures { result ≡ is_infinite link }
{
    link / INFINITE % 2 == 1
}

// The corner with this number, or the point at infinity where the link says so.
#[inline]
fn corner_of(number: u32, link: u32) -> Corner
    ensures { result ≡ corner_with number link }
{
    if is_infinite(link) {
        Corner::Ghost
    } else {
        Corner::Point(number)
    }
}

// Whether a slot and face stand behind the face with this link.
#[inline]
fn has_face(link: u32) -> bool
    ensures { IsTrue result → IsSome (side_to link) }
{
    link % INFINITE < NO_FACE
}

// The slot and face in a link, if there are any.
#[inline]
fn side_of(link: u32) -> Option<SlotFace>
    ensures { result ≡ side_to link }
{
    if link % INFINITE < NO_FACE {
        Some(SlotFace {
            slot: link / SLOT,
            face: (link % INFINITE) as u8,
        })
    } else {
        None
    }
}

fn number_of(corner: Corner) -> u32
    ensures { result ≡ kept_number corner }
{
    match corner {
        Corner::Point(number) => number,
        Corner::Ghost => 0,
    }
}

//! A hash table of faces.
ghost use Rattle.std.specs.Prelude.{◌≡◌, ◌↔◌, ◌⊎◌, ◌+◌, ◌<◌, ℕ, true, false, length, map, Contains};
ghost use Rattle.std.specs.Prelude.{IfOk};
ghost use Rattle.incidence.specs.Chains.{face_at, face_of_triangle, chain_of, IsNextFace};
ghost use Rattle.geo_laws.specs.Marks.{is_marked};

use crate::beginnings::beginnings_of;
use crate::chains::{Chains, chain_of, chains_of};
use geo_laws::{Face, FacetTriangles, face_of};
use std::alloc::Global;
use std::marker::Model;
use tet_ports::NoMemory;

/// Faces in the order in which they were given, which contracts see. A face is found among the few
/// in its chain.
#[derive(Drop)]
pub struct FaceTable {
    faces: Vec<Face>,
    chains: Chains,
    /// One mark per point, up to the greatest first corner: whether it is the first corner of a
    /// face.
    begins: Vec<bool>,
}

impl Model for FaceTable {
    ghost use Rattle.std.specs.Prelude.{List};
    ghost use Rattle.geo_laws.specs.declared.faces.Face.{Face as FaceValue};
    ghost use Rattle.incidence.specs.Chains.{AreBegun, AreChains};

    ghost Value = { List FaceValue };

    ghost view = { λ t. t.faces.items };

    ghost invariant = { λ t. AreChains t.faces.items t.chains.first.items t.chains.next.items
        × AreBegun t.faces.items t.begins.items };
}

/// The triangles as faces, in their order.
fn faces_of(alloc: Global, triangles: &FacetTriangles) -> Result<Vec<Face>, NoMemory>
    ensures { IfOk result (λ faces. faces.items ≡ map face_of_triangle triangles.now) }
{
    let mut faces = Vec::with_capacity(alloc, triangles.len())?;
    for triangle in triangles.as_slice() {
        faces.push(face_of(triangle.a, triangle.b, triangle.c))?;
    }
    Ok(faces)
}

impl FaceTable {
    /// A table of the triangles, in their order. Its memory grows with the greatest number of a
    /// corner.
    pub fn of_triangles(alloc: Global, triangles: &FacetTriangles) -> Result<Self, NoMemory>
        ensures { IfOk result (λ table. table ≡ map face_of_triangle triangles.now) }
    {
        let faces = faces_of(alloc, triangles)?;
        let chains = chains_of(alloc, &faces)?;
        let begins = beginnings_of(alloc, &faces)?;
        Ok(FaceTable {
            faces,
            chains,
            begins,
        })
    }

    /// The number of faces.
    #[inline]
    fn len(&self) -> usize
        ensures { result ≡ length self.now }
    {
        self.faces.len()
    }

    /// The face at a place.
    #[inline]
    fn at(&self, place: usize) -> Face
        requires { place < length self.now }
        ensures { result ≡ face_at self.now place }
    {
        self.faces[place]
    }

    /// The place of the first face of a chain, or the number of faces.
    #[inline]
    fn first_at(&self, chain: usize) -> usize
        ensures { IsNextFace self.now chain 0 result }
    {
        if chain < self.chains.first.len() {
            return self.chains.first[chain];
        }
        self.faces.len()
    }

    /// The place of the next face in the chain of the one at a place.
    #[inline]
    fn next_at(&self, place: usize) -> usize
        requires { place < length self.now }
        ensures { IsNextFace self.now (chain_of (face_at self.now place)) (place + 1) result }
    {
        self.chains.next[place]
    }

    /// Whether `corner` may be the first corner of a face; if not, it is that of none.
    #[inline]
    pub fn has_first(&self, corner: u32) -> bool
        ensures { result ≡ false → (k : ℕ) → k < length self.now
            → ¬ ((face_at self.now k).a ≡ corner) }
    {
        let corner = corner as usize;
        if corner < self.begins.len() {
            return self.begins[corner];
        }
        false
    }

    /// Whether the table has the face.
    #[inline]
    pub fn has(&self, face: Face) -> bool
        ensures { (result ≡ true) ↔ Contains self.now face }
    {
        let mut at = self.first_at(chain_of(face));
        while at < self.len() {
            if self.at(at) == face {
                return true;
            }
            at = self.next_at(at);
        }
        false
    }

    /// Marks each place at which the table has the face.
    #[inline]
    pub fn mark(&self, face: Face, marks: &mut [bool])
        requires { length marks.old ≡ length self.now }
        ensures long { length marks.new ≡ length marks.old }
        ensures marked { (k : ℕ) → k < length self.now → (is_marked marks.new k ≡ true)
            ↔ ((is_marked marks.old k ≡ true) ⊎ (face_at self.now k ≡ face)) }
    {
        let mut at = self.first_at(chain_of(face));
        while at < self.len() {
            if self.at(at) == face {
                marks[at] = true;
            }
            at = self.next_at(at);
        }
    }
}

//! Chains of a hash table of faces, by the sum of their corners.
ghost use Rattle.std.specs.Prelude.{◌≡◌, ◌<◌, ◌≤◌, ◌^◌, ℕ, length, IfOk};
ghost use Rattle.incidence.specs.Chains.{face_at, chain_of, AreChains};

use geo_laws::Face;
use std::alloc::Global;
use tet_ports::NoMemory;

/// For each chain the place of its first face, and for each face the place of the next one in its
/// chain. The number of faces stands for none.
#[derive(Drop)]
pub(crate) struct Chains {
    pub(crate) first: Vec<usize>,
    pub(crate) next: Vec<usize>,
}

/// The chain of a face: a quarter of the sum of its corners, so that even the faces round one point
/// are spread over many chains.
#[inline]
#[tactic(auto, unfolding(crate::specs::Chains::chain_of))]
pub(crate) fn chain_of(face: Face) -> usize
    ensures chain { result ≡ chain_of face }
    ensures small { result < 2 ^ 32 }
{
    (face.a as usize + face.b as usize + face.c as usize) / 4
}

/// One more than the greatest chain.
fn chain_count(faces: &[Face]) -> usize
    ensures { (k : ℕ) → k < length faces.now → chain_of (face_at faces.now k) < result }
{
    let mut count = 0;
    for at in 0..faces.len() {
        count = count.max(chain_of(faces[at]) + 1);
    }
    count
}

/// Links the faces of each chain, in their order.
pub(crate) fn chains_of(alloc: Global, faces: &[Face]) -> Result<Chains, NoMemory>
    ensures { IfOk result (λ chains. AreChains faces.now chains.first.items chains.next.items) }
{
    let end = faces.len();
    let mut first = Vec::new(alloc);
    first.resize(chain_count(faces), end)?;
    let mut next = Vec::new(alloc);
    next.resize(end, end)?;
    let mut at = end;
    while at > 0 {
        at -= 1;
        let chain = chain_of(faces[at]);
        next[at] = first[chain];
        first[chain] = at;
    }
    Ok(Chains { first, next })
}

//! The members of each group of facets, one after another.
ghost use Rattle.std.specs.Prelude.{◌≡◌, ◌<◌, ◌≤◌, ℕ, IfOk};
ghost use Rattle.merged_facets.specs.Merging.{group_of};
ghost use Rattle.merged_facets.specs.MergedComplex.{AreNone, AreMemberChains};

use crate::Merging;
use std::alloc::Global;
use tet_ports::NoMemory;

/// For each group its first member, and for each facet the next one of its group.
#[derive(Drop)]
pub(crate) struct Chains {
    pub(crate) first: Vec<Option<u32>>,
    pub(crate) next: Vec<Option<u32>>,
}

/// A list of `count` entries, all None.
fn nothing(alloc: Global, count: u32) -> Result<Vec<Option<u32>>, NoMemory>
    ensures { IfOk result (λ list. AreNone count list.items) }
{
    let mut list = Vec::with_capacity(alloc, count as usize)?;
    for _i in 0..count {
        list.push(None)?;
    }
    Ok(list)
}

/// The members of each group of the `count` facets.
pub(crate) fn chained(alloc: Global, merging: &Merging, count: u32) -> Result<Chains, NoMemory>
    requires { (f : ℕ) → f < count → group_of merging.now f ≤ f }
    ensures { IfOk result (λ c. AreMemberChains
        (group_of merging.now) count 0 c.first.items c.next.items) }
{
    let mut first = nothing(alloc, count)?;
    let mut next = nothing(alloc, count)?;
    for i in 0..count {
        let facet = count - 1 - i;
        let group = merging.group_of(facet);
        next[facet as usize] = first[group as usize];
        first[group as usize] = Some(facet);
    }
    Ok(Chains { first, next })
}

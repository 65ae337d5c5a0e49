//! Groups of numbers, each named by its least member: each number leads down to a lesser one of
//! its group, and the least leads to itself.
ghost use Rattle.std.specs.Prelude.{◌≡◌, ◌<◌, ℕ, length, get_or};
ghost use Rattle.merged_facets.specs.Labels.{IsForest, AreLabels, joined_label};

/// The least number of the group of `i`; the numbers on the path are then linked further down.
pub(crate) fn least_of(down: &mut [u32], i: u32) -> u32
    requires there { i < length down.old }
    requires forest { IsForest down.old }
    ensures forest { IsForest down.new }
    ensures labels { (label : ℕ → ℕ) → AreLabels down.old label
        → AreLabels down.new label × (result ≡ label i) }
    ensures there { result < length down.new }
{
    let mut at = i;
    while down[at as usize] != at {
        let next = down[at as usize];
        let further = down[next as usize];
        down[at as usize] = further;
        at = further;
    }
    at
}

/// Joins the groups of `i` and `j`.
pub(crate) fn join(down: &mut [u32], i: u32, j: u32)
    requires i_there { i < length down.old }
    requires j_there { j < length down.old }
    requires forest { IsForest down.old }
    ensures forest { IsForest down.new }
    ensures labels { (label : ℕ → ℕ) → AreLabels down.old label
        → AreLabels down.new (joined_label (label i) (label j) label) }
{
    let first = least_of(down, i);
    let second = least_of(down, j);
    if first < second {
        down[second as usize] = first;
    } else {
        down[first as usize] = second;
    }
}

/// Links each number to the least one of its group.
pub(crate) fn settle(down: &mut [u32])
    requires { IsForest down.old }
    ensures { (label : ℕ → ℕ) → AreLabels down.old label
        → (i : ℕ) → i < length down.new → get_or down.new i 0 ≡ label i }
{
    for i in 0..down.len() {
        let next = down[i];
        down[i] = down[next as usize];
    }
}

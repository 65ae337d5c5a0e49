//! The number of points that may be added.

ghost use Rattle.std.specs.Prelude.{◌≡◌, ◌≤◌, IfSome, None};
ghost use Rattle.command_words.specs.Words.{budget_at_front};
ghost use Rattle.command_words.specs.Meaning.{budget_from, budget_in, last_budget};

use crate::grammar::is_cluster;
use crate::numbers::number_at_front;
use tet_ports::Words;

/// The most points that may be added.
pub(crate) const MOST_BUDGET: u32 = 100_000;

/// The number of an S, behind which this text stands.
pub(crate) fn budget_at_front(text: &[u8]) -> Option<u32>
    ensures value { result ≡ budget_at_front text.now }
    ensures bound { IfSome result (λ n. n ≤ 100000) }
{
    number_at_front(MOST_BUDGET, text)
}

/// The number of the last S among these bytes.
fn last_budget_of(switches: &[u8]) -> Option<u32>
    ensures value { result ≡ budget_from None switches.now }
    ensures bound { IfSome result (λ n. n ≤ 100000) }
{
    let mut last = None;
    for (i, byte) in switches.iter().enumerate() {
        if *byte == b'S' {
            last = budget_at_front(&switches[i + 1..]).or(last);
        }
    }
    last
}

fn budget_in(word: &[u8]) -> Option<u32>
    ensures value { result ≡ budget_in word.now }
    ensures bound { IfSome result (λ n. n ≤ 100000) }
{
    if is_cluster(word) {
        last_budget_of(word)
    } else {
        None
    }
}

/// The last number of an S.
pub(crate) fn last_budget(words: &Words) -> Option<u32>
    ensures value { result ≡ last_budget words.now }
    ensures bound { IfSome result (λ n. n ≤ 100000) }
{
    let mut last = None;
    for word in words.as_slice() {
        last = budget_in(word.as_slice()).or(last);
    }
    last
}

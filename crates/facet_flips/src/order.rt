//! The heights at which circuits turn over, and their order, with ties by rising point numbers.
use crate::circuit::Kind;
use crate::wide::{Wide, long_product, product, times};
use std::cmp::Ordering;

/// A face between two rows that is to be flipped: the rows by their slots, the kind of flip, and
/// the numbers of the five corners in the order of the coefficients.
#[derive(Clone, Copy)]
pub(crate) struct Flip {
    pub(crate) row: u32,
    pub(crate) across: u32,
    pub(crate) kind: Kind,
    pub(crate) numbers: [u32; 5],
}

/// A flip, the coefficients of its corners, that of the least corner where it is not 0, and the
/// quotient `sum / weight` at which the circuit turns over, with its rank.
#[derive(Clone, Copy)]
pub(crate) struct Event {
    pub(crate) flip: Flip,
    pub(crate) rank: u64,
    pub(crate) circuit: [i128; 5],
    pub(crate) lead: Lead,
    pub(crate) sum: Wide,
    pub(crate) weight: Wide,
}

/// The least of five corners whose coefficient is not 0, and its coefficient.
#[derive(Clone, Copy)]
pub(crate) struct Lead {
    number: u32,
    coefficient: i128,
}

/// The least corner whose coefficient is not 0.
pub(crate) fn lead_of(numbers: &[u32; 5], circuit: &[i128; 5]) -> Lead {
    let mut lead = Lead {
        number: u32::MAX,
        coefficient: 0,
    };
    for i in 0..5 {
        if numbers[i] < lead.number && circuit[i] != 0 {
            lead = Lead {
                number: numbers[i],
                coefficient: circuit[i],
            };
        }
    }
    lead
}

/// The coefficient of a point, 0 where it is no corner.
fn coefficient(e: &Event, number: u32) -> i128 {
    for i in 0..5 {
        if e.flip.numbers[i] == number {
            return e.circuit[i];
        }
    }
    0
}

/// The order of `p / v` and `q / w`.
fn by_sizes(p: u128, v: Wide, q: u128, w: Wide) -> Ordering {
    if v.high == 0 && w.high == 0 {
        return product(w.low, p).cmp(&product(v.low, q));
    }
    times(w, p).cmp(&times(v, q))
}

/// The order of `c / weight` of the one event and of `d / weight` of the other.
fn by_coefficients(e: &Event, c: i128, f: &Event, d: i128) -> Ordering {
    if e.weight == f.weight || c.signum() != d.signum() {
        return c.cmp(&d);
    }
    let sizes = by_sizes(c.unsigned_abs(), e.weight, d.unsigned_abs(), f.weight);
    if c < 0 { sizes.reverse() } else { sizes }
}

/// The order of the coefficients of a corner.
fn by_corner(e: &Event, f: &Event, number: u32) -> Ordering {
    by_coefficients(e, coefficient(e, number), f, coefficient(f, number))
}

/// The order of the coefficients of the least corner of which one of the two is not 0.
fn by_leads(e: &Event, f: &Event) -> Ordering {
    let (one, two) = (e.lead, f.lead);
    match one.number.cmp(&two.number) {
        Ordering::Less => one.coefficient.cmp(&0),
        Ordering::Greater => 0.cmp(&two.coefficient),
        Ordering::Equal => by_coefficients(e, one.coefficient, f, two.coefficient),
    }
}

/// The least corner above the last one, or the best so far.
fn next_corner(e: &Event, best: Option<u32>, last: Option<u32>) -> Option<u32> {
    let mut best = best;
    for number in e.flip.numbers {
        let is_past = last.is_none_or(|l| l < number);
        if is_past && best.is_none_or(|b| number < b) {
            best = Some(number);
        }
    }
    best
}

/// The order of the coefficients of the corners of both, by rising numbers.
fn by_corners(e: &Event, f: &Event) -> Ordering {
    let mut last = None;
    for _ in 0..10 {
        let Some(number) = next_corner(f, next_corner(e, None, last), last) else {
            return Ordering::Equal;
        };
        match by_corner(e, f, number) {
            Ordering::Equal => last = Some(number),
            other => return other,
        }
    }
    Ordering::Equal
}

/// The order of the quotients. The events of one circuit have one weight. A sum, below `2^157`,
/// times a weight, below `2^188`, fits 384 bits.
fn by_quotient(e: &Event, f: &Event) -> Ordering {
    if e.weight == f.weight {
        return e.sum.cmp(&f.sum);
    }
    if e.sum.high == 0 && f.sum.high == 0 {
        return by_sizes(e.sum.low, e.weight, f.sum.low, f.weight);
    }
    long_product(f.weight, e.sum).cmp(&long_product(e.weight, f.sum))
}

/// Whether one event comes before the other: by the quotients, then by the coefficients of the
/// corners of both by rising numbers.
pub(crate) fn is_before(e: &Event, f: &Event) -> bool {
    match by_quotient(e, f) {
        Ordering::Less => true,
        Ordering::Greater => false,
        Ordering::Equal => match by_leads(e, f) {
            Ordering::Less => true,
            Ordering::Greater => false,
            Ordering::Equal => by_corners(e, f) == Ordering::Less,
        },
    }
}

//! Measures of some tetrahedra.
use crate::live::Live;

/// How many tetrahedra are slim, and how many are large.
#[derive(Clone, Copy)]
pub(crate) struct Tally {
    pub(crate) slim: i64,
    pub(crate) large: i64,
}

impl Tally {
    /// No tetrahedra.
    pub(crate) fn none() -> Tally {
        Tally { slim: 0, large: 0 }
    }

    /// The tally with one tetrahedron more.
    pub(crate) fn with(self, is_slim: bool, is_large: bool) -> Tally {
        Tally {
            slim: self.slim.wrapping_add(i64::from(is_slim)),
            large: self.large.wrapping_add(i64::from(is_large)),
        }
    }

    /// The tally of both.
    pub(crate) fn plus(self, o: Tally) -> Tally {
        Tally {
            slim: self.slim.wrapping_add(o.slim),
            large: self.large.wrapping_add(o.large),
        }
    }

    /// The tally without those of another.
    pub(crate) fn less(self, o: Tally) -> Tally {
        Tally {
            slim: self.slim.wrapping_sub(o.slim),
            large: self.large.wrapping_sub(o.large),
        }
    }

    /// Whether neither number is over that of the other.
    pub(crate) fn is_within(self, o: Tally) -> bool {
        self.slim <= o.slim && self.large <= o.large
    }
}

/// How many of some tetrahedra break the bounds.
pub(crate) fn tally_of(live: &Live, cells: &[u32]) -> Tally {
    let mut tally = Tally::none();
    for t in cells {
        if let Some(cell) = live.cell(*t) {
            tally = tally.with(cell.is_slim, cell.is_large);
        }
    }
    tally
}

/// The least square of the sine of a dihedral angle of some tetrahedra.
pub(crate) fn sine_of(live: &Live, cells: &[u32]) -> u64 {
    let mut sine = u64::MAX;
    for t in cells {
        if let Some(cell) = live.cell(*t) {
            sine = sine.min(cell.sine);
        }
    }
    sine
}

/// The least square of the sine of a dihedral angle of those of some tetrahedra that are not
/// marked.
pub(crate) fn sine_unmarked(live: &Live, cells: &[u32]) -> u64 {
    let mut sine = u64::MAX;
    for t in cells {
        if let Some(cell) = live.cell(*t) {
            if !live.is_marked(*t) {
                sine = sine.min(cell.sine);
            }
        }
    }
    sine
}

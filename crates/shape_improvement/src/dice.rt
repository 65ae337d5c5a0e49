//! Numbers that look random, the same in each run.
use mesh_parts::{Spot, times};

/// A generator of numbers.
#[derive(Clone, Copy)]
pub(crate) struct Dice {
    state: u32,
}

impl Dice {
    /// The generator in its first state.
    pub(crate) fn new() -> Dice {
        Dice { state: 12_345 }
    }

    /// The next number.
    fn next(&mut self) -> i64 {
        self.state = self
            .state
            .wrapping_mul(1_664_525)
            .wrapping_add(1_013_904_223);
        i64::from(self.state >> 8)
    }

    /// A number from `-reach` to `reach`, those near to 0 the most often.
    fn within(&mut self, reach: i64) -> i64 {
        let sum = self.next().wrapping_add(self.next());
        let share = times(sum.wrapping_sub(1 << 24), reach);
        i64::try_from(share.wrapping_shr(24)).unwrap_or(0)
    }

    /// A place near to another.
    pub(crate) fn near(&mut self, s: Spot, reach: i64) -> Spot {
        s.plus(Spot {
            x: self.within(reach),
            y: self.within(reach),
            z: self.within(reach),
        })
    }
}

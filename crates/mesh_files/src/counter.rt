//! A number that steps, with its decimals.
ghost use Rattle.std.specs.Prelude.{◌≡◌, ◌++◌, ◌+◌, ◌<◌, ◌≤◌, length, drop, take, slice_set};
ghost use Rattle.std.specs.Fmt.{decimal};

use crate::piece::{SPAN, put};
use itoa::write_digits;

/// A number with its decimals, which end in the middle of the bytes. The last digit is kept apart,
/// so that a step stores nothing among the bytes that are copied right after it, for which the
/// processor would wait.
#[derive(Drop)]
pub(crate) struct Counter {
    number: u64,
    digits: [u8; 48],
    start: usize,
    last: u8,
    ghost starts: { start < 24 },
    ghost ends: { drop start (slice_set digits 23 last) ≡ decimal number ++ drop 24 digits },
}

impl Counter {
    /// Zero.
    pub(crate) fn new() -> Self {
        Counter {
            number: 0,
            digits: [b'0'; 48],
            start: SPAN - 1,
            last: b'0',
        }
    }

    /// Steps to a number. Where it is the next one and the last digit has one after it, no other
    /// digit changes.
    #[inline(always)]
    pub(crate) fn reach(&mut self, number: u64)
        ensures { self.new.number ≡ number }
    {
        if self.last < b'9' && self.number < number && number - self.number == 1 {
            self.last += 1;
            self.number = number;
            return;
        }
        self.start = write_digits(number, &mut self.digits, SPAN);
        self.last = self.digits[SPAN - 1];
        self.number = number;
    }

    /// Writes the number at a place of a block, and returns where it ends. Other bytes after that
    /// are changed too.
    #[inline(always)]
    pub(crate) fn put(&self, block: &mut [u8], at: usize) -> usize
        requires { at + 24 ≤ length block.old }
        ensures short { result ≤ at + 20 }
        ensures written { take result block.new ≡ take at block.old ++ decimal self.now.number }
    {
        let start = self.start;
        let end = put(block, at, &self.digits[start..start + SPAN], SPAN - start);
        block[end - 1] = self.last;
        end
    }
}

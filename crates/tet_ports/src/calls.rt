//! Counts of calls, one of which fails.

ghost use Rattle.std.specs.Prelude.{◌≡◌, ◌≤◌, ◌+◌, ◌↔◌, Some, None, IsTrue};
ghost use Rattle.tet_ports.specs.Calls.{failing_at, failures, fresh_calls, one_more, IsNextFailing};

/// Counts the calls of one kind from 1, and knows which of them is to fail, if any is.
#[derive(Clone, Copy, Debug)]
pub(crate) struct Calls {
    made: u64,
    failing: Option<u32>,
}

impl Calls {
    /// No call yet, and none that is to fail.
    pub(crate) fn new() -> Self
        ensures { result ≡ fresh_calls }
    {
        Calls {
            made: 0,
            failing: None,
        }
    }

    /// Lets the call with this number fail, in place of the one that was to fail before.
    pub(crate) fn fail(&mut self, nth: u32)
        ensures { self.new ≡ failing_at nth self.old }
    {
        self.failing = Some(nth);
    }

    /// Counts one more call, and answers whether it is to fail.
    pub(crate) fn count(&mut self) -> bool
        ensures counted { self.new ≡ one_more self.old }
        ensures fails { IsTrue result ↔ IsNextFailing self.old }
        ensures failed { IsTrue result → failures self.new ≡ failures self.old + 1 }
        ensures failure_count { failures self.old ≤ failures self.new }
    {
        let number = self.made.saturating_add(1);
        self.made = number;
        match self.failing {
            Some(nth) => u64::from(nth) == number,
            None => false,
        }
    }
}

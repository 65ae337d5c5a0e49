//! Lists of names.

ghost use Rattle.std.specs.Prelude.{◌≡◌, ◌<◌, length, HoldsAt};

use crate::{Items, Name};

/// A list of names, such as the words of a command line.
pub type Words = Items<Name>;

impl Items<Name> {
    /// The name at this place, counted from 0.
    pub fn word(&self, i: usize) -> &Name
        requires { i < length self.now }
        ensures { HoldsAt (λ word. word ≡ result.now) self.now i }
    {
        self.get(i)
    }
}

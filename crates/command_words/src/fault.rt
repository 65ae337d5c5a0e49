//! Why words give no options.

use tet_ports::NoMemory;

/// Why words give no options.
#[derive(Clone, Copy, Debug, PartialEq, Eq)]
pub enum WordsFault {
    /// The first bad word and the place of the first bad byte in it, both counted from 1.
    Usage { word: usize, place: usize },
    /// Out of memory.
    NoMemory,
}

impl From<NoMemory> for WordsFault {
    ghost use Rattle.std.specs.Prelude.{◌≡◌};
    ghost use Rattle.command_words.specs.declared.fault.WordsFault.TheVariants.{NoMemory as OutOfMemory};

    ghost from_gives = { λ _ e. e ≡ OutOfMemory };

    fn from(_: NoMemory) -> WordsFault {
        WordsFault::NoMemory
    }
}

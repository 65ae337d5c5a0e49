//! Why points are not put behind those of a list.

use tet_ports::NoMemory;

/// Why points are not put behind those of a list.
#[derive(Clone, Copy, Debug, PartialEq, Eq)]
pub enum AddFault {
    /// There would be `count` points, of at most `most`.
    TooMany { count: usize, most: usize },
    /// The new point at this place, from 0, is the first with a coordinate that cannot be halved as
    /// often as is asked for.
    Coarse { place: usize },
    /// The point at this place of the whole list, from 0, is the first that is equal to an earlier
    /// one.
    Repeated { place: usize },
    /// Memory ran out.
    NoMemory,
}

impl From<NoMemory> for AddFault {
    ghost use Rattle.std.specs.Prelude.{◌≡◌};
    ghost use Rattle.refining.specs.declared.add_fault.AddFault.TheVariants.{NoMemory as OutOfMemory};

    ghost from_gives = { λ _ fault. fault ≡ OutOfMemory };

    fn from(_: NoMemory) -> AddFault {
        AddFault::NoMemory
    }
}

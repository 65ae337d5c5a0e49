//! Why the flips give no list.
use std::alloc::{AllocError, AllocFailed};
use tet_ports::NoMemory;

/// The tetrahedra are not as the flips need them, or there is no memory.
#[derive(Drop)]
pub(crate) enum Stop {
    GivesUp,
    NoMemory,
}

impl From<NoMemory> for Stop {
    fn from(_: NoMemory) -> Self {
        Stop::NoMemory
    }
}

impl From<AllocError> for Stop {
    fn from(_: AllocError) -> Self {
        Stop::NoMemory
    }
}

impl<T: Drop> From<AllocFailed<T>> for Stop {
    fn from(_: AllocFailed<T>) -> Self {
        Stop::NoMemory
    }
}

/// The found value; the flips end where there is none.
pub(crate) fn or_stop<T: Drop>(found: Option<T>) -> Result<T, Stop> {
    found.ok_or(Stop::GivesUp)
}

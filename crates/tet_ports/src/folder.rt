//! The folder from which files are fetched, and in which they are stored.

ghost use Rattle.std.specs.Prelude.{◌≡◌, ◌≤◌, ◌+◌, ℕ, Option, length, IfErr, IfOk, OnErr, OnOk, IsErrOf};
ghost use Rattle.tet_ports.specs.Counts.{Rose};
ghost use Rattle.tet_ports.specs.Files.{Files, Holds, HoldsMore, IsAbsent, PartlyStored, with_file};
ghost use Rattle.tet_ports.specs.Faults.{IfTooLarge};
ghost use Rattle.tet_ports.specs.Seen.{FolderState, IsOnlyRead, folder_seen};
ghost use Rattle.tet_ports.specs.declared.folder.StoreFault.TheVariants.{Failed as StoreFailed, NoMemory as StoreNoMemory};
ghost use Rattle.tet_ports.specs.declared.folder.FetchFault.TheVariants.{Missing, Failed, NoMemory as FetchNoMemory};

use crate::{Bytes, Name, NoMemory};
use std::alloc::Global;

/// Why a fetch gave no file.
#[derive(Debug, Drop)]
pub enum FetchFault {
    /// The folder lacks the name.
    Missing,
    /// The folder failed.
    Failed,
    /// The file is longer than was allowed. `taken` has its first bytes, one more than were
    /// allowed.
    TooLarge { taken: Bytes },
    /// Out of memory.
    NoMemory,
}

impl From<NoMemory> for FetchFault {
    ghost from_gives = { λ _ fault. fault ≡ FetchNoMemory };

    fn from(_: NoMemory) -> Self {
        FetchFault::NoMemory
    }
}

/// Why a store was refused.
#[derive(Clone, Copy, Debug, PartialEq, Eq)]
pub enum StoreFault {
    /// The folder failed.
    Failed,
    /// Out of memory.
    NoMemory,
}

impl From<NoMemory> for StoreFault {
    ghost from_gives = { λ _ fault. fault ≡ StoreNoMemory };

    fn from(_: NoMemory) -> Self {
        StoreFault::NoMemory
    }
}

/// A folder of files, each a name with its bytes.
pub trait Folder {
    /// What it shows of itself: the files that it holds, where it tells them; how often a fetch and
    /// how often a store has failed; and how often a fetched name was absent, where the files are
    /// not told. Each count stays at the last value of a u64.
    ghost state: { Self → FolderState };

    /// The bytes of the file with this name, of which there are at most `most`.
    ///
    /// Refusals: `Missing`, the folder lacks the name; `Failed`, the folder failed; `TooLarge`, the
    /// file has more bytes; `NoMemory`.
    fn fetch(&mut self, alloc: Global, name: &Name, most: usize) -> Result<Bytes, FetchFault>
        ensures found { IfOk result (λ bytes. Holds (state self.old).files name.now bytes) }
        ensures bounded { IfOk result (λ bytes. length bytes ≤ most) }
        ensures missing { IsErrOf result Missing
            → IsAbsent (state self.old).files name.now
            (state self.old).misses (state self.new).misses }
        ensures failed { IsErrOf result Failed
            → Rose (state self.old).read_faults (state self.new).read_faults }
        ensures too_large { IfErr result
            (λ fault. IfTooLarge fault (λ taken. length taken ≡ most + 1)) }
        ensures longer { IfErr result
            (λ fault. IfTooLarge fault (HoldsMore (state self.old).files name.now most)) }
        ensures read { IsOnlyRead (folder_seen state self.old self.new) };

    /// Sets the file with this name to this text.
    ///
    /// Refusals: `Failed`, the folder failed, and may have kept a prefix of the text under the
    /// name; `NoMemory`, with nothing changed.
    fn store(&mut self, name: &Name, text: &Bytes) -> Result<(), StoreFault>
        ensures stored { OnOk result
            ((state self.new).files ≡ with_file (state self.old).files name.now text.now) }
        ensures failed { IsErrOf result StoreFailed
            → Rose (state self.old).write_faults (state self.new).write_faults }
        ensures partly { IsErrOf result StoreFailed
            → PartlyStored (state self.old).files name.now text.now (state self.new).files }
        ensures kept { IsErrOf result StoreNoMemory
            → (state self.new).files ≡ (state self.old).files }
        ensures unread { (state self.new).read_faults ≡ (state self.old).read_faults }
        ensures fault_count { (state self.old).write_faults ≤ (state self.new).write_faults }
        ensures miss_count { (state self.new).misses ≡ (state self.old).misses };
}

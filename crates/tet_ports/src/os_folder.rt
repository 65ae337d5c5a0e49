//! The folder of the system in which the program runs.

ghost use Rattle.std.specs.Prelude.{◌≡◌, ◌≤◌, ◌+◌, None, length, IfErr, IfOk, IsErrOf};
ghost use Rattle.tet_ports.specs.Counts.{Rose};
ghost use Rattle.tet_ports.specs.declared.folder.StoreFault.TheVariants.{Failed as StoreFailed, NoMemory as StoreNoMemory};
ghost use Rattle.tet_ports.specs.Faults.{IfTooLarge};

use crate::streams::{read_whole, write_whole};
use crate::{Bytes, FetchFault, Folder, Name, StoreFault};
use std::alloc::Global;
use std::rt::Files;
use std::str::from_utf8;
use std::{fs, io};

/// The files of the system, by names that are paths in UTF-8. It tells no content.
#[derive(Debug, Drop)]
pub struct OsFolder<R> {
    rt: R,
    read_faults: u64,
    write_faults: u64,
    misses: u64,
}

impl<R: Files + Drop> OsFolder<R> {
    /// The files that this runtime reaches.
    pub fn new(rt: R) -> Self
        ensures { (result.read_faults ≡ 0) × (result.write_faults ≡ 0) × (result.misses ≡ 0) }
    {
        OsFolder {
            rt,
            read_faults: 0,
            write_faults: 0,
            misses: 0,
        }
    }
}

impl<R: Files + Drop> Folder for OsFolder<R> {
    ghost state = { λ folder.
        record {
          files = None;
          read_faults = folder.read_faults;
          write_faults = folder.write_faults;
          misses = folder.misses;
        } };

    fn fetch(&mut self, alloc: Global, name: &Name, most: usize) -> Result<Bytes, FetchFault> {
        let fetched = read_file(alloc, &self.rt, name, most);
        match fetched {
            Err(FetchFault::Missing) => self.misses = self.misses.saturating_add(1),
            Err(FetchFault::Failed) => self.read_faults = self.read_faults.saturating_add(1),
            _ => {}
        }
        fetched
    }

    fn store(&mut self, name: &Name, text: &Bytes) -> Result<(), StoreFault>
        ensures failed { IsErrOf result StoreFailed
            → Rose self.old.write_faults self.new.write_faults }
        ensures takes_no_memory { ¬ IsErrOf result StoreNoMemory }
        ensures unread { self.new.read_faults ≡ self.old.read_faults }
        ensures fault_count { self.old.write_faults ≤ self.new.write_faults }
        ensures miss_count { self.new.misses ≡ self.old.misses }
    {
        match write_file(&self.rt, name, text) {
            Ok(()) => Ok(()),
            Err(_) => {
                self.write_faults = self.write_faults.saturating_add(1);
                Err(StoreFault::Failed)
            }
        }
    }
}

fn read_file<R: Files>(alloc: Global, rt: &R, name: &Name, most: usize) -> Result<Bytes, FetchFault>
    ensures bounded { IfOk result (λ bytes. length bytes ≤ most) }
    ensures too_large { IfErr result
        (λ fault. IfTooLarge fault (λ taken. length taken ≡ most + 1)) }
{
    let Ok(path) = from_utf8(name.as_slice()) else {
        return Err(FetchFault::Failed);
    };
    match fs::open(rt, path) {
        Ok(mut file) => read_whole(alloc, &mut file, most),
        Err(fault) => Err(if fault.kind() == io::ErrorKind::NotFound {
            FetchFault::Missing
        } else {
            FetchFault::Failed
        }),
    }
}

fn write_file<R: Files>(rt: &R, name: &Name, text: &Bytes) -> io::Result<()> {
    let Ok(path) = from_utf8(name.as_slice()) else {
        return Err(io::Error::from(io::ErrorKind::InvalidInput));
    };
    let mut file = fs::create(rt, path)?;
    write_whole(&mut file, text.as_slice())
}

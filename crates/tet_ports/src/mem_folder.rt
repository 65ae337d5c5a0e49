//! A folder in memory.

ghost use Rattle.std.specs.Prelude.{◌≡◌, ◌≤◌, ◌+◌, ◌↔◌, Some, None, OnOk, OnErr, IsNone, IfSome, IfOk, IfErr, IsErrOf, IsTrue, length, take};
ghost use Rattle.std.specs.FinMap as map;
ghost use Rattle.tet_ports.specs.Calls.{failing_at, failures, fresh_calls, one_more, IsNextFailing};
ghost use Rattle.tet_ports.specs.Faults.{IfTooLarge};
ghost use Rattle.tet_ports.specs.Files.{HoldsMore};
ghost use Rattle.tet_ports.specs.MemFolder.{MemoryFiles, memory_files_code, stored};
ghost use Rattle.tet_ports.specs.declared.folder.FetchFault.TheVariants.{Missing, Failed as FetchFailed};
ghost use Rattle.tet_ports.specs.declared.folder.StoreFault.TheVariants.{Failed as StoreFailed, NoMemory as StoreNoMemory};

use crate::calls::Calls;
use crate::{Bytes, FetchFault, Folder, Name, NoMemory, StoreFault};
use std::alloc::Global;
use std::collections::VecDeque;
use std::marker::Model;

/// A folder in memory, which tells its files. One fetch and one store may be set to fail.
#[derive(Debug, Drop)]
pub struct MemFolder {
    alloc: Global,
    // Every write, the newest first.
    log: VecDeque<(Name, Bytes)>,
    fetches: Calls,
    stores: Calls,
    kept: usize,
}

impl Model for MemFolder {
    ghost Value = { MemoryFiles };

    ghost coded = { memory_files_code };

    ghost view = { λ s.
        record {
          files = map.from_entries s.log.items;
          fetches = s.fetches;
          stores = s.stores;
          kept = s.kept;
        } };
}

impl MemFolder {
    /// A folder with no file, of which no call is set to fail.
    pub fn new(alloc: Global) -> Self
        ensures { result
            ≡ record { files = map.empty; fetches = fresh_calls; stores = fresh_calls; kept = 0 } }
    {
        MemFolder {
            alloc,
            log: VecDeque::new(alloc),
            fetches: Calls::new(),
            stores: Calls::new(),
            kept: 0,
        }
    }

    /// Adds a file, or sets it anew.
    pub fn add(&mut self, name: &Name, text: &Bytes) -> Result<(), NoMemory>
        ensures ok { OnOk result (self.new
            ≡ record self.old { files = map.insert self.old.files name.now text.now }) }
        ensures err { OnErr result (self.new ≡ self.old) }
    {
        self.set(name, text.as_slice())
    }

    /// Lets the fetch with this number fail, counted from 1, in place of one that was set before.
    /// Only tests call it.
    pub fn fail_fetch(&mut self, nth: u32)
        ensures { self.new ≡ record self.old { fetches = failing_at nth self.old.fetches } }
    {
        self.fetches.fail(nth);
    }

    /// Lets the store with this number fail, counted from 1, in place of one that was set before.
    /// It leaves the first `kept` bytes of its text, or the whole text where that is shorter.
    /// Only tests call it.
    pub fn fail_store(&mut self, nth: u32, kept: usize)
        ensures { self.new
            ≡ record self.old { stores = failing_at nth self.old.stores; kept = kept } }
    {
        self.stores.fail(nth);
        self.kept = kept;
    }

    /// The bytes of the file with this name, or None where there is no such file.
    pub fn get(&self, name: &Name) -> Option<&Bytes>
        ensures absent { IsNone result → map.get self.now.files name.now ≡ None }
        ensures found { IfSome result (λ bytes. map.get self.now.files name.now ≡ Some bytes.now) }
    {
        for entry in &self.log {
            if name.as_slice() == entry.0.as_slice() {
                return Some(&entry.1);
            }
        }
        None
    }

    fn set(&mut self, name: &Name, text: &[u8]) -> Result<(), NoMemory>
        ensures ok { OnOk result (self.new
            ≡ record self.old { files = map.insert self.old.files name.now text.now }) }
        ensures err { OnErr result (self.new ≡ self.old) }
    {
        let name = Name::from_slice(self.alloc, name.as_slice())?;
        let text = Bytes::from_slice(self.alloc, text)?;
        self.log.push_front((name, text))?;
        Ok(())
    }
}

impl Folder for MemFolder {
    ghost state = { λ folder.
        record {
          files = Some folder.files;
          read_faults = failures folder.fetches;
          write_faults = failures folder.stores;
          misses = 0;
        } };

    fn fetch(&mut self, alloc: Global, name: &Name, most: usize) -> Result<Bytes, FetchFault>
        ensures found { IfOk result (λ bytes. (map.get self.old.files name.now ≡ Some bytes)
            × (length bytes ≤ most)) }
        ensures missing { IsErrOf result Missing → map.get self.old.files name.now ≡ None }
        ensures failed { IsErrOf result FetchFailed ↔ IsNextFailing self.old.fetches }
        ensures too_large { IfErr result
            (λ fault. IfTooLarge fault (λ taken. length taken ≡ most + 1)) }
        ensures longer { IfErr result
            (λ fault. IfTooLarge fault (HoldsMore (Some self.old.files) name.now most)) }
        ensures counted { self.new ≡ record self.old { fetches = one_more self.old.fetches } }
        ensures failures { IsNextFailing self.old.fetches
            → failures self.new.fetches ≡ failures self.old.fetches + 1 }
        ensures failure_count { failures self.old.fetches ≤ failures self.new.fetches }
    {
        if self.fetches.count() {
            return Err(FetchFault::Failed);
        }
        let text = match self.get(name) {
            Some(text) => text.as_slice(),
            None => return Err(FetchFault::Missing),
        };
        if text.len() > most {
            let taken = Bytes::from_slice(alloc, &text[..most + 1])?;
            return Err(FetchFault::TooLarge { taken });
        }
        Ok(Bytes::from_slice(alloc, text)?)
    }

    fn store(&mut self, name: &Name, text: &Bytes) -> Result<(), StoreFault>
        ensures stored { OnOk result (self.new ≡ stored self.old name.now text.now) }
        ensures partly { IsErrOf result StoreFailed
            → self.new ≡ stored self.old name.now (take self.old.kept text.now) }
        ensures kept { IsErrOf result StoreNoMemory
            → self.new ≡ record self.old { stores = one_more self.old.stores } }
        ensures next { OnOk result (¬ IsNextFailing self.old.stores) }
        ensures failed { IsErrOf result StoreFailed → IsNextFailing self.old.stores }
        ensures failures { IsNextFailing self.old.stores
            → failures self.new.stores ≡ failures self.old.stores + 1 }
        ensures failure_count { failures self.old.stores ≤ failures self.new.stores }
    {
        let text = text.as_slice();
        if self.stores.count() {
            self.set(name, &text[..self.kept.min(text.len())])?;
            return Err(StoreFault::Failed);
        }
        self.set(name, text)?;
        Ok(())
    }
}

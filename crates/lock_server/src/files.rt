//! The entries of the files that have a lock or a wait.
ghost use Rattle.std.specs.Prelude.{◌≡◌, ℕ, None, Some, is_some, OnErr, OnOk};
ghost use Rattle.std.specs.Borrow.{sem};
ghost use Rattle.std.specs.Option.{option_copied, option_copied_mut};

use crate::Memory;
use crate::file::LockFile;
use std::alloc::Global;
use std::collections::BTreeMap;

/// The entries of files, by number. Each is in a box: in the map itself, whose nodes may be half empty, it would take twice its size.
#[derive(Drop)]
pub struct Files {
    alloc: Global,
    by_number: BTreeMap<u64, Box<LockFile>>,
}

#[tactic(auto, unfolding(crate::specs::FilesView::entry_in))]
impl Files {
    ghost use Rattle.lock_server.specs.FilesView.{entry_in, LendsEntry, PutsEntry};

    /// No entry. It takes no memory.
    pub fn new(alloc: Global) -> Files
        ensures { (file : ℕ) → entry_in result file ≡ None }
    {
        Files {
            alloc,
            by_number: BTreeMap::new(alloc),
        }
    }

    /// All entries, by number.
    pub fn by_number(&self) -> &BTreeMap<u64, Box<LockFile>>
        ensures { result.now ≡ self.now.by_number }
    {
        &self.by_number
    }

    /// Whether the file has an entry.
    pub fn contains_key(&self, file: &u64) -> bool
        ensures { result ≡ is_some (entry_in self.now file.now) }
    {
        self.by_number.contains_key(file)
    }

    /// The entry of the file.
    pub fn get(&self, file: &u64) -> Option<&LockFile>
        ensures value { option_copied result ≡ entry_in self.now file.now }
    {
        match self.by_number.get(file) {
            Some(locks) => Some(locks.as_ref()),
            None => None,
        }
    }

    /// The entry of the file, to change.
    pub fn get_mut(&mut self, file: &u64) -> Option<&mut LockFile>
        ensures* writes_back { sem 𝓛 (LendsEntry self.entry file.now result) }
        ensures value { option_copied_mut result ≡ entry_in self.old file.now }
    {
        match self.by_number.get_mut(file) {
            Some(locks) => Some(locks.as_mut()),
            None => None,
        }
    }

    /// Gives the file this entry.
    ///
    /// `Memory` leaves all entries as they were.
    pub fn insert(&mut self, file: u64, locks: LockFile) -> Result<(), Memory>
        ensures ok { OnOk result (PutsEntry self.old self.new file (Some locks)) }
        ensures err { OnErr result ((other : ℕ) → entry_in self.new other ≡ entry_in self.old other) }
    {
        self.by_number.insert(file, Box::new(self.alloc, locks)?)?;
        Ok(())
    }

    /// Drops the entry of the file, where it has one.
    pub fn remove(&mut self, file: &u64)
        ensures { PutsEntry self.old self.new file.now None }
    {
        self.by_number.remove(file);
    }
}

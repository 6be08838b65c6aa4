//! Through which open file each owner was last seen on each file, until it is flushed there.
ghost use Rattle.std.specs.Prelude.{◌≡◌, ◌<◌, ◌↔◌, ℕ, None, Some, IfSome, IfNone, IsTrue, OnOk, OnErr};
ghost use Rattle.lock_server.specs.Clients.{ForgetsSeenOn};

mod export;

use crate::Memory;
use std::alloc::Global;
use std::collections::BTreeMap;
use std::ops::Bound;

/// The owners that were seen on one file, each with the open file through which it was last (FUSE, `fh` of setlk).
#[derive(Drop)]
pub struct Seen {
    owners: BTreeMap<u64, u64>,
}

#[tactic(auto, unfolding(crate::specs::OpeningsView::open_of))]
impl Seen {
    ghost use Rattle.lock_server.specs.OpeningsView.{IsAbove, open_of, SameSeen, Sees};

    /// No owner. It takes no memory.
    pub fn new(alloc: Global) -> Seen
        ensures { (owner : ℕ) → open_of result owner ≡ None }
    {
        Seen {
            owners: BTreeMap::new(alloc),
        }
    }

    /// The owner is seen through the open file.
    ///
    /// `Memory` leaves all as it was.
    pub fn note(&mut self, owner: u64, open_file: u64) -> Result<(), Memory>
        ensures ok { OnOk result (Sees self.old self.new owner (Some open_file)) }
        ensures err { OnErr result (SameSeen self.old self.new) }
    {
        self.owners.insert(owner, open_file)?;
        Ok(())
    }

    /// The owner isn't known any more. It takes no memory.
    pub fn forget(&mut self, owner: u64)
        ensures { Sees self.old self.new owner None }
    {
        self.owners.remove(&owner);
    }

    /// Whether no owner is known.
    pub fn is_empty(&self) -> bool
        ensures { IsTrue result ↔ ((owner : ℕ) → open_of self.now owner ≡ None) }
    {
        self.owners.is_empty()
    }

    /// The open file through which the owner was last seen.
    pub fn through(&self, owner: u64) -> Option<u64>
        ensures { result ≡ open_of self.now owner }
    {
        Some(*self.owners.get(&owner)?)
    }

    /// The least owner that is known, above this one where one is given.
    pub fn next_owner(&self, above: Option<u64>) -> Option<u64>
        ensures above { IfSome result (λ owner. IsAbove above owner) }
        ensures least { IfSome result (λ owner. (other : ℕ) → IsAbove above other → other < owner → open_of self.now other ≡ None) }
        ensures none { IfNone result ((owner : ℕ) → IsAbove above owner → open_of self.now owner ≡ None) }
    {
        let first = match above {
            None => Bound::Unbounded,
            Some(owner) => Bound::Excluded(owner),
        };
        let (owner, _) = self.owners.range((first, Bound::Unbounded)).next()?;
        Some(*owner)
    }
}

/// On each file, through which open file each owner was last seen there, until it is flushed.
#[derive(Drop)]
pub struct Openings {
    alloc: Global,
    files: BTreeMap<u64, Seen>,
}

#[tactic(auto, unfolding(crate::specs::OpeningsView::open_of, crate::specs::OpeningsView::through_at))]
impl Openings {
    ghost use Rattle.lock_server.specs.Openings.{is_number, SameOpenings, SeesOn};
    ghost use Rattle.lock_server.specs.OpeningsView.{HasSeen, IsAbove, through_at};

    /// No owner. It takes no memory.
    pub fn new(alloc: Global) -> Openings
        ensures { (file owner : ℕ) → through_at result file owner ≡ None }
    {
        Openings {
            alloc,
            files: BTreeMap::new(alloc),
        }
    }

    /// The owner is seen through the open file of the file.
    ///
    /// `Memory` leaves all as it was.
    pub fn note(&mut self, file: u64, owner: u64, open_file: u64) -> Result<(), Memory>
        ensures ok { OnOk result (SeesOn (through_at self.old) (through_at self.new) file owner (Some open_file)) }
        ensures err { OnErr result (SameOpenings (through_at self.old) (through_at self.new)) }
    {
        self.enter(file)?;
        let done = self.note_there(file, owner, open_file);
        self.sweep(file);
        done
    }

    /// The same on a file that has an entry.
    fn note_there(&mut self, file: u64, owner: u64, open_file: u64) -> Result<(), Memory>
        requires { HasSeen self.old file }
        ensures ok { OnOk result (SeesOn (through_at self.old) (through_at self.new) file owner (Some open_file)) }
        ensures err { OnErr result (SameOpenings (through_at self.old) (through_at self.new)) }
    {
        let seen = self.files.get_mut(&file).unwrap();
        seen.note(owner, open_file)
    }

    /// The owner isn't known any more on the file. It takes no memory (POSIX.1-2017 close; FUSE, flush).
    pub fn forget(&mut self, file: u64, owner: u64)
        ensures { SeesOn (through_at self.old) (through_at self.new) file owner None }
    {
        let Some(seen) = self.files.get_mut(&file) else {
            return;
        };
        seen.forget(owner);
        self.sweep(file);
    }

    /// No owner is known any more on the file. It takes no memory.
    pub fn forget_file(&mut self, file: u64)
        ensures { ForgetsSeenOn (through_at self.old) (through_at self.new) file }
    {
        self.files.remove(&file);
    }

    /// The open file through which the owner was last seen on the file.
    pub fn through(&self, file: u64, owner: u64) -> Option<u64>
        ensures { result ≡ through_at self.now file owner }
    {
        self.files.get(&file)?.through(owner)
    }

    /// Whether the owner was last seen on the file through the open file.
    pub fn is_through(&self, file: u64, owner: u64, open_file: u64) -> bool
        ensures { result ≡ is_number open_file (through_at self.now file owner) }
    {
        match self.through(file, owner) {
            Some(through) => through == open_file,
            None => false,
        }
    }

    /// The least owner that is known on the file, above this one where one is given.
    pub fn next_owner(&self, file: u64, above: Option<u64>) -> Option<u64>
        ensures above { IfSome result (λ owner. IsAbove above owner) }
        ensures least { IfSome result (λ owner. (other : ℕ) → IsAbove above other → other < owner → through_at self.now file other ≡ None) }
        ensures none { IfNone result ((owner : ℕ) → IsAbove above owner → through_at self.now file owner ≡ None) }
    {
        self.files.get(&file)?.next_owner(above)
    }

    /// The least file on which an owner is known, above this one where one is given.
    pub fn next_file(&self, above: Option<u64>) -> Option<u64>
        ensures above { IfSome result (λ file. IsAbove above file) }
        ensures least { IfSome result (λ file. (other owner : ℕ) → IsAbove above other → other < file → through_at self.now other owner ≡ None) }
        ensures none { IfNone result ((file owner : ℕ) → IsAbove above file → through_at self.now file owner ≡ None) }
    {
        let first = match above {
            None => Bound::Unbounded,
            Some(file) => Bound::Excluded(file),
        };
        let (file, _) = self.files.range((first, Bound::Unbounded)).next()?;
        Some(*file)
    }

    /// Makes an entry for the file, where it has none.
    ///
    /// `Memory` leaves all as it was.
    fn enter(&mut self, file: u64) -> Result<(), Memory>
        ensures same { SameOpenings (through_at self.old) (through_at self.new) }
        ensures entry { OnOk result (HasSeen self.new file) }
    {
        if self.files.contains_key(&file) {
            return Ok(());
        }
        self.files.insert(file, Seen::new(self.alloc))?;
        Ok(())
    }

    /// Drops the entry of the file, where no owner is known there. It takes no memory.
    fn sweep(&mut self, file: u64)
        ensures same { SameOpenings (through_at self.old) (through_at self.new) }
        ensures gone { ((owner : ℕ) → through_at self.old file owner ≡ None) → ¬ HasSeen self.new file }
    {
        let Some(seen) = self.files.get(&file) else {
            return;
        };
        if seen.is_empty() {
            self.files.remove(&file);
        }
    }
}

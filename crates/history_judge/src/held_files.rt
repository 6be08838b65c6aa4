//! The locks on all files that happenings leave.
ghost use Rattle.std.specs.Prelude.{◌≡◌, ◌≢◌, ℕ, IfOk, None, OnErr, OnOk, true, false};
ghost use Rattle.std.specs.BTreeMap.{get};
ghost use Rattle.std.specs.Ordering.{nat_cmp};
ghost use Rattle.history_core.specs.HeldView.{locks_in};
ghost use Rattle.history_core.specs.Locks.{FileLocks};
ghost use Rattle.history_judge.specs.Entries.{Rewrites};
ghost use Rattle.history_judge.specs.HeldView.{Happens, held_on, locks_on};
ghost use Rattle.history_judge.specs.HistoryOrders.{MayHappen, no_locks};

use crate::order::FileHappening;
use history_core::{Happening, HeldLocks};
use range_core::Memory;
use std::alloc::Global;
use std::collections::BTreeMap;

/// The locks on each file as happenings leave them, one after another.
#[derive(Drop)]
pub struct HeldFiles {
    alloc: Global,
    /// By number; a file that has no entry has no locks.
    files: BTreeMap<u64, HeldLocks>,
}

impl HeldFiles {
    /// Nobody has a lock on any file. It takes no memory.
    pub fn new(alloc: Global) -> HeldFiles
        ensures { (file : ℕ) → locks_on result file ≡ no_locks file }
    {
        HeldFiles {
            alloc,
            files: BTreeMap::new(alloc),
        }
    }

    /// What the happening leaves; `false` where it isn't possible under these locks, which stay then.
    ///
    /// `Memory` leaves the locks as they were.
    pub fn apply(&mut self, happening: FileHappening) -> Result<bool, Memory>
        ensures leaves { IfOk result (λ may. may ≡ true → MayHappen (locks_on self.old) happening (locks_on self.new)) }
        ensures may_not { IfOk result (λ may. may ≡ false → (after : ℕ → FileLocks) → ¬ MayHappen (locks_on self.old) happening after) }
        ensures stays { IfOk result (λ may. may ≡ false → (file : ℕ) → locks_on self.new file ≡ locks_on self.old file) }
        ensures err { OnErr result ((file : ℕ) → locks_on self.new file ≡ locks_on self.old file) }
    {
        self.enter(happening.file)?;
        apply_on(&mut self.files, happening)
    }

    /// The locks on each file that may have some, by number.
    pub fn files(&self) -> &BTreeMap<u64, HeldLocks>
        ensures { (file : ℕ) → held_on (get nat_cmp result.now file) ≡ locks_on self.now file }
    {
        &self.files
    }

    /// The file has an entry, and all locks are as they were.
    fn enter(&mut self, file: u64) -> Result<(), Memory>
        ensures there { OnOk result (get nat_cmp self.new.files file ≢ None) }
        ensures same { (other : ℕ) → locks_on self.new other ≡ locks_on self.old other }
    {
        if self.files.contains_key(&file) {
            return Ok(());
        }
        self.files.insert(file, HeldLocks::new(self.alloc))?;
        Ok(())
    }
}

/// What the happening leaves on its file, which has an entry.
fn apply_on(files: &mut BTreeMap<u64, HeldLocks>, happening: FileHappening) -> Result<bool, Memory>
    requires { get nat_cmp files.old happening.file ≢ None }
    ensures { Rewrites files.old files.new happening.file (λ old new. Happens (locks_in old) happening result (locks_in new)) }
{
    let held = files.get_mut(&happening.file).unwrap();
    held.apply(Happening {
        behind: happening.behind,
        request: happening.request,
        deed: happening.deed,
    })
}

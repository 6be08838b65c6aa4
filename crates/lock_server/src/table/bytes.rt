//! Byte locks that are asked for without waiting.
ghost use Rattle.std.specs.Prelude.{◌≡◌, ◌↔◌, ◌<◌, ℕ, None, All, IsFalse, IsOk, IsTrue, IfOk, IfSome, IfNone, OnOk, OnErr, MatchOption};
ghost use Rattle.range_core.specs.Ranges.{IsByteRange, SplitsRun};
ghost use Rattle.lock_server.specs.Calls.{CrossesOwners, DismissesOn, ForgetsOn, given_by, ReleasesOn, SetsOn, SetsUncrossed};
ghost use Rattle.lock_server.specs.Files.{SameFile, untouched};
ghost use Rattle.lock_server.specs.Leaving.{is_leaving, is_staying};
ghost use Rattle.lock_server.specs.Locks.{IsFirstLock, IsInTheWay};
ghost use Rattle.lock_server.specs.Settling.{IsHeldBack};
ghost use Rattle.lock_server.specs.States.{SameState};
ghost use Rattle.lock_server.specs.TableView.{HasEntry, IsSwept, KeepsEntries, KeepsOthers, table_state};

use super::Table;
use crate::leaving::Leaving;
use crate::{Family, Lock, Memory, Mode, Pending, Span};
use std::ops::Bound;

#[tactic(auto, unfolding(crate::specs::TableView::table_state, crate::specs::TableView::entry_of))]
impl Table {
    /// The first lock of another owner that is in the way (POSIX.1-2017 fcntl, `F_GETLK`).
    pub fn blocker(&self, file: u64, owner: u64, span: Span, mode: Mode) -> Option<Lock>
        requires { IsByteRange span }
        ensures some { IfSome result (IsFirstLock ((table_state self.now).files file) owner span mode) }
        ensures none { IfNone result (¬ IsInTheWay ((table_state self.now).files file) owner span mode) }
    {
        self.files.get(&file)?.blocker(owner, span, mode)
    }

    /// Sets the mode on just the bytes of the span, or removes it. No conflict is looked for, and no wait is granted.
    ///
    /// `Memory`, which never comes where an unlock splits no run of the owner, leaves the table as it was.
    pub fn set(
        &mut self,
        file: u64,
        owner: u64,
        span: Span,
        mode: Option<Mode>,
    ) -> Result<(), Memory>
        requires { IsByteRange span }
        ensures ok { OnOk result (SetsOn (table_state self.old) file Family.Bytes owner span mode (table_state self.new)) }
        ensures unlock { mode ≡ None → (¬ SplitsRun (((table_state self.old).files file).bytes owner) span) → IsOk result }
        ensures err { OnErr result (SameState (table_state self.old) (table_state self.new)) }
        ensures swept { OnErr result (IsSwept self.old file → IsSwept self.new file) }
        ensures others { KeepsOthers self.old self.new file }
    {
        self.set_uncrossed(file, owner, span, mode)?;
        self.cross_by(owner, mode);
        Ok(())
    }

    /// The same, but that the owner isn't crossed yet ([`Table::cross_by`]); and it tells whether the owner had a byte lock there before.
    ///
    /// `Memory`, which never comes where an unlock splits no run of the owner, leaves the table as it was.
    pub fn set_uncrossed(
        &mut self,
        file: u64,
        owner: u64,
        span: Span,
        mode: Option<Mode>,
    ) -> Result<bool, Memory>
        requires { IsByteRange span }
        ensures ok { OnOk result (SetsUncrossed (table_state self.old) file owner span mode (table_state self.new)) }
        ensures had { IfOk result (λ had. IsFalse had ↔ ((byte : ℕ) → ((table_state self.old).files file).bytes owner byte ≡ None)) }
        ensures unlock { mode ≡ None → (¬ SplitsRun (((table_state self.old).files file).bytes owner) span) → IsOk result }
        ensures err { OnErr result (SameState (table_state self.old) (table_state self.new)) }
        ensures swept { OnErr result (IsSwept self.old file → IsSwept self.new file) }
        ensures others { KeepsOthers self.old self.new file }
    {
        // Where nothing is known of the file there is nothing to unlock.
        if mode.is_none() && !self.files.contains_key(&file) {
            return Ok(false);
        }
        self.open(file)?;
        match self.set_there(file, owner, span, mode) {
            Ok(had) => Ok(had),
            Err(memory) => {
                self.sweep(file);
                Err(memory)
            }
        }
    }

    /// The same on a file that has an entry.
    fn set_there(
        &mut self,
        file: u64,
        owner: u64,
        span: Span,
        mode: Option<Mode>,
    ) -> Result<bool, Memory>
        requires range { IsByteRange span }
        requires entry { HasEntry self.old file }
        ensures ok { OnOk result (SetsUncrossed (table_state self.old) file owner span mode (table_state self.new)) }
        ensures had { IfOk result (λ had. IsFalse had ↔ ((byte : ℕ) → ((table_state self.old).files file).bytes owner byte ≡ None)) }
        ensures unlock { mode ≡ None → (¬ SplitsRun (((table_state self.old).files file).bytes owner) span) → IsOk result }
        ensures err { OnErr result (SameState (table_state self.old) (table_state self.new)) }
        ensures others { KeepsOthers self.old self.new file }
    {
        let locks = self.files.get_mut(&file).unwrap();
        locks.set(owner, span, mode)
    }

    /// The owner was given a lock of this mode, or none: it is crossed, where it has a detected wait. It takes no memory.
    pub fn cross_by(&mut self, owner: u64, mode: Option<Mode>)
        ensures crosses { CrossesOwners (table_state self.old) (given_by owner mode) (table_state self.new) }
        ensures entries { KeepsEntries self.old self.new }
    {
        self.waiters.cross_by(owner, mode);
    }

    /// Removes all byte locks of the owner on the file; its waits stay. No wait is granted. It takes no memory.
    pub fn release(&mut self, file: u64, owner: u64)
        ensures releases { ReleasesOn (table_state self.old) file Family.Bytes owner (table_state self.new) }
        ensures crossed { (other : ℕ) → (table_state self.new).crossed other ≡ (table_state self.old).crossed other }
        ensures others { KeepsOthers self.old self.new file }
    {
        if let Some(locks) = self.files.get_mut(&file) {
            locks.release(owner);
        }
    }

    /// Removes all byte locks of the owner on the file, and its waits for byte locks. No wait is granted. It takes no memory.
    pub fn dismiss(&mut self, file: u64, owner: u64)
        ensures forgets { ForgetsOn (table_state self.old) file owner (table_state self.new) }
        ensures others { KeepsOthers self.old self.new file }
    {
        // The waits go first: as long as one stands, the owner's room on the file stays at its release.
        while self.dismiss_one(file, Leaving::BytesOf(owner)) {}
        self.release(file, owner);
    }

    /// The first of the waits on the file that are to leave leaves it; false where there is none.
    pub(super) fn dismiss_one(&mut self, file: u64, leaving: Leaving) -> bool
        ensures one { IsTrue result → DismissesOn (table_state self.old) file (is_leaving leaving) (table_state self.new) }
        ensures none { IsFalse result → All (λ wait. IsTrue (is_staying leaving wait)) ((table_state self.old).files file).waits
            × SameState (table_state self.old) (table_state self.new) }
        ensures others { KeepsOthers self.old self.new file }
    {
        let Some(locks) = self.files.get_mut(&file) else {
            return false;
        };
        let Some(wait) = locks.dismiss(leaving) else {
            return false;
        };
        self.tickets.forget(wait.ticket);
        self.waiters.end_for(&wait, file);
        true
    }

    /// Whether a lock of another owner is in the way of the request (POSIX.1-2017 fcntl, `F_SETLK`; flock(2)).
    pub fn holds_back(&self, file: u64, wanted: &Pending) -> bool
        requires { IsByteRange wanted.now.span }
        ensures { IsTrue result ↔ IsHeldBack ((table_state self.now).files file) wanted.now }
    {
        match self.files.get(&file) {
            Some(locks) => locks.holds_back(wanted),
            None => false,
        }
    }

    /// The least file with an entry, above this one where one is given.
    #[tactic(auto, unfolding(crate::specs::TableView::table_state, crate::specs::TableView::entry_of, crate::specs::FilesView::entry_in))]
    pub fn next_file(&self, above: Option<u64>) -> Option<u64>
        ensures above { IfSome result (λ file. MatchOption above (Unit {0}) (λ least. least < file)) }
        ensures entry { IfSome result (HasEntry self.now) }
        ensures least { IfSome result (λ file. (other : ℕ) → MatchOption above (Unit {0}) (λ least. least < other) → other < file
            → SameFile untouched ((table_state self.now).files other)) }
        ensures none { IfNone result ((file : ℕ) → MatchOption above (Unit {0}) (λ least. least < file)
            → SameFile untouched ((table_state self.now).files file)) }
    {
        let first = match above {
            None => Bound::Unbounded,
            Some(file) => Bound::Excluded(file),
        };
        let (file, _) = self
            .files
            .by_number()
            .range((first, Bound::Unbounded))
            .next()?;
        Some(*file)
    }
}

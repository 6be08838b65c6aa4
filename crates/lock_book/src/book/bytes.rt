//! Setting, reserving and releasing byte locks.
ghost use Rattle.std.specs.Prelude.{ℕ, ◌≡◌, ◌≢◌, ◌≤◌, ◌+◌, ◌↔◌, true, false, not, None, Some, is_some, IsSome, IsFalse, IsTrue, IfOk, IsOk, OnOk, OnErr};
ghost use Rattle.range_core.specs.Ranges.{IsByteRange, IsConstant, SplitsRun};
ghost use Rattle.lock_book.specs.OwnerLists.{IsIdle};
ghost use Rattle.lock_book.specs.Books.{byte_modes_of, list_of, room_in, ClearsOwner, ReleasesOwner, SameBook, SameButRoom, SetsOwnerMode};

use super::Book;
use crate::Owner;
use owner_runs::OwnerRuns;
use range_core::{Memory, Mode, Span};

impl Book {
    /// Sets the owner's mode on just the bytes of the span, or removes it where `mode` is `None`; the owner's room stays
    /// (POSIX.1-2017 fcntl, `F_SETLK`; fcntl_locking(2), `F_OFD_SETLK`). No conflict is looked for.
    ///
    /// `Memory`, which never comes where an unlock splits no run of the owner or a lock is there already, leaves the book as it was.
    pub fn set(&mut self, owner: Owner, span: Span, mode: Option<Mode>) -> Result<(), Memory>
        requires { IsByteRange span }
        ensures ok { OnOk result (SetsOwnerMode self.old self.new owner span mode) }
        ensures room { OnOk result (room_in self.old owner ≤ room_in self.new owner) }
        ensures unlock { mode ≡ None → (¬ SplitsRun (byte_modes_of self.old owner) span) → IsOk result }
        ensures again { (wanted : Mode) → mode ≡ Some wanted → IsConstant (byte_modes_of self.old owner) span wanted → IsOk result }
        ensures err { OnErr result (SameBook self.old self.new) }
    {
        self.set_and_tell(owner, span, mode)?;
        Ok(())
    }

    /// The same as [`Book::set`], and tells whether the owner had a byte lock before.
    ///
    /// `Memory`, which never comes where an unlock splits no run of the owner or a lock is there already, leaves the book as it was.
    pub fn set_and_tell(
        &mut self,
        owner: Owner,
        span: Span,
        mode: Option<Mode>,
    ) -> Result<bool, Memory>
        requires { IsByteRange span }
        ensures ok { OnOk result (SetsOwnerMode self.old self.new owner span mode) }
        ensures room { OnOk result (room_in self.old owner ≤ room_in self.new owner) }
        ensures had { IfOk result (λ had. IsFalse had ↔ ((byte : ℕ) → byte_modes_of self.old owner byte ≡ None)) }
        ensures unlock { mode ≡ None → (¬ SplitsRun (byte_modes_of self.old owner) span) → IsOk result }
        ensures again { (wanted : Mode) → mode ≡ Some wanted → IsConstant (byte_modes_of self.old owner) span wanted → IsOk result }
        ensures err { OnErr result (SameBook self.old self.new) }
    {
        match mode {
            Some(wanted) => self.lock(owner, span, wanted),
            None => self.set_listed(owner, span, None),
        }
    }

    /// Sets the owner's mode on just the bytes of the span, and tells whether the owner had a byte lock before.
    ///
    /// `Memory`, which never comes where the lock is there already, leaves the book as it was.
    fn lock(&mut self, owner: Owner, span: Span, mode: Mode) -> Result<bool, Memory>
        requires { IsByteRange span }
        ensures ok { OnOk result (SetsOwnerMode self.old self.new owner span (Some mode)) }
        ensures room { OnOk result (room_in self.old owner ≤ room_in self.new owner) }
        ensures had { IfOk result (λ had. IsFalse had ↔ ((byte : ℕ) → byte_modes_of self.old owner byte ≡ None)) }
        ensures again { IsConstant (byte_modes_of self.old owner) span mode → IsOk result }
        ensures err { OnErr result (SameBook self.old self.new) }
    {
        self.index.prepare(self.alloc, &self.owners);
        if self.lock_new(owner, span, mode)? {
            return Ok(false);
        }
        self.set_listed(owner, span, Some(mode))
    }

    /// Sets the mode where the owner has no list: whether that is so. Where the owner has one, nothing changes.
    ///
    /// `Memory`, which never comes where the owner has a list, leaves the book as it was.
    fn lock_new(&mut self, owner: Owner, span: Span, mode: Mode) -> Result<bool, Memory>
        requires { IsByteRange span }
        ensures told { IfOk result (λ is_new. is_new ≡ not (is_some (list_of self.old owner))) }
        ensures ok { IfOk result (λ is_new. is_new ≡ true → SetsOwnerMode self.old self.new owner span (Some mode)) }
        ensures same { IfOk result (λ is_new. is_new ≡ false → self.new ≡ self.old) }
        ensures there { IsSome (list_of self.old owner) → IsOk result }
        ensures err { OnErr result (SameBook self.old self.new) }
    {
        let added = OwnerRuns::of(self.alloc, span, mode);
        if !self.owners.add_new(self.alloc, owner, added)? {
            return Ok(false);
        }
        self.index.put_only(owner, mode, span);
        Ok(true)
    }

    /// Sets the mode of an owner that has a list, or removes that of any, and tells whether the owner had a byte lock before.
    ///
    /// `Memory`, which never comes where an unlock splits no run of the owner or a lock is there already, leaves the book as it was.
    fn set_listed(&mut self, owner: Owner, span: Span, mode: Option<Mode>) -> Result<bool, Memory>
        requires span { IsByteRange span }
        requires listed { mode ≢ None → IsSome (list_of self.old owner) }
        ensures ok { OnOk result (SetsOwnerMode self.old self.new owner span mode) }
        ensures room { OnOk result (room_in self.old owner ≤ room_in self.new owner) }
        ensures had { IfOk result (λ had. IsFalse had ↔ ((byte : ℕ) → byte_modes_of self.old owner byte ≡ None)) }
        ensures unlock { mode ≡ None → (¬ SplitsRun (byte_modes_of self.old owner) span) → IsOk result }
        ensures again { (wanted : Mode) → mode ≡ Some wanted → IsConstant (byte_modes_of self.old owner) span wanted → IsOk result }
        ensures err { OnErr result (SameBook self.old self.new) }
    {
        let Some(list) = self.owners.get_mut(owner) else {
            // Without a list there is nothing to unlock.
            return Ok(false);
        };
        let had = !list.is_empty();
        // A lock that is set again changes nothing.
        if self.index.stays(list, span, mode) {
            return Ok(had);
        }
        let left = self.index.take_out(owner, list, span);
        if let Err(refused) = list.set(span, mode) {
            // The list is as it was: the runs that were taken out go in again.
            self.index.put_in(owner, list, span, left);
            return Err(refused);
        }
        self.index.put_in(owner, list, span, left);
        if is_idle(list) {
            self.owners.remove(owner);
        }
        Ok(had)
    }

    /// Holds room for so many further sets of the owner in all, counting the room already there.
    ///
    /// `Memory`, which never comes where that room is there, leaves the book as it was.
    pub fn reserve(&mut self, owner: Owner, sets: usize) -> Result<(), Memory>
        ensures ok { OnOk result (SameButRoom self.old self.new owner) }
        ensures kept { OnOk result (room_in self.old owner ≤ room_in self.new owner) }
        ensures room { OnOk result (sets ≤ room_in self.new owner) }
        ensures there { sets ≤ room_in self.old owner → IsOk result }
        ensures err { OnErr result (SameBook self.old self.new) }
    {
        self.index.prepare(self.alloc, &self.owners);
        match self.owners.get_mut(owner) {
            Some(list) => list.reserve(sets),
            None => {
                // Room for no set is there without a list.
                if sets == 0 {
                    return Ok(());
                }
                let mut list = OwnerRuns::new(self.alloc);
                list.reserve(sets)?;
                self.owners.add(self.alloc, owner, list)?;
                Ok(())
            }
        }
    }

    /// For how many further sets of the owner there is room. It takes no memory.
    pub fn room(&self, owner: Owner) -> usize
        ensures { result ≡ room_in self.now owner }
    {
        match self.owners.get(owner) {
            Some(list) => list.room(),
            None => 0,
        }
    }

    /// Sets the mode as [`Book::set`] does, in room that was held: it takes no memory and uses at most one place of the
    /// owner's room up.
    pub fn set_reserved(&mut self, owner: Owner, span: Span, mode: Option<Mode>)
        requires span { IsByteRange span }
        requires room { 1 ≤ room_in self.old owner }
        ensures sets { SetsOwnerMode self.old self.new owner span mode }
        ensures room { room_in self.old owner ≤ room_in self.new owner + 1 }
    {
        let list = self.owners.get_mut(owner).unwrap();
        let left = self.index.take_out(owner, list, span);
        list.set_reserved(span, mode);
        self.index.put_in(owner, list, span, left);
        if is_idle(list) {
            self.owners.remove(owner);
        }
    }

    /// Removes all byte locks of the owner, and its room (POSIX.1-2017 close: the process' locks on the file go). It takes
    /// no memory.
    #[tactic(auto, using(crate::proofs::BookLemmas::owner_released))]
    pub fn release_owner(&mut self, owner: Owner)
        ensures { ReleasesOwner self.old self.new owner }
    {
        let Some(list) = self.owners.remove(owner) else {
            return;
        };
        self.index.take_all(owner, &list);
    }

    /// Removes all byte locks of the owner; its room stays, for a set that is still to come (POSIX.1-2017 close: the process'
    /// locks on the file go). It takes no memory.
    pub fn clear_owner(&mut self, owner: Owner)
        ensures { ClearsOwner self.old self.new owner }
    {
        match self.owners.get_mut(owner) {
            Some(list) => {
                self.index.take_all(owner, list);
                list.clear();
                if is_idle(list) {
                    self.owners.remove(owner);
                }
            }
            None => {}
        }
    }
}

/// Whether the list holds neither a lock nor room.
fn is_idle(list: &OwnerRuns) -> bool
    ensures { IsTrue result ↔ IsIdle list.now }
{
    list.room() == 0 && list.is_empty()
}

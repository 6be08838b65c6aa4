//! What blocks a wait, and which waits conflict.
ghost use Rattle.std.specs.Prelude.{ℕ, ◌≡◌, ◌<◌, ◌≤◌, ◌↔◌, IsTrue, All, Any, length};
ghost use Rattle.std.specs.Option.{option_copied};
ghost use Rattle.range_core.specs.Ranges.{IsByteRange};
ghost use Rattle.lock_book.specs.declared.Owner.TheVariants.{Process};
ghost use Rattle.wait_core.specs.declared.Family.TheVariants.{Bytes};
ghost use Rattle.lock_book.specs.Conflicts.{ByteModes, ProcessBlocks};
ghost use Rattle.lock_book.specs.OwnerLists.{modes_in_list};
ghost use Rattle.wait_core.specs.Locks.{Locks, locks_of};
ghost use Rattle.wait_core.specs.Blocking.{IsBlockedByLock, Meet, WaitsConflict};
ghost use Rattle.wait_core.specs.Cycles.{IsTraditional};
ghost use Rattle.wait_core.specs.Pairs.{IsBlockedWait, IsConflictOf};
ghost use Rattle.wait_core.specs.Processes.{is_member};
ghost use Rattle.wait_core.specs.WellFormed.{IsWellFormed, can_own};

use crate::processes::{PROCESSES, ProcessSet};
use crate::queues::FileWaits;
use crate::{Family, Wait};
use lock_book::{Book, Owner};
use owner_runs::OwnerRuns;
use range_core::Span;

impl Wait {
    /// Whether the wait is for a traditional lock, that of its process.
    pub(crate) fn is_traditional(&self) -> bool
        ensures { IsTrue result ↔ IsTraditional self.now }
    {
        self.owner == Owner::Process(self.p)
    }

    /// Whether the two waits could not both be granted (this project's choice).
    pub fn conflicts_with(&self, other: &Wait) -> bool
        ensures { IsTrue result ↔ WaitsConflict self.now other.now }
    {
        // Most waits are on other bytes, so these come first.
        meet(other.family, self.span, other.span)
            && self.file == other.file
            && self.mode.conflicts_with(other.mode)
            && self.family == other.family
            && self.owner != other.owner
    }

    /// Whether the wait's range meets this one.
    pub(crate) fn meets(&self, span: Span) -> bool
        ensures { IsTrue result ↔ Meet Bytes self.now.span span }
    {
        meet(Family::Bytes, self.span, span)
    }

    /// Whether a lock of another owner blocks the wait; `books` has the locks, by file (POSIX.1-2017 fcntl, `F_SETLK`;
    /// flock(2)). It takes no memory.
    pub fn is_blocked_by_lock(&self, books: &[Book]) -> bool
        requires file { self.now.file < length books.now }
        requires range { IsByteRange self.now.span }
        requires owner { IsTrue (can_own self.now.family self.now.owner) }
        ensures { IsTrue result ↔ IsBlockedByLock (locks_of books.now) self.now }
    {
        let book = &books[usize::from(self.file)];
        match (self.family, self.owner) {
            (Family::Bytes, owner) => book.blocked(owner, self.span, self.mode),
            (Family::Whole, Owner::Description(description)) => {
                book.flock_blocked(description, self.mode)
            }
            (Family::Whole, Owner::Process(_)) => unreachable!(),
        }
    }

    /// The processes of which a traditional lock blocks the wait.
    pub(crate) fn blocking_by_lock(&self, books: &[Book]) -> ProcessSet
        requires file { self.now.file < length books.now }
        requires range { IsByteRange self.now.span }
        ensures { let locks = locks_of books.now in (q : ℕ) → 1 ≤ q → q ≤ PROCESSES
            → IsTrue (is_member result q) ↔ ProcessBlocks (locks.bytes self.now.file) q self.now.owner self.now.span self.now.mode }
    {
        let mut blocking = ProcessSet::empty();
        for (other, list) in books[usize::from(self.file)].lists() {
            // The processes come before the descriptions.
            let Owner::Process(process) = *other else {
                return blocking;
            };
            // The list of an owner that waits mostly holds room alone.
            if list.is_empty() {
                continue;
            }
            if (1..=PROCESSES).contains(&process) && self.is_blocked_by_list(process, Some(list)) {
                blocking = blocking.with(process);
            }
        }
        blocking
    }

    /// Whether a traditional lock of the process blocks the wait; the list has the modes of the process on the wait's file.
    fn is_blocked_by_list(&self, process: u8, list: Option<&OwnerRuns>) -> bool
        requires { IsByteRange self.now.span }
        ensures { (modes : ByteModes) → ((byte : ℕ) → modes_in_list (option_copied list.entry) byte ≡ modes (Process process) byte)
            → IsTrue result ↔ ProcessBlocks modes process self.now.owner self.now.span self.now.mode }
    {
        match list {
            Some(list) => {
                self.owner != Owner::Process(process)
                    && list.first_hit(self.span, self.mode).is_some()
            }
            None => false,
        }
    }

    /// Whether the wait is traditional, and a lock of the process blocks it; the list has the modes of the process on its file.
    pub(crate) fn waits_for(&self, process: u8, list: Option<&OwnerRuns>) -> bool
        requires { IsByteRange self.now.span }
        ensures { (locks : Locks) → ((byte : ℕ) → modes_in_list (option_copied list.entry) byte ≡ locks.bytes self.now.file (Process process) byte)
            → IsTrue result ↔ IsBlockedWait locks self.now.p process self.now }
    {
        self.is_traditional() && self.is_blocked_by_list(process, list)
    }

    /// Whether one of these waits conflicts with the wait.
    pub(crate) fn conflicts_with_any(&self, mut earlier: FileWaits<'_>) -> bool
        ensures { IsTrue result ↔ Any (λ v. WaitsConflict v self.now) earlier.entry }
    {
        earlier.any(|other| other.conflicts_with(self))
    }

    /// The processes of which a traditional wait, one of these, conflicts with the wait.
    pub(crate) fn blocking_by_wait(&self, earlier: FileWaits<'_>) -> ProcessSet
        requires { All (IsWellFormed PROCESSES) earlier }
        ensures { (q : ℕ) → IsTrue (is_member result q) ↔ Any (IsConflictOf q self.now) earlier.entry }
    {
        let mut blocking = ProcessSet::empty();
        for other in earlier {
            if other.conflicts_with(self) && other.is_traditional() {
                blocking = blocking.with(other.p);
            }
        }
        blocking
    }

    /// The same where the wait is traditional, and none where it isn't.
    pub(crate) fn blocking_if_traditional(&self, earlier: FileWaits<'_>) -> ProcessSet
        requires { All (IsWellFormed PROCESSES) earlier }
        ensures { (q : ℕ) → IsTrue (is_member result q) ↔ IsTraditional self.now × Any (IsConflictOf q self.now) earlier.entry }
    {
        if self.is_traditional() {
            self.blocking_by_wait(earlier)
        } else {
            ProcessSet::empty()
        }
    }
}

/// Whether two ranges have a byte in common; whole files always meet.
fn meet(family: Family, one: Span, other: Span) -> bool
    ensures { IsTrue result ↔ Meet family one other }
{
    match family {
        Family::Bytes => one.first <= other.last && other.first <= one.last,
        Family::Whole => true,
    }
}

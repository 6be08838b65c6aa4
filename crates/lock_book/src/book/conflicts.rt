//! Who blocks a lock.
ghost use Rattle.std.specs.Prelude.{ℕ, ◌≡◌, ◌<◌, ◌↔◌, nat_lt, None, IfSome, IfNone, IsTrue, MatchOption, All};
ghost use Rattle.std.specs.Map.{lookup};
ghost use Rattle.std.specs.Option.{option_copied};
ghost use Rattle.range_core.specs.Ranges.{IsByteRange, IsRun};
ghost use Rattle.lock_book.specs.Conflicts.{ByteConflict, IsFirstBlocked, IsFirstBlocker, ProcessBlocks};
ghost use Rattle.lock_book.specs.Owners.{is_from, is_same_owner};
ghost use Rattle.lock_book.specs.OwnerLists.{AreFound, AreRising, modes_in_list, room_in_list};
ghost use Rattle.lock_book.specs.Books.{byte_modes_of, room_in};

use super::index::{holder, owner_of};
use super::{Book, Lists};
use crate::{Blocker, Owner};
use owner_runs::OwnerRuns;
use range_core::{Mode, OFFMAX, Span};
use std::ops::Bound;

impl Book {
    /// Whether some other owner has a lock on some byte of the span that conflicts with one of this mode (POSIX.1-2017
    /// fcntl, `F_SETLK`; fcntl_locking(2): traditional and OFD locks conflict with each other). It takes no memory.
    pub fn blocked(&self, owner: Owner, span: Span, mode: Mode) -> bool
        requires { IsByteRange span }
        ensures { IsTrue result ↔ ByteConflict (byte_modes_of self.now) owner span mode }
    {
        match self.index.get() {
            Some(index) => index.is_blocked(holder(owner), span, mode),
            None => self.blocked_by_lists(owner, span, mode),
        }
    }

    /// What [`Book::blocked`] tells, by the lists of all owners in turn.
    fn blocked_by_lists(&self, owner: Owner, span: Span, mode: Mode) -> bool
        requires { IsByteRange span }
        ensures { IsTrue result ↔ ByteConflict (byte_modes_of self.now) owner span mode }
    {
        for (other, list) in self.owners.iter() {
            if list.is_empty() {
                continue;
            }
            if *other != owner && list.first_hit(span, mode).is_some() {
                return true;
            }
        }
        false
    }

    /// The modes that the owner has, as the runs of a list; `None` where it has none, and holds no room. It takes no memory.
    pub fn list(&self, owner: Owner) -> Option<&OwnerRuns>
        ensures { (byte : ℕ) → modes_in_list (option_copied result) byte ≡ byte_modes_of self.now owner byte }
    {
        self.owners.get(owner)
    }

    /// The lists of all owners that have locks or hold room, by owner: the processes come before the descriptions. It takes
    /// no memory.
    pub fn lists(&self) -> Lists<'_>
        ensures modes { (owner : Owner) (byte : ℕ) → modes_in_list (lookup (is_same_owner owner) result) byte ≡ byte_modes_of self.now owner byte }
        ensures rooms { (owner : Owner) → room_in_list (lookup (is_same_owner owner) result) ≡ room_in self.now owner }
        ensures rising { AreRising result }
        ensures found { AreFound result }
    {
        self.owners.iter()
    }

    /// Those of the owners from this bound on. It takes no memory.
    pub fn lists_from(&self, from: Bound<Owner>) -> Lists<'_>
        ensures modes { (owner : Owner) (byte : ℕ) → IsTrue (is_from from owner)
            → modes_in_list (lookup (is_same_owner owner) result) byte ≡ byte_modes_of self.now owner byte }
        ensures rooms { (owner : Owner) → IsTrue (is_from from owner) → room_in_list (lookup (is_same_owner owner) result) ≡ room_in self.now owner }
        ensures from { All (λ one. IsTrue (is_from from one.0)) result }
        ensures rising { AreRising result }
        ensures found { AreFound result }
    {
        self.owners.iter_from(from)
    }

    /// Whether a traditional lock of the process, if that isn't the owner, conflicts on some byte of the span
    /// (POSIX.1-2017 fcntl, `EDEADLK`). It takes no memory.
    pub fn process_blocks(&self, process: u8, owner: Owner, span: Span, mode: Mode) -> bool
        requires { IsByteRange span }
        ensures { IsTrue result ↔ ProcessBlocks (byte_modes_of self.now) process owner span mode }
    {
        let other = Owner::Process(process);
        match self.owners.get(other) {
            Some(list) => other != owner && list.first_hit(span, mode).is_some(),
            None => false,
        }
    }

    /// The lock that a get command reports (POSIX.1-2017 fcntl, `F_GETLK`): at the least byte of the span that is
    /// blocked, of the least owner that blocks there, the largest range round that byte on which this owner has this one
    /// mode (which one is reported is this project's choice). `None` where nothing blocks. It takes no memory.
    pub fn first_blocker(&self, owner: Owner, span: Span, mode: Mode) -> Option<Blocker>
        requires { IsByteRange span }
        ensures some { IfSome result (IsFirstBlocker (byte_modes_of self.now) owner span mode) }
        ensures range { IfSome result (λ blocker. IsByteRange blocker.span) }
        ensures none { IfNone result (¬ ByteConflict (byte_modes_of self.now) owner span mode) }
    {
        let Some(index) = self.index.get() else {
            return self.first_blocker_in_lists(owner, span, mode);
        };
        let hit = index.first_in_the_way(holder(owner), span, mode)?;
        let Some(other) = owner_of(hit.holder) else {
            return self.first_blocker_in_lists(owner, span, mode);
        };
        match hit.run {
            // The run that the search met spares a look among the owner's. The index doesn't tell that its runs lie within a
            // file, as all do: so its end is looked at.
            Some(run) if run.span.last <= OFFMAX => Some(Blocker {
                owner: other,
                mode: run.mode,
                span: run.span,
            }),
            _ => self.blocker_at(other, hit.byte),
        }
    }

    /// The owner's lock on the byte.
    fn blocker_at(&self, owner: Owner, byte: u64) -> Option<Blocker>
        ensures owner { IfSome result (λ blocker. blocker.owner ≡ owner) }
        ensures run { IfSome result (λ blocker. IsRun (byte_modes_of self.now owner) byte blocker.mode blocker.span) }
        ensures range { IfSome result (λ blocker. IsByteRange blocker.span) }
        ensures none { IfNone result (byte_modes_of self.now owner byte ≡ None) }
    {
        let (mode, span) = self.owners.get(owner)?.run_at(byte)?;
        Some(Blocker { owner, mode, span })
    }

    /// What [`Book::first_blocker`] tells, by the lists of all owners in turn.
    fn first_blocker_in_lists(&self, owner: Owner, span: Span, mode: Mode) -> Option<Blocker>
        requires { IsByteRange span }
        ensures some { IfSome result (IsFirstBlocker (byte_modes_of self.now) owner span mode) }
        ensures range { IfSome result (λ blocker. IsByteRange blocker.span) }
        ensures none { IfNone result (¬ ByteConflict (byte_modes_of self.now) owner span mode) }
    {
        let (byte, other) = self.first_hit_in_lists(owner, span, mode)?;
        self.blocker_at(other, byte)
    }

    /// The least byte of the span that some other owner blocks, and the least owner that blocks there, by the lists of all
    /// owners in turn.
    fn first_hit_in_lists(&self, owner: Owner, span: Span, mode: Mode) -> Option<(u64, Owner)>
        requires { IsByteRange span }
        ensures hit { IfSome result (λ hit. IsFirstBlocked (byte_modes_of self.now) owner span mode hit.0 hit.1) }
        ensures none { IfNone result (¬ ByteConflict (byte_modes_of self.now) owner span mode) }
    {
        let mut first: Option<(u64, Owner)> = None;
        for (other, list) in self.owners.iter() {
            if list.is_empty() || *other == owner {
                continue;
            }
            if let Some(byte) = list.first_hit(span, mode) {
                // The owners come in order, so the first one at a byte is the least, and at the first byte the very first.
                if is_lower(byte, first) {
                    if byte == span.first {
                        return Some((byte, *other));
                    }
                    first = Some((byte, *other));
                }
            }
        }
        first
    }
}

/// Whether the byte is lower than the one that was found, if one was.
fn is_lower(byte: u64, found: Option<(u64, Owner)>) -> bool
    ensures { MatchOption found (IsTrue result) (λ least. result ≡ nat_lt byte least.0) }
{
    found.is_none_or(|(least, _)| byte < least)
}

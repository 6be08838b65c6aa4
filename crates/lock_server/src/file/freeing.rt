//! Which waits on one file a change of its locks may free, where each is blocked before it.
ghost use Rattle.std.specs.Prelude.{◌≡◌, ℕ, IfNone, IfSome, IsFalse, None, Some};
ghost use Rattle.range_core.specs.Ranges.{Covers, HeldConflicts, IsByteRange};
ghost use Rattle.lock_server.specs.Files.{ClearsBytes, SetsFlock};
ghost use Rattle.lock_server.specs.FileView.{file_state};
ghost use Rattle.lock_server.specs.Freed.{Frees, SetFrees, TakesNothing};

use super::LockFile;
use crate::freed::{Freed, Reach};
use crate::{Family, Mode, Policy, Span};
use lock_book::Owner;

#[tactic(auto, unfolding(crate::specs::FileView::file_state))]
impl LockFile {
    /// Which waits a set of the owner's mode on the span, or an unlock, may free: where it takes nothing from its owner, none but, where
    /// waits are queued, those of the owner, which may have then what they are for.
    pub fn freed_by_set(&self, policy: Policy, owner: u64, span: Span, mode: Option<Mode>) -> Freed
        requires { IsByteRange span }
        ensures { SetFrees policy (file_state self.now) owner span mode result }
    {
        let reach = Reach {
            family: Family::Bytes,
            span,
        };
        // Where nobody waits, what the owner has needn't be looked at.
        if self.waits.is_empty() || self.takes(owner, span, mode) {
            return Freed::Meeting(reach);
        }
        match policy {
            Policy::Held => Freed::Nobody,
            Policy::Queue => match mode {
                Some(_) => Freed::Of(owner, reach),
                None => Freed::Nobody,
            },
        }
    }

    /// Whether a set takes something from what its owner has: an unlock of any lock, or a read lock on a byte of a write lock.
    fn takes(&self, owner: u64, span: Span, mode: Option<Mode>) -> bool
        requires { IsByteRange span }
        ensures { IsFalse result → TakesNothing (file_state self.now) owner span mode }
    {
        match mode {
            Some(mode) => self.lessens(owner, span, mode),
            None => self.has_against(owner, span, Mode::Write),
        }
    }

    /// Whether a lock of this mode is less than what the owner has on a byte of the span.
    fn lessens(&self, owner: u64, span: Span, mode: Mode) -> bool
        requires { IsByteRange span }
        ensures { IsFalse result → TakesNothing (file_state self.now) owner span (Some mode) }
    {
        match mode {
            Mode::Read => self.has_against(owner, span, Mode::Read),
            Mode::Write => false,
        }
    }

    /// Whether the owner has a lock on a byte of the span that conflicts with one of this mode.
    fn has_against(&self, owner: u64, span: Span, against: Mode) -> bool
        requires { IsByteRange span }
        ensures { IsFalse result → (byte : ℕ) → Covers span byte → ¬ HeldConflicts ((file_state self.now).bytes owner byte) against }
    {
        match self.book.list(Owner::Description(owner)) {
            Some(list) => list.first_hit(span, against).is_some(),
            None => false,
        }
    }

    /// Which waits a release of the owner's byte locks may free.
    pub fn freed_by_release(&self, owner: u64) -> Freed
        ensures { (policy : Policy) → Frees policy (file_state self.now) (ClearsBytes (file_state self.now) owner) result }
    {
        match self.extent(owner) {
            Some(span) => Freed::Meeting(Reach {
                family: Family::Bytes,
                span,
            }),
            None => Freed::Nobody,
        }
    }

    /// From the first byte of the owner's byte locks to the last; `None` where it has none.
    fn extent(&self, owner: u64) -> Option<Span>
        ensures some { IfSome result (λ span. (byte : ℕ) → (¬ Covers span byte) → (file_state self.now).bytes owner byte ≡ None) }
        ensures none { IfNone result ((byte : ℕ) → (file_state self.now).bytes owner byte ≡ None) }
    {
        match self.book.list(Owner::Description(owner)) {
            Some(list) => list.extent(),
            None => None,
        }
    }

    /// Which waits a release of the owner's flock lock may free.
    pub fn freed_by_flock_release(&self, owner: u64) -> Freed
        ensures { (policy : Policy) → Frees policy (file_state self.now) (SetsFlock (file_state self.now) owner None) result }
    {
        match self.flock_mode(owner) {
            Some(_) => Freed::Meeting(Reach {
                family: Family::Whole,
                span: Span::WHOLE_FILE,
            }),
            None => Freed::Nobody,
        }
    }
}

//! The byte locks of one file.
ghost use Rattle.std.specs.Prelude.{◌≡◌, ◌↔◌, ◌+◌, ◌<◌, ℕ, None, IsFalse, IfOk, IfSome, IfNone, IsOk, IsTrue, OnOk, OnErr};
ghost use Rattle.range_core.specs.Ranges.{IsByteRange, SplitsRun};
ghost use Rattle.lock_server.specs.Files.{SameFile, SetsBytes, Unlocks};
ghost use Rattle.lock_server.specs.FileView.{file_state};
ghost use Rattle.lock_server.specs.Locks.{IsFirstLock, IsInTheWay};
ghost use Rattle.lock_server.specs.Room.{byte_waits};

use super::LockFile;
use crate::leaving::Leaving;
use crate::{Family, Lock, Memory, Mode, Span};
use lock_book::Owner;

#[tactic(auto, unfolding(crate::specs::FileView::file_state))]
impl LockFile {
    /// The first lock of another owner that is in the way (POSIX.1-2017 fcntl, `F_GETLK`).
    pub fn blocker(&self, owner: u64, span: Span, mode: Mode) -> Option<Lock>
        requires { IsByteRange span }
        ensures some { IfSome result (IsFirstLock (file_state self.now) owner span mode) }
        ensures none { IfNone result (¬ IsInTheWay (file_state self.now) owner span mode) }
    {
        let found = self
            .book
            .first_blocker(Owner::Description(owner), span, mode)?;
        // No process has a lock here.
        let Owner::Description(holder) = found.owner else {
            return None;
        };
        Some(Lock {
            owner: holder,
            mode: found.mode,
            span: found.span,
        })
    }

    /// Sets the mode on just the bytes of the span, or removes it where there is none, and tells whether the owner had a byte lock
    /// before. No conflict is looked for, and no wait is granted (POSIX.1-2017 fcntl, `F_SETLK`).
    ///
    /// `Memory`, which never comes where an unlock splits no run of the owner, leaves the file as it was.
    pub fn set(&mut self, owner: u64, span: Span, mode: Option<Mode>) -> Result<bool, Memory>
        requires { IsByteRange span }
        ensures ok { OnOk result (SetsBytes (file_state self.old) owner span mode (file_state self.new)) }
        ensures had { IfOk result (λ had. IsFalse had ↔ ((byte : ℕ) → (file_state self.old).bytes owner byte ≡ None)) }
        ensures unlock { mode ≡ None → (¬ SplitsRun ((file_state self.old).bytes owner) span) → IsOk result }
        ensures waits { (file_state self.new).waits ≡ (file_state self.old).waits }
        ensures err { OnErr result (SameFile (file_state self.old) (file_state self.new)) }
    {
        self.book
            .set_and_tell(Owner::Description(owner), span, mode)
    }

    /// Removes all byte locks of the owner; its waits stay, with their room. It takes no memory (POSIX.1-2017 close).
    pub fn release(&mut self, owner: u64)
        ensures unlocks { Unlocks Family.Bytes (file_state self.old) owner (file_state self.new) }
        ensures waits { (file_state self.new).waits ≡ (file_state self.old).waits }
    {
        if self.byte_waits(owner) == 0 {
            self.book.release_owner(Owner::Description(owner));
        } else {
            self.book.clear_owner(Owner::Description(owner));
        }
    }

    /// For how many byte locks the owner waits.
    pub(super) fn byte_waits(&self, owner: u64) -> u64
        ensures { result ≡ byte_waits (file_state self.now).waits owner }
    {
        // Room is held for each of them.
        if self.book.room(Owner::Description(owner)) == 0 {
            return 0;
        }
        self.waits.count_where(Leaving::BytesOf(owner))
    }
}

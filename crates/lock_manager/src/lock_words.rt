//! What a lock command of fcntl and its lock description ask for, and how a lock that blocks is described.
ghost use Rattle.std.specs.Prelude.{◌≡◌};
ghost use Rattle.range_core.specs.Ranges.{IsByteRange};
ghost use Rattle.lock_manager.specs.LockWords.{is_ofd as is_ofd_of, is_get as is_get_of, may_wait as may_wait_of, is_bad_argument, lock_owner, held_reply as held_reply_of, permits as permits_of, wanted_mode as wanted_mode_of};

use crate::{LkCmd, Lock, Reply};
use fd_table::{Access, Look};
use lock_book::{Blocker, Owner};
use range_core::{Kind, Mode, OFFMAX, Span};

impl LkCmd {
    /// Whether it is one for open file description locks (fcntl_locking(2), "Open file description locks").
    pub(crate) fn is_ofd(self) -> bool
        ensures { result ≡ is_ofd_of self }
    {
        match self {
            LkCmd::OGetLk | LkCmd::OSetLk | LkCmd::OSetLkW => true,
            LkCmd::GetLk | LkCmd::SetLk | LkCmd::SetLkW => false,
        }
    }

    /// Whether it only asks (POSIX.1-2017 fcntl, `F_GETLK`; fcntl_locking(2), `F_OFD_GETLK`).
    pub(crate) fn is_get(self) -> bool
        ensures { result ≡ is_get_of self }
    {
        match self {
            LkCmd::GetLk | LkCmd::OGetLk => true,
            LkCmd::SetLk | LkCmd::SetLkW | LkCmd::OSetLk | LkCmd::OSetLkW => false,
        }
    }

    /// Whether it waits where a lock is in the way (POSIX.1-2017 fcntl, `F_SETLKW`; fcntl_locking(2), `F_OFD_SETLKW`).
    pub(crate) fn may_wait(self) -> bool
        ensures { result ≡ may_wait_of self }
    {
        match self {
            LkCmd::SetLkW | LkCmd::OSetLkW => true,
            LkCmd::GetLk | LkCmd::SetLk | LkCmd::OGetLk | LkCmd::OSetLk => false,
        }
    }

    /// Whether it refuses such an argument: an OFD command a pid other than 0 (fcntl_locking(2), `EINVAL`), and a get
    /// command `F_UNLCK` (this project's choice).
    pub(crate) fn refuses(self, lock: Lock) -> bool
        ensures { result ≡ is_bad_argument self lock }
    {
        (self.is_ofd() && lock.pid != 0) || (self.is_get() && lock.kind == Kind::Unlock)
    }

    /// Whose lock it is about: that of the process, or that of the description (POSIX.1-2017 fcntl, `F_SETLK`;
    /// fcntl_locking(2), "Open file description locks").
    pub(crate) fn owner(self, p: u8, look: Look) -> Owner
        ensures { result ≡ lock_owner self p look }
    {
        if self.is_ofd() {
            Owner::Description(look.desc)
        } else {
            Owner::Process(p)
        }
    }
}

/// The mode that a lock description asks for, and none where it unlocks (POSIX.1-2017 fcntl, `l_type`).
pub fn wanted_mode(kind: Kind) -> Option<Mode>
    ensures { result ≡ wanted_mode_of kind }
{
    match kind {
        Kind::Read => Some(Mode::Read),
        Kind::Write => Some(Mode::Write),
        Kind::Unlock => None,
    }
}

/// Whether a lock of this mode may be set through a descriptor of this access mode (POSIX.1-2017 fcntl, `EBADF`).
pub fn permits(access: Access, mode: Mode) -> bool
    ensures { result ≡ permits_of access mode }
{
    match (access, mode) {
        (Access::Rw, _) | (Access::R, Mode::Read) | (Access::W, Mode::Write) => true,
        (Access::R, Mode::Write) | (Access::W, Mode::Read) => false,
    }
}

/// The reply that tells of a lock: its mode, its range from the first byte of the file, with length 0 where it ends at the
/// largest offset, and the process of a traditional lock, or -1 (POSIX.1-2017 fcntl, `F_GETLK` and `l_len`;
/// fcntl_locking(2), `F_OFD_GETLK`).
pub fn held_reply(blocker: Blocker) -> Reply
    requires { IsByteRange blocker.span }
    ensures { result ≡ held_reply_of blocker }
{
    let Span { first, last } = blocker.span;
    let len = if last == OFFMAX { 0 } else { last - first + 1 };
    let pid = match blocker.owner {
        Owner::Process(process) => i64::from(process),
        Owner::Description(_) => -1,
    };
    Reply::Held {
        mode: blocker.mode,
        start: first,
        len,
        pid,
    }
}

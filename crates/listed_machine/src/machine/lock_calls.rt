//! The lock commands of fcntl, and flock.
ghost use Rattle.std.specs.Prelude.{◌≤◌, ◌<◌, IfOk};
ghost use Rattle.fd_table.specs.TablesView.{IsInRange};
ghost use Rattle.range_core.specs.Ranges.{IsByteRange};
ghost use Rattle.wait_core.specs.WellFormed.{IsWellFormed};

use super::ListedMachine;
use super::told::{Refusal, Told};
use fd_table::{Access, Look};
use lock_book::{Blocker, Owner};
use lock_manager::{Errno, FlockOp, LkCmd, Lock, Note, Reply};
use range_core::{Kind, Mode, OFFMAX, Span, resolve};
use wait_core::{Family, Wait};
use wait_core_tests::listed::is_blocked_by_lock;

/// What a request for a lock does where another one is in the way.
#[derive(Clone, Copy, PartialEq, Eq)]
enum Manner {
    /// It only asks what is in the way.
    Asks,
    /// It is refused.
    Refused,
    /// It waits.
    Waits,
}

/// Whether a lock command is of OFD locks, and what it does where a lock is in the way.
fn parts_of(cmd: LkCmd) -> (bool, Manner) {
    match cmd {
        LkCmd::GetLk => (false, Manner::Asks),
        LkCmd::SetLk => (false, Manner::Refused),
        LkCmd::SetLkW => (false, Manner::Waits),
        LkCmd::OGetLk => (true, Manner::Asks),
        LkCmd::OSetLk => (true, Manner::Refused),
        LkCmd::OSetLkW => (true, Manner::Waits),
    }
}

impl ListedMachine {
    /// A lock command: what is wrong with it is told in the order of the descriptor, the argument, the range and the access mode.
    pub(super) fn lock_command(
        &mut self,
        p: u8,
        n: u64,
        fd: u32,
        cmd: LkCmd,
        lock: Lock,
    ) -> Result<Told, Refusal>
        requires { (1 ≤ p) × (p ≤ 64) }
    {
        let look = self.opened(p, fd)?;
        let (is_ofd, manner) = parts_of(cmd);
        if is_ofd && lock.pid != 0 || manner == Manner::Asks && lock.kind == Kind::Unlock {
            return Err(Refusal::Errno(Errno::EINVAL));
        }
        let span = resolve(lock.whence, lock.start, lock.len, look.offset, look.size)?;
        let owner = if is_ofd {
            Owner::Description(look.desc)
        } else {
            Owner::Process(p)
        };
        match mode_of(lock.kind) {
            None => self.unlock(look.file, owner, span),
            Some(mode) => {
                let wanted = Wait {
                    p,
                    n,
                    file: look.file,
                    family: Family::Bytes,
                    owner,
                    span,
                    mode,
                };
                self.lock(manner, look.access, wanted)
            },
        }
    }

    /// An unlock, which nothing is in the way of.
    fn unlock(&mut self, file: u8, owner: Owner, span: Span) -> Result<Told, Refusal>
        requires file { file < 64 }
        requires span { IsByteRange span }
    {
        self.books[usize::from(file)].set(owner, span, None)?;
        Ok(Told::OK)
    }

    /// A get or a set command for a lock, by a descriptor of this access mode, which only a set command looks at.
    fn lock(&mut self, manner: Manner, access: Access, wanted: Wait) -> Result<Told, Refusal>
        requires { IsWellFormed 64 wanted }
    {
        if manner == Manner::Asks {
            return Ok(Told::Reply(self.first_in_the_way(&wanted)));
        }
        if !permits(access, wanted.mode) {
            return Err(Refusal::Errno(Errno::EBADF));
        }
        self.request(manner, wanted)
    }

    /// flock: the old lock, where there is one, goes first, and others may be granted theirs then.
    pub(super) fn flock(
        &mut self,
        p: u8,
        n: u64,
        fd: u32,
        op: FlockOp,
        nb: bool,
        others: &mut Vec<Note>,
    ) -> Result<Told, Refusal>
        requires { (1 ≤ p) × (p ≤ 64) }
    {
        let Look { file, desc, .. } = self.opened(p, fd)?;
        let asked = mode_of_operation(op);
        let book = &mut self.books[usize::from(file)];
        if book.flock_mode(desc) == asked {
            return Ok(Told::OK);
        }
        book.flock_set(desc, None)?;
        let Some(mode) = asked else {
            return Ok(Told::OK);
        };
        self.settle(others)?;
        let wanted = Wait {
            p,
            n,
            file,
            family: Family::Whole,
            owner: Owner::Description(desc),
            span: Span::WHOLE_FILE,
            mode,
        };
        self.request(if nb { Manner::Refused } else { Manner::Waits }, wanted)
    }

    /// What the descriptor refers to: EBADF where it isn't open.
    fn opened(&self, p: u8, fd: u32) -> Result<Look, Refusal>
        ensures { IfOk result IsInRange }
    {
        self.look(p, fd).ok_or(Refusal::Errno(Errno::EBADF))
    }

    /// Sets the lock, or is refused or waits where something is in the way. A wait for a lock of the process may close no cycle.
    fn request(&mut self, manner: Manner, wanted: Wait) -> Result<Told, Refusal>
        requires { IsWellFormed 64 wanted }
    {
        let waits = manner == Manner::Waits;
        let is_blocked = if waits {
            self.waits.is_blocked(&wanted, &self.books)
        } else {
            is_blocked_by_lock(&wanted, &self.books)
        };
        if !is_blocked {
            self.set(&wanted)?;
            return Ok(Told::OK);
        }
        if !waits {
            return Err(Refusal::Errno(Errno::EAGAIN));
        }
        if self.waits.would_cycle(&wanted, &self.books) {
            return Err(Refusal::Errno(Errno::EDEADLK));
        }
        self.waits.join(wanted)?;
        Ok(Told::Waits)
    }

    /// The answer of a get command.
    fn first_in_the_way(&self, wanted: &Wait) -> Reply
        requires { IsWellFormed 64 wanted.now }
    {
        let book = &self.books[usize::from(wanted.file)];
        match book.first_blocker(wanted.owner, wanted.span, wanted.mode) {
            Some(blocker) => told_of(blocker),
            None => Reply::Free,
        }
    }
}

/// The mode that flock asks for, and none where it unlocks.
fn mode_of_operation(op: FlockOp) -> Option<Mode> {
    match op {
        FlockOp::Sh => Some(Mode::Read),
        FlockOp::Ex => Some(Mode::Write),
        FlockOp::Un => None,
    }
}

/// The mode that a lock command asks for, and none where it unlocks.
fn mode_of(kind: Kind) -> Option<Mode> {
    match kind {
        Kind::Read => Some(Mode::Read),
        Kind::Write => Some(Mode::Write),
        Kind::Unlock => None,
    }
}

/// Whether a descriptor of this access mode may set a lock of this mode.
fn permits(access: Access, mode: Mode) -> bool {
    match mode {
        Mode::Read => access != Access::W,
        Mode::Write => access != Access::R,
    }
}

/// What a get command tells of a lock in the way.
fn told_of(blocker: Blocker) -> Reply
    requires { IsByteRange blocker.span }
{
    let Blocker { owner, mode, span } = blocker;
    let len = match span.last {
        OFFMAX => 0,
        last => last - span.first + 1,
    };
    let pid = match owner {
        Owner::Process(p) => i64::from(p),
        Owner::Description(_) => -1,
    };
    Reply::Held {
        mode,
        start: span.first,
        len,
        pid,
    }
}

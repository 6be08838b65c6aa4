//! The lock commands of fcntl.
ghost use Rattle.std.specs.Prelude.{ℕ, ◌≡◌, ◌<◌, ◌≤◌, ◌+◌, ◌++◌, ◌↔◌, ◌⊎◌, None, Some, List, [], ◌∷◌, false, length, filter, slice_get, IfOk, OnOk, OnErr, IsTrue, IsFalse};
ghost use Rattle.fd_table.specs.declared.TheConstants.{FILES};
ghost use Rattle.range_core.specs.declared.Mode.{Mode};
ghost use Rattle.range_core.specs.Ranges.{Covers, IsByteRange};
ghost use Rattle.lock_book.specs.Conflicts.{ByteConflict};
ghost use Rattle.wait_core.specs.Blocking.{IsBlocked, IsBlockedByLock, IsQueued};
ghost use Rattle.wait_core.specs.Cycles.{IsTraditional, ClosesCycle};
ghost use Rattle.wait_core.specs.WellFormed.{IsWellFormed};
ghost use Rattle.lock_manager.specs.DescriptionLocks.{MayLock, MayWait};
ghost use Rattle.lock_manager.specs.WaitsKept.{HaveRoom, is_byte_wait, room_at};
ghost use Rattle.lock_manager.specs.State.{State, with_byte_mode, with_process};
ghost use Rattle.lock_manager.specs.LockWords.{lock_owner, is_get, is_ofd, may_wait};
ghost use Rattle.lock_manager.specs.LockCommands.{GetTells, RangeComesTo, CommandComesTo};
ghost use Rattle.lock_manager.specs.MachineView.{Shows, SameMachine, SameRules, Tells, machine_rules, machine_processes, machine_waits, machine_state, machine_locks};

use super::Machine;
use super::process_calls::stand;
use crate::lock_words::{held_reply, permits, wanted_mode};
use crate::replies::{answered, range_error, refused};
use crate::{Errno, LkCmd, Lock, Note, ProcState, Reply, Request};
use fd_table::{FILES, Look};
use lock_book::Owner;
use range_core::{Kind, Memory, Mode, Span, resolve};
use wait_core::{Family, Wait, stay_free_of_cycles};

impl Machine {
    /// A lock command of fcntl: EBADF for a descriptor that isn't open, then EINVAL for an argument, then EINVAL or EOVERFLOW
    /// for the range, and then what it comes to on the range (POSIX.1-2017 fcntl, ERRORS; the order is this project's
    /// choice).
    pub(super) fn lock_command(
        &mut self,
        p: u8,
        n: u64,
        fd: u32,
        cmd: LkCmd,
        lock: Lock,
    ) -> Result<Note, Memory>
        requires { machine_state self.old p ≡ ProcState.Live }
        ensures told { IfOk result (λ note. Tells self.old self.new p n (Request.Lk fd cmd lock) (note ∷ [])) }
        ensures few { IfOk result (λ note. length (machine_waits self.new) ≤ length (machine_waits self.old) + 1) }
        ensures memory { OnErr result (SameMachine self.old self.new) }
        ensures same_rules { SameRules self.old self.new }
    {
        let Some(look) = self.tables.look(p, fd) else {
            return Ok(refused(p, n, Errno::EBADF));
        };
        if cmd.refuses(lock) {
            return Ok(refused(p, n, Errno::EINVAL));
        }
        match resolve(lock.whence, lock.start, lock.len, look.offset, look.size) {
            Ok(span) => self.range_command(p, n, cmd, look, lock.kind, span),
            Err(fault) => Ok(refused(p, n, range_error(fault))),
        }
    }

    /// A lock command on a range: an unlock is never refused, and a get command asks. A lock is refused where the access
    /// mode doesn't allow it (POSIX.1-2017 fcntl, `F_GETLK`, `F_SETLK` and `EBADF`; fcntl_locking(2), `F_OFD_GETLK` and
    /// `F_OFD_SETLK`).
    #[tactic(auto, using(crate::proofs::calls::CommandLemmas::may_lock_waiting))]
    fn range_command(
        &mut self,
        p: u8,
        n: u64,
        cmd: LkCmd,
        look: Look,
        kind: Kind,
        span: Span,
    ) -> Result<Note, Memory>
        requires look { look.file < FILES }
        requires span { IsByteRange span }
        requires may_wait { MayWait self.old.tables p look.file (lock_owner cmd p look) }
        requires live { machine_state self.old p ≡ ProcState.Live }
        ensures told { IfOk result (λ note. (S : State) → Shows self.old S →
            (T : State) × RangeComesTo (machine_rules self.old) S p n cmd kind look span (record { told = note ∷ []; after = T }) × Shows self.new T) }
        ensures few { IfOk result (λ note. length (machine_waits self.new) ≤ length (machine_waits self.old) + 1) }
        ensures memory { OnErr result (SameMachine self.old self.new) }
        ensures same_rules { SameRules self.old self.new }
    {
        let owner = cmd.owner(p, look);
        let Some(mode) = wanted_mode(kind) else {
            self.unlock(look.file, owner, span)?;
            return Ok(answered(p, n, Reply::Ok));
        };
        if cmd.is_get() {
            return Ok(answered(p, n, self.get_reply(look.file, owner, span, mode)));
        }
        if !permits(look.access, mode) {
            return Ok(refused(p, n, Errno::EBADF));
        }
        let wanted = Wait {
            p,
            n,
            file: look.file,
            family: Family::Bytes,
            owner,
            span,
            mode,
        };
        self.set_command(cmd, wanted)
    }

    /// A set command: where a lock is in the way it is refused or waits, and F_SETLKW is refused where its wait would close a
    /// cycle (POSIX.1-2017 fcntl, `EAGAIN`, `EDEADLK` and `F_SETLKW`; fcntl_locking(2), `F_OFD_SETLK` and `F_OFD_SETLKW`).
    fn set_command(&mut self, cmd: LkCmd, wanted: Wait) -> Result<Note, Memory>
        requires set { is_get cmd ≡ false }
        requires family { wanted.family ≡ Family.Bytes }
        requires well_formed { IsWellFormed (machine_processes self.old) wanted }
        requires may_wait { MayWait self.old.tables wanted.p wanted.file wanted.owner }
        requires traditional { IsFalse (is_ofd cmd) ↔ IsTraditional wanted }
        requires live { machine_state self.old wanted.p ≡ ProcState.Live }
        ensures told { IfOk result (λ note. (S : State) → Shows self.old S →
            (T : State) × CommandComesTo (machine_rules self.old) S cmd wanted (record { told = note ∷ []; after = T }) × Shows self.new T) }
        ensures few { IfOk result (λ note. length (machine_waits self.new) ≤ length (machine_waits self.old) + 1) }
        ensures memory { OnErr result (SameMachine self.old self.new) }
        ensures same_rules { SameRules self.old self.new }
    {
        let Wait { p, n, .. } = wanted;
        let may_wait = cmd.may_wait();
        if !self.is_blocked(may_wait, &wanted) {
            self.change(wanted.file, wanted.owner, wanted.span, Some(wanted.mode))?;
            return Ok(answered(p, n, Reply::Ok));
        }
        if !may_wait {
            return Ok(refused(p, n, Errno::EAGAIN));
        }
        if self.would_deadlock(cmd, &wanted) {
            return Ok(refused(p, n, Errno::EDEADLK));
        }
        self.suspend(wanted)?;
        Ok(Note::Waits { p, n })
    }

    /// The reply to a get command: the first lock that blocks this one, or that none does (POSIX.1-2017 fcntl, `F_GETLK`;
    /// fcntl_locking(2), `F_OFD_GETLK`).
    fn get_reply(&self, file: u8, owner: Owner, span: Span, mode: Mode) -> Reply
        requires file { file < FILES }
        requires span { IsByteRange span }
        ensures { GetTells ((machine_locks self.now).bytes file) owner span mode (λ reply. result ≡ reply) }
    {
        match self.books[usize::from(file)].first_blocker(owner, span, mode) {
            Some(blocker) => held_reply(blocker),
            None => Reply::Free,
        }
    }

    /// Whether a lock of another owner stands in the way or, of a request that may wait, an earlier wait in the queue.
    pub(super) fn is_blocked(&self, may_wait: bool, wanted: &Wait) -> bool
        requires { IsWellFormed (machine_processes self.now) wanted.now }
        ensures { IsTrue result
            ↔ (IsBlockedByLock (machine_locks self.now) wanted.now
            ⊎ (IsTrue may_wait × IsQueued (machine_rules self.now).policy (machine_waits self.now) wanted.now)) }
    {
        wanted.is_blocked_by_lock(&self.books) || may_wait && self.waits.queued(wanted)
    }

    /// Whether a request that would wait, for a traditional lock, would close a cycle (POSIX.1-2017 fcntl, `EDEADLK`).
    fn would_deadlock(&self, cmd: LkCmd, wanted: &Wait) -> bool
        requires well_formed { IsWellFormed (machine_processes self.now) wanted.now }
        requires traditional { IsFalse (is_ofd cmd) ↔ IsTraditional wanted.now }
        ensures { IsTrue result
            ↔ (IsFalse (is_ofd cmd) × ClosesCycle (machine_rules self.now).policy (machine_locks self.now) (machine_waits self.now) wanted.now) }
    {
        !cmd.is_ofd() && self.waits.would_cycle(wanted, &self.books)
    }

    /// The owner has no lock on the range from now on. Where a process had none there, nothing changes, and nobody is looked for who
    /// might be free (POSIX.1-2017 fcntl, `F_UNLCK`).
    fn unlock(&mut self, file: u8, owner: Owner, span: Span) -> Result<(), Memory>
        requires file { file < FILES }
        requires span { IsByteRange span }
        requires owner { MayLock self.old.tables file owner }
        requires live { (p : ℕ) → owner ≡ Owner.Process p → machine_state self.old p ≡ ProcState.Live }
        ensures ok { OnOk result ((S : State) → Shows self.old S → Shows self.new (with_byte_mode S file owner span None)) }
        ensures memory { OnErr result (SameMachine self.old self.new) }
        ensures same_rules { SameRules self.old self.new }
        ensures waits { machine_waits self.new ≡ machine_waits self.old }
    {
        if self.holds_some(file, owner, span) {
            self.change(file, owner, span, None)
        } else {
            Ok(())
        }
    }

    /// Whether the owner has a lock on some byte of the range.
    fn holds_some(&self, file: u8, owner: Owner, span: Span) -> bool
        requires file { file < FILES }
        requires span { IsByteRange span }
        ensures { IsFalse result → (byte : ℕ) → Covers span byte → (machine_locks self.now).bytes file owner byte ≡ None }
    {
        match self.books[usize::from(file)].list(owner) {
            Some(list) => list.first_hit(span, Mode::Write).is_some(),
            None => false,
        }
    }

    /// The owner has this mode on the range from now on, or none.
    fn change(
        &mut self,
        file: u8,
        owner: Owner,
        span: Span,
        mode: Option<Mode>,
    ) -> Result<(), Memory>
        requires file { file < FILES }
        requires span { IsByteRange span }
        requires owner { MayLock self.old.tables file owner }
        requires live { (p : ℕ) → owner ≡ Owner.Process p → machine_state self.old p ≡ ProcState.Live }
        requires free { (m : Mode) → mode ≡ Some m → ¬ ByteConflict ((machine_locks self.old).bytes file) owner span m }
        ensures ok { OnOk result ((S : State) → Shows self.old S → Shows self.new (with_byte_mode S file owner span mode)) }
        ensures memory { OnErr result (SameMachine self.old self.new) }
        ensures same_rules { SameRules self.old self.new }
        ensures waits { machine_waits self.new ≡ machine_waits self.old }
    {
        // A law, and nothing to run.
        stay_free_of_cycles();
        let done = self.books[usize::from(file)].set(owner, span, mode);
        self.waits.refresh_owner(file, owner, span, &self.books);
        done
    }

    /// The process waits for what blocks it, last in order of arrival. The room for its lock is taken here, so that its grant needs no memory
    /// (POSIX.1-2017 fcntl, `F_SETLKW`; fcntl_locking(2), `F_OFD_SETLKW`).
    fn suspend(&mut self, wanted: Wait) -> Result<(), Memory>
        requires family { wanted.family ≡ Family.Bytes }
        requires well_formed { IsWellFormed (machine_processes self.old) wanted }
        requires may_wait { MayWait self.old.tables wanted.p wanted.file wanted.owner }
        requires live { machine_state self.old wanted.p ≡ ProcState.Live }
        requires blocked { IsBlocked (machine_rules self.old).policy (machine_locks self.old) (machine_waits self.old) wanted }
        requires free_of_cycles { IsTraditional wanted
            → ¬ ClosesCycle (machine_rules self.old).policy (machine_locks self.old) (machine_waits self.old) wanted }
        ensures ok { OnOk result ((S : State) → Shows self.old S →
            Shows self.new (with_process (record S { waits = S.waits ++ wanted ∷ [] }) wanted.p ProcState.Waiting)) }
        ensures one { OnOk result (machine_waits self.new ≡ machine_waits self.old ++ wanted ∷ []) }
        ensures memory { OnErr result (SameMachine self.old self.new) }
        ensures same_rules { SameRules self.old self.new }
    {
        let waits = self.pending(wanted.file, wanted.owner);
        self.keep_room(wanted.file, wanted.owner, waits + 1)?;
        self.join(wanted);
        Ok(())
    }

    /// Keeps room for so many sets of byte locks by the owner.
    fn keep_room(&mut self, file: u8, owner: Owner, sets: usize) -> Result<(), Memory>
        requires file { file < FILES }
        ensures room { OnOk result (sets ≤ room_at (slice_get self.new.books.items file) owner) }
        ensures same { SameMachine self.old self.new }
        ensures locks { machine_locks self.new ≡ machine_locks self.old }
        ensures tables { self.new.tables ≡ self.old.tables }
    {
        self.books[usize::from(file)].reserve(owner, sets)
    }

    /// The process waits for what blocks it, last in order of arrival, for a lock for which there is room. It takes no memory
    /// (POSIX.1-2017 fcntl, `F_SETLKW`; fcntl_locking(2), `F_OFD_SETLKW`; flock(2)).
    pub(super) fn join(&mut self, wanted: Wait)
        requires well_formed { IsWellFormed (machine_processes self.old) wanted }
        requires may_wait { MayWait self.old.tables wanted.p wanted.file wanted.owner }
        requires live { machine_state self.old wanted.p ≡ ProcState.Live }
        requires room { HaveRoom self.old.books.items (machine_waits self.old ++ wanted ∷ []) }
        requires blocked { IsBlocked (machine_rules self.old).policy (machine_locks self.old) (machine_waits self.old) wanted }
        requires free_of_cycles { IsTraditional wanted
            → ¬ ClosesCycle (machine_rules self.old).policy (machine_locks self.old) (machine_waits self.old) wanted }
        ensures shows { (S : State) → Shows self.old S →
            Shows self.new (with_process (record S { waits = S.waits ++ wanted ∷ [] }) wanted.p ProcState.Waiting) }
        ensures one { machine_waits self.new ≡ machine_waits self.old ++ wanted ∷ [] }
        ensures same_rules { SameRules self.old self.new }
    {
        // A law, and nothing to run.
        stay_free_of_cycles();
        self.waits.join_blocked(wanted, &self.books);
        stand(&mut self.states, wanted.p, ProcState::Waiting);
    }

    /// How many waits there are for a byte lock of the owner on the file; while a process lives, fewer than processes.
    fn pending(&self, file: u8, owner: Owner) -> usize
        ensures count { result ≡ length (filter (is_byte_wait file owner) (machine_waits self.now)) }
        ensures few { (p : ℕ) → machine_state self.now p ≡ ProcState.Live → result < machine_processes self.now }
    {
        count_for_bytes(self.waits.list(), file, owner)
    }
}

/// How many of the waits are for a byte lock of this owner on this file.
fn count_for_bytes(waits: &[Wait], file: u8, owner: Owner) -> usize
    ensures { result ≡ length (filter (is_byte_wait file owner) waits.now) }
{
    waits
        .iter()
        .filter(|wait| is_for_bytes(wait, file, owner))
        .count()
}

/// Whether the wait is for a byte lock of this owner on this file.
fn is_for_bytes(wait: &Wait, file: u8, owner: Owner) -> bool
    ensures { result ≡ is_byte_wait file owner wait.now }
{
    wait.family == Family::Bytes && wait.file == file && wait.owner == owner
}

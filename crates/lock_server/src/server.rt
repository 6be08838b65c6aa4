//! The lock server: each call is a change of the table, and then a settling of the file that changed.
ghost use Rattle.std.specs.Prelude.{◌≡◌};
ghost use Rattle.lock_server.specs.Calls.{byte_request as byte_request_of, flock_request as flock_request_of};
ghost use Rattle.lock_server.specs.HoldingsView.{AreKept};
ghost use Rattle.lock_server.specs.OpeningsView.{through_at};
ghost use Rattle.lock_server.specs.Safety.{IsSafe};
ghost use Rattle.lock_server.specs.TableView.{AreSwept, table_state};

mod clients;
mod export;
mod forgetting;
mod import;
mod listing;

use crate::freed::Freed;
use crate::holdings::Holdings;
use crate::openings::Openings;
use crate::requests::{NO_TICKET, byte_request, flock_request};
use crate::table::Table;
use crate::{
    Answer, Family, Lock, Memory, Mode, Pending, Rules, Span, WaitAnswer, WaitFault, closing,
    converting,
};
use std::alloc::Global;

/// The advisory locks of a file server: on files that are numbered by 64 bits (inodes), of owners that are (FUSE's `lock_owner`),
/// with waits that are named by tickets. Files and owners come and go by need; a file without a lock and a wait takes no memory.
///
/// A call that takes no memory may grant waits for bytes: on a file with many owners such a grant asks for room in the index of their
/// locks, and does without where that is refused.
#[derive(Drop)]
pub struct LockServer {
    table: Table,
    openings: Openings,
    holdings: Holdings,
    rules: Rules,
    ghost safe: { ∥ IsSafe rules.policy (table_state table) ∥₁ },
    ghost swept: { AreSwept table },
    ghost kept: { AreKept holdings (table_state table) (through_at openings) },
}

#[tactic(auto, unfolding(crate::specs::ServerView::state_of, crate::specs::ServerView::rules_of, crate::specs::ServerView::through_of, crate::specs::ServerView::KeepsFile))]
impl LockServer {
    ghost use Rattle.std.specs.Prelude.{◌↔◌, ℕ, IfOk, IfSome, IfNone, IsOk, IsTrue, OnErr, OnOk, Some, None, false};
    ghost use Rattle.range_core.specs.Ranges.{IsByteRange, SplitsRun};
    ghost use Rattle.lock_server.specs.Calls.{CancelComesTo, FetchComesTo, FlockOpComesTo, FlockWaitComesTo, IsRefused};
    ghost use Rattle.lock_server.specs.Calls.{IsSetHeldBack, Releases, SetComesTo, WaitComesTo};
    ghost use Rattle.lock_server.specs.Closing.{Closes};
    ghost use Rattle.lock_server.specs.Files.{SameFile, untouched};
    ghost use Rattle.lock_server.specs.Locks.{IsFirstLock, IsInTheWay};
    ghost use Rattle.lock_server.specs.Openings.{ForgetsThrough, SameOpenings, SeesOn};
    ghost use Rattle.lock_server.specs.ServerView.{KeepsFile, rules_of, state_of, through_of};
    ghost use Rattle.lock_server.specs.States.{IsTaken, opening, SameState};

    /// No lock and no wait. It takes no memory.
    pub fn new(alloc: Global, rules: Rules) -> LockServer
        ensures opening { SameState opening (state_of result) }
        ensures rules { rules_of result ≡ rules }
        ensures openings { (file owner : ℕ) → through_of result file owner ≡ None }
    {
        LockServer {
            table: Table::new(alloc),
            openings: Openings::new(alloc),
            holdings: Holdings::new(alloc),
            rules,
        }
    }

    /// The first lock of another owner that would block a lock of this mode: at the least byte of the span that is blocked, of the
    /// least owner that blocks there, its largest range of one mode (POSIX.1-2017 fcntl, `F_GETLK`; FUSE, getlk). It takes no
    /// memory.
    pub fn get(&self, file: u64, owner: u64, span: Span, mode: Mode) -> Option<Lock>
        requires { IsByteRange span }
        ensures some { IfSome result (IsFirstLock ((state_of self.now).files file) owner span mode) }
        ensures none { IfNone result (¬ IsInTheWay ((state_of self.now).files file) owner span mode) }
    {
        self.table.blocker(file, owner, span, mode)
    }

    /// Sets the owner's mode on just the bytes of the span, or removes it; `Blocked` where another owner's lock is in the way
    /// (POSIX.1-2017 fcntl, `F_SETLK`; FUSE, setlk without sleep).
    ///
    /// `Memory` leaves everything as it was. It never comes of an unlock, but where that lies inside one lock of one mode and splits it.
    pub fn set(
        &mut self,
        file: u64,
        owner: u64,
        span: Span,
        mode: Option<Mode>,
    ) -> Result<Answer, Memory>
        requires { IsByteRange span }
        ensures ok { IfOk result (λ answer. SetComesTo (rules_of self.old).policy (state_of self.old) file owner span mode answer (state_of self.new)) }
        ensures unlock { mode ≡ None → (¬ SplitsRun (((state_of self.old).files file).bytes owner) span) → IsOk result }
        ensures gone { result ≡ Ok Answer.Done → SameFile ((state_of self.new).files file) untouched → ¬ KeepsFile self.new file }
        ensures err { OnErr result (SameState (state_of self.old) (state_of self.new)) }
        ensures rules { rules_of self.new ≡ rules_of self.old }
        ensures openings { SameOpenings (through_of self.old) (through_of self.new) }
    {
        if self.is_held_back(file, owner, span, mode) {
            return Ok(Answer::Blocked);
        }
        let policy = self.rules.policy;
        let freed = self.table.freed_by_set(policy, file, owner, span, mode);
        self.holdings.set(&mut self.table, file, owner, span, mode)?;
        self.table.settle_among(policy, file, freed);
        self.table.sweep(file);
        // Behind a lock the owner has something there.
        let unlocked = mode.is_none().then_some(owner);
        self.holdings
            .tidy_of(&self.table, &self.openings, unlocked, file);
        Ok(Answer::Done)
    }

    /// The same as `set` of a mode where nothing blocks the request. Where something does, it waits, and its ticket comes from
    /// [`LockServer::next_grant`] once it is granted; or, where it is detected and its wait would close a cycle, it is `Deadlock`
    /// (POSIX.1-2017 fcntl, `F_SETLKW`, `EDEADLK`; FUSE, setlk with sleep).
    ///
    /// `TicketTaken` comes exactly where the ticket names a wait or a grant that wasn't fetched. It and `Memory` leave everything as
    /// it was.
    pub fn wait(
        &mut self,
        ticket: u64,
        file: u64,
        owner: u64,
        span: Span,
        mode: Mode,
        detect: bool,
    ) -> Result<WaitAnswer, WaitFault>
        requires { IsByteRange span }
        ensures ok { IfOk result (λ answer. WaitComesTo (rules_of self.old).policy (state_of self.old) file
            (byte_request_of ticket owner span mode detect) answer (state_of self.new)) }
        ensures taken { (result ≡ Err WaitFault.TicketTaken) ↔ IsTaken (state_of self.old) ticket }
        ensures err { OnErr result (SameState (state_of self.old) (state_of self.new)) }
        ensures rules { rules_of self.new ≡ rules_of self.old }
        ensures openings { SameOpenings (through_of self.old) (through_of self.new) }
    {
        if self.table.is_taken(ticket) {
            return Err(WaitFault::TicketTaken);
        }
        let policy = self.rules.policy;
        let wanted = byte_request(ticket, owner, span, mode, detect);
        if !self.table.blocks(policy, file, &wanted) {
            let freed = self
                .table
                .freed_by_set(policy, file, owner, span, Some(mode));
            self.holdings
                .set(&mut self.table, file, owner, span, Some(mode))?;
            self.table.settle_among(policy, file, freed);
            return Ok(WaitAnswer::Done);
        }
        if self.closes_cycle(file, &wanted)? {
            return Ok(WaitAnswer::Deadlock);
        }
        self.holdings
            .reserve(&mut self.table, &self.openings, file, &wanted)?;
        self.table.join(file, wanted);
        Ok(WaitAnswer::Waits)
    }

    /// Ends the wait with the ticket; false where there is none, be it granted or unknown (POSIX.1-2017 fcntl, `EINTR`; FUSE,
    /// interrupt). It takes no memory.
    pub fn cancel(&mut self, ticket: u64) -> bool
        ensures comes_to { CancelComesTo (rules_of self.old).policy (state_of self.old) ticket result (state_of self.new) }
        ensures rules { rules_of self.new ≡ rules_of self.old }
        ensures openings { SameOpenings (through_of self.old) (through_of self.new) }
    {
        match self.table.cancel(ticket) {
            Some((file, wait)) => {
                let freed = Freed::by_leaving(self.rules.policy, &wait);
                self.table.settle_among(self.rules.policy, file, freed);
                self.table.sweep(file);
                self.holdings
                    .tidy(&self.table, &self.openings, wait.owner, file);
                true
            }
            None => false,
        }
    }

    /// The owner is seen through the open file of the file, and no more through another one, until it is flushed or forgotten: for
    /// [`LockServer::release`]. To be called with each request for a byte lock (FUSE, `fh` of setlk).
    ///
    /// `Memory` leaves everything as it was.
    pub fn note(&mut self, file: u64, owner: u64, open_file: u64) -> Result<(), Memory>
        ensures ok { OnOk result (SeesOn (through_of self.old) (through_of self.new) file owner (Some open_file)) }
        ensures err { OnErr result (SameOpenings (through_of self.old) (through_of self.new)) }
        ensures same { SameState (state_of self.old) (state_of self.new) }
        ensures rules { rules_of self.new ≡ rules_of self.old }
    {
        self.holdings.enter(owner, file)?;
        match self.openings.note(file, owner, open_file) {
            Ok(()) => Ok(()),
            Err(memory) => {
                self.holdings.tidy(&self.table, &self.openings, owner, file);
                Err(memory)
            }
        }
    }

    /// Removes all byte locks of the owner on the file; its waits stay (POSIX.1-2017 close; FUSE, flush). It takes no memory.
    pub fn flush(&mut self, file: u64, owner: u64)
        ensures flushes { Releases (rules_of self.old).policy (state_of self.old) file Family.Bytes owner (state_of self.new) }
        ensures gone { SameFile ((state_of self.new).files file) untouched → ¬ KeepsFile self.new file }
        ensures rules { rules_of self.new ≡ rules_of self.old }
        ensures openings { SeesOn (through_of self.old) (through_of self.new) file owner None }
    {
        let freed = self.table.freed_by_release(file, owner);
        self.table.release(file, owner);
        self.table.settle_among(self.rules.policy, file, freed);
        self.table.sweep(file);
        self.openings.forget(file, owner);
        self.holdings.tidy(&self.table, &self.openings, owner, file);
    }

    /// Sets or removes the flock lock of the owner on the file; `Blocked` where another owner's lock is in the way. A conversion, to
    /// another mode, loses the old lock where it is refused; whether waits come before it is said by the rules' [`Conversion`]
    /// (flock(2), `LOCK_NB`; FUSE, flock).
    ///
    /// `Memory`, which never comes of an unlock, leaves everything as it was.
    pub fn flock(&mut self, file: u64, owner: u64, mode: Option<Mode>) -> Result<Answer, Memory>
        ensures ok { IfOk result (λ answer. FlockOpComesTo (rules_of self.old) (state_of self.old) file owner mode answer (state_of self.new)) }
        ensures unlock { mode ≡ None → IsOk result }
        ensures gone { mode ≡ None → SameFile ((state_of self.new).files file) untouched → ¬ KeepsFile self.new file }
        ensures err { OnErr result (SameState (state_of self.old) (state_of self.new)) }
        ensures rules { rules_of self.new ≡ rules_of self.old }
        ensures openings { SameOpenings (through_of self.old) (through_of self.new) }
    {
        let Some(mode) = mode else {
            self.flock_release(file, owner);
            return Ok(Answer::Done);
        };
        let held = self.table.flock_mode(file, owner);
        if held == Some(mode) {
            return Ok(Answer::Done);
        }
        self.holdings
            .place_flock(&mut self.table, &self.openings, file, owner)?;
        let answer = converting::flock(&mut self.table, self.rules, file, owner, held, mode);
        self.holdings.tidy(&self.table, &self.openings, owner, file);
        Ok(answer)
    }

    /// The same as `flock` of a mode, but that the request waits where it is blocked; no deadlock is looked for (flock(2)).
    ///
    /// `TicketTaken` comes exactly where the ticket names a wait or a grant that wasn't fetched. It and `Memory` leave everything as
    /// it was.
    pub fn flock_wait(
        &mut self,
        ticket: u64,
        file: u64,
        owner: u64,
        mode: Mode,
    ) -> Result<WaitAnswer, WaitFault>
        ensures ok { IfOk result (λ answer. FlockWaitComesTo (rules_of self.old) (state_of self.old) file
            (flock_request_of ticket owner mode) (((state_of self.old).files file).flocks owner) answer (state_of self.new)) }
        ensures taken { (result ≡ Err WaitFault.TicketTaken) ↔ IsTaken (state_of self.old) ticket }
        ensures err { OnErr result (SameState (state_of self.old) (state_of self.new)) }
        ensures rules { rules_of self.new ≡ rules_of self.old }
        ensures openings { SameOpenings (through_of self.old) (through_of self.new) }
    {
        if self.table.is_taken(ticket) {
            return Err(WaitFault::TicketTaken);
        }
        let held = self.table.flock_mode(file, owner);
        if held == Some(mode) {
            return Ok(WaitAnswer::Done);
        }
        let wanted = flock_request(ticket, owner, mode);
        self.holdings
            .reserve(&mut self.table, &self.openings, file, &wanted)?;
        Ok(converting::flock_wait(&mut self.table, self.rules, file, held, wanted))
    }

    /// Removes the flock lock of the owner on the file; its waits stay (flock(2), `LOCK_UN` and last close; FUSE, release with
    /// `FUSE_RELEASE_FLOCK_UNLOCK`). It takes no memory.
    pub fn flock_release(&mut self, file: u64, owner: u64)
        ensures releases { Releases (rules_of self.old).policy (state_of self.old) file Family.Whole owner (state_of self.new) }
        ensures gone { SameFile ((state_of self.new).files file) untouched → ¬ KeepsFile self.new file }
        ensures rules { rules_of self.new ≡ rules_of self.old }
        ensures openings { SameOpenings (through_of self.old) (through_of self.new) }
    {
        let freed = self.table.freed_by_flock_release(file, owner);
        self.table.release_flock(file, owner);
        self.table.settle_among(self.rules.policy, file, freed);
        self.table.sweep(file);
        self.holdings.tidy(&self.table, &self.openings, owner, file);
    }

    /// Removes all byte locks on the file of the owners that were last seen through the open file ([`LockServer::note`]) and not
    /// flushed since, and the flock lock of the flock owner, where one is given; waits stay (fcntl_locking(2), open file description
    /// locks; flock(2); FUSE, release, which names no owner of byte locks). It takes no memory, and looks at each owner that was seen
    /// on the file.
    pub fn release(&mut self, file: u64, open_file: u64, flock_owner: Option<u64>)
        ensures closes { Closes (rules_of self.old).policy (state_of self.old) (through_of self.old) file open_file flock_owner (state_of self.new) }
        ensures gone { SameFile ((state_of self.new).files file) untouched → ¬ KeepsFile self.new file }
        ensures rules { rules_of self.new ≡ rules_of self.old }
        ensures openings { ForgetsThrough (through_of self.old) (through_of self.new) file open_file }
    {
        self.table.release_flock_of(file, flock_owner);
        closing::close(
            &mut self.table,
            &mut self.openings,
            &mut self.holdings,
            file,
            open_file,
        );
        self.table.settle(self.rules.policy, file);
        self.table.sweep(file);
        self.holdings
            .tidy_of(&self.table, &self.openings, flock_owner, file);
    }

    /// The ticket of the oldest grant that wasn't fetched, which is told once; `None` where there is none. It takes no memory.
    pub fn next_grant(&mut self) -> Option<u64>
        ensures fetched { FetchComesTo (state_of self.old) result (state_of self.new) }
        ensures rules { rules_of self.new ≡ rules_of self.old }
        ensures openings { SameOpenings (through_of self.old) (through_of self.new) }
    {
        self.table.next_grant()
    }

    /// Whether a lock of another owner is in the way of a set; of an unlock none ever is.
    fn is_held_back(&self, file: u64, owner: u64, span: Span, mode: Option<Mode>) -> bool
        requires { IsByteRange span }
        ensures { IsTrue result ↔ IsSetHeldBack ((state_of self.now).files file) owner span mode }
    {
        match mode {
            Some(mode) => self
                .table
                .holds_back(file, &byte_request(NO_TICKET, owner, span, mode, false)),
            None => false,
        }
    }

    /// Whether the request is detected and would close a cycle, were it to wait.
    fn closes_cycle(&self, file: u64, wanted: &Pending) -> Result<bool, Memory>
        requires { IsByteRange wanted.now.span }
        ensures { IfOk result (λ cycle. IsTrue cycle ↔ IsRefused (rules_of self.now).policy (state_of self.now) file wanted.now) }
    {
        if wanted.detect {
            self.table.would_cycle(self.rules.policy, file, wanted)
        } else {
            Ok(false)
        }
    }
}

//! A lock manager with a mailbox for each process, and the journal of what was taken.
ghost use Rattle.std.specs.Prelude.{ℕ, ◌≡◌, ◌+◌, ◌<◌, ◌≤◌, ◌↔◌, IfOk, OnErr, IfNone, Err, Some, length};
ghost use Rattle.fd_table.specs.Descriptors.{process_limit};
ghost use Rattle.lock_manager.specs.ManagerView.{processes_of, state_at};
ghost use Rattle.session_core.specs.Mail.{events_of, answers_to, reply_to};
ghost use Rattle.session_core.specs.SequencerView.{HasTold, HasTold-prop, manager_in, sent_by};
ghost use Rattle.session_core.specs.Draining.{IsDrained, next_untaken};

use crate::entry::find_reply;
use crate::sequencer::Sequencer;
use crate::{Entry, N_MAX};
use lock_manager::{Manager, ProcState, Reply, Request, Rules};
use range_core::Memory;
use std::alloc::Global;
use std::cmp::Ordering;
use thiserror::Error;

/// Why a request can't arrive.
#[derive(Clone, Copy, Debug, PartialEq, Eq, Error)]
pub enum ArriveFault {
    /// The process has sent [`N_MAX`] requests.
    #[error("the process has sent as many requests as it may")]
    Full,
    /// A growth was refused.
    #[error(transparent)]
    Memory(Memory),
}

impl From<Memory> for ArriveFault {
    ghost use Rattle.session_core.specs.declared.session.ArriveFault.{ArriveFault};

    ghost from_gives = { λ memory fault. fault ≡ ArriveFault.Memory memory };

    fn from(memory: Memory) -> ArriveFault {
        ArriveFault::Memory(memory)
    }
}

/// A lock manager with the mail of its processes, and the journal of what was taken (this project's choice). Neither is ever cut,
/// so it grows with each request that comes.
#[derive(Drop)]
pub struct Session {
    sequencer: Sequencer,
    journal: Vec<Entry>,
    ghost told: { HasTold sequencer journal.items } by { HasTold-prop sequencer journal.items },
}

#[tactic(auto, unfolding(crate::specs::SessionView::manager_of, crate::specs::SessionView::events_in, crate::specs::SessionView::sent_of))]
impl Session {
    ghost use Rattle.session_core.specs.SessionView.{manager_of, events_in, sent_of, IsEmptySession, SameSession, Arrives, TakesRequest, TakesNext, SessionHolds, sent_with};

    /// No mail and no entry, with `processes` processes numbered from 1, at most [`fd_table::Limits::processes`].
    pub fn new(alloc: Global, processes: u8, rules: Rules) -> Result<Session, Memory>
        requires { (1 ≤ processes) × (processes ≤ process_limit rules.limits) }
        ensures empty { IfOk result (λ session. IsEmptySession rules processes session) }
        ensures holds { IfOk result (λ session. SessionHolds session) }
    {
        let sequencer = Sequencer::new(alloc, processes, rules)?;
        Ok(Session {
            sequencer,
            journal: Vec::new(alloc),
        })
    }

    /// What this sequencer took, and goes on to take.
    pub(crate) fn of(sequencer: Sequencer, journal: Vec<Entry>) -> Session
        requires { HasTold sequencer journal.items }
        ensures sequencer { result.sequencer ≡ sequencer }
        ensures journal { result.journal ≡ journal }
    {
        Session { sequencer, journal }
    }

    /// The request comes to the mailbox of its process, and gets its number among those of the process, from 1.
    ///
    /// `Full` where the process has sent [`N_MAX`] requests, or `Memory`; either leaves everything as it was.
    pub fn arrive(&mut self, p: u8, request: Request) -> Result<u64, ArriveFault>
        requires { (1 ≤ p) × (p ≤ processes_of (manager_of self.old)) }
        ensures ok { IfOk result (λ n. Arrives self.old self.new p request n) }
        ensures full { (result ≡ Err ArriveFault.Full) ↔ (length (sent_of self.old p) ≡ N_MAX) }
        ensures err { OnErr result (SameSession self.old self.new) }
        ensures holds { SessionHolds self.new }
    {
        self.sequencer.arrive(p, request)
    }

    /// Takes the next request of the able process of least number that has mail, and answers its place in the journal,
    /// from 1; `None` where no able process has mail. `Memory` leaves everything as it was.
    pub fn take_next(&mut self) -> Result<Option<u64>, Memory>
        ensures taken { IfOk result (TakesNext self.old self.new) }
        ensures drained { IfOk result (λ place. IfNone place
            (IsDrained (state_at (manager_of self.new)) (sent_of self.new) (events_in self.new))) }
        ensures memory { OnErr result (SameSession self.old self.new) }
        ensures holds { SessionHolds self.new }
    {
        match self.sequencer.next_mail() {
            Some((p, request)) => self.take(p, request).map(Some),
            None => Ok(None),
        }
    }

    /// The request comes to the mailbox of its process, which is able and has no mail, and is taken at once: answers its place in
    /// the journal, from 1. `Memory` leaves everything as it was.
    pub fn take_one(&mut self, p: u8, request: Request) -> Result<u64, Memory>
        requires process { (1 ≤ p) × (p ≤ processes_of (manager_of self.old)) }
        requires able { state_at (manager_of self.old) p ≡ ProcState.Live }
        requires empty { length (sent_of self.old p) ≡ length (events_of p (events_in self.old)) }
        requires room { length (sent_of self.old p) < N_MAX }
        ensures taken { IfOk result (TakesRequest self.old self.new p request (sent_with self.old p request)) }
        ensures memory { OnErr result (SameSession self.old self.new) }
        ensures holds { SessionHolds self.new }
    {
        match self.arrive(p, request) {
            Ok(_) => {}
            Err(ArriveFault::Memory(memory)) => return Err(memory),
            // No mailbox is full that has sent fewer than it may.
            Err(ArriveFault::Full) => unreachable!(),
        }
        let taken = self.take(p, request);
        if taken.is_err() {
            self.sequencer.withdraw(p);
        }
        taken
    }

    /// All that was taken, in order.
    pub fn journal(&self) -> &[Entry]
        ensures events { result.now ≡ events_in self.now }
        ensures holds { SessionHolds self.now }
    {
        &self.journal
    }

    /// The sequencer that took all that stands in the journal.
    pub fn sequencer(&self) -> &Sequencer
        ensures told { HasTold result.now (events_in self.now) }
        ensures manager { manager_in result.now ≡ manager_of self.now }
        ensures sent { (p : ℕ) → sent_by result.now (events_in self.now) p ≡ sent_of self.now p }
    {
        &self.sequencer
    }

    /// The manager, whose state is the journal's replay.
    pub fn manager(&self) -> &Manager
        ensures { result.now ≡ manager_of self.now }
    {
        self.sequencer.manager()
    }

    /// How many requests the process has sent: 0 where there is no such process.
    pub fn sent(&self, p: u8) -> u64
        ensures { result ≡ length (sent_of self.now p) }
    {
        self.sequencer.sent(p)
    }

    /// How many requests of the process were taken: 0 where there is no such process.
    pub fn taken(&self, p: u8) -> u64
        ensures { result ≡ length (events_of p (events_in self.now)) }
    {
        self.sequencer.taken(p)
    }

    /// How many requests of the process were answered: 0 where there is no such process.
    pub fn answered(&self, p: u8) -> u64
        ensures { result ≡ length (answers_to p (events_in self.now)) }
    {
        self.sequencer.answered(p)
    }

    /// The answer to request number `n` of the process, if there is such a process and it was answered.
    pub fn answer_of(&self, p: u8, n: u64) -> Option<Reply>
        ensures { result ≡ reply_to p n (events_in self.now) }
    {
        let last = self.sequencer.last_answer(p)?;
        match n.cmp(&last.n) {
            Ordering::Less => self.find_answer(p, n),
            Ordering::Equal => Some(last.reply),
            Ordering::Greater => None,
        }
    }

    /// The answer to request number `n` of the process, looked for in the whole journal.
    fn find_answer(&self, p: u8, n: u64) -> Option<Reply>
        ensures { result ≡ reply_to p n (events_in self.now) }
    {
        for entry in &self.journal {
            if let Some(reply) = find_reply(entry.notes.as_slice(), p, n) {
                return Some(reply);
            }
        }
        None
    }

    /// Takes this request, the next one of the process, and answers its place in the journal.
    fn take(&mut self, p: u8, request: Request) -> Result<u64, Memory>
        requires process { (1 ≤ p) × (p ≤ processes_of (manager_of self.old)) }
        requires able { state_at (manager_of self.old) p ≡ ProcState.Live }
        requires next { next_untaken (sent_of self.old) (events_in self.old) p ≡ Some request }
        ensures taken { IfOk result (TakesRequest self.old self.new p request (sent_of self.old)) }
        ensures memory { OnErr result (SameSession self.old self.new) }
    {
        // The journal's place is there before the request is taken, so that nothing can fail afterwards.
        self.journal.reserve(1)?;
        let entry = self.sequencer.take(p, request)?;
        self.journal.push(entry).unwrap();
        Ok(self.journal.len() as u64)
    }
}

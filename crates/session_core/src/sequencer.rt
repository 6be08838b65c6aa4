//! The mail of the processes, and what is taken of it, one request after another.
ghost use Rattle.std.specs.Prelude.{ℕ, ◌≡◌, ◌≢◌, ◌+◌, ◌-◌, ◌<◌, ◌≤◌, ◌==◌, ◌↔◌, List, [], ◌∷◌, ◌++◌, All, Err, IfOk, OnOk, OnErr, IfSome, IfNone, IsNone, IsSome, None, Some, if◌then◌else◌, length, option_copied, take, drop};
ghost use Rattle.fd_table.specs.Descriptors.{process_limit};
ghost use Rattle.lock_manager.specs.ManagerView.{processes_of, state_at};
ghost use Rattle.session_core.specs.declared.TheConstants.{N_MAX};
ghost use Rattle.session_core.specs.Event.{Event};
ghost use Rattle.session_core.specs.Mail.{events_of, answers_to};
ghost use Rattle.session_core.specs.Mailboxes.{IsMailInside, IsEmptyMailbox, mailbox_of};
ghost use Rattle.session_core.specs.LastAnswers.{latest};
ghost use Rattle.session_core.specs.Told.{IsServed};

use crate::answers::{Answer, LastAnswers};
use crate::mailbox::Mailbox;
use crate::{ArriveFault, Entry, N_MAX, Notes, RunAllFault};
use lock_manager::{Manager, Note, ProcState, Request, Rules};
use range_core::Memory;
use std::alloc::Global;
use wait_core::ProcessSet;

/// A lock manager with the mail of its processes, which hands out what it takes and keeps none of it (this project's choice): its memory is
/// that of the lock manager's state, of the mail that wasn't taken, of a count and an answer for each process, and of room for the notes of
/// an event. A [`crate::Session`] keeps the journal too.
#[derive(Drop)]
pub struct Sequencer {
    manager: Manager,
    /// By process, from process 1 on.
    mailboxes: Vec<Mailbox>,
    /// Among these are the processes that have sent what wasn't taken.
    senders: ProcessSet,
    answers: LastAnswers,
    /// Room for the notes of the next event, so that most events take no memory for theirs.
    notes: Vec<Note>,
    ghost few: { processes_of manager ≤ 64 },
    ghost one_each: { length mailboxes.items ≡ processes_of manager },
    ghost inside: { IsMailInside senders mailboxes.items },
}

#[tactic(auto, unfolding(crate::specs::SequencerView::manager_in, crate::specs::SequencerView::sent_by, crate::specs::SequencerView::waiting_at, crate::specs::SequencerView::HasTold))]
impl Sequencer {
    ghost use Rattle.session_core.specs.SequencerView.{manager_in, sent_by, waiting_at, first_waiting, HasTold, HasNoMail, HasNoneWaitingBelow, SameSequencer, Tells, TellsOf, sent_with};
    ghost use Rattle.session_core.specs.Deliveries.{HasRun};

    /// Nothing was sent or taken, with `processes` processes numbered from 1, at most [`fd_table::Limits::processes`].
    pub fn new(alloc: Global, processes: u8, rules: Rules) -> Result<Sequencer, Memory>
        requires { (1 ≤ processes) × (processes ≤ process_limit rules.limits) }
        ensures { IfOk result (λ sequencer. HasRun rules processes [] sequencer []) }
    {
        let manager = Manager::new(alloc, processes, rules)?;
        let mailboxes = empty_mailboxes(alloc, processes)?;
        let answers = LastAnswers::new(alloc, processes)?;
        Ok(Sequencer {
            manager,
            mailboxes,
            senders: ProcessSet::empty(),
            answers,
            notes: Vec::new(alloc),
        })
    }

    /// The request comes to the mailbox of its process, and gets its number among those of the process, from 1.
    pub(crate) fn arrive(&mut self, p: u8, request: Request) -> Result<u64, ArriveFault>
        requires { (1 ≤ p) × (p ≤ processes_of (manager_in self.old)) }
        ensures sent { OnOk result ((journal : List Event) (q : ℕ) →
            sent_by self.new journal q ≡ (if q == p then sent_by self.old journal q ++ request ∷ [] else sent_by self.old journal q)) }
        ensures number { IfOk result (λ n. (journal : List Event) → HasTold self.old journal → n ≡ length (sent_by self.new journal p)) }
        ensures full { (journal : List Event) → HasTold self.old journal →
            (result ≡ Err ArriveFault.Full) ↔ (length (sent_by self.old journal p) ≡ N_MAX) }
        ensures err { OnErr result ((journal : List Event) (q : ℕ) → sent_by self.new journal q ≡ sent_by self.old journal q) }
        ensures others { (q : ℕ) → q ≢ p → waiting_at self.new q ≡ waiting_at self.old q }
        ensures manager { manager_in self.new ≡ manager_in self.old }
        ensures told { (journal : List Event) → HasTold self.old journal → HasTold self.new journal }
    {
        self.senders = self.senders.with(p);
        self.mailboxes[usize::from(p) - 1].push(request)
    }

    /// The able process of least number that has mail, and its next request.
    pub(crate) fn next_mail(&self) -> Option<(u8, Request)>
        ensures process { IfSome result (λ mail. (1 ≤ mail.0) × (mail.0 ≤ processes_of (manager_in self.now))) }
        ensures able { IfSome result (λ mail. state_at (manager_in self.now) mail.0 ≡ ProcState.Live) }
        ensures next { IfSome result (λ mail. first_waiting self.now mail.0 ≡ Some mail.1) }
        ensures least { IfSome result (λ mail. HasNoneWaitingBelow self.now mail.0) }
        ensures none { IfNone result (HasNoMail self.now) }
    {
        // Most of those that have mail may wait: these are passed by in one step.
        let mut passed = self.manager.waiting();
        while let Some(p) = self.senders.first_beyond(passed) {
            if self.manager.able(p)
                && let Some(request) = self.untaken(p)
            {
                return Some((p, request));
            }
            passed = passed.with(p);
        }
        None
    }

    /// Takes this request, the next one of the process, and tells what it told.
    pub(crate) fn take(&mut self, p: u8, request: Request) -> Result<Entry, Memory>
        requires process { (1 ≤ p) × (p ≤ processes_of (manager_in self.old)) }
        requires able { state_at (manager_in self.old) p ≡ ProcState.Live }
        requires next { first_waiting self.old p ≡ Some request }
        ensures taken { IfOk result (λ entry. (journal : List Event) → HasTold self.old journal → Tells self.old self.new p request journal entry) }
        ensures waiting { OnOk result ((q : ℕ) → waiting_at self.new q ≡ (if q == p then drop 1 (waiting_at self.old q) else waiting_at self.old q)) }
        ensures processes { processes_of (manager_in self.new) ≡ processes_of (manager_in self.old) }
        ensures memory { OnErr result (SameSequencer self.old self.new) }
    {
        let entry = self.serve(p, request)?;
        let more = self.mailboxes[usize::from(p) - 1].advance();
        self.senders = self.senders.put(p, more);
        Ok(entry)
    }

    /// The request comes and is taken in one, as if it had come to the mailbox of its process, which is able and has no mail: tells
    /// what it told.
    ///
    /// `Full` where the process has sent [`N_MAX`] requests, or `Memory`; either leaves everything as it was.
    pub(crate) fn take_at_once(&mut self, p: u8, request: Request) -> Result<Entry, RunAllFault>
        requires process { (1 ≤ p) × (p ≤ processes_of (manager_in self.old)) }
        requires able { state_at (manager_in self.old) p ≡ ProcState.Live }
        requires empty { IsNone (first_waiting self.old p) }
        ensures taken { IfOk result (λ entry. (journal : List Event) → HasTold self.old journal →
            TellsOf self.old self.new p request (sent_with self.old journal p request) journal entry) }
        ensures waiting { (q : ℕ) → waiting_at self.new q ≡ waiting_at self.old q }
        ensures processes { processes_of (manager_in self.new) ≡ processes_of (manager_in self.old) }
        ensures full { (journal : List Event) → HasTold self.old journal →
            (result ≡ Err RunAllFault.Full) ↔ (length (sent_by self.old journal p) ≡ N_MAX) }
        ensures err { OnErr result (SameSequencer self.old self.new) }
    {
        let place = usize::from(p) - 1;
        if self.mailboxes[place].sent() == N_MAX {
            return Err(RunAllFault::Full);
        }
        let entry = self.serve(p, request)?;
        self.mailboxes[place].pass();
        Ok(entry)
    }

    /// The manager serves this request, the one behind those that were taken of the process: tells what it told. The mailboxes stay.
    fn serve(&mut self, p: u8, request: Request) -> Result<Entry, Memory>
        requires able { state_at (manager_in self.old) p ≡ ProcState.Live }
        ensures served { IfOk result (λ entry. (journal : List Event) → HasTold self.old journal →
            IsServed self.old.manager self.new.manager self.new.answers p request journal entry) }
        ensures mailboxes { self.new.mailboxes ≡ self.old.mailboxes }
        ensures processes { processes_of (manager_in self.new) ≡ processes_of (manager_in self.old) }
        ensures memory { OnErr result (SameSequencer self.old self.new) }
    {
        let n = self.taken(p) + 1;
        self.manager.take_into(p, n, request, &mut self.notes)?;
        self.answers.tell(&self.notes);
        Ok(Entry {
            p,
            n,
            request,
            notes: Notes::taken_from(&mut self.notes),
        })
    }

    /// Takes back the last request of the process, which wasn't taken: it is as if it hadn't come.
    pub(crate) fn withdraw(&mut self, p: u8)
        requires process { (1 ≤ p) × (p ≤ processes_of (manager_in self.old)) }
        requires untaken { IsSome (first_waiting self.old p) }
        ensures sent { (journal : List Event) (q : ℕ) → sent_by self.new journal q ≡
            (if q == p then take (length (sent_by self.old journal q) - 1) (sent_by self.old journal q) else sent_by self.old journal q) }
        ensures manager { manager_in self.new ≡ manager_in self.old }
        ensures told { (journal : List Event) → HasTold self.old journal → HasTold self.new journal }
    {
        self.mailboxes[usize::from(p) - 1].withdraw();
    }

    /// The manager, whose state is the replay of what was taken.
    pub fn manager(&self) -> &Manager
        ensures { result.now ≡ manager_in self.now }
    {
        &self.manager
    }

    /// How many requests the process has sent: 0 where there is no such process.
    pub fn sent(&self, p: u8) -> u64
        ensures { (journal : List Event) → HasTold self.now journal → result ≡ length (sent_by self.now journal p) }
    {
        self.mailbox(p).map_or(0, |mailbox| mailbox.sent())
    }

    /// How many requests of the process were taken: 0 where there is no such process.
    pub fn taken(&self, p: u8) -> u64
        ensures most { result ≤ N_MAX }
        ensures taken { (journal : List Event) → HasTold self.now journal → result ≡ length (events_of p journal) }
    {
        self.mailbox(p).map_or(0, |mailbox| mailbox.taken())
    }

    /// How many requests of the process were answered: 0 where there is no such process.
    pub fn answered(&self, p: u8) -> u64
        ensures { (journal : List Event) → HasTold self.now journal → result ≡ length (answers_to p journal) }
    {
        // The answers to a process have the numbers 1, 2, and so on.
        self.last_answer(p).map_or(0, |last| last.n)
    }

    /// The last answer to the process: `None` also where there is no such process.
    pub(crate) fn last_answer(&self, p: u8) -> Option<Answer>
        ensures { (journal : List Event) → HasTold self.now journal → result ≡ latest None (answers_to p journal) }
    {
        self.answers.of(p)
    }

    /// The first request of the process that wasn't taken.
    fn untaken(&self, p: u8) -> Option<Request>
        ensures { result ≡ first_waiting self.now p }
    {
        self.mailbox(p)?.next()
    }

    /// The mailbox of the process.
    fn mailbox(&self, p: u8) -> Option<&Mailbox>
        ensures { option_copied result ≡ mailbox_of self.now.mailboxes.items p }
    {
        let place = usize::from(p).checked_sub(1)?;
        self.mailboxes.get(place)
    }
}

/// A mailbox for each process.
fn empty_mailboxes(alloc: Global, processes: u8) -> Result<Vec<Mailbox>, Memory>
    ensures each { IfOk result (λ mailboxes. length mailboxes.items ≡ processes) }
    ensures empty { IfOk result (λ mailboxes. All IsEmptyMailbox mailboxes.items) }
{
    let mut mailboxes = Vec::new(alloc);
    for _ in 0..processes {
        mailboxes.push(Mailbox::new(alloc))?;
    }
    Ok(mailboxes)
}

//! Whether entries are a run: each step is made again.
ghost use Rattle.std.specs.Prelude.{◌≡◌, ◌≤◌, ◌↔◌, ℕ, List, [], Err, IfOk, IsSome, IsTrue, MatchOption, OnErr, length, option_copied};
ghost use Rattle.fd_table.specs.Descriptors.{process_limit};
ghost use Rattle.lock_manager.specs.State.{State};
ghost use Rattle.lock_manager.specs.ManagerView.{StandsFor, rules_of, processes_of};
ghost use Rattle.session_core.specs.Event.{Event};
ghost use Rattle.session_core.specs.Runs.{IsRun, events_of};
ghost use Rattle.session_core.specs.Mail.{answers_to};

use crate::Entry;
use crate::answers::LastAnswers;
use lock_manager::{Manager, Note, ProcState, Rules, step_has_one_outcome};
use range_core::Memory;
use std::alloc::Global;
use thiserror::Error;

/// Whether the entries are a run from the opening state, numbers and notes included, of `processes` processes, numbered from 1
/// and at most [`fd_table::Limits::processes`] (this project's choice).
///
/// They may be anything: in no run is an entry of a process that isn't there or isn't able, one with another number than the next
/// of its process, or one with other notes than its step tells. A [`JournalChecker`] takes them in turn. `Memory` may come in
/// place of any answer.
pub fn check_journal(
    alloc: Global,
    processes: u8,
    rules: Rules,
    entries: &[Entry],
) -> Result<bool, Memory>
    requires { (1 ≤ processes) × (processes ≤ process_limit rules.limits) }
    ensures { IfOk result (λ answer. IsTrue answer ↔ ((T : State) × IsRun rules processes entries.now T)) }
{
    let mut checker = JournalChecker::new(alloc, processes, rules)?;
    for entry in entries {
        match checker.next(entry) {
            Ok(()) => {}
            Err(CheckFault::Illegal) => return Ok(false),
            Err(CheckFault::Memory(memory)) => return Err(memory),
        }
    }
    Ok(true)
}

/// Why an entry isn't accepted.
#[derive(Clone, Copy, Debug, PartialEq, Eq, Error)]
pub enum CheckFault {
    /// No run begins with what was accepted and then this entry, or an earlier one that came in its place. What a run would have
    /// there is [`JournalChecker::expected`].
    #[error("no run goes on with this entry")]
    Illegal,
    /// A growth was refused.
    #[error(transparent)]
    Memory(Memory),
}

impl From<Memory> for CheckFault {
    ghost use Rattle.session_core.specs.declared.check.CheckFault.{CheckFault};

    ghost from_gives = { λ memory fault. fault ≡ CheckFault.Memory memory };

    fn from(memory: Memory) -> CheckFault {
        CheckFault::Memory(memory)
    }
}

/// What a run would have in place of an entry with which none goes on (this project's choice).
#[derive(Debug, Drop)]
pub enum Expected {
    /// No request of its process, which stands so and isn't able: unborn where there is no such process.
    NoRequest(ProcState),
    /// The number behind this one, which is how many requests of its process were taken before.
    NumberAfter(u64),
    /// These notes, which its request tells there.
    Notes(Vec<Note>),
}

/// Takes the entries of a journal one after another, and tells the first with which they no longer begin a run from the opening
/// state, numbers and notes included (this project's choice).
///
/// It keeps no entry: its memory is that of the lock manager's state and of a count and an answer for each process, however many entries come. It
/// makes the steps again, which is enough, since a step has one outcome.
#[derive(Drop)]
pub struct JournalChecker {
    replay: Replay,
    /// What was expected in place of the first entry that wasn't legal.
    expected: Option<Expected>,
}

#[tactic(auto, unfolding(crate::specs::Checking::expected_by, crate::specs::Checking::HasRepeated))]
impl JournalChecker {
    ghost use Rattle.session_core.specs.Checking.{Checks, HasAccepted, IsAfter, expected_by};

    /// At the opening, with `processes` processes, numbered from 1 and at most [`fd_table::Limits::processes`]. No entry was accepted.
    pub fn new(alloc: Global, processes: u8, rules: Rules) -> Result<JournalChecker, Memory>
        requires { (1 ≤ processes) × (processes ≤ process_limit rules.limits) }
        ensures { IfOk result (λ checker. HasAccepted rules processes checker []) }
    {
        let replay = Replay::new(alloc, processes, rules)?;
        Ok(JournalChecker {
            replay,
            expected: None,
        })
    }

    /// Accepts the entry, where a run begins with those that were accepted and this one.
    ///
    /// `Illegal` where none does, whatever would follow; then the checker is spent, and each later entry is answered `Illegal` for the
    /// first one's sake. `Memory` may come in place of either answer while the checker isn't spent, and leaves what was accepted.
    pub fn next(&mut self, entry: &Entry) -> Result<(), CheckFault>
        // Whatever entries were accepted so far, under whatever rules.
        ensures checks { (rules : Rules) (processes : ℕ) (accepted : List Event) → HasAccepted rules processes self.old accepted →
            Checks rules processes self.new accepted entry.now result }

        // Once an entry was illegal, what was expected in its place stays.
        ensures spent { IsSome (expected_by self.old) →
            (result ≡ Err CheckFault.Illegal) × (expected_by self.new ≡ expected_by self.old) }
    {
        if self.expected.is_some() {
            return Err(CheckFault::Illegal);
        }
        match self.replay.repeats(entry)? {
            None => Ok(()),
            Some(expected) => {
                self.expected = Some(expected);
                Err(CheckFault::Illegal)
            }
        }
    }

    /// What a run would have in place of the first entry that wasn't legal: `None` while each was.
    pub fn expected(&self) -> Option<&Expected>
        ensures { option_copied result ≡ expected_by self.now }
    {
        self.expected.as_ref()
    }

    /// The manager, in the state that the accepted entries leave: once an entry was illegal, in whatever state that left.
    pub fn manager(&self) -> &Manager
        ensures { (rules : Rules) (processes : ℕ) (accepted : List Event) → HasAccepted rules processes self.now accepted →
            IsAfter rules processes accepted result.now }
    {
        // A law, and nothing to run.
        step_has_one_outcome();
        &self.replay.manager
    }

    /// How many requests of the process were taken in the accepted entries: 0 where there is no such process.
    pub fn taken(&self, p: u8) -> u64
        ensures { (rules : Rules) (processes : ℕ) (accepted : List Event) → HasAccepted rules processes self.now accepted →
            result ≡ length (events_of p accepted) }
    {
        self.replay.taken(p)
    }

    /// How many requests of the process were answered in the accepted entries: 0 where there is no such process.
    pub fn answered(&self, p: u8) -> u64
        ensures { (rules : Rules) (processes : ℕ) (accepted : List Event) → HasAccepted rules processes self.now accepted →
            result ≡ length (answers_to p accepted) }
    {
        self.replay.answered(p)
    }
}

/// A run that is made again, step by step.
#[derive(Drop)]
struct Replay {
    manager: Manager,
    /// How many requests of each process were taken, from process 1 on.
    taken: Vec<u64>,
    answers: LastAnswers,
    ghost one_each: { length taken.items ≡ processes_of manager },
}

impl Replay {
    ghost use Rattle.session_core.specs.Replaying.{HasMade, IsNextOf, IsOutOfTurn, Keeps, Makes, Repeats, count_of};

    /// At the opening.
    fn new(alloc: Global, processes: u8, rules: Rules) -> Result<Replay, Memory>
        requires { (1 ≤ processes) × (processes ≤ process_limit rules.limits) }
        ensures { IfOk result (λ replay. HasMade rules processes replay []) }
    {
        let manager = Manager::new(alloc, processes, rules)?;
        let taken = vec![in alloc; 0; usize::from(processes)]?;
        let answers = LastAnswers::new(alloc, processes)?;
        Ok(Replay {
            manager,
            taken,
            answers,
        })
    }

    /// Makes the step of the entry's request, where that is the next of an able process, and answers what was expected in place
    /// of the entry: `None` where the step told the same.
    fn repeats(&mut self, entry: &Entry) -> Result<Option<Expected>, Memory>
        ensures ok { IfOk result (Repeats self.old self.new entry.now) }
        ensures memory { OnErr result (Keeps self.old self.new) }
    {
        // A law, and nothing to run.
        step_has_one_outcome();
        if let Some(expected) = self.turn(entry) {
            return Ok(Some(expected));
        }
        let notes = self.take(entry)?;
        if are_same(&notes, entry.notes.as_slice()) {
            Ok(None)
        } else {
            Ok(Some(Expected::Notes(notes)))
        }
    }

    /// What is expected in place of an entry that is out of turn: `None` where its process is able, and its number the next.
    fn turn(&self, entry: &Entry) -> Option<Expected>
        ensures { MatchOption result (IsNextOf self.now entry.now) (λ expected. IsOutOfTurn self.now entry.now expected) }
    {
        if !self.manager.able(entry.p) {
            return Some(Expected::NoRequest(self.manager.state_of(entry.p)));
        }
        let taken = self.taken[usize::from(entry.p) - 1];
        if entry.n.checked_sub(1) == Some(taken) {
            None
        } else {
            Some(Expected::NumberAfter(taken))
        }
    }

    /// Makes the step of the entry's request, which is the next of an able process, and answers what it told.
    fn take(&mut self, entry: &Entry) -> Result<Vec<Note>, Memory>
        requires { IsNextOf self.old entry.now }
        ensures ok { IfOk result (λ notes. Makes self.old self.new (record entry.now { notes = notes.items })) }
        ensures memory { OnErr result (Keeps self.old self.new) }
    {
        let notes = self.manager.take(entry.p, entry.n, entry.request)?;
        self.taken[usize::from(entry.p) - 1] = entry.n;
        self.answers.tell(&notes);
        Ok(notes)
    }

    /// How many requests of the process were taken: 0 where there is no such process.
    fn taken(&self, p: u8) -> u64
        ensures { result ≡ count_of self.now.taken.items p }
    {
        match usize::from(p).checked_sub(1) {
            Some(place) => self.taken.get(place).copied().unwrap_or(0),
            None => 0,
        }
    }

    /// How many requests of the process were answered: 0 where there is no such process.
    fn answered(&self, p: u8) -> u64
        ensures { (rules : Rules) (processes : ℕ) (events : List Event) → HasMade rules processes self.now events →
            result ≡ length (answers_to p events) }
    {
        // The answers to a process have the numbers 1, 2, and so on.
        self.answers.of(p).map_or(0, |last| last.n)
    }
}

/// Whether the notes are the same, in the same order.
fn are_same(notes: &[Note], others: &[Note]) -> bool
    ensures { IsTrue result ↔ (notes.now ≡ others.now) }
{
    notes == others
}

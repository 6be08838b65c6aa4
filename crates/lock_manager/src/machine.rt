//! The state behind a manager, and each request on it; settling stands apart.
ghost use Rattle.std.specs.Prelude.{ℕ, ◌≡◌, ◌≢◌, ◌≤◌, ◌<◌, ◌↔◌, List, [], vec_len, IfOk, OnOk, OnErr, IsTrue};
ghost use Rattle.fd_table.specs.declared.TheConstants.{FILES};
ghost use Rattle.fd_table.specs.TablesView.{processes_of as processes_in, limits_of};
ghost use Rattle.wait_core.specs.WaitsView.{waits_of, policy_of, processes_of};
ghost use Rattle.lock_manager.specs.WaitsKept.{AreKept, AreStanding};

mod asking;
mod descriptor_calls;
mod flock_calls;
mod holding;
mod lock_commands;
mod process_calls;
mod settling;

use crate::opening::{empty_books, opening_states};
use crate::replies::{allowed, tell};
use crate::sections::Sections;
use crate::{Note, ProcState, Request, Rules};
use fd_table::{FILES, Tables};
use lock_book::{Book, Held};
use range_core::Memory;
use std::alloc::Global;
use wait_core::{ProcessSet, Wait, Waits};

/// The descriptors, locks, processes and waits. What is said of them here holds at every moment, also inside an event.
#[derive(Drop)]
pub struct Machine {
    processes: u8,
    rules: Rules,
    tables: Tables,
    /// By file.
    books: Vec<Book>,
    /// By process, from process 1 on.
    states: Vec<ProcState>,
    waits: Waits,
    ghost files: { vec_len books ≡ FILES },
    ghost numbered: { vec_len states ≡ processes },
    ghost tabled: { processes_in tables ≡ processes },
    ghost limited: { limits_of tables ≡ rules.limits },
    ghost policy: { policy_of waits ≡ rules.policy },
    ghost counted: { processes_of waits ≡ processes },
    ghost kept: { AreKept rules.policy tables books.items waits },
    ghost standing: { AreStanding tables states.items (waits_of waits) },
}

impl Machine {
    ghost use Rattle.fd_table.specs.Descriptors.{process_limit};
    ghost use Rattle.std.specs.Prelude.{◌+◌, length, vec_capacity};
    ghost use Rattle.lock_book.specs.Changes.{mode_in, flock_mode_in};
    ghost use Rattle.lock_book.specs.Reports.{IsHeldReport};
    ghost use Rattle.lock_manager.specs.State.{AreWaiting, State, opening_state};
    ghost use Rattle.lock_manager.specs.MachineView.{Shows, SameMachine, SameRules, TellsBy, machine_rules, machine_processes, machine_waits, machine_state};

    /// Process 1 lives, and there is nothing else.
    pub fn new(alloc: Global, processes: u8, rules: Rules) -> Result<Machine, Memory>
        requires { (1 ≤ processes) × (processes ≤ process_limit rules.limits) }
        ensures opening { IfOk result (λ machine. Shows machine opening_state) }
        ensures processes { IfOk result (λ machine. machine_processes machine ≡ processes) }
        ensures rules { IfOk result (λ machine. machine_rules machine ≡ rules) }
        ensures waits { IfOk result (λ machine. machine_waits machine ≡ []) }
    {
        let tables = Tables::new(alloc, processes, rules.limits)?;
        let books = empty_books(alloc)?;
        let states = opening_states(alloc, processes)?;
        let waits = Waits::new(alloc, processes, rules.policy)?;
        Ok(Machine {
            processes,
            rules,
            tables,
            books,
            states,
            waits,
        })
    }

    /// The locks that are held: by file, by owner and by first byte, one line for each largest range of one mode.
    pub fn held(&self, alloc: Global) -> Result<Vec<Held>, Memory>
        ensures { IfOk result (λ report. (S : State) → Shows self.now S →
            IsHeldReport (mode_in S.changes) (flock_mode_in S.flock_changes) report.items) }
    {
        let mut report = Vec::new(alloc);
        for file in 0..FILES {
            let mut locks = self.books[usize::from(file)].held(file)?;
            report.append(&mut locks)?;
        }
        Ok(report)
    }

    /// The waits, in order of arrival.
    pub fn waits(&self, alloc: Global) -> Result<Vec<Wait>, Memory>
        ensures { IfOk result (λ waits. waits.items ≡ machine_waits self.now) }
    {
        Ok(Vec::from_slice(alloc, self.waits.list())?)
    }

    /// The processes that wait.
    pub fn waiting(&self) -> ProcessSet
        ensures { AreWaiting (machine_state self.now) result }
    {
        self.waits.waiting()
    }

    /// How many processes there are, numbered from 1.
    pub fn processes(&self) -> u8
        ensures { result ≡ machine_processes self.now }
    {
        self.processes
    }

    /// How many notes an event may make: one to each wait, and two more. That is one more than there are processes at most.
    pub fn most_notes(&self) -> usize
        ensures { result ≡ length (machine_waits self.now) + 2 }
    {
        self.waits.list().len() + 2
    }

    /// Where each process stands, from process 1 on.
    pub fn states(&self) -> &[ProcState]
        ensures { result.now ≡ self.now.states.items }
    {
        &self.states
    }

    /// Where the process stands: unborn where there is no such number.
    pub fn state_of(&self, p: u8) -> ProcState
        ensures state { result ≡ machine_state self.now p }
        ensures born { result ≢ ProcState.Unborn → (1 ≤ p) × (p ≤ machine_processes self.now) }
    {
        match usize::from(p).checked_sub(1) {
            Some(place) => self.states.get(place).copied().unwrap_or(ProcState::Unborn),
            None => ProcState::Unborn,
        }
    }

    /// Serves a request of a live process, where these are in sections and were refused, but for the settling with which the event ends:
    /// the notes are told here. Who enters or leaves is marked elsewhere.
    #[tactic(auto, using(crate::proofs::calls::ReplyLemmas::untold_by, crate::proofs::calls::ReplyLemmas::few_by))]
    pub fn serve(
        &mut self,
        sections: &Sections,
        p: u8,
        n: u64,
        request: Request,
        notes: &mut Vec<Note>,
    ) -> Result<(), Memory>
        requires live { machine_state self.old p ≡ ProcState.Live }
        requires empty { notes.old.items ≡ [] }

        // Each wait may be granted a note, and there is room for two more.
        requires room { length (machine_waits self.old) + 2 ≤ vec_capacity notes.old }
        ensures told { OnOk result (TellsBy sections.now self.old self.new p n request notes.new.items) }
        ensures few { OnOk result (length notes.new.items + length (machine_waits self.new) ≤ vec_capacity notes.new) }
        ensures memory { OnErr result (SameMachine self.old self.new) }
        ensures same_rules { SameRules self.old self.new }
    {
        match request {
            Request::OpenFile { file, access } => {
                tell(p, n, self.open_file(p, file, access), notes)
            },
            Request::Dup { fd } => tell(p, n, self.dup(p, fd), notes),
            Request::DupTo { fd, to } => tell(p, n, self.dup_to(p, fd, to), notes),
            Request::CloseFd { fd } => tell(p, n, self.close_fd(p, fd), notes),
            Request::Seek { fd, offset } => tell(p, n, self.seek(p, fd, offset), notes),
            Request::Resize { fd, size } => tell(p, n, self.resize(p, fd, size), notes),
            Request::Lk { fd, cmd, lock } => {
                notes.push_reserved(self.lock_command(p, n, fd, cmd, lock)?);
                Ok(())
            },
            Request::Flock { fd, op, nb } => self.flock(p, n, fd, op, nb, notes),
            Request::Fork { child } => tell(p, n, self.fork(p, child), notes),
            Request::Exit => {
                self.end(p);
                Ok(())
            },
            Request::Signal { target } => {
                self.signal(p, n, target, notes);
                Ok(())
            },
            Request::Kill { target } => {
                self.kill(p, n, target, notes);
                Ok(())
            },
            Request::Enter { section, .. } => {
                notes.push_reserved(allowed(p, n, sections.may_enter(p, section)));
                Ok(())
            },
            Request::Leave { section } => {
                notes.push_reserved(allowed(p, n, sections.may_leave(p, section)));
                Ok(())
            },
            Request::Bail => {
                self.bail(p, n, sections.was_refused(p), notes);
                Ok(())
            },
        }
    }
}

//! The lock manager: one event is one request and the settling after it.
ghost use Rattle.std.specs.Prelude.{ℕ, ◌≡◌, vec_len, ◌≢◌, ◌<◌, ◌≤◌, ◌↔◌, List, [], IfOk, IfSome, OnOk, OnErr, IsTrue, MatchOption};
ghost use Rattle.std.specs.Option.{option_copied};
ghost use Rattle.fd_table.specs.declared.TheConstants.{FILES};
ghost use Rattle.range_core.specs.Ranges.{IsByteRange};
ghost use Rattle.lock_book.specs.OwnerLists.{modes_in_list};
ghost use Rattle.wait_core.specs.Blocking.{IsBlocked};
ghost use Rattle.lock_manager.specs.Asking.{AsksFor, IsFirstInTheWay};
ghost use Rattle.lock_manager.specs.Safety.{IsSafe};
ghost use Rattle.lock_manager.specs.MachineView.{machine_rules, machine_processes, machine_locks, machine_waits};

use crate::machine::Machine;
use crate::sections::Sections;
use crate::{InTheWay, Note, ProcState, Request, Rules, Visit};
use fd_table::Look;
use lock_book::{Held, Owner};
use owner_runs::OwnerRuns;
use range_core::{Memory, Mode};
use std::alloc::Global;
use wait_core::{ProcessSet, Wait};

/// The lock manager: descriptors, locks and processes, and who is in which section.
#[derive(Drop)]
pub struct Manager {
    alloc: Global,
    machine: Machine,
    sections: Sections,
    ghost seated: { vec_len sections.seats ≡ machine_processes machine },
    ghost safe: { ∥ IsSafe (machine_rules machine).policy (machine_locks machine) (machine_waits machine) ∥₁ },
}

impl Manager {
    ghost use Rattle.fd_table.specs.Descriptors.{look_at, process_limit};
    ghost use Rattle.lock_book.specs.Changes.{mode_in, flock_mode_in};
    ghost use Rattle.lock_book.specs.Reports.{IsHeldReport};
    ghost use Rattle.lock_manager.specs.State.{AreWaiting, State, locks_held, opening_state};
    ghost use Rattle.lock_manager.specs.Sections.{is_together as is_together_of};
    ghost use Rattle.lock_manager.specs.ManagerView.{StandsFor, StepsBy, SameManager, IsSafeManager, rules_of, processes_of, state_at};

    /// Process 1 lives, and there is nothing else (this project's choice). There are `processes` processes, numbered from 1,
    /// at most [`fd_table::Limits::processes`].
    pub fn new(alloc: Global, processes: u8, rules: Rules) -> Result<Manager, Memory>
        requires { (1 ≤ processes) × (processes ≤ process_limit rules.limits) }
        ensures opening { IfOk result (λ manager. StandsFor manager opening_state) }
        ensures processes { IfOk result (λ manager. processes_of manager ≡ processes) }
        ensures rules { IfOk result (λ manager. rules_of manager ≡ rules) }
        ensures safe { IfOk result IsSafeManager }
    {
        let machine = Machine::new(alloc, processes, rules)?;
        let sections = Sections::new(alloc, processes)?;
        Ok(Manager {
            alloc,
            machine,
            sections,
        })
    }

    /// One event: request number `n` of process `p`, which is able, with all that it causes. The caller's note stands first,
    /// and there is none to the end of a process; then comes who was interrupted, and then who was granted a lock, in order.
    ///
    /// `Memory` may come in place of any answer, and leaves everything as it was.
    pub fn take(&mut self, p: u8, n: u64, request: Request) -> Result<Vec<Note>, Memory>
        requires { state_at self.old p ≡ ProcState.Live }

        // For whatever state the manager stands for, the notes are those of one step from it, and the manager then
        // stands for the state after that step.
        ensures step { IfOk result (λ notes. StepsBy self.old self.new p n request notes.items) }
        ensures safe { IsSafeManager self.new }
        ensures rules { rules_of self.new ≡ rules_of self.old }
        ensures processes { processes_of self.new ≡ processes_of self.old }

        // Want of memory changes nothing.
        ensures memory { OnErr result (SameManager self.old self.new) }
    {
        let mut notes = Vec::new(self.alloc);
        self.take_into(p, n, request, &mut notes)?;
        Ok(notes)
    }

    /// The same, where the notes take the place of those in a vector, whose room is used again.
    ///
    /// After `Memory` the manager is as it was, and the vector may have lost its notes.
    pub fn take_into(
        &mut self,
        p: u8,
        n: u64,
        request: Request,
        notes: &mut Vec<Note>,
    ) -> Result<(), Memory>
        requires { state_at self.old p ≡ ProcState.Live }
        ensures step { OnOk result (StepsBy self.old self.new p n request notes.new.items) }
        ensures safe { IsSafeManager self.new }
        ensures rules { rules_of self.new ≡ rules_of self.old }
        ensures processes { processes_of self.new ≡ processes_of self.old }
        ensures memory { OnErr result (SameManager self.old self.new) }
    {
        notes.clear();
        notes.reserve(self.machine.most_notes())?;
        self.machine.serve(&self.sections, p, n, request, notes)?;
        self.sections.mark(p, request, notes, self.machine.states());
        self.machine.settle(notes);
        Ok(())
    }

    /// The locks that are held: by file, by owner and by first byte, one line for each largest range of one mode (the order
    /// is this project's choice).
    pub fn held(&self) -> Result<Vec<Held>, Memory>
        ensures { IfOk result (λ report. (S : State) → StandsFor self.now S →
            IsHeldReport (mode_in S.changes) (flock_mode_in S.flock_changes) report.items) }
    {
        self.machine.held(self.alloc)
    }

    /// The requests that wait, in order of arrival (POSIX.1-2017 fcntl, `F_SETLKW`; fcntl_locking(2), `F_OFD_SETLKW`;
    /// flock(2)).
    pub fn waits(&self) -> Result<Vec<Wait>, Memory>
        ensures { IfOk result (λ waits. (S : State) → StandsFor self.now S → waits.items ≡ S.waits) }
    {
        self.machine.waits(self.alloc)
    }

    /// The byte locks of the owner on the file, as the runs of a list: `None`, or a list without runs, where it has none there. It takes no
    /// memory (POSIX.1-2017 fcntl, DESCRIPTION; fcntl_locking(2)).
    pub fn byte_locks(&self, file: u8, owner: Owner) -> Option<&OwnerRuns>
        ensures { (S : State) → StandsFor self.now S → (byte : ℕ)
            → modes_in_list (option_copied result) byte ≡ mode_in S.changes file owner byte }
    {
        self.machine.byte_locks(file, owner)
    }

    /// The mode of the flock lock that the description has on the file: `LOCK_SH` is `Read` and `LOCK_EX` is `Write`. It takes no memory
    /// (flock(2)).
    pub fn flock_lock(&self, file: u8, description: u64) -> Option<Mode>
        ensures { (S : State) → StandsFor self.now S → result ≡ flock_mode_in S.flock_changes file description }
    {
        self.machine.flock_lock(file, description)
    }

    /// The lock that request number `n` of process `p` asks for, as it would wait: by a lock command, also one that only asks, or by
    /// flock. `None` where it unlocks, its descriptor isn't open, or there is no such range (POSIX.1-2017 fcntl; fcntl_locking(2);
    /// flock(2)). Whether its access mode and its arguments allow the lock isn't asked.
    pub fn wanted(&self, p: u8, n: u64, request: Request) -> Option<Wait>
        ensures asks { (S : State) → StandsFor self.now S →
            MatchOption result ((wait : Wait) → ¬ AsksFor S p n request wait) (AsksFor S p n request) }
        ensures file { IfSome result (λ wait. wait.file < FILES) }
        ensures range { IfSome result (λ wait. IsByteRange wait.span) }
    {
        self.machine.wanted(p, n, request)
    }

    /// What is the first in the way of a request for this lock: of the held locks the one that a get command would report, of flock
    /// locks that of the least description; where no lock is in the way, the earliest wait that conflicts with it, under the queue
    /// policy. `None` where the request isn't blocked (which is the first is this project's choice).
    pub fn first_in_the_way(&self, wait: &Wait) -> Result<Option<InTheWay>, Memory>
        requires file { wait.now.file < FILES }
        requires range { IsByteRange wait.now.span }
        ensures first { IfOk result (λ first. (S : State) → StandsFor self.now S → MatchOption first
            (¬ IsBlocked (rules_of self.now).policy (locks_held S) S.waits wait.now)
            (IsFirstInTheWay (rules_of self.now).policy (locks_held S) S.waits wait.now)) }
    {
        self.machine.first_in_the_way(wait)
    }

    /// What the descriptor of process `p` refers to: its open file description, the file, the access mode, the offset and the size of
    /// the file. `None` where it isn't open (POSIX.1-2017 open, DESCRIPTION; fork, "own copy of the parent's file descriptors").
    pub fn look(&self, p: u8, fd: u32) -> Option<Look>
        ensures { (S : State) → StandsFor self.now S → result ≡ look_at S.descriptors p fd }
    {
        self.machine.look(p, fd)
    }

    /// The size of a file in bytes, whether a descriptor refers to it or not (POSIX.1-2017 ftruncate, DESCRIPTION).
    pub fn size_of(&self, file: u8) -> u64
        requires { file < FILES }
        ensures { (S : State) → StandsFor self.now S → result ≡ S.descriptors.sizes file }
    {
        self.machine.size_of(file)
    }

    /// By which visit the process is in the section; `None` where it isn't (this project's choice).
    pub fn visit(&self, p: u8, section: u8) -> Option<Visit>
        ensures { (S : State) → StandsFor self.now S → result ≡ S.visits p section }
    {
        self.sections.visit(p, section)
    }

    /// Whether process `q` is another one than `p`, and in the section, where one of its visit and this one of `p` is not shared (this
    /// project's choice).
    pub fn is_together(&self, p: u8, section: u8, visit: Visit, q: u8) -> bool
        ensures { (S : State) → StandsFor self.now S → result ≡ is_together_of S.visits p section visit q }
    {
        q != p && visit.keeps_out(self.visit(q, section))
    }

    /// Whether the process lives and its last answer was an error, so that a bail would end it (this project's choice).
    pub fn was_refused(&self, p: u8) -> bool
        ensures { (S : State) → StandsFor self.now S → result ≡ S.refused p }
    {
        self.sections.was_refused(p)
    }

    /// How many processes there are, numbered from 1.
    pub fn processes(&self) -> u8
        ensures { result ≡ processes_of self.now }
    {
        self.machine.processes()
    }

    /// Where the process stands: unborn where there is no such number.
    pub fn state_of(&self, p: u8) -> ProcState
        ensures state { result ≡ state_at self.now p }
        ensures born { result ≢ ProcState.Unborn → (1 ≤ p) × (p ≤ processes_of self.now) }
    {
        self.machine.state_of(p)
    }

    /// The processes that wait. No request of these is taken until the wait is over (POSIX.1-2017 fcntl, `F_SETLKW`, "the thread
    /// shall wait"; fcntl_locking(2), `F_OFD_SETLKW`; flock(2)).
    pub fn waiting(&self) -> ProcessSet
        ensures { AreWaiting (state_at self.now) result }
    {
        self.machine.waiting()
    }

    /// Whether a request of the process may be taken: there is such a process, and it lives.
    pub fn able(&self, p: u8) -> bool
        ensures able { IsTrue result ↔ (state_at self.now p ≡ ProcState.Live) }
        ensures born { IsTrue result → (1 ≤ p) × (p ≤ processes_of self.now) }
    {
        self.state_of(p) == ProcState::Live
    }
}

//! fork, exit, signals and kill.
ghost use Rattle.std.specs.Prelude.{ℕ, ◌≡◌, ◌+◌, ◌≤◌, Some, List, [], length, vec_len, vec_capacity, IfOk, OnErr};
ghost use Rattle.wait_core.specs.WaitsView.{wait_of, without_wait_of};
ghost use Rattle.wait_core.specs.WellFormed.{IsWellFormed};
ghost use Rattle.lock_manager.specs.State.{State, StandsSo, with_process};
ghost use Rattle.lock_manager.specs.ProcessCalls.{EndComesTo, without_wait};
ghost use Rattle.lock_manager.specs.Sections.{BailComesTo};
ghost use Rattle.lock_manager.specs.MachineView.{Shows, SameMachine, SameRules, Answers, Tells, machine_processes, machine_waits, machine_state};

use super::Machine;
use crate::lock_releases::release;
use crate::replies::{answered, refusal, refused};
use crate::{Errno, Note, ProcState, Reply, Request};
use range_core::Memory;
use wait_core::{Wait, stay_free_of_cycles};

impl Machine {
    /// fork: the child lives (POSIX.1-2017 fork).
    pub(super) fn fork(&mut self, p: u8, child: u8) -> Result<Reply, Memory>
        requires { machine_state self.old p ≡ ProcState.Live }
        ensures answers { IfOk result (Answers self.old self.new p (Request.Fork child)) }
        ensures memory { OnErr result (SameMachine self.old self.new) }
        ensures same_rules { SameRules self.old self.new }
        ensures waits { machine_waits self.new ≡ machine_waits self.old }
    {
        match self.tables.fork(p, child) {
            Ok(()) => {
                stand(&mut self.states, child, ProcState::Live);
                Ok(Reply::Ok)
            },
            Err(fault) => refusal(fault),
        }
    }

    /// The end of a process that doesn't wait: all its descriptors are closed, and what that closes is released. It takes no
    /// memory (POSIX.1-2017 _Exit, "Consequences of Process Termination").
    pub(super) fn end(&mut self, p: u8)
        requires { machine_state self.old p ≡ ProcState.Live }
        ensures ends { (told : List Note) (S : State) → Shows self.old S →
            (T : State) × EndComesTo S p told (record { told = told; after = T }) × Shows self.new T }
        ensures same_rules { SameRules self.old self.new }
        ensures waits { machine_waits self.new ≡ machine_waits self.old }
    {
        let released = self.tables.end_process(p);
        release(
            &mut self.books,
            &mut self.waits,
            p,
            released.files(),
            released.descriptions(),
        );
        stand(&mut self.states, p, ProcState::Ended);
    }

    /// The wait of the process is over, and it lives. It takes no memory.
    pub(super) fn interrupt(&mut self, p: u8) -> Wait
        requires { machine_state self.old p ≡ ProcState.Waiting }
        ensures found { wait_of (machine_waits self.old) p ≡ Some result }
        ensures well_formed { IsWellFormed (machine_processes self.old) result }
        ensures shows { (S : State) → Shows self.old S → Shows self.new (with_process (without_wait S p) p ProcState.Live) }
        ensures waits { machine_waits self.new ≡ without_wait_of (machine_waits self.old) p }
        ensures fewer { length (machine_waits self.new) + 1 ≤ length (machine_waits self.old) }
        ensures books { self.new.books ≡ self.old.books }
        ensures tables { self.new.tables ≡ self.old.tables }
        ensures live { machine_state self.new p ≡ ProcState.Live }
        ensures others { (q : ℕ) → machine_state self.old q ≡ ProcState.Live → machine_state self.new q ≡ ProcState.Live }
        ensures same_rules { SameRules self.old self.new }
    {
        // A law, and nothing to run.
        stay_free_of_cycles();
        let wait = self.waits.leave(p).unwrap();
        stand(&mut self.states, p, ProcState::Live);
        wait
    }

    /// A signal that is caught: it ends the wait of the process, which is told EINTR, and does nothing else. It takes no
    /// memory (POSIX.1-2017 kill, `ESRCH`; fcntl, `F_SETLKW` and `EINTR`).
    pub(super) fn signal(&mut self, p: u8, n: u64, target: u8, notes: &mut Vec<Note>)
        requires live { machine_state self.old p ≡ ProcState.Live }
        requires empty { notes.old.items ≡ [] }
        requires room { length (machine_waits self.old) + 2 ≤ vec_capacity notes.old }
        ensures told { Tells self.old self.new p n (Request.Signal target) notes.new.items }
        ensures few { length notes.new.items + length (machine_waits self.new) ≤ vec_capacity notes.new }
        ensures same_rules { SameRules self.old self.new }
    {
        match self.state_of(target) {
            ProcState::Unborn | ProcState::Ended => {
                notes.push_reserved(refused(p, n, Errno::ESRCH));
            },
            ProcState::Live => notes.push_reserved(answered(p, n, Reply::Ok)),
            ProcState::Waiting => {
                let wait = self.interrupt(target);
                notes.push_reserved(answered(p, n, Reply::Ok));
                notes.push_reserved(refused(target, wait.n, Errno::EINTR));
            },
        }
    }

    /// `SIGKILL`: the process ends, and of itself it is an exit, of which nothing is told. It takes no memory (POSIX.1-2017
    /// kill, `ESRCH`).
    pub(super) fn kill(&mut self, p: u8, n: u64, target: u8, notes: &mut Vec<Note>)
        requires live { machine_state self.old p ≡ ProcState.Live }
        requires empty { notes.old.items ≡ [] }
        requires room { length (machine_waits self.old) + 2 ≤ vec_capacity notes.old }
        ensures told { Tells self.old self.new p n (Request.Kill target) notes.new.items }
        ensures few { length notes.new.items + length (machine_waits self.new) ≤ vec_capacity notes.new }
        ensures same_rules { SameRules self.old self.new }
    {
        if target == p {
            self.end(p);
            return;
        }
        let reply = match self.state_of(target) {
            ProcState::Unborn | ProcState::Ended => Reply::Err(Errno::ESRCH),
            ProcState::Live => {
                self.end(target);
                Reply::Ok
            },
            ProcState::Waiting => {
                self.interrupt(target);
                self.end(target);
                Reply::Ok
            },
        };
        notes.push_reserved(answered(p, n, reply));
    }

    /// Where the last answer to the process was an error, as it says, the process ends, of which nothing is told; else it is answered.
    /// It takes no memory.
    pub(super) fn bail(&mut self, p: u8, n: u64, was_refused: bool, notes: &mut Vec<Note>)
        requires live { machine_state self.old p ≡ ProcState.Live }
        requires empty { notes.old.items ≡ [] }
        requires room { length (machine_waits self.old) + 2 ≤ vec_capacity notes.old }
        ensures told { (S : State) → Shows self.old S → S.refused p ≡ was_refused →
            (T : State) × BailComesTo S p n (record { told = notes.new.items; after = T }) × Shows self.new T }
        ensures few { length notes.new.items + length (machine_waits self.new) ≤ vec_capacity notes.new }
        ensures same_rules { SameRules self.old self.new }
    {
        if was_refused {
            self.end(p);
            return;
        }
        notes.push_reserved(answered(p, n, Reply::Ok));
    }
}

/// The process, of which there is one, stands so from now on.
pub(super) fn stand(states: &mut Vec<ProcState>, p: u8, state: ProcState)
    requires { (1 ≤ p) × (p ≤ vec_len states.old) }
    ensures stands { StandsSo states.old.items states.new.items p state }
    ensures count { vec_len states.new ≡ vec_len states.old }
{
    states[usize::from(p) - 1] = state;
}

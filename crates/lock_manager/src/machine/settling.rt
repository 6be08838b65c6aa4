//! Settling: the earliest wait that nothing blocks is granted, again and again.
ghost use Rattle.std.specs.Prelude.{◌≡◌, ◌+◌, ◌≤◌, ◌++◌, Some, List, [], length, vec_capacity, IfSome, IfNone};
ghost use Rattle.wait_core.specs.Blocking.{AllBlocked, IsNextReady};
ghost use Rattle.wait_core.specs.WaitsView.{wait_of};
ghost use Rattle.wait_core.specs.WellFormed.{IsWellFormed};
ghost use Rattle.lock_manager.specs.Granting.{IsGrantable, Grants};
ghost use Rattle.lock_manager.specs.Settling.{Settles};
ghost use Rattle.lock_manager.specs.State.{State};
ghost use Rattle.lock_manager.specs.MachineView.{Shows, SameRules, StayLive, KeepPlaces, machine_rules, machine_processes, machine_waits, machine_locks};

use super::Machine;
use crate::replies::answered;
use crate::{Note, Reply};
use lock_book::Owner;
use wait_core::{Family, Wait, stay_free_of_cycles};

impl Machine {
    /// Grants the earliest wait that nothing blocks, again and again until each is blocked, and tells of each grant. It takes
    /// no memory: there is room for a note to each wait (POSIX leaves the order open; this is this project's choice).
    pub fn settle(&mut self, notes: &mut Vec<Note>)
        requires { length notes.old.items + length (machine_waits self.old) ≤ vec_capacity notes.old }
        ensures settles { (grants : List Note) × (notes.new.items ≡ notes.old.items ++ grants)
            × ((S : State) → Shows self.old S → (T : State) × Settles (machine_rules self.old).policy S grants T × Shows self.new T) }
        ensures settled { AllBlocked (machine_rules self.new).policy (machine_locks self.new) [] (machine_waits self.new) }
        ensures few { length notes.new.items + length (machine_waits self.new) ≤ length notes.old.items + length (machine_waits self.old) }
        ensures capacity { vec_capacity notes.new ≡ vec_capacity notes.old }
        ensures lives { StayLive self.old self.new }
        ensures places { KeepPlaces self.old self.new }
        ensures tables { self.new.tables ≡ self.old.tables }
        ensures same_rules { SameRules self.old self.new }
    {
        while let Some(wait) = self.next_ready() {
            self.grant(wait);
            notes.push_reserved(answered(wait.p, wait.n, Reply::Ok));
        }
        self.rest();
    }

    /// Each wait is blocked, so no file counts as changed from now on.
    fn rest(&mut self)
        requires { AllBlocked (machine_rules self.old).policy (machine_locks self.old) [] (machine_waits self.old) }
        ensures shows { (S : State) → Shows self.old S → Shows self.new S }
        ensures settled { AllBlocked (machine_rules self.new).policy (machine_locks self.new) [] (machine_waits self.new) }
        ensures waits { machine_waits self.new ≡ machine_waits self.old }
        ensures books { self.new.books ≡ self.old.books }
        ensures states { self.new.states ≡ self.old.states }
        ensures tables { self.new.tables ≡ self.old.tables }
        ensures same_rules { SameRules self.old self.new }
    {
        self.waits.forget_changes();
    }

    /// The earliest wait that nothing blocks, and `None` where each is blocked. It looks at the waits on changed files alone.
    fn next_ready(&self) -> Option<Wait>
        ensures ready { IfSome result (IsNextReady (machine_rules self.now).policy (machine_locks self.now) (machine_waits self.now)) }
        ensures found { IfSome result (λ wait. wait_of (machine_waits self.now) wait.p ≡ Some wait) }
        ensures well_formed { IfSome result (IsWellFormed (machine_processes self.now)) }
        ensures settled { IfNone result (AllBlocked (machine_rules self.now).policy (machine_locks self.now) [] (machine_waits self.now)) }
    {
        self.waits.next_ready_on_changed(&self.books)
    }

    /// The wait leaves the list, its process lives and has the lock. It takes no memory (POSIX.1-2017 fcntl, `F_SETLKW`;
    /// flock(2)).
    fn grant(&mut self, wait: Wait)
        requires { IsGrantable self.old wait }
        ensures { Grants self.old self.new wait }
    {
        match (wait.family, wait.owner) {
            (Family::Bytes, _) => self.grant_bytes(wait),
            (Family::Whole, Owner::Description(description)) => {
                self.grant_flock(wait, description);
            },
            (Family::Whole, Owner::Process(_)) => unreachable!(),
        }
    }

    /// The same, of a wait for a byte lock.
    fn grant_bytes(&mut self, wait: Wait)
        requires family { wait.family ≡ Family.Bytes }
        requires grantable { IsGrantable self.old wait }
        ensures { Grants self.old self.new wait }
    {
        // A law, and nothing to run.
        stay_free_of_cycles();
        self.interrupt(wait.p);
        let book = &mut self.books[usize::from(wait.file)];
        book.set_reserved(wait.owner, wait.span, Some(wait.mode));
        self.waits
            .refresh_owner(wait.file, wait.owner, wait.span, &self.books);
    }

    /// The same, of a wait for the flock lock of this description.
    fn grant_flock(&mut self, wait: Wait, description: u64)
        requires family { wait.family ≡ Family.Whole }
        requires owner { wait.owner ≡ Owner.Description description }
        requires grantable { IsGrantable self.old wait }
        ensures { Grants self.old self.new wait }
    {
        self.interrupt(wait.p);
        self.change_flock(wait.file, description, Some(wait.mode));
    }
}

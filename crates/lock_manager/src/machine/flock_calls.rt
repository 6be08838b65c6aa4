//! flock.
ghost use Rattle.std.specs.Prelude.{ℕ, ◌≡◌, ◌<◌, ◌≤◌, ◌+◌, ◌++◌, ◌↔◌, ◌⊎◌, Some, None, List, [], ◌∷◌, true, false, length, vec_capacity, slice_get, IfOk, OnOk, OnErr, IsTrue, IsFalse, IsSome};
ghost use Rattle.std.specs.Option.{option_flatten};
ghost use Rattle.fd_table.specs.declared.TheConstants.{FILES};
ghost use Rattle.range_core.specs.declared.Mode.{Mode};
ghost use Rattle.lock_book.specs.Changes.{flock_mode_in};
ghost use Rattle.lock_book.specs.Conflicts.{FlockConflict};
ghost use Rattle.wait_core.specs.Blocking.{IsBlockedByLock, IsQueued};
ghost use Rattle.wait_core.specs.Locks.{Locks};
ghost use Rattle.wait_core.specs.Settled.{AreBlockedElsewhere, AgreeElsewhere};
ghost use Rattle.wait_core.specs.WaitsView.{AreTold};
ghost use Rattle.lock_manager.specs.DescriptionLocks.{MayLock};
ghost use Rattle.lock_manager.specs.WaitsKept.{FreesNobody, has_place_at, SameWaits, StayBlocked};
ghost use Rattle.lock_manager.specs.State.{State, with_flock_mode};
ghost use Rattle.lock_manager.specs.FlockCalls.{flock_wanted_mode, wanted_flock as wanted_flock_of, FlockTestComesTo, FlockModeComesTo, ConversionComesTo};
ghost use Rattle.lock_manager.specs.MachineView.{Shows, SameMachine, SameRules, IsFlockAsked, KeepPlaces, Tells, machine_rules, machine_waits, machine_state, machine_locks};

use super::Machine;
use crate::replies::{answered, refused};
use crate::{Errno, FlockOp, Note, ProcState, Reply, Request};
use fd_table::{FILES, Look};
use lock_book::{Book, Owner};
use range_core::{Memory, Mode, Span};
use wait_core::{Family, Wait, Waits, stay_free_of_cycles};

impl Machine {
    /// flock: EBADF for a descriptor that isn't open; `LOCK_UN` removes the lock of the description, and always succeeds
    /// (flock(2)).
    pub(super) fn flock(
        &mut self,
        p: u8,
        n: u64,
        fd: u32,
        op: FlockOp,
        nb: bool,
        notes: &mut Vec<Note>,
    ) -> Result<(), Memory>
        requires live { machine_state self.old p ≡ ProcState.Live }
        requires empty { notes.old.items ≡ [] }
        requires room { length (machine_waits self.old) + 2 ≤ vec_capacity notes.old }
        ensures told { OnOk result (Tells self.old self.new p n (Request.Flock fd op nb) notes.new.items) }
        ensures few { OnOk result (length notes.new.items + length (machine_waits self.new) ≤ vec_capacity notes.new) }
        ensures memory { OnErr result (SameMachine self.old self.new) }
        ensures same_rules { SameRules self.old self.new }
    {
        let Some(look) = self.tables.look(p, fd) else {
            notes.push_reserved(refused(p, n, Errno::EBADF));
            return Ok(());
        };
        match op.mode() {
            Some(mode) => self.flock_mode(look, nb, wanted_flock(p, n, look, mode), notes),
            None => {
                self.change_flock(look.file, look.desc, None);
                notes.push_reserved(answered(p, n, Reply::Ok));
                Ok(())
            },
        }
    }

    /// `LOCK_SH` and `LOCK_EX`: the mode that is held already changes nothing, and another one is converted (flock(2)).
    fn flock_mode(
        &mut self,
        look: Look,
        nb: bool,
        wanted: Wait,
        notes: &mut Vec<Note>,
    ) -> Result<(), Memory>
        requires asked { IsFlockAsked self.old look wanted }
        requires empty { notes.old.items ≡ [] }
        requires room { length (machine_waits self.old) + 2 ≤ vec_capacity notes.old }
        ensures told { OnOk result ((S : State) → Shows self.old S →
            (T : State) × FlockModeComesTo (machine_rules self.old) S look nb wanted (flock_mode_in S.flock_changes look.file look.desc)
            (record { told = notes.new.items; after = T }) × Shows self.new T) }
        ensures few { OnOk result (length notes.new.items + length (machine_waits self.new) ≤ vec_capacity notes.new) }
        ensures memory { OnErr result (SameMachine self.old self.new) }
        ensures same_rules { SameRules self.old self.new }
    {
        match self.flock_place(look.file, look.desc) {
            None => notes.push_reserved(self.first_flock(look, nb, wanted)?),
            Some(None) => notes.push_reserved(self.test_flock(look, nb, wanted)),
            Some(Some(held)) if held == wanted.mode => {
                notes.push_reserved(answered(wanted.p, wanted.n, Reply::Ok));
            },
            Some(Some(_)) => self.convert_flock(look, nb, wanted, notes),
        }
        Ok(())
    }

    /// The request of a description that has no lock, and no place for one. A place is kept for the lock of one that waits.
    fn first_flock(&mut self, look: Look, nb: bool, wanted: Wait) -> Result<Note, Memory>
        requires asked { IsFlockAsked self.old look wanted }
        requires none { (machine_locks self.old).flocks look.file look.desc ≡ None }
        ensures told { IfOk result (λ note. (grants : List Note) (S : State) → Shows self.old S →
            (T : State) × FlockTestComesTo (machine_rules self.old) S nb wanted grants (record { told = note ∷ grants; after = T }) × Shows self.new T) }
        ensures few { length (machine_waits self.new) ≤ length (machine_waits self.old) + 1 }
        ensures memory { OnErr result (SameMachine self.old self.new) }
        ensures same_rules { SameRules self.old self.new }
    {
        if !self.is_blocked(!nb, &wanted) {
            self.begin_flock(look.file, look.desc, wanted.mode)?;
            return Ok(answered(wanted.p, wanted.n, Reply::Ok));
        }
        self.place_flock(look.file, look.desc)?;
        Ok(self.test_flock(look, nb, wanted))
    }

    /// The description, which has no lock, has one of this mode from now on, so nobody can be free then who was blocked.
    fn begin_flock(&mut self, file: u8, description: u64, mode: Mode) -> Result<(), Memory>
        requires file { file < FILES }
        requires owner { MayLock self.old.tables file (Owner.Description description) }
        requires none { (machine_locks self.old).flocks file description ≡ None }
        requires free { ¬ FlockConflict ((machine_locks self.old).flocks file) (Owner.Description description) mode }
        ensures ok { OnOk result ((S : State) → Shows self.old S → Shows self.new (with_flock_mode S file description (Some mode))) }
        ensures memory { OnErr result (SameMachine self.old self.new) }
        ensures waits { machine_waits self.new ≡ machine_waits self.old }
        ensures same_rules { SameRules self.old self.new }
    {
        // A law, and nothing to run.
        stay_free_of_cycles();
        self.books[usize::from(file)].flock_set(description, Some(mode))
    }

    /// A conversion: the old lock is removed, the waits are settled, and then the request is tested (flock(2), "converting
    /// a lock"; the order is this project's choice). The place of the old lock stays, so it takes no memory.
    fn convert_flock(&mut self, look: Look, nb: bool, wanted: Wait, notes: &mut Vec<Note>)
        requires asked { IsFlockAsked self.old look wanted }
        requires place { has_place_at (slice_get self.old.books.items look.file) look.desc ≡ true }
        requires empty { notes.old.items ≡ [] }
        requires room { length (machine_waits self.old) + 2 ≤ vec_capacity notes.old }
        ensures told { (S : State) → Shows self.old S →
            (T : State) × ConversionComesTo (machine_rules self.old) S look nb wanted (record { told = notes.new.items; after = T }) × Shows self.new T }
        ensures few { length notes.new.items + length (machine_waits self.new) ≤ vec_capacity notes.new }
        ensures same_rules { SameRules self.old self.new }
    {
        let Wait { p, n, .. } = wanted;

        // The caller's note stands before the grants, and is known after them.
        notes.push_reserved(Note::Waits { p, n });
        self.change_flock(look.file, look.desc, None);
        self.settle(notes);
        notes[0] = self.test_flock(look, nb, wanted);
    }

    /// The test of a request for whose lock a place is kept: with `LOCK_NB` it is refused where a lock is in the way, and
    /// without it waits (flock(2), `EWOULDBLOCK`). It takes no memory.
    fn test_flock(&mut self, look: Look, nb: bool, wanted: Wait) -> Note
        requires asked { IsFlockAsked self.old look wanted }
        requires place { has_place_at (slice_get self.old.books.items look.file) look.desc ≡ true }
        ensures told { (grants : List Note) (S : State) → Shows self.old S →
            (T : State) × FlockTestComesTo (machine_rules self.old) S nb wanted grants (record { told = result ∷ grants; after = T }) × Shows self.new T }
        ensures few { length (machine_waits self.new) ≤ length (machine_waits self.old) + 1 }
        ensures same_rules { SameRules self.old self.new }
    {
        let Wait { p, n, .. } = wanted;
        if !self.is_blocked(!nb, &wanted) {
            self.change_flock(look.file, look.desc, Some(wanted.mode));
            return answered(p, n, Reply::Ok);
        }
        if nb {
            return refused(p, n, Errno::EAGAIN);
        }
        self.join(wanted);
        Note::Waits { p, n }
    }

    /// The place that is kept for the flock lock of the description, with the mode that stands there.
    fn flock_place(&self, file: u8, description: u64) -> Option<Option<Mode>>
        requires file { file < FILES }
        ensures mode { option_flatten result ≡ (machine_locks self.now).flocks file description }
        ensures place { IsSome result → has_place_at (slice_get self.now.books.items file) description ≡ true }
    {
        self.books[usize::from(file)].flock_place(description)
    }

    /// Keeps a place for the flock lock of the description.
    fn place_flock(&mut self, file: u8, description: u64) -> Result<(), Memory>
        requires file { file < FILES }
        ensures place { OnOk result (has_place_at (slice_get self.new.books.items file) description ≡ true) }
        ensures same { SameMachine self.old self.new }
        ensures states { self.new.states ≡ self.old.states }
        ensures tables { self.new.tables ≡ self.old.tables }
    {
        self.books[usize::from(file)].flock_reserve(description)
    }

    /// The description has this flock mode from now on, in the place that is kept, or none. It takes no memory. No process
    /// waits for another by a flock lock, so the waits are told no more than that the file has changed, and not even that where
    /// nobody can be free then who was blocked: the description had no lock, or a shared one of several.
    pub(super) fn change_flock(&mut self, file: u8, description: u64, mode: Option<Mode>)
        requires file { file < FILES }
        requires owner { MayLock self.old.tables file (Owner.Description description) }
        requires place { (m : Mode) → mode ≡ Some m → has_place_at (slice_get self.old.books.items file) description ≡ true }
        requires free { (m : Mode) → mode ≡ Some m → ¬ FlockConflict ((machine_locks self.old).flocks file) (Owner.Description description) m }
        ensures shows { (S : State) → Shows self.old S → Shows self.new (with_flock_mode S file description mode) }
        ensures places { KeepPlaces self.old self.new }
        ensures states { self.new.states ≡ self.old.states }
        ensures tables { self.new.tables ≡ self.old.tables }
        ensures waits { machine_waits self.new ≡ machine_waits self.old }
        ensures same_rules { SameRules self.old self.new }
    {
        // A law, and nothing to run.
        stay_free_of_cycles();
        let book = &mut self.books[usize::from(file)];
        let had = book.flock_set_reserved(description, mode);
        let freed = may_free(book, had);
        touch_freed(&mut self.waits, file, freed);
    }
}

impl FlockOp {
    /// The mode that it asks for, and none where it unlocks (flock(2)).
    pub(super) fn mode(self) -> Option<Mode>
        ensures { result ≡ flock_wanted_mode self }
    {
        match self {
            FlockOp::Sh => Some(Mode::Read),
            FlockOp::Ex => Some(Mode::Write),
            FlockOp::Un => None,
        }
    }
}

/// Whether somebody may be free who was blocked, where a lock of this mode, if there was one, went or became another: not where it was a
/// shared one of several.
fn may_free(book: &Book, had: Option<Mode>) -> bool
    ensures { IsFalse result → FreesNobody book.now had }
{
    match had {
        None => false,
        Some(Mode::Read) => !book.flock_blocks_all(Mode::Write),
        Some(Mode::Write) => true,
    }
}

/// The file counts as changed where a lock on it went or became another, so that a wait may be free.
fn touch_freed(waits: &mut Waits, file: u8, freed: bool)
    requires { file < FILES }
    ensures same { SameWaits waits.old waits.new }
    ensures told { (locks : Locks) → AreTold waits.old locks → AreTold waits.new locks }
    ensures blocked { (before after : Locks) → AreBlockedElsewhere waits.old before → AgreeElsewhere file before after
        → (IsFalse freed → StayBlocked before after) → AreBlockedElsewhere waits.new after }
{
    if freed {
        waits.touch(file);
    }
}

/// The request for a flock lock of this mode, as it would wait.
pub(super) fn wanted_flock(p: u8, n: u64, look: Look, mode: Mode) -> Wait
    ensures { result ≡ wanted_flock_of p n look mode }
{
    Wait {
        p,
        n,
        file: look.file,
        family: Family::Whole,
        owner: Owner::Description(look.desc),
        span: Span::WHOLE_FILE,
        mode,
    }
}

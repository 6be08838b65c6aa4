//! The pending requests, in order of arrival.
ghost use Rattle.std.specs.Prelude.{ℕ, ◌⊎◌, ◌≡◌, ◌==◌, ◌≢◌, ◌<◌, ◌≤◌, ◌↔◌, List, [], ◌∷◌, ◌++◌, length, vec_capacity, IfOk, IfSome, IfNone, IsTrue, IsFalse, All, AllPairs, Any, slice_get, None, Some, false, not, take};
ghost use Rattle.std.specs.List.{filter, position};
ghost use Rattle.wait_core.specs.declared.files.TheConstants.{FILES};
ghost use Rattle.wait_core.specs.declared.processes.TheConstants.{PROCESSES};
ghost use Rattle.wait_core.specs.declared.Policy.TheVariants.{Queue};
ghost use Rattle.wait_core.specs.Files.{has_file};
ghost use Rattle.wait_core.specs.Cycles.{IsTraditional};
ghost use Rattle.wait_core.specs.Pairs.{IsBehindNone, IsConflictOf, IsOn};
ghost use Rattle.wait_core.specs.PairsView.{TellsQueue};
ghost use Rattle.wait_core.specs.Processes.{AreThoseWaiting, is_member};
ghost use Rattle.wait_core.specs.Queues.{AreQueues, AreQueues-prop, links_in, waits_on};
ghost use Rattle.wait_core.specs.WellFormed.{IsWellFormed};

mod cycles;

use crate::files::{FILES, FileSet};
use crate::pairs::Pairs;
use crate::processes::ProcessSet;
use crate::queues::{FileWaits, Queues};
use crate::{Policy, Wait};
use lock_book::{Book, Owner, conflicts_are_decided};
use range_core::{Memory, Span};
use std::alloc::Global;

/// The pending requests, in order of arrival, one at most of a process; and which process waits for which by a lock, as
/// [`Waits::join`], [`Waits::leave`], [`Waits::refresh`] and [`Waits::refresh_owner`] were last told.
///
/// They also know on which files something has changed since [`Waits::forget_changes`]: a wait that joined or left, what
/// [`Waits::touch`] and [`Waits::refresh`] were told, or what [`Waits::refresh_owner`] was told and a wait meets. Where each wait was
/// blocked then, a wait on another file is blocked still.
///
/// Beside the order of arrival each file has a queue of its own: what a change of its locks or a wait on it meets is looked for there
/// alone. Only [`Waits::new`] takes memory.
#[derive(Drop)]
pub struct Waits {
    waits: Vec<Wait>,
    /// The waits on each file.
    queues: Queues,
    /// The processes that wait.
    waiting: ProcessSet,
    pairs: Pairs,
    /// The processes whose waits stood behind one that conflicts with theirs when they joined, under the queue policy.
    behind: ProcessSet,
    /// Row `p` has the processes of which a traditional wait stands before that of process `p`, a traditional one that conflicts with
    /// it, under the queue policy.
    ahead: Pairs,
    changed: FileSet,
    policy: Policy,
    processes: u8,
    ghost few: { processes ≤ PROCESSES },
    ghost room: { processes ≤ vec_capacity waits },
    ghost well_formed: { All (IsWellFormed processes) waits.items },
    ghost apart: { AllPairs (λ v w. v.p ≢ w.p) waits.items },
    ghost short: { length waits.items ≤ PROCESSES },
    ghost linked: { AreQueues queues (waits_on waits.items) } by { AreQueues-prop queues (waits_on waits.items) },
    ghost free: { (p : ℕ) → All (λ wait. wait.p ≢ p) waits.items → (links_in queues).waits p ≡ None },
    ghost known: { AreThoseWaiting waiting waits.items },
    ghost behind_none: { policy ≡ Queue → AllPairs (IsBehindNone behind) waits.items },
    ghost ahead_told: { policy ≡ Queue → ∥ TellsQueue ahead waits.items ∥₁ },
}

#[tactic(auto, unfolding(crate::specs::WaitsView::waits_of, crate::specs::WaitsView::policy_of, crate::specs::WaitsView::processes_of, crate::specs::WaitsView::has_pair, crate::specs::Settled::changed_files))]
impl Waits {
    ghost use Rattle.wait_core.specs.Locks.{Locks, locks_of};
    ghost use Rattle.wait_core.specs.Blocking.{AllBlocked, IsBlocked, IsNextReady, IsQueued, WaitsConflict};
    ghost use Rattle.wait_core.specs.Settled.{AllBlockedKnown, AreBlockedElsewhere, AgreeElsewhere, AgreeOff, IsKnown, changed_files};
    ghost use Rattle.wait_core.specs.WaitsView.{waits_of, policy_of, processes_of, wait_of, without_wait_of, AreTold, AgreeBut, AgreeButOwner};

    /// No wait, with room for one of each process. The processes are numbered from 1, and at most 64 of them (this
    /// project's choice).
    pub fn new(alloc: Global, processes: u8, policy: Policy) -> Result<Waits, Memory>
        requires { processes ≤ 64 }
        ensures empty { IfOk result (λ waits. waits_of waits ≡ []) }
        ensures policy { IfOk result (λ waits. policy_of waits ≡ policy) }
        ensures processes { IfOk result (λ waits. processes_of waits ≡ processes) }
        ensures told { IfOk result (λ waits. (locks : Locks) → AreTold waits locks) }
        ensures blocked { IfOk result (λ waits. (locks : Locks) → AreBlockedElsewhere waits locks) }
    {
        let waits = Vec::with_capacity(alloc, usize::from(processes))?;
        Ok(Waits {
            waits,
            queues: Queues::new(alloc)?,
            waiting: ProcessSet::empty(),
            pairs: Pairs::new(alloc)?,
            behind: ProcessSet::empty(),
            ahead: Pairs::new(alloc)?,
            changed: FileSet::empty(),
            policy,
            processes,
        })
    }

    /// Puts the wait of a process that has none at the end of the list, in room that `new` took; `books` has the locks, a
    /// book for each of the 64 files.
    pub fn join(&mut self, wait: Wait, books: &[Book])
        requires none { wait_of (waits_of self.old) wait.p ≡ None }
        requires well_formed { IsWellFormed (processes_of self.old) wait }
        requires books { length books.now ≡ 64 }
        ensures last { waits_of self.new ≡ waits_of self.old ++ wait ∷ [] }
        ensures policy { policy_of self.new ≡ policy_of self.old }
        ensures processes { processes_of self.new ≡ processes_of self.old }
        ensures told { AreTold self.old (locks_of books.now) → AreTold self.new (locks_of books.now) }
        ensures blocked { (locks : Locks) → AreBlockedElsewhere self.old locks → AreBlockedElsewhere self.new locks }
    {
        self.push(wait, books);
        self.changed = self.changed.with(wait.file);
    }

    /// The same, of a wait that is blocked, so its file doesn't count as changed.
    pub fn join_blocked(&mut self, wait: Wait, books: &[Book])
        requires none { wait_of (waits_of self.old) wait.p ≡ None }
        requires well_formed { IsWellFormed (processes_of self.old) wait }
        requires books { length books.now ≡ 64 }
        requires blocked { IsBlocked (policy_of self.old) (locks_of books.now) (waits_of self.old) wait }
        ensures last { waits_of self.new ≡ waits_of self.old ++ wait ∷ [] }
        ensures policy { policy_of self.new ≡ policy_of self.old }
        ensures processes { processes_of self.new ≡ processes_of self.old }
        ensures told { AreTold self.old (locks_of books.now) → AreTold self.new (locks_of books.now) }
        ensures blocked { AreBlockedElsewhere self.old (locks_of books.now) → AreBlockedElsewhere self.new (locks_of books.now) }
    {
        self.push(wait, books);
    }

    /// Puts the wait at the end of the list, and says nothing of whether it is blocked.
    fn push(&mut self, wait: Wait, books: &[Book])
        requires none { wait_of (waits_of self.old) wait.p ≡ None }
        requires well_formed { IsWellFormed (processes_of self.old) wait }
        requires books { length books.now ≡ 64 }
        ensures last { waits_of self.new ≡ waits_of self.old ++ wait ∷ [] }
        ensures policy { policy_of self.new ≡ policy_of self.old }
        ensures processes { processes_of self.new ≡ processes_of self.old }
        ensures changed { changed_files self.new ≡ changed_files self.old }
        ensures told { AreTold self.old (locks_of books.now) → AreTold self.new (locks_of books.now) }
    {
        let ahead = self.queued_behind(&wait);
        self.behind = self.behind.put(wait.p, self.queued(&wait));
        self.ahead.tell_row(wait.p, ahead);
        self.pairs.tell(&wait, books);
        self.waiting = self.waiting.with(wait.p);
        self.queues.join(wait);
        self.waits.push_reserved(wait);
    }

    /// Takes the wait of the process out of the list, where it has one.
    pub fn leave(&mut self, p: u8) -> Option<Wait>
        ensures found { result ≡ wait_of (waits_of self.old) p }
        ensures well_formed { IfSome result (IsWellFormed (processes_of self.old)) }
        ensures rest { waits_of self.new ≡ without_wait_of (waits_of self.old) p }
        ensures policy { policy_of self.new ≡ policy_of self.old }
        ensures processes { processes_of self.new ≡ processes_of self.old }
        ensures told { (locks : Locks) → AreTold self.old locks → AreTold self.new locks }
        ensures blocked { (locks : Locks) → AreBlockedElsewhere self.old locks → AreBlockedElsewhere self.new locks }
    {
        let place = self.place_of(p)?;
        let wait = self.waits.remove(place);
        self.changed = self.changed.with(wait.file);
        self.waiting = self.waiting.without(p);
        self.pairs.forget(p);
        self.queues.leave(&wait);
        forget_ahead(&mut self.ahead, self.policy, p);
        Some(wait)
    }

    /// The place of the process' wait in the order of arrival, where it has one.
    fn place_of(&self, p: u8) -> Option<usize>
        ensures { result ≡ position (λ wait. wait.p == p) (waits_of self.now) }
    {
        self.waits.iter().position(|wait| wait.p == p)
    }

    /// Tells the pairs anew after a change of the file's book, the other books being as they were.
    pub fn refresh(&mut self, file: u8, books: &[Book])
        requires { length books.now ≡ 64 }
        ensures waits { waits_of self.new ≡ waits_of self.old }
        ensures policy { policy_of self.new ≡ policy_of self.old }
        ensures processes { processes_of self.new ≡ processes_of self.old }
        ensures told { (locks : Locks) → AreTold self.old locks → AgreeBut file locks (locks_of books.now) → AreTold self.new (locks_of books.now) }
        ensures blocked { file < FILES → (locks : Locks) → AreBlockedElsewhere self.old locks → AgreeElsewhere file locks (locks_of books.now)
            → AreBlockedElsewhere self.new (locks_of books.now) }
    {
        self.pairs.tell_all(self.queues.on(file), books);
        self.touch(file);
    }

    /// Tells the pairs anew after a change of this owner's locks on these bytes of the file, the other traditional locks being as
    /// they were: it asks this owner alone, of the waits that meet these bytes. Only where there is one the file counts as changed: the
    /// byte locks off these bytes are as they were, and so are the flock locks where these aren't all bytes, so each other wait is
    /// blocked as before.
    pub fn refresh_owner(&mut self, file: u8, owner: Owner, span: Span, books: &[Book])
        requires { length books.now ≡ 64 }
        ensures waits { waits_of self.new ≡ waits_of self.old }
        ensures policy { policy_of self.new ≡ policy_of self.old }
        ensures processes { processes_of self.new ≡ processes_of self.old }
        ensures told { (locks : Locks) → AreTold self.old locks → AgreeButOwner file owner span locks (locks_of books.now)
            → AreTold self.new (locks_of books.now) }
        ensures blocked { file < FILES → (locks : Locks) → AreBlockedElsewhere self.old locks → AgreeOff file span locks (locks_of books.now)
            → AreBlockedElsewhere self.new (locks_of books.now) }
    {
        if self.has_wait_on(file, span) {
            self.pairs
                .tell_of_owner(file, owner, span, self.queues.on(file), books);
            self.touch(file);
        }
    }

    /// Whether some wait is on the file, and on a range that meets this one.
    fn has_wait_on(&self, file: u8, span: Span) -> bool
        ensures { IsTrue result ↔ Any (IsOn file span) (waits_of self.now) }
    {
        self.on(file).any(|wait| wait.meets(span))
    }

    /// The waits on the file, the latest first.
    fn on(&self, file: u8) -> FileWaits<'_>
        ensures { result ≡ waits_on (waits_of self.now) file }
    {
        self.queues.on(file)
    }

    /// The file counts as changed, as after a change of its flock locks, of which the pairs say nothing.
    pub fn touch(&mut self, file: u8)
        ensures waits { waits_of self.new ≡ waits_of self.old }
        ensures policy { policy_of self.new ≡ policy_of self.old }
        ensures processes { processes_of self.new ≡ processes_of self.old }
        ensures told { (locks : Locks) → AreTold self.old locks → AreTold self.new locks }
        ensures blocked { file < FILES → (old new : Locks) → AreBlockedElsewhere self.old old → AgreeElsewhere file old new → AreBlockedElsewhere self.new new }
    {
        if file < FILES {
            self.changed = self.changed.with(file);
        }
    }

    /// No file counts as changed: each wait is known to be blocked.
    pub fn forget_changes(&mut self)
        ensures waits { waits_of self.new ≡ waits_of self.old }
        ensures policy { policy_of self.new ≡ policy_of self.old }
        ensures processes { processes_of self.new ≡ processes_of self.old }
        ensures told { (locks : Locks) → AreTold self.old locks → AreTold self.new locks }
        ensures blocked { (locks : Locks) → AllBlocked (policy_of self.old) locks [] (waits_of self.old) → AreBlockedElsewhere self.new locks }
        ensures forgotten { (file : ℕ) → has_file (changed_files self.new) file ≡ false }
    {
        self.changed = FileSet::empty();
    }

    /// The earliest wait that nothing blocks, which stays in the list; `None` where each wait is blocked (POSIX leaves open
    /// which waiting process gets a lock first; the earliest is this project's choice). Held locks block, and under
    /// [`Policy::Queue`] also the earlier waits that conflict.
    pub fn next_ready(&self, books: &[Book]) -> Option<Wait>
        requires { length books.now ≡ 64 }
        ensures ready { IfSome result (IsNextReady (policy_of self.now) (locks_of books.now) (waits_of self.now)) }
        ensures found { IfSome result (λ wait. wait_of (waits_of self.now) wait.p ≡ Some wait) }
        ensures well_formed { IfSome result (IsWellFormed (processes_of self.now)) }
        ensures settled { IfNone result (AllBlocked (policy_of self.now) (locks_of books.now) [] (waits_of self.now)) }
    {
        self.next_ready_among(true, books)
    }

    /// The same, where each wait on a file that doesn't count as changed is known to be blocked, and the pairs are those of the
    /// books: of a wait on a changed file it asks the books only where no process is told to be in its way, and it looks at none
    /// where no file counts as changed.
    pub fn next_ready_on_changed(&self, books: &[Book]) -> Option<Wait>
        requires books { length books.now ≡ 64 }
        requires told { ∥ AreTold self.now (locks_of books.now) ∥₁ }
        requires blocked { ∥ AreBlockedElsewhere self.now (locks_of books.now) ∥₁ }
        ensures ready { IfSome result (IsNextReady (policy_of self.now) (locks_of books.now) (waits_of self.now)) }
        ensures found { IfSome result (λ wait. wait_of (waits_of self.now) wait.p ≡ Some wait) }
        ensures well_formed { IfSome result (IsWellFormed (processes_of self.now)) }
        ensures settled { IfNone result (AllBlocked (policy_of self.now) (locks_of books.now) [] (waits_of self.now)) }
    {
        // A law, and nothing to run.
        conflicts_are_decided();
        if self.changed.is_empty() {
            return None;
        }
        self.next_ready_among(false, books)
    }

    /// The earliest wait that nothing blocks: all are asked, or but for those that are known to be blocked.
    fn next_ready_among(&self, all: bool, books: &[Book]) -> Option<Wait>
        requires books { length books.now ≡ 64 }
        requires others { IsFalse all → ∥ AllBlockedKnown self.now (locks_of books.now) ∥₁ }
        ensures ready { IfSome result (IsNextReady (policy_of self.now) (locks_of books.now) (waits_of self.now)) }
        ensures found { IfSome result (λ wait. wait_of (waits_of self.now) wait.p ≡ Some wait) }
        ensures well_formed { IfSome result (IsWellFormed (processes_of self.now)) }
        ensures settled { IfNone result (AllBlocked (policy_of self.now) (locks_of books.now) [] (waits_of self.now)) }
    {
        for i in 0..self.waits.len() {
            if !self.is_blocked_among(i, all, books) {
                return Some(self.waits[i]);
            }
        }
        None
    }

    /// Whether the policy is to queue and some wait of the list conflicts with this one (this project's choice).
    pub fn queued(&self, wait: &Wait) -> bool
        ensures { IsTrue result ↔ IsQueued (policy_of self.now) (waits_of self.now) wait.now }
    {
        match self.policy {
            Policy::Held => false,
            Policy::Queue => wait.conflicts_with_any(self.on(wait.file)),
        }
    }

    /// The processes that a traditional wait would stand behind under the queue policy, were it to join: those of which a traditional
    /// wait conflicts with it.
    fn queued_behind(&self, wait: &Wait) -> ProcessSet
        ensures { policy_of self.now ≡ Queue → (q : ℕ) →
            IsTrue (is_member result q) ↔ IsTraditional wait.now × Any (IsConflictOf q wait.now) (waits_of self.now) }
    {
        match self.policy {
            Policy::Held => ProcessSet::empty(),
            Policy::Queue => wait.blocking_if_traditional(self.on(wait.file)),
        }
    }

    /// The processes that wait.
    pub fn waiting(&self) -> ProcessSet
        ensures { AreThoseWaiting result (waits_of self.now) }
    {
        self.waiting
    }

    /// The wait of the process, where it has one.
    pub fn of(&self, p: u8) -> Option<Wait>
        ensures found { result ≡ wait_of (waits_of self.now) p }
        ensures well_formed { IfSome result (IsWellFormed (processes_of self.now)) }
    {
        self.waits.iter().find(|wait| wait.p == p).copied()
    }

    /// The wait at this place in the order of arrival, counted from 0, where there is one.
    pub fn at(&self, i: usize) -> Option<Wait>
        ensures found { result ≡ slice_get (waits_of self.now) i }
        ensures well_formed { IfSome result (IsWellFormed (processes_of self.now)) }
    {
        self.waits.get(i).copied()
    }

    /// The waits, in order of arrival. While a process has no wait, there are fewer waits than processes.
    pub fn list(&self) -> &[Wait]
        ensures waits { result.now ≡ waits_of self.now }
        ensures few { (p : ℕ) → 1 ≤ p → p ≤ processes_of self.now → wait_of (waits_of self.now) p ≡ None → length (waits_of self.now) < processes_of self.now }
    {
        &self.waits
    }

    /// Whether the wait at this place is blocked, which is asked only where it isn't known, or of all.
    fn is_blocked_among(&self, i: usize, all: bool, books: &[Book]) -> bool
        requires place { i < length (waits_of self.now) }
        requires books { length books.now ≡ 64 }
        requires others { IsFalse all → ∥ AllBlockedKnown self.now (locks_of books.now) ∥₁ }
        ensures { (wait : Wait) → slice_get (waits_of self.now) i ≡ Some wait
            → IsTrue result ↔ IsBlocked (policy_of self.now) (locks_of books.now) (take i (waits_of self.now)) wait }
    {
        // A law, and nothing to run.
        conflicts_are_decided();
        !all && self.is_known_blocked(&self.waits[i]) || self.is_blocked(i, books)
    }

    /// Whether the wait is known to be blocked: on a file that doesn't count as changed, or told to wait for a process by a lock.
    fn is_known_blocked(&self, wait: &Wait) -> bool
        requires { IsWellFormed (processes_of self.now) wait.now }
        ensures { IsTrue result → IsKnown self.now wait.now }
    {
        !self.changed.has(wait.file) || self.pairs.has_any(wait.p)
    }

    /// Whether the wait at this place is blocked.
    fn is_blocked(&self, i: usize, books: &[Book]) -> bool
        requires place { i < length (waits_of self.now) }
        requires books { length books.now ≡ 64 }
        ensures { (wait : Wait) → slice_get (waits_of self.now) i ≡ Some wait
            → IsTrue result ↔ IsBlocked (policy_of self.now) (locks_of books.now) (take i (waits_of self.now)) wait }
    {
        let wait = &self.waits[i];
        self.policy == Policy::Queue && self.is_behind(i) || wait.is_blocked_by_lock(books)
    }

    /// Whether an earlier wait conflicts with the one at this place, under the queue policy. It looks at the earlier ones only
    /// where one did when the wait joined.
    fn is_behind(&self, i: usize) -> bool
        requires policy { policy_of self.now ≡ Queue }
        requires place { i < length (waits_of self.now) }
        ensures { (wait : Wait) → slice_get (waits_of self.now) i ≡ Some wait → IsTrue result ↔ Any (λ v. WaitsConflict v wait) (take i (waits_of self.now)) }
    {
        let wait = &self.waits[i];
        self.behind.has(wait.p)
            && self.waits[..i]
                .iter()
                .any(|other| other.conflicts_with(wait))
    }
}

/// A process' wait leaves the list, of which these pairs are kept under the queue policy.
fn forget_ahead(ahead: &mut Pairs, policy: Policy, p: u8)
    ensures { policy ≡ Queue → (waits : List Wait) → TellsQueue ahead.old waits → TellsQueue ahead.new (filter (λ wait. not (wait.p == p)) waits) }
{
    match policy {
        Policy::Held => {}
        Policy::Queue => {
            ahead.forget(p);
            ahead.forget_blocker(p);
        }
    }
}

//! How many write locks are among the runs of a subtree.
ghost use Rattle.std.specs.Prelude.{◌≡◌, ◌-◌, ◌<◌, ◌^◌, [], ◌∷◌, ◌++◌, true, false, List};
ghost use Rattle.std.specs.List.{list_any};
ghost use Rattle.range_core.specs.declared.Mode.{Mode};
ghost use Rattle.range_core.specs.declared.Span.{Span};
ghost use Rattle.owner_runs.specs.Tests.{conflicts, CountsWrites, modes_conflict};

use range_core::{Mode, Span};
use summary_tree::{Query, Summary};

/// How many runs are write locks. Where one goes it is known without a look at the others whether some are left.
#[derive(Clone, Copy)]
pub struct Writes {
    /// Their number; the greatest stands for all beyond it too.
    count: u32,
}

impl Writes {
    /// One run more, wherever it stands among the others.
    #[tactic(auto, using(crate::proofs::WriteLemmas::one_more))]
    fn note(&mut self, run: &(Mode, Span))
        ensures { (front back : List (Mode × Span)) → CountsWrites self.old (front ++ back) → CountsWrites self.new (front ++ run.now ∷ back) }
    {
        if run_conflicts(Mode::Read, run) {
            self.count = self.count.saturating_add(1);
        }
    }

    /// One run less. Where it is a write lock of more than can be counted, it says no, for how many are left isn't known.
    #[tactic(auto, using(crate::proofs::WriteLemmas::one_more))]
    fn forget(&mut self, run: &(Mode, Span)) -> bool
        ensures left { (front back : List (Mode × Span)) → CountsWrites self.old (front ++ run.now ∷ back) → result ≡ true → CountsWrites self.new (front ++ back) }
        ensures known { self.old.count < 2 ^ 32 - 1 → result ≡ true }
    {
        if run_conflicts(Mode::Read, run) {
            if self.count == u32::MAX {
                return false;
            }
            self.count = self.count.saturating_sub(1);
        }
        true
    }

    /// The runs of another one more.
    #[tactic(auto, using(crate::proofs::WriteLemmas::both))]
    fn note_all(&mut self, more: Writes)
        ensures { (runs others : List (Mode × Span)) → CountsWrites self.old runs → CountsWrites more others → CountsWrites self.new (runs ++ others) }
    {
        self.count = self.count.saturating_add(more.count);
    }

    /// Whether some run may conflict with a lock of the wanted mode. It says no only where none does.
    fn may_conflict(&self, wanted: Mode) -> bool
        ensures { (runs : List (Mode × Span)) → CountsWrites self.now runs → result ≡ false → list_any (conflicts wanted) runs ≡ false }
    {
        match wanted {
            Mode::Write => true,
            Mode::Read => self.count > 0,
        }
    }
}

impl Summary<(Mode, Span)> for Writes {
    ghost tells = { CountsWrites };

    fn none() -> Writes {
        Writes { count: 0 }
    }

    fn add(&mut self, run: &(Mode, Span)) {
        self.note(run);
    }

    fn leave(&mut self, run: &(Mode, Span)) -> bool {
        self.forget(run)
    }

    fn append(&mut self, more: &Writes) {
        self.note_all(*more);
    }
}

/// Whether the run conflicts with a lock of the wanted mode by another owner.
fn run_conflicts(wanted: Mode, run: &(Mode, Span)) -> bool
    ensures { result ≡ conflicts wanted run.now }
{
    run.0.conflicts_with(wanted)
}

/// A run that conflicts with a lock of this mode by another owner.
#[derive(Clone, Copy)]
pub(crate) struct Conflicting(pub(crate) Mode);

impl Query<(Mode, Span), Writes> for Conflicting {
    ghost hits = { λ query run. conflicts query.0 run };

    fn hits(&self, run: &(Mode, Span)) -> bool {
        run_conflicts(self.0, run)
    }

    fn may_hit(&self, writes: &Writes) -> bool {
        writes.may_conflict(self.0)
    }
}

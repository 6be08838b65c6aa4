//! How far the runs of a subtree reach.
ghost use Rattle.std.specs.Prelude.{◌≡◌, ℕ, Bool, true, false, List, [], ◌∷◌, ◌++◌, ◌||◌};
ghost use Rattle.interval_index.specs.declared.Run.{Run};
ghost use Rattle.interval_index.specs.Tests.{conflicts_with};
ghost use Rattle.interval_index.specs.Reaching.{is_reached, outlasts, reaches, stays_without, TellsOf, Tells};

use crate::least::Least;
use crate::{Holder, Run};
use range_core::Mode;
use summary_tree::Summary;

/// The greatest last byte of any run, the owner of such a run, and the greatest last byte of another owner's runs.
#[derive(Clone, Copy)]
pub(crate) struct Reach {
    holder: Holder,
    last: Option<u64>,
    other: Option<u64>,
}

/// How far all runs reach, and how far those do that exclude others; and the least owners.
#[derive(Clone, Copy)]
pub struct Reaches {
    pub(crate) least: Least,
    writes: Reach,
    all: Reach,
}

/// The later of two last bytes, if there is one.
fn later(last: Option<u64>, other: Option<u64>) -> Option<u64>
    ensures { (byte : ℕ) → is_reached result byte ≡ (is_reached last byte || is_reached other byte) }
{
    match (last, other) {
        (None, _) => other,
        (_, None) => last,
        (Some(a), Some(b)) => { if a < b { Some(b) } else { Some(a) } }
    }
}

/// Whether the one last byte is no earlier than the other.
fn is_as_late(last: Option<u64>, other: Option<u64>) -> bool
    ensures yes { result ≡ true → (byte : ℕ) → is_reached other byte ≡ true → is_reached last byte ≡ true }
    ensures no { result ≡ false → (byte : ℕ) → is_reached last byte ≡ true → is_reached other byte ≡ true }
{
    match (last, other) {
        (_, None) => true,
        (None, Some(_)) => false,
        (Some(a), Some(b)) => a >= b,
    }
}

impl Reach {
    /// That of no run.
    fn nobody() -> Reach
        ensures { (kept : Run → Bool) → TellsOf kept result [] }
    {
        Reach {
            holder: Holder {
                class: 0,
                number: 0,
            },
            last: None,
            other: None,
        }
    }

    /// That of one run.
    fn of(run: &Run) -> Reach
        ensures { (kept : Run → Bool) → kept run.now ≡ true → TellsOf kept result (run.now ∷ []) }
    {
        Reach {
            holder: run.holder(),
            last: Some(run.span.last),
            other: None,
        }
    }

    /// That of the runs of both.
    fn append(&mut self, more: Reach)
        ensures { (kept : Run → Bool) (runs others : List Run) → TellsOf kept self.old runs → TellsOf kept more others → TellsOf kept self.new (runs ++ others) }
    {
        if self.holder == more.holder {
            self.last = later(self.last, more.last);
            self.other = later(self.other, more.other);
        } else if is_as_late(self.last, more.last) {
            self.other = later(self.other, more.last);
        } else {
            self.other = later(more.other, self.last);
            self.last = more.last;
            self.holder = more.holder;
        }
    }

    /// One run more, wherever it stands. Where others outlast it there is nothing to tell of it.
    fn add(&mut self, run: &Run)
        ensures { (kept : Run → Bool) (runs : List Run) → kept run.now ≡ true → TellsOf kept self.old runs → TellsOf kept self.new (runs ++ run.now ∷ []) }
    {
        if !self.outlasts(run) {
            self.append(Reach::of(run));
        }
    }

    /// Whether others reach farther than this run, whoever asks.
    fn outlasts(&self, run: &Run) -> bool
        ensures { result ≡ outlasts self.now run.now }
    {
        let last = if run.holder() == self.holder {
            self.last
        } else {
            self.other
        };
        match last {
            None => false,
            Some(last) => run.span.last < last,
        }
    }

    /// Whether some run of another owner ends at this byte or behind it.
    pub(crate) fn reaches(&self, holder: Holder, byte: u64) -> bool
        ensures { result ≡ reaches self.now holder byte }
    {
        let last = if holder == self.holder {
            self.other
        } else {
            self.last
        };
        match last {
            None => false,
            Some(last) => byte <= last,
        }
    }
}

impl Reaches {
    /// How far the runs reach that conflict with a lock of this mode.
    pub(crate) fn conflicting(&self, wanted: Mode) -> &Reach
        ensures { (runs : List Run) → Tells self.now runs → TellsOf (λ run. conflicts_with wanted run.mode) result.now runs }
    {
        match wanted {
            Mode::Read => &self.writes,
            Mode::Write => &self.all,
        }
    }

    /// Whether the same is told of the runs without this one. It says yes only where it is.
    fn stays_without(&self, run: &Run) -> bool
        ensures { result ≡ stays_without self.now run.now }
    {
        self.all.outlasts(run)
            && self.least.precedes(run)
            && (!Mode::Read.conflicts_with(run.mode) || self.writes.outlasts(run))
    }

    /// One run more, behind the others.
    fn note(&mut self, run: &Run)
        ensures { (runs : List Run) → Tells self.old runs → Tells self.new (runs ++ run.now ∷ []) }
    {
        self.all.add(run);
        self.least.add(run);
        match run.mode {
            Mode::Read => {}
            Mode::Write => self.writes.add(run),
        }
    }
}

impl Summary<Run> for Reaches {
    ghost tells = { Tells };

    fn none() -> Reaches {
        Reaches {
            all: Reach::nobody(),
            writes: Reach::nobody(),
            least: Least::nobody(),
        }
    }

    fn add(&mut self, run: &Run) {
        self.note(run);
    }

    fn leave(&mut self, run: &Run) -> bool {
        self.stays_without(run)
    }

    fn append(&mut self, more: &Reaches) {
        self.all.append(more.all);
        self.writes.append(more.writes);
        self.least.append(more.least);
    }
}

//! Which waits on a file a change may have freed: a settling asks no other.
ghost use Rattle.std.specs.Prelude.{◌≡◌, ◌↔◌, ◌⊎◌, IsTrue};
ghost use Rattle.lock_server.specs.Files.{FileState};
ghost use Rattle.lock_server.specs.Freed.{FreesBehind, IsAmong, IsKnown, LeavingFrees, Reaches, reach_of};

use crate::blocking::meet;
use crate::{Family, Mode, Pending, Policy, Span};

/// Where on a file a lock is or was: on a range of bytes, or by flock.
#[derive(Clone, Copy)]
pub struct Reach {
    pub family: Family,
    /// The bytes; for a flock lock the whole file.
    pub span: Span,
}

/// Which waits on a file a change may have freed: each other wait is blocked as it was before the change.
#[derive(Clone, Copy)]
pub enum Freed {
    /// None.
    Nobody,
    /// Those of this owner for a lock there.
    Of(u64, Reach),
    /// Those for a lock there.
    Meeting(Reach),
    /// Any.
    Anybody,
}

/// What is known of the waits on a file that is being settled.
#[derive(Clone, Copy)]
pub struct Known {
    /// So many, the earliest, are blocked.
    pub blocked: u64,
    /// Each of the others is blocked, but for these.
    pub freed: Freed,
}

impl Reach {
    /// Where the wait is to have its lock.
    pub fn of(wait: &Pending) -> Reach
        ensures { result ≡ reach_of wait.now }
    {
        Reach {
            family: wait.family,
            span: wait.span,
        }
    }

    /// Whether the wait is for a lock there.
    pub fn meets(self, wait: &Pending) -> bool
        ensures { IsTrue result ↔ Reaches self wait.now }
    {
        wait.family == self.family && meet(wait.family, self.span, wait.span)
    }

    /// Whether each wait for a lock at the other place is for one here.
    #[tactic(auto, using(crate::proofs::FreedLemmas::reaches_wider))]
    pub fn covers(self, other: Reach) -> bool
        ensures { IsTrue result → (wait : Pending) → Reaches other wait → Reaches self wait }
    {
        self.family == other.family
            && self.span.first <= other.span.first
            && other.span.last <= self.span.last
    }

    /// Whether a lock of this mode here holds back each other owner's wait for a lock at the other place.
    fn bars(self, mode: Mode, other: Reach) -> bool
        ensures write { IsTrue result → mode ≡ Mode.Write }
        ensures covers { IsTrue result → (wait : Pending) → Reaches other wait → Reaches self wait }
    {
        mode == Mode::Write && self.covers(other)
    }

    /// From the first byte of both to the last of both.
    #[tactic(auto, using(crate::proofs::FreedLemmas::reaches_wider))]
    fn hull(self, other: Reach) -> Reach
        requires { self.family ≡ other.family }
        ensures { (wait : Pending) → (Reaches self wait ⊎ Reaches other wait) → Reaches result wait }
    {
        Reach {
            family: self.family,
            span: Span {
                first: self.span.first.min(other.span.first),
                last: self.span.last.max(other.span.last),
            },
        }
    }

    /// Whom the grant may have freed, where before it only waits for a lock there may have been: behind a write lock on all of it
    /// each other wait there is blocked, but for its owner's own.
    fn behind(self, granted: &Pending) -> Freed
        ensures { FreesBehind (Freed.Meeting self) granted.now result }
    {
        let lock = Reach::of(granted);
        if lock.bars(granted.mode, self) {
            return Freed::Of(granted.owner, lock);
        }
        if self.family == lock.family {
            return Freed::Meeting(self.hull(lock));
        }
        Freed::Anybody
    }
}

impl Freed {
    /// Which waits on its file a wait may free that leaves: where waits are queued, those that may have stood behind it.
    pub fn by_leaving(policy: Policy, wait: &Pending) -> Freed
        ensures { LeavingFrees policy wait.now result }
    {
        match policy {
            Policy::Held => Freed::Nobody,
            Policy::Queue => Freed::Meeting(Reach::of(wait)),
        }
    }

    /// Whether the wait is among them.
    pub fn contains(self, wait: &Pending) -> bool
        ensures { IsTrue result ↔ IsAmong self wait.now }
    {
        match self {
            Freed::Nobody => false,
            Freed::Of(owner, reach) => wait.owner == owner && reach.meets(wait),
            Freed::Meeting(reach) => reach.meets(wait),
            Freed::Anybody => true,
        }
    }
    /// Whom the grant may have freed, where before it only these may have been.
    pub fn behind(self, granted: &Pending) -> Freed
        ensures { FreesBehind self granted.now result }
    {
        match self {
            Freed::Of(_, reach) => reach.behind(granted),
            Freed::Meeting(reach) => reach.behind(granted),
            Freed::Nobody | Freed::Anybody => Freed::Anybody,
        }
    }
}

impl Known {
    /// Nothing is known yet.
    pub fn nothing() -> Known
        ensures { (policy : Policy) (F : FileState) → IsKnown policy F result }
    {
        Known {
            blocked: 0,
            freed: Freed::Anybody,
        }
    }
}

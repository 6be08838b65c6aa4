//! What is asked of the waits on a file.
ghost use Rattle.std.specs.Prelude.{◌≡◌, ◌==◌, ◌&&◌};
ghost use Rattle.lock_server.specs.Asking.{are_conflicting, is_among, is_of_kind};
ghost use Rattle.lock_server.specs.Leaving.{is_leaving};

use crate::freed::{Freed, Reach};
use crate::hull::Hull;
use crate::leaving::Leaving;
use crate::{Family, Pending};
use summary_tree::Query;

/// The wait with this ticket.
#[derive(Clone, Copy)]
pub(crate) struct Ticketed(pub(crate) u64);

/// Which waits of an owner.
#[derive(Clone, Copy)]
pub(crate) enum Kind {
    /// All.
    Any,
    /// Those for a flock lock.
    Flock,
    /// Those that take part in the search for deadlocks.
    Detected,
}

/// Such waits of this owner.
#[derive(Clone, Copy)]
pub(crate) struct OfOwner {
    pub(crate) owner: u64,
    pub(crate) kind: Kind,
}

/// Those that conflict with this one.
#[derive(Clone, Copy)]
pub(crate) struct Conflicting(pub(crate) Pending);

impl Query<Pending, Hull> for Ticketed {
    ghost hits = { λ query wait. wait.ticket == query.0 };

    fn hits(&self, wait: &Pending) -> bool {
        wait.ticket == self.0
    }

    fn may_hit(&self, hull: &Hull) -> bool {
        hull.tickets.meets(self.0, self.0)
    }
}

impl Kind {
    /// Whether the wait is of this kind.
    fn contains(self, wait: &Pending) -> bool
        ensures { result ≡ is_of_kind self wait.now }
    {
        match self {
            Kind::Any => true,
            Kind::Flock => wait.family == Family::Whole,
            Kind::Detected => wait.detect,
        }
    }
}

impl Query<Pending, Hull> for OfOwner {
    ghost hits = { λ query wait. is_of_kind query.kind wait && (wait.owner == query.owner) };

    fn hits(&self, wait: &Pending) -> bool {
        self.kind.contains(wait) && wait.owner == self.owner
    }

    fn may_hit(&self, hull: &Hull) -> bool {
        hull.owners.meets(self.owner, self.owner)
    }
}

impl Query<Pending, Hull> for Conflicting {
    ghost hits = { λ query wait. are_conflicting wait query.0 };

    fn hits(&self, wait: &Pending) -> bool {
        wait.conflicts_with(&self.0)
    }

    fn may_hit(&self, hull: &Hull) -> bool {
        hull.meets(Reach::of(&self.0))
    }
}

impl Query<Pending, Hull> for Leaving {
    ghost hits = { is_leaving };

    fn hits(&self, wait: &Pending) -> bool {
        self.contains(wait)
    }

    fn may_hit(&self, hull: &Hull) -> bool {
        match self {
            Leaving::BytesOf(owner) => hull.owners.meets(*owner, *owner),
            Leaving::Of(owners) => hull.owners.meets(owners.first, owners.last),
            Leaving::All => true,
        }
    }
}

impl Query<Pending, Hull> for Freed {
    ghost hits = { is_among };

    fn hits(&self, wait: &Pending) -> bool {
        self.contains(wait)
    }

    fn may_hit(&self, hull: &Hull) -> bool {
        match self {
            Freed::Nobody => false,
            Freed::Of(owner, reach) => hull.owners.meets(*owner, *owner) && hull.meets(*reach),
            Freed::Meeting(reach) => hull.meets(*reach),
            Freed::Anybody => true,
        }
    }
}

//! Within which numbers waits lie.
ghost use Rattle.std.specs.Prelude.{◌≡◌, ◌∷◌, [], ℕ, ◌≤◌, false};
ghost use Rattle.lock_server.specs.Freed.{Reaches};
ghost use Rattle.lock_server.specs.Hulls.{AreWithin, Holds, IsWithin};

use crate::freed::Reach;
use crate::{Family, Pending};
use summary_tree::Summary;

/// From the least to the greatest of some numbers.
#[derive(Clone, Copy)]
pub struct Between {
    least: u64,
    greatest: u64,
}

/// Within which numbers the waits lie: their tickets, their owners and the bytes of those for byte locks; and whether one is for a
/// flock lock.
#[derive(Clone, Copy)]
pub struct Hull {
    pub(crate) tickets: Between,
    pub(crate) owners: Between,
    bytes: Between,
    whole: bool,
}

impl Between {
    /// No number.
    fn none() -> Between {
        Between {
            least: u64::MAX,
            greatest: 0,
        }
    }

    /// From the one number to the other.
    fn of(least: u64, greatest: u64) -> Between
        ensures { Holds result least greatest }
    {
        Between { least, greatest }
    }

    /// From the least of both to the greatest.
    fn join(self, more: Between) -> Between
        ensures these { (least greatest : ℕ) → Holds self least greatest → Holds result least greatest }
        ensures more { (least greatest : ℕ) → Holds more least greatest → Holds result least greatest }
    {
        Between {
            least: self.least.min(more.least),
            greatest: self.greatest.max(more.greatest),
        }
    }

    /// Whether there may be lesser numbers than the one, and greater than the other.
    fn surrounds(self, least: u64, greatest: u64) -> bool {
        self.least < least && greatest < self.greatest
    }

    /// Whether some of the numbers may lie from the one to the other.
    pub(crate) fn meets(self, least: u64, greatest: u64) -> bool
        ensures { result ≡ false → (n m : ℕ) → Holds self n m → n ≤ greatest → least ≤ m → ⊥ }
    {
        self.least <= greatest && least <= self.greatest
    }
}

impl Hull {
    /// Within which numbers the wait lies.
    fn of(wait: &Pending) -> Hull
        ensures { AreWithin result (wait.now ∷ []) }
    {
        let (bytes, whole) = match wait.family {
            Family::Bytes => (Between::of(wait.span.first, wait.span.last), false),
            Family::Whole => (Between::none(), true),
        };
        Hull {
            tickets: Between::of(wait.ticket, wait.ticket),
            owners: Between::of(wait.owner, wait.owner),
            bytes,
            whole,
        }
    }

    /// Whether the wait lies at no end, so that it would be no narrower without it.
    fn surrounds(&self, wait: &Pending) -> bool {
        match wait.family {
            Family::Bytes => {
                self.tickets.surrounds(wait.ticket, wait.ticket)
                    && self.owners.surrounds(wait.owner, wait.owner)
                    && self.bytes.surrounds(wait.span.first, wait.span.last)
            }
            Family::Whole => false,
        }
    }

    /// Whether some of the waits may be for a lock there.
    pub(crate) fn meets(&self, reach: Reach) -> bool
        ensures { result ≡ false → (wait : Pending) → IsWithin self.now wait → Reaches reach wait → ⊥ }
    {
        match reach.family {
            Family::Bytes => self.bytes.meets(reach.span.first, reach.span.last),
            Family::Whole => self.whole,
        }
    }
}

impl Summary<Pending> for Hull {
    ghost tells = { AreWithin };

    fn none() -> Hull {
        Hull {
            tickets: Between::none(),
            owners: Between::none(),
            bytes: Between::none(),
            whole: false,
        }
    }

    fn add(&mut self, wait: &Pending) {
        self.append(&Hull::of(wait));
    }

    // The others lie within it in any case.
    fn leave(&mut self, wait: &Pending) -> bool {
        self.surrounds(wait)
    }

    fn append(&mut self, more: &Hull) {
        self.tickets = self.tickets.join(more.tickets);
        self.owners = self.owners.join(more.owners);
        self.bytes = self.bytes.join(more.bytes);
        self.whole = self.whole || more.whole;
    }
}

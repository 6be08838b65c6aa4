//! Whether the lists of an export are in their order.
ghost use Rattle.std.specs.Prelude.{◌≡◌, ◌<◌, AllPairs, IsTrue, None};
ghost use Rattle.lock_server.specs.Ordered.{AreInOrder, IsInOrder, IsLockBefore, IsNoteBefore};
ghost use Rattle.lock_server.specs.Reading.{Always, Succeeds};
ghost use Rattle.range_core.specs.Ranges.{IsApart};

use super::fault;
use super::parts::{FilePart, Note, Parts};
use crate::{Flaw, FlockLock, ImportFault, Lock};

/// A thing on a list with an order.
trait Placed {
    /// This one may stand before the other.
    ghost may_precede: { Self → Self → Type 0 };

    /// Whether this one may stand before the other.
    fn is_before(&self, other: &Self) -> bool
        ensures { may_precede self.now other.now → IsTrue result };
}

impl Placed for Lock {
    ghost may_precede = { IsLockBefore };

    /// By owner and first byte; locks of one owner lie apart, and where they touch their modes differ.
    fn is_before(&self, other: &Lock) -> bool {
        self.owner < other.owner || self.owner == other.owner && self.is_apart(other)
    }
}

impl Lock {
    /// Whether it lies before the other, and they aren't parts of one.
    fn is_apart(&self, other: &Lock) -> bool
        ensures { IsApart (self.now.mode, self.now.span) (other.now.mode, other.now.span) → IsTrue result }
    {
        self.span.last < other.span.first
            && (self.mode != other.mode || other.span.first - self.span.last > 1)
    }
}

impl Placed for FlockLock {
    ghost may_precede = { λ one other. one.owner < other.owner };

    /// By owner.
    fn is_before(&self, other: &FlockLock) -> bool {
        self.owner < other.owner
    }
}

impl Placed for FilePart {
    ghost may_precede = { λ one other. one.number < other.number };

    /// By number.
    fn is_before(&self, other: &FilePart) -> bool {
        self.number < other.number
    }
}

impl Placed for u64 {
    ghost may_precede = { λ one other. one < other };

    /// Rising.
    fn is_before(&self, other: &u64) -> bool {
        *self < *other
    }
}

impl Placed for Note {
    ghost may_precede = { IsNoteBefore };

    /// By file, and then by owner.
    fn is_before(&self, other: &Note) -> bool {
        self.file < other.file || self.file == other.file && self.owner < other.owner
    }
}

/// The place of the first thing that may not stand behind the one before it.
fn first_misplaced<T: Placed>(items: &[T]) -> Option<usize>
    ensures { AllPairs T.may_precede items.now → result ≡ None }
{
    for i in 1..items.len() {
        if !items[i - 1].is_before(&items[i]) {
            return Some(i);
        }
    }
    None
}

impl Parts {
    /// Whether each list is in its order, but those of waits and grants, which are in any; or else what isn't first.
    pub fn check_order(&self) -> Result<(), ImportFault>
        ensures { AreInOrder self.now → Succeeds result Always }
    {
        let unordered = first_misplaced(&self.files);
        for (i, file) in self.files.iter().enumerate() {
            if unordered == Some(i) {
                return Err(fault(Flaw::Order, self.file_offset(i)));
            }
            if let Some(offset) = file.unordered() {
                let start = self.file_offset(i);
                return Err(fault(Flaw::Order, start.saturating_add(offset)));
            }
        }
        self.check_numbers()
    }

    /// The same of the crossed owners and the notes.
    fn check_numbers(&self) -> Result<(), ImportFault>
        ensures { AreInOrder self.now → Succeeds result Always }
    {
        if let Some(place) = first_misplaced(&self.crossed) {
            return Err(fault(Flaw::Order, self.crossed_offset(place)));
        }
        match first_misplaced(&self.notes) {
            Some(place) => Err(fault(Flaw::Order, self.note_offset(place))),
            None => Ok(()),
        }
    }
}

impl FilePart {
    /// At which of the bytes of the file the first lock begins that isn't in its order.
    fn unordered(&self) -> Option<usize>
        ensures { IsInOrder self.now → result ≡ None }
    {
        if let Some(place) = first_misplaced(&self.locks) {
            return Some(self.lock_offset(place));
        }
        let place = first_misplaced(&self.flocks)?;
        Some(self.flock_offset(place))
    }
}

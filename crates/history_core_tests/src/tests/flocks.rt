//! Locks of the whole file (flock(2)).
use super::lines::Line::{Refused, Sent, Told};
use super::lines::{ALL, Line, read_each};
use history_core::Action::{Close, Flock, FlockUnlock, FlockWait, Get, Set};
use history_core::Answer::{Busy, Deadlock, Done, Error, Free, Interrupted};
use range_core::Memory;
use range_core::Mode::{Read, Write};

/// Shared locks share the file, and an exclusive one doesn't; byte locks and flock locks don't meet.
const SHARED: &[Line] = &[
    Sent(1, 1, Flock(Read)),
    Refused(1, Busy),
    Told(1, Done),
    Sent(2, 2, FlockWait(Read)),
    Told(2, Done),
    Sent(3, 3, Flock(Write)),
    Refused(3, Done),
    Told(3, Busy),
    Sent(3, 3, Set(Write, ALL)),
    Told(3, Done),
    Sent(4, 4, Get(Write, ALL)),
    Refused(4, Free),
    Told(4, Error),
    Sent(1, 1, FlockUnlock),
    Told(1, Done),
    Sent(3, 3, FlockWait(Write)),
    Refused(3, Done),
    Refused(3, Deadlock),
    Sent(2, 2, Close),
    Told(3, Done),
    Told(2, Done),
    // The mode that is held is given again.
    Sent(3, 3, Flock(Write)),
    Refused(3, Busy),
    Told(3, Done),
    Sent(1, 1, Flock(Read)),
    Refused(1, Done),
    Told(1, Busy),
];

/// An upgrade isn't granted beside another's shared lock; where it is refused, it may have lost the old lock.
const LOST_UPGRADE: &[Line] = &[
    Sent(1, 1, Flock(Read)),
    Told(1, Done),
    Sent(2, 2, Flock(Read)),
    Told(2, Done),
    Sent(1, 1, Flock(Write)),
    Refused(1, Done),
    Told(1, Busy),
    Sent(2, 2, Flock(Write)),
    // So the first one lost its shared lock.
    Told(2, Done),
    Sent(3, 3, Flock(Read)),
    Refused(3, Done),
    Told(3, Busy),
    Sent(1, 1, Flock(Write)),
    Told(1, Busy),
    // An exclusive lock becomes a shared one, maybe by way of none.
    Sent(2, 2, FlockWait(Read)),
    Sent(3, 3, Flock(Write)),
    Told(3, Done),
    Refused(2, Done),
    Told(2, Interrupted),
    Sent(1, 1, Flock(Read)),
    Told(1, Busy),
];

/// It may have kept it, too.
const KEPT_UPGRADE: &[Line] = &[
    Sent(1, 1, Flock(Read)),
    Told(1, Done),
    Sent(2, 2, Flock(Read)),
    Told(2, Done),
    Sent(1, 1, Flock(Write)),
    Told(1, Busy),
    Sent(3, 3, Flock(Write)),
    Told(3, Busy),
    Sent(2, 2, FlockUnlock),
    Told(2, Done),
    Sent(3, 3, Flock(Write)),
    Told(3, Busy),
    // So the first one has it yet, and keeps it, for no conversion of it is open.
    Sent(3, 3, Flock(Write)),
    Refused(3, Done),
    Told(3, Busy),
    Sent(1, 1, FlockWait(Write)),
    Refused(1, Deadlock),
    Told(1, Done),
];

/// A conversion that is open may lose its lock at a moment of its own, and then waits for those that came in between.
const IN_BETWEEN: &[Line] = &[
    Sent(1, 1, Flock(Read)),
    Told(1, Done),
    Sent(2, 1, FlockWait(Write)),
    Sent(3, 2, Flock(Write)),
    Told(3, Done),
    Refused(2, Done),
    Sent(4, 3, Flock(Read)),
    Told(4, Busy),
    Sent(3, 2, FlockUnlock),
    Told(2, Done),
    Told(3, Done),
    Sent(4, 3, Flock(Read)),
    Refused(4, Done),
    Told(4, Busy),
];

#[test]
fn of_flock_locks(rt: HostRuntime) -> Result<(), Memory> {
    let histories = [SHARED, LOST_UPGRADE, KEPT_UPGRADE, IN_BETWEEN];
    read_each(&rt, rt.alloc(), false, &histories)
}
